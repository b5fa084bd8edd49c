// The orders of a sheet, among its present jobs, with a table of widest own times that is as large as it has to be.
#![tactic(auto)]

ghost use Rattle.std.specs.Prelude.{◌≤◌, map};
ghost use Rattle.sheet.specs.WellFormed.{said_by};
ghost use Rattle.order_guard.specs.Basis.{sheet_of};
ghost use Rattle.order_shown.specs.View.{OrdersOf};
ghost use Rattle.order_table.specs.View.{OrdersAsk, Strided, large};

use index::{Column, Columns};
use order_guard::Basis;
use order_shown::Orders;
use own_times::OwnRows;
use sheet::{Sheet, WellFormed};

// Room for the table of widest own times: a mark and a row for each event.
const SMALL: usize = 1000;

const MIDDLE: usize = 2560;

const LARGE: usize = (Sheet::MAX_EVENTS + 2) * Sheet::MAX_EVENTS;

// In a table of this room. (No heap: a small one is cleared soon.)
fn in_table<const ROOM: usize>(basis: Basis, jobs: &[bool]) -> Orders
    requires orders_ask { OrdersAsk basis.sheet basis.columns basis.own jobs.now }
    requires strided { Strided basis.sheet basis.columns basis.stride ROOM }
    requires room { ROOM ≤ large }
    ensures { OrdersOf (sheet_of basis.entry) result }
{
    let mut table = [0u16; ROOM];
    Orders::new(basis, jobs, &mut table)
}

// In a table that is not small: the middle one, or, called again, the large one. That it calls itself keeps the compiler from
// putting all tables into the frame of its caller: an ordinary sheet takes little of the stack.
fn in_larger(basis: Basis, jobs: &[bool], room: usize, again: bool) -> Orders
    requires orders_ask { OrdersAsk basis.sheet basis.columns basis.own jobs.now }
    requires strided { Strided basis.sheet basis.columns basis.stride room × (room ≤ large) }
    ensures { OrdersOf (sheet_of basis.entry) result }
{
    if again {
        return in_table::<LARGE>(basis, jobs);
    }
    if room <= MIDDLE {
        return in_table::<MIDDLE>(basis, jobs);
    }
    let orders = in_larger(basis, jobs, room, true);
    orders
}

// The orders, by the rows of own rules and the least own times, and by the marks of the wanted jobs.
// Equals: of each fact of the sheet whether it is ClearedLast, ClearedFirst (OrdersOf)
// Free: the marks behind the last fact: nothing is said of them.
pub fn shown<'a, 'o>(
    sheet: &WellFormed,
    columns: Columns<'a>,
    own: OwnRows<'o>,
    jobs: &[bool],
) -> Orders
    requires { OrdersAsk sheet.now (map (λ x. x.now) columns) (map (λ x. x.now) own) jobs.now }
    ensures { OrdersOf (said_by sheet.now) result }
{
    let span = columns[Column::SPAN];
    let m = own_times::stride(sheet, span);
    let room = sheet.view.events + m * sheet.view.events + sheet.view.events;
    let basis = Basis::new(sheet, columns, own, m);
    if room <= SMALL {
        return in_table::<SMALL>(basis, jobs);
    }
    in_larger(basis, jobs, room, false)
}

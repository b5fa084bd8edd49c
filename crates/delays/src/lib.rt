// The delays of a list's instances: a list that the judge accepts, with each instance as late as its delay says.
#![tactic(auto)]

ghost use Rattle.std.specs.Prelude.{◌≡◌};
ghost use Rattle.rules.specs.Late.{delays_ok};
ghost use Rattle.instances.specs.Rows.{RowRoom};
ghost use Rattle.delays.specs.Trial.{LateRows, Shifted, Trials};

use judge::Refusal;
use list_reader::RunList;
use plan_points::Row;
use sheet::WellFormed;

// The most ticks that an instance may be late.
const MOST_DELAY: u16 = 600;

// A sheet, and how many rows hold the events of a list's delayed instances.
#[derive(Clone, Copy)]
pub struct Delayed<'a> {
    pub sheet: WellFormed<'a>,
    pub rows: usize,
}

// One delay for each of n instances, none above the most.
fn in_order(delays: &[u16], n: usize) -> bool
    ensures { result ≡ delays_ok delays.now n }
{
    if delays.len() != n {
        return false;
    }
    delays.iter().all(|delay| *delay <= MOST_DELAY)
}

// Each row at its tick plus its instance's delay.
fn shift(delays: &[u16], rows: &mut [u32], count: usize)
    requires { LateRows delays.now rows.old count }
    ensures { Shifted delays.now rows.old count rows.new }
{
    for k in 0..count {
        let x = rows[k];
        let entry = Row::entry(x);
        let tick = Row::tick(x) + usize::from(delays[entry]);
        rows[k] = Row::pack(sorting::group_of(x), tick, entry);
    }
}

// The refusal, or the sheet of an accepted list, with the events of the delayed instances in rows. The judge comes before the delays.
// Equals: Err with the number that Late and Moved have before the delayed list is tried; or Ok with what sheet_of b says, as the reader gives it (Trials)
// Free: with Ok the order of the rows, repeats and so their count: they are the events of all delayed instances, and only such (EventRows).
// Free: the places behind the last row, and with Err all places: nothing is said of them.
pub fn apply<'a>(
    b: &'a [u8],
    l: &[u8],
    delays: &[u16],
    rows: &mut [u32],
) -> Result<Delayed<'a>, Refusal>
    requires { RowRoom rows.old }
    ensures { Trials b.now l.now delays.now rows.new result }
{
    let sheet = reader::read(b)?;
    let n = judge::accept(&sheet, l, rows)?;
    if !in_order(delays, RunList::count(l)) {
        return Err(Refusal::ListForm);
    }
    shift(delays, rows, n);
    Ok(Delayed {
        sheet: sheet,
        rows: n,
    })
}

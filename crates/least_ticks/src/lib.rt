// The least ticks of a sheet inside the class: of its least own times raised until they meet the list rules, or that there is no plan.
#![tactic(auto)]

ghost use Rattle.std.specs.Prelude.{◌≤◌, map, length};
ghost use Rattle.laws.specs.Columns.{col};
ghost use Rattle.laws.specs.Limits.{most_events};
ghost use Rattle.laws.specs.Test.{Says};
ghost use Rattle.list_rules.specs.View.{sheet_of, columns_of, marks_of, IsMarked};
ghost use Rattle.own_times.specs.View.{LeastOwns};
ghost use Rattle.least_ticks.specs.View.{
  Bar,
  Able,
  AsksTicks,
  AsksRaise,
  LeastCopied,
  TicksAre,
  RaisedTo,
  TriedIs,
  SolvedIs,
  rows_most,
};

use index::Column;
use kernel_least::{Impossible, Range, Rules};
use list_rules::{ListRules, Marked};
use own_times::{OwnColumn, OwnRows};
use sheet::Sheet;

// How long columns are that are cleared soon and hold the rows of most sheets, and how long those that hold all rows there can be.
const SHORT: usize = 1000;

const LONG: usize = ListRules::MAX;

// Does a wanted fact lack a source, or does a wanted job clear a goal for good?
fn barred<'b, 'c, 'm>(marked: &Marked<'b, 'c, 'm>) -> bool
    requires { IsMarked marked.now }
    ensures { Says (Bar (sheet_of marked.now)) result }
{
    marked.no_source() || marked.cleared_goal()
}

// Raises x to the least ticks above it that keep the rows, job by job as the order advises.
fn raise<'b, 'c, 'm, 'a>(
    marked: &Marked<'b, 'c, 'm>,
    order: &[u16],
    first: &'a [u16],
    to: &'a [u16],
    weight: &'a [u16],
    x: &mut [u16],
) -> Result<(), Impossible>
    requires { AsksRaise marked.now.sheet first.now to.now weight.now x.old }
    ensures { RaisedTo (sheet_of marked.now) first.now to.now weight.now x.old x.new result }
{
    let range = Range {
        lo: 0,
        hi: marked.sheet.view.events,
        ceiling: marked.sheet.view.horizon,
    };
    kernel_least::raise_along(
        [first, to, weight],
        range,
        order,
        marked.columns[Column::SPAN],
        x,
    )
}

// The least ticks that meet the list rules, from the least own times x, if the rows of these rules fit into columns of length N. The
// columns are not put into the frame of the caller: an ordinary sheet takes little of the stack.
#[inline(never)]
fn in_columns<'b, 'c, 'm, 'r, const N: usize>(
    marked: &Marked<'b, 'c, 'm>,
    rules: Rules<'r>,
    order: &[u16],
    x: &mut [u16],
) -> Option<Result<(), Impossible>>
    requires marked_sheet { IsMarked marked.now }
    requires asks_ticks { AsksTicks (sheet_of marked.now) (map (λ x. x.now) rules) x.now }
    requires room { N ≤ rows_most }
    ensures { TriedIs (sheet_of marked.now) N N x.old x.new result }
{
    let mut first = [0u16; Sheet::MAX_EVENTS + 1];
    let mut to = [0u16; N];
    let mut weight = [0u16; N];
    if !marked.rows(rules, &mut first, &mut to, &mut weight) {
        return None;
    }
    Some(raise(marked, order, &first, &to, &weight, x))
}

// The least ticks that meet the list rules, from the least own times x: in short columns or, where they are too short, in long ones.
fn least_ticks<'b, 'c, 'm, 'r>(
    marked: &Marked<'b, 'c, 'm>,
    rules: Rules<'r>,
    order: &[u16],
    x: &mut [u16],
) -> Result<(), Impossible>
    requires marked_sheet { IsMarked marked.now }
    requires asks_ticks { AsksTicks (sheet_of marked.now) (map (λ x. x.now) rules) x.now }
    ensures { TicksAre (sheet_of marked.now) x.new result }
{
    if let Some(ticks) = in_columns::<SHORT>(marked, rules, order, x) {
        return ticks;
    }
    in_columns::<LONG>(marked, rules, order, x).unwrap()
}

// The least own times, to be raised.
// Equals: the column of least own times, place by place (LeastCopied)
pub fn copied<'o>(own: OwnRows<'o>) -> [u16; Sheet::MAX_EVENTS]
    requires { most_events ≤ length (col (map (λ x. x.now) own) 3) }
    ensures { LeastCopied (col (map (λ x. x.now) own.entry) 3) most_events result }
{
    let least = own[OwnColumn::LEAST];
    let mut x = [0u16; Sheet::MAX_EVENTS];
    x.copy_from_slice(&least[..Sheet::MAX_EVENTS]);
    x
}

// The least ticks of a sheet inside the class, from the least own times x, or that it has no plan.
// Equals: whether there is a plan, and the ticks of wanted jobs (SolvedIs: LeastSolution, NoPlan)
// Free: the ticks of events of other jobs, and those behind the last event; where there is no plan, all ticks: nothing is said of them.
pub fn solve<'b, 'c, 'm, 'o>(
    marked: &Marked<'b, 'c, 'm>,
    own: OwnRows<'o>,
    order: &[u16],
    x: &mut [u16],
) -> Result<(), Impossible>
    requires able { Able marked.now.sheet (columns_of marked.now) (map (λ x. x.now) own) (marks_of marked.now) }
    requires least_owns { LeastOwns (sheet_of marked.now) x.old × (most_events ≤ length x.old) }
    ensures { SolvedIs (sheet_of marked.now) x.new result }
{
    if barred(marked) {
        return Err(Impossible);
    }
    least_ticks(marked, own_times::rules_of(own), order, x)
}

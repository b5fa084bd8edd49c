// Own times: which jobs have them, and how far apart two events of one job can lie in them.
#![tactic(auto)]

ghost use Rattle.rules.specs.Plan.{earliest};
ghost use Rattle.laws.specs.Test.{Says};
ghost use Rattle.sheet.specs.WellFormed.{said_by};
ghost use Rattle.std.specs.Prelude.{◌+◌, ◌*◌, ◌<◌, ◌≤◌, map, length};
ghost use Rattle.own_times.specs.Rules.{bound_rules, most_rules, BeginsNeed, ListRoom, SmallRule, Longer, Collected};
ghost use Rattle.numbers.specs.Size.{word};
ghost use Rattle.index.specs.View.{ByJobOf, KeysOf, PresentEvent, spans_in};
ghost use Rattle.kernel_least.specs.Rows.{RowsFormed, Lent, system_of};
ghost use Rattle.own_times.specs.View.{
  FilledWith,
  JobDone,
  JobFound,
  job_rows,
  OwnRowRoom,
  OwnRowsOf,
  RulesAsk,
  AloneAre,
  StrideIs,
  RulesIn,
  TableAsks,
  RowAsks,
  TableRow,
  Grown,
};
ghost use Rattle.own_times.specs.Wide.{Filled};

use index::{Column, Columns};
use kernel_least::{Impossible, Range, Rules};
use sheet::{Event, Sheet, WellFormed};

// The rules of own times: at most two for a pair, of which there are no more than bounds, and one for a need.
#[derive(Clone, Copy)]
pub struct OwnRules;

impl OwnRules {
    pub const MAX: usize = 2 * Sheet::MAX_BOUNDS + Sheet::MAX_EVENTS / 2;
}

// Puts the rule from a to c at the end of the n rules, unless it always holds within 0 to the horizon; how many there are now.
// No struct holds the three arrays and the count: tried, it misses the bar of the planner's sheet of 12 jobs, since its 3,840 bytes are
// cleared in one piece, byte by byte: 3,600 instructions more.
fn add(
    from: &mut [u16],
    to: &mut [u16],
    weight: &mut [u16],
    n: usize,
    horizon: usize,
    a: usize,
    c: usize,
    w: usize,
) -> usize
    requires { ListRoom from.old to.old weight.old (n + 1) × SmallRule horizon a c w }
    ensures { Longer horizon a c w from.old to.old weight.old n from.new to.new weight.new result }
{
    if w + horizon <= Sheet::ORIGIN {
        return n;
    }
    from[n] = a as u16;
    to[n] = c as u16;
    weight[n] = w as u16;
    n + 1
}

// The two rules of each pair.
fn add_bounds(sheet: &WellFormed, from: &mut [u16], to: &mut [u16], weight: &mut [u16]) -> usize
    requires { ListRoom from.old to.old weight.old bound_rules }
    ensures { Collected (said_by sheet.now) (said_by sheet.now).bounds 0 bound_rules from.new to.new weight.new result }
{
    let horizon = sheet.view.horizon;
    let mut n = 0;
    let mut i = 0;
    // A while: a pair has one row or more, so that it goes on by steps that no range has.
    while i < sheet.view.bounds {
        let c = sheet.pair(i);
        n = add(from, to, weight, n, horizon, c.earlier, c.later, c.low);
        n = add(
            from,
            to,
            weight,
            n,
            horizon,
            c.later,
            c.earlier,
            2 * Sheet::ORIGIN - c.high,
        );
        i = c.next;
    }
    n
}

// Whether event e begins a need.
fn begins(sheet: &WellFormed, keys: &[u16], e: usize) -> bool
    requires { KeysOf (said_by sheet.now) keys.now × (e < (said_by sheet.now).events) }
    ensures { Says (BeginsNeed (said_by sheet.now) e) result }
{
    matches!(Event::of_key(usize::from(keys[e])), Event::Begins(_))
}

// The rule of each need; its end is the event after its begin, so the two are passed at once.
fn add_needs(
    sheet: &WellFormed,
    keys: &[u16],
    from: &mut [u16],
    to: &mut [u16],
    weight: &mut [u16],
    start: usize,
) -> usize
    requires lent { ListRoom from.old to.old weight.old most_rules × KeysOf (said_by sheet.now) keys.now }
    requires collected { Collected (said_by sheet.now) (said_by sheet.now).bounds 0 bound_rules from.old to.old weight.old start }
    ensures { Collected (said_by sheet.now) (said_by sheet.now).bounds (said_by sheet.now).events most_rules from.new to.new weight.new result }
{
    let horizon = sheet.view.horizon;
    let mut n = start;
    let mut e = 0;
    // A while: a for that looks at the ends too was tried; with 1,000 instructions more it misses the bar of the planner's 32 jobs.
    while e < sheet.view.events {
        if begins(sheet, keys, e) {
            n = add(from, to, weight, n, horizon, e, e + 1, Sheet::ORIGIN);
            e += 1;
        }
        e += 1;
    }
    n
}

// The rules of all jobs' own times; how many they are.
// Free: the order of the list, repeats, rules that always hold within 0 to H: it has every other rule of OwnRule, and only such (Collected).
// Free: how many there are, repeats counted, at most most_rules; the places behind the list: nothing is said of them.
pub fn collect(
    sheet: &WellFormed,
    keys: &[u16],
    from: &mut [u16],
    to: &mut [u16],
    weight: &mut [u16],
) -> usize
    requires { ListRoom from.old to.old weight.old most_rules × KeysOf (said_by sheet.now) keys.now }
    ensures { Collected (said_by sheet.now) (said_by sheet.now).bounds (said_by sheet.now).events most_rules from.new to.new weight.new result }
{
    let n = add_bounds(sheet, from, to, weight);
    add_needs(sheet, keys, from, to, weight, n)
}

// The rows of the rules of all jobs' own times.
// Free: the order in a row, repeats, rules that always hold within 0 to H: the rows have every other rule of OwnRule, and only such (OwnRowsOf).
// Free: where the first row starts; each next one starts where the last ends (OwnRowsOf).
// Free: what stands in no row: nothing is said of it.
pub fn rows(sheet: &WellFormed, keys: &[u16], first: &mut [u16], to: &mut [u16], weight: &mut [u16])
    requires { OwnRowRoom first.old to.old weight.old × KeysOf (said_by sheet.now) keys.now }
    ensures { OwnRowsOf (said_by sheet.now) first.new to.new weight.new }
{
    let mut sources = [0u16; OwnRules::MAX];
    let mut targets = [0u16; OwnRules::MAX];
    let mut weights = [0u16; OwnRules::MAX];
    let n = collect(sheet, keys, &mut sources, &mut targets, &mut weights);
    kernel_rows::rows(
        [&sources, &targets, &weights],
        n,
        sheet.view.events,
        first,
        to,
        weight,
    );
}

// The ticks of a range at a floor.
fn fill(x: &mut [u16], range: Range, floor: usize)
    requires { (range.hi ≤ length x.old) × (range.lo ≤ range.hi) × (floor < word) }
    ensures { FilledWith range.lo range.hi floor x.old x.new }
{
    // A for, since the library's fill was tried: it is not done by vectors, and takes 11 to 29 instructions more for each job.
    for e in range.lo..range.hi {
        x[e] = floor as u16;
    }
}

// The least ticks of one job above a floor, if there are any.
fn settle_job<'r>(
    rules: Rules<'r>,
    range: Range,
    floor: usize,
    x: &mut [u16],
) -> Result<(), Impossible>
    requires rows_formed { range.lo < range.hi → RowsFormed (map (λ x. x.now) rules) range }
    requires lent { Lent range.hi range.ceiling x.old × (floor < word) }
    ensures { JobDone (system_of (map (λ x. x.now) rules.entry) range) floor x.old x.new result }
{
    if range.hi <= range.lo {
        return Ok(());
    }
    if range.ceiling < floor {
        return Err(Impossible);
    }
    fill(x, range, floor);
    kernel_least::raise(rules, range, x)
}

// The least ticks of job j above the first tick that it may have; ticks 0, if it has no own times.
fn least_of<'r>(
    sheet: &WellFormed,
    span: &[u16],
    rules: Rules<'r>,
    j: usize,
    x: &mut [u16],
) -> Result<(), Impossible>
    requires rules_ask { RulesAsk sheet.now span.now (map (λ x. x.now) rules) × (j < (said_by sheet.now).jobs) }
    requires b_in_bounds { (said_by sheet.now).events ≤ length x.old }
    ensures { JobFound (job_rows (said_by sheet.now) span.now (map (λ x. x.now) rules.entry) j) (earliest (said_by sheet.now) j) x.old x.new result }
{
    let range = Range {
        lo: usize::from(span[j]),
        hi: usize::from(span[j + 1]),
        ceiling: sheet.view.horizon,
    };
    let settled = settle_job(rules, range, sheet.earliest(j), x);
    if settled.is_err() {
        fill(x, range, 0);
    }
    settled
}

// Which jobs could run alone, and the least own times of each; the others are absent, and their ticks are 0.
// Equals: which jobs RunsAlone, with no mark behind them; their least own times, 0 for absent jobs, and behind the events x as it was (AloneAre)
pub fn least_times<'r>(
    sheet: &WellFormed,
    span: &[u16],
    rules: Rules<'r>,
    x: &mut [u16],
) -> [bool; Sheet::MAX_JOBS]
    requires rules_ask { RulesAsk sheet.now span.now (map (λ x. x.now) rules) }
    requires b_in_bounds { (said_by sheet.now).events ≤ length x.old }
    ensures { AloneAre (said_by sheet.now) x.old x.new result }
{
    let mut present = [false; Sheet::MAX_JOBS];
    for j in 0..sheet.view.jobs {
        present[j] = least_of(sheet, span, rules, j, x).is_ok();
    }
    present
}

// The greatest span of the jobs: how far apart the rows of the table stand.
// Equals: the least number that no span of a job exceeds (StrideIs)
pub fn stride(sheet: &WellFormed, span: &[u16]) -> usize
    requires { ByJobOf (said_by sheet.now) span.now }
    ensures { StrideIs (said_by sheet.now).jobs span.now result }
{
    (0..sheet.view.jobs)
        .map(|j| usize::from(span[j + 1]) - usize::from(span[j]))
        .max()
        .unwrap_or(0)
}

// The rows of own rules and the least own times, lent as one.
pub type OwnRows<'a> = [&'a [u16]; 4];

#[derive(Clone, Copy)]
pub struct OwnColumn;

impl OwnColumn {
    // Where the row of each event starts, and where each rule leads and what it weighs.
    pub const FIRST: usize = 0;

    pub const TO: usize = 1;

    pub const WEIGHT: usize = 2;
    // The least own times.
    pub const LEAST: usize = 3;
}

// The rules of the bundle.
// Equals: the first three columns (RulesIn)
pub fn rules_of<'a>(own: OwnRows<'a>) -> Rules<'a>
    ensures { RulesIn (map (λ x. x.now) own.entry) (map (λ x. x.now) result) }
{
    [
        own[OwnColumn::FIRST],
        own[OwnColumn::TO],
        own[OwnColumn::WEIGHT],
    ]
}

// The row of event e: the table has a mark for each event and then the rows, m ticks apart, each with the ticks at their events' numbers.
fn table_row<'a, 'o>(
    sheet: &WellFormed,
    columns: Columns<'a>,
    own: OwnRows<'o>,
    m: usize,
    e: usize,
    table: &mut [u16],
)
    requires table_asks { TableAsks sheet.now (map (λ x. x.now) columns) (map (λ x. x.now) own) m }
    requires row_asks { RowAsks (said_by sheet.now) sheet.now.view.events m e table.old }
    ensures { TableRow (said_by sheet.now) sheet.now.view.events m (spans_in (map (λ x. x.now) columns.entry)) e table.old table.new }
{
    let j = index::job(sheet.view, sheet.bytes, columns, e);
    let range = Range {
        lo: index::at(columns, Column::SPAN, j),
        hi: index::at(columns, Column::SPAN, j + 1),
        ceiling: sheet.view.horizon,
    };
    let from = sheet.view.events + m * e;
    let end = from + range.hi;
    let least = own[OwnColumn::LEAST];
    kernel_widest::widen(rules_of(own), range, e, least, &mut table[from..end]);
}

// The row of event e, unless it is there already: each is made once, and only if it is asked for.
// Free: which further rows are made, and how late each lies as a whole: e is marked, marked events stay so (Grown), and each has its row (Filled).
// Free: what else stands in no row of a marked event, and by which number above 0 an event is marked: nothing is said of it.
pub fn row<'a, 'o>(
    sheet: &WellFormed,
    columns: Columns<'a>,
    own: OwnRows<'o>,
    m: usize,
    e: usize,
    table: &mut [u16],
)
    requires table_asks { TableAsks sheet.now (map (λ x. x.now) columns) (map (λ x. x.now) own) m × PresentEvent (said_by sheet.now) e }
    requires filled { Filled (said_by sheet.now) sheet.now.view.events m table.old }
    ensures filled_2 { Filled (said_by sheet.now) sheet.now.view.events m table.new }
    ensures grown { Grown (said_by sheet.now).events e table.old table.new }
{
    if 0 < table[e] {
        return;
    }
    table_row(sheet, columns, own, m, e, table);
    table[e] = 1;
}

// The events of a list's instances, in rows, and over them point 1 of "What a plan is".
#![tactic(auto)]

ghost use Rattle.std.specs.Prelude.{◌≡◌, ◌+◌, ◌≤◌, ◌<◌, map, length, get_or};
ghost use Rattle.rules.specs.RunList.{plan_of};
ghost use Rattle.laws.specs.Test.{Says};
ghost use Rattle.sheet.specs.WellFormed.{said_by};
ghost use Rattle.index.specs.View.{KeysOf};
ghost use Rattle.instances.specs.Chain.{before, Unchained, Chained};
ghost use Rattle.instances.specs.Rows.{entry_jobs, Lists, BodyFits, BodyFilled, RowRoom, EventRows};
ghost use Rattle.instances.specs.Own.{next_tick, TimelyEvent, InRows, TimelyRows, MeetsAt, TicksNear, OnePair, PairMet, BoundsMet};
ghost use Rattle.numbers.specs.Size.{word};

use list_reader::RunList;
use plan_points::Row;
use sheet::{Event, Pair, Sheet, WellFormed};

// Where each job's events start, and of each entry its job and the place of its times: three columns, lent as one.
pub type Columns<'a> = [&'a [u16]; 3];

// An instance: its number, its job's events from first up to end, and where its times begin.
#[derive(Clone, Copy)]
pub struct Body {
    pub entry: usize,
    pub first: usize,
    pub end: usize,
    pub place: usize,
}

// A job: its number, its first event, and the last entry of it, if it has one.
#[derive(Clone, Copy)]
pub struct Entries {
    pub job: usize,
    pub first: usize,
    pub last: Option<u8>,
}

// ---- the rows

// The rows of one instance, from place n on; the place after them.
fn fill_body(keys: &[u16], at: Body, l: &[u8], rows: &mut [u32], n: usize) -> usize
    requires { BodyFits keys.now at l.now rows.old n }
    ensures { BodyFilled keys.now at l.now n rows.old rows.new result }
{
    for e in at.first..at.end {
        let tick = RunList::time(l, at.place, at.first, e);
        rows[n + (e - at.first)] = Row::pack(usize::from(keys[e]), tick, at.entry);
    }
    n + (at.end - at.first)
}

// The rows of a list's instances, and how many there are.
// Free: the order of the rows, and repeats: they are the events of all instances, and only such, at most max_times (EventRows).
// Free: which row stands behind that of an event; where its instance has a next event, it has the entry and the tick of that one (EventRow).
// Free: the places behind the last row: nothing is said of them.
pub fn fill<'a>(
    sheet: &WellFormed,
    keys: &[u16],
    columns: Columns<'a>,
    count: usize,
    l: &[u8],
    rows: &mut [u32],
) -> usize
    requires { Lists sheet.now (map (λ x. x.now) columns) count l.now × KeysOf (said_by sheet.now) keys.now × RowRoom rows.old }
    ensures { EventRows (said_by sheet.now) (plan_of (said_by sheet.now) l.now) rows.new result }
{
    let [spans, jobs, places] = columns;
    let mut n = 0;
    for i in 0..count {
        let j = usize::from(jobs[i]);
        let body = Body {
            entry: i,
            first: usize::from(spans[j]),
            end: usize::from(spans[j + 1]),
            place: usize::from(places[i]),
        };
        n = fill_body(keys, body, l, rows, n);
    }
    n
}

// ---- the window, and the needs' ends

// An event's tick is within the window, and a need begins no later than the next event, its end.
fn timely(earliest: usize, latest: usize, event: Event, tick: usize, next: usize) -> bool
    ensures { Says (TimelyEvent earliest latest event tick next) result }
{
    if tick < earliest {
        return false;
    }
    if latest < tick {
        return false;
    }
    match event {
        Event::Begins(_) => tick <= next,
        Event::Ends(_) | Event::Sets(_) | Event::Clears(_) => true,
    }
}

// The tick of the row after row k, 0 behind the last: no Option, since the definition next_tick, on which judge and late stand, says so.
// Equals: next_tick rows count k
pub fn next_tick(rows: &[u32], count: usize, k: usize) -> usize
    requires { (count ≤ length rows.now) × (k < count) × (count < word) }
    ensures { (result ≡ next_tick rows.now count k) × (result < word) }
{
    if k + 1 < count {
        Row::tick(rows[k + 1])
    } else {
        0
    }
}

// Equals: whether TimelyRows holds
pub fn rows_timely<'a>(sheet: &WellFormed, columns: Columns<'a>, rows: &[u32], count: usize) -> bool
    requires { InRows sheet.now (entry_jobs (map (λ x. x.now) columns)) rows.now count }
    ensures { Says (TimelyRows (said_by sheet.now) (entry_jobs (map (λ x. x.now) columns.entry)) rows.now count) result }
{
    let [_, jobs, _] = columns;
    let latest = sheet.latest();
    for k in 0..count {
        let x = rows[k];
        let earliest = sheet.earliest(usize::from(jobs[Row::entry(x)]));
        let next = next_tick(rows, count, k);
        if !timely(earliest, latest, Row::event(x), Row::tick(x), next) {
            return false;
        }
    }
    true
}

// ---- the bounds

// Links each entry to the one before it of its job, and `last` leads to the last entry of each job. There it is one byte, the entry plus 1, or 0
// for none: an Option is two, written one by one and read at once by the next entry of the job, which the processor waits for.
fn chain(group: &[u16], count: usize, link: &mut [Option<u8>], last: &mut [u8])
    requires { Unchained group.now count link.old (map before last.old) }
    ensures { Chained group.now count link.new (map before last.new) }
{
    for k in 0..count {
        let g = usize::from(group[k]);
        link[k] = last[g].checked_sub(1);
        last[g] = (k + 1) as u8;
    }
}

// The tightest of a pair, for the ticks of its two events.
fn meets(c: Pair, later: usize, earlier: usize) -> bool
    requires { TicksNear c later earlier }
    ensures { Says (MeetsAt c later earlier) result }
{
    if later + Sheet::ORIGIN < earlier + c.low {
        return false;
    }
    if earlier + c.high < later + Sheet::ORIGIN {
        return false;
    }
    true
}

// A pair of a job, for every entry of the job.
fn pair_met(
    c: Pair,
    at: Entries,
    count: usize,
    job: &[u16],
    place: &[u16],
    link: &[Option<u8>],
    l: &[u8],
) -> bool
    requires { OnePair c at count job.now place.now link.now l.now }
    ensures { Says (PairMet c at.job at.first count job.now place.now l.now) result }
{
    let mut last = at.last;
    while let Some(k) = last {
        let i = usize::from(k);
        let body = usize::from(place[i]);
        let later = RunList::time(l, body, at.first, c.later);
        if !meets(c, later, RunList::time(l, body, at.first, c.earlier)) {
            return false;
        }
        last = link[i];
    }
    true
}

// Every bound of the sheet, for every entry.
// Equals: whether BoundsMet holds
pub fn bounds_met<'a>(sheet: &WellFormed, columns: Columns<'a>, count: usize, l: &[u8]) -> bool
    requires { Lists sheet.now (map (λ x. x.now) columns) count l.now }
    ensures { Says (BoundsMet (said_by sheet.now) (plan_of (said_by sheet.now) l.now)) result }
{
    let [first, job, place] = columns;
    let mut link = [None; RunList::MAX_INSTANCES];
    let mut last = [0u8; Sheet::MAX_JOBS];
    chain(job, count, &mut link, &mut last);
    let mut k = 0;
    // A while: a pair has one row or more, so that it goes on by steps that no range has.
    while k < sheet.view.bounds {
        let c = sheet.pair(k);
        let j = sheet.job(c.later);
        let at = Entries {
            job: j,
            first: usize::from(first[j]),
            last: last[j].checked_sub(1),
        };
        if !pair_met(c, at, count, job, place, &link, l) {
            return false;
        }
        k = c.next;
    }
    true
}

// The planner's list, written into a lent buffer: one entry for each marked job, by rising code, and
// the ticks of its events. If it does not fit, the buffer is unchanged.
#![tactic(auto, unfolding(rules::specs::Sheet::max_jobs, rules::specs::Sheet::max_events))]

ghost use Rattle.std.specs.Prelude.{ℕ, ◌+◌, ◌<◌, ◌≤◌, ◌≡◌, ◌++◌, map, length};
ghost use Rattle.rules.specs.Sheet.{max_events};
ghost use Rattle.rules.specs.RunList.{events_of};
ghost use Rattle.laws.specs.Limits.{AllBytes};
ghost use Rattle.sheet.specs.WellFormed.{said_by};
ghost use Rattle.index.specs.View.{IndexOf};
ghost use Rattle.byte_writer.specs.Bytes.{pair, joined};
ghost use Rattle.list_writer.specs.ListBytes.{head_size, entry_size, head_bytes, entries_of, bodies_of, ticks_from, list_bytes, marked, tick_of};
ghost use Rattle.byte_writer.specs.Fill.{laid};
ghost use Rattle.list_writer.specs.View.{JobsCounted, TimesCounted, EntriesFit, BodiesFit, TicksFit, Wrote};

use byte_writer::put;
use index::{Column, Columns};
use sheet::{Sheet, WellFormed};

// What the type of a slice says of it, as a fact; the prover doesn't read it off a field's type. It does nothing.
fn bytes_fit(bytes: &[u8])
    ensures { AllBytes bytes.now }
{}

// The first four bytes, for this many entries.
fn head(out: &mut [u8], count: usize)
    requires { head_size ≤ length out.old }
    ensures { out.new ≡ laid out.old 0 (head_bytes count) }
{
    put(out, 0, 1);
    put(out, 2, count);
}

// One entry: a job code, and the offset of its body.
fn entry(out: &mut [u8], at: usize, code: usize, place: usize)
    requires { at + entry_size ≤ length out.old }
    ensures { out.new ≡ laid out.old at (pair code ++ pair place) }
{
    put(out, at, code);
    put(out, at + 2, place);
}

// How many events job j has.
fn events<'a>(sheet: &WellFormed, columns: Columns<'a>, j: usize) -> usize
    requires { IndexOf (said_by sheet.now) (map (λ x. x.now) columns) × (j < (said_by sheet.now).jobs) }
    ensures { (result ≡ events_of (said_by sheet.now) j) × (result ≤ max_events) }
{
    index::at(columns, Column::SPAN, j + 1) - index::at(columns, Column::SPAN, j)
}

// How many jobs are marked.
fn count(sheet: &WellFormed, jobs: &[bool; Sheet::MAX_JOBS]) -> usize
    ensures { JobsCounted (said_by sheet.now) (marked jobs.now) result }
{
    jobs[..sheet.view.jobs]
        .iter()
        .filter(|marked| **marked)
        .count()
}

// How many events the marked jobs have.
fn times<'a>(sheet: &WellFormed, columns: Columns<'a>, jobs: &[bool; Sheet::MAX_JOBS]) -> usize
    requires { IndexOf (said_by sheet.now) (map (λ x. x.now) columns) }
    ensures { TimesCounted (said_by sheet.now) (marked jobs.now) result }
{
    let mut n = 0;
    for j in 0..sheet.view.jobs {
        if jobs[j] {
            n += events(sheet, columns, j);
        }
    }
    n
}

// How many bytes the list of the marked jobs has.
// Equals: the length of list_bytes
pub fn length<'a>(sheet: &WellFormed, columns: Columns<'a>, jobs: &[bool; Sheet::MAX_JOBS]) -> usize
    requires { IndexOf (said_by sheet.now) (map (λ x. x.now) columns) }
    ensures { (t : ℕ → ℕ) → result ≡ length (list_bytes (said_by sheet.now) (marked jobs.now) t) }
{
    4 + 4 * count(sheet, jobs) + 2 * times(sheet, columns, jobs)
}

// The entries of the marked jobs, of which there are n, by rising number.
fn entries<'a>(
    sheet: &WellFormed,
    columns: Columns<'a>,
    jobs: &[bool; Sheet::MAX_JOBS],
    n: usize,
    out: &mut [u8],
)
    requires { IndexOf (said_by sheet.now) (map (λ x. x.now) columns) × EntriesFit (said_by sheet.now) (marked jobs.now) n out.old }
    ensures { out.new ≡ laid out.old head_size (entries_of (said_by sheet.now) (marked jobs.now)) }
{
    let mut at = 4;
    let mut place = 4 + 4 * n;
    for j in 0..sheet.view.jobs {
        if jobs[j] {
            entry(out, at, sheet.code(j), place);
            at += 4;
            place += 2 * events(sheet, columns, j);
        }
    }
}

// The ticks of n events, from event e on.
fn body(x: &[u16; Sheet::MAX_EVENTS], e: usize, n: usize, at: usize, out: &mut [u8])
    requires { TicksFit e n at out.old }
    ensures { out.new ≡ laid out.old at (joined (ticks_from (tick_of x.now) e) n) }
{
    for i in 0..n {
        put(out, at + 2 * i, usize::from(x[e + i]));
    }
}

// The bodies of the marked jobs, in the order of their entries; the first stands at `start`.
fn bodies<'a>(
    sheet: &WellFormed,
    columns: Columns<'a>,
    jobs: &[bool; Sheet::MAX_JOBS],
    x: &[u16; Sheet::MAX_EVENTS],
    start: usize,
    out: &mut [u8],
)
    requires { IndexOf (said_by sheet.now) (map (λ x. x.now) columns) × BodiesFit (said_by sheet.now) (marked jobs.now) start out.old }
    ensures { out.new ≡ laid out.old start (bodies_of (said_by sheet.now) (marked jobs.now) (tick_of x.now)) }
{
    let mut at = start;
    for j in 0..sheet.view.jobs {
        if jobs[j] {
            let n = events(sheet, columns, j);
            body(x, index::at(columns, Column::SPAN, j), n, at, out);
            at += 2 * n;
        }
    }
}

// Writes the list of the marked jobs, with the tick of each event, if it fits; its length in either case.
// Equals: the length of list_bytes, and the buffer with these bytes if they fit, else as it was (Wrote; one result, by wrote_same)
pub fn write<'a>(
    sheet: &WellFormed,
    columns: Columns<'a>,
    jobs: &[bool; Sheet::MAX_JOBS],
    x: &[u16; Sheet::MAX_EVENTS],
    out: &mut [u8],
) -> usize
    requires { IndexOf (said_by sheet.now) (map (λ x. x.now) columns) }
    ensures { Wrote (said_by sheet.now) (marked jobs.now) (tick_of x.now) out.old out.new result }
{
    bytes_fit(sheet.bytes);
    let size = length(sheet, columns, jobs);
    if size <= out.len() {
        let n = count(sheet, jobs);
        head(out, n);
        entries(sheet, columns, jobs, n, out);
        bodies(sheet, columns, jobs, x, 4 + 4 * n, out);
    }
    size
}

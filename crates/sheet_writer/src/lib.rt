// A sheet's bytes in either edition, written into a lent buffer from what the sheet says.
#![tactic(auto)]

ghost use Rattle.std.specs.Prelude.{◌+◌, ◌*◌, ◌<◌, ◌≤◌, ◌≡◌, length};
ghost use Rattle.rules.specs.Sheet.{facts_head, job_row};
ghost use Rattle.numbers.specs.Size.{byte_values, word};
ghost use Rattle.sheet.specs.WellFormed.{said_by};
ghost use Rattle.byte_writer.specs.Bytes.{joined};
ghost use Rattle.byte_writer.specs.Fill.{laid};
ghost use Rattle.sheet_bytes.specs.SheetBytes.{contents_size, event_size, bound_size, jobs_size, events_size, bounds_size, sheet_size};
ghost use Rattle.sheet_bytes.specs.SheetBytes.{entry_bytes, contents_bytes, head_bytes, job_bytes, jobs_bytes, event_bytes, events_bytes};
ghost use Rattle.sheet_bytes.specs.SheetBytes.{signed_pair, bound_bytes, bounds_bytes, sheet_bytes};
ghost use Rattle.sheet_writer.specs.View.{entry_size, IsEdition, PlacesFor, mark_byte};

use byte_writer::{put, put_byte};
use sheet::{Places, Sheet, WellFormed};

// In the contents: the count of parts, and where the entry of each part stands.
const PARTS: usize = 4;

const FACTS_ENTRY: usize = 2;

const JOBS_ENTRY: usize = 8;

const EVENTS_ENTRY: usize = 14;

const BOUNDS_ENTRY: usize = 20;

// The kinds of the parts.
const FACTS: usize = 1;

const JOBS: usize = 2;

const EVENTS: usize = 3;

const BOUNDS: usize = 4;

// The rows of an event and of a bound.
const EVENT_ROW: usize = 3;

const BOUND_ROW: usize = 6;

// Where the bodies start in this edition. An edition is its number, as byte 0 has it: sizes are told of any number, and writing alone
// asks for 1 or 2, so an enum would be turned back into the number in every function.
fn places(sheet: &WellFormed, edition: usize) -> Places
    ensures { PlacesFor edition (said_by sheet.now) result }
{
    let jobs = Sheet::FACTS_AT + Sheet::facts_head(edition) + sheet.view.facts;
    let events = jobs + Sheet::job_row(edition) * sheet.view.jobs;
    Places {
        facts: Sheet::FACTS_AT,
        jobs,
        events,
        bounds: events + EVENT_ROW * sheet.view.events,
    }
}

// How many bytes the sheet has in this edition.
// Equals: sheet_size edition (said_by sheet)
pub fn size(sheet: &WellFormed, edition: usize) -> usize
    ensures { result ≡ sheet_size edition (said_by sheet.now) }
{
    let at = places(sheet, edition);
    at.bounds + BOUND_ROW * sheet.view.bounds
}

// The contents' entry of a part: kind, a zero byte, offset, length.
fn entry(out: &mut [u8], at: usize, kind: usize, offset: usize, size: usize)
    requires { (at + entry_size ≤ length out.old) × (kind < byte_values) }
    ensures { out.new ≡ laid out.old at (entry_bytes kind offset size) }
{
    put_byte(out, at, kind);
    put_byte(out, at + 1, 0);
    put(out, at + 2, offset);
    put(out, at + 4, size);
}

// The contents of a sheet whose bodies start at these places.
fn contents(sheet: &WellFormed, edition: usize, at: Places, out: &mut [u8])
    requires { IsEdition edition × PlacesFor edition (said_by sheet.now) at × (contents_size ≤ length out.old) }
    ensures { out.new ≡ laid out.old 0 (contents_bytes edition (said_by sheet.now)) }
{
    put_byte(out, 0, edition);
    put_byte(out, 1, PARTS);
    entry(out, FACTS_ENTRY, FACTS, at.facts, at.jobs - at.facts);
    entry(out, JOBS_ENTRY, JOBS, at.jobs, at.events - at.jobs);
    entry(
        out,
        EVENTS_ENTRY,
        EVENTS,
        at.events,
        EVENT_ROW * sheet.view.events,
    );
    entry(
        out,
        BOUNDS_ENTRY,
        BOUNDS,
        at.bounds,
        BOUND_ROW * sheet.view.bounds,
    );
}

// The head of the facts body, before the marks.
fn head(sheet: &WellFormed, edition: usize, gap: usize, out: &mut [u8])
    requires { (gap < byte_values) × (contents_size + facts_head edition ≤ length out.old) }
    ensures { out.new ≡ laid out.old contents_size (head_bytes edition gap (said_by sheet.now)) }
{
    put_byte(out, Sheet::FACTS_AT, sheet.view.facts);
    put(out, Sheet::FACTS_AT + 1, sheet.view.horizon);
    if edition == Sheet::EDITION_2 {
        put_byte(out, Sheet::GAP_AT, gap);
        put(out, Sheet::REVISION_AT, sheet.revision());
    }
}

// The marks, the first at this place; and so with the rows of the other bodies. Each body has its own loop of three lines: one for all
// would take row length and writer as parameters, and say no less.
fn marks(sheet: &WellFormed, at: usize, out: &mut [u8])
    requires { at + (said_by sheet.now).facts ≤ length out.old }
    ensures { out.new ≡ laid out.old at (joined (mark_byte (said_by sheet.now)) (said_by sheet.now).facts) }
{
    for f in 0..sheet.view.facts {
        put_byte(out, at + f, sheet.mark(f));
    }
}

// The row of job j.
fn job(sheet: &WellFormed, edition: usize, j: usize, at: usize, out: &mut [u8])
    requires { (j < (said_by sheet.now).jobs) × (at + job_row edition ≤ length out.old) }
    ensures { out.new ≡ laid out.old at (job_bytes edition (said_by sheet.now) j) }
{
    put(out, at, sheet.code(j));
    if edition == Sheet::EDITION_2 {
        put(out, at + Sheet::RELEASE_IN, sheet.release(j));
    }
}

fn jobs(sheet: &WellFormed, edition: usize, at: usize, out: &mut [u8])
    requires { at + jobs_size edition (said_by sheet.now) ≤ length out.old }
    ensures { out.new ≡ laid out.old at (jobs_bytes edition (said_by sheet.now)) }
{
    let row = Sheet::job_row(edition);
    for j in 0..sheet.view.jobs {
        job(sheet, edition, j, at + row * j, out);
    }
}

// The row of event e.
fn event(sheet: &WellFormed, e: usize, at: usize, out: &mut [u8])
    requires { (e < (said_by sheet.now).events) × (at + event_size ≤ length out.old) }
    ensures { out.new ≡ laid out.old at (event_bytes ((said_by sheet.now).event e)) }
{
    let row = sheet.row(e);
    put_byte(out, at, row.job);
    put_byte(out, at + 1, row.kind);
    put_byte(out, at + 2, row.fact);
}

fn events(sheet: &WellFormed, at: usize, out: &mut [u8])
    requires { at + events_size (said_by sheet.now) ≤ length out.old }
    ensures { out.new ≡ laid out.old at (events_bytes (said_by sheet.now)) }
{
    for e in 0..sheet.view.events {
        event(sheet, e, at + EVENT_ROW * e, out);
    }
}

// Writes a signed number that is held plus 32,768.
fn put_signed(out: &mut [u8], at: usize, x: usize)
    requires { (at + 1 < length out.old) × (x < word) }
    ensures { out.new ≡ laid out.old at (signed_pair x) }
{
    put(out, at, (x + Sheet::ORIGIN) % 65536);
}

// The row of bound i.
fn bound(sheet: &WellFormed, i: usize, at: usize, out: &mut [u8])
    requires { (i < (said_by sheet.now).bounds) × (at + bound_size ≤ length out.old) }
    ensures { out.new ≡ laid out.old at (bound_bytes ((said_by sheet.now).bound i)) }
{
    let c = sheet.bound(i);
    put_byte(out, at, c.later);
    put_byte(out, at + 1, c.earlier);
    put_signed(out, at + 2, c.low);
    put_signed(out, at + 4, c.high);
}

fn bounds(sheet: &WellFormed, at: usize, out: &mut [u8])
    requires { at + bounds_size (said_by sheet.now) ≤ length out.old }
    ensures { out.new ≡ laid out.old at (bounds_bytes (said_by sheet.now)) }
{
    for i in 0..sheet.view.bounds {
        bound(sheet, i, at + BOUND_ROW * i, out);
    }
}

// Writes the sheet in this edition; the gap byte is written in edition 2 only.
// Equals: laid out 0 (sheet_bytes edition gap (said_by sheet))
pub fn write(sheet: &WellFormed, edition: usize, gap: usize, out: &mut [u8])
    requires { IsEdition edition × (gap < byte_values) × (sheet_size edition (said_by sheet.now) ≤ length out.old) }
    ensures { out.new ≡ laid out.old 0 (sheet_bytes edition gap (said_by sheet.now)) }
{
    // A copy: behind a reference what is written might be the sheet's own numbers, which would be read anew for each row.
    let own = *sheet;
    let at = places(&own, edition);
    contents(&own, edition, at, out);
    head(&own, edition, gap, out);
    marks(&own, Sheet::FACTS_AT + Sheet::facts_head(edition), out);
    jobs(&own, edition, at.jobs, out);
    events(&own, at.events, out);
    bounds(&own, at.bounds, out);
}

// The sheet reader: of any bytes, the first broken rule of "The sheet", or the sheet that they say.
// One function for each part. Counts are tested against their limits before any loop over rows.
#![tactic(auto)]

ghost use Rattle.std.specs.Prelude.{◌≡◌, true, cond, not, ◌&&◌, ◌||◌, ◌<◌, ◌≤◌, eqb};
ghost use Rattle.rules.specs.Count.{rises, never_falls};
ghost use Rattle.rules.specs.Sheet.{begins, max_facts, start_of, edition_ok, entry_ok, contents_ok, facts_body_ok, jobs_body_ok, event_key, events_body_ok, bound_key, bound_ok, bounds_body_ok};
ghost use Rattle.sheet.specs.View.{meaning, SheetIs, Near, RowsInside, Counted, RowOf};
ghost use Rattle.laws.specs.Formed.{row_ok};
ghost use Rattle.reader.specs.Adjacent.{key_end, follows, event_rows, marks_ok, sides_ok, bound_rows_ok};
ghost use Rattle.reader.specs.Reads.{number_of, Answered, AnsweredIn};
ghost use Rattle.numbers.specs.Size.{byte_values, word};

use sheet::{Event, Sheet, WellFormed, byte_at, two_at};

// What is wrong with a sheet, first number first.
#[derive(Clone, Copy)]
pub enum Fault {
    Contents,
    Facts,
    Jobs,
    Events,
    Bounds,
}

impl From<Fault> for u8 {
    ghost from_gives = { λ x r. r ≡ number_of x };

    // Equals: number_of fault
    fn from(fault: Fault) -> u8 {
        match fault {
            Fault::Contents => 10,
            Fault::Facts => 11,
            Fault::Jobs => 12,
            Fault::Events => 13,
            Fault::Bounds => 14,
        }
    }
}

const PARTS: usize = 4;

// The contents' entry of part i, whose body starts at start.
fn entry_ok(b: &[u8], i: usize, start: usize) -> bool
    requires { (i < 4) × (start ≡ start_of b.now i) }
    ensures { result ≡ entry_ok b.now i }
{
    (byte_at(b, 2 + 6 * i) == i + 1)
        & (byte_at(b, 3 + 6 * i) == 0)
        & (two_at(b, 4 + 6 * i) == start)
}

fn edition_ok(b: &[u8]) -> bool
    ensures { result ≡ edition_ok b.now }
{
    let edition = byte_at(b, 0);
    (edition == Sheet::EDITION_1) | (edition == Sheet::EDITION_2)
}

fn contents_ok(b: &[u8]) -> bool
    ensures { result ≡ contents_ok b.now }
{
    let mut ok = (Sheet::FACTS_AT <= b.len()) & edition_ok(b) & (byte_at(b, 1) == PARTS);
    let mut start = Sheet::FACTS_AT;
    for i in 0..PARTS {
        ok &= entry_ok(b, i, start);
        start += Sheet::length_of(b, i);
    }
    ok & (start == b.len())
}

// Nothing is known to lie inside yet.
fn marks_ok(v: Sheet, b: &[u8]) -> bool
    requires { Near v × (v.facts ≤ max_facts) }
    ensures { result ≡ marks_ok (meaning v b.now) v.facts }
{
    let at = v.marks_at;
    // Not by `all` of the range: it costs four instructions more a row.
    for f in 0..v.facts {
        if Sheet::BOTH < byte_at(b, at + f) {
            return false;
        }
    }
    true
}

fn facts_ok(v: Sheet, b: &[u8]) -> bool
    requires { SheetIs b.now v }
    ensures { result ≡ facts_body_ok b.now }
{
    if Sheet::MAX_FACTS < v.facts {
        return false;
    }
    (Sheet::length_of(b, 0) == v.marks_at - Sheet::FACTS_AT + v.facts)
        & (v.horizon <= Sheet::MAX_HORIZON)
        & (v.gap <= Sheet::MAX_GAP)
        & marks_ok(v, b)
}

// Codes, events and bounds rise each in a loop of its own: they carry unlike things from row to row, and one loop over closures would
// be longer than the three.
fn codes_rise(v: Sheet, b: &[u8]) -> bool
    requires { Counted v b.now }
    ensures { result ≡ rises (meaning v b.now).code v.jobs }
{
    let mut next = 0;
    for j in 0..v.jobs {
        let code = v.code(b, j);
        if code < next {
            return false;
        }
        next = code + 1;
    }
    true
}

fn jobs_ok(v: Sheet, b: &[u8]) -> bool
    requires { SheetIs b.now v × RowsInside v b.now }
    ensures { result ≡ jobs_body_ok b.now }
{
    if Sheet::MAX_JOBS < v.jobs {
        return false;
    }
    (Sheet::length_of(b, 1) == v.job_row * v.jobs) & codes_rise(v, b)
}

// Above every key.
const KEY_END: usize = 16777216;

// An event's place in the order by job, fact and type.
fn key(v: Sheet, b: &[u8], e: usize) -> usize
    requires { RowOf v b.now v.events e }
    ensures { (result ≡ event_key ((meaning v b.now).event e)) × (result < key_end) }
{
    let row = v.row(b, e);
    65536 * row.job + 256 * row.fact + row.kind
}

// 0 where the event must come right after the one before, whose type is `before`: it ends a need, or the one before begins one. Else
// above 0. `before` itself serves, since Event::BEGINS is 0.
fn slack(event: Event, before: usize) -> usize
    requires { before < byte_values }
    ensures { (eqb result 0 ≡ follows event (eqb before begins)) × (result < byte_values) }
{
    match event {
        Event::Ends(_) => 0,
        Event::Begins(_) | Event::Sets(_) | Event::Clears(_) => before,
    }
}

fn event_ok(v: Sheet, b: &[u8], e: usize) -> bool
    requires { RowOf v b.now v.events e }
    ensures { result ≡ row_ok (meaning v b.now) e }
{
    let row = v.row(b, e);
    (row.kind <= Event::CLEARS) & (row.job < v.jobs) & (row.fact < v.facts)
}

// Does the event come right after the one before, if it must? By a sum, so that the match in `slack` needs no branch: the processor often
// guesses a branch on the types wrong.
fn linked(event: Event, before: usize, next: usize, key: usize) -> bool
    requires { (before < byte_values) × (next ≤ key) × (key < key_end) }
    ensures { result ≡ eqb next key || not (follows event (eqb before begins)) }
{
    key <= next + KEY_END * slack(event, before)
}

// Each row by the one before it, whose key is one less than `next` and whose type is `before`.
fn event_rows_ok(v: Sheet, b: &[u8]) -> bool
    requires { Counted v b.now }
    ensures { result ≡ event_rows (meaning v b.now) v.events }
{
    let mut next = 0;
    // Before the first event no need has begun.
    let mut before = Event::ENDS;
    for e in 0..v.events {
        let key = key(v, b, e);
        let event = v.event(b, e);
        if !(event_ok(v, b, e) & (next <= key)) {
            return false;
        }
        if !linked(event, before, next, key) {
            return false;
        }
        next = key + 1;
        before = v.kind(b, e);
    }
    before != Event::BEGINS
}

fn events_ok(v: Sheet, b: &[u8]) -> bool
    requires { SheetIs b.now v × RowsInside v b.now × (facts_body_ok b.now ≡ true) }
    ensures { result ≡ events_body_ok b.now }
{
    if Sheet::MAX_EVENTS < v.events {
        return false;
    }
    (Sheet::length_of(b, 2) == 3 * v.events) & event_rows_ok(v, b)
}

// -10,080 and 10,080, plus 32,768.
const LEAST_SIDE: usize = Sheet::ORIGIN - Sheet::MAX_HORIZON;

const MOST_SIDE: usize = Sheet::ORIGIN + Sheet::MAX_HORIZON;

// A low or a high, or the end of its range where it is none.
fn side_or(side: usize, none: usize, end: usize) -> usize
    ensures { result ≡ cond (eqb side none) end side }
{
    if side == none { end } else { side }
}

// Low is not above high, and each is none or within its range: so are those with the ends of the range for none.
fn sides_ok(low: usize, high: usize) -> bool
    ensures { result ≡ sides_ok low high }
{
    let least = side_or(low, Sheet::NO_LOW, LEAST_SIDE);
    let most = side_or(high, Sheet::NO_HIGH, MOST_SIDE);
    (LEAST_SIDE <= least) & (least <= most) & (most <= MOST_SIDE)
}

fn bound_ok(v: Sheet, b: &[u8], i: usize) -> bool
    requires { RowOf v b.now v.bounds i }
    ensures { result ≡ bound_ok (meaning v b.now) ((meaning v b.now).bound i) }
{
    let c = v.bound(b, i);
    if v.events <= c.later {
        return false;
    }
    if v.events <= c.earlier {
        return false;
    }
    if c.later == c.earlier {
        return false;
    }
    if v.job(b, c.later) != v.job(b, c.earlier) {
        return false;
    }
    sides_ok(c.low, c.high)
}

// A bound's place in the order by its two events.
fn pair_key(v: Sheet, b: &[u8], i: usize) -> usize
    requires { RowOf v b.now v.bounds i }
    ensures { (result ≡ bound_key ((meaning v b.now).bound i)) × (result < word) }
{
    let c = v.bound(b, i);
    256 * c.later + c.earlier
}

fn bound_rows_ok(v: Sheet, b: &[u8]) -> bool
    requires { Counted v b.now }
    ensures { result ≡ bound_rows_ok (meaning v b.now) v.bounds && never_falls (λ i. bound_key ((meaning v b.now).bound i)) v.bounds }
{
    let mut last = 0;
    for i in 0..v.bounds {
        let pair = pair_key(v, b, i);
        if !(bound_ok(v, b, i) & (last <= pair)) {
            return false;
        }
        last = pair;
    }
    true
}

fn bounds_ok(v: Sheet, b: &[u8]) -> bool
    requires { SheetIs b.now v × RowsInside v b.now }
    ensures { result ≡ bounds_body_ok b.now }
{
    if Sheet::MAX_BOUNDS < v.bounds {
        return false;
    }
    (Sheet::length_of(b, 3) == 6 * v.bounds) & bound_rows_ok(v, b)
}

// Equals: the fault of sheet_fault b, or what sheet_of b says with these very bytes (Answered; one answer, by reads_same)
pub fn read<'a>(b: &'a [u8]) -> Result<WellFormed<'a>, Fault>
    ensures { Answered b.entry result }
{
    if !contents_ok(b) {
        return Err(Fault::Contents);
    }
    let v = lent::sheet(b);
    if !facts_ok(v, b) {
        return Err(Fault::Facts);
    }
    if !jobs_ok(v, b) {
        return Err(Fault::Jobs);
    }
    if !events_ok(v, b) {
        return Err(Fault::Events);
    }
    if !bounds_ok(v, b) {
        return Err(Fault::Bounds);
    }
    Ok(WellFormed { view: v, bytes: b })
}

// A sheet that has to be of this edition.
// Equals: the fault of fault_in edition b, or what sheet_of b says with these very bytes (AnsweredIn; one answer, by reads_in_same)
pub fn read_in<'a>(b: &'a [u8], edition: usize) -> Result<WellFormed<'a>, Fault>
    ensures { AnsweredIn edition b.entry result }
{
    if byte_at(b, 0) != edition {
        return Err(Fault::Contents);
    }
    read(b)
}

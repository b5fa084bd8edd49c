// The sheet as the code holds it: where its bodies stand in the lent bytes and how much they hold,
// its limits, and what stands at each place. Nothing here tests a rule; the reader does.
#![tactic(auto)]

ghost use Rattle.std.specs.Prelude.{◌≡◌, ℕ, ◌+◌, ◌*◌, ◌/◌, ◌%◌, ◌<◌, length, List};
ghost use Rattle.rules.specs.Count.{byte, two};
ghost use Rattle.rules.specs.Sheet.{length_of, facts_head, job_row, gap_ticks, gap_byte, event_at, bound_at, signed, initial as is_initial, goal as is_goal, max_facts};
ghost use Rattle.rules.specs.Plan.{gap as gap_of, earliest as earliest_of, latest as latest_of};
ghost use Rattle.laws.specs.Limits.{most_facts};
ghost use Rattle.sheet.specs.View.{meaning, PlacesAre, SheetIs, RowIs, BoundIs, PairRow, PairIs, IsFormed, event_from, fact_of, far_row, key_of_event, RowOf, TwoRows};
ghost use Rattle.numbers.specs.Size.{byte_values, word};

mod formed;
mod lookups;

pub use formed::WellFormed;

// An event, decoded once from its three bytes and matched afterwards.
#[derive(Clone, Copy)]
pub enum Event {
    Begins(usize),
    Ends(usize),
    Sets(usize),
    Clears(usize),
}

// An events row, as the bytes say it: its type may be any byte, so it is a number until `decode`.
#[derive(Clone, Copy)]
pub struct Row {
    pub job: usize,
    pub kind: usize,
    pub fact: usize,
}

// A bound: low and high plus 32,768, so that they are never negative.
#[derive(Clone, Copy)]
pub struct Bound {
    pub later: usize,
    pub earlier: usize,
    pub low: usize,
    pub high: usize,
}

// A pair of events: the tightest low and high of its rows, plus 32,768, and the first row behind them.
#[derive(Clone, Copy)]
pub struct Pair {
    pub later: usize,
    pub earlier: usize,
    pub low: usize,
    pub high: usize,
    pub next: usize,
}

// Where the four bodies start.
#[derive(Clone, Copy)]
pub struct Places {
    pub facts: usize,
    pub jobs: usize,
    pub events: usize,
    pub bounds: usize,
}

// The gap is in ticks. A job's row is longer in edition 2, and tells the editions apart.
#[derive(Clone, Copy)]
pub struct Sheet {
    pub facts: usize,
    pub horizon: usize,
    pub gap: usize,
    pub jobs: usize,
    pub events: usize,
    pub bounds: usize,
    pub marks_at: usize,
    pub jobs_at: usize,
    pub job_row: usize,
    pub events_at: usize,
    pub bounds_at: usize,
}

// The byte at a place inside. What ends in `_in` stands beside `_at` because it asks for the place and does not test it: one function
// for both would take the reading of a byte as a parameter, and is no shorter.
fn byte_in(b: &[u8], i: usize) -> usize
    requires { i < length b.now }
    ensures { (result ≡ byte b.now i) × (result < byte_values) }
{
    usize::from(b[i])
}

// The byte at a place, 0 past the end.
// Equals: byte b i
pub fn byte_at(b: &[u8], i: usize) -> usize
    ensures { (result ≡ byte b.now i) × (result < byte_values) }
{
    if i < b.len() { byte_in(b, i) } else { 0 }
}

// The two-byte number at a place.
// Equals: two b i
pub fn two_at(b: &[u8], i: usize) -> usize
    ensures { (result ≡ two b.now i) × (result < word) }
{
    if i < b.len() {
        byte_at(b, i) + 256 * byte_at(b, i + 1)
    } else {
        0
    }
}

// The same at a place inside.
// Equals: two b i
pub fn two_in(b: &[u8], i: usize) -> usize
    requires { i + 1 < length b.now }
    ensures { (result ≡ two b.now i) × (result < word) }
{
    byte_in(b, i) + 256 * byte_in(b, i + 1)
}

// The signed two-byte number at a place, plus 32,768.
// Equals: signed b i
pub fn signed_at(b: &[u8], i: usize) -> usize
    ensures { (result ≡ signed b.now i) × (result < word) }
{
    (two_at(b, i) + Sheet::ORIGIN) % 65536
}

// The same at a place inside.
fn signed_in(b: &[u8], i: usize) -> usize
    requires { i + 1 < length b.now }
    ensures { (result ≡ signed b.now i) × (result < word) }
{
    (two_in(b, i) + Sheet::ORIGIN) % 65536
}

// The events row at a place of any bytes.
// Equals: event_at b at (RowIs)
pub fn row_at(b: &[u8], at: usize) -> Row
    requires { at < far_row }
    ensures { RowIs (event_at b.now at) result }
{
    Row {
        job: byte_at(b, at),
        kind: byte_at(b, at + 1),
        fact: byte_at(b, at + 2),
    }
}

// The events row and the bounds row at a place inside.
fn row_in(b: &[u8], at: usize) -> Row
    requires { at + 2 < length b.now }
    ensures { RowIs (event_at b.now at) result }
{
    Row {
        job: byte_in(b, at),
        kind: byte_in(b, at + 1),
        fact: byte_in(b, at + 2),
    }
}

fn bound_in(b: &[u8], at: usize) -> Bound
    requires { at + 5 < length b.now }
    ensures { BoundIs (bound_at b.now at) result }
{
    Bound {
        later: byte_in(b, at),
        earlier: byte_in(b, at + 1),
        low: signed_in(b, at + 2),
        high: signed_in(b, at + 4),
    }
}

impl Event {
    pub const BEGINS: usize = 0;

    pub const ENDS: usize = 1;

    pub const SETS: usize = 2;

    pub const CLEARS: usize = 3;
    // How many keys there are, and the first of each type but the first.
    pub const KEYS: usize = 4 * Sheet::MAX_FACTS;

    pub const END_KEYS: usize = Sheet::MAX_FACTS;

    pub const SET_KEYS: usize = 2 * Sheet::MAX_FACTS;

    pub const CLEAR_KEYS: usize = 3 * Sheet::MAX_FACTS;

    // By tests and not by a match: its `_` says nothing of the numbers before it, which the proof of the last case needs.
    // Equals: event_from kind fact
    pub fn decode(kind: usize, fact: usize) -> Event
        ensures { result ≡ event_from kind fact }
    {
        if kind == Event::BEGINS {
            return Event::Begins(fact);
        }
        if kind == Event::ENDS {
            return Event::Ends(fact);
        }
        if kind == Event::SETS {
            return Event::Sets(fact);
        }
        Event::Clears(fact)
    }

    // Type and fact as one number: all keys of a type stand before those of the next.
    // Equals: key_of_event self
    pub fn key(self) -> usize
        requires { fact_of self < max_facts }
        ensures { (result ≡ key_of_event self) × (result < 4 * max_facts) }
    {
        match self {
            Event::Begins(f) => f,
            Event::Ends(f) => Event::END_KEYS + f,
            Event::Sets(f) => Event::SET_KEYS + f,
            Event::Clears(f) => Event::CLEAR_KEYS + f,
        }
    }

    // The event of a key.
    // Equals: event_from (key / most_facts) (key % most_facts)
    pub fn of_key(key: usize) -> Event
        ensures { result ≡ event_from (key / most_facts) (key % most_facts) }
    {
        Event::decode(key / Sheet::MAX_FACTS, key % Sheet::MAX_FACTS)
    }
}

impl Pair {
    // The events of a bound, with the tightest of the rows up to next.
    fn of(c: Bound, low: usize, high: usize, next: usize) -> Pair
        ensures { (result.later ≡ c.later) × (result.earlier ≡ c.earlier) × (result.low ≡ low) × (result.high ≡ high) × (result.next ≡ next) }
    {
        Pair {
            later: c.later,
            earlier: c.earlier,
            low,
            high,
            next,
        }
    }
}

impl Places {
    // As the contents say, of any bytes.
    // Equals: facts_at, jobs_at, events_at, bounds_at (PlacesAre)
    pub fn new(b: &[u8]) -> Places
        ensures { PlacesAre b.now result }
    {
        let jobs = Sheet::FACTS_AT + Sheet::length_of(b, 0);
        let events = jobs + Sheet::length_of(b, 1);
        Places {
            facts: Sheet::FACTS_AT,
            jobs,
            events,
            bounds: events + Sheet::length_of(b, 2),
        }
    }
}

impl Sheet {
    pub const MAX_FACTS: usize = 64;

    pub const MAX_HORIZON: usize = 10080;

    pub const MAX_GAP: usize = 60;

    pub const MAX_JOBS: usize = 32;

    pub const MAX_EVENTS: usize = 256;

    pub const MAX_BOUNDS: usize = 256;
    // A fact's marks; 0 is neither.
    pub const INITIAL: usize = 1;

    pub const GOAL: usize = 2;

    pub const BOTH: usize = 3;
    // Signed numbers are held plus this.
    pub const ORIGIN: usize = 32768;
    // No low and no high, plus 32,768.
    pub const NO_LOW: usize = 0;

    pub const NO_HIGH: usize = 65535;
    // Contents end and the first body starts here.
    pub const FACTS_AT: usize = 26;

    pub const EDITION_1: usize = 1;
    // The edition that has a settling gap, a revision and releases.
    pub const EDITION_2: usize = 2;
    // The head of the facts body, before the marks: the count and the horizon; in edition 2 also gap and revision.
    pub const FACTS_HEAD: usize = 3;

    pub const FACTS_HEAD_2: usize = 6;
    // Edition 2: where the gap byte and the revision stand.
    pub const GAP_AT: usize = Sheet::FACTS_AT + 3;

    pub const REVISION_AT: usize = Sheet::FACTS_AT + 4;
    // The row of a job: its code; in edition 2 also its release.
    pub const JOB_ROW: usize = 2;

    pub const JOB_ROW_2: usize = 4;

    pub const RELEASE_IN: usize = 2;
    // Edition 2: the ticks that a gap byte of 0 stands for.
    const DEFAULT_GAP: usize = 2;
    // The gap of edition 1.
    const GAP_1: usize = 1;
    // What edition 1 says of a release and of the revision.
    pub const NONE: usize = 0;

    // Equals: facts_head edition
    pub fn facts_head(edition: usize) -> usize
        ensures { (result ≡ facts_head edition) × (result < 7) }
    {
        if edition == Sheet::EDITION_2 {
            Sheet::FACTS_HEAD_2
        } else {
            Sheet::FACTS_HEAD
        }
    }

    // Equals: job_row edition
    pub fn job_row(edition: usize) -> usize
        ensures { (result ≡ job_row edition) × TwoRows result }
    {
        if edition == Sheet::EDITION_2 {
            Sheet::JOB_ROW_2
        } else {
            Sheet::JOB_ROW
        }
    }

    // The gap byte of edition 2, of any bytes.
    // Equals: gap_byte b
    pub fn gap_byte(b: &[u8]) -> usize
        ensures { (result ≡ gap_byte b.now) × (result < byte_values) }
    {
        byte_at(b, Sheet::GAP_AT)
    }

    // The settling gap in ticks, by edition and gap byte.
    // Equals: gap_ticks edition gap
    fn ticks(edition: usize, gap: usize) -> usize
        ensures { result ≡ gap_ticks edition gap }
    {
        if edition != Sheet::EDITION_2 {
            return Sheet::GAP_1;
        }
        if gap == 0 { Sheet::DEFAULT_GAP } else { gap }
    }

    // The length of part i, as the contents say.
    // Equals: length_of b i
    pub fn length_of(b: &[u8], i: usize) -> usize
        requires { i < 4 }
        ensures { (result ≡ length_of b.now i) × (result < word) }
    {
        two_at(b, 6 + 6 * i)
    }

    // What any bytes say, by the places of their bodies.
    // Equals: counts, horizon and gap of sheet_of b, and the places of its rows (SheetIs)
    pub fn of(b: &[u8], at: Places) -> Sheet
        requires { PlacesAre b.now at }
        ensures { SheetIs b.now result }
    {
        let edition = byte_at(b, 0);
        let row = Sheet::job_row(edition);
        Sheet {
            facts: byte_at(b, at.facts),
            horizon: two_at(b, at.facts + 1),
            gap: Sheet::ticks(edition, Sheet::gap_byte(b)),
            jobs: (at.events - at.jobs) / row,
            events: (at.bounds - at.events) / 3,
            bounds: Sheet::length_of(b, 3) / 6,
            marks_at: at.facts + Sheet::facts_head(edition),
            jobs_at: at.jobs,
            job_row: row,
            events_at: at.events,
            bounds_at: at.bounds,
        }
    }

    // The ticks that lie at least between a source and a need, or a need and a clear, of different instances.
    // Equals: gap of rules (gap_of)
    pub fn gap(self) -> usize
        ensures { (b : List ℕ) → result ≡ gap_of (meaning self b) }
    {
        self.gap
    }

    // The first tick that an event of job j may have.
    // Equals: earliest of rules (earliest_of)
    pub fn earliest(self, b: &[u8], j: usize) -> usize
        requires { RowOf self b.now self.jobs j }
        ensures { (result ≡ earliest_of (meaning self b.now) j) × (result < word) }
    {
        self.release(b, j)
    }

    // The last tick that an event may have.
    // Equals: latest of rules (latest_of)
    pub fn latest(self) -> usize
        ensures { (b : List ℕ) (j : ℕ) → result ≡ latest_of (meaning self b) j }
    {
        self.horizon
    }

    // Equals: meaning self b .mark f
    pub fn mark(self, b: &[u8], f: usize) -> usize
        requires { RowOf self b.now self.facts f }
        ensures { (result ≡ (meaning self b.now).mark f) × (result < byte_values) }
    {
        let at = self.marks_at;
        byte_in(b, at + f)
    }

    // Equals: initial of rules (is_initial)
    pub fn initial(self, b: &[u8], f: usize) -> bool
        requires { RowOf self b.now self.facts f }
        ensures { result ≡ is_initial (meaning self b.now) f }
    {
        let mark = self.mark(b, f);
        (mark == Sheet::INITIAL) | (mark == Sheet::BOTH)
    }

    // Equals: goal of rules (is_goal)
    pub fn goal(self, b: &[u8], f: usize) -> bool
        requires { RowOf self b.now self.facts f }
        ensures { result ≡ is_goal (meaning self b.now) f }
    {
        let mark = self.mark(b, f);
        (mark == Sheet::GOAL) | (mark == Sheet::BOTH)
    }

    // Equals: meaning self b .code j
    pub fn code(self, b: &[u8], j: usize) -> usize
        requires { RowOf self b.now self.jobs j }
        ensures { (result ≡ (meaning self b.now).code j) × (result < word) }
    {
        let at = self.jobs_at;
        two_in(b, at + self.job_row * j)
    }

    // Equals: meaning self b .release j
    pub fn release(self, b: &[u8], j: usize) -> usize
        requires { RowOf self b.now self.jobs j }
        ensures { (result ≡ (meaning self b.now).release j) × (result < word) }
    {
        let row = self.job_row;
        if row != Sheet::JOB_ROW_2 {
            return Sheet::NONE;
        }
        let at = self.jobs_at;
        two_in(b, at + row * j + Sheet::RELEASE_IN)
    }

    // Equals: meaning self b .revision
    pub fn revision(self, b: &[u8]) -> usize
        ensures { (result ≡ (meaning self b.now).revision) × (result < word) }
    {
        if self.job_row != Sheet::JOB_ROW_2 {
            return Sheet::NONE;
        }
        two_at(b, Sheet::REVISION_AT)
    }

    // The job number of event e.
    // Equals: meaning self b .event e .job
    pub fn job(self, b: &[u8], e: usize) -> usize
        requires { RowOf self b.now self.events e }
        ensures { (result ≡ ((meaning self b.now).event e).job) × (result < byte_values) }
    {
        let at = self.events_at;
        byte_in(b, at + 3 * e)
    }

    // Equals: meaning self b .event e .kind
    pub fn kind(self, b: &[u8], e: usize) -> usize
        requires { RowOf self b.now self.events e }
        ensures { (result ≡ ((meaning self b.now).event e).kind) × (result < byte_values) }
    {
        let at = self.events_at;
        byte_in(b, at + 3 * e + 1)
    }

    // Equals: meaning self b .event e .fact
    pub fn fact(self, b: &[u8], e: usize) -> usize
        requires { RowOf self b.now self.events e }
        ensures { (result ≡ ((meaning self b.now).event e).fact) × (result < byte_values) }
    {
        let at = self.events_at;
        byte_in(b, at + 3 * e + 2)
    }

    // Equals: meaning self b .event e (RowIs)
    pub fn row(self, b: &[u8], e: usize) -> Row
        requires { RowOf self b.now self.events e }
        ensures { RowIs ((meaning self b.now).event e) result }
    {
        row_in(b, self.events_at + 3 * e)
    }

    // Equals: event_from, of the kind and the fact of meaning self b .event e
    pub fn event(self, b: &[u8], e: usize) -> Event
        requires { RowOf self b.now self.events e }
        ensures { result ≡ event_from ((meaning self b.now).event e).kind ((meaning self b.now).event e).fact }
    {
        let row = self.row(b, e);
        Event::decode(row.kind, row.fact)
    }

    // Equals: meaning self b .bound i (BoundIs)
    pub fn bound(self, b: &[u8], i: usize) -> Bound
        requires { RowOf self b.now self.bounds i }
        ensures { BoundIs ((meaning self b.now).bound i) result }
    {
        bound_in(b, self.bounds_at + 6 * i)
    }

    // The pair that starts at row i.
    // Equals: tightest of rules, of the pair of row i; and the first row behind its rows (PairIs; one answer, by looked_up_once)
    pub fn pair(self, b: &[u8], i: usize) -> Pair
        requires { IsFormed self b.now × PairRow (meaning self b.now) i }
        ensures { PairIs (meaning self b.now) i result }
    {
        let first = self.bound(b, i);
        let mut low = first.low;
        let mut high = first.high;
        for next in i + 1..self.bounds {
            let c = self.bound(b, next);
            if (c.later != first.later) | (c.earlier != first.earlier) {
                return Pair::of(first, low, high, next);
            }
            low = low.max(c.low);
            high = high.min(c.high);
        }
        Pair::of(first, low, high, self.bounds)
    }
}

// Exact tests for points 2, 3 and 4 of "What a plan is", over the rows of a plan: group, tick and instance of each event, packed
// into one number. A group is a type of event of one fact. The rows stand by groups, those of a group in order of their ticks.
#![tactic(auto)]

ghost use Rattle.std.specs.Prelude.{◌≡◌, ◌+◌, ◌/◌, ◌%◌, ◌≤◌, ◌<◌, length};
ghost use Rattle.rules.specs.Sheet.{max_facts};
ghost use Rattle.rules.specs.Plan.{distance_by};
ghost use Rattle.laws.specs.Test.{Says};
ghost use Rattle.sheet.specs.View.{event_from};
ghost use Rattle.plan_points.specs.Flat.{
  groups,
  ticks,
  entries,
  tick_in,
  entry_in,
  type_in,
  fact_in,
  packed,
  SpanOf,
  Serve,
  Harm,
  FirstHarm,
  FaultOf,
  goal_need,
  LastBelow,
  Latest,
  Later,
  OwnSet,
  OwnSetOf,
  WithOwn,
  Free,
};
ghost use Rattle.plan_points.specs.Order.{InOrder, Ordered, SplitAt};

use sheet::Event;

// A need of a fact by an instance, from one tick to another. The gap keeps events of other instances away.
#[derive(Clone, Copy)]
pub struct Need {
    pub entry: usize,
    pub fact: usize,
    pub from: usize,
    pub to: usize,
    pub gap: usize,
}

// Places from lo up to hi: not a Range, which is no Copy.
#[derive(Clone, Copy)]
pub struct Span {
    pub lo: usize,
    pub hi: usize,
}

impl Need {
    // Past every tick.
    pub const PAST: usize = 131072;

    // The tick of a fault that there is not: no Option, since callers compare ticks and take the least, and this is greater than all.
    pub const NEVER: usize = 262144;

    // A goal is a need that begins and ends past every tick.
    // Equals: goal_need fact gap
    #[tactic(auto, unfolding(crate::specs::Flat::goal_need))]
    pub fn goal(fact: usize, gap: usize) -> Need
        ensures { result ≡ goal_need fact gap }
    {
        Need {
            entry: 0,
            fact: fact,
            from: Need::PAST,
            to: Need::PAST,
            gap: gap,
        }
    }
}

// The ticks that lie at least between events of instances i and k.
// Equals: distance_by gap i k
pub fn distance(gap: usize, i: usize, k: usize) -> usize
    ensures { result ≡ distance_by gap i k }
{
    gap * usize::from(i != k)
}

// ---- rows

#[derive(Clone, Copy)]
pub struct Row {}

impl Row {
    // Groups, ticks and entries are digits of a row.
    pub const TICK: usize = 256;

    pub const TICKS: usize = 65536;

    // Equals: packed group tick entry
    pub fn pack(group: usize, tick: usize, entry: usize) -> u32
        requires { (group < groups) × (tick < ticks) × (entry < entries) }
        ensures { result ≡ packed group tick entry }
    {
        (sorting::Rows::GROUP * group + Row::TICK * tick + entry) as u32
    }

    // The event that a row's group says.
    // Equals: event_from (type_in x) (fact_in x)
    pub fn event(x: u32) -> Event
        ensures { result ≡ event_from (type_in x) (fact_in x) }
    {
        Event::of_key(sorting::group_of(x))
    }

    // Equals: tick_in x
    pub fn tick(x: u32) -> usize
        ensures { (result ≡ tick_in x) × (result < ticks) }
    {
        x as usize / Row::TICK % Row::TICKS
    }

    // Equals: entry_in x
    pub fn entry(x: u32) -> usize
        ensures { (result ≡ entry_in x) × (result < entries) }
    {
        x as usize % Row::TICK
    }
}

// Where the rows of a group stand.
#[tactic(auto, unfolding(crate::specs::Flat::cell))]
fn span_of(first: &[u16], group: usize) -> Span
    requires { group + 1 < length first.now }
    ensures { SpanOf first.now group result }
{
    Span {
        lo: usize::from(first[group]),
        hi: usize::from(first[group + 1]),
    }
}

// At least d ticks lie between t and u.
fn spaced(t: usize, d: usize, u: usize) -> bool
    ensures { Says (t + d ≤ u) result }
{
    t <= u && d <= u - t
}

// The first place of a span from where on the ticks do not lie d ticks before u.
// A search by hand: with the library's partition_point, which was tried and proved, `fault` took 12 % more instructions.
fn split(rows: &[u32], span: Span, d: usize, u: usize) -> usize
    requires { InOrder rows.now span.lo span.hi }
    ensures { SplitAt rows.now span.lo span.hi d u result }
{
    let mut low = span.lo;
    let mut high = span.hi;
    while low < high {
        let middle = (low + high) / 2;
        if spaced(Row::tick(rows[middle]), d, u) {
            low = middle + 1;
        } else {
            high = middle;
        }
    }
    low
}

// ---- points 3 and 4

// A set of the need's fact may be its source.
fn serves(need: Need, entry: usize, tick: usize) -> bool
    ensures { Says (Serve need entry tick) result }
{
    spaced(tick, distance(need.gap, entry, need.entry), need.from)
}

// A clear of the need's fact harms it, if the first tick after its source is `after`.
fn harms(need: Need, after: usize, entry: usize, tick: usize) -> bool
    ensures { Says (Harm need after entry tick) result }
{
    if tick < after {
        return false;
    }
    !spaced(need.to, distance(need.gap, need.entry, entry), tick)
}

// The later of the best source so far and one more set. A source is given by the first tick after it.
fn later(best: Option<usize>, need: Need, entry: usize, tick: usize) -> Option<usize>
    requires { tick < ticks }
    ensures { Later need entry tick best result }
{
    if best.is_some_and(|after| tick < after) {
        return best;
    }
    if !serves(need, entry, tick) {
        return best;
    }
    Some(tick + 1)
}

// The last row from lo up to r as a source, or else the initial state, if that is one: it precedes tick 0.
#[tactic(auto, unfolding(crate::specs::Flat::cell))]
fn last_below(rows: &[u32], lo: usize, r: usize, initial: bool) -> Option<usize>
    requires { r ≤ length rows.now }
    ensures { LastBelow rows.now lo r initial result }
{
    if lo < r {
        return Some(Row::tick(rows[r - 1]) + 1);
    }
    initial.then_some(0)
}

// The later of the best source so far and the need's own set, if `own` is one.
#[tactic(auto, using(crate::proofs::Laws::own_other), unfolding(rules::specs::Sheet::max_facts))]
fn with_own(best: Option<usize>, need: Need, own: u32) -> Option<usize>
    requires { need.fact < max_facts }
    ensures { WithOwn need own best result }
{
    if sorting::group_of(own) != Event::SET_KEYS + need.fact {
        return best;
    }
    if Row::entry(own) != need.entry {
        return best;
    }
    later(best, need, need.entry, Row::tick(own))
}

// The first tick after the need's latest source among the sets of its fact, if it has a source: rows that lie a gap before it serve, so the last of them
// is the best, and of the others only the set of its own instance can be better.
fn latest(rows: &[u32], span: Span, need: Need, initial: bool, own: u32) -> Option<usize>
    requires { InOrder rows.now span.lo span.hi × (need.fact < max_facts) × OwnSet rows.now span.lo span.hi need own }
    ensures { Latest rows.now span.lo span.hi need initial result }
{
    let r = split(rows, span, need.gap, need.from);
    let best = last_below(rows, span.lo, r, initial);
    if span.hi <= r {
        return best;
    }
    if need.from < Row::tick(rows[r]) {
        return best;
    }
    with_own(best, need, own)
}

// The tick of the first clear of its fact that harms the need after its source: those that come before it do not, nor those from
// a gap after it on.
fn first_harm(rows: &[u32], span: Span, need: Need, after: usize) -> usize
    requires { InOrder rows.now span.lo span.hi }
    ensures { FirstHarm rows.now span.lo span.hi need after result }
{
    let from = split(rows, span, 1, after);
    for x in &rows[from..span.hi] {
        let tick = Row::tick(*x);
        if spaced(need.to, need.gap, tick) {
            return Need::NEVER;
        }
        if harms(need, after, Row::entry(*x), tick) {
            return tick;
        }
    }
    Need::NEVER
}

// The tick at which a need goes wrong, of a goal one past every tick: its begin, where it has no source, else the first clear after its
// latest source that harms it, at its begin at the earliest.
// The need's own set is a row; one of another group, as row 0, stands for none: it needs no test of its own.
// Equals: the tick that FaultOf says; of a need that begins before never it is never exactly if ServedBy holds: point 3, and point 4 for a goal (fault_says)
#[tactic(auto, unfolding(rules::specs::Sheet::max_facts))]
pub fn fault(first: &[u16], rows: &[u32], need: Need, initial: bool, own: u32) -> usize
    requires { Ordered first.now rows.now × (need.fact < max_facts) × OwnSetOf first.now rows.now need own }
    ensures { FaultOf first.now rows.now need initial result }
{
    let sets = span_of(first, Event::SET_KEYS + need.fact);
    let Some(after) = latest(rows, sets, need, initial, own) else {
        return need.from;
    };
    let clears = span_of(first, Event::CLEAR_KEYS + need.fact);
    first_harm(rows, clears, need, after).max(need.from)
}

// ---- point 2

// No clear of the fact has this tick.
// Equals: whether Free holds
#[tactic(auto, unfolding(rules::specs::Sheet::max_facts))]
pub fn free(first: &[u16], rows: &[u32], fact: usize, at: usize) -> bool
    requires { Ordered first.now rows.now × (fact < max_facts) }
    ensures { Says (Free first.now rows.now fact at) result }
{
    let clears = span_of(first, Event::CLEAR_KEYS + fact);
    let r = split(rows, clears, 1, at);
    if clears.hi <= r {
        return true;
    }
    Row::tick(rows[r]) != at
}

// The kernel: difference rules, their least solution above a floor, or that none exists.
// Which row is looked at next, and the guess of a cycle, are advice: nothing is proved of them but that they do no harm.
#![tactic(auto)]

ghost use Rattle.std.specs.Prelude.{◌≡◌, map, ◌⊎◌, ℕ, ◌<◌, ◌≤◌, true, false, length, get_or};
ghost use Rattle.kernel_advice.specs.Readable.{variables};
ghost use Rattle.numbers.specs.Size.{word};
ghost use Rattle.kernel_least.specs.System.{Between, Unsolvable};
ghost use Rattle.kernel_least.specs.Rows.{Lent, Under, Raised, col, columns, RowsFormed, system_of};
ghost use Rattle.kernel_least.specs.Steps.{TicksHeld, LiftAsks, LiftBy, Note, Noted, Lifted, Swept, Clear, Picked, AnyIs, Hop, Settled, Part};

use kernel_advice::{Advice, Span};

// Rules in compressed rows: where the row of each variable starts, and where each rule leads and what it weighs.
pub type Rules<'a> = [&'a [u16]; 3];

#[derive(Clone, Copy)]
pub struct Column;

impl Column {
    pub const FIRST: usize = 0;

    pub const TO: usize = 1;

    pub const WEIGHT: usize = 2;
}

// The variables from lo up to hi, with ticks up to the ceiling.
#[derive(Clone, Copy)]
pub struct Range {
    pub lo: usize,
    pub hi: usize,
    pub ceiling: usize,
}

// No ticks solve the rules.
#[derive(Clone, Copy)]
pub struct Impossible;

#[derive(Clone, Copy)]
struct Weight;

impl Weight {
    // Weights stand plus this, so that none is negative.
    const ORIGIN: usize = 32768;
}

// What a rule asks: that its target is at `need` less the origin.
#[derive(Clone, Copy)]
pub struct Demand {
    pub source: usize,
    pub target: usize,
    pub need: usize,
}

// What is noted on the way: whether a variable not below the edge was lifted. No Option: the edge stays once that is noted.
#[derive(Clone, Copy)]
pub struct Watch {
    pub edge: usize,
    pub noted: bool,
}

impl Watch {
    // No variable stands at or above this edge.
    const NOTHING: Watch = Watch {
        edge: 65536,
        noted: false,
    };
}

#[derive(Clone, Copy)]
struct Sweeps;

impl Sweeps {
    // How many sweeps up and down come before an order is made.
    const FIRST: usize = 2;
    // How often a block is looked at before the next.
    const BLOCK: usize = 3;
}

// The number at a place of a column.
fn entry(column: &[u16], i: usize) -> usize
    requires { i < length column.now }
    ensures { (result ≡ get_or column.now i 0) × (result < word) }
{
    usize::from(column[i])
}

// The number at place i of column k.
// Equals: get_or (col rules k) i 0
pub fn at<'a>(rules: Rules<'a>, k: usize, i: usize) -> usize
    requires { (k < columns) × (i < length (col (map (λ x. x.now) rules) k)) }
    ensures { (result ≡ get_or (col (map (λ x. x.now) rules.entry) k) i 0) × (result < word) }
{
    entry(rules[k], i)
}

// Writes that v lifted t, where there is room for it.
fn trace(parents: &mut [u8], t: usize, v: usize)
    requires { v < variables }
{
    if t < parents.len() {
        parents[t] = v as u8;
    }
}

// True if t is not below the edge, else what was noted before.
fn note(watch: Watch, t: usize) -> bool
    ensures { Note watch.edge t watch.noted result }
{
    // Not `watch.noted || watch.edge <= t`: it takes three instructions more each time that a variable is lifted.
    if t < watch.edge { watch.noted } else { true }
}

// Lifts the target of a rule that is broken: true if it is lifted and not below the edge, an Err if that would pass the ceiling, else what
// was noted before.
// Equals: x and marks: lifted where the rule is broken and the ceiling is not passed, else as they were (LiftBy)
// Free: the answer: true may stand for false where the target was lifted (Note), and an Err for what was noted where its tick was above the ceiling before.
// Free: parents: nothing is said of them.
pub fn lift(
    x: &mut [u16],
    marks: &mut [u8],
    parents: &mut [u8],
    ceiling: usize,
    demand: Demand,
    watch: Watch,
) -> Result<bool, Impossible>
    requires { LiftAsks ceiling demand x.old marks.old }
    ensures { LiftBy ceiling demand watch x.old marks.old x.new marks.new result }
{
    let t = demand.target;
    let need = demand.need;
    if need <= usize::from(x[t]) + Weight::ORIGIN {
        return Ok(watch.noted);
    }
    if ceiling + Weight::ORIGIN < need {
        return Err(Impossible);
    }
    x[t] = (need - Weight::ORIGIN) as u16;
    marks[t] = 1;
    trace(parents, t, demand.source);
    Ok(note(watch, t))
}

// Takes v's mark away and lifts the targets of its broken rules: true if one of them is not below the edge, an Err if one would pass
// the ceiling, else what was noted before.
fn lift_row<'a>(
    rules: Rules<'a>,
    range: Range,
    v: usize,
    watch: Watch,
    x: &mut [u16],
    marks: &mut [u8],
    parents: &mut [u8],
) -> Result<bool, Impossible>
    requires rows_formed { RowsFormed (map (λ x. x.now) rules) range }
    requires ticks_held { TicksHeld range x.old marks.old × Between range.lo range.hi v }
    ensures lifted { Lifted (system_of (map (λ x. x.now) rules.entry) range) v x.old marks.old x.new marks.new result }
    ensures noted { Noted watch.edge v watch.noted marks.old marks.new result }
{
    marks[v] = 0;
    let base = usize::from(x[v]);
    let start = at(rules, Column::FIRST, v);
    let end = at(rules, Column::FIRST, v + 1);
    let mut noted = watch.noted;
    for r in start..end {
        let t = at(rules, Column::TO, r);
        let need = base + at(rules, Column::WEIGHT, r);
        let demand = Demand {
            source: v,
            target: t,
            need: need,
        };
        noted = lift(
            x,
            marks,
            parents,
            range.ceiling,
            demand,
            Watch {
                edge: watch.edge,
                noted: noted,
            },
        )?;
    }
    Ok(noted)
}

// Looks at the row of v if it is marked: true if a target not below the edge was lifted, an Err if no solution exists, else what was
// noted before.
fn look<'a>(
    rules: Rules<'a>,
    range: Range,
    v: usize,
    watch: Watch,
    x: &mut [u16],
    marks: &mut [u8],
    parents: &mut [u8],
) -> Result<bool, Impossible>
    requires rows_formed { RowsFormed (map (λ x. x.now) rules) range }
    requires ticks_held { TicksHeld range x.old marks.old × Between range.lo range.hi v }
    ensures swept { Swept (system_of (map (λ x. x.now) rules.entry) range) x.old marks.old x.new marks.new result }
    ensures noted { Noted watch.edge v watch.noted marks.old marks.new result }
{
    if marks[v] == 0 {
        return Ok(watch.noted);
    }
    lift_row(rules, range, v, watch, x, marks, parents)
}

// Looks at the marked rows of a span upwards; an Err if no solution exists.
fn up<'a>(
    rules: Rules<'a>,
    range: Range,
    span: Span,
    x: &mut [u16],
    marks: &mut [u8],
) -> Result<(), Impossible>
    requires rows_formed { RowsFormed (map (λ x. x.now) rules) range }
    requires ticks_held { TicksHeld range x.old marks.old × Part range span }
    ensures { Swept (system_of (map (λ x. x.now) rules.entry) range) x.old marks.old x.new marks.new result }
{
    for v in span.lo..span.hi {
        look(rules, range, v, Watch::NOTHING, x, marks, &mut [])?;
    }
    Ok(())
}

// Looks at the marked rows of a span downwards: false if none of it was marked again behind it, an Err if no solution exists.
fn down<'a>(
    rules: Rules<'a>,
    range: Range,
    span: Span,
    x: &mut [u16],
    marks: &mut [u8],
) -> Result<bool, Impossible>
    requires rows_formed { RowsFormed (map (λ x. x.now) rules) range }
    requires ticks_held { TicksHeld range x.old marks.old × Part range span }
    ensures swept { Swept (system_of (map (λ x. x.now) rules.entry) range) x.old marks.old x.new marks.new result }
    ensures clear { result ≡ Ok false → Clear span.lo span.hi marks.new }
{
    let mut noted = false;
    for v in (span.lo..span.hi).rev() {
        let watch = Watch {
            edge: v,
            noted: noted,
        };
        noted = look(rules, range, v, watch, x, marks, &mut [])?;
    }
    Ok(noted)
}

// Looks at the marked rows of a span, from one on upwards, then all of them downwards: false if none of it is marked any more, an Err
// if no solution exists.
fn sweep<'a>(
    rules: Rules<'a>,
    range: Range,
    span: Span,
    from: usize,
    x: &mut [u16],
    marks: &mut [u8],
) -> Result<bool, Impossible>
    requires rows_formed { RowsFormed (map (λ x. x.now) rules) range }
    requires ticks_held { TicksHeld range x.old marks.old × Part range span × (span.lo ≤ from) }
    ensures swept { Swept (system_of (map (λ x. x.now) rules.entry) range) x.old marks.old x.new marks.new result }
    ensures clear { result ≡ Ok false → Clear span.lo span.hi marks.new }
{
    let rest = Span {
        lo: from,
        hi: span.hi,
    };
    up(rules, range, rest, x, marks)?;
    down(rules, range, span, x, marks)
}

// The first marked variable.
fn find(marks: &[u8], lo: usize, hi: usize) -> Option<usize>
    requires { hi ≤ length marks.now }
    ensures { Picked lo hi marks.now result }
{
    for v in lo..hi {
        if 0 < marks[v] {
            return Some(v);
        }
    }
    None
}

// The greatest weight of a rule from p to v, if it is not 0.
fn hop<'a>(rules: Rules<'a>, range: Range, p: usize, v: usize) -> Option<usize>
    requires { RowsFormed (map (λ x. x.now) rules) range }
    ensures { Hop (system_of (map (λ x. x.now) rules.entry) range).rule p v result }
{
    if p < range.lo || range.hi <= p {
        return None;
    }
    let start = at(rules, Column::FIRST, p);
    let end = at(rules, Column::FIRST, p + 1);
    // None only at the end: an Option in the loop takes some ten instructions more.
    let mut best = 0;
    for k in start..end {
        if at(rules, Column::TO, k) == v {
            best = best.max(at(rules, Column::WEIGHT, k));
        }
    }
    if best == 0 { None } else { Some(best) }
}

// Goes back from s by who lifted whom until it meets s again: whether the rules on that way add up to a gain.
fn gain<'a>(rules: Rules<'a>, range: Range, parents: &[u8; Advice::VARIABLES], s: usize) -> bool
    requires { RowsFormed (map (λ x. x.now) rules) range × Between range.lo range.hi s }
    ensures { (f : ℕ → ℕ) → result ≡ true → Unsolvable (system_of (map (λ x. x.now) rules.entry) range) f }
{
    let mut v = s;
    let mut sum = 0;
    let mut base = 0;
    for _i in range.lo..range.hi {
        let p = usize::from(parents[v]);
        let Some(w) = hop(rules, range, p, v) else {
            return false;
        };
        sum += w;
        base += Weight::ORIGIN;
        if p == s {
            return base < sum;
        }
        v = p;
    }
    false
}

// Looks for a cycle above v: whether it finds one that gains, so that nothing solves the rules.
fn cycle<'a>(rules: Rules<'a>, range: Range, parents: &[u8; Advice::VARIABLES], v: usize) -> bool
    requires { RowsFormed (map (λ x. x.now) rules) range × Between range.lo range.hi v }
    ensures { (f : ℕ → ℕ) → result ≡ true → Unsolvable (system_of (map (λ x. x.now) rules.entry) range) f }
{
    let span = Span {
        lo: range.lo,
        hi: range.hi,
    };
    match kernel_advice::back(parents, v, span) {
        Some(s) if range.lo <= s && s < range.hi => gain(rules, range, parents, s),
        _ => false,
    }
}

// Looks at the row of v, a number that advice gave.
fn heed<'a>(
    rules: Rules<'a>,
    range: Range,
    v: usize,
    x: &mut [u16],
    marks: &mut [u8],
    parents: &mut [u8],
) -> Result<(), Impossible>
    requires rows_formed { RowsFormed (map (λ x. x.now) rules) range }
    requires ticks_held { TicksHeld range x.old marks.old }
    ensures { Swept (system_of (map (λ x. x.now) rules.entry) range) x.old marks.old x.new marks.new result }
{
    if range.lo <= v && v < range.hi {
        look(rules, range, v, Watch::NOTHING, x, marks, parents)?;
    }
    Ok(())
}

// Looks at the marked rows along a list and back, from `start` on; an Err if no solution exists.
fn follow<'a>(
    rules: Rules<'a>,
    range: Range,
    list: &[u8; Advice::LIST],
    start: usize,
    x: &mut [u16],
    marks: &mut [u8],
    parents: &mut [u8],
) -> Result<(), Impossible>
    requires rows_formed { RowsFormed (map (λ x. x.now) rules) range }
    requires ticks_held { TicksHeld range x.old marks.old × (start ≤ variables) }
    ensures { Swept (system_of (map (λ x. x.now) rules.entry) range) x.old marks.old x.new marks.new result }
{
    for i in start..Advice::LIST - start {
        heed(rules, range, usize::from(list[i]), x, marks, parents)?;
    }
    Ok(())
}

// Looks at the row of v, then at the marked rows along a list; an Err if no solution exists.
fn turn<'a>(
    rules: Rules<'a>,
    range: Range,
    v: usize,
    list: &[u8; Advice::LIST],
    start: usize,
    x: &mut [u16],
    marks: &mut [u8],
    parents: &mut [u8],
) -> Result<(), Impossible>
    requires rows_formed { RowsFormed (map (λ x. x.now) rules) range }
    requires ticks_held { TicksHeld range x.old marks.old × Between range.lo range.hi v × (start ≤ variables) }
    ensures { Lifted (system_of (map (λ x. x.now) rules.entry) range) v x.old marks.old x.new marks.new result }
{
    lift_row(rules, range, v, Watch::NOTHING, x, marks, parents)?;
    follow(rules, range, list, start, x, marks, parents)
}

// Looks at marked rows, in an order made for them, until none is left; in each turn one look for a cycle.
// Equals: the least solution or that none exists, where rules of unmarked variables are kept and no tick is above the ceiling (Settled)
// Free: the ticks from lo up to hi after an Err, the marks, and where that is not so the answer and those ticks: nothing is said of them.
pub fn settle<'a>(
    rules: Rules<'a>,
    range: Range,
    x: &mut [u16],
    marks: &mut [u8],
) -> Result<(), Impossible>
    requires rows_formed { RowsFormed (map (λ x. x.now) rules) range }
    requires ticks_held { TicksHeld range x.old marks.old }
    ensures { Settled (system_of (map (λ x. x.now) rules.entry) range) x.old marks.old x.new result }
{
    let mut marked = find(marks, range.lo, range.hi);
    if marked.is_none() {
        return Ok(());
    }
    let mut list = [0u8; Advice::LIST];
    let mut parents = [0u8; Advice::VARIABLES];
    let span = Span {
        lo: range.lo,
        hi: range.hi,
    };
    let start = kernel_advice::order(
        rules[Column::FIRST],
        rules[Column::TO],
        span,
        marks,
        &mut list,
    );
    while let Some(v) = marked {
        if cycle(rules, range, &parents, v) {
            return Err(Impossible);
        }
        turn(rules, range, v, &list, start, x, marks, &mut parents)?;
        marked = find(marks, range.lo, range.hi);
    }
    Ok(())
}

// Looks at marked rows until none is left: from one on in the order of their numbers, which mostly serves, before an order is
// made for them.
// Equals: the least solution or that none exists, where rules of unmarked variables are kept and no tick is above the ceiling (Settled)
// Free: the ticks from lo up to hi after an Err, the marks, and where that is not so the answer and those ticks: nothing is said of them.
pub fn finish<'a>(
    rules: Rules<'a>,
    range: Range,
    from: usize,
    x: &mut [u16],
    marks: &mut [u8],
) -> Result<(), Impossible>
    requires rows_formed { RowsFormed (map (λ x. x.now) rules) range }
    requires ticks_held { TicksHeld range x.old marks.old × (range.lo ≤ from) }
    ensures { Settled (system_of (map (λ x. x.now) rules.entry) range) x.old marks.old x.new result }
{
    let span = Span {
        lo: range.lo,
        hi: range.hi,
    };
    for _ in 0..Sweeps::FIRST {
        if !sweep(rules, range, span, from, x, marks)? {
            return Ok(());
        }
    }
    settle(rules, range, x, marks)
}

// Raises x, the floor, to the least solution above it, or says that there is none.
// Equals: the least solution above x, or that none exists; other ticks as they were (Raised)
// Free: the ticks from lo up to hi after an Err: nothing is said of them.
pub fn raise<'a>(rules: Rules<'a>, range: Range, x: &mut [u16]) -> Result<(), Impossible>
    requires rows_formed { RowsFormed (map (λ x. x.now) rules) range }
    requires lent { Lent range.hi range.ceiling x.old × Under range.lo range.hi range.ceiling x.old }
    ensures { Raised (system_of (map (λ x. x.now) rules.entry) range) x.old x.new result }
{
    let mut marks = [1u8; Advice::VARIABLES];
    finish(rules, range, range.lo, x, &mut marks)
}

// Looks at the marked rows of a span upwards, some times over, each time from the first that is still marked on; an Err if no
// solution exists.
fn rounds<'a>(
    rules: Rules<'a>,
    range: Range,
    span: Span,
    x: &mut [u16],
    marks: &mut [u8],
) -> Result<(), Impossible>
    requires rows_formed { RowsFormed (map (λ x. x.now) rules) range }
    requires ticks_held { TicksHeld range x.old marks.old × Part range span }
    ensures { Swept (system_of (map (λ x. x.now) rules.entry) range) x.old marks.old x.new marks.new result }
{
    let mut from = span.lo;
    for _ in 0..Sweeps::BLOCK {
        let rest = Span {
            lo: from,
            hi: span.hi,
        };
        up(rules, range, rest, x, marks)?;
        let Some(v) = find(&*marks, span.lo, span.hi) else {
            return Ok(());
        };
        from = v;
    }
    Ok(())
}

// Looks at the marked rows of block k, which starts advise, if it lies in the range; an Err if no solution exists.
fn block<'a>(
    rules: Rules<'a>,
    range: Range,
    starts: &[u16],
    k: u16,
    x: &mut [u16],
    marks: &mut [u8],
) -> Result<(), Impossible>
    requires rows_formed { RowsFormed (map (λ x. x.now) rules) range }
    requires ticks_held { TicksHeld range x.old marks.old }
    ensures { Swept (system_of (map (λ x. x.now) rules.entry) range) x.old marks.old x.new marks.new result }
{
    let next = usize::from(k) + 1;
    if starts.len() <= next {
        return Ok(());
    }
    let lo = usize::from(starts[next - 1]);
    let hi = usize::from(starts[next]);
    if lo < range.lo || range.hi < hi {
        return Ok(());
    }
    rounds(rules, range, Span { lo: lo, hi: hi }, x, marks)
}

// Looks at the marked rows of blocks in the order that is advised; an Err if no solution exists.
fn along<'a>(
    rules: Rules<'a>,
    range: Range,
    order: &[u16],
    starts: &[u16],
    x: &mut [u16],
    marks: &mut [u8],
) -> Result<(), Impossible>
    requires rows_formed { RowsFormed (map (λ x. x.now) rules) range }
    requires ticks_held { TicksHeld range x.old marks.old }
    ensures { Swept (system_of (map (λ x. x.now) rules.entry) range) x.old marks.old x.new marks.new result }
{
    for k in order {
        block(rules, range, starts, *k, x, marks)?;
    }
    Ok(())
}

// Whether a variable is marked from lo up to hi. No early return, and so no `any` of an iterator: it would keep the compiler from
// testing many at once.
fn any(marks: &[u8], lo: usize, hi: usize) -> bool
    requires { hi ≤ length marks.now }
    ensures { AnyIs lo hi marks.now result }
{
    let mut some = 0u8;
    for v in lo..hi {
        some |= marks[v];
    }
    0 < some
}

// As raise, but first block by block: order and starts are advice, the numbers of blocks and where each starts. Blocks that are not
// in the order come after all that are.
// Equals: the least solution above x, or that none exists; other ticks as they were (Raised)
// Free: the ticks from lo up to hi after an Err: nothing is said of them.
pub fn raise_along<'a>(
    rules: Rules<'a>,
    range: Range,
    order: &[u16],
    starts: &[u16],
    x: &mut [u16],
) -> Result<(), Impossible>
    requires rows_formed { RowsFormed (map (λ x. x.now) rules) range }
    requires lent { Lent range.hi range.ceiling x.old × Under range.lo range.hi range.ceiling x.old }
    ensures { Raised (system_of (map (λ x. x.now) rules.entry) range) x.old x.new result }
{
    let mut marks = [1u8; Advice::VARIABLES];
    along(rules, range, order, starts, x, &mut marks)?;
    if !any(&marks, range.lo, range.hi) {
        return Ok(());
    }
    finish(rules, range, range.lo, x, &mut marks)
}

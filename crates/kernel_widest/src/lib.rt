// The kernel's second question: how far after each other variable can one lie? Ticks that solve the rules and answer it for all of
// them at once.
#![tactic(auto)]

ghost use Rattle.std.specs.Prelude.{map, ◌*◌, ◌<◌, ◌≤◌, length};
ghost use Rattle.kernel_advice.specs.Readable.{leaves_last};
ghost use Rattle.numbers.specs.Size.{word};
ghost use Rattle.kernel_least.specs.System.{Between};
ghost use Rattle.kernel_least.specs.Rows.{Lent, Under, Raised, KeptBut, RowsFormed, system_of};
ghost use Rattle.kernel_least.specs.Steps.{TicksHeld, Swept, Settled};
ghost use Rattle.kernel_widest.specs.View.{Copied, MostIs, AboveIs, Lowered, WideAsks, WideDone};

use kernel_advice::Advice;
use kernel_least::{Column, Demand, Impossible, Range, Rules, Watch, at};

#[derive(Clone, Copy)]
struct Looks;

impl Looks {
    // How often a variable is looked at, on the average, before another way is tried.
    const TURNS: usize = 2;
    // With more variables than these a tournament is better than sweeps.
    const WIDE: usize = 16;
}

// Looks at the row of v if it is marked, and enters the variables that it lifts into the tournament; an Err if no solution exists.
fn serve<'a>(
    rules: Rules<'a>,
    range: Range,
    v: usize,
    floor: &[u16],
    base: usize,
    x: &mut [u16],
    marks: &mut [u8],
    tree: &mut [u32; Advice::PLACES],
) -> Result<(), Impossible>
    requires rows_formed { RowsFormed (map (λ x. x.now) rules) range }
    requires ticks_held { TicksHeld range x.old marks.old × Between range.lo range.hi v }
    requires hi_in_bounds { (range.hi ≤ length floor.now) × (base ≤ leaves_last) }
    ensures { Swept (system_of (map (λ x. x.now) rules.entry) range) x.old marks.old x.new marks.new result }
{
    if marks[v] == 0 {
        return Ok(());
    }
    marks[v] = 0;
    let from = usize::from(x[v]);
    let start = at(rules, Column::FIRST, v);
    let end = at(rules, Column::FIRST, v + 1);
    for place in start..end {
        let t = at(rules, Column::TO, place);
        let need = from + at(rules, Column::WEIGHT, place);
        let demand = Demand {
            source: v,
            target: t,
            need: need,
        };
        let watch = Watch {
            edge: 0,
            noted: false,
        };
        if kernel_least::lift(x, marks, &mut [], range.ceiling, demand, watch)? {
            kernel_advice::push(x[t], floor[t], t - range.lo, base, tree);
        }
    }
    Ok(())
}

// Looks at the row of v and then always at that of the variable lifted furthest above its floor, some turns long; an Err if no
// solution exists. Where the floor keeps every rule but v's, each row is looked at once: what was lifted furthest is lifted no more.
fn relay<'a>(
    rules: Rules<'a>,
    range: Range,
    v: usize,
    floor: &[u16],
    x: &mut [u16],
    marks: &mut [u8],
) -> Result<(), Impossible>
    requires rows_formed { RowsFormed (map (λ x. x.now) rules) range }
    requires ticks_held { TicksHeld range x.old marks.old × Between range.lo range.hi v × (range.hi ≤ length floor.now) }
    ensures { Swept (system_of (map (λ x. x.now) rules.entry) range) x.old marks.old x.new marks.new result }
{
    let base = kernel_advice::leaves(range.hi - range.lo);
    let mut tree = [0u32; Advice::PLACES];
    let mut u = v;
    for _ in 0..Looks::TURNS * (range.hi - range.lo) {
        serve(rules, range, u, floor, base, x, marks, &mut tree)?;
        match kernel_advice::pop(base, &mut tree) {
            Some(leaf) if leaf < range.hi - range.lo => u = range.lo + leaf,
            _ => return Ok(()),
        }
    }
    Ok(())
}

// Looks at marked rows until none is left: by how far they were lifted, from v on, before an order is made for them.
fn spread<'a>(
    rules: Rules<'a>,
    range: Range,
    v: usize,
    floor: &[u16],
    x: &mut [u16],
    marks: &mut [u8],
) -> Result<(), Impossible>
    requires rows_formed { RowsFormed (map (λ x. x.now) rules) range }
    requires ticks_held { TicksHeld range x.old marks.old × Between range.lo range.hi v × (range.hi ≤ length floor.now) }
    ensures { Settled (system_of (map (λ x. x.now) rules.entry) range) x.old marks.old x.new result }
{
    relay(rules, range, v, floor, x, marks)?;
    kernel_least::settle(rules, range, x, marks)
}

// Raises x to the least solution above it where only rules of v can be broken, or says that there is none. What floor says is advice: x before
// v was moved.
fn raise_from<'a>(
    rules: Rules<'a>,
    range: Range,
    v: usize,
    floor: &[u16],
    x: &mut [u16],
) -> Result<(), Impossible>
    requires rows_formed { RowsFormed (map (λ x. x.now) rules) range }
    requires lent { Lent range.hi range.ceiling x.old }
    requires under { Under range.lo range.hi range.ceiling x.old × (range.hi ≤ length floor.now) }
    requires between { Between range.lo range.hi v × KeptBut (system_of (map (λ x. x.now) rules) range) v x.now }
    ensures { Raised (system_of (map (λ x. x.now) rules.entry) range) x.old x.new result }
{
    let mut marks = [0u8; Advice::VARIABLES];
    marks[v] = 1;
    if Looks::WIDE < range.hi - range.lo {
        return spread(rules, range, v, floor, x, &mut marks);
    }
    kernel_least::finish(rules, range, v, x, &mut marks)
}

// Copies x from lo up to hi into a row.
fn copy(x: &[u16], row: &mut [u16], lo: usize, hi: usize)
    requires { (lo ≤ hi) × (hi ≤ length x.now) × (hi ≤ length row.old) }
    ensures { Copied lo hi x.now row.old row.new }
{
    // Not copy_from_slice: with it a row of 256 took 470 instructions more.
    for v in lo..hi {
        row[v] = x[v];
    }
}

// The greatest tick of a row from lo up to hi, or 0: no Option, since no tick is below 0 and the ceiling is taken from it.
fn most(row: &[u16], lo: usize, hi: usize) -> usize
    requires { hi ≤ length row.now }
    ensures { MostIs lo hi row.now result }
{
    let mut m = 0;
    for v in lo..hi {
        m = m.max(usize::from(row[v]));
    }
    m
}

// t less s, but not below x.
fn above(t: usize, s: usize, x: usize) -> usize
    requires { (t < word) × (s < word) × (x < word) }
    ensures { AboveIs t s x result }
{
    if x + s < t { t - s } else { x }
}

// Takes s from each tick of a row from lo up to hi, but none comes below x.
fn lower(x: &[u16], row: &mut [u16], lo: usize, hi: usize, s: usize)
    requires { (lo ≤ hi) × (hi ≤ length x.now) × (hi ≤ length row.old) × (s < word) }
    ensures { Lowered lo hi s x.now row.old row.new }
{
    for v in lo..hi {
        row[v] = above(usize::from(row[v]), s, usize::from(x[v])) as u16;
    }
}

// From ticks x that solve the rules: the least ones above them with variable e at its latest. Where x is the least solution above
// some floor, e lies as far after each other variable as it can above that floor. With e at the ceiling others come to lie above
// it; by as much as the last of them does, all are lowered.
// Equals: how far e lies after each other variable, which is as far as it can; ticks outside lo up to hi as they were (WideDone)
// Free: how late the ticks from lo up to hi lie as a whole: they solve the rules above any floor whose least solution is x (Widened).
pub fn widen<'a>(rules: Rules<'a>, range: Range, e: usize, x: &[u16], row: &mut [u16])
    requires rows_formed { RowsFormed (map (λ x. x.now) rules) range }
    requires lent { Lent range.hi (2 * range.ceiling) row.old }
    requires wide_asks { WideAsks (system_of (map (λ x. x.now) rules) range) e x.now }
    ensures { WideDone (system_of (map (λ x. x.now) rules.entry) range) e x.now row.old row.new }
{
    copy(x, row, range.lo, range.hi);
    row[e] = range.ceiling as u16;
    let roomy = Range {
        lo: range.lo,
        hi: range.hi,
        ceiling: 2 * range.ceiling,
    };
    // With e at the ceiling there still is a solution, since x is one: this is no Err.
    let _ = raise_from(rules, roomy, e, x, row);
    let over = most(&*row, range.lo, range.hi) - range.ceiling;
    if 0 < over {
        lower(x, row, range.lo, range.hi, over);
    }
}

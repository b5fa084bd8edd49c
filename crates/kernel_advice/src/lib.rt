// Advice for raising: which variable to look at next, and who lifted whom. It is free: of order, push, pop and back nothing is
// promised but that they do no harm, and whoever takes advice tests it.
#![tactic(auto)]

ghost use Rattle.std.specs.Prelude.{◌≡◌, ◌<◌, ◌≤◌, length, get_or, IfSome};
ghost use Rattle.kernel_advice.specs.Readable.{Readable, variables, places, leaves_last};
ghost use Rattle.numbers.specs.Size.{word};

#[derive(Clone, Copy)]
pub struct Advice;

impl Advice {
    pub const VARIABLES: usize = 256;
    // An order and the same order backwards.
    pub const LIST: usize = 512;
    // As many steps as a search takes that opens and closes each variable once.
    const STEPS: usize = 512;
    // A tournament: its winners, four below each, and a leaf for each variable; before them a place ahead of it.
    pub const PLACES: usize = 344;

    const ROOT: usize = 3;

    const LEAVES: usize = 88;

    const AHEAD: usize = 0;
    // Where the leaves start if there are few of them.
    const FEW: usize = 64;

    const FEW_LEAVES: usize = 24;
}

// The variables from lo up to hi.
#[derive(Clone, Copy)]
pub struct Span {
    pub lo: usize,
    pub hi: usize,
}

// A search: the open variables, the next place to look at in the row of each, and which were seen. An array with its depth beside it
// (Walk) is the stack, since nothing is allocated.
#[derive(Clone, Copy)]
struct Search {
    open: [u16; Advice::VARIABLES],
    next: [u16; Advice::VARIABLES],
    seen: [bool; Advice::VARIABLES],
}

// How far a search is: how many variables are open, and where in the list the closed ones start.
#[derive(Clone, Copy)]
struct Walk {
    depth: usize,
    at: usize,
}

// Where as many steps back from v as there are variables, by who lifted whom, end: on a cycle if there is one. None if they leave
// the variables below hi.
// Free: any number, or none.
pub fn back(parents: &[u8; Advice::VARIABLES], v: usize, span: Span) -> Option<usize>
    requires { (span.lo ≤ span.hi) × (span.hi ≤ variables) }
{
    let mut u = v;
    for _ in span.lo..span.hi {
        if span.hi <= u {
            return None;
        }
        u = usize::from(parents[u]);
    }
    Some(u)
}

// The first place from r on up to end with a rule to a variable below hi that was not seen.
fn child(
    to: &[u16],
    hi: usize,
    seen: &[bool; Advice::VARIABLES],
    r: usize,
    end: usize,
) -> Option<usize>
    requires { (end ≤ length to.now) × (hi ≤ variables) }
    ensures { IfSome result (λ k. (k < end) × (get_or to.now k 0 < hi)) }
{
    for k in r..end {
        let t = usize::from(to[k]);
        if t < hi && !seen[t] {
            return Some(k);
        }
    }
    None
}

// Opens t.
fn open(first: &[u16], t: usize, w: Walk, search: &mut Search) -> Walk
    requires { (t < variables) × (t < length first.now) }
    ensures { (w.depth ≤ variables → result.depth ≤ variables) × (result.at ≡ w.at) }
{
    let depth = w.depth;
    if Advice::VARIABLES <= depth {
        return w;
    }
    search.seen[t] = true;
    search.next[t] = first[t];
    search.open[depth] = t as u16;
    Walk {
        depth: depth + 1,
        at: w.at,
    }
}

// Closes u: it stands before all that were closed, and backwards after them.
fn close(list: &mut [u8; Advice::LIST], u: usize, w: Walk) -> Walk
    requires { (u < variables) × (0 < w.depth) × (w.depth ≤ variables) × (w.at ≤ variables) }
    ensures { (result.depth ≤ variables) × (result.at ≤ variables) }
{
    let at = w.at;
    if at == 0 {
        return Walk { depth: 0, at: 0 };
    }
    let before = at - 1;
    let after = Advice::LIST - at;
    list[before] = u as u8;
    list[after] = u as u8;
    Walk {
        depth: w.depth - 1,
        at: before,
    }
}

// One step of the search: opens a variable that the last open one leads to, or closes that one.
fn step(
    first: &[u16],
    to: &[u16],
    span: Span,
    w: Walk,
    list: &mut [u8; Advice::LIST],
    search: &mut Search,
) -> Walk
    requires readable { Readable first.now to.now span.lo span.hi }
    requires depth_nonzero { (0 < w.depth) × (w.depth ≤ variables) × (w.at ≤ variables) }
    ensures { (result.depth ≤ variables) × (result.at ≤ variables) }
{
    let top = w.depth - 1;
    let u = usize::from(search.open[top]);
    if u < span.lo || span.hi <= u {
        return Walk { depth: 0, at: w.at };
    }
    let end = usize::from(first[u + 1]);
    let from = usize::from(search.next[u]);
    let Some(r) = child(to, span.hi, &search.seen, from, end) else {
        return close(list, u, w);
    };
    search.next[u] = (r + 1) as u16;
    open(first, usize::from(to[r]), w, search)
}

// Closes all variables that can be reached from root and were not seen; where in the list they start.
fn visit(
    first: &[u16],
    to: &[u16],
    span: Span,
    root: usize,
    at: usize,
    list: &mut [u8; Advice::LIST],
    search: &mut Search,
) -> usize
    requires readable { Readable first.now to.now span.lo span.hi }
    requires root_lt_hi { (root < span.hi) × (at ≤ variables) }
    ensures { result ≤ variables }
{
    if search.seen[root] {
        return at;
    }
    let mut w = open(first, root, Walk { depth: 0, at: at }, search);
    for _ in 0..Advice::STEPS {
        if w.depth == 0 {
            return w.at;
        }
        w = step(first, to, span, w, list, search);
    }
    w.at
}

// Lists all variables that can be reached from marked ones, in an order in which rules lead forward where they can, and
// backwards after that; where the list starts.
// Free: the list, whatever it holds: it starts at 256 at the latest.
pub fn order(
    first: &[u16],
    to: &[u16],
    span: Span,
    marks: &[u8],
    list: &mut [u8; Advice::LIST],
) -> usize
    requires { Readable first.now to.now span.lo span.hi × (span.hi ≤ length marks.now) }
    ensures { result ≤ variables }
{
    let mut search = Search {
        open: [0u16; Advice::VARIABLES],
        next: [0u16; Advice::VARIABLES],
        seen: [false; Advice::VARIABLES],
    };
    let mut at = Advice::VARIABLES;
    for v in span.lo..span.hi {
        if 0 < marks[v] {
            at = visit(first, to, span, v, at, list, &mut search);
        }
    }
    at
}

// Where the leaves of a tournament of n variables start.
// Free: any number up to leaves_last.
pub fn leaves(n: usize) -> usize
    ensures { result ≤ leaves_last }
{
    if n <= Advice::FEW {
        Advice::FEW_LEAVES
    } else {
        Advice::LEAVES
    }
}

// Enters a leaf into the tournament, or again with a greater key: it wins up to the first winner that is not less.
fn enter(tree: &mut [u32; Advice::PLACES], at: usize, key: u32)
    requires { at < places }
{
    let mut i = at;
    tree[i] = key;
    // A while: from a leaf up to the root i falls to about a quarter at each step.
    while Advice::ROOT < i {
        i = i / 4 + 2;
        if key <= tree[i] {
            return;
        }
        tree[i] = key;
    }
}

// Takes a leaf out of the tournament.
fn leave(tree: &mut [u32; Advice::PLACES], at: usize)
    requires { at < places }
{
    let mut i = at;
    tree[i] = 0;
    // A while: as in enter.
    while Advice::ROOT < i {
        let group = i / 4;
        let low = tree[4 * group].max(tree[4 * group + 1]);
        let high = tree[4 * group + 2].max(tree[4 * group + 3]);
        i = group + 2;
        tree[i] = low.max(high);
    }
}

// The key of a leaf: the greater, the further its variable was lifted, and never 0. Of equal lifts the first leaf wins, so that those
// entered after it need not be compared with all. 0 is no leaf and less than every key, so that max alone finds the winner; an Option
// would say no more and take twice the room.
fn key(tick: usize, floor: usize, leaf: usize) -> u32
    requires { (tick < word) × (leaf < variables) }
{
    (Advice::VARIABLES * (tick.saturating_sub(floor) + 2) - 1 - leaf) as u32
}

// The leaf of a key.
fn leaf_of(key: u32) -> usize
    ensures { result < variables }
{
    Advice::VARIABLES - 1 - key as usize % Advice::VARIABLES
}

// A leaf that does not wait takes the place ahead of the tournament if its key is not less than that of the leaf there, which
// has to wait then; else it waits itself.
fn advance(base: usize, at: usize, key: u32, tree: &mut [u32; Advice::PLACES])
    requires { (base ≤ leaves_last) × (at < places) }
{
    let ahead = tree[Advice::AHEAD];
    if key < ahead {
        enter(tree, at, key);
        return;
    }
    tree[Advice::AHEAD] = key;
    let other = leaf_of(ahead);
    if 0 < ahead {
        if other != leaf_of(key) {
            enter(tree, base + other, ahead);
        }
    }
}

// Enters a leaf, whose variable was lifted, into the tournament.
// Free: the tournament, whatever it holds.
pub fn push(tick: u16, floor: u16, leaf: usize, base: usize, tree: &mut [u32; Advice::PLACES])
    requires { (leaf < variables) × (base ≤ leaves_last) }
{
    let at = base + leaf;
    let k = key(usize::from(tick), usize::from(floor), leaf);
    if 0 < tree[at] {
        enter(tree, at, k);
        return;
    }
    advance(base, at, k, tree);
}

// Takes the leaf with the greatest key out of the tournament, or from ahead of it.
// Free: any number below 256 or none, and the tournament.
pub fn pop(base: usize, tree: &mut [u32; Advice::PLACES]) -> Option<usize>
    requires { base ≤ leaves_last }
    ensures { IfSome result (λ leaf. leaf < variables) }
{
    let best = tree[Advice::ROOT];
    let ahead = tree[Advice::AHEAD];
    if best <= ahead {
        if ahead == 0 {
            return None;
        }
        tree[Advice::AHEAD] = 0;
        return Some(leaf_of(ahead));
    }
    let leaf = leaf_of(best);
    leave(tree, base + leaf);
    Some(leaf)
}

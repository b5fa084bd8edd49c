// The orders: exactly the facts shown cleared last and shown cleared first.
// A fact without a pair of a set and a clear is shown at once. Of any other that is not shown, a pair that no shown fact guards is
// watched, and the fact is looked at again only when a new fact guards it. Every pair is passed once.
#![tactic(auto)]

ghost use Rattle.std.specs.Prelude.{◌≡◌, [], ◌∷◌, ◌++◌, ◌+◌, ◌<◌, ◌≤◌, length};
ghost use Rattle.laws.specs.Test.{Tells, Says};
ghost use Rattle.laws.specs.Columns.{col};
ghost use Rattle.laws.specs.Limits.{most_facts};
ghost use Rattle.index.specs.View.{events_in, set_starts, clear_starts};
ghost use Rattle.theory.specs.Computed.Mark.{AllGuardedFirst};
ghost use Rattle.order_guard.specs.Pair.{cell_of, mark_of, In, Two};
ghost use Rattle.order_guard.specs.Basis.{Grounded, sheet_of, HasRows};
ghost use Rattle.order_shown.specs.View.{WantedAre, OrdersOf};
ghost use Rattle.order_shown.specs.Grid.{
  row_column,
  col_column,
  both_of,
  Paired,
  Unpaired,
  Plain,
  Open,
  Fine,
  sides_of,
  last_sides,
  AsksStop,
  Stops,
  AsksSeek,
  Seeks,
  Long,
  Moved,
  State,
  AsksSettle,
  AsksVisit,
  Visits,
  listed_in,
  RestLists,
  AsksSpread,
  Spreads,
  NextFrom,
  Next,
  LastOf,
  FirstOf,
};

use index::Column;
use order_guard::{Basis, Pair};
use sheet::Sheet;
use std::marker::Model;

// The marks: fact f is shown cleared last, cleared first.
#[derive(Clone, Copy)]
pub struct Orders {
    pub last: [bool; Sheet::MAX_FACTS],
    pub first: [bool; Sheet::MAX_FACTS],
}

// The two orders. A pair of cleared last has its set in the row and its clear in the column, one of cleared first the other way round.
#[derive(Clone, Copy)]
enum Order {
    Last,
    First,
}

impl Order {
    // The column of the index with the events of a pair's row.
    fn rows(self) -> usize
        ensures { result ≡ row_column self }
    {
        match self {
            Order::Last => Column::SETS,
            Order::First => Column::CLEARS,
        }
    }

    // The column of the index with the events of a pair's column.
    fn cols(self) -> usize
        ensures { result ≡ col_column self }
    {
        match self {
            Order::Last => Column::CLEARS,
            Order::First => Column::SETS,
        }
    }

    // A pair counts only if the row's job is wanted, too.
    fn both(self) -> bool
        ensures { result ≡ both_of self }
    {
        match self {
            Order::Last => false,
            Order::First => true,
        }
    }
}

// A pair of events by their places in the two lists.
#[derive(Clone, Copy)]
pub struct Spot {
    pub row: usize,
    pub col: usize,
}

// How far cleared last is shown: the marks, and the pair that is watched of each fact that is not marked.
#[derive(Clone, Copy)]
struct Marking {
    last: [bool; Sheet::MAX_FACTS],
    watched: [Spot; Sheet::MAX_FACTS],
}

// The facts that are left, in order: those that listed_in names. (No heap: an array with a count. Its value has both, as Copy needs.)
#[derive(Clone, Copy)]
pub struct Rest {
    pub count: usize,
    pub fact: [usize; Sheet::MAX_FACTS],
}

impl Model for Rest {
    ghost use Rattle.std.specs.Prelude.{ℕ, ◌≤◌, List};
    ghost use Rattle.laws.specs.Limits.{most_facts};

    ghost Value = { List ℕ × ℕ };

    ghost view = { λ r. (r.fact, r.count) };

    ghost invariant = { λ r. r.count ≤ most_facts };

    ghost inverse = { λ d. record { fact = d.0; count = d.1 } };
}

impl Rest {
    fn new() -> Rest
        ensures { listed_in result ≡ [] }
    {
        Rest {
            count: 0,
            fact: [0; Sheet::MAX_FACTS],
        }
    }

    fn push(&mut self, f: usize)
        requires { length (listed_in self.old) < most_facts }
        ensures { listed_in self.new ≡ listed_in self.old ++ f ∷ [] }
    {
        self.fact[self.count] = f;
        self.count += 1;
    }

    fn listed(&self) -> &[usize]
        ensures { result.now ≡ listed_in self.now }
    {
        &self.fact[..self.count]
    }
}

// What showing the orders reads: the basis of the questions on pairs, and the marks of the wanted jobs. (A ghost field holds a
// proposition, so it says only that the marks' fact has a proof.)
#[derive(Drop)]
struct Search<'b, 'c, 'o, 'j> {
    basis: Basis<'b, 'c, 'o>,
    jobs: &'j [bool],
    ghost wanted: { ∥ WantedAre (sheet_of basis) jobs.now ∥₁ },
}

// The facts that are not marked.
fn unmarked(last: &[bool], facts: usize) -> Rest
    requires { (facts ≤ most_facts) × (facts ≤ length last.now) }
    ensures { RestLists last.now facts (listed_in result) }
{
    let mut rest = Rest::new();
    for f in 0..facts {
        if !last[f] {
            rest.push(f);
        }
    }
    rest
}

// The next marked fact that is not yet tried, from a place on.
fn next_from(last: &[bool], done: &[bool], facts: usize, from: usize) -> Option<usize>
    requires { (facts ≤ length last.now) × (facts ≤ length done.now) }
    ensures { NextFrom last.now done.now facts from result }
{
    for p in from..facts {
        if last[p] && !done[p] {
            return Some(p);
        }
    }
    None
}

// The next, from a place on and then from the start.
fn next(last: &[bool], done: &[bool], facts: usize, from: usize) -> Option<usize>
    requires { (facts ≤ length last.now) × (facts ≤ length done.now) }
    ensures { Next last.now done.now facts result }
{
    match next_from(last, done, facts, from) {
        Some(p) => Some(p),
        None => next_from(last, done, facts, 0),
    }
}

impl<'b, 'c, 'o, 'j> Search<'b, 'c, 'o, 'j> {
    // The job of event e is wanted.
    fn wants(&self, e: usize) -> bool
        requires { e < (sheet_of self.now.basis).events }
        ensures { result ≡ mark_of self.now.jobs.now ((sheet_of self.now.basis).event e).job }
    {
        let job = self.basis.job(e);
        self.jobs[job]
    }

    // The pair counts and no marked fact guards it.
    fn is_open(&self, last: &[bool], order: Order, pair: Pair, table: &mut [u16]) -> bool
        requires pair { Two (sheet_of self.now.basis) pair.row pair.col }
        requires marks { most_facts ≤ length last.now }
        requires filled { HasRows self.now.basis table.old }
        ensures tells { Tells
            (Open (sheet_of self.now.basis) last.now self.now.jobs.now (both_of order) pair.row pair.col)
            (Fine (sheet_of self.now.basis) last.now self.now.jobs.now (both_of order) pair.row pair.col)
            result }
        ensures filled_2 { HasRows self.now.basis table.new }
    {
        if !self.wants(pair.col) {
            return false;
        }
        if order.both() && !self.wants(pair.row) {
            return false;
        }
        !self.basis.guarded(last, pair, table)
    }

    // The first open column of a row, of those from a place to another.
    fn stop(
        &self,
        last: &[bool],
        order: Order,
        row: usize,
        from: usize,
        to: usize,
        table: &mut [u16],
    ) -> Option<usize>
        requires asks_stop { AsksStop (sheet_of self.now.basis) (events_in self.now.basis.columns) row from to }
        requires marks { most_facts ≤ length last.now }
        requires filled { HasRows self.now.basis table.old }
        ensures stops { Stops (sheet_of self.now.basis) last.now self.now.jobs.now (both_of order)
            (events_in self.now.basis.columns) row from to result }
        ensures filled_2 { HasRows self.now.basis table.new }
    {
        for k in from..to {
            let pair = Pair {
                row,
                col: self.basis.event_at(k),
            };
            if self.is_open(last, order, pair, table) {
                return Some(k);
            }
        }
        None
    }

    // The first open pair of fact f, from a spot on.
    fn seek(
        &self,
        last: &[bool],
        order: Order,
        f: usize,
        start: Spot,
        table: &mut [u16],
    ) -> Option<Spot>
        requires asks_seek { AsksSeek (sheet_of self.now.basis) (sides_of order self.now.jobs.now self.now.basis.columns)
            last.now (both_of order) f start }
        requires filled { HasRows self.now.basis table.old }
        ensures seeks { Seeks (sheet_of self.now.basis) (sides_of order self.now.jobs.now self.now.basis.columns)
            last.now (both_of order) f start.row result }
        ensures filled_2 { HasRows self.now.basis table.new }
        ensures ground { Grounded self.now.basis }
    {
        let (_, end) = self.basis.places(order.rows(), f);
        let (from, to) = self.basis.places(order.cols(), f);
        let mut q = start.col;
        for r in start.row..end {
            let row = self.basis.event_at(r);
            if let Some(col) = self.stop(last, order, row, q, to, table) {
                return Some(Spot { row: r, col });
            }
            q = from;
        }
        None
    }

    // The first pair of fact f.
    fn start(&self, order: Order, f: usize) -> Spot
        requires { f < (sheet_of self.now.basis).facts }
        ensures row { result.row ≡ cell_of (col self.now.basis.columns (row_column order)) f }
        ensures col { result.col ≡ cell_of (col self.now.basis.columns (col_column order)) f }
    {
        let (row, _) = self.basis.places(order.rows(), f);
        let (col, _) = self.basis.places(order.cols(), f);
        Spot { row, col }
    }

    // Fact f has a set and a clear.
    fn paired(&self, f: usize) -> bool
        requires { f < (sheet_of self.now.basis).facts }
        ensures tells { Tells
            (Paired (set_starts self.now.basis.columns) (clear_starts self.now.basis.columns) f)
            (Unpaired (set_starts self.now.basis.columns) (clear_starts self.now.basis.columns) f)
            result }
        ensures ground { Grounded self.now.basis }
    {
        let (set, sets_end) = self.basis.places(Column::SETS, f);
        if sets_end <= set {
            return false;
        }
        let (clear, clears_end) = self.basis.places(Column::CLEARS, f);
        clear < clears_end
    }

    // The facts without a pair.
    fn unpaired(&self) -> [bool; Sheet::MAX_FACTS]
        ensures { Plain (set_starts self.now.basis.columns) (clear_starts self.now.basis.columns) (sheet_of self.now.basis).facts result }
    {
        let facts = self.basis.facts();
        let mut plain = [false; Sheet::MAX_FACTS];
        for f in 0..facts {
            plain[f] = !self.paired(f);
        }
        plain
    }

    // A fact is looked at, from a pair of it on: it is marked, or a pair of it is watched.
    fn settle(&self, f: usize, start: Spot, marking: &mut Marking, table: &mut [u16])
        requires asks_settle { AsksSettle (sheet_of self.now.basis) (last_sides self.now.jobs.now self.now.basis.columns)
            marking.old.last marking.old.watched f start }
        requires filled { HasRows self.now.basis table.old }
        ensures moved { Moved (sheet_of self.now.basis) (last_sides self.now.jobs.now self.now.basis.columns)
            f marking.old.last marking.old.last marking.old.watched marking.new.last marking.new.watched }
        ensures filled_2 { HasRows self.now.basis table.new }
    {
        match self.seek(&marking.last, Order::Last, f, start, table) {
            Some(spot) => marking.watched[f] = spot,
            None => marking.last[f] = true,
        }
    }

    // Fact f is looked at again if fact p guards the pair that is watched of it.
    fn visit(&self, p: usize, f: usize, marking: &mut Marking, table: &mut [u16])
        requires asks_visit { AsksVisit (sheet_of self.now.basis) (last_sides self.now.jobs.now self.now.basis.columns)
            marking.old.last marking.old.watched p f }
        requires filled { HasRows self.now.basis table.old }
        ensures visits { Visits (sheet_of self.now.basis) (last_sides self.now.jobs.now self.now.basis.columns)
            p f marking.old.last marking.old.watched marking.new.last marking.new.watched }
        ensures filled_2 { HasRows self.now.basis table.new }
    {
        if marking.last[f] {
            return;
        }
        let spot = marking.watched[f];
        let pair = Pair {
            row: self.basis.event_at(spot.row),
            col: self.basis.event_at(spot.col),
        };
        if !self.basis.guards(pair, p, table) {
            return;
        }
        self.settle(f, spot, marking, table);
    }

    // Every fact that is left and whose watched pair is guarded by fact p is looked at again.
    fn spread(&self, p: usize, rest: &[usize], marking: &mut Marking, table: &mut [u16])
        requires asks_spread { AsksSpread (sheet_of self.now.basis) (last_sides self.now.jobs.now self.now.basis.columns)
            rest.now marking.old.last marking.old.watched p }
        requires filled { HasRows self.now.basis table.old }
        ensures spreads { Spreads (sheet_of self.now.basis) (last_sides self.now.jobs.now self.now.basis.columns)
            p marking.old.last marking.old.watched marking.new.last marking.new.watched }
        ensures filled_2 { HasRows self.now.basis table.new }
    {
        for f in rest {
            self.visit(p, *f, marking, table);
        }
    }

    // Every fact that is not marked is looked at once.
    fn begin(&self, marking: &mut Marking, table: &mut [u16])
        requires long { Long marking.old.last marking.old.watched }
        requires plain { Plain (set_starts self.now.basis.columns) (clear_starts self.now.basis.columns)
            (sheet_of self.now.basis).facts marking.old.last }
        requires filled { HasRows self.now.basis table.old }
        ensures state { State (sheet_of self.now.basis) (last_sides self.now.jobs.now self.now.basis.columns)
            [] marking.new.last marking.new.watched }
        ensures filled_2 { HasRows self.now.basis table.new }
    {
        for f in 0..self.basis.facts() {
            if !marking.last[f] {
                let start = self.start(Order::Last, f);
                self.settle(f, start, marking, table);
            }
        }
    }

    // The facts shown cleared last: each marked fact is tried once on every pair that is watched.
    fn shown_last(&self, table: &mut [u16]) -> [bool; Sheet::MAX_FACTS]
        requires filled { HasRows self.now.basis table.old }
        ensures last_of { LastOf (sheet_of self.now.basis) result }
        ensures filled_2 { HasRows self.now.basis table.new }
    {
        let facts = self.basis.facts();
        let mut marking = Marking {
            last: self.unpaired(),
            watched: [Spot { row: 0, col: 0 }; Sheet::MAX_FACTS],
        };
        self.begin(&mut marking, table);
        let left = unmarked(&marking.last, facts);
        let rest = left.listed();
        if rest.is_empty() {
            return marking.last;
        }
        let mut done = [false; Sheet::MAX_FACTS];
        let mut tried = next(&marking.last, &done, facts, 0);
        // no range: each round adds marks, and the next fact to try follows from them
        while let Some(p) = tried {
            self.spread(p, rest, &mut marking, table);
            done[p] = true;
            tried = next(&marking.last, &done, facts, p + 1);
        }
        marking.last
    }

    // Fact f is shown cleared first: the same pairs with set and clear exchanged, both by wanted jobs.
    fn is_first(&self, last: &[bool], f: usize, table: &mut [u16]) -> bool
        requires fact { f < (sheet_of self.now.basis).facts }
        requires marks { most_facts ≤ length last.now }
        requires filled { HasRows self.now.basis table.old }
        ensures says { Says (AllGuardedFirst (sheet_of self.now.basis) (λ p. In last.now p) f) result }
        ensures filled_2 { HasRows self.now.basis table.new }
    {
        if !self.paired(f) {
            return true;
        }
        let start = self.start(Order::First, f);
        self.seek(last, Order::First, f, start, table).is_none()
    }

    // The facts shown cleared first.
    fn shown_first(&self, last: &[bool], table: &mut [u16]) -> [bool; Sheet::MAX_FACTS]
        requires marks { most_facts ≤ length last.now }
        requires filled { HasRows self.now.basis table.old }
        ensures first_of { FirstOf (sheet_of self.now.basis) last.now (sheet_of self.now.basis).facts result }
        ensures filled_2 { HasRows self.now.basis table.new }
        ensures ground { Grounded self.now.basis }
    {
        let mut first = [false; Sheet::MAX_FACTS];
        for f in 0..self.basis.facts() {
            first[f] = self.is_first(last, f, table);
        }
        first
    }
}

impl Orders {
    // Equals: of each fact of the sheet whether it is ClearedLast, ClearedFirst (OrdersOf)
    // Free: the marks behind the last fact, and the table: nothing is said of them.
    pub fn new(basis: Basis, jobs: &[bool], table: &mut [u16]) -> Orders
        requires wanted { WantedAre (sheet_of basis) jobs.now }
        requires filled { HasRows basis table.old }
        ensures { OrdersOf (sheet_of basis.entry) result }
    {
        let search = Search { basis, jobs };
        let last = search.shown_last(table);
        let first = search.shown_first(&last, table);
        Orders { last, first }
    }
}

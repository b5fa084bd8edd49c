// One pair of events of a fact, a row and a column: does a fact guard it? Cleared last has sets in rows and clears in columns, cleared
// first the other way round. The rows of the table of widest own times are made when they are asked for.
#![tactic(auto)]

ghost use Rattle.std.specs.Prelude.{◌≡◌, ◌+◌, ◌<◌, ◌≤◌, map, length};
ghost use Rattle.laws.specs.Test.{Says};
ghost use Rattle.laws.specs.Limits.{most_facts};
ghost use Rattle.laws.specs.Columns.{col};
ghost use Rattle.rules.specs.Sheet.{clears};
ghost use Rattle.rules.specs.Plan.{Is};
ghost use Rattle.sheet.specs.View.{event_from};
ghost use Rattle.index.specs.View.{PresentEvent, events_in, spans_in};
ghost use Rattle.own_times.specs.View.{Grown};
ghost use Rattle.order_guard.specs.Pair.{cell_of, at_most, AsksAtMost, Ground, column_type, AsksFind, FindsEvent, GuardBy, Guarded, Hit, AsksHit, Two};
ghost use Rattle.order_guard.specs.Basis.{Grounded, sheet_of, HasRows};

use index::{Column, Columns};
use own_times::OwnRows;
use sheet::{Event, WellFormed};
use std::marker::Model;

// The two events of a pair.
#[derive(Clone, Copy)]
pub struct Pair {
    pub row: usize,
    pub col: usize,
}

// What every question on a pair reads: a well-formed sheet, the index of its events, the rows of own rules and the least own times,
// and the stride of the table of widest own times, which is lent beside it.
#[derive(Drop)]
pub struct Basis<'b, 'c, 'o> {
    sheet: WellFormed<'b>,
    columns: Columns<'c>,
    own: OwnRows<'o>,
    stride: usize,
}

impl<'b, 'c, 'o> Model for Basis<'b, 'c, 'o> {
    ghost use Rattle.std.specs.Prelude.{map};
    ghost use Rattle.order_guard.specs.Pair.{Ground};
    ghost use Rattle.order_guard.specs.Basis.{Read};

    ghost Value = { Read };

    ghost view = { λ a. record { sheet = a.sheet; columns = map (λ x. x.now) a.columns; own = map (λ x. x.now) a.own; stride = a.stride } };

    ghost invariant = { λ a. Ground a.sheet (map (λ x. x.now) a.columns) (map (λ x. x.now) a.own) a.stride };
}

impl<'b, 'c, 'o> Basis<'b, 'c, 'o> {
    // Equals: what is passed, as one record
    pub fn new(
        sheet: &WellFormed<'b>,
        columns: Columns<'c>,
        own: OwnRows<'o>,
        stride: usize,
    ) -> Basis<'b, 'c, 'o>
        requires { Ground sheet.now (map (λ x. x.now) columns) (map (λ x. x.now) own) stride }
        ensures { result ≡ record { sheet = sheet.now; columns = map (λ x. x.now) columns.entry; own = map (λ x. x.now) own.entry; stride = stride } }
    {
        Basis {
            sheet: *sheet,
            columns,
            own,
            stride,
        }
    }

    // How many facts the sheet has.
    // Equals: facts of sheet_of
    pub fn facts(&self) -> usize
        ensures facts { result ≡ (sheet_of self.now).facts }
        ensures ground { Grounded self.now }
    {
        self.sheet.view.facts
    }

    // Where the events of fact f start and end in column k of the index.
    // Equals: cell_of (col columns k) at f and at f + 1
    pub fn places(&self, k: usize, f: usize) -> (usize, usize)
        requires { (k ≤ 2) × (f < (sheet_of self.now).facts) }
        ensures from { result.0 ≡ cell_of (col self.now.columns k) f }
        ensures end { result.1 ≡ cell_of (col self.now.columns k) (f + 1) }
        ensures ground { Grounded self.now }
    {
        (
            index::at(self.columns, k, f),
            index::at(self.columns, k, f + 1),
        )
    }

    // The event at place i.
    // Equals: cell_of (events_in columns) i
    pub fn event_at(&self, i: usize) -> usize
        requires { i < length (events_in self.now.columns) }
        ensures event { result ≡ cell_of (events_in self.now.columns) i }
        ensures ground { Grounded self.now }
    {
        index::at(self.columns, Column::EVENT, i)
    }

    // The job of event e.
    // Equals: job of event e in sheet_of
    pub fn job(&self, e: usize) -> usize
        requires { e < (sheet_of self.now).events }
        ensures job { result ≡ ((sheet_of self.now).event e).job }
        ensures ground { Grounded self.now }
    {
        index::job(self.sheet.view, self.sheet.bytes, self.columns, e)
    }

    // Event e.
    fn event(&self, e: usize) -> Event
        requires { e < (sheet_of self.now).events }
        ensures event { result ≡ event_from ((sheet_of self.now).event e).kind ((sheet_of self.now).event e).fact }
        ensures ground { Grounded self.now }
    {
        index::event(&self.sheet, self.columns, e)
    }

    // Where the events of a job start and end.
    fn span(&self, job: usize) -> (usize, usize)
        requires { job < (sheet_of self.now).jobs }
        ensures from { result.0 ≡ cell_of (spans_in self.now.columns) job }
        ensures end { result.1 ≡ cell_of (spans_in self.now.columns) (job + 1) }
        ensures ground { Grounded self.now }
    {
        (
            index::at(self.columns, Column::SPAN, job),
            index::at(self.columns, Column::SPAN, job + 1),
        )
    }

    // The row of event e is made, unless it is there already.
    fn make_row(&self, e: usize, table: &mut [u16])
        requires event { PresentEvent (sheet_of self.now) e }
        requires filled { HasRows self.now table.old }
        ensures filled_2 { HasRows self.now table.new }
        ensures grown { Grown (sheet_of self.now).events e table.old table.new }
        ensures ground { Grounded self.now }
    {
        if table[e] == 0 {
            own_times::row(&self.sheet, self.columns, self.own, self.stride, e, table);
        }
    }

    // Greatest time(x) - time(y) is at most least time(u) - time(v), each over own times.
    #[tactic(auto, unfolding(crate::specs::Pair::at_most))]
    fn at_most(&self, table: &[u16], x: usize, y: usize, u: usize, v: usize) -> bool
        requires { AsksAtMost self.now.sheet.view.events self.now.stride table.now x y u v }
        ensures { result ≡ at_most self.now.sheet.view.events self.now.stride table.now x y u v }
    {
        let x_row = self.sheet.view.events + self.stride * x;
        let v_row = self.sheet.view.events + self.stride * v;
        usize::from(table[x_row + x]) + usize::from(table[v_row + v])
            <= usize::from(table[v_row + u]) + usize::from(table[x_row + y])
    }

    // The event of a job among the events of fact f in column k of the index.
    fn find(&self, k: usize, f: usize, job: usize) -> Option<usize>
        requires { AsksFind (sheet_of self.now) k f job }
        ensures { FindsEvent (sheet_of self.now) job f (column_type k) result }
    {
        let (from, end) = self.places(k, f);
        for i in from..end {
            let e = self.event_at(i);
            if self.job(e) == job {
                return Some(e);
            }
        }
        None
    }

    // Fact p, which event x of the column's job clears, guards the pair: the row's job needs it, and the comparison holds. The end of
    // a need is the event after its begin.
    fn meets(&self, pair: Pair, x: usize, p: usize, table: &mut [u16]) -> bool
        requires pair { Two (sheet_of self.now) pair.row pair.col }
        requires clear { Is (sheet_of self.now) x ((sheet_of self.now).event pair.col).job clears p }
        requires filled { HasRows self.now table.old }
        ensures says { Says (GuardBy (sheet_of self.now) p pair.row pair.col) result }
        ensures filled_2 { HasRows self.now table.new }
    {
        let job = self.job(pair.row);
        let Some(begin) = self.find(Column::BEGINS, p, job) else {
            return false;
        };
        self.make_row(x, table);
        self.make_row(pair.row, table);
        self.at_most(&*table, x, pair.col, begin + 1, pair.row)
    }

    // Fact p guards the pair.
    // Equals: whether GuardBy holds
    // Free: which events are marked, also of those that were, each by any number above 0: every marked event has its row (Filled).
    // Free: how late each row lies as a whole; what else stands in no row of a marked event: nothing is said of it.
    pub fn guards(&self, pair: Pair, p: usize, table: &mut [u16]) -> bool
        requires pair { Two (sheet_of self.now) pair.row pair.col }
        requires fact { p < (sheet_of self.now).facts }
        requires filled { HasRows self.now table.old }
        ensures says { Says (GuardBy (sheet_of self.now) p pair.row pair.col) result }
        ensures filled_2 { HasRows self.now table.new }
    {
        let job = self.job(pair.col);
        match self.find(Column::CLEARS, p, job) {
            Some(x) => self.meets(pair, x, p, table),
            None => false,
        }
    }

    // Event x clears a marked fact that guards the pair.
    fn hits(&self, last: &[bool], pair: Pair, x: usize, table: &mut [u16]) -> bool
        requires pair { Two (sheet_of self.now) pair.row pair.col }
        requires asks_hit { AsksHit (sheet_of self.now) pair.col x }
        requires marks { most_facts ≤ length last.now }
        requires filled { HasRows self.now table.old }
        ensures says { Says (Hit (sheet_of self.now) last.now pair.row pair.col x) result }
        ensures filled_2 { HasRows self.now table.new }
    {
        let Event::Clears(p) = self.event(x) else {
            return false;
        };
        if !last[p] {
            return false;
        }
        // no present job needs it
        let (from, end) = self.places(Column::BEGINS, p);
        if end <= from {
            return false;
        }
        self.meets(pair, x, p, table)
    }

    // A marked fact guards the pair: it is among those that the column's job clears.
    // Equals: whether Guarded holds
    // Free: which events are marked, also of those that were, each by any number above 0: every marked event has its row (Filled).
    // Free: how late each row lies as a whole; what else stands in no row of a marked event: nothing is said of it.
    pub fn guarded(&self, last: &[bool], pair: Pair, table: &mut [u16]) -> bool
        requires pair { Two (sheet_of self.now) pair.row pair.col }
        requires marks { most_facts ≤ length last.now }
        requires filled { HasRows self.now table.old }
        ensures says { Says (Guarded (sheet_of self.now) last.now pair.row pair.col) result }
        ensures filled_2 { HasRows self.now table.new }
    {
        let job = self.job(pair.col);
        let (from, end) = self.span(job);
        for x in from..end {
            if self.hits(last, pair, x, table) {
                return true;
            }
        }
        false
    }
}

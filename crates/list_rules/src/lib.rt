// The list rules as difference rules in compressed rows, and the two other reasons for no plan.
// The rows are written event by event, so that nothing has to be sorted.
#![tactic(auto)]

ghost use Rattle.std.specs.Prelude.{◌≡◌, map, ◌+◌, ◌<◌, ◌≤◌, length};
ghost use Rattle.rules.specs.Wanted.{WantedJob};
ghost use Rattle.rules.specs.Class.{NoSource, ClearedGoal};
ghost use Rattle.laws.specs.Test.{Says};
ghost use Rattle.marks.specs.View.{job_marks, fact_marks, WantedFacts};
ghost use Rattle.list_rules.specs.Rules.{LinkRule};
ghost use Rattle.list_rules.specs.View.{
  starts_most,
  group_most,
  links_most,
  sheet_of,
  columns_of,
  marks_of,
  IsMarked,
  OwnRows,
  OwnRow,
  OwnEntry,
  RowRule,
  own_count,
  RoomIs,
  RowsFit,
  Extended,
  RoomFor,
  apart_link,
  strict_link,
  LinkGroup,
  AsksLink,
  AsksRow,
  SetSourced,
  Some,
};

use index::{Column, Columns};
use kernel_least::Rules;
use marks::{Mark, Marks};
use sheet::{Event, Sheet, WellFormed};

// Room for the rows: the own rules, and for each event one rule to each job, twice.
#[derive(Clone, Copy)]
pub struct ListRules;

impl ListRules {
    pub const MAX: usize = own_times::OwnRules::MAX + ListRules::LINKS * Sheet::MAX_EVENTS;
    // At most so many rules lead from an event to others of its fact: one to each job, twice.
    const LINKS: usize = 2 * Sheet::MAX_JOBS;
}

// From an event of a job to the events of a fact whose starts stand in a column of the index, if they are to be linked. An event of
// another job is kept off by the gap, on top of the base.
#[derive(Clone, Copy)]
pub struct Link {
    pub column: usize,
    pub shown: bool,
    pub fact: usize,
    pub job: usize,
    pub base: usize,
    pub gap: usize,
}

impl Link {
    // One tick at least lies between a set and a clear of one fact, also in one job.
    const ONE_TICK: usize = Sheet::ORIGIN + 1;

    // Not after, and kept off by the gap in another job.
    fn apart(column: usize, shown: bool, fact: usize, job: usize, gap: usize) -> Link
        ensures { result ≡ apart_link column shown fact job gap }
    {
        Link {
            column,
            shown,
            fact,
            job,
            base: Sheet::ORIGIN,
            gap,
        }
    }

    // Before, in any job.
    fn strict(column: usize, shown: bool, fact: usize, job: usize) -> Link
        ensures { result ≡ strict_link column shown fact job }
    {
        Link {
            column,
            shown,
            fact,
            job,
            base: Link::ONE_TICK,
            gap: 0,
        }
    }
}

// A sheet, with its index and with the marks of what is wanted and shown. What holds of them (IsMarked) stands in the clauses and not
// in a ghost field: a fact there may have one proof alone, and what is wanted may be wanted for several reasons.
#[derive(Clone, Copy)]
pub struct Marked<'b, 'c, 'm> {
    pub sheet: WellFormed<'b>,
    pub columns: Columns<'c>,
    pub marks: Marks<'m>,
}

// An event, and where its row starts.
#[derive(Clone, Copy)]
pub struct Place {
    pub event: usize,
    pub start: usize,
}

// Copies the own rules of event a, which are lent in rows.
fn copy<'a>(own: Rules<'a>, a: usize, to: &mut [u16], weight: &mut [u16], start: usize) -> usize
    requires own_row { OwnRow (map (λ x. x.now) own) a }
    requires room_for { RoomFor (own_count (map (λ x. x.now) own) a) to.old weight.old start }
    ensures { Extended
        (own_count (map (λ x. x.now) own.entry) a)
        (OwnEntry (map (λ x. x.now) own.entry) a)
        to.old
        weight.old
        start
        to.new
        weight.new
        result }
{
    let end = kernel_least::at(own, kernel_least::Column::FIRST, a + 1);
    let mut n = start;
    for r in kernel_least::at(own, kernel_least::Column::FIRST, a)..end {
        to[n] = kernel_least::at(own, kernel_least::Column::TO, r) as u16;
        weight[n] = kernel_least::at(own, kernel_least::Column::WEIGHT, r) as u16;
        n += 1;
    }
    n
}

// How many entries the shorter column holds, as many as can be at most.
fn room<'a>(to: &'a [u16], weight: &'a [u16]) -> usize
    ensures { RoomIs to.now weight.now result }
{
    to.len().min(weight.len()).min(ListRules::MAX)
}

// How many own rules start at event a.
fn own_count<'a>(own: Rules<'a>, a: usize) -> usize
    requires { OwnRow (map (λ x. x.now) own) a }
    ensures { result ≡ own_count (map (λ x. x.now) own.entry) a }
{
    kernel_least::at(own, kernel_least::Column::FIRST, a + 1)
        - kernel_least::at(own, kernel_least::Column::FIRST, a)
}

impl<'b, 'c, 'm> Marked<'b, 'c, 'm> {
    // Equals: columns_of and marks_of as they are given, and the sheet
    pub fn new(sheet: &WellFormed<'b>, columns: Columns<'c>, marks: Marks<'m>) -> Marked<'b, 'c, 'm>
        ensures sheet { result.sheet ≡ sheet.now }
        ensures columns { columns_of result ≡ map (λ x. x.now) columns.entry }
        ensures marks { marks_of result ≡ map (λ x. x.now) marks.entry }
    {
        Marked {
            sheet: *sheet,
            columns,
            marks,
        }
    }

    // Writes a rule to each event of a link that is of a wanted job.
    fn group(&self, link: Link, to: &mut [u16], weight: &mut [u16], start: usize) -> usize
        requires asks_link { AsksLink self.now.sheet (columns_of self.now) (marks_of self.now) link }
        requires room_for { RoomFor group_most to.old weight.old start }
        ensures { Extended
            group_most
            (LinkGroup (sheet_of self.now) (columns_of self.now) (job_marks (marks_of self.now)) link)
            to.old
            weight.old
            start
            to.new
            weight.new
            result }
    {
        if !link.shown {
            return start;
        }
        let end = index::at(self.columns, link.column, link.fact + 1);
        let mut n = start;
        for r in index::at(self.columns, link.column, link.fact)..end {
            let e = index::at(self.columns, Column::EVENT, r);
            let j = index::job(self.sheet.view, self.sheet.bytes, self.columns, e);
            if marks::on(self.marks, Mark::JOBS, j) {
                let far = link.base + plan_points::distance(link.gap, link.job, j);
                to[n] = e as u16;
                weight[n] = far as u16;
                n += 1;
            }
        }
        n
    }

    // Is fact f wanted and not initial, so that its needs have a set as their source?
    fn is_source(&self, f: usize) -> bool
        requires { IsMarked self.now × (f < (sheet_of self.now).facts) }
        ensures { Says (SetSourced (sheet_of self.now) f) result }
    {
        if !marks::on(self.marks, Mark::FACTS, f) {
            return false;
        }
        !self.sheet.initial(f)
    }

    // Writes the rules between event e of a wanted job and events of other wanted jobs, or of its own.
    fn pairs(&self, e: usize, to: &mut [u16], weight: &mut [u16], start: usize) -> usize
        requires marked_sheet { IsMarked self.now }
        requires e_bound { (e < (sheet_of self.now).events) × RoomFor links_most to.old weight.old start }
        requires wanted_job { WantedJob (sheet_of self.now) ((sheet_of self.now).event e).job }
        ensures { Extended
            links_most
            (LinkRule (sheet_of self.now) e)
            to.old
            weight.old
            start
            to.new
            weight.new
            result }
    {
        let i = index::job(self.sheet.view, self.sheet.bytes, self.columns, e);
        let gap = self.sheet.gap();
        let x = index::event(&self.sheet, self.columns, e);
        match x {
            Event::Begins(_) => start,
            Event::Ends(f) => {
                let last = marks::on(self.marks, Mark::LAST, f);
                let clears = Link::apart(Column::CLEARS, last, f, i, gap);
                self.group(clears, to, weight, start)
            }
            Event::Sets(f) => {
                let needs = Link::apart(Column::BEGINS, self.is_source(f), f, i, gap);
                let n = self.group(needs, to, weight, start);
                let last = marks::on(self.marks, Mark::LAST, f);
                let clears = Link::strict(Column::CLEARS, last, f, i);
                self.group(clears, to, weight, n)
            }
            Event::Clears(f) => {
                let first = marks::on(self.marks, Mark::FIRST, f);
                let sets = Link::strict(Column::SETS, first, f, i);
                self.group(sets, to, weight, start)
            }
        }
    }

    // Writes the row of an event of a wanted job: its own rules, and the rules between wanted jobs that start at it. Other rows stay empty.
    fn row<'o>(&self, own: Rules<'o>, place: Place, to: &mut [u16], weight: &mut [u16]) -> usize
        requires marked_sheet { IsMarked self.now }
        requires asks_row { AsksRow (sheet_of self.now) (map (λ x. x.now) own) place to.old weight.old }
        ensures { Extended
            (own_count (map (λ x. x.now) own.entry) place.event + links_most)
            (RowRule (sheet_of self.now) (map (λ x. x.now) own.entry) place.event)
            to.old
            weight.old
            place.start
            to.new
            weight.new
            result }
    {
        let j = index::job(self.sheet.view, self.sheet.bytes, self.columns, place.event);
        if !marks::on(self.marks, Mark::JOBS, j) {
            return place.start;
        }
        let n = copy(own, place.event, to, weight, place.start);
        self.pairs(place.event, to, weight, n)
    }

    // Writes all rows, event by event, if they fit. A row is begun only where there is room for the most links that an event can have: so
    // `false` may be said of rows that would fit, though never where there is room for the most of everything.
    // Free: `false` where a column is shorter than rows_most (RowsFit), and then what the columns hold.
    // Free: after `true` where the rows stand: the first need not start at 0, and rows may share places (Shaped).
    // Free: after `true` the order in a row, repeats, rules that always hold within 0 to H: the rows have every other rule of ListedRule, and only such.
    // Free: what stands in no row: nothing is said of it.
    pub fn rows<'o>(
        &self,
        own: Rules<'o>,
        first_all: &mut [u16],
        to_all: &mut [u16],
        weight_all: &mut [u16],
    ) -> bool
        requires marked_sheet { IsMarked self.now }
        requires own_rows { OwnRows (sheet_of self.now) (map (λ x. x.now) own) × (starts_most ≤ length first_all.old) }
        ensures { RowsFit (sheet_of self.now) first_all.new to_all.new weight_all.new result }
    {
        first_all[0] = 0;
        let room = room(&*to_all, &*weight_all);
        let mut n = 0;
        for e in 0..self.sheet.view.events {
            if room < n + own_count(own, e) + ListRules::LINKS {
                return false;
            }
            let place = Place { event: e, start: n };
            n = self.row(own, place, to_all, weight_all);
            first_all[e + 1] = n as u16;
        }
        true
    }

    // Is fact f wanted, neither initial nor set by any present job?
    fn lacks_source(&self, f: usize) -> bool
        requires { IsMarked self.now × (f < (sheet_of self.now).facts) }
        ensures { Says (NoSource (sheet_of self.now) f) result }
    {
        if index::at(self.columns, Column::SETS, f) < index::at(self.columns, Column::SETS, f + 1) {
            return false;
        }
        self.is_source(f)
    }

    // Is there a wanted fact that is neither initial nor set by any present job?
    // Equals: whether a fact has NoSource
    pub fn no_source(&self) -> bool
        requires { IsMarked self.now }
        ensures { Says (Some (NoSource (sheet_of self.now)) (sheet_of self.now).facts) result }
    {
        (0..self.sheet.view.facts).any(|f| self.lacks_source(f))
    }

    // Is fact f a goal shown cleared last that a wanted job clears?
    fn clears_goal(&self, f: usize) -> bool
        requires { IsMarked self.now × (f < (sheet_of self.now).facts) }
        ensures { Says (ClearedGoal (sheet_of self.now) f) result }
    {
        if !self.sheet.goal(f) {
            return false;
        }
        if !marks::on(self.marks, Mark::LAST, f) {
            return false;
        }
        marks::by_wanted(&self.sheet, self.columns, self.marks, Column::CLEARS, f)
    }

    // Is there a goal shown cleared last that a wanted job clears?
    // Equals: whether a fact is a ClearedGoal
    pub fn cleared_goal(&self) -> bool
        requires { IsMarked self.now }
        ensures { Says (Some (ClearedGoal (sheet_of self.now)) (sheet_of self.now).facts) result }
    {
        (0..self.sheet.view.facts).any(|f| self.clears_goal(f))
    }
}

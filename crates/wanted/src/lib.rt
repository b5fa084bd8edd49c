// Wanted facts and jobs: marking a fact calls marking its setters, which calls marking their needs.
// The marks are exactly the least sets of the definitions; each fact and each job is marked once.
#![tactic(auto)]

ghost use Rattle.std.specs.Prelude.{◌<◌, ◌≡◌, false, map};
ghost use Rattle.rules.specs.Sheet.{initial};
ghost use Rattle.rules.specs.Wanted.{WantedFact, WantedJob};
ghost use Rattle.sheet.specs.WellFormed.{said_by};
ghost use Rattle.index.specs.View.{IndexOf};
ghost use Rattle.wanted.specs.View.{WantedOf, Marking, MarksFact, MarksSetters, MarksNeeds};

mod job_order;

use index::{Column, Columns};
pub use job_order::JobOrder;
use sheet::{Event, Sheet, WellFormed};

// The marks.
#[derive(Clone, Copy)]
pub struct Wanted {
    pub facts: [bool; Sheet::MAX_FACTS],
    pub jobs: [bool; Sheet::MAX_JOBS],
}

// What is marked so far, and the jobs noted so far.
#[derive(Clone, Copy)]
struct Progress {
    wanted: Wanted,
    order: JobOrder,
}

impl Progress {
    // Marks fact f and, unless it is initial, the jobs that set it.
    #[cycle(marking)]
    fn mark_fact<'a>(&mut self, sheet: &WellFormed, columns: Columns<'a>, f: usize)
        requires { Marking (said_by sheet.now) (map (λ x. x.now) columns) self.old.wanted × WantedFact (said_by sheet.now) f }
        ensures { MarksFact (said_by sheet.now) self.old.wanted f self.new.wanted }
    {
        if self.wanted.facts[f] {
            return;
        }
        self.wanted.facts[f] = true;
        if sheet.initial(f) {
            return;
        }
        self.mark_setters(sheet, columns, f);
    }

    // Marks the jobs that set fact f, and their needs.
    #[cycle(marking)]
    fn mark_setters<'a>(&mut self, sheet: &WellFormed, columns: Columns<'a>, f: usize)
        requires { Marking (said_by sheet.now) (map (λ x. x.now) columns) self.old.wanted × WantedFact (said_by sheet.now) f × (initial (said_by sheet.now) f ≡ false) }
        ensures { MarksSetters (said_by sheet.now) self.old.wanted f self.new.wanted }
    {
        let start = index::at(columns, Column::SETS, f);
        let end = index::at(columns, Column::SETS, f + 1);
        for r in start..end {
            let j = index::job_at(sheet.view, sheet.bytes, columns, r);
            if !self.wanted.jobs[j] {
                self.wanted.jobs[j] = true;
                self.mark_needs(sheet, columns, j);
                self.order.note(j);
            }
        }
    }

    // Marks the facts that job j needs.
    #[cycle(marking)]
    fn mark_needs<'a>(&mut self, sheet: &WellFormed, columns: Columns<'a>, j: usize)
        requires { Marking (said_by sheet.now) (map (λ x. x.now) columns) self.old.wanted × WantedJob (said_by sheet.now) j }
        ensures { MarksNeeds (said_by sheet.now) self.old.wanted j self.new.wanted }
    {
        let start = index::at(columns, Column::SPAN, j);
        let end = index::at(columns, Column::SPAN, j + 1);
        for e in start..end {
            if let Event::Begins(f) = index::event(sheet, columns, e) {
                self.mark_fact(sheet, columns, f);
            }
        }
    }
}

impl Wanted {
    // Every goal, and what follows; and the wanted jobs, each after its needs where that can be (advice).
    // Equals: whether each fact is a WantedFact and each job a WantedJob (WantedOf)
    // Free: the order: jobs, each a number below max_jobs (JobList, by listed).
    pub fn new<'a>(sheet: &WellFormed, columns: Columns<'a>) -> (Wanted, JobOrder)
        requires { IndexOf (said_by sheet.now) (map (λ x. x.now) columns) }
        ensures { WantedOf (said_by sheet.now) result.0 }
    {
        let mut progress = Progress {
            wanted: Wanted {
                facts: [false; Sheet::MAX_FACTS],
                jobs: [false; Sheet::MAX_JOBS],
            },
            order: JobOrder::new(),
        };
        for f in 0..sheet.view.facts {
            if sheet.goal(f) {
                progress.mark_fact(sheet, columns, f);
            }
        }
        (progress.wanted, progress.order)
    }
}

// What a well-formed sheet says at each place.
#![tactic(auto)]

ghost use Rattle.std.specs.Prelude.{◌≡◌, ◌<◌, ℕ};
ghost use Rattle.rules.specs.Sheet.{initial as is_initial, goal as is_goal};
ghost use Rattle.rules.specs.Plan.{gap as gap_of, earliest as earliest_of, latest as latest_of};
ghost use Rattle.sheet.specs.View.{event_from, RowIs, BoundIs, PairRow, PairIs};
ghost use Rattle.sheet.specs.WellFormed.{said_by};
ghost use Rattle.numbers.specs.Size.{byte_values, word};

use crate::formed::WellFormed;
use crate::{Bound, Event, Pair, Row};

impl<'a> WellFormed<'a> {
    // The ticks that lie at least between a source and a need, or a need and a clear, of different instances.
    // Equals: gap of rules (gap_of)
    pub fn gap(&self) -> usize
        ensures { result ≡ gap_of (said_by self.now) }
    {
        self.view.gap()
    }

    // The last tick that an event may have.
    // Equals: latest of rules (latest_of)
    pub fn latest(&self) -> usize
        ensures { (j : ℕ) → result ≡ latest_of (said_by self.now) j }
    {
        self.view.latest()
    }

    // The first tick that an event of job j may have.
    // Equals: earliest of rules (earliest_of)
    pub fn earliest(&self, j: usize) -> usize
        requires { j < (said_by self.now).jobs }
        ensures { (result ≡ earliest_of (said_by self.now) j) × (result < word) }
    {
        self.view.earliest(self.bytes, j)
    }

    // Equals: said_by self .mark f
    pub fn mark(&self, f: usize) -> usize
        requires { f < (said_by self.now).facts }
        ensures { (result ≡ (said_by self.now).mark f) × (result < byte_values) }
    {
        self.view.mark(self.bytes, f)
    }

    // Equals: initial of rules (is_initial)
    pub fn initial(&self, f: usize) -> bool
        requires { f < (said_by self.now).facts }
        ensures { result ≡ is_initial (said_by self.now) f }
    {
        self.view.initial(self.bytes, f)
    }

    // Equals: goal of rules (is_goal)
    pub fn goal(&self, f: usize) -> bool
        requires { f < (said_by self.now).facts }
        ensures { result ≡ is_goal (said_by self.now) f }
    {
        self.view.goal(self.bytes, f)
    }

    // Equals: said_by self .code j
    pub fn code(&self, j: usize) -> usize
        requires { j < (said_by self.now).jobs }
        ensures { (result ≡ (said_by self.now).code j) × (result < word) }
    {
        self.view.code(self.bytes, j)
    }

    // Equals: said_by self .release j
    pub fn release(&self, j: usize) -> usize
        requires { j < (said_by self.now).jobs }
        ensures { (result ≡ (said_by self.now).release j) × (result < word) }
    {
        self.view.release(self.bytes, j)
    }

    // Equals: said_by self .revision
    pub fn revision(&self) -> usize
        ensures { (result ≡ (said_by self.now).revision) × (result < word) }
    {
        self.view.revision(self.bytes)
    }

    // The job number of event e.
    // Equals: said_by self .event e .job
    pub fn job(&self, e: usize) -> usize
        requires { e < (said_by self.now).events }
        ensures { (result ≡ ((said_by self.now).event e).job) × (result < byte_values) }
    {
        self.view.job(self.bytes, e)
    }

    // Equals: event_from, of the kind and the fact of said_by self .event e
    pub fn event(&self, e: usize) -> Event
        requires { e < (said_by self.now).events }
        ensures { result ≡ event_from ((said_by self.now).event e).kind ((said_by self.now).event e).fact }
    {
        self.view.event(self.bytes, e)
    }

    // Equals: said_by self .event e (RowIs)
    pub fn row(&self, e: usize) -> Row
        requires { e < (said_by self.now).events }
        ensures { RowIs ((said_by self.now).event e) result }
    {
        self.view.row(self.bytes, e)
    }

    // Equals: said_by self .bound i (BoundIs)
    pub fn bound(&self, i: usize) -> Bound
        requires { i < (said_by self.now).bounds }
        ensures { BoundIs ((said_by self.now).bound i) result }
    {
        self.view.bound(self.bytes, i)
    }

    // The pair that starts at row i.
    // Equals: tightest of rules, of the pair of row i; and the first row behind its rows (PairIs; one answer, by looked_up_once)
    pub fn pair(&self, i: usize) -> Pair
        requires { PairRow (said_by self.now) i }
        ensures { PairIs (said_by self.now) i result }
    {
        self.view.pair(self.bytes, i)
    }
}

// The wanted jobs in the order in which they were noted: advice, of which nothing is promised but that it lists jobs.
// It may leave jobs out.
#![tactic(auto, unfolding(rules::specs::Sheet::max_jobs))]

ghost use Rattle.std.specs.Prelude.{ℕ, ◌<◌, ◌≤◌, get_or};
ghost use Rattle.rules.specs.Sheet.{max_jobs};
ghost use Rattle.wanted.specs.Noted.{JobList};

use sheet::Sheet;

#[derive(Clone, Copy)]
pub struct JobOrder {
    jobs: [u16; Sheet::MAX_JOBS],
    count: usize,
    ghost number: { (i : ℕ) → get_or jobs i 0 < max_jobs },
    ghost within: { count ≤ max_jobs },
}

impl JobOrder {
    // No job is noted.
    pub(crate) fn new() -> JobOrder {
        JobOrder {
            jobs: [0; Sheet::MAX_JOBS],
            count: 0,
        }
    }

    // Notes job j behind the jobs noted before.
    pub(crate) fn note(&mut self, j: usize)
        requires { j < max_jobs }
    {
        if self.count < Sheet::MAX_JOBS {
            self.jobs[self.count] = j as u16;
            self.count += 1;
        }
    }

    // The jobs noted.
    // Free: which jobs, and in which order (JobList)
    pub fn listed(&self) -> &[u16]
        ensures { JobList result.now }
    {
        &self.jobs[..self.count]
    }
}

ghost use Rattle.std.specs.Prelude.{◌≡◌, ℕ, ◌<◌, List, [], ◌∷◌, length};
ghost use Rattle.mcs_ticks.specs.declared.row.Row.{Row as TheRow};
ghost use Rattle.mcs_system.specs.System.{System as TheSystem};
ghost use Rattle.mcs_verdict.specs.Findings.{UpTo};
ghost use Rattle.mcs_verdict.specs.Jobs.{job_of};
ghost use Rattle.mcs_verdict.specs.Watch.{watch_of};
ghost use Rattle.mcs_why.specs.Search.{trail_of};
ghost use Rattle.mcs_why.specs.Spans.{sought};

use crate::Sought;
use crate::trail::Trail;
use mcs_system::System;
use mcs_ticks::{Row, ThreadId, Tick};
use mcs_verdict::{Job, Watch};
use std::marker::Model;

/// Looks for a round of a thread as the rows of a schedule come. A row takes constant time; no
/// memory is taken.
#[derive(Drop)]
pub struct Search {
    trail: Trail,
}

impl Model for Search {
    ghost use Rattle.mcs_why.specs.declared.trail.Trail.{Trail};

    ghost Value = { Trail };

    ghost view = { λ a. a.trail };
}

impl Search {
    /// A search before the first row.
    pub fn new(system: &System, thread: ThreadId, number: u64) -> Self
        requires { thread < length system.now.threads }
        ensures { result ≡ trail_of system.now thread number [] }
    {
        Search {
            trail: Trail::new(system.parts(), thread, number),
        }
    }

    /// Takes one more row, in constant time and without memory. A watch over the same rows has the
    /// round that it ends (`Watch::job`).
    pub fn see(&mut self, job: Option<Job>, row: &Row)
        ensures { (system : TheSystem) (thread number : ℕ) (past : List TheRow) → self.old ≡ trail_of system thread number past →
            job ≡ job_of system past row.now.moment row.now.what → self.new ≡ trail_of system thread number (row.now ∷ past) }
    {
        self.trail.see(job, row);
    }

    /// Returns the span of the round, if the search and the watch saw all rows up to the horizon.
    pub fn sought(&self, watch: &Watch, horizon: Tick) -> Sought
        ensures { (system : TheSystem) (thread number : ℕ) (past : List TheRow) → self.now ≡ trail_of system thread number past →
            watch.now ≡ watch_of system past → UpTo horizon past → thread < length system.threads →
            result ≡ sought system horizon past thread number }
    {
        let thread = self.trail.thread;
        let activated = watch.activated(horizon, thread);
        self.trail
            .sought(horizon, activated, watch.word_set(thread))
    }
}

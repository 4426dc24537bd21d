//! The sink that looks for a round in the rows of a schedule.
ghost use Rattle.std.specs.Prelude.{◌≡◌, ◌∷◌, ℕ, List};
ghost use Rattle.mcs_ticks.specs.declared.row.Row.{Row as TheRow};
ghost use Rattle.mcs_system.specs.System.{System as TheSystem};
ghost use Rattle.mcs_verdict.specs.Findings.{UpTo};
ghost use Rattle.mcs_verdict.specs.Watch.{watch_of};
ghost use Rattle.mcs_why.specs.Search.{trail_of};

use mcs_check_run::{Progress, pass};
use mcs_ticks::{Refused, Row, Sink};
use mcs_verdict::Watch;
use mcs_why::Search;

/// A sink that looks at each row. It takes every row and no memory.
#[derive(Drop)]
pub(crate) struct Seeker<'p, P: Progress> {
    pub(crate) watch: Watch,
    pub(crate) search: Search,
    pub(crate) progress: &'p mut P,
    /// Rows since the progress was last reported.
    rows: u32,
}

impl<'p, P: Progress> Seeker<'p, P> {
    pub(crate) fn new(watch: Watch, search: Search, progress: &'p mut P) -> Self
        ensures watch { result.watch ≡ watch }
        ensures search { result.search ≡ search }
    {
        Seeker {
            watch,
            search,
            progress,
            rows: 0,
        }
    }
}

impl<P: Progress> Sink for Seeker<'_, P> {
    ghost takes = { λ before row taken after.
        (system : TheSystem) (thread number : ℕ) (past : List TheRow) → before.watch ≡ watch_of system past →
        before.search ≡ trail_of system thread number past → UpTo row.moment past →
        (after.watch ≡ watch_of system (row ∷ past)) × (after.search ≡ trail_of system thread number (row ∷ past)) };

    #[inline(always)]
    fn row(&mut self, row: &Row) -> Result<(), Refused> {
        pass(self.progress, &mut self.rows, row);
        let job = self.watch.job(row);
        self.search.see(job, row);
        let _found = self.watch.see(row);
        Ok(())
    }
}

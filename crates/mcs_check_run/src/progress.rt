//! The progress of a run, as its callers see it.
ghost use Rattle.std.specs.Prelude.{◌≡◌};
ghost use Rattle.mcs_check_run.specs.Progress.{unreported};

use mcs_ticks::{Row, Tick};

/// Rows between two reports of the progress.
const STRIDE: u32 = 4_096;

/// A receiver of reports on how far a run is.
pub trait Progress {
    /// Called now and then: all rows before `moment` were seen.
    fn passed(&mut self, moment: Tick);

    /// Called before lines are written, and at the end of the run: the display must be cleared.
    fn wipe(&mut self);
}

/// A progress that shows nothing.
#[derive(Clone, Copy, Debug, Drop)]
pub struct Quiet;

impl Progress for Quiet {
    fn passed(&mut self, _moment: Tick) {}

    fn wipe(&mut self) {}
}

/// Counts one more row, and reports the progress after every 4,096 rows. `rows` is the number of
/// rows since the last report.
#[inline(always)]
pub fn pass<P: Progress>(progress: &mut P, rows: &mut u32, row: &Row)
    ensures { rows.new ≡ unreported rows.old }
{
    *rows = rows.saturating_add(1);
    if *rows >= STRIDE {
        *rows = 0;
        progress.passed(row.moment);
    }
}

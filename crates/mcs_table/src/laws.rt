ghost use Rattle.mcs_table.specs.laws.Exact.{RoundsAreExact};
ghost use Rattle.mcs_table.specs.laws.Runs.{JobsAreTheRuns};

/// A law of fewer than 2^64 rows up to the horizon: no count of a thread's rounds is cut off, and
/// no response.
pub fn rounds_are_exact()
    ensures { RoundsAreExact }
{}

/// A law of all rows: the rounds of a thread that are counted are its jobs in the run.
pub fn jobs_are_the_runs()
    ensures { JobsAreTheRuns }
{}

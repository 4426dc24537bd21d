ghost use Rattle.mcs_spin.specs.laws.Rows.{SpunAreWellFormed, RowsAreSpun};
ghost use Rattle.mcs_spin.specs.laws.Verdicts.{FindingsAreSpun, JobsAreSpun, TestsAreSpun};

/// A law of systems: if a system is well-formed, it is so with its threads spun.
pub fn spun_are_well_formed()
    ensures { SpunAreWellFormed }
{}

/// A law of the clock: the schedule of the system with its threads spun is that of the system
/// without the ends of rounds of threads that only compute.
pub fn rows_are_spun()
    ensures { RowsAreSpun }
{}

/// A law of findings: both systems have the same findings up to each horizon.
pub fn findings_are_spun()
    ensures { FindingsAreSpun }
{}

/// A law of jobs: both systems have the same jobs up to each horizon, except for those of threads
/// that only compute.
pub fn jobs_are_spun()
    ensures { JobsAreSpun }
{}

/// A law of rows: if no `round` row passes a test, then it holds of both systems, or of neither,
/// that some row up to a horizon passes it.
pub fn tests_are_spun()
    ensures { TestsAreSpun }
{}

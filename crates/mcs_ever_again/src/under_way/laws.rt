ghost use Rattle.mcs_system.specs.System.{System};
ghost use Rattle.mcs_system.specs.WellFormed.{IsWellFormed};
ghost use Rattle.mcs_ever_again.specs.laws.Told.{SignalsAreTold, UnderWayIsTold};

/// A law of the clock: the signals that a turn makes for other cores are those of its rows, in the
/// order of the rows. The row by which a thread leaves a server is a signal's row, too; a server is
/// at home on the core of each thread that calls it.
pub fn signals_are_told()
    ensures { (system : System) → IsWellFormed system → SignalsAreTold system }
{}

/// A law of the clock: the signals under way before a moment are those of the schedule's earlier
/// rows that arrive at that moment or later, in the order in which they were made.
pub fn under_way_is_told()
    ensures { (system : System) → IsWellFormed system → UnderWayIsTold system }
{}

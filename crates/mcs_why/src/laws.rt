ghost use Rattle.mcs_why.specs.laws.Sums.{AllTicksAreTold};

/// A law of all rows that name only threads of the system: the ticks that all threads ran on a core
/// and those in which it was idle sum to all ticks of the interval.
pub fn all_ticks_are_told()
    ensures { AllTicksAreTold }
{}

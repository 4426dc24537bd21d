ghost use Rattle.mcs_release.specs.Release.{LeaveInOrder};

/// Law of release queues: if all due threads have the same date, they leave in the order in which
/// they entered.
pub fn equal_dates_leave_in_order()
    ensures { LeaveInOrder }
{}

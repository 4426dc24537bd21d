ghost use Rattle.mcs_system.specs.System.{System, TakesTime};
ghost use Rattle.mcs_stretch.specs.Stretch.{StretchesAreTurns};
ghost use Rattle.mcs_stretch.specs.Inbox.{InboxesJoin, NewsJoin};
ghost use Rattle.mcs_stretch.specs.Idle.{IdleTimePasses};
ghost use Rattle.mcs_stretch.specs.laws.Merging.{RowsMerge, RowsMergeSoFar};
ghost use Rattle.mcs_stretch.specs.ByScripts.{SafeOrdersAreByScripts};
ghost use Rattle.mcs_system.specs.WellFormed.{IsWellFormed};
ghost use Rattle.mcs_stretch.specs.laws.Orders.{OrdersGiveTheSchedule};
ghost use Rattle.mcs_stretch.specs.laws.BySignals.{ScriptOrdersAreBySignals, SignalOrdersGiveTheSchedule};

/// A law of the clock: in a stretch a core alone, with the inbox that it has at the start, takes
/// the turns of the clock.
pub fn stretches_are_turns()
    ensures { (system : System) → TakesTime system → StretchesAreTurns system }
{}

/// A law of the clock: an inbox with the signals that were made since is the inbox by the later
/// clocks.
pub fn inboxes_join()
    ensures { (system : System) → TakesTime system → InboxesJoin system }
{}

/// A law of the clock: a box that collects the signals made meanwhile has each of them once.
pub fn news_join()
    ensures { (system : System) → NewsJoin system }
{}

/// A law of the clock: if each core, by its own inbox, only counts ticks until a moment, all cores
/// do. Each earlier clock may then be set to that moment.
pub fn idle_time_passes()
    ensures { (system : System) → TakesTime system → IdleTimePasses system }
{}

/// A law of the clock: the rows of each core alone, up to the horizon, merge into the schedule.
pub fn rows_merge()
    ensures { (system : System) → TakesTime system → RowsMerge system }
{}

/// A law of the clock: the rows of each core up to its own clock merge, before a moment that no
/// clock is before, into the rows of the schedule before that moment.
pub fn rows_merge_so_far()
    ensures { (system : System) → TakesTime system → RowsMergeSoFar system }
{}

/// A law of steps: a safe order is safe by the scripts too.
pub fn safe_orders_are_by_scripts()
    ensures { SafeOrdersAreByScripts }
{}

/// A law of the clock, for cores that take their turns one by one, each with its own state and box,
/// in any order that is safe by the scripts. Each core is as the clock has it, and the rows up to
/// the horizon merge into the schedule.
pub fn orders_give_the_schedule()
    ensures { (system : System) → IsWellFormed system → OrdersGiveTheSchedule system }
{}

/// A law of the clock: an order that is safe by the scripts is safe by the signals that the cores
/// make. In any order that is safe by the signals, too, the cores are as the clock has them, and
/// the rows up to the horizon merge into the schedule.
pub fn signal_orders_give_the_schedule()
    ensures by_scripts { (system : System) → IsWellFormed system → ScriptOrdersAreBySignals system }
    ensures schedule { (system : System) → IsWellFormed system → SignalOrdersGiveTheSchedule system }
{}

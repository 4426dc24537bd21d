ghost use Rattle.mcs_system.specs.System.{System, TakesTime};
ghost use Rattle.mcs_system.specs.WellFormed.{IsWellFormed};
ghost use Rattle.mcs_core.specs.Quiet.{OnlyCount};
ghost use Rattle.mcs_laws.specs.Turns.{CoresAreOfTurns, RowsAreOfTurns, SignalsAreOfTurns, ArrivalsAreOfTurns};
ghost use Rattle.mcs_laws.specs.Links.{SignalsAreSaid};
ghost use Rattle.mcs_laws.specs.Disciplines.{DisciplinesAgree, RunsAgree, QuietTurnsAgree};
ghost use Rattle.mcs_laws.specs.Places.{ThreadsHaveOnePlace};
ghost use Rattle.mcs_laws.specs.OnTime.{ThreadsAreOnTime};
ghost use Rattle.mcs_laws.specs.Demand.{StretchesAreWithinDemand, OrdersBeginDemand, ThreadsRunWithinDemand};
ghost use Rattle.mcs_laws.specs.Bandwidth.{StretchesAreWithinBandwidth, BandwidthIsBounded};
ghost use Rattle.mcs_laws.specs.InForce.{ContextsHaveTheBudgetInForce, FilesStayInForce};
ghost use Rattle.mcs_laws.specs.Shown.{ContextsAreShown};
ghost use Rattle.mcs_laws.specs.Slices.{SchedulesTellCharges, SlicesAreCharged, SlicesAreSpent};
ghost use Rattle.mcs_laws.specs.Histories.{GivesBudgets, ContextsHaveHistories, ContextsHaveTheirBudgets};
ghost use Rattle.mcs_laws.specs.Spaced.{ContextsAreSpaced};

/// A law of well-formed systems: each signal takes time. Each configuration that SchedControl
/// accepts gives a budget of at least a tick and at most its period.
pub fn well_formed_systems_give_budgets()
    ensures signals_take_time { (system : System) → IsWellFormed system → TakesTime system }
    ensures budgets { (system : System) → IsWellFormed system → GivesBudgets system }
{}

/// A law of the clock: each core of the world after time `t` is the core of that core's turn at
/// `t`. The other cores do not affect it at that time.
pub fn cores_are_of_turns()
    ensures { (system : System) → IsWellFormed system → CoresAreOfTurns system }
{}

/// A law of the clock: at each moment the schedule grows by the rows of the cores' turns, in rising
/// order of the cores.
pub fn rows_are_of_turns()
    ensures { (system : System) → IsWellFormed system → RowsAreOfTurns system }
{}

/// A law of the clock: the signals under way before a moment are those that earlier turns sent and
/// no turn took, in the order in which they were made. The signals that arrive on a core at a
/// moment that has not passed are those that were sent there.
pub fn signals_are_of_turns()
    ensures under_way { (system : System) → IsWellFormed system → SignalsAreOfTurns system }
    ensures arriving { (system : System) → IsWellFormed system → ArrivalsAreOfTurns system }
{}

/// A law of the clock: each signal from one core to another is an item of the script of one of the
/// sender's threads. A core reaches only those cores that its scripts signal.
pub fn signals_are_said()
    ensures { SignalsAreSaid }
{}

/// A law of single cores, for both ways to keep the ready threads: quiet turns make no row and no
/// signal, leave the box unchanged, and count their ticks.
pub fn quiet_turns_only_count()
    ensures { OnlyCount }
{}

/// A law of ready queues. One list in order of entering, from which the first thread of maximum
/// priority is taken, and the queue by priority give the same rows and signals over whole
/// schedules.
///
/// It also holds for one core alone. The turns of a state, which shows the queue by priority, are
/// those of each core that keeps one list and that it shows. They are quiet exactly if those are.
pub fn disciplines_agree()
    ensures clocks { (system : System) → DisciplinesAgree system }
    ensures runs { RunsAgree }
    ensures quiet { QuietTurnsAgree }
{}

/// A law of the clock: a thread has at most one place on a core. A running thread is in no queue
/// and waits for no notification; a thread that is queued, has a date or waits does so once.
pub fn threads_have_one_place()
    ensures { (system : System) → IsWellFormed system → ThreadsHaveOnePlace system }
{}

/// A law of the clock: a turn changes a context only by charging it, by waking or choosing its
/// thread, and by its orders. The charges are those in the `stop` rows of its thread; each is at
/// least a tick and at most what the head then has. The wakes and choices are those in the rows of
/// its thread, at their times. In mode `Sporadic` only the wakes unblock it, in mode `Bandwidth`
/// only the choices.
pub fn contexts_have_histories()
    ensures { (system : System) → IsWellFormed system → ContextsHaveHistories system }
{}

/// A law of the clock: at each moment each context has the budget in force. Its dates are as many
/// as the budget, ascend and span less than a period; a slice has between a tick and the budget
/// left. Its running thread has used less than the head.
pub fn contexts_keep_their_budgets()
    ensures { (system : System) → IsWellFormed system → ContextsHaveTheirBudgets system }
{}

/// A law of the clock: at each moment the configuration of a context is that of the last order for
/// it, or the file's if there is none, and the context is valid under it. A sporadic context has as
/// many dates as that budget, in at most `2 + extra` refills; a round robin context has 1 to that
/// budget left.
pub fn contexts_have_the_budget_in_force()
    ensures { (system : System) → IsWellFormed system → ContextsHaveTheBudgetInForce system }
{}

/// A law of the clock: if no order names a context, no order for it comes at any moments, and the
/// file's configuration stays in force. So laws of moments without an order hold of the whole run.
pub fn files_stay_in_force()
    ensures { (system : System) → IsWellFormed system → FilesStayInForce system }
{}

/// A law of views: at each moment the view of a context shows its whole budget in force and the
/// ticks in use. No ticks are in use unless its thread runs.
pub fn contexts_are_shown()
    ensures { (system : System) → IsWellFormed system → ContextsAreShown system }
{}

/// A law of the clock, for a round robin context and a range of moments in which no order for it
/// comes before the last one. The charges in the rows and what is left after them sum to what was
/// left before and the budget in force before them for each slice used up. These charges sum to
/// that budget between one full slice and the next. An order at the last moment comes after the
/// charge; orders at other moments do not matter.
pub fn slices_are_spent_over_time()
    ensures told { (system : System) → IsWellFormed system → SchedulesTellCharges system }
    ensures charges { (system : System) → IsWellFormed system → SlicesAreCharged system }
    ensures full_slices { (system : System) → IsWellFormed system → SlicesAreSpent system }
{}

/// A law of the clock, for the dates that the charges of a sporadic context take over moments
/// without an order for it. A date is at least a period later than the one a whole budget before
/// it, by the budget and the period in force before them.
pub fn contexts_are_spaced()
    ensures { (system : System) → IsWellFormed system → ContextsAreSpaced system }
{}

/// A law of the clock: a thread is ready and runs only when the dates of its context have come,
/// whatever orders came before. If it is ready the head has come; if it waits for a date, that is
/// not before the head. If it runs, each tick since it was chosen began at its date or later.
pub fn threads_are_on_time()
    ensures { (system : System) → IsWellFormed system → ThreadsAreOnTime system }
{}

/// A law of the clock, for ticks within which no order for a thread's context comes: the thread
/// runs at most the budget in force for each period that begins before they end. The first period
/// begins at the date of the head in the first of these ticks.
///
/// If these ticks begin with an order, the first period begins with them. If no order names the
/// context, the first period begins at time 0.
pub fn threads_run_within_demand()
    ensures stretches { (system : System) → IsWellFormed system → StretchesAreWithinDemand system }
    ensures after_orders { (system : System) → IsWellFormed system → OrdersBeginDemand system }
    ensures from_start { (system : System) → IsWellFormed system → ThreadsRunWithinDemand system }
{}

/// A law of the clock: a thread with a context in bandwidth mode runs at most the budget in force
/// in any stretch of a period or less within which no order for the context comes. A sporadic
/// context has no such bound: unused budget may be used just before a replenishment.
pub fn bandwidth_is_bounded()
    ensures stretches { (system : System) → IsWellFormed system → StretchesAreWithinBandwidth system }
    ensures without_orders { (system : System) → IsWellFormed system → BandwidthIsBounded system }
{}

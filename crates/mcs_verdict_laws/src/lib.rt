//! Laws about findings in the schedules of well-formed systems.
#![tactic(auto)]

ghost use Rattle.mcs_verdict_laws.specs.laws.Order.{SchedulesAreInOrder};
ghost use Rattle.mcs_verdict_laws.specs.laws.Responses.{ResponsesAreTold, PartsSumToResponses, PartsSumToAges};
ghost use Rattle.mcs_verdict_laws.specs.laws.Standings.{StandingsAreTheClocks};
ghost use Rattle.mcs_verdict_laws.specs.laws.Running.{RunningIsRan};
ghost use Rattle.mcs_verdict_laws.specs.laws.Fate.{RoundsStayUntilTheyEnd, OverdueEndsWithAMiss, UntakenEndsWithAMiss};
ghost use Rattle.mcs_verdict_laws.specs.laws.Horizons.{OverdueStays, ActivationStays, NothingIsFoundBetween, NothingAtAllIsFoundBetween};

/// A law of the clock: no row of a schedule is earlier than a row before it, or later than the
/// horizon. All findings of a schedule can then be found as its rows come.
pub fn schedules_are_in_order()
    ensures { SchedulesAreInOrder }
{}

/// A law of the clock: the response of each `round` row is its time less the time at which its
/// round began, by the rows before it.
pub fn responses_are_told()
    ensures { ResponsesAreTold }
{}

/// The parts of each job sum to its response, which counts from its activation. They are its
/// queued, ready, running, throttled, blocked and server ticks. The thread was pending or done in
/// no tick.
pub fn parts_sum_to_responses()
    ensures { PartsSumToResponses }
{}

/// The parts of each overdue round sum to its age: the ticks from its activation to the horizon.
pub fn parts_sum_to_ages()
    ensures { PartsSumToAges }
{}

/// A law of the clock: in each tick up to the horizon, the state of each thread on its core is that
/// of the schedule's rows.
pub fn standings_are_the_clocks()
    ensures { StandingsAreTheClocks }
{}

/// A law of the clock: over a whole run, the ticks in which a thread stood running by the rows are
/// the ticks of its runs. Its report says that it ran as many.
pub fn running_is_ran()
    ensures { RunningIsRan }
{}

/// A law of the clock: a round that is under way stays so until it ends, with its activation.
pub fn rounds_stay_until_they_end()
    ensures { RoundsStayUntilTheyEnd }
{}

/// A law of the clock: an overdue round stays overdue until it ends, and then it missed its
/// deadline.
pub fn overdue_ends_with_a_miss()
    ensures { OverdueEndsWithAMiss }
{}

/// A law of the clock: an untaken word stays untaken until a thread takes it whose script begins
/// with a wait for it. The round that it begins is overdue until it ends, and then it missed its
/// deadline.
pub fn untaken_ends_with_a_miss()
    ensures { UntakenEndsWithAMiss }
{}

/// A law of the clock: if no round of a thread missed its deadline up to a horizon, and no round is
/// overdue there, then no round was overdue at an earlier horizon.
pub fn overdue_stays()
    ensures { OverdueStays }
{}

/// A law of the clock: a thread that was activated up to a horizon has no `Never` finding at a
/// later one.
pub fn activation_stays()
    ensures { ActivationStays }
{}

/// If a group of cores has no findings up to a horizon and up to a later one, it has no findings up
/// to any horizon between them.
pub fn nothing_is_found_between()
    ensures { NothingIsFoundBetween }
{}

/// `nothing_is_found_between` for all cores.
pub fn nothing_at_all_is_found_between()
    ensures { NothingAtAllIsFoundBetween }
{}

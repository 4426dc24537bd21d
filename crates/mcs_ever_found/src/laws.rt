ghost use Rattle.mcs_ever_found.specs.laws.Repeats.{FindingsRepeat, NothingIsFound, JobsRepeat, JobTestsAreForever};
ghost use Rattle.mcs_ever_found.specs.laws.Never.{NoDeadlineIsMissed, NoSignalIsLost};
ghost use Rattle.mcs_ever_found.specs.laws.GoOn.{ThreadsGoOn, WordsGoOn};
ghost use Rattle.mcs_ever_found.specs.laws.Course.{GreatestIsForever, NeverSpent, NoneIsCounted};

/// A law of schedules, for a group of cores that recurs in its findings. Each deadline miss and
/// each lost signal recurs a period later, for ever, and no others are found.
pub fn findings_repeat()
    ensures { FindingsRepeat }
{}

/// A law of schedules, for a group of cores that recurs in its findings. If no round of it missed
/// its deadline before the end of the first period, and no signal of it was lost, there is neither
/// up to any horizon.
pub fn nothing_is_found()
    ensures { NothingIsFound }
{}

/// A law of schedules, for a group of cores that recurs in its findings. Each round that ends
/// recurs a period later, for ever, with the same response and the same parts, and no others end.
pub fn jobs_repeat()
    ensures { JobsRepeat }
{}

/// A law of schedules, for a group of cores that recurs in its findings. Take a test of rounds that
/// depends neither on the time nor on the number of earlier rounds. If all rounds of the group
/// before the end of the first period pass it, all do up to any horizon.
pub fn job_tests_are_forever()
    ensures { JobTestsAreForever }
{}

/// A law of schedules, for a group of cores that recurs in its findings. If no round of a thread of
/// it missed its deadline before the end of the first period, none does up to any horizon.
pub fn no_deadline_is_missed()
    ensures { NoDeadlineIsMissed }
{}

/// A law of schedules, for a group of cores that recurs in its findings. If a notification of it
/// lost no signal before the end of the first period, it loses none up to any horizon.
pub fn no_signal_is_lost()
    ensures { NoSignalIsLost }
{}

/// A law of schedules, for a group of cores that recurs in its findings, and each thread of it.
///
/// - A thread with no endless round (`endless_round`) that missed no deadline by the end of the
///   first period misses none ever, and is overdue at no horizon.
/// - An endless round is overdue at each horizon from the last moment of the first period on at
///   which its deadline has passed.
/// - From that moment on the thread is never activated exactly if it was not by then.
pub fn threads_go_on()
    ensures { ThreadsGoOn }
{}

/// A law of schedules, for a group of cores that recurs in its findings, and each notification of
/// it.
///
/// - A word that is not abandoned (`abandoned_word`) is untaken at no horizon, if each thread that
///   waits for it first misses no deadline ever and is overdue at no horizon.
/// - An abandoned word is untaken at each horizon from the last moment of the first period on at
///   which the deadline of its notification has passed; it is set as it was then.
pub fn words_go_on()
    ensures { WordsGoOn }
{}

/// A law of schedules, for a group of cores that recurs in its findings: the maximum response of
/// each of its threads before the end of the first period is its maximum for ever.
pub fn greatest_is_forever()
    ensures { GreatestIsForever }
{}

/// A law of schedules, for a group of cores that recurs: a thread of it that was not stopped with
/// its budget exhausted before the end of the first period never is.
pub fn never_spent()
    ensures { NeverSpent }
{}

/// A law of schedules, for any group of cores and any moment: if no deadline miss of its threads
/// and no lost signal of its notifications is counted before the moment, its rows before it have no
/// finding.
pub fn none_is_counted()
    ensures { NoneIsCounted }
{}

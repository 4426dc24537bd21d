ghost use Rattle.mcs_ever.specs.laws.Home.{RowsAreOfOwn};
ghost use Rattle.mcs_ever.specs.laws.Marked.{MarksTell, MarksAskNoMore};
ghost use Rattle.mcs_ever.specs.laws.Repeats.{TurnsRepeat, TestsAreForever, NeverLate, NoRoundEndsAgain};

/// A law of the clock: each row of a core's turn names only threads and notifications of that core;
/// the notification of a signal may be anywhere.
pub fn rows_are_of_own()
    ensures { RowsAreOfOwn }
{}

/// A law of the clock: if a group of cores recurs, each of its turns from then on makes the rows
/// that it made a period earlier, but later, for ever.
pub fn turns_repeat()
    ensures { TurnsRepeat }
{}

/// A law of the clock, for a group of cores that recurs, and a test of rows that does not depend on
/// the time. If all rows of the group pass it up to the end of the first period, all its rows pass
/// it, for ever.
pub fn tests_are_forever()
    ensures { TestsAreForever }
{}

/// A law of schedules, for a group of cores that recurs: if no round of it ends late up to the end
/// of the first period, no round of it ends late up to any horizon.
pub fn never_late()
    ensures { NeverLate }
{}

/// A law of schedules: if a group of cores recurs, a thread of it that ends no round over a whole
/// period ends no round again, up to any horizon.
pub fn no_round_ends_again()
    ensures { NoRoundEndsAgain }
{}

/// A law of rows: if no date lags that rows mark for a core's threads, the rows of that core among
/// them have kept up. The rows of all cores may be marked together.
pub fn marks_tell()
    ensures { MarksTell }
{}

/// A law of rows: marks are no stricter than that. If rows have kept up, no date lags that they
/// mark.
pub fn marks_ask_no_more()
    ensures { MarksAskNoMore }
{}

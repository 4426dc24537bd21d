ghost use Rattle.mcs_way.specs.laws.Legs.{LegsAreActive};
ghost use Rattle.mcs_way.specs.laws.Ways.{AnswersHaveWays, PartsSum, TicksSum, WaysLead};

/// A law of all rows in the order of their times: the way of an answer, once its row has come,
/// leads from the interrupt to the end of the round. Each leg begins when the one before it ended,
/// and the counts of a thread sum to the ticks of its leg.
pub fn ways_lead()
    ensures { WaysLead }
{}

/// A law of all legs: if they lead from a moment to another, their ticks sum to the time between.
pub fn ticks_sum()
    ensures { TicksSum }
{}

/// A law of all rows: if a search finds an answer, it has a way by the same rows.
pub fn answers_have_ways()
    ensures { AnswersHaveWays }
{}

/// A law of all legs: if they lead from a moment to another, their ticks are those of
/// notifications, of signals between cores, and of threads, by how they stood.
pub fn parts_sum()
    ensures { PartsSum }
{}

/// A law of all schedules: a thread that has the interrupt was pending or done in no tick of its
/// leg.
pub fn legs_are_active()
    ensures { LegsAreActive }
{}

ghost use Rattle.mcs_ticks.specs.Queue.{AnswerAlike};

/// Law of ready queues: two ways to keep the ready threads give the same threads for every list of
/// commands. One keeps them by priority, first in first out within a priority. The other is one
/// list in order of entering, and the first thread of maximum priority is taken.
pub fn queues_answer_alike()
    ensures { AnswerAlike }
{}

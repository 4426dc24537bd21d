ghost use Rattle.mcs_ever_chain.specs.Sets.{ToldSetsRecur};
ghost use Rattle.mcs_ever_chain.specs.laws.Repeats.{AnswersAreAdded, SlowAreAdded, InterruptsAreAdded, GreatestIsForever, NoneIsLonger, NoneIsLeft, NoneIsSlow};

/// A law of chains that recur: in each period there are as many answers as in the first one.
pub fn answers_are_added()
    ensures { AnswersAreAdded }
{}

/// A law of chains that recur: in each period as many answers are slow as in the first one.
pub fn slow_are_added()
    ensures { SlowAreAdded }
{}

/// A law of chains that recur: in each period the chain's source makes as many interrupts as in the
/// first one. It must interrupt on a core of the group.
pub fn interrupts_are_added()
    ensures { InterruptsAreAdded }
{}

/// A law of chains that recur: the maximum latency before the end of the first period is the
/// maximum for ever.
pub fn greatest_is_forever()
    ensures { GreatestIsForever }
{}

/// A law of chains that recur: no answer up to any horizon has a longer latency than the longest
/// before the end of the first period.
pub fn none_is_longer()
    ensures { NoneIsLonger }
{}

/// A law of chains whose interrupts without an answer recur, too: if at no horizon before the end
/// of the first period a deadline has passed without an answer, none ever has.
pub fn none_is_left()
    ensures { NoneIsLeft }
{}

/// A law of chains that recur: if no answer before the end of the first period is slow, none ever
/// is.
pub fn none_is_slow()
    ensures { NoneIsSlow }
{}

/// A law of checks for all time: each set of cores recurs that has a period in its result.
pub fn told_sets_recur()
    ensures { ToldSetsRecur }
{}

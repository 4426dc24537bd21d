ghost use Rattle.std.specs.Prelude.{◌≡◌, ◌-◌, IsTrue};
ghost use Rattle.mcs_ever_told.specs.declared.line.Often.TheVariants.{Forever};
ghost use Rattle.mcs_ever_chain.specs.stored.Counts.{AreWhole};

use mcs_ever_told::Often;

/// The counts of a chain, by the rows before one moment. A count stays at 2^64 - 1.
#[derive(Clone, Copy, Debug)]
pub(crate) struct Counts {
    pub(crate) answers: u64,
    /// How many answers are slow.
    pub(crate) slow: u64,
    /// How many interrupts there are.
    pub(crate) interrupts: u64,
    /// The maximum latency, if there is an answer.
    pub(crate) greatest: Option<u64>,
}

impl Counts {
    /// How many interrupts have no answer.
    pub(crate) fn left(&self) -> u64
        ensures { result ≡ self.now.interrupts - self.now.answers }
    {
        self.interrupts.saturating_sub(self.answers)
    }
}

/// Whether no count up to the later moment is too great for 64 bits, and there are no more answers
/// than interrupts, neither before nor between the moments.
pub(crate) fn are_whole(before: &Counts, after: &Counts) -> bool
    ensures { IsTrue result → AreWhole before.now after.now }
{
    before.interrupts <= after.interrupts
        && before.answers <= after.answers
        && after.interrupts < u64::MAX
        && after.answers < u64::MAX
        && before.answers <= before.interrupts
        && after.answers - before.answers <= after.interrupts - before.interrupts
}

/// How often something happens that is counted before the first period and at its end.
pub(crate) fn often(before: u64, after: u64) -> Often
    ensures { result ≡ Forever before (after - before) }
{
    Often::Forever {
        before,
        each_period: after.saturating_sub(before),
    }
}

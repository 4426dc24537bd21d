use mcs_table::Margin;

/// The figures of a chain. Amounts are in ticks. Counts and the total stay at 2^64 - 1.
#[derive(Clone, Copy, Debug, PartialEq, Eq)]
pub struct Figures {
    /// Interrupts of the source.
    pub interrupts: u64,
    /// Interrupts that have an answer.
    pub answers: u64,
    /// The minimum latency; `None`, as all below but the total, if there is no answer.
    pub least: Option<u64>,
    /// The maximum latency.
    pub greatest: Option<u64>,
    /// The sum of all latencies.
    pub total: u64,
    /// The latency within which half of the answers come, by nearest rank. It and the two below are
    /// at least that percentile, above it by at most 1/64 of it, and at most the maximum latency.
    pub fiftieth: Option<u64>,
    /// The latency within which 90 of 100 answers come.
    pub ninetieth: Option<u64>,
    /// The latency within which 99 of 100 answers come.
    pub ninety_ninth: Option<u64>,
    /// The ticks within which each answer is to come; 0 means none.
    pub deadline: u64,
    /// How far the maximum latency is from the deadline, if there are both.
    pub margin: Option<Margin>,
}

use mcs_chain::ChainId;
use mcs_ever_told::{Often, Period};

/// The result of a check for all time of a chain.
#[derive(Clone, Copy, Debug, PartialEq, Eq)]
pub struct ChainTold {
    /// The chain.
    pub chain: ChainId,
    /// The time from which on its answers recur, and the period; `None` if that was not found up to
    /// the horizon. The counts are then those up to the horizon.
    pub period: Option<Period>,
    /// The maximum latency in ticks; `None` if there is no answer.
    pub greatest: Option<u64>,
    /// How many answers there are.
    pub answers: Often,
    /// How many of them are slow.
    pub slow: Often,
    /// How many interrupts have no answer. `None` if each has one in time, or will have one.
    pub unanswered: Option<Often>,
}

use crate::Stood;
use mcs_ticks::{ThreadId, Tick};

/// A round of a thread that ended (a job). Amounts are in ticks.
#[derive(Clone, Copy, Debug, PartialEq, Eq)]
pub struct Job {
    pub thread: ThreadId,
    /// The number of the round, from 1, in the order in which the thread's rounds end.
    pub number: u64,
    /// When it could first proceed: its word was set, or the thread was first ready or running.
    pub activated: Tick,
    /// When it began: its word was taken, the round before it ended, or the thread started.
    pub begun: Tick,
    pub ended: Tick,
    /// The response time: from its activation to its end.
    pub response: u64,
    /// The time from its activation until the round before it ended, or the thread started; 0 if it
    /// was activated later.
    pub queued: u64,
    /// Times that a thread of higher priority preempted it since it began. The count saturates at
    /// 2^64 - 1.
    pub preemptions: u64,
    /// How the thread stood from then on, or from its activation if that came later, to its end.
    pub stood: Stood,
}

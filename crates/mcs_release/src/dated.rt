use mcs_ticks::{ThreadId, Tick};

/// A thread in the release queue, and the date from which it may leave.
#[derive(Clone, Copy, Debug, PartialEq, Eq)]
pub struct Dated {
    pub thread: ThreadId,
    pub date: Tick,
}

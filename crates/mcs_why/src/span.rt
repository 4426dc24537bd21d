use mcs_ticks::{CoreId, ThreadId, Tick};

/// The interval whose rows show why a round of a thread took so long.
#[derive(Clone, Copy, Debug, PartialEq, Eq)]
pub struct Span {
    pub thread: ThreadId,
    pub number: u64,
    /// The thread's core.
    pub core: CoreId,
    /// The round's activation, or the thread's latest stop before the wake that began the round,
    /// whichever is earlier. If the round is not activated at the horizon: its beginning, the stop
    /// from which its thread waits, or else the end of the round before or the thread's start.
    pub from: Tick,
    /// The round's end, or the horizon.
    pub to: Tick,
    /// Whether the round ended.
    pub ended: bool,
    /// When the round was activated; `None` if it is not activated at the horizon.
    pub activated: Option<Tick>,
    /// When the round began; `None` if its word is not taken at the horizon, or not set.
    pub begun: Option<Tick>,
}

/// The result of a search for a round.
#[derive(Clone, Copy, Debug, PartialEq, Eq)]
pub enum Sought {
    There(Span),
    /// There is no such round. The thread has rounds 1 to this number, and the last one may not
    /// have ended; it has no round if this is 0.
    Missing(u64),
}

use mcs_script::Place;
use mcs_ticks::{ThreadId, Tick};

/// The standing of a thread on a core.
#[derive(Clone, Copy, Debug, PartialEq, Eq)]
pub enum Standing {
    /// It waits on a notification.
    Blocked,
    /// It is in the release queue.
    Pending,
    /// It is in the ready queue.
    Ready,
    /// It runs.
    Running,
    /// It has finished its last round.
    Done,
    /// It belongs to another core.
    Elsewhere,
}

/// The state of a thread: its standing, its place in its script, and the time at which its round
/// began.
#[derive(Clone, Copy, Debug, PartialEq, Eq)]
pub struct Thread {
    pub standing: Standing,
    pub place: Place,
    pub since: Tick,
}

/// The running thread, and the ticks that it has run since it was chosen.
#[derive(Clone, Copy, Debug, PartialEq, Eq)]
pub struct Chosen {
    pub thread: ThreadId,
    pub using: u64,
}

/// The consequence of a thread's item, at the end of a tick.
#[derive(Clone, Copy, Debug, PartialEq, Eq)]
pub enum AfterItem {
    /// The thread continues, unless its head is exhausted.
    GoesOn,
    /// It was the last item of the last round.
    Ends,
    /// The thread waits on a notification with word 0.
    Blocks,
    /// The thread waits for a server that is taken.
    Calls,
    /// The item gives up the rest of the head.
    Yields,
}

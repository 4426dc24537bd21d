use crate::ThreadId;

/// A thread that is ready or that waits on a notification, with its priority: 0 to 255, a greater
/// number is a higher priority.
#[derive(Clone, Copy, Debug, PartialEq, Eq)]
pub struct Queued {
    pub thread: ThreadId,
    pub priority: u8,
}

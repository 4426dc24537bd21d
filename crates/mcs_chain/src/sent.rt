use mcs_origins::Mark;
use mcs_ticks::{CoreId, NoteId};

/// An origin that a signal to another core carries.
#[derive(Clone, Copy, Debug, PartialEq, Eq)]
pub struct Sent {
    /// The notification that it is for.
    pub note: NoteId,
    /// The core that made the signal.
    pub maker: CoreId,
    /// The moment at which the signal was made.
    pub made: u64,
    pub mark: Mark,
}

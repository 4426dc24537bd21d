//! The mark at the start of a time's lines.
use mcs_ticks::Tick;

/// Marks the lines of one time.
#[derive(Clone, Copy, Debug, PartialEq, Eq)]
pub struct Mark {
    /// The time of the lines, in ticks.
    pub moment: Tick,
    /// Number of bytes before them.
    pub start: usize,
}

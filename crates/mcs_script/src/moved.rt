/// The step after an item that a thread has finished.
#[derive(Clone, Copy, Debug, PartialEq, Eq)]
pub enum Moved {
    /// The next item of the same round.
    Next,
    /// The round ends, and the next one begins.
    RoundEnds,
    /// The last round ends.
    AllDone,
}

use mcs_chain::Answer;

/// The result of a search for an answer of a chain.
#[derive(Clone, Copy, Debug, PartialEq, Eq)]
pub enum Sought {
    There(Answer),
    /// There is no such answer. The chain has answers 1 to this number, at most 2^64 - 1; it has
    /// none if this is 0.
    Missing(u64),
}

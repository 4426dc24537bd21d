use crate::seen::Tables;
use mcs_chain::Found as ChainFound;
use mcs_check_lines::{Counts, Unjudged};
use mcs_verdict::{Found, Watch};

/// The findings of all rows of a run.
#[derive(Drop)]
pub(crate) struct AllFound {
    /// The counts, without the findings at the horizon.
    pub(crate) counts: Counts,
    /// The findings at the horizon.
    pub(crate) unended: Vec<Found>,
    /// The slow answers whose lines are not written yet.
    pub(crate) due: Vec<ChainFound>,
    /// How many slow answers there are, at most 2^64 - 1.
    pub(crate) slow: u64,
    /// The chains without an answer at the horizon.
    pub(crate) unanswered: Vec<ChainFound>,
    /// Rounds of threads with a deadline that ended, at most 2^64 - 1.
    pub(crate) rounds: u64,
    /// Answers of chains with a deadline, at most 2^64 - 1.
    pub(crate) answers: u64,
    /// The threads that are unjudged at the horizon.
    pub(crate) unjudged: Vec<Unjudged>,
    /// The state kept for figures, if they are asked for.
    pub(crate) kept: Option<Kept>,
    /// The lines that are not written yet.
    pub(crate) text: Vec<u8>,
}

/// The state kept for figures.
#[derive(Drop)]
pub(crate) struct Kept {
    pub(crate) watch: Watch,
    pub(crate) table: Tables,
}

use mcs_chain::Answer;
use mcs_ticks::SourceId;

/// The answer to follow, and the source of its chain.
#[derive(Clone, Copy, Debug, PartialEq, Eq)]
pub(crate) struct Aim {
    pub source: SourceId,
    pub answer: Answer,
}

use mcs_refills::Refill;
use mcs_ticks::{ContextId, Sequence};

/// A view of a context at a moment.
#[derive(Debug, Drop)]
pub struct ContextView {
    pub context: ContextId,
    /// The refills of a sporadic context, in order; empty for round-robin.
    pub refills: Sequence<Refill>,
    /// The remaining ticks of a round-robin context's slice; `None` for a sporadic one.
    pub left: Option<u64>,
    /// The ticks that its thread ran since it was last chosen; they are not charged yet.
    pub using: u64,
}

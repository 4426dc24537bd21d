ghost use Rattle.std.specs.Prelude.{ℕ};

use mcs_ticks::{CoreId, Tick};
use std::marker::Model;

/// The number of a chain, from 0, in file order. Contracts see the number.
#[derive(Clone, Copy, Debug, PartialEq, Eq, PartialOrd, Ord)]
pub struct ChainId(pub usize);

impl Model for ChainId {
    ghost Value = { ℕ };

    ghost view = { λ a. a.0 };

    ghost inverse = { λ n. record { 0 = n } };
}

/// A finding of a chain. Amounts are in ticks.
#[derive(Clone, Copy, Debug, PartialEq, Eq)]
pub enum Finding {
    /// A round answered this origin later than the deadline, and no earlier one.
    Slow {
        latency: u64,
        deadline: u64,
        origin: Tick,
    },
    /// At the horizon this origin is the earliest without an answer, and its deadline has passed.
    Unanswered {
        deadline: u64,
        origin: Tick,
    },
}

/// A finding of a chain, with its moment and its core.
#[derive(Clone, Copy, Debug, PartialEq, Eq)]
pub struct Found {
    pub moment: Tick,
    pub core: CoreId,
    pub chain: ChainId,
    pub finding: Finding,
}

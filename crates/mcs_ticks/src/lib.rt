//! The types that all other crates share: time, the numbers of cores, threads, contexts,
//! notifications and sources, and the rows of a schedule. No scheduling rule is defined here.
#![tactic(auto)]

mod beside;
mod ids;
mod laws;
mod limits;
mod memory;
mod queue;
mod row;
mod sequence;
mod sink;
mod soonest;
mod tick;

pub use beside::{Nothing, Pair};
pub use ids::{ContextId, CoreId, NoteId, SourceId, ThreadId};
pub use laws::queues_answer_alike;
pub use limits::Limits;
pub use memory::NoMemory;
pub use queue::Queued;
pub use row::{Row, What, Why};
pub use sequence::Sequence;
pub use sink::{Collector, FlowFault, Measured, Refused, Sink};
pub use soonest::Soonest;
pub use tick::Tick;

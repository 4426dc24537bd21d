//! Sets of origins. An origin is the moment of an interrupt without an answer. A set has the places
//! at which each is, and is kept as stretches of equally spaced origins.
#![tactic(auto)]

mod joining;
mod later;
mod mark;
mod rests;
mod set;
mod stretch;
mod stretches;
mod taking;

pub use later::{are_stretches_later, are_ticks_later, is_mark_later};
pub use mark::Mark;
pub use set::{Set, is_one_of};
pub use stretch::Stretch;
pub use taking::Taking;

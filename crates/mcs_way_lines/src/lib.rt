//! The lines of the way of an answer of a chain, as text and as JSON: each leg from the interrupt
//! to the answer, and the sums of their ticks.
#![tactic(auto)]

mod fields;
mod way;
mod words;

pub use way::{put_way, put_way_objects};

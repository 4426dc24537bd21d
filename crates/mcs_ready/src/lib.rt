//! Ready queues of one core, after the seL4 Reference Manual: for each of 256 priorities the
//! threads in their order, highest priority first. Every call except `new` and `list` takes
//! constant time, for any number of threads, and allocates no memory.
#![tactic(auto)]

mod priorities;
mod ready;

pub use mcs_ticks::queues_answer_alike;
pub use ready::{Ready, held_once};

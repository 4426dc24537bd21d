//! Finds the longest time that a thread waits for its budget, while the rows of a schedule pass by.
//! It shows how to use `mcs_team` with your own sink.
#![tactic(auto)]

mod sink;

pub use sink::{LongestWait, longest_wait};

#[cfg(test)]
mod tests;

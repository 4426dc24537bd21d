//! Finds what is wrong in the schedule of a system while its rows pass by, and keeps no rows. It
//! shows how to keep a verdict in a sink of `mcs_team`.
#![tactic(auto)]

mod run;

pub use run::verdict;

#[cfg(test)]
mod tests;

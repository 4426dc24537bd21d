//! Figures of a schedule, row by row. For each thread: its rounds and their responses, its margin
//! to the deadline, its share of the core, and its coalesced signals. For each context: the budget
//! that was never used.
#![tactic(auto)]

mod account;
mod all;
mod counts;
mod figures;
mod laws;
mod shares;
mod table;
mod unused;

pub use all::tabulate;
pub use figures::{Figures, Margin, Rounds, Share, Signals};
pub use laws::{jobs_are_the_runs, rounds_are_exact};
pub use table::Table;

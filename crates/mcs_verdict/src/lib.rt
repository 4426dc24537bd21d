//! Findings in a schedule's rows, row by row: deadline misses, rounds and pending words that can
//! only end with one, threads that were never activated, and lost signals. It also counts how each
//! thread stood.
#![tactic(auto)]

mod account;
mod again;
mod all;
mod due;
mod finder;
mod finding;
mod heard;
mod held;
mod job;
mod laws;
mod outcome;
mod standing;
mod tracked;
mod watch;

pub use all::{find_all, find_unended, keep_finding};
pub use finder::Finder;
pub use finding::{Finding, Found};
pub use heard::{bits_of, calls, first_wait};
pub use job::Job;
pub use laws::{all_ticks_are_counted, cores_are_watched, given_rows_are_found};
pub use standing::{Standing, Stood, standing_after};
pub use watch::Watch;

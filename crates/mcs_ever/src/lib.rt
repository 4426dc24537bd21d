//! Schedules that repeat, so that a first part determines all of them. Each law is the contract of
//! a function with an empty body. For a search for a period, `Marks` keeps which dates rows
//! compared with now, and `closed_sets` gives the groups of cores that may recur alone.
#![tactic(auto)]

mod closed;
mod laws;
mod marks;

pub use closed::{CoreSet, closed_sets};
pub use laws::{
    marks_ask_no_more, marks_tell, never_late, no_round_ends_again, rows_are_of_own,
    tests_are_forever, turns_repeat,
};
pub use marks::{Mark, Marks};

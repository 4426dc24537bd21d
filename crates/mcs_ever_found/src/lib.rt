//! Findings in schedules that recur: laws about them and about their counts, and tests whether they
//! recur between two moments. A law is the contract of a function with an empty body; a proof calls
//! the function to use the law.
#![tactic(auto)]

mod course;
mod laws;
mod recurs;

pub use course::Course;
pub use laws::{
    findings_repeat, greatest_is_forever, job_tests_are_forever, jobs_repeat, never_spent,
    no_deadline_is_missed, no_signal_is_lost, none_is_counted, nothing_is_found, threads_go_on,
    words_go_on,
};
pub use recurs::{Doings, abandoned_word, endless_round, findings_recur};

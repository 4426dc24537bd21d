//! Threads that only compute may as well spin: the system in which they do has the same schedule,
//! except for the ends of their rounds. Each law is the contract of a function with an empty body.
#![tactic(auto)]

mod again;
mod laws;
mod spun;

pub use laws::{
    findings_are_spun, jobs_are_spun, rows_are_spun, spun_are_well_formed, tests_are_spun,
};
pub use spun::spin;

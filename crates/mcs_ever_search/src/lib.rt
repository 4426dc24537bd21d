//! A search for recurrences: a system is run moment by moment, all cores at one time, and groups of
//! its cores are compared with their state before a kept moment.
#![tactic(auto)]

mod alike;
mod beats;
mod gaps;
mod heads;
mod kept;
mod lockstep;
mod orders;
mod repeats;
mod rest;
mod sampling;
mod search;
mod seen;
mod snapshot;
mod stances;
mod turns;

pub use beats::beat_of;
pub use lockstep::Lockstep;
pub use repeats::{Repeats, compare, find_repeats, nothing_told};
pub use sampling::Sampling;
pub use search::Search;

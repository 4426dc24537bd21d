//! The answers of a chain for all time: laws about chains that recur, and a search for the moment
//! from which on one does. A law is the contract of a function with an empty body; a proof calls
//! the function to use the law.
#![tactic(auto)]

mod alone;
mod home;
mod laws;
mod look;
mod often;
mod run;
mod tell;
mod told;

pub use laws::{
    answers_are_added, greatest_is_forever, interrupts_are_added, none_is_left, none_is_longer,
    none_is_slow, slow_are_added, told_sets_recur,
};
pub use tell::tell_chains;
pub use told::ChainTold;

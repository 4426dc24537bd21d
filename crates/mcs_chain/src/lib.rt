//! The chains of a system, read off the rows of a schedule as they go by: how long it takes from an
//! interrupt to the first round that ends on the strength of it.
#![tactic(auto)]

mod answer;
mod chains;
mod figures;
mod finding;
mod found;
mod later;
mod moves;
mod one;
mod origins;
mod sent;
mod sets;
mod state;
mod step;
mod steps;
mod tallies;
mod tally;
mod under_way;
mod watch;

pub use answer::Answer;
pub use figures::Figures;
pub use finding::{ChainId, Finding, Found};
pub use mcs_origins::{Mark, Taking};
pub use moves::Move;
pub use sent::Sent;
pub use state::State;
pub use step::{Gone, Step};
pub use steps::Steps;
pub use tallies::Tallies;
pub use watch::Watch;

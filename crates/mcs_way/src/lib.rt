//! The way of an answer of a chain: the legs from the interrupt to the end of the round that
//! answers it, read off the rows of a schedule as they go by. The rows come twice: the first run
//! finds the answer, the second one its way.
#![tactic(auto)]

mod aim;
mod count;
mod course;
mod laws;
mod leg;
mod search;
mod sent;
mod sought;
mod spots;
mod stance;
mod sums;
mod trace;
mod trail;

pub use laws::{answers_have_ways, legs_are_active, parts_sum, ticks_sum, ways_lead};
pub use leg::{Carrier, Leg};
pub use search::Search;
pub use sought::Sought;
pub use sums::{Sums, sums_of};
pub use trail::Trail;

//! Why a round took so long, or the way of an answer, from the bytes of a system read to the lines
//! written.
#![tactic(auto)]

mod alone;
mod answer_seeker;
mod asked;
mod follower;
mod found;
mod legs;
mod refusals;
mod round;
mod seeker;
mod teller;
mod way;
mod why;
mod why_fault;

pub use alone::explain_alone;
pub use why::{explain, explain_with};
pub use why_fault::{Answers, Rounds, WhyFault};

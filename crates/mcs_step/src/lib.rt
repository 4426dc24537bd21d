//! All cores of a system on one thread, in step: their turns are taken in the schedule's order.
#![tactic(auto)]

mod busy;
mod calendar;
mod in_step;

pub use in_step::InStep;

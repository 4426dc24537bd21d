//! Whole simulations, on one thread or on a team of threads.
#![tactic(auto)]

mod close;
mod here;
mod outflow;
mod own_tally;
mod reporting;
mod rest;
mod run;
mod shared_desk;
mod step_tally;
mod stream;
mod team;
mod telling;
mod to_sink;
mod whole;

pub use mcs_ticks::{FlowFault, Refused, Sink};
pub use outflow::{Relay, RowRelay};
pub use reporting::report;
pub use run::{Gate, Open, Plan, SimFault};
pub use to_sink::{schedule_alone, schedule_by_core, schedule_to, simulate_to};
pub use whole::{Whole, probe, simulate, simulate_alone};

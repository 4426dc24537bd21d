//! The parts that all checks of a system share: a machine that runs it, progress, lines on their
//! way to a target, names that are asked for, and why a check failed.
#![tactic(auto)]

mod allowed;
mod fault;
mod lines;
mod machine;
mod names;
mod progress;

pub use allowed::{flags_of, refuse_unknown};
pub use fault::CheckFault;
pub use lines::{Lines, refusal};
pub use machine::{Alone, Machine, Runner, Team};
pub use names::{is_short, nearer};
pub use progress::{Progress, Quiet, pass};

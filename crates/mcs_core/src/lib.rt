//! The state of a core, and the turn that a core takes at a moment.
#![tactic(auto)]

mod agenda;
mod alarm;
mod alarms;
mod arrivals;
mod charges;
mod choice;
mod contexts;
mod events;
mod interrupts;
mod items;
mod local;
mod log;
mod moves;
mod next;
mod open;
mod orders;
mod posts;
mod readings;
mod releases;
mod run;
mod standing;
mod state;
mod stops;
mod tick;
mod turn;
mod unmeasured;
mod views;

pub use alarm::Alarm;
pub use mcs_system::{ContextPart, Link, Name, NotePart, System, SystemParts, ThreadPart};
pub use standing::{AfterItem, Chosen, Standing, Thread};
pub use state::CoreState;

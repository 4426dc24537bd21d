//! Reads the text of a system in one walk, and reports the first fault with its place.
//!
//! The kinds, order and texts of the faults are defined by this project (profile M). The text is
//! TOML. Functions here take their arguments in one order: the allocator, the tree, its place, and
//! other data.
#![tactic(auto)]

mod at;
mod chain;
mod config;
mod context;
mod fault;
mod file;
mod key;
mod laws;
mod link;
mod names;
mod note;
mod numbers;
mod order;
mod reader;
mod script;
mod server;
mod source;
mod spot;
mod thread;
mod values;

pub use fault::{FaultKind, LoadFault};
pub use file::load;
pub use laws::accepted_systems_are_well_formed;
pub use spot::{Key, Section, Spot};

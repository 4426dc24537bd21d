//! Scripts, the texts of their items, and the place of a thread in its script. Rounds (jobs) count
//! from 1, items from 0.
#![tactic(auto)]

mod fault;
mod item;
mod moved;
mod place;
mod raw;
mod script;

pub use fault::ItemFault;
pub use item::Item;
pub use moved::Moved;
pub use place::Place;
pub use raw::{RawItem, read_item, read_new_item};
pub use script::Script;

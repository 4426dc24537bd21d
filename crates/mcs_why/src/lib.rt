//! Why a round of a thread took so long: the span of rows of its core that show it, how long each
//! thread ran meanwhile, and how long the core was idle. The rows come twice, and no row is kept.
#![tactic(auto)]

mod account;
mod all;
mod laws;
mod search;
mod span;
mod trail;
mod unended;

pub use account::Account;
pub use all::{find, tell};
pub use laws::all_ticks_are_told;
pub use search::Search;
pub use span::{Sought, Span};

//! Tests whether the findings in the rows of a group of cores recur between two moments, and what
//! goes on for ever if they do.

mod doings;
mod endless;
mod findings;
mod group;

pub use doings::Doings;
pub use endless::{abandoned_word, endless_round};
pub use findings::findings_recur;

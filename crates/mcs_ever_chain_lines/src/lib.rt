//! The lines of chains for all time, in words and as JSON objects: from when on the answers of a
//! chain recur, and how often one is slow or missing.
#![tactic(auto)]

mod findings;
mod object;
mod put;
mod text;
mod word;

pub use findings::findings_of;
pub use put::put_chains;

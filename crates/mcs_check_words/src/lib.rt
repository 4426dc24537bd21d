//! The command line of `mcscheck`, read into its options.
#![tactic(auto)]

mod arguments;
mod asked;
mod words;

pub use asked::{Format, Options, Question, Show};
pub use mcs_words::WordsFault;
pub use words::options;

//! The command line of `mcsim`, read into its options.
#![tactic(auto)]

mod asked;
mod words;

pub use asked::{Options, Show, WordsFault};
pub use words::{
    fault_of, file as file_argument, file_of, number as number_argument, number_of, options,
};

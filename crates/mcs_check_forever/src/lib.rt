//! The check for all time, from the bytes read to the lines written: which cores of a system
//! repeat, and which findings they have for ever.
#![tactic(auto)]

mod forever_fault;
mod laws;
mod run;
mod told;
mod verdict;

pub use forever_fault::ForeverFault;
pub use laws::clean_is_never_late;
pub use run::{foretell, foretell_alone, foretell_with};
pub use verdict::Verdict;

//! The lines of `--why` in each format: rows of the schedule, and the account of a round.
#![tactic(auto)]

mod ran;
mod row_fields;
mod row_line;

pub use ran::put_account;
pub use row_line::put_row_as;

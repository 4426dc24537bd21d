//! What a check for all time tells: the results for each closed set of cores, and their lines in
//! words or as JSON objects.
#![tactic(auto)]

mod line;
mod outlook;

pub use line::{Line, LineFormat, Often, Totals, put_line, put_lines};
pub use outlook::{Outlook, Period, Told, tell_all};

//! Named values as a line: a row of CSV, or a JSON object.
#![tactic(auto)]

mod cell;
mod object;
mod row;

pub use cell::{Cell, Field, append_below};
pub use object::put_object;
pub use row::{append_joined, put_names, put_row};

//! Release queues of one core, after the seL4 Reference Manual: threads that wait for a date, each
//! with the date from which it may leave. They leave by date, and at equal dates in the order in
//! which they entered. Only `new` and `list` allocate memory.
#![tactic(auto)]

mod dated;
mod laws;
mod least;
mod places;
mod releases;
mod spare;

pub use dated::Dated;
pub use laws::equal_dates_leave_in_order;
pub use releases::{Releases, held_once};

//! The signals under way between cores, read off the rows of a schedule.

mod later;
mod laws;
mod signals;
mod store;
mod told;

pub use laws::{signals_are_told, under_way_is_told};
pub use signals::UnderWay;

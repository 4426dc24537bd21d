//! A test whether a group of cores recurs: whether its state before a moment is that before an
//! earlier one, but later. An image shows a core, and the rows show the signals under way.
#![tactic(auto)]

mod image;
mod recurs;
mod under_way;

pub use image::{CoreImage, Lags};
pub use recurs::{Present, Shifts, Snapshot, is_own, rows_tell_turns};
pub use under_way::{UnderWay, signals_are_told, under_way_is_told};

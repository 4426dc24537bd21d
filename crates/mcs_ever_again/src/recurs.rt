//! A test whether a group of cores recurs between two moments, of which a snapshot was taken.

mod group;
mod lags;
mod laws;
mod marked;
mod present;
mod shifts;
mod snapshot;
mod sources;

pub use group::is_own;
pub use laws::rows_tell_turns;
pub use present::Present;
pub use shifts::Shifts;
pub use snapshot::Snapshot;

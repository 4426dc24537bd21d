//! A limiter of packets over one list of refills: at most a budget of packets in each period. It
//! shows how to use `mcs_refills` alone, without threads, cores or schedules.
#![tactic(auto)]

mod laws;
mod limiter;

pub use laws::packets_are_spaced;
pub use limiter::{Answer, Limiter};

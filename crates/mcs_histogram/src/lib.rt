//! The distribution of values: a histogram that records each value in constant time, allocates
//! memory once, and returns percentiles.
#![tactic(auto)]

mod bucket;
mod histogram;
mod laws;

pub use histogram::Histogram;
pub use laws::{
    buckets_rise, ends_are_greatest, ends_are_near, hundredth_is_exact, percentiles_are_near,
};

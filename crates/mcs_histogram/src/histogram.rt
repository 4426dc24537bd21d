ghost use Rattle.std.specs.Prelude.{◌≡◌, ℕ, ◌<◌, ◌≤◌, ◌↔◌, List, [], ◌∷◌, IfOk, IsSome, sum, take, length, ◌+◌, ◌*◌};
ghost use Rattle.std.specs.Int.{div_ceil};
ghost use Rattle.mcs_histogram.specs.Histogram.{counted, histogram_of, told_percentile};

use crate::bucket::{bucket, bucket_end};
use mcs_ticks::NoMemory;
use std::alloc::Global;
use std::marker::Model;

/// The distribution of values from 0 to a limit: the number of values in each bucket. Each value
/// below 128 has a separate bucket. Above that, each interval from a power of two to the next has
/// 64 buckets, each at most 1/64 of its minimum value wide. A value above the limit counts as the
/// limit. Only the first 2^64 - 1 values count.
#[derive(Debug, Drop)]
pub struct Histogram {
    limit: u64,
    count: u64,
    greatest: u64,
    counts: Vec<u64>,
}

impl Model for Histogram {
    ghost use Rattle.mcs_histogram.specs.Histogram.{Histogram};
    ghost use Rattle.mcs_histogram.specs.stored.Fields.{AreFields};

    ghost Value = { Histogram };

    ghost view = { λ a. record { limit = a.limit; count = a.count; greatest = a.greatest; counts = a.counts.items } };

    ghost invariant = { λ a. AreFields a.limit a.count a.counts.items };
}

/// Returns the nearest rank of the percentile among `count` values in rising order, from 1.
fn rank(percent: u64, count: u64) -> u64
    requires { percent ≤ 100 }
    ensures { result ≡ div_ceil (percent * count) 100 }
{
    (u128::from(percent) * u128::from(count)).div_ceil(100) as u64
}

/// Returns the number of the bucket of the value with this rank.
fn bucket_at(counts: &[u64], place: u64) -> usize
    requires { (0 < place) × (place ≤ sum counts.now) }
    ensures known { result < length counts.now }
    ensures before { sum (take result counts.now) < place }
    ensures within { place ≤ sum (take (result + 1) counts.now) }
{
    let mut left = place;
    for (number, count) in counts.iter().enumerate() {
        if left <= *count {
            return number;
        }
        left -= *count;
    }
    // not reached: the rank is at most the number of counted values
    counts.len()
}

impl Histogram {
    /// Returns a histogram without values. It allocates 8 bytes for each bucket up to that of
    /// `limit`, at most 3,776 of them, and nothing later. Fails with `NoMemory` if the allocation
    /// fails.
    pub fn new(alloc: Global, limit: u64) -> Result<Self, NoMemory>
        ensures { IfOk result (λ histogram. histogram ≡ histogram_of limit []) }
    {
        Ok(Histogram {
            limit,
            count: 0,
            greatest: 0,
            counts: vec![in alloc; 0; bucket(limit) + 1]?,
        })
    }

    /// Counts one more value, in constant time and without allocation. A value above the limit
    /// counts as the limit.
    pub fn record(&mut self, value: u64)
        ensures { (limit : ℕ) (values : List ℕ) → self.old ≡ histogram_of limit values → self.new ≡ histogram_of limit (value ∷ values) }
    {
        if self.count < u64::MAX {
            let value = value.min(self.limit);
            self.count += 1;
            self.greatest = self.greatest.max(value);
            self.counts[bucket(value)] += 1;
        }
    }

    /// Returns the number of counted values: all recorded ones, up to 2^64 - 1.
    pub fn count(&self) -> u64
        ensures { result ≡ self.now.count }
    {
        self.count
    }

    /// Returns the percentile by nearest rank, rounded up to the end of its bucket but at most the
    /// maximum of all values. The result is at least the percentile, above it by at most 1/64 of
    /// it, and exact for 100. `percent` is 1 to 100. Returns `None` if no value was recorded.
    pub fn percentile(&self, percent: u64) -> Option<u64>
        requires { (0 < percent) × (percent ≤ 100) }
        ensures some { IsSome result ↔ (0 < self.now.count) }
        ensures value { (limit : ℕ) (values : List ℕ) → self.now ≡ histogram_of limit values →
            result ≡ told_percentile percent (counted limit values) }
    {
        if self.count == 0 {
            return None;
        }
        let number = bucket_at(self.counts.as_slice(), rank(percent, self.count));
        Some(bucket_end(number).min(self.greatest))
    }
}

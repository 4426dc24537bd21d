ghost use Rattle.mcs_histogram.specs.laws.Buckets.{EndsAreNear, EndsAreGreatest, BucketsRise};
ghost use Rattle.mcs_histogram.specs.laws.Percentiles.{PercentilesAreNear, HundredthIsExact, PercentilesAreRanks, AllAreCounted};

/// Law of buckets: the maximum value of a value's bucket is at least that value, and above it by at
/// most 1/64 of it.
pub fn ends_are_near()
    ensures { EndsAreNear }
{}

/// Law of buckets: the end of a bucket lies in it, and no value of it is greater.
pub fn ends_are_greatest()
    ensures { EndsAreGreatest }
{}

/// Law of buckets: their numbers rise with their values.
pub fn buckets_rise()
    ensures { BucketsRise }
{}

/// Law of reported percentiles: each is at least the percentile, above it by at most 1/64 of it,
/// and at most the maximum value.
pub fn percentiles_are_near()
    ensures { PercentilesAreNear }
{}

/// Law of reported percentiles: the 100th is exact.
pub fn hundredth_is_exact()
    ensures { HundredthIsExact }
{}

/// Law of percentiles: in rising order, a percentile is the value at its nearest rank.
pub fn percentiles_are_ranks()
    ensures { PercentilesAreRanks }
{}

/// Law of counted values: values up to the limit, fewer than 2^64 of them, count unchanged.
pub fn all_are_counted()
    ensures { AllAreCounted }
{}

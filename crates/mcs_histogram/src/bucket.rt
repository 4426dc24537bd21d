ghost use Rattle.std.specs.Prelude.{◌≡◌, ℕ, ◌<◌};
ghost use Rattle.mcs_histogram.specs.Buckets.{bucket, bucket_end};

/// Number of buckets for the values of 64 bits: 128 of width 1, and 64 of each of the widths from 2
/// to 2^57.
pub(crate) const BUCKETS: usize = 128 + 57 * 64;

/// Returns the number of the bucket of a value.
pub(crate) fn bucket(value: u64) -> usize
    ensures number { result ≡ bucket value }
    ensures known { result < BUCKETS }
{
    // how often the width was doubled from 1
    let doublings = value.max(64).ilog2() - 6;
    64 * doublings as usize + (value >> doublings) as usize
}

/// Returns the maximum value of the bucket with this number.
pub(crate) fn bucket_end(number: usize) -> u64
    requires { number < BUCKETS }
    ensures { (value : ℕ) → number ≡ bucket value → result ≡ bucket_end value }
{
    let doublings = (number / 64).saturating_sub(1);
    // how many buckets of this width fit below it, from 0 on
    let steps = number - 64 * doublings;
    let width = 1u64 << doublings;
    steps as u64 * width + (width - 1)
}

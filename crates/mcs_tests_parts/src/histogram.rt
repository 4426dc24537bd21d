use mcs_histogram::Histogram;
use mcs_ticks::NoMemory;
use std::alloc::Global;
use std::test::Fail;

/// Returns a histogram of these values.
fn spread(alloc: Global, limit: u64, values: &[u64]) -> Result<Histogram, NoMemory> {
    let mut histogram = Histogram::new(alloc, limit)?;
    for value in values {
        histogram.record(*value);
    }
    Ok(histogram)
}

/// Returns the 1st, 50th, 90th, 99th and 100th percentile.
fn percentiles(histogram: &Histogram) -> [Option<u64>; 5] {
    [
        histogram.percentile(1),
        histogram.percentile(50),
        histogram.percentile(90),
        histogram.percentile(99),
        histogram.percentile(100),
    ]
}

/// Worked by hand: a limit, values, and the percentiles.
static SPREADS: [(u64, &[u64], [u64; 5]); 7] = [
    (10, &[7], [7, 7, 7, 7, 7]),
    (10, &[12], [10, 10, 10, 10, 10]),
    (0, &[0, 5], [0, 0, 0, 0, 0]),
    // the ranks are 1, 2, 4, 4 and 4, and 128 and 129 share a bucket
    (1000, &[130, 131, 129, 128], [129, 129, 131, 131, 131]),
    // the ranks are 1, 2, 3, 3 and 3; the buckets of 260, 300 and 1000 end at 263, 303 and 1007
    (1 << 40, &[1000, 300, 260], [263, 303, 1000, 1000, 1000]),
    (u64::MAX, &[u64::MAX], [u64::MAX; 5]),
    // the bucket of 2^63 is 2^57 wide
    (
        u64::MAX,
        &[u64::MAX, 0, 1 << 63],
        [0, 9_367_487_224_930_631_679, u64::MAX, u64::MAX, u64::MAX],
    ),
];

#[test]
fn percentiles_are_told(rt: HostRuntime) -> Result<(), Fail> {
    for (limit, values, want) in SPREADS.as_slice() {
        let histogram = spread(rt.alloc(), *limit, values)?;
        assert_eq!(rt; histogram.count(), values.len() as u64, "{values:?}");
        assert_eq!(rt;
            percentiles(&histogram),
            want.map(|value| Some(value)),
            "{values:?}"
        );
    }
    Ok(())
}

#[test]
fn nothing_is_told_of_nothing(rt: HostRuntime) -> Result<(), Fail> {
    let histogram = Histogram::new(rt.alloc(), 10)?;
    assert_eq!(rt; histogram.count(), 0);
    assert_eq!(rt; percentiles(&histogram), [None; 5]);
    Ok(())
}

/// The ranks among 1,000 values are 10, 500, 900, 990 and 1,000. Buckets are 4 wide from 256 on,
/// and 8 wide from 512 on.
#[test]
fn percentiles_of_the_first_thousand(rt: HostRuntime) -> Result<(), Fail> {
    let mut histogram = Histogram::new(rt.alloc(), 1 << 40)?;
    for value in 1..1001 {
        // in another order, since 3 and 1,001 have no common divisor
        histogram.record(3 * value % 1001);
    }
    assert_eq!(rt; histogram.count(), 1000);
    let want = [10, 503, 903, 991, 1000].map(|value| Some(value));
    assert_eq!(rt; percentiles(&histogram), want);
    Ok(())
}

/// Each of the first hundred values is its percentile.
#[test]
fn percentiles_of_the_first_hundred(rt: HostRuntime) -> Result<(), Fail> {
    let mut histogram = Histogram::new(rt.alloc(), 100)?;
    for value in 1..101 {
        histogram.record(value);
    }
    for percent in 1..101 {
        assert_eq!(rt; histogram.percentile(percent), Some(percent));
    }
    Ok(())
}

//! Findings and jobs as text, and names that no notification has.

use crate::runs::{LATE, SIGNALS, options, written};
use mcs_check_words::Show;
use std::test::Fail;

/// The thread of `LATE` runs in [0, 2), [5, 7) and [10, 11).
pub(crate) const WHAT_IS_LATE: &str = "\
11 0 miss A round 1 response 11 deadline 10 activated 0 queued 0 ready 0 running 5 throttled 6 blocked 0 server 0
missed 1 overdue 0 untaken 0 lost 0 never 0 merged 0 allowed 0 unjudged 0 hints 0 threads 1 deadlines 1 judged 1
";

const WHAT_IS_LOST: &str = "\
3 0 lost tick word 1
5 0 lost tick word 1
hint no thread has a deadline
missed 0 overdue 0 untaken 0 lost 2 never 0 merged 0 allowed 0 unjudged 0 hints 1 threads 1 deadlines 0 judged 0
";

/// The one job of `LATE`. `SIGNAL_JOBS` has the two of `SIGNALS` up to 5; the second begins when
/// the first ends.
const LATE_JOBS: &str = "\
11 0 job A round 1 activated 0 begun 0 response 11 queued 0 preemptions 0 ready 0 running 5 throttled 6 blocked 0 server 0
missed 1 overdue 0 untaken 0 lost 0 never 0 merged 0 allowed 0 unjudged 0 hints 0 threads 1 deadlines 1 judged 1
";

const SIGNAL_JOBS: &str = "\
2 0 job A round 1 activated 0 begun 0 response 2 queued 0 preemptions 0 ready 0 running 2 throttled 0 blocked 0 server 0
4 0 job A round 2 activated 2 begun 2 response 2 queued 0 preemptions 0 ready 0 running 2 throttled 0 blocked 0 server 0
missed 0 overdue 0 untaken 0 lost 2 never 0 merged 0 allowed 0 unjudged 0 hints 1 threads 1 deadlines 0 judged 0
";

const WHAT_IS_ALLOWED: &str = "\
hint no thread has a deadline
missed 0 overdue 0 untaken 0 lost 0 never 0 merged 0 allowed 2 unjudged 0 hints 1 threads 1 deadlines 0 judged 0
";

#[test]
fn a_miss_is_written(rt: HostRuntime) -> Result<(), Fail> {
    for workers in [1, 2] {
        let text = written(
            &rt,
            rt.alloc(),
            LATE,
            &options(rt.alloc(), 20, workers, &[])?,
        )?;
        assert_eq!(rt; text.as_str(), WHAT_IS_LATE, "workers: {workers}");
    }
    Ok(())
}

#[test]
fn lost_signals_are_written_or_allowed(rt: HostRuntime) -> Result<(), Fail> {
    let text = written(&rt, rt.alloc(), SIGNALS, &options(rt.alloc(), 5, 1, &[])?)?;
    assert_eq!(rt; text.as_str(), WHAT_IS_LOST);
    let text = written(
        &rt,
        rt.alloc(),
        SIGNALS,
        &options(rt.alloc(), 5, 1, &["tick"])?,
    )?;
    assert_eq!(rt; text.as_str(), WHAT_IS_ALLOWED);
    Ok(())
}

/// No finding is written, but findings are counted.
#[test]
fn rounds_that_ended_are_written(rt: HostRuntime) -> Result<(), Fail> {
    for (system, horizon, want) in [(LATE, 20, LATE_JOBS), (SIGNALS, 5, SIGNAL_JOBS)] {
        let mut options = options(rt.alloc(), horizon, 1, &[])?;
        options.show = Show::Jobs;
        let text = written(&rt, rt.alloc(), system, &options)?;
        assert_eq!(rt; text.as_str(), want);
    }
    Ok(())
}

/// A name of two lines is written in one line, and one of more than 64 bytes has no nearest name.
#[test]
fn names_that_are_not_known(rt: HostRuntime) -> Result<(), Fail> {
    for (system, name, want) in [
        (
            SIGNALS,
            "tack",
            "mcscheck: --allow-lost: no notification is called \"tack\": the nearest is tick",
        ),
        (
            SIGNALS,
            "a\nb",
            "mcscheck: --allow-lost: no notification is called \"a\\nb\": the nearest is tick",
        ),
        (
            SIGNALS,
            "aaaaaaaaaaaaaaaaaaaaaaaaaaaaaaaaaaaaaaaaaaaaaaaaaaaaaaaaaaaaaaaa",
            "mcscheck: --allow-lost: no notification is called \"aaaaaaaaaaaaaaaaaaaaaaaaaaaaaaaaaaaaaaaaaaaaaaaaaaaaaaaaaaaaaaaa\": the nearest is tick",
        ),
        (
            SIGNALS,
            "aaaaaaaaaaaaaaaaaaaaaaaaaaaaaaaaaaaaaaaaaaaaaaaaaaaaaaaaaaaaaaaaa",
            "mcscheck: --allow-lost: no notification is called \"aaaaaaaaaaaaaaaaaaaaaaaaaaaaaaaaaaaaaaaaaaaaaaaaaaaaaaaaaaaaaaaaa\": there is none",
        ),
        (
            LATE,
            "tick",
            "mcscheck: --allow-lost: no notification is called \"tick\": there is none",
        ),
    ] {
        let text = written(
            &rt,
            rt.alloc(),
            system,
            &options(rt.alloc(), 20, 1, &[name])?,
        )?;
        assert_eq!(rt; text.as_str(), want);
    }
    Ok(())
}

//! The progress of a run, as it is reported.

use crate::runs::{SIGNALS, options};
use mcs_check::check;
use mcs_check_run::Progress;
use mcs_check_words::Options;
use mcs_cli::{FromRead, IntoWrite};
use mcs_ticks::Tick;
use std::alloc::Global;
use std::sync::Wait;
use std::test::Fail;
use std::thread::Threads;

/// Counts the reports.
#[derive(Drop)]
struct Told {
    passed: usize,
    last: u64,
    rises: bool,
    wiped: usize,
}

impl Progress for Told {
    fn passed(&mut self, moment: Tick) {
        self.passed = self.passed.saturating_add(1);
        self.rises = self.rises && self.last < moment.get();
        self.last = moment.get();
    }

    fn wipe(&mut self) {
        self.wiped = self.wiped.saturating_add(1);
    }
}

fn progress_of(
    rt: &(impl Threads + Wait + Sync),
    alloc: Global,
    system: &str,
    options: &Options,
) -> Result<Told, Fail> {
    let mut told = Told {
        passed: 0,
        last: 0,
        rises: true,
        wiped: 0,
    };
    let mut source = FromRead::new(system.as_bytes());
    let mut target = IntoWrite::new(Vec::with_capacity(alloc, 4096)?);
    check(rt, alloc, &mut source, &mut target, options, &mut told)?;
    Ok(told)
}

/// The display is cleared before each piece that is written, and at the end: two lines are two
/// pieces.
#[test]
fn what_was_shown_gives_way(rt: HostRuntime) -> Result<(), Fail> {
    let none = progress_of(&rt, rt.alloc(), SIGNALS, &options(rt.alloc(), 0, 1, &[])?)?;
    assert_eq!(rt; (none.passed, none.wiped), (0, 1));
    let two = progress_of(&rt, rt.alloc(), SIGNALS, &options(rt.alloc(), 5, 1, &[])?)?;
    assert_eq!(rt; (two.passed, two.wiped), (0, 3));
    Ok(())
}

/// Ten ticks have 5 signals, 5 held words, 5 ends of rounds, a stop and a run: 17 rows. The
/// progress is reported after each 16,384 rows: the fourth time between 38,500 and 39,500, and not
/// again.
#[test]
fn a_long_run_is_told_of(rt: HostRuntime) -> Result<(), Fail> {
    let long = progress_of(
        &rt,
        rt.alloc(),
        SIGNALS,
        &options(rt.alloc(), 40_000, 1, &["tick"])?,
    )?;
    assert_eq!(rt; (long.passed, long.rises, long.wiped), (4, true, 1));
    assert!(rt; long.last > 38_500 && long.last <= 39_500);
    Ok(())
}

//! Reports of simulations whose rows are not kept, for different numbers of worker threads.

use super::systems::{EIGHT_APART, EIGHT_CLOSE, ONE_ROUND, SIGNALS, moment, system};
use mcs_report::{CoreReport, Reports, ThreadReport};
use mcs_team::{Open, report};
use std::process::Abort;
use std::test::Fail;

/// The report of a thread that ran for `ran` ticks and ended one round with this response time, or
/// no round if it is 0.
fn ran(ran: u64, response: u64) -> ThreadReport {
    ThreadReport {
        ran,
        rounds: if response > 0 { 1 } else { 0 },
        least: response,
        greatest: response,
        total: response,
        late: 0,
        spent: 0,
        throttled: 0,
        longest: 0,
    }
}

fn core(busy: u64, idle: u64) -> CoreReport {
    CoreReport { busy, idle }
}

fn are(rt: &impl Abort, reports: &Reports, threads: &[ThreadReport], cores: &[CoreReport]) {
    assert!(rt; reports.threads.as_slice() == threads);
    assert!(rt; reports.cores.as_slice() == cores);
}

#[test]
fn a_core_that_only_gets_signals_is_idle(rt: HostRuntime) -> Result<(), Fail> {
    let alloc = rt.alloc();
    let horizon = moment(20)?;
    for workers in [0usize, 1, 2, 64] {
        let system = system(alloc, SIGNALS)?;
        let reports = report(&rt, alloc, system, horizon, workers, &Open)?;
        are(&rt, &reports, &[ran(4, 4)], &[core(0, 20), core(4, 16)]);
    }
    Ok(())
}

/// The third thread waits from 1 to 4, when it begins to run again.
#[test]
fn a_run_ends_at_the_horizon(rt: HostRuntime) -> Result<(), Fail> {
    let alloc = rt.alloc();
    let horizon = moment(4)?;
    let threads = [ran(2, 2), ran(2, 2), ran(1, 0)];
    let cores = [core(2, 2), core(2, 2), core(1, 3)];
    for workers in [0usize, 1, 2, 64] {
        let system = system(alloc, ONE_ROUND)?;
        let reports = report(&rt, alloc, system, horizon, workers, &Open)?;
        are(&rt, &reports, &threads, &cores);
    }
    Ok(())
}

/// The first thread computes for a tick and signals for one. The last one runs for a tick until it
/// waits, and for another one when it is woken.
#[test]
fn cores_in_step_and_in_windows_have_the_same_reports(rt: HostRuntime) -> Result<(), Fail> {
    let alloc = rt.alloc();
    let horizon = moment(20)?;
    let (busy, idle) = (core(2, 18), core(0, 20));
    let cores = [busy, idle, idle, idle, idle, idle, idle, busy];
    for text in [EIGHT_CLOSE, EIGHT_APART] {
        for workers in [0usize, 1, 2, 64] {
            let system = system(alloc, text)?;
            let reports = report(&rt, alloc, system, horizon, workers, &Open)?;
            are(&rt, &reports, &[ran(2, 2), ran(2, 1)], &cores);
        }
    }
    Ok(())
}

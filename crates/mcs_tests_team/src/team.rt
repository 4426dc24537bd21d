//! Teams of all sizes, and workers at work at once.

use super::systems::{DEPLETES, FAR_APART, LONG_DELAY, SIGNALS, TWO_MAKERS, moment, system};
use mcs_team::{Gate, Open, Whole, report, simulate, simulate_alone};
use mcs_ticks::{CoreId, Tick};
use std::alloc::Global;
use std::process::Abort;
use std::sync::Wait;
use std::sync::atomic::{AtomicU64, Ordering};
use std::test::Fail;
use std::thread;
use std::thread::Threads;

/// Whether two runs gave the same rows.
fn are_same(one: &Whole, other: &Whole) -> bool {
    one.rows.as_slice() == other.rows.as_slice()
}

#[test]
fn teams_of_all_sizes_give_what_one_thread_gives(rt: HostRuntime) -> Result<(), Fail> {
    let alloc = rt.alloc();
    let horizon = moment(20)?;
    for text in [SIGNALS, TWO_MAKERS] {
        let alone = simulate_alone(alloc, system(alloc, text)?, horizon)?;
        assert!(rt; alone.rows.len() > 10);
        for workers in [0, 1, 2, 64] {
            let system = system(alloc, text)?;
            let whole = simulate(&rt, alloc, system, horizon, workers, &Open)?;
            assert!(rt; are_same(&whole, &alone), "{workers} workers");
        }
    }
    Ok(())
}

/// Holds the first pieces of cores 0 and 1 until both have begun, and counts those that waited in
/// vain.
#[derive(Drop)]
struct Both {
    begun: AtomicU64,
    alone: AtomicU64,
}

impl Gate for Both {
    fn before(&self, core: CoreId, first: Tick) {
        if first.get() != 0 || core.0 > 1 {
            return;
        }
        self.begun.fetch_add(1, Ordering::SeqCst);
        for _ in 0..10_000_000u64 {
            if self.begun.load(Ordering::SeqCst) >= 2 {
                return;
            }
            thread::yield_now();
        }
        self.alone.store(1, Ordering::SeqCst);
    }

    fn after(&self, _core: CoreId, _past: Tick) {}

    fn reached(&self, _moment: Tick) {}
}

/// A run that lends one piece at a time, or that holds the lock while a piece runs, ends with a
/// piece that waited alone.
#[test]
fn two_pieces_run_at_once(rt: HostRuntime) -> Result<(), Fail> {
    let alloc = rt.alloc();
    let horizon = moment(7)?;
    let gate = Both {
        begun: AtomicU64::new(0),
        alone: AtomicU64::new(0),
    };
    let system = system(alloc, SIGNALS)?;
    let whole = simulate(&rt, alloc, system, horizon, 2, &gate)?;
    assert_eq!(rt; whole.rows.len(), 13);
    assert_eq!(rt; gate.begun.load(Ordering::SeqCst), 2);
    assert_eq!(rt;
        gate.alone.load(Ordering::SeqCst),
        0,
        "or no memory for a thread"
    );
    Ok(())
}

/// Counts the pieces before and after they are run.
#[derive(Drop)]
struct Counts {
    before: AtomicU64,
    after: AtomicU64,
}

impl Gate for Counts {
    fn before(&self, _core: CoreId, _first: Tick) {
        self.before.fetch_add(1, Ordering::SeqCst);
    }

    fn after(&self, _core: CoreId, _past: Tick) {
        self.after.fetch_add(1, Ordering::SeqCst);
    }

    fn reached(&self, _moment: Tick) {}
}

fn zero_counts() -> Counts {
    Counts {
        before: AtomicU64::new(0),
        after: AtomicU64::new(0),
    }
}

/// The numbers of pieces that were begun and ended.
fn counted(gate: &Counts) -> (u64, u64) {
    (
        gate.before.load(Ordering::SeqCst),
        gate.after.load(Ordering::SeqCst),
    )
}

#[test]
fn two_workers_run_pieces_and_one_runs_none(rt: HostRuntime) -> Result<(), Fail> {
    let alloc = rt.alloc();
    let horizon = moment(20)?;
    for (workers, some) in [(2, true), (1, false)] {
        let gate = zero_counts();
        let system = system(alloc, TWO_MAKERS)?;
        simulate(&rt, alloc, system, horizon, workers, &gate)?;
        let (begun, ended) = counted(&gate);
        assert_eq!(rt; begun > 0, some, "{workers} workers");
        assert_eq!(rt; begun, ended, "{workers} workers");
    }
    Ok(())
}

/// Each piece has a few rows. After 1,024 of them the team ends, and the caller's thread takes the
/// turns that are left.
#[test]
fn a_team_with_short_pieces_ends(rt: HostRuntime) -> Result<(), Fail> {
    let alloc = rt.alloc();
    let horizon = moment(10_000)?;
    let alone = simulate_alone(alloc, system(alloc, TWO_MAKERS)?, horizon)?;
    for workers in [2, 64] {
        let gate = zero_counts();
        let system = system(alloc, TWO_MAKERS)?;
        let whole = simulate(&rt, alloc, system, horizon, workers, &gate)?;
        assert!(rt; are_same(&whole, &alone), "{workers} workers");
        assert_eq!(rt; counted(&gate), (1024, 1024), "{workers} workers");
    }
    Ok(())
}

/// The team ends as early if only reports are wanted, and the caller's thread adds to the counts of
/// the other threads.
#[test]
fn a_team_that_only_counts_ends_too(rt: HostRuntime) -> Result<(), Fail> {
    let alloc = rt.alloc();
    let horizon = moment(10_000)?;
    let alone = simulate_alone(alloc, system(alloc, TWO_MAKERS)?, horizon)?;
    for workers in [2, 64] {
        let gate = zero_counts();
        let system = system(alloc, TWO_MAKERS)?;
        let reports = report(&rt, alloc, system, horizon, workers, &gate)?;
        let threads = reports.threads.as_slice();
        let cores = reports.cores.as_slice();
        assert!(rt;
            threads == alone.reports.threads.as_slice(),
            "{workers} workers"
        );
        assert!(rt;
            cores == alone.reports.cores.as_slice(),
            "{workers} workers"
        );
        assert_eq!(rt; counted(&gate), (1024, 1024), "{workers} workers");
    }
    Ok(())
}

/// Each piece is of 60 moments or more, and a core has 7 rows each 3 moments: those of its turns,
/// an arrival and a held word. Each piece therefore has 140 rows.
#[test]
fn a_team_with_long_pieces_goes_on(rt: HostRuntime) -> Result<(), Fail> {
    let alloc = rt.alloc();
    let horizon = moment(70_000)?;
    let alone = simulate_alone(alloc, system(alloc, LONG_DELAY)?, horizon)?;
    let gate = zero_counts();
    let system = system(alloc, LONG_DELAY)?;
    let whole = simulate(&rt, alloc, system, horizon, 2, &gate)?;
    assert!(rt; are_same(&whole, &alone));
    let (begun, ended) = counted(&gate);
    assert!(rt; begun > 1024);
    assert_eq!(rt; begun, ended);
    Ok(())
}

/// No piece is longer than 512 moments here, though the delays would allow much longer ones.
#[test]
fn pieces_are_bounded(rt: HostRuntime) -> Result<(), Fail> {
    let alloc = rt.alloc();
    let horizon = moment(5_119)?;
    let alone = simulate_alone(alloc, system(alloc, FAR_APART)?, horizon)?;
    let gate = zero_counts();
    let system = system(alloc, FAR_APART)?;
    let whole = simulate(&rt, alloc, system, horizon, 2, &gate)?;
    assert!(rt; are_same(&whole, &alone));
    let (begun, ended) = counted(&gate);
    assert!(rt; begun >= 20);
    assert_eq!(rt; begun, ended);
    Ok(())
}

/// Keeps the time reported last, and counts the reports that were earlier than the previous one.
#[derive(Drop)]
struct Far {
    last: AtomicU64,
    fell: AtomicU64,
}

impl Gate for Far {
    fn before(&self, _core: CoreId, _first: Tick) {}

    fn after(&self, _core: CoreId, _past: Tick) {}

    fn reached(&self, moment: Tick) {
        if moment.get() < self.last.load(Ordering::SeqCst) {
            self.fell.fetch_add(1, Ordering::SeqCst);
        }
        self.last.store(moment.get(), Ordering::SeqCst);
    }
}

fn nothing_told() -> Far {
    Far {
        last: AtomicU64::new(0),
        fell: AtomicU64::new(0),
    }
}

/// The time reported last, if no report was earlier than the previous one.
fn last_of(gate: &Far) -> Option<u64> {
    if gate.fell.load(Ordering::SeqCst) > 0 {
        return None;
    }
    Some(gate.last.load(Ordering::SeqCst))
}

#[test]
fn a_gate_is_told_how_far_a_run_is(rt: HostRuntime) -> Result<(), Fail> {
    let alloc = rt.alloc();
    let horizon = moment(5_000)?;
    for text in [DEPLETES, SIGNALS, TWO_MAKERS, LONG_DELAY, FAR_APART] {
        for workers in [1, 2] {
            let gate = nothing_told();
            let it = system(alloc, text)?;
            simulate(&rt, alloc, it, horizon, workers, &gate)?;
            assert_eq!(rt; last_of(&gate), Some(5_001), "{workers} workers");
            let gate = nothing_told();
            let it = system(alloc, text)?;
            report(&rt, alloc, it, horizon, workers, &gate)?;
            assert_eq!(rt; last_of(&gate), Some(5_001), "{workers} workers");
        }
    }
    Ok(())
}

//! Tallies of single cores. They are given rows of both cores and count their own.
use mcs_load::load;
use mcs_report::{CoreReport, CoreTally, Places, Reports, Tally, ThreadReport};
use mcs_system::System;
use mcs_ticks::{Collector, CoreId, Row, Sink, ThreadId, Tick, What, Why};
use std::alloc::Global;
use std::process::Abort;
use std::sync::Arc;
use std::test::Fail;

/// Threads A and C are on core 1, and B is on core 0.
const TWO_CORES: &str = r#"
version = 1
cores = 2
delay = 1
context = [{ name = "a", core = 1, budget = 5, period = 10 }, { name = "b", core = 0, budget = 5, period = 10 }, { name = "c", core = 1, budget = 5, period = 10 }]
thread = [{ name = "A", context = "a", priority = 5, script = ["yield"] }, { name = "B", context = "b", priority = 5, script = ["yield"] }, { name = "C", context = "c", priority = 4, deadline = 2, script = ["yield"] }]
"#;

fn tick(ticks: u64) -> Result<Tick, Fail> {
    Ok(Tick::new(ticks).ok_or("a tick")?)
}

fn row(moment: u64, core: usize, what: What) -> Result<Row, Fail> {
    Ok(Row {
        moment: tick(moment)?,
        core: CoreId(core),
        what,
    })
}

fn run(thread: usize) -> What {
    What::Run {
        thread: ThreadId(thread),
    }
}

fn round(thread: usize, response: u64) -> What {
    What::Round {
        thread: ThreadId(thread),
        number: 1,
        response,
    }
}

/// B runs to the end. A runs for two ticks and then waits until time 5. C runs from then on, and
/// its job takes longer than its deadline. There is no thread 7.
fn rows(alloc: Global) -> Result<Vec<Row>, Fail> {
    let stop = What::Stop {
        thread: ThreadId(0),
        why: Why::Spent,
        charged: 2,
        until: Some(tick(5)?),
    };
    let mut rows = Vec::new(alloc);
    rows.push(row(0, 0, run(1))?)?;
    rows.push(row(0, 1, run(0))?)?;
    rows.push(row(2, 1, round(0, 2))?)?;
    rows.push(row(2, 1, stop)?)?;
    rows.push(row(2, 1, run(2))?)?;
    rows.push(row(3, 1, round(2, 3))?)?;
    rows.push(row(3, 1, round(7, 3))?)?;
    Ok(rows)
}

/// Returns the reports up to time 6. Each core counts its own part. The first tally is given the
/// rows twice, and cleared in between.
fn counted_apart(alloc: Global, system: Arc<System>) -> Result<Reports, Fail> {
    let horizon = tick(6)?;
    let room = Tally::new(alloc, &system, horizon)?;
    let places = Arc::new(alloc, Places::new(alloc, system)?)?;
    let mut first = CoreTally::new(alloc, Arc::try_clone(&places)?, CoreId(0), horizon)?;
    let mut second = CoreTally::new(alloc, Arc::try_clone(&places)?, CoreId(1), horizon)?;
    let rows = rows(alloc)?;
    for row in &rows {
        first.add(row);
    }
    first.clear();
    for row in &rows {
        let _ = first.row(row);
        let _ = second.row(row);
    }
    let mut tallies = Vec::new(alloc);
    tallies.push(first)?;
    tallies.push(second)?;
    Ok(room.together(&places, tallies.as_slice()))
}

/// Returns the reports up to time 6 of the tallies of all cores.
fn counted_by_all(alloc: Global, system: Arc<System>) -> Result<Reports, Fail> {
    let horizon = tick(6)?;
    let room = Tally::new(alloc, &system, horizon)?;
    let places = Arc::new(alloc, Places::new(alloc, system)?)?;
    let mut tallies = CoreTally::of_all_cores(alloc, &places, horizon)?;
    let rows = rows(alloc)?;
    for tally in &mut tallies {
        for row in &rows {
            tally.add(row);
        }
    }
    Ok(room.together(&places, tallies.as_slice()))
}

const NEVER_RAN: ThreadReport = ThreadReport {
    ran: 0,
    rounds: 0,
    least: 0,
    greatest: 0,
    total: 0,
    late: 0,
    spent: 0,
    throttled: 0,
    longest: 0,
};

#[test]
fn cores_count_by_themselves(rt: HostRuntime) -> Result<(), Fail> {
    let alloc = rt.alloc();
    let system = Arc::new(alloc, load(alloc, TWO_CORES.as_bytes())?)?;
    let reports = counted_apart(alloc, system)?;
    let threads = reports.threads.as_slice();
    let of_a = ThreadReport {
        ran: 2,
        rounds: 1,
        least: 2,
        greatest: 2,
        total: 2,
        spent: 1,
        throttled: 3,
        longest: 3,
        ..NEVER_RAN
    };
    let of_b = ThreadReport {
        ran: 6,
        ..NEVER_RAN
    };
    let of_c = ThreadReport {
        ran: 4,
        rounds: 1,
        least: 3,
        greatest: 3,
        total: 3,
        late: 1,
        ..NEVER_RAN
    };
    assert!(&rt; threads == [of_a, of_b, of_c].as_slice());
    let whole = CoreReport { busy: 6, idle: 0 };
    assert!(&rt; reports.cores.as_slice() == [whole, whole].as_slice());
    Ok(())
}

/// From time 0 on a thread can run on each core, as above.
#[test]
fn all_cores_have_a_tally(rt: HostRuntime) -> Result<(), Fail> {
    let alloc = rt.alloc();
    let system = Arc::new(alloc, load(alloc, TWO_CORES.as_bytes())?)?;
    let reports = counted_by_all(alloc, system)?;
    let whole = CoreReport { busy: 6, idle: 0 };
    assert!(&rt; reports.cores.as_slice() == [whole, whole].as_slice());
    Ok(())
}

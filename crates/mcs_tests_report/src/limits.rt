//! Reports at the limits of deadlines and sums.
use mcs_load::load;
use mcs_report::{CoreReport, Reports, Tally, ThreadReport};
use mcs_system::System;
use mcs_ticks::{CoreId, Row, ThreadId, Tick, What};
use std::alloc::Global;
use std::process::Abort;
use std::test::Fail;

const WITH_A_DEADLINE: &str = r#"
version = 1
cores = 1
delay = 1
context = [{ name = "a", core = 0, budget = 1, period = 2 }]
thread = [{ name = "A", context = "a", priority = 5, deadline = 9, script = ["yield"] }]
"#;

const WITHOUT: &str = r#"
version = 1
cores = 1
delay = 1
context = [{ name = "a", core = 0, budget = 1, period = 2 }]
thread = [{ name = "A", context = "a", priority = 5, script = ["yield"] }]
"#;

fn tick(ticks: u64) -> Result<Tick, Fail> {
    Ok(Tick::new(ticks).ok_or("a tick")?)
}

/// Returns the reports up to time 2 for ends of jobs with these response times.
fn reports(alloc: Global, system: &System, responses: &[u64]) -> Result<Reports, Fail> {
    let mut tally = Tally::new(alloc, system, tick(2)?)?;
    for response in responses {
        tally.add(&Row {
            moment: tick(1)?,
            core: CoreId(0),
            what: What::Round {
                thread: ThreadId(0),
                number: 1,
                response: *response,
            },
        });
    }
    Ok(tally.finish())
}

fn is_reported(rt: &impl Abort, alloc: Global, text: &str, late: u64) -> Result<(), Fail> {
    let system = load(alloc, text.as_bytes())?;
    let reports = reports(alloc, &system, &[9, u64::MAX])?;
    let wanted = ThreadReport {
        ran: 0,
        rounds: 2,
        least: 9,
        greatest: u64::MAX,
        total: u64::MAX,
        late,
        spent: 0,
        throttled: 0,
        longest: 0,
    };
    assert!(rt; reports.threads.as_slice() == [wanted].as_slice());
    assert!(rt; reports.cores.as_slice() == [CoreReport { busy: 0, idle: 2 }].as_slice());
    Ok(())
}

/// A response at the deadline is in time, no response is late without a deadline, and sums stop at
/// the maximum.
#[test]
fn deadlines_and_sums_at_their_limits(rt: HostRuntime) -> Result<(), Fail> {
    is_reported(&rt, rt.alloc(), WITH_A_DEADLINE, 1)?;
    is_reported(&rt, rt.alloc(), WITHOUT, 0)
}

//! The answers of chains for all time.
use crate::systems::chains;
use mcs_ever_chain::ChainTold;
use mcs_ever_told::Often;
use std::str;
use std::test::Fail;

/// The source interrupts at 40, 60, 80 and so on. The driver computes for 2 ticks and signals for
/// one, the signal is under way for 3, and the filter computes for 5.
const PIPELINE: &str = r#"
version = 3
cores = 2
delay = 3
context = [{ name = "driver", core = 0, budget = 10, period = 20 }, { name = "filter", core = 1, budget = 12, period = 20 }]
note = [{ name = "irq", core = 0 }, { name = "data", core = 1 }]
source = [{ name = "nic", note = "irq", badge = 1, period = 20, start = 40 }]
thread = [
    { name = "Driver", context = "driver", priority = 50, script = ["wait irq", "compute 2", "signal data 1"] },
    { name = "Filter", context = "filter", priority = 50, script = ["wait data", "compute 5"] },
]
chain = [
    { name = "packet", source = "nic", thread = "Filter", deadline = 11 },
    { name = "late", source = "nic", thread = "Filter", deadline = 10 },
    { name = "driver", source = "nic", thread = "Driver" },
]
"#;

/// The handler takes badge 1 alone, and the source of badge 2 shares its notification.
const DROPPED: &str = r#"
version = 3
cores = 1
delay = 1
context = [{ name = "a", core = 0, budget = 10, period = 10 }]
note = [{ name = "irq", core = 0 }]
source = [
    { name = "one", note = "irq", badge = 1, period = 10 },
    { name = "two", note = "irq", badge = 2, period = 10 },
]
thread = [{ name = "Handler", context = "a", priority = 9, script = ["wait irq", "on 1", "compute 2"] }]
chain = [
    { name = "first", source = "one", thread = "Handler", deadline = 5 },
    { name = "second", source = "two", thread = "Handler", deadline = 5 },
]
"#;

/// The handler starts at 45. It then takes the interrupts of 0, 10, 20, 30 and 40 in one round.
const MERGED: &str = r#"
version = 3
cores = 1
delay = 1
context = [{ name = "a", core = 0, budget = 10, period = 10 }]
note = [{ name = "irq", core = 0 }]
source = [{ name = "timer", note = "irq", badge = 1, period = 10 }]
thread = [{ name = "Handler", context = "a", priority = 9, start = 45, script = ["wait irq", "compute 2"] }]
chain = [{ name = "all", source = "timer", thread = "Handler", deadline = 20 }]
"#;

/// The source stops after 1000 interrupts, so nothing recurs before.
const COUNTED: &str = r#"
version = 3
cores = 1
delay = 1
context = [{ name = "a", core = 0, budget = 10, period = 10 }]
note = [{ name = "irq", core = 0 }]
source = [{ name = "timer", note = "irq", badge = 1, period = 10, count = 1000 }]
thread = [{ name = "Handler", context = "a", priority = 9, script = ["wait irq", "compute 2"] }]
chain = [{ name = "all", source = "timer", thread = "Handler", deadline = 5 }]
"#;

/// The source stops after 3 interrupts, and then nothing happens any more.
const RESTING: &str = r#"
version = 3
cores = 1
delay = 1
context = [{ name = "a", core = 0, budget = 10, period = 10 }]
note = [{ name = "irq", core = 0 }]
source = [{ name = "timer", note = "irq", badge = 1, period = 10, count = 3 }]
thread = [{ name = "Handler", context = "a", priority = 9, script = ["wait irq", "compute 2"] }]
chain = [{ name = "all", source = "timer", thread = "Handler", deadline = 5 }]
"#;

/// The period of a chain; 0 if none was found.
fn ticks(told: &ChainTold) -> u64 {
    match told.period {
        Some(period) => period.ticks,
        None => 0,
    }
}

/// How many times in each period; `None` if no recurrence was found.
fn each(often: &Often) -> Option<u64> {
    match *often {
        Often::Forever { each_period, .. } => Some(each_period),
        Often::SoFar { .. } => None,
    }
}

fn before(often: &Often) -> Option<u64> {
    match *often {
        Often::Forever { before, .. } => Some(before),
        Often::SoFar { .. } => None,
    }
}

/// The interrupt of 40 has its answer at 51, and so on each 20 ticks: in time for a deadline of 11,
/// and late for one of 10.
#[test]
fn a_pipeline_answers_once_in_each_period(rt: HostRuntime) -> Result<(), Fail> {
    let all = chains(rt.alloc(), PIPELINE, 10_000)?;
    assert_eq!(rt; all.len(), 3);
    let times = ticks(&all[0]) / 20;
    assert!(rt; times != 0 && ticks(&all[0]) % 20 == 0);
    assert!(rt; all[0].greatest == Some(11));
    assert!(rt; each(&all[0].answers) == Some(times));
    assert!(rt;
        all[0].slow
            == Often::Forever {
                before: 0,
                each_period: 0
            }
    );
    assert!(rt; all[0].unanswered == None);
    assert!(rt; all[1].greatest == Some(11));
    assert!(rt; all[1].answers == all[0].answers);
    assert!(rt; all[1].slow == all[1].answers);
    assert!(rt; all[2].greatest == Some(3));
    assert!(rt; each(&all[2].answers) == Some(ticks(&all[2]) / 20));
    assert!(rt; all[2].unanswered == None);
    Ok(())
}

/// The first interrupt of the first source finds a handler that has not begun to wait, and has its
/// answer after 3 ticks, later ones after 2. The second source leaves the handler nothing to do,
/// and no interrupt of it ever has an answer.
#[test]
fn an_interrupt_that_nobody_handles_is_never_answered(rt: HostRuntime) -> Result<(), Fail> {
    let all = chains(rt.alloc(), DROPPED, 10_000)?;
    assert_eq!(rt; all.len(), 2);
    let times = ticks(&all[1]) / 10;
    assert!(rt; times != 0);
    assert!(rt; all[0].greatest == Some(3));
    assert!(rt; all[0].unanswered == None);
    assert!(rt; all[1].greatest == None);
    assert!(rt;
        all[1].answers
            == Often::Forever {
                before: 0,
                each_period: 0
            }
    );
    let left = all[1].unanswered.ok_or("interrupts without an answer")?;
    assert!(rt; each(&left) == Some(times));
    Ok(())
}

/// The handler waits for a tick and computes for two. The round ends at 48, and answers five
/// interrupts, the first one after 48 ticks: later than its deadline. Later interrupts have their
/// answer after 2 ticks.
#[test]
fn what_was_late_before_the_first_period(rt: HostRuntime) -> Result<(), Fail> {
    let all = chains(rt.alloc(), MERGED, 10_000)?;
    assert_eq!(rt; all.len(), 1);
    assert!(rt; ticks(&all[0]) != 0);
    assert!(rt; all[0].greatest == Some(48));
    assert!(rt; each(&all[0].answers) == Some(ticks(&all[0]) / 10));
    assert!(rt;
        all[0].slow
            == Often::Forever {
                before: 1,
                each_period: 0
            }
    );
    let left = all[0]
        .unanswered
        .ok_or("an interrupt that waited for too long")?;
    assert!(rt; each(&left) == Some(0));
    let from = all[0].period.ok_or("a period")?.from.get();
    assert!(rt; from >= 45);
    // all interrupts before that moment are answered, but for the one just before
    let answers = before(&all[0].answers).ok_or("a count")?;
    let open = before(&left).ok_or("a count")?;
    assert!(rt; answers.saturating_add(open) == (from + 9) / 10);
    Ok(())
}

/// Ten interrupts up to 95. The first has its answer after 3 ticks. The one of 90 has none at 91,
/// but its deadline has not passed.
#[test]
fn a_chain_without_a_repetition_is_told_so_far(rt: HostRuntime) -> Result<(), Fail> {
    let all = chains(rt.alloc(), COUNTED, 95)?;
    assert_eq!(rt; all.len(), 1);
    assert!(rt; ticks(&all[0]) == 0);
    assert!(rt; all[0].greatest == Some(3));
    assert!(rt; all[0].answers == Often::SoFar { times: 10 });
    assert!(rt; all[0].slow == Often::SoFar { times: 0 });
    assert!(rt; all[0].unanswered == None);
    let all = chains(rt.alloc(), COUNTED, 91)?;
    assert_eq!(rt; all.len(), 1);
    assert!(rt; all[0].answers == Often::SoFar { times: 9 });
    assert!(rt; all[0].unanswered == None);
    Ok(())
}

/// The interrupt of 20 has its answer at 22, and no other one comes.
#[test]
fn a_chain_at_rest_is_told_for_ever(rt: HostRuntime) -> Result<(), Fail> {
    let all = chains(rt.alloc(), RESTING, 10_000)?;
    assert_eq!(rt; all.len(), 1);
    let period = all[0].period.ok_or("a period")?;
    assert!(rt; period.from.get() > 20 && period.from.get() < 100);
    assert!(rt; all[0].greatest == Some(3));
    assert!(rt; each(&all[0].answers) == Some(0));
    assert!(rt;
        all[0].slow
            == Often::Forever {
                before: 0,
                each_period: 0
            }
    );
    assert!(rt; all[0].unanswered == None);
    Ok(())
}

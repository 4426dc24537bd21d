ghost use Rattle.std.specs.Prelude.{◌≡◌, ◌≤◌, ◌^◌};

use mcs_load::load;
use mcs_system::System;
use mcs_ticks::{CoreId, NoteId, Row, Sink, ThreadId, Tick, What};
use mcs_verdict::{Finder, Finding, Found, Stood, Watch, find_all, find_unended};
use std::alloc::Global;
use std::process::Abort;
use std::test::Fail;

/// A thread with a deadline of 3 ticks, whose round follows on the one before.
const COMPUTES: &str = r#"
version = 1
cores = 1
delay = 1
context = [{ name = "a", core = 0, budget = 10, period = 10 }]
thread = [{ name = "A", context = "a", priority = 6, deadline = 3, script = ["compute 1"] }]
"#;

fn row(moment: u64, what: What) -> Row
    requires { moment ≤ 2 ^ 42 }
    ensures { result.moment ≡ moment }
{
    Row {
        moment: Tick::new(moment).unwrap(),
        core: CoreId(0),
        what,
    }
}

fn run() -> What {
    What::Run {
        thread: ThreadId(0),
    }
}

fn round(number: u64, response: u64) -> What {
    What::Round {
        thread: ThreadId(0),
        number,
        response,
    }
}

fn stood(running: u64) -> Stood {
    Stood {
        pending: 0,
        ready: 0,
        running,
        throttled: 0,
        blocked: 0,
        server: 0,
        done: 0,
    }
}

/// The first round is in time. The second one begins at 1, ends at 5, and took 4 ticks.
fn miss() -> Found {
    Found {
        moment: Tick::new(5).unwrap(),
        core: CoreId(0),
        finding: Finding::Miss {
            thread: ThreadId(0),
            number: 2,
            response: 4,
            deadline: 3,
            activated: Tick::new(1).unwrap(),
            queued: 0,
            stood: stood(4),
        },
    }
}

/// The third round begins at 5 and has not ended at the horizon, which is 4 ticks later.
fn overdue() -> Found {
    Found {
        moment: Tick::new(9).unwrap(),
        core: CoreId(0),
        finding: Finding::Overdue {
            thread: ThreadId(0),
            number: 3,
            age: 4,
            deadline: 3,
            activated: Tick::new(5).unwrap(),
            queued: 0,
            stood: stood(4),
        },
    }
}

fn all_are_found(rt: &impl Abort, alloc: Global, system: &System) -> Result<(), Fail> {
    let rows = [row(0, run()), row(1, round(1, 1)), row(5, round(2, 4))];
    let found = find_all(alloc, system, Tick::new(9).unwrap(), rows.as_slice())?;
    assert!(rt; found.as_slice() == [miss(), overdue()].as_slice());
    Ok(())
}

#[test]
fn a_run_has_its_findings_and_those_at_the_horizon(rt: HostRuntime) -> Result<(), Fail> {
    let system = load(rt.alloc(), COMPUTES.as_bytes())?;
    all_are_found(&rt, rt.alloc(), &system)
}

fn each_row_is_seen(rt: &impl Abort, alloc: Global, system: &System) -> Result<(), Fail> {
    let mut finder = Finder::new(alloc, system)?;
    assert!(rt; finder.row(&row(0, run())).is_ok());
    assert!(rt; finder.row(&row(1, round(1, 1))).is_ok());
    assert!(rt; finder.row(&row(5, round(2, 4))).is_ok());
    assert!(rt; finder.found.as_slice() == [miss()].as_slice());
    let found = find_unended(alloc, system, &finder.watch, Tick::new(9).unwrap())?;
    assert!(rt; found.as_slice() == [overdue()].as_slice());
    Ok(())
}

#[test]
fn a_finder_keeps_what_its_rows_show(rt: HostRuntime) -> Result<(), Fail> {
    let system = load(rt.alloc(), COMPUTES.as_bytes())?;
    each_row_is_seen(&rt, rt.alloc(), &system)
}

/// A thread on core 1 that waits for a word with a deadline of 3 ticks, and starts at 20. The
/// notification is the second one of the file, and holds the word 4 at first.
const SLEEPS: &str = r#"
version = 3
cores = 2
delay = 1
call = 1
context = [{ name = "a", core = 1, budget = 10, period = 10 }]
note = [{ name = "other", core = 0 }, { name = "n", core = 1, word = 4 }]
thread = [{ name = "A", context = "a", priority = 6, start = 20, deadline = 3, script = ["wait n", "compute 1"] }]
"#;

fn unended(alloc: Global, system: &System, horizon: u64) -> Result<Vec<Found>, Fail>
    requires { horizon ≤ 2 ^ 42 }
{
    let watch = Watch::new(alloc, system)?;
    Ok(find_unended(alloc, system, &watch, Tick::new(horizon).unwrap())?)
}

/// At the horizon the thread comes first, and then the word, on the core of its notification.
fn at_the_horizon() -> [Found; 2] {
    let moment = Tick::new(3).unwrap();
    let core = CoreId(1);
    let never = Finding::Never {
        thread: ThreadId(0),
        deadline: 3,
    };
    let untaken = Finding::Untaken {
        note: NoteId(1),
        word: 4,
        age: 3,
        deadline: 3,
        set: Tick::ZERO,
    };
    [
        Found {
            moment,
            core,
            finding: never,
        },
        Found {
            moment,
            core,
            finding: untaken,
        },
    ]
}

#[test]
fn a_word_is_untaken_when_its_deadline_has_passed(rt: HostRuntime) -> Result<(), Fail> {
    let system = load(rt.alloc(), SLEEPS.as_bytes())?;
    let early = unended(rt.alloc(), &system, 2)?;
    assert_eq!(rt; early.len(), 1);
    let late = unended(rt.alloc(), &system, 3)?;
    assert!(rt; late.as_slice() == at_the_horizon().as_slice());
    Ok(())
}

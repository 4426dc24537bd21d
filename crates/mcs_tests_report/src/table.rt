//! Tables of figures.
ghost use Rattle.std.specs.Prelude.{◌≡◌, ◌≤◌, ◌^◌, length};

use mcs_load::load;
use mcs_system::System;
use mcs_table::{Figures, Margin, Rounds, Share, Signals, Table, tabulate};
use mcs_ticks::{ContextId, CoreId, NoteId, Row, ThreadId, Tick, What};
use mcs_verdict::{Stood, Watch};
use std::alloc::Global;
use std::process::Abort;
use std::test::Fail;

/// The second thread waits first, for a word that the first one sets.
const WAITS: &str = r#"
version = 1
cores = 1
delay = 1
context = [{ name = "a", core = 0, budget = 3, period = 10 }, { name = "b", core = 0, budget = 20, period = 20 }]
note = [{ name = "n", core = 0 }]
thread = [
  { name = "A", context = "a", priority = 6, script = ["signal n 1", "compute 1"] },
  { name = "B", context = "b", priority = 5, deadline = 14, script = ["wait n", "compute 12"] },
]
"#;

/// Both threads compute, and an order names the context of the first one.
const COMPUTES: &str = r#"
version = 1
cores = 1
delay = 1
context = [{ name = "a", core = 0, budget = 3, period = 10 }, { name = "b", core = 0, budget = 20, period = 20 }]
thread = [
  { name = "A", context = "a", priority = 6, deadline = 3, script = ["compute 1"] },
  { name = "B", context = "b", priority = 5, script = ["compute 1"] },
]
order = [{ at = 30, core = 0, context = "a", budget = 4, period = 10 }]
"#;

fn row(moment: u64, what: What) -> Row
    requires { moment ≤ 2 ^ 42 }
    ensures { result.moment ≡ moment }
{
    Row {
        moment: Tick::new(moment).unwrap(),
        core: CoreId(0),
        what,
    }
}

fn run(thread: usize) -> What {
    What::Run {
        thread: ThreadId(thread),
    }
}

fn hold(word: u32) -> What {
    What::Hold {
        note: NoteId(0),
        word,
    }
}

fn round(thread: usize, number: u64, response: u64) -> What {
    What::Round {
        thread: ThreadId(thread),
        number,
        response,
    }
}

fn is_told(
    rt: &impl Abort,
    system: &System,
    watch: &Watch,
    table: &Table,
    thread: usize,
    wanted: &Figures,
)
    requires watched { length watch.now.accounts ≡ length system.now.threads }
    requires kept { length table.now.accounts ≡ length system.now.threads }
{
    assert!(rt; thread < system.parts().threads.len());
    assert!(rt; table.figures(system, watch, ThreadId(thread)) == *wanted);
}

fn is_unused(
    rt: &impl Abort,
    system: &System,
    watch: &Watch,
    table: &Table,
    context: usize,
    wanted: Option<u64>,
)
    requires watched { length watch.now.accounts ≡ length system.now.threads }
{
    assert!(rt; context < system.parts().contexts.len());
    assert!(rt; table.unused(system, watch, ContextId(context)) == wanted);
}

fn stood(pending: u64, running: u64) -> Stood {
    Stood {
        pending,
        ready: 0,
        running,
        throttled: 0,
        blocked: 0,
        server: 0,
        done: 0,
    }
}

/// The round is activated when the word is set, at 1, begins at 4, and ends at 16. Its row counts
/// from 4. The thread runs from 1 on.
fn rounds_of_waits() -> Figures {
    Figures {
        core: CoreId(0),
        priority: 5,
        share: Share {
            budget: 20,
            period: 20,
            granted: 1_000_000,
            used: 950_000,
        },
        rounds: Rounds {
            ended: 1,
            greatest: Some(15),
            fiftieth: Some(15),
            ninetieth: Some(15),
            ninety_ninth: Some(15),
            missed: 1,
            late: 0,
        },
        deadline: 14,
        margin: Some(Margin::Over(1)),
        signals: Some(Signals { lost: 1, merged: 1 }),
        stood: stood(1, 19),
    }
}

fn waits_are_told(rt: &impl Abort, alloc: Global, system: &System) -> Result<(), Fail> {
    let got = What::Got {
        thread: ThreadId(1),
        note: NoteId(0),
        word: 3,
    };
    let rows = [
        row(1, hold(1)),
        row(1, run(1)),
        row(2, hold(1)),
        row(3, hold(3)),
        row(4, got),
        row(16, round(1, 1, 12)),
    ];
    let (watch, table) = tabulate(alloc, system, Tick::new(20).unwrap(), rows.as_slice())?;
    is_told(rt, system, &watch, &table, 1, &rounds_of_waits());
    // it ran 19 of 20 ticks, and the first thread ran in no tick; its maximum is 6
    is_unused(rt, system, &watch, &table, 0, Some(6));
    is_unused(rt, system, &watch, &table, 1, Some(1));
    Ok(())
}

#[test]
fn a_round_that_waits_in_line(rt: HostRuntime) -> Result<(), Fail> {
    let system = load(rt.alloc(), WAITS.as_bytes())?;
    waits_are_told(&rt, rt.alloc(), &system)
}

/// Responses of 1, 4 and 2 ticks: in rising order the second is the 50th percentile, and the last
/// the 90th and the 99th.
fn rounds_of_computes() -> Figures {
    Figures {
        core: CoreId(0),
        priority: 6,
        share: Share {
            budget: 3,
            period: 10,
            granted: 300_000,
            used: 1_000_000,
        },
        rounds: Rounds {
            ended: 3,
            greatest: Some(4),
            fiftieth: Some(2),
            ninetieth: Some(4),
            ninety_ninth: Some(4),
            missed: 1,
            late: 1,
        },
        deadline: 3,
        margin: Some(Margin::Over(1)),
        signals: None,
        stood: stood(0, 18),
    }
}

fn computes_are_told(rt: &impl Abort, alloc: Global, system: &System) -> Result<(), Fail> {
    let rows = [
        row(0, run(0)),
        row(1, round(0, 1, 1)),
        row(5, round(0, 2, 4)),
        row(7, round(0, 3, 2)),
    ];
    let (watch, table) = tabulate(alloc, system, Tick::new(18).unwrap(), rows.as_slice())?;
    is_told(rt, system, &watch, &table, 0, &rounds_of_computes());
    // an order names the first context, and the second one let no thread run
    is_unused(rt, system, &watch, &table, 0, None);
    is_unused(rt, system, &watch, &table, 1, Some(18));
    Ok(())
}

#[test]
fn rounds_of_one_thread(rt: HostRuntime) -> Result<(), Fail> {
    let system = load(rt.alloc(), COMPUTES.as_bytes())?;
    computes_are_told(&rt, rt.alloc(), &system)
}

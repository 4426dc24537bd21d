//! Chains that are watched and tallied.
use mcs_chain::{Answer, ChainId, Figures, Finding, Found, Tallies, Watch};
use mcs_load::load;
use mcs_system::System;
use mcs_table::Margin;
use mcs_ticks::{CoreId, NoteId, Row, SourceId, ThreadId, Tick, What};
use std::alloc::Global;
use std::process::Abort;
use std::test::Fail;

/// An interrupt at 3 wakes D, whose signal reaches the other core at 8; there C ends its round at
/// 12.
const TWO_CORES: &str = r#"
version = 3
cores = 2
delay = 2
context = [{ name = "d", core = 0, budget = 5, period = 20 }, { name = "c", core = 1, budget = 9, period = 20 }]
note = [{ name = "n", core = 0 }, { name = "p", core = 1 }]
thread = [
  { name = "D", context = "d", priority = 5, script = ["wait n", "compute 2", "signal p 1"] },
  { name = "C", context = "c", priority = 5, script = ["wait p", "compute 4"] },
]
source = [{ name = "s", note = "n", badge = 1, period = 20, start = 3 }]
chain = [{ name = "e", source = "s", thread = "C", deadline = 8 }]
"#;

fn row(moment: Tick, core: usize, what: What) -> Row {
    Row {
        moment,
        core: CoreId(core),
        what,
    }
}

fn interrupt() -> What {
    What::Interrupt {
        source: SourceId(0),
        note: NoteId(0),
        badge: 1,
    }
}

fn wake(number: usize) -> What {
    What::Wake {
        thread: ThreadId(number),
        note: NoteId(number),
        word: 1,
        until: None,
    }
}

fn signal() -> What {
    What::Signal {
        thread: ThreadId(0),
        note: NoteId(1),
        badge: 1,
    }
}

fn arrive() -> What {
    What::Arrive {
        note: NoteId(1),
        badge: 1,
        maker: CoreId(0),
    }
}

fn round(thread: usize) -> What {
    What::Round {
        thread: ThreadId(thread),
        number: 1,
        response: 4,
    }
}

fn figures() -> Figures {
    Figures {
        interrupts: 1,
        answers: 1,
        least: Some(9),
        greatest: Some(9),
        total: 9,
        fiftieth: Some(9),
        ninetieth: Some(9),
        ninety_ninth: Some(9),
        deadline: 8,
        margin: Some(Margin::Over(1)),
    }
}

/// The answer is found late, counted and told.
fn is_read(rt: &impl Abort, alloc: Global, system: &System, rows: &[Row]) -> Result<(), Fail> {
    let mut watch = Watch::new(alloc, system)?;
    let mut tallies = Tallies::new(alloc, system, Tick::at(20))?;
    let mut answers = Vec::new(alloc);
    for row in rows {
        watch.see(alloc, system, row)?;
        tallies.see(system, &watch, row);
        let own = watch.answers(alloc, system, row)?;
        answers.extend_from_slice(own.as_slice())?;
    }
    let answer = Answer {
        moment: Tick::at(12),
        core: CoreId(1),
        chain: ChainId(0),
        thread: ThreadId(1),
        number: 1,
        origin: Tick::at(3),
        latency: 9,
        deadline: 8,
    };
    assert!(rt; answers.as_slice() == [answer].as_slice());
    let slow = Found {
        moment: Tick::at(12),
        core: CoreId(1),
        chain: ChainId(0),
        finding: Finding::Slow {
            latency: 9,
            deadline: 8,
            origin: Tick::at(3),
        },
    };
    assert!(rt; watch.has_late());
    assert!(rt; watch.due(alloc, None)?.as_slice() == [slow].as_slice());
    assert!(rt; watch.due(alloc, Some(Tick::at(12)))?.is_empty());
    assert!(rt; watch.slow() == 1);
    assert!(rt; watch.unanswered(alloc, system, Tick::at(20))?.is_empty());
    assert!(rt; tallies.figures(alloc, system)?.as_slice() == [figures()].as_slice());
    Ok(())
}

#[test]
fn an_interrupt_is_answered_on_the_other_core(rt: HostRuntime) -> Result<(), Fail> {
    let system = load(rt.alloc(), TWO_CORES.as_bytes())?;
    let rows = [
        row(Tick::at(3), 0, interrupt()),
        row(Tick::at(3), 0, wake(0)),
        row(Tick::at(6), 0, signal()),
        row(Tick::at(6), 0, round(0)),
        row(Tick::at(8), 1, arrive()),
        row(Tick::at(8), 1, wake(1)),
        row(Tick::at(12), 1, round(1)),
    ];
    is_read(&rt, rt.alloc(), &system, &rows)
}

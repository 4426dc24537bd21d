//! Idle time, which takes no turns however long it is.
ghost use Rattle.std.specs.Prelude.{◌≡◌, ◌≤◌, ◌^◌};

use super::orders::step;
use super::systems::{moment, system};
use mcs_team::{Open, Refused, Sink, probe, schedule_alone, schedule_to, simulate_alone};
use mcs_ticks::{CoreId, NoteId, Row, ThreadId, Tick, What, Why};
use mcs_window::Cores;
use std::alloc::Global;
use std::process::Abort;
use std::test::Fail;

const LONGEST: u64 = 1_099_511_627_776;

/// One thread runs for one tick, and never again.
const ONE_TICK: &str = r#"
version = 1
cores = 1
delay = 1
context = [{ name = "a", core = 0, budget = 2, period = 5 }]
thread = [{ name = "A", context = "a", priority = 5, rounds = 1, script = ["compute 1"] }]
"#;

const A: ThreadId = ThreadId(0);

fn one_tick_rows() -> [(u64, usize, What); 4] {
    [
        (0, 0, What::Release { thread: A }),
        (0, 0, What::Run { thread: A }),
        (1, 0, ends(A, 1)),
        (1, 0, stops(A, Why::Done, 1)),
    ]
}

/// A thread waits on core 0 from 1 on; the other one, on core 1, starts 10^9 ticks later and
/// signals it.
const FAR_APART: &str = r#"
version = 1
cores = 2
delay = 1
context = [
    { name = "a", core = 0, budget = 5, period = 10 },
    { name = "b", core = 1, budget = 5, period = 10 },
]
note = [{ name = "n", core = 0 }]
thread = [
    { name = "A", context = "a", priority = 5, rounds = 1, script = ["wait n", "compute 1"] },
    { name = "B", context = "b", priority = 5, start = 1000000000, rounds = 1, script = ["compute 1", "signal n 1"] },
]
"#;

const START: u64 = 1_000_000_000;

const B: ThreadId = ThreadId(1);

const NOTE: NoteId = NoteId(0);

fn far_apart_rows() -> [(u64, usize, What); 13] {
    [
        (0, 0, What::Release { thread: A }),
        (0, 0, What::Run { thread: A }),
        (1, 0, stops(A, Why::Wait, 1)),
        (START, 1, What::Release { thread: B }),
        (START, 1, What::Run { thread: B }),
        (
            START + 2,
            1,
            What::Signal {
                thread: B,
                note: NOTE,
                badge: 1,
            },
        ),
        (START + 2, 1, ends(B, 2)),
        (START + 2, 1, stops(B, Why::Done, 2)),
        (
            START + 3,
            0,
            What::Arrive {
                note: NOTE,
                badge: 1,
                maker: CoreId(1),
            },
        ),
        (
            START + 3,
            0,
            What::Wake {
                thread: A,
                note: NOTE,
                word: 1,
                until: None,
            },
        ),
        (START + 3, 0, What::Run { thread: A }),
        (START + 4, 0, ends(A, 1)),
        (START + 4, 0, stops(A, Why::Done, 1)),
    ]
}

/// The first round of a thread ends.
fn ends(thread: ThreadId, response: u64) -> What {
    What::Round {
        thread,
        number: 1,
        response,
    }
}

/// A thread stops without a date.
fn stops(thread: ThreadId, why: Why, charged: u64) -> What {
    What::Stop {
        thread,
        why,
        charged,
        until: None,
    }
}

fn are(rt: &impl Abort, rows: &[Row], expected: &[(u64, usize, What)]) {
    assert_eq!(rt; rows.len(), expected.len());
    for (row, (moment, core, what)) in rows.iter().zip(expected) {
        assert_eq!(rt; (row.moment.get(), row.core.0), (*moment, *core));
        assert!(rt; row.what == *what);
    }
}

/// Compares the schedule of a system with rows.
fn rows_are(
    rt: &impl Abort,
    alloc: Global,
    text: &str,
    horizon: Tick,
    expected: &[(u64, usize, What)],
) -> Result<(), Fail>
    requires { horizon ≤ 2 ^ 40 }
{
    let whole = simulate_alone(alloc, system(alloc, text)?, horizon)?;
    are(rt, whole.rows.as_slice(), expected);
    Ok(())
}

#[test]
fn idle_for_ever_after_one_tick(rt: HostRuntime) -> Result<(), Fail> {
    let alloc = rt.alloc();
    let horizon = moment(LONGEST)?;
    rows_are(&rt, alloc, ONE_TICK, horizon, one_tick_rows().as_slice())?;
    let views = probe(alloc, system(alloc, ONE_TICK)?, horizon)?;
    assert_eq!(rt; views.len(), 1);
    assert_eq!(rt; views[0].using, 0);
    Ok(())
}

#[test]
fn idle_between_two_starts(rt: HostRuntime) -> Result<(), Fail> {
    let horizon = moment(2 * START)?;
    let expected = far_apart_rows();
    rows_are(&rt, rt.alloc(), FAR_APART, horizon, expected.as_slice())
}

/// A sink that keeps the rows.
#[derive(Drop)]
struct Kept {
    rows: Vec<Row>,
}

impl Sink for Kept {
    ghost takes = { λ _ _ _ _. Unit {0} };

    fn row(&mut self, row: &Row) -> Result<(), Refused> {
        let Row { moment, core, what } = *row;
        self.rows
            .push(Row { moment, core, what })
            .ok()
            .ok_or(Refused)
    }
}

#[test]
fn a_sink_gets_rows_that_are_far_apart(rt: HostRuntime) -> Result<(), Fail> {
    let alloc = rt.alloc();
    let horizon = moment(2 * START)?;
    for workers in [1usize, 2] {
        let shared = system(alloc, FAR_APART)?;
        let mut kept = Kept {
            rows: Vec::new(alloc),
        };
        schedule_to(&rt, alloc, shared, horizon, workers, &Open, &mut kept)?;
        are(&rt, kept.rows.as_slice(), far_apart_rows().as_slice());
    }
    Ok(())
}

#[test]
fn a_sink_gets_the_rows_of_this_thread_alone(rt: HostRuntime) -> Result<(), Fail> {
    let alloc = rt.alloc();
    let mut kept = Kept {
        rows: Vec::new(alloc),
    };
    schedule_alone(
        alloc,
        system(alloc, FAR_APART)?,
        moment(2 * START)?,
        &mut kept,
    )?;
    are(&rt, kept.rows.as_slice(), far_apart_rows().as_slice());
    Ok(())
}

/// The clocks of both cores.
fn clocks(cores: &Cores) -> (u64, u64)
    requires { cores.now.system.cores ≡ 2 }
{
    (cores.clock(CoreId(0)).get(), cores.clock(CoreId(1)).get())
}

#[test]
fn only_earlier_clocks_are_set(rt: HostRuntime) -> Result<(), Fail> {
    let alloc = rt.alloc();
    let horizon = moment(START + 1)?;
    let system = system(alloc, FAR_APART)?;
    assert_eq!(rt; system.parts().cores, 2);
    let mut cores = Cores::new(alloc, system, horizon)?;
    go_to_busy_moments(&rt, &mut cores)
}

fn go_to_busy_moments(rt: &impl Abort, cores: &mut Cores) -> Result<(), Fail>
    requires { cores.old.system.cores ≡ 2 }
{
    // the first thread is released at once
    assert_eq!(rt; cores.skip_idle()?.get(), 0);
    assert_eq!(rt; step(cores, 0), Ok(()));
    // its wait begins at 1: core 0 is there, and core 1 moves there
    assert_eq!(rt; cores.skip_idle()?.get(), 1);
    assert_eq!(rt; clocks(cores), (1, 1));
    assert_eq!(rt; step(cores, 0), Ok(()));
    // the next start; core 0 is ahead of core 1
    assert_eq!(rt; cores.skip_idle()?.get(), START);
    assert_eq!(rt; clocks(cores), (START, START));
    assert_eq!(rt; step(cores, 0), Ok(()));
    // core 1 is busy at its clock, so nothing changes
    assert_eq!(rt; cores.skip_idle()?.get(), START);
    assert_eq!(rt; clocks(cores), (START + 1, START));
    Ok(())
}

ghost use Rattle.std.specs.Prelude.{◌+◌, ◌^◌, ◌≤◌, All, OnOk};
ghost use Rattle.mcs_core.specs.State.{Fits, IsExpected};

use super::play::{Letter, Made, go_on, moment, nothing, opened, posted};
use super::systems::{DEPLETES, system};
use mcs_core::CoreState;
use mcs_mail::Mailbox;
use mcs_system::System;
use mcs_ticks::{CoreId, Tick};
use std::alloc::Global;
use std::process::Abort;
use std::test::Fail;

/// A moment, and the next busy moment from it on, with the mail that is left then.
#[derive(Clone, Copy)]
struct Next(u64, Option<u64>);

/// Compares the next busy moments of core 0, which runs from each moment to the next one.
fn is_busy_at(
    rt: &impl Abort,
    alloc: Global,
    system: &System,
    letters: &[Letter],
    nexts: &[Next],
) -> Result<(), Fail> {
    let mut state = opened(alloc, system, CoreId(0))?;
    let mut mailbox = posted(alloc, system, &state, CoreId(0), letters)?;
    let mut made = nothing(alloc);
    for next in nexts {
        is_next(rt, system, &mut state, &mut mailbox, &mut made, *next)?;
    }
    Ok(())
}

fn is_next(
    rt: &impl Abort,
    system: &System,
    state: &mut CoreState,
    mailbox: &mut Mailbox,
    made: &mut Made,
    next: Next,
) -> Result<(), Fail>
    requires fits { Fits system.now state.old }
    requires expected { All (IsExpected system.now state.old) mailbox.old.mails }
    ensures fits { Fits system.now state.new }
    ensures expected { OnOk result (All (IsExpected system.now state.new) mailbox.new.mails) }
{
    let Next(before, busy) = next;
    go_on(system, state, mailbox, moment(before)?, made)?;
    assert_eq!(rt; next_busy(system, state, mailbox)?, busy);
    Ok(())
}

fn next_busy(system: &System, state: &CoreState, mailbox: &Mailbox) -> Result<Option<u64>, Fail>
    requires fits { Fits system.now state.now }
    requires expected { All (IsExpected system.now state.now) mailbox.now.mails }
{
    if state.failed() {
        return Err(Fail::from("a state that goes on"));
    }
    Ok(state.next_busy(system, mailbox).map(|busy| busy.get()))
}

/// The thread is released at 0 and exhausts its 2 ticks at 2, its date comes at 5, and it is done
/// at 11.
#[test]
fn the_runner_depletes(rt: HostRuntime) -> Result<(), Fail> {
    let alloc = rt.alloc();
    let depletes = system(alloc, DEPLETES)?;
    let nexts = [
        Next(0, Some(0)),
        Next(1, Some(2)),
        Next(3, Some(5)),
        Next(12, None),
    ];
    is_busy_at(&rt, alloc, &depletes, &[], &nexts)
}

const WAKES_A_BETTER_ONE: &str = r#"
version = 1
cores = 2
delay = 2
context = [
    { name = "a", core = 0, budget = 9, period = 20 },
    { name = "w", core = 0, budget = 9, period = 20 },
]
note = [{ name = "n", core = 0 }]
thread = [
    { name = "A", context = "a", priority = 5, rounds = 1, script = ["compute 9"] },
    { name = "W", context = "w", priority = 9, rounds = 1, script = ["wait n", "compute 2"] },
]
"#;

/// The better thread waits from 1 on. It is woken at 4, runs in that very turn and computes until
/// 6. The other one, which had used 3 ticks, runs for 6 more.
#[test]
fn an_arrival_wakes_a_better_one(rt: HostRuntime) -> Result<(), Fail> {
    let alloc = rt.alloc();
    let wakes = system(alloc, WAKES_A_BETTER_ONE)?;
    let nexts = [
        Next(2, Some(4)),
        Next(5, Some(6)),
        Next(7, Some(12)),
        Next(13, None),
    ];
    is_busy_at(&rt, alloc, &wakes, &[Letter(4, 2, 1, 1)], &nexts)
}

const RELEASES_A_BETTER_ONE: &str = r#"
version = 1
cores = 1
delay = 1
context = [
    { name = "a", core = 0, budget = 9, period = 20 },
    { name = "b", core = 0, budget = 9, period = 20 },
]
thread = [
    { name = "A", context = "a", priority = 5, rounds = 1, script = ["compute 9"] },
    { name = "B", context = "b", priority = 9, start = 3, rounds = 1, script = ["compute 2"] },
]
"#;

/// The better thread starts at 3, runs in that very turn and is done at 5. The other one, which had
/// used 3 ticks, runs for 6 more.
#[test]
fn a_better_one_is_released(rt: HostRuntime) -> Result<(), Fail> {
    let alloc = rt.alloc();
    let releases = system(alloc, RELEASES_A_BETTER_ONE)?;
    let nexts = [
        Next(1, Some(3)),
        Next(4, Some(5)),
        Next(6, Some(11)),
        Next(12, None),
    ];
    is_busy_at(&rt, alloc, &releases, &[], &nexts)
}

const ORDERS_THE_RUNNER_AWAY: &str = r#"
version = 1
cores = 1
delay = 1
min_budget = 4
context = [
    { name = "a", core = 0, budget = 10, period = 100 },
    { name = "b", core = 0, budget = 10, period = 100 },
]
thread = [
    { name = "A", context = "a", priority = 9, rounds = 1, script = ["compute 20"] },
    { name = "B", context = "b", priority = 5, rounds = 1, script = ["compute 3"] },
]
order = [{ at = 7, core = 0, context = "a", budget = 10, period = 100 }]
"#;

/// At 7 the head of the running thread keeps 3 ticks, which are too few and join the refill at 100,
/// so it must wait until 97. The lesser thread runs in that very turn and is done at 10.
#[test]
fn an_order_changes_the_runner(rt: HostRuntime) -> Result<(), Fail> {
    let alloc = rt.alloc();
    let orders = system(alloc, ORDERS_THE_RUNNER_AWAY)?;
    let nexts = [Next(1, Some(7)), Next(8, Some(10)), Next(11, Some(97))];
    is_busy_at(&rt, alloc, &orders, &[], &nexts)
}

/// Skips a core without mail to a moment; no turn before it may be busy.
fn skip(alloc: Global, system: &System, state: &mut CoreState, to: Tick) -> Result<(), Fail>
    requires fits { Fits system.now state.old }
    requires in_time { to ≤ 2 ^ 40 + 1 }
    ensures { Fits system.now state.new }
{
    let mailbox = Mailbox::new(alloc);
    if state.failed() || to < state.clock() {
        return Err(Fail::from("a moment to come"));
    }
    let busy = state.next_busy(system, &mailbox);
    if busy.is_some_and(|busy| busy < to) {
        return Err(Fail::from("quiet turns"));
    }
    state.skip(system, to);
    Ok(())
}

/// Skips to a moment, and compares the ticks in use there.
fn skips(
    rt: &impl Abort,
    alloc: Global,
    system: &System,
    state: &mut CoreState,
    to: u64,
    in_use: u64,
) -> Result<(), Fail>
    requires { Fits system.now state.old }
    ensures { Fits system.now state.new }
{
    skip(alloc, system, state, moment(to)?)?;
    assert_eq!(rt; state.clock().get(), to);
    assert_eq!(rt; using(alloc, system, state)?, in_use);
    Ok(())
}

/// The ticks in use of the first context of the core.
fn using(alloc: Global, system: &System, state: &CoreState) -> Result<u64, Fail>
    requires { Fits system.now state.now }
{
    let views = state.contexts(alloc, system)?;
    let first = views.as_slice().first().ok_or("a context")?;
    Ok(first.using)
}

/// Takes the turns of a core without mail up to a moment, and compares the number of their rows.
fn makes(
    rt: &impl Abort,
    alloc: Global,
    system: &System,
    state: &mut CoreState,
    to: u64,
    rows: usize,
) -> Result<(), Fail>
    requires { Fits system.now state.old }
    ensures { Fits system.now state.new }
{
    let to = moment(to)?;
    let mut mailbox = Mailbox::new(alloc);
    let mut made = nothing(alloc);
    go_on(system, state, &mut mailbox, to, &mut made)?;
    assert_eq!(rt; made.rows.len(), rows);
    Ok(())
}

/// A skip to the clock changes nothing, and a skip to the next busy moment counts its ticks: both
/// are in use when the thread stops.
#[test]
fn quiet_turns_are_skipped(rt: HostRuntime) -> Result<(), Fail> {
    let alloc = rt.alloc();
    let depletes = system(alloc, DEPLETES)?;
    let mut state = opened(alloc, &depletes, CoreId(0))?;
    skips_between(&rt, alloc, &depletes, &mut state)
}

fn skips_between(
    rt: &impl Abort,
    alloc: Global,
    system: &System,
    state: &mut CoreState,
) -> Result<(), Fail>
    requires { Fits system.now state.old }
{
    makes(rt, alloc, system, state, 1, 2)?;
    skips(rt, alloc, system, state, 1, 0)?;
    skips(rt, alloc, system, state, 2, 1)?;
    makes(rt, alloc, system, state, 3, 1)
}

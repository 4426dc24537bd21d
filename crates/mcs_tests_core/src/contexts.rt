ghost use Rattle.std.specs.Prelude.{◌+◌, ◌^◌, ◌≤◌};
ghost use Rattle.mcs_core.specs.State.{Fits};

use super::play::{go_on, moment, nothing, opened};
use super::systems::{DEPLETES, system};
use mcs_control::ContextView;
use mcs_core::CoreState;
use mcs_mail::Mailbox;
use mcs_system::System;
use mcs_ticks::{CoreId, NoMemory, Tick};
use std::alloc::Global;
use std::process::Abort;
use std::test::Fail;

/// The visible parts of a context: its number, the ticks left of its slice, its refills, and the
/// ticks in use.
#[derive(Clone, Copy)]
struct Seen(usize, Option<u64>, &'static [(u64, u64)], u64);

fn is_seen(rt: &impl Abort, view: &ContextView, seen: Seen) {
    let Seen(context, left, refills, using) = seen;
    assert_eq!(rt;
        (view.context.0, view.left, view.using),
        (context, left, using)
    );
    assert_eq!(rt; view.refills.len(), refills.len());
    for (refill, (begins, amount)) in view.refills.as_slice().iter().zip(refills) {
        assert_eq!(rt; (refill.begins, refill.amount), (*begins, *amount));
    }
}

/// Compares the visible parts of a core's contexts after all turns of a moment.
fn sees(
    rt: &impl Abort,
    alloc: Global,
    text: &str,
    core: usize,
    last: u64,
    seen: &[Seen],
) -> Result<(), Fail> {
    let end = moment(last.saturating_add(1))?;
    let system = system(alloc, text)?;
    sees_before(rt, alloc, &system, CoreId(core), end, seen)
}

fn sees_before(
    rt: &impl Abort,
    alloc: Global,
    system: &System,
    core: CoreId,
    end: Tick,
    seen: &[Seen],
) -> Result<(), Fail>
    requires { end ≤ 2 ^ 40 + 1 }
{
    let mut state = opened(alloc, system, core)?;
    sees_at(rt, alloc, system, &mut state, end, seen)
}

fn sees_at(
    rt: &impl Abort,
    alloc: Global,
    system: &System,
    state: &mut CoreState,
    end: Tick,
    seen: &[Seen],
) -> Result<(), Fail>
    requires fits { Fits system.now state.old }
    requires in_time { end ≤ 2 ^ 40 + 1 }
{
    go_to(alloc, system, state, end)?;
    assert_eq!(rt; state.clock(), end);
    assert!(rt; !state.failed());
    let views = state.contexts(alloc, system)?;
    assert_eq!(rt; views.len(), seen.len());
    for (view, seen) in views.as_slice().iter().zip(seen) {
        is_seen(rt, view, *seen);
    }
    Ok(())
}

/// Takes the turns of a core without mail up to a moment.
fn go_to(alloc: Global, system: &System, state: &mut CoreState, end: Tick) -> Result<(), NoMemory>
    requires fits { Fits system.now state.old }
    requires in_time { end ≤ 2 ^ 40 + 1 }
    ensures { Fits system.now state.new }
{
    let mut mailbox = Mailbox::new(alloc);
    let mut made = nothing(alloc);
    go_on(system, state, &mut mailbox, end, &mut made)
}

/// Ticks in use are not charged yet.
#[test]
fn ticks_in_use(rt: HostRuntime) -> Result<(), Fail> {
    let alloc = rt.alloc();
    sees(&rt, alloc, DEPLETES, 0, 1, &[Seen(0, None, &[(0, 2)], 1)])?;
    sees(&rt, alloc, DEPLETES, 0, 2, &[Seen(0, None, &[(5, 2)], 0)])
}

const SLICES: &str = r#"
version = 1
cores = 1
delay = 1
context = [
    { name = "a", core = 0, budget = 3, period = 3 },
    { name = "b", core = 0, budget = 3, period = 3 },
    { name = "c", core = 0, budget = 2, period = 10 },
]
thread = [
    { name = "A", context = "a", priority = 5, rounds = 1, script = ["compute 10"] },
    { name = "B", context = "b", priority = 5, rounds = 1, script = ["compute 10"] },
    { name = "C", context = "c", priority = 9, start = 1, rounds = 1, script = ["compute 1"] },
]
"#;

#[test]
fn slices_and_refills(rt: HostRuntime) -> Result<(), Fail> {
    let seen = [
        Seen(0, Some(2), &[], 1),
        Seen(1, Some(3), &[], 0),
        Seen(2, None, &[(2, 1), (11, 1)], 0),
    ];
    sees(&rt, rt.alloc(), SLICES, 0, 3, &seen)
}

const ON_TWO_CORES: &str = r#"
version = 1
cores = 2
delay = 1
context = [
    { name = "a", core = 1, budget = 2, period = 5 },
    { name = "b", core = 0, budget = 4, period = 4 },
    { name = "c", core = 1, budget = 3, period = 5 },
]
thread = [
    { name = "C", context = "c", priority = 5, start = 4, rounds = 1, script = ["compute 9"] },
    { name = "B", context = "b", priority = 5, rounds = 1, script = ["compute 9"] },
]
"#;

/// Each core shows its own contexts. A context without a thread begins at 0, the others at the
/// start of their thread.
#[test]
fn contexts_of_a_core(rt: HostRuntime) -> Result<(), Fail> {
    let alloc = rt.alloc();
    sees(&rt, alloc, ON_TWO_CORES, 0, 3, &[Seen(1, Some(4), &[], 3)])?;
    let seen = [Seen(0, None, &[(0, 2)], 0), Seen(2, None, &[(4, 3)], 0)];
    sees(&rt, alloc, ON_TWO_CORES, 1, 3, &seen)
}

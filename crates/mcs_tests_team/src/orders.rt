//! Cores that run ahead of one another, as far as they may.
ghost use Rattle.std.specs.Prelude.{◌≡◌, ◌<◌, ◌≤◌, ◌^◌, All, IfOk};
ghost use Rattle.mcs_merge.specs.Merge.{DoNotFall};

use super::systems::{IDLE, RING_OF_LINKS, SIGNALS, TWO_MAKERS, moment, system};
use mcs_merge::merge;
use mcs_system::System;
use mcs_team::simulate_alone;
use mcs_ticks::{CoreId, NoMemory, Row, Tick};
use mcs_window::{Cores, StepFault};
use std::alloc::Global;
use std::process::Abort;
use std::sync::Arc;
use std::test::Fail;

/// Takes one step of a core.
pub(crate) fn step(cores: &mut Cores, core: usize) -> Result<(), StepFault>
    requires { core < cores.old.system.cores }
    ensures { cores.new.system ≡ cores.old.system }
{
    cores.step(CoreId(core))
}

/// Takes the rows of each core.
fn taken(alloc: Global, cores: &mut Cores, many: usize) -> Result<Vec<Vec<Row>>, NoMemory>
    requires { many ≡ cores.old.system.cores }
    ensures { IfOk result (λ lists. All (λ rows. DoNotFall rows.items) lists.items) }
{
    let mut lists = Vec::new(alloc);
    for number in 0..many {
        let core = CoreId(number);
        let rows = cores.take_rows(core);
        lists.push(rows)?;
    }
    Ok(lists)
}

/// Takes steps of cores in pseudo-random order. Returns the number of steps, or that memory ran
/// out.
fn step_at_random(cores: &mut Cores, many: usize, seed: usize) -> Result<usize, NoMemory>
    requires some { 1 ≤ many }
    requires many { many ≡ cores.old.system.cores }
    ensures { cores.new.system ≡ cores.old.system }
{
    let mut number = seed % 65_536;
    let mut steps = 0usize;
    for _ in 0..2_000 {
        number = (number * 25_173 + 13_849) % 65_536;
        let core = number / 7 % many;
        match step(cores, core) {
            Ok(()) => steps = steps.saturating_add(1),
            Err(StepFault::NoMemory) => return Err(NoMemory),
            Err(_) => {}
        }
    }
    Ok(steps)
}

/// Returns the rows of all cores, merged, after steps up to the horizon.
fn rows_of_steps(
    rt: &impl Abort,
    alloc: Global,
    system: Arc<System>,
    horizon: Tick,
    seed: usize,
) -> Result<Vec<Row>, Fail>
    requires { horizon ≤ 2 ^ 40 }
{
    let many = system.parts().cores;
    let mut cores = Cores::new(alloc, system, horizon)?;
    let steps = step_at_random(&mut cores, many, seed)?;
    assert_eq!(rt; steps as u64, (horizon.get() + 1) * many as u64);
    let lists = taken(alloc, &mut cores, many)?;
    Ok(merge(alloc, lists)?)
}

fn agrees(
    rt: &impl Abort,
    alloc: Global,
    system: &Arc<System>,
    horizon: Tick,
    schedule: &[Row],
) -> Result<(), Fail>
    requires { horizon ≤ 2 ^ 40 }
{
    for seed in 0..8 {
        let rows = rows_of_steps(rt, alloc, Arc::try_clone(system)?, horizon, seed)?;
        assert!(rt; rows.as_slice() == schedule);
    }
    Ok(())
}

#[test]
fn any_safe_order_gives_the_schedule(rt: HostRuntime) -> Result<(), Fail> {
    let alloc = rt.alloc();
    for text in [SIGNALS, TWO_MAKERS] {
        let system = system(alloc, text)?;
        let horizon = moment(40)?;
        let whole = simulate_alone(alloc, Arc::try_clone(&system)?, horizon)?;
        assert!(rt; whole.rows.len() > 10);
        agrees(&rt, alloc, &system, horizon, whole.rows.as_slice())?;
    }
    Ok(())
}

#[test]
fn safe_steps(rt: HostRuntime) -> Result<(), Fail> {
    let alloc = rt.alloc();
    let system = system(alloc, SIGNALS)?;
    assert_eq!(rt; system.parts().cores, 2);
    let mut cores = Cores::new(alloc, system, moment(7)?)?;
    assert_eq!(rt; step(&mut cores, 0), Ok(()));
    assert_eq!(rt; step(&mut cores, 0), Ok(()));
    assert_eq!(rt; step(&mut cores, 0), Ok(()));
    assert_eq!(rt; step(&mut cores, 0), Err(StepFault::NotSafe(CoreId(1))));
    assert_eq!(rt; step(&mut cores, 1), Ok(()));
    assert_eq!(rt; step(&mut cores, 0), Ok(()));
    Ok(())
}

#[test]
fn steps_are_safe_by_links(rt: HostRuntime) -> Result<(), Fail> {
    let alloc = rt.alloc();
    let system = system(alloc, RING_OF_LINKS)?;
    assert_eq!(rt; system.parts().cores, 3);
    let mut cores = Cores::new(alloc, system, moment(6)?)?;
    assert_eq!(rt; step(&mut cores, 0), Ok(()));
    assert_eq!(rt; step(&mut cores, 0), Err(StepFault::NotSafe(CoreId(1))));
    assert_eq!(rt; step(&mut cores, 2), Ok(()));
    assert_eq!(rt; step(&mut cores, 2), Ok(()));
    assert_eq!(rt; step(&mut cores, 2), Ok(()));
    assert_eq!(rt; step(&mut cores, 2), Err(StepFault::NotSafe(CoreId(1))));
    Ok(())
}

#[test]
fn no_step_after_the_horizon(rt: HostRuntime) -> Result<(), Fail> {
    let alloc = rt.alloc();
    let system = system(alloc, IDLE)?;
    assert_eq!(rt; system.parts().cores, 2);
    let mut cores = Cores::new(alloc, system, moment(1)?)?;
    assert_eq!(rt; step(&mut cores, 0), Ok(()));
    assert_eq!(rt; step(&mut cores, 1), Ok(()));
    assert_eq!(rt; step(&mut cores, 1), Ok(()));
    assert_eq!(rt; step(&mut cores, 1), Err(StepFault::Ended));
    assert_eq!(rt; cores.clock(CoreId(0)).get(), 1);
    assert_eq!(rt; cores.clock(CoreId(1)).get(), 2);
    assert!(rt; cores.contexts(alloc)?.is_empty());
    Ok(())
}

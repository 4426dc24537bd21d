//! The system in which threads that only compute spin.
ghost use Rattle.std.specs.Prelude.{◌≡◌, ◌∷◌, [], map, IfOk};
ghost use Rattle.std.specs.List.{list_all, list_any};
ghost use Rattle.mcs_script.specs.declared.item.Item.TheVariants.{Spin};
ghost use Rattle.mcs_spin.specs.Spun.{is_compute, computes, only_computes, spun_part, spun};

use crate::again::{Again, all_again, copied};
use crate::spun_are_well_formed;
use mcs_script::{Item, Script};
use mcs_system::{System, SystemParts, ThreadPart};
use mcs_ticks::{NoMemory, Sequence};
use std::alloc::Global;

fn is_compute(item: Item) -> bool
    ensures { result ≡ is_compute item }
{
    matches!(item, Item::Compute(_))
}

fn all_compute(items: &[Item]) -> bool
    ensures { result ≡ list_all is_compute items.now }
{
    items.iter().all(|item| is_compute(*item))
}

/// Whether there is an item, and each one is a `compute`.
fn computes(items: &[Item]) -> bool
    ensures { result ≡ computes items.now }
{
    !items.is_empty() && all_compute(items)
}

/// Whether the thread computes without end and has no deadline.
fn only_computes(part: &ThreadPart) -> bool
    ensures { result ≡ only_computes part.now }
{
    part.rounds == 0 && part.deadline == 0 && computes(part.script.as_slice())
}

/// Whether a thread only computes.
fn any_computes(threads: &[ThreadPart]) -> bool
    ensures { result ≡ list_any only_computes threads.now }
{
    threads.iter().any(only_computes)
}

/// Returns the script of the one item `spin`.
fn one_spin(alloc: Global) -> Result<Script, NoMemory>
    ensures { IfOk result (λ script. script ≡ Spin ∷ []) }
{
    let mut items = Vec::with_capacity(alloc, 1)?;
    items.push(Item::Spin)?;
    Ok(Script::new(items).unwrap())
}

/// Returns the thread with the script of its copy.
fn with_script(alloc: Global, part: &ThreadPart, script: Script) -> Result<ThreadPart, NoMemory>
    ensures { IfOk result (λ copy. copy ≡ record part.now { script = script }) }
{
    Ok(ThreadPart {
        name: part.name.again(alloc)?,
        context: part.context,
        priority: part.priority,
        start: part.start,
        rounds: part.rounds,
        deadline: part.deadline,
        script,
    })
}

/// Returns a copy of the thread, which spins if the thread only computes.
fn spun_part(alloc: Global, part: &ThreadPart) -> Result<ThreadPart, NoMemory>
    ensures { IfOk result (λ copy. copy ≡ spun_part part.now) }
{
    if only_computes(part) {
        with_script(alloc, part, one_spin(alloc)?)
    } else {
        with_script(alloc, part, part.script.again(alloc)?)
    }
}

/// Returns a copy of each thread, in order.
fn spun_threads(alloc: Global, threads: &[ThreadPart]) -> Result<Sequence<ThreadPart>, NoMemory>
    ensures { IfOk result (λ copies. copies ≡ map spun_part threads.now) }
{
    let mut copies = Vec::with_capacity(alloc, threads.len())?;
    for part in threads {
        copies.push(spun_part(alloc, part)?)?;
    }
    Ok(Sequence::new(copies))
}

/// Returns a copy of the system, with its threads spun.
fn spun_copy(alloc: Global, parts: &SystemParts) -> Result<SystemParts, NoMemory>
    ensures { IfOk result (λ copy. copy ≡ spun parts.now) }
{
    Ok(SystemParts {
        cores: parts.cores,
        delay: parts.delay,
        call: parts.call,
        min_budget: parts.min_budget,
        contexts: all_again(alloc, &parts.contexts)?,
        notes: all_again(alloc, &parts.notes)?,
        servers: parts.servers,
        threads: spun_threads(alloc, parts.threads.as_slice())?,
        orders: copied(alloc, &parts.orders)?,
        links: copied(alloc, &parts.links)?,
        sources: all_again(alloc, &parts.sources)?,
        beats: copied(alloc, &parts.beats)?,
        chains: all_again(alloc, &parts.chains)?,
    })
}

/// Returns the system in which each thread that only computes has the one item `spin`. Without such
/// a thread it is the system itself, and allocates nothing. Fails only if memory runs out.
pub fn spin(alloc: Global, system: System) -> Result<System, NoMemory>
    ensures { IfOk result (λ copy. copy ≡ spun system) }
{
    let parts = system.parts();
    spun_are_well_formed();
    if !any_computes(parts.threads.as_slice()) {
        return Ok(system);
    }
    Ok(System::new(spun_copy(alloc, parts)?))
}

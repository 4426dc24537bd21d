//! The smallest groups of cores that no other core signals, by the scripts of all threads.
ghost use Rattle.std.specs.Prelude.{◌≡◌, ◌+◌, ◌<◌, ◌≤◌, false, true, length, set, replicate, IfOk, IfSome, MatchOption};
ghost use Rattle.mcs_system.specs.System.{core_of, thread_part};
ghost use Rattle.mcs_ever.specs.Closed.{AreLeastClosed};
ghost use Rattle.mcs_ever.specs.stored.Makers.{home_signalled, with_maker, AreMakers, AreMakersUntil, IsMissing, Has, IsOutside, NoneIsOutside, IsLeastFor};

use mcs_script::Item;
use mcs_system::System;
use mcs_ticks::{CoreId, Limits, NoMemory, ThreadId};
use std::alloc::Global;

/// A set of cores: for each core whether it is in the set.
pub type CoreSet = [bool; Limits::CORES];

/// Returns for each core, by its number, the smallest set with it that no core outside the set
/// signals. The behaviour of such a set depends only on its own cores, so it may recur alone. Fails
/// only if memory runs out.
pub fn closed_sets(alloc: Global, system: &System) -> Result<Vec<CoreSet>, NoMemory>
    ensures { IfOk result (λ sets. AreLeastClosed system.now sets.items) }
{
    let cores = system.parts().cores;
    let makers = makers(alloc, system)?;
    let mut sets = Vec::with_capacity(alloc, cores)?;
    for core in 0..cores {
        sets.push(closed_set(makers.as_slice(), CoreId(core)))?;
    }
    Ok(sets)
}

/// Returns for each core the cores whose threads signal it.
fn makers(alloc: Global, system: &System) -> Result<Vec<CoreSet>, NoMemory>
    ensures { IfOk result (λ makers. AreMakers system.now makers.items) }
{
    let mut makers = no_makers(alloc, system)?;
    for thread in 0..system.parts().threads.len() {
        add_maker(system, ThreadId(thread), makers.as_mut_slice());
    }
    Ok(makers)
}

/// Returns the makers before any script was read: no core signals another.
fn no_makers(alloc: Global, system: &System) -> Result<Vec<CoreSet>, NoMemory>
    ensures { IfOk result (λ makers. AreMakersUntil system.now 0 0 makers.items) }
{
    let cores = system.parts().cores;
    let mut makers = Vec::with_capacity(alloc, cores)?;
    for _ in 0..cores {
        makers.push([false; Limits::CORES])?;
    }
    Ok(makers)
}

/// Adds the signals of one more thread.
fn add_maker(system: &System, thread: ThreadId, makers: &mut [CoreSet])
    requires known { thread < length system.now.threads }
    requires before { AreMakersUntil system.now thread 0 makers.old }
    ensures { AreMakersUntil system.now (thread + 1) 0 makers.new }
{
    let parts = system.parts();
    let maker = parts.core_of_thread(parts.thread(thread));
    add_items(system, thread, maker, makers);
}

/// Adds the signals of a thread's items, whose maker is the thread's core.
fn add_items(system: &System, thread: ThreadId, maker: CoreId, makers: &mut [CoreSet])
    requires known { thread < length system.now.threads }
    requires own { maker ≡ core_of system.now (thread_part system.now thread) }
    requires few { maker < 64 }
    requires before { AreMakersUntil system.now thread 0 makers.old }
    ensures { AreMakersUntil system.now (thread + 1) 0 makers.new }
{
    let script = &system.parts().thread(thread).script;
    for item in 0..script.len() {
        let said = script.get(item);
        if let Some(home) = home_signalled(system, &said) {
            add(makers, home, maker);
        }
    }
}

/// The home of the notification that an item signals.
fn home_signalled(system: &System, item: &Option<Item>) -> Option<CoreId>
    ensures home { result ≡ home_signalled system.now item.now }
    ensures known { IfSome result (λ home. home < system.now.cores) }
{
    let _parts = system.parts();
    match item {
        Some(Item::Signal(note, _)) => Some(system.home_of(*note)),
        Some(Item::Compute(_)) => None,
        Some(Item::Wait(_)) => None,
        Some(Item::Yield) => None,
        Some(Item::On(_)) => None,
        Some(Item::Spin) => None,
        Some(Item::Enter(_, _)) => None,
        Some(Item::Leave(_, _)) => None,
        None => None,
    }
}

/// Adds a maker that signals the home.
fn add(makers: &mut [CoreSet], home: CoreId, maker: CoreId)
    requires home { home < length makers.old }
    requires maker { maker < 64 }
    ensures { makers.new ≡ with_maker makers.old home maker }
{
    makers[home.0][maker.0] = true;
}

/// Returns the smallest set with this core that has each maker of each of its cores.
fn closed_set(makers: &[CoreSet], core: CoreId) -> CoreSet
    requires { core < 64 }
    ensures { IsLeastFor makers.now core result }
{
    let mut set = only(core);
    while let Some(maker) = outside(makers, &set) {
        set[maker.0] = true;
    }
    set
}

/// Returns the set with this core alone.
fn only(core: CoreId) -> CoreSet
    requires { core < 64 }
    ensures { result ≡ set (replicate 64 false) core true }
{
    let mut set = [false; Limits::CORES];
    set[core.0] = true;
    set
}

/// A core outside the set that signals one in it.
fn outside(makers: &[CoreSet], set: &CoreSet) -> Option<CoreId>
    ensures { MatchOption result (NoneIsOutside makers.now set.now) (IsOutside makers.now set.now) }
{
    for home in 0..makers.len() {
        if home < Limits::CORES && set[home] {
            let found = missing(&makers[home], set);
            if found.is_some() {
                return found;
            }
        }
    }
    None
}

/// The first core of `some` that is not in `set`.
fn missing(some: &CoreSet, set: &CoreSet) -> Option<CoreId>
    ensures { MatchOption result (Has set.now some.now) (IsMissing set.now some.now) }
{
    for core in 0..Limits::CORES {
        if some[core] && !set[core] {
            return Some(CoreId(core));
        }
    }
    None
}

//! How soon a core may reach another one, by the scripts of its threads.
ghost use Rattle.std.specs.Prelude.{◌≡◌, ◌+◌, ◌<◌, ℕ, length, slice_index, IfOk, IfSome};
ghost use Rattle.mcs_system.specs.System.{core_of, delay_between, thread_part};
ghost use Rattle.mcs_window.specs.stored.Reaches.{home_signalled, AreDelaysFrom, AreReaches, AreReachesOf, AreReachesUntil};

use mcs_script::Item;
use mcs_system::System;
use mcs_ticks::{CoreId, Limits, NoMemory, ThreadId};
use std::alloc::Global;

/// The ticks after which a signal of one core may reach each home.
pub(crate) type Reaches = [u64; Limits::CORES];

/// More ticks than any run has.
const NEVER: u64 = 1 << 41;

/// Returns for each maker the ticks after which a signal of it may reach each home. It is the delay
/// if a thread of the maker signals a notification of the home in its script, and `NEVER`
/// otherwise.
pub(crate) fn reach_rows(alloc: Global, system: &System) -> Result<Vec<Reaches>, NoMemory>
    ensures { IfOk result (λ rows. AreReaches system.now rows.items) }
{
    let delays = delays_from(alloc, system)?;
    let mut rows = never_rows(alloc, system)?;
    for thread in 0..system.parts().threads.len() {
        mark_maker(
            system,
            ThreadId(thread),
            delays.as_slice(),
            rows.as_mut_slice(),
        );
    }
    Ok(rows)
}

/// Returns the delays of the signals of each maker.
fn delays_from(alloc: Global, system: &System) -> Result<Vec<Reaches>, NoMemory>
    ensures { IfOk result (λ rows. AreDelaysFrom system.now system.now.cores rows.items) }
{
    let cores = system.parts().cores;
    let mut rows = Vec::with_capacity(alloc, cores)?;
    for core in 0..cores {
        rows.push(system.delays_from(CoreId(core)))?;
    }
    Ok(rows)
}

/// Returns the rows before any script was read: no core reaches another.
fn never_rows(alloc: Global, system: &System) -> Result<Vec<Reaches>, NoMemory>
    ensures { IfOk result (λ rows. AreReachesUntil system.now 0 rows.items) }
{
    let cores = system.parts().cores;
    let mut rows = Vec::with_capacity(alloc, cores)?;
    for _ in 0..cores {
        rows.push([NEVER; Limits::CORES])?;
    }
    Ok(rows)
}

/// Adds the signals of one more thread to the row of its core.
fn mark_maker(system: &System, thread: ThreadId, delays: &[Reaches], rows: &mut [Reaches])
    requires known { thread < length system.now.threads }
    requires delays { AreDelaysFrom system.now system.now.cores delays.now }
    requires before { AreReachesUntil system.now thread rows.old }
    ensures { AreReachesUntil system.now (thread + 1) rows.new }
{
    let parts = system.parts();
    let maker = parts.core_of_thread(parts.thread(thread));
    mark_items(system, thread, &delays[maker.0], &mut rows[maker.0]);
}

/// Adds the signals of a thread's items: each reaches its home after the delay.
fn mark_items(system: &System, thread: ThreadId, delays: &Reaches, row: &mut Reaches)
    requires known { thread < length system.now.threads }
    requires delays { (home : ℕ) → home < 64 →
        slice_index delays.now home ≡ delay_between system.now (core_of system.now (thread_part system.now thread)) home }
    requires before { AreReachesOf system.now (core_of system.now (thread_part system.now thread)) thread 0 row.old }
    ensures { AreReachesOf system.now (core_of system.now (thread_part system.now thread)) (thread + 1) 0 row.new }
{
    let script = &system.parts().thread(thread).script;
    for item in 0..script.len() {
        let said = script.get(item);
        if let Some(home) = home_signalled(system, &said) {
            row[home.0] = delays[home.0];
        }
    }
}

/// The home of the notification that an item signals.
fn home_signalled(system: &System, item: &Option<Item>) -> Option<CoreId>
    ensures home { result ≡ home_signalled system.now item.now }
    ensures known { IfSome result (λ home. home < 64) }
{
    let _parts = system.parts();
    match item {
        Some(Item::Signal(note, _)) => Some(system.home_of(*note)),
        Some(Item::Compute(_)) => None,
        Some(Item::Wait(_)) => None,
        Some(Item::Yield) => None,
        Some(Item::On(_)) => None,
        Some(Item::Spin) => None,
        Some(Item::Enter(_, _)) => None,
        Some(Item::Leave(_, _)) => None,
        None => None,
    }
}

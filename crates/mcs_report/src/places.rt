//! The core of each thread, and its index on that core.
ghost use Rattle.std.specs.Prelude.{◌≡◌, ◌<◌, length, map, IfOk};
ghost use Rattle.std.specs.Arc.{arc_value};
ghost use Rattle.std.specs.List.{range_with_len};
ghost use Rattle.mcs_system.specs.WellFormed.{IsWellFormed};
ghost use Rattle.mcs_report.specs.Places.{place_on};
ghost use Rattle.mcs_report.specs.stored.Places.{home_in};

use mcs_system::{System, SystemParts};
use mcs_ticks::{CoreId, Limits, NoMemory, ThreadId};
use std::alloc::Global;
use std::marker::Model;
use std::sync::Arc;

/// The core of a thread, and its index among the threads of that core.
#[derive(Clone, Copy, Debug, PartialEq, Eq)]
pub(crate) struct Home {
    pub core: CoreId,
    pub place: usize,
}

/// For each thread its core and its index among the threads of that core, so that both are found at
/// once. One table serves the tallies of all cores. Contracts see the system.
#[derive(Drop)]
pub struct Places {
    system: Arc<System>,
    homes: Vec<Home>,
}

impl Model for Places {
    ghost use Rattle.std.specs.Arc.{arc_value};
    ghost use Rattle.mcs_system.specs.System.{System};
    ghost use Rattle.mcs_report.specs.stored.Places.{AreHomes};

    ghost Value = { System };

    ghost view = { λ a. arc_value a.system };

    ghost invariant = { λ a. AreHomes (arc_value a.system) a.homes.items };
}

/// Counts the threads of each core as they come.
fn homes_of(alloc: Global, parts: &SystemParts) -> Result<Vec<Home>, NoMemory>
    requires { IsWellFormed parts.now }
    ensures { IfOk result (λ homes. homes.items ≡ map (home_in parts.now) (range_with_len 0 (length parts.now.threads))) }
{
    let threads = parts.threads.as_slice();
    let mut homes = Vec::with_capacity(alloc, threads.len())?;
    let mut many = [0usize; Limits::CORES];
    for thread in threads {
        let core = parts.core_of_thread(thread);
        let place = many[core.0];
        homes.push_reserved(Home { core, place });
        many[core.0] = place + 1;
    }
    Ok(homes)
}

impl Places {
    /// Returns the table of a system. `NoMemory` if an allocation failed.
    pub fn new(alloc: Global, system: Arc<System>) -> Result<Self, NoMemory>
        ensures { IfOk result (λ places. places ≡ arc_value system) }
    {
        let homes = homes_of(alloc, system.parts())?;
        Ok(Places { system, homes })
    }

    /// The system.
    pub fn system(&self) -> &System
        ensures { result.now ≡ self.now }
    {
        &self.system
    }

    /// The core and index of a thread.
    pub(crate) fn home(&self, thread: ThreadId) -> Home
        requires { thread < length self.now.threads }
        ensures { result ≡ home_in self.now thread }
    {
        self.homes[thread.0]
    }

    /// The index of a thread on this core, if it is there.
    #[inline(always)]
    pub(crate) fn place_on(&self, core: CoreId, thread: ThreadId) -> Option<usize>
        ensures { result ≡ place_on self.now core thread }
    {
        if thread.0 < self.homes.len() {
            let home = self.homes[thread.0];
            if home.core == core {
                return Some(home.place);
            }
        }
        None
    }
}

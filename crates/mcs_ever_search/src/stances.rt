ghost use Rattle.std.specs.Prelude.{◌≡◌, ◌<◌, length, false};

use crate::lockstep::Lockstep;
use mcs_core::Standing;
use mcs_system::System;
use mcs_ticks::{CoreId, NoMemory, ThreadId};
use std::alloc::Global;

/// The standing of a thread, and the item of its script at which it is.
#[derive(Clone, Copy, PartialEq, Eq)]
struct Stance {
    standing: Standing,
    item: usize,
}

/// The stance of a thread on a core of the system.
fn stance_of(lockstep: &Lockstep, core: CoreId, thread: ThreadId) -> Stance
    requires core { core < lockstep.now.system.cores }
    requires thread { thread < length lockstep.now.system.threads }
    requires going { lockstep.now.failed ≡ false }
{
    let thread = lockstep.thread(core, thread);
    Stance {
        standing: thread.standing,
        item: thread.place.item,
    }
}

/// The stance of each thread before a kept moment. A group that recurs has the same. Most moments
/// are thus ruled out before idle cores count their ticks.
#[derive(Drop)]
pub(crate) struct Stances {
    of_threads: Vec<Stance>,
}

impl Stances {
    /// Returns the stances at the present moment.
    pub(crate) fn new(alloc: Global, system: &System, lockstep: &Lockstep) -> Result<Self, NoMemory>
        requires same { lockstep.now.system ≡ system.now }
        requires going { lockstep.now.failed ≡ false }
    {
        let parts = system.parts();
        let count = parts.threads.len();
        let mut of_threads = Vec::with_capacity(alloc, count)?;
        for i in 0..count {
            let core = parts.core_of_thread(parts.thread(ThreadId(i)));
            if core.0 < parts.cores {
                of_threads.push(stance_of(lockstep, core, ThreadId(i)))?;
            }
        }
        Ok(Stances { of_threads })
    }

    /// Whether a thread of this core has the same stance at the present moment. True if there is no
    /// such thread. Allocates no memory.
    pub(crate) fn is_same(
        &self,
        system: &System,
        lockstep: &Lockstep,
        core: CoreId,
        thread: ThreadId,
    ) -> bool
        requires same { lockstep.now.system ≡ system.now }
        requires going { lockstep.now.failed ≡ false }
    {
        let parts = system.parts();
        if core.0 >= parts.cores
            || thread.0 >= parts.threads.len()
            || thread.0 >= self.of_threads.len()
        {
            return true;
        }
        stance_of(lockstep, core, thread) == self.of_threads[thread.0]
    }
}

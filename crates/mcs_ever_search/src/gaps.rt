ghost use Rattle.std.specs.Prelude.{◌≡◌, ◌<◌, [], true, false};

use crate::lockstep::Lockstep;
use mcs_ever::CoreSet;
use mcs_ever_again::is_own;
use mcs_mail::Mailbox;
use mcs_system::System;
use mcs_ticks::{CoreId, NoMemory};
use std::alloc::Global;

/// The ticks until the core next does more than count a tick, if no signal arrives. `None` if it
/// never does.
fn gap(no_mail: &Mailbox, system: &System, lockstep: &Lockstep, core: CoreId) -> Option<u64>
    requires known { core < system.now.cores }
    requires same { lockstep.now.system ≡ system.now }
    requires going { lockstep.now.failed ≡ false }
    requires settled { lockstep.now.settled ≡ true }
    requires none { no_mail.now.mails ≡ [] }
{
    let next = lockstep.state(core).next_busy(system, no_mail)?;
    Some(next.get().saturating_sub(lockstep.clock().get()))
}

/// For each core the ticks until it next does more than count a tick, if no signal arrives. A group
/// that recurs has the same numbers; most others do not. Most moments are thus ruled out without an
/// image of the cores.
#[derive(Drop)]
pub(crate) struct Gaps {
    of_cores: Vec<Option<u64>>,
}

impl Gaps {
    /// Returns the numbers at the present moment.
    pub(crate) fn new(alloc: Global, system: &System, lockstep: &Lockstep) -> Result<Self, NoMemory>
        requires same { lockstep.now.system ≡ system.now }
        requires going { lockstep.now.failed ≡ false }
        requires settled { lockstep.now.settled ≡ true }
    {
        let no_mail = Mailbox::new(alloc);
        let count = system.parts().cores;
        let mut of_cores = Vec::with_capacity(alloc, count)?;
        for core in 0..count {
            of_cores.push(gap(&no_mail, system, lockstep, CoreId(core)))?;
        }
        Ok(Gaps { of_cores })
    }

    fn of(&self, core: usize) -> Option<u64> {
        if core < self.of_cores.len() {
            self.of_cores[core]
        } else {
            None
        }
    }

    /// Whether the cores of a group have the same numbers at the present moment. Allocates no
    /// memory.
    pub(crate) fn are_same(
        &self,
        alloc: Global,
        system: &System,
        lockstep: &Lockstep,
        group: &CoreSet,
    ) -> bool
        requires same { lockstep.now.system ≡ system.now }
        requires going { lockstep.now.failed ≡ false }
        requires settled { lockstep.now.settled ≡ true }
    {
        let no_mail = Mailbox::new(alloc);
        for core in 0..system.parts().cores {
            if !is_own(group, CoreId(core)) {
                continue;
            }
            if gap(&no_mail, system, lockstep, CoreId(core)) != self.of(core) {
                return false;
            }
        }
        true
    }
}

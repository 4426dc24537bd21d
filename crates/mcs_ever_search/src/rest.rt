ghost use Rattle.std.specs.Prelude.{◌≡◌, ℕ, ◌<◌, [], true, false, None, IsTrue};
ghost use Rattle.mcs_core.specs.Clock.{core_at, world};
ghost use Rattle.mcs_core.specs.Quiet.{IsNextBusy};

use crate::lockstep::Lockstep;
use mcs_mail::Mailbox;
use mcs_system::System;
use mcs_ticks::CoreId;
use std::alloc::Global;

/// Whether no core ever does more than count a tick from now on, unless a signal arrives. Allocates
/// no memory.
pub(crate) fn are_idle(alloc: Global, system: &System, lockstep: &Lockstep) -> bool
    requires same { lockstep.now.system ≡ system.now }
    requires going { lockstep.now.failed ≡ false }
    requires settled { lockstep.now.settled ≡ true }
    ensures { IsTrue result → (core : ℕ) → core < system.now.cores →
        IsNextBusy system.now core lockstep.now.clock [] (core_at system.now (world system.now lockstep.now.clock) core) None }
{
    let no_mail = Mailbox::new(alloc);
    for core in 0..system.parts().cores {
        if is_busy(system, lockstep, &no_mail, CoreId(core)) {
            return false;
        }
    }
    true
}

/// Whether the core ever does more than count a tick, if no signal arrives.
fn is_busy(system: &System, lockstep: &Lockstep, no_mail: &Mailbox, core: CoreId) -> bool
    requires known { core < system.now.cores }
    requires same { lockstep.now.system ≡ system.now }
    requires going { lockstep.now.failed ≡ false }
    requires settled { lockstep.now.settled ≡ true }
    requires none { no_mail.now.mails ≡ [] }
    ensures { result ≡ false →
        IsNextBusy system.now core lockstep.now.clock [] (core_at system.now (world system.now lockstep.now.clock) core) None }
{
    let state = lockstep.state(core);
    match state.next_busy(system, no_mail) {
        Some(_) => true,
        None => false,
    }
}

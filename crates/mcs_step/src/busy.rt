//! When cores are next busy: after their own turns, and once signals are on their way to them.
ghost use Rattle.std.specs.Prelude.{◌≡◌, ◌≤◌, ◌<◌, length, false, All, OnOk};
ghost use Rattle.mcs_core.specs.State.{Fits, IsExpected};
ghost use Rattle.mcs_step.specs.stored.Cores.{AreLowered, IsBusyAt, IsQuietTo};
ghost use Rattle.mcs_window.specs.stored.Delivery.{AreDelivered};

use crate::calendar::Calendar;
use mcs_core::CoreState;
use mcs_mail::{Mail, Mailbox};
use mcs_system::System;
use mcs_ticks::{NoMemory, Tick};

/// The next busy time of a core with this mail, at most `end`.
#[inline(always)]
pub(crate) fn next_of(system: &System, state: &CoreState, mail: &Mailbox, end: Tick) -> Tick
    requires fits { Fits system.now state.now }
    requires going { state.now.failed ≡ false }
    requires expected { All (IsExpected system.now state.now) mail.now.mails }
    requires in_time { state.now.clock ≤ end }
    ensures quiet { IsQuietTo system.now state.now mail.now.mails result }
    ensures busy { result < end → IsBusyAt system.now state.now mail.now.mails result }
    ensures later { state.now.clock ≤ result }
    ensures early { result ≤ end }
{
    match state.next_busy(system, mail) {
        Some(moment) if moment.get() < end.get() => moment,
        _ => end,
    }
}

/// Puts each signal into the box of its home, which is next busy when the signal arrives or before.
#[inline(always)]
pub(crate) fn deliver(
    system: &System,
    boxes: &mut [Mailbox],
    next: &mut Calendar,
    signals: &[Mail],
) -> Result<(), NoMemory>
    requires few { system.now.cores ≤ 64 }
    requires boxes { length boxes.old ≡ system.now.cores }
    requires next { length next.old ≡ 64 }
    ensures delivered { OnOk result (AreDelivered system.now signals.now boxes.old boxes.new) }
    ensures lowered { OnOk result (AreLowered system.now signals.now next.old next.new) }
{
    for mail in signals {
        let home = system.home_of(mail.note).0;
        if boxes[home].put(*mail).is_err() {
            return Err(NoMemory);
        }
        next.lower(home, mail.arrives);
    }
    Ok(())
}

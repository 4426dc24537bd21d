//! Turns of a core in place.
ghost use Rattle.std.specs.Prelude.{◌≡◌, [], length, slice_index_or, IfOk, OnErr};
ghost use Rattle.mcs_mail.specs.Box.{Content};
ghost use Rattle.mcs_system.specs.WellFormed.{IsWellFormed};
ghost use Rattle.mcs_window.specs.declared.slot.Slot.TheVariants.{Away};
ghost use Rattle.mcs_window.specs.stored.Slots.{MayGo, HasGone, HasGoneAndSent, AreSameBut};

use crate::Front;
use crate::delivery::deliver;
use crate::slot::{Loan, Slot};
use mcs_mail::{Mail, Mailbox};
use mcs_system::System;
use mcs_ticks::{Collector, CoreId, NoMemory, Tick};
use std::alloc::Global;

/// Turns that a core is to take, from its clock in `front` to before `past`, or until its collector
/// holds `most`.
#[derive(Clone, Copy)]
pub(crate) struct Turns<'a> {
    pub(crate) system: &'a System,
    pub(crate) core: CoreId,
    pub(crate) front: &'a Front,
    pub(crate) past: Tick,
    pub(crate) most: usize,
}

impl Turns<'_> {
    /// Takes the turns of the core, which is not lent, in place. Returns its new clock. `signals`
    /// is cleared and then holds the signals of these turns.
    fn take<S: Collector>(
        &self,
        slot: &mut Slot,
        mail: &mut Mailbox,
        told: &mut S,
        signals: &mut Vec<Mail>,
    ) -> Result<Tick, NoMemory>
        requires well_formed { IsWellFormed self.now.system.now }
        requires may { MayGo self.now.system.now self.now.core self.now.past self.now.front.now slot.old mail.old.mails }
        ensures { IfOk result (HasGone S.takes self.now.system.now self.now.core self.now.past self.now.front.now told.old
            slot.new mail.new.mails told.new signals.new.items) }
    {
        signals.clear();
        if let Slot::Here { state, .. } = slot {
            let (past, most) = (self.past, self.most);
            let Ok(()) = state.run_some_to(self.system, mail, past, most, told, signals) else {
                return Err(NoMemory);
            };
            return Ok(state.clock());
        }
        Err(NoMemory)
    }

    /// Takes the turns, and puts each signal into the box of its home. If memory runs out, the mail
    /// of the other cores stays the same.
    pub(crate) fn take_and_deliver<S: Collector>(
        &self,
        slot: &mut Slot,
        boxes: &mut [Mailbox],
        told: &mut S,
        signals: &mut Vec<Mail>,
    ) -> Result<Tick, NoMemory>
        requires well_formed { IsWellFormed self.now.system.now }
        requires many { length boxes.old ≡ self.now.system.now.cores }
        requires may { (x : Content) → MayGo self.now.system.now self.now.core self.now.past self.now.front.now slot.old
            (slice_index_or boxes.old self.now.core x).mails }
        ensures ok { IfOk result (HasGoneAndSent S.takes self.now.system.now self.now.core self.now.past self.now.front.now
            told.old boxes.old slot.new boxes.new told.new signals.new.items) }
        ensures err { OnErr result (AreSameBut self.now.core boxes.old boxes.new) }
    {
        let to = self.take(slot, &mut boxes[self.core.0], told, signals)?;
        deliver(self.system, boxes, signals)?;
        Ok(to)
    }
}

/// Makes a core that ran out of memory stay lent. Its mail and its rows are dropped.
pub(crate) fn spend<S: Collector>(
    past: Tick,
    front: &Front,
    slot: &mut Slot,
    mail: &mut Mailbox,
    told: &mut S,
    alloc: Global,
)
    ensures slot { slot.new ≡ Away (record { past = past; front = front.now }) }
    ensures mail { mail.new.mails ≡ [] }
    ensures told { S.holds told.new [] }
{
    let front = *front;
    *slot = Slot::Away(Loan { past, front });
    *mail = Mailbox::new(alloc);
    told.clear();
}

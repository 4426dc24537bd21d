ghost use Rattle.std.specs.Prelude.{◌≡◌, ◌≤◌, ◌<◌, ◌^◌, ℕ, length, slice_index, OnOk, OnErr};
ghost use Rattle.mcs_window.specs.stored.Delivery.{count_for, AreDelivered, AreSameMail, HaveRoom};

use mcs_mail::{Mail, Mailbox};
use mcs_system::System;
use mcs_ticks::{CoreId, NoMemory};

/// Puts each signal into the box of its home. If memory runs out, no box gets any.
pub(crate) fn deliver(
    system: &System,
    boxes: &mut [Mailbox],
    signals: &[Mail],
) -> Result<(), NoMemory>
    requires { length boxes.old ≡ system.now.cores }
    ensures delivered { OnOk result (AreDelivered system.now signals.now boxes.old boxes.new) }
    ensures refused { OnErr result (AreSameMail boxes.old boxes.new) }
{
    if signals.is_empty() {
        return Ok(());
    }
    make_room(system, boxes, signals)?;
    deliver_reserved(system, boxes, signals);
    Ok(())
}

/// Reserves room for the signals in the boxes of their homes.
pub(crate) fn make_room(
    system: &System,
    boxes: &mut [Mailbox],
    signals: &[Mail],
) -> Result<(), NoMemory>
    requires { length boxes.old ≡ system.now.cores }
    ensures mails { AreSameMail boxes.old boxes.new }
    ensures room { OnOk result (HaveRoom system.now signals.now boxes.new) }
{
    let counts = counts_for(system, signals);
    for core in 0..system.parts().cores {
        make_room_for(&mut boxes[core], counts[core])?;
    }
    Ok(())
}

/// Reserves room for `more` signals. If `more` is 0 the box is not touched.
fn make_room_for(mailbox: &mut Mailbox, more: usize) -> Result<(), NoMemory>
    ensures mails { mailbox.new.mails ≡ mailbox.old.mails }
    ensures spare { OnOk result (more ≤ mailbox.new.spare) }
{
    if more == 0 {
        return Ok(());
    }
    mailbox.reserve(more)
}

fn counts_for(system: &System, signals: &[Mail]) -> [usize; 64]
    ensures { (c : ℕ) → c < 64 → slice_index result c ≡ count_for system.now c signals.now }
{
    let _parts = system.parts();
    let mut counts = [0; 64];
    for mail in signals {
        counts[system.home_of(mail.note).0] += 1;
    }
    counts
}

/// Puts each signal into the box of its home, which has room for it.
pub(crate) fn deliver_reserved(system: &System, boxes: &mut [Mailbox], signals: &[Mail])
    requires many { length boxes.old ≡ system.now.cores }
    requires room { HaveRoom system.now signals.now boxes.old }
    ensures { AreDelivered system.now signals.now boxes.old boxes.new }
{
    for mail in signals {
        let put = boxes[system.home_of(mail.note).0].put(*mail).is_ok();
        prove!(put);
    }
}

ghost use Rattle.std.specs.Prelude.{◌≡◌, ◌↔◌, ◌++◌, ◌≤◌, ◌<◌, [], length, slice_index_or, option_to_list, IfNone, IsTrue, OnOk, List};
ghost use Rattle.mcs_mail.specs.Box.{put_all};
ghost use Rattle.mcs_ticks.specs.declared.row.Row.{Row};
ghost use Rattle.mcs_window.specs.stored.Delivery.{IsJoined};

use crate::Front;
use crate::append::Append;
use mcs_mail::{Mail, Mailbox};
use mcs_ticks::NoMemory;
use std::mem;

pub(crate) fn same_front(one: &Front, other: &Front) -> bool
    ensures { IsTrue result ↔ one.now ≡ other.now }
{
    one == other
}

/// Reserves room for the return of a core: in its box for the mail collected meanwhile, and in its
/// collector for the rows of the stretch.
pub(crate) fn make_own_room<S: Append>(
    mailbox: &mut Mailbox,
    collected: &Mailbox,
    told: &mut S,
    more: &S,
) -> Result<(), NoMemory>
    ensures mails { mailbox.new.mails ≡ mailbox.old.mails }
    ensures told { (held : List Row) → S.holds told.old held → S.holds told.new held }
    ensures mail_room { OnOk result (length collected.now.mails ≤ mailbox.new.spare) }
    ensures told_room { OnOk result (S.has_room told.new more.now) }
{
    mailbox.reserve(collected.len())?;
    told.make_room(more)
}

fn take_first(mailbox: &mut Mailbox) -> Option<Mail>
    ensures first { mailbox.old.mails ≡ option_to_list result ++ mailbox.new.mails }
    ensures none { IfNone result (mailbox.old.mails ≡ []) }
{
    let next = mailbox.next()?;
    mailbox.take_due(next)
}

/// Moves all collected mail into a box, which has room for it.
fn join(mailbox: &mut Mailbox, collected: &mut Mailbox)
    requires { length collected.old.mails ≤ mailbox.old.spare }
    ensures { mailbox.new.mails ≡ put_all collected.old.mails mailbox.old.mails }
{
    for _ in 0..collected.len() {
        if let Some(mail) = take_first(collected) {
            let put = mailbox.put(mail).is_ok();
            prove!(put);
        }
    }
}

/// Replaces the box that collected mail for a lent core by the core's own box, and moves the
/// collected mail into it.
pub(crate) fn put_box(boxes: &mut [Mailbox], core: usize, mailbox: Mailbox)
    requires known { core < length boxes.old }
    requires room { length (slice_index_or boxes.old core mailbox).mails ≤ mailbox.spare }
    ensures { IsJoined core mailbox boxes.old boxes.new }
{
    let mut collected = mem::replace(&mut boxes[core], mailbox);
    join(&mut boxes[core], &mut collected);
}

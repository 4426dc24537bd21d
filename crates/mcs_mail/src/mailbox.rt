ghost use Rattle.std.specs.Prelude.{◌≡◌, ◌≤◌, ◌+◌, [], length, drop, slice_get, OnOk, OnErr, IfErr, IsOk};
ghost use Rattle.mcs_mail.specs.Box.{put, due, without_due, first_arrival, IsOrdered};

use crate::Mail;
use crate::merged::Merged;
use mcs_ticks::{NoMemory, Soonest, Tick};
use std::alloc::Global;
use std::marker::Model;

/// The mail for one core, in order of delivery. Contracts see the list, and `spare`, the number of
/// puts that surely fit.
#[derive(Debug, Drop)]
pub struct Mailbox {
    mail: Merged,
    /// when the first mail arrives, so that asking takes constant time
    next: Soonest,
}

impl Model for Mailbox {
    ghost use Rattle.mcs_mail.specs.Box.{Content};

    ghost Value = { Content };

    ghost view = { λ a. a.mail };

    ghost use Rattle.mcs_mail.specs.stored.Late.{IsNoted};

    ghost invariant = { λ a. IsNoted a.mail.mails a.next };
}

impl Mailbox {
    /// Returns an empty mailbox; allocates no memory.
    pub fn new(alloc: Global) -> Self
        ensures { result.mails ≡ [] }
    {
        Mailbox {
            mail: Merged::new(alloc),
            next: Soonest::never(),
        }
    }

    /// Puts mail after all mail that is not delivered after it. If memory runs out, the mail is
    /// handed back and the mailbox is unchanged. A put succeeds if `spare` is not 0.
    ///
    /// Takes constant time for mail in order of delivery, otherwise time logarithmic in the mail
    /// that came out of order.
    pub fn put(&mut self, mail: Mail) -> Result<(), (Mail, NoMemory)>
        ensures ok { OnOk result (self.new.mails ≡ put mail self.old.mails) }
        ensures handed_back { IfErr result (λ back. back.0 ≡ mail) }
        ensures unchanged { OnErr result (self.new.mails ≡ self.old.mails) }
        ensures succeeds { 1 ≤ self.old.spare → IsOk result }
        ensures spare { OnOk result (self.old.spare ≤ self.new.spare + 1) }
    {
        let put = self.mail.put(mail);
        self.next = Soonest::of(self.mail.next());
        put
    }

    /// Allocates room for `n` more puts; succeeds if `spare` is already `n`. The mail is unchanged.
    pub fn reserve(&mut self, n: usize) -> Result<(), NoMemory>
        ensures mails { self.new.mails ≡ self.old.mails }
        ensures spare { OnOk result (n ≤ self.new.spare) }
        ensures no_less { self.old.spare ≤ self.new.spare }
        ensures enough { n ≤ self.old.spare → IsOk result }
    {
        self.mail.reserve(n)
    }

    /// Takes the first mail if it arrives at `t` or before.
    #[inline(always)]
    pub fn take_due(&mut self, t: Tick) -> Option<Mail>
        ensures taken { result ≡ due t self.old.mails }
        ensures left { self.new.mails ≡ without_due t self.old.mails }
        ensures spare { self.old.spare ≤ self.new.spare }
        ensures in_order { IsOrdered self.old.mails }
    {
        if self.next.has_come(t) {
            self.take_first()
        } else {
            None
        }
    }

    /// Returns when the first mail arrives, or `None` if there is no mail.
    #[inline(always)]
    pub fn next(&self) -> Option<Tick>
        ensures first { result ≡ first_arrival self.now.mails }
        ensures in_order { IsOrdered self.now.mails }
    {
        self.next.moment()
    }

    /// Returns when the first mail arrives, or never.
    #[inline(always)]
    pub fn soonest(&self) -> Soonest
        ensures first { result ≡ first_arrival self.now.mails }
        ensures in_order { IsOrdered self.now.mails }
    {
        self.next
    }

    /// Returns the number of signals on their way.
    pub fn len(&self) -> usize
        ensures count { result ≡ length self.now.mails }
        ensures in_order { IsOrdered self.now.mails }
    {
        self.mail.len()
    }

    /// Takes the first mail.
    #[inline(never)]
    fn take_first(&mut self) -> Option<Mail>
        ensures taken { result ≡ slice_get self.old.mails 0 }
        ensures left { self.new.mails ≡ drop 1 self.old.mails }
        ensures spare { self.old.spare ≤ self.new.spare }
    {
        let first = self.mail.take_first();
        self.next = Soonest::of(self.mail.next());
        first
    }
}

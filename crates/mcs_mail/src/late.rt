ghost use Rattle.std.specs.Prelude.{◌≡◌, ◌+◌, ◌-◌, ◌^◌, ◌<◌, ◌≤◌, nat_le, [], length, drop, slice_get, OnOk, OnErr, IfErr, IsOk};
ghost use Rattle.mcs_mail.specs.Box.{put};
ghost use Rattle.mcs_mail.specs.stored.Numbers.{numbered, mail_of};

use crate::Mail;
use mcs_ticks::{CoreId, NoMemory, NoteId, Tick};
use std::alloc::Global;
use std::cmp::Reverse;
use std::collections::BinaryHeap;
use std::marker::Model;

/// Mail with a number, in order of delivery; equal mail is ordered by number. Mail that was put
/// later has a greater number.
#[derive(Clone, Copy, Debug, PartialEq, Eq, PartialOrd, Ord)]
struct Numbered {
    arrives: Tick,
    made: Tick,
    maker: CoreId,
    number: usize,
    note: NoteId,
    badge: u32,
}

/// Mail in a heap. Contracts see the mail in order of delivery, `spare` (the number of puts that
/// surely fit) and `next`, the number of the next mail.
#[derive(Debug, Drop)]
pub(crate) struct Late {
    heap: BinaryHeap<Reverse<Numbered>>,
    /// greater than the numbers of all held mail
    next: usize,
}

impl Model for Late {
    ghost use Rattle.mcs_mail.specs.stored.Numbers.{LateMail};

    ghost Value = { LateMail };

    ghost use Rattle.std.specs.Prelude.{◌-◌};
    ghost use Rattle.std.specs.BinaryHeap.{heap_items, heap_len, heap_capacity};
    ghost use Rattle.mcs_mail.specs.stored.Numbers.{in_order, mails_of, IsNumbered};

    ghost view = { λ a.
        record {
          mails = mails_of (in_order (heap_items a.heap));
          spare = heap_capacity a.heap - heap_len a.heap;
          next = a.next;
        } };

    ghost invariant = { λ a. IsNumbered (heap_items a.heap) a.next };
}

impl Late {
    /// Returns an empty heap; allocates no memory.
    pub(crate) fn new(alloc: Global) -> Self
        ensures { result.mails ≡ [] }
    {
        Late {
            heap: BinaryHeap::new(alloc),
            next: 0,
        }
    }

    /// Returns the number of mails.
    pub(crate) fn len(&self) -> usize
        ensures { result ≡ length self.now.mails }
    {
        self.heap.len()
    }

    /// Returns the first mail, or `None` if there is none.
    pub(crate) fn first(&self) -> Option<Mail>
        ensures { result ≡ slice_get self.now.mails 0 }
    {
        let first = self.heap.peek()?;
        Some(first.0.mail())
    }

    /// Takes the first mail.
    pub(crate) fn take_first(&mut self) -> Option<Mail>
        ensures taken { result ≡ slice_get self.old.mails 0 }
        ensures left { self.new.mails ≡ drop 1 self.old.mails }
        ensures spare { self.old.spare ≤ self.new.spare }
    {
        let first = self.heap.pop()?;
        Some(first.0.mail())
    }

    /// Puts mail after all mail that is not delivered after it. If memory runs out, the mail is
    /// handed back.
    pub(crate) fn put(&mut self, mail: Mail) -> Result<(), (Mail, NoMemory)>
        requires { self.old.next + 1 < 2 ^ 64 }
        ensures ok { OnOk result (self.new.mails ≡ put mail self.old.mails) }
        ensures handed_back { IfErr result (λ back. back.0 ≡ mail) }
        ensures unchanged { OnErr result (self.new.mails ≡ self.old.mails) }
        ensures succeeds { 1 ≤ self.old.spare → IsOk result }
        ensures spare { OnOk result (self.old.spare ≤ self.new.spare + 1) }
    {
        let numbered = Numbered::new(self.next, &mail);
        match self.heap.push(Reverse(numbered)) {
            Ok(()) => {
                self.next += 1;
                Ok(())
            }
            Err(_refused) => Err((mail, NoMemory)),
        }
    }

    /// Allocates room for `n` more puts.
    pub(crate) fn reserve(&mut self, n: usize) -> Result<(), NoMemory>
        ensures mails { self.new.mails ≡ self.old.mails }
        ensures spare { OnOk result (n ≤ self.new.spare) }
        ensures no_less { self.old.spare ≤ self.new.spare }
        ensures enough { n ≤ self.old.spare → IsOk result }
    {
        self.heap.reserve(n)?;
        Ok(())
    }

    /// Whether all numbers are used up.
    pub(crate) fn is_spent(&self) -> bool
        ensures { result ≡ nat_le (2 ^ 64 - 1) self.now.next }
    {
        self.next == usize::MAX
    }

    /// Restarts the numbers at 0. The caller ensures that there is no mail.
    pub(crate) fn restart(&mut self)
        requires { self.old.mails ≡ [] }
        ensures { self.new ≡ record self.old { next = 0 } }
    {
        self.next = 0;
    }
}

impl Numbered {
    fn new(number: usize, mail: &Mail) -> Self
        ensures { result ≡ numbered number mail.now }
    {
        Numbered {
            arrives: mail.arrives,
            made: mail.made,
            maker: mail.maker,
            number,
            note: mail.note,
            badge: mail.badge,
        }
    }

    fn mail(self) -> Mail
        ensures { result ≡ mail_of self }
    {
        Mail {
            arrives: self.arrives,
            made: self.made,
            maker: self.maker,
            note: self.note,
            badge: self.badge,
        }
    }
}

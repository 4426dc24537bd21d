ghost use Rattle.std.specs.Prelude.{◌≡◌, ◌<◌, ◌≤◌, ◌+◌, ◌^◌, [], length, drop, slice_get, OnOk, OnErr, IfErr, IsOk, insert};
ghost use Rattle.std.specs.VecDeque.{deque_len, deque_capacity};
ghost use Rattle.mcs_mail.specs.Box.{is_before, put, put_all, first_arrival, IsOrdered};
ghost use Rattle.mcs_mail.specs.stored.Late.{last_or, late_is_first, sooner_of, IsMerged};

use crate::Mail;
use crate::late::Late;
use mcs_ticks::{NoMemory, Tick};
use std::alloc::Global;
use std::collections::VecDeque;
use std::marker::Model;

/// Mail in order of delivery, in a ring and a heap of late mail. Contracts see the list, and
/// `spare`, the number of puts that surely fit.
#[derive(Debug, Drop)]
pub(crate) struct Merged {
    /// in order of delivery, with capacity for the late mail too
    ring: VecDeque<Mail>,
    /// mail put out of order: it is delivered before the last of the ring
    late: Late,
}

impl Model for Merged {
    ghost use Rattle.mcs_mail.specs.Box.{Content};

    ghost Value = { Content };

    ghost use Rattle.std.specs.Prelude.{◌-◌, ◌+◌, length, min};
    ghost use Rattle.std.specs.VecDeque.{deque_len, deque_capacity};
    ghost use Rattle.mcs_mail.specs.Box.{put_all};
    ghost use Rattle.mcs_mail.specs.stored.Late.{IsMerged};

    ghost view = { λ a.
        record {
          mails = put_all a.late.mails a.ring.items;
          spare = min (deque_capacity a.ring - (deque_len a.ring + length a.late.mails)) a.late.spare;
        } };

    ghost invariant = { λ a. IsMerged a.late.mails a.ring.items (deque_capacity a.ring) };
}

impl Merged {
    /// Returns an empty list; allocates no memory.
    pub(crate) fn new(alloc: Global) -> Self
        ensures { result.mails ≡ [] }
    {
        Merged {
            ring: VecDeque::new(alloc),
            late: Late::new(alloc),
        }
    }

    /// Puts mail, with the results of `Mailbox::put`.
    pub(crate) fn put(&mut self, mail: Mail) -> Result<(), (Mail, NoMemory)>
        ensures ok { OnOk result (self.new.mails ≡ put mail self.old.mails) }
        ensures handed_back { IfErr result (λ back. back.0 ≡ mail) }
        ensures unchanged { OnErr result (self.new.mails ≡ self.old.mails) }
        ensures succeeds { 1 ≤ self.old.spare → IsOk result }
        ensures spare { OnOk result (self.old.spare ≤ self.new.spare + 1) }
    {
        match prepare(&mut self.ring, &mut self.late) {
            Err(refusal) => Err((mail, refusal)),
            Ok(()) if is_late(&self.ring, &mail) => self.late.put(mail),
            Ok(()) => {
                self.ring.push_back_reserved(mail);
                Ok(())
            }
        }
    }

    /// Allocates room for `n` more puts; succeeds if `spare` is already `n`.
    pub(crate) fn reserve(&mut self, n: usize) -> Result<(), NoMemory>
        ensures mails { self.new.mails ≡ self.old.mails }
        ensures spare { OnOk result (n ≤ self.new.spare) }
        ensures no_less { self.old.spare ≤ self.new.spare }
        ensures enough { n ≤ self.old.spare → IsOk result }
    {
        make_room(&mut self.ring, self.late.len(), n)?;
        self.late.reserve(n)
    }

    /// Returns when the first mail arrives, or `None` if there is no mail.
    pub(crate) fn next(&self) -> Option<Tick>
        ensures first { result ≡ first_arrival self.now.mails }
        ensures in_order { IsOrdered self.now.mails }
    {
        sooner(self.ring.front().copied(), self.late.first())
    }

    /// Returns the number of signals on their way.
    pub(crate) fn len(&self) -> usize
        ensures count { result ≡ length self.now.mails }
        ensures in_order { IsOrdered self.now.mails }
    {
        self.ring.len() + self.late.len()
    }

    /// Takes the first mail.
    pub(crate) fn take_first(&mut self) -> Option<Mail>
        ensures taken { result ≡ slice_get self.old.mails 0 }
        ensures left { self.new.mails ≡ drop 1 self.old.mails }
        ensures spare { self.old.spare ≤ self.new.spare }
    {
        if late_is_first(&self.ring, &self.late) {
            self.late.take_first()
        } else {
            self.ring.pop_front()
        }
    }
}

/// Whether the first mail is late. If the first late mail and the first of the ring are equal, the
/// one in the ring was put earlier.
fn late_is_first(ring: &VecDeque<Mail>, late: &Late) -> bool
    ensures { result ≡ late_is_first late.now.mails ring.now.items }
{
    match (late.first(), ring.front()) {
        (Some(first), Some(front)) => first.is_before(front),
        _ => false,
    }
}

/// Returns when the sooner of the first of the ring and the first late mail arrives. If the ring is
/// empty, there is no late mail.
fn sooner(front: Option<Mail>, late: Option<Mail>) -> Option<Tick>
    ensures { result ≡ sooner_of front late }
{
    let front = front?.arrives;
    match late {
        Some(late) if late.arrives < front => Some(late.arrives),
        _ => Some(front),
    }
}

/// Prepares for a put: the ring has room for one more, and a number is left for late mail.
fn prepare(ring: &mut VecDeque<Mail>, late: &mut Late) -> Result<(), NoMemory>
    requires { IsMerged late.old.mails ring.old.items (deque_capacity ring.old) }
    ensures merged { IsMerged late.new.mails ring.new.items (deque_capacity ring.new) }
    ensures mails { put_all late.new.mails ring.new.items ≡ put_all late.old.mails ring.old.items }
    ensures count { deque_len ring.new + length late.new.mails ≡ deque_len ring.old + length late.old.mails }
    ensures room { OnOk result (deque_len ring.new + length late.new.mails + 1 ≤ deque_capacity ring.new) }
    ensures number { OnOk result (late.new.next + 1 < 2 ^ 64) }
    ensures capacity { deque_capacity ring.old ≤ deque_capacity ring.new }
    ensures spare { late.old.spare ≤ late.new.spare }
    ensures enough { deque_len ring.old + length late.old.mails + 1 ≤ deque_capacity ring.old → IsOk result }
{
    make_room(ring, late.len(), 1)?;
    if late.is_spent() {
        settle(ring, late);
    }
    Ok(())
}

/// Allocates room in the ring for the late mail and `n` more. It also asks for the late mail once
/// more, which spreads the cost over many puts.
fn make_room(ring: &mut VecDeque<Mail>, late: usize, n: usize) -> Result<(), NoMemory>
    requires { deque_len ring.old + late ≤ deque_capacity ring.old }
    ensures items { ring.new.items ≡ ring.old.items }
    ensures room { OnOk result (deque_len ring.new + late + n ≤ deque_capacity ring.new) }
    ensures capacity { deque_capacity ring.old ≤ deque_capacity ring.new }
    ensures enough { deque_len ring.old + late + n ≤ deque_capacity ring.old → IsOk result }
{
    if ring.capacity() - ring.len() - late < n {
        ring.reserve((2 * late).saturating_add(n))?;
    }
    Ok(())
}

/// Whether the last of the ring is delivered after the mail.
fn is_late(ring: &VecDeque<Mail>, mail: &Mail) -> bool
    ensures { result ≡ is_before mail.now (last_or mail.now ring.now.items) }
{
    match ring.back() {
        Some(last) => mail.is_before(last),
        None => false,
    }
}

/// Moves the late mail to its places in the ring and restarts the numbers at 0. This happens at
/// most once in 2^64 - 1 puts of late mail.
fn settle(ring: &mut VecDeque<Mail>, late: &mut Late)
    requires order { IsOrdered ring.old.items }
    requires room { deque_len ring.old + length late.old.mails ≤ deque_capacity ring.old }
    ensures ring { ring.new.items ≡ put_all late.old.mails ring.old.items }
    ensures late { late.new.mails ≡ [] }
    ensures numbers { late.new.next ≡ 0 }
    ensures capacity { deque_capacity ring.old ≤ deque_capacity ring.new }
    ensures spare { late.old.spare ≤ late.new.spare }
{
    for _ in 0..late.len() {
        if let Some(mail) = late.take_first() {
            let place = place_of(ring, &mail);
            let put = ring.insert(place, mail).is_ok();
            prove!(put);
        }
    }
    late.restart();
}

/// Returns the index at which to insert the mail: after all mail that is not delivered after it.
fn place_of(mails: &VecDeque<Mail>, mail: &Mail) -> usize
    requires { IsOrdered mails.now.items }
    ensures within { result ≤ length mails.now.items }
    ensures place { insert mails.now.items result mail.now ≡ put mail.now mails.now.items }
{
    match mails.back() {
        Some(last) if mail.is_before(last) => mails.partition_point(|other| !mail.is_before(other)),
        _ => mails.len(),
    }
}

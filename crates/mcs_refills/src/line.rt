ghost use Rattle.std.specs.Prelude.{◌≡◌, ◌<◌, ◌≤◌, Some, [], ◌∷◌, ◌++◌, ◌-◌, IfOk, length, take, drop, slice_get};
ghost use Rattle.circular_buffer.specs.Buffer.{buffer, last_item};

use crate::Refill;
use circular_buffer::HeapCircularBuffer;
use std::alloc::{AllocError, Global};
use std::marker::Model;

/// One refill or more. The first lies in this struct and the others in a ring, so reading the first
/// touches no other memory. Contracts see one list, and its capacity.
#[derive(Debug, Drop)]
pub struct Line {
    head: Refill,
    others: HeapCircularBuffer<Refill>,
}

impl Model for Line {
    ghost use Rattle.std.specs.Prelude.{◌+◌, ◌∷◌};
    ghost use Rattle.circular_buffer.specs.Buffer.{Buffer, buffer};
    ghost use Rattle.mcs_refills.specs.declared.refill.Refill.{Refill};

    ghost Value = { Buffer Refill };

    ghost view = { λ a. buffer (a.head ∷ a.others.items) (a.others.capacity + 1) };
}

impl Line {
    /// Returns a line of one refill, with capacity for `room` refills.
    pub fn new(alloc: Global, refill: Refill, room: usize) -> Result<Self, AllocError>
        requires some { 1 ≤ room }
        ensures { IfOk result (λ line. line ≡ buffer (refill ∷ []) room) }
    {
        let others = HeapCircularBuffer::with_capacity(alloc, room - 1)?;
        Ok(Line {
            head: refill,
            others,
        })
    }

    /// Returns the first refill.
    pub fn first(&self) -> Refill
        ensures { slice_get self.now.items 0 ≡ Some result }
    {
        self.head
    }

    /// Returns the last refill.
    pub fn last(&self) -> Refill
        ensures { Some result ≡ last_item self.now.items }
    {
        match self.others.back() {
            Some(refill) => *refill,
            None => self.head,
        }
    }

    /// Returns the refill at index `i`, from 0, or `None` past the last.
    pub fn get(&self, i: usize) -> Option<Refill>
        ensures { result ≡ slice_get self.now.items i }
    {
        if i == 0 {
            Some(self.head)
        } else {
            self.others.get(i - 1).copied()
        }
    }

    /// Returns the number of refills.
    pub fn len(&self) -> usize
        ensures { result ≡ length self.now.items }
    {
        self.others.len() + 1
    }

    /// Replaces the first refill.
    pub(crate) fn set_first(&mut self, refill: Refill)
        ensures { self.new ≡ buffer (refill ∷ drop 1 self.old.items) self.old.capacity }
    {
        self.head = refill;
    }

    /// Replaces the last refill.
    pub(crate) fn set_last(&mut self, refill: Refill)
        ensures { self.new ≡ buffer (take (length self.old.items - 1) self.old.items ++ refill ∷ []) self.old.capacity }
    {
        if self.others.is_empty() {
            self.head = refill;
        } else {
            replace_last(&mut self.others, refill);
        }
    }

    /// Removes the first refill; the caller ensures that there is another.
    pub(crate) fn drop_first(&mut self)
        requires { 2 ≤ length self.old.items }
        ensures { self.new ≡ buffer (drop 1 self.old.items) self.old.capacity }
    {
        match pop_first(&mut self.others) {
            Some(next) => self.head = next,
            None => unreachable!(),
        }
    }

    /// Appends a refill. The caller ensures that there is room, so no refill is overwritten.
    pub fn push_last(&mut self, refill: Refill)
        requires room { length self.old.items < self.old.capacity }
        ensures { self.new ≡ buffer (self.old.items ++ refill ∷ []) self.old.capacity }
    {
        self.others.push_back(refill);
    }

    /// Replaces all refills by one.
    pub(crate) fn set_only(&mut self, refill: Refill)
        ensures { self.new ≡ buffer (refill ∷ []) self.old.capacity }
    {
        self.head = refill;
        self.others.clear();
    }
}

fn replace_last(ring: &mut HeapCircularBuffer<Refill>, refill: Refill)
    requires some { 1 ≤ length ring.old.items }
    ensures { ring.new ≡ buffer (take (length ring.old.items - 1) ring.old.items ++ refill ∷ []) ring.old.capacity }
{
    let place = ring.len() - 1;
    match ring.get_mut(place) {
        Some(last) => *last = refill,
        None => unreachable!(),
    }
}

/// Removes the first refill of a ring. An only refill is popped from the back, so the ring's start
/// does not move.
fn pop_first(ring: &mut HeapCircularBuffer<Refill>) -> Option<Refill>
    ensures value { result ≡ slice_get ring.old.items 0 }
    ensures items { ring.new ≡ buffer (drop 1 ring.old.items) ring.old.capacity }
{
    if ring.len() == 1 {
        ring.pop_back()
    } else {
        ring.pop_front()
    }
}

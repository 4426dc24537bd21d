ghost use Rattle.std.specs.Prelude.{◌≡◌, ◌≤◌, ◌↔◌, [], ◌∷◌, ◌++◌, filter, IfOk, IsTrue, OnOk, OnErr};
ghost use Rattle.mcs_ever_again.specs.UnderWay.{arrives_from};
ghost use Rattle.mcs_ever_again.specs.stored.Store.{left};

use mcs_mail::Mail;
use mcs_ticks::{NoMemory, Tick};
use std::alloc::Global;
use std::collections::VecDeque;

/// Signals that may be stored before the first sweep: to visit fewer is not worth one.
const ROOM: usize = 64;

/// Signals in the order in which they were made. Those that arrive at `from` or later are left. The
/// others stay until they are in front, or until a sweep removes all of them.
#[derive(Debug, Drop)]
pub(crate) struct Store {
    pub(crate) mails: VecDeque<Mail>,
    pub(crate) from: Tick,
    /// The number of stored signals above which the next sweep is made.
    pub(crate) room: usize,
}

impl Store {
    /// Returns an empty store. Allocates no memory.
    pub(crate) fn new(alloc: Global) -> Self
        ensures { left result ≡ [] }
    {
        Store {
            mails: VecDeque::new(alloc),
            from: Tick::ZERO,
            room: ROOM,
        }
    }

    /// Appends a signal. Fails only if memory runs out; none is lost then.
    pub(crate) fn put(&mut self, mail: Mail) -> Result<(), NoMemory>
        ensures joined { OnOk result (left self.new ≡ left self.old ++ mail ∷ []) }
        ensures unchanged { OnErr result (left self.new ≡ left self.old) }
    {
        self.go_back_to(mail.arrives);
        self.mails.push_back(mail)?;
        Ok(())
    }

    /// Makes `from` at most `t`, so that a signal that arrives at `t` can be left. In a run it
    /// always is: a signal arrives after its row.
    fn go_back_to(&mut self, t: Tick)
        ensures list { left self.new ≡ left self.old }
        ensures from { self.new.from ≤ t }
    {
        if self.from <= t {
            return;
        }
        self.sweep();
        self.from = t;
    }

    /// Forgets the signals that arrive before the moment. A sweep visits less than twice as many as
    /// were put since the sweep before it.
    pub(crate) fn forget_before(&mut self, t: Tick)
        ensures { left self.new ≡ filter (arrives_from t) (left self.old) }
    {
        self.go_on_to(t);
        drop_front(&mut self.mails, self.from);
        if self.mails.len() > self.room {
            self.sweep();
        }
    }

    /// Makes `from` at least `t`.
    fn go_on_to(&mut self, t: Tick)
        ensures { left self.new ≡ filter (arrives_from t) (left self.old) }
    {
        if self.from < t {
            self.from = t;
        }
    }

    /// Removes the signals that are not left, and makes room for twice as many as are.
    fn sweep(&mut self)
        ensures all { self.new.mails.items ≡ left self.old }
        ensures from { self.new.from ≡ self.old.from }
        ensures list { left self.new ≡ left self.old }
    {
        let from = self.from;
        self.mails.retain(|mail| mail.arrives >= from);
        self.room = ROOM.saturating_add(self.mails.len().saturating_mul(2));
    }

    /// Whether no signal is left. Ends at the first one that is.
    pub(crate) fn is_empty(&self) -> bool
        ensures { IsTrue result ↔ (left self.now ≡ []) }
    {
        for i in 0..self.mails.len() {
            if self.mails[i].arrives >= self.from {
                return false;
            }
        }
        true
    }

    /// Returns a copy. Fails only if memory runs out.
    pub(crate) fn copied(&self, alloc: Global) -> Result<Self, NoMemory>
        ensures { IfOk result (λ copy. left copy ≡ left self.now) }
    {
        let mails: Vec<Mail> = self.mails.iter().copied().collect(alloc)?;
        Ok(Store {
            mails: VecDeque::from_vec(mails),
            from: self.from,
            room: self.room,
        })
    }
}

/// Drops the signals in front that arrive before the moment.
fn drop_front(mails: &mut VecDeque<Mail>, t: Tick)
    ensures { filter (arrives_from t) mails.new.items ≡ filter (arrives_from t) mails.old.items }
{
    for _ in 0..mails.len() {
        match mails.front() {
            Some(mail) if mail.arrives < t => {}
            _ => return,
        }
        let _ = mails.pop_front();
    }
}

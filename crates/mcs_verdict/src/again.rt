ghost use Rattle.std.specs.Prelude.{◌≡◌, ◌+◌, IfOk, IsTrue, ◌↔◌};
ghost use Rattle.mcs_verdict.specs.Later.{later_moment, IsLaterAccount, IsLaterThread, IsSameWord, IsLaterWord};

use crate::Watch;
use crate::account::Account;
use crate::tracked::Tracked;
use mcs_ticks::{NoMemory, NoteId, ThreadId, Tick};
use std::alloc::Global;

/// Whether `moment` is `by` ticks after `before`.
fn is_later(moment: Tick, before: Tick, by: u64) -> bool
    ensures { IsTrue result ↔ (moment ≡ before + by) }
{
    before.get() <= moment.get() && moment.get() - before.get() == by
}

/// `is_later` for times that may be missing; both missing counts as later.
fn is_later_moment(moment: Option<Tick>, before: Option<Tick>, by: u64) -> bool
    ensures { IsTrue result ↔ (moment ≡ later_moment by before) }
{
    match (moment, before) {
        (Some(moment), Some(before)) => is_later(moment, before, by),
        (None, None) => true,
        _ => false,
    }
}

fn are_moments_later(after: &Account, before: &Account, by: u64) -> bool
    ensures { IsTrue result ↔ ((after.now.since ≡ before.now.since + by)
        × (after.now.free ≡ before.now.free + by)
        × (after.now.begun ≡ later_moment by before.now.begun)
        × (after.now.called ≡ later_moment by before.now.called)
        × (after.now.active ≡ later_moment by before.now.active)) }
{
    is_later(after.since, before.since, by)
        && is_later(after.free, before.free, by)
        && is_later_moment(after.begun, before.begun, by)
        && is_later_moment(after.called, before.called, by)
        && is_later_moment(after.active, before.active, by)
}

/// Whether everything but the times is equal, except the number of its rounds and how the thread
/// stood from time 0 on.
fn stands_so(after: &Account, before: &Account) -> bool
    ensures { IsTrue result ↔ ((after.now.deadline ≡ before.now.deadline)
        × (after.now.waits ≡ before.now.waits)
        × (after.now.bits ≡ before.now.bits)
        × (after.now.standing ≡ before.now.standing)
        × (after.now.preemptions ≡ before.now.preemptions)
        × (after.now.stood ≡ before.now.stood)) }
{
    after.deadline == before.deadline
        && after.waits == before.waits
        && after.bits == before.bits
        && after.standing == before.standing
        && after.preemptions == before.preemptions
        && after.stood == before.stood
}

fn is_later_account(after: &Account, before: &Account, by: u64) -> bool
    ensures { IsTrue result ↔ IsLaterAccount by before.now after.now }
{
    stands_so(after, before) && are_moments_later(after, before, by)
}

impl Watch {
    /// Returns a copy. `NoMemory` if memory runs out.
    pub fn copy(&self, alloc: Global) -> Result<Watch, NoMemory>
        ensures { IfOk result (λ copy. copy ≡ self.now) }
    {
        Ok(Watch {
            accounts: self
                .accounts
                .iter()
                .map(|tracked| Tracked::of(*tracked.account()))
                .collect(alloc)?,
            words: self.words.iter().copied().collect(alloc)?,
        })
    }

    /// Whether the account of the thread is that of `before` with each time `by` ticks later. The
    /// number of its rounds and how it stood from time 0 on are not compared, since they grow.
    /// False if either watch does not know the thread.
    pub fn thread_is_later(&self, before: &Watch, thread: ThreadId, by: u64) -> bool
        ensures { IsTrue result ↔ IsLaterThread by before.now self.now thread }
    {
        thread.0 < before.accounts.len()
            && thread.0 < self.accounts.len()
            && is_later_account(
                self.accounts[thread.0].account(),
                before.accounts[thread.0].account(),
                by,
            )
    }

    /// Whether the notification's word is the same as in `before`. False if either watch does not
    /// know the notification.
    pub fn word_is_same(&self, before: &Watch, note: NoteId) -> bool
        ensures { IsTrue result ↔ IsSameWord before.now self.now note }
    {
        note.0 < before.words.len()
            && note.0 < self.words.len()
            && self.words[note.0].word == before.words[note.0].word
    }

    /// Whether the time at which the word was set to leave something to do, first since it was last
    /// taken, is `by` ticks later than in `before`. False if either watch does not know the
    /// notification.
    pub fn word_is_later(&self, before: &Watch, note: NoteId, by: u64) -> bool
        ensures { IsTrue result ↔ IsLaterWord by before.now self.now note }
    {
        note.0 < before.words.len()
            && note.0 < self.words.len()
            && is_later(self.words[note.0].since, before.words[note.0].since, by)
    }
}

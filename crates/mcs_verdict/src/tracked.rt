//! The account of a thread, and what its next rows count of a round.
ghost use Rattle.std.specs.Prelude.{◌≡◌, ◌+◌, ◌<◌, ◌^◌, [], List};
ghost use Rattle.mcs_ticks.specs.declared.row.Row.{Row as TheRow};
ghost use Rattle.mcs_verdict.specs.declared.held.Held.{Held as TheHeld};
ghost use Rattle.mcs_verdict.specs.Account.{account_of, all_kept, ends, given, seen_own};
ghost use Rattle.mcs_verdict.specs.Counts.{stands_from};
ghost use Rattle.mcs_verdict.specs.Watch.{words_of};
ghost use Rattle.mcs_verdict.specs.Words.{word_for};

use crate::Standing;
use crate::account::{Account, later};
use crate::held::Held;
use crate::standing::standing_after;
use crate::watch::set_for;
use mcs_system::ThreadPart;
use mcs_ticks::{NoteId, Tick, What, Why};
use std::marker::Model;

/// What the rows of a thread count of the round under way.
#[derive(Clone, Copy, Debug, PartialEq, Eq)]
pub(crate) enum Counts {
    /// No tick is counted so far.
    Nothing,
    /// Each tick from the latest row on counts, and the thread was ready or running before.
    Each,
    /// Some ticks may be counted, and some may count.
    Unknown,
}

/// The account of a thread, which contracts see, and what its next rows count. Most rows come in a
/// round that counts each tick, and then take few steps.
#[derive(Debug, Drop)]
pub(crate) struct Tracked {
    account: Account,
    counts: Counts,
}

impl Model for Tracked {
    ghost use Rattle.mcs_verdict.specs.declared.account.Account.{Account};
    ghost use Rattle.mcs_verdict.specs.Counts.{Fits};

    ghost Value = { Account };

    ghost view = { λ a. a.account };

    ghost invariant = { λ a. Fits a.counts a.account };
}

impl Tracked {
    /// Tracks an account. It does not know yet what the next rows count.
    pub(crate) fn of(account: Account) -> Self
        ensures { result ≡ account }
    {
        Tracked {
            account,
            counts: Counts::Unknown,
        }
    }

    /// The account before the first row.
    pub(crate) fn new(part: &ThreadPart) -> Self
        ensures { result ≡ account_of [] part.now 0 [] }
    {
        Tracked::of(Account::new(part))
    }

    /// Returns the account.
    #[inline(always)]
    pub(crate) fn account(&self) -> &Account
        ensures { result.now ≡ self.now }
    {
        &self.account
    }

    /// `tell` for any account. It is kept out of line, since most rows do not need it.
    #[inline(never)]
    fn tell_any(&mut self, words: &[Held], moment: Tick, standing: Standing)
        ensures { (firsts : List TheHeld) (past : List TheRow) → words.now ≡ words_of 0 firsts past → all_kept self.old + moment < 2 ^ 64 →
            self.new ≡ stands_from (word_for firsts self.old.waits past).since moment standing self.old }
    {
        let account = &mut self.account;
        if self.counts == Counts::Nothing {
            if moment.get() <= account.since.get() {
                account.standing = standing;
                account.since = moment;
                return;
            }
            if account.is_idle(moment) {
                account.tell_idle(moment, standing);
                return;
            }
        }
        let set = set_for(words, account.waits);
        self.counts = account.tell(set, moment, standing);
    }

    /// Takes a row after which the thread stands as `standing` says.
    #[inline(always)]
    fn tell(&mut self, words: &[Held], moment: Tick, standing: Standing)
        ensures { (firsts : List TheHeld) (past : List TheRow) → words.now ≡ words_of 0 firsts past → all_kept self.old + moment < 2 ^ 64 →
            self.new ≡ stands_from (word_for firsts self.old.waits past).since moment standing self.old }
    {
        if self.counts == Counts::Each && self.account.since.get() <= moment.get() {
            self.account.tell_each(moment, standing);
        } else {
            self.tell_any(words, moment, standing);
        }
    }

    /// Takes a row that wakes the thread with this word.
    #[inline(always)]
    fn wake(&mut self, words: &[Held], moment: Tick, note: NoteId, word: u32, standing: Standing)
        ensures { (firsts : List TheHeld) (past : List TheRow) → words.now ≡ words_of 0 firsts past → all_kept self.old + moment < 2 ^ 64 →
            self.new ≡ given moment moment note word (stands_from (word_for firsts self.old.waits past).since moment standing self.old) }
    {
        if self.account.begins(note, word) {
            self.account.wake(moment, standing);
            self.counts = Counts::Nothing;
        } else {
            self.tell(words, moment, standing);
        }
    }

    /// Takes a row by which the thread takes a pending word.
    #[inline(always)]
    fn take(&mut self, words: &[Held], moment: Tick, note: NoteId, word: u32)
        ensures { (firsts : List TheHeld) (past : List TheRow) → words.now ≡ words_of 0 firsts past →
            self.new ≡ given moment (word_for firsts self.old.waits past).since note word self.old }
    {
        if self.account.begins(note, word) {
            let set = set_for(words, self.account.waits);
            let from = later(set, self.account.free);
            self.counts = if self.account.since.get() <= from.get() {
                Counts::Nothing
            } else {
                Counts::Unknown
            };
            self.account.begin(moment, set);
        }
    }

    /// Ends the round under way, the last one with the number `rounds`. `begun` is when the next
    /// one began, if it has begun.
    #[inline(always)]
    fn end(&mut self, moment: Tick, rounds: u64, begun: Option<Tick>)
        ensures { self.new ≡ ends moment rounds begun self.old }
    {
        self.account.end(moment, rounds, begun);
        self.counts = Counts::Nothing;
    }

    /// Takes a row of this thread.
    #[inline(always)]
    pub(crate) fn see(&mut self, words: &[Held], moment: Tick, what: &What)
        ensures { (firsts : List TheHeld) (past : List TheRow) → words.now ≡ words_of 0 firsts past → all_kept self.old + moment < 2 ^ 64 →
            self.new ≡ seen_own (word_for firsts self.old.waits past).since moment what.now self.old }
    {
        match *what {
            What::Got { note, word, .. } => self.take(words, moment, note, word),
            What::Round { number, .. } => {
                let begun = match self.account.waits {
                    Some(_) => None,
                    None => Some(moment),
                };
                self.end(moment, number, begun);
            }
            What::Wake { note, word, .. } => {
                self.wake(words, moment, note, word, standing_after(what));
            }
            What::Stop { why: Why::Done, .. } => {
                self.tell(words, moment, standing_after(what));
                self.end(moment, self.account.rounds, None);
            }
            What::Stop {
                why: Why::Preempt,
                ..
            } => {
                self.tell(words, moment, standing_after(what));
                self.account.preempt();
            }
            _ => self.tell(words, moment, standing_after(what)),
        }
    }
}

ghost use Rattle.std.specs.Prelude.{◌≡◌, ◌+◌, ◌<◌, ◌^◌, ℕ, List, [], ◌∷◌, length, map, None, true, false, IfOk};
ghost use Rattle.mcs_ticks.specs.declared.row.Row.{Row as TheRow};
ghost use Rattle.mcs_system.specs.System.{System as TheSystem};
ghost use Rattle.mcs_system.specs.declared.part.ThreadPart.{ThreadPart as TheThread};
ghost use Rattle.mcs_verdict.specs.declared.held.Held.{Held as TheHeld};
ghost use Rattle.mcs_verdict.specs.Stood.{stood_in};
ghost use Rattle.mcs_verdict.specs.Jobs.{job_known, job_of};
ghost use Rattle.mcs_verdict.specs.Misses.{miss, unended, word_set};
ghost use Rattle.mcs_verdict.specs.Due.{calls_each, untaken};
ghost use Rattle.mcs_verdict.specs.Rounds.{activated_of};
ghost use Rattle.mcs_verdict.specs.Words.{held_of, word_for, leaves, adds, merges, heard_at, firsts_of};
ghost use Rattle.mcs_verdict.specs.Findings.{finding, UpTo};
ghost use Rattle.mcs_verdict.specs.Account.{account_of, subject};
ghost use Rattle.mcs_verdict.specs.Watch.{accounts_of, words_of, watch_of};

use crate::due::{dues_of, untaken_by};
use crate::heard::{bits_of, calls, either, first_wait};
use crate::held::Held;
use crate::outcome::set_at;
use crate::tracked::Tracked;
use crate::{Finding, Job, Stood};
use mcs_system::{System, SystemParts, ThreadPart};
use mcs_ticks::{Limits, NoMemory, NoteId, Row, ThreadId, Tick, What};
use std::alloc::Global;
use std::marker::Model;

/// The state that is kept of a schedule's rows so far: the account of each thread and the word of
/// each notification. All memory is taken when the watch is made; a row takes constant time.
#[derive(Drop)]
pub struct Watch {
    pub(crate) accounts: Vec<Tracked>,
    pub(crate) words: Vec<Held>,
}

impl Model for Watch {
    ghost use Rattle.mcs_verdict.specs.Watch.{Watch};

    ghost Value = { Watch };

    ghost view = { λ a. record { accounts = a.accounts.items; words = a.words.items } };
}

fn subject(what: &What) -> Option<ThreadId>
    ensures { result ≡ subject what.now }
{
    match *what {
        What::Release { thread }
        | What::Run { thread }
        | What::Stop { thread, .. }
        | What::Wake { thread, .. }
        | What::Got { thread, .. }
        | What::Round { thread, .. } => Some(thread),
        _ => None,
    }
}

/// The word of a notification, or `Held::none` if there is no such notification.
fn word_at(words: &[Held], note: NoteId) -> Held
    ensures { (firsts : List TheHeld) (past : List TheRow) → words.now ≡ words_of 0 firsts past →
        result ≡ held_of firsts note past }
{
    if note.0 < words.len() {
        words[note.0]
    } else {
        Held::none()
    }
}

/// The word for which a script waits first, or `Held::none` if it does not begin with a wait.
fn word_for(words: &[Held], waits: Option<NoteId>) -> Held
    ensures { (firsts : List TheHeld) (past : List TheRow) → words.now ≡ words_of 0 firsts past →
        result ≡ word_for firsts waits past }
{
    match waits {
        Some(note) => word_at(words, note),
        None => Held::none(),
    }
}

/// When the word was set; 0 if there is no such notification.
#[inline(always)]
fn word_since(words: &[Held], note: NoteId) -> Tick
    ensures { (firsts : List TheHeld) (past : List TheRow) → words.now ≡ words_of 0 firsts past →
        result ≡ (held_of firsts note past).since }
{
    if note.0 < words.len() {
        words[note.0].since
    } else {
        Tick::ZERO
    }
}

/// When the word for which a script waits first was set; 0 if it does not begin with a wait.
#[inline(always)]
pub(crate) fn set_for(words: &[Held], waits: Option<NoteId>) -> Tick
    ensures { (firsts : List TheHeld) (past : List TheRow) → words.now ≡ words_of 0 firsts past →
        result ≡ (word_for firsts waits past).since }
{
    match waits {
        Some(note) => word_since(words, note),
        None => Tick::ZERO,
    }
}

/// Updates the account of the row's thread.
#[inline(always)]
fn tell_accounts(accounts: &mut [Tracked], words: &[Held], row: &Row)
    ensures { (firsts : List TheHeld) (parts : List TheThread) (past : List TheRow) → accounts.old ≡ accounts_of firsts 0 parts past →
        words.now ≡ words_of 0 firsts past → UpTo row.now.moment past →
        accounts.new ≡ accounts_of firsts 0 parts (row.now ∷ past) }
{
    if let Some(thread) = subject(&row.what) {
        if thread.0 < accounts.len() {
            // Keeps every count below 2^64.
            prove!(row.moment.get() <= Limits::TICK);
            accounts[thread.0].see(words, row.moment, &row.what);
        }
    }
}

#[inline(always)]
fn tell_words(words: &mut [Held], row: &Row)
    ensures { (firsts : List TheHeld) (past : List TheRow) → words.old ≡ words_of 0 firsts past →
        words.new ≡ words_of 0 firsts (row.now ∷ past) }
{
    match row.what {
        What::Hold { note, word } => {
            if note.0 < words.len() {
                words[note.0].hold(row.moment, word);
            }
        }
        What::Got { note, word, .. } => {
            if note.0 < words.len() {
                words[note.0].take(word);
            }
        }
        What::Wake { note, word, .. } => {
            if note.0 < words.len() {
                words[note.0].give(word);
            }
        }
        _ => {}
    }
}

fn is_lost(words: &[Held], note: NoteId, word: u32) -> bool
    ensures { (firsts : List TheHeld) (past : List TheRow) → words.now ≡ words_of 0 firsts past →
        result ≡ leaves (held_of firsts note past).word word }
{
    word_at(words, note).word == word
}

fn adds(before: u32, word: u32) -> bool
    ensures { result ≡ adds before word }
{
    before != 0 && before != word
}

fn is_merged(words: &[Held], note: NoteId, word: u32) -> bool
    ensures { (firsts : List TheHeld) (past : List TheRow) → words.now ≡ words_of 0 firsts past →
        result ≡ adds (held_of firsts note past).word word }
{
    adds(word_at(words, note).word, word)
}

fn miss(accounts: &[Tracked], moment: Tick, thread: ThreadId, number: u64) -> Option<Finding>
    ensures { (system : TheSystem) (past : List TheRow) → accounts.now ≡ accounts_of (firsts_of system) 0 system.threads past →
        UpTo moment past → result ≡ miss system past moment thread number }
{
    if thread.0 < accounts.len() {
        // Keeps every count below 2^64.
        prove!(moment.get() <= Limits::TICK);
        accounts[thread.0].account().miss(moment, thread, number)
    } else {
        None
    }
}

/// Whether the round that ends now missed its deadline.
#[inline(always)]
fn is_late(accounts: &[Tracked], moment: Tick, thread: ThreadId) -> bool
    ensures { (system : TheSystem) (past : List TheRow) (number : ℕ) → accounts.now ≡ accounts_of (firsts_of system) 0 system.threads past →
        UpTo moment past → result ≡ false → miss system past moment thread number ≡ None }
{
    if thread.0 < accounts.len() {
        accounts[thread.0].account().is_late(moment)
    } else {
        false
    }
}

fn job(accounts: &[Tracked], moment: Tick, thread: ThreadId, number: u64) -> Option<Job>
    ensures { (system : TheSystem) (past : List TheRow) → accounts.now ≡ accounts_of (firsts_of system) 0 system.threads past →
        UpTo moment past → result ≡ job_known system past moment thread number }
{
    if thread.0 < accounts.len() {
        // Keeps every count below 2^64.
        prove!(moment.get() <= Limits::TICK);
        Some(accounts[thread.0].account().job(moment, thread, number))
    } else {
        None
    }
}

fn opened_accounts(alloc: Global, parts: &SystemParts) -> Result<Vec<Tracked>, NoMemory>
    ensures { IfOk result (λ accounts. accounts.items ≡ map (λ part. account_of [] part 0 []) parts.now.threads) }
{
    let accounts = parts
        .threads
        .as_slice()
        .iter()
        .map(|part| Tracked::new(part))
        .collect(alloc)?;
    Ok(accounts)
}

/// The bits of words that leave something to do to a thread that waits first on the notification.
fn heard_at(note: usize, threads: &[ThreadPart]) -> Option<u32>
    ensures { result ≡ heard_at note threads.now }
{
    let mut bits = Some(0);
    for part in threads {
        if let Some(NoteId(first)) = first_wait(part) {
            if first == note {
                bits = either(bits, bits_of(part));
            }
        }
    }
    bits
}

/// Whether the word leaves something to do to each thread that waits first on the notification.
fn calls_each(accounts: &[Tracked], note: NoteId, word: u32) -> bool
    ensures { (firsts : List TheHeld) (parts : List TheThread) (past : List TheRow) → accounts.now ≡ accounts_of firsts 0 parts past →
        result ≡ calls_each note word parts }
{
    for tracked in accounts {
        let account = tracked.account();
        if let Some(first) = account.waits {
            if first == note && !calls(account.bits, word) {
                return false;
            }
        }
    }
    true
}

fn opened_words(alloc: Global, parts: &SystemParts) -> Result<Vec<Held>, NoMemory>
    ensures { IfOk result (λ words. words.items ≡ firsts_of parts.now) }
{
    let dues = dues_of(alloc, parts)?;
    let mut words = Vec::new(alloc);
    for (number, part) in parts.notes.as_slice().iter().enumerate() {
        words.push(Held {
            word: part.word,
            since: Tick::ZERO,
            bits: heard_at(number, parts.threads.as_slice()),
            due: dues[number].known(),
            given: 0,
        })?;
    }
    Ok(words)
}

impl Watch {
    /// A watch before the first row of a run of the system. `NoMemory` if memory runs out.
    pub fn new(alloc: Global, system: &System) -> Result<Self, NoMemory>
        ensures { IfOk result (λ watch. watch ≡ watch_of system.now []) }
    {
        let parts = system.parts();
        Ok(Watch {
            accounts: opened_accounts(alloc, parts)?,
            words: opened_words(alloc, parts)?,
        })
    }

    fn find(&self, row: &Row) -> Option<Finding>
        ensures { (system : TheSystem) (past : List TheRow) → self.now ≡ watch_of system past → UpTo row.now.moment past →
            result ≡ finding system past row.now.moment row.now.what }
    {
        match row.what {
            What::Round { thread, number, .. } => {
                miss(self.accounts.as_slice(), row.moment, thread, number)
            }
            What::Hold { note, word } if is_lost(self.words.as_slice(), note, word) => {
                Some(Finding::Lost { note, word })
            }
            _ => None,
        }
    }

    /// Takes the next row, in the order of their times, without its finding. Takes constant time
    /// and no memory.
    #[inline(always)]
    pub fn take(&mut self, row: &Row)
        ensures { (system : TheSystem) (past : List TheRow) → self.old ≡ watch_of system past → UpTo row.now.moment past →
            self.new ≡ watch_of system (row.now ∷ past) }
    {
        tell_accounts(self.accounts.as_mut_slice(), self.words.as_slice(), row);
        tell_words(self.words.as_mut_slice(), row);
    }

    /// `see` for any row. It is kept out of line, since most rows have no finding and need no room
    /// for one.
    #[inline(never)]
    fn see_any(&mut self, row: &Row) -> Option<Finding>
        ensures kept { (system : TheSystem) (past : List TheRow) → self.old ≡ watch_of system past → UpTo row.now.moment past →
            self.new ≡ watch_of system (row.now ∷ past) }
        ensures found { (system : TheSystem) (past : List TheRow) → self.old ≡ watch_of system past → UpTo row.now.moment past →
            result ≡ finding system past row.now.moment row.now.what }
    {
        let found = self.find(row);
        self.take(row);
        found
    }

    /// Whether it is known at once that the row has no finding and is no coalesced signal. Most
    /// rows are quiet, and so is a round in time. Call it before `see` or `take`.
    #[inline(always)]
    pub fn is_quiet(&self, row: &Row) -> bool
        ensures found { (system : TheSystem) (past : List TheRow) → self.now ≡ watch_of system past → UpTo row.now.moment past →
            result ≡ true → finding system past row.now.moment row.now.what ≡ None }
        ensures merged { (system : TheSystem) (past : List TheRow) → result ≡ true → merges system past row.now.what ≡ false }
    {
        match row.what {
            What::Round { thread, .. } => !is_late(self.accounts.as_slice(), row.moment, thread),
            What::Hold { .. } | What::Got { .. } => false,
            _ => true,
        }
    }

    /// Takes the next row, in the order of their times, and returns its finding. Takes constant
    /// time and no memory.
    #[inline(always)]
    pub fn see(&mut self, row: &Row) -> Option<Finding>
        ensures kept { (system : TheSystem) (past : List TheRow) → self.old ≡ watch_of system past → UpTo row.now.moment past →
            self.new ≡ watch_of system (row.now ∷ past) }
        ensures found { (system : TheSystem) (past : List TheRow) → self.old ≡ watch_of system past → UpTo row.now.moment past →
            result ≡ finding system past row.now.moment row.now.what }
    {
        if !self.is_quiet(row) {
            return self.see_any(row);
        }
        self.take(row);
        None
    }

    /// Returns the round that this row ends, if its thread is one of the system. Call it before
    /// `see`.
    pub fn job(&self, row: &Row) -> Option<Job>
        ensures { (system : TheSystem) (past : List TheRow) → self.now ≡ watch_of system past → UpTo row.now.moment past →
            result ≡ job_of system past row.now.moment row.now.what }
    {
        match row.what {
            What::Round { thread, number, .. } => {
                job(self.accounts.as_slice(), row.moment, thread, number)
            }
            _ => None,
        }
    }

    /// Whether this row's signal adds bits to a pending word (coalesced). Call it before `see`.
    pub fn merges(&self, row: &Row) -> bool
        ensures { (system : TheSystem) (past : List TheRow) → self.now ≡ watch_of system past →
            result ≡ merges system past row.now.what }
    {
        match row.what {
            What::Hold { note, word } => is_merged(self.words.as_slice(), note, word),
            _ => false,
        }
    }

    /// Returns the finding of the thread at the horizon, in constant time: an overdue round, or
    /// that no round was ever activated.
    pub fn unended(&self, horizon: Tick, thread: ThreadId) -> Option<Finding>
        ensures { (system : TheSystem) (past : List TheRow) → self.now ≡ watch_of system past → UpTo horizon past →
            result ≡ unended system past horizon thread }
    {
        if thread.0 < self.accounts.len() {
            // Keeps every count below 2^64.
            prove!(horizon.get() <= Limits::TICK);
            let account = self.accounts[thread.0].account();
            let held = word_for(self.words.as_slice(), account.waits);
            account.unended(horizon, thread, &held)
        } else {
            None
        }
    }

    /// Returns the word that the notification holds at the horizon, if nobody has taken it for its
    /// deadline or longer. Takes time in proportion to the number of threads, and only if the word
    /// is that old.
    pub fn untaken(&self, horizon: Tick, note: NoteId) -> Option<Finding>
        ensures { (system : TheSystem) (past : List TheRow) → self.now ≡ watch_of system past →
            result ≡ untaken system past horizon note }
    {
        let held = word_at(self.words.as_slice(), note);
        match untaken_by(horizon, note, &held) {
            Some(found) if calls_each(self.accounts.as_slice(), note, held.word) => Some(found),
            _ => None,
        }
    }

    /// Returns when the thread's round under way was activated, if one is under way and it was
    /// activated before `moment`. `None` if there is no such thread.
    pub fn activated(&self, moment: Tick, thread: ThreadId) -> Option<Tick>
        ensures { (system : TheSystem) (past : List TheRow) → self.now ≡ watch_of system past → UpTo moment past →
            thread < length system.threads → result ≡ activated_of system thread past moment }
    {
        if thread.0 < self.accounts.len() {
            self.accounts[thread.0].account().activated_since(moment)
        } else {
            None
        }
    }

    /// Returns when the word for which the thread's script waits first was set, if it leaves the
    /// thread something to do. `None` if there is no such thread.
    pub fn word_set(&self, thread: ThreadId) -> Option<Tick>
        ensures { (system : TheSystem) (past : List TheRow) → self.now ≡ watch_of system past → result ≡ word_set system past thread }
    {
        if thread.0 < self.accounts.len() {
            let account = self.accounts[thread.0].account();
            let held = word_for(self.words.as_slice(), account.waits);
            set_at(account.bits, &held)
        } else {
            None
        }
    }

    /// Returns how the thread stood in the ticks before `moment`, in constant time.
    pub fn stood(&self, moment: Tick, thread: ThreadId) -> Stood
        requires { thread < length self.now.accounts }
        ensures { (system : TheSystem) (past : List TheRow) → self.now ≡ watch_of system past → UpTo moment past →
            result ≡ stood_in thread past 0 moment }
    {
        // Keeps every count below 2^64.
        prove!(moment.get() <= Limits::TICK);
        self.accounts[thread.0].account().total_at(moment)
    }
}

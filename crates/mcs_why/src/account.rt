ghost use Rattle.std.specs.Prelude.{◌≡◌, ◌==◌, ◌&&◌, true, ℕ, ◌+◌, ◌-◌, ◌<◌, ◌≤◌, ◌^◌, List, [], ◌∷◌, length, map, nat_lt, if◌then◌else◌, IfOk};
ghost use Rattle.std.specs.List.{range_with_len};
ghost use Rattle.mcs_ticks.specs.declared.row.Row.{Row as TheRow};
ghost use Rattle.mcs_verdict.specs.Findings.{UpTo};
ghost use Rattle.mcs_verdict.specs.Account.{since_of};
ghost use Rattle.mcs_why.specs.Account.{passed_at, account_at, account_of};
ghost use Rattle.mcs_why.specs.Running.{is_turn, runner, is_thread, is_nobody, is_within, ran_in, idle_in};

use crate::Span;
use mcs_system::System;
use mcs_ticks::{CoreId, NoMemory, Row, ThreadId, Tick, What};
use std::alloc::Global;
use std::marker::Model;

/// Counts how long each thread ran on a core in a span, and how long the core was idle. All memory
/// is taken when the account is made, a count for each thread; a row takes constant time.
#[derive(Drop)]
pub struct Account {
    core: CoreId,
    from: Tick,
    to: Tick,
    /// The ticks of the span that are counted so far.
    passed: u64,
    /// The thread that runs since then.
    runner: Option<ThreadId>,
    ran: Vec<u64>,
    idle: u64,
}

impl Model for Account {
    ghost use Rattle.mcs_verdict.specs.Account.{since_of};
    ghost use Rattle.mcs_why.specs.Account.{Account};

    ghost Value = { Account };

    ghost view = { λ a. record { core = a.core; from = a.from; to = a.to; passed = a.passed; runner = a.runner; ran = a.ran.items; idle = a.idle } };
}

/// Whether the row decides who runs from then on.
fn is_turn(what: &What) -> bool
    ensures { result ≡ is_turn what.now }
{
    matches!(*what, What::Run { .. } | What::Stop { .. })
}

fn runner(what: &What) -> Option<ThreadId>
    ensures { result ≡ runner what.now }
{
    match *what {
        What::Run { thread } => Some(thread),
        _ => None,
    }
}

/// Whether the row is one of the core that decides who runs from then on.
fn is_turn_on(core: CoreId, row: &Row) -> bool
    ensures { result ≡ ((row.now.core == core) && is_turn row.now.what) }
{
    row.core.0 == core.0 && is_turn(&row.what)
}

fn is_within(core: CoreId, from: Tick, to: Tick, row: &Row) -> bool
    ensures { result ≡ is_within core from to row.now }
{
    row.core.0 == core.0 && from.get() <= row.moment.get() && row.moment.get() <= to.get()
}

fn is_nobody(runner: Option<ThreadId>) -> bool
    ensures { result ≡ is_nobody runner }
{
    match runner {
        Some(_) => false,
        None => true,
    }
}

fn is_thread(thread: ThreadId, runner: Option<ThreadId>) -> bool
    ensures { result ≡ is_thread thread runner }
{
    match runner {
        Some(runner) => runner.0 == thread.0,
        None => false,
    }
}

/// The ticks of a span before a time.
fn passed_at(from: Tick, to: Tick, moment: Tick) -> u64
    ensures { result ≡ passed_at from to moment }
{
    moment.get().min(to.get()).saturating_sub(from.get())
}

/// The ticks if `is_so`, else 0.
fn ticks_if(is_so: bool, ticks: u64) -> u64
    ensures { result ≡ (if is_so then ticks else 0) }
{
    if is_so { ticks } else { 0 }
}

/// Adds ticks to the thread that runs. No sum may exceed 2^64 - 1.
fn count(ran: &mut [u64], runner: Option<ThreadId>, ticks: u64)
    ensures { (before : ℕ → ℕ) (threads : ℕ) → ran.old ≡ map before (range_with_len 0 threads) →
        ((thread : ℕ) → before thread + ticks < 2 ^ 64) →
        ran.new ≡ map (λ thread. (if is_thread thread runner then ticks else 0) + before thread) (range_with_len 0 threads) }
{
    if let Some(thread) = runner {
        if thread.0 < ran.len() {
            ran[thread.0] = ran[thread.0].saturating_add(ticks);
        }
    }
}

impl Account {
    /// An account before the first row of a run of the system. `NoMemory` if memory runs out.
    pub fn new(alloc: Global, system: &System, span: &Span) -> Result<Self, NoMemory>
        ensures { IfOk result (λ account. account ≡ account_of (length system.now.threads) span.now.core span.now.from span.now.to []) }
    {
        Ok(Account {
            core: span.core,
            from: span.from,
            to: span.to,
            passed: 0,
            runner: None,
            ran: vec![in alloc; 0; system.parts().threads.len()]?,
            idle: 0,
        })
    }

    /// Counts the ticks of the span up to `passed`, in which the same thread runs.
    fn pass(&mut self, passed: u64)
        ensures { (threads core from to before : ℕ) (rows : List TheRow) → self.old ≡ account_at threads core from to rows before →
            before ≤ passed → (before < passed → since_of rows ≤ from + before) →
            self.new ≡ account_at threads core from to rows passed }
    {
        let ticks = passed.saturating_sub(self.passed);
        self.passed = passed;
        count(self.ran.as_mut_slice(), self.runner, ticks);
        self.idle = self
            .idle
            .saturating_add(ticks_if(is_nobody(self.runner), ticks));
    }

    /// Takes a row of the core that decides who runs from then on.
    fn turn(&mut self, row: &Row)
        ensures { (threads core from to : ℕ) (past : List TheRow) → self.old ≡ account_of threads core from to past →
            ((row.now.core == core) && is_turn row.now.what) ≡ true → UpTo row.now.moment past →
            self.new ≡ account_of threads core from to (row.now ∷ past) }
    {
        self.pass(passed_at(self.from, self.to, row.moment));
        self.runner = runner(&row.what);
    }

    /// Takes one more row and returns whether it is one of the span. Takes constant time and no
    /// memory.
    pub fn see(&mut self, row: &Row) -> bool
        ensures shown { result ≡ is_within self.old.core self.old.from self.old.to row.now }
        ensures kept { (threads core from to : ℕ) (past : List TheRow) → self.old ≡ account_of threads core from to past →
            UpTo row.now.moment past → self.new ≡ account_of threads core from to (row.now ∷ past) }
    {
        let shown = is_within(self.core, self.from, self.to, row);
        if is_turn_on(self.core, row) {
            self.turn(row);
        }
        shown
    }

    /// The ticks of the span that are not yet counted.
    fn rest(&self) -> u64
        ensures value { result ≡ (self.now.to - self.now.from) - self.now.passed }
        ensures small { self.now.to ≤ 2 ^ 42 }
    {
        self.to
            .get()
            .saturating_sub(self.from.get())
            .saturating_sub(self.passed)
    }

    /// Returns the ticks of the span that the thread ran, if all rows up to its end were seen. 0 if
    /// the system has no such thread.
    pub fn ran(&self, thread: ThreadId) -> u64
        ensures { (threads core from to : ℕ) (past : List TheRow) → self.now ≡ account_of threads core from to past →
            result ≡ (if nat_lt thread threads then ran_in core thread past from to else 0) }
    {
        if thread.0 < self.ran.len() {
            let rest = ticks_if(is_thread(thread, self.runner), self.rest());
            self.ran[thread.0].saturating_add(rest)
        } else {
            0
        }
    }

    /// Returns the ticks of the span in which its core was idle, if all rows up to its end were
    /// seen.
    pub fn idle(&self) -> u64
        ensures { (threads core from to : ℕ) (past : List TheRow) → self.now ≡ account_of threads core from to past →
            result ≡ idle_in core past from to }
    {
        let rest = ticks_if(is_nobody(self.runner), self.rest());
        self.idle.saturating_add(rest)
    }
}

ghost use Rattle.std.specs.Prelude.{◌≡◌, ℕ, ◌<◌, List, [], ◌∷◌, length, IfOk};
ghost use Rattle.mcs_ticks.specs.declared.row.Row.{Row as TheRow};
ghost use Rattle.mcs_system.specs.System.{System as TheSystem};
ghost use Rattle.mcs_verdict.specs.Findings.{finding, UpTo};
ghost use Rattle.mcs_verdict.specs.Jobs.{job_of};
ghost use Rattle.mcs_verdict.specs.Rounds.{first_wait};
ghost use Rattle.mcs_verdict.specs.Watch.{watch_of};
ghost use Rattle.mcs_verdict.specs.Words.{merges};
ghost use Rattle.mcs_table.specs.Figures.{figures_of};
ghost use Rattle.mcs_table.specs.Signals.{lost_by, merged_by, times_at, signals_for};
ghost use Rattle.mcs_table.specs.Table.{accounts_of, counts_of, table_of};
ghost use Rattle.mcs_table.specs.Unused.{unused_of};

use crate::account::{Account, margin};
use crate::counts::{count_at, lost_note, merged_note, no_counts};
use crate::shares::share;
use crate::unused::unused;
use crate::{Figures, Signals};
use mcs_script::Item;
use mcs_system::{System, SystemParts, ThreadPart};
use mcs_ticks::{ContextId, Limits, NoMemory, NoteId, Row, ThreadId, Tick, What};
use mcs_verdict::{Finding, Job, Watch};
use std::alloc::Global;
use std::marker::Model;

/// The figures kept of a schedule's rows so far: for each thread of its rounds, for each
/// notification of lost and merged signals. All memory is taken when the table is made, at most
/// 18 kB a thread; a row takes constant time.
#[derive(Drop)]
pub struct Table {
    horizon: Tick,
    accounts: Vec<Account>,
    lost: Vec<u64>,
    merged: Vec<u64>,
}

impl Model for Table {
    ghost use Rattle.mcs_table.specs.Table.{Table};

    ghost Value = { Table };

    ghost view = { λ a. record { horizon = a.horizon; accounts = a.accounts.items; lost = a.lost.items; merged = a.merged.items } };
}

fn first_wait(part: &ThreadPart) -> Option<NoteId>
    ensures { result ≡ first_wait part.now }
{
    match part.script.get(0) {
        Some(Item::Wait(NoteId(note))) => Some(NoteId(note)),
        _ => None,
    }
}

fn opened_accounts(
    alloc: Global,
    parts: &SystemParts,
    horizon: Tick,
) -> Result<Vec<Account>, NoMemory>
    ensures { IfOk result (λ accounts. accounts.items ≡ accounts_of parts.now horizon 0 parts.now.threads []) }
{
    let mut accounts = Vec::with_capacity(alloc, parts.threads.len())?;
    for part in parts.threads.as_slice() {
        accounts.push(Account::new(alloc, horizon, part.deadline)?)?;
    }
    Ok(accounts)
}

/// Takes the round that the row ends, if it ends one.
fn end_round(accounts: &mut [Account], job: Option<Job>, row: &Row)
    ensures { (system : TheSystem) (horizon : ℕ) (past : List TheRow) → accounts.old ≡ accounts_of system horizon 0 system.threads past →
        job ≡ job_of system past row.now.moment row.now.what →
        accounts.new ≡ accounts_of system horizon 0 system.threads (row.now ∷ past) }
{
    if let Some(job) = job {
        if let What::Round { response, .. } = row.what {
            if job.thread.0 < accounts.len() {
                accounts[job.thread.0].end(job.response, response);
            }
        }
    }
}

impl Table {
    /// A table before the first row of a run of the system up to the horizon. `NoMemory` if memory
    /// runs out.
    pub fn new(alloc: Global, system: &System, horizon: Tick) -> Result<Self, NoMemory>
        ensures { IfOk result (λ table. table ≡ table_of system.now horizon []) }
    {
        let parts = system.parts();
        Ok(Table {
            horizon,
            accounts: opened_accounts(alloc, parts, horizon)?,
            lost: no_counts(alloc, parts.notes.len())?,
            merged: no_counts(alloc, parts.notes.len())?,
        })
    }

    /// `see` for any row. It is kept out of line, since most rows end no round and need no copy of
    /// a job.
    #[inline(never)]
    fn see_any(&mut self, job: Option<Job>, found: Option<Finding>, is_merged: bool, row: &Row)
        ensures { (system : TheSystem) (horizon : ℕ) (past : List TheRow) → self.old ≡ table_of system horizon past →
            job ≡ job_of system past row.now.moment row.now.what → found ≡ finding system past row.now.moment row.now.what →
            is_merged ≡ merges system past row.now.what →
            self.new ≡ table_of system horizon (row.now ∷ past) }
    {
        end_round(self.accounts.as_mut_slice(), job, row);
        count_at(self.lost.as_mut_slice(), lost_note(found));
        count_at(
            self.merged.as_mut_slice(),
            merged_note(is_merged, &row.what),
        );
    }

    /// Takes one more row, in constant time and without memory. A watch over the same rows has the
    /// other arguments: the round that the row ends, its finding, and whether it merges a signal.
    #[inline(always)]
    pub fn see(&mut self, job: Option<Job>, found: Option<Finding>, is_merged: bool, row: &Row)
        ensures { (system : TheSystem) (horizon : ℕ) (past : List TheRow) → self.old ≡ table_of system horizon past →
            job ≡ job_of system past row.now.moment row.now.what → found ≡ finding system past row.now.moment row.now.what →
            is_merged ≡ merges system past row.now.what →
            self.new ≡ table_of system horizon (row.now ∷ past) }
    {
        // Other rows end no round and change no count.
        if let What::Round { .. } | What::Hold { .. } = row.what {
            self.see_any(job, found, is_merged, row);
        }
    }

    /// The counts of the notification for which a script waits first.
    fn signals_for(&self, waits: Option<NoteId>) -> Option<Signals>
        ensures { (system : TheSystem) (horizon : ℕ) (past : List TheRow) → self.now ≡ table_of system horizon past →
            result ≡ signals_for system waits past }
    {
        let note = waits?;
        if note.0 < self.lost.len() && note.0 < self.merged.len() {
            Some(Signals {
                lost: self.lost[note.0],
                merged: self.merged[note.0],
            })
        } else {
            None
        }
    }

    /// Returns the figures of a thread, if the table and the watch saw all rows up to the horizon.
    pub fn figures(&self, system: &System, watch: &Watch, thread: ThreadId) -> Figures
        requires known { thread < length system.now.threads }
        requires kept { length self.now.accounts ≡ length system.now.threads }
        requires watched { length watch.now.accounts ≡ length system.now.threads }
        ensures { (past : List TheRow) → self.now ≡ table_of system.now self.now.horizon past → watch.now ≡ watch_of system.now past →
            UpTo self.now.horizon past → result ≡ figures_of system.now self.now.horizon past thread }
    {
        // Keeps every share below 2^64.
        prove!(self.horizon.get() <= Limits::TICK);
        let parts = system.parts();
        let part = parts.thread(thread);
        let account = &self.accounts[thread.0];
        let stood = watch.stood(self.horizon, thread);
        let config = parts.context(part.context).config;
        Figures {
            core: parts.core_of_thread(part),
            priority: part.priority,
            share: share(config, self.horizon, stood.running),
            rounds: account.rounds(),
            deadline: part.deadline,
            margin: margin(part.deadline, account.greatest),
            signals: self.signals_for(first_wait(part)),
            stood,
        }
    }

    /// Returns how much of the context's budget was never used, if the watch saw all rows up to the
    /// horizon: the maximum number of ticks that it can let run until then (its budget in each
    /// period from time 0 on), less the ticks that its threads ran. `None` if an order of the
    /// system names the context, since that changes its budget. Takes time for each thread.
    pub fn unused(&self, system: &System, watch: &Watch, context: ContextId) -> Option<u64>
        requires known { context < length system.now.contexts }
        requires watched { length watch.now.accounts ≡ length system.now.threads }
        ensures { (past : List TheRow) → watch.now ≡ watch_of system.now past → UpTo self.now.horizon past →
            result ≡ unused_of system.now self.now.horizon past context }
    {
        unused(system, watch, self.horizon, context)
    }
}

ghost use Rattle.std.specs.Prelude.{◌≡◌, ◌++◌, ℕ, List, ◌∷◌, Some, OnOk};
ghost use Rattle.mcs_ticks.specs.declared.row.Row.{Row as TheRow};
ghost use Rattle.mcs_system.specs.System.{System as TheSystem};
ghost use Rattle.mcs_verdict.specs.Findings.{finding, UpTo};
ghost use Rattle.mcs_verdict.specs.Jobs.{job_of};
ghost use Rattle.mcs_verdict.specs.Words.{merges};
ghost use Rattle.mcs_table.specs.Table.{table_of, Table as TheTable};
ghost use Rattle.mcs_check_lines.specs.Counts.{told_of};
ghost use Rattle.mcs_check.specs.stored.Threads.{threads_of};
ghost use Rattle.mcs_check.specs.stored.Rows.{answered_lines, counted_at, due_lines, if_figures, shown_at, shown_found, told_line};
ghost use Rattle.mcs_chain.specs.Answering.{answers_at};
ghost use Rattle.mcs_chain.specs.Figures.{tallies_of, Tally as TheTally};
ghost use Rattle.mcs_chain.specs.Watch.{all_due, watch_of as chains_of};
ghost use Rattle.mcs_check_words.specs.declared.asked.Show.{Show as TheShow};

use crate::core_watch::find;
use crate::thread_watch::ThreadWatch;
use mcs_chain::{Tallies, Watch as ChainWatch};
use mcs_check_lines::{Counts, Shown, put_answers, put_chains_found, put_shown};
use mcs_check_words::{Format, Show};
use mcs_system::System;
use mcs_table::Table;
use mcs_ticks::{NoMemory, Row, Tick};
use mcs_verdict::{Finding, Found, Job};
use std::alloc::Global;

/// What is kept of the threads and of the chains.
#[derive(Drop)]
pub(crate) struct Watches {
    pub(crate) threads: ThreadWatch,
    pub(crate) chains: ChainWatch,
}

/// The figures of the threads and of the chains.
#[derive(Drop)]
pub(crate) struct Tables {
    pub(crate) threads: Table,
    pub(crate) chains: Tallies,
}

/// The state kept of the rows so far: their watch, their counts and the lines that wait.
#[derive(Drop)]
pub(crate) struct Seen {
    pub(crate) watch: Watches,
    pub(crate) counts: Counts,
    /// The tables, if figures are asked for.
    pub(crate) table: Option<Tables>,
    /// The lines that are not written yet.
    pub(crate) text: Vec<u8>,
}

impl Seen {
    /// Takes one more row and returns what is shown of it, in constant time and without memory.
    /// `allowed` says for each notification whether lost signals are allowed.
    #[inline(always)]
    pub(crate) fn see(&mut self, show: Show, allowed: &[bool], row: &Row) -> Option<Shown>
        ensures text { self.new.text ≡ self.old.text }
        ensures kept { (system : TheSystem) (past : List TheRow) → self.old.watch.threads ≡ threads_of system past → UpTo row.now.moment past →
            self.new.watch.threads ≡ threads_of system (row.now ∷ past) }
        ensures counted { (system : TheSystem) (past : List TheRow) → self.old.watch.threads ≡ threads_of system past → UpTo row.now.moment past →
            self.new.counts ≡ counted_at system allowed.now past row.now self.old.counts }
        ensures told { (system : TheSystem) (past : List TheRow) → self.old.watch.threads ≡ threads_of system past → UpTo row.now.moment past →
            result ≡ shown_at system allowed.now show past row.now }
        ensures chains { self.new.watch.chains ≡ self.old.watch.chains }
        ensures tabled { (system : TheSystem) (horizon : ℕ) (past : List TheRow) (chains : List TheTally) → self.old.watch.threads ≡ threads_of system past →
            UpTo row.now.moment past → self.old.table ≡ if_figures show (record { threads = table_of system horizon past; chains = chains }) →
            self.new.table ≡ if_figures show (record { threads = table_of system horizon (row.now ∷ past); chains = chains }) }
    {
        // Most rows leave at a `?` and need no room for what is shown.
        match show {
            Show::Findings => Some(shown_found(row, self.find(allowed, row)?)),
            Show::Jobs => {
                let job = self.watch.threads.job(row);
                self.find(allowed, row);
                Some(Shown::Job(job?))
            }
            Show::Table => {
                self.tabulate(allowed, row);
                None
            }
            Show::Both => Some(shown_found(row, self.tabulate(allowed, row)?)),
        }
    }

    /// The chains take one more row. `NoMemory` if an allocation failed: then some have taken it.
    pub(crate) fn take(&mut self, alloc: Global, system: &System, row: &Row) -> Result<(), NoMemory>
        ensures text { self.new.text ≡ self.old.text }
        ensures counts { self.new.counts ≡ self.old.counts }
        ensures threads { self.new.watch.threads ≡ self.old.watch.threads }
        ensures kept { (past : List TheRow) → self.old.watch.chains ≡ chains_of system.now past →
            OnOk result (self.new.watch.chains ≡ chains_of system.now (row.now ∷ past)) }
        ensures tabled { (asked : TheShow) (horizon : ℕ) (past : List TheRow) (threads : TheTable) → self.old.watch.chains ≡ chains_of system.now past →
            self.old.table ≡ if_figures asked (record { threads = threads; chains = tallies_of horizon system.now past }) →
            OnOk result (self.new.table ≡ if_figures asked (record { threads = threads; chains = tallies_of horizon system.now (row.now ∷ past) })) }
    {
        self.watch.chains.see(alloc, system, row)?;
        count(&mut self.table, system, &self.watch.chains, row);
        Ok(())
    }

    /// Appends the lines of the slow answers that are due at this moment, if findings are shown.
    /// `NoMemory` if an allocation failed: then some may be there.
    #[inline(always)]
    pub(crate) fn put_due(
        &mut self,
        alloc: Global,
        format: Format,
        show: Show,
        system: &System,
        moment: Tick,
    ) -> Result<(), NoMemory>
        ensures text { OnOk result (self.new.text.items ≡ self.old.text.items
            ++ due_lines format system.now show (all_due (Some moment) 0 self.old.watch.chains.each)) }
        ensures watch { self.new.watch ≡ self.old.watch }
        ensures counts { self.new.counts ≡ self.old.counts }
        ensures table { self.new.table ≡ self.old.table }
    {
        // Mostly there is none.
        if !self.watch.chains.has_late() {
            return Ok(());
        }
        match show {
            Show::Findings | Show::Both => {
                let due = self.watch.chains.due(alloc, Some(moment))?;
                put_chains_found(alloc, &mut self.text, format, system, due.as_slice())
            }
            Show::Jobs | Show::Table => Ok(()),
        }
    }

    /// Appends the lines of the row's answers, if jobs are shown. The chains have taken the row.
    /// `NoMemory` if an allocation failed: then some may be there.
    pub(crate) fn put_answers(
        &mut self,
        alloc: Global,
        format: Format,
        show: Show,
        system: &System,
        row: &Row,
    ) -> Result<(), NoMemory>
        ensures text { (past : List TheRow) → self.old.watch.chains ≡ chains_of system.now (row.now ∷ past) →
            OnOk result (self.new.text.items ≡ self.old.text.items
            ++ answered_lines format system.now show (answers_at system.now past row.now 0 system.now.chains)) }
        ensures watch { self.new.watch ≡ self.old.watch }
        ensures counts { self.new.counts ≡ self.old.counts }
        ensures table { self.new.table ≡ self.old.table }
    {
        match show {
            Show::Jobs => {
                let answers = self.watch.chains.answers(alloc, system, row)?;
                put_answers(alloc, &mut self.text, format, system, answers.as_slice())
            }
            Show::Findings | Show::Table | Show::Both => Ok(()),
        }
    }

    /// Appends the line of what is shown, if there is something.
    pub(crate) fn put(
        &mut self,
        alloc: Global,
        format: Format,
        system: &System,
        shown: &Option<Shown>,
    ) -> Result<(), NoMemory>
        ensures text { OnOk result (self.new.text.items ≡ self.old.text.items ++ told_line format system.now shown.now) }
        ensures watch { self.new.watch ≡ self.old.watch }
        ensures counts { self.new.counts ≡ self.old.counts }
        ensures table { self.new.table ≡ self.old.table }
    {
        match shown {
            Some(shown) => put_shown(alloc, &mut self.text, format, system, shown),
            None => Ok(()),
        }
    }

    /// Takes one more row and returns its finding, unless that is an allowed lost signal.
    #[inline(always)]
    pub(crate) fn find(&mut self, allowed: &[bool], row: &Row) -> Option<Finding>
        ensures text { self.new.text ≡ self.old.text }
        ensures chains { self.new.watch.chains ≡ self.old.watch.chains }
        ensures table { self.new.table ≡ self.old.table }
        ensures kept { (system : TheSystem) (past : List TheRow) → self.old.watch.threads ≡ threads_of system past → UpTo row.now.moment past →
            self.new.watch.threads ≡ threads_of system (row.now ∷ past) }
        ensures counted { (system : TheSystem) (past : List TheRow) → self.old.watch.threads ≡ threads_of system past → UpTo row.now.moment past →
            self.new.counts ≡ counted_at system allowed.now past row.now self.old.counts }
        ensures told { (system : TheSystem) (past : List TheRow) → self.old.watch.threads ≡ threads_of system past → UpTo row.now.moment past →
            result ≡ told_of allowed.now (finding system past row.now.moment row.now.what) }
    {
        find(&mut self.watch.threads, &mut self.counts, allowed, row)
    }

    /// `find` that also keeps the row for the figures.
    fn tabulate(&mut self, allowed: &[bool], row: &Row) -> Option<Finding>
        ensures text { self.new.text ≡ self.old.text }
        ensures kept { (system : TheSystem) (past : List TheRow) → self.old.watch.threads ≡ threads_of system past → UpTo row.now.moment past →
            self.new.watch.threads ≡ threads_of system (row.now ∷ past) }
        ensures counted { (system : TheSystem) (past : List TheRow) → self.old.watch.threads ≡ threads_of system past → UpTo row.now.moment past →
            self.new.counts ≡ counted_at system allowed.now past row.now self.old.counts }
        ensures told { (system : TheSystem) (past : List TheRow) → self.old.watch.threads ≡ threads_of system past → UpTo row.now.moment past →
            result ≡ told_of allowed.now (finding system past row.now.moment row.now.what) }
        ensures chains { self.new.watch.chains ≡ self.old.watch.chains }
        ensures tabled { (system : TheSystem) (horizon : ℕ) (past : List TheRow) (chains : List TheTally) → self.old.watch.threads ≡ threads_of system past →
            UpTo row.now.moment past → self.old.table ≡ Some (record { threads = table_of system horizon past; chains = chains }) →
            self.new.table ≡ Some (record { threads = table_of system horizon (row.now ∷ past); chains = chains }) }
    {
        let job = self.watch.threads.job(row);
        let is_merged = self.watch.threads.merges(row);
        if is_merged {
            self.counts.merge();
        }
        let found = self.watch.threads.see(row);
        keep(&mut self.table, job, &found, is_merged, row);
        self.counts.take(allowed, found)
    }
}

/// A row's finding, as it is shown.
#[inline(always)]
fn shown_found(row: &Row, finding: Finding) -> Shown
    ensures { Some result ≡ shown_found row.now.moment row.now.core (Some finding) }
{
    Shown::Found(Found {
        moment: row.moment,
        core: row.core,
        finding,
    })
}

/// Keeps the row for the figures of chains, if they are asked for.
fn count(table: &mut Option<Tables>, system: &System, chains: &ChainWatch, row: &Row)
    ensures { (asked : TheShow) (horizon : ℕ) (past : List TheRow) (threads : TheTable) → chains.now ≡ chains_of system.now (row.now ∷ past) →
        table.old ≡ if_figures asked (record { threads = threads; chains = tallies_of horizon system.now past }) →
        table.new ≡ if_figures asked (record { threads = threads; chains = tallies_of horizon system.now (row.now ∷ past) }) }
{
    if let Some(table) = table {
        table.chains.see(system, chains, row);
    }
}

/// Keeps the row for the figures, if they are asked for.
pub(crate) fn keep(
    table: &mut Option<Tables>,
    job: Option<Job>,
    found: &Option<Finding>,
    is_merged: bool,
    row: &Row,
)
    ensures { (system : TheSystem) (horizon : ℕ) (past : List TheRow) (chains : List TheTally) →
        table.old ≡ Some (record { threads = table_of system horizon past; chains = chains }) →
        job ≡ job_of system past row.now.moment row.now.what → found.now ≡ finding system past row.now.moment row.now.what →
        is_merged ≡ merges system past row.now.what → table.new ≡ Some (record { threads = table_of system horizon (row.now ∷ past); chains = chains }) }
{
    if let Some(table) = table {
        table.threads.see(job, *found, is_merged, row);
    }
}

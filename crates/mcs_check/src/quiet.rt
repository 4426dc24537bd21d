//! Quiet rows: they have no line, and no figure of a thread or a notification counts them.
ghost use Rattle.std.specs.Prelude.{◌≡◌, ◌++◌, ℕ, Bool, List, ◌∷◌, Some, None, true, false, OnOk};
ghost use Rattle.mcs_ticks.specs.declared.row.Row.{Row as TheRow};
ghost use Rattle.mcs_system.specs.System.{System as TheSystem};
ghost use Rattle.mcs_verdict.specs.Findings.{UpTo};
ghost use Rattle.mcs_table.specs.Table.{table_of, Table as TheTable};
ghost use Rattle.mcs_check.specs.stored.Threads.{threads_of};
ghost use Rattle.mcs_check.specs.stored.Rows.{answered_lines, counted_at, due_lines, if_figures, shown_at};
ghost use Rattle.mcs_chain.specs.Answering.{answers_at};
ghost use Rattle.mcs_chain.specs.Figures.{tallies_of, Tally as TheTally};
ghost use Rattle.mcs_chain.specs.Watch.{all_due, watch_of as chains_of};
ghost use Rattle.mcs_check_words.specs.declared.asked.Show.{Show as TheShow};

use crate::seen::{Seen, keep};
use mcs_check_words::{Format, Show};
use mcs_system::System;
use mcs_ticks::{NoMemory, Row};
use std::alloc::Global;

impl Seen {
    /// Takes the row and returns true, if it is known at once that the row is quiet. Otherwise
    /// returns false and changes nothing.
    #[inline(always)]
    pub(crate) fn see_quiet(&mut self, show: Show, row: &Row) -> bool
        ensures no { result ≡ false → self.new ≡ self.old }
        ensures text { self.new.text ≡ self.old.text }
        ensures counts { self.new.counts ≡ self.old.counts }
        ensures chains { self.new.watch.chains ≡ self.old.watch.chains }
        ensures kept { (system : TheSystem) (past : List TheRow) → result ≡ true → self.old.watch.threads ≡ threads_of system past →
            UpTo row.now.moment past → self.new.watch.threads ≡ threads_of system (row.now ∷ past) }
        ensures counted { (system : TheSystem) (allowed : List Bool) (past : List TheRow) → result ≡ true → self.old.watch.threads ≡ threads_of system past →
            UpTo row.now.moment past → counted_at system allowed past row.now self.old.counts ≡ self.old.counts }
        ensures told { (system : TheSystem) (allowed : List Bool) (past : List TheRow) → result ≡ true → self.old.watch.threads ≡ threads_of system past →
            UpTo row.now.moment past → shown_at system allowed show past row.now ≡ None }
        ensures tabled { (system : TheSystem) (horizon : ℕ) (past : List TheRow) (chains : List TheTally) → result ≡ true →
            self.old.watch.threads ≡ threads_of system past → UpTo row.now.moment past →
            self.old.table ≡ if_figures show (record { threads = table_of system horizon past; chains = chains }) →
            self.new.table ≡ if_figures show (record { threads = table_of system horizon (row.now ∷ past); chains = chains }) }
    {
        if !self.watch.threads.is_quiet(row) {
            return false;
        }
        match show {
            Show::Findings => {}
            Show::Jobs => {
                if !self.watch.threads.ends_none(row) {
                    return false;
                }
            }
            Show::Table | Show::Both => {
                if !self.watch.threads.ends_none(row) {
                    return false;
                }
                keep(&mut self.table, None, &None, false, row);
            }
        }
        self.watch.threads.take(row);
        true
    }

    /// The chains take one more row. Appends the lines of slow answers due before it, and then
    /// those of its own answers. `NoMemory` if an allocation failed: then some may be there.
    #[inline(always)]
    pub(crate) fn follow(
        &mut self,
        alloc: Global,
        format: Format,
        show: Show,
        system: &System,
        row: &Row,
    ) -> Result<(), NoMemory>
        ensures counts { self.new.counts ≡ self.old.counts }
        ensures threads { self.new.watch.threads ≡ self.old.watch.threads }
        ensures kept { (past : List TheRow) → self.old.watch.chains ≡ chains_of system.now past →
            OnOk result (self.new.watch.chains ≡ chains_of system.now (row.now ∷ past)) }
        ensures tabled { (asked : TheShow) (horizon : ℕ) (past : List TheRow) (threads : TheTable) → self.old.watch.chains ≡ chains_of system.now past →
            self.old.table ≡ if_figures asked (record { threads = threads; chains = tallies_of horizon system.now past }) →
            OnOk result (self.new.table ≡ if_figures asked (record { threads = threads; chains = tallies_of horizon system.now (row.now ∷ past) })) }
        ensures text { (past : List TheRow) → self.old.watch.chains ≡ chains_of system.now past →
            OnOk result (self.new.text.items ≡ self.old.text.items
            ++ due_lines format system.now show (all_due (Some row.now.moment) 0 (chains_of system.now past).each)
            ++ answered_lines format system.now show (answers_at system.now past row.now 0 system.now.chains)) }
    {
        self.put_due(alloc, format, show, system, row.moment)?;
        self.take(alloc, system, row)?;
        self.put_answers(alloc, format, show, system, row)
    }
}

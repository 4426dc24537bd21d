//! The sink that finds what is to be shown of a schedule, and writes its lines.
ghost use Rattle.std.specs.Prelude.{◌≡◌, ◌∷◌, ◌++◌, ℕ, List, Some, true, false, OnOk};
ghost use Rattle.mcs_ticks.specs.declared.row.Row.{Row as TheRow};
ghost use Rattle.mcs_verdict.specs.Findings.{UpTo};
ghost use Rattle.mcs_cli.specs.Flow.{TakesLine};
ghost use Rattle.mcs_check.specs.stored.Rows.{counted_at, due_lines, kept_table, row_lines, told_with};
ghost use Rattle.mcs_check_run.specs.Lines.{failed_after};
ghost use Rattle.mcs_chain.specs.Watch.{all_due, watch_of as chains_of};
ghost use Rattle.mcs_check.specs.stored.Watches.{watches_of};

use crate::seen::Seen;
use mcs_check_run::{Lines, Progress, pass};
use mcs_check_words::{Format, Options, Show};
use mcs_cli::Target;
use mcs_system::System;
use mcs_ticks::{NoMemory, Refused, Row, Sink};

/// A sink that looks at each row as it comes and writes what is shown of it.
#[derive(Drop)]
pub(crate) struct Finder<'t, 's, 'k, 'p, T: Target, P: Progress> {
    pub(crate) lines: Lines<'t, T>,
    show: Show,
    format: Format,
    system: &'s System,
    /// For each notification, whether lost signals are allowed.
    allowed: &'s [bool],
    seen: &'k mut Seen,
    pub(crate) progress: &'p mut P,
    /// Rows since the progress was last reported.
    rows: u32,
}

impl<'t, 's, 'k, 'p, T: Target, P: Progress> Finder<'t, 's, 'k, 'p, T, P> {
    pub(crate) fn new(
        lines: Lines<'t, T>,
        options: &Options,
        system: &'s System,
        allowed: &'s [bool],
        seen: &'k mut Seen,
        progress: &'p mut P,
    ) -> Self
        ensures lines { result.lines ≡ lines.entry }
        ensures show { result.show ≡ options.now.show }
        ensures format { result.format ≡ options.now.format }
        ensures system { result.system ≡ system.entry }
        ensures allowed { result.allowed ≡ allowed.entry }
        ensures seen { result.seen.ghost_name ≡ seen.entry.ghost_name }
        ensures seen_now { result.seen.now ≡ seen.old }
    {
        Finder {
            lines,
            show: options.show,
            format: options.format,
            system,
            allowed,
            seen,
            progress,
            rows: 0,
        }
    }

    /// Looks at the row, and appends its lines to those that wait. `NoMemory` if an allocation
    /// failed.
    #[inline(always)]
    fn take(&mut self, row: &Row) -> Result<(), NoMemory>
        ensures lines { self.new.lines ≡ self.old.lines }
        ensures show { self.new.show ≡ self.old.show }
        ensures format { self.new.format ≡ self.old.format }
        ensures system { self.new.system ≡ self.old.system }
        ensures allowed { self.new.allowed ≡ self.old.allowed }
        ensures seen { self.new.seen.ghost_name ≡ self.old.seen.ghost_name }
        ensures counted { (past : List TheRow) → self.old.seen.now.watch ≡ watches_of self.old.system.now past → UpTo row.now.moment past →
            self.new.seen.now.counts ≡ counted_at self.old.system.now self.old.allowed.now past row.now self.old.seen.now.counts }
        ensures kept { (past : List TheRow) → self.old.seen.now.watch ≡ watches_of self.old.system.now past → UpTo row.now.moment past →
            OnOk result (self.new.seen.now.watch ≡ watches_of self.old.system.now (row.now ∷ past)) }
        ensures tabled { (past : List TheRow) (horizon : ℕ) → self.old.seen.now.watch ≡ watches_of self.old.system.now past → UpTo row.now.moment past →
            self.old.seen.now.table ≡ kept_table self.old.show self.old.system.now horizon past →
            OnOk result (self.new.seen.now.table ≡ kept_table self.old.show self.old.system.now horizon (row.now ∷ past)) }
        ensures told { (past : List TheRow) → self.old.seen.now.watch ≡ watches_of self.old.system.now past → UpTo row.now.moment past →
            OnOk result (self.new.seen.now.text.items ≡ self.old.seen.now.text.items
            ++ due_lines self.old.format self.old.system.now self.old.show (all_due (Some row.now.moment) 0 (chains_of self.old.system.now past).each)
            ++ told_with self.old.system.now self.old.allowed.now self.old.format self.old.show past row.now) }
    {
        let (alloc, system, format) = (self.lines.alloc, self.system, self.format);
        if self.seen.see_quiet(self.show, row) {
            return self.seen.follow(alloc, format, self.show, system, row);
        }
        self.take_any(row)
    }

    /// `take` for any row. It is kept out of line, since most rows have no line of their own and
    /// need no room for one.
    #[inline(never)]
    fn take_any(&mut self, row: &Row) -> Result<(), NoMemory>
        ensures lines { self.new.lines ≡ self.old.lines }
        ensures show { self.new.show ≡ self.old.show }
        ensures format { self.new.format ≡ self.old.format }
        ensures system { self.new.system ≡ self.old.system }
        ensures allowed { self.new.allowed ≡ self.old.allowed }
        ensures seen { self.new.seen.ghost_name ≡ self.old.seen.ghost_name }
        ensures counted { (past : List TheRow) → self.old.seen.now.watch ≡ watches_of self.old.system.now past → UpTo row.now.moment past →
            self.new.seen.now.counts ≡ counted_at self.old.system.now self.old.allowed.now past row.now self.old.seen.now.counts }
        ensures kept { (past : List TheRow) → self.old.seen.now.watch ≡ watches_of self.old.system.now past → UpTo row.now.moment past →
            OnOk result (self.new.seen.now.watch ≡ watches_of self.old.system.now (row.now ∷ past)) }
        ensures tabled { (past : List TheRow) (horizon : ℕ) → self.old.seen.now.watch ≡ watches_of self.old.system.now past → UpTo row.now.moment past →
            self.old.seen.now.table ≡ kept_table self.old.show self.old.system.now horizon past →
            OnOk result (self.new.seen.now.table ≡ kept_table self.old.show self.old.system.now horizon (row.now ∷ past)) }
        ensures told { (past : List TheRow) → self.old.seen.now.watch ≡ watches_of self.old.system.now past → UpTo row.now.moment past →
            OnOk result (self.new.seen.now.text.items ≡ self.old.seen.now.text.items
            ++ due_lines self.old.format self.old.system.now self.old.show (all_due (Some row.now.moment) 0 (chains_of self.old.system.now past).each)
            ++ told_with self.old.system.now self.old.allowed.now self.old.format self.old.show past row.now) }
    {
        let (alloc, system, format) = (self.lines.alloc, self.system, self.format);
        let shown = self.seen.see(self.show, self.allowed, row);
        self.seen
            .put_due(alloc, format, self.show, system, row.moment)?;
        self.seen.put(alloc, format, system, &shown)?;
        self.seen.take(alloc, system, row)?;
        self.seen.put_answers(alloc, format, self.show, system, row)
    }

    /// Reports the progress now and then.
    #[inline(always)]
    fn pass(&mut self, row: &Row)
        ensures lines { self.new.lines ≡ self.old.lines }
        ensures show { self.new.show ≡ self.old.show }
        ensures format { self.new.format ≡ self.old.format }
        ensures system { self.new.system ≡ self.old.system }
        ensures allowed { self.new.allowed ≡ self.old.allowed }
        ensures seen { self.new.seen.ghost_name ≡ self.old.seen.ghost_name }
        ensures seen_now { self.new.seen.now ≡ self.old.seen.now }
    {
        pass(self.progress, &mut self.rows, row);
    }
}

impl<T: Target, P: Progress> Sink for Finder<'_, '_, '_, '_, T, P> {
    ghost takes = { λ before row taken after.
        (after.lines.target.ghost_name ≡ before.lines.target.ghost_name)
        × (after.seen.ghost_name ≡ before.seen.ghost_name)
        × (after.show ≡ before.show)
        × (after.format ≡ before.format)
        × (after.system ≡ before.system)
        × (after.allowed ≡ before.allowed)
        × (taken ≡ true → T.has_failed after.lines.target.now ≡ T.has_failed before.lines.target.now)
        × (taken ≡ false → T.has_failed after.lines.target.now
        ≡ failed_after after.lines.is_out_of_memory (T.has_failed before.lines.target.now))
        × ((past : List TheRow) → before.seen.now.watch ≡ watches_of before.system.now past → UpTo row.moment past →
        (taken ≡ true → after.seen.now.watch ≡ watches_of before.system.now (row ∷ past))
        × (after.seen.now.counts ≡ counted_at before.system.now before.allowed.now past row before.seen.now.counts)
        × ((horizon : ℕ) → before.seen.now.table ≡ kept_table before.show before.system.now horizon past → taken ≡ true →
        after.seen.now.table ≡ kept_table before.show before.system.now horizon (row ∷ past))
        × TakesLine (T.contents before.lines.target.now) (T.contents after.lines.target.now) before.seen.now.text.items
        after.seen.now.text.items (row_lines before.system.now before.allowed.now before.format before.show past row) taken) };

    #[inline(always)]
    fn row(&mut self, row: &Row) -> Result<(), Refused> {
        self.pass(row);
        let taken = self.take(row);
        self.lines
            .take_line(taken, &mut self.seen.text, self.progress)
    }
}

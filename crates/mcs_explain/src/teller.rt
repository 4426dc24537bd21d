//! The sink that writes the rows of a span, and counts who ran in it.
ghost use Rattle.std.specs.Prelude.{◌≡◌, ◌∷◌, ℕ, List, true, false};
ghost use Rattle.mcs_ticks.specs.declared.row.Row.{Row as TheRow};
ghost use Rattle.mcs_verdict.specs.Findings.{UpTo};
ghost use Rattle.mcs_cli.specs.Flow.{TakesLine};
ghost use Rattle.mcs_why.specs.Account.{account_of};
ghost use Rattle.mcs_check_run.specs.Lines.{failed_after};
ghost use Rattle.mcs_explain.specs.stored.Spans.{line_at};

use mcs_check_run::{Lines, Progress, pass};
use mcs_check_words::Format;
use mcs_cli::Target;
use mcs_system::System;
use mcs_ticks::{Refused, Row, Sink};
use mcs_why::Account;
use mcs_why_lines::put_row_as;

/// The state kept of the rows so far: who ran, and the lines that are not written yet.
#[derive(Drop)]
pub(crate) struct Told {
    pub(crate) account: Account,
    pub(crate) text: Vec<u8>,
}

/// A sink that looks at each row and writes the lines of those in the span.
#[derive(Drop)]
pub(crate) struct Teller<'t, 's, 'k, 'p, T: Target, P: Progress> {
    pub(crate) lines: Lines<'t, T>,
    format: Format,
    system: &'s System,
    told: &'k mut Told,
    progress: &'p mut P,
    /// Rows since the progress was last reported.
    rows: u32,
}

impl<'t, 's, 'k, 'p, T: Target, P: Progress> Teller<'t, 's, 'k, 'p, T, P> {
    pub(crate) fn new(
        lines: Lines<'t, T>,
        format: Format,
        system: &'s System,
        told: &'k mut Told,
        progress: &'p mut P,
    ) -> Self
        ensures lines { result.lines ≡ lines.entry }
        ensures format { result.format ≡ format }
        ensures system { result.system ≡ system.entry }
        ensures told { result.told.ghost_name ≡ told.entry.ghost_name }
        ensures told_now { result.told.now ≡ told.old }
    {
        Teller {
            lines,
            format,
            system,
            told,
            progress,
            rows: 0,
        }
    }
}

impl<T: Target, P: Progress> Sink for Teller<'_, '_, '_, '_, T, P> {
    ghost takes = { λ before row taken after.
        (after.lines.target.ghost_name ≡ before.lines.target.ghost_name)
        × (after.told.ghost_name ≡ before.told.ghost_name)
        × (after.format ≡ before.format)
        × (after.system ≡ before.system)
        × (taken ≡ true → T.has_failed after.lines.target.now ≡ T.has_failed before.lines.target.now)
        × (taken ≡ false → T.has_failed after.lines.target.now
        ≡ failed_after after.lines.is_out_of_memory (T.has_failed before.lines.target.now))
        × ((threads core from to : ℕ) (past : List TheRow) → before.told.now.account ≡ account_of threads core from to past →
        UpTo row.moment past → (after.told.now.account ≡ account_of threads core from to (row ∷ past))
        × TakesLine (T.contents before.lines.target.now) (T.contents after.lines.target.now) before.told.now.text.items
        after.told.now.text.items (line_at before.format before.system.now core from to row) taken) };

    #[inline(always)]
    fn row(&mut self, row: &Row) -> Result<(), Refused> {
        pass(self.progress, &mut self.rows, row);
        if !self.told.account.see(row) {
            return Ok(());
        }
        let alloc = self.lines.alloc;
        let appended = put_row_as(alloc, &mut self.told.text, self.format, self.system, row);
        self.lines
            .take_line(appended, &mut self.told.text, self.progress)
    }
}

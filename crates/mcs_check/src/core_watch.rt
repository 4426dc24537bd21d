//! The state that is kept of the rows of one core, with their findings.
ghost use Rattle.std.specs.Prelude.{◌≡◌, ◌++◌, ◌∷◌, [], List, IfOk, OnOk};
ghost use Rattle.mcs_ticks.specs.declared.row.Row.{Row as TheRow};
ghost use Rattle.mcs_system.specs.System.{System as TheSystem};
ghost use Rattle.mcs_verdict.specs.Findings.{finding, found_at, UpTo};
ghost use Rattle.mcs_check_lines.specs.Counts.{no_counts, told_of};
ghost use Rattle.mcs_check.specs.stored.Found.{told_by};
ghost use Rattle.mcs_check.specs.stored.OwnRows.{since, until};
ghost use Rattle.mcs_check.specs.stored.Threads.{threads_of};
ghost use Rattle.mcs_check.specs.stored.Rows.{counted_at};

use crate::thread_watch::ThreadWatch;
use mcs_check_lines::Counts;
use mcs_system::System;
use mcs_ticks::{NoMemory, Refused, Row, Tick};
use mcs_verdict::{Finding, Found};
use std::alloc::Global;

/// The state kept of the rows of one core: its watch of the threads, its counts, and the findings
/// that are not yet written.
#[derive(Drop)]
pub(crate) struct CoreWatch {
    pub(crate) watch: ThreadWatch,
    pub(crate) counts: Counts,
    /// The findings that are not yet written.
    pub(crate) found: Vec<Found>,
    /// The number of rows, at most `usize::MAX`.
    pub(crate) rows: usize,
}

impl CoreWatch {
    /// The state before the first row of a run. `NoMemory` if memory runs out.
    pub(crate) fn new(alloc: Global, system: &System) -> Result<CoreWatch, NoMemory>
        ensures { IfOk result (λ own. (own.watch ≡ threads_of system.now []) × (own.counts ≡ no_counts) × (own.found.items ≡ []) × (own.rows ≡ 0)) }
    {
        Ok(CoreWatch {
            watch: ThreadWatch::new(alloc, system)?,
            counts: Counts::new(),
            found: Vec::new(alloc),
            rows: 0,
        })
    }

    /// Takes one more row and keeps its finding, unless the row is earlier than `from` or the
    /// finding is an allowed lost signal. Refuses the row only if there is no memory for the
    /// finding.
    #[inline(always)]
    pub(crate) fn see(&mut self, allowed: &[bool], from: Tick, row: &Row) -> Result<(), Refused>
        ensures rows { self.new.rows ≡ self.old.rows }
        ensures kept { (system : TheSystem) (past : List TheRow) → self.old.watch ≡ threads_of system past → UpTo row.now.moment past →
            self.new.watch ≡ threads_of system (row.now ∷ past) }
        ensures counted { (system : TheSystem) (past : List TheRow) → self.old.watch ≡ threads_of system past → UpTo row.now.moment past →
            self.new.counts ≡ counted_at system allowed.now past row.now self.old.counts }
        ensures found { (system : TheSystem) (past : List TheRow) → self.old.watch ≡ threads_of system past → UpTo row.now.moment past →
            OnOk result (self.new.found.items ≡ self.old.found.items ++ since from (told_by system allowed.now past row.now)) }
    {
        if !self.watch.is_quiet(row) {
            return self.see_any(allowed, from, row);
        }
        self.watch.take(row);
        Ok(())
    }

    /// `see` for any row. It is kept out of line, since most rows have no finding and need no room
    /// for one.
    #[inline(never)]
    fn see_any(&mut self, allowed: &[bool], from: Tick, row: &Row) -> Result<(), Refused>
        ensures rows { self.new.rows ≡ self.old.rows }
        ensures kept { (system : TheSystem) (past : List TheRow) → self.old.watch ≡ threads_of system past → UpTo row.now.moment past →
            self.new.watch ≡ threads_of system (row.now ∷ past) }
        ensures counted { (system : TheSystem) (past : List TheRow) → self.old.watch ≡ threads_of system past → UpTo row.now.moment past →
            self.new.counts ≡ counted_at system allowed.now past row.now self.old.counts }
        ensures found { (system : TheSystem) (past : List TheRow) → self.old.watch ≡ threads_of system past → UpTo row.now.moment past →
            OnOk result (self.new.found.items ≡ self.old.found.items ++ since from (told_by system allowed.now past row.now)) }
    {
        let finding = find(&mut self.watch, &mut self.counts, allowed, row);
        keep(&mut self.found, from, row, finding)
    }

    /// Moves the findings before `to` to the end of `told`.
    pub(crate) fn tell(&mut self, to: Tick, told: &mut Vec<Found>) -> Result<(), NoMemory>
        ensures watch { self.new.watch ≡ self.old.watch }
        ensures counts { self.new.counts ≡ self.old.counts }
        ensures rows { self.new.rows ≡ self.old.rows }
        ensures told { OnOk result (told.new.items ≡ told.old.items ++ until to self.old.found.items) }
        ensures found { OnOk result (self.new.found.items ≡ since to self.old.found.items) }
    {
        for found in self.found.as_slice() {
            if found.moment.get() < to.get() {
                told.push(*found)?;
            }
        }
        self.found.retain(|found| to.get() <= found.moment.get());
        Ok(())
    }
}

/// Takes one more row and returns its finding, unless that is an allowed lost signal.
#[inline(always)]
pub(crate) fn find(
    watch: &mut ThreadWatch,
    counts: &mut Counts,
    allowed: &[bool],
    row: &Row,
) -> Option<Finding>
    ensures kept { (system : TheSystem) (past : List TheRow) → watch.old ≡ threads_of system past → UpTo row.now.moment past →
        watch.new ≡ threads_of system (row.now ∷ past) }
    ensures counted { (system : TheSystem) (past : List TheRow) → watch.old ≡ threads_of system past → UpTo row.now.moment past →
        counts.new ≡ counted_at system allowed.now past row.now counts.old }
    ensures told { (system : TheSystem) (past : List TheRow) → watch.old ≡ threads_of system past → UpTo row.now.moment past →
        result ≡ told_of allowed.now (finding system past row.now.moment row.now.what) }
{
    if watch.merges(row) {
        counts.merge();
    }
    let found = watch.see(row);
    counts.take(allowed, found)
}

/// Appends the finding, if there is one and the row is not earlier than `from`.
#[inline(always)]
fn keep(
    found: &mut Vec<Found>,
    from: Tick,
    row: &Row,
    finding: Option<Finding>,
) -> Result<(), Refused>
    ensures { OnOk result (found.new.items ≡ found.old.items ++ since from (found_at row.now.moment row.now.core finding)) }
{
    let Some(finding) = finding else {
        return Ok(());
    };
    if row.moment.get() < from.get() {
        return Ok(());
    }
    let one = Found {
        moment: row.moment,
        core: row.core,
        finding,
    };
    found.push(one).ok().ok_or(Refused)
}

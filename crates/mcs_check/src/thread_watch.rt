//! The state that is kept of the rows of threads.
ghost use Rattle.std.specs.Prelude.{◌≡◌, ◌∷◌, [], List, None, true, false, IfOk};
ghost use Rattle.mcs_ticks.specs.declared.row.Row.{Row as TheRow};
ghost use Rattle.mcs_system.specs.System.{System as TheSystem};
ghost use Rattle.mcs_verdict.specs.Findings.{finding, UpTo};
ghost use Rattle.mcs_verdict.specs.Jobs.{job_of};
ghost use Rattle.mcs_verdict.specs.Words.{merges};
ghost use Rattle.mcs_check.specs.stored.Threads.{threads_of};

use crate::ended::Ended;
use mcs_system::System;
use mcs_ticks::{NoMemory, Row, What};
use mcs_verdict::{Finding, Job, Watch};
use std::alloc::Global;

/// The accounts of the threads and the words of the notifications, and how many rounds ended.
#[derive(Drop)]
pub(crate) struct ThreadWatch {
    pub(crate) accounts: Watch,
    pub(crate) ended: Ended,
}

impl ThreadWatch {
    /// The state before the first row of a run. `NoMemory` if memory runs out.
    pub(crate) fn new(alloc: Global, system: &System) -> Result<ThreadWatch, NoMemory>
        ensures { IfOk result (λ watch. watch ≡ threads_of system.now []) }
    {
        Ok(ThreadWatch {
            accounts: Watch::new(alloc, system)?,
            ended: Ended::new(alloc, system.parts().threads.len())?,
        })
    }

    /// Whether it is known at once that the row has no finding and is no coalesced signal. Call it
    /// before `take`.
    #[inline(always)]
    pub(crate) fn is_quiet(&self, row: &Row) -> bool
        ensures found { (system : TheSystem) (past : List TheRow) → self.now ≡ threads_of system past → UpTo row.now.moment past →
            result ≡ true → finding system past row.now.moment row.now.what ≡ None }
        ensures merged { (system : TheSystem) (past : List TheRow) → result ≡ true → merges system past row.now.what ≡ false }
    {
        self.accounts.is_quiet(row)
    }

    /// Whether it is known at once that the row ends no round.
    #[inline(always)]
    pub(crate) fn ends_none(&self, row: &Row) -> bool
        ensures { (system : TheSystem) (past : List TheRow) → result ≡ true → job_of system past row.now.moment row.now.what ≡ None }
    {
        !matches!(row.what, What::Round { .. })
    }

    /// Takes one more row without its finding.
    #[inline(always)]
    pub(crate) fn take(&mut self, row: &Row)
        ensures { (system : TheSystem) (past : List TheRow) → self.old ≡ threads_of system past → UpTo row.now.moment past →
            self.new ≡ threads_of system (row.now ∷ past) }
    {
        self.ended.see(row);
        self.accounts.take(row);
    }

    /// Takes one more row and returns its finding.
    #[inline(always)]
    pub(crate) fn see(&mut self, row: &Row) -> Option<Finding>
        ensures kept { (system : TheSystem) (past : List TheRow) → self.old ≡ threads_of system past → UpTo row.now.moment past →
            self.new ≡ threads_of system (row.now ∷ past) }
        ensures found { (system : TheSystem) (past : List TheRow) → self.old ≡ threads_of system past → UpTo row.now.moment past →
            result ≡ finding system past row.now.moment row.now.what }
    {
        self.ended.see(row);
        self.accounts.see(row)
    }

    /// Returns the round that this row ends. Call it before `see`.
    pub(crate) fn job(&self, row: &Row) -> Option<Job>
        ensures { (system : TheSystem) (past : List TheRow) → self.now ≡ threads_of system past → UpTo row.now.moment past →
            result ≡ job_of system past row.now.moment row.now.what }
    {
        self.accounts.job(row)
    }

    /// Whether this row's signal adds bits to a pending word. Call it before `see`.
    pub(crate) fn merges(&self, row: &Row) -> bool
        ensures { (system : TheSystem) (past : List TheRow) → self.now ≡ threads_of system past →
            result ≡ merges system past row.now.what }
    {
        self.accounts.merges(row)
    }
}

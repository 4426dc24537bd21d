//! The sink that looks for an answer of a chain in the rows of a schedule.
ghost use Rattle.std.specs.Prelude.{◌≡◌, ◌∷◌, ℕ, List, true};
ghost use Rattle.mcs_ticks.specs.declared.row.Row.{Row as TheRow};
ghost use Rattle.mcs_way.specs.Sought.{search_of};

use mcs_check_run::{Progress, pass};
use mcs_system::System;
use mcs_ticks::{Refused, Row, Sink};
use mcs_way::Search;
use std::alloc::Global;

/// A sink that looks at each row. It refuses a row only if an allocation failed.
#[derive(Drop)]
pub(crate) struct AnswerSeeker<'s, 'p, P: Progress> {
    alloc: Global,
    system: &'s System,
    pub(crate) search: Search,
    pub(crate) progress: &'p mut P,
    /// Rows since the progress was last reported.
    rows: u32,
}

impl<'s, 'p, P: Progress> AnswerSeeker<'s, 'p, P> {
    pub(crate) fn new(
        alloc: Global,
        system: &'s System,
        search: Search,
        progress: &'p mut P,
    ) -> Self
        ensures system { result.system ≡ system.entry }
        ensures search { result.search ≡ search }
    {
        AnswerSeeker {
            alloc,
            system,
            search,
            progress,
            rows: 0,
        }
    }
}

impl<P: Progress> Sink for AnswerSeeker<'_, '_, P> {
    ghost takes = { λ before row taken after.
        (after.system ≡ before.system)
        × ((chain number : ℕ) (past : List TheRow) → before.search ≡ search_of before.system.now chain number past →
        taken ≡ true → after.search ≡ search_of before.system.now chain number (row ∷ past)) };

    #[inline(always)]
    fn row(&mut self, row: &Row) -> Result<(), Refused> {
        pass(self.progress, &mut self.rows, row);
        match self.search.see(self.alloc, self.system, row) {
            Ok(()) => Ok(()),
            Err(_) => Err(Refused),
        }
    }
}

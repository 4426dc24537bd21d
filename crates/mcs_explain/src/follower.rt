//! The sink that follows the interrupt of an answer through the rows of a schedule.
ghost use Rattle.std.specs.Prelude.{◌≡◌, ◌∷◌, List, true};
ghost use Rattle.mcs_ticks.specs.declared.row.Row.{Row as TheRow};
ghost use Rattle.mcs_verdict.specs.Findings.{UpTo};
ghost use Rattle.mcs_chain.specs.declared.answer.Answer.{Answer as TheAnswer};
ghost use Rattle.mcs_way.specs.Trail.{trail_of};

use mcs_check_run::{Progress, pass};
use mcs_system::System;
use mcs_ticks::{Refused, Row, Sink};
use mcs_way::Trail;
use std::alloc::Global;

/// A sink that looks at each row. It refuses a row only if an allocation failed.
#[derive(Drop)]
pub(crate) struct Follower<'s, 'p, P: Progress> {
    alloc: Global,
    system: &'s System,
    pub(crate) trail: Trail,
    pub(crate) progress: &'p mut P,
    /// Rows since the progress was last reported.
    rows: u32,
}

impl<'s, 'p, P: Progress> Follower<'s, 'p, P> {
    pub(crate) fn new(alloc: Global, system: &'s System, trail: Trail, progress: &'p mut P) -> Self
        ensures system { result.system ≡ system.entry }
        ensures trail { result.trail ≡ trail }
    {
        Follower {
            alloc,
            system,
            trail,
            progress,
            rows: 0,
        }
    }
}

impl<P: Progress> Sink for Follower<'_, '_, P> {
    ghost takes = { λ before row taken after.
        (after.system ≡ before.system)
        × ((answer : TheAnswer) (past : List TheRow) → before.trail ≡ trail_of before.system.now answer past →
        UpTo row.moment past → taken ≡ true → after.trail ≡ trail_of before.system.now answer (row ∷ past)) };

    #[inline(always)]
    fn row(&mut self, row: &Row) -> Result<(), Refused> {
        pass(self.progress, &mut self.rows, row);
        match self.trail.see(self.alloc, self.system, row) {
            Ok(()) => Ok(()),
            Err(_) => Err(Refused),
        }
    }
}

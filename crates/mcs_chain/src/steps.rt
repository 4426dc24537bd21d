ghost use Rattle.std.specs.Prelude.{◌≡◌, [], ◌∷◌, List, IfOk};
ghost use Rattle.mcs_ticks.specs.declared.row.Row.{Row as TheRow};
ghost use Rattle.mcs_chain.specs.Answers.{gone_after};
ghost use Rattle.mcs_chain.specs.Moves.{moves};

use crate::moves::{Move, moves};
use crate::step::{Gone, all_fresh, all_go};
use mcs_system::System;
use mcs_ticks::{NoMemory, Row};
use std::alloc::Global;
use std::marker::Model;

/// How far each thread is in its script, as the rows of a schedule go by. It has the effect of each
/// row on the sets of origins. A row takes constant time and no memory.
#[derive(Drop)]
pub struct Steps {
    gone: Vec<Gone>,
}

impl Model for Steps {
    ghost use Rattle.std.specs.Prelude.{List};
    ghost use Rattle.mcs_chain.specs.declared.step.Gone.{Gone};

    ghost Value = { List Gone };

    ghost view = { λ a. a.gone.items };
}

impl Steps {
    /// The steps before the first row. `NoMemory` if an allocation failed.
    pub fn new(alloc: Global, system: &System) -> Result<Self, NoMemory>
        ensures { IfOk result (λ steps. steps ≡ gone_after system.now []) }
    {
        Ok(Steps {
            gone: all_fresh(alloc, system.parts())?,
        })
    }

    /// The effect of the next row on the sets of origins. Call it before `see`.
    pub fn moves(&self, system: &System, row: &Row) -> Move
        ensures { result ≡ moves system.now self.now row.now }
    {
        moves(system.parts(), self.gone.as_slice(), row)
    }

    /// Takes one more row.
    pub fn see(&mut self, system: &System, row: &Row)
        ensures { (past : List TheRow) → self.old ≡ gone_after system.now past → self.new ≡ gone_after system.now (row.now ∷ past) }
    {
        all_go(system.parts(), &mut self.gone, &row.what);
    }
}

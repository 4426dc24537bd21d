ghost use Rattle.std.specs.Prelude.{◌≡◌, ◌∷◌, [], ℕ, List, IfOk, OnOk};
ghost use Rattle.mcs_ticks.specs.declared.row.Row.{Row as TheRow};
ghost use Rattle.mcs_system.specs.System.{System as TheSystem};
ghost use Rattle.mcs_way.specs.Sought.{search_of, sought};

use crate::Sought;
use crate::count::Count;
use mcs_chain::{ChainId, Watch};
use mcs_system::System;
use mcs_ticks::{NoMemory, Row};
use std::alloc::Global;
use std::marker::Model;

/// Looks for an answer of a chain as the rows of a schedule go by. It takes the room and the time
/// of a [`Watch`] of all chains. The system is the one that it was made for.
#[derive(Drop)]
pub struct Search {
    watch: Watch,
    chain: ChainId,
    count: Count,
}

impl Model for Search {
    ghost use Rattle.mcs_way.specs.Sought.{Search};

    ghost Value = { Search };

    ghost view = { λ a. record { watch = a.watch; chain = a.chain; count = a.count } };
}

impl Search {
    /// A search for the answer of this number, from 1, before the first row. `NoMemory` if an
    /// allocation failed.
    pub fn new(
        alloc: Global,
        system: &System,
        chain: ChainId,
        number: u64,
    ) -> Result<Self, NoMemory>
        ensures { IfOk result (λ search. search ≡ search_of system.now chain number []) }
    {
        Ok(Search {
            watch: Watch::new(alloc, system)?,
            chain,
            count: Count::new(number),
        })
    }

    /// Takes one more row. `NoMemory` if an allocation failed: then the search can only be dropped.
    pub fn see(&mut self, alloc: Global, system: &System, row: &Row) -> Result<(), NoMemory>
        ensures { (chain number : ℕ) (past : List TheRow) → self.old ≡ search_of system.now chain number past →
            OnOk result (self.new ≡ search_of system.now chain number (row.now ∷ past)) }
    {
        self.watch.see(alloc, system, row)?;
        let answers = self.watch.answers(alloc, system, row)?;
        self.count.take_all(self.chain, answers.as_slice());
        Ok(())
    }

    /// Returns the answer, or how many answers the chain has, by the rows so far.
    pub fn sought(&self) -> Sought
        ensures { (system : TheSystem) (chain number : ℕ) (past : List TheRow) → self.now ≡ search_of system chain number past →
            result ≡ sought system chain number past }
    {
        self.count.sought()
    }
}

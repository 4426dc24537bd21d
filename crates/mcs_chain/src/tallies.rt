ghost use Rattle.std.specs.Prelude.{◌≡◌, ◌<◌, ℕ, List, [], ◌∷◌, length, map, slice_get, Some, IfOk};
ghost use Rattle.mcs_ticks.specs.declared.row.Row.{Row as TheRow};
ghost use Rattle.mcs_ticks.specs.Capped.{capped};
ghost use Rattle.mcs_system.specs.System.{System as TheSystem};
ghost use Rattle.mcs_system.specs.declared.part.ChainPart.{ChainPart as TheChain};
ghost use Rattle.mcs_table.specs.Rounds.{greatest};
ghost use Rattle.mcs_chain.specs.Answers.{interrupts, latencies};
ghost use Rattle.mcs_chain.specs.Figures.{all_figures, figures_of, tallies_of, tally_of};
ghost use Rattle.mcs_chain.specs.Watch.{one_of, watch_of};

use crate::one::One;
use crate::tally::Tally;
use crate::{ChainId, Figures, Watch};
use mcs_system::{ChainPart, System};
use mcs_ticks::{NoMemory, Row, Tick};
use std::alloc::Global;
use std::marker::Model;

/// The counts of the interrupts and answers of all chains of a system. All room is taken when it is
/// made.
#[derive(Drop)]
pub struct Tallies {
    each: Vec<Tally>,
}

impl Model for Tallies {
    ghost use Rattle.std.specs.Prelude.{List};
    ghost use Rattle.mcs_chain.specs.Figures.{Tally};

    ghost Value = { List Tally };

    ghost view = { λ a. a.each.items };
}

impl Tallies {
    /// Before the first row of a run up to the horizon. `NoMemory` if an allocation failed.
    pub fn new(alloc: Global, system: &System, horizon: Tick) -> Result<Self, NoMemory>
        ensures { IfOk result (λ tallies. tallies ≡ tallies_of horizon system.now []) }
    {
        let mut each = Vec::new(alloc);
        for _number in 0..system.parts().chains.len() {
            each.push(Tally::new(alloc, horizon)?)?;
        }
        Ok(Tallies { each })
    }

    /// Takes one row more, which the watch has seen.
    pub fn see(&mut self, system: &System, watch: &Watch, row: &Row)
        ensures { (horizon : ℕ) (past : List TheRow) → watch.now ≡ watch_of system.now (row.now ∷ past) →
            self.old ≡ tallies_of horizon system.now past → self.new ≡ tallies_of horizon system.now (row.now ∷ past) }
    {
        let chains = system.parts().chains.as_slice();
        all_count(&mut self.each, chains, watch.each.as_slice(), row);
    }

    /// How many interrupts the source of the chain made, at most 2^64 - 1.
    pub fn interrupts_of(&self, chain: ChainId) -> u64
        requires { chain < length self.now }
        ensures { (horizon : ℕ) (system : TheSystem) (past : List TheRow) (part : TheChain) → self.now ≡ tallies_of horizon system past →
            slice_get system.chains chain ≡ Some part → result ≡ capped (interrupts part past) }
    {
        self.each[chain.0].interrupts
    }

    /// How many answers the chain has, at most 2^64 - 1.
    pub fn answers_of(&self, chain: ChainId) -> u64
        requires { chain < length self.now }
        ensures { (horizon : ℕ) (system : TheSystem) (past : List TheRow) (part : TheChain) → self.now ≡ tallies_of horizon system past →
            slice_get system.chains chain ≡ Some part → result ≡ capped (length (latencies system part past)) }
    {
        self.each[chain.0].answers()
    }

    /// The maximum latency of the chain, if there is an answer.
    pub fn greatest_of(&self, chain: ChainId) -> Option<u64>
        requires { chain < length self.now }
        ensures { (horizon : ℕ) (system : TheSystem) (past : List TheRow) (part : TheChain) → self.now ≡ tallies_of horizon system past →
            slice_get system.chains chain ≡ Some part → result ≡ greatest (latencies system part past) }
    {
        self.each[chain.0].greatest()
    }

    /// The figures of each chain, in file order.
    pub fn figures(&self, alloc: Global, system: &System) -> Result<Vec<Figures>, NoMemory>
        ensures { (horizon : ℕ) (past : List TheRow) → self.now ≡ tallies_of horizon system.now past →
            IfOk result (λ all. all.items ≡ all_figures horizon system.now past) }
    {
        let chains = system.parts().chains.as_slice();
        figures_of_all(alloc, self.each.as_slice(), chains)
    }
}

/// Each tally takes one row more.
fn all_count(each: &mut [Tally], chains: &[ChainPart], ones: &[One], row: &Row)
    ensures { (horizon : ℕ) (system : TheSystem) (past : List TheRow) → ones.now ≡ map (λ chain. one_of system chain (row.now ∷ past)) chains.now →
        each.old ≡ map (λ chain. tally_of horizon system chain past) chains.now →
        each.new ≡ map (λ chain. tally_of horizon system chain (row.now ∷ past)) chains.now }
{
    for i in 0..each.len() {
        if i < chains.len() && i < ones.len() {
            let one = &ones[i];
            each[i].see(&chains[i], one.origins.answered(), row);
        }
    }
}

/// The figures of each chain.
fn figures_of_all(
    alloc: Global,
    each: &[Tally],
    chains: &[ChainPart],
) -> Result<Vec<Figures>, NoMemory>
    ensures { (horizon : ℕ) (system : TheSystem) (past : List TheRow) → each.now ≡ map (λ chain. tally_of horizon system chain past) chains.now →
        IfOk result (λ all. all.items ≡ map (λ chain. figures_of horizon system chain past) chains.now) }
{
    let mut all = Vec::new(alloc);
    for i in 0..each.len() {
        if i < chains.len() {
            let tally = &each[i];
            all.push(tally.figures(&chains[i]))?;
        }
    }
    Ok(all)
}

ghost use Rattle.std.specs.Prelude.{◌≡◌, ◌<◌, ℕ, false, List, [], ◌∷◌, length, slice_get, Option, Some, OnOk, IfOk};
ghost use Rattle.mcs_ticks.specs.declared.row.Row.{Row as TheRow};
ghost use Rattle.mcs_system.specs.System.{System as TheSystem};
ghost use Rattle.mcs_system.specs.declared.part.ChainPart.{ChainPart as TheChain};
ghost use Rattle.mcs_chain.specs.Answering.{answers_at};
ghost use Rattle.mcs_chain.specs.Answers.{unanswered};
ghost use Rattle.mcs_chain.specs.State.{state_of};
ghost use Rattle.mcs_chain.specs.Found.{all_unanswered};
ghost use Rattle.mcs_chain.specs.Watch.{all_due, all_judged_many, all_slow_many, gone_for, slow_many, watch_of};

use crate::answer::answers_at;
use crate::chains::{
    all_new, all_see, are_still, due_of, have_late, judged_of, many_of, unanswered_of,
};
use crate::found::unanswered_of as finding_of;
use crate::moves::moves;
use crate::one::One;
use crate::step::{Gone, all_fresh, all_go, is_quiet};
use crate::{Answer, ChainId, Finding, Found, State};
use mcs_system::{System, SystemParts};
use mcs_ticks::{NoMemory, Row, Tick};
use std::alloc::Global;
use std::marker::Model;

/// The chains of a system, as the rows of a schedule go by: how far each thread is in its script,
/// and for each chain the sets of origins without an answer. Its room grows only with those
/// origins. The system is the one that it was made for.
#[derive(Drop)]
pub struct Watch {
    gone: Vec<Gone>,
    pub(crate) each: Vec<One>,
}

impl Model for Watch {
    ghost use Rattle.mcs_chain.specs.Watch.{Watch};

    ghost Value = { Watch };

    ghost view = { λ a. record { gone = a.gone.items; each = a.each.items } };
}

/// How far each thread has gone before the first row. Nobody asks if there is no chain.
fn none_gone(alloc: Global, parts: &SystemParts) -> Result<Vec<Gone>, NoMemory>
    ensures { IfOk result (λ gone. gone.items ≡ gone_for parts.now [] parts.now.chains) }
{
    if parts.chains.is_empty() {
        return Ok(Vec::new(alloc));
    }
    all_fresh(alloc, parts)
}

impl Watch {
    /// The watch before the first row. `NoMemory` if an allocation failed.
    pub fn new(alloc: Global, system: &System) -> Result<Self, NoMemory>
        ensures { IfOk result (λ watch. watch ≡ watch_of system.now []) }
    {
        let parts = system.parts();
        Ok(Watch {
            gone: none_gone(alloc, parts)?,
            each: all_new(alloc, parts)?,
        })
    }

    /// Takes one row more. `NoMemory` if an allocation failed: then some chains have taken the row,
    /// and the watch can only be dropped. A row that moves no origin is only looked at.
    #[inline(always)]
    pub fn see(&mut self, alloc: Global, system: &System, row: &Row) -> Result<(), NoMemory>
        ensures { (past : List TheRow) → self.old ≡ watch_of system.now past →
            OnOk result (self.new ≡ watch_of system.now (row.now ∷ past)) }
    {
        if is_quiet(&row.what) && are_still(self.each.as_slice()) {
            return Ok(());
        }
        self.take(alloc, system, row)
    }

    /// `see` for any row.
    fn take(&mut self, alloc: Global, system: &System, row: &Row) -> Result<(), NoMemory>
        ensures { (past : List TheRow) → self.old ≡ watch_of system.now past →
            OnOk result (self.new ≡ watch_of system.now (row.now ∷ past)) }
    {
        let parts = system.parts();
        if parts.chains.is_empty() {
            return Ok(());
        }
        let moved = moves(parts, &self.gone, row);
        all_see(alloc, &mut self.each, parts.chains.as_slice(), row, &moved)?;
        all_go(parts, &mut self.gone, &row.what);
        Ok(())
    }

    /// Whether there are slow answers of the latest rows that have one moment.
    #[inline(always)]
    pub fn has_late(&self) -> bool
        ensures { (before : Option ℕ) → result ≡ false → all_due before 0 self.now.each ≡ [] }
    {
        have_late(self.each.as_slice())
    }

    /// The slow answers of the latest rows that have one moment, chain by chain; with `before` only
    /// if that moment is before it.
    pub fn due(&self, alloc: Global, before: Option<Tick>) -> Result<Vec<Found>, NoMemory>
        ensures { IfOk result (λ due. due.items ≡ all_due before 0 self.now.each) }
    {
        due_of(alloc, &before, self.each.as_slice())
    }

    /// How many slow answers there are, at most 2^64 - 1.
    pub fn slow(&self) -> u64
        ensures { result ≡ all_slow_many self.now.each }
    {
        many_of(self.each.as_slice())
    }

    /// How many answers are judged, those of chains with a deadline; at most 2^64 - 1.
    pub fn judged(&self) -> u64
        ensures { result ≡ all_judged_many self.now.each }
    {
        judged_of(self.each.as_slice())
    }

    /// The answers of the latest row, chain by chain, those for earlier interrupts first.
    pub fn answers(
        &self,
        alloc: Global,
        system: &System,
        row: &Row,
    ) -> Result<Vec<Answer>, NoMemory>
        ensures { (past : List TheRow) → self.now ≡ watch_of system.now (row.now ∷ past) →
            IfOk result (λ all. all.items ≡ answers_at system.now past row.now 0 system.now.chains) }
    {
        let chains = system.parts().chains.as_slice();
        answers_at(alloc, self.each.as_slice(), chains, row)
    }

    /// The chains whose earliest origin without an answer is at least a deadline old at the
    /// horizon.
    pub fn unanswered(
        &self,
        alloc: Global,
        system: &System,
        horizon: Tick,
    ) -> Result<Vec<Found>, NoMemory>
        ensures { (past : List TheRow) → self.now ≡ watch_of system.now past →
            IfOk result (λ found. found.items ≡ all_unanswered system.now past horizon 0 system.now.chains) }
    {
        unanswered_of(alloc, system.parts(), horizon, self.each.as_slice())
    }

    /// How many slow answers the chain has, at most 2^64 - 1.
    pub fn slow_of(&self, chain: ChainId) -> u64
        requires { chain < length self.now.each }
        ensures { (system : TheSystem) (past : List TheRow) (part : TheChain) → self.now ≡ watch_of system past →
            slice_get system.chains chain ≡ Some part → result ≡ slow_many system part past }
    {
        self.each[chain.0].slow
    }

    /// The finding at the horizon, if the chain's deadline has passed without an answer.
    pub fn unanswered_of(&self, system: &System, horizon: Tick, chain: ChainId) -> Option<Finding>
        requires known { chain < length self.now.each }
        requires there { chain < length system.now.chains }
        ensures { (past : List TheRow) (part : TheChain) → self.now ≡ watch_of system.now past →
            slice_get system.now.chains chain ≡ Some part → result ≡ unanswered system.now part past horizon }
    {
        let deadline = system.parts().chains.as_slice()[chain.0].deadline;
        finding_of(deadline, horizon, self.each[chain.0].origins.unanswered())
    }

    /// Returns the chain at this moment, to be compared with it at a later one. `NoMemory` if an
    /// allocation failed.
    pub fn state(&self, alloc: Global, chain: ChainId) -> Result<State, NoMemory>
        requires { chain < length self.now.each }
        ensures { (system : TheSystem) (past : List TheRow) (part : TheChain) → self.now ≡ watch_of system past →
            slice_get system.chains chain ≡ Some part → IfOk result (λ state. state ≡ state_of system part past) }
    {
        Ok(State {
            gone: Vec::from_slice(alloc, self.gone.as_slice())?,
            origins: self.each[chain.0].origins.copied(alloc)?,
        })
    }
}

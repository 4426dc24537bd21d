ghost use Rattle.std.specs.Prelude.{◌≡◌, ◌≤◌, ◌<◌, ◌^◌, ◌+◌, ◌-◌, ℕ, List, length, slice_get, Some, IfOk, OnOk};
ghost use Rattle.std.specs.Arc.{arc_value};
ghost use Rattle.mcs_ticks.specs.declared.row.Row.{Row as TheRow};
ghost use Rattle.mcs_system.specs.System.{System as TheSystem};
ghost use Rattle.mcs_system.specs.declared.part.ChainPart.{ChainPart as TheChain};
ghost use Rattle.mcs_verdict.specs.Findings.{past_of};
ghost use Rattle.mcs_chain.specs.Figures.{tallies_of};
ghost use Rattle.mcs_chain.specs.State.{state_of};
ghost use Rattle.mcs_chain.specs.Watch.{watch_of};
ghost use Rattle.mcs_ever_found.specs.Recurs.{past_before};
ghost use Rattle.mcs_ever_search.specs.Together.{rows_at, rows_before};
ghost use Rattle.mcs_ever_chain.specs.stored.Runs.{IsRun, counts_of, left_at};

use crate::often::Counts;
use mcs_chain::{ChainId, Finding, State, Tallies, Watch};
use mcs_ever_search::Lockstep;
use mcs_system::System;
use mcs_ticks::{NoMemory, Row, Tick};
use std::alloc::Global;
use std::sync::Arc;

/// All cores of a system before one moment, and its chains by all rows before it. After a turn that
/// ran out of memory it can only be dropped.
#[derive(Drop)]
pub(crate) struct Run {
    lockstep: Lockstep,
    watch: Watch,
    tallies: Tallies,
    /// The rows of the latest turns.
    pub(crate) rows: Vec<Row>,
}

/// The tick before; 0 at time 0.
fn before(moment: Tick) -> Tick
    ensures { result ≡ moment - 1 }
{
    Tick::at(moment.get().saturating_sub(1))
}

/// Takes the rows in order.
fn see_all(
    alloc: Global,
    system: &System,
    watch: &mut Watch,
    tallies: &mut Tallies,
    rows: &[Row],
) -> Result<(), NoMemory>
    ensures watch { (past : List TheRow) → watch.old ≡ watch_of system.now past →
        OnOk result (watch.new ≡ watch_of system.now (past_of past rows.now)) }
    ensures tallies { (horizon : ℕ) (past : List TheRow) → watch.old ≡ watch_of system.now past →
        tallies.old ≡ tallies_of horizon system.now past → OnOk result (tallies.new ≡ tallies_of horizon system.now (past_of past rows.now)) }
{
    for row in rows {
        watch.see(alloc, system, row)?;
        tallies.see(system, watch, row);
    }
    Ok(())
}

impl Run {
    /// Returns the run before time 0, up to this horizon.
    pub(crate) fn new(alloc: Global, system: &Arc<System>, horizon: Tick) -> Result<Self, NoMemory>
        requires { horizon ≤ 2 ^ 40 }
        ensures run { IfOk result (IsRun (arc_value system.now)) }
        ensures clock { IfOk result (λ run. run.lockstep.clock ≡ 0) }
        ensures horizon { IfOk result (λ run. run.lockstep.horizon ≡ horizon) }
    {
        let shared = Arc::try_clone(system)?;
        Ok(Run {
            lockstep: Lockstep::new(alloc, shared, horizon)?,
            watch: Watch::new(alloc, system)?,
            tallies: Tallies::new(alloc, system, horizon)?,
            rows: Vec::new(alloc),
        })
    }

    /// The time of the next turn of all cores, at most one past the horizon.
    pub(crate) fn clock(&self) -> Tick
        ensures value { result ≡ self.now.lockstep.clock }
        ensures in_time { result ≤ self.now.lockstep.horizon + 1 }
    {
        self.lockstep.clock()
    }

    /// Skips idle time and returns the first moment at which some core does more than count a tick,
    /// at most one past the horizon.
    pub(crate) fn skip(&mut self) -> Result<Tick, NoMemory>
        ensures later { IfOk result (λ moment. self.old.lockstep.clock ≤ moment) }
        ensures moment { IfOk result (λ moment. self.new.lockstep.clock ≡ moment) }
        ensures horizon { IfOk result (λ moment. self.new.lockstep.horizon ≡ self.old.lockstep.horizon) }
        ensures run { (system : TheSystem) → IsRun system self.old → OnOk result (IsRun system self.new) }
        ensures no_rows { (system : TheSystem) → IsRun system self.old →
            IfOk result (λ moment. rows_before system moment ≡ rows_before system self.old.lockstep.clock) }
    {
        let moment = self.lockstep.skip()?;
        Ok(moment)
    }

    /// Takes the turns of all cores at this moment.
    pub(crate) fn turn(&mut self, alloc: Global, system: &System) -> Result<(), NoMemory>
        requires { self.old.lockstep.clock ≤ self.old.lockstep.horizon }
        ensures clock { OnOk result (self.new.lockstep.clock ≡ self.old.lockstep.clock + 1) }
        ensures horizon { OnOk result (self.new.lockstep.horizon ≡ self.old.lockstep.horizon) }
        ensures run { IsRun system.now self.old → OnOk result (IsRun system.now self.new) }
        ensures rows { IsRun system.now self.old → OnOk result (self.new.rows.items ≡ rows_at system.now self.old.lockstep.clock) }
    {
        let _parts = system.parts();
        self.rows.clear();
        self.lockstep.turn(&mut self.rows)?;
        see_all(
            alloc,
            system,
            &mut self.watch,
            &mut self.tallies,
            self.rows.as_slice(),
        )?;
        Ok(())
    }

    /// The counts of the chain before this moment.
    pub(crate) fn counts(&self, chain: ChainId) -> Counts
        requires watch { chain < length self.now.watch.each }
        requires tallies { chain < length self.now.tallies }
        ensures { (system : TheSystem) (part : TheChain) → IsRun system self.now → slice_get system.chains chain ≡ Some part →
            result ≡ counts_of system part (past_before system self.now.lockstep.clock) }
    {
        Counts {
            answers: self.tallies.answers_of(chain),
            slow: self.watch.slow_of(chain),
            interrupts: self.tallies.interrupts_of(chain),
            greatest: self.tallies.greatest_of(chain),
        }
    }

    /// Returns the state of the chain before this moment, which is compared with an earlier one.
    pub(crate) fn state(&self, alloc: Global, chain: ChainId) -> Result<State, NoMemory>
        requires { chain < length self.now.watch.each }
        ensures { (system : TheSystem) (part : TheChain) → IsRun system self.now → slice_get system.chains chain ≡ Some part →
            IfOk result (λ state. state ≡ state_of system part (past_before system self.now.lockstep.clock)) }
    {
        self.watch.state(alloc, chain)
    }

    /// The finding at the horizon just before this moment, if the chain's deadline has passed
    /// without an answer.
    pub(crate) fn unanswered(&self, system: &System, chain: ChainId) -> Option<Finding>
        requires watch { chain < length self.now.watch.each }
        requires there { chain < length system.now.chains }
        ensures { (part : TheChain) → IsRun system.now self.now → slice_get system.now.chains chain ≡ Some part →
            result ≡ left_at system.now part self.now.lockstep.clock (self.now.lockstep.clock - 1) }
    {
        self.watch
            .unanswered_of(system, before(self.lockstep.clock()), chain)
    }
}

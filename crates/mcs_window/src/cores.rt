ghost use Rattle.std.specs.Prelude.{◌≡◌, ◌≤◌, ◌<◌, ◌^◌, ◌+◌, ◌++◌, ℕ, [], true, false, IfOk, OnOk, OnErr, IfErr, IfSome, IfNone, IsErr, IsTrue};
ghost use Rattle.std.specs.Arc.{arc_value};
ghost use Rattle.mcs_system.specs.System.{delay_between};
ghost use Rattle.mcs_stretch.specs.Idle.{IsIdleUntil};
ghost use Rattle.mcs_stretch.specs.Stretch.{rows_between, NothingArrivesBefore, StandsAt};
ghost use Rattle.mcs_window.specs.Views.{views_at, AreShownAt};
ghost use Rattle.mcs_window.specs.Progress.{Progress, opening_progress, clock_of, taken_of, advanced, stepped, skipped, with_taken, with_failed, after_fault, IsReady, IsFault, IsBehind, IsFirstBehind};

use crate::StepFault;
use crate::delivery::deliver;
use crate::opening::{delay_rows, empty_boxes, empty_rows, opening_states};
use crate::skip::skip_all;
use crate::views::all_views;
use mcs_control::ContextView;
use mcs_core::CoreState;
use mcs_mail::{Mail, Mailbox};
use mcs_system::System;
use mcs_ticks::{CoreId, Limits, NoMemory, Row, Tick};
use std::alloc::Global;
use std::marker::Model;
use std::mem;
use std::sync::Arc;

/// All cores of a system, each with its own clock, up to a horizon.
#[derive(Drop)]
pub struct Cores {
    system: Arc<System>,
    horizon: Tick,
    clocks: Vec<Tick>,
    taken: Vec<Tick>,
    states: Vec<CoreState>,
    boxes: Vec<Mailbox>,
    rows: Vec<Vec<Row>>,
    /// The delays of the signals to each core, by their makers.
    delays: Vec<[u64; Limits::CORES]>,
    failed: bool,
    signals: Vec<Mail>,
}

impl Model for Cores {
    ghost use Rattle.mcs_window.specs.Progress.{Progress};

    ghost Value = { Progress };

    ghost use Rattle.mcs_window.specs.stored.Cores.{IsKept, progress_of};

    ghost view = { progress_of };

    ghost invariant = { IsKept };
}

impl Cores {
    /// Returns all cores at time 0, for a run up to this horizon.
    pub fn new(alloc: Global, system: Arc<System>, horizon: Tick) -> Result<Cores, NoMemory>
        requires { horizon ≤ 2 ^ 40 }
        ensures { IfOk result (λ cores. cores ≡ opening_progress (arc_value system) horizon) }
    {
        let cores = system.parts().cores;
        let clocks = vec![in alloc; Tick::ZERO; cores]?;
        let taken = vec![in alloc; Tick::ZERO; cores]?;
        let states = opening_states(alloc, &system)?;
        let boxes = empty_boxes(alloc, cores)?;
        let rows = empty_rows(alloc, cores)?;
        let delays = delay_rows(alloc, &system)?;
        Ok(Cores {
            system,
            horizon,
            clocks,
            taken,
            states,
            boxes,
            rows,
            delays,
            failed: false,
            signals: Vec::new(alloc),
        })
    }

    /// The clock of a core: the time of its next turn.
    pub fn clock(&self, core: CoreId) -> Tick
        requires { core < self.now.system.cores }
        ensures { result ≡ clock_of self.now core }
    {
        self.clocks[core.0]
    }

    /// Whether a step or an advance ran out of memory. Each later one then returns `NoMemory` too.
    pub fn failed(&self) -> bool
        ensures { result ≡ self.now.failed }
    {
        self.failed
    }

    /// The state of a core at its clock, before it takes its turn then. It may be called only while
    /// no call has run out of memory.
    pub fn state(&self, core: CoreId) -> &CoreState
        requires known { core < self.now.system.cores }
        requires whole { self.now.failed ≡ false }
        ensures { StandsAt self.now.system core (clock_of self.now core) result.now }
    {
        &self.states[core.0]
    }

    /// The delay of a signal from one core to another, in ticks.
    fn delay(&self, maker: CoreId, home: CoreId) -> u64
        requires maker { maker < self.now.system.cores }
        requires home { home < self.now.system.cores }
        ensures value { result ≡ delay_between self.now.system maker home }
        ensures short { result ≤ 2 ^ 20 }
    {
        self.delays[home.0][maker.0]
    }

    /// The first other core from which a signal could still reach this core at its clock.
    fn first_behind(&self, core: CoreId) -> Option<CoreId>
        requires { core < self.now.system.cores }
        ensures some { IfSome result (IsFirstBehind self.now core) }
        ensures none { IfNone result ((b : ℕ) → ¬ IsBehind self.now core b) }
    {
        let clock = self.clocks[core.0].get();
        for (other, earlier) in self.clocks.iter().enumerate() {
            if other != core.0
                && earlier.get() + self.delay(CoreId(other), CoreId(core.0)) <= clock
            {
                return Some(CoreId(other));
            }
        }
        None
    }

    /// Takes one turn of a core, at its clock. `Ended` and `NotSafe` change nothing. After
    /// `NoMemory` every later step returns it too; clocks and rows are as before the step.
    pub fn step(&mut self, core: CoreId) -> Result<(), StepFault>
        requires { core < self.old.system.cores }
        ensures ok { OnOk result (IsReady self.old core × (self.new ≡ stepped self.old core)) }
        ensures fault { IfErr result (IsFault self.old core) }
        ensures after_fault { IfErr result (λ fault. self.new ≡ after_fault fault self.old) }
    {
        if self.failed {
            return Err(StepFault::NoMemory);
        }
        let clock = self.clocks[core.0];
        if clock > self.horizon {
            return Err(StepFault::Ended);
        }
        if let Some(behind) = self.first_behind(core) {
            return Err(StepFault::NotSafe(behind));
        }
        let to = clock.plus(1).unwrap();
        self.advance(core, to)?;
        Ok(())
    }

    /// Skips idle time: sets all earlier clocks to the time at which it ends, and returns that. It
    /// is the first moment at which some core does more than count a tick, at most one past the
    /// horizon. Until then no core emits a row. Returns `NoMemory`, and changes nothing, if a step
    /// or an advance ran out of memory before.
    pub fn skip_idle(&mut self) -> Result<Tick, NoMemory>
        ensures going { OnOk result (self.old.failed ≡ false) }
        ensures moment { IfOk result (IsIdleUntil self.old.system self.old.clocks (self.old.horizon + 1)) }
        ensures clocks { IfOk result (λ moment. self.new ≡ skipped self.old moment) }
        ensures err { OnErr result ((self.old.failed ≡ true) × (self.new ≡ self.old)) }
    {
        if self.failed {
            return Err(NoMemory);
        }
        let moment = self.idle_until();
        skip_all(&self.system, &mut self.clocks, &mut self.states, moment);
        Ok(moment)
    }

    /// The time at which idle time ends, at most one past the horizon.
    fn idle_until(&self) -> Tick
        requires { self.now.failed ≡ false }
        ensures { IsIdleUntil self.now.system self.now.clocks (self.now.horizon + 1) result }
    {
        let mut until = self.horizon.plus(1).unwrap();
        for (core, state) in self.states.iter().enumerate() {
            if let Some(busy) = state.next_busy(&self.system, &self.boxes[core]) {
                if busy.get() < until.get() {
                    until = busy;
                }
            }
        }
        until
    }

    /// The contexts of all cores in file order, each as its core has it at its clock. Each shows
    /// its whole budget in force then, and no ticks in use unless its thread runs. Returns
    /// `NoMemory` also if a step or an advance ran out of memory before.
    pub fn contexts(&self, alloc: Global) -> Result<Vec<ContextView>, NoMemory>
        ensures views { IfOk result (λ views. views.items ≡ views_at self.now.system self.now.clocks) }
        ensures budgets { IfOk result (λ views. AreShownAt self.now.system self.now.clocks views.items) }
        ensures failed { IsTrue self.now.failed → IsErr result }
    {
        if self.failed {
            return Err(NoMemory);
        }
        let views = all_views(alloc, &self.system, &self.states)?;
        Ok(views)
    }

    /// Takes the rows that a core emitted since they were last taken.
    pub fn take_rows(&mut self, core: CoreId) -> Vec<Row>
        requires { core < self.old.system.cores }
        ensures rows { result.items
            ≡ rows_between self.old.system core (taken_of self.old core) (clock_of self.old core) }
        ensures taken { self.new ≡ with_taken self.old core }
    {
        let alloc: Global = *self.signals.allocator();
        self.taken[core.0] = self.clocks[core.0];
        mem::replace(&mut self.rows[core.0], Vec::new(alloc))
    }

    /// Takes the turns of a core from its clock to before `to`, which is at most one past the
    /// horizon. No signal that another core has yet to make may arrive before `to`. After
    /// `NoMemory` every later call returns it too.
    pub fn advance(&mut self, core: CoreId, to: Tick) -> Result<(), NoMemory>
        requires known { core < self.old.system.cores }
        requires not_back { clock_of self.old core ≤ to }
        requires in_time { to ≤ self.old.horizon + 1 }
        requires reached { NothingArrivesBefore self.old.system core to self.old.clocks }
        ensures ok { OnOk result ((self.old.failed ≡ false) × (self.new ≡ advanced self.old core to)) }
        ensures err { OnErr result (self.new ≡ with_failed self.old) }
    {
        if self.failed {
            return Err(NoMemory);
        }
        self.failed = true;
        let alloc: Global = *self.signals.allocator();
        let mut rows = Vec::new(alloc);
        let state = &mut self.states[core.0];
        let mail = &mut self.boxes[core.0];
        state.run(&self.system, mail, to, &mut rows, &mut self.signals)?;
        deliver(&self.system, &mut self.boxes, &self.signals)?;
        keep_rows(&mut self.rows[core.0], rows)?;
        self.signals.clear();
        self.clocks[core.0] = to;
        self.failed = false;
        Ok(())
    }
}

/// Appends rows to those that are kept. If no rows are kept, no row is copied. If memory runs out,
/// the kept rows stay as they were.
fn keep_rows(kept: &mut Vec<Row>, mut rows: Vec<Row>) -> Result<(), NoMemory>
    ensures kept { OnOk result (kept.new.items ≡ kept.old.items ++ rows.items) }
    ensures refused { OnErr result (kept.new.items ≡ kept.old.items) }
{
    if kept.is_empty() {
        *kept = rows;
        return Ok(());
    }
    kept.append(&mut rows)?;
    Ok(())
}

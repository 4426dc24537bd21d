ghost use Rattle.std.specs.Prelude.{◌≡◌, ◌≤◌, ◌<◌, ◌+◌, ◌^◌, ◌⊎◌, ◌↔◌, true, false, replicate, slice_index, IfOk, OnOk, OnErr, IsTrue, IsFalse};
ghost use Rattle.std.specs.Arc.{arc_value};
ghost use Rattle.mcs_stretch.specs.Idle.{IsIdleUntil};
ghost use Rattle.mcs_stretch.specs.Stretch.{StandsAt};
ghost use Rattle.mcs_step.specs.Steps.{opening_steps, places_left, rows_so_far, AreAfter, IsOnSchedule, IsOver, IsToldBetween, IsUpTo};

use crate::busy::{deliver, next_of};
use crate::calendar::{Calendar, Place};
use mcs_core::CoreState;
use mcs_mail::{Mail, Mailbox};
use mcs_system::System;
use mcs_ticks::{CoreId, Measured, NoMemory, Sink, Tick};
use mcs_window::skip_all;
use std::alloc::Global;
use std::marker::Model;
use std::sync::Arc;

/// All cores of a system in step, up to a horizon: their turns are taken by time, then core, and
/// those that only count a tick are left out. All rows go to one sink.
#[derive(Drop)]
pub struct InStep {
    system: Arc<System>,
    horizon: Tick,
    /// All turns before this one were taken.
    place: Place,
    failed: bool,
    /// The clock of each core: the quiet turns from it on are left out until the core is busy.
    clocks: Vec<Tick>,
    states: Vec<CoreState>,
    boxes: Vec<Mailbox>,
    next: Calendar,
    /// The first busy turn of `next`.
    first: Place,
    signals: Vec<Mail>,
}

impl Model for InStep {
    ghost use Rattle.mcs_step.specs.Steps.{Steps};

    ghost Value = { Steps };

    ghost use Rattle.mcs_step.specs.stored.Cores.{IsKept, steps_of};

    ghost view = { steps_of };

    ghost invariant = { IsKept };
}

impl InStep {
    /// Returns all cores at time 0, for a run up to this horizon. Fails only if memory runs out.
    pub fn new(alloc: Global, system: Arc<System>, horizon: Tick) -> Result<InStep, NoMemory>
        requires { horizon ≤ 2 ^ 40 }
        ensures { IfOk result (λ steps. steps ≡ opening_steps (arc_value system) horizon) }
    {
        let cores = system.parts().cores;
        let end = Tick::at(horizon.get() + 1);
        let clocks = vec![in alloc; Tick::ZERO; cores]?;
        let mut states = Vec::with_capacity(alloc, cores)?;
        let mut boxes = Vec::with_capacity(alloc, cores)?;
        let mut next = Calendar::new(end);
        for core in 0..cores {
            let state = CoreState::new(alloc, &system, CoreId(core))?;
            let mail = Mailbox::new(alloc);
            next.set(core, next_of(&system, &state, &mail, end));
            states.push(state)?;
            boxes.push(mail)?;
        }
        let first = next.first();
        let place = Place {
            moment: Tick::ZERO,
            core: 0,
        };
        Ok(InStep {
            system,
            horizon,
            place,
            failed: false,
            clocks,
            states,
            boxes,
            next,
            first,
            signals: Vec::new(alloc),
        })
    }

    /// The time before which all turns were taken.
    pub fn moment(&self) -> Tick
        ensures value { result ≡ self.now.moment }
        ensures in_time { self.now.failed ≡ false → result ≤ self.now.horizon + 1 }
    {
        self.place.moment
    }

    /// Whether every core has taken its turn at the horizon.
    pub fn is_over(&self) -> bool
        requires { self.now.failed ≡ false }
        ensures { IsTrue result ↔ IsOver self.now }
    {
        self.place.moment.get() > self.horizon.get()
    }

    /// Whether a call ran out of memory. No more turns can be taken then.
    pub fn failed(&self) -> bool
        ensures { result ≡ self.now.failed }
    {
        self.failed
    }

    /// Takes the next busy turn, if it comes at `last` or before. Returns whether it does. If not,
    /// every core has taken its turn at `last`.
    #[inline(always)]
    fn step<S: Sink>(&mut self, last: Tick, told: &mut S) -> Result<bool, NoMemory>
        requires { IsUpTo last self.old }
        ensures run { (self.new.system ≡ self.old.system) × (self.new.horizon ≡ self.old.horizon) }
        ensures told { OnOk result (IsToldBetween S.takes self.old self.new told.old told.new) }
        ensures up_to { OnOk result (IsUpTo last self.new) }
        ensures on_schedule { OnOk result (IsOnSchedule self.new) }
        ensures fewer { IfOk result (λ more. IsTrue more → places_left self.new < places_left self.old) }
        ensures ends { OnOk result (AreAfter last self.old ⊎ (places_left self.new < places_left self.old)) }
        ensures after { IfOk result (λ more. IsFalse more → AreAfter last self.new) }
        ensures failed { OnErr result (self.new.failed ≡ true) }
    {
        let place = self.first;
        if place.moment.get() > last.get() {
            self.place = Place {
                moment: Tick::at(last.get() + 1),
                core: 0,
            };
            return Ok(false);
        }
        self.failed = true;
        self.signals.clear();
        let core = place.core;
        let past = Tick::at(place.moment.get() + 1);
        let end = Tick::at(self.horizon.get() + 1);
        let state = &mut self.states[core];
        let mail = &mut self.boxes[core];
        let Ok(()) = state.run_to(&self.system, mail, past, told, &mut self.signals) else {
            return Err(NoMemory);
        };
        let moment = next_of(&self.system, &self.states[core], &self.boxes[core], end);
        self.next.set(core, moment);
        deliver(&self.system, &mut self.boxes, &mut self.next, &self.signals)?;
        self.first = self.next.first();
        self.clocks[core] = past;
        self.place = Place {
            moment: place.moment,
            core: core + 1,
        };
        self.failed = false;
        Ok(true)
    }

    /// Takes turns until the sink's size is at least `enough`, or every core has taken its turn at
    /// the horizon. Unless all have, it takes at least one turn. The sink is given the rows of the
    /// schedule, in order.
    ///
    /// If memory runs out, or the sink refuses a row, the cores are spent: no more turns can be
    /// taken.
    pub fn go<S: Measured>(&mut self, enough: usize, told: &mut S) -> Result<(), NoMemory>
        requires { self.old.failed ≡ false }
        ensures run { (self.new.system ≡ self.old.system) × (self.new.horizon ≡ self.old.horizon) }
        ensures told { OnOk result (IsToldBetween S.takes self.old self.new told.old told.new) }
        ensures going { OnOk result (self.new.failed ≡ false) }
        ensures on_schedule { OnOk result (IsOnSchedule self.new) }
        ensures fewer { OnOk result (IsOver self.old ⊎ (places_left self.new < places_left self.old)) }
        ensures enough { OnOk result (IsOver self.new ⊎ (enough ≤ S.size told.new)) }
        ensures failed { OnErr result (self.new.failed ≡ true) }
    {
        let last = self.horizon;
        'turns: while self.step(last, told)? {
            if told.size() >= enough {
                return Ok(());
            }
        }
        Ok(())
    }

    /// Takes all turns up to those at `last`, at most the horizon. The sink is given the rows of
    /// the schedule, in order.
    ///
    /// If memory runs out, or the sink refuses a row, the cores are spent: no more turns can be
    /// taken.
    pub fn go_past<S: Sink>(&mut self, last: Tick, told: &mut S) -> Result<(), NoMemory>
        requires { IsUpTo last self.old }
        ensures run { (self.new.system ≡ self.old.system) × (self.new.horizon ≡ self.old.horizon) }
        ensures told { OnOk result (IsToldBetween S.takes self.old self.new told.old told.new) }
        ensures going { OnOk result (self.new.failed ≡ false) }
        ensures after { OnOk result (AreAfter last self.new) }
        ensures failed { OnErr result (self.new.failed ≡ true) }
    {
        'turns: while self.step(last, told)? {}
        Ok(())
    }

    /// The first moment from now on at which some core does more than count a tick, at most one
    /// past the horizon. No turn at the present moment may have been taken.
    pub fn idle_until(&self) -> Tick
        requires going { self.now.failed ≡ false }
        requires first { self.now.core ≡ 0 }
        ensures moment { IsIdleUntil self.now.system (replicate self.now.system.cores self.now.moment) (self.now.horizon + 1) result }
        ensures later { self.now.moment ≤ result }
    {
        self.first.moment
    }

    /// Skips idle time: moves on to the moment of `idle_until`, and returns it. The schedule has no
    /// row meanwhile.
    pub fn skip(&mut self) -> Tick
        requires going { self.old.failed ≡ false }
        requires first { self.old.core ≡ 0 }
        ensures moment { IsIdleUntil self.old.system (replicate self.old.system.cores self.old.moment) (self.old.horizon + 1) result }
        ensures later { self.old.moment ≤ result }
        ensures place { self.new ≡ record self.old { moment = result } }
        ensures no_rows { rows_so_far self.new ≡ rows_so_far self.old }
    {
        let moment = self.first.moment;
        self.place = Place { moment, core: 0 };
        moment
    }

    /// Lets the idle cores count their ticks up to the present moment, before the first turn at it.
    pub fn settle(&mut self)
        requires going { self.old.failed ≡ false }
        requires first { self.old.core ≡ 0 }
        ensures { self.new ≡ record self.old { clocks = replicate self.old.system.cores self.old.moment } }
    {
        skip_all(
            &self.system,
            self.clocks.as_mut_slice(),
            self.states.as_mut_slice(),
            self.place.moment,
        );
    }

    /// The state of a core at its clock, as on the clock over all cores.
    pub fn state(&self, core: CoreId) -> &CoreState
        requires going { self.now.failed ≡ false }
        requires known { core < self.now.system.cores }
        ensures { StandsAt self.now.system core (slice_index self.now.clocks core) result.now }
    {
        &self.states[core.0]
    }
}

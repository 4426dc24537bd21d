ghost use Rattle.std.specs.Prelude.{◌≡◌, ◌≤◌, ◌<◌, ◌^◌, ◌+◌, ◌++◌, false, true, length, IfOk, OnOk, OnErr};
ghost use Rattle.std.specs.Arc.{arc_value};
ghost use Rattle.mcs_window.specs.Idle.{IsIdleUntil};
ghost use Rattle.mcs_window.specs.Stretch.{StandsAt};
ghost use Rattle.mcs_ever_search.specs.Together.{opening, at_moment, with_failed, clocks_at, rows_at, rows_before};

use crate::turns::append_turns;
use mcs_core::{CoreState, Thread};
use mcs_step::InStep;
use mcs_system::System;
use mcs_ticks::{CoreId, NoMemory, Row, ThreadId, Tick};
use std::alloc::Global;
use std::marker::Model;
use std::sync::Arc;

/// All cores of a system at one time, up to a horizon. Cores that only count ticks take no turns:
/// their states lag until the cores are settled.
#[derive(Drop)]
pub struct Lockstep {
    system: Arc<System>,
    steps: InStep,
    clock: Tick,
    horizon: Tick,
    settled: bool,
    /// The rows of a moment, before they are appended to others.
    made: Vec<Row>,
    failed: bool,
}

impl Model for Lockstep {
    ghost use Rattle.mcs_ever_search.specs.Together.{Together};

    ghost Value = { Together };

    ghost use Rattle.mcs_ever_search.specs.stored.Lockstep.{IsKept, together_of};

    ghost view = { together_of };

    ghost invariant = { IsKept };
}

impl Lockstep {
    /// Returns all cores before their turns at time 0, for a run up to this horizon.
    pub fn new(alloc: Global, system: Arc<System>, horizon: Tick) -> Result<Lockstep, NoMemory>
        requires { horizon ≤ 2 ^ 40 }
        ensures { IfOk result (λ lockstep. lockstep ≡ opening (arc_value system) horizon) }
    {
        let shared = Arc::try_clone(&system)?;
        let steps = InStep::new(alloc, shared, horizon)?;
        let _parts = system.parts();
        Ok(Lockstep {
            system,
            steps,
            clock: Tick::ZERO,
            horizon,
            settled: true,
            made: Vec::new(alloc),
            failed: false,
        })
    }

    /// The time of the next turn of all cores, at most one past the horizon.
    pub fn clock(&self) -> Tick
        ensures value { result ≡ self.now.clock }
        ensures in_time { result ≤ self.now.horizon + 1 }
    {
        self.clock
    }

    /// The first moment from now on at which some core does more than count a tick, at most one
    /// past the horizon. No turn may have run out of memory.
    pub(crate) fn idle_until(&self) -> Tick
        requires { self.now.failed ≡ false }
        ensures { IsIdleUntil self.now.system (clocks_at self.now.system self.now.clock) (self.now.horizon + 1) result }
    {
        self.steps.idle_until()
    }

    /// Whether a turn ran out of memory. Each later call then returns `NoMemory` too.
    pub fn failed(&self) -> bool
        ensures { result ≡ self.now.failed }
    {
        self.failed
    }

    /// Whether the state of each core is that before the moment.
    pub(crate) fn settled(&self) -> bool
        ensures { result ≡ self.now.settled }
    {
        self.settled
    }

    /// Lets the idle cores count their ticks up to the moment. It allocates no memory. No turn may
    /// have run out of memory.
    pub fn settle(&mut self)
        requires { self.old.failed ≡ false }
        ensures { self.new ≡ record self.old { settled = true } }
    {
        self.steps.settle();
        self.settled = true;
    }

    /// The state of a thread of a core. Its ticks left may lag, unless the cores are settled.
    pub(crate) fn thread(&self, core: CoreId, thread: ThreadId) -> Thread
        requires core { core < self.now.system.cores }
        requires thread { thread < length self.now.system.threads }
        requires whole { self.now.failed ≡ false }
    {
        self.steps.state(core).thread(thread)
    }

    /// The state of a core before its turn at `clock`, as on the clock over all cores. The cores
    /// must be settled, and no turn may have run out of memory.
    pub fn state(&self, core: CoreId) -> &CoreState
        requires known { core < self.now.system.cores }
        requires whole { self.now.failed ≡ false }
        requires settled { self.now.settled ≡ true }
        ensures { StandsAt self.now.system core self.now.clock result.now }
    {
        self.steps.state(core)
    }

    /// Skips idle time: moves all cores to the first moment, from `clock` on, at which some core
    /// does more than count a tick, at most one past the horizon. Returns that moment. The schedule
    /// has no row meanwhile. It allocates no memory. Returns `NoMemory`, and changes nothing, only
    /// if a turn ran out of memory before.
    pub fn skip(&mut self) -> Result<Tick, NoMemory>
        ensures going { OnOk result (self.old.failed ≡ false) }
        ensures moment { IfOk result
            (IsIdleUntil self.old.system (clocks_at self.old.system self.old.clock) (self.old.horizon + 1)) }
        ensures later { IfOk result (λ moment. self.old.clock ≤ moment) }
        ensures together { IfOk result (λ moment. self.new ≡ at_moment self.old moment) }
        ensures no_rows { IfOk result (λ moment.
            rows_before self.old.system moment ≡ rows_before self.old.system self.old.clock) }
        ensures err { OnErr result ((self.old.failed ≡ true) × (self.new ≡ self.old)) }
    {
        if self.failed {
            return Err(NoMemory);
        }
        let moment = self.steps.skip();
        self.clock = moment;
        self.settled = false;
        Ok(moment)
    }

    /// Takes the turns of all cores at this moment, in rising order, and moves on to the next
    /// moment. Appends the rows of these turns, which are those of the schedule at this moment. On
    /// `NoMemory` no row is appended, and each later call returns it too.
    pub fn turn(&mut self, rows: &mut Vec<Row>) -> Result<(), NoMemory>
        requires { self.old.clock ≤ self.old.horizon }
        ensures going { OnOk result (self.old.failed ≡ false) }
        ensures together { OnOk result (self.new ≡ at_moment self.old (self.old.clock + 1)) }
        ensures rows { OnOk result (rows.new.items ≡ rows.old.items ++ rows_at self.old.system self.old.clock) }
        ensures schedule { OnOk result (rows_before self.old.system (self.old.clock + 1)
            ≡ rows_before self.old.system self.old.clock ++ rows_at self.old.system self.old.clock) }
        ensures err { OnErr result (self.new ≡ with_failed self.old) }
        ensures refused { OnErr result (rows.new.items ≡ rows.old.items) }
    {
        if self.failed {
            return Err(NoMemory);
        }
        self.failed = true;
        self.settled = false;
        append_turns(&mut self.steps, &mut self.made, rows)?;
        self.clock = self.clock.plus(1).unwrap();
        self.failed = false;
        Ok(())
    }
}

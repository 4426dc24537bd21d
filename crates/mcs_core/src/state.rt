ghost use Rattle.std.specs.Prelude.{◌≡◌, ◌<◌, true, IfOk, IsErr};
ghost use Rattle.mcs_core.specs.State.{Fits, opening_state};
ghost use Rattle.mcs_core.specs.Views.{views_of};

use crate::Alarm;
use crate::agenda::Agenda;
use crate::alarms::{Alarms, alarms_of};
use crate::local::Local;
use mcs_control::ContextView;
use mcs_system::System;
use mcs_ticks::{CoreId, Limits, NoMemory, Tick};
use std::alloc::Global;
use std::marker::Model;

/// The state of one core between two turns: the time of the next turn, the core itself, the orders
/// that it has yet to obey, its alarms, and the delays of its signals. After a call ran out of
/// memory, or a sink refused a row, the state has failed.
#[derive(Drop)]
pub struct CoreState {
    pub(crate) number: CoreId,
    pub(crate) clock: Tick,
    pub(crate) failed: bool,
    pub(crate) local: Local,
    pub(crate) agenda: Agenda,
    /// Its initial alarms.
    pub(crate) beats: Vec<Alarm>,
    pub(crate) alarms: Alarms,
    /// The delay of a signal of this core to each core.
    pub(crate) delays: [u64; Limits::CORES],
}

impl Model for CoreState {
    ghost use Rattle.mcs_core.specs.State.{State};
    ghost use Rattle.std.specs.Prelude.{◌≡◌, false};
    ghost use Rattle.mcs_core.specs.Alarms.{before_moment};

    ghost Value = { State };

    ghost invariant = { λ a. a.failed ≡ false → a.alarms ≡ before_moment a.clock a.beats.items };

    ghost view = { λ a. record {
      number = a.number;
      clock = a.clock;
      core = a.local;
      orders = a.agenda;
      alarms = a.beats.items;
      delays = a.delays;
      failed = a.failed;
    } };
}

impl CoreState {
    /// Returns the initial state of a core: each of its threads is pending until its start. All
    /// that a turn needs is allocated here. Fails only if memory runs out.
    pub fn new(alloc: Global, system: &System, core: CoreId) -> Result<Self, NoMemory>
        requires { core < system.now.cores }
        ensures state { IfOk result (λ state. state ≡ opening_state system.now core) }
        ensures fits { IfOk result (λ state. Fits system.now state) }
    {
        let parts = system.parts();
        let local = Local::open(alloc, parts, core)?;
        let agenda = Agenda::new(alloc, parts, core)?;
        let beats = alarms_of(alloc, parts, core)?;
        let alarms = Alarms::new(alloc, &beats)?;
        Ok(CoreState {
            number: core,
            clock: Tick::ZERO,
            failed: false,
            local,
            agenda,
            beats,
            alarms,
            delays: system.delays_from(core),
        })
    }

    /// The views of the core's contexts, in file order, with the ticks in use of the running
    /// thread. Returns `NoMemory` if memory runs out, and if the state has failed.
    pub fn contexts(&self, alloc: Global, system: &System) -> Result<Vec<ContextView>, NoMemory>
        requires { Fits system.now self.now }
        ensures views { IfOk result (λ views. views.items ≡ views_of system.now self.now.core) }
        ensures spent { self.now.failed ≡ true → IsErr result }
    {
        if self.failed {
            return Err(NoMemory);
        }
        self.local.views(alloc, system.parts())
    }

    pub(crate) fn local(&self) -> &Local
        ensures { result.now ≡ self.now.core }
    {
        &self.local
    }

    /// The time of the next turn.
    pub fn clock(&self) -> Tick
        ensures { result ≡ self.now.clock }
    {
        self.clock
    }

    /// Whether a call ran out of memory, or a sink refused a row: the state has then failed.
    pub fn failed(&self) -> bool
        ensures { result ≡ self.now.failed }
    {
        self.failed
    }
}

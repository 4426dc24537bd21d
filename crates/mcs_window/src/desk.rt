ghost use Rattle.std.specs.Prelude.{◌≡◌, ◌↔◌, ◌+◌, ◌≤◌, ◌<◌, ◌^◌, None, IfOk, IsTrue};
ghost use Rattle.std.specs.Arc.{arc_value};
ghost use Rattle.mcs_window.specs.Desk.{opening_table, clock_of, taken_of, loan_of, AreEmpty, AllAreHere, IsFinished};

use crate::Front;
use crate::opening::{delay_rows, empty_boxes, empty_rows};
use crate::reach::{Reaches, reach_rows};
use crate::slot::{Slot, opening_slots};
use mcs_mail::{Mail, Mailbox};
use mcs_system::System;
use mcs_ticks::{Collector, CoreId, Limits, NoMemory, Row, Tick};
use std::alloc::Global;
use std::marker::Model;
use std::sync::Arc;

/// The cores of a system, up to a horizon. Cores on the desk are lent for stretches, and are taken
/// back after these were run. Each core gives its rows to its own collector.
#[derive(Drop)]
pub struct Desk<S: Collector = Vec<Row>> {
    pub(crate) system: Arc<System>,
    pub(crate) horizon: Tick,
    pub(crate) lost: bool,
    /// The clock of each core: that of a lent core is the start of its stretch.
    pub(crate) clocks: Front,
    pub(crate) taken: Front,
    pub(crate) slots: Vec<Slot>,
    /// The mail of each core: the box of a lent core has the signals made for it since.
    pub(crate) boxes: Vec<Mailbox>,
    /// The rows of each core since they were last taken.
    pub(crate) told: Vec<S>,
    /// The delays of the signals to each core, by their makers.
    pub(crate) delays: Vec<[u64; Limits::CORES]>,
    /// The ticks after which a signal of each core may reach the others.
    pub(crate) reaches: Vec<Reaches>,
    /// The signals of the last turns that were taken in place.
    pub(crate) signals: Vec<Mail>,
    pub(crate) alloc: Global,
}

impl<S: Collector> Model for Desk<S> {
    ghost use Rattle.mcs_window.specs.Desk.{Table};

    ghost Value = { Table };

    ghost use Rattle.mcs_window.specs.stored.Slots.{IsKept, table_of};

    ghost view = { table_of };

    ghost invariant = { IsKept S.holds };
}

impl Desk<Vec<Row>> {
    /// Returns all cores at time 0, for a run up to this horizon. No core is lent.
    pub fn new(alloc: Global, system: Arc<System>, horizon: Tick) -> Result<Desk, NoMemory>
        requires { horizon ≤ 2 ^ 40 }
        ensures { IfOk result (λ desk. desk ≡ opening_table (arc_value system) horizon) }
    {
        let told = empty_rows(alloc, system.parts().cores)?;
        Desk::opened(alloc, system, horizon, told)
    }
}

impl<S: Collector + Drop> Desk<S> {
    /// Returns all cores at time 0, for a run up to this horizon, with an empty collector for each.
    /// No core is lent.
    pub fn opened(
        alloc: Global,
        system: Arc<System>,
        horizon: Tick,
        told: Vec<S>,
    ) -> Result<Desk<S>, NoMemory>
        requires in_range { horizon ≤ 2 ^ 40 }
        requires empty { AreEmpty S.holds (arc_value system).cores told.items }
        ensures { IfOk result (λ desk. desk ≡ opening_table (arc_value system) horizon) }
    {
        let slots = opening_slots(alloc, &system)?;
        let boxes = empty_boxes(alloc, system.parts().cores)?;
        let delays = delay_rows(alloc, &system)?;
        let reaches = reach_rows(alloc, &system)?;
        Ok(Desk {
            system,
            horizon,
            lost: false,
            clocks: [Tick::ZERO; 64],
            taken: [Tick::ZERO; 64],
            slots,
            boxes,
            told,
            delays,
            reaches,
            signals: Vec::new(alloc),
            alloc,
        })
    }
}

impl<S: Collector> Desk<S> {
    /// The number of cores.
    pub fn cores(&self) -> usize
        ensures { result ≡ self.now.system.cores }
    {
        self.system.parts().cores
    }

    /// The last moment of the run.
    pub fn horizon(&self) -> Tick
        ensures value { result ≡ self.now.horizon }
        ensures in_range { result ≤ 2 ^ 40 }
    {
        self.horizon
    }

    /// Whether the desk is for this system and horizon. It compares the systems in full.
    pub fn is_for(&self, system: &System, horizon: Tick) -> bool
        ensures { IsTrue result ↔ ((self.now.system ≡ system.now) × (self.now.horizon ≡ horizon)) }
    {
        self.is_of(system) && self.horizon == horizon
    }

    /// Whether the desk is for this system.
    pub(crate) fn is_of(&self, system: &System) -> bool
        ensures { IsTrue result ↔ (self.now.system ≡ system.now) }
    {
        *self.system == *system
    }

    /// The clock of a core: the time of its next turn, or the start of its stretch if it is lent.
    pub fn clock(&self, core: CoreId) -> Tick
        requires { core < self.now.system.cores }
        ensures value { result ≡ clock_of self.now core }
        ensures in_time { result ≤ self.now.horizon + 1 }
    {
        let clocks = &self.clocks;
        clocks[core.0]
    }

    /// The clock of a core when its rows were last taken, and 0 before that.
    pub fn taken(&self, core: CoreId) -> Tick
        requires { core < self.now.system.cores }
        ensures value { result ≡ taken_of self.now core }
        ensures in_order { result ≤ clock_of self.now core }
    {
        let taken = &self.taken;
        taken[core.0]
    }

    /// Whether a piece was lost, or a core that ran out of memory on the desk itself.
    pub fn lost(&self) -> bool
        ensures { result ≡ self.now.lost }
    {
        self.lost
    }

    /// Whether every core has taken its turn at the horizon.
    pub fn finished(&self) -> bool
        ensures { IsTrue result ↔ IsFinished self.now }
    {
        for core in 0..self.cores() {
            if self.clocks[core] <= self.horizon {
                return false;
            }
        }
        true
    }

    /// Whether a core is not lent.
    pub(crate) fn is_here(&self, core: CoreId) -> bool
        requires { core < self.now.system.cores }
        ensures { IsTrue result ↔ (loan_of self.now core ≡ None) }
    {
        matches!(self.slots[core.0], Slot::Here { .. })
    }

    /// Whether no core is lent.
    pub fn all_are_here(&self) -> bool
        ensures { IsTrue result ↔ AllAreHere self.now }
    {
        for core in 0..self.cores() {
            if !self.is_here(CoreId(core)) {
                return false;
            }
        }
        true
    }
}

//! A run: its plan, the types that name it, the gate that reports its progress, and its faults.
use mcs_system::System;
use mcs_ticks::{Collector, CoreId, FlowFault, NoMemory, Tick};
use mcs_window::Desk;
use std::alloc::Global;
use std::marker::Brand;
use std::sync::Arc;
use thiserror::Error;

/// The plan of a run: a system from time 0 to a horizon.
#[derive(Drop)]
pub struct Plan {
    /// The allocator of the run.
    pub alloc: Global,
    /// The system.
    pub system: Arc<System>,
    /// The last tick that is simulated.
    pub horizon: Tick,
}

/// Names one run, by its system and its horizon. The call that starts the run picks them.
pub(crate) trait Run {
    ghost use Rattle.std.specs.Prelude.{ℕ};
    ghost use Rattle.mcs_system.specs.System.{System};

    ghost system: { System };

    ghost horizon: { ℕ };
}

impl Run for Brand {
    ghost use Rattle.mcs_team.specs.NoSystem.{no_system};

    ghost system = { no_system };

    ghost horizon = { 0 };
}

/// Receives the progress of a run.
pub trait Gate {
    /// Called just before the turns of a core from time `first` are run, by the thread that runs
    /// them and with no lock held.
    ///
    /// This covers pieces that are lent. When the caller's thread takes turns itself, no piece is
    /// lent. It does for one worker, for one core, or after a team has ended.
    fn before(&self, core: CoreId, first: Tick);

    /// Called just after the turns before time `past` were run, and before they are settled.
    fn after(&self, core: CoreId, past: Tick);

    /// All turns before this time were taken, and their rows were written or counted. Called now
    /// and then on the caller's thread.
    fn reached(&self, moment: Tick);
}

/// A gate that does nothing.
#[derive(Clone, Copy, Debug, Drop)]
pub struct Open;

impl Gate for Open {
    fn before(&self, _core: CoreId, _first: Tick) {}

    fn after(&self, _core: CoreId, _past: Tick) {}

    fn reached(&self, _moment: Tick) {}
}

/// The earliest clock of a desk: all turns before it were taken and settled.
pub(crate) fn reached<S: Collector>(desk: &Desk<S>) -> Tick {
    let mut reached = desk.horizon().plus(1).unwrap();
    for core in 0..desk.cores() {
        reached = reached.min(desk.clock(CoreId(core)));
    }
    reached
}

/// Why a simulation returns no result.
#[derive(Clone, Copy, Debug, PartialEq, Eq, Error)]
pub enum SimFault {
    /// Out of memory: an allocation failed.
    #[error("no memory")]
    NoMemory,
}

impl From<NoMemory> for SimFault {
    fn from(_refusal: NoMemory) -> Self {
        SimFault::NoMemory
    }
}

/// Why the flow of a team ended early.
#[derive(Clone, Copy, Debug, Drop)]
pub(crate) enum Stop {
    /// Memory ran out, or the sink refused a row.
    Fault(FlowFault),
    /// The desk is not as this run left it, which doesn't occur in a run. All rows before this time
    /// were written.
    Odd(Tick),
}

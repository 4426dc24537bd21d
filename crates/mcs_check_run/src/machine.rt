//! The machine that runs use: a team of threads, or the caller's thread alone.
ghost use Rattle.std.specs.Prelude.{◌≡◌, ◌≤◌, ◌^◌, ⊤, IfErr, OnOk};
ghost use Rattle.std.specs.Arc.{arc_value};
ghost use Rattle.std.specs.Thread.{IsSync};
ghost use Rattle.mcs_core.specs.Clock.{schedule};
ghost use Rattle.mcs_team.specs.Flow.{IsFlowFault};
ghost use Rattle.mcs_ticks.specs.Given.{Given};

use mcs_system::System;
use mcs_team::{FlowFault, Open, schedule_alone, schedule_to};
use mcs_ticks::{Sink, Tick};
use std::alloc::Global;
use std::sync::{Arc, Wait};
use std::thread::Threads;

/// A way to run a system: with a team of threads, or alone.
pub trait Runner {
    ghost can_run: { Type 0 };

    /// Gives the rows of a system's schedule up to the horizon, at most 2^40, to a sink, in order.
    ///
    /// Errors:
    /// - `Sink` if the sink refused a row. It is given no other row after that.
    /// - `NoMemory` if an allocation failed. The sink has then taken some first rows.
    fn schedule_to<S: Sink>(
        &self,
        alloc: Global,
        system: Arc<System>,
        horizon: Tick,
        sink: &mut S,
    ) -> Result<(), FlowFault>
        requires can_run { can_run }
        requires in_range { horizon ≤ 2 ^ 40 }
        ensures given { OnOk result (Given S.takes sink.old (schedule (arc_value system) horizon) sink.new) }
        ensures fault { IfErr result (IsFlowFault S.takes (arc_value system) horizon sink.old sink.new) };
}

/// Runs a system with a team of at most `workers` threads, while this one takes their rows.
#[derive(Drop)]
pub struct Team<'a, H: Threads + Wait + Sync> {
    /// The runtime that starts the threads.
    pub rt: &'a H,
    /// Maximum number of threads that take turns of cores.
    pub workers: usize,
}

impl<H: Threads + Wait + Sync> Runner for Team<'_, H> {
    ghost can_run = { IsSync H.row };

    fn schedule_to<S: Sink>(
        &self,
        alloc: Global,
        system: Arc<System>,
        horizon: Tick,
        sink: &mut S,
    ) -> Result<(), FlowFault> {
        schedule_to(self.rt, alloc, system, horizon, self.workers, &Open, sink)
    }
}

/// This thread alone.
#[derive(Clone, Copy, Debug, Drop)]
pub struct Alone;

impl Runner for Alone {
    ghost can_run = { ⊤ };

    fn schedule_to<S: Sink>(
        &self,
        alloc: Global,
        system: Arc<System>,
        horizon: Tick,
        sink: &mut S,
    ) -> Result<(), FlowFault> {
        schedule_alone(alloc, system, horizon, sink)
    }
}

/// A runner and the allocator.
#[derive(Drop)]
pub struct Machine<'a, R: Runner> {
    /// The way to run a system.
    pub runner: &'a R,
    /// The allocator of the run, and of all that is kept of it.
    pub alloc: Global,
}

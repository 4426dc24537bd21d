//! Whole simulations that write their rows to a sink, or to an output as each core makes them.
ghost use Rattle.std.specs.Prelude.{◌≡◌, ◌≤◌, ◌^◌, IfErr, IfOk, OnOk};
ghost use Rattle.std.specs.Arc.{arc_value};
ghost use Rattle.mcs_core.specs.Clock.{schedule};
ghost use Rattle.mcs_report.specs.Reports.{reports_of};
ghost use Rattle.mcs_report.specs.laws.Bandwidth.{RunsWithinBandwidth};
ghost use Rattle.mcs_report.specs.laws.Demand.{AreWithinDemand};
ghost use Rattle.mcs_team.specs.Flow.{IsFlowFault};
ghost use Rattle.mcs_team.specs.Headline.{Headline};
ghost use Rattle.mcs_ticks.specs.Given.{Given};

use crate::here::flow_here;
use crate::outflow::RowRelay;
use crate::rest::simulate_again;
use crate::run::{Plan, Stop};
use crate::stream::flow_beside;
use crate::{FlowFault, Gate, Open, Refused, Relay, Sink};
use mcs_merge::Part;
use mcs_report::{Reports, Tally, bandwidth_is_bounded, demand_is_bounded, schedules_are_reported};
use mcs_system::System;
use mcs_ticks::{Row, Tick};
use std::alloc::Global;
use std::marker::Brand;
use std::sync::{Arc, Wait};
use std::thread::Threads;

/// Simulates the system up to the horizon, at most 2^40, and writes the rows of its schedule to a
/// sink, in order. Returns the reports of the schedule.
///
/// Rows are written some hundreds or thousands at a time, once the clocks of all cores have passed
/// them. While threads work, that is at most about a millisecond later. Each row that the sink
/// takes is counted.
///
/// The team has `workers` threads, at most one per core, and this thread writes their rows. If that
/// is fewer than two, this thread takes all turns. After 1,024 pieces of work with fewer than 128
/// rows each, on average, the team ends and this thread takes the remaining turns. The gate is
/// called for each piece that is lent; turns of this thread lend none.
///
/// Errors:
/// - `Sink` if the sink refused a row. It is given no other row after that.
/// - `NoMemory` if an allocation failed. The sink has then taken some first rows of the schedule.
pub fn simulate_to<R: Threads + Wait + Sync, G: Gate + Sync, S: Sink>(
    rt: &R,
    alloc: Global,
    system: Arc<System>,
    horizon: Tick,
    workers: usize,
    gate: &G,
    sink: &mut S,
) -> Result<Reports, FlowFault>
    requires { horizon ≤ 2 ^ 40 }
    ensures given { OnOk result (Given S.takes sink.old (schedule (arc_value system) horizon) sink.new) }
    ensures fault { IfErr result (IsFlowFault S.takes (arc_value system) horizon sink.old sink.new) }
    ensures reports { IfOk result
        (λ reports. reports ≡ reports_of (arc_value system) horizon (schedule (arc_value system) horizon)) }
    ensures demand { IfOk result (λ reports. AreWithinDemand (arc_value system) horizon reports) }
    ensures bandwidth { OnOk result (RunsWithinBandwidth (arc_value system) horizon (schedule (arc_value system) horizon)) }
    ensures headline { IfOk result
        (λ reports. Headline (arc_value system) horizon (schedule (arc_value system) horizon) reports) }
{
    demand_is_bounded();
    schedules_are_reported();
    let _parts = system.parts();
    let Ok(mut tally) = Tally::new(alloc, &system, horizon) else {
        return Err(FlowFault::NoMemory);
    };
    let mut counted = Counted::new(sink, &mut tally);
    if let Err(fault) = schedule_to(rt, alloc, system, horizon, workers, gate, &mut counted) {
        return Err(fault);
    }
    Ok(tally.finish())
}

/// Simulates the system up to the horizon, at most 2^40, and writes the rows to a sink like
/// `simulate_to`, with the same threads and errors. It counts nothing, so it costs less and returns
/// no reports.
pub fn schedule_to<R: Threads + Wait + Sync, G: Gate + Sync, S: Sink>(
    rt: &R,
    alloc: Global,
    system: Arc<System>,
    horizon: Tick,
    workers: usize,
    gate: &G,
    sink: &mut S,
) -> Result<(), FlowFault>
    requires { horizon ≤ 2 ^ 40 }
    ensures given { OnOk result (Given S.takes sink.old (schedule (arc_value system) horizon) sink.new) }
    ensures fault { IfErr result (IsFlowFault S.takes (arc_value system) horizon sink.old sink.new) }
    ensures bandwidth { OnOk result (RunsWithinBandwidth (arc_value system) horizon (schedule (arc_value system) horizon)) }
    ensures headline { OnOk result
        (Headline (arc_value system) horizon (schedule (arc_value system) horizon)
        (reports_of (arc_value system) horizon (schedule (arc_value system) horizon))) }
{
    let relay = RowRelay::new(alloc);
    let plan = Plan {
        alloc,
        system,
        horizon,
    };
    schedule_by_core(rt, plan, workers, gate, &relay, sink)
}

/// Simulates the system up to the horizon, at most 2^40, on this thread alone, and writes the rows
/// to a sink like `simulate_to`, with the same errors. It needs no handle and counts nothing.
pub fn schedule_alone<S: Sink>(
    alloc: Global,
    system: Arc<System>,
    horizon: Tick,
    sink: &mut S,
) -> Result<(), FlowFault>
    requires { horizon ≤ 2 ^ 40 }
    ensures given { OnOk result (Given S.takes sink.old (schedule (arc_value system) horizon) sink.new) }
    ensures fault { IfErr result (IsFlowFault S.takes (arc_value system) horizon sink.old sink.new) }
    ensures bandwidth { OnOk result (RunsWithinBandwidth (arc_value system) horizon (schedule (arc_value system) horizon)) }
    ensures headline { OnOk result
        (Headline (arc_value system) horizon (schedule (arc_value system) horizon)
        (reports_of (arc_value system) horizon (schedule (arc_value system) horizon))) }
{
    bandwidth_is_bounded();
    let _parts = system.parts();
    let relay = RowRelay::new(alloc);
    flow_here(alloc, system, horizon, &relay, &Open, sink)
}

/// Passes rows to a sink, and counts those that it takes.
#[derive(Drop)]
pub(crate) struct Counted<'a, S: Sink> {
    sink: &'a mut S,
    tally: &'a mut Tally,
}

impl<'a, S: Sink> Counted<'a, S> {
    /// Returns a sink that passes rows to `sink` and counts them in `tally`.
    pub(crate) fn new(sink: &'a mut S, tally: &'a mut Tally) -> Counted<'a, S>
        ensures sink { result.sink.ghost_name ≡ sink.entry.ghost_name }
        ensures sink_now { result.sink.now ≡ sink.old }
        ensures tally { result.tally.ghost_name ≡ tally.entry.ghost_name }
        ensures tally_now { result.tally.now ≡ tally.old }
    {
        Counted { sink, tally }
    }
}

impl<S: Sink> Sink for Counted<'_, S> {
    ghost use Rattle.std.specs.Prelude.{◌≡◌, true};
    ghost use Rattle.mcs_report.specs.Tally.{added};

    ghost takes = { λ before row taken after.
        (after.sink.ghost_name ≡ before.sink.ghost_name)
        × (after.tally.ghost_name ≡ before.tally.ghost_name)
        × S.takes before.sink.now row taken after.sink.now
        × (taken ≡ true → after.tally.now ≡ added before.tally.now row) };

    fn row(&mut self, row: &Row) -> Result<(), Refused> {
        self.sink.row(row)?;
        self.tally.add(row);
        Ok(())
    }
}

/// Simulates the system up to the horizon, at most 2^40. Each core records its rows as its turns
/// are taken, and they are written to an output through a relay.
///
/// For the output it is as if the schedule's rows were written one by one, in order, once the
/// clocks of all cores have passed them. The threads are those of `schedule_to`.
///
/// Errors:
/// - `Sink` if the output refused a row. It is given no other row after that.
/// - `NoMemory` if an allocation failed. The output has then taken some first rows of the schedule.
pub fn schedule_by_core<R: Threads + Wait + Sync, G: Gate + Sync, W: Relay>(
    rt: &R,
    plan: Plan,
    workers: usize,
    gate: &G,
    relay: &W,
    out: &mut <W::Part as Part>::Out,
) -> Result<(), FlowFault>
where
    W::Told: Send,
    requires in_range { plan.horizon ≤ 2 ^ 40 }
    requires fits { W.fits relay.now out.old }
    ensures given { OnOk result (Given W.Part.Out.takes out.old (schedule (arc_value plan.system) plan.horizon) out.new) }
    ensures fault { IfErr result (IsFlowFault W.Part.Out.takes (arc_value plan.system) plan.horizon out.old out.new) }
    ensures bandwidth { OnOk result
        (RunsWithinBandwidth (arc_value plan.system) plan.horizon (schedule (arc_value plan.system) plan.horizon)) }
    ensures headline { OnOk result
        (Headline (arc_value plan.system) plan.horizon (schedule (arc_value plan.system) plan.horizon)
        (reports_of (arc_value plan.system) plan.horizon (schedule (arc_value plan.system) plan.horizon))) }
{
    bandwidth_is_bounded();
    let workers = workers.min(plan.system.parts().cores);
    if workers < 2 {
        flow_here(plan.alloc, plan.system, plan.horizon, relay, gate, out)
    } else {
        flow_team(rt, plan, workers, gate, relay, out)
    }
}

/// Runs the turns on a team while this thread writes the rows.
fn flow_team<R: Threads + Wait + Sync, G: Gate + Sync, W: Relay>(
    rt: &R,
    plan: Plan,
    workers: usize,
    gate: &G,
    relay: &W,
    out: &mut <W::Part as Part>::Out,
) -> Result<(), FlowFault>
where
    W::Told: Send,
    requires in_range { plan.horizon ≤ 2 ^ 40 }
    requires fits { W.fits relay.now out.old }
    ensures given { OnOk result (Given W.Part.Out.takes out.old (schedule (arc_value plan.system) plan.horizon) out.new) }
    ensures fault { IfErr result (IsFlowFault W.Part.Out.takes (arc_value plan.system) plan.horizon out.old out.new) }
{
    let _parts = plan.system.parts();
    let stop = match flow_beside::<Brand, R, G, W>(rt, &plan, workers, gate, relay, out) {
        Ok(()) => return Ok(()),
        Err(stop) => stop,
    };
    match stop {
        Stop::Fault(fault) => return Err(fault),
        Stop::Odd(from) => return simulate_again(plan, from, relay, out),
    }
}

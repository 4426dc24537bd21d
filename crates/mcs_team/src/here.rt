//! Simulations on the caller's thread. Their rows go to an output or are kept.
ghost use Rattle.std.specs.Prelude.{◌≡◌, ◌≤◌, ◌+◌, ◌<◌, ◌^◌, length, slice_index_or, IfErr, IfOk, OnOk, []};
ghost use Rattle.std.specs.Arc.{arc_value};
ghost use Rattle.mcs_core.specs.Clock.{schedule};
ghost use Rattle.mcs_system.specs.WellFormed.{IsWellFormed};
ghost use Rattle.mcs_ticks.specs.Given.{Given};
ghost use Rattle.mcs_team.specs.Flow.{FailsFrom, IsClear, IsFlowFault, IsGivenBetween, Waits};
ghost use Rattle.mcs_window.specs.Desk.{opening_table, AreEmpty};
ghost use Rattle.mcs_step.specs.Steps.{opening_steps};

use crate::close::{least_delay, writes_in_step};
use crate::outflow::{Outflow, Relay, RowRelay};
use crate::run::Run;
use crate::whole::Kept;
use crate::{FlowFault, Gate, Open};
use mcs_merge::Part;
use mcs_step::InStep;
use mcs_system::{System, SystemParts};
use mcs_ticks::{CoreId, NoMemory, Row, Tick};
use mcs_window::Desk;
use std::alloc::Global;
use std::marker::Brand;
use std::sync::Arc;

/// Rows to collect before they are written, with one core.
const ENOUGH: usize = 2048;

/// Fewest rows per core to collect before they are written, with several cores. Between the bounds
/// the number is the minimum delay in ticks, since a core runs ahead for that long. Fewer rows make
/// the switches between cores too costly.
const FEWEST: u64 = 64;

/// Most rows per core to collect before they are written. More of them would have left the cache.
const MOST: u64 = 256;

/// Fewest rows to collect in all. They may all be from one core, and room for them is made at each
/// core in turn.
const IN_ALL: usize = 512;

/// Rows to collect on a desk of several cores before they are written.
pub(crate) fn enough_of(parts: &SystemParts) -> usize {
    let of_each = least_delay(parts).clamp(FEWEST, MOST) as usize;
    parts.cores.saturating_mul(of_each).max(IN_ALL)
}

/// Takes the remaining turns in rounds that end at `enough` rows. After each round it writes the
/// rows that the clocks of all cores have passed.
pub(crate) fn flow_rounds<B: Run, W: Relay, G: Gate>(
    relay: &W,
    mut desk: Desk<W::Told>,
    mut flow: Outflow<W>,
    enough: usize,
    gate: &G,
    out: &mut <W::Part as Part>::Out,
) -> Result<(), FlowFault>
    requires well_formed { IsWellFormed B.system }
    requires clear { IsClear B.system B.horizon desk flow.pasts.items flow.end }
    requires fits { W.fits relay.now out.old }
    requires waits { Waits W.Part.holds B.system B.horizon flow.reached flow.pasts.items flow.merger out.old }
    ensures given { OnOk result (IsGivenBetween W.Part.Out.takes B.system flow.reached (B.horizon + 1) out.old out.new) }
    ensures fault { IfErr result (FailsFrom W.Part.Out.takes B.system B.horizon flow.reached out.old out.new) }
{
    'rounds: while !flow.is_over() {
        let Ok(()) = desk.go(enough) else {
            return Err(FlowFault::NoMemory);
        };
        let Ok(()) = flow.gather::<B>(relay, &mut desk) else {
            return Err(FlowFault::NoMemory);
        };
        let Ok(()) = flow.pour::<B>(out) else {
            return Err(FlowFault::Sink);
        };
        gate.reached(flow.reached());
    }
    Ok(())
}

/// Runs a whole simulation in rounds, from a desk at time 0.
fn flow_desk<B: Run, W: Relay, G: Gate>(
    alloc: Global,
    relay: &W,
    desk: Desk<W::Told>,
    system: &System,
    gate: &G,
    out: &mut <W::Part as Part>::Out,
) -> Result<(), FlowFault>
    requires system { system.now ≡ B.system }
    requires desk { desk ≡ opening_table B.system B.horizon }
    requires fits { W.fits relay.now out.old }
    ensures given { OnOk result (Given W.Part.Out.takes out.old (schedule B.system B.horizon) out.new) }
    ensures fault { IfErr result (IsFlowFault W.Part.Out.takes B.system B.horizon out.old out.new) }
{
    let enough = enough_of(system.parts());
    let Ok(flow) = Outflow::new(alloc, relay, system, desk.horizon(), Tick::ZERO) else {
        return Err(FlowFault::NoMemory);
    };
    flow_rounds::<B, W, G>(relay, desk, flow, enough, gate, out)
}

/// Runs a whole simulation of one core in rounds, from a desk at time 0. The rows of each round are
/// written at once, without a merge.
fn flow_one<W: Relay, G: Gate>(
    relay: &W,
    mut desk: Desk<W::Told>,
    gate: &G,
    out: &mut <W::Part as Part>::Out,
) -> Result<(), FlowFault>
    requires well_formed { IsWellFormed desk.system }
    requires one { desk.system.cores ≡ 1 }
    requires unused { desk ≡ opening_table desk.system desk.horizon }
    requires fits { W.fits relay.now out.old }
    ensures given { OnOk result (Given W.Part.Out.takes out.old (schedule desk.system desk.horizon) out.new) }
    ensures fault { IfErr result (IsFlowFault W.Part.Out.takes desk.system desk.horizon out.old out.new) }
{
    let core = CoreId(0);
    let horizon = desk.horizon();
    let mut reached = Tick::ZERO;
    let mut room = relay.empty();
    'rounds: while reached <= horizon {
        let Ok(()) = desk.go(ENOUGH) else {
            return Err(FlowFault::NoMemory);
        };
        let _taken = desk.taken(core);
        reached = desk.clock(core);
        let mut told = desk.take(core, room);
        let Ok(()) = relay.give(&mut told, out) else {
            return Err(FlowFault::Sink);
        };
        room = told;
        gate.reached(reached);
    }
    Ok(())
}

/// Runs a whole simulation in step, from time 0. One collector gets the rows of all cores in the
/// order of the schedule, so nothing is merged.
fn flow_in_step<W: Relay, G: Gate>(
    relay: &W,
    mut steps: InStep,
    gate: &G,
    out: &mut <W::Part as Part>::Out,
) -> Result<(), FlowFault>
    requires well_formed { IsWellFormed steps.system }
    requires unused { steps ≡ opening_steps steps.system steps.horizon }
    requires fits { W.fits relay.now out.old }
    ensures given { OnOk result (Given W.Part.Out.takes out.old (schedule steps.system steps.horizon) out.new) }
    ensures fault { IfErr result (IsFlowFault W.Part.Out.takes steps.system steps.horizon out.old out.new) }
{
    let mut told = relay.empty();
    'rounds: while !steps.is_over() {
        let Ok(()) = steps.go(ENOUGH, &mut told) else {
            return Err(FlowFault::NoMemory);
        };
        let Ok(()) = relay.give(&mut told, out) else {
            return Err(FlowFault::Sink);
        };
        gate.reached(steps.moment());
    }
    Ok(())
}

/// Runs a whole simulation of several cores in step, from time 0.
fn flow_together<W: Relay, G: Gate>(
    alloc: Global,
    system: Arc<System>,
    horizon: Tick,
    relay: &W,
    gate: &G,
    out: &mut <W::Part as Part>::Out,
) -> Result<(), FlowFault>
    requires in_range { horizon ≤ 2 ^ 40 }
    requires fits { W.fits relay.now out.old }
    ensures given { OnOk result (Given W.Part.Out.takes out.old (schedule (arc_value system) horizon) out.new) }
    ensures fault { IfErr result (IsFlowFault W.Part.Out.takes (arc_value system) horizon out.old out.new) }
{
    let _parts = system.parts();
    let Ok(steps) = InStep::new(alloc, system, horizon) else {
        return Err(FlowFault::NoMemory);
    };
    flow_in_step(relay, steps, gate, out)
}

/// Returns one empty collector per core.
pub(crate) fn empty_told<W: Relay>(
    alloc: Global,
    relay: &W,
    cores: usize,
) -> Result<Vec<W::Told>, NoMemory>
    ensures { IfOk result (λ told. AreEmpty W.Told.holds cores told.items) }
{
    let mut told = Vec::with_capacity(alloc, cores)?;
    for _ in 0..cores {
        told.push(relay.empty())?;
    }
    Ok(told)
}

/// Returns a desk with all cores at time 0, each with an empty collector.
fn desk_for<W: Relay>(
    alloc: Global,
    relay: &W,
    system: &Arc<System>,
    horizon: Tick,
) -> Result<Desk<W::Told>, NoMemory>
    requires { horizon ≤ 2 ^ 40 }
    ensures { IfOk result (λ desk. desk ≡ opening_table (arc_value system.now) horizon) }
{
    let told = empty_told(alloc, relay, system.parts().cores)?;
    let shared = Arc::try_clone(system)?;
    Desk::opened(alloc, shared, horizon, told)
}

/// Runs the whole simulation up to the horizon on this thread, and writes it to an output. Cores in
/// step and a single core need no merge.
pub(crate) fn flow_here<W: Relay, G: Gate>(
    alloc: Global,
    system: Arc<System>,
    horizon: Tick,
    relay: &W,
    gate: &G,
    out: &mut <W::Part as Part>::Out,
) -> Result<(), FlowFault>
    requires in_range { horizon ≤ 2 ^ 40 }
    requires fits { W.fits relay.now out.old }
    ensures given { OnOk result (Given W.Part.Out.takes out.old (schedule (arc_value system) horizon) out.new) }
    ensures fault { IfErr result (IsFlowFault W.Part.Out.takes (arc_value system) horizon out.old out.new) }
{
    let cores = system.parts().cores;
    if writes_in_step(&system) {
        return flow_together(alloc, system, horizon, relay, gate, out);
    }
    let Ok(desk) = desk_for(alloc, relay, &system, horizon) else {
        return Err(FlowFault::NoMemory);
    };
    if cores == 1 {
        return flow_one(relay, desk, gate, out);
    }
    flow_desk::<Brand, W, G>(alloc, relay, desk, &system, gate, out)
}

/// Returns all rows up to the horizon, from a run on this thread.
pub(crate) fn rows_here(
    alloc: Global,
    system: Arc<System>,
    horizon: Tick,
) -> Result<Vec<Row>, NoMemory>
    requires { horizon ≤ 2 ^ 40 }
    ensures { IfOk result (λ rows. rows.items ≡ schedule (arc_value system) horizon) }
{
    let mut kept = Kept::new(alloc);
    let relay = RowRelay::new(alloc);
    let Ok(()) = flow_here(alloc, system, horizon, &relay, &Open, &mut kept) else {
        return Err(NoMemory);
    };
    Ok(kept.rows)
}

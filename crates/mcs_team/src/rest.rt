//! The rest of a run after its team has ended, on the caller's thread.
ghost use Rattle.std.specs.Prelude.{◌≡◌, ◌+◌, ◌<◌, ◌≤◌, ◌^◌, ◌⊎◌, ℕ, [], length, slice_index, slice_set, IfErr, IfOk, IfSome, OnOk};
ghost use Rattle.std.specs.Arc.{arc_value};
ghost use Rattle.mcs_merge.specs.Parts.{rows_from};
ghost use Rattle.mcs_system.specs.WellFormed.{IsWellFormed};
ghost use Rattle.mcs_team.specs.Flow.{AreAtClocks, AreTakenTo, FailsFrom, IsClear, IsGivenBetween, IsStop, Waits};
ghost use Rattle.mcs_window.specs.Desk.{clock_of, taken_at, taken_of, IsFinished};

use crate::here::{empty_told, flow_rounds};
use crate::outflow::Outflow;
use crate::run::{Plan, Run, Stop};
use crate::team::Team;
use crate::telling::{Telling, Untold};
use crate::{FlowFault, Gate, Relay};
use mcs_merge::Part;
use mcs_ticks::{Collector, CoreId, Limits, NoMemory, Nothing, Refused, Row, Tick};
use mcs_window::{Desk, Front};
use std::marker::Brand;
use std::sync::Arc;

/// Why a flow stops when rows of a core are missing.
pub(crate) fn stop_at(untold: Untold, reached: Tick) -> Stop
    ensures { (result ≡ Stop.Fault FlowFault.NoMemory) ⊎ (result ≡ Stop.Odd reached) }
{
    match untold {
        Untold::NoMemory => Stop::Fault(FlowFault::NoMemory),
        Untold::Odd => Stop::Odd(reached),
    }
}

/// Returns the clocks of the desk if these times equal the clocks of its cores.
fn clocks_at(desk: &Desk<Nothing>, moments: &[Tick]) -> Option<Front>
    ensures many { IfSome result (λ front. length moments.now ≡ desk.now.system.cores) }
    ensures long { IfSome result (λ front. length front ≡ 64) }
    ensures front { IfSome result (λ front. AreAtClocks front desk.now) }
    ensures moments { IfSome result (λ front. AreAtClocks moments.now desk.now) }
{
    if moments.len() != desk.cores() || moments.len() > Limits::CORES {
        return None;
    }
    let mut front = [Tick::ZERO; 64];
    for number in 0..moments.len() {
        let clock = desk.clock(CoreId(number));
        if clock != moments[number] {
            return None;
        }
        front[number] = clock;
    }
    Some(front)
}

/// Gives the cores of a desk new collectors of this relay. `Odd` unless all rows before these
/// times, their clocks, were added.
fn retold<W: Relay>(
    relay: &W,
    desk: Desk<Nothing>,
    moments: &Vec<Tick>,
) -> Result<Desk<W::Told>, Untold>
    ensures desk { IfOk result (λ told. told ≡ record desk { taken = told.taken }) }
    ensures long { IfOk result (λ told. length told.taken ≡ 64) }
    ensures taken { IfOk result (AreTakenTo moments.now.items) }
{
    let Some(front) = clocks_at(&desk, moments.as_slice()) else {
        return Err(Untold::Odd);
    };
    let Ok(told) = empty_told(*moments.allocator(), relay, desk.cores()) else {
        return Err(Untold::NoMemory);
    };
    Ok(desk.retold(front, told))
}

/// Adds the rows of each core. `Odd` if those of a core are missing.
fn add_found<B: Run, W: Relay>(
    relay: &W,
    found: Vec<Option<Telling<B, W::Told>>>,
    flow: &mut Outflow<W>,
) -> Result<(), Untold>
    requires end { flow.old.end ≡ B.horizon + 1 }
    ensures same { (flow.new.reached ≡ flow.old.reached) × (flow.new.end ≡ flow.old.end) }
    ensures waits { (out : W.Part.Out) → W.fits relay.now out
        → Waits W.Part.holds B.system B.horizon flow.old.reached flow.old.pasts.items flow.old.merger out
        → OnOk result (Waits W.Part.holds B.system B.horizon flow.new.reached flow.new.pasts.items flow.new.merger out) }
{
    for slot in found {
        let Some(telling) = slot else {
            return Err(Untold::Odd);
        };
        flow.add_telling::<B>(relay, telling)?;
    }
    Ok(())
}

/// Returns the desk of a team that has ended, after all rows of its cores were added.
fn gathered<B: Run, W: Relay>(
    relay: &W,
    team: Team<B, W::Told>,
    flow: &mut Outflow<W>,
) -> Result<Desk<W::Told>, Untold>
    requires well_formed { IsWellFormed B.system }
    requires end { flow.old.end ≡ B.horizon + 1 }
    ensures clear { IfOk result (λ desk. IsClear B.system B.horizon desk flow.new.pasts.items flow.new.end) }
    ensures same { (flow.new.reached ≡ flow.old.reached) × (flow.new.end ≡ flow.old.end) }
    ensures waits { (out : W.Part.Out) → W.fits relay.now out
        → Waits W.Part.holds B.system B.horizon flow.old.reached flow.old.pasts.items flow.old.merger out
        → OnOk result (Waits W.Part.holds B.system B.horizon flow.new.reached flow.new.pasts.items flow.new.merger out) }
{
    let (desk, tellings) = team.into_parts()?;
    add_found::<B, W>(relay, tellings.into_slots(), flow)?;
    retold(relay, desk, &flow.pasts)
}

/// Takes the turns that a team has left, in rounds that end at `enough` rows, and writes their
/// rows.
pub(crate) fn go_on_alone<B: Run, W: Relay, G: Gate>(
    relay: &W,
    team: Team<B, W::Told>,
    mut flow: Outflow<W>,
    enough: usize,
    gate: &G,
    out: &mut <W::Part as Part>::Out,
) -> Result<(), Stop>
    requires well_formed { IsWellFormed B.system }
    requires end { flow.end ≡ B.horizon + 1 }
    requires fits { W.fits relay.now out.old }
    requires waits { Waits W.Part.holds B.system B.horizon flow.reached flow.pasts.items flow.merger out.old }
    ensures given { OnOk result (IsGivenBetween W.Part.Out.takes B.system flow.reached (B.horizon + 1) out.old out.new) }
    ensures stop { IfErr result (IsStop W.Part.Out.takes B.system B.horizon flow.reached out.old out.new) }
{
    let desk = match gathered::<B, W>(relay, team, &mut flow) {
        Ok(desk) => desk,
        Err(untold) => return Err(stop_at(untold, flow.reached)),
    };
    match flow_rounds::<B, W, G>(relay, desk, flow, enough, gate, out) {
        Ok(()) => Ok(()),
        Err(fault) => Err(Stop::Fault(fault)),
    }
}

/// Returns a desk that holds all rows of the run. All turns are taken.
fn desk_at_end(plan: &Plan) -> Result<Desk, NoMemory>
    requires { plan.now.horizon ≤ 2 ^ 40 }
    ensures run { IfOk result (λ desk. (desk.system ≡ arc_value plan.now.system) × (desk.horizon ≡ plan.now.horizon)) }
    ensures finished { IfOk result IsFinished }
    ensures taken { IfOk result (λ desk. (core : ℕ) → taken_of desk core ≡ 0) }
    ensures long { IfOk result (λ desk. length desk.taken ≡ 64) }
{
    let mut desk = Desk::new(plan.alloc, Arc::try_clone(&plan.system)?, plan.horizon)?;
    desk.go(usize::MAX)?;
    // no memory can hold that many rows
    if !desk.finished() {
        return Err(NoMemory);
    }
    Ok(desk)
}

/// Records the rows from time `from` in `told`.
fn tell_from<S: Collector>(rows: &[Row], from: Tick, told: &mut S) -> Result<(), Refused>
    requires { S.holds told.old [] }
    ensures { OnOk result (S.holds told.new (rows_from from rows.now)) }
{
    for row in rows {
        if row.moment < from {
            continue;
        }
        told.row(row)?;
    }
    Ok(())
}

/// Takes the rows of a core from a desk and adds those from time `from`. Earlier ones were written.
fn add_rest<B: Run, W: Relay>(
    relay: &W,
    desk: &mut Desk,
    core: CoreId,
    from: Tick,
    flow: &mut Outflow<W>,
) -> Result<(), NoMemory>
    requires run { (desk.old.system ≡ B.system) × (desk.old.horizon ≡ B.horizon) }
    requires known { (core < desk.old.system.cores) × (core < length flow.old.pasts.items) }
    requires whole { (taken_of desk.old core ≡ 0) × (clock_of desk.old core ≡ B.horizon + 1) }
    requires from { (slice_index flow.old.pasts.items core ≡ from) × (from ≤ B.horizon + 1) }
    ensures desk { desk.new ≡ taken_at desk.old core }
    ensures pasts { OnOk result (flow.new.pasts.items ≡ slice_set flow.old.pasts.items core (B.horizon + 1)) }
    ensures same { (flow.new.reached ≡ flow.old.reached) × (flow.new.end ≡ flow.old.end) }
    ensures waits { (out : W.Part.Out) → W.fits relay.now out
        → Waits W.Part.holds B.system B.horizon flow.old.reached flow.old.pasts.items flow.old.merger out
        → OnOk result (Waits W.Part.holds B.system B.horizon flow.new.reached flow.new.pasts.items flow.new.merger out) }
{
    let past = desk.clock(core);
    let rows = desk.take_rows(core);
    let mut told = relay.empty();
    let Ok(()) = tell_from(rows.as_slice(), from, &mut told) else {
        return Err(NoMemory);
    };
    flow.add::<B>(relay, core, past, told)
}

/// Adds the rows of all cores from time `from`. Earlier ones were written.
fn add_rests<B: Run, W: Relay>(
    relay: &W,
    desk: &mut Desk,
    from: Tick,
    flow: &mut Outflow<W>,
) -> Result<(), NoMemory>
    requires run { (desk.old.system ≡ B.system) × (desk.old.horizon ≡ B.horizon) }
    requires whole { IsFinished desk.old × ((core : ℕ) → taken_of desk.old core ≡ 0) }
    requires many { length flow.old.pasts.items ≡ B.system.cores }
    requires from { ((core : ℕ) → core < B.system.cores → slice_index flow.old.pasts.items core ≡ from) × (from ≤ B.horizon + 1) }
    ensures pasts { OnOk result ((length flow.new.pasts.items ≡ B.system.cores)
        × ((core : ℕ) → core < B.system.cores → slice_index flow.new.pasts.items core ≡ B.horizon + 1)) }
    ensures same { (flow.new.reached ≡ flow.old.reached) × (flow.new.end ≡ flow.old.end) }
    ensures waits { (out : W.Part.Out) → W.fits relay.now out
        → Waits W.Part.holds B.system B.horizon flow.old.reached flow.old.pasts.items flow.old.merger out
        → OnOk result (Waits W.Part.holds B.system B.horizon flow.new.reached flow.new.pasts.items flow.new.merger out) }
{
    for number in 0..flow.pasts.len() {
        add_rest::<B, W>(relay, desk, CoreId(number), from, flow)?;
    }
    Ok(())
}

/// Simulates on this thread, and writes the rows from time `from`.
fn rest_from<B: Run, W: Relay>(
    plan: &Plan,
    from: Tick,
    relay: &W,
    out: &mut <W::Part as Part>::Out,
) -> Result<(), FlowFault>
    requires run { (arc_value plan.now.system ≡ B.system) × (plan.now.horizon ≡ B.horizon) }
    requires in_range { (plan.now.horizon ≤ 2 ^ 40) × (from ≤ plan.now.horizon + 1) }
    requires fits { W.fits relay.now out.old }
    ensures given { OnOk result (IsGivenBetween W.Part.Out.takes B.system from (B.horizon + 1) out.old out.new) }
    ensures fault { IfErr result (FailsFrom W.Part.Out.takes B.system B.horizon from out.old out.new) }
{
    let _parts = plan.system.parts();
    let Ok(mut desk) = desk_at_end(plan) else {
        return Err(FlowFault::NoMemory);
    };
    let Ok(mut flow) = Outflow::new(plan.alloc, relay, &plan.system, plan.horizon, from) else {
        return Err(FlowFault::NoMemory);
    };
    let Ok(()) = add_rests::<B, W>(relay, &mut desk, from, &mut flow) else {
        return Err(FlowFault::NoMemory);
    };
    let Ok(()) = flow.pour::<B>(out) else {
        return Err(FlowFault::Sink);
    };
    Ok(())
}

/// Simulates again on this thread, and writes the rows from time `from`.
pub(crate) fn simulate_again<W: Relay>(
    plan: Plan,
    from: Tick,
    relay: &W,
    out: &mut <W::Part as Part>::Out,
) -> Result<(), FlowFault>
    requires in_range { (plan.horizon ≤ 2 ^ 40) × (from ≤ plan.horizon + 1) }
    requires fits { W.fits relay.now out.old }
    ensures given { OnOk result (IsGivenBetween W.Part.Out.takes (arc_value plan.system) from (plan.horizon + 1) out.old out.new) }
    ensures fault { IfErr result (FailsFrom W.Part.Out.takes (arc_value plan.system) plan.horizon from out.old out.new) }
{
    rest_from::<Brand, W>(&plan, from, relay, out)
}

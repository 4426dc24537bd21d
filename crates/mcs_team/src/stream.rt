//! The caller's thread writes the rows of a team's cores while they work.
ghost use Rattle.std.specs.Prelude.{◌≡◌, ◌+◌, ◌≤◌, ◌^◌, IfErr, OnOk};
ghost use Rattle.std.specs.Arc.{arc_value};
ghost use Rattle.mcs_system.specs.WellFormed.{IsWellFormed};
ghost use Rattle.mcs_team.specs.Flow.{IsGivenBetween, IsStop, Waits};

use crate::here::enough_of;
use crate::outflow::Outflow;
use crate::rest::{go_on_alone, stop_at};
use crate::run::{Plan, Run, Stop};
use crate::shared_desk::Brim;
use crate::team::{Team, crew, silent_desk};
use crate::telling::{Telling, Tellings};
use crate::{FlowFault, Gate, Relay};
use mcs_merge::Part;
use mcs_ticks::{Collector, CoreId, NoMemory, Tick};
use std::alloc::Global;
use std::sync::{Arc, Wait};
use std::thread::{Threads, join_mut};

/// At `enough` waiting rows it is time to take them. At `full` no piece is lent until they were
/// taken.
const BRIM: Brim = Brim {
    enough: 4096,
    full: 8192,
};

/// Collectors taken from a team, and empty ones for its cores.
#[derive(Drop)]
struct Basket<B: Run, S: Collector + Drop> {
    rooms: Vec<S>,
    told: Vec<Telling<B, S>>,
}

impl<B: Run, S: Collector + Drop> Basket<B, S> {
    fn new(alloc: Global, cores: usize) -> Result<Basket<B, S>, NoMemory> {
        let rooms = Vec::with_capacity(alloc, cores)?;
        let told = Vec::with_capacity(alloc, cores)?;
        Ok(Basket { rooms, told })
    }
}

/// Fills `rooms` with empty collectors up to its capacity, at most one per core.
fn fill<W: Relay>(relay: &W, rooms: &mut Vec<W::Told>, flow: &mut Outflow<W>)
    ensures same { (flow.new.reached ≡ flow.old.reached) × (flow.new.end ≡ flow.old.end) }
    ensures waits { (flow.new.merger ≡ flow.old.merger) × (flow.new.pasts.items ≡ flow.old.pasts.items) }
{
    for _ in 0..flow.pasts.len() {
        if rooms.len() < rooms.capacity() {
            rooms.push_reserved(flow.take_room(relay));
        }
    }
}

/// Adds the collected rows, and writes those that all clocks have passed.
fn give<B: Run, W: Relay>(
    relay: &W,
    told: &mut Vec<Telling<B, W::Told>>,
    flow: &mut Outflow<W>,
    out: &mut <W::Part as Part>::Out,
) -> Result<(), Stop>
    requires well_formed { IsWellFormed B.system }
    requires end { flow.old.end ≡ B.horizon + 1 }
    requires fits { W.fits relay.now out.old }
    requires waits { Waits W.Part.holds B.system B.horizon flow.old.reached flow.old.pasts.items flow.old.merger out.old }
    ensures end { flow.new.end ≡ flow.old.end }
    ensures waits { OnOk result (Waits W.Part.holds B.system B.horizon flow.new.reached flow.new.pasts.items flow.new.merger out.new) }
    ensures given { OnOk result (IsGivenBetween W.Part.Out.takes B.system flow.old.reached flow.new.reached out.old out.new) }
    ensures stop { IfErr result (IsStop W.Part.Out.takes B.system B.horizon flow.old.reached out.old out.new) }
{
    if let Err(untold) = flow.add_all::<B>(relay, told) {
        return Err(stop_at(untold, flow.reached));
    }
    let Ok(()) = flow.pour::<B>(out) else {
        return Err(Stop::Fault(FlowFault::Sink));
    };
    Ok(())
}

/// Writes rows as they come, until no further piece will be available.
fn give_out<B: Run, R: Wait, G: Gate, W: Relay>(
    rt: &R,
    gate: &G,
    team: &Team<B, W::Told>,
    relay: &W,
    flow: &mut Outflow<W>,
    out: &mut <W::Part as Part>::Out,
) -> Result<(), Stop>
    requires well_formed { IsWellFormed B.system }
    requires end { flow.old.end ≡ B.horizon + 1 }
    requires fits { W.fits relay.now out.old }
    requires waits { Waits W.Part.holds B.system B.horizon flow.old.reached flow.old.pasts.items flow.old.merger out.old }
    ensures end { flow.new.end ≡ flow.old.end }
    ensures waits { OnOk result (Waits W.Part.holds B.system B.horizon flow.new.reached flow.new.pasts.items flow.new.merger out.new) }
    ensures given { OnOk result (IsGivenBetween W.Part.Out.takes B.system flow.old.reached flow.new.reached out.old out.new) }
    ensures stop { IfErr result (IsStop W.Part.Out.takes B.system B.horizon flow.old.reached out.old out.new) }
{
    let alloc = *flow.pasts.allocator();
    let Ok(mut basket) = Basket::<B, W::Told>::new(alloc, flow.pasts.len()) else {
        return Err(Stop::Fault(FlowFault::NoMemory));
    };
    for _ in rt.forever() {
        fill(relay, &mut basket.rooms, flow);
        team.wait(rt, gate);
        let is_over = team.take_out(rt, &mut basket.rooms, &mut basket.told);
        if let Err(stop) = give::<B, W>(relay, &mut basket.told, flow, out) {
            return Err(stop);
        }
        gate.reached(flow.reached);
        if is_over {
            return Ok(());
        }
    }
    Err(Stop::Odd(flow.reached))
}

/// Writes rows while the team works. Returns when no further piece will be available and all its
/// threads have ended.
fn work_and_give<B: Run + Send + Sync, R: Threads + Wait + Sync, G: Gate + Sync, W: Relay>(
    rt: &R,
    gate: &G,
    team: &Team<B, W::Told>,
    relay: &W,
    flow: &mut Outflow<W>,
    out: &mut <W::Part as Part>::Out,
) -> Result<(), Stop>
where
    W::Told: Send,
    requires well_formed { IsWellFormed B.system }
    requires end { flow.old.end ≡ B.horizon + 1 }
    requires fits { W.fits relay.now out.old }
    requires waits { Waits W.Part.holds B.system B.horizon flow.old.reached flow.old.pasts.items flow.old.merger out.old }
    ensures end { flow.new.end ≡ flow.old.end }
    ensures waits { OnOk result (Waits W.Part.holds B.system B.horizon flow.new.reached flow.new.pasts.items flow.new.merger out.new) }
    ensures given { OnOk result (IsGivenBetween W.Part.Out.takes B.system flow.old.reached flow.new.reached out.old out.new) }
    ensures stop { IfErr result (IsStop W.Part.Out.takes B.system B.horizon flow.old.reached out.old out.new) }
{
    let ((), ended) = join_mut(
        rt,
        &mut || crew(rt, team, gate, false),
        &mut || -> Result<(), Stop>
            requires { IsWellFormed B.system
                × (flow.now.end ≡ B.horizon + 1)
                × W.fits relay.now out.now
                × Waits W.Part.holds B.system B.horizon flow.now.reached flow.now.pasts.items flow.now.merger out.now }
            ensures end { flow.exit.now.end ≡ flow.entry.now.end }
            ensures waits { OnOk result (Waits W.Part.holds B.system B.horizon flow.exit.now.reached flow.exit.now.pasts.items flow.exit.now.merger out.exit.now) }
            ensures given { OnOk result (IsGivenBetween W.Part.Out.takes B.system flow.entry.now.reached flow.exit.now.reached out.entry.now out.exit.now) }
            ensures stop { IfErr result (IsStop W.Part.Out.takes B.system B.horizon flow.entry.now.reached out.entry.now out.exit.now) }
        {
            let ended = give_out(rt, gate, team, relay, flow, out);
            if ended.is_err() {
                team.end(rt);
            }
            ended
        },
    );
    ended
}

/// Returns an empty collector per core.
fn tellings_for<B: Run, W: Relay>(
    alloc: Global,
    relay: &W,
    cores: usize,
) -> Result<Tellings<B, W::Told>, NoMemory> {
    let mut slots = Vec::with_capacity(alloc, cores)?;
    for number in 0..cores {
        let telling = Telling::<B, W::Told>::new(CoreId(number), Tick::ZERO, relay.empty());
        slots.push(Some(telling))?;
    }
    Ok(Tellings::<B, W::Told>::new(slots))
}

/// Returns a team for a run. Its threads have not begun yet.
fn team_for<B: Run, W: Relay>(
    plan: &Plan,
    workers: usize,
    relay: &W,
) -> Result<Team<B, W::Told>, NoMemory>
    requires run { (arc_value plan.now.system ≡ B.system) × (plan.now.horizon ≡ B.horizon) }
    requires in_range { plan.now.horizon ≤ 2 ^ 40 }
{
    let shared = Arc::try_clone(&plan.system)?;
    let desk = silent_desk(plan.alloc, shared, plan.horizon)?;
    let tellings = tellings_for::<B, W>(plan.alloc, relay, desk.cores())?;
    let team = Team::<B, W::Told>::new(plan.alloc, desk, tellings, workers, BRIM);
    Ok(team)
}

/// Runs the whole simulation: a team takes the turns, and this thread writes their rows. Once no
/// further piece is available, this thread takes the remaining turns.
pub(crate) fn flow_beside<B: Run + Send + Sync, R: Threads + Wait + Sync, G: Gate + Sync, W: Relay>(
    rt: &R,
    plan: &Plan,
    workers: usize,
    gate: &G,
    relay: &W,
    out: &mut <W::Part as Part>::Out,
) -> Result<(), Stop>
where
    W::Told: Send,
    requires run { (arc_value plan.now.system ≡ B.system) × (plan.now.horizon ≡ B.horizon) }
    requires in_range { plan.now.horizon ≤ 2 ^ 40 }
    requires fits { W.fits relay.now out.old }
    ensures given { OnOk result (IsGivenBetween W.Part.Out.takes B.system 0 (B.horizon + 1) out.old out.new) }
    ensures stop { IfErr result (IsStop W.Part.Out.takes B.system B.horizon 0 out.old out.new) }
{
    let enough = enough_of(plan.system.parts());
    let Ok(team) = team_for::<B, W>(plan, workers, relay) else {
        return Err(Stop::Fault(FlowFault::NoMemory));
    };
    let Ok(mut flow) = Outflow::new(plan.alloc, relay, &plan.system, plan.horizon, Tick::ZERO)
    else {
        return Err(Stop::Fault(FlowFault::NoMemory));
    };
    if let Err(stop) = work_and_give(rt, gate, &team, relay, &mut flow, out) {
        return Err(stop);
    }
    go_on_alone(relay, team, flow, enough, gate, out)
}

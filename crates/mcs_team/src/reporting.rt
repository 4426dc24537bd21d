//! Reports of whole simulations without their rows.
ghost use Rattle.std.specs.Prelude.{◌≡◌, ℕ, ◌<◌, ◌≤◌, ◌^◌, false, IfOk, IfSome};
ghost use Rattle.std.specs.Arc.{arc_value};
ghost use Rattle.mcs_core.specs.Clock.{schedule};
ghost use Rattle.mcs_report.specs.Reports.{reports_of};
ghost use Rattle.mcs_report.specs.Tally.{opened_tally};
ghost use Rattle.mcs_report.specs.laws.Demand.{AreWithinDemand};
ghost use Rattle.mcs_team.specs.Counts.{AreWhole};
ghost use Rattle.mcs_team.specs.Headline.{Headline};
ghost use Rattle.mcs_window.specs.Desk.{taken_of, AllAreHere, IsFinished};

use crate::close::counts_in_step;
use crate::own_tally::{OwnTally, are_in_place, counted, counting, tallies_of_cores};
use crate::run::{Run, reached};
use crate::shared_desk::Brim;
use crate::step_tally::report_in_step;
use crate::team::{Team, crew, silent_desk};
use crate::telling::{Tellings, Untold};
use crate::{Gate, SimFault, simulate_alone};
use mcs_report::{CoreTally, Places, Reports, Tally, core_tallies_give_reports, demand_is_bounded};
use mcs_system::System;
use mcs_ticks::{NoMemory, Nothing, Tick};
use mcs_window::Desk;
use std::alloc::Global;
use std::marker::Brand;
use std::sync::{Arc, Wait};
use std::thread::Threads;

/// Rows after which the gate is called with the progress of the run.
const ENOUGH: usize = 16_384;

/// No limit on waiting rows: counts take no more room as they grow.
const BRIM: Brim = Brim {
    enough: usize::MAX,
    full: usize::MAX,
};

/// Simulates the system up to the horizon, at most 2^40, and returns the reports of its schedule,
/// for every number of workers. They equal those of `simulate_to`.
///
/// Rows are counted as the turns are taken. No row is merged or kept. The team has
/// `workers` threads, at most one per core, and this thread is one of them. If that is fewer than
/// two, this thread takes all turns. If pieces of work have few rows, the team ends after a while
/// and this thread takes the remaining turns, see `simulate_to`. The gate is called for each piece
/// that is lent; turns that this thread takes alone lend none.
///
/// Errors: `NoMemory` if an allocation failed.
pub fn report<R: Threads + Wait + Sync, G: Gate + Sync>(
    rt: &R,
    alloc: Global,
    system: Arc<System>,
    horizon: Tick,
    workers: usize,
    gate: &G,
) -> Result<Reports, NoMemory>
    requires { horizon ≤ 2 ^ 40 }
    ensures reports { IfOk result
        (λ reports. reports ≡ reports_of (arc_value system) horizon (schedule (arc_value system) horizon)) }
    ensures demand { IfOk result (λ reports. AreWithinDemand (arc_value system) horizon reports) }
    ensures headline { IfOk result
        (λ reports. Headline (arc_value system) horizon (schedule (arc_value system) horizon) reports) }
{
    demand_is_bounded();
    let workers = workers.min(system.parts().cores);
    if workers < 2 {
        report_here(alloc, system, horizon, gate)
    } else {
        report_team(rt, alloc, system, horizon, workers, gate)
    }
}

/// Returns the reports from a run on this thread, in step if that costs less.
fn report_here<G: Gate>(
    alloc: Global,
    system: Arc<System>,
    horizon: Tick,
    gate: &G,
) -> Result<Reports, NoMemory>
    requires { horizon ≤ 2 ^ 40 }
    ensures { IfOk result
        (λ reports. reports ≡ reports_of (arc_value system) horizon (schedule (arc_value system) horizon)) }
{
    if counts_in_step(&system) {
        return report_in_step(alloc, system, horizon, gate);
    }
    report_by_core(alloc, system, horizon, gate)
}

/// Returns the reports from a run on this thread in which each core counts its own rows.
fn report_by_core<G: Gate>(
    alloc: Global,
    system: Arc<System>,
    horizon: Tick,
    gate: &G,
) -> Result<Reports, NoMemory>
    requires { horizon ≤ 2 ^ 40 }
    ensures { IfOk result
        (λ reports. reports ≡ reports_of (arc_value system) horizon (schedule (arc_value system) horizon)) }
{
    let tally = Tally::new(alloc, &system, horizon)?;
    let places = Arc::new(alloc, Places::new(alloc, Arc::try_clone(&system)?)?)?;
    let shared = Arc::try_clone(&system)?;
    let found = count_here::<Brand, G>(alloc, &places, shared, horizon, gate)?;
    put_together(alloc, tally, &places, found, system, horizon)
}

/// Returns the reports of the rows that the cores have counted. If `found` is `None`, they are from
/// a new run on this thread that keeps its rows.
fn put_together(
    alloc: Global,
    tally: Tally,
    places: &Places,
    found: Option<Vec<CoreTally>>,
    system: Arc<System>,
    horizon: Tick,
) -> Result<Reports, NoMemory>
    requires in_range { horizon ≤ 2 ^ 40 }
    requires tally { tally ≡ opened_tally (arc_value system) horizon }
    requires places { places.now ≡ arc_value system }
    requires found { IfSome found (λ tallies. AreWhole (arc_value system) horizon tallies.items) }
    ensures { IfOk result
        (λ reports. reports ≡ reports_of (arc_value system) horizon (schedule (arc_value system) horizon)) }
{
    core_tallies_give_reports();
    let _parts = system.parts();
    match found {
        Some(tallies) => Ok(tally.together(places, tallies.as_slice())),
        None => match simulate_alone(alloc, system, horizon) {
            Ok(whole) => Ok(whole.reports),
            Err(SimFault::NoMemory) => Err(NoMemory),
        },
    }
}

/// Counts the rows of all cores on this thread. `None` if the tallies are in another order, which
/// doesn't occur in a run.
fn count_here<B: Run, G: Gate>(
    alloc: Global,
    places: &Arc<Places>,
    system: Arc<System>,
    horizon: Tick,
    gate: &G,
) -> Result<Option<Vec<CoreTally>>, NoMemory>
    requires run { (arc_value system ≡ B.system) × (arc_value places.now ≡ B.system) × (horizon ≡ B.horizon) }
    requires in_range { horizon ≤ 2 ^ 40 }
    ensures { IfOk result (λ found. IfSome found (λ tallies. AreWhole B.system B.horizon tallies.items)) }
{
    let cores = system.parts().cores;
    let told = tallies_of_cores::<B>(alloc, places, cores, horizon)?;
    let desk = Desk::opened(alloc, system, horizon, told)?;
    count_to_end(alloc, desk, gate)
}

/// Takes all remaining turns while each core counts its own rows. All earlier rows must have been
/// counted. Returns the tallies.
fn count_to_end<B: Run, G: Gate>(
    alloc: Global,
    mut desk: Desk<OwnTally<B>>,
    gate: &G,
) -> Result<Option<Vec<CoreTally>>, NoMemory>
    requires run { (desk.system ≡ B.system) × (desk.horizon ≡ B.horizon) }
    requires sound { desk.lost ≡ false }
    requires here { AllAreHere desk }
    requires first { (c : ℕ) → c < desk.system.cores → taken_of desk c ≡ 0 }
    ensures { IfOk result (λ found. IfSome found (λ tallies. AreWhole B.system B.horizon tallies.items)) }
{
    'rounds: loop {
        let enough = desk.kept().saturating_add(ENOUGH);
        desk.go(enough)?;
        gate.reached(reached(&desk));
        if desk.finished() {
            return tallies_alone(alloc, desk);
        }
    }
}

/// Returns the tallies after all turns were taken. `None` if they are in another order.
fn tallies_alone<B: Run>(
    alloc: Global,
    desk: Desk<OwnTally<B>>,
) -> Result<Option<Vec<CoreTally>>, NoMemory>
    requires run { (desk.system ≡ B.system) × (desk.horizon ≡ B.horizon) }
    requires finished { IsFinished desk }
    requires first { (c : ℕ) → c < desk.system.cores → taken_of desk c ≡ 0 }
    ensures { IfOk result (λ found. IfSome found (λ tallies. AreWhole B.system B.horizon tallies.items)) }
{
    let told = desk.into_told();
    if !are_in_place(told.as_slice()) {
        return Ok(None);
    }
    let tallies = told.into_iter().map(|own| own.tally).collect(alloc)?;
    Ok(Some(tallies))
}

/// Returns the reports from a team in which each thread counts the rows of the pieces that it runs.
fn report_team<R: Threads + Wait + Sync, G: Gate + Sync>(
    rt: &R,
    alloc: Global,
    system: Arc<System>,
    horizon: Tick,
    workers: usize,
    gate: &G,
) -> Result<Reports, NoMemory>
    requires { horizon ≤ 2 ^ 40 }
    ensures { IfOk result
        (λ reports. reports ≡ reports_of (arc_value system) horizon (schedule (arc_value system) horizon)) }
{
    let tally = Tally::new(alloc, &system, horizon)?;
    let places = Arc::new(alloc, Places::new(alloc, Arc::try_clone(&system)?)?)?;
    let desk = silent_desk(alloc, Arc::try_clone(&system)?, horizon)?;
    let found = count_beside::<Brand, R, G>(rt, alloc, &places, desk, workers, gate)?;
    put_together(alloc, tally, &places, found, system, horizon)
}

/// Counts the rows of all cores on a team. `None` if something is not as this run left it, which
/// doesn't occur in a run.
fn count_beside<B: Run + Send + Sync, R: Threads + Wait + Sync, G: Gate + Sync>(
    rt: &R,
    alloc: Global,
    places: &Arc<Places>,
    desk: Desk<Nothing>,
    workers: usize,
    gate: &G,
) -> Result<Option<Vec<CoreTally>>, NoMemory>
    requires desk { (desk.system ≡ B.system) × (desk.horizon ≡ B.horizon) }
    requires places { arc_value places.now ≡ B.system }
    ensures { IfOk result (λ found. IfSome found (λ tallies. AreWhole B.system B.horizon tallies.items)) }
{
    let tellings = counting::<B>(alloc, places, desk.cores(), desk.horizon())?;
    let team = Team::<B, OwnTally<B>>::new(alloc, desk, tellings, workers, BRIM);
    crew(rt, &team, gate, true);
    match team.into_parts() {
        Ok((desk, tellings)) => count_rest(alloc, desk, tellings, gate),
        Err(Untold::NoMemory) => Err(NoMemory),
        Err(Untold::Odd) => Ok(None),
    }
}

/// Takes the turns that a team has left, and returns the tallies like `count_to_end`.
fn count_rest<B: Run, G: Gate>(
    alloc: Global,
    desk: Desk<Nothing>,
    tellings: Tellings<B, OwnTally<B>>,
    gate: &G,
) -> Result<Option<Vec<CoreTally>>, NoMemory>
    requires run { (desk.system ≡ B.system) × (desk.horizon ≡ B.horizon) }
    requires sound { desk.lost ≡ false }
    requires here { AllAreHere desk }
    ensures { IfOk result (λ found. IfSome found (λ tallies. AreWhole B.system B.horizon tallies.items)) }
{
    match counted(alloc, tellings, &desk)? {
        Some(told) => count_to_end(alloc, desk.retold([Tick::ZERO; 64], told), gate),
        None => Ok(None),
    }
}

//! The call that lets a schedule pass through a finder.
ghost use Rattle.std.specs.Prelude.{◌≡◌, ◌≤◌, ◌^◌, IfOk};
ghost use Rattle.std.specs.Arc.{arc_value};
ghost use Rattle.mcs_core.specs.Clock.{schedule};
ghost use Rattle.mcs_verdict.specs.Findings.{findings};

use mcs_system::System;
use mcs_team::{FlowFault, Open, schedule_to};
use mcs_ticks::Tick;
use mcs_verdict::{Finder, Found, find_unended, given_rows_are_found};
use mcs_verdict_laws::schedules_are_in_order;
use std::alloc::Global;
use std::sync::{Arc, Wait};
use std::thread::Threads;

/// Returns what is wrong in the schedule of a system up to the horizon, at most 2^40: missed
/// deadlines and lost signals in the order of the rows, then what is wrong at the horizon: the
/// threads that are overdue or never had anything to do, and the words that nobody took in time.
/// The list is empty if nothing is wrong.
///
/// `workers` workers make the rows, and no row is kept.
///
/// Errors: `NoMemory` if an allocation failed, or `Sink` if it was that of a finding.
pub fn verdict<R: Threads + Wait + Sync>(
    rt: &R,
    alloc: Global,
    system: Arc<System>,
    horizon: Tick,
    workers: usize,
) -> Result<Vec<Found>, FlowFault>
    requires { horizon ≤ 2 ^ 40 }
    ensures { IfOk result
        (λ found. found.items ≡ findings (arc_value system) horizon (schedule (arc_value system) horizon)) }
{
    given_rows_are_found();
    schedules_are_in_order();
    let _parts = system.parts();
    let Ok(mut finder) = Finder::new(alloc, &system) else {
        return Err(FlowFault::NoMemory);
    };
    let Ok(shared) = Arc::try_clone(&system) else {
        return Err(FlowFault::NoMemory);
    };
    schedule_to(rt, alloc, shared, horizon, workers, &Open, &mut finder)?;
    let Ok(mut unended) = find_unended(alloc, &system, &finder.watch, horizon) else {
        return Err(FlowFault::NoMemory);
    };
    let mut found = finder.found;
    match found.append(&mut unended) {
        Ok(()) => Ok(found),
        Err(_) => Err(FlowFault::NoMemory),
    }
}

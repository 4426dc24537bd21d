//! Whole simulations that keep their rows, and the state of all contexts at one time.
ghost use Rattle.std.specs.Prelude.{◌≡◌, [], ◌≤◌, ◌^◌, ◌+◌, IfOk};
ghost use Rattle.std.specs.Arc.{arc_value};
ghost use Rattle.mcs_core.specs.Clock.{schedule};
ghost use Rattle.mcs_report.specs.Reports.{reports_of};
ghost use Rattle.mcs_report.specs.laws.Bandwidth.{RunsWithinBandwidth};
ghost use Rattle.mcs_report.specs.laws.Demand.{AreWithinDemand};
ghost use Rattle.mcs_team.specs.Headline.{Headline, BudgetsStand};
ghost use Rattle.mcs_window.specs.Views.{views_before};

use crate::here::rows_here;
use crate::{FlowFault, Gate, Refused, SimFault, Sink, simulate_to};
use mcs_control::ContextView;
use mcs_report::{Reports, Tally, bandwidth_is_bounded, demand_is_bounded, schedules_are_reported};
use mcs_system::System;
use mcs_ticks::{Nothing, Row, Sequence, Tick};
use mcs_window::Desk;
use std::alloc::Global;
use std::sync::{Arc, Wait};
use std::thread::Threads;

/// The result of a whole simulation.
#[derive(Debug, Drop)]
pub struct Whole {
    /// The schedule: all rows in order of time, then core, then as they were made.
    pub rows: Sequence<Row>,
    /// The reports of the schedule.
    pub reports: Reports,
}

/// A sink that keeps the rows. It refuses a row only if memory runs out.
#[derive(Drop)]
pub(crate) struct Kept {
    pub(crate) rows: Vec<Row>,
}

impl Sink for Kept {
    ghost use Rattle.std.specs.Prelude.{◌≡◌, ◌++◌, ◌∷◌, [], true};

    ghost takes = { λ before row taken after. taken ≡ true → after.rows.items ≡ before.rows.items ++ row ∷ [] };

    fn row(&mut self, row: &Row) -> Result<(), Refused> {
        let Row { moment, core, what } = *row;
        let row = Row { moment, core, what };
        self.rows.push(row).ok().ok_or(Refused)
    }
}

impl Kept {
    pub(crate) fn new(alloc: Global) -> Kept
        ensures { result.rows.items ≡ [] }
    {
        Kept {
            rows: Vec::new(alloc),
        }
    }
}

/// Simulates the system up to the horizon, at most 2^40, on this thread. Returns the schedule and
/// its reports.
///
/// The contract promises three bounds:
/// - A thread whose context no order names runs at most its budget for each period that begins
///   before the horizon. The first period begins at time 0.
/// - A thread in bandwidth mode runs at most the budget in force in any interval of one period
///   below the horizon, within which no order for its context comes.
/// - At each time of the run each context has its whole budget in force, in refills that neither
///   touch nor overlap, or in a slice.
///
/// Errors: `NoMemory` if an allocation failed.
pub fn simulate_alone(alloc: Global, system: Arc<System>, horizon: Tick) -> Result<Whole, SimFault>
    requires { horizon ≤ 2 ^ 40 }
    ensures rows { IfOk result (λ whole. whole.rows ≡ schedule (arc_value system) horizon) }
    ensures reports { IfOk result
        (λ whole. whole.reports ≡ reports_of (arc_value system) horizon (schedule (arc_value system) horizon)) }
    ensures demand { IfOk result (λ whole. AreWithinDemand (arc_value system) horizon whole.reports) }
    ensures bandwidth { IfOk result (λ whole. RunsWithinBandwidth (arc_value system) horizon whole.rows) }
    ensures headline { IfOk result (λ whole. Headline (arc_value system) horizon whole.rows whole.reports) }
{
    demand_is_bounded();
    bandwidth_is_bounded();
    schedules_are_reported();
    let _parts = system.parts();
    let mut tally = Tally::new(alloc, &system, horizon)?;
    let rows = rows_here(alloc, system, horizon)?;
    tally.add_all(rows.as_slice());
    Ok(Whole {
        rows: Sequence::new(rows),
        reports: tally.finish(),
    })
}

/// Simulates the system up to the horizon, at most 2^40, on a team of threads. Returns the schedule
/// and its reports, with the promises of `simulate_alone`, for every number of workers.
///
/// The team has `workers` threads, at most one per core, and this thread takes their rows. If that
/// is fewer than two, this thread takes all turns. If pieces of work stay short, the team ends
/// after a while and this thread takes the remaining turns, see `simulate_to`. A thread that can't
/// be started is left out. The gate is called for each piece that is lent; turns of this thread
/// lend none.
///
/// Errors: `NoMemory` if an allocation failed.
pub fn simulate<R: Threads + Wait + Sync, G: Gate + Sync>(
    rt: &R,
    alloc: Global,
    system: Arc<System>,
    horizon: Tick,
    workers: usize,
    gate: &G,
) -> Result<Whole, SimFault>
    requires { horizon ≤ 2 ^ 40 }
    ensures rows { IfOk result (λ whole. whole.rows ≡ schedule (arc_value system) horizon) }
    ensures reports { IfOk result
        (λ whole. whole.reports ≡ reports_of (arc_value system) horizon (schedule (arc_value system) horizon)) }
    ensures demand { IfOk result (λ whole. AreWithinDemand (arc_value system) horizon whole.reports) }
    ensures bandwidth { IfOk result (λ whole. RunsWithinBandwidth (arc_value system) horizon whole.rows) }
    ensures headline { IfOk result (λ whole. Headline (arc_value system) horizon whole.rows whole.reports) }
{
    let mut kept = Kept::new(alloc);
    match simulate_to(rt, alloc, system, horizon, workers, gate, &mut kept) {
        Ok(reports) => Ok(Whole {
            rows: Sequence::new(kept.rows),
            reports,
        }),
        // The rows are kept. `Kept` refuses one only if its vector can't grow.
        Err(FlowFault::NoMemory | FlowFault::Sink) => Err(SimFault::NoMemory),
    }
}

/// Returns all contexts in file order, as they are after all turns of time `t`, at most 2^40. It
/// needs no horizon.
///
/// Each view shows the whole budget in force at that time:
/// - A sporadic context has at most `2 + extra` refills that neither touch nor overlap. Their
///   amounts sum to the budget, and they span at most the period.
/// - A round robin context has 1 to its budget left.
/// - Ticks in use are ticks of the head. They are 0 unless the context's thread runs.
///
/// Errors: `NoMemory` if an allocation failed.
pub fn probe(alloc: Global, system: Arc<System>, t: Tick) -> Result<Vec<ContextView>, SimFault>
    requires { t ≤ 2 ^ 40 }
    ensures views { IfOk result (λ views. views.items ≡ views_before (arc_value system) (t + 1)) }
    ensures budgets { IfOk result (λ views. BudgetsStand (arc_value system) t views.items) }
{
    let Ok(told) = vec![in alloc; Nothing; system.parts().cores] else {
        return Err(SimFault::NoMemory);
    };
    let mut desk = Desk::opened(alloc, system, t, told)?;
    desk.go(usize::MAX)?;
    let views = desk.contexts(alloc)?;
    Ok(views)
}

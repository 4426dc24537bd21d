//! Reports of cores in step: one tally counts the rows of all cores in the schedule's order.
ghost use Rattle.std.specs.Prelude.{◌≡◌, ◌≤◌, ◌^◌, IfOk};
ghost use Rattle.std.specs.Arc.{arc_value};
ghost use Rattle.mcs_core.specs.Clock.{schedule};
ghost use Rattle.mcs_report.specs.Reports.{reports_of};
ghost use Rattle.mcs_report.specs.Tally.{opened_tally};
ghost use Rattle.mcs_report.specs.laws.Agreement.{tally_of};
ghost use Rattle.mcs_step.specs.Steps.{opening_steps};

use crate::Gate;
use mcs_report::{Reports, Tally, schedules_are_reported};
use mcs_step::InStep;
use mcs_system::System;
use mcs_ticks::{Measured, NoMemory, Refused, Row, Sink, Tick};
use std::alloc::Global;
use std::sync::Arc;

/// Rows after which the gate is called with the progress of the run.
const ENOUGH: usize = 16_384;

/// The counts of all rows so far.
#[derive(Drop)]
struct StepTally {
    tally: Tally,
    rows: usize,
}

/// Counts each row that it is given, and refuses none.
impl Sink for StepTally {
    ghost use Rattle.mcs_report.specs.Tally.{Counts};

    ghost takes = { λ before row taken after. Counts before.tally row taken after.tally };

    #[inline(always)]
    fn row(&mut self, row: &Row) -> Result<(), Refused> {
        self.tally.row(row)?;
        self.rows = self.rows.wrapping_add(1);
        Ok(())
    }
}

/// The size is the number of rows counted, in 64 bits.
impl Measured for StepTally {
    ghost size = { λ counted. counted.rows };

    #[inline(always)]
    fn size(&self) -> usize {
        self.rows
    }
}

/// Takes all turns in step and counts their rows. Returns the tally of the schedule.
fn count_in_step<G: Gate>(mut steps: InStep, tally: Tally, gate: &G) -> Result<Tally, NoMemory>
    requires unused { steps ≡ opening_steps steps.system steps.horizon }
    requires empty { tally ≡ opened_tally steps.system steps.horizon }
    ensures { IfOk result
        (λ counted. counted ≡ tally_of steps.system steps.horizon (schedule steps.system steps.horizon)) }
{
    let mut counted = StepTally { tally, rows: 0 };
    'rounds: while !steps.is_over() {
        let enough = counted.rows.saturating_add(ENOUGH);
        steps.go(enough, &mut counted)?;
        gate.reached(steps.moment());
    }
    Ok(counted.tally)
}

/// Returns the reports of a run in step on this thread, up to the horizon. `NoMemory` if an
/// allocation failed.
pub(crate) fn report_in_step<G: Gate>(
    alloc: Global,
    system: Arc<System>,
    horizon: Tick,
    gate: &G,
) -> Result<Reports, NoMemory>
    requires { horizon ≤ 2 ^ 40 }
    ensures { IfOk result
        (λ reports. reports ≡ reports_of (arc_value system) horizon (schedule (arc_value system) horizon)) }
{
    schedules_are_reported();
    let _parts = system.parts();
    let tally = Tally::new(alloc, &system, horizon)?;
    let steps = InStep::new(alloc, system, horizon)?;
    let counted = count_in_step(steps, tally, gate)?;
    Ok(counted.finish())
}

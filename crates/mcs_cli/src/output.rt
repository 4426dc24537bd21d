//! The output of a run: the lines of rows as they come, then the reports.
ghost use Rattle.std.specs.Prelude.{◌≡◌, ◌++◌, ◌↔◌, [], false, IfErr, IfNone, IfOk, IfSome, IsOk, IsSome, OnOk};
ghost use Rattle.std.specs.Arc.{arc_value};
ghost use Rattle.std.specs.Io.KnownBytes.{Appends};
ghost use Rattle.mcs_core.specs.Clock.{schedule};
ghost use Rattle.mcs_report.specs.Reports.{reports_of};
ghost use Rattle.mcs_ticks.specs.Given.{Given};
ghost use Rattle.mcs_team.specs.Flow.{IsFlowFault};
ghost use Rattle.mcs_text.specs.Text.{reports_text, schedule_text};
ghost use Rattle.mcs_cli.specs.Flow.{AppendsBefore, IsWriteFault};
ghost use Rattle.mcs_cli.specs.Lines.{PutsRow};
ghost use Rattle.mcs_cli.specs.Run.{output_of};

use crate::by_core::ByCore;
use crate::named::Named;
use crate::sink::Lines;
use crate::streams::write_text;
use crate::{Gate, Options, RunFault, Show, Target};
use mcs_report::Reports;
use mcs_system::System;
use mcs_team::{FlowFault, Plan, SimFault, report, schedule_by_core, schedule_to, simulate_to};
use mcs_text::{Names, Page, put_reports};
use std::alloc::Global;
use std::marker::Brand;
use std::sync::{Arc, Wait};
use std::thread::Threads;

/// Simulates a system, and writes what the options ask for: the lines of rows as they come, then
/// the reports.
pub(crate) fn write_output<H: Threads + Wait + Sync, T: Target, G: Gate + Sync>(
    rt: &H,
    alloc: Global,
    target: &mut T,
    system: System,
    options: &Options,
    gate: &G,
) -> Result<(), RunFault>
    requires { T.has_failed target.old ≡ false }
    ensures ok { OnOk result
        (Appends (T.contents target.old) (T.contents target.new) (output_of options.now.show system options.now.horizon)) }
    ensures working { OnOk result (T.has_failed target.new ≡ false) }
    ensures fault { IfErr result
        (IsWriteFault (T.contents target.old) (T.contents target.new) (T.has_failed target.new)
        (output_of options.now.show system options.now.horizon)) }
{
    let system = Arc::new(alloc, system)?;
    let mut text = Vec::new(alloc);
    put_output(rt, target, &mut text, &system, options, gate)?;
    write_text(target, text.as_slice())
}

/// Writes a first part of the output as the rows come. The rest is then in `text`.
fn put_output<H: Threads + Wait + Sync, T: Target, G: Gate + Sync>(
    rt: &H,
    target: &mut T,
    text: &mut Vec<u8>,
    system: &Arc<System>,
    options: &Options,
    gate: &G,
) -> Result<(), RunFault>
    requires working { T.has_failed target.old ≡ false }
    requires empty { text.old.items ≡ [] }
    ensures ok { OnOk result
        (AppendsBefore (T.contents target.old) (T.contents target.new)
        (output_of options.now.show (arc_value system.now) options.now.horizon) text.new.items) }
    ensures working { OnOk result (T.has_failed target.new ≡ false) }
    ensures fault { IfErr result
        (IsWriteFault (T.contents target.old) (T.contents target.new) (T.has_failed target.new)
        (output_of options.now.show (arc_value system.now) options.now.horizon)) }
{
    match options.show {
        Show::Schedule => {
            let _none = write_rows(rt, target, text, system, options, gate)?;
            Ok(())
        }
        Show::Reports => {
            let reports = count_rows(rt, *text.allocator(), system, options, gate)?;
            put_last(text, system, &reports)
        }
        Show::Both => {
            let reports = write_rows(rt, target, text, system, options, gate)?;
            put_counted(text, system, reports)
        }
    }
}

/// Writes the lines of the schedule's rows as they come. The last ones are then in `text`. Returns
/// the reports if they are to be shown.
fn write_rows<H: Threads + Wait + Sync, T: Target, G: Gate + Sync>(
    rt: &H,
    target: &mut T,
    text: &mut Vec<u8>,
    system: &Arc<System>,
    options: &Options,
    gate: &G,
) -> Result<Option<Reports>, RunFault>
    requires working { T.has_failed target.old ≡ false }
    requires empty { text.old.items ≡ [] }
    ensures ok { OnOk result
        (AppendsBefore (T.contents target.old) (T.contents target.new)
        (schedule_text (arc_value system.now) (schedule (arc_value system.now) options.now.horizon)) text.new.items) }
    ensures working { OnOk result (T.has_failed target.new ≡ false) }
    ensures reports { IfOk result (λ reports. IfSome reports (λ r. r
        ≡ reports_of (arc_value system.now) options.now.horizon (schedule (arc_value system.now) options.now.horizon))) }
    ensures counted { IfOk result (λ reports. IsSome reports ↔ (options.now.show ≡ Show.Both)) }
    ensures fault { IfErr result
        (IsWriteFault (T.contents target.old) (T.contents target.new) (T.has_failed target.new)
        (schedule_text (arc_value system.now) (schedule (arc_value system.now) options.now.horizon))) }
{
    let alloc = *text.allocator();
    let shared = Arc::try_clone(system)?;
    let names = Names::new(alloc, system)?;
    let mut page = Page::new(alloc)?;
    let mut lines = Lines::new(target, &names, &mut page);
    let result = give_rows::<Brand, H, G, T>(rt, alloc, shared, options, gate, &mut lines);
    match result {
        Ok(reports) => {
            text.extend_from_slice(page.as_slice())?;
            Ok(reports)
        }
        Err(FlowFault::NoMemory) => Err(RunFault::Sim(SimFault::NoMemory)),
        Err(FlowFault::Sink) => Err(RunFault::Write),
    }
}

/// Gives the schedule's rows to the sink of lines. If reports are shown, rows are counted and given
/// one by one. One core needs no merge, so its rows are also given one by one. Otherwise each core
/// makes its text.
fn give_rows<B: Named + Send + Sync, H: Threads + Wait + Sync, G: Gate + Sync, T: Target>(
    rt: &H,
    alloc: Global,
    system: Arc<System>,
    options: &Options,
    gate: &G,
    lines: &mut Lines<'_, T>,
) -> Result<Option<Reports>, FlowFault>
    requires { lines.old.names.now ≡ B.system }
    ensures given { OnOk result (Given (PutsRow T.contents T.has_failed) lines.old (schedule (arc_value system) options.now.horizon) lines.new) }
    ensures fault { IfErr result
        (IsFlowFault (PutsRow T.contents T.has_failed) (arc_value system) options.now.horizon lines.old lines.new) }
    ensures reports { IfOk result (λ reports. IfSome reports (λ r. r
        ≡ reports_of (arc_value system) options.now.horizon (schedule (arc_value system) options.now.horizon))) }
    ensures counted { IfOk result (λ reports. IsSome reports ↔ (options.now.show ≡ Show.Both)) }
{
    let (horizon, workers) = (options.horizon, options.workers);
    if options.show == Show::Both {
        let reports = simulate_to(rt, alloc, system, horizon, workers, gate, lines)?;
        Ok(Some(reports))
    } else if system.parts().cores == 1 {
        schedule_to(rt, alloc, system, horizon, workers, gate, lines)?;
        Ok(None)
    } else {
        let relay = ByCore::<B, T>::new(alloc, lines.names());
        let plan = Plan {
            alloc,
            system,
            horizon,
        };
        schedule_by_core(rt, plan, workers, gate, &relay, lines)?;
        Ok(None)
    }
}

/// Returns the reports of the schedule. No row is kept or merged with those of other cores.
fn count_rows<H: Threads + Wait + Sync, G: Gate + Sync>(
    rt: &H,
    alloc: Global,
    system: &Arc<System>,
    options: &Options,
    gate: &G,
) -> Result<Reports, RunFault>
    ensures reports { IfOk result (λ reports. reports
        ≡ reports_of (arc_value system.now) options.now.horizon (schedule (arc_value system.now) options.now.horizon)) }
    ensures fault { IfErr result (λ f. f ≡ RunFault.Sim SimFault.NoMemory) }
{
    let shared = Arc::try_clone(system)?;
    let reports = report(rt, alloc, shared, options.horizon, options.workers, gate)?;
    Ok(reports)
}

/// Appends the reports to the text, if there are any.
fn put_counted(
    text: &mut Vec<u8>,
    system: &System,
    reports: Option<Reports>,
) -> Result<(), RunFault>
    ensures some { OnOk result
        (IfSome reports (λ r. text.new.items ≡ text.old.items ++ reports_text system.now r)) }
    ensures none { IfNone reports (IsOk result × (text.new.items ≡ text.old.items)) }
    ensures fault { IfErr result (λ f. f ≡ RunFault.Sim SimFault.NoMemory) }
{
    match reports {
        Some(reports) => put_last(text, system, &reports),
        None => Ok(()),
    }
}

/// Appends the reports to the text.
fn put_last(text: &mut Vec<u8>, system: &System, reports: &Reports) -> Result<(), RunFault>
    ensures ok { OnOk result (text.new.items ≡ text.old.items ++ reports_text system.now reports.now) }
    ensures fault { IfErr result (λ f. f ≡ RunFault.Sim SimFault.NoMemory) }
{
    put_reports(text, system, reports)?;
    Ok(())
}

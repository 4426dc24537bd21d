//! The findings in the rows of a system's schedule, and their lines.
ghost use Rattle.std.specs.Prelude.{◌≡◌, [], List, None, false, IfErr, IfOk, OnOk};
ghost use Rattle.std.specs.Arc.{arc_value};
ghost use Rattle.mcs_ticks.specs.Capped.{capped};
ghost use Rattle.mcs_ticks.specs.declared.row.Row.{Row as TheRow};
ghost use Rattle.mcs_verdict.specs.Findings.{all_at_end, UpTo};
ghost use Rattle.mcs_chain.specs.Found.{all_unanswered};
ghost use Rattle.mcs_chain.specs.Watch.{all_due, all_judged_many, all_slow_many, watch_of as chains_of};
ghost use Rattle.mcs_cli.specs.Flow.{IsWriteFault};
ghost use Rattle.mcs_check_words.specs.declared.asked.Show.{Show as TheShow};
ghost use Rattle.mcs_check_words.specs.declared.asked.Show.TheVariants as show;
ghost use Rattle.mcs_cli.specs.declared.fault.RunFault.TheVariants as fault;
ghost use Rattle.mcs_team.specs.declared.run.SimFault.TheVariants as sim;
ghost use Rattle.mcs_check_lines.specs.Counts.{no_counts};
ghost use Rattle.mcs_check_lines.specs.Formats.{head_text};
ghost use Rattle.mcs_check.specs.Judged.{all_unjudged, judged_rounds};
ghost use Rattle.mcs_check.specs.stored.AllFound.{kept_of, kept_with, text_of_rows, IsAllFound, IsAllSeen};
ghost use Rattle.mcs_check.specs.stored.Rows.{kept_table};
ghost use Rattle.mcs_check.specs.stored.Watches.{watches_of};

use crate::all_found::{AllFound, Kept};
use crate::by_core::{FoundByCore, look};
use crate::finder::Finder;
use crate::found_lines::FoundLines;
use crate::seen::{Seen, Tables, Watches};
use crate::thread_watch::ThreadWatch;
use crate::unjudged::all_unjudged;
use mcs_chain::{Tallies, Watch as ChainWatch};
use mcs_check_lines::{Counts, put_head};
use mcs_check_run::{Lines, Machine, Progress, Runner, refusal};
use mcs_check_words::{Options, Show};
use mcs_cli::{RunFault, Target};
use mcs_system::System;
use mcs_table::Table;
use mcs_team::{FlowFault, SimFault};
use mcs_ticks::{NoMemory, Tick};
use mcs_verdict::{Watch, find_unended};
use mcs_verdict_laws::schedules_are_in_order;
use std::alloc::Global;
use std::sync::Arc;

/// Finds what is to be shown of a system's schedule and writes its lines as the rows come. The last
/// lines are returned, not yet written.
pub(crate) fn find_rows<'s, R: Runner, T: Target, P: Progress>(
    machine: &Machine<'_, R>,
    target: &mut T,
    system: &'s Arc<System>,
    allowed: &'s [bool],
    options: &Options,
    progress: &mut P,
) -> Result<AllFound, RunFault>
    requires can_run { R.can_run }
    requires working { T.has_failed target.old ≡ false }
    ensures ok { IfOk result (IsAllFound (arc_value system.now) allowed.now options.now (T.contents target.old) (T.contents target.new)) }
    ensures working { OnOk result (T.has_failed target.new ≡ false) }
    ensures fault { IfErr result
        (IsWriteFault (T.contents target.old) (T.contents target.new) (T.has_failed target.new) (text_of_rows (arc_value system.now) allowed.now options.now)) }
{
    if options.show == Show::Findings && system.parts().chains.is_empty() {
        find_by_core(machine.alloc, target, system, allowed, options, progress)
    } else {
        find_merged(machine, target, system, allowed, options, progress)
    }
}

/// `find_rows` if only findings are shown, and there is no chain: each core looks at its rows
/// itself, and no row is kept.
fn find_by_core<'s, T: Target, P: Progress>(
    alloc: Global,
    target: &mut T,
    system: &'s Arc<System>,
    allowed: &'s [bool],
    options: &Options,
    progress: &mut P,
) -> Result<AllFound, RunFault>
    requires { (T.has_failed target.old ≡ false) × (options.now.show ≡ show.Findings) × ((arc_value system.now).chains ≡ []) }
    ensures ok { IfOk result (IsAllFound (arc_value system.now) allowed.now options.now (T.contents target.old) (T.contents target.new)) }
    ensures working { OnOk result (T.has_failed target.new ≡ false) }
    ensures fault { IfErr result
        (IsWriteFault (T.contents target.old) (T.contents target.new) (T.has_failed target.new) (text_of_rows (arc_value system.now) allowed.now options.now)) }
{
    schedules_are_in_order();
    let _parts = system.parts();
    let mut text = head(alloc, options, system)?;
    let lines = Lines::new(alloc, target);
    let mut page = FoundLines {
        lines,
        text: &mut text,
        format: options.format,
        system,
        progress,
    };
    match look(alloc, system, allowed, options.horizon, &mut page) {
        Ok(found) => Ok(found_with(alloc, found, text)),
        Err(FlowFault::NoMemory) => Err(RunFault::Sim(SimFault::NoMemory)),
        Err(FlowFault::Sink) => Err(refusal(page.lines.is_out_of_memory)),
    }
}

/// `find_rows` whatever is shown: the rows of all cores are merged into one order.
fn find_merged<'s, R: Runner, T: Target, P: Progress>(
    machine: &Machine<'_, R>,
    target: &mut T,
    system: &'s Arc<System>,
    allowed: &'s [bool],
    options: &Options,
    progress: &mut P,
) -> Result<AllFound, RunFault>
    requires can_run { R.can_run }
    requires working { T.has_failed target.old ≡ false }
    ensures ok { IfOk result (IsAllFound (arc_value system.now) allowed.now options.now (T.contents target.old) (T.contents target.new)) }
    ensures working { OnOk result (T.has_failed target.new ≡ false) }
    ensures fault { IfErr result
        (IsWriteFault (T.contents target.old) (T.contents target.new) (T.has_failed target.new) (text_of_rows (arc_value system.now) allowed.now options.now)) }
{
    schedules_are_in_order();
    let _parts = system.parts();
    let seen = find_in_rows(machine, target, system, allowed, options, progress)?;
    all_found(machine.alloc, system, options.horizon, seen)
}

/// Watches the merged rows of a system, whatever is shown.
fn find_in_rows<'s, R: Runner, T: Target, P: Progress>(
    machine: &Machine<'_, R>,
    target: &mut T,
    system: &'s Arc<System>,
    allowed: &'s [bool],
    options: &Options,
    progress: &mut P,
) -> Result<Seen, RunFault>
    requires can_run { R.can_run }
    requires working { T.has_failed target.old ≡ false }
    ensures ok { IfOk result (IsAllSeen (arc_value system.now) allowed.now options.now (T.contents target.old) (T.contents target.new)) }
    ensures working { OnOk result (T.has_failed target.new ≡ false) }
    ensures fault { IfErr result
        (IsWriteFault (T.contents target.old) (T.contents target.new) (T.has_failed target.new) (text_of_rows (arc_value system.now) allowed.now options.now)) }
{
    schedules_are_in_order();
    let _parts = system.parts();
    let (runner, alloc) = (machine.runner, machine.alloc);
    let shared = Arc::try_clone(system)?;
    let mut seen = nothing_seen(alloc, system, options)?;
    let lines = Lines::new(alloc, target);
    let mut finder = Finder::new(lines, options, system, allowed, &mut seen, progress);
    let result = runner.schedule_to(alloc, shared, options.horizon, &mut finder);
    match result {
        Ok(()) => Ok(seen),
        Err(FlowFault::NoMemory) => {
            drop(seen);
            Err(RunFault::Sim(SimFault::NoMemory))
        }
        Err(FlowFault::Sink) => Err(refusal(finder.lines.is_out_of_memory)),
    }
}

/// The state before the first row.
fn nothing_seen(alloc: Global, system: &System, options: &Options) -> Result<Seen, NoMemory>
    ensures { IfOk result (λ seen. (seen.watch ≡ watches_of system.now []) × (seen.counts ≡ no_counts)
        × (seen.table ≡ kept_table options.now.show system.now options.now.horizon [])
        × (seen.text.items ≡ head_text options.now.format options.now.show system.now)) }
{
    Ok(Seen {
        watch: no_watches(alloc, system)?,
        counts: Counts::new(),
        table: table_for(alloc, options.show, system, options.horizon)?,
        text: head(alloc, options, system)?,
    })
}

/// What is kept of threads and chains before the first row.
fn no_watches(alloc: Global, system: &System) -> Result<Watches, NoMemory>
    ensures { IfOk result (λ watches. watches ≡ watches_of system.now []) }
{
    Ok(Watches {
        threads: ThreadWatch::new(alloc, system)?,
        chains: ChainWatch::new(alloc, system)?,
    })
}

/// The findings of all rows by core, with the lines that are not written yet. There is no chain.
fn found_with(alloc: Global, found: FoundByCore, text: Vec<u8>) -> AllFound
    ensures counts { result.counts ≡ found.counts }
    ensures unended { result.unended ≡ found.unended }
    ensures judged { (result.rounds ≡ found.rounds) × (result.answers ≡ 0) × (result.unjudged ≡ found.unjudged) }
    ensures text { result.text ≡ text }
    ensures none { (result.due.items ≡ []) × (result.slow ≡ 0) × (result.unanswered.items ≡ []) × (result.kept ≡ None) }
{
    let FoundByCore {
        counts,
        unended,
        rounds,
        unjudged,
    } = found;
    AllFound {
        counts,
        unended,
        due: Vec::new(alloc),
        slow: 0,
        unanswered: Vec::new(alloc),
        rounds,
        answers: 0,
        unjudged,
        kept: None,
        text,
    }
}

/// The findings of all rows that were seen. The only fault is that memory runs out.
fn all_found(
    alloc: Global,
    system: &System,
    horizon: Tick,
    seen: Seen,
) -> Result<AllFound, RunFault>
    ensures text { IfOk result (λ found. found.text ≡ seen.text) }
    ensures counts { IfOk result (λ found. found.counts ≡ seen.counts) }
    ensures due { (past : List TheRow) → seen.watch ≡ watches_of system.now past → IfOk result (λ found. found.due.items ≡ all_due None 0 (chains_of system.now past).each) }
    ensures slow { (past : List TheRow) → seen.watch ≡ watches_of system.now past → IfOk result (λ found. found.slow ≡ all_slow_many (chains_of system.now past).each) }
    ensures unanswered { (past : List TheRow) → seen.watch ≡ watches_of system.now past →
        IfOk result (λ found. found.unanswered.items ≡ all_unanswered system.now past horizon 0 system.now.chains) }
    ensures unended { (past : List TheRow) → seen.watch ≡ watches_of system.now past → UpTo horizon past →
        IfOk result (λ found. found.unended.items ≡ all_at_end system.now past horizon) }
    ensures rounds { (past : List TheRow) → seen.watch ≡ watches_of system.now past → IfOk result (λ found. found.rounds ≡ capped (judged_rounds system.now past)) }
    ensures answers { (past : List TheRow) → seen.watch ≡ watches_of system.now past → IfOk result (λ found. found.answers ≡ all_judged_many (chains_of system.now past).each) }
    ensures unjudged { (past : List TheRow) → seen.watch ≡ watches_of system.now past → UpTo horizon past →
        IfOk result (λ found. found.unjudged.items ≡ all_unjudged system.now past horizon) }
    ensures kept { (asked : TheShow) (past : List TheRow) → seen.watch ≡ watches_of system.now past → seen.table ≡ kept_table asked system.now horizon past →
        IfOk result (λ found. found.kept ≡ kept_of asked system.now horizon past) }
    ensures fault { IfErr result (λ why. why ≡ fault.Sim sim.NoMemory) }
{
    let unended = find_unended(alloc, system, &seen.watch.threads.accounts, horizon)?;
    let due = seen.watch.chains.due(alloc, None)?;
    let unanswered = seen.watch.chains.unanswered(alloc, system, horizon)?;
    let unjudged = all_unjudged(alloc, system.parts(), &seen.watch.threads, horizon)?;
    let slow = seen.watch.chains.slow();
    let answers = seen.watch.chains.judged();
    let ended = &seen.watch.threads.ended;
    let rounds = ended.judged(system.parts().threads.as_slice());
    let Seen {
        watch,
        counts,
        table,
        text,
    } = seen;
    let ThreadWatch { accounts, .. } = watch.threads;
    Ok(AllFound {
        counts,
        unended,
        due,
        slow,
        unanswered,
        rounds,
        answers,
        unjudged,
        kept: kept_with(accounts, table),
        text,
    })
}

/// The state kept for figures, if there is a table.
fn kept_with(watch: Watch, table: Option<Tables>) -> Option<Kept>
    ensures { result ≡ kept_with watch table }
{
    match table {
        Some(table) => Some(Kept { watch, table }),
        None => None,
    }
}

/// The table before the first row, if figures are asked for.
fn table_for(
    alloc: Global,
    show: Show,
    system: &System,
    horizon: Tick,
) -> Result<Option<Tables>, NoMemory>
    ensures { IfOk result (λ table. table ≡ kept_table show system.now horizon []) }
{
    match show {
        Show::Table | Show::Both => Ok(Some(Tables {
            threads: Table::new(alloc, system, horizon)?,
            chains: Tallies::new(alloc, system, horizon)?,
        })),
        Show::Findings | Show::Jobs => Ok(None),
    }
}

/// The first line, if the format has one.
fn head(alloc: Global, options: &Options, system: &System) -> Result<Vec<u8>, NoMemory>
    ensures { IfOk result (λ text. text.items ≡ head_text options.now.format options.now.show system.now) }
{
    let mut text = Vec::new(alloc);
    put_head(&mut text, options.format, options.show, system)?;
    Ok(text)
}

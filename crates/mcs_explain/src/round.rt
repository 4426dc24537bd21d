//! A round of a thread: its place in the schedule, and the lines of its span.
ghost use Rattle.std.specs.Prelude.{◌≡◌, ◌<◌, [], false, length, IfOk, IfErr, OnOk};
ghost use Rattle.std.specs.Arc.{arc_value};
ghost use Rattle.std.specs.Io.KnownBytes.{Appends};
ghost use Rattle.mcs_core.specs.Clock.{schedule};
ghost use Rattle.mcs_verdict.specs.Findings.{past_of};
ghost use Rattle.mcs_cli.specs.Flow.{AppendsBefore, IsWriteFault};
ghost use Rattle.mcs_why.specs.Account.{account_of};
ghost use Rattle.mcs_why.specs.Spans.{sought};
ghost use Rattle.mcs_explain.specs.Why.{rows_lines, round_text};

use crate::seeker::Seeker;
use crate::teller::{Teller, Told};
use mcs_check_run::{Lines, Machine, Progress, Runner, refusal};
use mcs_check_words::Options;
use mcs_cli::{RunFault, Target, write_text};
use mcs_system::System;
use mcs_team::{FlowFault, SimFault};
use mcs_ticks::ThreadId;
use mcs_verdict::Watch;
use mcs_verdict_laws::schedules_are_in_order;
use mcs_why::{Account, Search, Sought, Span};
use mcs_why_lines::put_account;
use std::sync::Arc;

/// Looks for the round of a thread.
pub(crate) fn find_round<R: Runner, P: Progress>(
    machine: &Machine<'_, R>,
    system: &Arc<System>,
    thread: ThreadId,
    number: u64,
    options: &Options,
    progress: &mut P,
) -> Result<Sought, RunFault>
    requires can_run { R.can_run }
    requires there { thread < length (arc_value system.now).threads }
    ensures found { IfOk result (λ there. there ≡ sought (arc_value system.now) options.now.horizon
        (past_of [] (schedule (arc_value system.now) options.now.horizon)) thread number) }
    ensures fault { IfErr result (λ f. f ≡ RunFault.Sim SimFault.NoMemory) }
{
    schedules_are_in_order();
    let _parts = system.parts();
    let (runner, alloc) = (machine.runner, machine.alloc);
    let shared = Arc::try_clone(system)?;
    let watch = Watch::new(alloc, system)?;
    let search = Search::new(system, thread, number);
    let mut seeker = Seeker::new(watch, search, progress);
    let horizon = options.horizon;
    let result = runner.schedule_to(alloc, shared, horizon, &mut seeker);
    if result.is_err() {
        return Err(RunFault::Sim(SimFault::NoMemory));
    }
    seeker.progress.wipe();
    Ok(seeker.search.sought(&seeker.watch, horizon))
}

/// Writes the rows of a span, the round's times, and who ran meanwhile.
pub(crate) fn write_span<R: Runner, T: Target, P: Progress>(
    machine: &Machine<'_, R>,
    target: &mut T,
    system: &Arc<System>,
    span: &Span,
    options: &Options,
    progress: &mut P,
) -> Result<(), RunFault>
    requires can_run { R.can_run }
    requires working { T.has_failed target.old ≡ false }
    ensures ok { OnOk result (Appends (T.contents target.old) (T.contents target.new)
        (round_text options.now.format (arc_value system.now) span.now (schedule (arc_value system.now) options.now.horizon))) }
    ensures working { OnOk result (T.has_failed target.new ≡ false) }
    ensures fault { IfErr result (IsWriteFault (T.contents target.old) (T.contents target.new) (T.has_failed target.new)
        (round_text options.now.format (arc_value system.now) span.now (schedule (arc_value system.now) options.now.horizon))) }
{
    let told = tell_rows(machine, target, system, span, options, progress);
    progress.wipe();
    let mut told = told?;
    let (text, account) = (&mut told.text, &told.account);
    put_account(machine.alloc, text, options.format, system, span, account)?;
    write_text(target, told.text.as_slice())
}

/// Writes the lines of a span's rows as they come, and counts who ran. The last lines are returned,
/// not yet written.
fn tell_rows<R: Runner, T: Target, P: Progress>(
    machine: &Machine<'_, R>,
    target: &mut T,
    system: &Arc<System>,
    span: &Span,
    options: &Options,
    progress: &mut P,
) -> Result<Told, RunFault>
    requires can_run { R.can_run }
    requires working { T.has_failed target.old ≡ false }
    ensures ok { IfOk result (λ told. AppendsBefore (T.contents target.old) (T.contents target.new)
        (rows_lines options.now.format (arc_value system.now) span.now (schedule (arc_value system.now) options.now.horizon)) told.text.items) }
    ensures account { IfOk result (λ told. told.account ≡ account_of (length (arc_value system.now).threads) span.now.core span.now.from span.now.to
        (past_of [] (schedule (arc_value system.now) options.now.horizon))) }
    ensures working { OnOk result (T.has_failed target.new ≡ false) }
    ensures fault { IfErr result (IsWriteFault (T.contents target.old) (T.contents target.new) (T.has_failed target.new)
        (rows_lines options.now.format (arc_value system.now) span.now (schedule (arc_value system.now) options.now.horizon))) }
{
    schedules_are_in_order();
    let _parts = system.parts();
    let (runner, alloc) = (machine.runner, machine.alloc);
    let shared = Arc::try_clone(system)?;
    let account = Account::new(alloc, system, span)?;
    let text = Vec::new(alloc);
    let mut told = Told { account, text };
    let lines = Lines::new(alloc, target);
    let mut teller = Teller::new(lines, options.format, system, &mut told, progress);
    let result = runner.schedule_to(alloc, shared, options.horizon, &mut teller);
    match result {
        Ok(()) => Ok(told),
        Err(FlowFault::NoMemory) => Err(RunFault::Sim(SimFault::NoMemory)),
        Err(FlowFault::Sink) => Err(refusal(teller.lines.is_out_of_memory)),
    }
}

//! An answer of a chain: its place in the schedule, and the lines of its way.
ghost use Rattle.std.specs.Prelude.{◌≡◌, [], false, IfOk, IfErr, OnOk};
ghost use Rattle.std.specs.Arc.{arc_value};
ghost use Rattle.std.specs.Io.KnownBytes.{Appends};
ghost use Rattle.mcs_core.specs.Clock.{schedule};
ghost use Rattle.mcs_verdict.specs.Findings.{past_of};
ghost use Rattle.mcs_cli.specs.Flow.{IsWriteFault};
ghost use Rattle.mcs_way.specs.Sought.{sought};
ghost use Rattle.mcs_explain.specs.Why.{answer_text};

use crate::answer_seeker::AnswerSeeker;
use crate::follower::Follower;
use crate::legs::put_answer_way;
use mcs_chain::{Answer, ChainId};
use mcs_check_run::{Machine, Progress, Runner};
use mcs_check_words::Options;
use mcs_cli::{RunFault, Target, write_text};
use mcs_system::System;
use mcs_team::SimFault;
use mcs_verdict_laws::schedules_are_in_order;
use mcs_way::{Search, Sought, Trail};
use std::sync::Arc;

/// Looks for an answer of the chain.
pub(crate) fn find_answer<R: Runner, P: Progress>(
    machine: &Machine<'_, R>,
    system: &Arc<System>,
    chain: ChainId,
    number: u64,
    options: &Options,
    progress: &mut P,
) -> Result<Sought, RunFault>
    requires can_run { R.can_run }
    ensures found { IfOk result (λ there. there ≡ sought (arc_value system.now) chain number
        (past_of [] (schedule (arc_value system.now) options.now.horizon))) }
    ensures fault { IfErr result (λ f. f ≡ RunFault.Sim SimFault.NoMemory) }
{
    let (runner, alloc) = (machine.runner, machine.alloc);
    let shared = Arc::try_clone(system)?;
    let search = Search::new(alloc, system, chain, number)?;
    let mut seeker = AnswerSeeker::new(alloc, system, search, progress);
    let result = runner.schedule_to(alloc, shared, options.horizon, &mut seeker);
    if result.is_err() {
        return Err(RunFault::Sim(SimFault::NoMemory));
    }
    seeker.progress.wipe();
    Ok(seeker.search.sought())
}

/// Writes the way of an answer.
pub(crate) fn write_way<R: Runner, T: Target, P: Progress>(
    machine: &Machine<'_, R>,
    target: &mut T,
    system: &Arc<System>,
    answer: &Answer,
    options: &Options,
    progress: &mut P,
) -> Result<(), RunFault>
    requires can_run { R.can_run }
    requires working { T.has_failed target.old ≡ false }
    ensures ok { OnOk result (Appends (T.contents target.old) (T.contents target.new)
        (answer_text options.now.format (arc_value system.now) answer.now (schedule (arc_value system.now) options.now.horizon))) }
    ensures working { OnOk result (T.has_failed target.new ≡ false) }
    ensures fault { IfErr result (IsWriteFault (T.contents target.old) (T.contents target.new) (T.has_failed target.new)
        (answer_text options.now.format (arc_value system.now) answer.now (schedule (arc_value system.now) options.now.horizon))) }
{
    let text = way_lines(machine, system, answer, options, progress)?;
    write_text(target, text.as_slice())
}

/// The lines of the way of an answer, which a second run finds.
fn way_lines<R: Runner, P: Progress>(
    machine: &Machine<'_, R>,
    system: &Arc<System>,
    answer: &Answer,
    options: &Options,
    progress: &mut P,
) -> Result<Vec<u8>, RunFault>
    requires can_run { R.can_run }
    ensures lines { IfOk result (λ text. text.items
        ≡ answer_text options.now.format (arc_value system.now) answer.now (schedule (arc_value system.now) options.now.horizon)) }
    ensures fault { IfErr result (λ f. f ≡ RunFault.Sim SimFault.NoMemory) }
{
    schedules_are_in_order();
    let _parts = system.parts();
    let (runner, alloc) = (machine.runner, machine.alloc);
    let shared = Arc::try_clone(system)?;
    let trail = Trail::new(alloc, system, answer)?;
    let mut follower = Follower::new(alloc, system, trail, progress);
    let result = runner.schedule_to(alloc, shared, options.horizon, &mut follower);
    if result.is_err() {
        return Err(RunFault::Sim(SimFault::NoMemory));
    }
    follower.progress.wipe();
    let mut text = Vec::new(alloc);
    let way = follower.trail.way();
    put_answer_way(alloc, &mut text, options.format, system, answer, way)?;
    Ok(text)
}

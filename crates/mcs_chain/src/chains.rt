//! The states that a watch keeps of all chains.
ghost use Rattle.std.specs.Prelude.{◌≡◌, ◌∷◌, ◌++◌, [], List, map, OnOk, IfOk};
ghost use Rattle.mcs_ticks.specs.declared.row.Row.{Row as TheRow};
ghost use Rattle.mcs_system.specs.System.{System as TheSystem, core_of, thread_part};
ghost use Rattle.mcs_chain.specs.Answers.{gone_after};
ghost use Rattle.mcs_chain.specs.Found.{all_unanswered, found_at};
ghost use Rattle.mcs_chain.specs.Moves.{moves};
ghost use Rattle.mcs_chain.specs.Watch.{all_due, all_judged_many, all_slow_many, one_of};
ghost use Rattle.mcs_chain.specs.stored.Still.{are_still, have_late};

use crate::moves::Move;
use crate::one::One;
use crate::{ChainId, Finding, Found, found};
use mcs_system::{ChainPart, SystemParts};
use mcs_ticks::{ContextId, CoreId, NoMemory, Row, Tick};
use std::alloc::Global;

/// The state of each chain before the first row.
pub(crate) fn all_new(alloc: Global, parts: &SystemParts) -> Result<Vec<One>, NoMemory>
    ensures { IfOk result (λ each. each.items ≡ map (λ chain. one_of parts.now chain []) parts.now.chains) }
{
    let mut each = Vec::new(alloc);
    for _number in 0..parts.chains.len() {
        each.push(One::new(alloc, parts)?)?;
    }
    Ok(each)
}

/// Whether a quiet row leaves all as it is.
#[inline(always)]
pub(crate) fn are_still(each: &[One]) -> bool
    ensures { result ≡ are_still each.now }
{
    for one in each {
        if !one.is_still() {
            return false;
        }
    }
    true
}

/// Whether a slow answer has the moment of the latest row.
#[inline(always)]
pub(crate) fn have_late(each: &[One]) -> bool
    ensures { result ≡ have_late each.now }
{
    for one in each {
        if !one.late.is_empty() {
            return true;
        }
    }
    false
}

/// Each chain takes one row more.
pub(crate) fn all_see(
    alloc: Global,
    each: &mut [One],
    chains: &[ChainPart],
    row: &Row,
    moved: &Move,
) -> Result<(), NoMemory>
    ensures { (system : TheSystem) (past : List TheRow) → each.old ≡ map (λ chain. one_of system chain past) chains.now →
        moved.now ≡ moves system (gone_after system past) row.now →
        OnOk result (each.new ≡ map (λ chain. one_of system chain (row.now ∷ past)) chains.now) }
{
    for i in 0..each.len() {
        if i < chains.len() {
            each[i].see(alloc, &chains[i], row, moved)?;
        }
    }
    Ok(())
}

/// The slow answers that are due, chain by chain.
pub(crate) fn due_of(
    alloc: Global,
    before: &Option<Tick>,
    each: &[One],
) -> Result<Vec<Found>, NoMemory>
    ensures { IfOk result (λ due. due.items ≡ all_due before.now 0 each.now) }
{
    let mut due = Vec::new(alloc);
    for (number, one) in each.iter().enumerate() {
        one.put_due(&mut due, before, ChainId(number))?;
    }
    Ok(due)
}

/// How many slow answers there are.
pub(crate) fn many_of(each: &[One]) -> u64
    ensures { result ≡ all_slow_many each.now }
{
    let mut many: u64 = 0;
    for one in each {
        many = many.saturating_add(one.slow);
    }
    many
}

/// How many answers are judged.
pub(crate) fn judged_of(each: &[One]) -> u64
    ensures { result ≡ all_judged_many each.now }
{
    let mut many: u64 = 0;
    for one in each {
        many = many.saturating_add(one.judged);
    }
    many
}

/// The findings at the horizon.
pub(crate) fn unanswered_of(
    alloc: Global,
    parts: &SystemParts,
    horizon: Tick,
    each: &[One],
) -> Result<Vec<Found>, NoMemory>
    ensures { (past : List TheRow) → each.now ≡ map (λ chain. one_of parts.now chain past) parts.now.chains →
        IfOk result (λ found. found.items ≡ all_unanswered parts.now past horizon 0 parts.now.chains) }
{
    let mut found = Vec::new(alloc);
    for (number, one) in each.iter().enumerate() {
        if let Some(chain) = parts.chains.as_slice().get(number) {
            let finding = found::unanswered_of(chain.deadline, horizon, one.origins.unanswered());
            let core = core_of(parts, chain);
            keep_found(&mut found, horizon, core, ChainId(number), finding)?;
        }
    }
    Ok(found)
}

/// Appends the finding, if there is one.
fn keep_found(
    found: &mut Vec<Found>,
    moment: Tick,
    core: CoreId,
    chain: ChainId,
    finding: Option<Finding>,
) -> Result<(), NoMemory>
    ensures { OnOk result (found.new.items ≡ found.old.items ++ found_at moment core chain finding) }
{
    let Some(finding) = finding else {
        return Ok(());
    };
    found.push(Found {
        moment,
        core,
        chain,
        finding,
    })?;
    Ok(())
}

/// The core of the thread that answers.
fn core_of(parts: &SystemParts, chain: &ChainPart) -> CoreId
    ensures { result ≡ core_of parts.now (thread_part parts.now chain.now.thread) }
{
    match parts.threads.as_slice().get(chain.thread.0) {
        Some(part) => parts.core_of_thread(part),
        None => parts.core_of_context(ContextId(0)),
    }
}

//! Unjudged threads.
ghost use Rattle.std.specs.Prelude.{◌≡◌, ◌<◌, ◌++◌, List, length, IfOk};
ghost use Rattle.std.specs.Option.{option_to_list};
ghost use Rattle.mcs_ticks.specs.declared.row.Row.{Row as TheRow};
ghost use Rattle.mcs_system.specs.System.{System as TheSystem, thread_part};
ghost use Rattle.mcs_verdict.specs.Findings.{UpTo};
ghost use Rattle.mcs_verdict.specs.Watch.{watch_of};
ghost use Rattle.mcs_check.specs.Judged.{all_unjudged, first_activated, is_unjudged, unjudged};
ghost use Rattle.mcs_check.specs.stored.Threads.{threads_of};

use crate::thread_watch::ThreadWatch;
use mcs_check_lines::Unjudged;
use mcs_system::{SystemParts, ThreadPart};
use mcs_ticks::{NoMemory, ThreadId, Tick};
use mcs_verdict::{Watch, first_wait};
use std::alloc::Global;

/// The tick at which the thread's first round was activated, if none ended and it is under way.
fn first_activated(watch: &Watch, horizon: Tick, thread: ThreadId, part: &ThreadPart) -> Option<u64>
    ensures { (system : TheSystem) (past : List TheRow) → watch.now ≡ watch_of system past → UpTo horizon past → thread < length system.threads →
        part.now ≡ thread_part system thread → result ≡ first_activated system past horizon thread }
{
    match (watch.activated(horizon, thread), first_wait(part)) {
        (Some(activated), _) => Some(activated.get()),
        (None, None) => Some(horizon.get()),
        (None, Some(_)) => None,
    }
}

/// Whether a thread with this deadline is unjudged at the horizon.
fn is_unjudged(watch: &ThreadWatch, horizon: Tick, thread: ThreadId, deadline: u64) -> bool
    ensures { (system : TheSystem) (past : List TheRow) → watch.now ≡ threads_of system past → UpTo horizon past → thread < length system.threads →
        deadline ≡ (thread_part system thread).deadline → result ≡ is_unjudged system past horizon thread }
{
    if deadline == 0 || watch.ended.of(thread) != 0 {
        return false;
    }
    watch.accounts.unended(horizon, thread).is_none()
}

/// Returns the thread, if it is unjudged at the horizon.
pub(crate) fn unjudged(
    parts: &SystemParts,
    watch: &ThreadWatch,
    horizon: Tick,
    thread: ThreadId,
) -> Option<Unjudged>
    ensures { (past : List TheRow) → watch.now ≡ threads_of parts.now past → UpTo horizon past → result ≡ unjudged parts.now past horizon thread }
{
    let Some(part) = parts.threads.as_slice().get(thread.0) else {
        return None;
    };
    if !is_unjudged(watch, horizon, thread, part.deadline) {
        return None;
    }
    Some(Unjudged {
        moment: horizon,
        core: parts.core_of_thread(part),
        thread,
        deadline: part.deadline,
        activated: first_activated(&watch.accounts, horizon, thread, part),
    })
}

/// Appends the thread, if it is unjudged.
pub(crate) fn keep_unjudged(
    all: &mut Vec<Unjudged>,
    unjudged: Option<Unjudged>,
) -> Result<(), NoMemory>
    ensures { IfOk result (λ _. all.new.items ≡ all.old.items ++ option_to_list unjudged) }
{
    if let Some(unjudged) = unjudged {
        all.push(unjudged)?;
    }
    Ok(())
}

/// Returns the threads that are unjudged at the horizon, if the watch has seen all rows.
pub(crate) fn all_unjudged(
    alloc: Global,
    parts: &SystemParts,
    watch: &ThreadWatch,
    horizon: Tick,
) -> Result<Vec<Unjudged>, NoMemory>
    ensures { (past : List TheRow) → watch.now ≡ threads_of parts.now past → UpTo horizon past →
        IfOk result (λ all. all.items ≡ all_unjudged parts.now past horizon) }
{
    let mut all = Vec::new(alloc);
    for number in 0..parts.threads.len() {
        let one = unjudged(parts, watch, horizon, ThreadId(number));
        keep_unjudged(&mut all, one)?;
    }
    Ok(all)
}

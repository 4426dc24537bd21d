//! Findings by core: each core looks at its own rows as its turns make them.
ghost use Rattle.std.specs.Prelude.{◌≡◌, ◌+◌, ◌++◌, ◌≤◌, ◌^◌, ℕ, Bool, List, [], drop, length, replicate, true, IfErr, IfOk, OnOk};
ghost use Rattle.std.specs.Arc.{arc_value};
ghost use Rattle.mcs_ticks.specs.Capped.{capped};
ghost use Rattle.mcs_system.specs.WellFormed.{IsWellFormed};
ghost use Rattle.mcs_core.specs.Clock.{schedule};
ghost use Rattle.mcs_verdict.specs.Findings.{all_at_end, found_at_end, past_of, untaken_at_end};
ghost use Rattle.mcs_check_words.specs.declared.asked.Show.TheVariants.{Findings};
ghost use Rattle.mcs_check.specs.Judged.{all_unjudged, judged_rounds};
ghost use Rattle.mcs_check.specs.stored.Found.{counts_so_far};
ghost use Rattle.mcs_check.specs.stored.Pages.{PutsLines, PutsSome};
ghost use Rattle.mcs_check.specs.stored.Rounds.{are_counted_together, AreWatched};
ghost use Rattle.mcs_check.specs.stored.Rows.{lines_in};
ghost use Rattle.mcs_check.specs.stored.Threads.{ended_of};

use crate::core_watch::CoreWatch;
use crate::ended::Ended;
use crate::found_lines::FoundLines;
use crate::rounds::{opening_cores, take_round};
use crate::unjudged::{keep_unjudged, unjudged};
use mcs_check_lines::{Counts, Unjudged};
use mcs_check_run::Progress;
use mcs_cli::Target;
use mcs_system::{System, SystemParts};
use mcs_team::FlowFault;
use mcs_ticks::{NoMemory, NoteId, ThreadId, Tick};
use mcs_verdict::{Found, cores_are_watched, keep_finding};
use std::alloc::Global;
use std::marker::Brand;
use std::sync::Arc;

/// Rows after which a round of the cores ends and its findings are written.
const ENOUGH: usize = 16_384;

/// The findings of all rows of a run: the counts, and those at the horizon.
#[derive(Drop)]
pub(crate) struct FoundByCore {
    pub(crate) counts: Counts,
    pub(crate) unended: Vec<Found>,
    /// Rounds of threads with a deadline that ended, at most 2^64 - 1.
    pub(crate) rounds: u64,
    /// The threads that are unjudged at the horizon.
    pub(crate) unjudged: Vec<Unjudged>,
}

/// Takes all turns of a system, in rounds, and writes the findings of each round. Returns the
/// findings of all rows.
pub(crate) fn look<T: Target, P: Progress>(
    alloc: Global,
    shared: &Arc<System>,
    allowed: &[bool],
    horizon: Tick,
    lines: &mut FoundLines<'_, '_, '_, '_, T, P>,
) -> Result<FoundByCore, FlowFault>
    requires in_range { horizon ≤ 2 ^ 40 }
    requires run { arc_value shared.now ≡ lines.old.system.now }
    ensures counts { IfOk result (λ found. found.counts ≡ counts_so_far lines.old.system.now allowed.now (past_of [] (schedule lines.old.system.now horizon))) }
    ensures unended { IfOk result (λ found. found.unended.items
        ≡ all_at_end lines.old.system.now (past_of [] (schedule lines.old.system.now horizon)) horizon) }
    ensures rounds { IfOk result (λ found. found.rounds ≡ capped (judged_rounds lines.old.system.now (past_of [] (schedule lines.old.system.now horizon)))) }
    ensures unjudged { IfOk result (λ found. found.unjudged.items ≡ all_unjudged lines.old.system.now (past_of [] (schedule lines.old.system.now horizon)) horizon) }
    ensures put { OnOk result (PutsLines T.contents T.has_failed lines.old
        (lines_in lines.old.system.now allowed.now lines.old.format Findings [] (schedule lines.old.system.now horizon)) true lines.new) }
    ensures fault { IfErr result (λ why. PutsSome T.contents T.has_failed lines.old
        (lines_in lines.old.system.now allowed.now lines.old.format Findings [] (schedule lines.old.system.now horizon)) why lines.new) }
{
    cores_are_watched();
    let system = lines.system;
    let _parts = system.parts();
    let Ok(mut cores) = opening_cores(alloc, shared, horizon) else {
        return Err(FlowFault::NoMemory);
    };
    'rounds: while cores.reached <= horizon {
        let enough = cores.rows.saturating_add(ENOUGH);
        let Ok(next) = take_round::<Brand>(alloc, system, allowed, cores, enough) else {
            return Err(FlowFault::NoMemory);
        };
        let Ok(()) = lines.put(next.found.as_slice()) else {
            return Err(FlowFault::Sink);
        };
        pass_round(lines.progress, next.reached, horizon);
        cores = next;
    }
    let Ok(found) = put_together(alloc, system, horizon, cores.watches.as_slice()) else {
        return Err(FlowFault::NoMemory);
    };
    Ok(found)
}

/// Reports that all rows before `reached` were seen, unless that is the end of the run.
fn pass_round<P: Progress>(progress: &mut P, reached: Tick, horizon: Tick) {
    if reached <= horizon {
        progress.passed(reached);
    }
}

/// Puts together what the cores found, when all turns are taken.
fn put_together(
    alloc: Global,
    system: &System,
    horizon: Tick,
    watches: &[CoreWatch],
) -> Result<FoundByCore, NoMemory>
    requires { length watches.now ≡ system.now.cores }
    ensures counts { IfOk result (λ found. found.counts ≡ are_counted_together watches.now) }
    ensures unended { (allowed : List Bool) (from : ℕ) → AreWatched system.now allowed from (replicate system.now.cores (horizon + 1)) watches.now
        → IfOk result (λ found. found.unended.items ≡ all_at_end system.now (past_of [] (schedule system.now horizon)) horizon) }
    ensures rounds { (allowed : List Bool) (from : ℕ) → AreWatched system.now allowed from (replicate system.now.cores (horizon + 1)) watches.now
        → IfOk result (λ found. found.rounds ≡ capped (judged_rounds system.now (past_of [] (schedule system.now horizon)))) }
    ensures unjudged { (allowed : List Bool) (from : ℕ) → AreWatched system.now allowed from (replicate system.now.cores (horizon + 1)) watches.now
        → IfOk result (λ found. found.unjudged.items ≡ all_unjudged system.now (past_of [] (schedule system.now horizon)) horizon) }
{
    let parts = system.parts();
    let ended = ended(alloc, parts, horizon, watches)?;
    Ok(FoundByCore {
        counts: counted(watches),
        unended: at_end(alloc, system, horizon, watches)?,
        rounds: ended.judged(parts.threads.as_slice()),
        unjudged: unjudged_by_core(alloc, parts, horizon, watches)?,
    })
}

/// The sum of what the cores counted.
fn counted(watches: &[CoreWatch]) -> Counts
    ensures { result ≡ are_counted_together watches.now }
{
    let mut counts = Counts::new();
    for own in watches {
        counts.add_all(&own.counts);
    }
    counts
}

/// The findings at the horizon: by thread, and then by notification.
fn at_end(
    alloc: Global,
    system: &System,
    horizon: Tick,
    watches: &[CoreWatch],
) -> Result<Vec<Found>, NoMemory>
    requires { length watches.now ≡ system.now.cores }
    ensures { (allowed : List Bool) (from : ℕ) → AreWatched system.now allowed from (replicate system.now.cores (horizon + 1)) watches.now
        → IfOk result (λ found. found.items ≡ all_at_end system.now (past_of [] (schedule system.now horizon)) horizon) }
{
    let parts = system.parts();
    let mut found = unended(alloc, parts, horizon, watches)?;
    keep_untaken(&mut found, system, horizon, watches)?;
    Ok(found)
}

/// Appends the words that are untaken at the horizon, in the order of the notifications. Each is
/// asked for on its core.
fn keep_untaken(
    found: &mut Vec<Found>,
    system: &System,
    horizon: Tick,
    watches: &[CoreWatch],
) -> Result<(), NoMemory>
    requires { length watches.now ≡ system.now.cores }
    ensures { (allowed : List Bool) (from : ℕ) → AreWatched system.now allowed from (replicate system.now.cores (horizon + 1)) watches.now
        → IfOk result (λ _. found.new.items ≡ found.old.items
        ++ untaken_at_end system.now (past_of [] (schedule system.now horizon)) horizon 0 system.now.notes) }
{
    cores_are_watched();
    let parts = system.parts();
    for number in 0..parts.notes.len() {
        let core = system.home_of(NoteId(number));
        let finding = watches[core.0]
            .watch
            .accounts
            .untaken(horizon, NoteId(number));
        keep_finding(found, horizon, core, finding)?;
    }
    Ok(())
}

/// The findings of threads at the horizon, in the order of the threads. Each thread is asked for on
/// its core.
fn unended(
    alloc: Global,
    parts: &SystemParts,
    horizon: Tick,
    watches: &[CoreWatch],
) -> Result<Vec<Found>, NoMemory>
    requires well_formed { IsWellFormed parts.now }
    requires many { length watches.now ≡ parts.now.cores }
    ensures { (allowed : List Bool) (from : ℕ) → AreWatched parts.now allowed from (replicate parts.now.cores (horizon + 1)) watches.now
        → IfOk result (λ found. found.items ≡ found_at_end parts.now (past_of [] (schedule parts.now horizon)) horizon 0 parts.now.threads) }
{
    cores_are_watched();
    let mut found = Vec::new(alloc);
    for (number, part) in parts.threads.as_slice().iter().enumerate() {
        let core = parts.core_of_thread(part);
        let finding = watches[core.0]
            .watch
            .accounts
            .unended(horizon, ThreadId(number));
        keep_finding(&mut found, horizon, core, finding)?;
    }
    Ok(found)
}

/// How many rounds of each thread ended. Each thread is asked for on its core.
fn ended(
    alloc: Global,
    parts: &SystemParts,
    horizon: Tick,
    watches: &[CoreWatch],
) -> Result<Ended, NoMemory>
    requires well_formed { IsWellFormed parts.now }
    requires many { length watches.now ≡ parts.now.cores }
    ensures { (allowed : List Bool) (from : ℕ) → AreWatched parts.now allowed from (replicate parts.now.cores (horizon + 1)) watches.now
        → IfOk result (λ ended. ended ≡ ended_of (length parts.now.threads) (past_of [] (schedule parts.now horizon))) }
{
    cores_are_watched();
    let mut ended = Ended::new(alloc, 0)?;
    for (number, part) in parts.threads.as_slice().iter().enumerate() {
        let core = parts.core_of_thread(part);
        ended.push(watches[core.0].watch.ended.of(ThreadId(number)))?;
    }
    Ok(ended)
}

/// The threads that are unjudged at the horizon. Each thread is asked for on its core.
fn unjudged_by_core(
    alloc: Global,
    parts: &SystemParts,
    horizon: Tick,
    watches: &[CoreWatch],
) -> Result<Vec<Unjudged>, NoMemory>
    requires well_formed { IsWellFormed parts.now }
    requires many { length watches.now ≡ parts.now.cores }
    ensures { (allowed : List Bool) (from : ℕ) → AreWatched parts.now allowed from (replicate parts.now.cores (horizon + 1)) watches.now
        → IfOk result (λ all. all.items ≡ all_unjudged parts.now (past_of [] (schedule parts.now horizon)) horizon) }
{
    cores_are_watched();
    let mut all = Vec::new(alloc);
    for (number, part) in parts.threads.as_slice().iter().enumerate() {
        let core = parts.core_of_thread(part);
        let one = unjudged(parts, &watches[core.0].watch, horizon, ThreadId(number));
        keep_unjudged(&mut all, one)?;
    }
    Ok(all)
}

ghost use Rattle.std.specs.Prelude.{◌≡◌, List, ◌++◌, [], IfOk, OnErr};
ghost use Rattle.mcs_ticks.specs.declared.row.Row.{Row as TheRow};
ghost use Rattle.mcs_system.specs.System.{System as TheSystem};
ghost use Rattle.mcs_verdict.specs.Findings.{UpTo, InOrder, past_of, found_at, found_in, found_at_end, untaken_at_end, all_at_end, findings};
ghost use Rattle.mcs_verdict.specs.Watch.{watch_of};

use crate::{Finding, Found, Watch};
use mcs_system::{System, SystemParts};
use mcs_ticks::{CoreId, NoMemory, NoteId, Row, ThreadId, Tick};
use std::alloc::Global;

/// Appends the finding, if there is one. `NoMemory` if memory runs out; then `found` is unchanged.
pub fn keep_finding(
    found: &mut Vec<Found>,
    moment: Tick,
    core: CoreId,
    finding: Option<Finding>,
) -> Result<(), NoMemory>
    ensures ok { IfOk result (λ _. found.new.items ≡ found.old.items ++ found_at moment core finding) }
    ensures err { OnErr result (found.new.items ≡ found.old.items) }
{
    if let Some(finding) = finding {
        found.push(Found {
            moment,
            core,
            finding,
        })?;
    }
    Ok(())
}

fn keep_rows(found: &mut Vec<Found>, watch: &mut Watch, rows: &[Row]) -> Result<(), NoMemory>
    ensures { (system : TheSystem) (past : List TheRow) → watch.old ≡ watch_of system past → InOrder past rows.now →
        IfOk result (λ _. (watch.new ≡ watch_of system (past_of past rows.now))
        × (found.new.items ≡ found.old.items ++ found_in system past rows.now)) }
{
    for row in rows {
        let told = watch.see(row);
        keep_finding(found, row.moment, row.core, told)?;
    }
    Ok(())
}

fn keep_unended(
    found: &mut Vec<Found>,
    watch: &Watch,
    parts: &SystemParts,
    horizon: Tick,
) -> Result<(), NoMemory>
    ensures { (past : List TheRow) → watch.now ≡ watch_of parts.now past → UpTo horizon past →
        IfOk result (λ _. found.new.items ≡ found.old.items ++ found_at_end parts.now past horizon 0 parts.now.threads) }
{
    for (number, part) in parts.threads.as_slice().iter().enumerate() {
        let told = watch.unended(horizon, ThreadId(number));
        keep_finding(found, horizon, parts.core_of_thread(part), told)?;
    }
    Ok(())
}

fn keep_untaken(
    found: &mut Vec<Found>,
    watch: &Watch,
    parts: &SystemParts,
    horizon: Tick,
) -> Result<(), NoMemory>
    ensures { (past : List TheRow) → watch.now ≡ watch_of parts.now past →
        IfOk result (λ _. found.new.items ≡ found.old.items ++ untaken_at_end parts.now past horizon 0 parts.now.notes) }
{
    for (number, part) in parts.notes.as_slice().iter().enumerate() {
        let told = watch.untaken(horizon, NoteId(number));
        keep_finding(found, horizon, part.core, told)?;
    }
    Ok(())
}

fn keep_rest(
    found: &mut Vec<Found>,
    watch: &Watch,
    parts: &SystemParts,
    horizon: Tick,
) -> Result<(), NoMemory>
    ensures { (past : List TheRow) → watch.now ≡ watch_of parts.now past → UpTo horizon past →
        IfOk result (λ _. found.new.items ≡ found.old.items ++ all_at_end parts.now past horizon) }
{
    keep_unended(found, watch, parts, horizon)?;
    keep_untaken(found, watch, parts, horizon)
}

/// Returns the findings at the horizon, by thread and then by notification, if `watch` has seen all
/// rows. `NoMemory` if memory runs out.
pub fn find_unended(
    alloc: Global,
    system: &System,
    watch: &Watch,
    horizon: Tick,
) -> Result<Vec<Found>, NoMemory>
    ensures { (past : List TheRow) → watch.now ≡ watch_of system.now past → UpTo horizon past →
        IfOk result (λ found. found.items ≡ all_at_end system.now past horizon) }
{
    let mut found = Vec::new(alloc);
    keep_rest(&mut found, watch, system.parts(), horizon)?;
    Ok(found)
}

/// Returns the findings of a run up to the horizon, each once: those of the rows in order, then
/// those at the horizon, by thread and then by notification. Requires rows in the order of their
/// times, up to the horizon. `NoMemory` if memory runs out.
pub fn find_all(
    alloc: Global,
    system: &System,
    horizon: Tick,
    rows: &[Row],
) -> Result<Vec<Found>, NoMemory>
    requires in_order { InOrder [] rows.now }
    requires in_time { UpTo horizon (past_of [] rows.now) }
    ensures { IfOk result (λ found. found.items ≡ findings system.now horizon rows.now) }
{
    let mut watch = Watch::new(alloc, system)?;
    let mut found = Vec::new(alloc);
    keep_rows(&mut found, &mut watch, rows)?;
    keep_rest(&mut found, &watch, system.parts(), horizon)?;
    Ok(found)
}

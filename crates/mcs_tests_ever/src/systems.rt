//! Systems that several tests share, and the calls of a check on a system.
ghost use Rattle.std.specs.Prelude.{◌≤◌, ◌^◌, IfOk};

use mcs_ever::closed_sets;
use mcs_ever_chain::{ChainTold, tell_chains, told_sets_recur};
use mcs_ever_search::{Repeats, find_repeats};
use mcs_ever_told::{Line, LineFormat, Told, put_lines, tell_all};
use mcs_load::load;
use mcs_system::System;
use mcs_ticks::Tick;
use std::alloc::Global;
use std::sync::Arc;
use std::test::Fail;

/// A loop that computes for 2 ticks in each period of 10, and then yields.
pub(crate) const YIELDS: &str = r#"
version = 1
cores = 1
delay = 1
context = [{ name = "a", core = 0, budget = 3, period = 10 }]
thread = [{ name = "Loop", context = "a", priority = 9, deadline = 5, script = ["compute 2", "yield"] }]
"#;

/// A clock on core 1 that signals a loop on core 0 once in each period of 10.
pub(crate) const CLOCK: &str = r#"
version = 1
cores = 2
delay = 1
context = [{ name = "a", core = 0, budget = 4, period = 10 }, { name = "clock", core = 1, budget = 1, period = 10 }]
note = [{ name = "tick", core = 0 }]
thread = [
    { name = "Loop", context = "a", priority = 9, deadline = 5, script = ["wait tick", "compute 2"] },
    { name = "Clock", context = "clock", priority = 9, script = ["signal tick 1"] },
]
"#;

/// A thread that computes for one tick in all.
pub(crate) const RESTS: &str = r#"
version = 1
cores = 1
delay = 1
context = [{ name = "a", core = 0, budget = 3, period = 10 }]
thread = [{ name = "Once", context = "a", priority = 9, rounds = 1, script = ["compute 1"] }]
"#;

/// A time of a run.
fn moment(ticks: u64) -> Result<Tick, Fail>
    ensures { IfOk result (λ moment. moment ≤ 2 ^ 40) }
{
    let moment = Tick::new(ticks).ok_or("a moment")?;
    if moment.get() > 1_099_511_627_776 {
        return Err(Fail::from("a moment of a run"));
    }
    Ok(moment)
}

/// All lines, in words.
fn written(alloc: Global, system: &System, told: &[Told]) -> Result<Vec<u8>, Fail> {
    let mut text = Vec::new(alloc);
    for one in told {
        put_lines(
            alloc,
            &mut text,
            LineFormat::Text,
            system,
            one.lines.as_slice(),
        )?;
    }
    Ok(text)
}

/// The results of a check for all time of the system in this file, up to this horizon. No signal
/// may be lost.
pub(crate) fn told(alloc: Global, text: &str, horizon: u64) -> Result<Vec<Told>, Fail> {
    let horizon = moment(horizon)?;
    let system = load(alloc, text.as_bytes())?;
    let shared = Arc::new(alloc, system)?;
    Ok(tell_all(alloc, shared, &[], horizon)?)
}

/// The results of all chains, by those of the sets of cores.
pub(crate) fn chains(alloc: Global, text: &str, horizon: u64) -> Result<Vec<ChainTold>, Fail> {
    let horizon = moment(horizon)?;
    let system = load(alloc, text.as_bytes())?;
    let shared = Arc::new(alloc, system)?;
    let again = Arc::try_clone(&shared)?;
    told_sets_recur();
    let sets = tell_all(alloc, shared, &[], horizon)?;
    Ok(tell_chains(alloc, again, sets.as_slice(), horizon)?)
}

/// The results as lines of words.
pub(crate) fn lines(alloc: Global, text: &str, horizon: u64) -> Result<Vec<u8>, Fail> {
    let all = told(alloc, text, horizon)?;
    let system = load(alloc, text.as_bytes())?;
    written(alloc, &system, all.as_slice())
}

/// Whether the result has this line.
pub(crate) fn has(told: &Told, line: Line) -> bool {
    told.lines.as_slice().iter().any(|one| *one == line)
}

/// The period of a set of cores; 0 if no recurrence was found.
pub(crate) fn period(told: &Told) -> u64 {
    match told.period {
        Some(period) => period.ticks,
        None => 0,
    }
}

/// Returns the recurrence of each core's smallest closed set, by the file with this text.
pub(crate) fn repeats_up_to(
    alloc: Global,
    text: &str,
    horizon: u64,
) -> Result<Vec<Option<Repeats>>, Fail> {
    let horizon = moment(horizon)?;
    let system = load(alloc, text.as_bytes())?;
    let groups = closed_sets(alloc, &system)?;
    let shared = Arc::new(alloc, system)?;
    Ok(find_repeats(alloc, shared, groups.as_slice(), horizon)?)
}

/// The time from which on the smallest set with a core recurs, and its period; 0 and 0 if no
/// recurrence was found.
pub(crate) fn repeats_of(found: &[Option<Repeats>], core: usize) -> (u64, u64) {
    if core >= found.len() {
        return (0, 0);
    }
    match &found[core] {
        Some(repeats) => (repeats.from.get(), repeats.shifts.by),
        None => (0, 0),
    }
}

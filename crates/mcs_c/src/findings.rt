//! The findings in a schedule as numbers, in an array of the caller.
ghost use Rattle.std.specs.Prelude.{◌≡◌, ◌≤◌, ◌<◌, ◌^◌, ◌⊎◌, ◌↔◌, IfOk, Ok, Err, length, map, take, drop};
ghost use Rattle.mcs_core.specs.Clock.{schedule};
ghost use Rattle.mcs_load.specs.declared.fault.LoadFault.{LoadFault};
ghost use Rattle.mcs_cli.specs.Run.{loaded};
ghost use Rattle.mcs_system.specs.System.{System as TheSystem};
ghost use Rattle.mcs_verdict.specs.Findings.{findings};
ghost use Rattle.mcs_c.specs.Findings.{finding_of, stood_of};

use crate::numbers::NONE;
use mcs_load::{FaultKind, load};
use mcs_system::System;
use mcs_team::simulate_alone;
use mcs_ticks::{NoMemory, Tick};
use mcs_verdict::{Finding, Found, Stood, find_all};
use mcs_verdict_laws::schedules_are_in_order;
use std::alloc::Global;
use std::sync::Arc;

/// The ticks in which a thread stood in each way, as C has them.
#[repr(C)]
#[derive(Clone, Copy, Debug, PartialEq, Eq)]
pub struct NumberedStood {
    pub ready: u64,
    pub running: u64,
    pub throttled: u64,
    pub blocked: u64,
    pub server: u64,
}

/// A finding in numbers, as C has it. Instead of a number that its kind does not have it has 0,
/// instead of a thread or a note `NONE`.
#[repr(C)]
#[derive(Clone, Copy, Debug, PartialEq, Eq)]
pub struct NumberedFinding {
    /// The time, in ticks.
    pub moment: u64,
    pub core: u64,
    /// 0 miss, 1 overdue, 2 lost, 3 never, 4 untaken.
    pub kind: u64,
    /// The thread of `miss`, `overdue` and `never`.
    pub thread: u64,
    /// The notification of `lost` and `untaken`.
    pub note: u64,
    /// The number of the round of `miss` and `overdue`, from 1.
    pub number: u64,
    /// The response of `miss`, from its activation; the age of `overdue`, from its activation to
    /// the horizon, and that of `untaken`, from when the word was set.
    pub response: u64,
    /// The deadline of the thread; of `untaken` the greatest of those that may take the word.
    pub deadline: u64,
    /// When the round of `miss` or `overdue` was activated; when the word of `untaken` was set.
    pub activated: u64,
    /// The ticks from its activation until the round before it ended, or the thread started.
    pub queued: u64,
    /// The word of `lost` and `untaken`.
    pub word: u64,
    /// How the thread stood in the round of `miss` or `overdue` from then on, or from its
    /// activation if that came later.
    pub stood: NumberedStood,
}

fn in_numbers(stood: Stood) -> NumberedStood
    ensures { result ≡ stood_of stood }
{
    NumberedStood {
        ready: stood.ready,
        running: stood.running,
        throttled: stood.throttled,
        blocked: stood.blocked,
        server: stood.server,
    }
}

/// A finding of this kind, without other numbers.
fn plain(found: &Found, kind: u64) -> NumberedFinding
    ensures { result ≡ record {
      moment = found.now.moment;
      core = found.now.core;
      kind = kind;
      thread = NONE;
      note = NONE;
      number = 0;
      response = 0;
      deadline = 0;
      activated = 0;
      queued = 0;
      word = 0;
      stood = record { ready = 0; running = 0; throttled = 0; blocked = 0; server = 0 };
    } }
{
    NumberedFinding {
        moment: found.moment.get(),
        core: found.core.0 as u64,
        kind,
        thread: NONE,
        note: NONE,
        number: 0,
        response: 0,
        deadline: 0,
        activated: 0,
        queued: 0,
        word: 0,
        stood: NumberedStood {
            ready: 0,
            running: 0,
            throttled: 0,
            blocked: 0,
            server: 0,
        },
    }
}

/// A finding in numbers.
fn finding_in_numbers(found: &Found) -> NumberedFinding
    ensures { result ≡ finding_of found.now }
{
    match found.finding {
        Finding::Miss {
            thread,
            number,
            response,
            deadline,
            activated,
            queued,
            stood,
        } => NumberedFinding {
            thread: thread.0 as u64,
            number,
            response,
            deadline,
            activated: activated.get(),
            queued,
            stood: in_numbers(stood),
            ..plain(found, 0)
        },
        Finding::Overdue {
            thread,
            number,
            age,
            deadline,
            activated,
            queued,
            stood,
        } => NumberedFinding {
            thread: thread.0 as u64,
            number,
            response: age,
            deadline,
            activated: activated.get(),
            queued,
            stood: in_numbers(stood),
            ..plain(found, 1)
        },
        Finding::Untaken {
            note,
            word,
            age,
            deadline,
            set,
        } => NumberedFinding {
            note: note.0 as u64,
            response: age,
            deadline,
            activated: set.get(),
            word: u64::from(word),
            ..plain(found, 4)
        },
        Finding::Lost { note, word } => NumberedFinding {
            note: note.0 as u64,
            word: u64::from(word),
            ..plain(found, 2)
        },
        Finding::Never { thread, deadline } => NumberedFinding {
            thread: thread.0 as u64,
            deadline,
            ..plain(found, 3)
        },
    }
}

/// Writes findings to the start of an array.
fn fill(all: &[Found], room: &mut [NumberedFinding])
    requires { length all.now ≤ length room.old }
    ensures filled { take (length all.now) room.new ≡ map finding_of all.now }
    ensures behind { drop (length all.now) room.new ≡ drop (length all.now) room.old }
{
    for (i, found) in all.iter().enumerate() {
        room[i] = finding_in_numbers(found);
    }
}

/// All findings of threads and notifications in a system's schedule, made on this thread.
fn findings_of(alloc: Global, system: System, horizon: Tick) -> Result<Vec<Found>, NoMemory>
    requires { horizon ≤ 2 ^ 40 }
    ensures { IfOk result (λ found. found.items ≡ findings system horizon (schedule system horizon)) }
{
    schedules_are_in_order();
    let _parts = system.parts();
    let system = Arc::new(alloc, system)?;
    let shared = Arc::try_clone(&system)?;
    let Ok(whole) = simulate_alone(alloc, shared, horizon) else {
        return Err(NoMemory);
    };
    find_all(alloc, &system, horizon, whole.rows.as_slice())
}

/// Finds what is wrong with the threads and notifications of the system that a text describes, up
/// to a horizon of at most 2^40 ticks, on the calling thread only: those of the rows in order, then
/// those at the horizon: by thread, and then by notification.
///
/// They are written to the start of an array, and their number to `many_of`. Later findings of the
/// array stay as they were. The result is one of these codes:
/// - 0: all findings.
/// - 1: the text is not a system. `many_of` is 0.
/// - 2: the array is too small. `many_of` is the number needed, and the array is unchanged.
/// - 3: the horizon is invalid. `many_of` is 0.
/// - 4: out of memory. `many_of` is 0.
#[unsafe(no_mangle)]
pub extern "C" fn mcs_findings(
    alloc: Global,
    text: &[u8],
    horizon: u64,
    room: &mut [NumberedFinding],
    many_of: &mut usize,
) -> u32
    ensures all { result ≡ 0 → (system : TheSystem) × (loaded text.now ≡ Ok system)
        × (take many_of.new room.new ≡ map finding_of (findings system horizon (schedule system horizon))) }
    ensures fault { result ≡ 1 → (f : LoadFault) × (loaded text.now ≡ Err f) }
    ensures needs { result ≡ 2 → length room.new < many_of.new }
    ensures needs_all { result ≡ 2 → (system : TheSystem) × (loaded text.now ≡ Ok system)
        × (many_of.new ≡ length (findings system horizon (schedule system horizon))) }
    ensures wrong { (result ≡ 3) ↔ (2 ^ 40 < horizon) }
    ensures codes { result ≤ 4 }
    ensures fits { result ≡ 0 → many_of.new ≤ length room.new }
    ensures behind { result ≡ 0 → drop many_of.new room.new ≡ drop many_of.new room.old }
    ensures unchanged { 1 ≤ result → room.new ≡ room.old }
    ensures nothing { ((result ≡ 1) ⊎ (3 ≤ result)) → many_of.new ≡ 0 }
    ensures room { length room.new ≡ length room.old }
{
    *many_of = 0;
    let Some(until) = Tick::new(horizon) else {
        return 3;
    };
    if horizon > 1 << 40 {
        return 3;
    }
    let system = match load(alloc, text) {
        Ok(system) => system,
        Err(fault) if fault.kind == FaultKind::NoMemory => return 4,
        Err(_) => return 1,
    };
    let Ok(all) = findings_of(alloc, system, until) else {
        return 4;
    };
    *many_of = all.len();
    if all.len() > room.len() {
        return 2;
    }
    fill(all.as_slice(), room);
    0
}

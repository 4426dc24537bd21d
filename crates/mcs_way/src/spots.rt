//! The notifications or the threads that have the origin, by their numbers.
ghost use Rattle.std.specs.Prelude.{◌≡◌, get_or, map, slice_set, None, IfOk};
ghost use Rattle.mcs_way.specs.Trace.{ended_legs, given, taken};
ghost use Rattle.mcs_way.specs.Course.{come_to};

use crate::trace::{Trace, ended_legs, given, join, taken};
use crate::{Carrier, Leg};
use mcs_chain::Taking;
use mcs_system::SystemParts;
use mcs_ticks::{NoMemory, NoteId, ThreadId, Tick};
use mcs_verdict::Stood;
use std::alloc::Global;

fn nowhere() -> Option<Trace>
    ensures { result ≡ None }
{
    None
}

pub(crate) fn none_held(alloc: Global, parts: &SystemParts) -> Result<Vec<Option<Trace>>, NoMemory>
    ensures { IfOk result (λ spots. spots.items ≡ map (λ _. None) parts.now.notes) }
{
    let notes = parts.notes.as_slice();
    Ok(notes.iter().map(|_| nowhere()).collect(alloc)?)
}

pub(crate) fn none_carried(
    alloc: Global,
    parts: &SystemParts,
) -> Result<Vec<Option<Trace>>, NoMemory>
    ensures { IfOk result (λ spots. spots.items ≡ map (λ _. None) parts.now.threads) }
{
    let threads = parts.threads.as_slice();
    Ok(threads.iter().map(|_| nowhere()).collect(alloc)?)
}

/// The origin as a thread's signal carries it.
pub(crate) fn given_by(
    alloc: Global,
    carried: &[Option<Trace>],
    thread: ThreadId,
    stood: Stood,
    moment: Tick,
    signal: (u64, u32),
) -> Result<Option<Trace>, NoMemory>
    ensures { IfOk result (λ trace. trace ≡ given signal.0 signal.1 (Carrier.Thread thread stood) moment (get_or carried.now thread None)) }
{
    if thread.0 < carried.len() {
        let carrier = Carrier::Thread(thread, stood);
        given(alloc, &carried[thread.0], carrier, moment, signal)
    } else {
        Ok(None)
    }
}

/// The origin as a thread takes it from a notification.
pub(crate) fn taken_from(
    alloc: Global,
    held: &[Option<Trace>],
    note: NoteId,
    taking: Taking,
    moment: Tick,
) -> Result<Option<Trace>, NoMemory>
    ensures { IfOk result (λ trace. trace ≡ taken taking note moment (get_or held.now note None)) }
{
    if note.0 < held.len() {
        taken(alloc, &held[note.0], taking, note, moment)
    } else {
        Ok(None)
    }
}

/// The legs of the way on which a thread has the origin when its round ends.
pub(crate) fn way_of(
    alloc: Global,
    carried: &[Option<Trace>],
    thread: ThreadId,
    stood: Stood,
    moment: Tick,
) -> Result<Vec<Leg>, NoMemory>
    ensures { IfOk result (λ legs. legs.items ≡ ended_legs (Carrier.Thread thread stood) moment (get_or carried.now thread None)) }
{
    if thread.0 < carried.len() {
        let carrier = Carrier::Thread(thread, stood);
        ended_legs(alloc, &carried[thread.0], carrier, moment)
    } else {
        Ok(Vec::new(alloc))
    }
}

/// Gives the origin to the carrier with this number.
pub(crate) fn come_to(spots: &mut [Option<Trace>], number: usize, more: Option<Trace>)
    ensures { spots.new ≡ come_to number more spots.old }
{
    if number < spots.len() {
        join(&mut spots[number], more);
    }
}

/// Takes it from the carrier with this number.
pub(crate) fn clear(spots: &mut [Option<Trace>], number: usize)
    ensures { spots.new ≡ slice_set spots.old number None }
{
    if number < spots.len() {
        spots[number] = None;
    }
}

//! Lists of sets of origins: one for each notification, or one for each thread.
ghost use Rattle.std.specs.Prelude.{◌≡◌, [], false, map, get_or, slice_set, OnOk, OnErr, IfOk};
ghost use Rattle.mcs_origins.specs.Sets.{join, given, taken, without};
ghost use Rattle.mcs_chain.specs.stored.Still.{is_none};

use mcs_origins::{Set, Taking};
use mcs_system::SystemParts;
use mcs_ticks::{NoMemory, NoteId, ThreadId, Tick};
use std::alloc::Global;

/// No origins for each notification.
pub(crate) fn none_held(alloc: Global, parts: &SystemParts) -> Result<Vec<Set>, NoMemory>
    ensures { IfOk result (λ sets. sets.items ≡ map (λ _. []) parts.now.notes) }
{
    let notes = parts.notes.as_slice();
    Ok(notes.iter().map(|_| Set::empty()).collect(alloc)?)
}

/// No origins for each thread.
pub(crate) fn none_carried(alloc: Global, parts: &SystemParts) -> Result<Vec<Set>, NoMemory>
    ensures { IfOk result (λ sets. sets.items ≡ map (λ _. []) parts.now.threads) }
{
    let threads = parts.threads.as_slice();
    Ok(threads.iter().map(|_| Set::empty()).collect(alloc)?)
}

/// Returns a copy of the sets.
pub(crate) fn copied(alloc: Global, sets: &[Set]) -> Result<Vec<Set>, NoMemory>
    ensures { IfOk result (λ copy. copy.items ≡ sets.now) }
{
    let mut copy = Vec::with_capacity(alloc, sets.len())?;
    for set in sets {
        copy.push(set.copied(alloc)?)?;
    }
    Ok(copy)
}

/// Whether some of the origins of these sets may have been answered, but for the set with this
/// number.
fn may_have(sets: &[Set], number: usize, answered: &[Tick]) -> bool
    ensures { result ≡ false → map (without answered.now) (slice_set sets.now number []) ≡ slice_set sets.now number [] }
{
    for i in 0..sets.len() {
        if i != number && sets[i].may_have(answered) {
            return true;
        }
    }
    false
}

/// Returns the sets without what was answered.
fn all_without(alloc: Global, sets: &[Set], answered: &[Tick]) -> Result<Vec<Set>, NoMemory>
    ensures { IfOk result (λ left. left.items ≡ map (without answered.now) sets.now) }
{
    let mut left = Vec::with_capacity(alloc, sets.len())?;
    for set in sets {
        left.push(set.without(alloc, answered)?)?;
    }
    Ok(left)
}

/// Drops what was answered from all sets, and leaves nothing in the carried set with this number.
/// If memory runs out, they are unchanged.
fn make_sets(
    alloc: Global,
    held: &mut Vec<Set>,
    carried: &mut Vec<Set>,
    number: usize,
    answered: &[Tick],
) -> Result<(), NoMemory>
    ensures ok { OnOk result ((held.new.items ≡ map (without answered.now) held.old.items)
        × (carried.new.items ≡ slice_set (map (without answered.now) carried.old.items) number [])) }
    ensures err { OnErr result ((held.new.items ≡ held.old.items) × (carried.new.items ≡ carried.old.items)) }
{
    let held_left = all_without(alloc, held, answered)?;
    let mut carried_left = all_without(alloc, carried, answered)?;
    clear(&mut carried_left, number);
    *held = held_left;
    *carried = carried_left;
    Ok(())
}

/// Drops what was answered from all sets, and leaves nothing in the carried set with this number.
/// If memory runs out, they are unchanged. Memory is needed only if another set has such an origin.
pub(crate) fn drop_from_sets(
    alloc: Global,
    held: &mut Vec<Set>,
    carried: &mut Vec<Set>,
    number: usize,
    answered: &[Tick],
) -> Result<(), NoMemory>
    ensures ok { OnOk result ((held.new.items ≡ map (without answered.now) held.old.items)
        × (carried.new.items ≡ map (without answered.now) (slice_set carried.old.items number []))) }
    ensures err { OnErr result ((held.new.items ≡ held.old.items) × (carried.new.items ≡ carried.old.items)) }
{
    if may_have(held, held.len(), answered) || may_have(carried, number, answered) {
        return make_sets(alloc, held, carried, number, answered);
    }
    clear(carried, number);
    Ok(())
}

/// Returns what a signal of the thread carries.
pub(crate) fn given_by(
    alloc: Global,
    carried: &[Set],
    thread: ThreadId,
    places: u64,
    badge: u32,
) -> Result<Set, NoMemory>
    ensures { IfOk result (λ set. set ≡ given places badge (get_or carried.now thread [])) }
{
    if thread.0 < carried.len() {
        carried[thread.0].given(alloc, places, badge)
    } else {
        Ok(Set::empty())
    }
}

/// Returns what a thread takes from a notification.
pub(crate) fn taken_from(
    alloc: Global,
    held: &[Set],
    note: NoteId,
    taking: Taking,
) -> Result<Set, NoMemory>
    ensures { IfOk result (λ set. set ≡ taken taking (get_or held.now note [])) }
{
    if note.0 < held.len() {
        held[note.0].taken(alloc, taking)
    } else {
        Ok(Set::empty())
    }
}

/// Adds the origins of a set to the one with this number.
pub(crate) fn join_to(
    alloc: Global,
    sets: &mut [Set],
    number: usize,
    set: &Set,
) -> Result<(), NoMemory>
    ensures ok { OnOk result (sets.new ≡ slice_set sets.old number (join set.now (get_or sets.old number []))) }
    ensures err { OnErr result (sets.new ≡ sets.old) }
{
    if set.is_empty() {
        return Ok(());
    }
    if number < sets.len() {
        sets[number].join(alloc, set)?;
    }
    Ok(())
}

/// Whether there is no origin in the set with this number.
#[inline(always)]
pub(crate) fn has_none(sets: &[Set], number: usize) -> bool
    ensures { result ≡ is_none (get_or sets.now number []) }
{
    number >= sets.len() || sets[number].is_empty()
}

/// Leaves nothing in the set with this number.
pub(crate) fn clear(sets: &mut [Set], number: usize)
    ensures { sets.new ≡ slice_set sets.old number [] }
{
    if number < sets.len() {
        sets[number] = Set::empty();
    }
}

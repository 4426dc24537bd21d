//! Tests whether the origins of a chain on a group of cores are the earlier ones, but later. A
//! group has a yes or a no for each core.
ghost use Rattle.std.specs.Prelude.{◌≡◌, ◌↔◌, ◌+◌, [], false, map, filter, get_or, IsTrue, IfOk};
ghost use Rattle.mcs_origins.specs.Later.{later_set};
ghost use Rattle.mcs_origins.specs.stored.Stretches.{flat};
ghost use Rattle.mcs_chain.specs.Later.{later_sent, is_within, AreCarriedLater, AreHeldLater, AreLater, StepsAreSame};

use crate::origins::Origins;
use crate::sent::Sent;
use crate::step::{Gone, gone_of};
use mcs_origins::{Set, Stretch, are_stretches_later, is_mark_later};
use mcs_system::SystemParts;
use mcs_ticks::{CoreId, Limits, NoMemory, NoteId, ThreadId};
use std::alloc::Global;

fn is_own(own: &[bool; Limits::CORES], core: CoreId) -> bool
    ensures { result ≡ get_or own.now core false }
{
    core.0 < Limits::CORES && own[core.0]
}

fn is_number_later(before: u64, by: u64, after: u64) -> bool
    ensures { IsTrue result ↔ (after ≡ before + by) }
{
    by <= after && after - by == before
}

fn is_sent_later(before: &Sent, by: u64, after: &Sent) -> bool
    ensures { IsTrue result → after.now ≡ later_sent by before.now }
{
    before.note == after.note
        && before.maker == after.maker
        && is_number_later(before.made, by, after.made)
        && is_mark_later(&before.mark, by, &after.mark)
}

fn are_sent_later(before: &[Sent], by: u64, after: &[Sent]) -> bool
    ensures { IsTrue result → after.now ≡ map (later_sent by) before.now }
{
    if before.len() != after.len() {
        return false;
    }
    for i in 0..after.len() {
        if !is_sent_later(&before[i], by, &after[i]) {
            return false;
        }
    }
    true
}

/// The stretches of the set with this number, the earliest first.
fn stretches_at(sets: &[Set], number: usize) -> &[Stretch]
    ensures { flat result.now ≡ get_or sets.now number [] }
{
    if number < sets.len() {
        sets[number].as_slice()
    } else {
        &[]
    }
}

/// Whether the set with this number has the origins of the earlier one, `by` ticks later.
fn is_set_later(before: &[Set], by: u64, after: &[Set], number: usize) -> bool
    ensures { IsTrue result → get_or after.now number [] ≡ later_set by (get_or before.now number []) }
{
    are_stretches_later(
        stretches_at(before, number),
        by,
        stretches_at(after, number),
    )
}

/// Whether a core of the group made the signal, for a notification of the group.
fn is_within(parts: &SystemParts, own: &[bool; Limits::CORES], sent: &Sent) -> bool
    ensures { result ≡ is_within parts.now (λ core. get_or own.now core false) sent.now }
{
    is_own(own, sent.maker) && is_own(own, parts.core_of_note(sent.note))
}

/// The signals between cores of the group.
fn within(
    alloc: Global,
    parts: &SystemParts,
    own: &[bool; Limits::CORES],
    under_way: &[Sent],
) -> Result<Vec<Sent>, NoMemory>
    ensures { IfOk result (λ all. all.items ≡ filter (is_within parts.now (λ core. get_or own.now core false)) under_way.now) }
{
    let mut all = Vec::new(alloc);
    for sent in under_way {
        if is_within(parts, own, sent) {
            all.push(*sent)?;
        }
    }
    Ok(all)
}

/// Whether each notification of the group holds the origins that it held, `by` ticks later.
fn are_held_later(
    parts: &SystemParts,
    own: &[bool; Limits::CORES],
    before: &[Set],
    by: u64,
    after: &[Set],
) -> bool
    ensures { IsTrue result → AreHeldLater parts.now (λ core. get_or own.now core false) by before.now after.now }
{
    for note in 0..parts.notes.len() {
        if is_own(own, parts.core_of_note(NoteId(note))) && !is_set_later(before, by, after, note) {
            return false;
        }
    }
    true
}

/// Whether each thread of the group carries the origins that it carried, `by` ticks later.
fn are_carried_later(
    parts: &SystemParts,
    own: &[bool; Limits::CORES],
    before: &[Set],
    by: u64,
    after: &[Set],
) -> bool
    ensures { IsTrue result → AreCarriedLater parts.now (λ core. get_or own.now core false) by before.now after.now }
{
    for thread in 0..parts.threads.len() {
        let core = parts.core_of_thread(parts.thread(ThreadId(thread)));
        if is_own(own, core) && !is_set_later(before, by, after, thread) {
            return false;
        }
    }
    true
}

/// Whether the origins of the group are the earlier ones, `by` ticks later.
pub(crate) fn are_later(
    alloc: Global,
    parts: &SystemParts,
    own: &[bool; Limits::CORES],
    before: &Origins,
    by: u64,
    after: &Origins,
) -> Result<bool, NoMemory>
    ensures { IfOk result (λ later. IsTrue later → AreLater parts.now (λ core. get_or own.now core false) by before.now after.now) }
{
    if !are_held_later(parts, own, &before.held, by, &after.held)
        || !are_carried_later(parts, own, &before.carried, by, &after.carried)
    {
        return Ok(false);
    }
    let earlier = within(alloc, parts, own, &before.under_way)?;
    let later = within(alloc, parts, own, &after.under_way)?;
    Ok(are_sent_later(&earlier, by, &later))
}

/// Whether each thread of the group is as far in its script.
pub(crate) fn are_steps_same(
    parts: &SystemParts,
    own: &[bool; Limits::CORES],
    before: &[Gone],
    after: &[Gone],
) -> bool
    ensures { IsTrue result → StepsAreSame parts.now (λ core. get_or own.now core false) before.now after.now }
{
    for thread in 0..parts.threads.len() {
        let id = ThreadId(thread);
        let core = parts.core_of_thread(parts.thread(id));
        if is_own(own, core) && gone_of(after, id) != gone_of(before, id) {
            return false;
        }
    }
    true
}

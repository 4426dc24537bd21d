//! Badges that scripts take from notifications; sources and signals whose badge no script takes.
ghost use Rattle.std.specs.Prelude.{◌≡◌, ℕ, ◌++◌, not, length, get_or, slice_get, fold, map, IfOk};
ghost use Rattle.std.specs.List.{filter_map};
ghost use Rattle.mcs_script.specs.Script.{IsScript, badges_in, ends_handler};
ghost use Rattle.mcs_hints.specs.Numbers.{numbers};
ghost use Rattle.mcs_hints.specs.Handlers.{badges_at_first, first_unheard, taken_from, taken_of, unheard, unheard_at, unread, unread_by, with_item, with_script};

use crate::Hint;
use crate::keep::keep;
use mcs_script::{Item, Script};
use mcs_system::{SourcePart, System, SystemParts, ThreadPart};
use mcs_ticks::{NoMemory, NoteId, SourceId, ThreadId};
use std::alloc::Global;

/// All badges of a word.
const EVERY: u32 = u32::MAX;

/// Returns the badges of a handler that begins with the item, otherwise 0.
fn badges_in(item: Item) -> u32
    ensures { result ≡ badges_in item }
{
    match item {
        Item::On(badges) => badges,
        _ => 0,
    }
}

/// Whether an item that is in no handler follows the first one.
fn has_common_item(items: &[Item]) -> bool
    ensures { result ≡ not (ends_handler (slice_get items.now 1)) }
{
    match items.get(1) {
        Some(item) => !matches!(item, Item::On(_)),
        None => false,
    }
}

/// Returns the badges that a script's first item takes if it waits.
fn badges_at_first(items: &[Item]) -> u32
    ensures { result ≡ badges_at_first items.now }
{
    let badges = items
        .iter()
        .fold(0, |badges, item| badges | badges_in(*item));
    if badges == 0 || has_common_item(items) {
        EVERY
    } else {
        badges
    }
}

/// Adds the badges of an item that takes `badges` if it waits.
fn take_item(taken: &mut [u32], badges: u32, item: Item)
    ensures { (notes : ℕ) (so_far : ℕ → ℕ) → taken.old ≡ map so_far (numbers notes) →
        taken.new ≡ map (λ note. with_item note badges (so_far note) item) (numbers notes) }
{
    if let Item::Wait(note) = item {
        if note.0 < taken.len() {
            taken[note.0] |= badges;
        }
    }
}

fn take_items(taken: &mut [u32], badges: u32, items: &[Item])
    ensures { (notes : ℕ) (so_far : ℕ → ℕ) → taken.old ≡ map so_far (numbers notes) →
        taken.new ≡ map (λ note. fold (with_item note badges) (so_far note) items.now) (numbers notes) }
{
    for item in items {
        take_item(taken, badges, *item);
    }
}

fn take_script(taken: &mut [u32], script: &Script)
    ensures { (notes : ℕ) (so_far : ℕ → ℕ) → taken.old ≡ map so_far (numbers notes) →
        taken.new ≡ map (λ note. with_script note (so_far note) script.now) (numbers notes) }
{
    let items = script.as_slice();
    let (first, later) = items.split_at(1);
    take_items(taken, badges_at_first(items), first);
    take_items(taken, EVERY, later);
}

fn take_threads(taken: &mut [u32], threads: &[ThreadPart])
    ensures { (notes : ℕ) → taken.old ≡ map (λ note. 0) (numbers notes) → taken.new ≡ map (taken_from threads.now) (numbers notes) }
{
    for thread in threads {
        take_script(taken, &thread.script);
    }
}

/// Returns for each notification the badges that scripts take from it, in one pass over all items.
pub(crate) fn taken_badges(alloc: Global, parts: &SystemParts) -> Result<Vec<u32>, NoMemory>
    ensures { IfOk result (λ taken. taken.items ≡ map (taken_from parts.now.threads) (numbers (length parts.now.notes))) }
{
    let mut taken = vec![in alloc; 0; parts.notes.len()]?;
    take_threads(taken.as_mut_slice(), parts.threads.as_slice());
    Ok(taken)
}

/// Returns the badges that are taken from the notification.
fn badges_from(taken: &[u32], note: NoteId) -> u32
    ensures { result ≡ get_or taken.now note 0 }
{
    match taken.get(note.0) {
        Some(badges) => *badges,
        None => 0,
    }
}

/// The hint of a source, by the badges that are taken from its notification.
fn unread(badges: u32, source: SourceId, part: &SourcePart) -> Option<Hint>
    ensures { result ≡ unread_by badges source part.now }
{
    let (note, badge) = (part.note, part.badge);
    if badges == 0 {
        Some(Hint::Unawaited { source, note })
    } else if badges & badge == 0 {
        Some(Hint::Unhandled {
            source,
            note,
            badge,
        })
    } else {
        None
    }
}

pub(crate) fn keep_unread(
    hints: &mut Vec<Hint>,
    system: &System,
    taken: &[u32],
) -> Result<(), NoMemory>
    requires { taken.now ≡ taken_of system.now }
    ensures { IfOk result (λ _. hints.new.items ≡ hints.old.items ++ filter_map (unread system.now) (numbers (length system.now.sources))) }
{
    for (source, part) in system.parts().sources.as_slice().iter().enumerate() {
        let hint = unread(badges_from(taken, part.note), SourceId(source), part);
        keep(hints, hint)?;
    }
    Ok(())
}

/// The hint of an item of the thread.
fn unheard_at(taken: &[u32], thread: ThreadId, item: Item) -> Option<Hint>
    ensures { result ≡ unheard_at taken.now thread item }
{
    match item {
        Item::Signal(note, badge) => {
            let badges = badges_from(taken, note);
            if badges != 0 && badges & badge == 0 {
                Some(Hint::Unheard {
                    thread,
                    note,
                    badge,
                })
            } else {
                None
            }
        }
        _ => None,
    }
}

/// The first such hint of these items.
fn first_unheard(taken: &[u32], thread: ThreadId, items: &[Item]) -> Option<Hint>
    ensures { result ≡ first_unheard taken.now thread items.now }
{
    for item in items {
        let hint = unheard_at(taken, thread, *item);
        if hint.is_some() {
            return hint;
        }
    }
    None
}

pub(crate) fn keep_unheard(
    hints: &mut Vec<Hint>,
    system: &System,
    taken: &[u32],
) -> Result<(), NoMemory>
    requires { taken.now ≡ taken_of system.now }
    ensures { IfOk result (λ _. hints.new.items ≡ hints.old.items ++ filter_map (unheard system.now) (numbers (length system.now.threads))) }
{
    for (thread, part) in system.parts().threads.as_slice().iter().enumerate() {
        let hint = first_unheard(taken, ThreadId(thread), part.script.as_slice());
        keep(hints, hint)?;
    }
    Ok(())
}

//! The threads that may take a word of a notification.
ghost use Rattle.std.specs.Prelude.{◌≡◌, IfOk, map};
ghost use Rattle.std.specs.List.{list_any};
ghost use Rattle.mcs_verdict.specs.Takers.{waits_on};
ghost use Rattle.mcs_ever_told.specs.Texts.{taker_names};

use mcs_script::Item;
use mcs_system::{System, ThreadPart};
use mcs_ticks::{NoMemory, NoteId};
use std::alloc::Global;

/// Whether the item is a wait for this notification.
fn waits_on(note: NoteId, item: Item) -> bool
    ensures { result ≡ waits_on note item }
{
    match item {
        Item::Wait(NoteId(other)) => other == note.0,
        _ => false,
    }
}

/// Whether the thread may take a word of this notification.
fn may_take(part: &ThreadPart, note: NoteId) -> bool
    ensures { result ≡ list_any (waits_on note) part.now.script }
{
    part.script
        .as_slice()
        .iter()
        .any(|item| waits_on(note, *item))
}

/// Returns the names of the threads that may take a word of this notification, in the order of the
/// file. Fails only if memory runs out.
pub(crate) fn taker_names<'s>(
    alloc: Global,
    system: &'s System,
    note: NoteId,
) -> Result<Vec<&'s str>, NoMemory>
    ensures { IfOk result (λ names. map (λ name. name.now) names.items ≡ taker_names system.now note) }
{
    let mut names = Vec::new(alloc);
    for part in system.parts().threads.as_slice() {
        if may_take(part, note) {
            names.push(part.name.as_str())?;
        }
    }
    Ok(names)
}

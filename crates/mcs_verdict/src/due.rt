//! The deadline of each notification, and a word that nobody has taken for that long.
ghost use Rattle.std.specs.Prelude.{◌≡◌, replicate, length, IfOk, Some, true};
ghost use Rattle.mcs_verdict.specs.declared.due.Due.TheVariants.{Unused};
ghost use Rattle.mcs_verdict.specs.Calls.{waited_on};
ghost use Rattle.mcs_verdict.specs.Due.{untaken_by};
ghost use Rattle.mcs_verdict.specs.Dues.{due_wait, due_item, due_part, due_parts, each_due, known_due};

use crate::Finding;
use crate::held::Held;
use mcs_script::Item;
use mcs_system::{SystemParts, ThreadPart};
use mcs_ticks::{NoMemory, NoteId, Tick};
use std::alloc::Global;

/// The deadline of a notification, by the scripts so far.
#[derive(Clone, Copy, Debug, PartialEq, Eq)]
pub(crate) enum Due {
    /// No script waits for it.
    Unused,
    /// A thread that takes its word begins a round with it, which has a deadline. This is the
    /// greatest of these deadlines.
    Within(u64),
    /// A thread may take its word within a round, or has no deadline.
    Without,
}

impl Due {
    /// The deadline, if there is one.
    pub(crate) fn known(self) -> Option<u64>
        ensures { result ≡ known_due self }
    {
        match self {
            Due::Within(greatest) => Some(greatest),
            _ => None,
        }
    }

    /// The deadline after a wait of a thread with this deadline. `first` is whether its script
    /// begins with the wait.
    fn with_wait(self, first: bool, deadline: u64) -> Due
        ensures { result ≡ due_wait first deadline self }
    {
        match self {
            _ if !first || deadline == 0 => Due::Without,
            Due::Unused => Due::Within(deadline),
            Due::Within(greatest) if greatest < deadline => Due::Within(deadline),
            due => due,
        }
    }
}

/// The notification of the item, if it is a wait.
fn waited_on(item: Item) -> Option<NoteId>
    ensures { result ≡ waited_on (Some item) }
{
    match item {
        Item::Wait(note) => Some(note),
        _ => None,
    }
}

/// Takes an item of a thread with this deadline. `first` is whether it is the first of its script.
fn see_item(dues: &mut [Due], first: bool, deadline: u64, item: Item)
    ensures { dues.new ≡ each_due 0 (λ note due. due_item note first deadline item due) dues.old }
{
    if let Some(note) = waited_on(item) {
        if note.0 < dues.len() {
            dues[note.0] = dues[note.0].with_wait(first, deadline);
        }
    }
}

fn see_script(dues: &mut [Due], part: &ThreadPart)
    ensures { dues.new ≡ each_due 0 (λ note due. due_part note part.now due) dues.old }
{
    for (i, item) in part.script.as_slice().iter().enumerate() {
        see_item(dues, i == 0, part.deadline, *item);
    }
}

fn see_scripts(dues: &mut [Due], parts: &[ThreadPart])
    ensures { dues.new ≡ each_due 0 (λ note due. due_parts note parts.now due) dues.old }
{
    for part in parts {
        see_script(dues, part);
    }
}

/// The deadline of each notification. It reads each item once.
pub(crate) fn dues_of(alloc: Global, parts: &SystemParts) -> Result<Vec<Due>, NoMemory>
    ensures { IfOk result (λ dues. dues.items ≡ each_due 0 (λ note due. due_parts note parts.now.threads due) (replicate (length parts.now.notes) Unused)) }
{
    let mut dues = vec![in alloc; Due::Unused; parts.notes.as_slice().len()]?;
    see_scripts(dues.as_mut_slice(), parts.threads.as_slice());
    Ok(dues)
}

/// The word of a notification that is as old at the horizon as its deadline, or older.
pub(crate) fn untaken_by(horizon: Tick, note: NoteId, held: &Held) -> Option<Finding>
    ensures { result ≡ untaken_by horizon note held.now held.now.due true }
{
    let age = horizon.get().saturating_sub(held.since.get());
    match held.due {
        Some(due) if held.word != 0 && due <= age => Some(Finding::Untaken {
            note,
            word: held.word,
            age,
            deadline: due,
            set: held.since,
        }),
        _ => None,
    }
}

ghost use Rattle.std.specs.Prelude.{◌≡◌, ℕ, ◌++◌, List, [], ◌∷◌, length, IfOk};
ghost use Rattle.std.specs.List.{filter_map};
ghost use Rattle.mcs_script.specs.declared.item.Item.{Item as TheItem};
ghost use Rattle.mcs_system.specs.declared.part.SourcePart.{SourcePart as TheSource};
ghost use Rattle.mcs_hints.specs.Numbers.{numbers};
ghost use Rattle.mcs_hints.specs.Notes.{items_of, unsignalled};
ghost use Rattle.mcs_hints.specs.stored.Marks.{waits_with, signals_with, unsignalled_by, marks_of, all_marks_of};

use crate::Hint;
use crate::keep::keep;
use mcs_script::{Item, Script};
use mcs_system::{SourcePart, SystemParts, ThreadPart};
use mcs_ticks::{NoMemory, NoteId};
use std::alloc::Global;

/// The use of a notification by scripts and sources.
#[derive(Clone, Copy)]
pub(crate) struct Mark {
    waits: bool,
    signals: bool,
}

impl Mark {
    const NONE: Mark = Mark {
        waits: false,
        signals: false,
    };

    /// Records that a script waits on it.
    fn wait(&mut self)
        ensures { self.new ≡ waits_with self.old }
    {
        self.waits = true;
    }

    /// Records that a script signals it, or that a source interrupts on it.
    fn signal(&mut self)
        ensures { self.new ≡ signals_with self.old }
    {
        self.signals = true;
    }

    fn unsignalled(self, note: NoteId) -> Option<Hint>
        ensures { result ≡ unsignalled_by note self }
    {
        if self.waits && !self.signals {
            Some(Hint::Unsignalled { note })
        } else {
            None
        }
    }
}

fn mark_item(marks: &mut [Mark], item: Item)
    ensures { (notes : ℕ) (items : List TheItem) → marks.old ≡ marks_of notes items → marks.new ≡ marks_of notes (items ++ item ∷ []) }
{
    match item {
        Item::Wait(note) => {
            if note.0 < marks.len() {
                marks[note.0].wait();
            }
        }
        Item::Signal(note, _) => {
            if note.0 < marks.len() {
                marks[note.0].signal();
            }
        }
        _ => {}
    }
}

fn mark_script(marks: &mut [Mark], script: &Script)
    ensures { (notes : ℕ) (items : List TheItem) → marks.old ≡ marks_of notes items → marks.new ≡ marks_of notes (items ++ script.now) }
{
    for number in 0..script.len() {
        if let Some(item) = script.get(number) {
            mark_item(marks, item);
        }
    }
}

fn mark_threads(marks: &mut [Mark], threads: &[ThreadPart])
    ensures { (notes : ℕ) → marks.old ≡ marks_of notes [] → marks.new ≡ marks_of notes (items_of threads.now) }
{
    for thread in threads {
        mark_script(marks, &thread.script);
    }
}

fn mark_source(marks: &mut [Mark], note: NoteId)
    ensures { (notes : ℕ) (items : List TheItem) (sources : List TheSource) (source : TheSource) →
        marks.old ≡ all_marks_of notes items sources → source.note ≡ note → marks.new ≡ all_marks_of notes items (sources ++ source ∷ []) }
{
    if note.0 < marks.len() {
        marks[note.0].signal();
    }
}

fn mark_sources(marks: &mut [Mark], sources: &[SourcePart])
    ensures { (notes : ℕ) (items : List TheItem) → marks.old ≡ marks_of notes items → marks.new ≡ all_marks_of notes items sources.now }
{
    for source in sources {
        mark_source(marks, source.note);
    }
}

/// Marks all notifications, in one pass over all items and one over the sources.
pub(crate) fn mark_notes(alloc: Global, parts: &SystemParts) -> Result<Vec<Mark>, NoMemory>
    ensures { IfOk result (λ marks. marks.items ≡ all_marks_of (length parts.now.notes) (items_of parts.now.threads) parts.now.sources) }
{
    let mut marks = vec![in alloc; Mark::NONE; parts.notes.len()]?;
    mark_threads(marks.as_mut_slice(), parts.threads.as_slice());
    mark_sources(marks.as_mut_slice(), parts.sources.as_slice());
    Ok(marks)
}

pub(crate) fn keep_unsignalled(hints: &mut Vec<Hint>, marks: &[Mark]) -> Result<(), NoMemory>
    ensures { (notes : ℕ) (items : List TheItem) (sources : List TheSource) → marks.now ≡ all_marks_of notes items sources →
        IfOk result (λ _. hints.new.items ≡ hints.old.items ++ filter_map (unsignalled items sources) (numbers notes)) }
{
    for (note, mark) in marks.iter().enumerate() {
        keep(hints, mark.unsignalled(NoteId(note)))?;
    }
    Ok(())
}

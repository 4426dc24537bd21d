//! The line of a word that nobody has taken, with the threads that may take it.
ghost use Rattle.std.specs.Prelude.{◌≡◌, ◌++◌, ◌∷◌, [], false, true, IfOk, OnOk, OnErr, codes, map};
ghost use Rattle.std.specs.Io.{StartsWith};
ghost use Rattle.std.specs.List.{list_any};
ghost use Rattle.mcs_fields.specs.Fields.{joined, listed, object_text};
ghost use Rattle.mcs_text.specs.Text.{after};
ghost use Rattle.mcs_verdict.specs.Takers.{waits_on};
ghost use Rattle.mcs_check_lines.specs.Fields.{by_of, found_members};
ghost use Rattle.mcs_check_lines.specs.Lines.{found_text, found_words, held_words, taker_names};
ghost use Rattle.mcs_check_lines.specs.Told.{is_untaken};

use crate::fields::put_members;
use crate::line::{append_digits, append_named};
use mcs_fields::{Cell, append_joined};
use mcs_script::Item;
use mcs_system::{System, ThreadPart};
use mcs_text::{append_counts, append_number, append_word, note_name};
use mcs_ticks::{NoMemory, NoteId, Tick};
use mcs_verdict::{Finding, Found};
use std::alloc::Global;

/// Whether the item is a wait for this notification.
fn waits_on(note: NoteId, item: Item) -> bool
    ensures { result ≡ waits_on note item }
{
    match item {
        Item::Wait(NoteId(other)) => other == note.0,
        _ => false,
    }
}

/// Whether the thread may take a word of this notification.
fn may_take(part: &ThreadPart, note: NoteId) -> bool
    ensures { result ≡ list_any (waits_on note) part.now.script }
{
    part.script
        .as_slice()
        .iter()
        .any(|item| waits_on(note, *item))
}

/// The names of the threads that may take a word of this notification, in the order of the file.
fn taker_names<'s>(
    alloc: Global,
    system: &'s System,
    note: NoteId,
) -> Result<Vec<&'s str>, NoMemory>
    ensures { IfOk result (λ names. map (λ name. name.now) names.items ≡ taker_names system.now note) }
{
    let mut names = Vec::new(alloc);
    for part in system.parts().threads.as_slice() {
        if may_take(part, note) {
            names.push(part.name.as_str())?;
        }
    }
    Ok(names)
}

/// Appends the line as text. If memory runs out the text is unchanged.
pub(crate) fn put_untaken(
    alloc: Global,
    text: &mut Vec<u8>,
    system: &System,
    found: &Found,
) -> Result<(), NoMemory>
    requires { is_untaken found.now.finding ≡ true }
    ensures ok { OnOk result (text.new.items ≡ text.old.items ++ found_text system.now found.now) }
    ensures err { OnErr result (text.new.items ≡ text.old.items) }
{
    let start = text.len();
    let result = append_untaken(alloc, text, system, found);
    if result.is_err() {
        text.truncate(start);
    }
    result
}

fn append_untaken(
    alloc: Global,
    text: &mut Vec<u8>,
    system: &System,
    found: &Found,
) -> Result<(), NoMemory>
    requires { is_untaken found.now.finding ≡ true }
    ensures ok { OnOk result (text.new.items ≡ text.old.items ++ found_text system.now found.now) }
    ensures kept { StartsWith text.new.items text.old.items }
{
    append_digits(text, found.moment.get())?;
    append_number(text, found.core.0 as u64)?;
    append_finding(alloc, text, system, &found.finding)?;
    text.push(b'\n')?;
    Ok(())
}

/// Appends the finding, without its time and core.
fn append_finding(
    alloc: Global,
    text: &mut Vec<u8>,
    system: &System,
    finding: &Finding,
) -> Result<(), NoMemory>
    requires { is_untaken finding.now ≡ true }
    ensures ok { OnOk result (text.new.items ≡ text.old.items ++ after (found_words system.now finding.now)) }
    ensures kept { StartsWith text.new.items text.old.items }
{
    match *finding {
        Finding::Untaken {
            note,
            word,
            age,
            deadline,
            set,
        } => {
            append_named(text, "untaken", note_name(system, note))?;
            append_takers(alloc, text, system, note)?;
            append_held(text, word, age, deadline, set)
        }
        _ => unreachable!(),
    }
}

/// Appends the threads that may take a word of this notification.
fn append_takers(
    alloc: Global,
    text: &mut Vec<u8>,
    system: &System,
    note: NoteId,
) -> Result<(), NoMemory>
    ensures ok { OnOk result (text.new.items
        ≡ text.old.items ++ after (codes "by" ∷ joined false (taker_names system.now note) ∷ [])) }
    ensures kept { StartsWith text.new.items text.old.items }
{
    let names = taker_names(alloc, system, note)?;
    append_word(text, "by")?;
    text.push(b' ')?;
    append_joined(text, names.as_slice())
}

/// Appends the word, the ticks since it was set, its deadline, and when it was set.
fn append_held(
    text: &mut Vec<u8>,
    word: u32,
    age: u64,
    deadline: u64,
    set: Tick,
) -> Result<(), NoMemory>
    ensures ok { OnOk result (text.new.items ≡ text.old.items ++ after (held_words word age deadline set)) }
    ensures kept { StartsWith text.new.items text.old.items }
{
    append_counts(
        text,
        &[
            ("word", u64::from(word)),
            ("age", age),
            ("deadline", deadline),
            ("set", set.get()),
        ],
    )
}

/// Appends the line as a JSON object. If memory runs out the text is unchanged.
pub(crate) fn put_untaken_object(
    alloc: Global,
    text: &mut Vec<u8>,
    system: &System,
    found: &Found,
    note: NoteId,
) -> Result<(), NoMemory>
    requires { listed (taker_names system.now note) ≡ by_of system.now found.now.finding }
    ensures ok { OnOk result (text.new.items ≡ text.old.items ++ object_text (found_members system.now found.now)) }
    ensures err { OnErr result (text.new.items ≡ text.old.items) }
{
    let by = taker_names(alloc, system, note)?;
    put_members(alloc, text, system, found, Cell::Names(by.as_slice()))
}

//! Lines as JSON objects.
ghost use Rattle.std.specs.Prelude.{◌≡◌, ◌++◌, ◌∷◌, [], OnOk, OnErr, codes};
ghost use Rattle.mcs_fields.specs.Fields.{amount, name, object_text, value_of};
ghost use Rattle.mcs_ever_told.specs.declared.line.Line.TheVariants.{Repeats, Open, Miss, Lost, Overdue, Never, Untaken, Endless, Inactive, Abandoned, Clean};
ghost use Rattle.mcs_ever_told.specs.Fields.{line_fields, often_fields, totals_fields};

use crate::line::cores::cores_text;
use crate::line::takers::taker_names;
use crate::line::thread::{put_computes, put_endless, put_inactive, put_so_far, put_thread};
use crate::line::{Line, Often, Totals};
use mcs_ever::CoreSet;
use mcs_fields::{Cell, put_object};
use mcs_system::System;
use mcs_text::{note_name, thread_name};
use mcs_ticks::{NoMemory, NoteId, ThreadId, Tick};
use std::alloc::Global;

/// Appends a line as a JSON object. If memory runs out, the text is unchanged.
pub(crate) fn put_fields(
    alloc: Global,
    text: &mut Vec<u8>,
    system: &System,
    line: &Line,
) -> Result<(), NoMemory>
    ensures ok { OnOk result (text.new.items ≡ text.old.items ++ object_text (line_fields system.now line.now)) }
    ensures err { OnErr result (text.new.items ≡ text.old.items) }
{
    match *line {
        Line::Repeats {
            cores,
            from,
            period,
        } => put_repeats(alloc, text, system, &cores, from, period),
        Line::Open { cores, horizon } => put_open(alloc, text, system, &cores, horizon),
        Line::Miss { thread, often } => put_missed(alloc, text, system, thread, &often),
        Line::Lost { note, often } => put_lost(alloc, text, system, note, &often),
        Line::Overdue { thread, moment } => put_overdue(alloc, text, system, thread, moment),
        Line::Never { thread, moment } => put_never(alloc, text, system, thread, moment),
        Line::Untaken { note, moment } => put_untaken(alloc, text, system, note, moment),
        Line::Endless {
            thread,
            number,
            activated,
        } => put_endless(alloc, text, system, thread, number, activated),
        Line::Inactive { thread } => put_inactive(alloc, text, system, thread),
        Line::Abandoned { note, word, set } => put_abandoned(alloc, text, system, note, word, set),
        Line::Thread {
            thread,
            greatest,
            never_throttled,
            silent_from,
        } => {
            let name = thread_name(system, thread);
            put_thread(alloc, text, name, greatest, never_throttled, silent_from)
        }
        Line::Computes {
            thread,
            never_throttled,
        } => put_computes(alloc, text, system, thread, never_throttled),
        Line::ThreadSoFar { thread, greatest } => put_so_far(alloc, text, system, thread, greatest),
        Line::Clean { cores } => put_clean(alloc, text, system, &cores),
        Line::Sets { totals } => put_sets(alloc, text, &totals),
    }
}

fn put_repeats(
    alloc: Global,
    text: &mut Vec<u8>,
    system: &System,
    cores: &CoreSet,
    from: Tick,
    period: u64,
) -> Result<(), NoMemory>
    ensures ok { OnOk result (text.new.items ≡ text.old.items ++ object_text (line_fields system.now (Repeats cores.now from period))) }
    ensures err { OnErr result (text.new.items ≡ text.old.items) }
{
    let cores = cores_text(alloc, system, cores)?;
    let fields = [
        ("kind", Cell::Name("repeats")),
        ("cores", Cell::Name(cores.as_str())),
        ("from", Cell::Number(from.get())),
        ("period", Cell::Number(period)),
    ];
    put_object(alloc, text, &fields)
}

fn put_open(
    alloc: Global,
    text: &mut Vec<u8>,
    system: &System,
    cores: &CoreSet,
    horizon: Tick,
) -> Result<(), NoMemory>
    ensures ok { OnOk result (text.new.items ≡ text.old.items ++ object_text (line_fields system.now (Open cores.now horizon))) }
    ensures err { OnErr result (text.new.items ≡ text.old.items) }
{
    let cores = cores_text(alloc, system, cores)?;
    let fields = [
        ("kind", Cell::Name("open")),
        ("cores", Cell::Name(cores.as_str())),
        ("horizon", Cell::Number(horizon.get())),
    ];
    put_object(alloc, text, &fields)
}

fn put_clean(
    alloc: Global,
    text: &mut Vec<u8>,
    system: &System,
    cores: &CoreSet,
) -> Result<(), NoMemory>
    ensures ok { OnOk result (text.new.items ≡ text.old.items ++ object_text (line_fields system.now (Clean cores.now))) }
    ensures err { OnErr result (text.new.items ≡ text.old.items) }
{
    let cores = cores_text(alloc, system, cores)?;
    let fields = [
        ("kind", Cell::Name("clean")),
        ("cores", Cell::Name(cores.as_str())),
    ];
    put_object(alloc, text, &fields)
}

fn put_missed(
    alloc: Global,
    text: &mut Vec<u8>,
    system: &System,
    thread: ThreadId,
    often: &Often,
) -> Result<(), NoMemory>
    ensures ok { OnOk result (text.new.items ≡ text.old.items ++ object_text (line_fields system.now (Miss thread often.now))) }
    ensures err { OnErr result (text.new.items ≡ text.old.items) }
{
    put_often(
        alloc,
        text,
        "miss",
        "thread",
        thread_name(system, thread),
        often,
    )
}

fn put_lost(
    alloc: Global,
    text: &mut Vec<u8>,
    system: &System,
    note: NoteId,
    often: &Often,
) -> Result<(), NoMemory>
    ensures ok { OnOk result (text.new.items ≡ text.old.items ++ object_text (line_fields system.now (Lost note often.now))) }
    ensures err { OnErr result (text.new.items ≡ text.old.items) }
{
    put_often(alloc, text, "lost", "note", note_name(system, note), often)
}

fn put_overdue(
    alloc: Global,
    text: &mut Vec<u8>,
    system: &System,
    thread: ThreadId,
    moment: Tick,
) -> Result<(), NoMemory>
    ensures ok { OnOk result (text.new.items ≡ text.old.items ++ object_text (line_fields system.now (Overdue thread moment))) }
    ensures err { OnErr result (text.new.items ≡ text.old.items) }
{
    put_moment(alloc, text, "overdue", thread_name(system, thread), moment)
}

fn put_never(
    alloc: Global,
    text: &mut Vec<u8>,
    system: &System,
    thread: ThreadId,
    moment: Tick,
) -> Result<(), NoMemory>
    ensures ok { OnOk result (text.new.items ≡ text.old.items ++ object_text (line_fields system.now (Never thread moment))) }
    ensures err { OnErr result (text.new.items ≡ text.old.items) }
{
    put_moment(alloc, text, "never", thread_name(system, thread), moment)
}

fn put_untaken(
    alloc: Global,
    text: &mut Vec<u8>,
    system: &System,
    note: NoteId,
    moment: Tick,
) -> Result<(), NoMemory>
    ensures ok { OnOk result (text.new.items ≡ text.old.items ++ object_text (line_fields system.now (Untaken note moment))) }
    ensures err { OnErr result (text.new.items ≡ text.old.items) }
{
    let fields = [
        ("kind", Cell::Name("untaken")),
        ("note", Cell::Name(note_name(system, note))),
        ("moment", Cell::Number(moment.get())),
    ];
    put_object(alloc, text, &fields)
}

fn put_abandoned(
    alloc: Global,
    text: &mut Vec<u8>,
    system: &System,
    note: NoteId,
    word: u32,
    set: Tick,
) -> Result<(), NoMemory>
    ensures ok { OnOk result (text.new.items ≡ text.old.items ++ object_text (line_fields system.now (Abandoned note word set))) }
    ensures err { OnErr result (text.new.items ≡ text.old.items) }
{
    let by = taker_names(alloc, system, note)?;
    let by = Cell::Names(by.as_slice());
    put_word(alloc, text, note_name(system, note), by, word, set)
}

/// Appends a word of a notification, with those that may take it, and when it was set.
fn put_word<'s>(
    alloc: Global,
    text: &mut Vec<u8>,
    note: &'s str,
    by: Cell<'s>,
    word: u32,
    set: Tick,
) -> Result<(), NoMemory>
    ensures ok { OnOk result (text.new.items ≡ text.old.items ++ object_text
        ((codes "kind", name (codes "untaken")) ∷ (codes "note", name note.now) ∷ (codes "by", value_of by.entry) ∷ (codes "word", amount word)
        ∷ (codes "set", amount set) ∷ [])) }
    ensures err { OnErr result (text.new.items ≡ text.old.items) }
{
    let fields = [
        ("kind", Cell::Name("untaken")),
        ("note", Cell::Name(note)),
        ("by", by),
        ("word", Cell::Number(u64::from(word))),
        ("set", Cell::Number(set.get())),
    ];
    put_object(alloc, text, &fields)
}

/// Appends how often something was found. `key` says whether the name is that of a thread or of a
/// notification.
fn put_often<'s>(
    alloc: Global,
    text: &mut Vec<u8>,
    kind: &'s str,
    key: &'static str,
    named: &'s str,
    often: &Often,
) -> Result<(), NoMemory>
    ensures ok { OnOk result (text.new.items ≡ text.old.items
        ++ object_text ((codes "kind", name kind.now) ∷ (key.now, name named.now) ∷ often_fields often.now)) }
    ensures err { OnErr result (text.new.items ≡ text.old.items) }
{
    let kind = ("kind", Cell::Name(kind));
    let named = (key, Cell::Name(named));
    match *often {
        Often::Forever {
            before,
            each_period,
        } => {
            let each_period = ("each_period", Cell::Number(each_period));
            let before = ("before", Cell::Number(before));
            put_object(alloc, text, &[kind, named, each_period, before])
        }
        Often::SoFar { times } => {
            let so_far = ("so_far", Cell::Number(times));
            put_object(alloc, text, &[kind, named, so_far])
        }
    }
}

/// Appends the finding of a thread at a time, or up to it.
fn put_moment<'s>(
    alloc: Global,
    text: &mut Vec<u8>,
    kind: &'s str,
    thread: &'s str,
    moment: Tick,
) -> Result<(), NoMemory>
    ensures ok { OnOk result (text.new.items ≡ text.old.items ++ object_text
        ((codes "kind", name kind.now) ∷ (codes "thread", name thread.now) ∷ (codes "moment", amount moment) ∷ [])) }
    ensures err { OnErr result (text.new.items ≡ text.old.items) }
{
    let fields = [
        ("kind", Cell::Name(kind)),
        ("thread", Cell::Name(thread)),
        ("moment", Cell::Number(moment.get())),
    ];
    put_object(alloc, text, &fields)
}

fn put_sets(alloc: Global, text: &mut Vec<u8>, totals: &Totals) -> Result<(), NoMemory>
    ensures ok { OnOk result (text.new.items ≡ text.old.items ++ object_text (totals_fields totals.now)) }
    ensures err { OnErr result (text.new.items ≡ text.old.items) }
{
    let fields = [
        ("kind", Cell::Name("sets")),
        ("sets", Cell::Number(totals.sets)),
        ("repeating", Cell::Number(totals.repeating)),
        ("findings", Cell::Number(totals.findings)),
        ("threads", Cell::Number(totals.threads)),
        ("deadlines", Cell::Number(totals.deadlines)),
    ];
    put_object(alloc, text, &fields)
}

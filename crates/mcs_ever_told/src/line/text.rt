//! Lines in words.
ghost use Rattle.std.specs.Prelude.{◌≡◌, ◌++◌, ◌∷◌, [], OnOk, Some, codes, decimal};
ghost use Rattle.std.specs.Io.{StartsWith};
ghost use Rattle.mcs_text.specs.Text.{line};
ghost use Rattle.mcs_ever_told.specs.declared.line.Line.TheVariants.{Repeats, Open, Miss, Lost, Overdue, Never, Untaken, Endless, Inactive, Abandoned, Computes, ThreadSoFar};
ghost use Rattle.mcs_ever_told.specs.stored.Words.{word_of};
ghost use Rattle.mcs_ever_told.specs.Texts.{known_word, named, often_words, silent_text, throttled_text, totals_words, words_text};

use crate::line::cores::cores_text;
use crate::line::takers::taker_names;
use crate::line::word::{Word, append_line, append_words, known_word};
use crate::line::{Line, Often, Totals};
use mcs_ever::CoreSet;
use mcs_system::System;
use mcs_text::{note_name, thread_name};
use mcs_ticks::{NoMemory, NoteId, ThreadId, Tick};
use std::alloc::Global;

/// Appends a line. If memory runs out, a prefix of it may have been appended.
pub(crate) fn append_told(
    alloc: Global,
    text: &mut Vec<u8>,
    system: &System,
    line: &Line,
) -> Result<(), NoMemory>
    ensures ok { OnOk result (text.new.items ≡ text.old.items ++ words_text system.now line.now) }
    ensures kept { StartsWith text.new.items text.old.items }
{
    match *line {
        Line::Repeats {
            cores,
            from,
            period,
        } => append_repeats(alloc, text, system, &cores, from, period),
        Line::Open { cores, horizon } => append_open(alloc, text, system, &cores, horizon),
        Line::Miss { thread, often } => append_missed(text, system, thread, &often),
        Line::Lost { note, often } => append_lost(text, system, note, &often),
        Line::Overdue { thread, moment } => append_overdue(text, system, thread, moment),
        Line::Never { thread, moment } => append_never(text, system, thread, moment),
        Line::Untaken { note, moment } => append_untaken(text, system, note, moment),
        Line::Endless {
            thread,
            number,
            activated,
        } => append_endless(text, system, thread, number, activated),
        Line::Inactive { thread } => append_inactive(text, system, thread),
        Line::Abandoned { note, word, set } => append_abandoned(
            alloc, text, system, note, word, set,
        ),
        Line::Thread {
            thread,
            greatest,
            never_throttled,
            silent_from,
        } => {
            let name = thread_name(system, thread);
            append_thread(text, name, greatest, never_throttled, silent_from)
        }
        Line::Computes {
            thread,
            never_throttled,
        } => append_computes(text, system, thread, never_throttled),
        Line::ThreadSoFar { thread, greatest } => append_so_far(text, system, thread, greatest),
        Line::Clean { .. } => append_line(text, "nothing is ever found", &[]),
        Line::Sets { totals } => append_sets(text, &totals),
    }
}

fn append_repeats(
    alloc: Global,
    text: &mut Vec<u8>,
    system: &System,
    cores: &CoreSet,
    from: Tick,
    period: u64,
) -> Result<(), NoMemory>
    ensures ok { OnOk result (text.new.items ≡ text.old.items ++ words_text system.now (Repeats cores.now from period)) }
    ensures kept { StartsWith text.new.items text.old.items }
{
    let cores = cores_text(alloc, system, cores)?;
    let words = [
        Word::Named(cores.as_str()),
        Word::Plain("repeats from"),
        Word::Number(from.get()),
        Word::Plain("with period"),
        Word::Number(period),
    ];
    append_line(text, "cores", &words)
}

fn append_open(
    alloc: Global,
    text: &mut Vec<u8>,
    system: &System,
    cores: &CoreSet,
    horizon: Tick,
) -> Result<(), NoMemory>
    ensures ok { OnOk result (text.new.items ≡ text.old.items ++ words_text system.now (Open cores.now horizon)) }
    ensures kept { StartsWith text.new.items text.old.items }
{
    let cores = cores_text(alloc, system, cores)?;
    let words = [
        Word::Named(cores.as_str()),
        Word::Plain("no repetition found up to"),
        Word::Number(horizon.get()),
    ];
    append_line(text, "cores", &words)
}

fn append_missed(
    text: &mut Vec<u8>,
    system: &System,
    thread: ThreadId,
    often: &Often,
) -> Result<(), NoMemory>
    ensures ok { OnOk result (text.new.items ≡ text.old.items ++ words_text system.now (Miss thread often.now)) }
    ensures kept { StartsWith text.new.items text.old.items }
{
    append_often(text, "miss", thread_name(system, thread), often)
}

fn append_lost(
    text: &mut Vec<u8>,
    system: &System,
    note: NoteId,
    often: &Often,
) -> Result<(), NoMemory>
    ensures ok { OnOk result (text.new.items ≡ text.old.items ++ words_text system.now (Lost note often.now)) }
    ensures kept { StartsWith text.new.items text.old.items }
{
    append_often(text, "lost", note_name(system, note), often)
}

fn append_overdue(
    text: &mut Vec<u8>,
    system: &System,
    thread: ThreadId,
    moment: Tick,
) -> Result<(), NoMemory>
    ensures ok { OnOk result (text.new.items ≡ text.old.items ++ words_text system.now (Overdue thread moment)) }
    ensures kept { StartsWith text.new.items text.old.items }
{
    append_moment(text, "overdue", thread_name(system, thread), "at", moment)
}

fn append_never(
    text: &mut Vec<u8>,
    system: &System,
    thread: ThreadId,
    moment: Tick,
) -> Result<(), NoMemory>
    ensures ok { OnOk result (text.new.items ≡ text.old.items ++ words_text system.now (Never thread moment)) }
    ensures kept { StartsWith text.new.items text.old.items }
{
    append_moment(text, "never", thread_name(system, thread), "up to", moment)
}

fn append_untaken(
    text: &mut Vec<u8>,
    system: &System,
    note: NoteId,
    moment: Tick,
) -> Result<(), NoMemory>
    ensures ok { OnOk result (text.new.items ≡ text.old.items ++ words_text system.now (Untaken note moment)) }
    ensures kept { StartsWith text.new.items text.old.items }
{
    append_moment(text, "untaken", note_name(system, note), "at", moment)
}

fn append_endless(
    text: &mut Vec<u8>,
    system: &System,
    thread: ThreadId,
    number: u64,
    activated: Tick,
) -> Result<(), NoMemory>
    ensures ok { OnOk result (text.new.items ≡ text.old.items ++ words_text system.now (Endless thread number activated)) }
    ensures kept { StartsWith text.new.items text.old.items }
{
    let words = [
        Word::Plain(thread_name(system, thread)),
        Word::Plain("round"),
        Word::Number(number),
        Word::Plain("activated"),
        Word::Number(activated.get()),
        Word::Plain("for ever"),
    ];
    append_line(text, "overdue", &words)
}

fn append_inactive(text: &mut Vec<u8>, system: &System, thread: ThreadId) -> Result<(), NoMemory>
    ensures ok { OnOk result (text.new.items ≡ text.old.items ++ words_text system.now (Inactive thread)) }
    ensures kept { StartsWith text.new.items text.old.items }
{
    let words = [
        Word::Plain(thread_name(system, thread)),
        Word::Plain("for ever"),
    ];
    append_line(text, "never", &words)
}

fn append_abandoned(
    alloc: Global,
    text: &mut Vec<u8>,
    system: &System,
    note: NoteId,
    word: u32,
    set: Tick,
) -> Result<(), NoMemory>
    ensures ok { OnOk result (text.new.items ≡ text.old.items ++ words_text system.now (Abandoned note word set)) }
    ensures kept { StartsWith text.new.items text.old.items }
{
    let names = taker_names(alloc, system, note)?;
    let by = Word::Names(names.as_slice());
    append_word_of(text, note_name(system, note), by, word, set)
}

/// Appends a word of a notification, with those that may take it, and when it was set.
fn append_word_of<'s>(
    text: &mut Vec<u8>,
    note: &'s str,
    by: Word<'s>,
    word: u32,
    set: Tick,
) -> Result<(), NoMemory>
    ensures ok { OnOk result (text.new.items ≡ text.old.items ++ line (codes "untaken") (note.now ∷ codes "by" ∷ word_of by.entry
        ∷ codes "word" ∷ decimal word ∷ codes "set" ∷ decimal set ∷ codes "for ever" ∷ [])) }
    ensures kept { StartsWith text.new.items text.old.items }
{
    let words = [
        Word::Plain(note),
        Word::Plain("by"),
        by,
        Word::Plain("word"),
        Word::Number(u64::from(word)),
        Word::Plain("set"),
        Word::Number(set.get()),
        Word::Plain("for ever"),
    ];
    append_line(text, "untaken", &words)
}

/// Appends how often something was found of the thread or the notification with this name.
fn append_often(text: &mut Vec<u8>, kind: &str, name: &str, often: &Often) -> Result<(), NoMemory>
    ensures ok { OnOk result (text.new.items ≡ text.old.items ++ line kind.now (named name.now ∷ often_words often.now)) }
    ensures kept { StartsWith text.new.items text.old.items }
{
    match *often {
        Often::Forever {
            before,
            each_period,
        } => {
            let words = [
                Word::Named(name),
                Word::Number(each_period),
                Word::Plain("in each period,"),
                Word::Number(before),
                Word::Plain("before"),
            ];
            append_line(text, kind, &words)
        }
        Often::SoFar { times } => {
            let words = [
                Word::Named(name),
                Word::Number(times),
                Word::Plain("so far"),
            ];
            append_line(text, kind, &words)
        }
    }
}

/// Appends the finding of a thread or a notification at a time, or up to it.
fn append_moment<'s>(
    text: &mut Vec<u8>,
    kind: &str,
    name: &'s str,
    when: &'s str,
    moment: Tick,
) -> Result<(), NoMemory>
    ensures ok { OnOk result (text.new.items ≡ text.old.items ++ line kind.now (name.now ∷ when.now ∷ decimal moment ∷ [])) }
    ensures kept { StartsWith text.new.items text.old.items }
{
    let words = [
        Word::Plain(name),
        Word::Plain(when),
        Word::Number(moment.get()),
    ];
    append_line(text, kind, &words)
}

fn append_thread(
    text: &mut Vec<u8>,
    name: &str,
    greatest: Option<u64>,
    never_throttled: bool,
    silent_from: Option<Tick>,
) -> Result<(), NoMemory>
    ensures ok { OnOk result (text.new.items ≡ text.old.items ++ line (codes "thread") (named name.now ∷ codes "greatest response"
        ∷ (known_word greatest ++ throttled_text never_throttled ++ silent_text silent_from) ∷ [])) }
    ensures kept { StartsWith text.new.items text.old.items }
{
    let words = [
        Word::Named(name),
        Word::Plain("greatest response"),
        known_word(greatest),
    ];
    append_words(text, "thread", &words)?;
    append_throttled(text, never_throttled)?;
    append_silent(text, silent_from)?;
    text.push(b'\n')?;
    Ok(())
}

/// Appends that a thread never stops with its budget exhausted, if that is so.
fn append_throttled(text: &mut Vec<u8>, never_throttled: bool) -> Result<(), NoMemory>
    ensures ok { OnOk result (text.new.items ≡ text.old.items ++ throttled_text never_throttled) }
    ensures kept { StartsWith text.new.items text.old.items }
{
    if never_throttled {
        text.extend_from_slice(b", throttled: never")?;
    }
    Ok(())
}

/// Appends the time from which on a thread ends no round, if there is one.
fn append_silent(text: &mut Vec<u8>, silent_from: Option<Tick>) -> Result<(), NoMemory>
    ensures ok { OnOk result (text.new.items ≡ text.old.items ++ silent_text silent_from) }
    ensures kept { StartsWith text.new.items text.old.items }
{
    match silent_from {
        Some(moment) => append_silence(text, moment),
        None => Ok(()),
    }
}

fn append_silence(text: &mut Vec<u8>, moment: Tick) -> Result<(), NoMemory>
    ensures ok { OnOk result (text.new.items ≡ text.old.items ++ silent_text (Some moment)) }
    ensures kept { StartsWith text.new.items text.old.items }
{
    let words = [Word::Number(moment.get()), Word::Plain("on")];
    append_words(text, ", ends no round from", &words)
}

fn append_computes(
    text: &mut Vec<u8>,
    system: &System,
    thread: ThreadId,
    never_throttled: bool,
) -> Result<(), NoMemory>
    ensures ok { OnOk result (text.new.items ≡ text.old.items ++ words_text system.now (Computes thread never_throttled)) }
    ensures kept { StartsWith text.new.items text.old.items }
{
    let name = thread_name(system, thread);
    append_doing(text, name, "computes without end", never_throttled)
}

/// Appends what a thread does for ever, and that it is never throttled, if that is so.
fn append_doing<'s>(
    text: &mut Vec<u8>,
    name: &'s str,
    does: &'s str,
    never_throttled: bool,
) -> Result<(), NoMemory>
    ensures ok { OnOk result (text.new.items ≡ text.old.items ++ line (codes "thread") (named name.now
        ∷ (does.now ++ throttled_text never_throttled) ∷ [])) }
    ensures kept { StartsWith text.new.items text.old.items }
{
    let words = [Word::Named(name), Word::Plain(does)];
    append_words(text, "thread", &words)?;
    append_throttled(text, never_throttled)?;
    text.push(b'\n')?;
    Ok(())
}

fn append_so_far(
    text: &mut Vec<u8>,
    system: &System,
    thread: ThreadId,
    greatest: Option<u64>,
) -> Result<(), NoMemory>
    ensures ok { OnOk result (text.new.items ≡ text.old.items ++ words_text system.now (ThreadSoFar thread greatest)) }
    ensures kept { StartsWith text.new.items text.old.items }
{
    let words = [
        Word::Named(thread_name(system, thread)),
        Word::Plain("greatest response"),
        known_word(greatest),
        Word::Plain("so far"),
    ];
    append_line(text, "thread", &words)
}

fn append_sets(text: &mut Vec<u8>, totals: &Totals) -> Result<(), NoMemory>
    ensures ok { OnOk result (text.new.items ≡ text.old.items ++ line (codes "sets") (totals_words totals.now)) }
    ensures kept { StartsWith text.new.items text.old.items }
{
    let words = [
        Word::Number(totals.sets),
        Word::Plain("repeating"),
        Word::Number(totals.repeating),
        Word::Plain("findings"),
        Word::Number(totals.findings),
        Word::Plain("threads"),
        Word::Number(totals.threads),
        Word::Plain("deadlines"),
        Word::Number(totals.deadlines),
    ];
    append_line(text, "sets", &words)
}

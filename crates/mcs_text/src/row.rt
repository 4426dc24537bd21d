//! The line of a row.
ghost use Rattle.std.specs.Prelude.{◌≡◌, ◌+◌, ◌≤◌, ◌++◌, ◌∷◌, [], OnOk, OnErr, take, length, decimal};
ghost use Rattle.mcs_text.specs.Text.{after, at_note, row_text, until_words, why_word, words_of, note_name, source_name, thread_name};

use crate::bytes::{LINE, write_decimal, write_number, write_short, write_word};
use crate::names::Naming;
use mcs_system::System;
use mcs_ticks::{NoMemory, NoteId, Row, SourceId, ThreadId, Tick, What, Why};

/// Appends the line of a row: `<moment> <core> ` and what happened, with the names of the system.
/// On `NoMemory` the text is unchanged.
pub fn put_row(text: &mut Vec<u8>, system: &System, row: &Row) -> Result<(), NoMemory>
    ensures ok { OnOk result (text.new.items ≡ text.old.items ++ row_text system.now row.now) }
    ensures err { OnErr result (text.new.items ≡ text.old.items) }
{
    let mut line = [0; LINE];
    let core = write_decimal(&mut line, 0, row.moment.get());
    let end = write_rest(&mut line, core, system, row);
    text.extend_from_slice(&line[..end])?;
    Ok(())
}

/// Writes the line of a row after its time.
#[inline(always)]
pub(crate) fn write_rest<N: Naming>(bytes: &mut [u8], at: usize, names: &N, row: &Row) -> usize
    requires { at + 119 ≤ length bytes.old }
    ensures short { result ≤ at + 119 }
    ensures written { take result bytes.new
        ≡ take at bytes.old ++ after (decimal row.now.core ∷ words_of (N.system names.now) row.now.what) ++ 10 ∷ [] }
{
    let what = write_number(bytes, at, row.core.0 as u64);
    let end = write_what(bytes, what, names, &row.what);
    bytes[end] = b'\n';
    end + 1
}

/// Writes what a row reports, after its time and core.
#[inline(always)]
fn write_what<N: Naming>(bytes: &mut [u8], at: usize, names: &N, what: &What) -> usize
    requires { at + 97 ≤ length bytes.old }
    ensures short { result ≤ at + 97 }
    ensures written { take result bytes.new ≡ take at bytes.old ++ after (words_of (N.system names.now) what.now) }
{
    match *what {
        What::Release { thread } => write_named(bytes, at, "release", names, thread),
        What::Run { thread } => write_named(bytes, at, "run", names, thread),
        What::Stop {
            thread,
            why,
            charged,
            until,
        } => {
            let name = write_named(bytes, at, "stop", names, thread);
            write_stop(bytes, name, why, charged, until)
        }
        What::Signal {
            thread,
            note,
            badge,
        } => write_at_note(bytes, at, names, "leave", "signal", thread, note, badge),
        What::Arrive { note, badge, maker } => {
            let name = write_held(bytes, at, "arrive", names, note, badge);
            let from = write_short(bytes, name, "from");
            write_number(bytes, from, maker.0 as u64)
        }
        What::Wake {
            thread,
            note,
            word,
            ..
        } => write_at_note(bytes, at, names, "enter", "wake", thread, note, word),
        What::Hold { note, word } => write_held(bytes, at, "hold", names, note, word),
        What::Got { thread, note, word } => {
            write_at_note(bytes, at, names, "enter", "got", thread, note, word)
        }
        What::Round {
            thread,
            number,
            response,
        } => {
            let name = write_named(bytes, at, "round", names, thread);
            let round = write_number(bytes, name, number);
            write_number(bytes, round, response)
        }
        What::Order { context } => {
            let word = write_short(bytes, at, "order");
            names.write_context(bytes, word, context)
        }
        What::Interrupt {
            source,
            note,
            badge,
        } => write_interrupt(bytes, at, "interrupt", names, source, note, badge),
    }
}

/// Writes a word and the name of a thread, each after a space.
#[inline(always)]
fn write_named<N: Naming>(
    bytes: &mut [u8],
    at: usize,
    word: &str,
    names: &N,
    thread: ThreadId,
) -> usize
    requires word { length word.now ≤ 7 }
    requires room { at + 41 ≤ length bytes.old }
    ensures short { result ≤ at + 41 }
    ensures written { take result bytes.new
        ≡ take at bytes.old ++ after (word.now ∷ thread_name (N.system names.now) thread ∷ []) }
{
    let name = write_short(bytes, at, word);
    names.write_thread(bytes, name, thread)
}

/// Writes a word, the name of a notification, and bits, each after a space.
#[inline(always)]
fn write_held<N: Naming>(
    bytes: &mut [u8],
    at: usize,
    word: &str,
    names: &N,
    note: NoteId,
    bits: u32,
) -> usize
    requires word { length word.now ≤ 7 }
    requires room { at + 62 ≤ length bytes.old }
    ensures short { result ≤ at + 62 }
    ensures written { take result bytes.new
        ≡ take at bytes.old ++ after (word.now ∷ note_name (N.system names.now) note ∷ decimal bits ∷ []) }
{
    let name = write_short(bytes, at, word);
    let number = names.write_note(bytes, name, note);
    write_number(bytes, number, u64::from(bits))
}

/// Writes what a thread did at a note: with one word if it is a server, else with another word and
/// the bits that it set or got.
#[inline(always)]
fn write_at_note<N: Naming>(
    bytes: &mut [u8],
    at: usize,
    names: &N,
    server_word: &str,
    note_word: &str,
    thread: ThreadId,
    note: NoteId,
    bits: u32,
) -> usize
    requires server_word { length server_word.now ≤ 7 }
    requires note_word { length note_word.now ≤ 7 }
    requires room { at + 95 ≤ length bytes.old }
    ensures short { result ≤ at + 95 }
    ensures written { take result bytes.new ≡ take at bytes.old
        ++ after (at_note (N.system names.now) server_word.now note_word.now thread note bits) }
{
    if names.is_server(note) {
        write_at_server(bytes, at, server_word, names, thread, note)
    } else {
        write_noted(bytes, at, note_word, names, thread, note, bits)
    }
}

/// Writes what a thread did at a server.
#[inline(never)]
fn write_at_server<N: Naming>(
    bytes: &mut [u8],
    at: usize,
    what: &str,
    names: &N,
    thread: ThreadId,
    server: NoteId,
) -> usize
    requires word { length what.now ≤ 7 }
    requires room { at + 74 ≤ length bytes.old }
    ensures short { result ≤ at + 74 }
    ensures written { take result bytes.new ≡ take at bytes.old
        ++ after (what.now ∷ thread_name (N.system names.now) thread ∷ note_name (N.system names.now) server ∷ []) }
{
    let name = write_named(bytes, at, what, names, thread);
    names.write_note(bytes, name, server)
}

/// Writes a word, the names of a source and its notification, and the badge that the source posts,
/// each after a space.
#[inline(never)]
fn write_interrupt<N: Naming>(
    bytes: &mut [u8],
    at: usize,
    what: &str,
    names: &N,
    source: SourceId,
    note: NoteId,
    badge: u32,
) -> usize
    requires word { length what.now ≤ 9 }
    requires room { at + 97 ≤ length bytes.old }
    ensures short { result ≤ at + 97 }
    ensures written { take result bytes.new ≡ take at bytes.old
        ++ after (what.now ∷ source_name (N.system names.now) source ∷ note_name (N.system names.now) note ∷ decimal badge ∷ []) }
{
    let name = write_sourced(bytes, at, what, names, source);
    let number = names.write_note(bytes, name, note);
    write_number(bytes, number, u64::from(badge))
}

/// Writes a word and the name of a source, each after a space.
#[inline(always)]
fn write_sourced<N: Naming>(
    bytes: &mut [u8],
    at: usize,
    word: &str,
    names: &N,
    source: SourceId,
) -> usize
    requires word { length word.now ≤ 9 }
    requires room { at + 43 ≤ length bytes.old }
    ensures short { result ≤ at + 43 }
    ensures written { take result bytes.new
        ≡ take at bytes.old ++ after (word.now ∷ source_name (N.system names.now) source ∷ []) }
{
    let name = write_word(bytes, at, word);
    names.write_source(bytes, name, source)
}

/// Writes what a thread did at a notification, and the bits that it set or got.
#[inline(always)]
fn write_noted<N: Naming>(
    bytes: &mut [u8],
    at: usize,
    what: &str,
    names: &N,
    thread: ThreadId,
    note: NoteId,
    bits: u32,
) -> usize
    requires word { length what.now ≤ 7 }
    requires room { at + 95 ≤ length bytes.old }
    ensures short { result ≤ at + 95 }
    ensures written { take result bytes.new ≡ take at bytes.old
        ++ after (what.now ∷ thread_name (N.system names.now) thread ∷ note_name (N.system names.now) note
        ∷ decimal bits ∷ []) }
{
    let name = write_named(bytes, at, what, names, thread);
    let number = names.write_note(bytes, name, note);
    write_number(bytes, number, u64::from(bits))
}

/// Writes why a thread stopped, the ticks charged, and its release time if it has one.
#[inline(always)]
fn write_stop(bytes: &mut [u8], at: usize, why: Why, charged: u64, until: Option<Tick>) -> usize
    requires { at + 56 ≤ length bytes.old }
    ensures short { result ≤ at + 56 }
    ensures written { take result bytes.new
        ≡ take at bytes.old ++ after (why_word why ∷ decimal charged ∷ until_words until) }
{
    let number = write_why(bytes, at, why);
    let date = write_number(bytes, number, charged);
    write_until(bytes, date, until)
}

/// Writes the release time, if there is one.
#[inline(always)]
fn write_until(bytes: &mut [u8], at: usize, until: Option<Tick>) -> usize
    requires { at + 27 ≤ length bytes.old }
    ensures short { result ≤ at + 27 }
    ensures written { take result bytes.new ≡ take at bytes.old ++ after (until_words until) }
{
    match until {
        Some(date) => {
            let number = write_short(bytes, at, "until");
            write_number(bytes, number, date.get())
        }
        None => at,
    }
}

/// Writes why a thread stopped.
#[inline(always)]
fn write_why(bytes: &mut [u8], at: usize, why: Why) -> usize
    requires { at + 8 ≤ length bytes.old }
    ensures short { result ≤ at + 8 }
    ensures written { take result bytes.new ≡ take at bytes.old ++ 32 ∷ why_word why }
{
    match why {
        Why::Spent => write_short(bytes, at, "spent"),
        Why::Yield => write_short(bytes, at, "yield"),
        Why::Wait => write_short(bytes, at, "wait"),
        Why::Call => write_short(bytes, at, "call"),
        Why::Done => write_short(bytes, at, "done"),
        Why::Preempt => write_short(bytes, at, "preempt"),
        Why::Order => write_short(bytes, at, "order"),
    }
}

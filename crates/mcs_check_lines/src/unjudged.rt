//! The lines of unjudged threads.
ghost use Rattle.std.specs.Prelude.{◌≡◌, ◌++◌, ◌∷◌, [], OnOk, OnErr, codes, map};
ghost use Rattle.std.specs.Io.{StartsWith};
ghost use Rattle.mcs_fields.specs.Fields.{field_of};
ghost use Rattle.mcs_text.specs.Text.{after};
ghost use Rattle.mcs_check_lines.specs.Figures.{known, value_word};
ghost use Rattle.mcs_check_lines.specs.Formats.{no_columns, written};
ghost use Rattle.mcs_check_lines.specs.Unjudged.{time_words, unjudged_fields, unjudged_line, unjudged_text, unjudged_words};

use crate::figures::known;
use crate::line::{append_digits, append_named};
use mcs_check_words::Format;
use mcs_fields::{Cell, Field, put_object, put_row};
use mcs_system::System;
use mcs_text::{append_counts, append_number, append_word, thread_name};
use mcs_ticks::{CoreId, NoMemory, ThreadId, Tick};
use std::alloc::Global;

/// A thread with a deadline that has ended no round, and has no finding at the horizon.
#[derive(Clone, Copy, Debug, PartialEq, Eq)]
pub struct Unjudged {
    /// The horizon.
    pub moment: Tick,
    /// The core of the thread.
    pub core: CoreId,
    pub thread: ThreadId,
    /// The thread's deadline in ticks.
    pub deadline: u64,
    /// The tick at which its first round was activated, if that has begun.
    pub activated: Option<u64>,
}

/// Appends the line as text. If memory runs out the text is unchanged.
fn put_unjudged(text: &mut Vec<u8>, system: &System, unjudged: &Unjudged) -> Result<(), NoMemory>
    ensures ok { OnOk result (text.new.items ≡ text.old.items ++ unjudged_text system.now unjudged.now) }
    ensures err { OnErr result (text.new.items ≡ text.old.items) }
{
    let start = text.len();
    let result = append_unjudged(text, system, unjudged);
    if result.is_err() {
        text.truncate(start);
    }
    result
}

fn append_unjudged(text: &mut Vec<u8>, system: &System, unjudged: &Unjudged) -> Result<(), NoMemory>
    ensures ok { OnOk result (text.new.items ≡ text.old.items ++ unjudged_text system.now unjudged.now) }
    ensures kept { StartsWith text.new.items text.old.items }
{
    append_digits(text, unjudged.moment.get())?;
    append_number(text, unjudged.core.0 as u64)?;
    append_words(text, system, unjudged)?;
    text.push(b'\n')?;
    Ok(())
}

/// Appends the thread, its deadline and its activation.
fn append_words(text: &mut Vec<u8>, system: &System, unjudged: &Unjudged) -> Result<(), NoMemory>
    ensures ok { OnOk result (text.new.items ≡ text.old.items ++ after (unjudged_words system.now unjudged.now)) }
    ensures kept { StartsWith text.new.items text.old.items }
{
    append_named(text, "unjudged", thread_name(system, unjudged.thread))?;
    append_times(text, unjudged.deadline, unjudged.activated)
}

/// Appends the deadline and the activation.
fn append_times(text: &mut Vec<u8>, deadline: u64, activated: Option<u64>) -> Result<(), NoMemory>
    ensures ok { OnOk result (text.new.items ≡ text.old.items ++ after (time_words deadline activated)) }
    ensures kept { StartsWith text.new.items text.old.items }
{
    append_counts(text, &[("deadline", deadline)])?;
    append_activation(text, activated)
}

/// Appends the activation, or `-`.
fn append_activation(text: &mut Vec<u8>, activated: Option<u64>) -> Result<(), NoMemory>
    ensures ok { OnOk result (text.new.items ≡ text.old.items ++ after (codes "activated" ∷ value_word (known activated) ∷ [])) }
    ensures kept { StartsWith text.new.items text.old.items }
{
    append_word(text, "activated")?;
    match activated {
        Some(activated) => append_number(text, activated),
        None => append_word(text, "-"),
    }
}

/// The values of the line.
fn unjudged_fields<'s>(system: &'s System, unjudged: &Unjudged) -> [Field<'s>; 18]
    ensures { map field_of result ≡ unjudged_fields system.now unjudged.now }
{
    [
        ("moment", Cell::Number(unjudged.moment.get())),
        ("core", Cell::Number(unjudged.core.0 as u64)),
        ("kind", Cell::Name("unjudged")),
        ("thread", Cell::Name(thread_name(system, unjudged.thread))),
        ("note", Cell::Empty),
        ("word", Cell::Empty),
        ("number", Cell::Empty),
        ("response", Cell::Empty),
        ("age", Cell::Empty),
        ("deadline", Cell::Number(unjudged.deadline)),
        ("activated", known(unjudged.activated)),
        ("set", Cell::Empty),
        ("queued", Cell::Empty),
        ("ready", Cell::Empty),
        ("running", Cell::Empty),
        ("throttled", Cell::Empty),
        ("blocked", Cell::Empty),
        ("server", Cell::Empty),
    ]
}

/// The values of the line, behind which those of chains are empty.
fn wide_fields<'s>(system: &'s System, unjudged: &Unjudged) -> [Field<'s>; 22]
    ensures { map field_of result ≡ unjudged_fields system.now unjudged.now ++ no_columns }
{
    [
        ("moment", Cell::Number(unjudged.moment.get())),
        ("core", Cell::Number(unjudged.core.0 as u64)),
        ("kind", Cell::Name("unjudged")),
        ("thread", Cell::Name(thread_name(system, unjudged.thread))),
        ("note", Cell::Empty),
        ("word", Cell::Empty),
        ("number", Cell::Empty),
        ("response", Cell::Empty),
        ("age", Cell::Empty),
        ("deadline", Cell::Number(unjudged.deadline)),
        ("activated", known(unjudged.activated)),
        ("set", Cell::Empty),
        ("queued", Cell::Empty),
        ("ready", Cell::Empty),
        ("running", Cell::Empty),
        ("throttled", Cell::Empty),
        ("blocked", Cell::Empty),
        ("server", Cell::Empty),
        ("chain", Cell::Empty),
        ("latency", Cell::Empty),
        ("deadline", Cell::Empty),
        ("origin", Cell::Empty),
    ]
}

/// Appends the line of an unjudged thread. If memory runs out the text is unchanged.
pub fn put_unjudged_as(
    alloc: Global,
    text: &mut Vec<u8>,
    format: Format,
    system: &System,
    unjudged: &Unjudged,
) -> Result<(), NoMemory>
    ensures ok { OnOk result (text.new.items ≡ text.old.items ++ unjudged_line format system.now unjudged.now) }
    ensures err { OnErr result (text.new.items ≡ text.old.items) }
{
    if system.parts().chains.is_empty() {
        put_narrow(alloc, text, format, system, unjudged)
    } else {
        put_wide(alloc, text, format, system, unjudged)
    }
}

/// Appends the line in a file without chains.
fn put_narrow(
    alloc: Global,
    text: &mut Vec<u8>,
    format: Format,
    system: &System,
    unjudged: &Unjudged,
) -> Result<(), NoMemory>
    ensures ok { OnOk result (text.new.items ≡ text.old.items
        ++ written format (unjudged_text system.now unjudged.now) (unjudged_fields system.now unjudged.now)) }
    ensures err { OnErr result (text.new.items ≡ text.old.items) }
{
    match format {
        Format::Text => put_unjudged(text, system, unjudged),
        Format::Csv => put_row(text, unjudged_fields(system, unjudged).as_slice()),
        Format::Json => put_object(alloc, text, unjudged_fields(system, unjudged).as_slice()),
    }
}

/// Appends the line in a file with a chain.
fn put_wide(
    alloc: Global,
    text: &mut Vec<u8>,
    format: Format,
    system: &System,
    unjudged: &Unjudged,
) -> Result<(), NoMemory>
    ensures ok { OnOk result (text.new.items ≡ text.old.items
        ++ written format (unjudged_text system.now unjudged.now) (unjudged_fields system.now unjudged.now ++ no_columns)) }
    ensures err { OnErr result (text.new.items ≡ text.old.items) }
{
    match format {
        Format::Text => put_unjudged(text, system, unjudged),
        Format::Csv => put_row(text, wide_fields(system, unjudged).as_slice()),
        Format::Json => put_object(alloc, text, wide_fields(system, unjudged).as_slice()),
    }
}

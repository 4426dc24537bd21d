//! The line of a thread's figures, in each format.
ghost use Rattle.std.specs.Prelude.{◌≡◌, ◌++◌, OnOk, OnErr, map};
ghost use Rattle.mcs_fields.specs.Fields.{field_of, value_of};
ghost use Rattle.mcs_check_lines.specs.Figures.{lost_value, merged_value, thread_fields, thread_line, thread_text};
ghost use Rattle.mcs_check_lines.specs.Formats.{no_figures, written};

use crate::figures::{deadline, known, margin};
use crate::pairs::{behind_two, put_line, put_object_with, put_row_with};
use mcs_check_words::Format;
use mcs_fields::{Cell, Field, put_object, put_row};
use mcs_system::System;
use mcs_table::{Figures, Signals};
use mcs_text::thread_name;
use mcs_ticks::{NoMemory, ThreadId};
use std::alloc::Global;

fn lost<'s>(signals: Option<Signals>) -> Cell<'s>
    ensures { value_of result ≡ lost_value signals }
{
    match signals {
        Some(signals) => Cell::Number(signals.lost),
        None => Cell::Empty,
    }
}

fn merged<'s>(signals: Option<Signals>) -> Cell<'s>
    ensures { value_of result ≡ merged_value signals }
{
    match signals {
        Some(signals) => Cell::Number(signals.merged),
        None => Cell::Empty,
    }
}

fn thread_fields<'s>(system: &'s System, thread: ThreadId, figures: &Figures) -> [Field<'s>; 26]
    ensures { map field_of result ≡ thread_fields system.now thread figures.now }
{
    [
        ("kind", Cell::Name("thread")),
        ("thread", Cell::Name(thread_name(system, thread))),
        ("core", Cell::Number(figures.core.0 as u64)),
        ("priority", Cell::Number(u64::from(figures.priority))),
        ("budget", Cell::Number(figures.share.budget)),
        ("period", Cell::Number(figures.share.period)),
        ("granted", Cell::Number(figures.share.granted)),
        ("used", Cell::Number(figures.share.used)),
        ("rounds", Cell::Number(figures.rounds.ended)),
        ("greatest", known(figures.rounds.greatest)),
        ("p50", known(figures.rounds.fiftieth)),
        ("p90", known(figures.rounds.ninetieth)),
        ("p99", known(figures.rounds.ninety_ninth)),
        ("deadline", deadline(figures.deadline)),
        ("margin", margin(figures.margin)),
        ("missed", Cell::Number(figures.rounds.missed)),
        ("late", Cell::Number(figures.rounds.late)),
        ("lost", lost(figures.signals)),
        ("merged", merged(figures.signals)),
        ("ticks_pending", Cell::Number(figures.stood.pending)),
        ("ticks_ready", Cell::Number(figures.stood.ready)),
        ("ticks_running", Cell::Number(figures.stood.running)),
        ("ticks_throttled", Cell::Number(figures.stood.throttled)),
        ("ticks_blocked", Cell::Number(figures.stood.blocked)),
        ("ticks_server", Cell::Number(figures.stood.server)),
        ("ticks_done", Cell::Number(figures.stood.done)),
    ]
}

/// Appends the line of a thread's figures as text. If memory runs out the text is unchanged.
fn put_thread(
    text: &mut Vec<u8>,
    system: &System,
    thread: ThreadId,
    figures: &Figures,
) -> Result<(), NoMemory>
    ensures ok { OnOk result (text.new.items ≡ text.old.items ++ thread_text system.now thread figures.now) }
    ensures err { OnErr result (text.new.items ≡ text.old.items) }
{
    let fields = thread_fields(system, thread, figures);
    put_line(
        text,
        "thread",
        thread_name(system, thread),
        behind_two(fields.as_slice()),
    )
}

/// Appends the line of a thread's figures. If memory runs out the text is unchanged.
pub(crate) fn put_thread_as(
    alloc: Global,
    text: &mut Vec<u8>,
    format: Format,
    system: &System,
    thread: ThreadId,
    figures: &Figures,
) -> Result<(), NoMemory>
    ensures ok { OnOk result (text.new.items ≡ text.old.items ++ thread_line format system.now thread figures.now) }
    ensures err { OnErr result (text.new.items ≡ text.old.items) }
{
    if system.parts().chains.is_empty() {
        put_narrow(alloc, text, format, system, thread, figures)
    } else {
        put_wide(alloc, text, format, system, thread, figures)
    }
}

/// Appends the line in a file without chains.
fn put_narrow(
    alloc: Global,
    text: &mut Vec<u8>,
    format: Format,
    system: &System,
    thread: ThreadId,
    figures: &Figures,
) -> Result<(), NoMemory>
    ensures ok { OnOk result (text.new.items ≡ text.old.items
        ++ written format (thread_text system.now thread figures.now) (thread_fields system.now thread figures.now)) }
    ensures err { OnErr result (text.new.items ≡ text.old.items) }
{
    match format {
        Format::Text => put_thread(text, system, thread, figures),
        Format::Csv => put_row(text, thread_fields(system, thread, figures).as_slice()),
        Format::Json => put_object(
            alloc,
            text,
            thread_fields(system, thread, figures).as_slice(),
        ),
    }
}

/// Appends the line in a file with a chain.
fn put_wide(
    alloc: Global,
    text: &mut Vec<u8>,
    format: Format,
    system: &System,
    thread: ThreadId,
    figures: &Figures,
) -> Result<(), NoMemory>
    ensures ok { OnOk result (text.new.items ≡ text.old.items
        ++ written format (thread_text system.now thread figures.now) (thread_fields system.now thread figures.now ++ no_figures)) }
    ensures err { OnErr result (text.new.items ≡ text.old.items) }
{
    let (fields, more) = (thread_fields(system, thread, figures), no_figures());
    match format {
        Format::Text => put_thread(text, system, thread, figures),
        Format::Csv => put_row_with(alloc, text, fields.as_slice(), more.as_slice()),
        Format::Json => put_object_with(alloc, text, fields.as_slice(), more.as_slice()),
    }
}

/// The values of chains, which a thread does not have.
fn no_figures() -> [Field<'static>; 11]
    ensures { map field_of result ≡ no_figures }
{
    [
        ("chain", Cell::Empty),
        ("interrupts", Cell::Empty),
        ("answers", Cell::Empty),
        ("least", Cell::Empty),
        ("greatest", Cell::Empty),
        ("total", Cell::Empty),
        ("p50", Cell::Empty),
        ("p90", Cell::Empty),
        ("p99", Cell::Empty),
        ("deadline", Cell::Empty),
        ("margin", Cell::Empty),
    ]
}

//! A row of a schedule as named values.
ghost use Rattle.std.specs.Prelude.{◌≡◌, if◌then◌else◌, map};
ghost use Rattle.mcs_system.specs.System.{is_server as is_a_server};
ghost use Rattle.mcs_fields.specs.Fields.{field_of, value_of};
ghost use Rattle.mcs_text.specs.Text.{why_word};
ghost use Rattle.mcs_why_lines.specs.RowFields.{badge_of, charged_of, context_of, kind_of, maker_of, note_of, number_of, of_note, of_server, response_of, row_fields, server_of, source_of, thread_of, until_of, why_of, word_of};

use mcs_fields::{Cell, Field};
use mcs_system::System;
use mcs_text::{context_name, is_server, note_name, source_name, thread_name};
use mcs_ticks::{NoteId, Row, What, Why};

/// The values of a row, in the order of its line.
pub(crate) fn row_fields<'s>(system: &'s System, row: &Row) -> [Field<'s>; 16]
    ensures { map field_of result ≡ row_fields system.now row.now }
{
    let what = &row.what;
    [
        ("moment", Cell::Number(row.moment.get())),
        ("core", Cell::Number(row.core.0 as u64)),
        ("kind", Cell::Name(kind(system, what))),
        ("thread", thread(system, what)),
        ("context", context(system, what)),
        ("source", source(system, what)),
        ("why", why(what)),
        ("charged", charged(what)),
        ("until", until(what)),
        ("note", note(system, what)),
        ("server", server(system, what)),
        ("badge", badge(system, what)),
        ("from", maker(what)),
        ("word", word(system, what)),
        ("number", number(what)),
        ("response", response(what)),
    ]
}

fn kind(system: &System, what: &What) -> &'static str
    ensures { result.now ≡ kind_of system.now what.now }
{
    match *what {
        What::Release { .. } => "release",
        What::Run { .. } => "run",
        What::Stop { .. } => "stop",
        What::Signal { note, .. } => kind_at(system, note, "leave", "signal"),
        What::Arrive { .. } => "arrive",
        What::Wake { note, .. } => kind_at(system, note, "enter", "wake"),
        What::Hold { .. } => "hold",
        What::Got { note, .. } => kind_at(system, note, "enter", "got"),
        What::Round { .. } => "round",
        What::Order { .. } => "order",
        What::Interrupt { .. } => "interrupt",
    }
}

/// The kind of a row that differs between servers and notifications.
fn kind_at(
    system: &System,
    note: NoteId,
    at_server: &'static str,
    at_note: &'static str,
) -> &'static str
    ensures { result.now ≡ (if is_a_server system.now note then at_server.now else at_note.now) }
{
    if is_server(system, note) {
        at_server
    } else {
        at_note
    }
}

/// A value that only servers have.
fn of_server<'s>(system: &System, note: NoteId, cell: Cell<'s>) -> Cell<'s>
    ensures { value_of result ≡ of_server system.now note (value_of cell.entry) }
{
    if is_server(system, note) {
        cell
    } else {
        Cell::Empty
    }
}

/// A value that only notifications have.
fn of_note<'s>(system: &System, note: NoteId, cell: Cell<'s>) -> Cell<'s>
    ensures { value_of result ≡ of_note system.now note (value_of cell.entry) }
{
    if is_server(system, note) {
        Cell::Empty
    } else {
        cell
    }
}

fn thread<'s>(system: &'s System, what: &What) -> Cell<'s>
    ensures { value_of result ≡ thread_of system.now what.now }
{
    match *what {
        What::Release { thread }
        | What::Run { thread }
        | What::Stop { thread, .. }
        | What::Signal { thread, .. }
        | What::Wake { thread, .. }
        | What::Got { thread, .. }
        | What::Round { thread, .. } => Cell::Name(thread_name(system, thread)),
        _ => Cell::Empty,
    }
}

fn context<'s>(system: &'s System, what: &What) -> Cell<'s>
    ensures { value_of result ≡ context_of system.now what.now }
{
    match *what {
        What::Order { context } => Cell::Name(context_name(system, context)),
        _ => Cell::Empty,
    }
}

fn source<'s>(system: &'s System, what: &What) -> Cell<'s>
    ensures { value_of result ≡ source_of system.now what.now }
{
    match *what {
        What::Interrupt { source, .. } => Cell::Name(source_name(system, source)),
        _ => Cell::Empty,
    }
}

fn why<'s>(what: &What) -> Cell<'s>
    ensures { value_of result ≡ why_of what.now }
{
    match *what {
        What::Stop { why, .. } => Cell::Name(why_word(why)),
        _ => Cell::Empty,
    }
}

fn why_word(why: Why) -> &'static str
    ensures { result.now ≡ why_word why }
{
    match why {
        Why::Spent => "spent",
        Why::Yield => "yield",
        Why::Wait => "wait",
        Why::Call => "call",
        Why::Done => "done",
        Why::Preempt => "preempt",
        Why::Order => "order",
    }
}

fn charged<'s>(what: &What) -> Cell<'s>
    ensures { value_of result ≡ charged_of what.now }
{
    match *what {
        What::Stop { charged, .. } => Cell::Number(charged),
        _ => Cell::Empty,
    }
}

fn until<'s>(what: &What) -> Cell<'s>
    ensures { value_of result ≡ until_of what.now }
{
    match *what {
        What::Stop {
            until: Some(until),
            ..
        } => Cell::Number(until.get()),
        _ => Cell::Empty,
    }
}

fn note<'s>(system: &'s System, what: &What) -> Cell<'s>
    ensures { value_of result ≡ note_of system.now what.now }
{
    match *what {
        What::Signal { note, .. } | What::Wake { note, .. } | What::Got { note, .. } => {
            of_note(system, note, Cell::Name(note_name(system, note)))
        }
        What::Arrive { note, .. } | What::Hold { note, .. } | What::Interrupt { note, .. } => {
            Cell::Name(note_name(system, note))
        }
        _ => Cell::Empty,
    }
}

fn server<'s>(system: &'s System, what: &What) -> Cell<'s>
    ensures { value_of result ≡ server_of system.now what.now }
{
    match *what {
        What::Signal { note, .. } | What::Wake { note, .. } | What::Got { note, .. } => {
            of_server(system, note, Cell::Name(note_name(system, note)))
        }
        _ => Cell::Empty,
    }
}

fn badge<'s>(system: &System, what: &What) -> Cell<'s>
    ensures { value_of result ≡ badge_of system.now what.now }
{
    match *what {
        What::Signal { note, badge, .. } => {
            of_note(system, note, Cell::Number(u64::from(badge)))
        }
        What::Arrive { badge, .. } | What::Interrupt { badge, .. } => {
            Cell::Number(u64::from(badge))
        }
        _ => Cell::Empty,
    }
}

fn maker<'s>(what: &What) -> Cell<'s>
    ensures { value_of result ≡ maker_of what.now }
{
    match *what {
        What::Arrive { maker, .. } => Cell::Number(maker.0 as u64),
        _ => Cell::Empty,
    }
}

fn word<'s>(system: &System, what: &What) -> Cell<'s>
    ensures { value_of result ≡ word_of system.now what.now }
{
    match *what {
        What::Wake { note, word, .. } | What::Got { note, word, .. } => {
            of_note(system, note, Cell::Number(u64::from(word)))
        }
        What::Hold { word, .. } => Cell::Number(u64::from(word)),
        _ => Cell::Empty,
    }
}

fn number<'s>(what: &What) -> Cell<'s>
    ensures { value_of result ≡ number_of what.now }
{
    match *what {
        What::Round { number, .. } => Cell::Number(number),
        _ => Cell::Empty,
    }
}

fn response<'s>(what: &What) -> Cell<'s>
    ensures { value_of result ≡ response_of what.now }
{
    match *what {
        What::Round { response, .. } => Cell::Number(response),
        _ => Cell::Empty,
    }
}

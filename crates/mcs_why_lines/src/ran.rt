//! The account of a round that `--why` asks about: its times, and who ran meanwhile.
ghost use Rattle.std.specs.Prelude.{◌≡◌, ◌++◌, ◌∷◌, ◌≤◌, ℕ, List, OnOk, codes, drop, length, map};
ghost use Rattle.mcs_ticks.specs.declared.row.Row.{Row as TheRow};
ghost use Rattle.mcs_fields.specs.Fields.{field_of, value_of};
ghost use Rattle.mcs_text.specs.Text.{line};
ghost use Rattle.mcs_why.specs.Account.{account_of};
ghost use Rattle.mcs_check_lines.specs.Figures.{known};
ghost use Rattle.mcs_why_lines.specs.Account.{account_lines, ended_of, idle_fields, idle_line, ran_fields, ran_line, ran_lines, span_fields, span_line, span_text, tick_words, told_ran, waited};

use mcs_check_lines::put_line;
use mcs_check_words::Format;
use mcs_fields::{Cell, Field, put_object, put_row};
use mcs_system::System;
use mcs_text::{append_counts, append_word, thread_name};
use mcs_ticks::{NoMemory, ThreadId, Tick};
use mcs_why::{Account, Span};
use std::alloc::Global;

/// How long the thread waited for the word that begins the round.
fn waited(span: &Span) -> u64
    ensures { result ≡ waited span.now }
{
    let until = match (span.activated, span.begun) {
        (Some(activated), _) => activated,
        (None, Some(begun)) => begun,
        (None, None) => span.to,
    };
    until.get().saturating_sub(span.from.get())
}

fn known<'s>(moment: Option<Tick>) -> Cell<'s>
    ensures { value_of result ≡ known moment }
{
    match moment {
        Some(moment) => Cell::Number(moment.get()),
        None => Cell::Empty,
    }
}

fn ended<'s>(span: &Span) -> Cell<'s>
    ensures { value_of result ≡ ended_of span.now }
{
    if span.ended {
        Cell::Number(span.to.get())
    } else {
        Cell::Empty
    }
}

/// The values of a round's line. Its number has this label.
fn span_fields<'s>(system: &'s System, label: &'static str, span: &Span) -> [Field<'s>; 9]
    ensures { map field_of result ≡ span_fields system.now label.now span.now }
{
    [
        ("kind", Cell::Name("why")),
        ("thread", Cell::Name(thread_name(system, span.thread))),
        (label, Cell::Number(span.number)),
        ("from", Cell::Number(span.from.get())),
        ("to", Cell::Number(span.to.get())),
        ("waited", Cell::Number(waited(span))),
        ("activated", known(span.activated)),
        ("begun", known(span.begun)),
        ("ended", ended(span)),
    ]
}

fn ran_fields<'s>(system: &'s System, thread: ThreadId, ticks: u64) -> [Field<'s>; 3]
    ensures { map field_of result ≡ ran_fields system.now thread ticks }
{
    [
        ("kind", Cell::Name("ran")),
        ("thread", Cell::Name(thread_name(system, thread))),
        ("ticks", Cell::Number(ticks)),
    ]
}

fn idle_fields(ticks: u64) -> [Field<'static>; 2]
    ensures { map field_of result ≡ idle_fields ticks }
{
    [("kind", Cell::Name("idle")), ("ticks", Cell::Number(ticks))]
}

/// The values after the first two.
fn behind_two<'a, 's>(fields: &'a [Field<'s>]) -> &'a [Field<'s>]
    requires { 2 ≤ length fields.now }
    ensures { map field_of result.now ≡ drop 2 (map field_of fields.now) }
{
    &fields[2..]
}

/// Appends the line of the round's times, as text.
fn put_span_words(text: &mut Vec<u8>, system: &System, span: &Span) -> Result<(), NoMemory>
    ensures { OnOk result (text.new.items ≡ text.old.items ++ span_text system.now span.now) }
{
    let fields = span_fields(system, "round", span);
    put_line(
        text,
        "why",
        thread_name(system, span.thread),
        behind_two(fields.as_slice()),
    )
}

/// Appends the line of the round's times.
fn put_span(
    alloc: Global,
    text: &mut Vec<u8>,
    format: Format,
    system: &System,
    span: &Span,
) -> Result<(), NoMemory>
    ensures { OnOk result (text.new.items ≡ text.old.items ++ span_line format system.now span.now) }
{
    match format {
        Format::Text => put_span_words(text, system, span),
        Format::Csv => put_row(text, span_fields(system, "number", span).as_slice()),
        Format::Json => put_object(alloc, text, span_fields(system, "number", span).as_slice()),
    }
}

fn append_ran(text: &mut Vec<u8>, name: &str, ticks: u64) -> Result<(), NoMemory>
    ensures { OnOk result (text.new.items ≡ text.old.items ++ line (codes "ran") (name.now ∷ tick_words ticks)) }
{
    text.extend_from_slice(b"ran")?;
    append_word(text, name)?;
    append_counts(text, &[("ticks", ticks)])?;
    text.push(b'\n')?;
    Ok(())
}

fn append_idle(text: &mut Vec<u8>, ticks: u64) -> Result<(), NoMemory>
    ensures { OnOk result (text.new.items ≡ text.old.items ++ line (codes "idle") (tick_words ticks)) }
{
    text.extend_from_slice(b"idle")?;
    append_counts(text, &[("ticks", ticks)])?;
    text.push(b'\n')?;
    Ok(())
}

/// Appends the line of how long a thread ran.
fn put_told_ran(
    alloc: Global,
    text: &mut Vec<u8>,
    format: Format,
    system: &System,
    thread: ThreadId,
    ticks: u64,
) -> Result<(), NoMemory>
    ensures { OnOk result (text.new.items ≡ text.old.items ++ told_ran format system.now thread ticks) }
{
    match format {
        Format::Text => append_ran(text, thread_name(system, thread), ticks),
        Format::Csv => put_row(text, ran_fields(system, thread, ticks).as_slice()),
        Format::Json => put_object(alloc, text, ran_fields(system, thread, ticks).as_slice()),
    }
}

/// Appends the line of how long a thread ran, if it ran at all.
fn put_ran(
    alloc: Global,
    text: &mut Vec<u8>,
    format: Format,
    system: &System,
    thread: ThreadId,
    ticks: u64,
) -> Result<(), NoMemory>
    ensures { OnOk result (text.new.items ≡ text.old.items ++ ran_line format system.now thread ticks) }
{
    if ticks == 0 {
        return Ok(());
    }
    put_told_ran(alloc, text, format, system, thread, ticks)
}

/// Appends the line of how long the core was idle.
fn put_idle(alloc: Global, text: &mut Vec<u8>, format: Format, ticks: u64) -> Result<(), NoMemory>
    ensures { OnOk result (text.new.items ≡ text.old.items ++ idle_line format ticks) }
{
    match format {
        Format::Text => append_idle(text, ticks),
        Format::Csv => put_row(text, idle_fields(ticks).as_slice()),
        Format::Json => put_object(alloc, text, idle_fields(ticks).as_slice()),
    }
}

/// Appends how long each thread ran, in the file's order.
fn put_threads(
    alloc: Global,
    text: &mut Vec<u8>,
    format: Format,
    system: &System,
    account: &Account,
) -> Result<(), NoMemory>
    ensures { (core from to : ℕ) (past : List TheRow) → account.now ≡ account_of (length system.now.threads) core from to past →
        OnOk result (text.new.items ≡ text.old.items ++ ran_lines format system.now core past from to 0 system.now.threads) }
{
    for (number, _) in system.parts().threads.as_slice().iter().enumerate() {
        let thread = ThreadId(number);
        let ticks = account.ran(thread);
        put_ran(alloc, text, format, system, thread, ticks)?;
    }
    Ok(())
}

/// Appends the round's times, how long each thread ran meanwhile, and how long the core was idle.
pub fn put_account(
    alloc: Global,
    text: &mut Vec<u8>,
    format: Format,
    system: &System,
    span: &Span,
    account: &Account,
) -> Result<(), NoMemory>
    ensures { (past : List TheRow) → account.now ≡ account_of (length system.now.threads) span.now.core span.now.from span.now.to past →
        OnOk result (text.new.items ≡ text.old.items ++ account_lines format system.now span.now past) }
{
    put_span(alloc, text, format, system, span)?;
    put_threads(alloc, text, format, system, account)?;
    put_idle(alloc, text, format, account.idle())
}

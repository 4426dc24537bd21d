//! The figures of threads and contexts, as named values and as lines.
ghost use Rattle.std.specs.Prelude.{◌≡◌, ◌++◌, ◌<◌, ℕ, List, OnOk, OnErr, length, map};
ghost use Rattle.mcs_ticks.specs.declared.row.Row.{Row as TheRow};
ghost use Rattle.mcs_fields.specs.Fields.{field_of, value_of};
ghost use Rattle.mcs_verdict.specs.Findings.{UpTo};
ghost use Rattle.mcs_verdict.specs.Watch.{watch_of};
ghost use Rattle.mcs_table.specs.Figures.{figures_of};
ghost use Rattle.mcs_table.specs.Table.{table_of};
ghost use Rattle.mcs_table.specs.Unused.{unused_of};
ghost use Rattle.mcs_check_lines.specs.Figures.{context_fields, context_line, context_lines, context_text, deadline_known, known, margin_value, table_lines, thread_lines};

use crate::pairs::put_line;
use crate::thread_line::put_thread_as;
use mcs_check_words::Format;
use mcs_fields::{Cell, Field, put_object};
use mcs_system::System;
use mcs_table::{Figures, Margin, Table};
use mcs_text::context_name;
use mcs_ticks::{ContextId, NoMemory, ThreadId};
use mcs_verdict::Watch;
use std::alloc::Global;

pub(crate) fn known<'s>(number: Option<u64>) -> Cell<'s>
    ensures { value_of result ≡ known number }
{
    match number {
        Some(number) => Cell::Number(number),
        None => Cell::Empty,
    }
}

pub(crate) fn deadline<'s>(deadline: u64) -> Cell<'s>
    ensures { value_of result ≡ deadline_known deadline }
{
    if deadline == 0 {
        Cell::Empty
    } else {
        Cell::Number(deadline)
    }
}

pub(crate) fn margin<'s>(margin: Option<Margin>) -> Cell<'s>
    ensures { value_of result ≡ margin_value margin }
{
    match margin {
        Some(Margin::Left(ticks)) => Cell::Number(ticks),
        Some(Margin::Over(ticks)) => Cell::Below(ticks),
        None => Cell::Empty,
    }
}

fn context_fields<'s>(system: &'s System, context: ContextId, unused: Option<u64>) -> [Field<'s>; 3]
    ensures { map field_of result ≡ context_fields system.now context unused }
{
    [
        ("kind", Cell::Name("context")),
        ("context", Cell::Name(context_name(system, context))),
        ("unused", known(unused)),
    ]
}

/// Appends the line of a context's figure as text. If memory runs out the text is unchanged.
fn put_context(
    text: &mut Vec<u8>,
    system: &System,
    context: ContextId,
    unused: Option<u64>,
) -> Result<(), NoMemory>
    ensures ok { OnOk result (text.new.items ≡ text.old.items ++ context_text system.now context unused) }
    ensures err { OnErr result (text.new.items ≡ text.old.items) }
{
    let fields = [("unused", known(unused))];
    put_line(text, "context", context_name(system, context), &fields)
}

/// Appends the line of a context's figure; CSV has no lines of contexts.
fn put_context_as(
    alloc: Global,
    text: &mut Vec<u8>,
    format: Format,
    system: &System,
    context: ContextId,
    unused: Option<u64>,
) -> Result<(), NoMemory>
    ensures ok { OnOk result (text.new.items ≡ text.old.items ++ context_line format system.now context unused) }
    ensures err { OnErr result (text.new.items ≡ text.old.items) }
{
    match format {
        Format::Text => put_context(text, system, context, unused),
        Format::Csv => Ok(()),
        Format::Json => put_object(
            alloc,
            text,
            context_fields(system, context, unused).as_slice(),
        ),
    }
}

fn figures_of(system: &System, watch: &Watch, table: &Table, thread: ThreadId) -> Figures
    requires known { thread < length system.now.threads }
    requires watched { length watch.now.accounts ≡ length system.now.threads }
    requires kept { length table.now.accounts ≡ length system.now.threads }
    ensures { (horizon : ℕ) (past : List TheRow) → watch.now ≡ watch_of system.now past → table.now ≡ table_of system.now horizon past →
        UpTo horizon past → result ≡ figures_of system.now horizon past thread }
{
    table.figures(system, watch, thread)
}

fn unused_of(system: &System, watch: &Watch, table: &Table, context: ContextId) -> Option<u64>
    requires known { context < length system.now.contexts }
    requires watched { length watch.now.accounts ≡ length system.now.threads }
    ensures { (horizon : ℕ) (past : List TheRow) → watch.now ≡ watch_of system.now past → table.now ≡ table_of system.now horizon past →
        UpTo horizon past → result ≡ unused_of system.now horizon past context }
{
    table.unused(system, watch, context)
}

fn put_threads(
    alloc: Global,
    text: &mut Vec<u8>,
    format: Format,
    system: &System,
    watch: &Watch,
    table: &Table,
) -> Result<(), NoMemory>
    requires watched { length watch.now.accounts ≡ length system.now.threads }
    requires kept { length table.now.accounts ≡ length system.now.threads }
    ensures { (horizon : ℕ) (past : List TheRow) → watch.now ≡ watch_of system.now past → table.now ≡ table_of system.now horizon past →
        UpTo horizon past →
        OnOk result (text.new.items ≡ text.old.items ++ thread_lines format system.now horizon past 0 system.now.threads) }
{
    for (number, _) in system.parts().threads.as_slice().iter().enumerate() {
        let thread = ThreadId(number);
        let figures = figures_of(system, watch, table, thread);
        put_thread_as(alloc, text, format, system, thread, &figures)?;
    }
    Ok(())
}

fn put_contexts(
    alloc: Global,
    text: &mut Vec<u8>,
    format: Format,
    system: &System,
    watch: &Watch,
    table: &Table,
) -> Result<(), NoMemory>
    requires watched { length watch.now.accounts ≡ length system.now.threads }
    ensures { (horizon : ℕ) (past : List TheRow) → watch.now ≡ watch_of system.now past → table.now ≡ table_of system.now horizon past →
        UpTo horizon past →
        OnOk result (text.new.items ≡ text.old.items ++ context_lines format system.now horizon past 0 system.now.contexts) }
{
    for (number, _) in system.parts().contexts.as_slice().iter().enumerate() {
        let context = ContextId(number);
        let unused = unused_of(system, watch, table, context);
        put_context_as(alloc, text, format, system, context, unused)?;
    }
    Ok(())
}

/// Appends the lines of the figures: those of the threads, then those of the contexts.
pub fn put_table(
    alloc: Global,
    text: &mut Vec<u8>,
    format: Format,
    system: &System,
    watch: &Watch,
    table: &Table,
) -> Result<(), NoMemory>
    requires watched { length watch.now.accounts ≡ length system.now.threads }
    requires kept { length table.now.accounts ≡ length system.now.threads }
    ensures { (horizon : ℕ) (past : List TheRow) → watch.now ≡ watch_of system.now past → table.now ≡ table_of system.now horizon past →
        UpTo horizon past →
        OnOk result (text.new.items ≡ text.old.items ++ table_lines format system.now horizon past) }
{
    put_threads(alloc, text, format, system, watch, table)?;
    put_contexts(alloc, text, format, system, watch, table)
}

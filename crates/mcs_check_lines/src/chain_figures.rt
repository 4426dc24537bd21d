//! The lines of chains' figures.
ghost use Rattle.std.specs.Prelude.{◌≡◌, ◌++◌, ◌∷◌, OnOk, OnErr, codes, map};
ghost use Rattle.mcs_fields.specs.Fields.{field_of, name};
ghost use Rattle.mcs_check_lines.specs.Chains.{chain_line, chain_lines, chain_text, no_thread, own_fields};

use crate::chain_line::chain_name;
use crate::figures::{deadline, known, margin};
use crate::pairs::{behind_one, put_line, put_object_with, put_row_with};
use mcs_chain::{ChainId, Figures};
use mcs_check_words::Format;
use mcs_fields::{Cell, Field};
use mcs_system::System;
use mcs_ticks::NoMemory;
use std::alloc::Global;

/// The figures of a chain, in the columns of chains.
fn own_fields<'s>(system: &'s System, chain: ChainId, figures: &Figures) -> [Field<'s>; 11]
    ensures { map field_of result ≡ own_fields system.now chain figures.now }
{
    [
        ("chain", Cell::Name(chain_name(system, chain))),
        ("interrupts", Cell::Number(figures.interrupts)),
        ("answers", Cell::Number(figures.answers)),
        ("least", known(figures.least)),
        ("greatest", known(figures.greatest)),
        ("total", Cell::Number(figures.total)),
        ("p50", known(figures.fiftieth)),
        ("p90", known(figures.ninetieth)),
        ("p99", known(figures.ninety_ninth)),
        ("deadline", deadline(figures.deadline)),
        ("margin", margin(figures.margin)),
    ]
}

/// The kind of a chain's line, and the values of threads, which it does not have.
fn no_thread() -> [Field<'static>; 26]
    ensures { map field_of result ≡ (codes "kind", name (codes "chain")) ∷ no_thread }
{
    [
        ("kind", Cell::Name("chain")),
        ("thread", Cell::Empty),
        ("core", Cell::Empty),
        ("priority", Cell::Empty),
        ("budget", Cell::Empty),
        ("period", Cell::Empty),
        ("granted", Cell::Empty),
        ("used", Cell::Empty),
        ("rounds", Cell::Empty),
        ("greatest", Cell::Empty),
        ("p50", Cell::Empty),
        ("p90", Cell::Empty),
        ("p99", Cell::Empty),
        ("deadline", Cell::Empty),
        ("margin", Cell::Empty),
        ("missed", Cell::Empty),
        ("late", Cell::Empty),
        ("lost", Cell::Empty),
        ("merged", Cell::Empty),
        ("ticks_pending", Cell::Empty),
        ("ticks_ready", Cell::Empty),
        ("ticks_running", Cell::Empty),
        ("ticks_throttled", Cell::Empty),
        ("ticks_blocked", Cell::Empty),
        ("ticks_server", Cell::Empty),
        ("ticks_done", Cell::Empty),
    ]
}

/// Appends the line of a chain's figures as text. If memory runs out the text is unchanged.
fn put_chain(
    text: &mut Vec<u8>,
    system: &System,
    chain: ChainId,
    figures: &Figures,
) -> Result<(), NoMemory>
    ensures ok { OnOk result (text.new.items ≡ text.old.items ++ chain_text system.now chain figures.now) }
    ensures err { OnErr result (text.new.items ≡ text.old.items) }
{
    let fields = own_fields(system, chain, figures);
    put_line(
        text,
        "chain",
        chain_name(system, chain),
        behind_one(fields.as_slice()),
    )
}

/// Appends the line of a chain's figures. If memory runs out the text is unchanged.
fn put_chain_as(
    alloc: Global,
    text: &mut Vec<u8>,
    format: Format,
    system: &System,
    chain: ChainId,
    figures: &Figures,
) -> Result<(), NoMemory>
    ensures ok { OnOk result (text.new.items ≡ text.old.items ++ chain_line format system.now chain figures.now) }
    ensures err { OnErr result (text.new.items ≡ text.old.items) }
{
    let (first, own) = (no_thread(), own_fields(system, chain, figures));
    match format {
        Format::Text => put_chain(text, system, chain, figures),
        Format::Csv => put_row_with(alloc, text, first.as_slice(), own.as_slice()),
        Format::Json => put_object_with(alloc, text, first.as_slice(), own.as_slice()),
    }
}

/// Appends the lines of the chains' figures.
pub fn put_chains(
    alloc: Global,
    text: &mut Vec<u8>,
    format: Format,
    system: &System,
    all: &[Figures],
) -> Result<(), NoMemory>
    ensures { OnOk result (text.new.items ≡ text.old.items ++ chain_lines format system.now 0 all.now) }
{
    for (number, figures) in all.iter().enumerate() {
        put_chain_as(alloc, text, format, system, ChainId(number), figures)?;
    }
    Ok(())
}

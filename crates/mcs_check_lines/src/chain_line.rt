//! The lines of the findings of chains.
ghost use Rattle.std.specs.Prelude.{◌≡◌, ◌++◌, ◌∷◌, [], OnOk, OnErr, codes, map};
ghost use Rattle.std.specs.Io.{StartsWith};
ghost use Rattle.mcs_fields.specs.Fields.{field_of, value_of};
ghost use Rattle.mcs_text.specs.Text.{after, counted};
ghost use Rattle.mcs_check_lines.specs.Chains.{chain_deadline, chain_found_fields, chain_found_line, chain_found_lines, chain_found_text, chain_kind, chain_words, due_words, latency_of, origin_of};
ghost use Rattle.mcs_check_lines.specs.Names.{chain_name};

use crate::line::{append_digits, append_named};
use mcs_chain::{ChainId, Finding, Found};
use mcs_check_words::Format;
use mcs_fields::{Cell, Field, put_object, put_row};
use mcs_system::System;
use mcs_text::{append_counts, append_number};
use mcs_ticks::{NoMemory, Tick};
use std::alloc::Global;

/// The name of a chain, or the empty text if there is no such chain.
pub(crate) fn chain_name(system: &System, chain: ChainId) -> &str
    ensures { result.now ≡ chain_name system.now chain }
{
    match system.parts().chains.as_slice().get(chain.0) {
        Some(part) => part.name.as_str(),
        None => "",
    }
}

/// Appends the line of a finding as text. If memory runs out the text is unchanged.
fn put_chain_found(text: &mut Vec<u8>, system: &System, found: &Found) -> Result<(), NoMemory>
    ensures ok { OnOk result (text.new.items ≡ text.old.items ++ chain_found_text system.now found.now) }
    ensures err { OnErr result (text.new.items ≡ text.old.items) }
{
    let start = text.len();
    let result = append_chain_found(text, system, found);
    if result.is_err() {
        text.truncate(start);
    }
    result
}

fn append_chain_found(text: &mut Vec<u8>, system: &System, found: &Found) -> Result<(), NoMemory>
    ensures ok { OnOk result (text.new.items ≡ text.old.items ++ chain_found_text system.now found.now) }
    ensures kept { StartsWith text.new.items text.old.items }
{
    append_digits(text, found.moment.get())?;
    append_number(text, found.core.0 as u64)?;
    append_chain_words(text, system, found)?;
    text.push(b'\n')?;
    Ok(())
}

/// Appends a finding, without its time and core.
fn append_chain_words(text: &mut Vec<u8>, system: &System, found: &Found) -> Result<(), NoMemory>
    ensures ok { OnOk result (text.new.items ≡ text.old.items ++ after (chain_words system.now found.now.chain found.now.finding)) }
    ensures kept { StartsWith text.new.items text.old.items }
{
    let name = chain_name(system, found.chain);
    match found.finding {
        Finding::Slow {
            latency,
            deadline,
            origin,
        } => append_slow(text, name, latency, deadline, origin),
        Finding::Unanswered { deadline, origin } => append_unanswered(text, name, deadline, origin),
    }
}

fn append_slow(
    text: &mut Vec<u8>,
    name: &str,
    latency: u64,
    deadline: u64,
    origin: Tick,
) -> Result<(), NoMemory>
    ensures ok { OnOk result (text.new.items ≡ text.old.items
        ++ after (codes "slow" ∷ name.now ∷ counted ((codes "latency", latency) ∷ []) ++ due_words deadline origin)) }
    ensures kept { StartsWith text.new.items text.old.items }
{
    append_named(text, "slow", name)?;
    append_counts(text, &[("latency", latency)])?;
    append_due(text, deadline, origin)
}

fn append_unanswered(
    text: &mut Vec<u8>,
    name: &str,
    deadline: u64,
    origin: Tick,
) -> Result<(), NoMemory>
    ensures ok { OnOk result (text.new.items ≡ text.old.items
        ++ after (codes "unanswered" ∷ name.now ∷ due_words deadline origin)) }
    ensures kept { StartsWith text.new.items text.old.items }
{
    append_named(text, "unanswered", name)?;
    append_due(text, deadline, origin)
}

/// Appends the deadline and the origin.
fn append_due(text: &mut Vec<u8>, deadline: u64, origin: Tick) -> Result<(), NoMemory>
    ensures ok { OnOk result (text.new.items ≡ text.old.items ++ after (due_words deadline origin)) }
    ensures kept { StartsWith text.new.items text.old.items }
{
    append_counts(text, &[("deadline", deadline), ("origin", origin.get())])
}

fn kind(finding: &Finding) -> &'static str
    ensures { result.now ≡ chain_kind finding.now }
{
    match finding {
        Finding::Slow { .. } => "slow",
        Finding::Unanswered { .. } => "unanswered",
    }
}

fn latency<'s>(finding: &Finding) -> Cell<'s>
    ensures { value_of result ≡ latency_of finding.now }
{
    match *finding {
        Finding::Slow { latency, .. } => Cell::Number(latency),
        Finding::Unanswered { .. } => Cell::Empty,
    }
}

fn deadline_of(finding: &Finding) -> u64
    ensures { result ≡ chain_deadline finding.now }
{
    match *finding {
        Finding::Slow { deadline, .. } | Finding::Unanswered { deadline, .. } => deadline,
    }
}

fn origin(finding: &Finding) -> Tick
    ensures { result ≡ origin_of finding.now }
{
    match *finding {
        Finding::Slow { origin, .. } | Finding::Unanswered { origin, .. } => origin,
    }
}

/// The values of a finding; those of other findings are empty.
fn chain_found_fields<'s>(system: &'s System, found: &Found) -> [Field<'s>; 22]
    ensures { map field_of result ≡ chain_found_fields system.now found.now }
{
    let finding = &found.finding;
    [
        ("moment", Cell::Number(found.moment.get())),
        ("core", Cell::Number(found.core.0 as u64)),
        ("kind", Cell::Name(kind(finding))),
        ("thread", Cell::Empty),
        ("note", Cell::Empty),
        ("word", Cell::Empty),
        ("number", Cell::Empty),
        ("response", Cell::Empty),
        ("age", Cell::Empty),
        ("deadline", Cell::Empty),
        ("activated", Cell::Empty),
        ("set", Cell::Empty),
        ("queued", Cell::Empty),
        ("ready", Cell::Empty),
        ("running", Cell::Empty),
        ("throttled", Cell::Empty),
        ("blocked", Cell::Empty),
        ("server", Cell::Empty),
        ("chain", Cell::Name(chain_name(system, found.chain))),
        ("latency", latency(finding)),
        ("deadline", Cell::Number(deadline_of(finding))),
        ("origin", Cell::Number(origin(finding).get())),
    ]
}

/// Appends the line of a finding. If memory runs out the text is unchanged.
pub(crate) fn put_chain_found_as(
    alloc: Global,
    text: &mut Vec<u8>,
    format: Format,
    system: &System,
    found: &Found,
) -> Result<(), NoMemory>
    ensures ok { OnOk result (text.new.items ≡ text.old.items ++ chain_found_line format system.now found.now) }
    ensures err { OnErr result (text.new.items ≡ text.old.items) }
{
    match format {
        Format::Text => put_chain_found(text, system, found),
        Format::Csv => put_row(text, chain_found_fields(system, found).as_slice()),
        Format::Json => put_object(alloc, text, chain_found_fields(system, found).as_slice()),
    }
}

/// Appends the lines of findings.
pub fn put_chains_found(
    alloc: Global,
    text: &mut Vec<u8>,
    format: Format,
    system: &System,
    all: &[Found],
) -> Result<(), NoMemory>
    ensures { OnOk result (text.new.items ≡ text.old.items ++ chain_found_lines format system.now all.now) }
{
    for found in all {
        put_chain_found_as(alloc, text, format, system, found)?;
    }
    Ok(())
}

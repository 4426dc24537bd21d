//! Lines in each format.
ghost use Rattle.std.specs.Prelude.{◌≡◌, ◌++◌, OnOk, OnErr};
ghost use Rattle.std.specs.Io.{StartsWith};
ghost use Rattle.mcs_ever_chain_lines.specs.Lines.{chain_line, chain_lines, chains_text, left_line, slow_line};

use crate::findings::{has_slow, tells};
use crate::object::{put_chain_object, put_finding_object};
use crate::text::{append_chain, append_finding};
use mcs_ever_chain::ChainTold;
use mcs_ever_told::LineFormat;
use mcs_system::System;
use mcs_ticks::{NoMemory, Tick};
use std::alloc::Global;

/// Appends the lines of each chain, with the system's names. The chains were searched up to this
/// horizon. If memory runs out, the text is unchanged.
pub fn put_chains(
    alloc: Global,
    text: &mut Vec<u8>,
    format: LineFormat,
    system: &System,
    horizon: Tick,
    told: &[ChainTold],
) -> Result<(), NoMemory>
    ensures ok { OnOk result (text.new.items ≡ text.old.items ++ chains_text system.now format horizon told.now) }
    ensures err { OnErr result (text.new.items ≡ text.old.items) }
{
    let start = text.len();
    let result = append_chains(alloc, text, format, system, horizon, told);
    if result.is_err() {
        text.truncate(start);
    }
    result
}

fn append_chains(
    alloc: Global,
    text: &mut Vec<u8>,
    format: LineFormat,
    system: &System,
    horizon: Tick,
    told: &[ChainTold],
) -> Result<(), NoMemory>
    ensures ok { OnOk result (text.new.items ≡ text.old.items ++ chains_text system.now format horizon told.now) }
    ensures kept { StartsWith text.new.items text.old.items }
{
    for chain in told {
        append_lines(alloc, text, format, system, horizon, chain)?;
    }
    Ok(())
}

/// Appends the lines of a chain. If memory runs out, a first part of them may have been appended.
fn append_lines(
    alloc: Global,
    text: &mut Vec<u8>,
    format: LineFormat,
    system: &System,
    horizon: Tick,
    told: &ChainTold,
) -> Result<(), NoMemory>
    ensures ok { OnOk result (text.new.items ≡ text.old.items ++ chain_lines system.now format horizon told.now) }
    ensures kept { StartsWith text.new.items text.old.items }
{
    put_chain(alloc, text, format, system, horizon, told)?;
    put_slow(alloc, text, format, system, told)?;
    put_left(alloc, text, format, system, told)
}

/// Appends the line of a chain.
fn put_chain(
    alloc: Global,
    text: &mut Vec<u8>,
    format: LineFormat,
    system: &System,
    horizon: Tick,
    told: &ChainTold,
) -> Result<(), NoMemory>
    ensures ok { OnOk result (text.new.items ≡ text.old.items ++ chain_line system.now format horizon told.now) }
    ensures kept { StartsWith text.new.items text.old.items }
{
    match format {
        LineFormat::Text => append_chain(text, system, horizon, told),
        LineFormat::Json => put_chain_object(alloc, text, system, horizon, told),
    }
}

/// Appends the line of slow answers, if there are any.
fn put_slow(
    alloc: Global,
    text: &mut Vec<u8>,
    format: LineFormat,
    system: &System,
    told: &ChainTold,
) -> Result<(), NoMemory>
    ensures ok { OnOk result (text.new.items ≡ text.old.items ++ slow_line system.now format told.now) }
    ensures kept { StartsWith text.new.items text.old.items }
{
    if !has_slow(told) {
        return Ok(());
    }
    match format {
        LineFormat::Text => append_finding(text, system, "slow", told.chain, &told.slow),
        LineFormat::Json => {
            put_finding_object(alloc, text, system, "slow", told.chain, &told.slow)
        }
    }
}

/// Appends the line of interrupts without an answer, if there is one.
fn put_left(
    alloc: Global,
    text: &mut Vec<u8>,
    format: LineFormat,
    system: &System,
    told: &ChainTold,
) -> Result<(), NoMemory>
    ensures ok { OnOk result (text.new.items ≡ text.old.items ++ left_line system.now format told.now) }
    ensures kept { StartsWith text.new.items text.old.items }
{
    let Some(often) = &told.unanswered else {
        return Ok(());
    };
    if !tells(has_slow(told), often) {
        return Ok(());
    }
    match format {
        LineFormat::Text => append_finding(text, system, "unanswered", told.chain, often),
        LineFormat::Json => {
            put_finding_object(alloc, text, system, "unanswered", told.chain, often)
        }
    }
}

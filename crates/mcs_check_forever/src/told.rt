//! The results of all sets of cores and of all chains as text, and their verdict.
ghost use Rattle.std.specs.Prelude.{◌≡◌, ◌++◌, flat_map, IfOk, OnOk};
ghost use Rattle.std.specs.List.{list_any};
ghost use Rattle.mcs_ever_told.specs.Formats.{lines_text};
ghost use Rattle.mcs_ever_told.specs.declared.outlook.told.Told.{Told as ToldSet};
ghost use Rattle.mcs_check_forever.specs.Verdict.{chain_findings, deadlines, findings, is_open, line_format, repeating, says_nothing, set_findings, told_text, totals_of, verdict_of};

use crate::Verdict;
use mcs_check_lines::{chain_deadlines, thread_deadlines};
use mcs_check_words::Format;
use mcs_ever_chain::ChainTold;
use mcs_ever_chain_lines::{findings_of, put_chains};
use mcs_ever_told::{Line, LineFormat, Told, Totals, put_line, put_lines};
use mcs_system::System;
use mcs_ticks::{NoMemory, Tick};
use std::alloc::Global;

/// The format of the lines.
fn line_format(format: Format) -> LineFormat
    ensures { result ≡ line_format format }
{
    match format {
        Format::Json => LineFormat::Json,
        Format::Text | Format::Csv => LineFormat::Text,
    }
}

/// The number of sets that repeat.
fn repeating(told: &[Told]) -> usize
    ensures { result ≡ repeating told.now }
{
    told.iter().filter(|set| set.period.is_some()).count()
}

/// The number of findings of all sets.
fn set_findings(told: &[Told]) -> u64
    ensures { result ≡ set_findings told.now }
{
    let mut findings: u64 = 0;
    for set in told {
        findings = findings.saturating_add(set.findings as u64);
    }
    findings
}

/// The number of findings of all chains.
fn chain_findings(chains: &[ChainTold]) -> u64
    ensures { result ≡ chain_findings chains.now }
{
    let mut findings: u64 = 0;
    for chain in chains {
        findings = findings.saturating_add(findings_of(chain) as u64);
    }
    findings
}

/// The number of findings of all sets and chains.
fn findings(told: &[Told], chains: &[ChainTold]) -> u64
    ensures { result ≡ findings told.now chains.now }
{
    set_findings(told).saturating_add(chain_findings(chains))
}

/// How many threads and chains have a deadline.
fn deadlines(system: &System) -> usize
    ensures { result ≡ deadlines system.now }
{
    let (threads, chains) = (&system.parts().threads, &system.parts().chains);
    thread_deadlines(threads.as_slice()) + chain_deadlines(chains.as_slice())
}

/// How much was looked at and found.
fn totals_of(system: &System, told: &[Told], chains: &[ChainTold]) -> Totals
    ensures { result ≡ totals_of system.now told.now chains.now }
{
    Totals {
        sets: told.len() as u64,
        repeating: repeating(told) as u64,
        findings: findings(told, chains),
        threads: system.parts().threads.len() as u64,
        deadlines: deadlines(system) as u64,
    }
}

/// Appends the lines of each set.
fn put_sets(
    alloc: Global,
    text: &mut Vec<u8>,
    format: LineFormat,
    system: &System,
    told: &[Told],
) -> Result<(), NoMemory>
    ensures { OnOk result
        (text.new.items ≡ text.old.items ++ flat_map (λ (t : ToldSet). lines_text format system.now t.lines.items) told.now) }
{
    for set in told {
        put_lines(alloc, text, format, system, set.lines.as_slice())?;
    }
    Ok(())
}

/// The lines of all sets and of all chains, and the line of their counts. They were searched up to
/// this horizon.
pub(crate) fn text_of(
    alloc: Global,
    format: Format,
    system: &System,
    horizon: Tick,
    told: &[Told],
    chains: &[ChainTold],
) -> Result<Vec<u8>, NoMemory>
    ensures { IfOk result (λ text. text.items ≡ told_text format system.now horizon told.now chains.now) }
{
    let format = line_format(format);
    let mut text = Vec::new(alloc);
    put_sets(alloc, &mut text, format, system, told)?;
    put_chains(alloc, &mut text, format, system, horizon, chains)?;
    let last = Line::Sets {
        totals: totals_of(system, told, chains),
    };
    put_line(alloc, &mut text, format, system, &last)?;
    Ok(text)
}

/// Whether a chain has a deadline and was not found to recur.
fn is_open(system: &System, told: &ChainTold) -> bool
    ensures { result ≡ is_open system.now told.now }
{
    told.period.is_none()
        && match system.parts().chains.as_slice().get(told.chain.0) {
            Some(chain) => chain.deadline != 0,
            None => false,
        }
}

/// Whether some chain has a deadline and was not found to recur.
fn is_any_open(system: &System, chains: &[ChainTold]) -> bool
    ensures { result ≡ list_any (is_open system.now) chains.now }
{
    chains.iter().any(|chain| is_open(system, chain))
}

/// Whether it says nothing that there is no finding: a set does not repeat, or a chain with a
/// deadline does not, or there is no deadline.
fn says_nothing(system: &System, told: &[Told], chains: &[ChainTold]) -> bool
    ensures { result ≡ says_nothing system.now told.now chains.now }
{
    repeating(told) != told.len() || is_any_open(system, chains) || deadlines(system) == 0
}

/// The verdict of all sets and chains.
pub(crate) fn verdict_of(system: &System, told: &[Told], chains: &[ChainTold]) -> Verdict
    ensures { result ≡ verdict_of system.now told.now chains.now }
{
    if findings(told, chains) != 0 {
        Verdict::Found
    } else if says_nothing(system, told, chains) {
        Verdict::Open
    } else {
        Verdict::Clean
    }
}

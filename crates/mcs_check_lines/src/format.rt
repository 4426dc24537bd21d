//! The lines of what is shown, in each format. If memory runs out, a call leaves the text
//! unchanged.
ghost use Rattle.std.specs.Prelude.{◌≡◌, ◌++◌, Some, OnOk, OnErr};
ghost use Rattle.mcs_fields.specs.Fields.{object_text};
ghost use Rattle.mcs_check_lines.specs.Fields.{chain_count_fields, checked_fields, counts_fields, found_members};
ghost use Rattle.mcs_check_lines.specs.Formats.{counts_line, found_line, found_row, is_mixed};
ghost use Rattle.mcs_check_lines.specs.Shown.{shown_text};

use crate::fields::{checked_fields, counts_fields, found_fields, put_members, wide_found_fields};
use crate::job_line::put_job_as;
use crate::line::{put_counts, put_found};
use crate::shown::Shown;
use crate::untaken_line::put_untaken_object;
use crate::{ChainCounts, Checked, Counts, Scope};
use mcs_check_words::{Format, Show};
use mcs_fields::{Cell, put_object, put_row};
use mcs_system::System;
use mcs_ticks::NoMemory;
use mcs_verdict::{Finding, Found};
use std::alloc::Global;

/// Whether rows of two kinds are asked for as CSV.
pub fn is_mixed(format: Format, show: Show) -> bool
    ensures { result ≡ is_mixed format show }
{
    matches!((format, show), (Format::Csv, Show::Both))
}

/// Appends the line of what is shown.
pub fn put_shown(
    alloc: Global,
    text: &mut Vec<u8>,
    format: Format,
    system: &System,
    shown: &Shown,
) -> Result<(), NoMemory>
    ensures ok { OnOk result (text.new.items ≡ text.old.items ++ shown_text format system.now shown.now) }
    ensures err { OnErr result (text.new.items ≡ text.old.items) }
{
    match shown {
        Shown::Found(found) => put_found_as(alloc, text, format, system, found),
        Shown::Job(job) => put_job_as(alloc, text, format, system, job),
    }
}

/// Appends the line of a finding.
pub fn put_found_as(
    alloc: Global,
    text: &mut Vec<u8>,
    format: Format,
    system: &System,
    found: &Found,
) -> Result<(), NoMemory>
    ensures ok { OnOk result (text.new.items ≡ text.old.items ++ found_line format system.now found.now) }
    ensures err { OnErr result (text.new.items ≡ text.old.items) }
{
    match format {
        Format::Text => put_found(alloc, text, system, found),
        Format::Csv => put_found_row(text, system, found),
        Format::Json => put_found_object(alloc, text, system, found),
    }
}

/// Appends the row of a finding. In a file with a chain the columns of chains follow, empty.
fn put_found_row(text: &mut Vec<u8>, system: &System, found: &Found) -> Result<(), NoMemory>
    ensures ok { OnOk result (text.new.items ≡ text.old.items ++ found_row system.now found.now) }
    ensures err { OnErr result (text.new.items ≡ text.old.items) }
{
    if system.parts().chains.is_empty() {
        put_row(text, found_fields(system, found).as_slice())
    } else {
        put_row(text, wide_found_fields(system, found).as_slice())
    }
}

/// Appends the object of a finding.
fn put_found_object(
    alloc: Global,
    text: &mut Vec<u8>,
    system: &System,
    found: &Found,
) -> Result<(), NoMemory>
    ensures ok { OnOk result (text.new.items ≡ text.old.items ++ object_text (found_members system.now found.now)) }
    ensures err { OnErr result (text.new.items ≡ text.old.items) }
{
    match found.finding {
        Finding::Untaken { note, .. } => put_untaken_object(alloc, text, system, found, note),
        _ => put_members(alloc, text, system, found, Cell::Empty),
    }
}

/// Appends the line of the counts; CSV has none.
pub fn put_counts_as(
    alloc: Global,
    text: &mut Vec<u8>,
    format: Format,
    checked: &Checked,
) -> Result<(), NoMemory>
    ensures ok { OnOk result (text.new.items ≡ text.old.items ++ counts_line format checked.now) }
    ensures err { OnErr result (text.new.items ≡ text.old.items) }
{
    match format {
        Format::Text => put_counts(text, checked),
        Format::Csv => Ok(()),
        Format::Json => put_counts_object(alloc, text, checked),
    }
}

fn put_counts_object(alloc: Global, text: &mut Vec<u8>, checked: &Checked) -> Result<(), NoMemory>
    ensures ok { OnOk result (text.new.items ≡ text.old.items ++ object_text (checked_fields checked.now)) }
    ensures err { OnErr result (text.new.items ≡ text.old.items) }
{
    match &checked.chains {
        Some(chains) => put_wide_counts(alloc, text, &checked.counts, &checked.scope, chains),
        None => put_narrow_counts(alloc, text, &checked.counts, &checked.scope),
    }
}

/// Appends the counts of a file without chains.
fn put_narrow_counts(
    alloc: Global,
    text: &mut Vec<u8>,
    counts: &Counts,
    scope: &Scope,
) -> Result<(), NoMemory>
    ensures ok { OnOk result (text.new.items ≡ text.old.items ++ object_text (counts_fields counts.now scope.now)) }
    ensures err { OnErr result (text.new.items ≡ text.old.items) }
{
    put_object(alloc, text, counts_fields(counts, scope).as_slice())
}

/// Appends the counts with those of chains.
fn put_wide_counts(
    alloc: Global,
    text: &mut Vec<u8>,
    counts: &Counts,
    scope: &Scope,
    chains: &ChainCounts,
) -> Result<(), NoMemory>
    ensures ok { OnOk result (text.new.items ≡ text.old.items ++ object_text (counts_fields counts.now scope.now ++ chain_count_fields (Some chains.now))) }
    ensures err { OnErr result (text.new.items ≡ text.old.items) }
{
    put_object(
        alloc,
        text,
        checked_fields(counts, scope, chains).as_slice(),
    )
}

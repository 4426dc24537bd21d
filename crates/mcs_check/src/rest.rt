//! The lines after the last row.
ghost use Rattle.std.specs.Prelude.{◌≡◌, ◌++◌, List, length, flat_map, IfSome, OnOk};
ghost use Rattle.mcs_ticks.specs.declared.row.Row.{Row as TheRow};
ghost use Rattle.mcs_verdict.specs.Findings.{UpTo};
ghost use Rattle.mcs_hints.specs.Hints.{hints_of};
ghost use Rattle.mcs_check_lines.specs.Counts.{with_hints};
ghost use Rattle.mcs_check_lines.specs.Formats.{counts_line, hint_line};
ghost use Rattle.mcs_check_lines.specs.Told.{found_lines};
ghost use Rattle.mcs_check_lines.specs.Unjudged.{unjudged_line};
ghost use Rattle.mcs_check.specs.stored.AllFound.{checked_of, kept_of, IsKeptOf};
ghost use Rattle.mcs_check.specs.stored.Rows.{counts_found, rest_lines, tabled_lines};

use crate::all_found::{AllFound, Kept};
use crate::scope::checked_of;
use mcs_check_lines::{
    Counts, Unjudged, is_allowed, put_chains, put_chains_found, put_counts_as, put_found_as,
    put_hint_as, put_table, put_unjudged_as,
};
use mcs_check_words::{Format, Options, Show};
use mcs_hints::{Hint, hints};
use mcs_system::System;
use mcs_ticks::NoMemory;
use mcs_verdict::Found;
use std::alloc::Global;

/// Appends the lines after the last row, and then the counts. Findings are followed by those at the
/// horizon, the unjudged threads and the hints, and the figures come if they are asked for.
pub(crate) fn put_rest(
    alloc: Global,
    options: &Options,
    all: &mut AllFound,
    system: &System,
    allowed: &[bool],
) -> Result<(), NoMemory>
    requires { IfSome all.old.kept (IsKeptOf system.now) }
    ensures text { (past : List TheRow) → all.old.kept ≡ kept_of options.now.show system.now options.now.horizon past → UpTo options.now.horizon past →
        OnOk result (all.new.text.items ≡ all.old.text.items
        ++ rest_lines options.now.format options.now.show system.now allowed.now all.old.due.items all.old.unended.items all.old.unanswered.items all.old.unjudged.items
        ++ tabled_lines options.now.format options.now.show system.now options.now.horizon past
        ++ counts_line options.now.format (checked_of system.now all.new)) }
    ensures counts { OnOk result (all.new.counts ≡ with_hints (length (hints_of system.now))
        (counts_found allowed.now all.old.unended.items all.old.counts)) }
    ensures others { all.new ≡ record all.old { text = all.new.text; counts = all.new.counts } }
{
    let hints = hints(alloc, system)?;
    put_ends(alloc, options, all, system, allowed, hints.as_slice())?;
    let (text, kept) = (&mut all.text, &all.kept);
    put_tabled(alloc, options, text, system, kept)?;
    count_all(&mut all.counts, allowed, all.unended.as_slice());
    all.counts.hint(hints.len());
    let checked = checked_of(system, all);
    put_counts_as(alloc, &mut all.text, options.format, &checked)
}

/// Appends the lines of the figures, if they are kept.
fn put_tabled(
    alloc: Global,
    options: &Options,
    text: &mut Vec<u8>,
    system: &System,
    kept: &Option<Kept>,
) -> Result<(), NoMemory>
    requires { IfSome kept.now (IsKeptOf system.now) }
    ensures { (past : List TheRow) → kept.now ≡ kept_of options.now.show system.now options.now.horizon past → UpTo options.now.horizon past →
        OnOk result (text.new.items ≡ text.old.items
        ++ tabled_lines options.now.format options.now.show system.now options.now.horizon past) }
{
    match kept {
        Some(Kept { watch, table }) => {
            put_table(alloc, text, options.format, system, watch, &table.threads)?;
            let figures = table.chains.figures(alloc, system)?;
            put_chains(alloc, text, options.format, system, figures.as_slice())
        }
        None => Ok(()),
    }
}

/// Appends the findings at the horizon, the unjudged threads and the hints, if findings are shown.
fn put_ends(
    alloc: Global,
    options: &Options,
    all: &mut AllFound,
    system: &System,
    allowed: &[bool],
    hints: &[Hint],
) -> Result<(), NoMemory>
    requires { hints.now ≡ hints_of system.now }
    ensures text { OnOk result
        (all.new.text.items ≡ all.old.text.items
        ++ rest_lines options.now.format options.now.show system.now allowed.now all.old.due.items all.old.unended.items all.old.unanswered.items all.old.unjudged.items) }
    ensures others { all.new ≡ record all.old { text = all.new.text } }
{
    let (text, format) = (&mut all.text, options.format);
    match options.show {
        Show::Findings | Show::Both => {
            put_chains_found(alloc, text, format, system, all.due.as_slice())?;
            put_all(alloc, text, format, system, allowed, all.unended.as_slice())?;
            put_chains_found(alloc, text, format, system, all.unanswered.as_slice())?;
            put_all_unjudged(alloc, text, format, system, all.unjudged.as_slice())?;
            put_hints(alloc, text, format, system, hints)
        }
        Show::Jobs | Show::Table => Ok(()),
    }
}

/// Appends the lines of these findings, without allowed lost signals.
fn put_all(
    alloc: Global,
    text: &mut Vec<u8>,
    format: Format,
    system: &System,
    allowed: &[bool],
    all: &[Found],
) -> Result<(), NoMemory>
    ensures { OnOk result (text.new.items ≡ text.old.items ++ found_lines format system.now allowed.now all.now) }
{
    for found in all {
        if !is_allowed(allowed, &found.finding) {
            put_found_as(alloc, text, format, system, found)?;
        }
    }
    Ok(())
}

/// Counts these findings.
fn count_all(counts: &mut Counts, allowed: &[bool], all: &[Found])
    ensures { counts.new ≡ counts_found allowed.now all.now counts.old }
{
    for found in all {
        counts.take(allowed, Some(found.finding));
    }
}

/// Appends the lines of unjudged threads.
fn put_all_unjudged(
    alloc: Global,
    text: &mut Vec<u8>,
    format: Format,
    system: &System,
    all: &[Unjudged],
) -> Result<(), NoMemory>
    ensures { OnOk result (text.new.items ≡ text.old.items ++ flat_map (unjudged_line format system.now) all.now) }
{
    for unjudged in all {
        put_unjudged_as(alloc, text, format, system, unjudged)?;
    }
    Ok(())
}

/// Appends the lines of the hints.
fn put_hints(
    alloc: Global,
    text: &mut Vec<u8>,
    format: Format,
    system: &System,
    hints: &[Hint],
) -> Result<(), NoMemory>
    ensures { OnOk result (text.new.items ≡ text.old.items ++ flat_map (hint_line format system.now) hints.now) }
{
    for hint in hints {
        put_hint_as(alloc, text, format, system, hint)?;
    }
    Ok(())
}

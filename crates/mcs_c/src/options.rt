//! The options of a check, from the arguments of a call.
ghost use Rattle.std.specs.Prelude.{◌≡◌, ◌==◌, ◌≤◌, ◌^◌, None, false, map, IfOk, string_bytes};
ghost use Rattle.std.specs.List.{slice_split};
ghost use Rattle.mcs_c.specs.Check.{format_of, names_in, part_of};

use mcs_check_words::{Format, Options, Show};
use mcs_ticks::Tick;
use std::alloc::{AllocError, Global};

/// The part of a schedule that a number selects.
pub(crate) fn part_of(show: u32) -> Show
    ensures { result ≡ part_of show }
{
    match show {
        0 => Show::Findings,
        1 => Show::Jobs,
        2 => Show::Table,
        _ => Show::Both,
    }
}

/// The format that a number selects.
pub(crate) fn format_of(format: u32) -> Format
    ensures { result ≡ format_of format }
{
    match format {
        0 => Format::Text,
        1 => Format::Csv,
        _ => Format::Json,
    }
}

/// The options of a run that reads no file.
pub(crate) fn options_of(horizon: Tick, show: Show, format: Format, allowed: Vec<String>) -> Options
    requires { horizon ≤ 2 ^ 40 }
    ensures horizon { result.horizon ≡ horizon }
    ensures show { result.show ≡ show }
    ensures format { result.format ≡ format }
    ensures allowed { result.allowed ≡ allowed }
    ensures no_more { (result.show_given ≡ false) × (result.strict ≡ false) × (result.why ≡ None) }
{
    Options {
        file: None,
        horizon,
        workers: 1,
        allowed,
        strict: false,
        show,
        show_given: false,
        format,
        why: None,
        forever: false,
    }
}

/// The names of a text, one a line.
pub(crate) fn names_in(alloc: Global, text: &str) -> Result<Vec<String>, AllocError>
    ensures { IfOk result (λ names. map (λ name. string_bytes name) names.items ≡ names_in text.now) }
{
    if text.is_empty() {
        return Ok(Vec::new(alloc));
    }
    let lines = lines_of(alloc, text)?;
    owned(alloc, lines.as_slice())
}

/// The lines of a text.
fn lines_of(alloc: Global, text: &str) -> Result<Vec<&str>, AllocError>
    ensures { IfOk result (λ lines. map (λ line. line.now) lines.items ≡ slice_split (λ c. c == 10) text.now) }
{
    text.split('\n').collect(alloc)
}

/// Copies of these texts.
fn owned(alloc: Global, texts: &[&str]) -> Result<Vec<String>, AllocError>
    ensures { IfOk result (λ own. map (λ text. string_bytes text) own.items ≡ map (λ text. text.now) texts.now) }
{
    let mut own = Vec::new(alloc);
    for text in texts {
        own.push(String::from_str(alloc, text)?)?;
    }
    Ok(own)
}

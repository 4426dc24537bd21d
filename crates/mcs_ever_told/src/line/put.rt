//! Lines in each format.
ghost use Rattle.std.specs.Prelude.{◌≡◌, ◌++◌, OnOk, OnErr};
ghost use Rattle.std.specs.Io.{StartsWith};
ghost use Rattle.mcs_ever_told.specs.Formats.{line_text, lines_text};
ghost use Rattle.mcs_ever_told.specs.Texts.{words_text};

use crate::line::object::put_fields;
use crate::line::text::append_told;
use crate::line::{Line, LineFormat};
use mcs_system::System;
use mcs_ticks::NoMemory;
use std::alloc::Global;

/// Appends a line, with the system's names. If memory runs out, the text is unchanged.
pub fn put_line(
    alloc: Global,
    text: &mut Vec<u8>,
    format: LineFormat,
    system: &System,
    line: &Line,
) -> Result<(), NoMemory>
    ensures ok { OnOk result (text.new.items ≡ text.old.items ++ line_text format system.now line.now) }
    ensures err { OnErr result (text.new.items ≡ text.old.items) }
{
    match format {
        LineFormat::Text => put_words(alloc, text, system, line),
        LineFormat::Json => put_fields(alloc, text, system, line),
    }
}

/// Appends lines, one after another. If memory runs out, the text is unchanged.
pub fn put_lines(
    alloc: Global,
    text: &mut Vec<u8>,
    format: LineFormat,
    system: &System,
    lines: &[Line],
) -> Result<(), NoMemory>
    ensures ok { OnOk result (text.new.items ≡ text.old.items ++ lines_text format system.now lines.now) }
    ensures err { OnErr result (text.new.items ≡ text.old.items) }
{
    let start = text.len();
    let result = append_lines(alloc, text, format, system, lines);
    if result.is_err() {
        text.truncate(start);
    }
    result
}

fn append_lines(
    alloc: Global,
    text: &mut Vec<u8>,
    format: LineFormat,
    system: &System,
    lines: &[Line],
) -> Result<(), NoMemory>
    ensures ok { OnOk result (text.new.items ≡ text.old.items ++ lines_text format system.now lines.now) }
    ensures kept { StartsWith text.new.items text.old.items }
{
    for line in lines {
        put_line(alloc, text, format, system, line)?;
    }
    Ok(())
}

/// Appends a line in words. If memory runs out, the text is unchanged.
fn put_words(
    alloc: Global,
    text: &mut Vec<u8>,
    system: &System,
    line: &Line,
) -> Result<(), NoMemory>
    ensures ok { OnOk result (text.new.items ≡ text.old.items ++ words_text system.now line.now) }
    ensures err { OnErr result (text.new.items ≡ text.old.items) }
{
    let start = text.len();
    let result = append_told(alloc, text, system, line);
    if result.is_err() {
        text.truncate(start);
    }
    result
}

//! The line of a row of the schedule, in each format.
ghost use Rattle.std.specs.Prelude.{◌≡◌, ◌++◌, OnOk, OnErr};
ghost use Rattle.mcs_why_lines.specs.Rows.{row_line};

use crate::row_fields::row_fields;
use mcs_check_words::Format;
use mcs_fields::{put_object, put_row};
use mcs_system::System;
use mcs_text::put_row as put_row_text;
use mcs_ticks::{NoMemory, Row};
use std::alloc::Global;

/// Appends the line of a row of the schedule. If memory runs out the text is unchanged.
pub fn put_row_as(
    alloc: Global,
    text: &mut Vec<u8>,
    format: Format,
    system: &System,
    row: &Row,
) -> Result<(), NoMemory>
    ensures ok { OnOk result (text.new.items ≡ text.old.items ++ row_line format system.now row.now) }
    ensures err { OnErr result (text.new.items ≡ text.old.items) }
{
    match format {
        Format::Text => put_row_text(text, system, row),
        Format::Csv => put_row(text, row_fields(system, row).as_slice()),
        Format::Json => put_object(alloc, text, row_fields(system, row).as_slice()),
    }
}

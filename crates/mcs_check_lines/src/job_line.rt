//! The line of a job, in each format.
ghost use Rattle.std.specs.Prelude.{◌≡◌, ◌++◌, OnOk, OnErr, map};
ghost use Rattle.mcs_fields.specs.Fields.{field_of};
ghost use Rattle.mcs_check_lines.specs.Fields.{job_fields};
ghost use Rattle.mcs_check_lines.specs.Formats.{job_line, no_columns, written};
ghost use Rattle.mcs_check_lines.specs.Lines.{job_text};

use crate::fields::job_fields;
use crate::line::put_job;
use crate::pairs::{put_object_with, put_row_with};
use mcs_check_words::Format;
use mcs_fields::{Cell, Field, put_object, put_row};
use mcs_system::System;
use mcs_ticks::NoMemory;
use mcs_verdict::Job;
use std::alloc::Global;

/// Appends the line of a job. If memory runs out the text is unchanged.
pub(crate) fn put_job_as(
    alloc: Global,
    text: &mut Vec<u8>,
    format: Format,
    system: &System,
    job: &Job,
) -> Result<(), NoMemory>
    ensures ok { OnOk result (text.new.items ≡ text.old.items ++ job_line format system.now job.now) }
    ensures err { OnErr result (text.new.items ≡ text.old.items) }
{
    if system.parts().chains.is_empty() {
        put_narrow(alloc, text, format, system, job)
    } else {
        put_wide(alloc, text, format, system, job)
    }
}

/// Appends the line in a file without chains.
fn put_narrow(
    alloc: Global,
    text: &mut Vec<u8>,
    format: Format,
    system: &System,
    job: &Job,
) -> Result<(), NoMemory>
    ensures ok { OnOk result (text.new.items ≡ text.old.items
        ++ written format (job_text system.now job.now) (job_fields system.now job.now)) }
    ensures err { OnErr result (text.new.items ≡ text.old.items) }
{
    match format {
        Format::Text => put_job(text, system, job),
        Format::Csv => put_row(text, job_fields(system, job).as_slice()),
        Format::Json => put_object(alloc, text, job_fields(system, job).as_slice()),
    }
}

/// Appends the line in a file with a chain.
fn put_wide(
    alloc: Global,
    text: &mut Vec<u8>,
    format: Format,
    system: &System,
    job: &Job,
) -> Result<(), NoMemory>
    ensures ok { OnOk result (text.new.items ≡ text.old.items
        ++ written format (job_text system.now job.now) (job_fields system.now job.now ++ no_columns)) }
    ensures err { OnErr result (text.new.items ≡ text.old.items) }
{
    let (fields, more) = (job_fields(system, job), no_columns());
    match format {
        Format::Text => put_job(text, system, job),
        Format::Csv => put_row_with(alloc, text, fields.as_slice(), more.as_slice()),
        Format::Json => put_object_with(alloc, text, fields.as_slice(), more.as_slice()),
    }
}

/// The values of chains, which a job does not have.
fn no_columns() -> [Field<'static>; 4]
    ensures { map field_of result ≡ no_columns }
{
    [
        ("chain", Cell::Empty),
        ("latency", Cell::Empty),
        ("deadline", Cell::Empty),
        ("origin", Cell::Empty),
    ]
}

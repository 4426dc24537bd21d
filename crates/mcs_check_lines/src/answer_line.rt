//! The lines of answers.
ghost use Rattle.std.specs.Prelude.{◌≡◌, ◌++◌, OnOk, OnErr, map};
ghost use Rattle.std.specs.Io.{StartsWith};
ghost use Rattle.mcs_fields.specs.Fields.{field_of};
ghost use Rattle.mcs_text.specs.Text.{after};
ghost use Rattle.mcs_check_lines.specs.Answers.{answer_fields, answer_line, answer_lines, answer_text, answer_times, answer_words, if_deadline};

use crate::chain_line::chain_name;
use crate::figures::deadline;
use crate::line::{append_digits, append_named};
use mcs_chain::Answer;
use mcs_check_words::Format;
use mcs_fields::{Cell, Field, put_object, put_row};
use mcs_system::System;
use mcs_text::{append_counts, append_number, thread_name};
use mcs_ticks::NoMemory;
use std::alloc::Global;

/// Appends the line of an answer as text. If memory runs out the text is unchanged.
fn put_answer(text: &mut Vec<u8>, system: &System, answer: &Answer) -> Result<(), NoMemory>
    ensures ok { OnOk result (text.new.items ≡ text.old.items ++ answer_text system.now answer.now) }
    ensures err { OnErr result (text.new.items ≡ text.old.items) }
{
    let start = text.len();
    let result = append_answer(text, system, answer);
    if result.is_err() {
        text.truncate(start);
    }
    result
}

fn append_answer(text: &mut Vec<u8>, system: &System, answer: &Answer) -> Result<(), NoMemory>
    ensures ok { OnOk result (text.new.items ≡ text.old.items ++ answer_text system.now answer.now) }
    ensures kept { StartsWith text.new.items text.old.items }
{
    append_digits(text, answer.moment.get())?;
    append_number(text, answer.core.0 as u64)?;
    append_answer_words(text, system, answer)?;
    text.push(b'\n')?;
    Ok(())
}

/// Appends an answer, without its time and core.
fn append_answer_words(text: &mut Vec<u8>, system: &System, answer: &Answer) -> Result<(), NoMemory>
    ensures ok { OnOk result (text.new.items ≡ text.old.items ++ after (answer_words system.now answer.now)) }
    ensures kept { StartsWith text.new.items text.old.items }
{
    append_named(text, "answer", chain_name(system, answer.chain))?;
    append_times(text, answer)?;
    append_deadline(text, answer.deadline)
}

fn append_times(text: &mut Vec<u8>, answer: &Answer) -> Result<(), NoMemory>
    ensures ok { OnOk result (text.new.items ≡ text.old.items ++ after (answer_times answer.now)) }
    ensures kept { StartsWith text.new.items text.old.items }
{
    append_counts(
        text,
        &[
            ("round", answer.number),
            ("origin", answer.origin.get()),
            ("latency", answer.latency),
        ],
    )
}

/// Appends the deadline, if there is one.
fn append_deadline(text: &mut Vec<u8>, deadline: u64) -> Result<(), NoMemory>
    ensures ok { OnOk result (text.new.items ≡ text.old.items ++ after (if_deadline deadline)) }
    ensures kept { StartsWith text.new.items text.old.items }
{
    if deadline == 0 {
        return Ok(());
    }
    append_counts(text, &[("deadline", deadline)])
}

/// The values of an answer; those of jobs are empty.
fn answer_fields<'s>(system: &'s System, answer: &Answer) -> [Field<'s>; 19]
    ensures { map field_of result ≡ answer_fields system.now answer.now }
{
    [
        ("moment", Cell::Number(answer.moment.get())),
        ("core", Cell::Number(answer.core.0 as u64)),
        ("kind", Cell::Name("answer")),
        ("thread", Cell::Name(thread_name(system, answer.thread))),
        ("number", Cell::Number(answer.number)),
        ("activated", Cell::Empty),
        ("begun", Cell::Empty),
        ("response", Cell::Empty),
        ("queued", Cell::Empty),
        ("preemptions", Cell::Empty),
        ("ready", Cell::Empty),
        ("running", Cell::Empty),
        ("throttled", Cell::Empty),
        ("blocked", Cell::Empty),
        ("server", Cell::Empty),
        ("chain", Cell::Name(chain_name(system, answer.chain))),
        ("latency", Cell::Number(answer.latency)),
        ("deadline", deadline(answer.deadline)),
        ("origin", Cell::Number(answer.origin.get())),
    ]
}

/// Appends the line of an answer. If memory runs out the text is unchanged.
fn put_answer_as(
    alloc: Global,
    text: &mut Vec<u8>,
    format: Format,
    system: &System,
    answer: &Answer,
) -> Result<(), NoMemory>
    ensures ok { OnOk result (text.new.items ≡ text.old.items ++ answer_line format system.now answer.now) }
    ensures err { OnErr result (text.new.items ≡ text.old.items) }
{
    match format {
        Format::Text => put_answer(text, system, answer),
        Format::Csv => put_row(text, answer_fields(system, answer).as_slice()),
        Format::Json => put_object(alloc, text, answer_fields(system, answer).as_slice()),
    }
}

/// Appends the lines of answers.
pub fn put_answers(
    alloc: Global,
    text: &mut Vec<u8>,
    format: Format,
    system: &System,
    all: &[Answer],
) -> Result<(), NoMemory>
    ensures { OnOk result (text.new.items ≡ text.old.items ++ answer_lines format system.now all.now) }
{
    for answer in all {
        put_answer_as(alloc, text, format, system, answer)?;
    }
    Ok(())
}

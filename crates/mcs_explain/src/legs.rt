//! The lines of an answer and of its way in each format.
ghost use Rattle.std.specs.Prelude.{◌≡◌, ◌++◌, OnOk};
ghost use Rattle.mcs_check_lines.specs.Answers.{answer_line};
ghost use Rattle.mcs_explain.specs.Why.{legs_text};

use mcs_chain::Answer;
use mcs_check_lines::put_answers;
use mcs_check_words::Format;
use mcs_system::System;
use mcs_ticks::NoMemory;
use mcs_way::Leg;
use mcs_way_lines::{put_way, put_way_objects};
use std::alloc::Global;
use std::slice;

/// Appends the line of an answer.
fn put_answer(
    alloc: Global,
    text: &mut Vec<u8>,
    format: Format,
    system: &System,
    answer: &Answer,
) -> Result<(), NoMemory>
    ensures { OnOk result (text.new.items ≡ text.old.items ++ answer_line format system.now answer.now) }
{
    put_answers(alloc, text, format, system, slice::from_ref(answer))
}

/// Appends the legs of a way, and their sums. Rows of CSV are refused before.
fn put_legs(
    alloc: Global,
    text: &mut Vec<u8>,
    format: Format,
    system: &System,
    way: &[Leg],
) -> Result<(), NoMemory>
    ensures { OnOk result (text.new.items ≡ text.old.items ++ legs_text format system.now way.now) }
{
    match format {
        Format::Json => put_way_objects(alloc, text, system, way),
        Format::Text | Format::Csv => put_way(text, system, way),
    }
}

/// Appends the line of an answer, and those of its way. On `NoMemory` a first part may have been
/// appended.
pub(crate) fn put_answer_way(
    alloc: Global,
    text: &mut Vec<u8>,
    format: Format,
    system: &System,
    answer: &Answer,
    way: &[Leg],
) -> Result<(), NoMemory>
    ensures { OnOk result (text.new.items
        ≡ text.old.items ++ (answer_line format system.now answer.now ++ legs_text format system.now way.now)) }
{
    put_answer(alloc, text, format, system, answer)?;
    put_legs(alloc, text, format, system, way)
}

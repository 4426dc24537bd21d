//! Why a round of a text took so long, the way of an answer, or the line of what is wrong with the
//! question.
ghost use Rattle.std.specs.Prelude.{◌≡◌, ◌≤◌, ◌<◌, ◌^◌, ◌⊎◌, ℕ, List, IsUtf8, Ok, false, true, length, take, drop, IfOk, IfSome, string_bytes};
ghost use Rattle.mcs_cli.specs.Run.{loaded};
ghost use Rattle.mcs_check_words.specs.CommandLine.{question_texts};
ghost use Rattle.mcs_explain.specs.Why.{is_csv, is_mixed};
ghost use Rattle.mcs_explain.specs.WhyFault.{why_fault_text};
ghost use Rattle.mcs_c.specs.Check.{format_of};
ghost use Rattle.mcs_c.specs.Verdict.{IsCoded, IsTold, IsVerdict};
ghost use Rattle.mcs_c.specs.Why.{IsWhyFaultLine, IsWhyText};

use crate::options::{format_of, options_of};
use crate::verdict::{Verdict, hand_out};
use mcs_check_words::{Format, Options, Question, Show};
use mcs_cli::RunFault;
use mcs_explain::{WhyFault, explain_alone};
use mcs_load::{FaultKind, load};
use mcs_system::System;
use mcs_ticks::Tick;
use std::alloc::{AllocError, Global};

/// The line of a fault, without a line feed.
fn line_of(alloc: Global, fault: &WhyFault) -> Result<String, AllocError>
    ensures { IfOk result (λ line. IfSome (why_fault_text fault.now) (λ said. string_bytes line ≡ said)) }
{
    format!(in alloc; "{fault}")
}

/// The verdict that says what is wrong.
fn told(alloc: Global, fault: &WhyFault) -> Verdict
    ensures { IsTold (why_fault_text fault.now) result }
{
    match line_of(alloc, fault) {
        Ok(line) => Verdict::Fault(line),
        Err(_) => Verdict::NoMemory,
    }
}

/// Explains a round or an answer of a system.
fn answer_of(alloc: Global, system: System, options: &Options, question: &Question) -> Verdict
    requires { is_mixed options.now ≡ false }
    ensures verdict { (text : List ℕ) → loaded text ≡ Ok system
        → IsVerdict (IsWhyText text (question_texts question.now) options.now.horizon options.now.format)
        (IsWhyFaultLine text (question_texts question.now) options.now.horizon) result }
    ensures code { IsCoded result }
{
    match explain_alone(alloc, system, options, question) {
        Ok(lines) => Verdict::Lines(lines, 0),
        Err(WhyFault::Run(_)) => Verdict::NoMemory,
        Err(fault) => told(alloc, &fault),
    }
}

/// Explains a round or an answer of the system that a text describes.
fn answer_on(alloc: Global, text: &[u8], options: &Options, question: &Question) -> Verdict
    requires { is_mixed options.now ≡ false }
    ensures verdict { IsVerdict (IsWhyText text.now (question_texts question.now) options.now.horizon options.now.format)
        (IsWhyFaultLine text.now (question_texts question.now) options.now.horizon) result }
    ensures code { IsCoded result }
{
    match load(alloc, text) {
        Ok(system) => answer_of(alloc, system, options, question),
        Err(fault) if fault.kind == FaultKind::NoMemory => Verdict::NoMemory,
        Err(fault) => told(alloc, &WhyFault::Run(RunFault::Load(fault))),
    }
}

/// The question for a round of a thread or an answer of a chain.
fn question_of(alloc: Global, thread: &str, round: &str) -> Result<Question, AllocError>
    ensures { IfOk result (λ question. question_texts question ≡ (thread.now, round.now)) }
{
    Ok(Question {
        thread: String::from_str(alloc, thread)?,
        round: String::from_str(alloc, round)?,
    })
}

/// Explains why a round of a thread took so long, or which way an answer of a chain came, in the
/// system that a text describes, up to a horizon of at most 2^40 ticks, on the calling thread only.
///
/// `thread` is the name of the thread, and `round` has the digits of the round's number, from 1. If
/// no thread has the name, it is that of a chain, and the number is that of an answer. `format`
/// selects the format of the lines: 0 text, 2 JSON.
///
/// The lines are written to the start of the room, and their number of bytes to `length_of`. Later
/// bytes of the room stay as they were. The result is one of these codes:
/// - 0: the lines that `mcscheck --why` prints, each with its line feed.
/// - 1: the line that `mcscheck` prints of the text's first fault, or of a name, a round or an
///   answer that is not there, without a line feed.
/// - 2: the room is too small. `length_of` is the number of bytes needed, and the room is
///   unchanged.
/// - 3: the horizon or `format` is invalid, or `thread` or `round` is not UTF-8. `length_of` is 0,
///   and the room is unchanged.
/// - 4: out of memory. `length_of` is 0, and the room is unchanged.
#[unsafe(no_mangle)]
pub extern "C" fn mcs_why(
    alloc: Global,
    text: &[u8],
    horizon: u64,
    thread: &[u8],
    round: &[u8],
    format: u32,
    room: &mut [u8],
    length_of: &mut usize,
) -> u32
    ensures lines { result ≡ 0
        → IsWhyText text.now (thread.now, round.now) horizon (format_of format) (take length_of.new room.new) 0 }
    ensures fault { result ≡ 1 → IsWhyFaultLine text.now (thread.now, round.now) horizon (take length_of.new room.new) }
    ensures fits { result ≤ 1 → length_of.new ≤ length room.new }
    ensures needs { result ≡ 2 → length room.new < length_of.new }
    ensures wrong { ((2 ^ 40 < horizon) ⊎ ((2 < format) ⊎ (is_csv (format_of format) ≡ true))) → result ≡ 3 }
    ensures refused { result ≡ 3 → (2 ^ 40 < horizon) ⊎ ((2 < format) ⊎ ((is_csv (format_of format) ≡ true)
        ⊎ ((¬ (IsUtf8 thread.now)) ⊎ (¬ (IsUtf8 round.now))))) }
    ensures codes { result ≤ 4 }
    ensures behind { result ≤ 1 → drop length_of.new room.new ≡ drop length_of.new room.old }
    ensures unchanged { 2 ≤ result → room.new ≡ room.old }
    ensures nothing { 3 ≤ result → length_of.new ≡ 0 }
    ensures room { length room.new ≡ length room.old }
{
    *length_of = 0;
    let Some(until) = Tick::new(horizon) else {
        return 3;
    };
    if horizon > 1 << 40 || format > 2 {
        return 3;
    }
    let format = format_of(format);
    if matches!(format, Format::Csv) {
        return 3;
    }
    let (Ok(thread), Ok(round)) = (str::from_utf8(thread), str::from_utf8(round)) else {
        return 3;
    };
    let Ok(question) = question_of(alloc, thread, round) else {
        return 4;
    };
    let options = options_of(until, Show::Findings, format, Vec::new(alloc));
    hand_out(
        &answer_on(alloc, text, &options, &question),
        room,
        length_of,
    )
}

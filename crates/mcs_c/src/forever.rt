//! A check of a text for all time: the lines of its verdict, or the line of what is wrong with it.
ghost use Rattle.std.specs.Prelude.{◌≡◌, ◌≤◌, ◌<◌, ◌^◌, ◌⊎◌, ℕ, List, IsUtf8, Ok, false, true, length, take, drop};
ghost use Rattle.mcs_cli.specs.Run.{loaded};
ghost use Rattle.mcs_check_run.specs.Allowed.{names_of};
ghost use Rattle.mcs_check_forever.specs.Foretold.{is_mixed, is_rows};
ghost use Rattle.mcs_c.specs.Check.{format_of, names_in, IsFaultLine};
ghost use Rattle.mcs_c.specs.Forever.{IsForeverText};
ghost use Rattle.mcs_c.specs.Verdict.{HasLines, IsCoded, IsVerdict};

use crate::options::{format_of, names_in, options_of};
use crate::verdict::{Verdict, hand_out, told};
use mcs_check_forever::{ForeverFault, foretell_alone};
use mcs_check_run::CheckFault;
use mcs_check_words::{Format, Options, Show};
use mcs_cli::RunFault;
use mcs_load::{FaultKind, load};
use mcs_system::System;
use mcs_ticks::Tick;
use std::alloc::Global;

/// Checks a system for all time.
fn outlook_of(alloc: Global, system: System, options: &Options) -> Verdict
    requires { is_mixed options.now ≡ false }
    ensures verdict { (text : List ℕ) → loaded text ≡ Ok system
        → IsVerdict (IsForeverText text (names_of options.now) options.now.horizon options.now.format)
        (IsFaultLine text (names_of options.now)) result }
    ensures code { IsCoded result }
{
    match foretell_alone(alloc, system, options) {
        Ok((verdict, lines)) => Verdict::Lines(lines, u32::from(verdict.status())),
        Err(ForeverFault::Check(CheckFault::Run(_)) | ForeverFault::Mixed) => Verdict::NoMemory,
        Err(ForeverFault::Check(fault)) => told(alloc, &fault),
    }
}

/// Checks the system that a text describes for all time.
fn outlook_on(alloc: Global, text: &[u8], options: &Options) -> Verdict
    requires { is_mixed options.now ≡ false }
    ensures verdict { IsVerdict (IsForeverText text.now (names_of options.now) options.now.horizon options.now.format)
        (IsFaultLine text.now (names_of options.now)) result }
    ensures code { IsCoded result }
{
    match load(alloc, text) {
        Ok(system) => outlook_of(alloc, system, options),
        Err(fault) if fault.kind == FaultKind::NoMemory => Verdict::NoMemory,
        Err(fault) => told(alloc, &CheckFault::Run(RunFault::Load(fault))),
    }
}

/// Checks the system that a text describes for all time, on the calling thread only: it searches
/// for a repetition up to a horizon of at most 2^40 ticks.
///
/// `format` selects the format of the lines: 0 text, 2 JSON. `allowed` has the names of the
/// notifications at which lost signals are allowed, one a line, without a last line feed.
///
/// The lines are written to the start of the room, and their number of bytes to `length_of`. Later
/// bytes of the room stay as they were. The result is one of these codes:
/// - 0: the lines that `mcscheck --forever` prints, each with its line feed. There is no finding,
///   for ever.
/// - 5: the lines. There is a finding.
/// - 6: the lines. There is no finding so far, but that is not known for ever, or no thread has a
///   deadline.
/// - 1: the line that `mcscheck` prints of the text's first fault, or of the first name that no
///   notification has, without a line feed.
/// - 2: the room is too small. `length_of` is the number of bytes needed, and the room is
///   unchanged.
/// - 3: the horizon or `format` is invalid, or `allowed` is not UTF-8. `length_of` is 0, and the
///   room is unchanged.
/// - 4: out of memory. `length_of` is 0, and the room is unchanged.
#[unsafe(no_mangle)]
pub extern "C" fn mcs_forever(
    alloc: Global,
    text: &[u8],
    horizon: u64,
    format: u32,
    allowed: &[u8],
    room: &mut [u8],
    length_of: &mut usize,
) -> u32
    ensures lines { HasLines result
        → IsForeverText text.now (names_in allowed.now) horizon (format_of format) (take length_of.new room.new) result }
    ensures fault { result ≡ 1 → IsFaultLine text.now (names_in allowed.now) (take length_of.new room.new) }
    ensures fits { (HasLines result ⊎ (result ≡ 1)) → length_of.new ≤ length room.new }
    ensures needs { result ≡ 2 → length room.new < length_of.new }
    ensures wrong { ((2 ^ 40 < horizon) ⊎ ((2 < format) ⊎ (is_rows (format_of format) ≡ true))) → result ≡ 3 }
    ensures refused { result ≡ 3 → (2 ^ 40 < horizon) ⊎ ((2 < format) ⊎ ((is_rows (format_of format) ≡ true) ⊎ (¬ (IsUtf8 allowed.now)))) }
    ensures codes { result ≤ 6 }
    ensures behind { (HasLines result ⊎ (result ≡ 1)) → drop length_of.new room.new ≡ drop length_of.new room.old }
    ensures unchanged { ((result ≡ 2) ⊎ ((result ≡ 3) ⊎ (result ≡ 4))) → room.new ≡ room.old }
    ensures nothing { ((result ≡ 3) ⊎ (result ≡ 4)) → length_of.new ≡ 0 }
    ensures room { length room.new ≡ length room.old }
{
    *length_of = 0;
    let Some(until) = Tick::new(horizon) else {
        return 3;
    };
    if horizon > 1 << 40 || format > 2 {
        return 3;
    }
    let format = format_of(format);
    if matches!(format, Format::Csv) {
        return 3;
    }
    let Ok(allowed) = str::from_utf8(allowed) else {
        return 3;
    };
    let Ok(names) = names_in(alloc, allowed) else {
        return 4;
    };
    let options = options_of(until, Show::Findings, format, names);
    hand_out(&outlook_on(alloc, text, &options), room, length_of)
}

//! A check of a text: the lines of its verdict, or the line of what is wrong with it.
ghost use Rattle.std.specs.Prelude.{◌≡◌, ◌≤◌, ◌<◌, ◌^◌, ◌⊎◌, ℕ, List, IsUtf8, Ok, false, true, length, take, drop};
ghost use Rattle.mcs_cli.specs.Run.{loaded};
ghost use Rattle.mcs_check_lines.specs.Formats.{is_mixed};
ghost use Rattle.mcs_check_run.specs.Allowed.{names_of};
ghost use Rattle.mcs_c.specs.Check.{format_of, names_in, part_of, IsFaultLine, IsVerdictText};
ghost use Rattle.mcs_c.specs.Verdict.{HasLines, IsCoded, IsVerdict};

use crate::options::{format_of, names_in, options_of, part_of};
use crate::verdict::{Verdict, hand_out, told};
use mcs_check::check_alone;
use mcs_check_lines::is_mixed;
use mcs_check_run::CheckFault;
use mcs_check_words::Options;
use mcs_cli::RunFault;
use mcs_load::{FaultKind, load};
use mcs_system::System;
use mcs_ticks::Tick;
use std::alloc::Global;

/// Checks a system.
fn verdict_of(alloc: Global, system: System, options: &Options) -> Verdict
    requires { is_mixed options.now.format options.now.show ≡ false }
    ensures verdict { (text : List ℕ) → loaded text ≡ Ok system
        → IsVerdict (IsVerdictText text (names_of options.now) options.now.horizon options.now.format options.now.show)
        (IsFaultLine text (names_of options.now)) result }
    ensures code { IsCoded result }
{
    match check_alone(alloc, system, options) {
        Ok((lines, checked)) => Verdict::Lines(lines, u32::from(checked.status(false))),
        Err(CheckFault::Run(_)) => Verdict::NoMemory,
        Err(fault) => told(alloc, &fault),
    }
}

/// Checks the system that a text describes.
pub(crate) fn verdict_on(alloc: Global, text: &[u8], options: &Options) -> Verdict
    requires { is_mixed options.now.format options.now.show ≡ false }
    ensures verdict { IsVerdict (IsVerdictText text.now (names_of options.now) options.now.horizon options.now.format options.now.show)
        (IsFaultLine text.now (names_of options.now)) result }
    ensures code { IsCoded result }
{
    match load(alloc, text) {
        Ok(system) => verdict_of(alloc, system, options),
        Err(fault) if fault.kind == FaultKind::NoMemory => Verdict::NoMemory,
        Err(fault) => told(alloc, &CheckFault::Run(RunFault::Load(fault))),
    }
}

/// Checks the system that a text describes, up to a horizon of at most 2^40 ticks, on the calling
/// thread only.
///
/// `show` selects the lines: 0 findings, 1 jobs, 2 figures, 3 findings and then figures. `format`
/// selects their format: 0 text, 1 CSV, 2 JSON. CSV has rows of one kind, so it does not go with 3.
/// `allowed` has the names of the notifications at which lost signals are allowed, one a line,
/// without a last line feed.
///
/// The lines are written to the start of the room, and their number of bytes to `length_of`. Later
/// bytes of the room stay as they were. The result is one of these codes:
/// - 0: the lines that `mcscheck` prints, each with its line feed. There is no finding.
/// - 5: the lines. There is a finding.
/// - 6: the lines. There is no finding, and no deadline was judged.
/// - 1: the line that `mcscheck` prints of the text's first fault, or of the first name that no
///   notification has, without a line feed.
/// - 2: the room is too small. `length_of` is the number of bytes needed, and the room is
///   unchanged.
/// - 3: the horizon, `show` or `format` is invalid, they do not go together, or `allowed` is not
///   UTF-8. `length_of` is 0, and the room is unchanged.
/// - 4: out of memory. `length_of` is 0, and the room is unchanged.
#[unsafe(no_mangle)]
pub extern "C" fn mcs_check(
    alloc: Global,
    text: &[u8],
    horizon: u64,
    show: u32,
    format: u32,
    allowed: &[u8],
    room: &mut [u8],
    length_of: &mut usize,
) -> u32
    ensures lines { HasLines result
        → IsVerdictText text.now (names_in allowed.now) horizon (format_of format) (part_of show) (take length_of.new room.new) result }
    ensures fault { result ≡ 1 → IsFaultLine text.now (names_in allowed.now) (take length_of.new room.new) }
    ensures fits { (HasLines result ⊎ (result ≡ 1)) → length_of.new ≤ length room.new }
    ensures needs { result ≡ 2 → length room.new < length_of.new }
    ensures wrong { ((2 ^ 40 < horizon) ⊎ ((3 < show) ⊎ ((2 < format) ⊎ (is_mixed (format_of format) (part_of show) ≡ true)))) → result ≡ 3 }
    ensures refused { result ≡ 3 → (2 ^ 40 < horizon) ⊎ ((3 < show) ⊎ ((2 < format)
        ⊎ ((is_mixed (format_of format) (part_of show) ≡ true) ⊎ (¬ (IsUtf8 allowed.now))))) }
    ensures codes { result ≤ 6 }
    ensures behind { (HasLines result ⊎ (result ≡ 1)) → drop length_of.new room.new ≡ drop length_of.new room.old }
    ensures unchanged { ((result ≡ 2) ⊎ ((result ≡ 3) ⊎ (result ≡ 4))) → room.new ≡ room.old }
    ensures nothing { ((result ≡ 3) ⊎ (result ≡ 4)) → length_of.new ≡ 0 }
    ensures room { length room.new ≡ length room.old }
{
    *length_of = 0;
    let Some(until) = Tick::new(horizon) else {
        return 3;
    };
    if horizon > 1 << 40 || show > 3 || format > 2 {
        return 3;
    }
    let (show, format) = (part_of(show), format_of(format));
    if is_mixed(format, show) {
        return 3;
    }
    let Ok(allowed) = str::from_utf8(allowed) else {
        return 3;
    };
    let Ok(names) = names_in(alloc, allowed) else {
        return 4;
    };
    let options = options_of(until, show, format, names);
    hand_out(&verdict_on(alloc, text, &options), room, length_of)
}

//! The simulator and the checker for programs in C, Python or other languages. The text of a system
//! goes in. The lines of its schedule, reports or verdict, the line of the text's first fault, or
//! rows and findings in numbers come out in the caller's memory. `include/mcsim.h` is the header.
#![tactic(auto)]

ghost use Rattle.std.specs.Prelude.{◌≡◌, ◌≤◌, ◌<◌, ◌^◌, ◌++◌, ◌↔◌, ◌⊎◌, Ok, Err, length, take, drop};
ghost use Rattle.mcs_system.specs.System.{System};
ghost use Rattle.mcs_load.specs.declared.fault.LoadFault.{LoadFault};
ghost use Rattle.mcs_cli.specs.Fault.{run_fault_text};
ghost use Rattle.mcs_cli.specs.Run.{loaded, output_of};
ghost use Rattle.mcs_cli.specs.declared.fault.RunFault.TheVariants.{Load};
ghost use Rattle.mcs_c.specs.Output.{IsLengthOf, show_of};

mod answer;
mod check;
mod findings;
mod first;
mod forever;
mod name;
mod numbers;
mod options;
mod output;
mod room;
mod verdict;
mod why;

use answer::{Answer, answer_to};
pub use check::mcs_check;
pub use findings::{NumberedFinding, NumberedStood, mcs_findings};
pub use forever::mcs_forever;
use mcs_cli::Show;
use mcs_ticks::Tick;
pub use name::mcs_name;
pub use numbers::{NumberedRow, mcs_rows};
use room::handed;
use std::alloc::Global;
pub use why::mcs_why;

/// The version of the interface: 65,536 times the major number, and the minor number.
const VERSION: u32 = 65_536 + 3;

/// Returns the version of the library, which is that of the header that it was built with.
#[unsafe(no_mangle)]
pub extern "C" fn mcs_version() -> u32
    ensures { result ≡ 65539 }
{
    VERSION
}

/// Simulates the system that a text describes, up to a horizon of at most 2^40 ticks, on the
/// calling thread only. It keeps all rows until the last is made.
///
/// `show` selects the lines: 0 the schedule, 1 the reports, 2 both. They are written to the start
/// of the room, and their number of bytes to `length_of`. Later bytes of the room stay as they
/// were. The result is one of these codes:
/// - 0: the lines that `mcsim` prints, each with its line feed.
/// - 1: the line of the text's first fault, as `mcsim` reports it, without a line feed.
/// - 2: the room is too small. `length_of` is the number of bytes needed, and the room is
///   unchanged.
/// - 3: the horizon or `show` is invalid. `length_of` is 0, and the room is unchanged.
/// - 4: out of memory. `length_of` is 0, and the room is unchanged.
#[unsafe(no_mangle)]
pub extern "C" fn mcs_run(
    alloc: Global,
    text: &[u8],
    horizon: u64,
    show: u32,
    room: &mut [u8],
    length_of: &mut usize,
) -> u32
    ensures output { result ≡ 0 → (system : System) × (loaded text.now ≡ Ok system)
        × (take length_of.new room.new ≡ output_of (show_of show) system horizon) }
    ensures fault { result ≡ 1 → (f : LoadFault) × (loaded text.now ≡ Err f)
        × (take length_of.new room.new ≡ run_fault_text (Load f)) }
    ensures fits { result ≤ 1 → length_of.new ≤ length room.new }
    ensures needs { result ≡ 2 → length room.new < length_of.new }
    ensures needs_all { result ≡ 2 → IsLengthOf text.now show horizon length_of.new }
    ensures wrong { (result ≡ 3) ↔ ((2 ^ 40 < horizon) ⊎ (2 < show)) }
    ensures codes { result ≤ 4 }
    ensures behind { result ≤ 1 → drop length_of.new room.new ≡ drop length_of.new room.old }
    ensures unchanged { 2 ≤ result → room.new ≡ room.old }
    ensures nothing { 3 ≤ result → length_of.new ≡ 0 }
    ensures room { length room.new ≡ length room.old }
{
    *length_of = 0;
    let Some(until) = Tick::new(horizon) else {
        return 3;
    };
    if horizon > 1 << 40 || show > 2 {
        return 3;
    }
    let show = match show {
        0 => Show::Schedule,
        1 => Show::Reports,
        _ => Show::Both,
    };
    match answer_to(alloc, text, until, show) {
        Answer::Output(lines) => handed(lines.as_slice(), room, length_of, 0),
        Answer::Fault(line) => handed(line.as_bytes(), room, length_of, 1),
        Answer::NoMemory => 4,
    }
}

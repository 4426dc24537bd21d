//! A verdict on a text, and what a caller gets of it.
ghost use Rattle.std.specs.Prelude.{◌≡◌, ◌≢◌, ◌≤◌, ◌<◌, ◌⊎◌, length, take, drop, IfOk, IfSome, string_bytes};
ghost use Rattle.mcs_check_run.specs.Fault.{check_fault_text};
ghost use Rattle.mcs_c.specs.Verdict.{HasLines, IsCoded, IsGiven, IsTold};

use crate::room::handed;
use mcs_check_run::CheckFault;
use std::alloc::{AllocError, Global};

/// The verdict on a text.
#[derive(Drop)]
pub(crate) enum Verdict {
    /// The lines, and the exit code of `mcscheck` that comes with them.
    Lines(Vec<u8>, u32),
    /// The line of what is wrong with the text or with what was asked.
    Fault(String),
    /// Out of memory.
    NoMemory,
}

/// The line of a fault, without a line feed.
fn line_of(alloc: Global, fault: &CheckFault) -> Result<String, AllocError>
    ensures { IfOk result (λ line. IfSome (check_fault_text fault.now) (λ said. string_bytes line ≡ said)) }
{
    format!(in alloc; "{fault}")
}

/// The verdict that says what is wrong.
pub(crate) fn told(alloc: Global, fault: &CheckFault) -> Verdict
    ensures { IsTold (check_fault_text fault.now) result }
{
    match line_of(alloc, fault) {
        Ok(line) => Verdict::Fault(line),
        Err(_) => Verdict::NoMemory,
    }
}

/// Hands a verdict to the caller.
pub(crate) fn hand_out(verdict: &Verdict, room: &mut [u8], length_of: &mut usize) -> u32
    requires zero { length_of.old ≡ 0 }
    requires coded { IsCoded verdict.now }
    ensures given { IsGiven verdict.now result (take length_of.new room.new) }
    ensures fits { (HasLines result ⊎ (result ≡ 1)) → length_of.new ≤ length room.new }
    ensures needs { result ≡ 2 → length room.new < length_of.new }
    ensures codes { (result ≤ 6) × (result ≢ 3) }
    ensures behind { (HasLines result ⊎ (result ≡ 1)) → drop length_of.new room.new ≡ drop length_of.new room.old }
    ensures unchanged { ((result ≡ 2) ⊎ (result ≡ 4)) → room.new ≡ room.old }
    ensures nothing { result ≡ 4 → length_of.new ≡ 0 }
    ensures room { length room.new ≡ length room.old }
{
    match verdict {
        Verdict::Lines(lines, code) => handed(lines.as_slice(), room, length_of, *code),
        Verdict::Fault(line) => handed(line.as_bytes(), room, length_of, 1),
        Verdict::NoMemory => 4,
    }
}

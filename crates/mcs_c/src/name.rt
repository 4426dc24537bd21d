//! The names of the things that rows and findings number.
ghost use Rattle.std.specs.Prelude.{◌≡◌, ◌≤◌, ◌<◌, ◌⊎◌, Some, None, Ok, Err, option_map, length, take, drop};
ghost use Rattle.mcs_load.specs.declared.fault.LoadFault.{LoadFault};
ghost use Rattle.mcs_cli.specs.Run.{loaded};
ghost use Rattle.mcs_system.specs.System.{System as TheSystem};
ghost use Rattle.mcs_c.specs.Names.{name_of};

use crate::room::handed;
use mcs_load::{FaultKind, load};
use mcs_system::SystemParts;
use std::alloc::Global;

/// The name of thread, context, note, source or chain (0 to 4) of this number.
fn name_of(parts: &SystemParts, of: u32, number: usize) -> Option<&str>
    ensures { option_map (λ name. name.now) result ≡ name_of of parts.now number }
{
    match of {
        0 => Some(parts.threads.as_slice().get(number)?.name.as_str()),
        1 => Some(parts.contexts.as_slice().get(number)?.name.as_str()),
        2 => Some(parts.notes.as_slice().get(number)?.name.as_str()),
        3 => Some(parts.sources.as_slice().get(number)?.name.as_str()),
        4 => Some(parts.chains.as_slice().get(number)?.name.as_str()),
        _ => None,
    }
}

/// Writes the name of a thing of the system that a text describes: 0 a thread, 1 a context, 2 a
/// notification or server, 3 a source, 4 a chain.
///
/// The bytes of the name are written to the start of the room, and their number to `length_of`.
/// The result is one of these codes:
/// - 0: the name.
/// - 1: the text is not a system. `length_of` is 0, and the room is unchanged.
/// - 2: the room is too small. `length_of` is the number of bytes needed, at most 32, and the room
///   is unchanged.
/// - 3: there is no such thing. `length_of` is 0, and the room is unchanged.
/// - 4: out of memory. `length_of` is 0, and the room is unchanged.
#[unsafe(no_mangle)]
pub extern "C" fn mcs_name(
    alloc: Global,
    text: &[u8],
    of: u32,
    number: u64,
    room: &mut [u8],
    length_of: &mut usize,
) -> u32
    ensures name { result ≡ 0 → (system : TheSystem) × (loaded text.now ≡ Ok system)
        × (name_of of system number ≡ Some (take length_of.new room.new)) }
    ensures fault { result ≡ 1 → (f : LoadFault) × (loaded text.now ≡ Err f) }
    ensures needs { result ≡ 2 → length room.new < length_of.new }
    ensures none { result ≡ 3 → (system : TheSystem) × (loaded text.now ≡ Ok system) × (name_of of system number ≡ None) }
    ensures codes { result ≤ 4 }
    ensures fits { result ≡ 0 → length_of.new ≤ length room.new }
    ensures behind { result ≡ 0 → drop length_of.new room.new ≡ drop length_of.new room.old }
    ensures unchanged { 1 ≤ result → room.new ≡ room.old }
    ensures nothing { ((result ≡ 1) ⊎ (3 ≤ result)) → length_of.new ≡ 0 }
    ensures room { length room.new ≡ length room.old }
{
    *length_of = 0;
    let system = match load(alloc, text) {
        Ok(system) => system,
        Err(fault) if fault.kind == FaultKind::NoMemory => return 4,
        Err(_) => return 1,
    };
    match name_of(system.parts(), of, number as usize) {
        Some(name) => handed(name.as_bytes(), room, length_of, 0),
        None => 3,
    }
}

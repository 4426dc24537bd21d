//! The wait with which a script begins, and which of its words leave the thread something to do.
ghost use Rattle.std.specs.Prelude.{◌≡◌, slice_get};
ghost use Rattle.mcs_script.specs.Script.{ends_handler};
ghost use Rattle.mcs_verdict.specs.Calls.{first_wait, calls, is_set, badges_at, called_for, bits_of, either};

use mcs_script::{Item, Script};
use mcs_system::ThreadPart;
use mcs_ticks::NoteId;

/// Returns the notification of the wait with which the thread's script begins, if it begins with
/// one.
pub fn first_wait(part: &ThreadPart) -> Option<NoteId>
    ensures { result ≡ first_wait part.now }
{
    match part.script.get(0) {
        Some(Item::Wait(NoteId(note))) => Some(NoteId(note)),
        _ => None,
    }
}

/// Whether a word leaves something to do: it has one of these bits, or `bits` is `None`.
pub fn calls(bits: Option<u32>, word: u32) -> bool
    ensures { result ≡ calls bits word }
{
    match bits {
        None => true,
        Some(bits) => word & bits != 0,
    }
}

/// Whether the word is not 0 and leaves something to do.
pub(crate) fn is_set(bits: Option<u32>, word: u32) -> bool
    ensures { result ≡ is_set bits word }
{
    word != 0 && calls(bits, word)
}

/// The bits of words that leave something to do to at least one of two threads; `None` if every
/// word does.
pub(crate) fn either(bits: Option<u32>, others: Option<u32>) -> Option<u32>
    ensures { result ≡ either bits others }
{
    match (bits, others) {
        (Some(bits), Some(others)) => Some(bits | others),
        _ => None,
    }
}

/// Whether a handler ends before this item: the item begins another one, or the script ends.
fn ends_handler(script: &Script, item: usize) -> bool
    ensures { result ≡ ends_handler (slice_get script.now item) }
{
    match script.get(item) {
        None | Some(Item::On(_)) => true,
        _ => false,
    }
}

/// The badges of the handler that begins with this item; 0 if none does.
fn badges_at(script: &Script, item: usize) -> u32
    ensures { result ≡ badges_at (slice_get script.now item) }
{
    match script.get(item) {
        Some(Item::On(badges)) => badges,
        _ => 0,
    }
}

/// The badges of the handlers that have an item: each bit, alone, leaves something to do after the
/// first item. `None` if every word does.
fn called_for(script: &Script) -> Option<u32>
    ensures { result ≡ called_for script.now }
{
    if !ends_handler(script, 1) {
        return None;
    }
    let mut bits = 0;
    for i in 1..script.len() {
        if !ends_handler(script, i + 1) {
            bits |= badges_at(script, i);
        }
    }
    Some(bits)
}

/// Returns the bits that begin a round of the thread: a word needs one of them. `None` if every
/// word begins one.
pub fn bits_of(part: &ThreadPart) -> Option<u32>
    ensures { result ≡ bits_of part.now }
{
    called_for(&part.script)
}

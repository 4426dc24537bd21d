//! The origins of a chain that a thread may carry on its way through its script.
ghost use Rattle.std.specs.Prelude.{◌≡◌, get_or};
ghost use Rattle.mcs_chain.specs.Moves.{called_bits, reach};
ghost use Rattle.mcs_hints.specs.Carried.{carried_behind, carried_first, carried_last, is_in_reach, places_in, posted, with_script, with_signal};

use mcs_script::Item;
use mcs_system::ThreadPart;
use mcs_ticks::NoteId;
use mcs_verdict::{bits_of, first_wait};

/// A thread's free set.
const FREE: u64 = 1 << 32;

/// The bits of a word.
const ALL_BITS: u64 = (1 << 32) - 1;

/// The places at which a thread may carry an origin after an item of its script.
#[derive(Clone, Copy)]
pub(crate) struct Carried {
    /// The badges of the handler in which the next item lies; 0 if it lies in none.
    handler: u32,
    /// The places at which the thread may have an origin: bits of the word that began the round, 1
    /// to 2^31, and the free set, 2^32.
    places: u64,
}

/// The places that badges reach: their bits, or all bits if there are none; and the free set.
fn reach(badges: u32) -> u64
    ensures { result ≡ reach badges }
{
    let bits = if badges == 0 {
        ALL_BITS
    } else {
        u64::from(badges)
    };
    bits | FREE
}

/// The bits of the thread's first word that, each alone, leave it something to do.
fn called_bits(part: &ThreadPart) -> u64
    ensures { result ≡ called_bits part.now }
{
    match bits_of(part) {
        Some(bits) => u64::from(bits),
        None => ALL_BITS,
    }
}

/// The places at which a later wait in this handler gives what it takes.
fn places_in(handler: u32) -> u64
    ensures { result ≡ places_in handler }
{
    if handler == 0 {
        FREE
    } else {
        u64::from(handler)
    }
}

/// The bits at which the notification's word may have an origin.
fn word_of(words: &[u32], note: NoteId) -> u32
    ensures { result ≡ get_or words.now note 0 }
{
    match words.get(note.0) {
        Some(word) => *word,
        None => 0,
    }
}

impl Carried {
    /// Returns the places after the first item of the thread's script.
    fn first(words: &[u32], part: &ThreadPart) -> Self
        ensures { result ≡ carried_first words.now part.now }
    {
        let places = match first_wait(part) {
            Some(note) => u64::from(word_of(words, note)) & called_bits(part),
            None => 0,
        };
        Carried { handler: 0, places }
    }

    /// Returns the places after a later item.
    fn behind(self, words: &[u32], item: Item) -> Self
        ensures { result ≡ carried_behind words.now item self }
    {
        match item {
            Item::On(badges) => Carried {
                handler: badges,
                places: self.places,
            },
            Item::Wait(note) if word_of(words, note) != 0 => Carried {
                handler: self.handler,
                places: self.places | places_in(self.handler),
            },
            _ => self,
        }
    }

    /// Returns the places after the last item of the thread's script.
    pub fn last(words: &[u32], part: &ThreadPart) -> Self
        ensures { result ≡ carried_last words.now part.now }
    {
        let (_, later) = part.script.as_slice().split_at(1);
        let mut carried = Carried::first(words, part);
        for item in later {
            carried = carried.behind(words, *item);
        }
        carried
    }

    /// Whether the thread may have an origin at a place that the badges reach.
    pub(crate) fn is_in_reach(self, badges: u32) -> bool
        ensures { result ≡ is_in_reach badges self }
    {
        self.places & reach(badges) != 0
    }

    /// Posts the badge of the item, if it is a signal that may carry an origin.
    fn signal(self, item: Item, words: &mut [u32])
        ensures { words.new ≡ with_signal self item words.old }
    {
        if let Item::Signal(note, badge) = item {
            if self.is_in_reach(self.handler) {
                post(words, note, badge);
            }
        }
    }
}

/// Adds the bits of the badge to the notification's word.
pub(crate) fn post(words: &mut [u32], note: NoteId, badge: u32)
    ensures { words.new ≡ posted note badge words.old }
{
    if note.0 < words.len() {
        words[note.0] |= badge;
    }
}

/// Posts the badges of the signals of the thread's script that may carry an origin.
pub(crate) fn carry_on(words: &mut [u32], part: &ThreadPart)
    ensures { words.new ≡ with_script words.old part.now }
{
    let (_, later) = part.script.as_slice().split_at(1);
    let mut carried = Carried::first(words, part);
    for item in later {
        let before = carried;
        carried = before.behind(words, *item);
        before.signal(*item, words);
    }
}

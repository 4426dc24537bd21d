ghost use Rattle.std.specs.Prelude.{◌≡◌};
ghost use Rattle.mcs_verdict.specs.Words.{no_word, held_with, gave, taken};

use crate::heard::is_set;
use mcs_ticks::Tick;

/// The word of a notification, and when it was first set to leave something to do since it was last
/// taken.
#[derive(Clone, Copy, Debug, PartialEq, Eq)]
pub(crate) struct Held {
    pub word: u32,
    pub since: Tick,
    /// A word leaves something to do if it has one of these bits, to a thread that waits here
    /// first; `None` if every word does.
    pub bits: Option<u32>,
    /// The greatest deadline of the threads that may take the word, if each of them would begin a
    /// round with it that has a deadline.
    pub due: Option<u64>,
    /// The bits of all words that the notification gave to threads.
    pub given: u32,
}

impl Held {
    /// The word of a notification that the system does not have.
    pub(crate) fn none() -> Self
        ensures { result ≡ no_word }
    {
        Held {
            word: 0,
            since: Tick::ZERO,
            bits: Some(0),
            due: None,
            given: 0,
        }
    }

    /// Sets the word that a signal leaves.
    pub(crate) fn hold(&mut self, moment: Tick, word: u32)
        ensures { self.new ≡ held_with moment word self.old }
    {
        if !is_set(self.bits, self.word) {
            self.since = moment;
        }
        self.word = word;
    }

    /// Gives a word to a thread.
    pub(crate) fn give(&mut self, word: u32)
        ensures { self.new ≡ gave word self.old }
    {
        self.given |= word;
    }

    /// Gives the held word to a thread: it is 0 afterwards.
    pub(crate) fn take(&mut self, word: u32)
        ensures { self.new ≡ taken word self.old }
    {
        self.give(word);
        self.word = 0;
    }
}

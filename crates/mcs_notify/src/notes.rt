ghost use Rattle.std.specs.Prelude.{◌≡◌, ◌<◌, false, length, replicate, IfOk};
ghost use Rattle.mcs_notify.specs.Note.{quiet_note, note_of, with_note, is_waiting, posted, after_post, waited, after_wait};

use crate::line::{Line, Place};
use crate::posted::{Posted, Waited};
use mcs_ticks::{NoMemory, NoteId, Queued, ThreadId};
use std::alloc::Global;
use std::marker::Model;

/// The word of a notification, and its waiters.
#[derive(Clone, Copy, Debug)]
struct Kept {
    word: u32,
    line: Line,
}

/// The notifications of a system: words, and the threads that wait on them. Contracts see a list of
/// notifications, by number, and the number of threads. Each notification has a line of its
/// waiters, and each thread has one place, which names the next thread of its line.
#[derive(Debug, Drop)]
pub struct Notes {
    notes: Vec<Kept>,
    /// a place for each thread
    places: Vec<Place>,
}

impl Model for Notes {
    ghost use Rattle.mcs_notify.specs.Note.{Notifications};

    ghost Value = { Notifications };

    ghost use Rattle.mcs_notify.specs.stored.Lines.{seen_as, IsKept};

    ghost view = { λ a. seen_as a.notes.items a.places.items };

    ghost invariant = { λ a. IsKept a.notes.items a.places.items };
}

impl Notes {
    /// Returns `notes` notifications with word 0 and no waiters, and a place to wait for each of
    /// `threads` threads.
    pub fn new(alloc: Global, notes: usize, threads: usize) -> Result<Self, NoMemory>
        ensures { IfOk result (λ made. made ≡ record { notes = replicate notes quiet_note; threads = threads }) }
    {
        let quiet = Kept {
            word: 0,
            line: Line::EMPTY,
        };
        Ok(Notes {
            notes: vec![in alloc; quiet; notes]?,
            places: vec![in alloc; Place::NONE; threads]?,
        })
    }

    /// Posts a badge. The waiter of maximum priority (at equal priority, the longest waiting) is
    /// woken with the badge. If no thread waits, the badge is ORed into the word. Takes time linear
    /// in the waiters of this notification, and constant time if it has none.
    pub fn post(&mut self, note: NoteId, badge: u32) -> Posted
        requires { note < length self.old.notes }
        ensures posted { result ≡ posted badge (note_of self.old.notes note) }
        ensures note { self.new ≡ with_note note (after_post result (note_of self.old.notes note)) self.old }
    {
        let kept = &mut self.notes[note.0];
        if kept.line.is_empty() {
            kept.word |= badge;
            return Posted::Held(kept.word);
        }
        let woken = kept.line.pop_best(&mut self.places);
        Posted::Woke(woken, badge)
    }

    /// Waits for a word: a word other than 0 is taken, and at word 0 the thread joins the waiters.
    /// The caller ensures that the thread does not wait on any notification. Takes constant time.
    pub fn wait(&mut self, note: NoteId, thread: ThreadId, priority: u8) -> Waited
        requires note { note < length self.old.notes }
        requires thread { thread < self.old.threads }
        requires free { is_waiting thread self.old.notes ≡ false }
        ensures waited { result ≡ waited (note_of self.old.notes note) }
        ensures note { self.new
            ≡ with_note note
            (after_wait result (record { thread = thread; priority = priority }) (note_of self.old.notes note))
            self.old }
    {
        let kept = &mut self.notes[note.0];
        if kept.word != 0 {
            let word = kept.word;
            kept.word = 0;
            return Waited::Got(word);
        }
        kept.line.push_back(&mut self.places, thread, priority);
        Waited::Blocks
    }

    /// Returns the word of a notification.
    pub fn word(&self, note: NoteId) -> u32
        requires { note < length self.now.notes }
        ensures { result ≡ (note_of self.now.notes note).word }
    {
        self.notes[note.0].word
    }

    /// Returns the threads that wait on a notification, in order of beginning to wait. Fails with
    /// `NoMemory` if the list cannot be allocated.
    pub fn waiters(&self, alloc: Global, note: NoteId) -> Result<Vec<Queued>, NoMemory>
        requires { note < length self.now.notes }
        ensures { IfOk result (λ list. list.items ≡ (note_of self.now.notes note).waiters) }
    {
        self.notes[note.0].line.waiters(alloc, &self.places)
    }
}

ghost use Rattle.std.specs.Prelude.{◌≡◌, ◌↔◌, IsTrue};

use crate::image::queues::queues_are_same;
use mcs_ticks::Queued;
use std::marker::Model;

/// A notification at a moment: its word, and the threads that wait for it, in the order in which
/// they began to wait. Contracts see the notification.
#[derive(Debug, Drop)]
pub(crate) struct NoteImage {
    word: u32,
    waiters: Vec<Queued>,
}

impl Model for NoteImage {
    ghost use Rattle.mcs_notify.specs.Note.{Note};

    ghost Value = { Note };

    ghost view = { λ a. record { word = a.word; waiters = a.waiters.items } };
}

impl NoteImage {
    pub(crate) fn new(word: u32, waiters: Vec<Queued>) -> Self
        ensures { result ≡ record { word = word; waiters = waiters.items } }
    {
        NoteImage { word, waiters }
    }

    /// Whether both have the same word and the same waiters in the same order.
    fn is_same(&self, before: &NoteImage) -> bool
        ensures { IsTrue result ↔ (self.now ≡ before.now) }
    {
        self.word == before.word && queues_are_same(&before.waiters, &self.waiters)
    }
}

pub(crate) fn notes_are_same(before: &[NoteImage], after: &[NoteImage]) -> bool
    ensures { IsTrue result ↔ (after.now ≡ before.now) }
{
    if before.len() != after.len() {
        return false;
    }
    for i in 0..before.len() {
        if !after[i].is_same(&before[i]) {
            return false;
        }
    }
    true
}

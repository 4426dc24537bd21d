ghost use Rattle.std.specs.Prelude.{◌≡◌, false, [], ◌∷◌, ◌++◌, List, get_or, IfOk};
ghost use Rattle.mcs_ticks.specs.declared.row.What.{What as TheWhat};
ghost use Rattle.mcs_system.specs.System.{System as TheSystem};
ghost use Rattle.mcs_ever_found.specs.Doings.{doings_of};
ghost use Rattle.mcs_ever_found.specs.stored.Flags.{ended_by, taken_by, marked, unmarked, nothing_done};

use mcs_system::System;
use mcs_ticks::{NoMemory, NoteId, ThreadId, What};
use std::alloc::Global;
use std::marker::Model;

/// The thread whose round the row ends.
fn ended_by(what: &What) -> Option<usize>
    ensures { result ≡ ended_by what.now }
{
    match *what {
        What::Round { thread, .. } => Some(thread.0),
        _ => None,
    }
}

/// The notification whose word a thread takes.
fn taken_by(what: &What) -> Option<usize>
    ensures { result ≡ taken_by what.now }
{
    match *what {
        What::Got { note, .. } => Some(note.0),
        _ => None,
    }
}

/// Sets the flag of this number, if there is one.
fn mark(flags: &mut [bool], number: Option<usize>)
    ensures { flags.new ≡ marked number flags.old }
{
    if let Some(number) = number {
        if number < flags.len() {
            flags[number] = true;
        }
    }
}

fn unmark(flags: &mut [bool])
    ensures { flags.new ≡ unmarked flags.old }
{
    flags.fill(false);
}

/// The flag of this number; `false` past the end.
fn is_marked(flags: &[bool], number: usize) -> bool
    ensures { result ≡ get_or flags.now number false }
{
    if number < flags.len() {
        flags[number]
    } else {
        false
    }
}

/// Flags of what some rows of a system did: for each thread, whether a round of it ended; for each
/// notification, whether its word was taken, by any thread. One more row takes constant time and no
/// memory.
#[derive(Drop)]
pub struct Doings {
    ended: Vec<bool>,
    taken: Vec<bool>,
}

impl Model for Doings {
    ghost use Rattle.mcs_ever_found.specs.Doings.{Doings};

    ghost Value = { Doings };

    ghost view = { λ a. record {
      ended = a.ended.items;
      taken = a.taken.items;
    } };
}

impl Doings {
    /// Returns the flags before the first row, none set. Fails only if memory runs out.
    pub fn new(alloc: Global, system: &System) -> Result<Self, NoMemory>
        ensures { IfOk result (λ doings. doings ≡ doings_of system.now []) }
    {
        let threads = system.parts().threads.len();
        let notes = system.parts().notes.len();
        Ok(Doings {
            ended: vec![in alloc; false; threads]?,
            taken: vec![in alloc; false; notes]?,
        })
    }

    /// Adds one more row of a run of the system.
    pub fn see(&mut self, what: &What)
        ensures { (system : TheSystem) (rows : List TheWhat) → self.old ≡ doings_of system rows →
            self.new ≡ doings_of system (rows ++ what.now ∷ []) }
    {
        mark(self.ended.as_mut_slice(), ended_by(what));
        mark(self.taken.as_mut_slice(), taken_by(what));
    }

    /// Whether a round of the thread ended; `false` if there is no such thread.
    pub fn ends_round(&self, thread: ThreadId) -> bool
        ensures { result ≡ get_or self.now.ended thread false }
    {
        is_marked(self.ended.as_slice(), thread.0)
    }

    /// Whether a thread took the notification's word; `false` if there is no such notification.
    pub fn takes_word(&self, note: NoteId) -> bool
        ensures { result ≡ get_or self.now.taken note false }
    {
        is_marked(self.taken.as_slice(), note.0)
    }

    /// Clears all flags, as before the first row.
    pub fn clear(&mut self)
        ensures forgotten { self.new ≡ nothing_done self.old }
        ensures anew { (system : TheSystem) (rows : List TheWhat) → self.old ≡ doings_of system rows → self.new ≡ doings_of system [] }
    {
        unmark(self.ended.as_mut_slice());
        unmark(self.taken.as_mut_slice());
    }
}

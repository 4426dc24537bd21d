//! The image of a core in plain lists, to be compared with the core at a later moment.

mod budget;
mod context;
mod lags;
mod note;
mod queues;
mod reading;
mod threads;

ghost use Rattle.std.specs.Prelude.{◌≡◌, ◌↔◌, false, map, IfOk, IsTrue};
ghost use Rattle.mcs_core.specs.State.{Fits};
ghost use Rattle.mcs_ever.specs.Later.{Shift, later_core, later_dated};
ghost use Rattle.mcs_ever_again.specs.Lags.{TellsLags};

use crate::image::context::{ContextImage, context_lags};
use crate::image::note::{NoteImage, notes_are_same};
use crate::image::queues::{queues_are_same, releases_are_later};
use crate::image::reading::{read_contexts, read_notes, read_threads};
use crate::image::threads::{runs_alike, stands_alike, thread_lags};
pub use lags::Lags;
use mcs_core::{Chosen, CoreState, Thread};
use mcs_release::Dated;
use mcs_system::System;
use mcs_ticks::{NoMemory, Queued, Sequence, ThreadId};
use std::alloc::Global;
use std::marker::Model;

/// A core between two turns in plain lists, to be kept and compared. Contracts see the core.
#[derive(Debug, Drop)]
pub struct CoreImage {
    running: Option<Chosen>,
    threads: Vec<Thread>,
    ready: Vec<Queued>,
    releases: Vec<Dated>,
    contexts: Vec<Option<ContextImage>>,
    notes: Vec<NoteImage>,
}

impl Model for CoreImage {
    ghost use Rattle.mcs_core.specs.Core.{Core};

    ghost Value = { Core };

    ghost view = { λ a. record {
      running = a.running;
      threads = a.threads.items;
      ready = a.ready.items;
      releases = a.releases.items;
      contexts = a.contexts.items;
      notes = a.notes.items;
    } };
}

impl CoreImage {
    /// Returns the image of a core of the system. Fails only if memory runs out.
    pub fn new(alloc: Global, system: &System, state: &CoreState) -> Result<Self, NoMemory>
        requires fits { Fits system.now state.now }
        requires going { state.now.failed ≡ false }
        ensures { IfOk result (λ image. image ≡ state.now.core) }
    {
        let parts = system.parts();
        Ok(CoreImage {
            running: state.running(),
            threads: read_threads(alloc, state, parts.threads.len())?,
            ready: state.ready(alloc)?,
            releases: state.releases(alloc)?,
            contexts: read_contexts(alloc, state, parts.contexts.len())?,
            notes: read_notes(alloc, state, parts.notes.len())?,
        })
    }

    /// Whether a core may be that of the image, but later: the same thread runs, with as many ticks
    /// in use, and each thread is at the same item. Each must have as much left of it, the same
    /// word of the round and the same priority. If not, the core is not that of the image, later by
    /// any shift. Allocates no memory.
    pub fn may_be_again(&self, system: &System, state: &CoreState) -> bool
        requires fits { Fits system.now state.now }
        requires going { state.now.failed ≡ false }
        ensures { (shift : Shift) → state.now.core ≡ later_core shift self.now → IsTrue result }
    {
        if !runs_alike(self.running, state.running()) {
            return false;
        }
        let count = system.parts().threads.len();
        if self.threads.len() != count {
            return false;
        }
        for i in 0..count {
            if !stands_alike(&self.threads[i], &state.thread(ThreadId(i))) {
                return false;
            }
        }
        true
    }

    /// Returns the lags with which this core is the earlier one, `by` ticks later; `None` if it is
    /// so with no lags.
    ///
    /// Equal in both are:
    /// - the running thread and its ticks in use;
    /// - each thread's standing, item, ticks left of it, word of the round and priority;
    /// - the ready threads in their order;
    /// - the words and the threads that wait for them;
    /// - the contexts' configurations, modes and slices.
    ///
    /// The releases are the same in the same order, their dates later by `by`. The dates of each
    /// context may be later by their own number of ticks, at most `by`; the beginning of each
    /// thread's round by any number. A thread may have ended more rounds. Fails only if memory runs
    /// out.
    pub fn lags(&self, alloc: Global, before: &CoreImage, by: u64) -> Result<Option<Lags>, NoMemory>
        ensures { IfOk result (λ found. TellsLags found by before.now self.now) }
    {
        if !self.queues_are_later(before, by) {
            return Ok(None);
        }
        let Some(threads) = thread_lags(alloc, &before.threads, &self.threads)? else {
            return Ok(None);
        };
        let Some(contexts) = context_lags(alloc, &before.contexts, &self.contexts, by)? else {
            return Ok(None);
        };
        Ok(Some(Lags {
            contexts: Sequence::new(contexts),
            threads: Sequence::new(threads.since),
            rounds: Sequence::new(threads.rounds),
        }))
    }

    /// Whether the running thread and its ticks in use, the ready threads and the notifications are
    /// equal, and the releases are `by` ticks later.
    fn queues_are_later(&self, before: &CoreImage, by: u64) -> bool
        ensures { IsTrue result
            ↔ ((self.now.running ≡ before.now.running)
            × (self.now.ready ≡ before.now.ready)
            × (self.now.releases ≡ map (later_dated by) before.now.releases)
            × (self.now.notes ≡ before.now.notes)) }
    {
        runs_alike(before.running, self.running)
            && queues_are_same(&before.ready, &self.ready)
            && releases_are_later(&before.releases, &self.releases, by)
            && notes_are_same(&before.notes, &self.notes)
    }
}

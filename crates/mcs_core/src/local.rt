ghost use Rattle.std.specs.Prelude.{◌≡◌, ◌-◌, ◌^◌, ◌<◌, ◌≤◌, true, length, get_or, Some, None, option_map, IfOk};
ghost use Rattle.mcs_ticks.specs.Queue.{by_priority};
ghost use Rattle.mcs_control.specs.Context.{head_amount, head_moment, context_woken, view_of};
ghost use Rattle.mcs_control.specs.Control.{IsConfig, kind_of};
ghost use Rattle.mcs_notify.specs.Note.{posted, after_post, waited, after_wait};
ghost use Rattle.mcs_ready.specs.Ready.{priority_of, thread_of as thread_of_queued};
ghost use Rattle.mcs_release.specs.Release.{first_due, without_first_due, next_date, thread_of as thread_of_dated};
ghost use Rattle.mcs_system.specs.System.{thread_part};
ghost use Rattle.mcs_core.specs.stored.Room.{IsRoomy};
ghost use Rattle.mcs_core.specs.Core.{thread_of, context_of, note_of, with_thread, with_context, with_note, stands, pends, off};
ghost use Rattle.mcs_script.specs.Script.{left_after};
ghost use Rattle.mcs_core.specs.Turn.{its_context, applied, charged, queued, date_of, enters_back, enters_front, with_chosen_context};
ghost use Rattle.mcs_core.specs.stored.Sound.{has_context};
ghost use Rattle.mcs_core.specs.Places.{times_queued, times_dated, times_waiting};

use crate::contexts::Contexts;
use crate::log::Here;
use crate::{Chosen, Standing, Thread};
use mcs_control::{ContextView, Order};
use mcs_notify::{Notes, Posted, Waited};
use mcs_ready::Ready;
use mcs_release::Releases;
use mcs_ticks::{ContextId, NoMemory, NoteId, Soonest, ThreadId, Tick};
use std::alloc::Global;
use std::marker::Model;

/// The parts of a core: its threads, the queues, the contexts and the notifications.
#[derive(Drop)]
pub(crate) struct Local {
    running: Option<Chosen>,
    pub(crate) threads: Vec<Thread>,
    ready: Ready,
    releases: Releases,
    pub(crate) contexts: Contexts,
    notes: Notes,
}

impl Model for Local {
    ghost use Rattle.std.specs.Prelude.{◌≡◌, length};
    ghost use Rattle.mcs_core.specs.Core.{Core};
    ghost use Rattle.mcs_core.specs.stored.Room.{IsRoomy};

    ghost Value = { Core };

    ghost view = { λ a. record {
      running = a.running;
      threads = a.threads.items;
      ready = a.ready.queue;
      releases = a.releases.queue;
      contexts = a.contexts;
      notes = a.notes.notes;
    } };

    ghost invariant = { λ a. IsRoomy (length a.threads.items) a.ready.room a.releases.room a.notes.threads };
}

impl Local {
    pub(crate) fn stand(&mut self, thread: ThreadId, standing: Standing)
        requires { thread < length self.old.threads }
        ensures { self.new ≡ stands thread standing self.old }
    {
        self.threads[thread.0].standing = standing;
    }

    /// Takes ticks off the rest of the thread's item, down to 0. Returns the rest.
    pub(crate) fn use_up(&mut self, thread: ThreadId, ticks: u64) -> u64
        requires { thread < length self.old.threads }
        ensures core { let state = thread_of self.old thread in
            self.new
            ≡ with_thread thread (record state { place = record (state.place) { left = left_after ticks state.place.left } }) self.old }
        ensures left { result ≡ left_after ticks (thread_of self.old thread).place.left }
    {
        let state = &mut self.threads[thread.0];
        state.place.use_up(ticks);
        state.place.left
    }

    /// Puts the thread into the release queue with this date.
    #[inline(always)]
    #[tactic(auto, using(crate::proofs::Counts::not_held_releases))]
    pub(crate) fn pend(&mut self, thread: ThreadId, date: Tick)
        requires known { thread < length self.old.threads }
        requires free { times_dated thread self.old.releases ≡ 0 }
        ensures { self.new ≡ pends thread date self.old }
    {
        self.threads[thread.0].standing = Standing::Pending;
        self.releases.enter(thread, date);
    }

    /// Takes the running thread off the core.
    #[inline(always)]
    pub(crate) fn leave(&mut self)
        ensures { self.new ≡ off self.old }
    {
        self.running = None;
    }

    #[tactic(auto, using(crate::proofs::Counts::not_held_ready))]
    /// Puts the thread at the back of the ready queue, or into the release queue with a date.
    #[inline(always)]
    pub(crate) fn enter_back(&mut self, thread: ThreadId, until: Option<Tick>)
        requires known { thread < length self.old.threads }
        requires not_ready { times_queued thread self.old.ready ≡ 0 }
        requires not_pending { times_dated thread self.old.releases ≡ 0 }
        ensures { self.new ≡ enters_back by_priority thread until self.old }
    {
        match until {
            Some(date) => self.pend(thread, date),
            None => {
                let state = &mut self.threads[thread.0];
                state.standing = Standing::Ready;
                self.ready.push_back(thread, state.place.priority);
            }
        }
    }

    #[tactic(auto, using(crate::proofs::Counts::not_held_ready))]
    /// Puts the thread at the front of the ready queue, or into the release queue with a date.
    #[inline(always)]
    pub(crate) fn enter_front(&mut self, thread: ThreadId, until: Option<Tick>)
        requires known { thread < length self.old.threads }
        requires not_ready { times_queued thread self.old.ready ≡ 0 }
        requires not_pending { times_dated thread self.old.releases ≡ 0 }
        ensures { self.new ≡ enters_front by_priority thread until self.old }
    {
        match until {
            Some(date) => self.pend(thread, date),
            None => {
                let state = &mut self.threads[thread.0];
                state.standing = Standing::Ready;
                self.ready.push_front(thread, state.place.priority);
            }
        }
    }

    pub(crate) fn thread(&self, thread: ThreadId) -> Thread
        requires { thread < length self.now.threads }
        ensures { result ≡ thread_of self.now thread }
    {
        self.threads[thread.0]
    }

    /// Posts a badge on a notification. A thread that it wakes leaves the waiters.
    pub(crate) fn post_note(&mut self, note: NoteId, badge: u32) -> Posted
        requires { note < length self.old.notes }
        ensures posted { result ≡ posted badge (note_of self.old note) }
        ensures core { self.new ≡ with_note note (after_post result (note_of self.old note)) self.old }
    {
        self.notes.post(note, badge)
    }

    #[tactic(auto, using(crate::proofs::Counts::not_waiting))]
    /// Makes a thread wait on a notification.
    pub(crate) fn wait_note(&mut self, note: NoteId, thread: ThreadId) -> Waited
        requires note { note < length self.old.notes }
        requires known { thread < length self.old.threads }
        requires free { times_waiting thread self.old.notes ≡ 0 }
        ensures waited { result ≡ waited (note_of self.old note) }
        ensures core { self.new
            ≡ with_note note (after_wait result (queued thread self.old) (note_of self.old note)) self.old }
    {
        self.notes
            .wait(note, thread, self.threads[thread.0].place.priority)
    }

    pub(crate) fn word(&self, note: NoteId) -> u32
        requires { note < length self.now.notes }
        ensures { result ≡ (note_of self.now note).word }
    {
        self.notes.word(note)
    }

    pub(crate) fn ready_queue(&self) -> &Ready
        ensures { result.now.queue ≡ self.now.ready }
    {
        &self.ready
    }

    pub(crate) fn release_queue(&self) -> &Releases
        ensures { result.now.queue ≡ self.now.releases }
    {
        &self.releases
    }

    pub(crate) fn notes(&self) -> &Notes
        ensures { result.now.notes ≡ self.now.notes }
    {
        &self.notes
    }

    /// The running thread, and the ticks that it has used.
    pub(crate) fn running(&self) -> Option<Chosen>
        ensures { result ≡ self.now.running }
    {
        self.running
    }

    /// Sets the running thread, and the ticks that it has used.
    pub(crate) fn set_running(&mut self, chosen: Chosen)
        ensures { self.new ≡ record self.old { running = Some chosen } }
    {
        self.running = Some(chosen);
    }

    /// Takes the first thread whose date has come out of the release queue.
    #[inline(always)]
    pub(crate) fn take_due(&mut self, moment: Tick) -> Option<ThreadId>
        ensures taken { result ≡ thread_of_dated (first_due moment self.old.releases) }
        ensures left { self.new ≡ record self.old { releases = without_first_due moment self.old.releases } }
    {
        self.releases.pop_due(moment)
    }

    /// The soonest date of the release queue, or never if it is empty.
    #[inline(always)]
    pub(crate) fn next_date(&self) -> Soonest
        ensures { result ≡ next_date self.now.releases }
    {
        self.releases.soonest()
    }

    /// The maximum priority of the ready threads.
    #[inline(always)]
    pub(crate) fn best(&self) -> Option<u8>
        ensures { result ≡ priority_of (by_priority.best self.now.ready) }
    {
        self.ready.best()
    }

    /// Takes the first thread of maximum priority out of the ready queue.
    #[inline(always)]
    pub(crate) fn take_best(&mut self) -> Option<ThreadId>
        ensures taken { result ≡ thread_of_queued (by_priority.best self.old.ready) }
        ensures left { self.new ≡ record self.old { ready = by_priority.rest self.old.ready } }
    {
        self.ready.pop_best()
    }

    /// Returns a core with these parts, and no running thread.
    pub(crate) fn from_parts(
        threads: Vec<Thread>,
        ready: Ready,
        releases: Releases,
        contexts: Contexts,
        notes: Notes,
    ) -> Self
        requires { IsRoomy (length threads.items) ready.room releases.room notes.threads }
        ensures { result ≡ record {
          running = None;
          threads = threads.items;
          ready = ready.queue;
          releases = releases.queue;
          contexts = contexts;
          notes = notes.notes;
        } }
    {
        Local {
            running: None,
            threads,
            ready,
            releases,
            contexts,
            notes,
        }
    }
}

ghost use Rattle.std.specs.Prelude.{◌≡◌, ◌<◌, length, get_or, None, option_map, IfOk};
ghost use Rattle.std.specs.Option.{option_copied};
ghost use Rattle.mcs_core.specs.Core.{thread_of, note_of};

use crate::{Chosen, CoreState, Thread};
use mcs_control::Context;
use mcs_release::Dated;
use mcs_ticks::{ContextId, NoMemory, NoteId, Queued, ThreadId};
use std::alloc::Global;

impl CoreState {
    /// The running thread, and the ticks that it has run since it was chosen; `None` if no thread
    /// runs.
    pub fn running(&self) -> Option<Chosen>
        ensures { result ≡ self.now.core.running }
    {
        self.local().running()
    }

    /// The state of a thread; a thread of another core is `Elsewhere`.
    pub fn thread(&self, thread: ThreadId) -> Thread
        requires { thread < length self.now.core.threads }
        ensures { result ≡ thread_of self.now.core thread }
    {
        self.local().thread(thread)
    }

    /// The ready threads with their priorities, the maximum first, first in first out within one.
    /// Fails only if memory runs out.
    pub fn ready(&self, alloc: Global) -> Result<Vec<Queued>, NoMemory>
        ensures { IfOk result (λ list. list.items ≡ self.now.core.ready) }
    {
        self.local().ready_queue().list(alloc)
    }

    /// The pending threads with their dates, in the order in which they entered the release queue.
    /// Fails only if memory runs out.
    pub fn releases(&self, alloc: Global) -> Result<Vec<Dated>, NoMemory>
        ensures { IfOk result (λ list. list.items ≡ self.now.core.releases) }
    {
        self.local().release_queue().list(alloc)
    }

    /// A context, or `None` if it belongs to another core.
    pub fn context(&self, context: ContextId) -> Option<&Context>
        requires { context < length self.now.core.contexts }
        ensures { option_map (λ kept. kept.context) (option_copied result) ≡ get_or self.now.core.contexts context None }
    {
        self.local().contexts().get(context)
    }

    /// The word of a notification.
    pub fn word(&self, note: NoteId) -> u32
        requires { note < length self.now.core.notes }
        ensures { result ≡ (note_of self.now.core note).word }
    {
        self.local().word(note)
    }

    /// The threads that wait on a notification with their priorities, in the order in which they
    /// began to wait. Fails only if memory runs out.
    pub fn waiters(&self, alloc: Global, note: NoteId) -> Result<Vec<Queued>, NoMemory>
        requires { note < length self.now.core.notes }
        ensures { IfOk result (λ list. list.items ≡ (note_of self.now.core note).waiters) }
    {
        self.local().notes().waiters(alloc, note)
    }
}

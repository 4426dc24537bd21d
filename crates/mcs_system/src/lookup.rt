ghost use Rattle.std.specs.Prelude.{◌≡◌, ◌<◌, length};
ghost use Rattle.mcs_system.specs.System.{context_part, note_part, source_part, thread_part, core_of};

use crate::{ContextPart, NotePart, SourcePart, System, SystemParts, ThreadPart};
use mcs_ticks::{ContextId, CoreId, NoteId, SourceId, ThreadId};

impl SystemParts {
    /// Returns the context with this number.
    pub fn context(&self, context: ContextId) -> &ContextPart
        requires { context < length self.now.contexts }
        ensures { result.now ≡ context_part self.now context }
    {
        &self.contexts.as_slice()[context.0]
    }

    /// Returns the notification with this number.
    pub fn note(&self, note: NoteId) -> &NotePart
        requires { note < length self.now.notes }
        ensures { result.now ≡ note_part self.now note }
    {
        &self.notes.as_slice()[note.0]
    }

    /// Returns the thread with this number.
    pub fn thread(&self, thread: ThreadId) -> &ThreadPart
        requires { thread < length self.now.threads }
        ensures { result.now ≡ thread_part self.now thread }
    {
        &self.threads.as_slice()[thread.0]
    }

    /// Returns the source with this number.
    pub fn source(&self, source: SourceId) -> &SourcePart
        requires { source < length self.now.sources }
        ensures { result.now ≡ source_part self.now source }
    {
        &self.sources.as_slice()[source.0]
    }

    /// Returns the core of a notification or server, or core 0 if it does not exist.
    pub fn core_of_note(&self, note: NoteId) -> CoreId
        ensures { result ≡ (note_part self.now note).core }
    {
        match self.notes.as_slice().get(note.0) {
            Some(part) => part.core,
            None => CoreId(0),
        }
    }

    /// Returns the core of a context, or core 0 if it does not exist.
    pub fn core_of_context(&self, context: ContextId) -> CoreId
        ensures { result ≡ (context_part self.now context).core }
    {
        match self.contexts.as_slice().get(context.0) {
            Some(part) => part.core,
            None => CoreId(0),
        }
    }

    /// Returns the core of a thread, which is that of its context, or core 0 if the context does
    /// not exist.
    pub fn core_of_thread(&self, thread: &ThreadPart) -> CoreId
        ensures { result ≡ core_of self.now thread.now }
    {
        self.core_of_context(thread.context)
    }
}

impl System {
    /// Returns the home core of a notification, or core 0 if it does not exist. The result is a
    /// core of the system.
    pub fn home_of(&self, note: NoteId) -> CoreId
        ensures home { result ≡ (note_part self.now note).core }
        ensures known { result < self.now.cores }
    {
        let parts = self.parts();
        match parts.notes.as_slice().get(note.0) {
            Some(part) => part.core,
            None => CoreId(0),
        }
    }
}

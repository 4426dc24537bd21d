//! Names of threads, notifications, sources and contexts.
ghost use Rattle.std.specs.Prelude.{◌≡◌, ◌≤◌, ◌+◌, ◌-◌, ◌++◌, ◌∷◌, take, length, IfOk};
ghost use Rattle.mcs_system.specs.System.{is_server};
ghost use Rattle.mcs_text.specs.Text.{context_name as context_name_of, note_name as note_name_of, source_name as source_name_of, thread_name as thread_name_of};
ghost use Rattle.mcs_text.specs.stored.Names.{name_at, AreNames};

use crate::bytes::{write_name, write_word};
use crate::name::Name;
use mcs_system::System;
use mcs_ticks::{ContextId, NoMemory, NoteId, SourceId, ThreadId};
use std::alloc::Global;
use std::marker::Model;

/// Writes the names of a system, each after a space.
pub(crate) trait Naming {
    ghost use Rattle.mcs_system.specs.System.{System};

    ghost system: { Self → System };

    /// Writes the name of a thread, or the empty text if there is no such thread.
    fn write_thread(&self, bytes: &mut [u8], at: usize, thread: ThreadId) -> usize
        requires { at + 33 ≤ length bytes.old }
        ensures short { result ≤ at + 33 }
        ensures written { take result bytes.new ≡ take at bytes.old ++ 32 ∷ thread_name_of (system self.now) thread };

    /// Writes the name of a notification, or the empty text if there is no such notification.
    fn write_note(&self, bytes: &mut [u8], at: usize, note: NoteId) -> usize
        requires { at + 33 ≤ length bytes.old }
        ensures short { result ≤ at + 33 }
        ensures written { take result bytes.new ≡ take at bytes.old ++ 32 ∷ note_name_of (system self.now) note };

    /// Writes the name of a source, or the empty text if there is no such source.
    fn write_source(&self, bytes: &mut [u8], at: usize, source: SourceId) -> usize
        requires { at + 33 ≤ length bytes.old }
        ensures short { result ≤ at + 33 }
        ensures written { take result bytes.new ≡ take at bytes.old ++ 32 ∷ source_name_of (system self.now) source };

    /// Whether a note is a server.
    fn is_server(&self, note: NoteId) -> bool
        ensures { result ≡ is_server (system self.now) note };

    /// Writes the name of a scheduling context, or the empty text if there is no such context.
    fn write_context(&self, bytes: &mut [u8], at: usize, context: ContextId) -> usize
        requires { at + 33 ≤ length bytes.old }
        ensures short { result ≤ at + 33 }
        ensures written { take result bytes.new ≡ take at bytes.old ++ 32 ∷ context_name_of (system self.now) context };
}

impl Naming for System {
    ghost system = { λ s. s };

    fn write_thread(&self, bytes: &mut [u8], at: usize, thread: ThreadId) -> usize {
        write_word(bytes, at, thread_name(self, thread))
    }

    fn write_note(&self, bytes: &mut [u8], at: usize, note: NoteId) -> usize {
        write_word(bytes, at, note_name(self, note))
    }

    fn write_source(&self, bytes: &mut [u8], at: usize, source: SourceId) -> usize {
        write_word(bytes, at, source_name(self, source))
    }

    fn is_server(&self, note: NoteId) -> bool {
        is_server(self, note)
    }

    fn write_context(&self, bytes: &mut [u8], at: usize, context: ContextId) -> usize {
        write_word(bytes, at, context_name(self, context))
    }
}

/// A system whose names lie next to each other, each in a block that is copied at once. Contracts
/// see the system.
#[derive(Drop)]
pub struct Names<'a> {
    system: &'a System,
    threads: Vec<Name>,
    notes: Vec<Name>,
    contexts: Vec<Name>,
    first_server: usize,
}

impl<'a> Model for Names<'a> {
    ghost use Rattle.mcs_system.specs.System.{System};
    ghost use Rattle.std.specs.Prelude.{◌≡◌, ◌-◌, length};
    ghost use Rattle.mcs_text.specs.Text.{context_name, note_name, thread_name};
    ghost use Rattle.mcs_text.specs.stored.Names.{AreNames};

    ghost Value = { System };

    ghost view = { λ a. a.system.now };

    ghost invariant = { λ a. AreNames (thread_name a.system.now) a.threads.items
        × AreNames (note_name a.system.now) a.notes.items
        × AreNames (context_name a.system.now) a.contexts.items
        × (a.first_server ≡ length a.system.now.notes - a.system.now.servers) };
}

impl<'a> Names<'a> {
    /// Returns the names of this system. `NoMemory` if memory runs out.
    pub fn new(alloc: Global, system: &'a System) -> Result<Names<'a>, NoMemory>
        ensures { IfOk result (λ names. names ≡ system.now) }
    {
        let parts = system.parts();
        let threads = parts.threads.as_slice().iter();
        let threads = threads
            .map(|part| Name::new(part.name.as_str()))
            .collect(alloc)?;
        let notes = parts.notes.as_slice().iter();
        let notes = notes
            .map(|part| Name::new(part.name.as_str()))
            .collect(alloc)?;
        let contexts = parts.contexts.as_slice().iter();
        let contexts = contexts
            .map(|part| Name::new(part.name.as_str()))
            .collect(alloc)?;
        Ok(Names {
            system,
            threads,
            notes,
            contexts,
            first_server: first_server(system),
        })
    }
}

impl Names<'_> {
    /// The system of the names.
    pub(crate) fn system(&self) -> &System
        ensures { result.now ≡ self.now }
    {
        self.system
    }
}

impl Naming for Names<'_> {
    ghost system = { λ names. names };

    #[inline(always)]
    fn write_thread(&self, bytes: &mut [u8], at: usize, thread: ThreadId) -> usize {
        write_listed(bytes, at, self.threads.as_slice(), thread.0)
    }

    #[inline(always)]
    fn write_note(&self, bytes: &mut [u8], at: usize, note: NoteId) -> usize {
        write_listed(bytes, at, self.notes.as_slice(), note.0)
    }

    fn write_source(&self, bytes: &mut [u8], at: usize, source: SourceId) -> usize {
        write_word(bytes, at, source_name(self.system, source))
    }

    #[inline(always)]
    fn is_server(&self, note: NoteId) -> bool {
        self.first_server <= note.0
    }

    #[inline(always)]
    fn write_context(&self, bytes: &mut [u8], at: usize, context: ContextId) -> usize {
        write_listed(bytes, at, self.contexts.as_slice(), context.0)
    }
}

/// Writes a space and the name at this index, or the empty text if there is no such name.
#[inline(always)]
fn write_listed(bytes: &mut [u8], at: usize, names: &[Name], place: usize) -> usize
    requires { at + 33 ≤ length bytes.old }
    ensures short { result ≤ at + 33 }
    ensures written { take result bytes.new ≡ take at bytes.old ++ 32 ∷ name_at names.now place }
{
    match names.get(place) {
        Some(name) => write_name(bytes, at, name),
        None => write_word(bytes, at, ""),
    }
}

/// The number of the first server. Equals the number of notes if there are no servers.
fn first_server(system: &System) -> usize
    ensures { result ≡ length system.now.notes - system.now.servers }
{
    let parts = system.parts();
    parts.notes.len().saturating_sub(parts.servers)
}

/// Whether a note is a server. Servers are the last notes.
pub fn is_server(system: &System, note: NoteId) -> bool
    ensures { result ≡ is_server system.now note }
{
    first_server(system) <= note.0
}

/// The name of a source, or the empty text if there is no such source.
pub fn source_name(system: &System, source: SourceId) -> &str
    ensures name { result.now ≡ source_name_of system.now source }
    ensures short { length result.now ≤ 32 }
{
    match system.parts().sources.as_slice().get(source.0) {
        Some(part) => part.name.as_str(),
        None => "",
    }
}

/// The name of a thread, or the empty text if there is no such thread.
pub fn thread_name(system: &System, thread: ThreadId) -> &str
    ensures name { result.now ≡ thread_name_of system.now thread }
    ensures short { length result.now ≤ 32 }
{
    match system.parts().threads.as_slice().get(thread.0) {
        Some(part) => part.name.as_str(),
        None => "",
    }
}

/// The name of a notification, or the empty text if there is no such notification.
pub fn note_name(system: &System, note: NoteId) -> &str
    ensures name { result.now ≡ note_name_of system.now note }
    ensures short { length result.now ≤ 32 }
{
    match system.parts().notes.as_slice().get(note.0) {
        Some(part) => part.name.as_str(),
        None => "",
    }
}

/// The name of a scheduling context, or the empty text if there is no such context.
pub fn context_name(system: &System, context: ContextId) -> &str
    ensures name { result.now ≡ context_name_of system.now context }
    ensures short { length result.now ≤ 32 }
{
    match system.parts().contexts.as_slice().get(context.0) {
        Some(part) => part.name.as_str(),
        None => "",
    }
}

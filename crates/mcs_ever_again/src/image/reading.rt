ghost use Rattle.std.specs.Prelude.{◌≡◌, ◌<◌, length, get_or, None, IfOk};
ghost use Rattle.mcs_core.specs.Core.{note_of};

use crate::image::context::ContextImage;
use crate::image::note::NoteImage;
use mcs_core::{CoreState, Thread};
use mcs_ticks::{ContextId, NoMemory, NoteId, ThreadId};
use std::alloc::Global;

/// Returns all threads of a system, by the core's state.
pub(crate) fn read_threads(
    alloc: Global,
    state: &CoreState,
    count: usize,
) -> Result<Vec<Thread>, NoMemory>
    requires { count ≡ length state.now.core.threads }
    ensures { IfOk result (λ threads. threads.items ≡ state.now.core.threads) }
{
    let mut threads = Vec::with_capacity(alloc, count)?;
    for i in 0..count {
        threads.push(state.thread(ThreadId(i)))?;
    }
    Ok(threads)
}

/// Returns a context, if the core holds it.
fn read_context(
    alloc: Global,
    state: &CoreState,
    context: ContextId,
) -> Result<Option<ContextImage>, NoMemory>
    requires { context < length state.now.core.contexts }
    ensures { IfOk result (λ image. image ≡ get_or state.now.core.contexts context None) }
{
    match state.context(context) {
        Some(kept) => Ok(Some(ContextImage::new(alloc, kept)?)),
        None => Ok(None),
    }
}

/// Returns all contexts of a system; only those of the core are present.
pub(crate) fn read_contexts(
    alloc: Global,
    state: &CoreState,
    count: usize,
) -> Result<Vec<Option<ContextImage>>, NoMemory>
    requires { count ≡ length state.now.core.contexts }
    ensures { IfOk result (λ contexts. contexts.items ≡ state.now.core.contexts) }
{
    let mut contexts = Vec::with_capacity(alloc, count)?;
    for i in 0..count {
        contexts.push(read_context(alloc, state, ContextId(i))?)?;
    }
    Ok(contexts)
}

fn read_note(alloc: Global, state: &CoreState, note: NoteId) -> Result<NoteImage, NoMemory>
    requires { note < length state.now.core.notes }
    ensures { IfOk result (λ image. image ≡ note_of state.now.core note) }
{
    let waiters = state.waiters(alloc, note)?;
    Ok(NoteImage::new(state.word(note), waiters))
}

pub(crate) fn read_notes(
    alloc: Global,
    state: &CoreState,
    count: usize,
) -> Result<Vec<NoteImage>, NoMemory>
    requires { count ≡ length state.now.core.notes }
    ensures { IfOk result (λ notes. notes.items ≡ state.now.core.notes) }
{
    let mut notes = Vec::with_capacity(alloc, count)?;
    for i in 0..count {
        notes.push(read_note(alloc, state, NoteId(i))?)?;
    }
    Ok(notes)
}

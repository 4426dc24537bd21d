ghost use Rattle.std.specs.Prelude.{◌≡◌, ℕ, ◌^◌, ◌==◌, ◌<◌, ◌≤◌, if◌then◌else◌, length, [], get_or, insert, map, option_map, IfOk, OnOk, Some, None};
ghost use Rattle.mcs_control.specs.Context.{new_context};
ghost use Rattle.mcs_notify.specs.Note.{quiet_note, note_of, with_note};
ghost use Rattle.mcs_control.specs.Control.{IsConfig, IsModeOf, kind_of};
ghost use Rattle.mcs_core.specs.stored.Contexts.{unboxed, HasRoom};
ghost use Rattle.mcs_core.specs.Core.{opening_thread, opening_releases, opening_contexts, opening_note, opening_core};
ghost use Rattle.mcs_core.specs.Orders.{by_moment, orders_of};
ghost use Rattle.mcs_system.specs.System.{context_part, start_of};
ghost use Rattle.mcs_system.specs.WellFormed.{IsWellFormed};

use crate::agenda::Agenda;
use crate::contexts::Contexts;
use crate::local::Local;
use crate::{Standing, Thread};
use mcs_control::{Context, Order};
use mcs_notify::Notes;
use mcs_ready::Ready;
use mcs_release::Releases;
use mcs_script::Place;
use mcs_system::{ContextPart, SystemParts, ThreadPart};
use mcs_ticks::{ContextId, CoreId, Limits, NoMemory, NoteId, ThreadId, Tick};
use std::alloc::Global;

/// Refills for which a context has room: as many as any configuration may have.
const ROOM: usize = 2 + Limits::EXTRA_REFILLS as usize;

/// Returns the initial state of a thread: pending, if it is one of the core's.
fn opening_thread(system: &SystemParts, core: CoreId, thread: &ThreadPart) -> Thread
    ensures { result ≡ opening_thread system.now core thread.now }
{
    Thread {
        standing: if system.core_of_thread(thread) == core {
            Standing::Pending
        } else {
            Standing::Elsewhere
        },
        place: Place::first(&thread.script, system.call, thread.priority),
        since: thread.start,
    }
}

fn opening_threads(
    alloc: Global,
    system: &SystemParts,
    core: CoreId,
) -> Result<Vec<Thread>, NoMemory>
    ensures { IfOk result (λ threads. threads.items ≡ map (opening_thread system.now core) system.now.threads) }
{
    let threads = system
        .threads
        .as_slice()
        .iter()
        .map(|thread| opening_thread(system, core, thread))
        .collect(alloc)?;
    Ok(threads)
}

/// Returns the initial release queue: the threads of the core wait for their starts.
fn opening_releases(alloc: Global, system: &SystemParts, core: CoreId) -> Result<Releases, NoMemory>
    ensures queue { IfOk result (λ releases. releases.queue ≡ opening_releases system.now core 0 system.now.threads) }
    ensures room { IfOk result (λ releases. releases.room ≡ length system.now.threads) }
{
    let mut releases = Releases::new(alloc, system.threads.len())?;
    for (i, thread) in system.threads.as_slice().iter().enumerate() {
        if system.core_of_thread(thread) == core {
            releases.enter(ThreadId(i), thread.start);
        }
    }
    Ok(releases)
}

/// Returns the start of each context's thread, or 0 if it has no thread.
fn context_starts(alloc: Global, system: &SystemParts) -> Result<Vec<Tick>, NoMemory>
    requires { IsWellFormed system.now }
    ensures many { IfOk result (λ starts. length starts.items ≡ length system.now.contexts) }
    ensures starts { IfOk result
        (λ starts. (k : ℕ) → k < length system.now.contexts → get_or starts.items k 0 ≡ start_of system.now.threads k) }
{
    let mut starts = vec![in alloc; Tick::ZERO; system.contexts.len()]?;
    let threads = system.threads.as_slice();
    for i in (0..threads.len()).rev() {
        let thread = &threads[i];
        starts[thread.context.0] = thread.start;
    }
    Ok(starts)
}

/// Returns a new context of the core. A context of another core takes no memory.
fn opening_context(
    alloc: Global,
    core: CoreId,
    part: &ContextPart,
    start: Tick,
) -> Result<Option<Context>, NoMemory>
    requires checked { IsConfig part.now.config }
    requires mode { IsModeOf (kind_of part.now.config) part.now.mode }
    requires early { start ≤ 2 ^ 40 }
    ensures context { IfOk result
        (λ kept. option_map (λ own. own.context) kept
        ≡ (if part.now.core == core then Some (new_context part.now.config part.now.mode start) else None)) }
    ensures room { IfOk result HasRoom }
{
    if part.core != core {
        return Ok(None);
    }
    let context = Context::new(alloc, part.config, part.mode, start, ROOM)?;
    Ok(Some(context))
}

fn boxed(alloc: Global, context: Option<Context>) -> Result<Option<Box<Context>>, NoMemory>
    ensures { IfOk result (λ kept. unboxed kept ≡ context) }
{
    match context {
        Some(context) => Ok(Some(Box::new(alloc, context)?)),
        None => Ok(None),
    }
}

fn opening_contexts(alloc: Global, system: &SystemParts, core: CoreId) -> Result<Contexts, NoMemory>
    requires { IsWellFormed system.now }
    ensures { IfOk result (λ contexts. contexts ≡ opening_contexts system.now core 0 system.now.contexts) }
{
    let starts = context_starts(alloc, system)?;
    let parts = system.contexts.as_slice();
    let mut contexts = Vec::with_capacity(alloc, parts.len())?;
    for (k, part) in parts.iter().enumerate() {
        let context = opening_context(alloc, core, part, starts[k])?;
        let kept = boxed(alloc, context)?;
        contexts.push(kept)?;
    }
    Ok(Contexts::from_parts(contexts))
}

/// Posts the first word of a notification that has none yet.
fn hold_first(notes: &mut Notes, note: NoteId, word: u32)
    requires known { note < length notes.old.notes }
    requires quiet { note_of notes.old.notes note ≡ quiet_note }
    ensures { notes.new ≡ with_note note (record { word = word; waiters = [] }) notes.old }
{
    notes.post(note, word);
}

/// Returns the notifications with their first words.
fn opening_notes(alloc: Global, system: &SystemParts) -> Result<Notes, NoMemory>
    ensures notes { IfOk result (λ notes. notes.notes ≡ map opening_note system.now.notes) }
    ensures room { IfOk result (λ notes. notes.threads ≡ length system.now.threads) }
{
    let mut notes = Notes::new(alloc, system.notes.len(), system.threads.len())?;
    for (i, note) in system.notes.as_slice().iter().enumerate() {
        hold_first(&mut notes, NoteId(i), note.word);
    }
    Ok(notes)
}

impl Local {
    /// Returns the core at the opening of a run: its threads wait for their starts, its contexts
    /// are new, and no thread runs.
    pub(crate) fn open(alloc: Global, system: &SystemParts, core: CoreId) -> Result<Local, NoMemory>
        requires { IsWellFormed system.now }
        ensures { IfOk result (λ local. local ≡ opening_core system.now core) }
    {
        let count = system.threads.len();
        Ok(Local::from_parts(
            opening_threads(alloc, system, core)?,
            Ready::new(alloc, count)?,
            opening_releases(alloc, system, core)?,
            opening_contexts(alloc, system, core)?,
            opening_notes(alloc, system)?,
        ))
    }
}

/// Sorts orders by moment; those of one moment keep their order.
fn sort_orders(orders: &mut Vec<Order>) -> Result<(), NoMemory>
    ensures { OnOk result (orders.new.items ≡ by_moment orders.old.items) }
{
    orders.sort_by_key(|order| order.moment.get())?;
    Ok(())
}

impl Agenda {
    /// Returns the orders for the contexts of a core, by moment, and in file order within one
    /// moment.
    pub(crate) fn new(alloc: Global, system: &SystemParts, core: CoreId) -> Result<Agenda, NoMemory>
        ensures { IfOk result (λ agenda. agenda ≡ orders_of system.now core) }
    {
        let mut orders = Vec::new(alloc);
        for order in system.orders.as_slice() {
            if system.core_of_context(order.context) == core {
                orders.push(*order)?;
            }
        }
        sort_orders(&mut orders)?;
        Ok(Agenda::from_orders(orders))
    }
}

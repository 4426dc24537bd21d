//! Hints as JSON objects. If memory runs out, a call leaves the text unchanged.
ghost use Rattle.std.specs.Prelude.{◌≡◌, ◌++◌, ◌∷◌, [], OnOk, OnErr, codes};
ghost use Rattle.mcs_fields.specs.Fields.{name, object_text};
ghost use Rattle.mcs_system.specs.System.{System as TheSystem};
ghost use Rattle.mcs_hints.specs.declared.hint.Hint.TheVariants.{Overcommitted, Unawaited, Unbound, Unhandled, Unheard, Unreached, Unsignalled, Unused};
ghost use Rattle.mcs_check_lines.specs.Fields.{call_fields, hint_fields};

use crate::chain_line::chain_name;
use mcs_chain::ChainId;
use mcs_fields::{Cell, Field, put_object};
use mcs_hints::Hint;
use mcs_system::System;
use mcs_text::{context_name, note_name, source_name, thread_name};
use mcs_ticks::{ContextId, CoreId, NoMemory, NoteId, SourceId, ThreadId};
use std::alloc::Global;

/// The first value of each hint.
const KIND: Field<'static> = ("kind", Cell::Name("hint"));

/// Appends the object of a hint.
pub(crate) fn put_hint_object(
    alloc: Global,
    text: &mut Vec<u8>,
    system: &System,
    hint: &Hint,
) -> Result<(), NoMemory>
    ensures ok { OnOk result (text.new.items ≡ text.old.items ++ object_text (hint_fields system.now hint.now)) }
    ensures err { OnErr result (text.new.items ≡ text.old.items) }
{
    match *hint {
        Hint::NoThread => put_whole(alloc, text, "no_thread"),
        Hint::NoDeadline => put_whole(alloc, text, "no_deadline"),
        Hint::Unsignalled { note } => put_unsignalled(alloc, text, system, note),
        Hint::Unawaited { source, note } => put_unawaited(alloc, text, system, source, note),
        Hint::Unhandled {
            source,
            note,
            badge,
        } => put_unhandled(alloc, text, system, source, note, badge),
        Hint::Unheard {
            thread,
            note,
            badge,
        } => put_unheard(alloc, text, system, thread, note, badge),
        Hint::Inverted {
            thread,
            server,
            priority,
            caller,
        } => {
            let thread = thread_name(system, thread);
            let server = note_name(system, server);
            put_call(alloc, text, thread, server, priority, caller)
        }
        Hint::Unreached {
            chain,
            source,
            thread,
        } => put_unreached(alloc, text, system, chain, source, thread),
        Hint::Unbound { context } => put_unbound(alloc, text, system, context),
        Hint::Unused { core } => put_unused(alloc, text, core),
        Hint::Overcommitted { core, millionths } => put_overcommitted(
            alloc, text, core, millionths,
        ),
    }
}

/// Appends the object of a hint of the whole file.
fn put_whole(alloc: Global, text: &mut Vec<u8>, hint: &str) -> Result<(), NoMemory>
    ensures ok { OnOk result (text.new.items ≡ text.old.items ++ object_text ((codes "kind", name (codes "hint")) ∷ (codes "hint", name hint.now) ∷ [])) }
    ensures err { OnErr result (text.new.items ≡ text.old.items) }
{
    put_object(alloc, text, &[KIND, ("hint", Cell::Name(hint))])
}

fn put_unsignalled(
    alloc: Global,
    text: &mut Vec<u8>,
    system: &System,
    note: NoteId,
) -> Result<(), NoMemory>
    ensures ok { OnOk result (text.new.items ≡ text.old.items ++ object_text (hint_fields system.now (Unsignalled note))) }
    ensures err { OnErr result (text.new.items ≡ text.old.items) }
{
    let hint = ("hint", Cell::Name("unsignalled"));
    let note = ("note", Cell::Name(note_name(system, note)));
    put_object(alloc, text, &[KIND, hint, note])
}

fn put_unawaited(
    alloc: Global,
    text: &mut Vec<u8>,
    system: &System,
    source: SourceId,
    note: NoteId,
) -> Result<(), NoMemory>
    ensures ok { OnOk result (text.new.items ≡ text.old.items ++ object_text (hint_fields system.now (Unawaited source note))) }
    ensures err { OnErr result (text.new.items ≡ text.old.items) }
{
    let hint = ("hint", Cell::Name("unawaited"));
    let source = ("source", Cell::Name(source_name(system, source)));
    let note = ("note", Cell::Name(note_name(system, note)));
    put_object(alloc, text, &[KIND, hint, source, note])
}

/// Appends the object of a source whose badge no handler takes.
fn put_unhandled(
    alloc: Global,
    text: &mut Vec<u8>,
    system: &System,
    source: SourceId,
    note: NoteId,
    badge: u32,
) -> Result<(), NoMemory>
    ensures ok { OnOk result (text.new.items ≡ text.old.items ++ object_text (hint_fields system.now (Unhandled source note badge))) }
    ensures err { OnErr result (text.new.items ≡ text.old.items) }
{
    let hint = ("hint", Cell::Name("unhandled"));
    let source = ("source", Cell::Name(source_name(system, source)));
    let note = ("note", Cell::Name(note_name(system, note)));
    let badge = ("badge", Cell::Number(u64::from(badge)));
    put_object(alloc, text, &[KIND, hint, source, note, badge])
}

/// Appends the object of a thread's signal whose badge no handler takes.
fn put_unheard(
    alloc: Global,
    text: &mut Vec<u8>,
    system: &System,
    thread: ThreadId,
    note: NoteId,
    badge: u32,
) -> Result<(), NoMemory>
    ensures ok { OnOk result (text.new.items ≡ text.old.items ++ object_text (hint_fields system.now (Unheard thread note badge))) }
    ensures err { OnErr result (text.new.items ≡ text.old.items) }
{
    let hint = ("hint", Cell::Name("unheard"));
    let thread = ("thread", Cell::Name(thread_name(system, thread)));
    let note = ("note", Cell::Name(note_name(system, note)));
    let badge = ("badge", Cell::Number(u64::from(badge)));
    put_object(alloc, text, &[KIND, hint, thread, note, badge])
}

/// Appends the object of a call of a server.
fn put_call<'s>(
    alloc: Global,
    text: &mut Vec<u8>,
    thread: &'s str,
    server: &'s str,
    priority: u8,
    caller: u8,
) -> Result<(), NoMemory>
    ensures ok { OnOk result (text.new.items ≡ text.old.items ++ object_text (call_fields thread.now server.now priority caller)) }
    ensures err { OnErr result (text.new.items ≡ text.old.items) }
{
    let hint = ("hint", Cell::Name("inverted"));
    let thread = ("thread", Cell::Name(thread));
    let server = ("server", Cell::Name(server));
    let priority = ("priority", Cell::Number(u64::from(priority)));
    let caller = ("caller", Cell::Number(u64::from(caller)));
    put_object(alloc, text, &[KIND, hint, thread, server, priority, caller])
}

/// Appends the object of a chain that no signal can complete.
fn put_unreached(
    alloc: Global,
    text: &mut Vec<u8>,
    system: &System,
    chain: ChainId,
    source: SourceId,
    thread: ThreadId,
) -> Result<(), NoMemory>
    ensures ok { OnOk result (text.new.items ≡ text.old.items ++ object_text (hint_fields system.now (Unreached chain source thread))) }
    ensures err { OnErr result (text.new.items ≡ text.old.items) }
{
    let hint = ("hint", Cell::Name("unreached"));
    let chain = ("chain", Cell::Name(chain_name(system, chain)));
    let source = ("source", Cell::Name(source_name(system, source)));
    let thread = ("thread", Cell::Name(thread_name(system, thread)));
    put_object(alloc, text, &[KIND, hint, chain, source, thread])
}

fn put_unbound(
    alloc: Global,
    text: &mut Vec<u8>,
    system: &System,
    context: ContextId,
) -> Result<(), NoMemory>
    ensures ok { OnOk result (text.new.items ≡ text.old.items ++ object_text (hint_fields system.now (Unbound context))) }
    ensures err { OnErr result (text.new.items ≡ text.old.items) }
{
    let hint = ("hint", Cell::Name("unbound"));
    let context = ("context", Cell::Name(context_name(system, context)));
    put_object(alloc, text, &[KIND, hint, context])
}

fn put_unused(alloc: Global, text: &mut Vec<u8>, core: CoreId) -> Result<(), NoMemory>
    ensures ok { (system : TheSystem) → OnOk result (text.new.items ≡ text.old.items ++ object_text (hint_fields system (Unused core))) }
    ensures err { OnErr result (text.new.items ≡ text.old.items) }
{
    let hint = ("hint", Cell::Name("unused"));
    let core = ("core", Cell::Number(core.0 as u64));
    put_object(alloc, text, &[KIND, hint, core])
}

fn put_overcommitted(
    alloc: Global,
    text: &mut Vec<u8>,
    core: CoreId,
    millionths: u64,
) -> Result<(), NoMemory>
    ensures ok { (system : TheSystem) → OnOk result (text.new.items ≡ text.old.items ++ object_text (hint_fields system (Overcommitted core millionths))) }
    ensures err { OnErr result (text.new.items ≡ text.old.items) }
{
    let hint = ("hint", Cell::Name("overcommitted"));
    let core = ("core", Cell::Number(core.0 as u64));
    let grants = ("grants", Cell::Number(millionths));
    put_object(alloc, text, &[KIND, hint, core, grants])
}

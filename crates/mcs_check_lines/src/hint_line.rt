//! The lines of hints. If memory runs out, a call leaves the text unchanged.
ghost use Rattle.std.specs.Prelude.{◌≡◌, ◌++◌, OnOk, OnErr};
ghost use Rattle.std.specs.Io.{StartsWith};
ghost use Rattle.mcs_system.specs.System.{System as TheSystem};
ghost use Rattle.mcs_text.specs.Text.{after};
ghost use Rattle.mcs_hints.specs.declared.hint.Hint.TheVariants.{Inverted, Overcommitted, Unawaited, Unbound, Unhandled, Unheard, Unreached, Unsignalled, Unused};
ghost use Rattle.mcs_check_lines.specs.Formats.{hint_line};
ghost use Rattle.mcs_check_lines.specs.Lines.{call_words, hint_text, hint_words, untaken_words};

use crate::chain_line::chain_name;
use crate::hint_object::put_hint_object;
use crate::line::append_named;
use mcs_chain::ChainId;
use mcs_check_words::Format;
use mcs_hints::Hint;
use mcs_system::System;
use mcs_text::{append_counts, append_word, context_name, note_name, source_name, thread_name};
use mcs_ticks::{ContextId, CoreId, NoMemory, NoteId, SourceId, ThreadId};
use std::alloc::Global;

/// Appends the line of a hint; CSV has none.
pub fn put_hint_as(
    alloc: Global,
    text: &mut Vec<u8>,
    format: Format,
    system: &System,
    hint: &Hint,
) -> Result<(), NoMemory>
    ensures ok { OnOk result (text.new.items ≡ text.old.items ++ hint_line format system.now hint.now) }
    ensures err { OnErr result (text.new.items ≡ text.old.items) }
{
    match format {
        Format::Text => put_hint(text, system, hint),
        Format::Csv => Ok(()),
        Format::Json => put_hint_object(alloc, text, system, hint),
    }
}

/// Appends the line of a hint. If memory runs out the text is unchanged.
pub fn put_hint(text: &mut Vec<u8>, system: &System, hint: &Hint) -> Result<(), NoMemory>
    ensures ok { OnOk result (text.new.items ≡ text.old.items ++ hint_text system.now hint.now) }
    ensures err { OnErr result (text.new.items ≡ text.old.items) }
{
    let start = text.len();
    let result = append_hint(text, system, hint);
    if result.is_err() {
        text.truncate(start);
    }
    result
}

fn append_hint(text: &mut Vec<u8>, system: &System, hint: &Hint) -> Result<(), NoMemory>
    ensures ok { OnOk result (text.new.items ≡ text.old.items ++ hint_text system.now hint.now) }
    ensures kept { StartsWith text.new.items text.old.items }
{
    text.extend_from_slice(b"hint")?;
    append_reason(text, system, hint)?;
    text.push(b'\n')?;
    Ok(())
}

/// Appends a hint: its subject and its reason.
fn append_reason(text: &mut Vec<u8>, system: &System, hint: &Hint) -> Result<(), NoMemory>
    ensures ok { OnOk result (text.new.items ≡ text.old.items ++ after (hint_words system.now hint.now)) }
    ensures kept { StartsWith text.new.items text.old.items }
{
    match *hint {
        Hint::NoThread => append_word(text, "no thread"),
        Hint::NoDeadline => append_word(text, "no thread has a deadline"),
        Hint::Unsignalled { note } => append_unsignalled(text, system, note),
        Hint::Unawaited { source, note } => append_unawaited(text, system, source, note),
        Hint::Unhandled {
            source,
            note,
            badge,
        } => append_unhandled(text, system, source, note, badge),
        Hint::Unheard {
            thread,
            note,
            badge,
        } => append_unheard(text, system, thread, note, badge),
        Hint::Inverted {
            thread,
            server,
            priority,
            caller,
        } => append_inverted(text, system, thread, server, priority, caller),
        Hint::Unreached {
            chain,
            source,
            thread,
        } => append_unreached(text, system, chain, source, thread),
        Hint::Unbound { context } => append_unbound(text, system, context),
        Hint::Unused { core } => append_unused(text, core),
        Hint::Overcommitted { core, millionths } => append_overcommitted(text, core, millionths),
    }
}

fn append_unsignalled(text: &mut Vec<u8>, system: &System, note: NoteId) -> Result<(), NoMemory>
    ensures ok { OnOk result (text.new.items ≡ text.old.items ++ after (hint_words system.now (Unsignalled note))) }
    ensures kept { StartsWith text.new.items text.old.items }
{
    append_named(text, "note", note_name(system, note))?;
    append_word(text, "is waited on and no script signals it")
}

fn append_unawaited(
    text: &mut Vec<u8>,
    system: &System,
    source: SourceId,
    note: NoteId,
) -> Result<(), NoMemory>
    ensures ok { OnOk result (text.new.items ≡ text.old.items ++ after (hint_words system.now (Unawaited source note))) }
    ensures kept { StartsWith text.new.items text.old.items }
{
    append_named(text, "source", source_name(system, source))?;
    append_named(text, "interrupts on", note_name(system, note))?;
    append_word(text, "and no script waits on it")
}

fn append_unhandled(
    text: &mut Vec<u8>,
    system: &System,
    source: SourceId,
    note: NoteId,
    badge: u32,
) -> Result<(), NoMemory>
    ensures ok { OnOk result (text.new.items ≡ text.old.items ++ after (hint_words system.now (Unhandled source note badge))) }
    ensures kept { StartsWith text.new.items text.old.items }
{
    append_named(text, "source", source_name(system, source))?;
    append_untaken(text, "interrupts on", note_name(system, note), badge)
}

fn append_unheard(
    text: &mut Vec<u8>,
    system: &System,
    thread: ThreadId,
    note: NoteId,
    badge: u32,
) -> Result<(), NoMemory>
    ensures ok { OnOk result (text.new.items ≡ text.old.items ++ after (hint_words system.now (Unheard thread note badge))) }
    ensures kept { StartsWith text.new.items text.old.items }
{
    append_named(text, "thread", thread_name(system, thread))?;
    append_untaken(text, "signals", note_name(system, note), badge)
}

/// Appends what posts a badge to a notification that no handler takes: a verb, the name and the
/// badge.
fn append_untaken(text: &mut Vec<u8>, posts: &str, note: &str, badge: u32) -> Result<(), NoMemory>
    ensures ok { OnOk result (text.new.items ≡ text.old.items ++ after (untaken_words posts.now note.now badge)) }
    ensures kept { StartsWith text.new.items text.old.items }
{
    append_named(text, posts, note)?;
    append_counts(text, &[("with badge", u64::from(badge))])?;
    append_word(text, "and no handler takes it")
}

fn append_inverted(
    text: &mut Vec<u8>,
    system: &System,
    thread: ThreadId,
    server: NoteId,
    priority: u8,
    caller: u8,
) -> Result<(), NoMemory>
    ensures ok { OnOk result (text.new.items ≡ text.old.items ++ after (hint_words system.now (Inverted thread server priority caller))) }
    ensures kept { StartsWith text.new.items text.old.items }
{
    append_named(text, "thread", thread_name(system, thread))?;
    append_call(text, note_name(system, server), priority, caller)
}

/// Appends a call of a server: its name, its priority and that of the caller.
fn append_call(text: &mut Vec<u8>, server: &str, priority: u8, caller: u8) -> Result<(), NoMemory>
    ensures ok { OnOk result (text.new.items ≡ text.old.items ++ after (call_words server.now priority caller)) }
    ensures kept { StartsWith text.new.items text.old.items }
{
    append_named(text, "calls", server)?;
    let priorities = [
        ("of priority", u64::from(priority)),
        ("at priority", u64::from(caller)),
    ];
    append_counts(text, &priorities)
}

/// Appends a chain that no signal can complete.
fn append_unreached(
    text: &mut Vec<u8>,
    system: &System,
    chain: ChainId,
    source: SourceId,
    thread: ThreadId,
) -> Result<(), NoMemory>
    ensures ok { OnOk result (text.new.items ≡ text.old.items ++ after (hint_words system.now (Unreached chain source thread))) }
    ensures kept { StartsWith text.new.items text.old.items }
{
    append_named(text, "chain", chain_name(system, chain))?;
    text.push(b':')?;
    append_named(text, "no signal leads from", source_name(system, source))?;
    append_named(text, "to", thread_name(system, thread))
}

fn append_unbound(text: &mut Vec<u8>, system: &System, context: ContextId) -> Result<(), NoMemory>
    ensures ok { OnOk result (text.new.items ≡ text.old.items ++ after (hint_words system.now (Unbound context))) }
    ensures kept { StartsWith text.new.items text.old.items }
{
    append_named(text, "context", context_name(system, context))?;
    append_word(text, "has no thread")
}

fn append_unused(text: &mut Vec<u8>, core: CoreId) -> Result<(), NoMemory>
    ensures ok { (system : TheSystem) → OnOk result (text.new.items ≡ text.old.items ++ after (hint_words system (Unused core))) }
    ensures kept { StartsWith text.new.items text.old.items }
{
    append_counts(text, &[("core", core.0 as u64)])?;
    append_word(text, "has no thread")
}

fn append_overcommitted(text: &mut Vec<u8>, core: CoreId, millionths: u64) -> Result<(), NoMemory>
    ensures ok { (system : TheSystem) → OnOk result (text.new.items ≡ text.old.items ++ after (hint_words system (Overcommitted core millionths))) }
    ensures kept { StartsWith text.new.items text.old.items }
{
    append_counts(text, &[("core", core.0 as u64), ("grants", millionths)])?;
    append_word(text, "of 1000000")
}

//! The lines of a way as text.
ghost use Rattle.std.specs.Prelude.{◌≡◌, ◌++◌, ◌∷◌, [], codes, decimal, OnOk};
ghost use Rattle.mcs_system.specs.System.{core_of, thread_part};
ghost use Rattle.mcs_text.specs.Text.{after, counted};
ghost use Rattle.mcs_way_lines.specs.Lines.{core_by, leg_text, sum_text, times, ways, words_by};

use itoa::Buffer;
use mcs_system::System;
use mcs_text::{append_counts, append_number, append_word, note_name, thread_name};
use mcs_ticks::{ContextId, CoreId, NoMemory, NoteId, ThreadId};
use mcs_verdict::Stood;
use mcs_way::{Carrier, Leg, Sums};

/// The core of a thread, or that of context 0 if there is no such thread.
fn core_of(system: &System, thread: ThreadId) -> CoreId
    ensures { result ≡ core_of system.now (thread_part system.now thread) }
{
    let parts = system.parts();
    match parts.threads.as_slice().get(thread.0) {
        Some(part) => parts.core_of_thread(part),
        None => parts.core_of_context(ContextId(0)),
    }
}

/// The core of a leg: that of the notification or of the thread, or the one that a signal leaves.
pub(crate) fn core_by(system: &System, carrier: &Carrier) -> CoreId
    ensures { result ≡ core_by system.now carrier.now }
{
    match *carrier {
        Carrier::Note(note) => system.parts().core_of_note(note),
        Carrier::Thread(thread, _) => core_of(system, thread),
        Carrier::Signal(maker, _) => maker,
    }
}

/// Appends a number, without a space before it.
fn append_digits(text: &mut Vec<u8>, number: u64) -> Result<(), NoMemory>
    ensures { OnOk result (text.new.items ≡ text.old.items ++ decimal number) }
{
    let mut buffer = Buffer::new();
    text.extend_from_slice(buffer.format(number).as_bytes())?;
    Ok(())
}

/// Appends when a leg ends, and how long it takes.
fn append_times(text: &mut Vec<u8>, leg: &Leg) -> Result<(), NoMemory>
    ensures { OnOk result (text.new.items ≡ text.old.items ++ after (counted (times leg.now))) }
{
    append_counts(text, &[("to", leg.to.get()), ("ticks", leg.ticks())])
}

/// Appends how a thread stood.
fn append_ways(text: &mut Vec<u8>, stood: &Stood) -> Result<(), NoMemory>
    ensures { OnOk result (text.new.items ≡ text.old.items ++ after (counted (ways stood.now))) }
{
    append_counts(
        text,
        &[
            ("ready", stood.ready),
            ("running", stood.running),
            ("throttled", stood.throttled),
            ("blocked", stood.blocked),
            ("server", stood.server),
        ],
    )
}

/// Appends a word, a name and the times of a leg.
fn append_named(text: &mut Vec<u8>, word: &str, name: &str, leg: &Leg) -> Result<(), NoMemory>
    ensures { OnOk result (text.new.items ≡ text.old.items ++ after (word.now ∷ name.now ∷ counted (times leg.now))) }
{
    append_word(text, word)?;
    append_word(text, name)?;
    append_times(text, leg)
}

/// Appends the words of a leg in which a notification has the interrupt.
fn append_held(text: &mut Vec<u8>, system: &System, leg: &Leg, note: NoteId) -> Result<(), NoMemory>
    ensures { OnOk result (text.new.items ≡ text.old.items ++ after (words_by system.now leg.now (Carrier.Note note))) }
{
    append_named(text, "held", note_name(system, note), leg)
}

/// Appends the words of a leg in which a thread has the interrupt.
fn append_ran(
    text: &mut Vec<u8>,
    system: &System,
    leg: &Leg,
    thread: ThreadId,
    stood: Stood,
) -> Result<(), NoMemory>
    ensures { OnOk result (text.new.items ≡ text.old.items ++ after (words_by system.now leg.now (Carrier.Thread thread stood))) }
{
    append_named(text, "ran", thread_name(system, thread), leg)?;
    append_ways(text, &stood)
}

/// Appends the words of a leg in which a signal has the interrupt.
fn append_delay(
    text: &mut Vec<u8>,
    system: &System,
    leg: &Leg,
    maker: CoreId,
    home: CoreId,
) -> Result<(), NoMemory>
    ensures { OnOk result (text.new.items ≡ text.old.items ++ after (words_by system.now leg.now (Carrier.Signal maker home))) }
{
    append_word(text, "delay")?;
    append_counts(text, &[("core", home.0 as u64)])?;
    append_times(text, leg)
}

/// Appends the words of a leg.
fn append_words(text: &mut Vec<u8>, system: &System, leg: &Leg) -> Result<(), NoMemory>
    ensures { OnOk result (text.new.items ≡ text.old.items ++ after (words_by system.now leg.now leg.now.carrier)) }
{
    match leg.carrier {
        Carrier::Note(note) => append_held(text, system, leg, note),
        Carrier::Thread(thread, stood) => append_ran(text, system, leg, thread, stood),
        Carrier::Signal(maker, home) => append_delay(text, system, leg, maker, home),
    }
}

/// Appends the line of a leg as text.
pub(crate) fn append_leg(text: &mut Vec<u8>, system: &System, leg: &Leg) -> Result<(), NoMemory>
    ensures { OnOk result (text.new.items ≡ text.old.items ++ leg_text system.now leg.now) }
{
    append_digits(text, leg.from.get())?;
    append_number(text, core_by(system, &leg.carrier).0 as u64)?;
    append_words(text, system, leg)?;
    text.push(b'\n')?;
    Ok(())
}

/// Appends the line of the sums as text.
pub(crate) fn append_sum(text: &mut Vec<u8>, sums: &Sums) -> Result<(), NoMemory>
    ensures { OnOk result (text.new.items ≡ text.old.items ++ sum_text sums.now) }
{
    text.extend_from_slice(b"sum")?;
    append_counts(
        text,
        &[
            ("ticks", sums.ticks),
            ("held", sums.held),
            ("delay", sums.delay),
            ("ready", sums.ready),
            ("running", sums.running),
            ("throttled", sums.throttled),
            ("blocked", sums.blocked),
            ("server", sums.server),
        ],
    )?;
    text.push(b'\n')?;
    Ok(())
}

//! The origins that a row moves. A place is a bit of a word, 1 to 2^31, or a thread's free set,
//! 2^32.
ghost use Rattle.std.specs.Prelude.{◌≡◌, ◌<◌, length};
ghost use Rattle.mcs_system.specs.System.{is_server, delay_by_link, delay_between, thread_part};
ghost use Rattle.mcs_chain.specs.Steps.{step_of, gone_of};
ghost use Rattle.mcs_chain.specs.Moves.{reach, called_bits, later_places, taking, gives, moves};

use crate::step::{Gone, Step, gone_of, is_at_first_wait, step_at};
use mcs_origins::Taking;
use mcs_system::{Link, SystemParts};
use mcs_ticks::{CoreId, NoteId, Row, SourceId, ThreadId, What};
use mcs_verdict::bits_of;

/// A thread's free set.
const FREE: u64 = 1 << 32;

/// The bits of a word.
const ALL_BITS: u64 = (1 << 32) - 1;

/// The effect of a row on the sets of origins.
#[derive(Clone, Copy, Debug, PartialEq, Eq)]
pub enum Move {
    /// No origins.
    Nothing,
    /// The source's interrupt is an origin, and is posted with this badge.
    Start(SourceId, u32),
    /// The thread posts with this badge what it has at these places.
    Give(ThreadId, u64, u32),
    /// The thread's signal to the notification leaves this core at this moment, with this badge,
    /// and carries what the thread has at these places.
    Send(ThreadId, u64, u32, NoteId, CoreId, u64),
    /// The signal to the notification arrives that this core made at this moment. It posts what it
    /// carries.
    Land(NoteId, CoreId, u64),
    /// The notification holds what was posted.
    Hold(NoteId),
    /// The thread takes what was posted.
    Wake(ThreadId, Taking),
    /// The thread takes what the notification held.
    Got(ThreadId, NoteId, Taking),
    /// The thread's round ends, which this word began.
    End(ThreadId, u32),
}

/// The places for badges: their bits, or all bits if there are none; and the free set.
pub(crate) fn reach(badges: u32) -> u64
    ensures { result ≡ reach badges }
{
    let bits = if badges == 0 {
        ALL_BITS
    } else {
        u64::from(badges)
    };
    bits | FREE
}

/// The bits of the thread's first word that, each alone, leave it something to do.
fn called_bits(parts: &SystemParts, thread: ThreadId) -> u64
    requires { thread < length parts.now.threads }
    ensures { result ≡ called_bits (thread_part parts.now thread) }
{
    match bits_of(parts.thread(thread)) {
        Some(bits) => u64::from(bits),
        None => ALL_BITS,
    }
}

/// The places for what a later wait gives.
fn later_places(handler: u32, word: u32) -> u64
    ensures { result ≡ later_places handler word }
{
    if handler == 0 {
        FREE
    } else {
        u64::from(word & handler)
    }
}

/// How the thread with this number takes what its wait gives.
fn how_taken(parts: &SystemParts, all: &[Gone], thread: ThreadId) -> Taking
    ensures { let part = thread_part parts.now thread in
        result ≡ taking part (step_of part (gone_of all.now thread)) (gone_of all.now thread) }
{
    let step = step_at(parts, all, thread);
    if is_at_first_wait(parts, thread, step) {
        Taking::First(called_bits(parts, thread))
    } else {
        Taking::Later(later_places(step.handler, gone_of(all, thread).word))
    }
}

fn is_server(parts: &SystemParts, note: NoteId) -> bool
    ensures { result ≡ is_server parts.now note }
{
    parts.notes.len().saturating_sub(parts.servers) <= note.0
}

fn delay_by_link(links: &[Link], maker: CoreId, home: CoreId, delay: u64) -> u64
    ensures { result ≡ delay_by_link links.now maker home delay }
{
    for link in links {
        if link.maker == maker && link.home == home {
            return link.delay;
        }
    }
    delay
}

/// How long a signal of this maker is under way to this core. It looks at each link until it finds
/// theirs.
fn delay_between(parts: &SystemParts, maker: CoreId, home: CoreId) -> u64
    ensures { result ≡ delay_between parts.now maker home }
{
    delay_by_link(parts.links.as_slice(), maker, home, parts.delay)
}

fn gives(
    parts: &SystemParts,
    row: &Row,
    thread: ThreadId,
    note: NoteId,
    badge: u32,
    step: Step,
) -> Move
    ensures { result ≡ gives parts.now row.now thread note badge step }
{
    if is_server(parts, note) {
        Move::Nothing
    } else if parts.core_of_note(note) == row.core {
        Move::Give(thread, reach(step.handler), badge)
    } else {
        Move::Send(
            thread,
            reach(step.handler),
            badge,
            note,
            row.core,
            row.moment.get(),
        )
    }
}

/// Returns the effect of a row, if the threads are as far as given.
pub(crate) fn moves(parts: &SystemParts, all: &[Gone], row: &Row) -> Move
    ensures { result ≡ moves parts.now all.now row.now }
{
    match row.what {
        What::Interrupt { source, badge, .. } => Move::Start(source, badge),
        What::Signal {
            thread,
            note,
            badge,
        } => gives(parts, row, thread, note, badge, step_at(parts, all, thread)),
        What::Arrive { note, maker, .. } => {
            let delay = delay_between(parts, maker, row.core);
            Move::Land(note, maker, row.moment.get().saturating_sub(delay))
        }
        What::Hold { note, .. } => Move::Hold(note),
        What::Wake { thread, .. } => Move::Wake(thread, how_taken(parts, all, thread)),
        What::Got { thread, note, .. } => Move::Got(thread, note, how_taken(parts, all, thread)),
        What::Round { thread, .. } => Move::End(thread, gone_of(all, thread).word),
        _ => Move::Nothing,
    }
}

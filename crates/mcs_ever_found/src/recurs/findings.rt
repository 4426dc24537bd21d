ghost use Rattle.std.specs.Prelude.{◌≡◌, ◌+◌, ◌^◌, ◌<◌, ◌≤◌, ◌⊎◌, false, get_or, length, IsTrue, ◌↔◌};
ghost use Rattle.mcs_verdict.specs.Later.{IsLaterThread};
ghost use Rattle.mcs_ever.specs.Closed.{has};
ghost use Rattle.mcs_ever.specs.Recurs.{Shifts, Recurs};
ghost use Rattle.mcs_ever_found.specs.Recurs.{FindingsRecur};
ghost use Rattle.mcs_ever_found.specs.Period.{AreKept};
ghost use Rattle.mcs_ever_found.specs.Tests.{ThreadRecurs, WordRecurs, ThreadsRecur, WordsRecur, AllRecur};

use crate::recurs::Doings;
use crate::recurs::group::{has_note, has_thread};
use mcs_ever::CoreSet;
use mcs_system::System;
use mcs_ticks::{NoteId, ThreadId, Tick};
use mcs_verdict::Watch;

/// Whether the thread's account is later, or no round of it ended.
fn is_later(by: u64, before: &Watch, after: &Watch, doings: &Doings, thread: ThreadId) -> bool
    ensures { IsTrue result ↔ (IsLaterThread by before.now after.now thread ⊎ (get_or doings.now.ended thread false ≡ false)) }
{
    after.thread_is_later(before, thread, by) || !doings.ends_round(thread)
}

/// Whether the thread has started, and its account is later, or no round of it ended.
fn thread_recurs(
    system: &System,
    from: Tick,
    by: u64,
    before: &Watch,
    after: &Watch,
    doings: &Doings,
    thread: ThreadId,
) -> bool
    requires { thread < length system.now.threads }
    ensures { IsTrue result ↔ ThreadRecurs by from before.now after.now doings.now system.now thread }
{
    system.parts().thread(thread).start.get() <= from.get()
        && is_later(by, before, after, doings, thread)
}

/// Whether the word is the same, and was set later, is not taken, or is a server's.
fn word_recurs(
    system: &System,
    from: Tick,
    by: u64,
    before: &Watch,
    after: &Watch,
    doings: &Doings,
    note: NoteId,
) -> bool
    requires { note < length system.now.notes }
    ensures { IsTrue result ↔ WordRecurs by from before.now after.now doings.now system.now note }
{
    after.word_is_same(before, note)
        && (after.word_is_later(before, note, by)
            || !doings.takes_word(note)
            || system.parts().is_server(note))
}

/// Whether this holds for each thread on a core of the group.
fn threads_recur(
    system: &System,
    group: &CoreSet,
    from: Tick,
    by: u64,
    before: &Watch,
    after: &Watch,
    doings: &Doings,
) -> bool
    ensures { IsTrue result ↔
        ThreadsRecur system.now (has group.now) by from before.now after.now doings.now (length system.now.threads) }
{
    for thread in 0..system.parts().threads.len() {
        if !has_thread(system, group, ThreadId(thread)) {
            continue;
        }
        if !thread_recurs(system, from, by, before, after, doings, ThreadId(thread)) {
            return false;
        }
    }
    true
}

/// Whether this holds for each notification on a core of the group.
fn words_recur(
    system: &System,
    group: &CoreSet,
    from: Tick,
    by: u64,
    before: &Watch,
    after: &Watch,
    doings: &Doings,
) -> bool
    ensures { IsTrue result ↔
        WordsRecur system.now (has group.now) by from before.now after.now doings.now (length system.now.notes) }
{
    for note in 0..system.parts().notes.len() {
        if !has_note(system, group, NoteId(note)) {
            continue;
        }
        if !word_recurs(system, from, by, before, after, doings, NoteId(note)) {
            return false;
        }
    }
    true
}

/// Moments that are early enough for what goes on for ever: 2^42 is later than each of them by more
/// than any deadline.
const NEAR: u64 = 1 << 41;

/// Whether the second moment is early enough.
fn is_near(from: Tick, by: u64) -> bool
    ensures { IsTrue result ↔ (from + by ≤ 2 ^ 41) }
{
    from.get() <= NEAR && by <= NEAR - from.get()
}

/// Whether the findings in a group's rows recur, if the group does, `by` ticks later.
///
/// The watches are those before the first moment, `from`, and before the second one; the doings are
/// those of the rows between. The test passes if each thread of the group has started, and has a
/// later account or ended no round. Each word of the group must also be the same, and have been set
/// later, not be taken, or be a server's. Each deadline miss and each lost signal then recurs, and
/// no others are found; and what becomes of each thread and each word is known.
pub fn findings_recur(
    system: &System,
    group: &CoreSet,
    from: Tick,
    by: u64,
    before: &Watch,
    after: &Watch,
    doings: &Doings,
) -> bool
    ensures tells { IsTrue result ↔ AllRecur system.now (has group.now) by from before.now after.now doings.now }
    ensures recurs { IsTrue result → (shifts : Shifts) → shifts.by ≡ by → Recurs system.now (has group.now) shifts from →
        AreKept system.now by from before.now after.now doings.now → FindingsRecur system.now (has group.now) shifts from }
{
    let _parts = system.parts();
    if !is_near(from, by) || !threads_recur(system, group, from, by, before, after, doings) {
        return false;
    }
    words_recur(system, group, from, by, before, after, doings)
}

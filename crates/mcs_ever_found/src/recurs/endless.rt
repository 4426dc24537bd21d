ghost use Rattle.std.specs.Prelude.{◌≡◌, ◌+◌, ◌^◌, ◌<◌, ◌≤◌, ℕ, length};
ghost use Rattle.mcs_verdict.specs.Watch.{Watch as TheWatch};
ghost use Rattle.mcs_ever_found.specs.Period.{AreKept, far, endless_round, abandoned_word};
ghost use Rattle.mcs_ever_found.specs.stored.Endless.{only_overdue};

use crate::recurs::Doings;
use mcs_system::System;
use mcs_ticks::{Limits, NoteId, ThreadId, Tick};
use mcs_verdict::{Finding, Watch};

/// A horizon so late that what goes on for ever after a period is found there.
fn far() -> Tick
    ensures { result ≡ far }
{
    Tick::at(Limits::TICK)
}

/// The finding, if it is an overdue round.
fn only_overdue(found: Option<Finding>) -> Option<Finding>
    ensures { result ≡ only_overdue found }
{
    match found {
        Some(Finding::Overdue { .. }) => found,
        _ => None,
    }
}

/// Returns the round of the thread that never ends, as it is overdue at the horizon 2^42, for a
/// thread of a group that recurs in its findings; `None` if there is none.
///
/// The watch is that at the end of the first period, and the doings are those of its rows. No round
/// of the thread ended in the period, and one is under way at its end. Constant time.
pub fn endless_round(
    system: &System,
    after: &Watch,
    doings: &Doings,
    thread: ThreadId,
) -> Option<Finding>
    requires { thread < length system.now.threads }
    ensures { (by from : ℕ) (before : TheWatch) → from + by ≤ 2 ^ 41 → AreKept system.now by from before after.now doings.now →
        result ≡ endless_round system.now by from thread }
{
    let _parts = system.parts();
    if doings.ends_round(thread) {
        return None;
    }
    only_overdue(after.unended(far(), thread))
}

/// Returns the word of the notification that nobody ever takes, as it is untaken at the horizon
/// 2^42, for a notification of a group that recurs in its findings; `None` if there is none.
///
/// The watch is that at the end of the first period, and the doings are those of its rows. Nobody
/// took the word in the period, it is set at its end, and whoever might take it has a deadline.
/// Takes time for each thread.
pub fn abandoned_word(
    system: &System,
    after: &Watch,
    doings: &Doings,
    note: NoteId,
) -> Option<Finding>
    requires { note < length system.now.notes }
    ensures { (by from : ℕ) (before : TheWatch) → AreKept system.now by from before after.now doings.now →
        result ≡ abandoned_word system.now by from note }
{
    let _parts = system.parts();
    if doings.takes_word(note) {
        return None;
    }
    after.untaken(far(), note)
}

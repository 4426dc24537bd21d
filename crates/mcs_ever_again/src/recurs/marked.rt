ghost use Rattle.std.specs.Prelude.{◌≡◌, ◌<◌, ℕ, true, length, get_or, IsTrue};
ghost use Rattle.mcs_ever.specs.Closed.{has};
ghost use Rattle.mcs_ever.specs.Marks.{MarkedKeepUp};
ghost use Rattle.mcs_ever_again.specs.Lags.{shift_by};
ghost use Rattle.mcs_ever_again.specs.Told.{lags_or_none, shift_told, ThreadKeepsUp, OwnKeepsUp};

use crate::image::Lags;
use crate::recurs::group::is_own;
use mcs_ever::{CoreSet, Mark, Marks};
use mcs_system::System;
use mcs_ticks::{CoreId, ThreadId};

/// The lag at a place; `by` past the end.
fn lag_at(lags: &[u64], place: usize, by: u64) -> u64
    ensures { result ≡ get_or lags.now place by }
{
    if place < lags.len() { lags[place] } else { by }
}

/// Whether the lag is the whole period, if it must be.
fn is_level(marked: bool, lag: u64, by: u64) -> bool
    ensures { IsTrue result → marked ≡ true → lag ≡ by }
{
    !marked || lag == by
}

/// Whether the marked dates of the thread are later by the whole period, by the lags of its core.
fn keeps_up(system: &System, by: u64, lags: &Lags, thread: ThreadId, mark: Mark) -> bool
    requires { thread < length system.now.threads }
    ensures { IsTrue result → ThreadKeepsUp system.now (shift_by by lags.now) mark thread }
{
    let context = system.parts().thread(thread).context;
    let lag = lag_at(lags.contexts.as_slice(), context.0, by);
    let began = lag_at(lags.threads.as_slice(), thread.0, by);
    is_level(mark.context, lag, by) && is_level(mark.round, began, by)
}

/// Whether the marked dates of the thread keep up, if its core has lags; without lags they do.
fn keeps_up_if_told(
    system: &System,
    by: u64,
    lags: &Option<Lags>,
    thread: ThreadId,
    mark: Mark,
) -> bool
    requires { thread < length system.now.threads }
    ensures { IsTrue result → ThreadKeepsUp system.now (shift_by by (lags_or_none lags.now)) mark thread }
{
    match lags {
        Some(lags) => keeps_up(system, by, lags, thread, mark),
        None => true,
    }
}

/// Whether the marked dates of a thread of this core keep up.
fn keeps_up_on(
    system: &System,
    by: u64,
    lags: &[Option<Lags>],
    core: CoreId,
    thread: ThreadId,
    mark: Mark,
) -> bool
    requires { thread < length system.now.threads }
    ensures { IsTrue result → ThreadKeepsUp system.now (shift_told by lags.now core) mark thread }
{
    if core.0 >= lags.len() {
        return true;
    }
    keeps_up_if_told(system, by, &lags[core.0], thread, mark)
}

/// Whether the marked dates of the thread keep up, if its core is in the group.
fn own_keeps_up(
    system: &System,
    group: &CoreSet,
    by: u64,
    lags: &[Option<Lags>],
    thread: ThreadId,
    mark: Mark,
) -> bool
    requires { thread < length system.now.threads }
    ensures { IsTrue result → OwnKeepsUp system.now by group.now lags.now mark thread }
{
    let parts = system.parts();
    let core = parts.core_of_thread(parts.thread(thread));
    if !is_own(group, core) {
        return true;
    }
    keeps_up_on(system, by, lags, core, thread, mark)
}

/// Whether the marked dates of all threads of the group keep up.
pub(crate) fn marked_keep_up(
    system: &System,
    group: &CoreSet,
    by: u64,
    lags: &[Option<Lags>],
    marks: &Marks,
) -> bool
    ensures { IsTrue result → (core : ℕ) → has group.now core ≡ true →
        MarkedKeepUp system.now core (shift_told by lags.now core) marks.now }
{
    for thread in 0..system.parts().threads.len() {
        let mark = marks.of(ThreadId(thread));
        if !own_keeps_up(system, group, by, lags, ThreadId(thread), mark) {
            return false;
        }
    }
    true
}

ghost use Rattle.std.specs.Prelude.{◌≡◌, ◌↔◌, ℕ, IfOk, IsTrue};
ghost use Rattle.mcs_ever_again.specs.Lag.{TellsThreadLag, TellsThreadLags};

use mcs_core::{Chosen, Thread};
use mcs_ticks::NoMemory;
use std::alloc::Global;

/// How many ticks later a thread's round began, and how many more rounds the thread has ended.
#[derive(Clone, Copy, Debug)]
pub(crate) struct ThreadLag {
    since: u64,
    rounds: u64,
}

/// These numbers of all threads.
#[derive(Debug, Drop)]
pub(crate) struct ThreadLags {
    pub(crate) since: Vec<u64>,
    pub(crate) rounds: Vec<u64>,
}

/// Whether the same thread runs, with as many ticks in use, or none in both.
pub(crate) fn runs_alike(before: Option<Chosen>, after: Option<Chosen>) -> bool
    ensures { IsTrue result ↔ (after ≡ before) }
{
    after == before
}

/// Whether the thread has the same standing, item, ticks left of it, word of the round and
/// priority.
pub(crate) fn stands_alike(before: &Thread, after: &Thread) -> bool
    ensures { IsTrue result
        ↔ ((after.now.standing ≡ before.now.standing)
        × (after.now.place.item ≡ before.now.place.item)
        × (after.now.place.left ≡ before.now.place.left)
        × (after.now.place.word ≡ before.now.place.word)
        × (after.now.place.priority ≡ before.now.place.priority)) }
{
    after.standing == before.standing
        && after.place.item == before.place.item
        && after.place.left == before.place.left
        && after.place.word == before.place.word
        && after.place.priority == before.place.priority
}

/// Returns how much later the thread's round began, and how many more rounds it has ended. `None`
/// if anything else differs.
fn thread_lag(before: &Thread, after: &Thread) -> Option<ThreadLag>
    ensures { TellsThreadLag result before.now after.now }
{
    if !stands_alike(before, after)
        || after.place.round < before.place.round
        || after.since.get() < before.since.get()
    {
        return None;
    }
    Some(ThreadLag {
        since: after.since.get() - before.since.get(),
        rounds: after.place.round - before.place.round,
    })
}

/// Returns the lags of all threads. `None` if anything else differs in one of them. Fails only if
/// memory runs out.
pub(crate) fn thread_lags(
    alloc: Global,
    before: &[Thread],
    after: &[Thread],
) -> Result<Option<ThreadLags>, NoMemory>
    ensures { (past : ℕ) → IfOk result (λ found. TellsThreadLags found past before.now after.now) }
{
    if before.len() != after.len() {
        return Ok(None);
    }
    let mut since = Vec::with_capacity(alloc, before.len())?;
    let mut rounds = Vec::with_capacity(alloc, before.len())?;
    for i in 0..before.len() {
        let Some(lag) = thread_lag(&before[i], &after[i]) else {
            return Ok(None);
        };
        since.push(lag.since)?;
        rounds.push(lag.rounds)?;
    }
    Ok(Some(ThreadLags { since, rounds }))
}

ghost use Rattle.std.specs.Prelude.{◌≡◌, ℕ, ◌<◌, ◌++◌, false, [], length, slice_index_or, IfOk, Some};
ghost use Rattle.mcs_ticks.specs.Queue.{by_priority};
ghost use Rattle.mcs_ready.specs.Ready.{queued, is_held, thread_of, priority_of, AreDistinct, AreBelow};
ghost use Rattle.mcs_ready.specs.stored.Lines.{no_thread, threads_of, all_threads, queued_at, queue_from, IsLine};

use crate::priorities::Priorities;
use mcs_ticks::{NoMemory, Queued, ThreadId};
use std::alloc::Global;
use std::marker::Model;

/// The number of no thread: the last of an empty line, and the next of a thread that is not held.
const NONE: ThreadId = ThreadId(usize::MAX);

/// The ready threads of one core, each with its priority. Contracts see the queue by priority,
/// highest first and first in first out within a priority, and `room`, the number of threads that
/// fit.
#[derive(Debug, Drop)]
pub struct Ready {
    /// the priorities that have a thread
    priorities: Priorities,
    /// for each priority the last thread of its line
    lasts: Vec<ThreadId>,
    /// for each thread the next one in its line; the next of the last is the first
    next: Vec<ThreadId>,
}

impl Model for Ready {
    ghost use Rattle.std.specs.Prelude.{length};
    ghost use Rattle.mcs_ready.specs.Ready.{ReadyQueue};

    ghost Value = { ReadyQueue };

    ghost use Rattle.mcs_ready.specs.stored.Lines.{queue_from, all_threads, IsKept};

    ghost view = { λ a.
        record { queue = queue_from 0 (all_threads a.next.items a.lasts.items); room = length a.next.items } };

    ghost invariant = { λ a. IsKept a.priorities a.lasts.items a.next.items };
}

impl Ready {
    /// Returns an empty queue with room for the threads numbered below `threads`. Fails with
    /// `NoMemory` if the allocation fails. Only `list` allocates later.
    pub fn new(alloc: Global, threads: usize) -> Result<Self, NoMemory>
        ensures { IfOk result (λ ready. ready ≡ record { queue = []; room = threads }) }
    {
        Ok(Ready {
            priorities: Priorities::new(),
            lasts: vec![in alloc; NONE; 256]?,
            next: vec![in alloc; NONE; threads]?,
        })
    }

    /// Enters `x` after the threads of its priority. The caller ensures that `x` is below `room`
    /// and is not held.
    #[inline(always)]
    pub fn push_back(&mut self, x: ThreadId, priority: u8)
        requires below { x < self.old.room }
        requires free { is_held x self.old.queue ≡ false }
        ensures { self.new ≡ record self.old { queue = by_priority.back (queued x priority) self.old.queue } }
    {
        let ahead = self.lasts[priority as usize];
        self.lasts[priority as usize] = x;
        if ahead == NONE {
            self.next[x.0] = x;
            self.priorities.insert(priority);
        } else {
            self.next[x.0] = self.next[ahead.0];
            self.next[ahead.0] = x;
        }
    }

    /// Enters `x` before the threads of its priority. The caller ensures that `x` is below `room`
    /// and is not held.
    #[inline(always)]
    pub fn push_front(&mut self, x: ThreadId, priority: u8)
        requires below { x < self.old.room }
        requires free { is_held x self.old.queue ≡ false }
        ensures { self.new ≡ record self.old { queue = by_priority.front (queued x priority) self.old.queue } }
    {
        let last = self.lasts[priority as usize];
        if last == NONE {
            self.lasts[priority as usize] = x;
            self.next[x.0] = x;
            self.priorities.insert(priority);
        } else {
            self.next[x.0] = self.next[last.0];
            self.next[last.0] = x;
        }
    }

    /// Returns the maximum priority of the held threads, or `None` if the queue is empty.
    #[inline(always)]
    pub fn best(&self) -> Option<u8>
        ensures { result ≡ priority_of (by_priority.best self.now.queue) }
    {
        self.priorities.greatest()
    }

    /// Removes and returns the first thread of the maximum priority, or returns `None` if the queue
    /// is empty.
    #[inline(always)]
    pub fn pop_best(&mut self) -> Option<ThreadId>
        ensures first { result ≡ thread_of (by_priority.best self.old.queue) }
        ensures rest { self.new ≡ record self.old { queue = by_priority.rest self.old.queue } }
    {
        let priority = self.priorities.greatest()?;
        let last = self.lasts[priority as usize];
        let x = self.next[last.0];
        if x == last {
            self.lasts[priority as usize] = NONE;
            self.next[x.0] = NONE;
            self.priorities.remove(priority);
        } else {
            self.next[last.0] = self.next[x.0];
            self.next[x.0] = NONE;
        }
        Some(x)
    }

    /// Whether `x` is held. A number from `room` on never is.
    pub fn holds(&self, x: ThreadId) -> bool
        ensures { result ≡ is_held x self.now.queue }
    {
        x.0 < self.next.len() && self.next[x.0] != NONE
    }

    /// Returns the held threads with their priorities, highest first and first in first out within
    /// a priority. Fails with `NoMemory` if the list cannot be allocated.
    pub fn list(&self, alloc: Global) -> Result<Vec<Queued>, NoMemory>
        ensures { IfOk result (λ list. list.items ≡ self.now.queue) }
    {
        threads_by_priority(alloc, &self.next, &self.lasts)
    }
}

/// Returns the threads of all lines, highest priority first.
fn threads_by_priority(
    alloc: Global,
    next: &[ThreadId],
    lasts: &[ThreadId],
) -> Result<Vec<Queued>, NoMemory>
    requires count { length lasts.now ≡ 256 }
    requires lines { (p : ℕ) → IsLine next.now (slice_index_or lasts.now p no_thread) }
    ensures { IfOk result (λ list. list.items ≡ queue_from 0 (all_threads next.now lasts.now)) }
{
    let mut list = Vec::new(alloc);
    for priority in (0..256usize).rev() {
        push_line(&mut list, next, lasts[priority], priority as u8)?;
    }
    Ok(list)
}

/// Appends the threads of a line with their priority, in order.
fn push_line(
    list: &mut Vec<Queued>,
    next: &[ThreadId],
    last: ThreadId,
    priority: u8,
) -> Result<(), NoMemory>
    requires { IsLine next.now last }
    ensures { IfOk result (λ _. list.new.items ≡ list.old.items ++ queued_at priority (threads_of next.now last)) }
{
    if last == NONE {
        return Ok(());
    }
    let mut thread = next[last.0];
    for _ in 0..next.len() {
        list.push(Queued { thread, priority })?;
        if thread == last {
            return Ok(());
        }
        thread = next[thread.0];
    }
    Ok(())
}

/// Law of every ready queue: no thread is held twice, and each number is below `room`.
pub fn held_once(ready: &Ready)
    ensures distinct { AreDistinct ready.now.queue }
    ensures below { AreBelow ready.now.room ready.now.queue }
{
    let _ = &ready.next;
}

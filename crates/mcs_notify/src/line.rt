ghost use Rattle.std.specs.Prelude.{◌≡◌, ℕ, ◌+◌, ◌<◌, ◌==◌, ◌^◌, length, IfOk};
ghost use Rattle.mcs_notify.specs.stored.Lines.{IsBest, BestLeaves, nth, place_of, waiters_of, with_back, before_back, joined, without_waiter, unlinked};

use mcs_ticks::{NoMemory, Queued, ThreadId};
use std::alloc::Global;

/// The place of a waiting thread: its priority, and the next thread of its line. The place has no
/// meaning for a thread that does not wait, and `behind` has none for the last of a line.
#[derive(Clone, Copy, Debug)]
pub(crate) struct Place {
    behind: ThreadId,
    priority: u8,
}

/// The waiters of one notification, in order of beginning to wait: the first, the last, and their
/// number. If the number is 0, the first and the last have no meaning.
#[derive(Clone, Copy, Debug)]
pub(crate) struct Line {
    first: ThreadId,
    last: ThreadId,
    len: usize,
}

/// A waiter, and the one before it; the first waiter names itself.
#[derive(Clone, Copy, Debug)]
struct Waiter {
    before: ThreadId,
    thread: ThreadId,
}

impl Place {
    /// The place of a thread that does not wait.
    pub(crate) const NONE: Place = Place {
        behind: ThreadId(0),
        priority: 0,
    };
}

impl Line {
    /// A line with no waiters.
    pub(crate) const EMPTY: Line = Line {
        first: ThreadId(0),
        last: ThreadId(0),
        len: 0,
    };

    /// Whether no thread waits.
    pub(crate) fn is_empty(&self) -> bool
        ensures { result ≡ (self.now.len == 0) }
    {
        self.len == 0
    }

    /// Returns the waiters, in order of beginning to wait.
    pub(crate) fn waiters(&self, alloc: Global, places: &[Place]) -> Result<Vec<Queued>, NoMemory>
        requires { (k : ℕ) → k < self.now.len → nth places.now self.now.first k < length places.now }
        ensures { IfOk result (λ list. list.items ≡ waiters_of places.now self.now) }
    {
        let mut list = Vec::new(alloc);
        let mut thread = self.first;
        for _ in 0..self.len {
            let place = places[thread.0];
            list.push(Queued {
                thread,
                priority: place.priority,
            })?;
            thread = place.behind;
        }
        Ok(list)
    }

    /// Appends a thread to the waiters.
    pub(crate) fn push_back(&mut self, places: &mut [Place], thread: ThreadId, priority: u8)
        requires room { self.old.len + 1 < 2 ^ 64 }
        requires thread { thread < length places.old }
        requires before { before_back thread self.old < length places.old }
        ensures line { self.new ≡ with_back thread self.old }
        ensures places { places.new ≡ joined thread priority self.old places.old }
    {
        let before = if self.len == 0 { thread } else { self.last };
        places[thread.0] = Place {
            behind: thread,
            priority,
        };
        places[before.0].behind = thread;
        if self.len == 0 {
            self.first = thread;
        }
        self.last = thread;
        self.len += 1;
    }

    /// Takes out the waiter of maximum priority, in one pass over the line; at equal priority, the
    /// longest waiting.
    pub(crate) fn pop_best(&mut self, places: &mut [Place]) -> ThreadId
        requires some { 0 < self.old.len }
        requires within { (k : ℕ) → k < self.old.len → nth places.old self.old.first k < length places.old }
        ensures { BestLeaves places.old self.old result places.new self.new }
    {
        let best = self.best(places);
        self.remove(places, &best);
        best.thread
    }

    /// Returns the waiter of maximum priority; at equal priority, the longest waiting.
    fn best(&self, places: &[Place]) -> Waiter
        requires some { 0 < self.now.len }
        requires within { (k : ℕ) → k < self.now.len → nth places.now self.now.first k < length places.now }
        ensures { IsBest places.now self.now.first self.now.len result }
    {
        let mut best = self.first;
        let mut before = self.first;
        let mut last = self.first;
        let mut next = places[last.0].behind;
        for _ in 1..self.len {
            if places[next.0].priority > places[best.0].priority {
                best = next;
                before = last;
            }
            last = next;
            next = places[next.0].behind;
        }
        Waiter {
            before,
            thread: best,
        }
    }

    fn remove(&mut self, places: &mut [Place], one: &Waiter)
        requires some { 0 < self.old.len }
        requires thread { one.now.thread < length places.old }
        requires before { one.now.before < length places.old }
        ensures line { self.new ≡ without_waiter one.now (place_of places.old one.now.thread).behind self.old }
        ensures places { places.new ≡ unlinked one.now places.old }
    {
        let behind = places[one.thread.0].behind;
        places[one.before.0].behind = behind;
        if one.thread == self.first {
            self.first = behind;
        }
        if one.thread == self.last {
            self.last = one.before;
        }
        self.len -= 1;
    }
}

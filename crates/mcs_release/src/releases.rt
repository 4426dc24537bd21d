ghost use Rattle.std.specs.Prelude.{◌≡◌, ℕ, ◌+◌, ◌<◌, ◌≤◌, ◌++◌, ◌∷◌, false, [], None, Some, length, slice_index_or, IfOk, IsSome};
ghost use Rattle.mcs_release.specs.stored.Places.{entered, waiting, AreEmptyFrom, AreEnoughFor, AsManyFit, IsAlone};
ghost use Rattle.mcs_release.specs.Release.{dated, earliest, is_held, next_date, first_due, without_first_due, thread_of, when_left, AreDistinct, AreBelow};

use crate::Dated;
use crate::places::Places;
use crate::spare::make_room;
use mcs_ticks::{NoMemory, Soonest, ThreadId, Tick};
use std::alloc::Global;
use std::marker::Model;

/// Maximum number of threads of a queue.
const MOST: usize = 1 << 20;

/// Places beyond five for each four threads.
const MORE: usize = 34;

/// Largest number of threads for which a queue has no spare places. These threads take at most half
/// of the 64 places of a larger queue, so they would never move into spare ones.
const FEW: usize = 32;

/// Places that a queue of more threads wants at first. It gets 64, the largest number that are all
/// only three nodes below the root of their tree.
const FIRST: usize = 62;

/// The threads of one core that wait for a date, each with its date. Contracts see them in the
/// order in which they entered, and `room`, the number of threads that fit.
#[derive(Debug, Drop)]
pub struct Releases {
    /// the earliest date of all
    soonest: Soonest,
    /// the only thread, if it entered an empty queue; it gets a place when a second one enters
    lone: Option<Dated>,
    /// otherwise all threads, in the order in which they entered; the place of a thread that left
    /// is empty
    places: Places,
    /// the place of the next thread that enters, after all held threads
    end: usize,
    room: usize,
    /// empty places for all threads, if `places` are few
    spare: Option<Places>,
}

impl Model for Releases {
    ghost use Rattle.mcs_release.specs.Release.{ReleaseQueue};

    ghost Value = { ReleaseQueue };

    ghost use Rattle.mcs_release.specs.stored.Places.{waiting, IsKept};

    ghost view = { λ a. record { queue = waiting a.lone a.places; room = a.room } };

    ghost invariant = { λ a. IsKept a.soonest a.lone a.places a.spare a.end a.room };
}

impl Releases {
    /// Returns an empty queue with room for the threads numbered below `threads`. Fails with
    /// `NoMemory` if the allocation fails or if `threads` exceeds 2^20. Only `list` allocates
    /// later.
    pub fn new(alloc: Global, threads: usize) -> Result<Self, NoMemory>
        ensures { IfOk result (λ releases. releases ≡ record { queue = []; room = threads }) }
    {
        if threads > MOST {
            return Err(NoMemory);
        }
        let all = Places::new(alloc, threads + threads / 4 + MORE)?;
        let (places, spare) = if threads > FEW {
            (Places::new(alloc, FIRST)?, Some(all))
        } else {
            (all, None)
        };
        Ok(Releases {
            soonest: Soonest::never(),
            lone: None,
            places,
            end: 0,
            room: threads,
            spare,
        })
    }

    /// Returns the earliest date of the held threads, or `None` if the queue is empty.
    #[inline(always)]
    pub fn next(&self) -> Option<Tick>
        ensures { result ≡ next_date self.now.queue }
    {
        self.soonest.moment()
    }

    /// Returns the earliest date of the held threads, or never if the queue is empty.
    #[inline(always)]
    pub fn soonest(&self) -> Soonest
        ensures { result ≡ next_date self.now.queue }
    {
        self.soonest
    }

    /// Returns the waiting threads with their dates, in the order in which they entered. Fails with
    /// `NoMemory` if the list cannot be allocated.
    pub fn list(&self, alloc: Global) -> Result<Vec<Dated>, NoMemory>
        ensures { IfOk result (λ list. list.items ≡ self.now.queue) }
    {
        if let Some(only) = self.lone {
            let mut list = Vec::new(alloc);
            list.push(only)?;
            return Ok(list);
        }
        self.places.list(alloc)
    }

    /// Takes the thread with the earliest date, if that is at most `t`; at equal dates, the one
    /// that entered first.
    #[inline(always)]
    pub fn pop_due(&mut self, t: Tick) -> Option<ThreadId>
        ensures first { result ≡ thread_of (first_due t self.old.queue) }
        ensures rest { self.new ≡ record self.old { queue = without_first_due t self.old.queue } }
    {
        if !self.soonest().has_come(t) {
            return None;
        }
        Some(self.take_first())
    }

    /// Takes the thread with the earliest date; at equal dates, the one that entered first. The
    /// caller ensures that there is one.
    #[inline(always)]
    fn take_first(&mut self) -> ThreadId
        requires { IsSome (earliest self.old.queue) }
        ensures first { Some result ≡ thread_of (earliest self.old.queue) }
        ensures rest { self.new ≡ record self.old { queue = when_left (earliest self.old.queue) self.old.queue } }
    {
        if let Some(only) = self.lone {
            self.lone = None;
            self.soonest = Soonest::never();
            return only.thread;
        }
        let thread = self.places.take_first();
        self.soonest = Soonest::of(self.places.first_date());
        thread
    }

    /// Enters `x` with the date `at`. The caller ensures that `x` is below `room` and is not held.
    #[inline(always)]
    pub fn enter(&mut self, x: ThreadId, at: Tick)
        requires below { x < self.old.room }
        requires free { is_held x self.old.queue ≡ false }
        ensures { self.new ≡ record self.old { queue = self.old.queue ++ dated x at ∷ [] } }
    {
        let entry = Dated {
            thread: x,
            date: at,
        };
        if self.soonest.is_never() {
            self.soonest = Soonest::at(at);
            self.lone = Some(entry);
            return;
        }
        self.enter_beside(entry);
    }

    /// Enters a thread into a place.
    #[inline(always)]
    fn enter_beside(&mut self, entry: Dated)
        requires below { entry.thread < self.old.room }
        requires free { is_held entry.thread self.old.queue ≡ false }
        ensures { self.new ≡ record self.old { queue = self.old.queue ++ entry ∷ [] } }
    {
        let at = Soonest::at(entry.date);
        let place = place_behind(&mut self.places, &mut self.spare, &mut self.lone, self.end);
        self.places.put(place, entry);
        self.end = place + 1;
        self.soonest = self.soonest.or(at);
    }
}

/// Returns an empty place after all taken ones. A lone thread first moves to place 0. If the last
/// place is taken, all threads move to the front; since the last such move, the threads of at least
/// a fifth of the places have left.
#[inline(always)]
fn place_behind(
    places: &mut Places,
    spare: &mut Option<Places>,
    lone: &mut Option<Dated>,
    end: usize,
) -> usize
    requires alone { IsAlone lone.old places.old }
    requires behind { AreEmptyFrom end places.old }
    requires enough { AreEnoughFor (length (waiting lone.old places.old)) places.old spare.old }
    ensures none { lone.new ≡ None }
    ensures entered { entered places.new ≡ waiting lone.old places.old }
    ensures within { result < length places.new }
    ensures behind { AreEmptyFrom result places.new }
    ensures enough { AsManyFit places.old spare.old places.new spare.new }
{
    if let Some(only) = *lone {
        *lone = None;
        places.put(0, only);
        return 1;
    }
    if end < places.len() {
        return end;
    }
    make_room(places, spare)
}

/// Law of every release queue: no thread is held twice, and each number is below `room`.
pub fn held_once(releases: &Releases)
    ensures distinct { AreDistinct releases.now.queue }
    ensures below { AreBelow releases.now.room releases.now.queue }
{
    let _ = &releases.room;
}

//! The sets that may recur at the present moment.
ghost use Rattle.std.specs.Prelude.{◌≡◌};

use crate::outlook::sets::Group;
use crate::outlook::told::Told;
use mcs_ever::CoreSet;
use mcs_ever_again::is_own;
use mcs_ever_search::{Search, beat_of};
use mcs_system::System;
use mcs_ticks::{CoreId, NoMemory, ThreadId};
use std::alloc::Global;

/// A thread and its core.
#[derive(Clone, Copy)]
struct Placed {
    thread: ThreadId,
    core: CoreId,
}

/// A set without a result.
#[derive(Drop)]
struct Left {
    /// Its place among the sets.
    place: usize,
    /// The time after which the dates of its sources come again, at least 1.
    beat: u64,
    /// The threads of its cores.
    threads: Vec<Placed>,
    /// The place in `threads` of one that stood otherwise than before the kept moment when the set
    /// was last looked at.
    differs: usize,
}

impl Left {
    fn new(alloc: Global, system: &System, place: usize, set: &CoreSet) -> Result<Self, NoMemory> {
        let parts = system.parts();
        let mut threads = Vec::new(alloc);
        for i in 0..parts.threads.len() {
            let core = parts.core_of_thread(parts.thread(ThreadId(i)));
            if is_own(set, core) {
                threads.push(Placed {
                    thread: ThreadId(i),
                    core,
                })?;
            }
        }
        Ok(Left {
            place,
            beat: beat_of(system, set),
            threads,
            differs: 0,
        })
    }

    /// How much of the time since the kept moment is beyond the last date of that kind.
    fn over(&self, since: u64) -> u64 {
        if self.beat <= 1 { 0 } else { since % self.beat }
    }

    /// Whether the thread at this place stands as before the kept moment.
    fn stands_again(&self, search: &Search, place: usize) -> bool {
        match self.threads.as_slice().get(place) {
            Some(at) => search.stands_again(at.core, at.thread),
            None => true,
        }
    }

    /// Whether each thread stands as before the kept moment. The one that did not when last looked
    /// at comes first, since it mostly still does not.
    fn may_recur(&mut self, search: &Search) -> bool {
        if !self.stands_again(search, self.differs) {
            return false;
        }
        for place in 0..self.threads.len() {
            if !self.stands_again(search, place) {
                self.differs = place;
                return false;
            }
        }
        true
    }
}

/// Whether the set at this place has a result.
fn is_told(told: &[Option<Told>], place: usize) -> bool {
    place < told.len() && told[place].is_some()
}

/// The sets without a result that may recur at the present moment: the dates of their sources are
/// those before the kept moment, but later, and its threads stand as they did. The others need not
/// be compared. Each answer is sound: a set that is not compared has no result yet.
#[derive(Drop)]
pub(crate) struct Dues {
    /// The sets that had no result when they were last compared.
    left: Vec<Left>,
    /// The kept moment since which `next` is counted.
    kept: u64,
    /// The next moment at which the dates of some set may come again.
    next: u64,
    /// The sets that may recur at the present moment, by their places.
    due: Vec<usize>,
}

impl Dues {
    /// Returns the sets before the first moment, at which none recurs.
    pub(crate) fn new(alloc: Global, system: &System, groups: &[Group]) -> Result<Self, NoMemory> {
        let mut left = Vec::with_capacity(alloc, groups.len())?;
        for place in 0..groups.len() {
            left.push(Left::new(alloc, system, place, &groups[place].set)?)?;
        }
        Ok(Dues {
            left,
            kept: 0,
            next: 0,
            due: Vec::with_capacity(alloc, groups.len())?,
        })
    }

    /// Moves on to the present moment of the search, and prepares it if some set is to be compared.
    /// Returns whether one is. Fails only if memory runs out.
    pub(crate) fn go_on(&mut self, search: &mut Search) -> Result<bool, NoMemory>
        ensures { search.new ≡ search.old }
    {
        self.due.clear();
        let (kept, clock) = (search.kept().get(), search.clock().get());
        if kept == self.kept && clock < self.next {
            return Ok(false);
        }
        self.kept = kept;
        self.next = u64::MAX;
        let since = clock.saturating_sub(kept);
        for set in &mut self.left {
            let over = set.over(since);
            self.next = self
                .next
                .min(clock.saturating_add(set.beat.saturating_sub(over)));
            if over == 0 && set.may_recur(search) {
                self.due.push(set.place)?;
            }
        }
        if self.due.is_empty() {
            return Ok(false);
        }
        search.settle();
        Ok(true)
    }

    /// The places of the sets that may recur at the present moment.
    pub(crate) fn due(&self) -> &[usize] {
        self.due.as_slice()
    }

    /// Leaves out the sets that have a result now.
    pub(crate) fn forget(&mut self, told: &[Option<Told>]) {
        self.left.retain(|set| !is_told(told, set.place));
    }
}

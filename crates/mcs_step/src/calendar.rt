//! When each core is next busy.
ghost use Rattle.std.specs.Prelude.{◌≡◌, ◌<◌, min, length, replicate, slice_index, slice_set};
ghost use Rattle.mcs_step.specs.stored.Places.{IsFirst, IsFirstOf, IsSoonest};

use mcs_ticks::{Limits, Tick};
use std::marker::Model;

/// The turn of a core at a moment.
#[derive(Clone, Copy)]
pub(crate) struct Place {
    pub(crate) moment: Tick,
    pub(crate) core: usize,
}

/// The number of cores of a group.
const GROUP: usize = 8;

/// The number of groups.
const GROUPS: usize = 8;

/// The next busy time of each core. Contracts see the list of 64 times.
#[derive(Drop)]
pub(crate) struct Calendar {
    next: [Tick; Limits::CORES],
    /// The soonest time of each group of cores, so that the first turn takes few looks.
    soonest: [Tick; GROUPS],
}

impl Model for Calendar {
    ghost use Rattle.std.specs.Prelude.{List, ℕ};

    ghost Value = { List ℕ };

    ghost view = { λ a. a.next };

    ghost use Rattle.mcs_step.specs.stored.Places.{AreGrouped};

    ghost invariant = { λ a. AreGrouped a.next a.soonest };
}

impl Calendar {
    /// Returns a calendar with the same time for each core.
    pub(crate) fn new(moment: Tick) -> Calendar
        ensures { result ≡ replicate 64 moment }
    {
        Calendar {
            next: [moment; Limits::CORES],
            soonest: [moment; GROUPS],
        }
    }

    /// Sets the next busy time of a core.
    #[inline(always)]
    pub(crate) fn set(&mut self, core: usize, moment: Tick)
        requires { core < 64 }
        ensures { self.new ≡ slice_set self.old core moment }
    {
        self.next[core] = moment;
        let group = core / GROUP;
        self.soonest[group] = soonest_of(&self.next, group);
    }

    /// Makes a core next busy at a moment, if it is not sooner.
    #[inline(always)]
    pub(crate) fn lower(&mut self, core: usize, moment: Tick)
        requires { core < 64 }
        ensures { self.new ≡ slice_set self.old core (min (slice_index self.old core) moment) }
    {
        if moment.get() >= self.next[core].get() {
            return;
        }
        self.next[core] = moment;
        let group = core / GROUP;
        if moment.get() < self.soonest[group].get() {
            self.soonest[group] = moment;
        }
    }

    /// The first busy turn: the soonest time, and the lowest core of those with that time.
    #[inline(always)]
    pub(crate) fn first(&self) -> Place
        ensures { IsFirst self.now result }
    {
        let mut moment = self.soonest[0];
        let mut group = 0;
        for other in 1..GROUPS {
            let soonest = self.soonest[other];
            if soonest.get() < moment.get() {
                moment = soonest;
                group = other;
            }
        }
        let core = first_of(&self.next, group, moment);
        Place { moment, core }
    }
}

/// The soonest of the times of a group.
#[inline(always)]
fn soonest_of(next: &[Tick], group: usize) -> Tick
    requires long { length next.now ≡ 64 }
    requires known { group < 8 }
    ensures { IsSoonest next.now group result }
{
    let first = GROUP * group;
    let mut soonest = next[first];
    for core in first + 1..first + GROUP {
        let moment = next[core];
        if moment.get() < soonest.get() {
            soonest = moment;
        }
    }
    soonest
}

/// The first core of a group with the soonest time.
#[inline(always)]
fn first_of(next: &[Tick], group: usize, moment: Tick) -> usize
    requires long { length next.now ≡ 64 }
    requires known { group < 8 }
    requires soonest { IsSoonest next.now group moment }
    ensures { IsFirstOf next.now group moment result }
{
    let mut core = GROUP * group;
    'cores: while moment.get() < next[core].get() {
        core += 1;
    }
    core
}

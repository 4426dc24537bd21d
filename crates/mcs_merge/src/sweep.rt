//! The next moments of many cores, if they are close together.
ghost use Rattle.std.specs.Prelude.{◌≡◌, ◌+◌, ◌<◌, ◌≤◌, true, IfSome};
ghost use Rattle.mcs_merge.specs.stored.Sweep.{no_sweep, IsLowest, IsPut, IsTaken};

use mcs_ticks::{Soonest, Tick};
use std::marker::Model;

const MOMENTS: usize = 256;

/// A sweep over a few consecutive moments: for each of them, the cores whose next moment it is.
#[derive(Debug, Drop)]
pub(crate) struct Sweep {
    /// a core is in the set of a moment if its bit is 1
    sets: [u64; MOMENTS],
    /// the moment of the first set
    start: Tick,
    /// the index that the sweep has reached
    at: usize,
    /// the moment before which it ends
    end: Tick,
}

impl Model for Sweep {
    ghost use Rattle.mcs_merge.specs.stored.Sweep.{IsSweep, Sweep};

    ghost Value = { Sweep };

    ghost view = { λ a. record { sets = a.sets; start = a.start; at = a.at; end = a.end } };

    ghost invariant = { λ a. IsSweep a.start a.at a.end };
}

impl Sweep {
    /// Returns a sweep from `start` on and before `until`, without cores. It covers at most 256
    /// moments.
    pub(crate) fn new(start: Tick, until: Tick) -> Self
        ensures { result ≡ no_sweep start until }
    {
        let end = until.get().min(start.get() + MOMENTS as u64);
        Sweep {
            sets: [0; MOMENTS],
            start,
            at: 0,
            end: Tick::at(end),
        }
    }

    /// Adds a core at its next moment, if that is before the end. Returns false if the sweep has
    /// already passed that moment.
    #[inline(always)]
    pub(crate) fn put(&mut self, core: usize, next: Soonest) -> bool
        requires { core < 64 }
        ensures put { IsPut self.old core next self.new }
        ensures later { result ≡ true → IfSome next (λ t. t < self.old.end → self.old.start + self.old.at ≤ t) }
    {
        let Some(moment) = next.before(self.end) else {
            return true;
        };
        if moment.get() < self.start.get() + self.at as u64 {
            return false;
        }
        let place = (moment.get() - self.start.get()) as usize;
        self.sets[place] |= 1 << core;
        true
    }

    /// Takes out the core that comes first, if there is one.
    #[inline(always)]
    pub(crate) fn take(&mut self) -> Option<usize>
        ensures { IfSome result (λ core. IsTaken self.old core self.new) }
    {
        let mut at = self.at;
        'moments: while self.sets[at] == 0 {
            if at + 1 == MOMENTS {
                return None;
            }
            at += 1;
        }
        self.at = at;
        let core = lowest(self.sets[at]);
        self.sets[at] &= !(1 << core);
        Some(core)
    }
}

/// Returns the lowest core of a set that is not empty.
#[inline(always)]
fn lowest(set: u64) -> usize
    requires { 0 < set }
    ensures { IsLowest set result }
{
    set.trailing_zeros() as usize
}

//! Stretches of origins.
ghost use Rattle.std.specs.Prelude.{◌≡◌, ◌+◌, ◌-◌, ◌*◌, ◌<◌, ◌≤◌, ◌⊎◌, ◌==◌, false, not, bit_and, [], ◌∷◌, ◌++◌, IfSome, IsTrue};
ghost use Rattle.mcs_origins.specs.Sets.{without};
ghost use Rattle.mcs_origins.specs.stored.Stretches.{all_of, is_between};
ghost use Rattle.std.specs.List.{list_any};

use crate::mark::Mark;
use mcs_ticks::Tick;

/// Origins that are equally far apart, all at the same places: a last one, and `more` before it,
/// each `step` ticks before the next. A set with origins that do not fit one stretch has several.
#[derive(Clone, Copy, Debug, PartialEq, Eq)]
pub struct Stretch {
    /// The latest origin.
    pub last: Tick,
    /// The places of all of them.
    pub places: u64,
    /// The ticks from one to the next. It means nothing if there is one origin.
    pub step: u32,
    /// How many there are before the latest one.
    pub more: u32,
}

impl Stretch {
    /// A stretch of one origin.
    #[inline(always)]
    pub(crate) fn one(mark: &Mark) -> Self
        ensures { all_of result ≡ mark.now ∷ [] }
    {
        Stretch {
            last: mark.origin,
            places: mark.places,
            step: 0,
            more: 0,
        }
    }

    /// The origin that has this many others of the stretch after it. The number is at most `more`:
    /// above it, the result is an earlier moment, or 0.
    pub(crate) fn at(&self, number: u32) -> Tick
        ensures { result ≡ self.now.last - self.now.step * number }
    {
        let ticks = u64::from(self.step).saturating_mul(u64::from(number));
        Tick::at(self.last.get().saturating_sub(ticks))
    }

    /// The origin that has this many others of the stretch after it, with its places.
    pub fn mark_at(&self, number: u32) -> Mark
        ensures { result ≡ record { origin = self.now.last - self.now.step * number; places = self.now.places } }
    {
        Mark {
            origin: self.at(number),
            places: self.places,
        }
    }

    /// The last origin, and this many before it.
    pub(crate) fn top(&self, more: u32) -> Self
        ensures { result ≡ record self.now { more = more } }
    {
        Stretch {
            last: self.last,
            places: self.places,
            step: self.step,
            more,
        }
    }

    /// The origins that the top of this size leaves.
    pub(crate) fn below(&self, more: u32) -> Self
        requires { more < self.now.more }
        ensures { all_of self.now ≡ all_of (record self.now { more = more }) ++ all_of result }
    {
        let left = self.more - more - 1;
        Stretch {
            last: self.at(more + 1),
            places: self.places,
            step: self.step,
            more: left,
        }
    }

    /// Whether the origins are at one of these places.
    pub(crate) fn is_at(&self, places: u64) -> bool
        ensures { result ≡ not (bit_and self.now.places places == 0) }
    {
        self.places & places != 0
    }

    /// The origins at these places instead.
    pub(crate) fn put_at(&self, places: u64) -> Self
        ensures { result ≡ record self.now { places = places } }
    {
        Stretch {
            last: self.last,
            places,
            step: self.step,
            more: self.more,
        }
    }

    /// The step of the stretch that this and a later one would be. It is 0 if they are none.
    fn step_to(&self, later: &Stretch) -> u32
        ensures { (later.now.more ≡ 0) ⊎ (later.now.step ≡ result) }
    {
        if later.more > 0 {
            return later.step;
        }
        if self.more > 0 {
            return self.step;
        }
        let ticks = later.last.get().saturating_sub(self.last.get());
        if ticks <= u64::from(u32::MAX) {
            ticks as u32
        } else {
            0
        }
    }

    /// Whether a step fits this.
    pub(crate) fn has_step(&self, step: u32) -> bool
        ensures { IsTrue result → (self.now.more ≡ 0) ⊎ (self.now.step ≡ step) }
    {
        self.more == 0 || self.step == step
    }

    /// Returns this and a later one as one stretch, if they are one.
    pub(crate) fn followed_by(&self, later: &Stretch) -> Option<Stretch>
        ensures { IfSome result (λ whole. all_of whole ≡ all_of later.now ++ all_of self.now) }
    {
        let step = self.step_to(later);
        if self.places != later.places
            || !self.has_step(step)
            || later.more >= u32::MAX - self.more
        {
            return None;
        }
        let whole = Stretch {
            last: later.last,
            places: self.places,
            step,
            more: self.more + later.more + 1,
        };
        if whole.at(later.more + 1) == self.last {
            Some(whole)
        } else {
            None
        }
    }

    /// How many more than the last one are later than a moment, if the last one is. It is 0 if all
    /// are the same.
    pub(crate) fn more_after(&self, moment: Tick) -> u32
        requires { moment < self.now.last }
        ensures within { result ≤ self.now.more }
        ensures after { moment < self.now.last - self.now.step * result }
    {
        if self.more == 0 || self.step == 0 {
            return 0;
        }
        let steps = (self.last.get() - moment.get() - 1) / u64::from(self.step);
        if steps < u64::from(self.more) {
            steps as u32
        } else {
            self.more
        }
    }

    /// How many more than the last one two stretches have in common, if they have the last one. It
    /// may be too few.
    pub(crate) fn more_of_both(&self, other: &Stretch) -> u32
        ensures first { result ≤ self.now.more }
        ensures second { result ≤ other.now.more }
        ensures same { (result ≡ 0) ⊎ (other.now.step ≡ self.now.step) }
    {
        if self.step == other.step {
            self.more.min(other.more)
        } else {
            0
        }
    }

    /// Whether some of the origins may have been answered.
    pub(crate) fn may_have(&self, answered: &[Tick]) -> bool
        ensures { result ≡ false → without answered.now (all_of self.now) ≡ all_of self.now }
    {
        is_any_between(answered, self.at(self.more), self.last)
    }
}

/// Whether one of these moments lies between two.
fn is_any_between(moments: &[Tick], first: Tick, last: Tick) -> bool
    ensures { result ≡ list_any (is_between first last) moments.now }
{
    moments
        .iter()
        .any(|moment| first <= *moment && *moment <= last)
}

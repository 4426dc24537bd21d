ghost use Rattle.std.specs.Prelude.{◌≡◌, ◌+◌, ◌↔◌, IsTrue, Some, None};
ghost use Rattle.mcs_ticks.specs.Soonest.{moment_of, sooner, before, HasCome};

use crate::{Limits, Tick};
use std::marker::Model;

/// A moment or never, kept in one number: the sooner of two is the smaller number. Contracts see an
/// option of a moment.
#[derive(Clone, Copy, Debug)]
pub struct Soonest {
    number: u64,
}

impl Model for Soonest {
    ghost use Rattle.std.specs.Prelude.{◌≡◌, ◌<◌, ◌-◌, ◌^◌, ℕ, Option};
    ghost use Rattle.mcs_ticks.specs.Soonest.{moment_of, number_of};

    ghost Value = { Option ℕ };

    ghost view = { λ a. moment_of a.number };

    ghost invariant = { λ a. 2 ^ 42 < a.number → a.number ≡ 2 ^ 64 - 1 };

    ghost inverse = { λ moment. record { number = number_of moment } };
}

impl Soonest {
    /// Returns never.
    pub fn never() -> Self
        ensures { result ≡ None }
    {
        Soonest { number: u64::MAX }
    }

    /// Whether it is never.
    #[inline(always)]
    pub fn is_never(self) -> bool
        ensures { IsTrue result ↔ (self ≡ None) }
    {
        self.number == u64::MAX
    }

    /// Returns this moment.
    #[inline(always)]
    pub fn at(moment: Tick) -> Self
        ensures { result ≡ Some moment }
    {
        Soonest {
            number: moment.get(),
        }
    }

    /// Returns this moment, or never for `None`.
    #[inline(always)]
    pub fn of(moment: Option<Tick>) -> Self
        ensures { result ≡ moment }
    {
        match moment {
            Some(moment) => Soonest::at(moment),
            None => Soonest::never(),
        }
    }

    /// Returns the moment `ticks` after this one, or never if that is above 2^42.
    #[inline(always)]
    pub fn after(moment: Tick, ticks: u64) -> Self
        ensures { result ≡ moment_of (moment + ticks) }
    {
        let number = moment.get().saturating_add(ticks);
        Soonest {
            number: if number <= Limits::TICK {
                number
            } else {
                u64::MAX
            },
        }
    }

    /// Returns the sooner of two.
    #[inline(always)]
    pub fn or(self, other: Soonest) -> Self
        ensures { result ≡ sooner self other }
    {
        Soonest {
            number: self.number.min(other.number),
        }
    }

    /// Returns the moment, or `None` for never.
    #[inline(always)]
    pub fn moment(self) -> Option<Tick>
        ensures { result ≡ self }
    {
        Tick::new(self.number)
    }

    /// Returns the moment if it is before `to`, otherwise `None`.
    #[inline(always)]
    pub fn before(self, to: Tick) -> Option<Tick>
        ensures { result ≡ before to self }
    {
        if self.number < to.get() {
            Some(Tick::at(self.number))
        } else {
            None
        }
    }

    /// Whether it is moment `t` or an earlier one.
    #[inline(always)]
    pub fn has_come(self, t: Tick) -> bool
        ensures { IsTrue result ↔ HasCome t self }
    {
        self.number <= t.get()
    }
}

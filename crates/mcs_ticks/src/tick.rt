ghost use Rattle.std.specs.Prelude.{◌≡◌, ℕ, ◌+◌, ◌^◌, ◌≤◌, ◌↔◌, IsSome, IfSome};

use std::marker::Model;

/// A moment, in whole ticks from the start of the run: moment `t` begins tick `t`. It is at most
/// 2^42, which no run of profile M reaches, so sums of a few moments and periods never overflow.
/// Contracts see the number.
#[derive(Clone, Copy, Debug, PartialEq, Eq, PartialOrd, Ord)]
pub struct Tick {
    ticks: u64,
}

impl Model for Tick {
    ghost Value = { ℕ };

    ghost view = { λ a. a.ticks };

    ghost invariant = { λ a. a.ticks ≤ 2 ^ 42 };

    ghost inverse = { λ n. record { ticks = n } };
}

impl Tick {
    /// The moment at which a run begins.
    pub const ZERO: Tick = Tick { ticks: 0 };

    const LATEST: u64 = 1 << 42;

    /// Returns the moment `ticks` after the start, or `None` above 2^42.
    pub fn new(ticks: u64) -> Option<Self>
        ensures some { IsSome result ↔ (ticks ≤ 2 ^ 42) }
        ensures value { IfSome result (λ tick. tick ≡ ticks) }
    {
        if ticks <= Self::LATEST {
            Some(Tick { ticks })
        } else {
            None
        }
    }

    /// Returns the moment `ticks` after the start. The caller ensures that it is at most 2^42.
    #[inline(always)]
    pub fn at(ticks: u64) -> Self
        requires { ticks ≤ 2 ^ 42 }
        ensures { result ≡ ticks }
    {
        Tick { ticks }
    }

    /// Returns the number of ticks since the start, at most 2^42.
    pub fn get(self) -> u64
        ensures value { result ≡ self }
        ensures in_range { result ≤ 2 ^ 42 }
    {
        self.ticks
    }

    /// Returns the moment `ticks` later, or `None` above 2^42.
    pub fn plus(self, ticks: u64) -> Option<Self>
        ensures some { IsSome result ↔ (self + ticks ≤ 2 ^ 42) }
        ensures value { IfSome result (λ tick. tick ≡ self + ticks) }
    {
        if ticks <= Self::LATEST - self.ticks {
            Some(Tick {
                ticks: self.ticks + ticks,
            })
        } else {
            None
        }
    }
}

ghost use Rattle.std.specs.Prelude.{◌≡◌, ◌^◌, ◌≤◌};
ghost use Rattle.mcs_refills.specs.Slice.{full_slice, charged_slice, reconfigured_slice};

use std::marker::Model;

/// The time slice of a round-robin scheduling context: the remaining ticks of its budget. It is
/// always ready.
#[derive(Debug, Drop)]
pub struct Slice {
    budget: u64,
    left: u64,
}

impl Model for Slice {
    ghost use Rattle.mcs_refills.specs.Slice.{TimeSlice, IsSlice};

    ghost Value = { TimeSlice };

    ghost view = { λ a. record { budget = a.budget; left = a.left } };

    ghost invariant = { λ a. IsSlice a.budget a.left };
}

impl Slice {
    /// Returns a full slice.
    pub fn new(budget: u64) -> Self
        requires some { 1 ≤ budget }
        requires in_range { budget ≤ 2 ^ 40 }
        ensures { result ≡ full_slice budget }
    {
        Slice {
            budget,
            left: budget,
        }
    }

    /// Returns the remaining ticks, 1 to the budget.
    pub fn left(&self) -> u64
        ensures value { result ≡ self.now.left }
        ensures some { 1 ≤ result }
        ensures within { result ≤ self.now.budget }
        ensures in_range { self.now.budget ≤ 2 ^ 40 }
    {
        self.left
    }

    /// Charges used ticks. If no ticks remain, the slice is full again.
    #[inline(always)]
    pub fn charge(&mut self, ticks: u64)
        requires some { 1 ≤ ticks }
        requires within { ticks ≤ self.old.left }
        ensures { self.new ≡ charged_slice ticks self.old }
    {
        let rest = self.left - ticks;
        *self = Slice {
            budget: self.budget,
            left: if rest == 0 { self.budget } else { rest },
        };
    }

    /// Applies a SchedControl order: sets the budget, and caps the remaining ticks at it.
    pub fn reorder(&mut self, budget: u64)
        requires some { 1 ≤ budget }
        requires in_range { budget ≤ 2 ^ 40 }
        ensures { self.new ≡ reconfigured_slice budget self.old }
    {
        *self = Slice {
            budget,
            left: self.left.min(budget),
        };
    }
}

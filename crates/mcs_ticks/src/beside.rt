use crate::{Collector, Measured, Refused, Row, Sink};

/// A sink that takes each row and keeps nothing.
#[derive(Clone, Copy, Debug, PartialEq, Eq)]
pub struct Nothing;

impl Sink for Nothing {
    ghost use Rattle.std.specs.Prelude.{◌≡◌, true};

    ghost takes = { λ before row taken after. taken ≡ true };

    #[inline(always)]
    fn row(&mut self, _row: &Row) -> Result<(), Refused> {
        Ok(())
    }
}

/// The size is always 0.
impl Measured for Nothing {
    ghost size = { λ _. 0 };

    fn size(&self) -> usize {
        0
    }
}

/// It keeps no rows, so it counts as holding any rows.
impl Collector for Nothing {
    ghost use Rattle.std.specs.Prelude.{refl};

    ghost holds = { λ _ _. Unit {0} };

    ghost amount = { λ _. 0 };

    fn clear(&mut self) {}

    ghost holds_more = { λ _ _ _ _ _ _. record {} };

    ghost is_measured = { λ _ _ _. refl };
}

/// Two sinks that receive the same rows, `first` before `second`. If `first` refuses a row,
/// `second` does not get it.
#[derive(Debug, Drop)]
pub struct Pair<A, B> {
    pub first: A,
    pub second: B,
}

impl<A: Sink, B: Sink> Sink for Pair<A, B> {
    ghost use Rattle.mcs_ticks.specs.Given.{BothTake};

    ghost takes = { λ before row taken after.
        BothTake A.takes B.takes before.first before.second row taken after.first after.second };

    #[inline(always)]
    fn row(&mut self, row: &Row) -> Result<(), Refused> {
        self.first.row(row)?;
        self.second.row(row)
    }
}

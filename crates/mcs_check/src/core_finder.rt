//! The sink that takes the rows of one core in a round.
ghost use Rattle.std.specs.Prelude.{◌≡◌, Some};

use crate::core_watch::CoreWatch;
use crate::sought::Sought;
use mcs_ticks::{Collector, Measured, Refused, Row, Sink, Tick};
use std::marker::PhantomData;

/// A sink that looks at each row of its core and keeps the findings from `from` on. After `clear`
/// it is closed and takes no row.
#[derive(Drop)]
pub(crate) struct CoreFinder<'a, B: Sought> {
    /// The state of its core; `None` if the sink is closed.
    pub(crate) own: Option<CoreWatch>,
    from: Tick,
    /// For each notification, whether lost signals are allowed.
    allowed: &'a [bool],
    of: PhantomData<B>,
    ghost ours: { (allowed.now ≡ B.allowed) × (from ≡ B.from) },
}

impl<'a, B: Sought> CoreFinder<'a, B> {
    /// A finder that continues from `own`; a closed one if that is `None`.
    pub(crate) fn new(own: Option<CoreWatch>, allowed: &'a [bool], from: Tick) -> CoreFinder<'a, B>
        requires { (allowed.now ≡ B.allowed) × (from ≡ B.from) }
        ensures { result.own ≡ own }
    {
        CoreFinder {
            own,
            from,
            allowed,
            of: PhantomData,
        }
    }

    /// Returns the state of its core; `None` if it is closed.
    pub(crate) fn into_own(self) -> Option<CoreWatch>
        ensures { result ≡ self.entry.own }
    {
        let CoreFinder { own, .. } = self;
        own
    }
}

/// Refuses a row if there is no memory for its finding, or if it is closed.
impl<B: Sought> Sink for CoreFinder<'_, B> {
    ghost use Rattle.mcs_check.specs.stored.OwnRows.{TakesOwn};

    ghost takes = { λ before row taken after. TakesOwn B.allowed B.from before.own row taken after.own };

    #[inline(always)]
    fn row(&mut self, row: &Row) -> Result<(), Refused> {
        let Some(own) = &mut self.own else {
            return Err(Refused);
        };
        own.rows = own.rows.wrapping_add(1);
        own.see(self.allowed, self.from, row)
    }
}

/// The size is the number of rows taken, in 64 bits.
impl<B: Sought> Measured for CoreFinder<'_, B> {
    ghost use Rattle.mcs_check.specs.stored.OwnRows.{rows_seen};

    ghost size = { λ finder. rows_seen finder.own };

    #[inline(always)]
    fn size(&self) -> usize {
        match &self.own {
            Some(own) => own.rows,
            None => 0,
        }
    }
}

/// Holds the rows that it took. `clear` closes it.
impl<B: Sought> Collector for CoreFinder<'_, B> {
    ghost use Rattle.mcs_team.specs.Counts.{many_of};
    ghost use Rattle.mcs_check.specs.stored.OwnRows.{are_counted, seen_more, HoldsOwn};

    ghost holds = { λ finder rows. HoldsOwn B.system B.allowed B.from finder.own rows };

    ghost amount = { many_of };

    fn clear(&mut self) {
        self.own = None;
    }

    ghost holds_more = { λ before after held row holds takes. seen_more B.system B.allowed B.from before.own after.own held row holds takes };

    ghost is_measured = { λ finder held holds. are_counted B.system B.allowed B.from finder.own held holds };
}

ghost use Rattle.std.specs.Prelude.{◌≡◌, ◌≤◌, ◌==◌, ◌⊎◌, true, false, OnOk, OnErr};
ghost use Rattle.mcs_ever_search.specs.Compared.{with_kept};
ghost use Rattle.mcs_ever_search.specs.Sampling.{StandsOn, GoesOn};
ghost use Rattle.mcs_ever_search.specs.declared.sampling.Rest.TheVariants.{NotYet};

use crate::Search;
use mcs_ticks::{NoMemory, Row};
use std::alloc::Global;

/// Whether a system is at rest.
#[derive(Clone, Copy, Debug, PartialEq, Eq)]
enum Rest {
    /// It is not.
    NotYet,
    /// It is, from the present moment on.
    Now,
    /// It was already, and a later moment was compared with that one.
    Past,
}

/// The choice of the moments that a search keeps.
///
/// Once all orders are over, it keeps a moment after 1, 2, 4, 8 and so on busy moments, at which
/// some core does more than count a tick. However long a period is, some kept moment is followed by
/// a whole period. It also keeps the moment from which on the system rests, since no busy moment
/// follows.
#[derive(Clone, Copy, Debug)]
pub struct Sampling {
    stretch: u64,
    left: u64,
    rest: Rest,
}

impl Sampling {
    /// Returns the choice before the first moment.
    pub fn new() -> Self
        ensures { (result.stretch ≡ 1) × (result.left ≡ 1) × (result.rest ≡ NotYet) }
    {
        Sampling {
            stretch: 1,
            left: 1,
            rest: Rest::NotYet,
        }
    }

    /// Takes the turns of this moment and moves on to the next busy one, at most one past the
    /// horizon.
    ///
    /// Appends the rows of the turns. Before them it keeps the moment, if that is due. When the
    /// system rests, the search twice moves on by one tick only, so that a later moment is compared
    /// with the kept one. If memory runs out, no row is appended, and the search has failed or is
    /// unchanged.
    pub fn go_on(
        &mut self,
        alloc: Global,
        compared: &mut Search,
        rows: &mut Vec<Row>,
    ) -> Result<(), NoMemory>
        requires { compared.old.clock ≤ compared.old.horizon }
        ensures on { OnOk result (GoesOn compared.old compared.new rows.old.items rows.new.items) }
        ensures refused { OnErr result (rows.new.items ≡ rows.old.items) }
        ensures err { OnErr result ((compared.new.failed ≡ true) ⊎ (compared.new ≡ compared.old)) }
    {
        self.keep_where_due(alloc, compared)?;
        compared.turn(rows)?;
        self.go_to_next(alloc, compared);
        Ok(())
    }

    /// Keeps the moment before its turns, if that is due.
    fn keep_where_due(&mut self, alloc: Global, compared: &mut Search) -> Result<(), NoMemory>
        ensures kept { OnOk result ((compared.new ≡ compared.old) ⊎ (compared.new ≡ with_kept compared.old)) }
        ensures err { OnErr result (compared.new ≡ compared.old) }
    {
        if self.keeps(compared) {
            compared.keep(alloc)?;
        }
        Ok(())
    }

    /// Skips idle time after the turns, unless the search stays at the moment.
    fn go_to_next(&mut self, alloc: Global, compared: &mut Search)
        requires { compared.old.failed ≡ false }
        ensures { StandsOn compared.old compared.new }
    {
        if self.stays(alloc, compared) {
            return;
        }
        // memory has not run out before, and this call allocates none
        let _moment = compared.skip();
    }

    /// Whether the present moment is to be kept.
    fn keeps(&mut self, compared: &Search) -> bool {
        match self.rest {
            Rest::NotYet => compared.orders_are_over() && self.is_due(),
            Rest::Now => true,
            Rest::Past => false,
        }
    }

    /// Whether the busy moments of this stretch are over; if so, a stretch of twice as many begins.
    fn is_due(&mut self) -> bool
        ensures { result ≡ (self.old.left == 0) }
    {
        if self.left > 0 {
            self.left -= 1;
            return false;
        }
        self.stretch = self.stretch.saturating_mul(2);
        self.left = self.stretch.saturating_sub(1);
        true
    }

    /// Whether the search stays at the present moment, even if no core does more than count a tick
    /// at it.
    fn stays(&mut self, alloc: Global, compared: &mut Search) -> bool
        requires { compared.old.failed ≡ false }
        ensures { compared.new ≡ compared.old }
    {
        self.rest = match self.rest {
            Rest::NotYet if compared.is_at_rest(alloc) => Rest::Now,
            Rest::NotYet => return false,
            Rest::Now => Rest::Past,
            Rest::Past => return false,
        };
        true
    }
}

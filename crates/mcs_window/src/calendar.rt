ghost use Rattle.std.specs.Prelude.{◌≡◌, true};

use crate::Front;
use mcs_ticks::Tick;

/// Until when each core of a desk only counts ticks, as last looked up. The calendar is stale once
/// a core has made a signal for another one since.
#[derive(Clone, Copy)]
pub(crate) struct Calendar {
    pub(crate) until: Front,
    pub(crate) stale: bool,
}

impl Calendar {
    /// A stale calendar, before the first look-up.
    pub(crate) fn new() -> Self
        ensures { result.stale ≡ true }
    {
        Calendar {
            until: [Tick::ZERO; 64],
            stale: true,
        }
    }
}

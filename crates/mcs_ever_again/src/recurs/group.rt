ghost use Rattle.std.specs.Prelude.{◌≡◌};
ghost use Rattle.mcs_ever.specs.Closed.{has};

use mcs_ever::CoreSet;
use mcs_ticks::{CoreId, Limits};

/// Whether the core is in the group.
pub fn is_own(group: &CoreSet, core: CoreId) -> bool
    ensures { result ≡ has group.now core }
{
    core.0 < Limits::CORES && group[core.0]
}

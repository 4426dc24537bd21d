//! Types that name a system.

use std::marker::Brand;

/// Names the system of a run. The call that writes its output picks it.
pub(crate) trait Named {
    ghost use Rattle.mcs_system.specs.System.{System};

    ghost system: { System };
}

impl Named for Brand {
    ghost use Rattle.mcs_team.specs.NoSystem.{no_system};

    ghost system = { no_system };
}

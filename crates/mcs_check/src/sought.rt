//! A trait whose types say, for proofs, what the cores look for in a round.

use std::marker::Brand;

/// The values that a round of the cores has: the system, the notifications at which lost signals
/// are allowed, and the time before which all findings were passed on. The call that takes the
/// round picks them.
pub(crate) trait Sought {
    ghost use Rattle.std.specs.Prelude.{ℕ, Bool, List};
    ghost use Rattle.mcs_system.specs.System.{System};

    ghost system: { System };

    ghost allowed: { List Bool };

    ghost from: { ℕ };
}

impl Sought for Brand {
    ghost use Rattle.std.specs.Prelude.{[]};
    ghost use Rattle.mcs_team.specs.NoSystem.{no_system};

    ghost system = { no_system };

    ghost allowed = { [] };

    ghost from = { 0 };
}

ghost use Rattle.std.specs.Prelude.{◌≡◌, ◌↔◌, IsTrue};
ghost use Rattle.std.specs.Cmp.{partial_equiv_from_equiv};
ghost use Rattle.mcs_system.specs.Equality.{same_system};
ghost use Rattle.mcs_system.specs.WellFormed.{IsWellFormed};
ghost use Rattle.mcs_system.specs.laws.Equality.{same_system_equivalence};

use crate::SystemParts;
use std::marker::Model;

/// A system that is well formed. Contracts see its parts: numbers and lists, with names as their
/// bytes.
#[derive(Debug, Drop)]
pub struct System {
    parts: SystemParts,
}

impl Model for System {
    ghost use Rattle.mcs_system.specs.declared.part.SystemParts.{SystemParts};

    ghost Value = { SystemParts };

    ghost use Rattle.mcs_system.specs.WellFormed.{IsWellFormed};

    ghost view = { λ a. a.parts };

    ghost invariant = { λ a. IsWellFormed a.parts };
}

impl System {
    /// Returns the system with these parts, which must be well formed. Allocates no memory.
    pub fn new(parts: SystemParts) -> Self
        requires { IsWellFormed parts }
        ensures { result ≡ parts }
    {
        System { parts }
    }

    /// Returns its parts, which are well formed.
    pub fn parts(&self) -> &SystemParts
        ensures same { result.now ≡ self.now }
        ensures well_formed { IsWellFormed self.now }
    {
        &self.parts
    }
}

impl PartialEq for System {
    ghost eq = { same_system };

    ghost laws = { partial_equiv_from_equiv same_system_equivalence };

    /// Whether both have the same parts; all that contracts see is compared.
    fn eq(&self, other: &Self) -> bool
        ensures value { result ≡ same_system self.now other.now }
        ensures exact { IsTrue result ↔ self.now ≡ other.now }
    {
        self.parts == other.parts
    }
}

impl Eq for System {
    ghost laws = { same_system_equivalence };
}

//! A law that other crates rely on.
ghost use Rattle.mcs_load.specs.laws.Accepted.{AcceptedIsWellFormed};

/// Law of the definitions: a file that passes all tests describes a well-formed system.
pub fn accepted_systems_are_well_formed()
    ensures { AcceptedIsWellFormed }
{}

ghost use Rattle.example_refills.specs.Passing.{PacketsAreSpaced};

/// Law of limiters: a packet that passes and the one that passes a whole budget later are at least
/// a period apart. In any period, at most a budget of packets pass.
pub fn packets_are_spaced()
    ensures { PacketsAreSpaced }
{}

ghost use Rattle.std.specs.Prelude.{◌≡◌, ◌↔◌, nat_eq, IsTrue};
ghost use Rattle.std.specs.Cmp.Lexicographic.{pointwise};
ghost use Rattle.std.specs.Cmp.{partial_equiv_from_equiv};
ghost use Rattle.std.proofs.lemmas.Cmp.{nat_list_eq_equiv};
ghost use Rattle.mcs_system.specs.Equality.{same_thread, same_things, same_ties, same_limits, same_system};
ghost use Rattle.mcs_system.specs.laws.Equality.{same_thread_equivalence, same_system_equivalence};

use crate::{Name, SystemParts, ThreadPart};

impl PartialEq for Name {
    ghost eq = { pointwise nat_eq };

    ghost laws = { partial_equiv_from_equiv nat_list_eq_equiv };

    /// Whether both have the same bytes.
    fn eq(&self, other: &Self) -> bool
        ensures value { result ≡ pointwise nat_eq self.now other.now }
        ensures exact { IsTrue result ↔ self.now ≡ other.now }
    {
        self.as_str() == other.as_str()
    }
}

impl Eq for Name {
    ghost laws = { nat_list_eq_equiv };
}

impl PartialEq for ThreadPart {
    ghost eq = { same_thread };

    ghost laws = { partial_equiv_from_equiv same_thread_equivalence };

    /// Whether both have the same name, context, numbers and items.
    #[tactic(auto, using(crate::specs::laws::Equality::same_thread_decides))]
    fn eq(&self, other: &Self) -> bool
        ensures value { result ≡ same_thread self.now other.now }
        ensures exact { IsTrue result ↔ self.now ≡ other.now }
    {
        self.name == other.name
            && self.context == other.context
            && self.priority == other.priority
            && self.start == other.start
            && self.rounds == other.rounds
            && self.deadline == other.deadline
            && self.script == other.script
    }
}

impl Eq for ThreadPart {
    ghost laws = { same_thread_equivalence };
}

fn same_limits(one: &SystemParts, other: &SystemParts) -> bool
    ensures { result ≡ same_limits one.now other.now }
{
    one.cores == other.cores
        && one.delay == other.delay
        && one.call == other.call
        && one.min_budget == other.min_budget
        && one.servers == other.servers
}

fn same_things(one: &SystemParts, other: &SystemParts) -> bool
    ensures { result ≡ same_things one.now other.now }
{
    one.contexts.as_slice() == other.contexts.as_slice()
        && one.notes.as_slice() == other.notes.as_slice()
        && one.threads.as_slice() == other.threads.as_slice()
        && one.orders.as_slice() == other.orders.as_slice()
}

fn same_ties(one: &SystemParts, other: &SystemParts) -> bool
    ensures { result ≡ same_ties one.now other.now }
{
    one.links.as_slice() == other.links.as_slice()
        && one.sources.as_slice() == other.sources.as_slice()
        && one.beats.as_slice() == other.beats.as_slice()
        && one.chains.as_slice() == other.chains.as_slice()
}

fn same_parts(one: &SystemParts, other: &SystemParts) -> bool
    ensures { result ≡ same_system one.now other.now }
{
    same_limits(one, other) && same_things(one, other) && same_ties(one, other)
}

impl PartialEq for SystemParts {
    ghost eq = { same_system };

    ghost laws = { partial_equiv_from_equiv same_system_equivalence };

    /// Whether both have the same numbers, and the same parts in the same order.
    #[tactic(auto, using(crate::specs::laws::Equality::same_system_decides))]
    fn eq(&self, other: &Self) -> bool
        ensures value { result ≡ same_system self.now other.now }
        ensures exact { IsTrue result ↔ self.now ≡ other.now }
    {
        same_parts(self, other)
    }
}

impl Eq for SystemParts {
    ghost laws = { same_system_equivalence };
}

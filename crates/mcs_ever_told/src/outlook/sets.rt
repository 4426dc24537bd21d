//! The closed sets of cores, each once, and for each the cores that are reported with it.
ghost use Rattle.std.specs.Prelude.{◌≡◌, ◌<◌, ◌++◌, ◌∷◌, [], cond, length, IfOk, OnOk};
ghost use Rattle.mcs_ever_told.specs.Sets.{set_has, have_one_set, own_of, is_first};
ghost use Rattle.mcs_ever_told.specs.stored.Groups.{group_of, groups_of};

use mcs_ever::CoreSet;
use mcs_ticks::{CoreId, Limits, NoMemory};
use std::alloc::Global;

/// A closed set of cores, and those of its cores that are reported with it.
#[derive(Clone, Copy)]
pub(crate) struct Group {
    pub(crate) set: CoreSet,
    pub(crate) own: CoreSet,
}

fn set_has(sets: &[CoreSet], core: CoreId, other: CoreId) -> bool
    ensures { result ≡ set_has sets.now core other }
{
    core.0 < sets.len() && other.0 < Limits::CORES && sets[core.0][other.0]
}

/// Whether two cores have the same set.
fn have_one_set(sets: &[CoreSet], core: CoreId, other: CoreId) -> bool
    ensures { result ≡ have_one_set sets.now core other }
{
    set_has(sets, core, other) && set_has(sets, other, core)
}

/// The cores that are reported with the set of this one: those that have the same set.
fn own_of(sets: &[CoreSet], core: CoreId) -> CoreSet
    ensures { result ≡ own_of sets.now core }
{
    let mut own = [false; Limits::CORES];
    for other in 0..Limits::CORES {
        own[other] = have_one_set(sets, core, CoreId(other));
    }
    own
}

/// Whether no core of a smaller number has the same set.
fn is_first(sets: &[CoreSet], core: CoreId) -> bool
    ensures { result ≡ is_first sets.now core }
{
    for lesser in 0..core.0 {
        if have_one_set(sets, core, CoreId(lesser)) {
            return false;
        }
    }
    true
}

fn group_of(sets: &[CoreSet], core: CoreId) -> Group
    requires { core < length sets.now }
    ensures { result ≡ group_of sets.now core }
{
    Group {
        set: sets[core.0],
        own: own_of(sets, core),
    }
}

/// Appends the set of a core, unless a core of a smaller number has the same set.
fn push_group(groups: &mut Vec<Group>, sets: &[CoreSet], core: CoreId) -> Result<(), NoMemory>
    requires { core < length sets.now }
    ensures { OnOk result (groups.new.items ≡ groups.old.items ++ cond (is_first sets.now core) (group_of sets.now core ∷ []) []) }
{
    if !is_first(sets, core) {
        return Ok(());
    }
    groups.push(group_of(sets, core))?;
    Ok(())
}

/// Returns each set once, in order of the first core that has it. Fails only if memory runs out.
pub(crate) fn groups_of(alloc: Global, sets: &[CoreSet]) -> Result<Vec<Group>, NoMemory>
    ensures { IfOk result (λ groups. groups.items ≡ groups_of sets.now) }
{
    let mut groups = Vec::new(alloc);
    for core in 0..sets.len() {
        push_group(&mut groups, sets, CoreId(core))?;
    }
    Ok(groups)
}

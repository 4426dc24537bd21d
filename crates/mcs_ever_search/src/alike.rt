ghost use Rattle.std.specs.Prelude.{◌≡◌, ℕ, ◌<◌, true, false, map, length, IsTrue};
ghost use Rattle.mcs_core.specs.Clock.{core_shown, world};
ghost use Rattle.mcs_ever.specs.Later.{Shift};
ghost use Rattle.mcs_laws.specs.Turns.{cores};
ghost use Rattle.mcs_ever_search.specs.Compared.{CoresAreLater};

use crate::lockstep::Lockstep;
use mcs_ever::CoreSet;
use mcs_ever_again::{CoreImage, is_own};
use mcs_system::System;
use mcs_ticks::CoreId;

/// Whether each core of a group may be its earlier self, but later: the same thread runs, and each
/// thread is at the same item. If not, no shift makes an earlier core of the group the present one.
/// Allocates no memory.
pub(crate) fn may_stand_again(
    system: &System,
    lockstep: &Lockstep,
    before: &[CoreImage],
    group: &CoreSet,
) -> bool
    requires same { lockstep.now.system ≡ system.now }
    requires going { lockstep.now.failed ≡ false }
    requires settled { lockstep.now.settled ≡ true }
    requires many { length before.now ≡ system.now.cores }
    ensures { (kept : ℕ) (shifts : ℕ → Shift) → before.now ≡ map (core_shown system.now (world system.now kept)) (cores system.now) →
        CoresAreLater system.now kept lockstep.now.clock group.now shifts → IsTrue result }
{
    for core in 0..before.len() {
        if !is_own(group, CoreId(core)) {
            continue;
        }
        if !before[core].may_be_again(system, lockstep.state(CoreId(core))) {
            return false;
        }
    }
    true
}

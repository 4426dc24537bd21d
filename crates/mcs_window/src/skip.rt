ghost use Rattle.std.specs.Prelude.{◌≡◌, ◌≤◌, ◌+◌, ◌^◌, length, map, max};
ghost use Rattle.mcs_system.specs.WellFormed.{IsWellFormed};
ghost use Rattle.mcs_stretch.specs.Idle.{AreIdle, AreReached};
ghost use Rattle.mcs_window.specs.stored.Cores.{AreAt};
ghost use Rattle.mcs_window.specs.stored.Slots.{AllStand, MaySkip, HasSkipped, HaveSkipped};

use crate::slot::Slot;
use mcs_core::CoreState;
use mcs_system::System;
use mcs_ticks::Tick;

/// Sets each clock before the moment to it. Until then all cores only count ticks.
pub fn skip_all(system: &System, clocks: &mut [Tick], states: &mut [CoreState], moment: Tick)
    requires well_formed { IsWellFormed system.now }
    requires clocks { length clocks.old ≡ system.now.cores }
    requires states { length states.old ≡ system.now.cores }
    requires in_time { moment ≤ 2 ^ 40 + 1 }
    requires at_clocks { AreAt system.now clocks.old states.old }
    requires reached { AreReached system.now clocks.old }
    requires idle { AreIdle system.now clocks.old moment }
    ensures clocks { clocks.new ≡ map (λ clock. max clock moment) clocks.old }
    ensures many { length states.new ≡ length states.old }
    ensures at_clocks { AreAt system.now clocks.new states.new }
{
    for core in 0..clocks.len() {
        if clocks[core].get() < moment.get() {
            states[core].skip(system, moment);
            clocks[core] = moment;
        }
    }
}

/// Sets each clock before the moment to it, with the core in its slot. No core is lent, and until
/// then all cores only count ticks.
pub(crate) fn skip_slots(system: &System, clocks: &mut [Tick], slots: &mut [Slot], moment: Tick)
    requires well_formed { IsWellFormed system.now }
    requires clocks { system.now.cores ≤ length clocks.old }
    requires slots { length slots.old ≡ system.now.cores }
    requires in_time { moment ≤ 2 ^ 40 + 1 }
    requires stand { AllStand system.now clocks.old slots.old }
    requires reached { AreReached system.now clocks.old }
    requires idle { AreIdle system.now clocks.old moment }
    ensures { HaveSkipped system.now clocks.old moment system.now.cores clocks.new slots.new }
{
    for core in 0..system.parts().cores {
        if clocks[core].get() < moment.get() {
            skip_slot(system, &mut slots[core], moment);
            clocks[core] = moment;
        }
    }
}

/// Moves a core that is not lent to the moment.
fn skip_slot(system: &System, slot: &mut Slot, moment: Tick)
    requires in_time { moment ≤ 2 ^ 40 + 1 }
    requires may { MaySkip system.now moment slot.old }
    ensures { HasSkipped system.now moment slot.old slot.new }
{
    if let Slot::Here { state, .. } = slot {
        state.skip(system, moment);
    }
}

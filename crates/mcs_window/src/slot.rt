ghost use Rattle.std.specs.Prelude.{IfOk};
ghost use Rattle.std.specs.Arc.{arc_value};
ghost use Rattle.mcs_window.specs.stored.Slots.{AreFresh};

use crate::Front;
use mcs_core::CoreState;
use mcs_system::System;
use mcs_ticks::{CoreId, NoMemory, Tick};
use std::alloc::Global;
use std::boxed::Box;
use std::sync::Arc;

/// The loan of a core: the moments from its clock to before `past`, by the clocks in `front`.
#[derive(Clone, Copy)]
pub(crate) struct Loan {
    pub(crate) past: Tick,
    pub(crate) front: Front,
}

/// The place of a core.
#[derive(Drop)]
pub(crate) enum Slot {
    // On the desk, with a copy of the system for its next piece.
    Here {
        spare: Arc<System>,
        state: Box<CoreState>,
    },
    Away(Loan),
}

/// Returns the initial slots: no core is lent, each is in its initial state.
pub(crate) fn opening_slots(alloc: Global, system: &Arc<System>) -> Result<Vec<Slot>, NoMemory>
    ensures { IfOk result (λ slots. AreFresh (arc_value system.now) (arc_value system.now).cores slots.items) }
{
    let cores = system.parts().cores;
    let mut slots = Vec::with_capacity(alloc, cores)?;
    for core in 0..cores {
        let spare = Arc::try_clone(system)?;
        let state = CoreState::new(alloc, system, CoreId(core))?;
        let boxed = Box::new(alloc, state)?;
        slots.push(Slot::Here {
            spare,
            state: boxed,
        })?;
    }
    Ok(slots)
}

//! Views of the contexts of all cores.
ghost use Rattle.std.specs.Prelude.{◌≡◌, ◌<◌, IfOk, map, slice_index_or};
ghost use Rattle.mcs_core.specs.State.{State};
ghost use Rattle.mcs_window.specs.Desk.{AllAreHere};
ghost use Rattle.mcs_window.specs.Views.{views_at, views_in, AreShownAt, AreStates};
ghost use Rattle.mcs_window.specs.stored.Views.{AreQueued};

use crate::desk::Desk;
use crate::slot::Slot;
use mcs_control::ContextView;
use mcs_core::CoreState;
use mcs_system::System;
use mcs_ticks::{Collector, NoMemory};
use std::alloc::Global;
use std::collections::VecDeque;

/// A holder of the state of a core.
pub(crate) trait Stands {
    ghost use Rattle.std.specs.Prelude.{◌≡◌, IfOk};
    ghost use Rattle.mcs_core.specs.State.{State, Fits};
    ghost use Rattle.mcs_core.specs.Views.{views_of};

    ghost state: { Self → State };

    fn views(&self, alloc: Global, system: &System) -> Result<Vec<ContextView>, NoMemory>
        requires { Fits system.now (state self.now) }
        ensures { IfOk result (λ views. views.items ≡ views_of system.now (state self.now).core) };
}

impl Stands for CoreState {
    ghost state = { λ state. state };

    fn views(&self, alloc: Global, system: &System) -> Result<Vec<ContextView>, NoMemory> {
        self.contexts(alloc, system)
    }
}

/// The state of a core that is not lent. A lent core shows no views.
impl Stands for Slot {
    ghost use Rattle.mcs_window.specs.stored.Views.{state_in};

    ghost state = { state_in };

    fn views(&self, alloc: Global, system: &System) -> Result<Vec<ContextView>, NoMemory> {
        match self {
            Slot::Here { state, .. } => state.contexts(alloc, system),
            Slot::Away(_) => Err(NoMemory),
        }
    }
}

/// Returns the views of each core's contexts, in file order.
fn views_by_core<T: Stands>(
    alloc: Global,
    system: &System,
    cores: &[T],
) -> Result<Vec<VecDeque<ContextView>>, NoMemory>
    requires { AreStates system.now (map T.state cores.now) }
    ensures { IfOk result (λ queues. AreQueued system.now (map T.state cores.now) 0 queues.items) }
{
    let mut queues = Vec::with_capacity(alloc, cores.len())?;
    for core in cores {
        let views = core.views(alloc, system)?;
        let queue = VecDeque::from_vec(views);
        queues.push(queue)?;
    }
    Ok(queues)
}

/// Returns the views of all contexts, in file order.
pub(crate) fn all_views<T: Stands>(
    alloc: Global,
    system: &System,
    cores: &[T],
) -> Result<Vec<ContextView>, NoMemory>
    requires { AreStates system.now (map T.state cores.now) }
    ensures { IfOk result
        (λ views. (x : State) → views.items ≡ views_in system.now (λ c. (slice_index_or (map T.state cores.now) c x).core)) }
{
    let mut queues = views_by_core(alloc, system, cores)?;
    let contexts = system.parts().contexts.as_slice();
    let mut views = Vec::with_capacity(alloc, contexts.len())?;
    for context in contexts {
        let core = context.core;
        let queue = &mut queues[core.0];
        let view = queue.pop_front().unwrap();
        views.push(view)?;
    }
    Ok(views)
}

impl<S: Collector> Desk<S> {
    /// The contexts of all cores in file order, each as its core has it at its clock. Each shows
    /// its whole budget in force then, and no ticks in use unless its thread runs. No core may be
    /// lent.
    pub fn contexts(&self, alloc: Global) -> Result<Vec<ContextView>, NoMemory>
        requires here { AllAreHere self.now }
        ensures views { IfOk result (λ views. views.items ≡ views_at self.now.system self.now.clocks) }
        ensures budgets { IfOk result (λ views. AreShownAt self.now.system self.now.clocks views.items) }
    {
        let views = all_views(alloc, &self.system, &self.slots)?;
        Ok(views)
    }
}

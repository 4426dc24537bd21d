ghost use Rattle.std.specs.Prelude.{◌≡◌, false, get_or, IsTrue, IfOk};
ghost use Rattle.mcs_origins.specs.Later.{later_origins};
ghost use Rattle.mcs_chain.specs.Later.{AreLater, StepsAreSame};

use crate::later::{are_later, are_steps_same};
use crate::origins::Origins;
use crate::step::Gone;
use mcs_origins::are_ticks_later;
use mcs_system::SystemParts;
use mcs_ticks::{Limits, NoMemory};
use std::alloc::Global;
use std::marker::Model;

/// A chain at one moment, to be compared with it at another one: how far each thread is in its
/// script, and the sets of the chain's origins. It changes no more.
#[derive(Drop)]
pub struct State {
    pub(crate) gone: Vec<Gone>,
    pub(crate) origins: Origins,
}

impl Model for State {
    ghost use Rattle.mcs_chain.specs.State.{State};

    ghost Value = { State };

    ghost view = { λ a. record { gone = a.gone.items; origins = a.origins } };
}

impl State {
    /// Whether each thread of a group of cores is at the step at which it was before, and the
    /// origins on the group are those before, `by` ticks later. The group has a yes or a no for
    /// each core. `NoMemory` if an allocation failed.
    pub fn is_later(
        &self,
        alloc: Global,
        parts: &SystemParts,
        own: &[bool; Limits::CORES],
        before: &State,
        by: u64,
    ) -> Result<bool, NoMemory>
        ensures { IfOk result (λ later. IsTrue later →
            StepsAreSame parts.now (λ core. get_or own.now core false) before.now.gone self.now.gone
            × AreLater parts.now (λ core. get_or own.now core false) by before.now.origins self.now.origins) }
    {
        if !are_steps_same(parts, own, &before.gone, &self.gone) {
            return Ok(false);
        }
        are_later(alloc, parts, own, &before.origins, by, &self.origins)
    }

    /// Whether the origins without an answer are those before, `by` ticks later.
    pub fn left_is_later(&self, before: &State, by: u64) -> bool
        ensures { IsTrue result → self.now.origins.unanswered ≡ later_origins by before.now.origins.unanswered }
    {
        are_ticks_later(before.origins.unanswered(), by, self.origins.unanswered())
    }
}

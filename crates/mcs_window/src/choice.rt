//! Choice of the core that is lent next, or that takes turns in place.
ghost use Rattle.std.specs.Prelude.{◌↔◌, ℕ, ◌<◌, suc, IfSome, IfNone, IsTrue};
ghost use Rattle.mcs_window.specs.stored.Slots.{IsEarliest};
ghost use Rattle.mcs_window.specs.Desk.{MayLend, IsChosen, IsBest, AllAreHere, IsFinished};

use crate::desk::Desk;
use mcs_ticks::{Collector, CoreId};

impl<S: Collector> Desk<S> {
    /// Whether a core may be lent now.
    pub(crate) fn may_lend(&self, core: CoreId) -> bool
        requires { core < self.now.system.cores }
        ensures { IsTrue result ↔ MayLend self.now core }
    {
        self.is_here(core) && !self.must_wait(core, self.clock(core))
    }

    /// The core if it may be lent and is earlier than the one chosen before; otherwise the latter.
    fn better(&self, core: CoreId, chosen: Option<CoreId>) -> Option<CoreId>
        requires known { core < self.now.system.cores }
        requires lower { IsBest self.now core chosen }
        ensures { IsBest self.now (suc core) result }
    {
        if let Some(other) = chosen {
            if self.clock(core) >= self.clock(other) {
                return chosen;
            }
        }
        if self.may_lend(core) {
            Some(core)
        } else {
            chosen
        }
    }

    /// The core if it is not lent and is earlier than the one found before; otherwise the latter.
    fn earlier(&self, core: CoreId, found: Option<CoreId>) -> Option<CoreId>
        requires known { core < self.now.system.cores }
        requires lower { IsEarliest self.now core found }
        ensures { IsEarliest self.now (suc core) result }
    {
        if !self.is_here(core) {
            return found;
        }
        if let Some(other) = found {
            if self.clock(other) <= self.clock(core) {
                return found;
            }
        }
        Some(core)
    }

    /// The core with the minimum clock of all cores that are not lent, and of those the one with
    /// the lowest number. `None` if all cores are lent.
    pub(crate) fn earliest(&self) -> Option<CoreId>
        ensures { IsEarliest self.now self.now.system.cores result }
    {
        let mut found = None;
        for core in 0..self.cores() {
            found = self.earlier(CoreId(core), found);
        }
        found
    }

    /// The core to lend next: of all cores that may be lent the one with the minimum clock, then
    /// the lowest number. The earliest core that is not lent is tried first. `None` if no core may
    /// be lent.
    pub(crate) fn choice(&self) -> Option<CoreId>
        ensures some { IfSome result (IsChosen self.now) }
        ensures none { IfNone result ((c : ℕ) → ¬ MayLend self.now c) }
    {
        if let Some(core) = self.earliest() {
            if self.may_lend(core) {
                return Some(core);
            }
        }
        let mut chosen = None;
        for core in 0..self.cores() {
            chosen = self.better(CoreId(core), chosen);
        }
        chosen
    }

    /// A law: if no core is lent and none may be lent, every core has taken its turn at the
    /// horizon.
    pub(crate) fn none_waits(&self)
        requires here { AllAreHere self.now }
        requires none { (c : ℕ) → ¬ MayLend self.now c }
        ensures { IsFinished self.now }
    {
        let _lost = self.lost;
    }
}

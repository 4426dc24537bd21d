ghost use Rattle.std.specs.Prelude.{◌≡◌, ◌+◌, ◌-◌, ◌^◌, ◌<◌, ◌≤◌, min, length, Some, None, IfSome};
ghost use Rattle.mcs_ticks.specs.Queue.{first_of};
ghost use Rattle.mcs_core.specs.Busy.{IsFirst, IsBest, GoesOnAfter, counted_by, counted_for};
ghost use Rattle.mcs_core.specs.Core.{thread_of};
ghost use Rattle.mcs_core.specs.stored.Ends.{IsUnspent};
ghost use Rattle.mcs_core.specs.stored.Sound.{IsSound};
ghost use Rattle.mcs_core.specs.stored.Sound.Phase.{Between};
ghost use Rattle.mcs_system.specs.WellFormed.{IsWellFormed};

use crate::Chosen;
use crate::local::Local;
use crate::log::Here;
use mcs_system::SystemParts;
use mcs_ticks::{Soonest, Tick};

impl Local {
    /// The first moment from `from` on at which the running thread ends its item or exhausts its
    /// head, if there is one up to 2^42.
    #[inline(always)]
    pub(crate) fn next_end(&self, system: &SystemParts, from: Tick) -> Soonest
        requires early { from ≤ 2 ^ 40 + 1 }
        requires unspent { IfSome self.now.running (IsUnspent system.now self.now) }
        ensures { IsFirst from (λ n. GoesOnAfter system.now n self.now.running self.now) result }
    {
        let Some(chosen) = self.running() else {
            return Soonest::never();
        };
        let left = self.thread(chosen.thread).place.left;
        let head = self.head_amount(system, chosen.thread);
        let ticks = ticks_before_end(left, chosen.using, head);
        Soonest::at(Tick::at(from.get() + ticks))
    }

    /// This moment, if a ready thread has to run instead of the running one; otherwise never.
    #[inline(always)]
    pub(crate) fn next_choice(&self, here: &Here<'_>) -> Soonest
        requires well_formed { IsWellFormed here.now.system.now }
        requires sound { IsSound here.now.system.now here.now.core here.now.moment Between None self.now }
        requires early { here.now.moment ≤ 2 ^ 40 + 1 }
        ensures { IsFirst here.now.moment
            (λ n. IsBest self.now self.now.running (first_of self.now.ready)) result }
    {
        let Some(best) = self.best() else {
            return Soonest::never();
        };
        let Some(chosen) = self.running() else {
            return Soonest::at(here.moment);
        };
        if self.thread(chosen.thread).place.priority < best {
            Soonest::at(here.moment)
        } else {
            Soonest::never()
        }
    }

    /// Counts ticks of this thread, which runs. Returns what is left of its item.
    #[inline(always)]
    pub(crate) fn count(&mut self, chosen: Chosen, ticks: u64) -> u64
        requires known { chosen.thread < length self.old.threads }
        requires fits { chosen.using + ticks < 2 ^ 64 }
        ensures core { self.new ≡ counted_by ticks chosen self.old }
        ensures left { result ≡ (thread_of self.new chosen.thread).place.left }
    {
        let thread = chosen.thread;
        self.set_running(Chosen {
            using: chosen.using + ticks,
            thread,
        });
        self.use_up(thread, ticks)
    }

    /// Counts ticks of the running thread, if there is one.
    #[inline(always)]
    pub(crate) fn count_many(&mut self, ticks: u64)
        requires known { IfSome self.old.running (λ chosen. chosen.thread < length self.old.threads) }
        requires fits { IfSome self.old.running (λ chosen. chosen.using + ticks < 2 ^ 63) }
        ensures { self.new ≡ counted_for ticks self.old.running self.old }
    {
        if let Some(chosen) = self.running() {
            self.count(chosen, ticks);
        }
    }
}

/// The number of ticks before the one that ends an item with `left` ticks left, or a head with
/// `used` of its ticks used.
#[inline(always)]
pub(crate) fn ticks_before_end(left: u64, used: u64, head: u64) -> u64
    requires { used < head }
    ensures { result ≡ min (left - 1) (head - used - 1) }
{
    left.saturating_sub(1).min(head - used - 1)
}

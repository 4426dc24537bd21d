ghost use Rattle.std.specs.Prelude.{◌≡◌, ◌+◌, ◌-◌, ◌^◌, ◌≤◌, false, [], All};
ghost use Rattle.mcs_ticks.specs.Queue.{by_priority};
ghost use Rattle.mcs_core.specs.Clock.{shown};
ghost use Rattle.mcs_core.specs.Core.{Core};
ghost use Rattle.mcs_core.specs.Quiet.{AreQuiet, AreQuietWith, IsNextBusy, IsNextBusyWith, counted_times};
ghost use Rattle.mcs_core.specs.State.{Fits, IsExpected};
ghost use Rattle.mcs_core.specs.stored.Ends.{IsEnd};

use crate::CoreState;
use crate::log::Here;
use mcs_mail::Mailbox;
use mcs_system::System;
use mcs_ticks::{Soonest, Tick};

impl CoreState {
    /// The next busy moment, with this mail as arrivals: the first moment whose turn does more than
    /// count a tick. `None` if no turn up to 2^42 does. It is that of each core that keeps its
    /// ready threads in one list, and that the state shows.
    #[inline(always)]
    pub fn next_busy(&self, system: &System, mail: &Mailbox) -> Option<Tick>
        requires fits { Fits system.now self.now }
        requires going { self.now.failed ≡ false }
        requires expected { All (IsExpected system.now self.now) mail.now.mails }
        ensures busy { IsNextBusyWith by_priority system.now self.now.number self.now.clock mail.now.mails self.now.core result }
        ensures one_list { (core : Core) → self.now.core ≡ shown core →
            IsNextBusy system.now self.now.number self.now.clock mail.now.mails core result }
    {
        self.soonest(system, mail, self.ends(system)).moment()
    }

    /// The first moment from the clock on at which the running thread ends its item or exhausts its
    /// head, or a ready thread has to run instead.
    #[inline(always)]
    pub(crate) fn ends(&self, system: &System) -> Soonest
        requires fits { Fits system.now self.now }
        requires going { self.now.failed ≡ false }
        ensures { IsEnd system.now self.now.clock self.now.core result }
    {
        let here = Here {
            system: system.parts(),
            core: self.number,
            delays: &self.delays,
            moment: self.clock,
        };
        let better = self.local.next_choice(&here);
        self.local.next_end(here.system, here.moment).or(better)
    }

    /// The next busy moment: the soonest of `ends`, the first release date, the next order, the
    /// next interrupt and the first mail.
    #[inline(always)]
    pub(crate) fn soonest(&self, system: &System, mail: &Mailbox, ends: Soonest) -> Soonest
        requires fits { Fits system.now self.now }
        requires going { self.now.failed ≡ false }
        requires expected { All (IsExpected system.now self.now) mail.now.mails }
        requires ends { IsEnd system.now self.now.clock self.now.core ends }
        ensures { IsNextBusyWith by_priority system.now self.now.number self.now.clock mail.now.mails self.now.core result }
    {
        let _parts = system.parts();
        let date = self.local.next_date();
        let order = self.agenda.next();
        let alarm = self.alarms.next();
        let arrival = mail.soonest();
        ends.or(date).or(order).or(alarm).or(arrival)
    }

    /// Takes the turns from the clock to before `to` at once; all of them must be quiet. The
    /// running thread counts their ticks. `to` may be the clock. The turns of each core that keeps
    /// its ready threads in one list, and that the state shows, are quiet too, and the state shows
    /// that core after them.
    pub fn skip(&mut self, system: &System, to: Tick)
        requires fits { Fits system.now self.old }
        requires going { self.old.failed ≡ false }
        requires later { self.old.clock ≤ to }
        requires in_time { to ≤ 2 ^ 40 + 1 }
        requires quiet { AreQuietWith by_priority system.now self.old.number self.old.clock [] self.old.core (to - self.old.clock) }
        ensures state { self.new ≡ record self.old {
          clock = to;
          core = counted_times system.now self.old.number (to - self.old.clock) self.old.core;
        } }
        ensures one_list { (core : Core) → self.old.core ≡ shown core →
            AreQuiet system.now self.old.number self.old.clock [] core (to - self.old.clock)
            × (self.new.core ≡ shown (counted_times system.now self.old.number (to - self.old.clock) core)) }
        ensures fits { Fits system.now self.new }
    {
        let _parts = system.parts();
        let ticks = to.get() - self.clock.get();
        self.local.count_many(ticks);
        self.clock = to;
    }
}

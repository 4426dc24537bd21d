//! Idle time of a desk when no core is lent.
ghost use Rattle.std.specs.Prelude.{◌≡◌, ℕ, ◌+◌, ◌≤◌, ◌<◌, false, None, length};
ghost use Rattle.mcs_core.specs.Clock.{world, core_at};
ghost use Rattle.mcs_core.specs.Quiet.{IsNextBusy};
ghost use Rattle.mcs_stretch.specs.Idle.{IsIdle, AreIdle, AreSet, IsIdleUntil, OnlyCounts};
ghost use Rattle.mcs_stretch.specs.Inbox.{inbox};
ghost use Rattle.mcs_window.specs.stored.Slots.{HoldsAt};
ghost use Rattle.mcs_window.specs.Desk.{Table, clock_of, loan_of, IsSkipped, AllAreHere, WentByScripts};

use crate::calendar::Calendar;
use crate::desk::Desk;
use crate::skip::skip_slots;
use crate::slot::Slot;
use mcs_ticks::{Collector, CoreId, Tick};

impl<S: Collector> Desk<S> {
    fn next_busy(&self, core: CoreId) -> Option<Tick>
        requires known { core < self.now.system.cores }
        requires here { loan_of self.now core ≡ None }
        ensures { IsNextBusy self.now.system core (clock_of self.now core)
            (inbox self.now.system core (clock_of self.now core) self.now.clocks)
            (core_at self.now.system (world self.now.system (clock_of self.now core)) core) result }
    {
        match &self.slots[core.0] {
            Slot::Here { state, .. } => state.next_busy(&self.system, &self.boxes[core.0]),
            Slot::Away(_) => None,
        }
    }

    /// The first moment at which some core does more than count a tick, at most one past the
    /// horizon. No clock is before `enough - 1`, so the search ends at a core that is busy before
    /// `enough`.
    fn idle_until(&self, enough: Tick) -> Tick
        requires here { AllAreHere self.now }
        requires enough { (c : ℕ) → c < self.now.system.cores → enough ≤ clock_of self.now c + 1 }
        ensures { IsIdleUntil self.now.system self.now.clocks (self.now.horizon + 1) result }
    {
        let mut until = self.horizon.plus(1).unwrap();
        for core in 0..self.cores() {
            if until < enough {
                return until;
            }
            if let Some(moment) = self.next_busy(CoreId(core)) {
                if moment.get() < until.get() {
                    until = moment;
                }
            }
        }
        until
    }

    /// Skips idle time; no core may be lent. All earlier clocks are set to the first moment at
    /// which some core does more than count a tick, at most one past the horizon. Until then no
    /// core emits a row.
    pub fn skip_idle(&mut self)
        requires { AllAreHere self.old }
        ensures { IsSkipped self.old self.new }
    {
        let enough = match self.earliest() {
            Some(core) if self.clock(core) <= self.horizon => self.clock(core).plus(1).unwrap(),
            _ => Tick::ZERO,
        };
        let moment = self.idle_until(enough);
        self.skip_to(moment);
    }

    /// A law: while idle time is skipped from here on, each core only counts ticks. It emits no row
    /// and makes no signal.
    pub fn idle_is_silent(&self)
        ensures { AllAreHere self.now → (after : Table) → IsSkipped self.now after → (c : ℕ) → c < self.now.system.cores
            → OnlyCounts self.now.system self.now.clocks after.clocks c }
    {
        let _lost = self.lost;
    }

    /// Sets each clock before the moment to it. Until then all cores only count ticks.
    pub(crate) fn skip_to(&mut self, moment: Tick)
        requires here { AllAreHere self.old }
        requires in_time { moment ≤ self.old.horizon + 1 }
        requires idle { AreIdle self.old.system self.old.clocks moment }
        ensures clocks { AreSet self.old.system self.old.clocks moment self.new.clocks }
        ensures many { length self.new.clocks ≡ length self.old.clocks }
        ensures went { WentByScripts self.old self.new }
        ensures rest { self.new ≡ record self.old { clocks = self.new.clocks } }
        ensures count { (c : ℕ) → c < self.old.system.cores → OnlyCounts self.old.system self.old.clocks self.new.clocks c }
    {
        skip_slots(&self.system, &mut self.clocks, &mut self.slots, moment);
    }

    /// The time until which a core only counts ticks, at most one past the horizon.
    fn idle_of(&self, core: CoreId) -> Tick
        requires known { core < self.now.system.cores }
        requires here { loan_of self.now core ≡ None }
        ensures { IsIdle self.now.system self.now.clocks result core }
    {
        let end = self.horizon.plus(1).unwrap();
        let Some(moment) = self.next_busy(core) else {
            return end;
        };
        if moment < end { moment } else { end }
    }

    /// The time until which a core only counts ticks. `until` is what was known of it, unless
    /// `stale`. It is looked up again if the core's clock has reached it.
    fn idle_since(&self, core: CoreId, until: Tick, stale: bool) -> Tick
        requires known { core < self.now.system.cores }
        requires here { loan_of self.now core ≡ None }
        requires holds { stale ≡ false → IsIdle self.now.system self.now.clocks until core }
        ensures { IsIdle self.now.system self.now.clocks result core }
    {
        if stale || until <= self.clock(core) {
            return self.idle_of(core);
        }
        until
    }

    /// The time until which all cores only count ticks, at most one past the horizon. Brings the
    /// calendar up to date.
    pub(crate) fn look_ahead(&self, calendar: &mut Calendar) -> Tick
        requires here { AllAreHere self.now }
        requires holds { HoldsAt self.now calendar.old }
        ensures holds { HoldsAt self.now calendar.new }
        ensures in_time { result ≤ self.now.horizon + 1 }
        ensures idle { AreIdle self.now.system self.now.clocks result }
    {
        let mut moment = self.horizon.plus(1).unwrap();
        for core in 0..self.cores() {
            let until = self.idle_since(CoreId(core), calendar.until[core], calendar.stale);
            calendar.until[core] = until;
            if until < moment {
                moment = until;
            }
        }
        calendar.stale = false;
        moment
    }
}

//! How far each core may run ahead, by the clocks of the others.
ghost use Rattle.std.specs.Prelude.{◌≡◌, ◌↔◌, ◌+◌, ◌≤◌, ◌<◌, ◌^◌, IsTrue};
ghost use Rattle.mcs_system.specs.System.{delay_between};
ghost use Rattle.mcs_stretch.specs.ByScripts.{IsFarByScripts};
ghost use Rattle.mcs_laws.specs.Links.{Signals};
ghost use Rattle.mcs_stretch.specs.Stretch.{NothingArrivesBefore};
ghost use Rattle.mcs_window.specs.stored.Reaches.{IsReach};
ghost use Rattle.mcs_window.specs.Desk.{past_of, past_within};

use crate::desk::Desk;
use mcs_ticks::{Collector, CoreId, Tick};

impl<S: Collector> Desk<S> {
    /// The delay of a signal from one core to another, in ticks.
    fn delay(&self, maker: CoreId, home: CoreId) -> u64
        requires maker { maker < self.now.system.cores }
        requires home { home < self.now.system.cores }
        ensures value { result ≡ delay_between self.now.system maker home }
        ensures short { result ≤ 2 ^ 20 }
    {
        self.delays[home.0][maker.0]
    }

    /// The time before which a loan of a core has to end, at most one past the horizon. No signal
    /// that another core has yet to make arrives before it, by the delays.
    pub(crate) fn past(&self, core: CoreId) -> Tick
        requires { core < self.now.system.cores }
        ensures { result ≡ past_of self.now core }
    {
        let mut past = self.horizon.get() + 1;
        for other in 0..self.cores() {
            if other != core.0 {
                let maker = CoreId(other);
                past = past.min(self.clock(maker).get() + self.delay(maker, CoreId(core.0)));
            }
        }
        Tick::new(past).unwrap()
    }

    /// As `past`, but at most `span` ticks after the core's clock.
    pub(crate) fn past_within(&self, core: CoreId, span: u64) -> Tick
        requires { core < self.now.system.cores }
        ensures { result ≡ past_within self.now span core }
    {
        let most = self.clock(core).get().saturating_add(span);
        Tick::new(most.min(self.past(core).get())).unwrap()
    }

    /// Ticks after which a signal of one core may reach another, by the scripts (`reach_rows`).
    fn reach(&self, maker: CoreId, home: CoreId) -> u64
        requires maker { maker < self.now.system.cores }
        requires home { home < self.now.system.cores }
        ensures { IsReach self.now.system maker home (Signals self.now.system maker home) result }
    {
        self.reaches[maker.0][home.0]
    }

    /// The time before which no signal that another core has yet to make arrives at this core, by
    /// the scripts. It is at least `past`.
    pub(crate) fn farthest(&self, core: CoreId) -> Tick
        requires { core < self.now.system.cores }
        ensures reached { NothingArrivesBefore self.now.system core result self.now.clocks }
        ensures far { IsFarByScripts self.now.system self.now.clocks core result }
        ensures in_time { result ≤ self.now.horizon + 1 }
        ensures no_less { past_of self.now core ≤ result }
    {
        let mut past = self.horizon.get() + 1;
        for other in 0..self.cores() {
            if other != core.0 {
                let maker = CoreId(other);
                past = past.min(self.clock(maker).get() + self.reach(maker, CoreId(core.0)));
            }
        }
        Tick::new(past).unwrap()
    }

    /// Whether a core must wait for another one before its turn at this moment, or the run has
    /// ended. Stops at the first core that it waits for.
    pub(crate) fn must_wait(&self, core: CoreId, moment: Tick) -> bool
        requires { core < self.now.system.cores }
        ensures { IsTrue result ↔ (past_of self.now core ≤ moment) }
    {
        if moment > self.horizon {
            return true;
        }
        for other in 0..self.cores() {
            if other != core.0 {
                let maker = CoreId(other);
                if self.clock(maker).get() + self.delay(maker, CoreId(core.0)) <= moment.get() {
                    return true;
                }
            }
        }
        false
    }
}

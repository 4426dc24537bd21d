//! Turns that cores take in place, in the caller's thread.
ghost use Rattle.std.specs.Prelude.{◌≡◌, ℕ, ◌≤◌, ◌<◌, max, ◌⊎◌, false, [], slice_index, IfOk, OnOk, OnErr, IsTrue, IsFalse};
ghost use Rattle.mcs_stretch.specs.Inbox.{signals_between};
ghost use Rattle.mcs_window.specs.stored.Rounds.{AreReady};
ghost use Rattle.mcs_window.specs.stored.Slots.{HoldsAt};
ghost use Rattle.mcs_window.specs.Desk.{clock_of, past_of, MayGoOn, lent_to, settled_at, taken_at, with_lost, AllAreHere, IsFinished, WentByScripts, IsLater, IsSpent, amount_kept, turns_left};

use crate::calendar::Calendar;
use crate::desk::Desk;
use crate::turns::{Turns, spend};
use mcs_ticks::{Collector, CoreId, NoMemory, Tick};

impl<S: Collector> Desk<S> {
    /// Takes at least one turn of a core in place, until it reaches `past` or its collector has
    /// `share` more. Returns whether it made a signal for another core. If memory runs out the core
    /// is lost: it stays lent, and its rows that were not taken are gone.
    fn run_here(&mut self, core: CoreId, past: Tick, share: usize) -> Result<bool, NoMemory>
        requires may { MayGoOn self.old core past }
        ensures ok { OnOk result (self.new ≡ settled_at self.old core (clock_of self.new core)) }
        ensures moved { OnOk result ((clock_of self.old core < clock_of self.new core) × (clock_of self.new core ≤ past)) }
        ensures went { OnOk result (WentByScripts self.old self.new) }
        ensures fewer { OnOk result (turns_left self.new < turns_left self.old) }
        ensures err { OnErr result (self.new ≡ taken_at (with_lost (lent_to self.old core past)) core) }
        ensures silent { IfOk result (λ signals. IsFalse signals →
            signals_between self.old.system core (clock_of self.old core) (clock_of self.new core) ≡ []) }
        ensures run { (self.new.system ≡ self.old.system) × (self.new.horizon ≡ self.old.horizon) }
    {
        let index = core.0;
        let turns = Turns {
            system: &self.system,
            core,
            front: &self.clocks,
            past,
            most: self.told[index].size().saturating_add(share),
        };
        let slot = &mut self.slots[index];
        let told = &mut self.told[index];
        let signals = &mut self.signals;
        let Ok(to) = turns.take_and_deliver(slot, &mut self.boxes, told, signals) else {
            let (slot, mail) = (&mut self.slots[index], &mut self.boxes[index]);
            let told = &mut self.told[index];
            spend(past, &self.clocks, slot, mail, told, self.alloc);
            self.taken[index] = self.clocks[index];
            self.lost = true;
            return Err(NoMemory);
        };
        self.clocks[index] = to;
        Ok(!self.signals.is_empty())
    }

    /// Takes turns of a core as `run_here` does, and updates the calendar. The core has to be
    /// looked up again, and all cores if it made a signal.
    fn run_noted(
        &mut self,
        core: CoreId,
        past: Tick,
        share: usize,
        calendar: &mut Calendar,
    ) -> Result<(), NoMemory>
        requires may { MayGoOn self.old core past }
        requires here { AllAreHere self.old }
        requires holds { HoldsAt self.old calendar.old }
        ensures ok { OnOk result (self.new ≡ settled_at self.old core (clock_of self.new core)) }
        ensures went { OnOk result (WentByScripts self.old self.new) }
        ensures fewer { OnOk result (turns_left self.new < turns_left self.old) }
        ensures holds { OnOk result (HoldsAt self.new calendar.new) }
        ensures err { OnErr result (self.new ≡ taken_at (with_lost (lent_to self.old core past)) core) }
    {
        let _lost = self.lost;
        let signals = self.run_here(core, past, share)?;
        calendar.until[core.0] = Tick::ZERO;
        calendar.stale = calendar.stale || signals;
        Ok(())
    }

    /// Takes turns of a core if the calendar has it busy before it must wait for another one. It
    /// then runs as far as it may, so cores that others never signal do not wait for them. Returns
    /// whether it took turns.
    fn run_busy(
        &mut self,
        core: CoreId,
        share: usize,
        calendar: &mut Calendar,
    ) -> Result<bool, NoMemory>
        requires known { core < self.old.system.cores }
        requires ready { AreReady self.old calendar.old }
        ensures later { OnOk result (IsLater self.old self.new) }
        ensures holds { OnOk result (HoldsAt self.new calendar.new) }
        ensures same { IfOk result (λ moved. IsFalse moved → (self.new ≡ self.old) × (calendar.new ≡ calendar.old)) }
        ensures waits { IfOk result (λ moved. IsFalse moved →
            past_of self.old core ≤ max (clock_of self.old core) (slice_index calendar.old.until core)) }
        ensures fewer { IfOk result (λ moved. IsTrue moved → turns_left self.new < turns_left self.old) }
        ensures spent { OnErr result (IsSpent self.old self.new) }
    {
        let _lost = self.lost;
        if self.must_wait(core, calendar.until[core.0]) {
            return Ok(false);
        }
        let past = self.farthest(core);
        if self.clock(core) < past {
            self.run_noted(core, past, share, calendar)?;
            return Ok(true);
        }
        Ok(false)
    }

    /// Takes turns of each core that is busy before it must wait for another one. Returns whether
    /// some core took any.
    fn sweep(&mut self, share: usize, calendar: &mut Calendar) -> Result<bool, NoMemory>
        requires { AreReady self.old calendar.old }
        ensures later { OnOk result (IsLater self.old self.new) }
        ensures holds { OnOk result (HoldsAt self.new calendar.new) }
        ensures same { IfOk result (λ moved. IsFalse moved → (self.new ≡ self.old) × (calendar.new ≡ calendar.old)) }
        ensures waits { IfOk result (λ moved. IsFalse moved → (c : ℕ) → c < self.old.system.cores →
            past_of self.old c ≤ max (clock_of self.old c) (slice_index calendar.old.until c)) }
        ensures no_more { OnOk result (turns_left self.new ≤ turns_left self.old) }
        ensures fewer { IfOk result (λ moved. IsTrue moved → turns_left self.new < turns_left self.old) }
        ensures spent { OnErr result (IsSpent self.old self.new) }
    {
        let mut moved = false;
        for core in 0..self.cores() {
            let ran = self.run_busy(CoreId(core), share, calendar)?;
            moved = moved || ran;
        }
        Ok(moved)
    }

    /// Takes turns of the core that would be lent next. Returns whether there is one.
    fn run_first(&mut self, share: usize, calendar: &mut Calendar) -> Result<bool, NoMemory>
        requires { AreReady self.old calendar.old }
        ensures holds { OnOk result (HoldsAt self.new calendar.new) }
        ensures later { OnOk result (IsLater self.old self.new) }
        ensures more { IfOk result (λ more. IsTrue more → turns_left self.new < turns_left self.old) }
        ensures same { IfOk result (λ more. IsFalse more → self.new ≡ self.old) }
        ensures done { IfOk result (λ more. IsFalse more → IsFinished self.new) }
        ensures spent { OnErr result (IsSpent self.old self.new) }
    {
        let Some(core) = self.choice() else {
            self.none_waits();
            return Ok(false);
        };
        let past = self.farthest(core);
        self.run_noted(core, past, share, calendar)?;
        Ok(true)
    }

    /// Skips idle time, and then takes turns of the cores that the calendar has busy. Returns
    /// whether there were turns to take.
    fn round(&mut self, share: usize, calendar: &mut Calendar) -> Result<bool, NoMemory>
        requires { AreReady self.old calendar.old }
        ensures holds { OnOk result (HoldsAt self.new calendar.new) }
        ensures later { OnOk result (IsLater self.old self.new) }
        ensures more { IfOk result (λ more. IsTrue more → turns_left self.new < turns_left self.old) }
        ensures done { IfOk result (λ more. IsFalse more → IsFinished self.new) }
        ensures spent { OnErr result (IsSpent self.old self.new) }
    {
        let moment = self.look_ahead(calendar);
        self.skip_to(moment);
        let moved = self.sweep(share, calendar)?;
        if moved {
            return Ok(true);
        }
        let more = self.run_first(share, calendar)?;
        Ok(more)
    }

    /// The amount that each core may add in a round if `enough` is wanted in all. All cores advance
    /// side by side, so their rows are used while they are in the cache.
    fn share(&self, enough: usize) -> usize {
        enough.saturating_sub(self.kept()) / self.cores().max(1)
    }

    /// Takes turns in the caller's thread until the desk holds at least `enough`, as `kept` counts
    /// it, or every core has taken its turn at the horizon. Unless all have, it takes at least one
    /// turn or skips idle time, even if the desk holds enough already.
    ///
    /// After `NoMemory` one core is lost: it stays lent for good, its rows that were not taken are
    /// gone, and no core is lent from then on. No other core is lent.
    pub fn go(&mut self, enough: usize) -> Result<(), NoMemory>
        requires sound { self.old.lost ≡ false }
        requires here { AllAreHere self.old }
        ensures later { OnOk result (IsLater self.old self.new) }
        ensures fewer { OnOk result (IsFinished self.new ⊎ (turns_left self.new < turns_left self.old)) }
        ensures enough { OnOk result (IsFinished self.new ⊎ (enough ≤ amount_kept S.amount self.new)) }
        ensures spent { OnErr result (IsSpent self.old self.new) }
        ensures run { (self.new.system ≡ self.old.system) × (self.new.horizon ≡ self.old.horizon) }
    {
        let share = self.share(enough);
        let mut calendar = Calendar::new();
        'rounds: while self.round(share, &mut calendar)? {
            if self.kept() >= enough {
                return Ok(());
            }
        }
        Ok(())
    }
}

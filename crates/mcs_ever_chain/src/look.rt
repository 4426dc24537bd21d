//! A chain on a set of cores that recurs, and the moments at which its origins are compared.
ghost use Rattle.std.specs.Prelude.{◌≡◌, ◌≤◌, ◌<◌, ◌+◌, ◌-◌, ◌⊎◌, ℕ, true, false, if◌then◌else◌, length, None, slice_get, Some, IsTrue, IfOk, OnOk, IfSome};
ghost use Rattle.mcs_system.specs.System.{System as TheSystem};
ghost use Rattle.mcs_system.specs.declared.part.ChainPart.{ChainPart as TheChain};
ghost use Rattle.mcs_ever_told.specs.declared.line.Often.TheVariants.{Forever};
ghost use Rattle.mcs_ever_search.specs.Together.{rows_at, rows_before};
ghost use Rattle.mcs_origins.specs.Later.{later_origins};
ghost use Rattle.mcs_ever.specs.Closed.{has};
ghost use Rattle.mcs_ever_chain.specs.Told.{IsToldOfChain, left_for};
ghost use Rattle.mcs_ever_chain.specs.stored.Looks.{IsFound, IsHome, IsLook, IsNow, IsPair, IsResult};
ghost use Rattle.mcs_ever_chain.specs.stored.Alone.{AreAlone};
ghost use Rattle.mcs_ever_chain.specs.stored.Runs.{IsRun, left_at};

use crate::alone::stand_alone;
use crate::home::Home;
use crate::laws::{
    answers_are_added, greatest_is_forever, interrupts_are_added, none_is_left, none_is_longer,
    none_is_slow, slow_are_added,
};
use crate::often::{Counts, are_whole, often};
use crate::run::Run;
use crate::told::ChainTold;
use mcs_chain::{ChainId, Finding, State};
use mcs_ever::{CoreSet, turns_repeat};
use mcs_ever_told::{Often, Period};
use mcs_system::System;
use mcs_ticks::{NoMemory, Row, Tick};
use std::alloc::Global;

/// How many moments are compared at most while nothing happens: the first two, since all later ones
/// are like the second, and then the last one, with which the next one after is compared.
const LOOKS: usize = 3;

/// A chain at one moment.
#[derive(Drop)]
struct Kept {
    at: Tick,
    state: State,
    counts: Counts,
}

/// A chain whose answers may recur.
#[derive(Drop)]
pub(crate) struct Look {
    pub(crate) chain: ChainId,
    home: Home,
    /// The next moment at which the chain is compared with the kept one.
    next: u64,
    kept: Option<Kept>,
    /// Whether each turn of the cores since the kept moment stands alone.
    alone: bool,
    /// Whether a deadline had passed without an answer at some moment so far, or there is none.
    late: bool,
}

/// Whether each turn still stands alone, after those of one moment with these rows.
fn still_alone(alone: bool, set: &CoreSet, rows: &[Row]) -> bool
    ensures { IsTrue result → (alone ≡ true) × AreAlone (has set.now) None rows.now }
{
    alone && stand_alone(set, rows)
}

/// The number of first periods after each of which a chain is compared. Later it is compared at two
/// moments a period apart, and again after twice the time: its state grows with the interrupts that
/// have no answer.
const OFTEN: u64 = 64;

/// The moment at which the chain is compared next; none if it was found to recur. `first` is the
/// first one.
fn next_mark(found: &Option<ChainTold>, at: Tick, first: u64, ticks: u64) -> u64 {
    if found.is_some() {
        return u64::MAX;
    }
    if ticks == 0 {
        return at.get();
    }
    let periods = at.get().saturating_sub(first) / ticks;
    if periods < OFTEN || periods % 2 == 0 {
        return at.get().saturating_add(ticks);
    }
    let twice = periods.saturating_sub(1).saturating_mul(2);
    first.saturating_add(twice.saturating_mul(ticks))
}

impl Look {
    /// Returns the look at a chain before the first row.
    pub(crate) fn new(chain: ChainId, home: Home) -> Self
        ensures { (system : TheSystem) (part : TheChain) → slice_get system.chains chain ≡ Some part → IsHome system part home → IsLook system 0 0 result }
    {
        let next = home.first_mark();
        Look {
            chain,
            home,
            next,
            kept: None,
            alone: true,
            late: false,
        }
    }

    /// Takes the rows of the turns of one moment.
    pub(crate) fn see(&mut self, rows: &[Row])
        ensures { (system : TheSystem) (t : ℕ) → rows.now ≡ rows_at system t → IsLook system t t self.old → IsLook system (t + 1) t self.new }
    {
        self.alone = still_alone(self.alone, &self.home.set, rows);
    }

    /// The next moment at which the chain is compared, if it is one of these.
    fn mark_between(&self, from: Tick, to: Tick) -> Option<Tick>
        ensures { IfSome result (λ at. (from ≤ at) × (at ≤ to)) }
    {
        if self.next < from.get() || to.get() < self.next {
            return None;
        }
        Some(Tick::at(self.next))
    }

    /// Whether a deadline had passed without an answer at some moment before this one, or the chain
    /// has no deadline: then its origins need not be looked at.
    fn is_late(&self, system: &System, run: &Run) -> bool
        requires watch { self.now.chain < length run.now.watch.each }
        requires known { self.now.chain < length system.now.chains }
        ensures { (part : TheChain) → IsRun system.now run.now → slice_get system.now.chains self.now.chain ≡ Some part → result ≡ false →
            (self.now.late ≡ false) × (left_at system.now part run.now.lockstep.clock (run.now.lockstep.clock - 1) ≡ None) }
    {
        let deadline = system.parts().chains.as_slice()[self.chain.0].deadline;
        self.late || deadline == 0 || run.unanswered(system, self.chain).is_some()
    }

    /// Passes to the last of the moments at which the chain is compared, up to this one.
    fn go_to_last(&mut self, to: Tick)
        ensures { self.new ≡ record self.old { next = self.new.next } }
    {
        let ticks = self.home.period.ticks;
        if self.next <= to.get() && ticks != 0 {
            let periods = (to.get() - self.next) / ticks;
            self.next = self.next.saturating_add(periods.saturating_mul(ticks));
        }
    }

    /// Looks at the chain at each moment since the latest turns and up to the next ones. Returns
    /// the result if its answers recur.
    pub(crate) fn go_on(
        &mut self,
        alloc: Global,
        system: &System,
        run: &Run,
        from: Tick,
    ) -> Result<Option<ChainTold>, NoMemory>
        requires run { IsRun system.now run.now }
        requires look { IsLook system.now from (from - 1) self.old }
        requires later { from ≤ run.now.lockstep.clock }
        requires no_rows { rows_before system.now run.now.lockstep.clock ≡ rows_before system.now from }
        ensures look { OnOk result (IsLook system.now run.now.lockstep.clock run.now.lockstep.clock self.new) }
        ensures told { (horizon : ℕ) → IfOk result (λ told. IfSome told (IsToldOfChain system.now horizon)) }
    {
        let _parts = system.parts();
        self.late = self.is_late(system, run);
        for look in 0..LOOKS {
            if look + 1 == LOOKS {
                self.go_to_last(run.clock());
            }
            let Some(at) = self.mark_between(from, run.clock()) else {
                return Ok(None);
            };
            let found = self.compare(alloc, system, run, at)?;
            if found.is_some() {
                return Ok(found);
            }
        }
        Ok(None)
    }

    /// Compares the chain at this moment with the kept one, and keeps it unless it recurs.
    fn compare(
        &mut self,
        alloc: Global,
        system: &System,
        run: &Run,
        at: Tick,
    ) -> Result<Option<ChainTold>, NoMemory>
        requires run { IsRun system.now run.now }
        requires look { IsLook system.now run.now.lockstep.clock run.now.lockstep.clock self.old }
        requires past { at ≤ run.now.lockstep.clock }
        requires no_rows { rows_before system.now run.now.lockstep.clock ≡ rows_before system.now at }
        ensures look { OnOk result (IsLook system.now run.now.lockstep.clock run.now.lockstep.clock self.new) }
        ensures told { (horizon : ℕ) → IfOk result (λ told. IfSome told (IsToldOfChain system.now horizon)) }
    {
        let _parts = system.parts();
        let ticks = self.home.period.ticks;
        if at.get() < self.home.floor {
            self.next = at.get().saturating_add(ticks);
            return Ok(None);
        }
        let now = Kept {
            at,
            state: run.state(alloc, self.chain)?,
            counts: run.counts(self.chain),
        };
        let found = self.told_now(alloc, system, &now)?;
        self.next = next_mark(&found, at, self.home.first_mark(), ticks);
        self.kept = Some(now);
        self.alone = true;
        Ok(found)
    }

    /// The result, if the chain recurs from the kept moment on up to now.
    fn told_now(
        &self,
        alloc: Global,
        system: &System,
        now: &Kept,
    ) -> Result<Option<ChainTold>, NoMemory>
        requires { IsNow system.now self.now now.now }
        ensures { (horizon : ℕ) → IfOk result (λ told. IfSome told (IsToldOfChain system.now horizon)) }
    {
        match &self.kept {
            Some(kept) if self.alone => self.told_since(alloc, system, kept, now),
            _ => Ok(None),
        }
    }

    /// The result, if the chain recurs between the two moments.
    fn told_since(
        &self,
        alloc: Global,
        system: &System,
        kept: &Kept,
        now: &Kept,
    ) -> Result<Option<ChainTold>, NoMemory>
        requires { IsPair system.now self.now kept.now now.now }
        ensures { (horizon : ℕ) → IfOk result (λ told. IfSome told (IsToldOfChain system.now horizon)) }
    {
        let ticks = self.home.period.ticks;
        if kept.at.get().saturating_add(ticks) != now.at.get() {
            return Ok(None);
        }
        let parts = system.parts();
        let set = &self.home.set;
        if !now.state.is_later(alloc, parts, set, &kept.state, ticks)? {
            return Ok(None);
        }
        if !are_whole(&kept.counts, &now.counts) {
            return Ok(None);
        }
        Ok(Some(self.told(system, kept, now)))
    }

    /// Whether the chain has no deadline, or each of its interrupts has an answer in time, for
    /// ever, if it recurs between the two moments.
    fn is_in_time(&self, system: &System, kept: &Kept, now: &Kept) -> bool
        requires { self.now.chain < length system.now.chains }
        ensures { (part : TheChain) → slice_get system.now.chains self.now.chain ≡ Some part → IsTrue result →
            (part.deadline ≡ 0) ⊎ ((self.now.late ≡ false)
            × (now.now.state.origins.unanswered ≡ later_origins self.now.home.period.ticks kept.now.state.origins.unanswered)) }
    {
        let ticks = self.home.period.ticks;
        let deadline = system.parts().chains.as_slice()[self.chain.0].deadline;
        deadline == 0 || (!self.late && now.state.left_is_later(&kept.state, ticks))
    }

    /// The result of a chain that recurs between the two moments.
    fn told(&self, system: &System, kept: &Kept, now: &Kept) -> ChainTold
        requires { IsFound system.now self.now kept.now now.now }
        ensures { (horizon : ℕ) → IsToldOfChain system.now horizon result }
    {
        let _parts = system.parts();
        turns_repeat();
        answers_are_added();
        slow_are_added();
        interrupts_are_added();
        greatest_is_forever();
        none_is_longer();
        none_is_left();
        none_is_slow();
        let ticks = self.home.period.ticks;
        let (before, after) = (kept.counts, now.counts);
        let in_time = self.is_in_time(system, kept, now);
        ChainTold {
            chain: self.chain,
            period: Some(Period {
                from: kept.at,
                ticks,
            }),
            greatest: after.greatest,
            answers: often(before.answers, after.answers),
            slow: often(before.slow, after.slow),
            unanswered: left_unless(in_time, &before, &after),
        }
    }
}

/// How many interrupts have no answer, unless each has one in time.
fn left_unless(in_time: bool, before: &Counts, after: &Counts) -> Option<Often>
    ensures { result ≡ (if in_time then None else Some (Forever (before.now.interrupts - before.now.answers)
        ((after.now.interrupts - after.now.answers) - (before.now.interrupts - before.now.answers)))) }
{
    if in_time {
        return None;
    }
    Some(often(before.left(), after.left()))
}

/// How many interrupts have no answer, if a deadline has passed without one.
fn left_so_far(found: &Option<Finding>, counts: &Counts) -> Option<Often>
    ensures { result ≡ left_for found.now (counts.now.interrupts - counts.now.answers) }
{
    match found {
        Some(_) => Some(Often::SoFar {
            times: counts.left(),
        }),
        None => None,
    }
}

/// The result of a chain that was not found to recur, at the moment after the horizon.
pub(crate) fn told_so_far(system: &System, run: &Run, chain: ChainId) -> ChainTold
    requires run { IsRun system.now run.now }
    requires known { chain < length system.now.chains }
    ensures { (horizon : ℕ) → run.now.lockstep.clock ≡ horizon + 1 → IsResult system.now horizon chain result }
{
    let counts = run.counts(chain);
    let left = left_so_far(&run.unanswered(system, chain), &counts);
    ChainTold {
        chain,
        period: None,
        greatest: counts.greatest,
        answers: Often::SoFar {
            times: counts.answers,
        },
        slow: Often::SoFar { times: counts.slow },
        unanswered: left,
    }
}

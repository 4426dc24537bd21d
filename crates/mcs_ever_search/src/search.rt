ghost use Rattle.std.specs.Prelude.{◌≡◌, ◌≤◌, ◌^◌, ◌+◌, ◌++◌, true, false, IfOk, IfSome, OnOk, OnErr, IsTrue, ◌↔◌};
ghost use Rattle.std.specs.Arc.{arc_value};
ghost use Rattle.mcs_window.specs.Idle.{IsIdleUntil};
ghost use Rattle.mcs_ever_search.specs.Together.{clocks_at, rows_at, rows_before};
ghost use Rattle.mcs_ever.specs.Recurs.{IsClosed};
ghost use Rattle.mcs_ever.specs.Closed.{has};
ghost use Rattle.mcs_ever_found.specs.Recurs.{past_before, watch_before};
ghost use Rattle.mcs_ever_again.specs.Period.{told_between};
ghost use Rattle.mcs_ever_found.specs.Doings.{doings_of};
ghost use Rattle.mcs_ever_found.specs.Course.{course_of};
ghost use Rattle.mcs_ever_search.specs.Compared.{opening, at_moment, with_kept, with_failed, OrdersComeBefore, RecursSince};
ghost use Rattle.mcs_ever_search.specs.Sampling.{IsAtRest};

use crate::alike::may_stand_again;
use crate::beats::{beats_for_ever, may_beat_again};
use crate::kept::Kept;
use crate::lockstep::Lockstep;
use crate::orders::orders_end;
use crate::rest::are_idle;
use crate::seen::Seen;
use crate::snapshot::present;
use mcs_ever::CoreSet;
use mcs_ever_again::{Shifts, rows_tell_turns, under_way_is_told};
use mcs_ever_found::{Course, Doings};
use mcs_system::System;
use mcs_ticks::{CoreId, NoMemory, Row, ThreadId, Tick};
use mcs_verdict::Watch;
use mcs_verdict_laws::schedules_are_in_order;
use std::alloc::Global;
use std::marker::Model;
use std::sync::Arc;

/// All cores of a system before one moment, compared with their state before one kept moment.
#[derive(Drop)]
pub struct Search {
    system: Arc<System>,
    lockstep: Lockstep,
    seen: Seen,
    kept: Kept,
    orders_end: u64,
    /// Whether some source has no end.
    driven: bool,
    horizon: Tick,
    clock: Tick,
    failed: bool,
}

fn is_at_most(a: u64, b: u64) -> bool
    ensures { IsTrue result ↔ (a ≤ b) }
{
    a <= b
}

impl Model for Search {
    ghost use Rattle.mcs_ever_search.specs.Compared.{Compared};

    ghost Value = { Compared };

    ghost use Rattle.mcs_ever_search.specs.stored.Kept.{IsKept, compared_of};

    ghost view = { compared_of };

    ghost invariant = { IsKept };
}

impl Search {
    /// Returns the search before time 0, which is the kept moment, for a run up to this horizon, at
    /// most 2^40. Fails only if memory runs out.
    pub fn new(alloc: Global, system: Arc<System>, horizon: Tick) -> Result<Search, NoMemory>
        requires { horizon ≤ 2 ^ 40 }
        ensures { IfOk result (λ made. made ≡ opening (arc_value system) horizon) }
    {
        let shared = Arc::try_clone(&system)?;
        let lockstep = Lockstep::new(alloc, shared, horizon)?;
        let seen = Seen::new(alloc, &system)?;
        let kept = Kept::new(alloc, &system, &lockstep, &seen)?;
        let orders_end = orders_end(system.parts());
        let driven = beats_for_ever(system.parts());
        Ok(Search {
            system,
            lockstep,
            seen,
            kept,
            orders_end,
            driven,
            horizon,
            clock: Tick::ZERO,
            failed: false,
        })
    }

    /// The time of the next turn of all cores.
    pub fn clock(&self) -> Tick
        ensures value { result ≡ self.now.clock }
        ensures in_time { result ≤ self.now.horizon + 1 }
    {
        self.clock
    }

    /// The moment with which this one is compared.
    pub fn kept(&self) -> Tick
        ensures value { result ≡ self.now.kept }
        ensures in_order { result ≤ self.now.clock }
    {
        self.kept.snapshot.moment()
    }

    /// Whether a turn ran out of memory; then each later call that may return `NoMemory` does.
    pub fn failed(&self) -> bool
        ensures { result ≡ self.now.failed }
    {
        self.failed
    }

    /// Whether all orders of the system come before this moment.
    pub fn orders_are_over(&self) -> bool
        ensures { IsTrue result ↔ OrdersComeBefore self.now.system self.now.clock }
    {
        is_at_most(self.orders_end, self.clock.get())
    }

    /// Whether no core does more than count a tick from this moment on, and no signal is under way.
    /// Allocates no memory.
    pub fn is_at_rest(&mut self, alloc: Global) -> bool
        requires { self.old.failed ≡ false }
        ensures rest { IsTrue result → IsAtRest self.old.system self.old.clock }
        ensures same { self.new ≡ self.old }
    {
        if self.driven || self.lockstep.idle_until().get() <= self.horizon.get() {
            return false;
        }
        under_way_is_told();
        if !self.seen.under_way.is_empty() {
            return false;
        }
        self.lockstep.settle();
        are_idle(alloc, &self.system, &self.lockstep)
    }

    /// Whether a thread of this core stands as before the kept moment, at the same item. If not, no
    /// group with the core need be compared at this moment. Allocates no memory.
    pub fn stands_again(&self, core: CoreId, thread: ThreadId) -> bool {
        !self.failed
            && self
                .kept
                .stances
                .is_same(&self.system, &self.lockstep, core, thread)
    }

    /// Prepares a comparison of this moment with the kept one. Allocates no memory.
    pub fn settle(&mut self)
        ensures { self.new ≡ self.old }
    {
        if !self.failed {
            self.lockstep.settle();
        }
    }

    /// The watch of all rows before this moment.
    pub fn watch(&self) -> &Watch
        requires { self.now.failed ≡ false }
        ensures { result.now ≡ watch_before self.now.system self.now.clock }
    {
        &self.seen.watch
    }

    /// The watch of all rows before the kept moment.
    pub fn kept_watch(&self) -> &Watch
        ensures { result.now ≡ watch_before self.now.system self.now.kept }
    {
        &self.kept.watch
    }

    /// The doings of the rows from the kept moment on, up to this one.
    pub fn doings(&self) -> &Doings
        requires { self.now.failed ≡ false }
        ensures { result.now ≡ doings_of self.now.system (told_between self.now.system self.now.kept self.now.clock) }
    {
        &self.seen.doings
    }

    /// The counts of all rows before this moment.
    pub fn course(&self) -> &Course
        requires { self.now.failed ≡ false }
        ensures { result.now ≡ course_of self.now.system (past_before self.now.system self.now.clock) }
    {
        &self.seen.course
    }

    /// The counts of all rows before the kept moment.
    pub fn kept_course(&self) -> &Course
        ensures { result.now ≡ course_of self.now.system (past_before self.now.system self.now.kept) }
    {
        &self.kept.course
    }

    /// Moves all cores to the end of idle time and returns it: the first moment from now on at
    /// which some core does more than count a tick, at most one past the horizon. The schedule has
    /// no row meanwhile. Allocates no memory. Fails only if a turn ran out of memory before;
    /// nothing changes then.
    pub fn skip(&mut self) -> Result<Tick, NoMemory>
        ensures going { OnOk result (self.old.failed ≡ false) }
        ensures moment { IfOk result
            (IsIdleUntil self.old.system (clocks_at self.old.system self.old.clock) (self.old.horizon + 1)) }
        ensures later { IfOk result (λ moment. self.old.clock ≤ moment) }
        ensures compared { IfOk result (λ moment. self.new ≡ at_moment self.old moment) }
        ensures no_rows { IfOk result (λ moment.
            rows_before self.old.system moment ≡ rows_before self.old.system self.old.clock) }
        ensures err { OnErr result ((self.old.failed ≡ true) × (self.new ≡ self.old)) }
    {
        if self.failed {
            return Err(NoMemory);
        }
        rows_tell_turns();
        let moment = self.lockstep.skip()?;
        self.seen.go_to(moment);
        self.clock = moment;
        Ok(moment)
    }

    /// Takes the turns of all cores at this moment, in rising order, and moves on to the next one.
    /// Appends the rows of these turns, which are those of the schedule at this moment. If memory
    /// runs out, no row is appended, and each later call fails, too.
    pub fn turn(&mut self, rows: &mut Vec<Row>) -> Result<(), NoMemory>
        requires { self.old.clock ≤ self.old.horizon }
        ensures going { OnOk result (self.old.failed ≡ false) }
        ensures compared { OnOk result (self.new ≡ at_moment self.old (self.old.clock + 1)) }
        ensures rows { OnOk result (rows.new.items ≡ rows.old.items ++ rows_at self.old.system self.old.clock) }
        ensures schedule { OnOk result (rows_before self.old.system (self.old.clock + 1)
            ≡ rows_before self.old.system self.old.clock ++ rows_at self.old.system self.old.clock) }
        ensures err { OnErr result (self.new ≡ with_failed self.old) }
        ensures refused { OnErr result (rows.new.items ≡ rows.old.items) }
    {
        if self.failed {
            return Err(NoMemory);
        }
        rows_tell_turns();
        schedules_are_in_order();
        self.failed = true;
        let start = rows.len();
        self.lockstep.turn(rows)?;
        self.seen.see_from(&self.system, rows, start)?;
        self.clock = self.clock.plus(1).unwrap();
        self.seen.go_to(self.clock);
        self.failed = false;
        Ok(())
    }

    /// Keeps this moment: later ones are compared with it. Fails only if memory runs out, or ran
    /// out in a turn before; the kept moment is then unchanged.
    pub fn keep(&mut self, alloc: Global) -> Result<(), NoMemory>
        ensures going { OnOk result (self.old.failed ≡ false) }
        ensures kept { OnOk result (self.new ≡ with_kept self.old) }
        ensures err { OnErr result (self.new ≡ self.old) }
    {
        if self.failed {
            return Err(NoMemory);
        }
        under_way_is_told();
        self.lockstep.settle();
        let kept = Kept::new(alloc, &self.system, &self.lockstep, &self.seen)?;
        self.kept = kept;
        self.seen.clear();
        Ok(())
    }

    /// Returns by how much a group of cores is later than before the kept moment, if this holds:
    /// - the kept moment is later than all orders;
    /// - the group's cores, the signals under way to them and their sources' next dates are those
    ///   before the kept moment, but later;
    /// - each date that was compared with the current time meanwhile is later by the whole period.
    ///
    /// If no core outside the group signals one in it, it then recurs, for ever. `None` says
    /// nothing: the group may recur by other moments, or no comparison was prepared (`settle`).
    /// Allocates no memory if another thread runs, a thread is at another item, or the first signal
    /// under way is another one. Fails only if memory runs out, or ran out in a turn before.
    pub fn recurs(&self, alloc: Global, group: &CoreSet) -> Result<Option<Shifts>, NoMemory>
        ensures going { OnOk result (self.now.failed ≡ false) }
        ensures recurs { IsClosed self.now.system (has group.now) →
            IfOk result (λ found. IfSome found (λ shifts. RecursSince self.now group.now shifts)) }
    {
        if self.failed {
            return Err(NoMemory);
        }
        let system: &System = &self.system;
        let earlier = &self.kept.snapshot;
        if !self.lockstep.settled() || earlier.moment().get() < self.orders_end {
            return Ok(None);
        }
        if !may_stand_again(system, &self.lockstep, earlier.cores(), group) {
            return Ok(None);
        }
        let by = self.clock.get().saturating_sub(earlier.moment().get());
        if !self
            .seen
            .under_way
            .may_be_later(system, group, by, earlier.under_way())
        {
            return Ok(None);
        }
        if !self
            .kept
            .gaps
            .are_same(alloc, system, &self.lockstep, group)
        {
            return Ok(None);
        }
        if !may_beat_again(system, group, by) {
            return Ok(None);
        }
        if !self
            .kept
            .heads
            .are_again(system, &self.lockstep, group, &self.seen.marks, by)
        {
            return Ok(None);
        }
        under_way_is_told();
        let later = present(alloc, system, &self.lockstep, &self.seen.under_way)?;
        let found = Shifts::between(alloc, system, group, earlier, &later, &self.seen.marks)?;
        Ok(found)
    }
}

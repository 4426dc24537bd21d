//! Worker threads that share one desk, and the rule for the length of their pieces.
ghost use Rattle.std.specs.Prelude.{◌≡◌, ◌≤◌, ◌^◌, false, IfOk};
ghost use Rattle.std.specs.Arc.{arc_value};
ghost use Rattle.mcs_window.specs.Desk.{opening_table, AllAreHere};

use crate::Gate;
use crate::run::Run;
use crate::shared_desk::{Brim, SharedDesk};
use crate::telling::{Errand, Telling, Tellings, Told, Untold};
use mcs_system::System;
use mcs_ticks::{Collector, NoMemory, Nothing, Tick};
use mcs_window::Desk;
use std::alloc::Global;
use std::sync::{Arc, Condvar, Mutex, Wait};
use std::thread;
use std::thread::{Parker, Threads};
use std::time::Duration;

/// Longest sleep of the caller's thread between two looks for rows, in milliseconds.
const NAP: u64 = 1;

/// The state that the threads of a run share.
#[derive(Drop)]
pub(crate) struct Team<B: Run, S: Collector + Drop> {
    desk: Mutex<SharedDesk<B, S>>,
    workers: usize,
    alloc: Global,
    /// Signalled when a further piece may be available, and at the end.
    free: Condvar,
    /// Wakes the caller's thread when it is time to take rows.
    due: Parker,
}

impl<B: Run, S: Collector + Drop> Team<B, S> {
    /// Returns a team of `workers` threads for this desk. No thread has begun yet.
    pub(crate) fn new(
        alloc: Global,
        desk: Desk<Nothing>,
        tellings: Tellings<B, S>,
        workers: usize,
        brim: Brim,
    ) -> Team<B, S>
        requires { (desk.system ≡ B.system) × (desk.horizon ≡ B.horizon) }
    {
        Team {
            desk: Mutex::new(SharedDesk::<B, S>::new(desk, tellings, workers, brim)),
            workers,
            alloc,
            free: Condvar::new(),
            due: Parker::new(),
        }
    }

    /// Waits until it may be time to take rows. If no thread has begun to work, this one runs a
    /// piece.
    pub(crate) fn wait<R: Wait, G: Gate>(&self, rt: &R, gate: &G) {
        let mut guard = self.desk.lock(rt);
        if guard.has_begun() {
            let is_due = guard.is_due();
            drop(guard);
            if !is_due {
                self.due.park_timeout(rt, Duration::from_millis(NAP));
            }
            return;
        }
        let errand = guard.lend();
        drop(guard);
        if let Some(errand) = errand {
            let ran = errand.run(gate);
            self.desk.lock(rt).settle(ran);
            self.free.notify_all();
        }
    }

    /// Appends what each core has recorded to `told`, as far as its capacity allows, and leaves an
    /// empty collector from `rooms` for each. Returns whether no further piece will be available.
    pub(crate) fn take_out<R: Wait>(
        &self,
        rt: &R,
        rooms: &mut Vec<S>,
        told: &mut Vec<Telling<B, S>>,
    ) -> bool {
        let mut guard = self.desk.lock(rt);
        let was_full = guard.is_full();
        guard.exchange(rooms, told);
        let is_over = guard.is_over();
        drop(guard);
        if was_full {
            self.free.notify_all();
        }
        is_over
    }

    /// Ends the work of all threads.
    pub(crate) fn end<R: Wait>(&self, rt: &R) {
        self.desk.lock(rt).close();
        self.free.notify_all();
    }

    /// Returns the desk and the rows of its cores, once all threads have ended. On that desk no
    /// piece is lent or lost.
    ///
    /// Errors: `NoMemory` if memory ran out, `Odd` if a piece is missing or the team was closed
    /// early.
    pub(crate) fn into_parts(self) -> Result<(Desk<Nothing>, Tellings<B, S>), Untold>
        ensures run { IfOk result (λ parts. (parts.0.system ≡ B.system) × (parts.0.horizon ≡ B.horizon)) }
        ensures whole { IfOk result (λ parts. (parts.0.lost ≡ false) × AllAreHere parts.0) }
    {
        self.desk.into_inner().into_parts()
    }
}

/// Returns a desk with all cores at time 0 that keeps no rows.
pub(crate) fn silent_desk(
    alloc: Global,
    system: Arc<System>,
    horizon: Tick,
) -> Result<Desk<Nothing>, NoMemory>
    requires { horizon ≤ 2 ^ 40 }
    ensures { IfOk result (λ desk. desk ≡ opening_table (arc_value system) horizon) }
{
    let told = vec![in alloc; Nothing; system.parts().cores]?;
    Desk::opened(alloc, system, horizon, told)
}

/// Runs pieces one after another and returns the results. If memory for the list runs out, it
/// returns those so far.
fn run_all<B: Run, S: Collector + Drop, G: Gate>(
    alloc: Global,
    errands: Vec<Errand<B, S>>,
    gate: &G,
) -> Vec<Result<Told<B, S>, Untold>> {
    let mut ran = Vec::new(alloc);
    for errand in errands {
        let told = errand.run(gate);
        if ran.push(told).is_err() {
            return ran;
        }
    }
    ran
}

/// Takes and runs pieces until no further piece will be available.
///
/// A worker that takes pieces wakes another one only if a further piece is available and a thread
/// waits for it. If `tells` is set, the gate is called with the progress of the run.
fn work<B: Run, S: Collector + Drop, R: Wait, G: Gate>(
    rt: &R,
    team: &Team<B, S>,
    gate: &G,
    tells: bool,
) {
    let mut guard = team.desk.lock(rt);
    guard.begin();
    for _ in rt.forever() {
        let errands = guard.lend_some(team.alloc);
        let many = errands.len();
        if many == 0 {
            if guard.is_over() {
                team.due.unpark();
                team.free.notify_all();
                return;
            }
            guard.rest();
            guard = team.free.wait(rt, guard);
            guard.wake();
            continue;
        }
        let more = guard.can_lend();
        let reached = if tells { Some(guard.reached()) } else { None };
        drop(guard);
        if more {
            team.free.notify_one();
        }
        if let Some(moment) = reached {
            gate.reached(moment);
        }
        let ran = run_all(team.alloc, errands, gate);
        guard = team.desk.lock(rt);
        guard.settle_all(many, ran);
        if guard.is_due() {
            team.due.unpark();
        }
    }
}

/// Runs the team on new threads and this one, and waits until all have ended. A thread that can't
/// be started is left out. If `is_callers` is set, this thread reports progress to the gate.
pub(crate) fn crew<
    B: Run + Send + Sync,
    S: Collector + Drop + Send,
    R: Threads + Wait + Sync,
    G: Gate + Sync,
>(rt: &R, team: &Team<B, S>, gate: &G, is_callers: bool) {
    thread::scope(thread::scope_env(), rt, |scope| {
        for _ in 1..team.workers {
            let _started = scope.spawn(move || work(rt, team, gate, false)).is_ok();
        }
        work(rt, team, gate, is_callers);
    });
}

/// Rows above which a piece was too long.
const MANY: usize = 1024;

/// Rows below which a piece was short.
const FEW: usize = 256;

/// Span of the first pieces, in ticks.
const FIRST: u64 = 512;

/// Longest span of a piece, in ticks: longer than any run.
const LONGEST: u64 = 1 << 41;

/// Pieces after which the team checks whether pieces are worth their cost.
const PIECES: usize = 1024;

/// Rows that `PIECES` pieces must return, 128 each. If they return fewer, it may cost less to run
/// the turns than to lend them.
const ROWS: usize = 128 * PIECES;

/// The longest span for which a piece is lent, set by the rows of earlier pieces, and whether
/// pieces are still worth their cost.
#[derive(Drop)]
pub(crate) struct Pace {
    span: u64,
    /// Pieces that returned since the span was last reconsidered, and the maximum rows of one
    /// piece.
    tried: usize,
    most: usize,
    /// Since the last check of the cost: pieces lent, pieces returned, and rows of the returned
    /// ones.
    lent: usize,
    back: usize,
    rows: usize,
    /// Whether pieces were not worth their cost.
    over: bool,
}

impl Pace {
    pub(crate) fn new() -> Pace {
        Pace {
            span: FIRST,
            tried: 0,
            most: 0,
            lent: 0,
            back: 0,
            rows: 0,
            over: false,
        }
    }

    /// The longest span of a piece, in ticks. At least 1.
    pub(crate) fn span(&self) -> u64
        ensures { 1 ≤ result }
    {
        self.span.max(1)
    }

    /// Whether a piece has returned since the last check of the cost.
    pub(crate) fn is_known(&self) -> bool {
        self.back > 0
    }

    pub(crate) fn is_over(&self) -> bool {
        self.over
    }

    /// Counts a lent piece. Every `PIECES` pieces it checks whether they returned `ROWS` rows, and
    /// starts to count again.
    pub(crate) fn lend(&mut self) {
        self.lent = self.lent.saturating_add(1);
        if self.lent >= PIECES {
            self.over = self.rows < ROWS;
            self.lent = 0;
            self.back = 0;
            self.rows = 0;
        }
    }

    /// Counts a returned piece of `moments` ticks with `rows` rows, and adapts the span.
    ///
    /// A piece with more than `MANY` rows shortens the span at once. When `cores` pieces have
    /// returned without one that was too long, the span may grow.
    pub(crate) fn settle(&mut self, moments: u64, rows: usize, cores: usize) {
        self.back = self.back.saturating_add(1);
        self.rows = self.rows.saturating_add(rows);
        self.tried = self.tried.saturating_add(1);
        self.most = self.most.max(rows);
        if rows > MANY {
            self.shorten(moments, rows);
        } else if self.tried >= cores {
            self.lengthen();
        }
    }

    /// Shortens the span after a piece of `moments` ticks with too many rows. If the next piece is
    /// as dense, it has about half of `MANY` rows.
    fn shorten(&mut self, moments: u64, rows: usize) {
        let times = (rows / (MANY / 2)) as u64;
        self.span = self.span.min((moments / times.max(1)).max(1));
        self.tried = 0;
        self.most = 0;
    }

    /// Called when one piece per core has returned and none was too long. Quadruples the span if
    /// all were short.
    fn lengthen(&mut self) {
        if self.most < FEW {
            self.span = self.span.saturating_mul(4).min(LONGEST);
        }
        self.tried = 0;
        self.most = 0;
    }
}

//! The desk of one run, which the threads share. Its type names the system and the horizon.
ghost use Rattle.std.specs.Prelude.{◌≡◌, ◌⊎◌, ◌≤◌, ℕ, ◌<◌, [], false, slice_index, IfOk, IfSome, OnErr};
ghost use Rattle.mcs_stretch.specs.Stretch.{rows_between};
ghost use Rattle.mcs_window.specs.Desk.{clock_of, settled_at, with_lost, AllAreHere};

use crate::run::{Run, reached};
use crate::team::Pace;
use crate::telling::{Errand, Telling, Tellings, Told, Untold};
use mcs_ticks::{Collector, CoreId, Limits, Nothing, Tick};
use mcs_window::{Desk, Done, Front, Lost, Piece, SettleFault};
use std::alloc::Global;
use std::marker::PhantomData;

/// Most pieces that a thread takes under one lock.
const MOST: usize = 8;

/// Limits on waiting rows. At `enough` it is time for the caller's thread to take them. At `full`
/// no piece is lent until they were taken.
#[derive(Clone, Copy, Drop)]
pub(crate) struct Brim {
    pub(crate) enough: usize,
    pub(crate) full: usize,
}

/// The desk of a run, which keeps no rows, and the rows that its cores have recorded.
#[derive(Drop)]
pub(crate) struct SharedDesk<B: Run, S: Collector + Drop> {
    desk: Desk<Nothing>,
    tellings: Tellings<B, S>,
    brim: Brim,
    pace: Pace,
    /// Number of threads that share it, and number of pieces that are lent.
    workers: usize,
    away: usize,
    /// Whether a thread has begun to work, and number of threads that wait for a piece.
    begun: bool,
    idle: usize,
    /// Why no further piece is lent, if a piece was lost.
    lost: Option<Untold>,
    of: PhantomData<B>,
    ghost ours: { (desk.system ≡ B.system) × (desk.horizon ≡ B.horizon) },
}

/// The clocks of all cores. A system has at most 64 cores.
fn clocks(desk: &Desk<Nothing>) -> Front
    ensures { (c : ℕ) → c < desk.now.system.cores → c < 64 → slice_index result c ≡ clock_of desk.now c }
{
    let mut front = [Tick::ZERO; 64];
    for core in 0..desk.cores().min(Limits::CORES) {
        front[core] = desk.clock(CoreId(core));
    }
    front
}

impl<B: Run, S: Collector + Drop> SharedDesk<B, S> {
    /// Returns the desk of a run, with the collectors of its cores, for `workers` threads.
    pub(crate) fn new(
        desk: Desk<Nothing>,
        tellings: Tellings<B, S>,
        workers: usize,
        brim: Brim,
    ) -> SharedDesk<B, S>
        requires { (desk.system ≡ B.system) × (desk.horizon ≡ B.horizon) }
    {
        SharedDesk {
            desk,
            tellings,
            brim,
            pace: Pace::new(),
            workers,
            away: 0,
            begun: false,
            idle: 0,
            lost: None,
            of: PhantomData,
        }
    }

    /// Lends a piece, if one is available now. `None` if the desk has none, if too many rows wait,
    /// if pieces are no longer worth their cost, or if the team has ended.
    pub(crate) fn lend(&mut self) -> Option<Errand<B, S>> {
        if self.is_full() || self.pace.is_over() {
            return None;
        }
        let piece = self.lend_piece()?;
        self.away = self.away.saturating_add(1);
        self.pace.lend();
        match self.tellings.take(piece.core) {
            Some(telling) => Some(Errand { piece, telling }),
            None => {
                self.lose(Untold::Odd);
                None
            }
        }
    }

    /// Lends a piece from the desk. If no piece is lent, it skips idle time first and moves the
    /// collectors past it.
    fn lend_piece(&mut self) -> Option<Piece>
        ensures { IfSome result (λ piece. piece.system ≡ B.system) }
    {
        let span = self.pace.span();
        if self.away > 0 {
            return self.desk.lend_within(span);
        }
        self.desk.idle_is_silent();
        let before = clocks(&self.desk);
        let piece = self.desk.lend_within(span);
        if let Err(why) = self.catch_up(&before) {
            self.lose(why);
            return None;
        }
        piece
    }

    /// Moves each core's collector from these times to the core's clock. In between no row was
    /// made.
    fn catch_up(&mut self, before: &Front) -> Result<(), Untold>
        requires { (c : ℕ) → c < self.old.desk.system.cores → c < 64
            → (slice_index before.now c ≤ clock_of self.old.desk c)
            × (rows_between B.system c (slice_index before.now c) (clock_of self.old.desk c) ≡ []) }
    {
        for number in 0..self.desk.cores().min(Limits::CORES) {
            let (core, from) = (CoreId(number), before[number]);
            let past = self.desk.clock(core);
            if from != past {
                self.tellings.pass(core, from, past)?;
            }
        }
        Ok(())
    }

    /// Lends the pieces that are available now, up to one thread's share.
    pub(crate) fn lend_some(&mut self, alloc: Global) -> Vec<Errand<B, S>> {
        let mut errands = Vec::new(alloc);
        for _ in 0..self.share() {
            let Some(errand) = self.lend() else {
                return errands;
            };
            if errands.push(errand).is_err() {
                self.lose(Untold::NoMemory);
                return errands;
            }
        }
        errands
    }

    /// Number of pieces that a thread takes at once: an equal share of the cores that are not lent,
    /// at most `MOST`. One until it is known how many rows pieces have.
    fn share(&self) -> usize {
        if !self.pace.is_known() {
            return 1;
        }
        let home = self.desk.cores().saturating_sub(self.away);
        (home / self.workers.max(1)).clamp(1, MOST)
    }

    /// Whether a further piece is available now and a thread waits for it.
    pub(crate) fn can_lend(&self) -> bool {
        self.idle > 0 && !self.is_full() && !self.pace.is_over() && self.desk.can_lend()
    }

    pub(crate) fn rest(&mut self) {
        self.idle = self.idle.saturating_add(1);
    }

    pub(crate) fn wake(&mut self) {
        self.idle = self.idle.saturating_sub(1);
    }

    /// Takes back the result of a piece of this run. If the piece was lost, was never lent or ran
    /// out of memory, lending stops for good.
    pub(crate) fn settle(&mut self, ran: Result<Told<B, S>, Untold>)
        ensures ok { IfOk ran (λ told.
            (self.new.desk ≡ settled_at self.old.desk told.done.core told.done.past)
            ⊎ (self.new.desk ≡ with_lost self.old.desk)) }
        ensures err { OnErr ran (self.new.desk ≡ with_lost self.old.desk) }
    {
        self.away = self.away.saturating_sub(1);
        match ran {
            Ok(
                Told {
                    done,
                    telling,
                    rows,
                },
            ) => {
                let moments = done.past.get().saturating_sub(done.first.get());
                self.pace.settle(moments, rows, self.desk.cores());
                self.tellings.put(telling);
                self.take_back(done);
            }
            Err(why) => self.lose(why),
        }
    }

    /// Takes back the results of `many` pieces. If results are missing, memory ran out.
    pub(crate) fn settle_all(&mut self, many: usize, ran: Vec<Result<Told<B, S>, Untold>>) {
        if ran.len() < many {
            self.lose(Untold::NoMemory);
        }
        for told in ran {
            self.settle(told);
        }
    }

    fn take_back(&mut self, done: Done<Nothing>)
        requires { done.system ≡ B.system }
        ensures { (self.new.desk ≡ settled_at self.old.desk done.core done.past)
            ⊎ (self.new.desk ≡ with_lost self.old.desk) }
    {
        match self.desk.take_back(done) {
            Ok(()) => {}
            Err((SettleFault::NoMemory, _)) => self.lose(Untold::NoMemory),
            Err(_) => self.lose(Untold::Odd),
        }
    }

    /// Stops lending for good, and records why.
    fn lose(&mut self, why: Untold)
        ensures { self.new.desk ≡ with_lost self.old.desk }
    {
        self.lost = Some(why);
        self.desk.forfeit(Lost {
            core: CoreId(0),
            first: Tick::ZERO,
            past: Tick::ZERO,
        });
    }

    /// Whether no further piece will be available.
    pub(crate) fn is_over(&self) -> bool {
        self.pace.is_over() || self.desk.finished() || self.desk.lost()
    }

    /// Whether no piece is lent until the waiting rows were taken.
    pub(crate) fn is_full(&self) -> bool {
        self.tellings.waiting() >= self.brim.full
    }

    /// Whether it is time for the caller's thread to take the waiting rows.
    pub(crate) fn is_due(&self) -> bool {
        self.tellings.waiting() >= self.brim.enough || self.is_over()
    }

    /// A time before which all turns were taken and settled.
    pub(crate) fn reached(&self) -> Tick {
        reached(&self.desk)
    }

    pub(crate) fn begin(&mut self) {
        self.begun = true;
    }

    pub(crate) fn has_begun(&self) -> bool {
        self.begun
    }

    /// Stops lending for good.
    pub(crate) fn close(&mut self) {
        self.lose(Untold::Odd);
    }

    /// Appends what each core has recorded to `told`, as far as its capacity allows, and leaves an
    /// empty collector from `rooms` for each.
    pub(crate) fn exchange(&mut self, rooms: &mut Vec<S>, told: &mut Vec<Telling<B, S>>) {
        self.tellings.exchange(rooms, told);
    }

    /// Returns the desk and the rows of its cores, once all threads have ended. On that desk no
    /// piece is lent or lost.
    ///
    /// Errors: why a piece was lost, or `Odd` if a piece is still lent.
    pub(crate) fn into_parts(self) -> Result<(Desk<Nothing>, Tellings<B, S>), Untold>
        ensures run { IfOk result (λ parts. (parts.0.system ≡ B.system) × (parts.0.horizon ≡ B.horizon)) }
        ensures whole { IfOk result (λ parts. (parts.0.lost ≡ false) × AllAreHere parts.0) }
    {
        if let Some(why) = self.lost {
            return Err(why);
        }
        self.parts()
    }

    /// Returns the desk and the rows of its cores. `Odd` if a piece is lent or lost.
    fn parts(self) -> Result<(Desk<Nothing>, Tellings<B, S>), Untold>
        ensures run { IfOk result (λ parts. (parts.0.system ≡ B.system) × (parts.0.horizon ≡ B.horizon)) }
        ensures whole { IfOk result (λ parts. (parts.0.lost ≡ false) × AllAreHere parts.0) }
    {
        let SharedDesk { desk, tellings, .. } = self;
        if desk.lost() || !desk.all_are_here() {
            return Err(Untold::Odd);
        }
        Ok((desk, tellings))
    }
}

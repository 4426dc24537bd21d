//! Rows recorded by the cores of a team, each from one time to before another.
ghost use Rattle.std.specs.Prelude.{◌≡◌, ◌≤◌, [], IfOk};
ghost use Rattle.mcs_stretch.specs.Stretch.{rows_between};
ghost use Rattle.mcs_window.specs.Pieces.{IsOf};

use crate::Gate;
use crate::run::Run;
use mcs_ticks::{Collector, CoreId, Nothing, Tick};
use mcs_window::{Done, Piece};
use std::marker::{Model, PhantomData};
use std::mem;

/// Holds exactly the rows of one core of the run from time `first` to before time `past`. Contracts
/// see the core and both times.
#[derive(Drop)]
pub(crate) struct Telling<B: Run, S: Collector + Drop> {
    core: CoreId,
    first: Tick,
    past: Tick,
    told: S,
    of: PhantomData<B>,
}

impl<B: Run, S: Collector + Drop> Model for Telling<B, S> {
    ghost use Rattle.std.specs.Prelude.{◌≤◌};
    ghost use Rattle.mcs_stretch.specs.Stretch.{rows_between};
    ghost use Rattle.mcs_team.specs.Telling.{Span};

    ghost Value = { Span };

    ghost view = { λ a. record { core = a.core; first = a.first; past = a.past } };

    ghost invariant = { λ a. (a.first ≤ a.past) × S.holds a.told (rows_between B.system a.core a.first a.past) };
}

/// Why the rows of a core are missing.
#[derive(Clone, Copy, Debug, PartialEq, Eq, Drop)]
pub(crate) enum Untold {
    /// Memory ran out.
    NoMemory,
    /// Something is not as this run left it, which doesn't occur in a run.
    Odd,
}

impl<B: Run, S: Collector + Drop> Telling<B, S> {
    /// Returns a collector without rows that begins at time `at`.
    pub(crate) fn new(core: CoreId, at: Tick, empty: S) -> Telling<B, S>
        requires { S.holds empty [] }
        ensures { result ≡ record { core = core; first = at; past = at } }
    {
        Telling {
            core,
            first: at,
            past: at,
            told: empty,
            of: PhantomData,
        }
    }

    pub(crate) fn core(&self) -> CoreId
        ensures { result ≡ self.now.core }
    {
        self.core
    }

    /// The time of the first rows.
    pub(crate) fn first(&self) -> Tick
        ensures value { result ≡ self.now.first }
        ensures in_order { result ≤ self.now.past }
    {
        self.first
    }

    /// The time before which the rows end.
    pub(crate) fn past(&self) -> Tick
        ensures { result ≡ self.now.past }
    {
        self.past
    }

    /// Runs a stretch of the core, which records its rows. On an error all earlier rows are
    /// dropped.
    ///
    /// Errors: `Odd` if the stretch does not begin at the end of the earlier rows, `NoMemory` if
    /// memory runs out.
    pub(crate) fn run(self, piece: Piece) -> Result<(Telling<B, S>, Done<Nothing>), Untold>
        requires { piece.system ≡ B.system }
        ensures told { IfOk result (λ ran. ran.0 ≡ record self { past = piece.past }) }
        ensures done { IfOk result (λ ran. IsOf piece ran.1) }
    {
        if piece.core != self.core || piece.first != self.past {
            return Err(Untold::Odd);
        }
        let Telling {
            core,
            first,
            mut told,
            ..
        } = self;
        let past = piece.past;
        let Ok(done) = piece.run_to(&mut told) else {
            return Err(Untold::NoMemory);
        };
        let telling = Telling {
            core,
            first,
            past,
            told,
            of: PhantomData,
        };
        Ok((telling, done))
    }

    /// Moves the end to time `past`. The core made no row in between. `Odd` if the rows do not end
    /// at time `from` or are from another core.
    pub(crate) fn pass(self, core: CoreId, from: Tick, past: Tick) -> Result<Telling<B, S>, Untold>
        requires in_order { from ≤ past }
        requires silent { rows_between B.system core from past ≡ [] }
        ensures { IfOk result (λ telling. telling ≡ record self { past = past }) }
    {
        if core != self.core || from != self.past {
            return Err(Untold::Odd);
        }
        let Telling {
            core,
            first,
            told,
            ..
        } = self;
        Ok(Telling {
            core,
            first,
            past,
            told,
            of: PhantomData,
        })
    }

    pub(crate) fn size(&self) -> usize {
        self.told.size()
    }

    pub(crate) fn into_told(self) -> S
        ensures { S.holds result (rows_between B.system self.core self.first self.past) }
    {
        let Telling { told, .. } = self;
        told
    }
}

/// For each core the rows since they were last taken. A core's collector is away while a stretch of
/// the core runs.
#[derive(Drop)]
pub(crate) struct Tellings<B: Run, S: Collector + Drop> {
    slots: Vec<Option<Telling<B, S>>>,
    /// Total size of the collectors that are here.
    waiting: usize,
}

impl<B: Run, S: Collector + Drop> Tellings<B, S> {
    /// Returns these collectors, one per core from core 0. They hold no rows yet.
    pub(crate) fn new(slots: Vec<Option<Telling<B, S>>>) -> Tellings<B, S> {
        Tellings { slots, waiting: 0 }
    }

    /// Takes the collector of a core, which is away from then on.
    pub(crate) fn take(&mut self, core: CoreId) -> Option<Telling<B, S>> {
        if core.0 >= self.slots.len() {
            return None;
        }
        let telling = mem::replace(&mut self.slots[core.0], None)?;
        self.waiting = self.waiting.saturating_sub(telling.size());
        Some(telling)
    }

    pub(crate) fn put(&mut self, telling: Telling<B, S>) {
        let core = telling.core().0;
        if core < self.slots.len() {
            self.waiting = self.waiting.saturating_add(telling.size());
            self.slots[core] = Some(telling);
        }
    }

    /// Moves the end of a core's rows from one time to a later one. The core made no row in
    /// between.
    pub(crate) fn pass(&mut self, core: CoreId, from: Tick, past: Tick) -> Result<(), Untold>
        requires in_order { from ≤ past }
        requires silent { rows_between B.system core from past ≡ [] }
    {
        let Some(telling) = self.take(core) else {
            return Err(Untold::Odd);
        };
        let telling = telling.pass(core, from, past)?;
        self.put(telling);
        Ok(())
    }

    /// The amount that waits for the caller's thread: the total size.
    pub(crate) fn waiting(&self) -> usize {
        self.waiting
    }

    /// Appends what each core has recorded to `told`, as far as its capacity allows, and leaves an
    /// empty collector from `rooms` for each.
    pub(crate) fn exchange(&mut self, rooms: &mut Vec<S>, told: &mut Vec<Telling<B, S>>) {
        for core in 0..self.slots.len() {
            if told.len() == told.capacity() {
                return;
            }
            if let Some(telling) = self.exchange_one(CoreId(core), rooms) {
                told.push_reserved(telling);
            }
        }
    }

    /// Takes what a core has recorded, if there is any, and leaves an empty collector. `None` and
    /// no change if `rooms` is empty.
    fn exchange_one(&mut self, core: CoreId, rooms: &mut Vec<S>) -> Option<Telling<B, S>> {
        let telling = self.take(core)?;
        if telling.first() == telling.past() {
            self.put(telling);
            return None;
        }
        let Some(mut room) = rooms.pop() else {
            self.put(telling);
            return None;
        };
        room.clear();
        let next = Telling::<B, S>::new(telling.core(), telling.past(), room);
        self.put(next);
        Some(telling)
    }

    /// Returns all collectors, from core 0.
    pub(crate) fn into_slots(self) -> Vec<Option<Telling<B, S>>> {
        self.slots
    }
}

/// A piece of the run with the collector of its core.
#[derive(Drop)]
pub(crate) struct Errand<B: Run, S: Collector + Drop> {
    pub(crate) piece: Piece,
    pub(crate) telling: Telling<B, S>,
    ghost ours: { piece.system ≡ B.system },
}

/// A piece that was run, with its core's collector and the number of rows that it made.
#[derive(Drop)]
pub(crate) struct Told<B: Run, S: Collector + Drop> {
    pub(crate) done: Done<Nothing>,
    pub(crate) telling: Telling<B, S>,
    pub(crate) rows: usize,
    ghost ours: { done.system ≡ B.system },
}

impl<B: Run, S: Collector + Drop> Errand<B, S> {
    /// Runs the piece, with a call of the gate before and after.
    pub(crate) fn run<G: Gate>(self, gate: &G) -> Result<Told<B, S>, Untold> {
        let Errand { piece, telling } = self;
        let (core, first, past) = (piece.core, piece.first, piece.past);
        let before = telling.size();
        gate.before(core, first);
        let ran = telling.run(piece);
        gate.after(core, past);
        let (telling, done) = ran?;
        let rows = telling.size().saturating_sub(before);
        Ok(Told {
            done,
            telling,
            rows,
        })
    }
}

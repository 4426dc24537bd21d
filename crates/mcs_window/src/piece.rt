ghost use Rattle.std.specs.Prelude.{◌≡◌, ◌++◌, IfOk, IfErr, OnOk, List};
ghost use Rattle.mcs_ticks.specs.declared.row.Row.{Row};
ghost use Rattle.mcs_stretch.specs.Stretch.{rows_between};
ghost use Rattle.mcs_window.specs.Pieces.{IsOf, IsWork, IsOutcome};

use mcs_core::CoreState;
use mcs_mail::{Mail, Mailbox};
use mcs_system::System;
use mcs_ticks::{Collector, CoreId, Nothing, Row, Tick};
use std::alloc::Global;
use std::boxed::Box;
use std::marker::Model;
use std::sync::Arc;

/// Rows reserved before a piece is run: a list without room is copied at each doubling.
const ROWS: usize = 512;

/// Signals reserved before a piece is run, for the same reason.
const SIGNALS: usize = 64;

/// The clocks of all cores at the start of a stretch: entry `b` is that of core `b`, and 0 past the
/// last core.
pub type Front = [Tick; 64];

/// A stretch of one core that is to be run: the moments from `first` to before `past`. No signal
/// that another core has yet to make, from its time in `front` on, arrives before `past`. The type
/// keeps that state and mail are those of the core before the stretch.
#[derive(Drop)]
pub struct Piece {
    pub system: Arc<System>,
    pub core: CoreId,
    pub first: Tick,
    pub past: Tick,
    pub front: Front,
    pub state: Box<CoreState>,
    /// The signals for the core that the cores made before their times in `front` and that arrive
    /// at `first` or later.
    pub mail: Mailbox,
    /// For the rows and signals that the turns make.
    pub(crate) alloc: Global,
}

impl Model for Piece {
    ghost use Rattle.std.specs.Arc.{arc_value};
    ghost use Rattle.mcs_window.specs.Pieces.{Work, IsWork};

    ghost Value = { Work };

    ghost view = { λ a. record {
      system = arc_value a.system;
      core = a.core;
      first = a.first;
      past = a.past;
      front = a.front;
      state = a.state.value;
      mail = a.mail.mails;
    } };

    ghost invariant = { λ a. IsWork (record {
      system = arc_value a.system;
      core = a.core;
      first = a.first;
      past = a.past;
      front = a.front;
      state = a.state.value;
      mail = a.mail.mails;
    }) };
}

/// A stretch that was run. The type keeps that all is as the core's turns leave it after the
/// stretch, and that `rows` holds their rows.
#[derive(Drop)]
pub struct Done<S: Collector = Vec<Row>> {
    pub system: Arc<System>,
    pub core: CoreId,
    pub first: Tick,
    pub past: Tick,
    pub front: Front,
    pub state: Box<CoreState>,
    /// The rows of the core's turns.
    pub rows: S,
    /// The signals that the turns made for other cores.
    pub out: Vec<Mail>,
    /// The rest of the piece's mail.
    pub mail: Mailbox,
}

impl<S: Collector> Model for Done<S> {
    ghost use Rattle.mcs_window.specs.Pieces.{Outcome};

    ghost Value = { Outcome };

    ghost use Rattle.mcs_window.specs.stored.Outcomes.{IsKept, outcome_of};

    ghost view = { outcome_of };

    ghost invariant = { IsKept S.holds };
}

/// A stretch that failed, for lack of memory or since the collector refused a row. Its state and
/// mail are gone.
#[derive(Clone, Copy, Debug, PartialEq, Eq)]
pub struct Lost {
    pub core: CoreId,
    pub first: Tick,
    pub past: Tick,
}

impl Piece {
    /// Takes the turns of the stretch. Returns `Lost` only if memory ran out.
    pub fn run(self) -> Result<Done, Lost>
        ensures done { IfOk result (IsOf self) }
        ensures lost { IfErr result
            (λ lost. (lost.core ≡ self.core) × (lost.first ≡ self.first) × (lost.past ≡ self.past)) }
    {
        let Ok(mut rows) = Vec::with_capacity(self.alloc, ROWS) else {
            return Err(Lost {
                core: self.core,
                first: self.first,
                past: self.past,
            });
        };
        let done = self.run_to(&mut rows)?;
        Ok(done.with(rows))
    }

    /// Takes the turns of the stretch, and appends their rows to a collector. Returns `Lost` only
    /// if memory ran out or the collector refused a row. The contents of the collector are then
    /// unspecified.
    pub fn run_to<T: Collector>(self, told: &mut T) -> Result<Done<Nothing>, Lost>
        ensures told { (held : List Row) → T.holds told.old held
            → OnOk result (T.holds told.new (held ++ rows_between self.system self.core self.first self.past)) }
        ensures done { IfOk result (IsOf self) }
        ensures lost { IfErr result
            (λ lost. (lost.core ≡ self.core) × (lost.first ≡ self.first) × (lost.past ≡ self.past)) }
    {
        let Piece {
            system,
            core,
            first,
            past,
            front,
            mut state,
            mut mail,
            alloc,
        } = self;
        let _parts = system.parts();
        let Ok(mut out) = Vec::with_capacity(alloc, SIGNALS) else {
            return Err(Lost { core, first, past });
        };
        let Ok(()) = state.run_to(&system, &mut mail, past, told, &mut out) else {
            return Err(Lost { core, first, past });
        };
        Ok(Done {
            system,
            core,
            first,
            past,
            front,
            state,
            rows: Nothing,
            out,
            mail,
        })
    }
}

impl Done<Nothing> {
    /// The stretch with a collector that holds its rows.
    fn with<S: Collector>(self, rows: S) -> Done<S>
        requires { S.holds rows (rows_between self.system self.core self.first self.past) }
        ensures { result ≡ self }
    {
        let Done {
            system,
            core,
            first,
            past,
            front,
            state,
            out,
            mail,
            ..
        } = self;
        Done {
            system,
            core,
            first,
            past,
            front,
            state,
            rows,
            out,
            mail,
        }
    }
}

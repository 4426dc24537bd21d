//! Tallies of the cores of one run. Their type names the system and the horizon.
ghost use Rattle.std.specs.Prelude.{◌≡◌, ℕ, ◌<◌, [], length, slice_index_or, IfOk, IsTrue, replicate, IfSome};
ghost use Rattle.std.specs.Arc.{arc_value};
ghost use Rattle.mcs_report.specs.CoreTally.{HoldsRows};
ghost use Rattle.mcs_window.specs.Desk.{AreEmpty, AreTold};

use crate::run::Run;
use crate::telling::{Telling, Tellings};
use mcs_report::{CoreTally, Places};
use mcs_ticks::{Collector, CoreId, Measured, NoMemory, Nothing, Refused, Row, Sink, Tick};
use mcs_window::Desk;
use std::alloc::Global;
use std::marker::PhantomData;
use std::sync::Arc;

/// The counts of the rows of one core, up to the horizon of the run.
#[derive(Drop)]
pub(crate) struct OwnTally<B: Run> {
    pub(crate) tally: CoreTally,
    core: CoreId,
    rows: usize,
    of: PhantomData<B>,
    ghost ours: { (tally.system ≡ B.system) × (tally.core ≡ core) × (tally.horizon ≡ B.horizon) },
}

impl<B: Run> OwnTally<B> {
    /// Returns the tally of a core before its first row.
    pub(crate) fn new(
        alloc: Global,
        places: Arc<Places>,
        core: CoreId,
        horizon: Tick,
    ) -> Result<OwnTally<B>, NoMemory>
        requires run { (arc_value places ≡ B.system) × (horizon ≡ B.horizon) }
        ensures { IfOk result (λ own. HoldsRows own.tally [] × (own.rows ≡ 0)) }
    {
        let tally = CoreTally::new(alloc, places, core, horizon)?;
        Ok(OwnTally {
            tally,
            core,
            rows: 0,
            of: PhantomData,
        })
    }
}

/// Returns one empty tally per core, from core 0.
pub(crate) fn tallies_of_cores<B: Run>(
    alloc: Global,
    places: &Arc<Places>,
    cores: usize,
    horizon: Tick,
) -> Result<Vec<OwnTally<B>>, NoMemory>
    requires run { (arc_value places.now ≡ B.system) × (horizon ≡ B.horizon) }
    ensures { IfOk result (λ tallies. AreEmpty ⟦<OwnTally<B> as Collector>⟧.holds cores tallies.items) }
{
    let mut tallies = Vec::with_capacity(alloc, cores)?;
    for core in 0..cores {
        let places = Arc::try_clone(places)?;
        tallies.push_reserved(OwnTally::<B>::new(alloc, places, CoreId(core), horizon)?);
    }
    Ok(tallies)
}

/// Whether the tally at index `c` is that of core `c`, for all of them.
pub(crate) fn are_in_place<B: Run>(tallies: &[OwnTally<B>]) -> bool
    ensures { IsTrue result → (c : ℕ) (own : _) → c < length tallies.now → (slice_index_or tallies.now c own).tally.core ≡ c }
{
    for number in 0..tallies.len() {
        if tallies[number].core != CoreId(number) {
            return false;
        }
    }
    true
}

impl<B: Run> Sink for OwnTally<B> {
    ghost use Rattle.std.specs.Prelude.{◌≡◌, true};
    ghost use Rattle.mcs_report.specs.CoreTally.{CoreCounts};
    ghost use Rattle.mcs_team.specs.Counts.{one_more};

    ghost takes = { λ before row taken after. CoreCounts before.tally row taken after.tally
        × (taken ≡ true → after.rows ≡ one_more before.rows) };

    #[inline(always)]
    fn row(&mut self, row: &Row) -> Result<(), Refused> {
        self.tally.row(row)?;
        self.rows = self.rows.wrapping_add(1);
        Ok(())
    }
}

/// The size is the number of rows counted, in 64 bits. No run has so many, and a count that is
/// capped would cost each row four instructions more.
impl<B: Run> Measured for OwnTally<B> {
    ghost size = { λ own. own.rows };

    #[inline(always)]
    fn size(&self) -> usize {
        self.rows
    }
}

/// It holds the rows that its tally has counted.
impl<B: Run> Collector for OwnTally<B> {
    ghost use Rattle.std.specs.Prelude.{◌≡◌};
    ghost use Rattle.mcs_report.specs.CoreTally.{HoldsRows};
    ghost use Rattle.mcs_team.specs.Counts.{many_of};
    ghost use Rattle.mcs_team.specs.stored.Counts.{counted_more};

    ghost holds = { λ own rows. HoldsRows own.tally rows × (own.rows ≡ many_of rows) };

    ghost amount = { many_of };

    fn clear(&mut self) {
        self.tally.clear();
        self.rows = 0;
    }

    ghost holds_more = { λ before after held row holds counts. counted_more before.tally after.tally before.rows after.rows held row holds counts };

    ghost is_measured = { λ own held holds. holds.1 };
}

/// Returns collectors in which each core counts its own rows, before the first row.
pub(crate) fn counting<B: Run>(
    alloc: Global,
    places: &Arc<Places>,
    cores: usize,
    horizon: Tick,
) -> Result<Tellings<B, OwnTally<B>>, NoMemory>
    requires run { (arc_value places.now ≡ B.system) × (horizon ≡ B.horizon) }
{
    let mut slots = Vec::with_capacity(alloc, cores)?;
    for core in 0..cores {
        let core = CoreId(core);
        let tally = OwnTally::<B>::new(alloc, Arc::try_clone(places)?, core, horizon)?;
        let telling = Telling::<B, OwnTally<B>>::new(core, Tick::ZERO, tally);
        slots.push(Some(telling))?;
    }
    Ok(Tellings::<B, OwnTally<B>>::new(slots))
}

/// Returns the tallies, from core 0, if each has counted its core's rows from time 0 to the core's
/// clock. Otherwise `None`, which doesn't occur in a run.
pub(crate) fn counted<B: Run>(
    alloc: Global,
    mut tellings: Tellings<B, OwnTally<B>>,
    desk: &Desk<Nothing>,
) -> Result<Option<Vec<OwnTally<B>>>, NoMemory>
    requires { desk.now.system ≡ B.system }
    ensures { IfOk result (λ found. IfSome found (λ told.
        AreTold ⟦<OwnTally<B> as Collector>⟧.holds (record desk.now { taken = replicate 64 0 }) told.items)) }
{
    let mut told = Vec::with_capacity(alloc, desk.cores())?;
    for number in 0..desk.cores() {
        let core = CoreId(number);
        let Some(telling) = tellings.take(core) else {
            return Ok(None);
        };
        if telling.core() != core
            || telling.first() != Tick::ZERO
            || telling.past() != desk.clock(core)
        {
            return Ok(None);
        }
        told.push_reserved(telling.into_told());
    }
    Ok(Some(told))
}

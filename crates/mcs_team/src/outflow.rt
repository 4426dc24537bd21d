//! The rows of the cores on their way to an output.
ghost use Rattle.std.specs.Prelude.{◌≡◌, ◌+◌, ◌<◌, ◌≤◌, ◌^◌, ◌↔◌, [], OnErr, OnOk, fold, length, min, replicate, slice_index, slice_set, IfOk, IsTrue};
ghost use Rattle.mcs_merge.specs.Parts.{HoldEach};
ghost use Rattle.mcs_stretch.specs.Stretch.{rows_between};
ghost use Rattle.mcs_system.specs.WellFormed.{IsWellFormed};
ghost use Rattle.mcs_team.specs.Flow.{AreAtClocks, AreTakenTo, FailsFrom, IsClear, IsGivenBetween, Waits};
ghost use Rattle.mcs_ticks.specs.Given.{Given, GivenUntil};
ghost use Rattle.mcs_window.specs.Desk.{clock_of, taken_at};
ghost use Rattle.mcs_ticks.specs.declared.sink.FlowFault.TheVariants as fault;

use crate::run::Run;
use crate::telling::{Telling, Untold};
use mcs_merge::{Merger, Part, RowPart};
use mcs_system::System;
use mcs_ticks::{Collector, CoreId, NoMemory, Refused, Row, Sink, Tick};
use mcs_window::Desk;
use std::alloc::Global;
use std::marker::PhantomData;

/// How rows get from the cores to an output.
///
/// A core records its rows in a collector. The collector then waits as a part until its times are
/// written to an output. Once all of it is written, its room is used again. Each relay states by
/// `fits` for which outputs its parts are made. An output keeps fitting as it takes rows.
pub trait Relay {
    ghost use Rattle.std.specs.Prelude.{[], List, true, OnErr, OnOk};
    ghost use Rattle.mcs_ticks.specs.declared.row.Row.{Row};
    ghost use Rattle.mcs_ticks.specs.Given.{Given, GivenUntil};
    ghost use Rattle.mcs_merge.specs.Merge.{DoNotFall};

    /// The collector of a core.
    type Told: Collector + Drop;

    /// Rows of a core that wait.
    type Part: Part;

    ghost fits: { Self → Self.Part.Out → Type 0 };

    /// Returns an empty collector. It takes no memory.
    fn empty(&self) -> Self::Told
        ensures { Self.Told.holds result [] };

    /// Turns a collector into a part that holds the same rows, for each output that fits.
    fn part(&self, told: Self::Told) -> Self::Part
        ensures { (out : Self.Part.Out) (rows : List Row) → fits self.now out → DoNotFall rows → Self.Told.holds told rows
            → Self.Part.holds out result rows };

    /// Returns the room of a part as an empty collector.
    fn room(&self, part: Self::Part) -> Self::Told
        ensures { Self.Told.holds result [] };

    /// Writes all collected rows to an output at once, as if the rows were written one by one. The
    /// collector is then empty and keeps its room.
    ///
    /// Errors: `Refused` if the output refused a row.
    fn give(
        &self,
        told: &mut Self::Told,
        out: &mut <Self::Part as Part>::Out,
    ) -> Result<(), Refused>
        ensures given { (rows : List Row) → fits self.now out.old → Self.Told.holds told.old rows
            → OnOk result (Given Self.Part.Out.takes out.old rows out.new × Self.Told.holds told.new []) }
        ensures refused { (rows : List Row) → fits self.now out.old → Self.Told.holds told.old rows
            → OnErr result (GivenUntil Self.Part.Out.takes out.old rows out.new) };

    ghost fits_on: { (relay : Self) (before after : Self.Part.Out) (row : Row) → fits relay before
        → Self.Part.Out.takes before row true after → fits relay after };
}

/// A relay that passes rows to a sink unchanged.
pub struct RowRelay<S> {
    alloc: Global,
    to: PhantomData<S>,
}

impl<S> Drop for RowRelay<S> {
    fn drop(self) {
        let RowRelay { alloc: _, to: _ } = self;
    }
}

impl<S> RowRelay<S> {
    /// Returns a relay whose lists of rows use this allocator.
    pub fn new(alloc: Global) -> RowRelay<S>
        ensures { result.alloc ≡ alloc }
    {
        RowRelay {
            alloc,
            to: PhantomData,
        }
    }
}

/// The parts fit every sink.
impl<S: Sink> Relay for RowRelay<S> {
    type Told = Vec<Row>;

    type Part = RowPart<S>;

    ghost fits = { λ relay out. Unit {0} };

    fn empty(&self) -> Vec<Row> {
        Vec::new(self.alloc)
    }

    fn part(&self, told: Vec<Row>) -> RowPart<S> {
        RowPart::new(told)
    }

    fn room(&self, part: RowPart<S>) -> Vec<Row> {
        part.into_room()
    }

    fn give(&self, told: &mut Vec<Row>, out: &mut S) -> Result<(), Refused> {
        give_all(told.as_slice(), out)?;
        told.clear();
        Ok(())
    }

    ghost fits_on = { λ relay before after row fits taken. fits };
}

/// Writes these rows to a sink, up to the first that it refuses.
pub(crate) fn give_all<S: Sink>(rows: &[Row], sink: &mut S) -> Result<(), Refused>
    ensures given { OnOk result (Given S.takes sink.old rows.now sink.new) }
    ensures refused { OnErr result (GivenUntil S.takes sink.old rows.now sink.new) }
{
    for row in rows {
        sink.row(row)?;
    }
    Ok(())
}

/// Rows of the cores that wait to be written in order of time.
#[derive(Drop)]
pub(crate) struct Outflow<W: Relay> {
    merger: Merger<W::Part>,
    /// For each core, the time before which all its rows were added.
    pub(crate) pasts: Vec<Tick>,
    /// The time before which all rows were written.
    pub(crate) reached: Tick,
    /// The tick after the horizon.
    end: Tick,
    /// Written parts, for use again.
    spare: Vec<W::Part>,
    ghost same: { length merger ≡ length pasts.items },
}

impl<W: Relay> Outflow<W> {
    /// Returns a flow that has written all rows before `at` and holds no later ones.
    pub(crate) fn new(
        alloc: Global,
        relay: &W,
        system: &System,
        horizon: Tick,
        at: Tick,
    ) -> Result<Outflow<W>, NoMemory>
        requires horizon { horizon ≤ 2 ^ 40 }
        requires at { at ≤ horizon + 1 }
        ensures waits { (out : W.Part.Out) → W.fits relay.now out → IfOk result
            (λ flow. Waits W.Part.holds system.now horizon flow.reached flow.pasts.items flow.merger out) }
        ensures first { IfOk result (λ flow. flow.reached ≡ at) }
        ensures end { IfOk result (λ flow. flow.end ≡ horizon + 1) }
        ensures pasts { IfOk result (λ flow. flow.pasts.items ≡ replicate system.now.cores at) }
    {
        let cores = system.parts().cores;
        let parts = empty_parts(alloc, relay, cores)?;
        let merger = Merger::new(alloc, parts)?;
        let pasts = vec![in alloc; at; cores]?;
        let spare = Vec::with_capacity(alloc, cores)?;
        let end = horizon.plus(1).unwrap();
        Ok(Outflow {
            merger,
            pasts,
            reached: at,
            end,
            spare,
        })
    }

    /// Whether all rows were written.
    pub(crate) fn is_over(&self) -> bool
        ensures { IsTrue result ↔ (self.now.reached ≡ self.now.end) }
    {
        self.reached == self.end
    }

    pub(crate) fn reached(&self) -> Tick
        ensures { result ≡ self.now.reached }
    {
        self.reached
    }

    /// Adds the rows of a core from the end of those added last to before `past`. `NoMemory` if
    /// memory runs out.
    pub(crate) fn add<B: Run>(
        &mut self,
        relay: &W,
        core: CoreId,
        past: Tick,
        told: W::Told,
    ) -> Result<(), NoMemory>
        requires known { core < length self.old.pasts.items }
        requires in_order { slice_index self.old.pasts.items core ≤ past }
        requires in_time { past ≤ B.horizon + 1 }
        requires told { W.Told.holds told (rows_between B.system core (slice_index self.old.pasts.items core) past) }
        ensures pasts { OnOk result (self.new.pasts.items ≡ slice_set self.old.pasts.items core past) }
        ensures same { (self.new.reached ≡ self.old.reached) × (self.new.end ≡ self.old.end) }
        ensures waits { (out : W.Part.Out) → W.fits relay.now out
            → Waits W.Part.holds B.system B.horizon self.old.reached self.old.pasts.items self.old.merger out
            → OnOk result (Waits W.Part.holds B.system B.horizon self.new.reached self.new.pasts.items self.new.merger out) }
    {
        let part = relay.part(told);
        match self.merger.add(core, part) {
            Ok(spare) => keep(&mut self.spare, spare),
            Err((_, refusal)) => return Err(refusal),
        }
        self.pasts[core.0] = past;
        Ok(())
    }

    /// Returns an empty collector for a core, from a written part if there is one.
    pub(crate) fn take_room(&mut self, relay: &W) -> W::Told
        ensures empty { W.Told.holds result [] }
        ensures same { (self.new.reached ≡ self.old.reached) × (self.new.end ≡ self.old.end) }
        ensures waits { (self.new.merger ≡ self.old.merger) × (self.new.pasts.items ≡ self.old.pasts.items) }
    {
        match self.spare.pop() {
            Some(part) => relay.room(part),
            None => relay.empty(),
        }
    }

    /// Adds the rows of a core if they begin at the end of those added last.
    ///
    /// Errors: `Odd` if they begin elsewhere, are from an unknown core or end after the horizon,
    /// `NoMemory` if memory runs out.
    pub(crate) fn add_telling<B: Run>(
        &mut self,
        relay: &W,
        telling: Telling<B, W::Told>,
    ) -> Result<(), Untold>
        requires end { self.old.end ≡ B.horizon + 1 }
        ensures same { (self.new.reached ≡ self.old.reached) × (self.new.end ≡ self.old.end) }
        ensures waits { (out : W.Part.Out) → W.fits relay.now out
            → Waits W.Part.holds B.system B.horizon self.old.reached self.old.pasts.items self.old.merger out
            → OnOk result (Waits W.Part.holds B.system B.horizon self.new.reached self.new.pasts.items self.new.merger out) }
    {
        let (core, first, past) = (telling.core(), telling.first(), telling.past());
        if core.0 >= self.pasts.len() || self.pasts[core.0] != first || past > self.end {
            return Err(Untold::Odd);
        }
        match self.add::<B>(relay, core, past, telling.into_told()) {
            Ok(()) => Ok(()),
            Err(_) => Err(Untold::NoMemory),
        }
    }

    /// Adds all collected rows. `told` is then empty, unless an error is returned.
    pub(crate) fn add_all<B: Run>(
        &mut self,
        relay: &W,
        told: &mut Vec<Telling<B, W::Told>>,
    ) -> Result<(), Untold>
        requires end { self.old.end ≡ B.horizon + 1 }
        ensures same { (self.new.reached ≡ self.old.reached) × (self.new.end ≡ self.old.end) }
        ensures waits { (out : W.Part.Out) → W.fits relay.now out
            → Waits W.Part.holds B.system B.horizon self.old.reached self.old.pasts.items self.old.merger out
            → OnOk result (Waits W.Part.holds B.system B.horizon self.new.reached self.new.pasts.items self.new.merger out) }
    {
        'told: while let Some(telling) = told.pop() {
            self.add_telling::<B>(relay, telling)?;
        }
        Ok(())
    }

    /// Takes the rows of a core from a desk and adds them.
    fn take<B: Run>(
        &mut self,
        relay: &W,
        desk: &mut Desk<W::Told>,
        core: CoreId,
    ) -> Result<(), NoMemory>
        requires run { (desk.old.system ≡ B.system) × (desk.old.horizon ≡ B.horizon) }
        requires known { core < desk.old.system.cores }
        requires taken { AreTakenTo self.old.pasts.items desk.old }
        ensures pasts { OnOk result (self.new.pasts.items ≡ slice_set self.old.pasts.items core (clock_of desk.old core)) }
        ensures taken { desk.new ≡ taken_at desk.old core }
        ensures same { (self.new.reached ≡ self.old.reached) × (self.new.end ≡ self.old.end) }
        ensures waits { (out : W.Part.Out) → W.fits relay.now out
            → Waits W.Part.holds B.system B.horizon self.old.reached self.old.pasts.items self.old.merger out
            → OnOk result (Waits W.Part.holds B.system B.horizon self.new.reached self.new.pasts.items self.new.merger out) }
    {
        let _taken = desk.taken(core);
        let past = desk.clock(core);
        let room = self.take_room(relay);
        let told = desk.take(core, room);
        self.add::<B>(relay, core, past, told)
    }

    /// Takes the rows of each core from a desk and adds them.
    pub(crate) fn gather<B: Run>(
        &mut self,
        relay: &W,
        desk: &mut Desk<W::Told>,
    ) -> Result<(), NoMemory>
        requires clear { IsClear B.system B.horizon desk.old self.old.pasts.items self.old.end }
        ensures clear { OnOk result (IsClear B.system B.horizon desk.new self.new.pasts.items self.new.end) }
        ensures clocks { OnOk result (AreAtClocks self.new.pasts.items desk.old) }
        ensures desk { desk.new ≡ record desk.old { taken = desk.new.taken } }
        ensures same { (self.new.reached ≡ self.old.reached) × (self.new.end ≡ self.old.end) }
        ensures waits { (out : W.Part.Out) → W.fits relay.now out
            → Waits W.Part.holds B.system B.horizon self.old.reached self.old.pasts.items self.old.merger out
            → OnOk result (Waits W.Part.holds B.system B.horizon self.new.reached self.new.pasts.items self.new.merger out) }
    {
        for number in 0..self.pasts.len() {
            self.take::<B>(relay, desk, CoreId(number))?;
        }
        Ok(())
    }

    /// Writes all rows before the earliest of the cores' `pasts`.
    pub(crate) fn pour<B: Run>(&mut self, out: &mut <W::Part as Part>::Out) -> Result<(), Refused>
        requires well_formed { IsWellFormed B.system }
        requires end { self.old.end ≡ B.horizon + 1 }
        requires waits { Waits W.Part.holds B.system B.horizon self.old.reached self.old.pasts.items self.old.merger out.old }
        ensures waits { OnOk result (Waits W.Part.holds B.system B.horizon self.new.reached self.new.pasts.items self.new.merger out.new) }
        ensures same { (self.new.pasts.items ≡ self.old.pasts.items) × (self.new.end ≡ self.old.end) }
        ensures reached { OnOk result (self.new.reached ≡ fold min self.old.end self.old.pasts.items) }
        ensures given { OnOk result (IsGivenBetween W.Part.Out.takes B.system self.old.reached self.new.reached out.old out.new) }
        ensures refused { OnErr result (FailsFrom W.Part.Out.takes B.system B.horizon self.old.reached out.old out.new fault.Sink) }
    {
        let reached = least(self.pasts.as_slice(), self.end);
        self.merger.pour_before(reached, out)?;
        self.reached = reached;
        Ok(())
    }
}

/// Keeps a written part for later, if there is capacity for it.
fn keep<P: Drop>(spare: &mut Vec<P>, part: Option<P>) {
    if let Some(part) = part {
        if spare.len() < spare.capacity() {
            spare.push_reserved(part);
        }
    }
}

/// Returns one empty part per core.
fn empty_parts<W: Relay>(alloc: Global, relay: &W, cores: usize) -> Result<Vec<W::Part>, NoMemory>
    ensures many { IfOk result (λ parts. length parts.items ≡ cores) }
    ensures held { (out : W.Part.Out) → W.fits relay.now out → IfOk result (λ parts. HoldEach W.Part.holds out parts.items (replicate cores [])) }
{
    let mut parts = Vec::with_capacity(alloc, cores)?;
    for _ in 0..cores {
        parts.push(relay.part(relay.empty()))?;
    }
    Ok(parts)
}

/// The earliest of the times, but at most `end`.
fn least(moments: &[Tick], end: Tick) -> Tick
    ensures { result ≡ fold min end moments.now }
{
    let mut least = end;
    for moment in moments {
        least = least.min(*moment);
    }
    least
}

//! Rounds of the cores of a system: in each, every core looks at its own rows.
ghost use Rattle.std.specs.Prelude.{◌≡◌, ◌⊎◌, ◌+◌, ◌-◌, ◌++◌, ◌<◌, ◌≤◌, ◌^◌, ℕ, List, Bool, map, min, Some, IfOk, OnOk};
ghost use Rattle.std.specs.Arc.{arc_value};
ghost use Rattle.std.specs.Ordering.{nat_cmp};
ghost use Rattle.std.specs.List.Sorted.{IsSortedByKey, IsStableByKey};
ghost use Rattle.mcs_ticks.specs.declared.row.Row.{Row as TheRow};
ghost use Rattle.mcs_system.specs.WellFormed.{IsWellFormed};
ghost use Rattle.mcs_window.specs.Desk.{amount_kept, clock_of, taken_at, taken_of};
ghost use Rattle.mcs_team.specs.Counts.{many_of};
ghost use Rattle.mcs_check.specs.stored.ByCore.{told_on};
ghost use Rattle.mcs_check.specs.stored.OwnRows.{HoldsOwn};
ghost use Rattle.mcs_check.specs.stored.Rounds.{HasTaken, IsNext, IsReady, IsWatched};

use crate::core_finder::CoreFinder;
use crate::core_watch::CoreWatch;
use crate::sought::Sought;
use mcs_system::System;
use mcs_ticks::{Collector, CoreId, NoMemory, Nothing, Tick};
use mcs_verdict::{Found, cores_are_watched};
use mcs_window::Desk;
use std::alloc::Global;
use std::marker::PhantomData;
use std::sync::Arc;

/// The cores of a system between two rounds.
#[derive(Drop)]
pub(crate) struct Cores {
    pub(crate) desk: Desk<Nothing>,
    /// The state that each core keeps of its rows.
    pub(crate) watches: Vec<CoreWatch>,
    /// The minimum of their clocks: all findings before it are passed on.
    pub(crate) reached: Tick,
    /// The findings of the last round before that time.
    pub(crate) found: Vec<Found>,
    /// The number of rows so far, at most `usize::MAX`.
    pub(crate) rows: usize,
}

/// All cores at time 0, for a run up to `horizon`.
pub(crate) fn opening_cores(
    alloc: Global,
    system: &Arc<System>,
    horizon: Tick,
) -> Result<Cores, NoMemory>
    requires { horizon ≤ 2 ^ 40 }
    ensures { (allowed : List Bool) → IfOk result (λ cores. IsReady (arc_value system.now) allowed horizon cores × (cores.reached ≡ 0)) }
{
    let number = system.parts().cores;
    let silent = vec![in alloc; Nothing; number]?;
    let mut watches = Vec::with_capacity(alloc, number)?;
    for _ in 0..number {
        watches.push(CoreWatch::new(alloc, system)?)?;
    }
    Ok(Cores {
        desk: Desk::opened(alloc, Arc::try_clone(system)?, horizon, silent)?,
        watches,
        reached: Tick::ZERO,
        found: Vec::new(alloc),
        rows: 0,
    })
}

/// The values that all cores share in a round.
#[derive(Drop)]
struct Round<'a, 's, B: Sought> {
    alloc: Global,
    system: &'s System,
    /// For each notification, whether lost signals are allowed.
    allowed: &'a [bool],
    /// The time before which all findings were passed on by earlier rounds.
    from: Tick,
    of: PhantomData<B>,
    ghost ours: { (system.now ≡ B.system) × (allowed.now ≡ B.allowed) × (from ≡ B.from) },
}

impl<'a, B: Sought> Round<'a, '_, B> {
    /// A finder of a core that continues from `own`.
    fn finder(&self, own: Option<CoreWatch>) -> CoreFinder<'a, B>
        ensures { result.own ≡ own }
    {
        CoreFinder::<B>::new(own, self.allowed, self.from)
    }

    /// A finder of each core.
    fn finders(&self, watches: Vec<CoreWatch>) -> Result<Vec<CoreFinder<'a, B>>, NoMemory>
        ensures { IfOk result (λ finders. map (λ finder. finder.own) finders.items ≡ map (λ own. Some own) watches.items) }
    {
        let mut finders = Vec::with_capacity(self.alloc, watches.len())?;
        for own in watches {
            finders.push(self.finder(Some(own)))?;
        }
        Ok(finders)
    }
}

/// The state that a core keeps of its rows; an empty one if its finder is closed, since then it had
/// no row.
fn opened(alloc: Global, system: &System, own: Option<CoreWatch>) -> Result<CoreWatch, NoMemory>
    ensures { (allowed : List Bool) (from : ℕ) (rows : List TheRow) → HoldsOwn system.now allowed from own rows
        → IfOk result (λ watch. HoldsOwn system.now allowed from (Some watch) rows) }
{
    match own {
        Some(own) => Ok(own),
        None => CoreWatch::new(alloc, system),
    }
}

/// The minimum of a desk's clocks, or the end of the run if the desk has no core.
fn least_clock<S: Collector>(desk: &Desk<S>) -> Tick
    ensures least { (c : ℕ) → c < desk.now.system.cores → result ≤ clock_of desk.now c }
    ensures most { (c : ℕ) → c < desk.now.system.cores → clock_of desk.now c ≤ desk.now.horizon + 1 }
    ensures in_time { result ≤ desk.now.horizon + 1 }
    ensures reached { (to : ℕ) → to ≤ desk.now.horizon + 1 → ((c : ℕ) → c < desk.now.system.cores → to ≤ clock_of desk.now c) → to ≤ result }
{
    let mut least = desk.horizon().plus(1).unwrap();
    for core in 0..desk.cores() {
        least = least.min(desk.clock(CoreId(core)));
    }
    least
}

/// Takes out the state of a core, and appends its findings before `reached` to `found`.
fn take_watch<'a, B: Sought>(
    round: &Round<'a, '_, B>,
    desk: &mut Desk<CoreFinder<'a, B>>,
    core: CoreId,
    reached: Tick,
    found: &mut Vec<Found>,
) -> Result<CoreWatch, NoMemory>
    requires well_formed { IsWellFormed B.system }
    requires run { desk.old.system ≡ B.system }
    requires known { core < desk.old.system.cores }
    requires untaken { taken_of desk.old core ≡ 0 }
    requires later { (B.from ≤ reached) × (reached ≤ clock_of desk.old core) }
    ensures taken { desk.new ≡ taken_at desk.old core }
    ensures watched { IfOk result (IsWatched B.system B.allowed reached core (clock_of desk.old core)) }
    ensures found { OnOk result (found.new.items ≡ found.old.items ++ told_on B.system B.allowed core B.from reached) }
{
    let finder = desk.take(core, round.finder(None));
    let mut own = opened(round.alloc, round.system, finder.into_own())?;
    own.tell(reached, found)?;
    Ok(own)
}

/// Takes out the state of each core, and the findings before the minimum of all clocks.
fn take_out<'a, B: Sought>(
    round: &Round<'a, '_, B>,
    mut desk: Desk<CoreFinder<'a, B>>,
) -> Result<Cores, NoMemory>
    requires well_formed { IsWellFormed B.system }
    requires run { desk.system ≡ B.system }
    requires untaken { (c : ℕ) → c < desk.system.cores → taken_of desk c ≡ 0 }
    requires in_time { B.from ≤ desk.horizon + 1 }
    requires later { (c : ℕ) → c < desk.system.cores → B.from ≤ clock_of desk c }
    ensures taken { IfOk result (λ cores. HasTaken B.system B.allowed B.from desk.entry cores) }
    ensures rows { IfOk result (λ cores. cores.rows ≡ min (amount_kept many_of desk.entry) (2 ^ 64 - 1)) }
{
    let number = desk.cores();
    let reached = least_clock(&desk);
    let rows = desk.kept();
    let mut watches = Vec::with_capacity(round.alloc, number)?;
    let mut found = Vec::new(round.alloc);
    for core in 0..number {
        let own = take_watch(round, &mut desk, CoreId(core), reached, &mut found)?;
        watches.push(own)?;
    }
    let silent = vec![in round.alloc; Nothing; number]?;
    Ok(Cores {
        desk: desk.retold([Tick::ZERO; 64], silent),
        watches,
        reached,
        found,
        rows,
    })
}

/// Sorts findings by time. Findings of one time keep their order.
fn put_in_order(found: &mut Vec<Found>) -> Result<(), NoMemory>
    ensures in_order { OnOk result (IsSortedByKey (λ f. f.moment) nat_cmp found.new.items) }
    ensures stable { OnOk result (IsStableByKey (λ f. f.moment) nat_cmp found.old.items found.new.items) }
{
    found.sort_by_key(|one| one.moment.get())?;
    Ok(())
}

/// Runs one round of all cores. It ends when at least `enough` rows were seen in all, or all rows.
/// Its findings before the minimum of all clocks are in the order of the schedule.
pub(crate) fn take_round<B: Sought>(
    alloc: Global,
    system: &System,
    allowed: &[bool],
    cores: Cores,
    enough: usize,
) -> Result<Cores, NoMemory>
    requires well_formed { IsWellFormed B.system }
    requires sought { (system.now ≡ B.system) × (allowed.now ≡ B.allowed) × (cores.reached ≡ B.from) }
    requires ready { IsReady B.system B.allowed cores.desk.horizon cores }
    ensures next { IfOk result (λ next. IsNext B.system B.allowed cores next) }
    ensures enough { IfOk result (λ next. (next.reached ≡ cores.desk.horizon + 1) ⊎ (enough ≤ next.rows)) }
{
    cores_are_watched();
    let Cores {
        desk,
        watches,
        reached: from,
        ..
    } = cores;
    let round = Round::<B> {
        alloc,
        system,
        allowed,
        from,
        of: PhantomData,
    };
    let finders = round.finders(watches)?;
    let mut desk = desk.retold([Tick::ZERO; 64], finders);
    desk.go(enough)?;
    let mut next = take_out(&round, desk)?;
    put_in_order(&mut next.found)?;
    Ok(next)
}

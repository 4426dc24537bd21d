//! The results of a check for all time: which closed sets of cores recur, from when on and with
//! which period, and their findings for ever.

mod dues;
mod lines;
mod look;
mod sets;
mod tell;
mod threads;
mod told;

ghost use Rattle.std.specs.Prelude.{◌≡◌, ◌≤◌, ◌<◌, ◌^◌, ◌&&◌, true, false, nat_le, IfOk};
ghost use Rattle.std.specs.Arc.{arc_value};
ghost use Rattle.mcs_ever_told.specs.Outlook.{AreTold};
ghost use Rattle.mcs_ever_told.specs.Progress.{IsOpening, IsOfSame};

use crate::outlook::dues::Dues;
use crate::outlook::look::Look;
use crate::outlook::sets::{Group, groups_of};
use crate::outlook::tell::{all_told, is_any_left, nothing_told, tell_now};
use mcs_ever::{CoreSet, closed_sets};
use mcs_ever_search::{Sampling, Search};
use mcs_system::System;
use mcs_ticks::{NoMemory, Row, Tick};
use std::alloc::Global;
use std::marker::Model;
use std::sync::Arc;
pub use told::{Period, Told};

/// A check for all time that proceeds moment by moment: a run in which recurrences are searched
/// for.
#[derive(Drop)]
pub struct Outlook {
    system: Arc<System>,
    allowed: Vec<bool>,
    horizon: Tick,
    sets: Vec<CoreSet>,
    groups: Vec<Group>,
    dues: Dues,
    search: Search,
    sampling: Sampling,
    rows: Vec<Row>,
    told: Vec<Option<Told>>,
    failed: bool,
}

impl Model for Outlook {
    ghost use Rattle.mcs_ever_told.specs.Progress.{Progress};

    ghost Value = { Progress };

    ghost use Rattle.mcs_ever_told.specs.stored.Kept.{IsKept, progress_of};

    ghost view = { progress_of };

    ghost invariant = { IsKept };
}

impl Outlook {
    /// Returns a check before its first moment. Recurrences are searched for up to this horizon, at
    /// most 2^40. Lost signals of the notifications flagged in `allowed` are not reported. Fails
    /// only if memory runs out.
    pub fn new(
        alloc: Global,
        system: Arc<System>,
        allowed: &[bool],
        horizon: Tick,
    ) -> Result<Outlook, NoMemory>
        requires { horizon ≤ 2 ^ 40 }
        ensures { IfOk result (IsOpening (arc_value system) allowed.now horizon) }
    {
        let sets = closed_sets(alloc, &system)?;
        let groups = groups_of(alloc, sets.as_slice())?;
        let dues = Dues::new(alloc, &system, groups.as_slice())?;
        let told = nothing_told(alloc, groups.len())?;
        let allowed = allowed.iter().copied().collect(alloc)?;
        let shared = Arc::try_clone(&system)?;
        let search = Search::new(alloc, shared, horizon)?;
        Ok(Outlook {
            system,
            allowed,
            horizon,
            sets,
            groups,
            dues,
            search,
            sampling: Sampling::new(),
            rows: Vec::new(alloc),
            told,
            failed: false,
        })
    }

    /// The time of the next turn of all cores.
    pub fn clock(&self) -> Tick
        ensures { result ≡ self.now.clock }
    {
        self.search.clock()
    }

    /// Moves on to the next moment at which something happens, and returns whether it did. It
    /// returns `false`, and nothing changes, once each set is reported or the horizon has passed.
    /// Fails only if memory runs out; each later call then fails, too.
    pub fn step(&mut self, alloc: Global) -> Result<bool, NoMemory>
        ensures same { IsOfSame self.old self.new }
        ensures on { IfOk result (λ on. on ≡ (nat_le self.old.clock self.old.horizon && self.old.left)) }
        ensures stays { IfOk result (λ on. on ≡ false → self.new ≡ self.old) }
        ensures later { IfOk result (λ on. on ≡ true → self.old.clock < self.new.clock) }
    {
        if self.failed {
            return Err(NoMemory);
        }
        if self.search.clock() > self.horizon || !is_any_left(self.told.as_slice()) {
            return Ok(false);
        }
        self.failed = true;
        self.sampling
            .go_on(alloc, &mut self.search, &mut self.rows)?;
        self.rows.clear();
        if !self.dues.go_on(&mut self.search)? {
            self.failed = false;
            return Ok(true);
        }
        let look = Look {
            system: &self.system,
            search: &self.search,
            allowed: self.allowed.as_slice(),
        };
        tell_now(
            alloc,
            &look,
            self.groups.as_slice(),
            self.dues.due(),
            self.told.as_mut_slice(),
        )?;
        self.dues.forget(self.told.as_slice());
        self.failed = false;
        Ok(true)
    }

    /// Takes all remaining steps and returns the result of each set, in order of the first core of
    /// each. Fails only if memory runs out or ran out before.
    pub fn finish(mut self, alloc: Global) -> Result<Vec<Told>, NoMemory>
        ensures { IfOk result (λ told. AreTold self.system self.allowed self.horizon told.items) }
    {
        'steps: while self.step(alloc)? {}
        self.close(alloc)
    }

    /// Returns the results, once each set is reported or the horizon has passed.
    fn close(&mut self, alloc: Global) -> Result<Vec<Told>, NoMemory>
        requires { (nat_le self.old.clock self.old.horizon && self.old.left) ≡ false }
        ensures { IfOk result (λ told. AreTold self.old.system self.old.allowed self.old.horizon told.items) }
    {
        if self.failed {
            return Err(NoMemory);
        }
        let _in_time = self.search.clock();
        let look = Look {
            system: &self.system,
            search: &self.search,
            allowed: self.allowed.as_slice(),
        };
        self.failed = true;
        all_told(
            alloc,
            &look,
            self.groups.as_slice(),
            self.told.as_mut_slice(),
        )
    }
}

/// Returns the result of each closed set of cores, in order of the first core of each.
///
/// A closed set is the smallest set around a core that no core outside it signals. Its result says
/// from when on it recurs, with which period, and its findings for ever. If it was not found to
/// recur by the horizon, at most 2^40, the result has its findings so far. Lost signals of the
/// notifications flagged in `allowed` are not reported. Fails only if memory runs out.
pub fn tell_all(
    alloc: Global,
    system: Arc<System>,
    allowed: &[bool],
    horizon: Tick,
) -> Result<Vec<Told>, NoMemory>
    requires { horizon ≤ 2 ^ 40 }
    ensures { IfOk result (λ told. AreTold (arc_value system) allowed.now horizon told.items) }
{
    Outlook::new(alloc, system, allowed, horizon)?.finish(alloc)
}

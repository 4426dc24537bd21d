//! The tally of one core's rows.
ghost use Rattle.std.specs.Prelude.{◌≡◌, ◌↔◌, map, get_or, IfOk, IsTrue};
ghost use Rattle.std.specs.Arc.{arc_value};
ghost use Rattle.std.specs.List.{range_with_len};
ghost use Rattle.mcs_report.specs.Tally.{no_account};
ghost use Rattle.mcs_report.specs.CoreTally.{opened_on, opened_core_tally, core_added};
ghost use Rattle.mcs_report.specs.stored.CoreTally.{reopened};

use crate::Places;
use crate::account::Account;
use crate::telling::{Stand, tell};
use mcs_system::System;
use mcs_ticks::{Collector, CoreId, Measured, NoMemory, Refused, Row, Sink, ThreadId, Tick};
use std::alloc::Global;
use std::marker::Model;
use std::sync::Arc;

/// The counts of one core's rows so far: one account per thread of that core. Rows are added one by
/// one, each in constant time and without memory. Contracts see the system, the core, the horizon
/// and the accounts in order.
#[derive(Drop)]
pub struct CoreTally {
    own: Own,
    horizon: Tick,
    accounts: Vec<Account>,
}

impl Model for CoreTally {
    ghost use Rattle.std.specs.Prelude.{◌≡◌, map};
    ghost use Rattle.std.specs.Arc.{arc_value};
    ghost use Rattle.mcs_report.specs.CoreTally.{CoreTally, opened_on};
    ghost use Rattle.mcs_report.specs.stored.CoreTally.{reopened};

    ghost Value = { CoreTally };

    ghost view = { λ a. record { system = arc_value a.own.places; core = a.own.core; horizon = a.horizon; accounts = a.accounts.items } };

    ghost invariant = { λ a. map reopened a.accounts.items ≡ opened_on (arc_value a.own.places) a.own.core };
}

/// A core. Its threads have their indexes on it.
#[derive(Drop)]
struct Own {
    places: Arc<Places>,
    core: CoreId,
}

impl Stand for Own {
    ghost use Rattle.std.specs.Arc.{arc_value};
    ghost use Rattle.mcs_report.specs.Places.{place_on};

    ghost place = { λ own thread. place_on (arc_value own.places) own.core thread };

    #[inline(always)]
    fn place(&self, thread: ThreadId) -> Option<usize> {
        self.places.place_on(self.core, thread)
    }
}

fn opened_on(alloc: Global, system: &System, core: CoreId) -> Result<Vec<Account>, NoMemory>
    ensures { IfOk result (λ accounts. accounts.items ≡ opened_on system.now core) }
{
    let parts = system.parts();
    let accounts = parts
        .threads
        .as_slice()
        .iter()
        .filter(|thread| parts.core_of_thread(thread) == core)
        .map(|thread| Account::new(parts.core_of_thread(thread), thread.deadline))
        .collect(alloc)?;
    Ok(accounts)
}

impl CoreTally {
    /// Returns the tally of this core for a run up to the horizon, before its first row. `NoMemory`
    /// if an allocation failed.
    pub fn new(
        alloc: Global,
        places: Arc<Places>,
        core: CoreId,
        horizon: Tick,
    ) -> Result<Self, NoMemory>
        ensures { IfOk result (λ tally. tally ≡ opened_core_tally (arc_value places) core horizon) }
    {
        let accounts = opened_on(alloc, places.system(), core)?;
        Ok(CoreTally {
            own: Own { places, core },
            horizon,
            accounts,
        })
    }

    /// Returns one tally per core of the system, from core 0, before their first rows. `NoMemory`
    /// if an allocation failed.
    pub fn of_all_cores(
        alloc: Global,
        places: &Arc<Places>,
        horizon: Tick,
    ) -> Result<Vec<CoreTally>, NoMemory>
        ensures { IfOk result
            (λ tallies. tallies.items
            ≡ map (λ c. opened_core_tally (arc_value places.now) c horizon) (range_with_len 0 (arc_value places.now).cores)) }
    {
        let cores = places.system().parts().cores;
        let mut tallies = Vec::with_capacity(alloc, cores)?;
        for core in 0..cores {
            let places = Arc::try_clone(places)?;
            tallies.push_reserved(CoreTally::new(alloc, places, CoreId(core), horizon)?);
        }
        Ok(tallies)
    }

    /// Counts a further row, in constant time and without memory. A row of another core's thread,
    /// or of an unknown thread, is not counted.
    #[inline(always)]
    pub fn add(&mut self, row: &Row)
        ensures { self.new ≡ core_added self.old row.now }
    {
        tell(
            self.accounts.as_mut_slice(),
            &self.own,
            self.horizon,
            row.moment,
            row.what,
        );
    }

    /// Whether the tally counts for this core in a run of this system up to this horizon. It
    /// compares the systems.
    pub fn is_for(&self, system: &System, core: CoreId, horizon: Tick) -> bool
        ensures { IsTrue result ↔ ((self.now.system ≡ system.now) × (self.now.core ≡ core) × (self.now.horizon ≡ horizon)) }
    {
        let own = &self.own;
        own.core == core && self.horizon == horizon && *own.places.system() == *system
    }

    /// The account at this index.
    pub(crate) fn account(&self, place: usize) -> Account
        ensures { result ≡ get_or self.now.accounts place no_account }
    {
        match self.accounts.get(place) {
            Some(account) => *account,
            None => Account::new(CoreId(0), 0),
        }
    }
}

fn reopen(accounts: &mut [Account])
    ensures { accounts.new ≡ map reopened accounts.old }
{
    for account in accounts.iter_mut() {
        *account = Account::new(account.core, account.deadline);
    }
}

/// Counts each row that it is given, and refuses none.
impl Sink for CoreTally {
    ghost use Rattle.mcs_report.specs.CoreTally.{CoreCounts};

    ghost takes = { CoreCounts };

    #[inline(always)]
    fn row(&mut self, row: &Row) -> Result<(), Refused> {
        self.add(row);
        Ok(())
    }
}

/// A tally keeps no rows, so its size is 0.
impl Measured for CoreTally {
    ghost size = { λ _. 0 };

    fn size(&self) -> usize {
        0
    }
}

/// A tally holds the rows that it was given since it was opened or cleared.
impl Collector for CoreTally {
    ghost use Rattle.std.specs.Prelude.{◌≡◌, [], refl};
    ghost use Rattle.mcs_report.specs.CoreTally.{HoldsRows, opened_core_tally};
    ghost use Rattle.mcs_report.specs.stored.CoreTally.{holds_added};

    ghost holds = { HoldsRows };

    ghost amount = { λ _. 0 };

    /// Resets the tally to its state before the first row.
    fn clear(&mut self)
        ensures emptied { HoldsRows self.new [] }
        ensures opened { self.new ≡ opened_core_tally self.old.system self.old.core self.old.horizon }
    {
        reopen(self.accounts.as_mut_slice());
    }

    ghost holds_more = { holds_added };

    ghost is_measured = { λ _ _ _. refl };
}

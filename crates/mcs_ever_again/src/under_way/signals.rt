ghost use Rattle.std.specs.Prelude.{◌≡◌, ℕ, ◌^◌, ◌≤◌, [], ◌∷◌, ◌++◌, List, filter, IfOk, IsTrue, ◌↔◌, OnOk, OnErr};
ghost use Rattle.mcs_ticks.specs.declared.row.Row.{Row as TheRow};
ghost use Rattle.mcs_system.specs.System.{System as TheSystem};
ghost use Rattle.mcs_system.specs.WellFormed.{IsWellFormed};
ghost use Rattle.mcs_core.specs.Clock.{clock, world};
ghost use Rattle.mcs_ever_again.specs.UnderWay.{told_mails, arrives_from, can_arrive, under_way};
ghost use Rattle.mcs_ever_again.specs.Group.{AreLater};

use crate::under_way::later::{are_later, may_be_later};
use crate::under_way::store::Store;
use crate::under_way::told::mail_of;
use mcs_system::System;
use mcs_ticks::{Limits, NoMemory, Row, Tick};
use std::alloc::Global;
use std::marker::Model;

/// The signals under way between the cores of a system, in the order in which they were made.
/// Contracts see the list. One that is forgotten may stay stored for a while, so that each signal
/// takes constant time, however many are under way.
#[derive(Debug, Drop)]
pub struct UnderWay {
    store: Store,
}

impl Model for UnderWay {
    ghost use Rattle.std.specs.Prelude.{List};
    ghost use Rattle.mcs_mail.specs.declared.mail.Mail.{Mail};

    ghost Value = { List Mail };

    ghost use Rattle.mcs_ever_again.specs.stored.Store.{left};

    ghost view = { λ a. left a.store };
}

impl UnderWay {
    /// Returns the list before the first row, without a signal. Allocates no memory.
    pub fn new(alloc: Global) -> Self
        ensures { result ≡ [] }
    {
        UnderWay {
            store: Store::new(alloc),
        }
    }

    /// Adds a row of a run of the system. A signal for a notification of another core is under way
    /// from then on. A signal that would arrive after 2^42 is left out; a run up to the maximum
    /// horizon has none. Fails only if memory runs out; nothing changes then.
    pub fn see(&mut self, system: &System, row: &Row) -> Result<(), NoMemory>
        ensures joined { OnOk result (self.new ≡ self.old ++ filter can_arrive (told_mails system.now (row.now ∷ []))) }
        ensures unchanged { OnErr result (self.new ≡ self.old) }
        ensures told { OnOk result ((t : ℕ) (past : List TheRow) → self.old ≡ under_way system.now t past → t ≤ row.now.moment →
            row.now.moment ≤ 2 ^ 40 → self.new ≡ under_way system.now t (past ++ row.now ∷ [])) }
    {
        // the system is well formed, so no signal of a run is under way for too long
        let _parts = system.parts();
        if let Some(mail) = mail_of(system, row) {
            self.store.put(mail)?;
        }
        Ok(())
    }

    /// Removes the signals that arrive before the moment, since a turn took them. The others keep
    /// their order. Allocates no memory.
    pub fn forget_before(&mut self, t: Tick)
        ensures left { self.new ≡ filter (arrives_from t) self.old }
        ensures told { (system : TheSystem) (before : ℕ) (past : List TheRow) → before ≤ t → self.old ≡ under_way system before past →
            self.new ≡ under_way system t past }
        ensures clock { (system : TheSystem) (before : ℕ) → IsWellFormed system → before ≤ t →
            self.old ≡ under_way system before (clock system t).rows → self.new ≡ (world system t).mails }
    {
        self.store.forget_before(t);
    }

    /// Whether no signal is under way.
    pub fn is_empty(&self) -> bool
        ensures { IsTrue result ↔ (self.now ≡ []) }
    {
        self.store.is_empty()
    }

    /// Returns a copy of the list. Fails only if memory runs out.
    pub fn copied(&self, alloc: Global) -> Result<Self, NoMemory>
        ensures { IfOk result (λ copy. copy ≡ self.now) }
    {
        Ok(UnderWay {
            store: self.store.copied(alloc)?,
        })
    }

    /// Whether the signals for a group of cores are the earlier ones, `by` ticks later: each at its
    /// place, with the same maker, notification and badge. The group has a yes or a no for each
    /// core.
    pub fn is_later(
        &self,
        system: &System,
        group: &[bool; Limits::CORES],
        by: u64,
        before: &UnderWay,
    ) -> bool
        ensures { IsTrue result ↔ AreLater system.now group.now by before.now self.now }
    {
        are_later(system, group, by, &before.store, &self.store)
    }

    /// Whether the signals for a group of cores may be the earlier ones, `by` ticks later. If not,
    /// they are not. A test that takes constant time, however many are under way.
    pub fn may_be_later(
        &self,
        system: &System,
        group: &[bool; Limits::CORES],
        by: u64,
        before: &UnderWay,
    ) -> bool
        ensures { AreLater system.now group.now by before.now self.now → IsTrue result }
    {
        may_be_later(system, group, by, &before.store, &self.store)
    }
}

//! The rows that the cores of a desk emitted; each core has its own collector.
ghost use Rattle.std.specs.Prelude.{◌≡◌, ℕ, ◌-◌, ◌<◌, ◌≤◌, ◌^◌, [], min, slice_index};
ghost use Rattle.mcs_stretch.specs.Stretch.{rows_between};
ghost use Rattle.mcs_window.specs.Desk.{clock_of, taken_of, taken_at, amount_kept, AreTold};

use crate::Front;
use crate::desk::Desk;
use mcs_ticks::{Collector, CoreId, Row};
use std::mem;

impl<S: Collector> Desk<S> {
    /// Takes the rows that a core emitted since they were last taken. The empty collector that is
    /// given takes their place.
    pub fn take(&mut self, core: CoreId, empty: S) -> S
        requires known { core < self.old.system.cores }
        requires empty { S.holds empty [] }
        ensures rows { S.holds result (rows_between self.old.system core (taken_of self.old core) (clock_of self.old core)) }
        ensures taken { self.new ≡ taken_at self.old core }
    {
        let clock = self.clock(core);
        self.taken[core.0] = clock;
        mem::replace(&mut self.told[core.0], empty)
    }

    /// The amount on the desk: the sizes of all collectors since they were last taken, at most
    /// `usize::MAX`.
    pub fn kept(&self) -> usize
        ensures { result ≡ min (amount_kept S.amount self.now) (2 ^ 64 - 1) }
    {
        let mut kept = 0usize;
        for core in 0..self.cores() {
            kept = kept.saturating_add(self.told[core].size());
        }
        kept
    }
}

impl<S: Collector + Drop> Desk<S> {
    /// Returns all collectors, from core 0 on, and gives up the desk. Each holds the rows of its
    /// core since they were last taken.
    pub fn into_told(self) -> Vec<S>
        ensures { AreTold S.holds self result.items }
    {
        let Desk { told, .. } = self;
        told
    }

    /// Returns the same cores, clocks and loans with other collectors, which get the rows from now
    /// on. Each must hold the rows of its core since its time in `taken`, which is at most the
    /// core's clock. The previous collectors are dropped. No memory is allocated.
    pub fn retold<T: Collector + Drop>(self, taken: Front, told: Vec<T>) -> Desk<T>
        requires in_order { (c : ℕ) → c < self.system.cores → slice_index taken c ≤ clock_of self c }
        requires told { AreTold T.holds (record self { taken = taken }) told.items }
        ensures { result ≡ record self { taken = taken } }
    {
        let Desk {
            system,
            horizon,
            lost,
            clocks,
            slots,
            boxes,
            delays,
            reaches,
            signals,
            alloc,
            ..
        } = self;
        Desk {
            system,
            horizon,
            lost,
            clocks,
            taken,
            slots,
            boxes,
            told,
            delays,
            reaches,
            signals,
            alloc,
        }
    }
}

impl Desk<Vec<Row>> {
    /// Takes the rows that a core emitted since they were last taken.
    pub fn take_rows(&mut self, core: CoreId) -> Vec<Row>
        requires { core < self.old.system.cores }
        ensures rows { result.items
            ≡ rows_between self.old.system core (taken_of self.old core) (clock_of self.old core) }
        ensures taken { self.new ≡ taken_at self.old core }
    {
        let none = Vec::new(self.alloc);
        self.take(core, none)
    }
}

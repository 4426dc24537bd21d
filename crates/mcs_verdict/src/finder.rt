ghost use Rattle.std.specs.Prelude.{◌≡◌, [], IfOk};
ghost use Rattle.mcs_verdict.specs.Watch.{watch_of};

use crate::all::keep_finding;
use crate::{Found, Watch};
use mcs_system::System;
use mcs_ticks::{NoMemory, Refused, Row, Sink};
use std::alloc::Global;

/// A sink of rows that watches them and keeps their findings in order.
#[derive(Drop)]
pub struct Finder {
    /// The watch of the rows so far.
    pub watch: Watch,
    /// The findings of the rows so far.
    pub found: Vec<Found>,
}

impl Finder {
    /// A finder before the first row of a run of the system. `NoMemory` if memory runs out.
    pub fn new(alloc: Global, system: &System) -> Result<Self, NoMemory>
        ensures watch { IfOk result (λ finder. finder.watch ≡ watch_of system.now []) }
        ensures found { IfOk result (λ finder. finder.found.items ≡ []) }
    {
        Ok(Finder {
            watch: Watch::new(alloc, system)?,
            found: Vec::new(alloc),
        })
    }
}

/// Takes rows in the order of their times and keeps the finding of each. A row is refused only if
/// there is no memory for its finding: the watch has then seen the row, but its finding is missing.
impl Sink for Finder {
    ghost use Rattle.mcs_verdict.specs.Found.{Finds};

    ghost takes = { λ before row taken after. Finds before.watch before.found.items row taken after.watch after.found.items };

    #[inline(always)]
    fn row(&mut self, row: &Row) -> Result<(), Refused> {
        let told = self.watch.see(row);
        keep_finding(&mut self.found, row.moment, row.core, told)
            .ok()
            .ok_or(Refused)
    }
}

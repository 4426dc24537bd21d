//! The first rows of a schedule.
ghost use Rattle.std.specs.Prelude.{◌≡◌, ◌≤◌, ◌^◌, [], IfOk, None};
ghost use Rattle.mcs_core.specs.Clock.{schedule};
ghost use Rattle.mcs_c.specs.Numbers.{AreFirst};

use mcs_system::System;
use mcs_team::{FlowFault, schedule_alone};
use mcs_ticks::{NoMemory, Refused, Row, Sink, Tick};
use std::alloc::Global;
use std::sync::Arc;

/// A sink that keeps rows until it has `most`. It refuses a row if it has that many, and keeps its
/// time as that of the next row; and if memory runs out.
#[derive(Drop)]
pub(crate) struct First {
    pub(crate) rows: Vec<Row>,
    most: usize,
    /// The time of the row that was refused since the list is full.
    pub(crate) next: Option<Tick>,
}

impl First {
    fn new(alloc: Global, most: usize) -> First
        ensures rows { result.rows.items ≡ [] }
        ensures most { result.most ≡ most }
        ensures next { result.next ≡ None }
    {
        First {
            rows: Vec::new(alloc),
            most,
            next: None,
        }
    }
}

impl Sink for First {
    ghost use Rattle.std.specs.Prelude.{◌≡◌, ◌≤◌, ◌<◌, ◌++◌, ◌∷◌, [], IfSome, false, length, true};

    ghost takes = { λ before row taken after.
        (after.most ≡ before.most)
        × (taken ≡ true → (length before.rows.items < before.most)
        × (after.rows.items ≡ before.rows.items ++ row ∷ []) × (after.next ≡ before.next))
        × (taken ≡ false → IfSome after.next (λ time. (before.most ≤ length before.rows.items)
        × (after.rows.items ≡ before.rows.items) × (time ≡ row.moment))) };

    fn row(&mut self, row: &Row) -> Result<(), Refused> {
        if self.rows.len() >= self.most {
            self.next = Some(row.moment);
            return Err(Refused);
        }
        let Row { moment, core, what } = *row;
        if self.rows.push(Row { moment, core, what }).is_err() {
            self.next = None;
            return Err(Refused);
        }
        Ok(())
    }
}

/// The first rows of a system's schedule, made on this thread: all of them, or `most`. The run ends
/// soon after the row behind these.
pub(crate) fn first_rows(
    alloc: Global,
    system: System,
    horizon: Tick,
    most: usize,
) -> Result<First, NoMemory>
    requires { horizon ≤ 2 ^ 40 }
    ensures { IfOk result (λ first. AreFirst (schedule system horizon) most first.rows.items first.next) }
{
    let system = Arc::new(alloc, system)?;
    let mut first = First::new(alloc, most);
    match schedule_alone(alloc, system, horizon, &mut first) {
        Ok(()) => Ok(first),
        Err(FlowFault::Sink) if first.next.is_some() => Ok(first),
        Err(_) => Err(NoMemory),
    }
}

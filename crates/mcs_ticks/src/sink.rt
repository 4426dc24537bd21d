ghost use Rattle.std.specs.Prelude.{◌≡◌, ◌<◌, OnOk, vec_len, vec_capacity};

use crate::{NoMemory, Row};
use thiserror::Error;

/// The sink takes no more rows.
#[derive(Clone, Copy, Debug, PartialEq, Eq, Drop)]
pub struct Refused;

/// Something that takes rows, one after another. Each sink defines `takes`: how the sink after a
/// row relates to the sink before, if the row was taken (true) or refused (false).
pub trait Sink {
    ghost use Rattle.std.specs.Prelude.{Bool, is_ok};
    ghost use Rattle.mcs_ticks.specs.declared.row.Row.{Row};

    ghost takes: { Self → Row → Bool → Self → Type 0 };

    /// Takes a row, or refuses it.
    fn row(&mut self, row: &Row) -> Result<(), Refused>
        ensures { takes self.old row.now (is_ok result) self.new };
}

/// A list appends each row. It refuses a row only if memory runs out, and then stays unchanged.
impl Sink for Vec<Row> {
    ghost use Rattle.std.specs.Prelude.{◌≡◌, ◌++◌, ◌∷◌, [], if◌then◌else◌};

    ghost takes = { λ before row taken after. after.items ≡ (if taken then before.items ++ row ∷ [] else before.items) };

    #[inline(always)]
    fn row(&mut self, row: &Row) -> Result<(), Refused> {
        let Row { moment, core, what } = *row;
        let row = Row { moment, core, what };
        make_room(self)?;
        self.push_reserved(row);
        Ok(())
    }
}

/// Ensures room for one more row. Fails only if memory runs out.
#[inline(always)]
fn make_room(rows: &mut Vec<Row>) -> Result<(), Refused>
    ensures items { rows.new.items ≡ rows.old.items }
    ensures room { OnOk result (vec_len rows.new < vec_capacity rows.new) }
{
    if rows.len() == rows.capacity() {
        return grow(rows);
    }
    Ok(())
}

/// Allocates room for at least one more row. A separate call keeps the code for each row short.
#[inline(never)]
fn grow(rows: &mut Vec<Row>) -> Result<(), Refused>
    ensures items { rows.new.items ≡ rows.old.items }
    ensures room { OnOk result (vec_len rows.new < vec_capacity rows.new) }
{
    if rows.reserve(1).is_err() {
        return Err(Refused);
    }
    Ok(())
}

/// A sink with a size; a run can end at a given size.
pub trait Measured: Sink {
    ghost use Rattle.std.specs.Prelude.{◌≡◌, ℕ};

    ghost size: { Self → ℕ };

    /// Returns the size of what it holds.
    fn size(&self) -> usize
        ensures { result ≡ size self.now };
}

/// The size of a list is its number of rows.
impl Measured for Vec<Row> {
    ghost use Rattle.std.specs.Prelude.{length};

    ghost size = { λ rows. length rows.items };

    fn size(&self) -> usize {
        self.len()
    }
}

/// A sink that can be emptied. `holds` says which rows it took since it was last empty, and its
/// size is a measure of these rows.
pub trait Collector: Measured {
    ghost use Rattle.std.specs.Prelude.{◌≡◌, ◌++◌, ◌∷◌, [], true, ℕ, List};
    ghost use Rattle.mcs_ticks.specs.declared.row.Row.{Row};

    ghost holds: { Self → List Row → Type 0 };

    ghost amount: { List Row → ℕ };

    /// Drops all rows that it holds, and keeps its capacity.
    fn clear(&mut self)
        ensures { holds self.new [] };

    ghost holds_more: { (before after : Self) (held : List Row) (row : Row) → holds before held → Self.takes before row true after
        → holds after (held ++ row ∷ []) };

    ghost is_measured: { (sink : Self) (held : List Row) → holds sink held → Self.size sink ≡ amount held };
}

/// A list holds its rows.
impl Collector for Vec<Row> {
    ghost use Rattle.std.specs.Prelude.{◌≡◌, length};
    ghost use Rattle.std.proofs.Common.{rules};

    ghost holds = { λ rows held. rows.items ≡ held };

    ghost amount = { length };

    fn clear(&mut self) {
        self.clear();
    }

    ghost holds_more = { Prim.search rules };

    ghost is_measured = { Prim.search rules };
}

/// Why a simulation that writes its rows to a sink ends early.
#[derive(Clone, Copy, Debug, PartialEq, Eq, Error)]
pub enum FlowFault {
    /// Out of memory.
    #[error("no memory")]
    NoMemory,
    /// The sink refused a row.
    #[error("the sink refused a row")]
    Sink,
}

impl From<NoMemory> for FlowFault {
    fn from(_refusal: NoMemory) -> Self {
        FlowFault::NoMemory
    }
}

impl From<Refused> for FlowFault {
    fn from(_refusal: Refused) -> Self {
        FlowFault::Sink
    }
}

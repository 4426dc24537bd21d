ghost use Rattle.std.specs.Prelude.{◌≡◌, ◌<◌, ℕ, [], drop, option_map, slice_get, slice_index, IfNone, IfSome};

use mcs_ticks::{Row, Tick};
use std::collections::VecDeque;
use std::marker::Model;
use std::mem;

/// Number of moments that are read at once.
const AHEAD: usize = 8;

/// Rows in order, with a copy of the moments of the next few. A row that has left the processor's
/// cache delays all that follows. The moments of eight rows are therefore read together, in one
/// wait for memory instead of eight. Further ones are read only when these are used up.
#[derive(Debug, Drop)]
pub(crate) struct RowQueue {
    rows: VecDeque<Row>,
    /// the moment of the first row is at index `at`, that of the second at the next index, and so
    /// on, as far as there are rows
    moments: [Tick; AHEAD],
    at: usize,
}

impl Model for RowQueue {
    ghost use Rattle.mcs_merge.specs.stored.Queue.{Listed, StandBeside};

    ghost Value = { Listed };

    ghost view = { λ a. record { items = a.rows.items } };

    ghost invariant = { λ a. StandBeside a.rows.items a.moments a.at };
}

impl RowQueue {
    /// Returns these rows, in this order. The list is moved in.
    pub(crate) fn of_rows(rows: Vec<Row>) -> Self
        ensures { result.items ≡ rows.items }
    {
        let rows = VecDeque::from_vec(rows);
        let moments = moments_of(&rows);
        RowQueue {
            rows,
            moments,
            at: 0,
        }
    }

    /// Returns the moment of the first row, or `None` if there is no row.
    pub(crate) fn first_moment(&self) -> Option<Tick>
        ensures { result ≡ option_map (λ row. row.moment) (slice_get self.now.items 0) }
    {
        if self.rows.is_empty() {
            None
        } else {
            Some(self.moments[self.at])
        }
    }

    /// Takes the first row.
    #[inline(always)]
    pub(crate) fn pop_front(&mut self) -> Option<Row>
        ensures taken { result ≡ slice_get self.old.items 0 }
        ensures left { self.new.items ≡ drop 1 self.old.items }
    {
        let row = self.rows.pop_front();
        self.at += 1;
        if self.at == AHEAD {
            self.moments = moments_of(&self.rows);
            self.at = 0;
        }
        row
    }

    /// Drops all rows and keeps the capacity.
    pub(crate) fn clear(&mut self)
        ensures { self.new.items ≡ [] }
    {
        self.rows.clear();
    }

    /// Returns the memory of the rows as an empty list, if no row is left. Otherwise returns a list
    /// without capacity.
    pub(crate) fn take_room(&mut self) -> Vec<Row>
        ensures room { result.items ≡ [] }
        ensures same { self.new ≡ self.old }
    {
        let none = VecDeque::new(*self.rows.allocator());
        if !self.rows.is_empty() {
            return none.into_vec();
        }
        mem::replace(&mut self.rows, none).into_vec()
    }
}

/// Returns the moments of the first eight rows, or 0 for a missing row. The reads are independent
/// of each other.
#[inline(never)]
fn moments_of(rows: &VecDeque<Row>) -> [Tick; AHEAD]
    ensures some { (k : ℕ) → k < 8 → IfSome (slice_get rows.now.items k) (λ row. slice_index result k ≡ row.moment) }
    ensures none { (k : ℕ) → k < 8 → IfNone (slice_get rows.now.items k) (slice_index result k ≡ 0) }
{
    let mut moments = [Tick::ZERO; AHEAD];
    for place in 0..AHEAD {
        moments[place] = moment_at(rows, place);
    }
    moments
}

/// Returns the moment of the row at this index, or 0 if there is none.
fn moment_at(rows: &VecDeque<Row>, place: usize) -> Tick
    ensures some { IfSome (slice_get rows.now.items place) (λ row. result ≡ row.moment) }
    ensures none { IfNone (slice_get rows.now.items place) (result ≡ 0) }
{
    match rows.get(place) {
        Some(row) => row.moment,
        None => Tick::ZERO,
    }
}

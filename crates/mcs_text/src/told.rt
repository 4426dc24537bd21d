//! Lines that a core's turns write, with their number of rows.
ghost use Rattle.std.specs.Prelude.{◌≡◌};
ghost use Rattle.mcs_text.specs.Told.{nothing_told};

use crate::lines::Lines;
use crate::names::Names;
use mcs_ticks::{Collector, Measured, Refused, Row, Sink};
use std::alloc::Global;
use std::marker::Model;

/// The lines of a core's turns, and the number of their rows. A run can end once enough text lies
/// there: a line has at most 135 bytes. Contracts see both.
#[derive(Drop)]
pub struct ToldLines<'a> {
    lines: Lines<'a>,
    rows: usize,
}

impl<'a> Model for ToldLines<'a> {
    ghost use Rattle.std.specs.Prelude.{◌≤◌, length};
    ghost use Rattle.mcs_text.specs.Told.{ToldLines};

    ghost Value = { ToldLines };

    ghost view = { λ a. record { lines = a.lines; rows = a.rows } };

    ghost invariant = { λ a. a.rows ≤ length a.lines.bytes };
}

impl<'a> ToldLines<'a> {
    /// Returns no lines, for rows of the system with these names.
    pub fn new(alloc: Global, names: &'a Names<'a>) -> ToldLines<'a>
        ensures { result ≡ nothing_told names.now }
    {
        ToldLines {
            lines: Lines::new(alloc, names),
            rows: 0,
        }
    }

    /// Returns no lines, in the room of these.
    pub fn in_room_of(mut lines: Lines<'a>) -> ToldLines<'a>
        ensures { result ≡ nothing_told lines.entry.system }
    {
        lines.clear();
        ToldLines { lines, rows: 0 }
    }

    /// Returns the lines only.
    pub fn into_lines(self) -> Lines<'a>
        ensures { result ≡ self.entry.lines }
    {
        self.lines
    }
}

/// Appends the line of a row. It is refused only if memory runs out, and then all is unchanged.
impl Sink for ToldLines<'_> {
    ghost use Rattle.mcs_text.specs.Told.{TakesTold};

    ghost takes = { TakesTold };

    #[inline(always)]
    fn row(&mut self, row: &Row) -> Result<(), Refused> {
        self.lines.row(row)?;
        // there are at most as many rows as bytes, so the number can grow
        let _bytes = self.lines.as_slice().len();
        self.rows += 1;
        Ok(())
    }
}

/// The size is the number of rows.
impl Measured for ToldLines<'_> {
    ghost size = { λ told. told.rows };

    #[inline(always)]
    fn size(&self) -> usize {
        self.rows
    }
}

/// It holds the rows whose lines and marks these are.
impl Collector for ToldLines<'_> {
    ghost use Rattle.std.specs.Prelude.{◌≡◌, [], length};
    ghost use Rattle.mcs_text.specs.Told.{nothing_told, HoldsTold};
    ghost use Rattle.mcs_text.specs.stored.Told.{told_more};

    ghost holds = { HoldsTold };

    ghost amount = { length };

    /// Removes all lines, and keeps their room.
    fn clear(&mut self)
        ensures emptied { HoldsTold self.new [] }
        ensures opened { self.new ≡ nothing_told self.old.lines.system }
    {
        self.lines.clear();
        self.rows = 0;
    }

    ghost holds_more = { told_more };

    ghost is_measured = { λ told held holds. holds.many };
}

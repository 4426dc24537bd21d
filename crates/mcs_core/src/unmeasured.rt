//! A sink without a size, for a run that does not end by its rows.
ghost use Rattle.std.specs.Prelude.{◌≡◌};

use mcs_ticks::{Measured, Refused, Row, Sink};

/// Gives rows to a sink, and has no size.
#[derive(Drop)]
pub(crate) struct Unmeasured<'a, S: Sink> {
    sink: &'a mut S,
}

impl<'a, S: Sink> Unmeasured<'a, S> {
    /// Returns a sink without a size over this one.
    pub(crate) fn new(sink: &'a mut S) -> Unmeasured<'a, S>
        ensures sink { result.sink.ghost_name ≡ sink.entry.ghost_name }
        ensures now { result.sink.now ≡ sink.old }
    {
        Unmeasured { sink }
    }
}

impl<S: Sink> Sink for Unmeasured<'_, S> {
    ghost use Rattle.std.specs.Prelude.{◌≡◌};

    ghost takes = { λ before row taken after.
        (after.sink.ghost_name ≡ before.sink.ghost_name) × S.takes before.sink.now row taken after.sink.now };

    #[inline(always)]
    fn row(&mut self, row: &Row) -> Result<(), Refused> {
        self.sink.row(row)
    }
}

impl<S: Sink> Measured for Unmeasured<'_, S> {
    ghost size = { λ _. 0 };

    #[inline(always)]
    fn size(&self) -> usize {
        0
    }
}

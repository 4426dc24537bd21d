//! Rows as a part that is given to a sink.
ghost use Rattle.std.specs.Prelude.{◌≡◌, ◌≢◌, ◌∷◌, [], Some, IfNone, IfSome};
ghost use Rattle.mcs_merge.specs.Parts.{first_moment};

use crate::Part;
use crate::queue::RowQueue;
use mcs_ticks::{Refused, Row, Sink, Soonest, Tick};
use std::marker::{Model, PhantomData};

/// Rows of one core in order of their moments, which wait to be given to a sink. Contracts see the
/// list of rows.
pub struct RowPart<S> {
    rows: RowQueue,
    to: PhantomData<S>,
}

impl<S> Model for RowPart<S> {
    ghost use Rattle.std.specs.Prelude.{List};
    ghost use Rattle.mcs_ticks.specs.declared.row.Row.{Row};

    ghost Value = { List Row };

    ghost view = { λ a. a.rows.items };
}

impl<S> Drop for RowPart<S> {
    fn drop(self) {
        let RowPart { rows: _, to: _ } = self;
    }
}

impl<S> RowPart<S> {
    /// Returns these rows, in this order. The list is moved in.
    pub fn new(rows: Vec<Row>) -> Self
        ensures { result ≡ rows.items }
    {
        RowPart {
            rows: RowQueue::of_rows(rows),
            to: PhantomData,
        }
    }

    /// Returns the memory of the rows as an empty list.
    pub fn into_room(mut self) -> Vec<Row>
        ensures { result.items ≡ [] }
    {
        self.rows.clear();
        self.rows.take_room()
    }
}

/// The part holds its rows, and gives them to the sink one by one.
impl<S: Sink> Part for RowPart<S> {
    ghost use Rattle.std.specs.Prelude.{◌≡◌, length};
    ghost use Rattle.mcs_merge.specs.Parts.{first_moment};

    type Out = S;

    ghost holds = { λ out part rows. part ≡ rows };

    ghost first = { first_moment };

    ghost left = { length };

    fn next(&self) -> Soonest {
        Soonest::of(self.rows.first_moment())
    }

    fn pour(&mut self, out: &mut S) -> Result<(), Refused> {
        let Some(moment) = self.rows.first_moment() else {
            return Ok(());
        };
        'rows: while let Some(row) = pop_at(&mut self.rows, moment) {
            out.row(&row)?;
        }
        Ok(())
    }

    ghost use Rattle.std.proofs.Common.{ap};

    ghost is_first = { λ out part rows held. ap first_moment held };

    ghost holds_on = { λ before after part rows row held taken. held };
}

/// Takes the first row if it has this moment.
#[inline(always)]
fn pop_at(rows: &mut RowQueue, moment: Tick) -> Option<Row>
    ensures first { IfSome result (λ row. (row.moment ≡ moment) × (rows.old.items ≡ row ∷ rows.new.items)) }
    ensures none { IfNone result ((rows.new.items ≡ rows.old.items) × (first_moment rows.old.items ≢ Some moment)) }
{
    if rows.first_moment() == Some(moment) {
        rows.pop_front()
    } else {
        None
    }
}

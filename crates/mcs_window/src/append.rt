ghost use Rattle.std.specs.Prelude.{◌≡◌, ◌++◌, vec_len};
ghost use Rattle.mcs_window.specs.stored.Delivery.{HasRoomFor};

use mcs_ticks::{Collector, NoMemory, Nothing, Row};

/// A collector to which the rows of another one can be appended.
pub trait Append: Collector {
    ghost use Rattle.std.specs.Prelude.{◌++◌, OnOk, List};
    ghost use Rattle.mcs_ticks.specs.declared.row.Row.{Row};

    /// The first collector has room for the rows of the second.
    ghost has_room: { Self → Self → Type 0 };

    /// Reserves room for the rows of another collector. Its own rows stay the same, also if memory
    /// runs out.
    fn make_room(&mut self, more: &Self) -> Result<(), NoMemory>
        ensures same { (held : List Row) → Self.holds self.old held → Self.holds self.new held }
        ensures room { OnOk result (has_room self.new more.now) };

    /// Appends the rows of another collector, for which there is room.
    fn append(&mut self, more: Self)
        requires { has_room self.old more }
        ensures { (held others : List Row) → Self.holds self.old held → Self.holds more others → Self.holds self.new (held ++ others) };
}

/// An empty list is replaced by the other one, so no row is copied.
impl Append for Vec<Row> {
    ghost use Rattle.std.specs.Prelude.{vec_len};
    ghost use Rattle.mcs_window.specs.stored.Delivery.{HasRoomFor};

    ghost has_room = { λ rows more. HasRoomFor rows (vec_len more) };

    fn make_room(&mut self, more: &Self) -> Result<(), NoMemory> {
        if !self.is_empty() {
            self.reserve(more.len())?;
        }
        Ok(())
    }

    fn append(&mut self, more: Self) {
        put_rows(self, more);
    }
}

/// A collector that keeps no rows needs no room.
impl Append for Nothing {
    ghost has_room = { λ _ _. Unit {0} };

    fn make_room(&mut self, _more: &Self) -> Result<(), NoMemory> {
        Ok(())
    }

    fn append(&mut self, _more: Self) {}
}

/// Appends rows to a list that has room for them. If the list is empty, the other one replaces it.
fn put_rows(rows: &mut Vec<Row>, more: Vec<Row>)
    requires { HasRoomFor rows.old (vec_len more) }
    ensures { rows.new.items ≡ rows.old.items ++ more.items }
{
    if rows.is_empty() {
        *rows = more;
        return;
    }
    let mut more = more;
    let put = rows.append(&mut more).is_ok();
    prove!(put);
}

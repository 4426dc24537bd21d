//! Turns that stand alone.
ghost use Rattle.std.specs.Prelude.{◌≡◌, ◌<◌, ℕ, true, None, IsTrue};
ghost use Rattle.mcs_ever.specs.Closed.{has};
ghost use Rattle.mcs_ever_chain.specs.Recurs.{is_from, takes_posted};
ghost use Rattle.mcs_ever_chain.specs.stored.Alone.{AreAlone, IsAlone};

use mcs_ever::CoreSet;
use mcs_ever_again::is_own;
use mcs_ticks::{CoreId, Row, What};

/// Whether a row takes what the row before it posted.
fn takes_posted(what: &What) -> bool
    ensures { result ≡ takes_posted what.now }
{
    matches!(*what, What::Hold { .. } | What::Wake { .. })
}

/// Whether a core of the set made the signal, if one arrives.
fn is_from(set: &CoreSet, what: &What) -> bool
    ensures { result ≡ is_from (has set.now) what.now }
{
    match *what {
        What::Arrive { maker, .. } => is_own(set, maker),
        _ => true,
    }
}

/// Whether a row of the set takes nothing from a row of another core before it, and no signal of a
/// core outside the set.
fn is_alone(set: &CoreSet, before: &Option<CoreId>, row: &Row) -> bool
    ensures { IsTrue result → IsAlone (has set.now) before.now row.now }
{
    if !is_own(set, row.core) {
        return true;
    }
    let follows = *before == Some(row.core);
    (follows || !takes_posted(&row.what)) && is_from(set, &row.what)
}

/// Whether the turns of the set among these rows stand alone: the first row of each takes nothing
/// that was posted before, and no signal comes from a core outside the set.
pub(crate) fn stand_alone(set: &CoreSet, rows: &[Row]) -> bool
    ensures { IsTrue result → AreAlone (has set.now) None rows.now }
{
    let mut before = None;
    for row in rows {
        if !is_alone(set, &before, row) {
            return false;
        }
        before = Some(row.core);
    }
    true
}

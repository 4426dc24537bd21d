//! Whether origins are earlier ones, later by a number of ticks.
ghost use Rattle.std.specs.Prelude.{◌≡◌, ◌↔◌, ◌+◌, ◌⊎◌, IsTrue};
ghost use Rattle.mcs_origins.specs.Later.{later_mark, later_origins, later_set};
ghost use Rattle.mcs_origins.specs.stored.Stretches.{all_of, flat};

use crate::mark::Mark;
use crate::rests::{below, rest_of};
use crate::stretch::Stretch;
use mcs_ticks::Tick;

/// Whether a moment is another one, `by` ticks later.
fn is_tick_later(before: Tick, by: u64, after: Tick) -> bool
    ensures { IsTrue result ↔ (after ≡ before + by) }
{
    by <= after.get() && after.get() - by == before.get()
}

/// Whether an origin is an earlier one, `by` ticks later, at the same places.
pub fn is_mark_later(before: &Mark, by: u64, after: &Mark) -> bool
    ensures { IsTrue result → after.now ≡ later_mark by before.now }
{
    is_tick_later(before.origin, by, after.origin) && before.places == after.places
}

/// Whether origins are the earlier ones, `by` ticks later.
pub fn are_ticks_later(before: &[Tick], by: u64, after: &[Tick]) -> bool
    ensures { IsTrue result → after.now ≡ later_origins by before.now }
{
    if before.len() != after.len() {
        return false;
    }
    for i in 0..after.len() {
        if !is_tick_later(before[i], by, after[i]) {
            return false;
        }
    }
    true
}

/// Whether the latest origins of a stretch, this many more than the last, are those of an earlier
/// one, `by` ticks later.
fn is_top_later(before: &Stretch, by: u64, after: &Stretch, more: u32) -> bool
    requires { (more ≡ 0) ⊎ (after.now.step ≡ before.now.step) }
    ensures { IsTrue result → all_of (record after.now { more = more }) ≡ later_set by (all_of (record before.now { more = more })) }
{
    if before.places != after.places {
        return false;
    }
    if !is_tick_later(before.last, by, after.last) {
        return false;
    }
    is_tick_later(before.at(more), by, after.at(more))
}

/// Whether origins and their places are the earlier ones, `by` ticks later.
pub fn are_stretches_later(before: &[Stretch], by: u64, after: &[Stretch]) -> bool
    ensures { IsTrue result → flat after.now ≡ later_set by (flat before.now) }
{
    let mut earlier = rest_of(before);
    let mut later = rest_of(after);
    while earlier.many > 0 && later.many > 0 {
        let more = earlier.top.more_of_both(&later.top);
        if !is_top_later(&earlier.top, by, &later.top, more) {
            return false;
        }
        earlier = below(before, &earlier, more);
        later = below(after, &later, more);
    }
    earlier.many == 0 && later.many == 0
}

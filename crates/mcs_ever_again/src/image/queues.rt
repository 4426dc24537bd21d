ghost use Rattle.std.specs.Prelude.{◌≡◌, ◌↔◌, map, IsTrue};
ghost use Rattle.mcs_ever.specs.Later.{later_dated};

use mcs_release::Dated;
use mcs_ticks::Queued;

/// Whether both queues have the same threads in the same order.
pub(crate) fn queues_are_same(before: &[Queued], after: &[Queued]) -> bool
    ensures { IsTrue result ↔ (after.now ≡ before.now) }
{
    after == before
}

/// Whether the release is the earlier one, `by` ticks later.
fn release_is_later(before: Dated, after: Dated, by: u64) -> bool
    ensures { IsTrue result ↔ (after ≡ later_dated by before) }
{
    let (before_date, after_date) = (before.date.get(), after.date.get());
    after.thread == before.thread && after_date >= before_date && after_date - before_date == by
}

/// Whether the releases are the earlier ones, in the same order, `by` ticks later.
pub(crate) fn releases_are_later(before: &[Dated], after: &[Dated], by: u64) -> bool
    ensures { IsTrue result ↔ (after.now ≡ map (later_dated by) before.now) }
{
    if before.len() != after.len() {
        return false;
    }
    for i in 0..before.len() {
        if !release_is_later(before[i], after[i], by) {
            return false;
        }
    }
    true
}

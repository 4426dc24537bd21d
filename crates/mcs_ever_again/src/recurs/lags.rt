ghost use Rattle.std.specs.Prelude.{true, IfOk, IfSome};
ghost use Rattle.mcs_ever_again.specs.Told.{IsAgain, GroupIsAgain};

use crate::image::{CoreImage, Lags};
use crate::recurs::group::is_own;
use mcs_ever::CoreSet;
use mcs_system::System;
use mcs_ticks::{CoreId, NoMemory};
use std::alloc::Global;

/// The lags of one core against its image `by` ticks earlier; `None` if anything else differs, or
/// if the lags are no shift.
fn core_lags(
    alloc: Global,
    system: &System,
    before: &CoreImage,
    after: &CoreImage,
    by: u64,
) -> Result<Option<Lags>, NoMemory>
    ensures { IfOk result (λ found. IfSome found (λ lags. IsAgain system.now by true before.now after.now lags)) }
{
    let Some(lags) = after.lags(alloc, before, by)? else {
        return Ok(None);
    };
    if !lags.is_shift(system, by) {
        return Ok(None);
    }
    Ok(Some(lags))
}

/// Returns the lags of each core of the group against its image `by` ticks earlier, and `None` for
/// the other cores. Returns no list if a core of the group differs in anything else. Fails only if
/// memory runs out.
pub(crate) fn group_lags(
    alloc: Global,
    system: &System,
    group: &CoreSet,
    by: u64,
    before: &[CoreImage],
    after: &[CoreImage],
) -> Result<Option<Vec<Option<Lags>>>, NoMemory>
    ensures { IfOk result
        (λ found. IfSome found (λ lags. GroupIsAgain system.now by group.now before.now after.now lags.items)) }
{
    if before.len() != after.len() {
        return Ok(None);
    }
    let mut lags = Vec::with_capacity(alloc, before.len())?;
    for core in 0..before.len() {
        if !is_own(group, CoreId(core)) {
            lags.push(None)?;
            continue;
        }
        let Some(found) = core_lags(alloc, system, &before[core], &after[core], by)? else {
            return Ok(None);
        };
        lags.push(Some(found))?;
    }
    Ok(Some(lags))
}

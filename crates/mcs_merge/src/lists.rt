ghost use Rattle.std.specs.Prelude.{◌≡◌, All, IfOk};
ghost use Rattle.mcs_merge.specs.Merge.{merged, AreJoined, AreMerged, DoNotFall};
ghost use Rattle.mcs_merge.specs.Lists.{rows_of_lists};

use mcs_ticks::{NoMemory, Row};
use std::alloc::Global;

/// Merges the rows of all cores by moment, then core, then place. List `c` has the rows of core
/// `c`, and their moments do not fall.
///
/// Takes time in the order of `n * log c` for `n` rows of `c` cores. A single list is returned
/// unchanged; otherwise lists are freed as they are joined. Fails with `NoMemory` if memory runs
/// out.
pub fn merge(alloc: Global, lists: Vec<Vec<Row>>) -> Result<Vec<Row>, NoMemory>
    requires in_order { All (λ rows. DoNotFall rows.items) lists.items }
    ensures { IfOk result (λ rows. rows.items ≡ merged (rows_of_lists lists.items)) }
{
    let rows = merge_lists(alloc, lists)?;
    Ok(rows)
}

/// Merges the first half and the second half, then joins them.
fn merge_lists(alloc: Global, mut lists: Vec<Vec<Row>>) -> Result<Vec<Row>, NoMemory>
    requires in_order { All (λ rows. DoNotFall rows.items) lists.items }
    ensures { IfOk result (λ rows. AreMerged (rows_of_lists lists.items) rows.items) }
{
    if lists.len() < 2 {
        return Ok(lists.pop().unwrap_or(Vec::new(alloc)));
    }
    let back = lists.split_off(lists.len() / 2)?;
    let first = merge_lists(alloc, lists)?;
    let second = merge_lists(alloc, back)?;
    let rows = join(alloc, first.as_slice(), second.as_slice())?;
    Ok(rows)
}

/// Joins two lists in order of the moments; at equal moments the rows of the first list come first.
fn join(alloc: Global, first: &[Row], second: &[Row]) -> Result<Vec<Row>, NoMemory>
    requires first { DoNotFall first.now }
    requires second { DoNotFall second.now }
    ensures { IfOk result (λ rows. AreJoined first.now second.now rows.items) }
{
    let mut rows = Vec::with_capacity(alloc, first.len() + second.len())?;
    let (mut left, mut right) = (first, second);
    'heads: while let (Some((x, after_x)), Some((y, after_y))) = (
        left.split_first(),
        right.split_first(),
    ) {
        if x.moment <= y.moment {
            rows.push(*x)?;
            left = after_x;
        } else {
            rows.push(*y)?;
            right = after_y;
        }
    }
    rows.extend_from_slice(left)?;
    rows.extend_from_slice(right)?;
    Ok(rows)
}

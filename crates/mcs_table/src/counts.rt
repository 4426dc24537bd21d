ghost use Rattle.std.specs.Prelude.{◌≡◌, ℕ, ◌+◌, if◌then◌else◌, IfOk};
ghost use Rattle.mcs_table.specs.Signals.{is_note, lost_note, held_note, merged_note};
ghost use Rattle.mcs_table.specs.Table.{counts_of};

use mcs_ticks::{NoMemory, NoteId, What};
use mcs_verdict::Finding;
use std::alloc::Global;

/// A count of 0 for each of `notes` notifications.
pub(crate) fn no_counts(alloc: Global, notes: usize) -> Result<Vec<u64>, NoMemory>
    ensures { IfOk result (λ counts. counts.items ≡ counts_of (λ note. 0) notes) }
{
    Ok(vec![in alloc; 0; notes]?)
}

/// Counts one more at this notification, if there is one.
pub(crate) fn count_at(counts: &mut [u64], place: Option<NoteId>)
    ensures { (before : ℕ → ℕ) (notes : ℕ) → counts.old ≡ counts_of before notes →
        counts.new ≡ counts_of (λ note. (if is_note note place then 1 else 0) + before note) notes }
{
    if let Some(note) = place {
        if note.0 < counts.len() {
            counts[note.0] = counts[note.0].saturating_add(1);
        }
    }
}

/// The notification of a lost signal, if that is the finding.
pub(crate) fn lost_note(found: Option<Finding>) -> Option<NoteId>
    ensures { result ≡ lost_note found }
{
    match found? {
        Finding::Lost { note, .. } => Some(note),
        _ => None,
    }
}

/// The notification that a signal changed, if the row shows one.
fn held_note(what: &What) -> Option<NoteId>
    ensures { result ≡ held_note what.now }
{
    match *what {
        What::Hold { note, .. } => Some(note),
        _ => None,
    }
}

/// The notification at which the row merges a signal, if it does.
pub(crate) fn merged_note(is_merged: bool, what: &What) -> Option<NoteId>
    ensures { result ≡ merged_note is_merged what.now }
{
    if is_merged { held_note(what) } else { None }
}

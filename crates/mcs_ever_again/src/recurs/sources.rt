ghost use Rattle.std.specs.Prelude.{◌≡◌, IsTrue};
ghost use Rattle.mcs_system.specs.System.{note_part, source_part};
ghost use Rattle.mcs_ever_again.specs.Sources.{GoOn, OwnGoOn, AlarmsAreLater};

use crate::recurs::group::is_own;
use mcs_ever::CoreSet;
use mcs_system::{Beat, System};
use mcs_ticks::{CoreId, NoteId};

/// The core on which a beat's source interrupts: that of its notification.
fn home_of(system: &System, beat: &Beat) -> CoreId
    ensures { result ≡ (note_part system.now (source_part system.now beat.now.source).note).core }
{
    let note = match system.parts().sources.as_slice().get(beat.source.0) {
        Some(source) => source.note,
        None => NoteId(0),
    };
    system.home_of(note)
}

/// Whether the dates of a source from `from` + `by` on are those from `from` on, `by` ticks later.
/// Either they have no end, the first is at most `from`, and `by` is a multiple of their period; or
/// the last one comes before `from`.
fn go_on(beat: &Beat, from: u64, by: u64) -> bool
    ensures { IsTrue result → GoOn from by beat.now }
{
    let first = beat.first.get();
    let period = beat.period;
    let count = beat.count;
    if period == 0 {
        return false;
    }
    if count == 0 {
        return first <= from && by % period == 0;
    }
    if from <= first {
        return false;
    }
    count - 1 <= (from - first - 1) / period
}

/// Whether this holds, if the source interrupts on a core of the group.
fn own_go_on(system: &System, group: &CoreSet, from: u64, by: u64, beat: &Beat) -> bool
    ensures { IsTrue result → OwnGoOn system.now group.now from by beat.now }
{
    if !is_own(group, home_of(system, beat)) {
        return true;
    }
    go_on(beat, from, by)
}

/// Whether each source that interrupts on a core of the group has its next date `by` ticks later,
/// and as many dates left. Allocates no memory.
pub(crate) fn sources_are_later(system: &System, group: &CoreSet, from: u64, by: u64) -> bool
    ensures { IsTrue result → AlarmsAreLater system.now group.now from by }
{
    for beat in system.parts().beats.as_slice() {
        if !own_go_on(system, group, from, by, beat) {
            return false;
        }
    }
    true
}

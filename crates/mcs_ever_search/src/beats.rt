use mcs_ever::CoreSet;
use mcs_ever_again::is_own;
use mcs_system::{Beat, System, SystemParts};
use mcs_ticks::NoteId;

/// The notification to which a source posts.
fn note_of(parts: &SystemParts, beat: &Beat) -> NoteId {
    match parts.sources.as_slice().get(beat.source.0) {
        Some(source) => source.note,
        None => NoteId(0),
    }
}

/// Whether each source that posts to a core of the group may have the same dates again after `by`
/// ticks. `by` must be a multiple of the period of each source without an end. If not, the group
/// does not recur after `by` ticks, and its images need not be compared.
pub(crate) fn may_beat_again(system: &System, group: &CoreSet, by: u64) -> bool {
    let parts = system.parts();
    for beat in parts.beats.as_slice() {
        let note = note_of(parts, beat);
        let ends = beat.count != 0 || beat.period == 0;
        if !ends && by % beat.period != 0 && is_own(group, system.home_of(note)) {
            return false;
        }
    }
    true
}

/// The greatest common divisor of two numbers. Euclid's algorithm takes at most 93 steps.
fn divisor(a: u64, b: u64) -> u64 {
    let (mut greater, mut lesser) = (a, b);
    for _ in 0..100 {
        if lesser == 0 {
            return greater;
        }
        let rest = greater % lesser;
        greater = lesser;
        lesser = rest;
    }
    greater
}

/// The least common multiple of two numbers, at most 2^64 - 1.
fn multiple(a: u64, b: u64) -> u64 {
    (a / divisor(a, b).max(1)).saturating_mul(b)
}

/// The time after which the dates of the sources that post to a core of the group come again: the
/// least common multiple of the periods of those without an end, at most 2^64 - 1. It is 1 if there
/// is none. A group recurs only after a multiple of it.
pub fn beat_of(system: &System, group: &CoreSet) -> u64 {
    let parts = system.parts();
    let mut all = 1;
    for beat in parts.beats.as_slice() {
        let ends = beat.count != 0 || beat.period == 0;
        if !ends && is_own(group, system.home_of(note_of(parts, beat))) {
            all = multiple(all, beat.period);
        }
    }
    all
}

/// Whether some source has no end. The system then never rests.
pub(crate) fn beats_for_ever(parts: &SystemParts) -> bool {
    for beat in parts.beats.as_slice() {
        if beat.count == 0 && beat.period != 0 {
            return true;
        }
    }
    false
}

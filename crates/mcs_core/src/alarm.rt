use mcs_ticks::{NoteId, Soonest, SourceId};

/// The next date of a source, or never, among dates that are a period apart, and the number of
/// dates after it.
#[derive(Clone, Copy, Debug)]
pub struct Alarm {
    pub source: SourceId,
    pub note: NoteId,
    pub badge: u32,
    pub date: Soonest,
    pub period: u64,
    /// 2^64 - 1 for dates without end.
    pub left: u64,
}

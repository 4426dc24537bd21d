use crate::Stood;
use mcs_ticks::{CoreId, NoteId, ThreadId, Tick};

/// A finding about a thread or a notification. Amounts are in ticks.
#[derive(Clone, Copy, Debug, PartialEq, Eq)]
pub enum Finding {
    /// A deadline miss: a round ended, and its response from its activation was above the deadline.
    /// The round before it ended, or the thread started, `queued` ticks after its activation;
    /// `stood` counts from then on, or from its activation if that came later.
    Miss {
        thread: ThreadId,
        number: u64,
        response: u64,
        deadline: u64,
        activated: Tick,
        queued: u64,
        stood: Stood,
    },
    /// A round that is under way at the horizon and was activated `age` ticks before, a deadline or
    /// more. It can only end with a miss.
    Overdue {
        thread: ThreadId,
        number: u64,
        age: u64,
        deadline: u64,
        activated: Tick,
        queued: u64,
        stood: Stood,
    },
    /// A word that was set `age` ticks before the horizon and that no thread has taken. Each thread
    /// that may take it would begin a round with it and miss its deadline. `deadline` is the
    /// greatest of these deadlines, at most `age`.
    Untaken {
        note: NoteId,
        word: u32,
        age: u64,
        deadline: u64,
        set: Tick,
    },
    /// A lost activation: a signal or an interrupt changed nothing, since its bits were pending.
    Lost {
        note: NoteId,
        word: u32,
    },
    /// A thread with a deadline of which no round could begin up to the horizon. Its script begins
    /// with a wait, and no thread was given a word of that wait; or it was never ready or running.
    Never {
        thread: ThreadId,
        deadline: u64,
    },
}

/// A finding with the time and the core of its row. Findings are in the order of the rows.
#[derive(Clone, Copy, Debug, PartialEq, Eq)]
pub struct Found {
    pub moment: Tick,
    pub core: CoreId,
    pub finding: Finding,
}

use crate::{ContextId, CoreId, NoteId, SourceId, ThreadId, Tick};

/// Why a thread stops.
#[derive(Clone, Copy, Debug, PartialEq, Eq)]
pub enum Why {
    /// The head of its context's refills, or its time slice, is exhausted.
    Spent,
    /// It yielded: the whole head is charged, including ticks that it did not run.
    Yield,
    /// It waits on a notification whose word is 0.
    Wait,
    /// It calls a server that is not free.
    Call,
    /// It finished its last round.
    Done,
    /// A thread of higher priority is ready.
    Preempt,
    /// A SchedControl order reconfigures its context.
    Order,
}

/// The event that a row of the schedule reports. Amounts and responses are in ticks.
#[derive(Clone, Copy, Debug, PartialEq, Eq)]
pub enum What {
    /// The thread leaves the release queue.
    Release {
        thread: ThreadId,
    },
    /// The thread is chosen to run.
    Run {
        thread: ThreadId,
    },
    /// The thread stops and its context is charged `charged` ticks. It enters the release queue
    /// with the date `until`; if that is `None`, it does not enter.
    Stop {
        thread: ThreadId,
        why: Why,
        charged: u64,
        until: Option<Tick>,
    },
    /// The thread's signal takes effect.
    Signal {
        thread: ThreadId,
        note: NoteId,
        badge: u32,
    },
    /// A signal from the core `maker` arrives.
    Arrive {
        note: NoteId,
        badge: u32,
        maker: CoreId,
    },
    /// The thread is woken with this word. It enters the release queue with the date `until`; if
    /// that is `None`, it has budget and enters a ready queue.
    Wake {
        thread: ThreadId,
        note: NoteId,
        word: u32,
        until: Option<Tick>,
    },
    /// No thread waits; `word` is the notification's word after the badge was ORed in.
    Hold {
        note: NoteId,
        word: u32,
    },
    /// The thread's wait took this word without blocking.
    Got {
        thread: ThreadId,
        note: NoteId,
        word: u32,
    },
    /// A round of the thread ended: its number, from 1, and its response time, from its beginning
    /// to its end.
    Round {
        thread: ThreadId,
        number: u64,
        response: u64,
    },
    /// A SchedControl order for the context is applied.
    Order {
        context: ContextId,
    },
    /// A source interrupts and posts this badge.
    Interrupt {
        source: SourceId,
        note: NoteId,
        badge: u32,
    },
}

/// A row of the schedule: what happened on a core at a moment.
#[derive(Clone, Copy, Debug, PartialEq, Eq)]
pub struct Row {
    pub moment: Tick,
    pub core: CoreId,
    pub what: What,
}

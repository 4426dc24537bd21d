//! The lines of a check for all time, in words or as JSON objects.

mod cores;
mod object;
mod put;
mod takers;
mod text;
mod thread;
mod word;

use mcs_ever::CoreSet;
use mcs_ticks::{NoteId, ThreadId, Tick};
pub use put::{put_line, put_lines};

/// The format of lines.
#[derive(Clone, Copy, Debug, PartialEq, Eq)]
pub enum LineFormat {
    /// Words.
    Text,
    /// A JSON object for each line.
    Json,
}

/// How often something is found.
#[derive(Clone, Copy, Debug, PartialEq, Eq)]
pub enum Often {
    /// The counts in each period, for ever, and before the first one.
    Forever { before: u64, each_period: u64 },
    /// The count up to the horizon, for cores that were not found to recur.
    SoFar { times: u64 },
}

/// How much was looked at in a check for all time, and how much was found.
#[derive(Clone, Copy, Debug, PartialEq, Eq)]
pub struct Totals {
    /// The sets of cores.
    pub sets: u64,
    /// The sets that recur.
    pub repeating: u64,
    /// The findings of all sets.
    pub findings: u64,
    /// The threads of the file.
    pub threads: u64,
    /// The threads with a deadline.
    pub deadlines: u64,
}

/// A line of a check for all time. A set of cores is written as those of its cores that the system
/// has.
#[derive(Clone, Copy, Debug, PartialEq, Eq)]
pub enum Line {
    /// All that these cores do recurs with this period in ticks, from this time on, for ever.
    Repeats {
        cores: CoreSet,
        from: Tick,
        period: u64,
    },
    /// No recurrence of these cores was found up to the horizon.
    Open {
        cores: CoreSet,
        horizon: Tick,
    },
    /// The deadline misses of the thread.
    Miss {
        thread: ThreadId,
        often: Often,
    },
    /// The signals lost at the notification.
    Lost {
        note: NoteId,
        often: Often,
    },
    /// A round of the thread is overdue at this time; no recurrence was found.
    Overdue {
        thread: ThreadId,
        moment: Tick,
    },
    /// The thread has a deadline, and was not activated for a round up to this time; no recurrence
    /// was found.
    Never {
        thread: ThreadId,
        moment: Tick,
    },
    /// Nobody has taken the word of the notification, and each thread that takes it misses its
    /// deadline at this time; no recurrence was found.
    Untaken {
        note: NoteId,
        moment: Tick,
    },
    /// The round of the thread with this number, which was activated at this time, never ends. The
    /// thread has a deadline.
    Endless {
        thread: ThreadId,
        number: u64,
        activated: Tick,
    },
    /// The thread has a deadline, and is never activated for a round.
    Inactive {
        thread: ThreadId,
    },
    /// Nobody ever takes this word of the notification, which was set at this time. Each thread
    /// that may take it has a deadline.
    Abandoned {
        note: NoteId,
        word: u32,
        set: Tick,
    },
    /// The maximum response of all rounds of the thread that ever end, if one does; whether the
    /// thread never stops with its budget exhausted; and the time from which on it ends no round,
    /// if there is one.
    Thread {
        thread: ThreadId,
        greatest: Option<u64>,
        never_throttled: bool,
        silent_from: Option<Tick>,
    },
    /// The thread computes without end: its script is the one item `spin`, and none of its rounds
    /// ever ends. Also whether it never stops with its budget exhausted; `false` if no recurrence
    /// was found.
    Computes {
        thread: ThreadId,
        never_throttled: bool,
    },
    /// The maximum response of the rounds of the thread that ended up to the horizon, if one did;
    /// no recurrence was found.
    ThreadSoFar {
        thread: ThreadId,
        greatest: Option<u64>,
    },
    /// These cores have no finding at any horizon.
    Clean {
        cores: CoreSet,
    },
    /// How much was looked at and found.
    Sets {
        totals: Totals,
    },
}

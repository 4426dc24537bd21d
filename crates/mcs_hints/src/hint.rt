use mcs_chain::ChainId;
use mcs_ticks::{ContextId, CoreId, NoteId, SourceId, ThreadId};

/// A likely mistake in a system.
#[derive(Clone, Copy, Debug, PartialEq, Eq)]
pub enum Hint {
    /// The file has no thread.
    NoThread,
    /// Neither a thread nor a chain has a deadline.
    NoDeadline,
    /// A script waits on the notification, and neither a script nor a source signals it.
    Unsignalled {
        note: NoteId,
    },
    /// The source interrupts on the notification, and no script waits on it.
    Unawaited {
        source: SourceId,
        note: NoteId,
    },
    /// The source interrupts on the notification with this badge, 1 to 2^32 - 1. Scripts wait on
    /// it, and no script takes the badge.
    Unhandled {
        source: SourceId,
        note: NoteId,
        badge: u32,
    },
    /// The thread signals the notification with this badge, 1 to 2^32 - 1. Scripts wait on it, and
    /// no script takes the badge. Only the first such signal of a thread has a hint.
    Unheard {
        thread: ThreadId,
        note: NoteId,
        badge: u32,
    },
    /// The thread calls the server at a priority that is not below the server's. Only the first
    /// such call of a thread has a hint. `priority` is the server's, 0 to 255, and `caller` that of
    /// the thread at the call.
    Inverted {
        thread: ThreadId,
        server: NoteId,
        priority: u8,
        caller: u8,
    },
    /// No signal leads from the chain's source to its thread: whatever the schedule is, no job of
    /// the thread answers an interrupt of the source.
    Unreached {
        chain: ChainId,
        source: SourceId,
        thread: ThreadId,
    },
    /// No thread is bound to the context.
    Unbound {
        context: ContextId,
    },
    /// No thread is bound to a context of the core.
    Unused {
        core: CoreId,
    },
    /// The core is overcommitted: the exact total utilisation of its contexts is above 1.
    /// `millionths` is the sum of their utilisations in ppm, each rounded down, and at least
    /// 1,000,001.
    Overcommitted {
        core: CoreId,
        millionths: u64,
    },
}

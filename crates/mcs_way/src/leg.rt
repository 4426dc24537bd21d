use mcs_ticks::{CoreId, NoteId, ThreadId, Tick};
use mcs_verdict::Stood;

/// The carrier of the interrupt during a leg.
#[derive(Clone, Copy, Debug, PartialEq, Eq)]
pub enum Carrier {
    /// A notification, which holds it.
    Note(NoteId),
    /// A thread. The counts are the ticks in which it stood in each way during the leg.
    Thread(ThreadId, Stood),
    /// A signal, which is under way from the first core to the second one.
    Signal(CoreId, CoreId),
}

/// A leg of the way from an interrupt to its answer.
#[derive(Clone, Copy, Debug, PartialEq, Eq)]
pub struct Leg {
    pub carrier: Carrier,
    pub from: Tick,
    pub to: Tick,
}

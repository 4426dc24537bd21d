use mcs_ticks::Tick;

/// An origin in a set of origins, and at which places it is there.
#[derive(Clone, Copy, Debug, PartialEq, Eq)]
pub struct Mark {
    /// The moment of its interrupt.
    pub origin: Tick,
    /// The bits of a word at which it is; and 2^32 if it is in a thread's free set.
    pub places: u64,
}

use mcs_ticks::CoreId;
use mcs_verdict::Stood;

/// How far a thread's worst response is from its deadline, in ticks.
#[derive(Clone, Copy, Debug, PartialEq, Eq)]
pub enum Margin {
    /// Ticks before the deadline; 0 at the deadline itself.
    Left(u64),
    /// Ticks after the deadline.
    Over(u64),
}

/// The rounds of a thread that ended (jobs). A response is in ticks, from the round's activation to
/// its end. Counts saturate at 2^64 - 1.
#[derive(Clone, Copy, Debug, PartialEq, Eq)]
pub struct Rounds {
    /// Number of rounds that ended.
    pub ended: u64,
    /// The worst response. This and the percentiles are `None` if no round ended.
    pub greatest: Option<u64>,
    /// The 50th percentile of the responses, by nearest rank. The value is from the percentile to
    /// 1/64 of it above, and at most the worst response; the same holds for the two below.
    pub fiftieth: Option<u64>,
    /// The 90th percentile.
    pub ninetieth: Option<u64>,
    /// The 99th percentile.
    pub ninety_ninth: Option<u64>,
    /// Deadline misses: rounds whose response was above the deadline.
    pub missed: u64,
    /// Rounds whose `round` row has a response above the deadline; it counts from the round's
    /// beginning.
    pub late: u64,
}

/// A thread's share of its core, by the first configuration of its context. Shares are in ppm
/// (1,000,000 = 100 %), rounded down.
#[derive(Clone, Copy, Debug, PartialEq, Eq)]
pub struct Share {
    /// The budget of its context, in ticks.
    pub budget: u64,
    /// The period of its context, in ticks.
    pub period: u64,
    /// Its utilisation: its budget over its period.
    pub granted: u64,
    /// The ticks that it ran over the horizon; 0 if the horizon is 0.
    pub used: u64,
}

/// Coalesced signals of a notification, which came while no thread waited on it. Counts saturate at
/// 2^64 - 1.
#[derive(Clone, Copy, Debug, PartialEq, Eq)]
pub struct Signals {
    /// Lost activations: signals that changed nothing, since their bits were pending.
    pub lost: u64,
    /// Merged signals, which added bits to a word that was not 0.
    pub merged: u64,
}

/// The figures of a thread.
#[derive(Clone, Copy, Debug, PartialEq, Eq)]
pub struct Figures {
    pub core: CoreId,
    pub priority: u8,
    pub share: Share,
    pub rounds: Rounds,
    /// Ticks within which each response has to come; 0 if there is no deadline.
    pub deadline: u64,
    /// How far the worst response is from the deadline, if there are both.
    pub margin: Option<Margin>,
    /// The signals of the notification for which its script waits first, if it begins with a wait.
    pub signals: Option<Signals>,
    /// How it stood in the ticks up to the horizon.
    pub stood: Stood,
}

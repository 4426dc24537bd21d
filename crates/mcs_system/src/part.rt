use crate::Name;
use mcs_control::{Config, Mode, Order};
use mcs_script::Script;
use mcs_ticks::{ContextId, CoreId, NoteId, Sequence, SourceId, ThreadId, Tick};

/// A scheduling context of a system: a budget on a core.
#[derive(Debug, PartialEq, Eq, Drop)]
pub struct ContextPart {
    pub name: Name,
    pub core: CoreId,
    pub config: Config,
    /// When it is unblocked. An order does not change the mode. A round-robin context has mode
    /// `Sporadic`.
    pub mode: Mode,
}

/// A notification or a server of a system, with its home core.
#[derive(Debug, PartialEq, Eq, Drop)]
pub struct NotePart {
    pub name: Name,
    pub core: CoreId,
    /// The initial word. A server that is free holds 1.
    pub word: u32,
}

/// A source of interrupts: a device or a timer, which posts a badge on a notification.
#[derive(Debug, PartialEq, Eq, Drop)]
pub struct SourcePart {
    pub name: Name,
    pub note: NoteId,
    /// 1 to 2^32 - 1.
    pub badge: u32,
}

/// Dates of a source: a first date, and further ones at intervals of a period.
#[derive(Clone, Copy, Debug, PartialEq, Eq)]
pub struct Beat {
    pub source: SourceId,
    /// At most 2^41.
    pub first: Tick,
    /// 1 to 2^40.
    pub period: u64,
    /// The number of dates; 0 sets no limit.
    pub count: u64,
}

impl Beat {
    /// Maximum beats of a system; minimum 0.
    pub const MOST: usize = 4_096;
}

/// An end-to-end chain from the interrupts of a source to the ends of a thread's rounds. It does
/// not affect the schedule.
#[derive(Debug, PartialEq, Eq, Drop)]
pub struct ChainPart {
    pub name: Name,
    pub source: SourceId,
    pub thread: ThreadId,
    /// The badges of the rounds that answer an interrupt; 0 means any.
    pub badges: u32,
    /// The end-to-end deadline in ticks: the time within which each interrupt must be answered, at
    /// most 2^40; 0 sets no deadline.
    pub deadline: u64,
}

impl ChainPart {
    /// Maximum chains of a system; minimum 0.
    pub const MOST: usize = 4_096;
}

/// A thread of a system. Its core is that of its context.
#[derive(Debug, Drop)]
pub struct ThreadPart {
    pub name: Name,
    /// The context to which it is bound.
    pub context: ContextId,
    /// 0 to 255; a greater number is a higher priority.
    pub priority: u8,
    /// The time at which it may first run, at most 2^40.
    pub start: Tick,
    /// How many rounds (jobs) it runs, at most 2^40; 0 means until the horizon.
    pub rounds: u64,
    /// The deadline of each response in ticks, at most 2^40; 0 sets no deadline.
    pub deadline: u64,
    /// The script of a round.
    pub script: Script,
}

/// A separate delay for the signals from one core to another.
#[derive(Clone, Copy, Debug, PartialEq, Eq)]
pub struct Link {
    /// The core that makes the signals.
    pub maker: CoreId,
    /// The home core of their notifications. It differs from `maker`.
    pub home: CoreId,
    /// The delay of such a signal in ticks, 1 to 2^20.
    pub delay: u64,
}

impl Link {
    /// Maximum links of a system; minimum 0.
    pub const MOST: usize = 4_096;
}

/// The contents of a file. Each thing is numbered by its place in its list.
#[derive(Debug, Drop)]
pub struct SystemParts {
    /// The number of cores, 1 to 64.
    pub cores: usize,
    /// The delay of a cross-core signal without a link, in ticks, 1 to 2^20.
    pub delay: u64,
    /// The cost of a kernel call such as `signal` or `wait`, in ticks, 1 to 2^16.
    pub call: u64,
    /// The fewest ticks of the head of a refill list after a charge, 1 to 2^20.
    pub min_budget: u64,
    pub contexts: Sequence<ContextPart>,
    /// The notifications, followed by the servers.
    pub notes: Sequence<NotePart>,
    /// How many of the notes are servers; these are the last ones.
    pub servers: usize,
    pub threads: Sequence<ThreadPart>,
    pub orders: Sequence<Order>,
    /// The pairs of cores with a separate delay, at most 4,096; no pair occurs twice.
    pub links: Sequence<Link>,
    pub sources: Sequence<SourcePart>,
    /// The dates of the sources, in the order of the sources; the beats of one source are in the
    /// order of their dates within a period.
    pub beats: Sequence<Beat>,
    pub chains: Sequence<ChainPart>,
}

/// The limits of a system and of a run (profile M). A value outside its range is refused when a
/// file is read. Times and amounts are in ticks.
pub struct Limits;

impl Limits {
    /// Maximum cores of a system; minimum 1.
    pub const CORES: usize = 64;

    /// Maximum scheduling contexts of a system; minimum 0.
    pub const CONTEXTS: usize = 4_096;

    /// Maximum notifications and servers of a system, taken together; minimum 0.
    pub const NOTES: usize = 4_096;

    /// Maximum interrupt sources of a system; minimum 0.
    pub const SOURCES: usize = 4_096;

    /// Maximum dates of a source in one of its periods; minimum 1.
    pub const DATES: usize = 1_024;

    /// Maximum threads of a system; minimum 0.
    pub const THREADS: usize = 4_096;

    /// Maximum SchedControl orders (reconfigurations) of a system; minimum 0.
    pub const ORDERS: usize = 4_096;

    /// Maximum items of a script; minimum 1.
    pub const ITEMS: usize = 1_024;

    /// Maximum characters of a name; minimum 1.
    pub const NAME: usize = 32;

    /// Maximum delay of a cross-core signal, in ticks; minimum 1.
    pub const DELAY: u64 = 1 << 20;

    /// Maximum cost of a `signal`, a `wait` or a `yield`, in ticks; minimum 1.
    pub const CALL: u64 = 1 << 16;

    /// Maximum of `min_budget`, the fewest ticks that the head of a refill list has; minimum 1.
    pub const MIN_BUDGET: u64 = 1 << 20;

    /// Maximum horizon of a run, its last moment; minimum 0.
    pub const HORIZON: u64 = 1 << 40;

    /// Maximum start of a thread; minimum 0.
    pub const START: u64 = 1 << 40;

    /// Maximum rounds (jobs) of a thread; minimum 1, and 0 sets no limit.
    pub const ROUNDS: u64 = 1 << 40;

    /// Maximum deadline of a response, in ticks; minimum 1, and 0 sets no deadline.
    pub const DEADLINE: u64 = 1 << 40;

    /// Maximum time of an order; minimum 0.
    pub const ORDER_MOMENT: u64 = 1 << 40;

    /// Maximum period of a context, in ticks; minimum 1. A budget is at most its period.
    pub const PERIOD: u64 = 1 << 40;

    /// Maximum ticks of a `compute`; minimum 1.
    pub const COMPUTE: u64 = 1 << 40;

    /// Maximum refills of a context beyond two; minimum 0.
    pub const EXTRA_REFILLS: u64 = 64;

    /// Maximum priority of a thread; minimum 0. A greater number is a higher priority.
    pub const PRIORITY: u64 = 255;

    /// Maximum badge of a signal; minimum 1.
    pub const BADGE: u64 = (1 << 32) - 1;

    /// Maximum workers of a run; minimum 1.
    pub const WORKERS: u64 = 64;

    /// Maximum length of a file's text, in bytes; minimum 0.
    pub const FILE: usize = 1 << 26;

    /// The latest moment that a [`Tick`](crate::Tick) can hold. No run reaches it.
    pub const TICK: u64 = 1 << 42;
}

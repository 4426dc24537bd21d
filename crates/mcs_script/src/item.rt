ghost use Rattle.std.specs.Prelude.{◌≡◌};
ghost use Rattle.mcs_script.specs.Script.{cost, is_on, badges_in, passes_after};

use mcs_ticks::NoteId;

/// An item of a script: the next action of a thread. Notifications and servers are given by their
/// numbers (profile M).
#[derive(Clone, Copy, Debug, PartialEq, Eq)]
pub enum Item {
    /// Run for this many ticks, 1 to 2^40.
    Compute(u64),
    /// Post this badge, 1 to 2^32 - 1, to the notification.
    Signal(NoteId, u32),
    /// Wait on the notification until it gives a word.
    Wait(NoteId),
    /// Give up the rest of the head refill, or of the time slice.
    Yield,
    /// Begin a handler of these badges, 1 to 2^32 - 1. The items up to the next handler run only if
    /// the round's word has one of them. Takes no time.
    On(u32),
    /// Run without end.
    Spin,
    /// Enter the server, and continue at this priority.
    Enter(NoteId, u8),
    /// Leave the server, and continue at this priority.
    Leave(NoteId, u8),
}

impl Item {
    /// The remaining ticks of an item that never ends.
    pub const NEVER: u64 = u64::MAX;

    /// Whether it begins a handler.
    pub(crate) fn is_on(&self) -> bool
        ensures { result ≡ is_on self.now }
    {
        matches!(self, Item::On(_))
    }

    /// Returns its badges if it begins a handler, otherwise 0.
    pub(crate) fn badges(self) -> u32
        ensures { result ≡ badges_in self }
    {
        match self {
            Item::On(badges) => badges,
            _ => 0,
        }
    }

    /// Whether a thread skips the items after this one, if `passes` says whether it skips this one.
    /// At the start of a handler its badges decide.
    pub(crate) fn passes_after(&self, word: u32, passes: bool) -> bool
        ensures { result ≡ passes_after word passes self.now }
    {
        match self {
            Item::On(badges) => word & *badges == 0,
            _ => passes,
        }
    }

    /// Returns the ticks that the item costs: `call` for each item except `compute`, `spin` and
    /// `on`.
    #[inline(always)]
    pub(crate) fn cost(&self, call: u64) -> u64
        ensures { result ≡ cost call self.now }
    {
        match self {
            Item::Compute(ticks) => *ticks,
            _ => self.cost_of_call(call),
        }
    }

    /// Returns the ticks that the item costs. It is apart from `cost`, since most items are
    /// `compute`, and a turn is faster if it looks for these alone.
    #[inline(never)]
    fn cost_of_call(&self, call: u64) -> u64
        ensures { result ≡ cost call self.now }
    {
        match self {
            Item::Compute(ticks) => *ticks,
            Item::Signal(..) | Item::Wait(_) | Item::Yield | Item::Enter(..) | Item::Leave(..) =>
                call,
            Item::On(_) => 0,
            Item::Spin => Item::NEVER,
        }
    }
}

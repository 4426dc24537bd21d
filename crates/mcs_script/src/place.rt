ghost use Rattle.std.specs.Prelude.{◌≡◌, ◌<◌, length, slice_get};
ghost use Rattle.mcs_script.specs.Script.{first_place, goes_to, move_after, place_after, priority_after, heard, left_after};

use crate::{Item, Moved, Script};

/// How far a thread is in its script.
#[derive(Clone, Copy, Debug, PartialEq, Eq)]
pub struct Place {
    /// The round, from 1.
    pub round: u64,
    /// The number of the item, from 0.
    pub item: usize,
    /// The remaining ticks of the item.
    pub left: u64,
    /// The badges of the round's word that a handler takes; 0 at the first item of the script.
    pub word: u32,
    /// The priority of the thread here: that of the thread, or of the server that it is in.
    pub priority: u8,
}

impl Place {
    /// Returns the start of the first round of a thread with this priority. A kernel call costs
    /// `call` ticks.
    pub fn first(script: &Script, call: u64, priority: u8) -> Self
        ensures { result ≡ first_place call priority script.now }
    {
        Place {
            round: 1,
            item: 0,
            left: script.cost_at(call, 0),
            word: 0,
            priority,
        }
    }

    /// Advances past the current item: to the next item that the thread runs, or to the first item
    /// of the next round. After the last of `rounds` rounds the place does not change; 0 sets no
    /// last round. The round number stays at 2^64 - 1, which no run reaches. At the first item the
    /// word is 0. The caller ensures that the place is one of this script.
    #[inline(always)]
    pub fn advance(&mut self, script: &Script, call: u64, rounds: u64) -> Moved
        requires { self.old.item < length script.now }
        ensures moved { result ≡ move_after script.now rounds self.old }
        ensures place { self.new ≡ place_after call script.now result self.old }
    {
        if let Some(item) = script.next(self.item, self.word) {
            self.go_to(script, call, item);
            Moved::Next
        } else if rounds != 0 && rounds <= self.round {
            Moved::AllDone
        } else {
            self.go_to(script, call, 0);
            self.round = self.round.saturating_add(1);
            Moved::RoundEnds
        }
    }

    /// Sets the round's word: the badges of `word` that a handler takes.
    pub fn hear(&mut self, script: &Script, word: u32)
        ensures { self.new ≡ record self.old { word = heard script.now word } }
    {
        self.word = script.heard(word);
    }

    /// Lowers the remaining ticks of the item, to 0 at the least. An item that never ends does not
    /// change.
    pub fn use_up(&mut self, ticks: u64)
        ensures { self.new ≡ record self.old { left = left_after ticks self.old.left } }
    {
        if self.left != Item::NEVER {
            self.left = self.left.saturating_sub(ticks);
        }
    }

    /// Returns the priority after the item at which the thread is.
    #[inline(always)]
    fn priority_after(&self, script: &Script) -> u8
        ensures { result ≡ priority_after (slice_get script.now self.now.item) self.now.priority }
    {
        match script.get(self.item) {
            Some(Item::Enter(_, priority) | Item::Leave(_, priority)) => priority,
            _ => self.priority,
        }
    }

    /// Goes to the start of an item of this round.
    #[inline(always)]
    fn go_to(&mut self, script: &Script, call: u64, item: usize)
        ensures { self.new ≡ goes_to call script.now self.old.round item self.old }
    {
        self.priority = self.priority_after(script);
        self.left = script.cost_at(call, item);
        self.item = item;
        if item == 0 {
            self.word = 0;
        }
    }
}

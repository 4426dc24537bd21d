ghost use Rattle.std.specs.Prelude.{◌≡◌, ℕ, ◌*◌, ◌≤◌, ◌==◌, if◌then◌else◌, true, false, Some};
ghost use Rattle.mcs_ready.specs.stored.Priorities.{has, end_behind, IsGreatest, IsGreatestBelow};

use std::marker::Model;

/// A set of priorities. Priority `p` is in it if bit `p % 64` of word `p / 64` is 1.
#[derive(Debug, Drop)]
pub(crate) struct Priorities {
    words: [u64; 4],
    /// The maximum priority of the set plus 1, or 0 if the set is empty.
    end: u16,
}

impl Model for Priorities {
    ghost use Rattle.std.specs.Prelude.{ℕ, List};
    ghost use Rattle.mcs_ready.specs.stored.Priorities.{IsEnd};

    ghost Value = { List ℕ };

    ghost view = { λ a. a.words };

    ghost invariant = { λ a. IsEnd a.words a.end };
}

impl Priorities {
    /// Returns the empty set.
    pub(crate) fn new() -> Self
        ensures { (q : ℕ) → has result q ≡ false }
    {
        Priorities {
            words: [0; 4],
            end: 0,
        }
    }

    /// Adds `priority` to the set.
    #[inline(always)]
    pub(crate) fn insert(&mut self, priority: u8)
        ensures { (q : ℕ) → has self.new q ≡ (if q == priority then true else has self.old q) }
    {
        self.words[priority as usize / 64] |= 1 << (priority % 64);
        self.end = self.end.max(u16::from(priority) + 1);
    }

    /// Removes `priority`, which is the maximum of the set.
    #[inline(always)]
    pub(crate) fn remove(&mut self, priority: u8)
        requires { IsGreatest self.old (Some priority) }
        ensures { (q : ℕ) → has self.new q ≡ (if q == priority then false else has self.old q) }
    {
        let word = priority / 64;
        let bits = self.words[word as usize] & !(1 << (priority % 64));
        self.words[word as usize] = bits;
        if bits == 0 {
            self.end = end_behind(highest_below(&self.words, word));
        } else {
            self.end = end_behind(Some(word * 64 + bits.ilog2() as u8));
        }
    }

    /// Returns the maximum priority of the set, or `None` if it is empty.
    #[inline(always)]
    pub(crate) fn greatest(&self) -> Option<u8>
        ensures { IsGreatest self.now result }
    {
        match self.end {
            0 => None,
            end => Some((end - 1) as u8),
        }
    }
}

/// Returns the priority plus 1, or 0 for `None`.
#[inline(always)]
fn end_behind(greatest: Option<u8>) -> u16
    ensures { result ≡ end_behind greatest }
{
    match greatest {
        Some(priority) => u16::from(priority) + 1,
        None => 0,
    }
}

/// Returns the maximum priority of the first `end` words, or `None` if they are empty.
fn highest_below(words: &[u64; 4], end: u8) -> Option<u8>
    requires { end ≤ 4 }
    ensures { IsGreatestBelow (end * 64) words.now result }
{
    for word in (0..end).rev() {
        let bits = words[word as usize];
        if bits != 0 {
            return Some(word * 64 + bits.ilog2() as u8);
        }
    }
    None
}

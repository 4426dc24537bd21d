ghost use Rattle.std.specs.Prelude.{◌≡◌, ◌∷◌, [], ◌++◌, ℕ, List, filter};
ghost use Rattle.mcs_chain.specs.declared.answer.Answer.{Answer as TheAnswer};
ghost use Rattle.mcs_way.specs.Sought.{count_of, is_of, sought_by};

use crate::Sought;
use mcs_chain::{Answer, ChainId};

/// The answers of a chain that were counted so far, and the one to look for.
#[derive(Clone, Copy, Debug, PartialEq, Eq)]
pub(crate) struct Count {
    /// The number to look for, from 1.
    number: u64,
    /// How many answers were counted, at most 2^64 - 1.
    many: u64,
    found: Option<Answer>,
}

fn is_of(chain: ChainId, answer: &Answer) -> bool
    ensures { result ≡ is_of chain answer.now }
{
    answer.chain.0 == chain.0
}

impl Count {
    /// Before the first answer.
    pub(crate) fn new(number: u64) -> Self
        ensures { result ≡ count_of number [] }
    {
        Count {
            number,
            many: 0,
            found: None,
        }
    }

    /// Counts one answer.
    fn take(&mut self, answer: &Answer)
        ensures { (number : ℕ) (answers : List TheAnswer) → self.old ≡ count_of number answers →
            self.new ≡ count_of number (answers ++ answer.now ∷ []) }
    {
        if self.many < self.number && self.number - self.many == 1 {
            self.found = Some(*answer);
        }
        self.many = self.many.saturating_add(1);
    }

    /// Counts those of the chain.
    pub(crate) fn take_all(&mut self, chain: ChainId, more: &[Answer])
        ensures { (number : ℕ) (answers : List TheAnswer) → self.old ≡ count_of number answers →
            self.new ≡ count_of number (answers ++ filter (is_of chain) more.now) }
    {
        for answer in more {
            if is_of(chain, answer) {
                self.take(answer);
            }
        }
    }

    /// The result: the answer of this number, or how many answers there are.
    pub(crate) fn sought(&self) -> Sought
        ensures { result ≡ sought_by self.now.many self.now.found }
    {
        match self.found {
            Some(answer) => Sought::There(answer),
            None => Sought::Missing(self.many),
        }
    }
}

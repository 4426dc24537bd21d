ghost use Rattle.std.specs.Prelude.{◌≡◌};
ghost use Rattle.mcs_check_lines.specs.Status.{code_of, is_doubtful, is_found, is_found_of_chains, is_found_of_threads, status_of};

use crate::Counts;

/// How much is found of the chains of a file.
#[derive(Clone, Copy, Debug, PartialEq, Eq)]
pub struct ChainCounts {
    /// Rounds that answered an interrupt later than the deadline of the chain, at most 2^64 - 1.
    pub slow: u64,
    /// Chains that have at the horizon an interrupt without an answer, at least a deadline old.
    pub unanswered: u64,
}

/// How much a check judges.
#[derive(Clone, Copy, Debug, PartialEq, Eq)]
pub struct Scope {
    /// Threads with a deadline that ended no round and have no finding, though one of the words for
    /// which they wait first was taken, or they were ready or running.
    pub unjudged: u64,
    /// Threads of the file.
    pub threads: u64,
    /// Threads and chains with a deadline.
    pub deadlines: u64,
    /// Rounds of threads with a deadline that ended, overdue rounds, untaken words, answers of
    /// chains with a deadline, and unanswered chains; at most 2^64 - 1.
    pub judged: u64,
}

/// The counts of a check.
#[derive(Clone, Copy, Debug, PartialEq, Eq)]
pub struct Checked {
    /// The findings of threads and notifications.
    pub counts: Counts,
    /// How much is judged.
    pub scope: Scope,
    /// The findings of chains; `None` if the file has no chain.
    pub chains: Option<ChainCounts>,
}

/// Exit code if something is found.
const FOUND: u8 = 5;

/// Exit code of a check that found no fault and judged no deadline.
const NOTHING_JUDGED: u8 = 6;

/// Returns the exit code: 5 if something is wrong, else 6 if `nothing` was judged, else 0.
pub fn code(wrong: bool, nothing: bool) -> u8
    ensures { result ≡ code_of wrong nothing }
{
    if wrong {
        FOUND
    } else if nothing {
        NOTHING_JUDGED
    } else {
        0
    }
}

fn is_found_of_threads(counts: &Counts) -> bool
    ensures { result ≡ is_found_of_threads counts.now }
{
    let late = counts.missed != 0 || counts.overdue != 0 || counts.untaken != 0;
    late || counts.lost != 0 || counts.never != 0
}

fn is_found_of_chains(chains: Option<ChainCounts>) -> bool
    ensures { result ≡ is_found_of_chains chains }
{
    match chains {
        Some(chains) => chains.slow != 0 || chains.unanswered != 0,
        None => false,
    }
}

impl Checked {
    fn is_found(&self) -> bool
        ensures { result ≡ is_found self.now }
    {
        is_found_of_threads(&self.counts) || is_found_of_chains(self.chains)
    }

    fn is_doubtful(&self) -> bool
        ensures { result ≡ is_doubtful self.now }
    {
        self.counts.hints != 0 || self.scope.unjudged != 0
    }

    /// Returns the exit code: 5 if something is found or, if `strict`, there is a hint or an
    /// unjudged thread; else 6 if no deadline was judged; else 0.
    pub fn status(&self, strict: bool) -> u8
        ensures { result ≡ status_of strict self.now }
    {
        let wrong = self.is_found() || (strict && self.is_doubtful());
        code(wrong, self.scope.judged == 0)
    }
}

ghost use Rattle.std.specs.Prelude.{◌≡◌, ◌⊎◌, ◌↔◌, ◌≤◌, ◌≢◌, ℕ, get_or, IsTrue};
ghost use Rattle.mcs_ever.specs.Later.{IsShift};
ghost use Rattle.mcs_ever_again.specs.Lags.{shift_by};
ghost use Rattle.mcs_system.specs.System.{thread_part};

use mcs_system::{System, SystemParts};
use mcs_ticks::{Sequence, ThreadId};

/// The lags of a core that is later than before: those of its contexts and its threads.
#[derive(Debug, Drop)]
pub struct Lags {
    /// The ticks by which the dates of each context are later. A context with no date, or of
    /// another core, is as late as the core.
    pub contexts: Sequence<u64>,
    /// The ticks by which each thread's round began later.
    pub threads: Sequence<u64>,
    /// How many more rounds each thread has ended.
    pub rounds: Sequence<u64>,
}

impl Lags {
    /// Whether these lags are a shift of a core that is `by` ticks later: no context is later than
    /// the core, and only threads with no last round have ended more rounds.
    pub fn is_shift(&self, system: &System, by: u64) -> bool
        ensures { IsTrue result ↔ IsShift system.now (shift_by by self.now) }
    {
        are_within(self.contexts.as_slice(), by)
            && are_endless(self.rounds.as_slice(), system.parts())
    }
}

/// Whether no context is later by more than `by` ticks.
fn are_within(lags: &[u64], by: u64) -> bool
    ensures { IsTrue result ↔ ((context : ℕ) → get_or lags.now context by ≤ by) }
{
    for lag in lags {
        if *lag > by {
            return false;
        }
    }
    true
}

fn has_last_round(system: &SystemParts, thread: ThreadId) -> bool
    ensures { IsTrue result ↔ ((thread_part system.now thread).rounds ≢ 0) }
{
    let threads = system.threads.as_slice();
    thread.0 < threads.len() && threads[thread.0].rounds != 0
}

/// Whether only threads with no last round have ended more rounds.
fn are_endless(rounds: &[u64], system: &SystemParts) -> bool
    ensures { IsTrue result
        ↔ ((thread : ℕ) → (get_or rounds.now thread 0 ≡ 0) ⊎ ((thread_part system.now thread).rounds ≡ 0)) }
{
    for (thread, more) in rounds.iter().enumerate() {
        if *more != 0 && has_last_round(system, ThreadId(thread)) {
            return false;
        }
    }
    true
}

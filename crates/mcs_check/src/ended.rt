//! How many rounds of each thread ended.
ghost use Rattle.std.specs.Prelude.{◌≡◌, ◌++◌, ◌∷◌, [], ℕ, List, get_or, length, set, IfOk};
ghost use Rattle.mcs_ticks.specs.Capped.{capped, one_more};
ghost use Rattle.mcs_ticks.specs.declared.row.Row.{Row as TheRow};
ghost use Rattle.mcs_system.specs.System.{System as TheSystem};
ghost use Rattle.mcs_check.specs.Judged.{judged_rounds};
ghost use Rattle.mcs_check.specs.stored.Threads.{ended_of};

use mcs_system::ThreadPart;
use mcs_ticks::{NoMemory, Row, ThreadId, What};
use std::alloc::Global;
use std::marker::Model;

/// The number of rounds of each thread that ended, at most 2^64 - 1.
#[derive(Drop)]
pub(crate) struct Ended {
    rounds: Vec<u64>,
}

impl Model for Ended {
    ghost use Rattle.std.specs.Prelude.{ℕ, List};

    ghost Value = { List ℕ };

    ghost view = { λ a. a.rounds.items };
}

impl Ended {
    /// The numbers before the first row. `NoMemory` if memory runs out.
    pub(crate) fn new(alloc: Global, threads: usize) -> Result<Ended, NoMemory>
        ensures { IfOk result (λ ended. ended ≡ ended_of threads []) }
    {
        Ok(Ended {
            rounds: vec![in alloc; 0; threads]?,
        })
    }

    /// Takes one more row.
    #[inline(always)]
    pub(crate) fn see(&mut self, row: &Row)
        ensures { (threads : ℕ) (past : List TheRow) → self.old ≡ ended_of threads past → self.new ≡ ended_of threads (row.now ∷ past) }
    {
        if let What::Round { thread, .. } = row.what {
            count(&mut self.rounds, thread);
        }
    }

    /// Returns how many rounds of the thread ended, 0 for a thread that is not in the system.
    pub(crate) fn of(&self, thread: ThreadId) -> u64
        ensures { result ≡ get_or self.now thread 0 }
    {
        self.rounds.get(thread.0).copied().unwrap_or(0)
    }

    /// Returns how many rounds of threads with a deadline ended, at most 2^64 - 1.
    pub(crate) fn judged(&self, threads: &[ThreadPart]) -> u64
        ensures { (system : TheSystem) (past : List TheRow) → threads.now ≡ system.threads → self.now ≡ ended_of (length system.threads) past →
            result ≡ capped (judged_rounds system past) }
    {
        let mut judged: u64 = 0;
        for (number, part) in threads.iter().enumerate() {
            if part.deadline != 0 {
                judged = judged.saturating_add(self.of(ThreadId(number)));
            }
        }
        judged
    }

    /// Appends the number of one more thread.
    pub(crate) fn push(&mut self, rounds: u64) -> Result<(), NoMemory>
        ensures { IfOk result (λ _. self.new ≡ self.old ++ rounds ∷ []) }
    {
        self.rounds.push(rounds)?;
        Ok(())
    }
}

/// Counts one more round of the thread.
fn count(rounds: &mut Vec<u64>, thread: ThreadId)
    ensures { rounds.new.items ≡ set rounds.old.items thread (one_more (get_or rounds.old.items thread 0)) }
{
    if thread.0 < rounds.len() {
        rounds[thread.0] = rounds[thread.0].saturating_add(1);
    }
}

ghost use Rattle.std.specs.Prelude.{◌≡◌, ℕ, ◌+◌, List, [], ◌∷◌, max, Some, if◌then◌else◌, IfOk};
ghost use Rattle.mcs_verdict.specs.Misses.{is_above};
ghost use Rattle.mcs_ticks.specs.Capped.{capped};
ghost use Rattle.mcs_table.specs.Rounds.{greatest, margin, rounds_of};
ghost use Rattle.mcs_table.specs.Table.{account_with};

use crate::{Margin, Rounds};
use mcs_histogram::Histogram;
use mcs_ticks::{NoMemory, Tick};
use std::alloc::Global;

/// The figures kept of a thread's rounds.
#[derive(Debug, Drop)]
pub(crate) struct Account {
    pub deadline: u64,
    pub greatest: Option<u64>,
    pub missed: u64,
    pub late: u64,
    pub responses: Histogram,
}

fn is_above(deadline: u64, ticks: u64) -> bool
    ensures { result ≡ is_above deadline ticks }
{
    deadline != 0 && deadline < ticks
}

/// The count, and one more if `is_so`.
fn counted(count: u64, is_so: bool) -> u64
    ensures { (before : ℕ) → count ≡ capped before → result ≡ capped ((if is_so then 1 else 0) + before) }
{
    if is_so {
        count.saturating_add(1)
    } else {
        count
    }
}

/// The maximum of the responses so far and one more.
fn or_greater(before: Option<u64>, response: u64) -> Option<u64>
    ensures { (responses : List ℕ) → before ≡ greatest responses → result ≡ greatest (response ∷ responses) }
{
    match before {
        Some(before) => Some(before.max(response)),
        None => Some(response),
    }
}

/// How far the worst response is from the deadline, if there are both.
pub(crate) fn margin(deadline: u64, greatest: Option<u64>) -> Option<Margin>
    ensures { result ≡ margin deadline greatest }
{
    match greatest {
        Some(_) if deadline == 0 => None,
        Some(response) if deadline < response => Some(Margin::Over(response - deadline)),
        Some(response) => Some(Margin::Left(deadline - response)),
        None => None,
    }
}

impl Account {
    /// The account before the first round of a thread with this deadline, in a run up to the
    /// horizon.
    pub(crate) fn new(alloc: Global, horizon: Tick, deadline: u64) -> Result<Self, NoMemory>
        ensures { IfOk result (λ account. account ≡ account_with horizon deadline [] 0) }
    {
        Ok(Account {
            deadline,
            greatest: None,
            missed: 0,
            late: 0,
            responses: Histogram::new(alloc, horizon.get())?,
        })
    }

    /// Takes a round that ended. `response` counts from its activation; `told`, that of its row,
    /// from its beginning.
    pub(crate) fn end(&mut self, response: u64, told: u64)
        ensures { (horizon deadline late : ℕ) (responses : List ℕ) → self.old ≡ account_with horizon deadline responses late →
            self.new ≡ account_with horizon deadline (response ∷ responses) ((if is_above deadline told then 1 else 0) + late) }
    {
        self.greatest = or_greater(self.greatest, response);
        self.missed = counted(self.missed, is_above(self.deadline, response));
        self.late = counted(self.late, is_above(self.deadline, told));
        self.responses.record(response);
    }

    /// Returns the figures of the rounds.
    pub(crate) fn rounds(&self) -> Rounds
        ensures { (horizon deadline late : ℕ) (responses : List ℕ) → self.now ≡ account_with horizon deadline responses late →
            result ≡ rounds_of horizon deadline responses late }
    {
        Rounds {
            ended: self.responses.count(),
            greatest: self.greatest,
            fiftieth: self.responses.percentile(50),
            ninetieth: self.responses.percentile(90),
            ninety_ninth: self.responses.percentile(99),
            missed: self.missed,
            late: self.late,
        }
    }
}

ghost use Rattle.std.specs.Prelude.{◌≡◌, ℕ, List, [], ◌∷◌, ◌++◌, ◌-◌, ◌+◌, length, map, min, max, sum, if◌then◌else◌, IfOk};
ghost use Rattle.mcs_ticks.specs.declared.row.Row.{Row as TheRow};
ghost use Rattle.mcs_ticks.specs.Capped.{capped};
ghost use Rattle.mcs_system.specs.System.{System as TheSystem};
ghost use Rattle.mcs_system.specs.declared.part.ChainPart.{ChainPart as TheChain};
ghost use Rattle.mcs_table.specs.Rounds.{greatest, margin};
ghost use Rattle.mcs_chain.specs.Answers.{is_interrupt, interrupts, latencies, origins};
ghost use Rattle.mcs_chain.specs.Figures.{least, tally_with, tally_of, figures_of};

use crate::Figures;
use mcs_histogram::Histogram;
use mcs_system::ChainPart;
use mcs_table::Margin;
use mcs_ticks::{NoMemory, Row, SourceId, Tick, What};
use std::alloc::Global;
use std::marker::Model;

/// Counts of a chain's interrupts and answers. All room is taken when it is made.
#[derive(Drop)]
pub(crate) struct Tally {
    pub(crate) interrupts: u64,
    least: Option<u64>,
    greatest: Option<u64>,
    total: u64,
    latencies: Histogram,
}

impl Model for Tally {
    ghost use Rattle.mcs_chain.specs.Figures.{Tally};

    ghost Value = { Tally };

    ghost view = { λ a. record { interrupts = a.interrupts; least = a.least; greatest = a.greatest; total = a.total; latencies = a.latencies } };
}

/// The minimum of latencies and one more.
fn or_less(before: Option<u64>, latency: u64) -> Option<u64>
    ensures { (latencies : List ℕ) → before ≡ least latencies → result ≡ least (latency ∷ latencies) }
{
    match before {
        Some(before) => Some(before.min(latency)),
        None => Some(latency),
    }
}

/// The maximum of latencies and one more.
fn or_greater(before: Option<u64>, latency: u64) -> Option<u64>
    ensures { (latencies : List ℕ) → before ≡ greatest latencies → result ≡ greatest (latency ∷ latencies) }
{
    match before {
        Some(before) => Some(before.max(latency)),
        None => Some(latency),
    }
}

/// The sum of latencies and one more.
fn plus(before: u64, latency: u64) -> u64
    ensures { (latencies : List ℕ) → before ≡ capped (sum latencies) → result ≡ capped (sum (latency ∷ latencies)) }
{
    before.saturating_add(latency)
}

/// How far the maximum latency is from the deadline, if there are both.
fn margin(deadline: u64, greatest: Option<u64>) -> Option<Margin>
    ensures { result ≡ margin deadline greatest }
{
    match greatest {
        Some(_) if deadline == 0 => None,
        Some(latency) if deadline < latency => Some(Margin::Over(latency - deadline)),
        Some(latency) => Some(Margin::Left(deadline - latency)),
        None => None,
    }
}

fn is_interrupt(source: SourceId, what: &What) -> bool
    ensures { result ≡ is_interrupt source what.now }
{
    match *what {
        What::Interrupt { source: other, .. } => other == source,
        _ => false,
    }
}

/// One interrupt more, if this is one.
fn counted(count: u64, is_one: bool) -> u64
    ensures { (before : ℕ) → count ≡ capped before → result ≡ capped ((if is_one then 1 else 0) + before) }
{
    if is_one {
        count.saturating_add(1)
    } else {
        count
    }
}

impl Tally {
    /// Before the first row of a run up to the horizon. `NoMemory` if an allocation failed.
    pub(crate) fn new(alloc: Global, horizon: Tick) -> Result<Self, NoMemory>
        ensures { IfOk result (λ tally. tally ≡ tally_with horizon 0 []) }
    {
        Ok(Tally {
            interrupts: 0,
            least: None,
            greatest: None,
            total: 0,
            latencies: Histogram::new(alloc, horizon.get())?,
        })
    }

    /// One answer more.
    fn answer(&mut self, latency: u64)
        ensures { (horizon started : ℕ) (latencies : List ℕ) → self.old ≡ tally_with horizon started latencies →
            self.new ≡ tally_with horizon started (latency ∷ latencies) }
    {
        self.least = or_less(self.least, latency);
        self.greatest = or_greater(self.greatest, latency);
        self.total = plus(self.total, latency);
        self.latencies.record(latency);
    }

    /// Answers at this moment for these origins.
    fn answer_all(&mut self, moment: Tick, origins: &[Tick])
        ensures { (horizon started : ℕ) (latencies : List ℕ) → self.old ≡ tally_with horizon started latencies →
            self.new ≡ tally_with horizon started (map (λ origin. moment - origin) origins.now ++ latencies) }
    {
        for i in (0..origins.len()).rev() {
            let origin = origins[i];
            self.answer(moment.get().saturating_sub(origin.get()));
        }
    }

    /// One interrupt more, if this is one.
    fn start(&mut self, is_one: bool)
        ensures { (horizon started : ℕ) (latencies : List ℕ) → self.old ≡ tally_with horizon started latencies →
            self.new ≡ tally_with horizon ((if is_one then 1 else 0) + started) latencies }
    {
        self.interrupts = counted(self.interrupts, is_one);
    }

    /// Takes one row more, which answers these origins.
    pub(crate) fn see(&mut self, chain: &ChainPart, answered: &[Tick], row: &Row)
        ensures { (horizon : ℕ) (system : TheSystem) (past : List TheRow) → answered.now ≡ (origins system chain.now (row.now ∷ past)).answered →
            self.old ≡ tally_of horizon system chain.now past → self.new ≡ tally_of horizon system chain.now (row.now ∷ past) }
    {
        self.answer_all(row.moment, answered);
        self.start(is_interrupt(chain.source, &row.what));
    }

    /// How many answers there are, at most 2^64 - 1.
    pub(crate) fn answers(&self) -> u64
        ensures { (horizon : ℕ) (system : TheSystem) (chain : TheChain) (past : List TheRow) → self.now ≡ tally_of horizon system chain past →
            result ≡ capped (length (latencies system chain past)) }
    {
        self.latencies.count()
    }

    /// The maximum latency, if there is an answer.
    pub(crate) fn greatest(&self) -> Option<u64>
        ensures { (horizon : ℕ) (system : TheSystem) (chain : TheChain) (past : List TheRow) → self.now ≡ tally_of horizon system chain past →
            result ≡ greatest (latencies system chain past) }
    {
        self.greatest
    }

    /// The figures of the chain.
    pub(crate) fn figures(&self, chain: &ChainPart) -> Figures
        ensures { (horizon : ℕ) (system : TheSystem) (past : List TheRow) → self.now ≡ tally_of horizon system chain.now past →
            result ≡ figures_of horizon system chain.now past }
    {
        Figures {
            interrupts: self.interrupts,
            answers: self.latencies.count(),
            least: self.least,
            greatest: self.greatest,
            total: self.total,
            fiftieth: self.latencies.percentile(50),
            ninetieth: self.latencies.percentile(90),
            ninety_ninth: self.latencies.percentile(99),
            deadline: chain.deadline,
            margin: margin(chain.deadline, self.greatest),
        }
    }
}

//! The answers of a row.
ghost use Rattle.std.specs.Prelude.{◌≡◌, ◌∷◌, ◌++◌, List, map, reverse, IfOk, OnOk};
ghost use Rattle.mcs_ticks.specs.declared.row.Row.{Row as TheRow};
ghost use Rattle.mcs_system.specs.System.{System as TheSystem};
ghost use Rattle.mcs_chain.specs.Answering.{answer_to, answers_at, answers_to};
ghost use Rattle.mcs_chain.specs.Watch.{one_of};

use crate::ChainId;
use crate::one::One;
use mcs_system::ChainPart;
use mcs_ticks::{CoreId, NoMemory, Row, ThreadId, Tick, What};
use std::alloc::Global;

/// An answer: the end of a round that is the first one based on an interrupt of a chain's source.
#[derive(Clone, Copy, Debug, PartialEq, Eq)]
pub struct Answer {
    /// When the round ended.
    pub moment: Tick,
    pub core: CoreId,
    pub chain: ChainId,
    pub thread: ThreadId,
    /// The number of the round.
    pub number: u64,
    /// The moment of the interrupt.
    pub origin: Tick,
    /// The ticks from the interrupt to the end of the round.
    pub latency: u64,
    /// The ticks within which each answer is to come; 0 means none.
    pub deadline: u64,
}

/// The answers of a chain by this round, a thread's of a number, which the row ends. The origins
/// are given the latest first, and the answer for the earliest one comes first.
fn round_answers(
    alloc: Global,
    chain: ChainId,
    deadline: u64,
    row: &Row,
    round: (ThreadId, u64),
    answered: &[Tick],
) -> Result<Vec<Answer>, NoMemory>
    ensures { IfOk result (λ all. all.items ≡ map (answer_to chain deadline row.now round.0 round.1) (reverse answered.now)) }
{
    let (moment, core) = (row.moment, row.core);
    let (thread, number) = round;
    let all = answered
        .iter()
        .rev()
        .map(|origin| Answer {
            moment,
            core,
            chain,
            thread,
            number,
            origin: *origin,
            latency: moment.get().saturating_sub(origin.get()),
            deadline,
        })
        .collect(alloc)?;
    Ok(all)
}

/// Appends the answers of a chain at a row that answers these origins.
fn put_answers(
    alloc: Global,
    all: &mut Vec<Answer>,
    chain: ChainId,
    deadline: u64,
    row: &Row,
    answered: &[Tick],
) -> Result<(), NoMemory>
    ensures { OnOk result (all.new.items ≡ all.old.items ++ answers_to chain deadline row.now row.now.what answered.now) }
{
    match row.what {
        What::Round { thread, number, .. } => {
            let own = round_answers(alloc, chain, deadline, row, (thread, number), answered)?;
            all.extend_from_slice(own.as_slice())?;
            Ok(())
        }
        _ => Ok(()),
    }
}

/// The answers of all chains at the latest row, chain by chain.
pub(crate) fn answers_at(
    alloc: Global,
    each: &[One],
    chains: &[ChainPart],
    row: &Row,
) -> Result<Vec<Answer>, NoMemory>
    ensures { (system : TheSystem) (past : List TheRow) → each.now ≡ map (λ chain. one_of system chain (row.now ∷ past)) chains.now →
        IfOk result (λ all. all.items ≡ answers_at system past row.now 0 chains.now) }
{
    let mut all = Vec::new(alloc);
    for (number, one) in each.iter().enumerate() {
        if let Some(chain) = chains.get(number) {
            let (id, deadline) = (ChainId(number), chain.deadline);
            put_answers(alloc, &mut all, id, deadline, row, one.origins.answered())?;
        }
    }
    Ok(all)
}

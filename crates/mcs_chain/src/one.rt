//! The state that a watch keeps of a chain.
ghost use Rattle.std.specs.Prelude.{◌≡◌, ◌+◌, ◌∷◌, ◌++◌, ◌&&◌, [], ℕ, List, OnOk, IfOk};
ghost use Rattle.mcs_ticks.specs.declared.row.Row.{Row as TheRow};
ghost use Rattle.mcs_system.specs.System.{System as TheSystem};
ghost use Rattle.mcs_system.specs.declared.part.ChainPart.{ChainPart as TheChain};
ghost use Rattle.mcs_chain.specs.Answers.{gone_after, origins};
ghost use Rattle.mcs_ticks.specs.Capped.{capped};
ghost use Rattle.mcs_chain.specs.Moves.{moves};
ghost use Rattle.mcs_chain.specs.Watch.{due_of_one, is_due, judged_at, late_at, one_if, one_of};
ghost use Rattle.mcs_chain.specs.stored.Still.{are_apart, is_still};

use crate::moves::Move;
use crate::origins::Origins;
use crate::{ChainId, Finding, Found, found};
use mcs_system::{ChainPart, SystemParts};
use mcs_ticks::{CoreId, NoMemory, Row, Tick};
use std::alloc::Global;
use std::marker::Model;

/// A slow answer, with its moment and its core.
#[derive(Clone, Copy, Debug, PartialEq, Eq)]
pub(crate) struct Late {
    pub(crate) moment: Tick,
    pub(crate) core: CoreId,
    pub(crate) finding: Finding,
}

/// The state of a chain.
#[derive(Drop)]
pub(crate) struct One {
    pub(crate) origins: Origins,
    /// The slow answers of the latest moment.
    pub(crate) late: Vec<Late>,
    /// How many slow answers there are, at most 2^64 - 1.
    pub(crate) slow: u64,
    /// How many answers are judged, at most 2^64 - 1.
    pub(crate) judged: u64,
}

impl Model for One {
    ghost use Rattle.mcs_chain.specs.Watch.{One};

    ghost Value = { One };

    ghost view = { λ a. record { origins = a.origins; late = a.late.items; slow = a.slow; judged = a.judged } };
}

impl One {
    /// Whether a quiet row leaves all as it is.
    #[inline(always)]
    pub(crate) fn is_still(&self) -> bool
        ensures { result ≡ is_still self.now }
    {
        self.origins.are_still() && self.late.is_empty()
    }

    /// The state before the first row.
    pub(crate) fn new(alloc: Global, parts: &SystemParts) -> Result<One, NoMemory>
        ensures { (chain : TheChain) → IfOk result (λ one. one ≡ one_of parts.now chain []) }
    {
        Ok(One {
            origins: Origins::new(alloc, parts)?,
            late: Vec::new(alloc),
            slow: 0,
            judged: 0,
        })
    }

    /// Whether a row of this effect leaves all as it is.
    #[inline(always)]
    fn is_apart(&self, chain: &ChainPart, moved: &Move) -> bool
        ensures { result ≡ (is_still self.now && are_apart chain.now moved.now self.now.origins) }
    {
        self.is_still() && self.origins.are_apart(chain, moved)
    }

    /// Takes one row more, which moves this.
    #[inline(always)]
    pub(crate) fn see(
        &mut self,
        alloc: Global,
        chain: &ChainPart,
        row: &Row,
        moved: &Move,
    ) -> Result<(), NoMemory>
        ensures { (system : TheSystem) (past : List TheRow) → self.old ≡ one_of system chain.now past →
            moved.now ≡ moves system (gone_after system past) row.now → OnOk result (self.new ≡ one_of system chain.now (row.now ∷ past)) }
    {
        if self.is_apart(chain, moved) {
            return Ok(());
        }
        self.take(alloc, chain, row, moved)
    }

    /// `see` for any row.
    fn take(
        &mut self,
        alloc: Global,
        chain: &ChainPart,
        row: &Row,
        moved: &Move,
    ) -> Result<(), NoMemory>
        ensures { (system : TheSystem) (past : List TheRow) → self.old ≡ one_of system chain.now past →
            moved.now ≡ moves system (gone_after system past) row.now → OnOk result (self.new ≡ one_of system chain.now (row.now ∷ past)) }
    {
        self.origins.see(alloc, chain, row.moment, moved)?;
        if self.late.is_empty() && self.origins.answered().is_empty() {
            return Ok(());
        }
        self.judge(chain, row)
    }

    /// Judges the answers of this row, which the sets of origins have taken.
    fn judge(&mut self, chain: &ChainPart, row: &Row) -> Result<(), NoMemory>
        ensures { (system : TheSystem) (past : List TheRow) →
            self.old ≡ record (one_of system chain.now past) { origins = origins system chain.now (row.now ∷ past) } →
            OnOk result (self.new ≡ one_of system chain.now (row.now ∷ past)) }
    {
        let finding = found::slow_of(chain.deadline, row.moment, self.origins.answered());
        self.late.retain(|late| late.moment == row.moment);
        self.slow = counted(self.slow, &finding);
        self.judged = judged(self.judged, chain.deadline, self.origins.answered());
        keep(&mut self.late, row, finding)
    }

    /// Appends the slow answers that are due.
    pub(crate) fn put_due(
        &self,
        due: &mut Vec<Found>,
        before: &Option<Tick>,
        chain: ChainId,
    ) -> Result<(), NoMemory>
        ensures { OnOk result (due.new.items ≡ due.old.items ++ due_of_one before.now chain self.now) }
    {
        for late in self.late.as_slice() {
            if is_due(before, late.moment) {
                due.push(Found {
                    moment: late.moment,
                    core: late.core,
                    chain,
                    finding: late.finding,
                })?;
            }
        }
        Ok(())
    }
}

/// One slow answer more, if there is one.
fn counted(many: u64, finding: &Option<Finding>) -> u64
    ensures { (before : ℕ) → many ≡ capped before → result ≡ capped (one_if finding.now + before) }
{
    match finding {
        Some(_) => many.saturating_add(1),
        None => many,
    }
}

/// The answers of one row more, if they are judged.
fn judged(many: u64, deadline: u64, answered: &[Tick]) -> u64
    ensures { (before : ℕ) → many ≡ capped before → result ≡ capped (judged_at deadline answered.now + before) }
{
    if deadline == 0 {
        many
    } else {
        many.saturating_add(answered.len() as u64)
    }
}

/// Keeps a slow answer of this row, if there is one.
fn keep(late: &mut Vec<Late>, row: &Row, finding: Option<Finding>) -> Result<(), NoMemory>
    ensures { OnOk result (late.new.items ≡ late.old.items ++ late_at row.now.moment row.now.core finding) }
{
    let Some(finding) = finding else {
        return Ok(());
    };
    late.push(Late {
        moment: row.moment,
        core: row.core,
        finding,
    })?;
    Ok(())
}

/// Whether a slow answer is due: before this moment, if there is one.
fn is_due(before: &Option<Tick>, moment: Tick) -> bool
    ensures { result ≡ is_due before.now moment }
{
    match before {
        Some(before) => moment.get() < before.get(),
        None => true,
    }
}

ghost use Rattle.std.specs.Prelude.{◌≡◌, ◌<◌, length, true, false};

use crate::lockstep::Lockstep;
use mcs_control::Kind;
use mcs_ever::{CoreSet, Marks};
use mcs_ever_again::is_own;
use mcs_system::System;
use mcs_ticks::{ContextId, CoreId, NoMemory, ThreadId};
use std::alloc::Global;

/// The first part of a context's budget: its ticks, and the time from which on they may be used.
/// No time if it is the rest of a slice.
#[derive(Clone, Copy)]
struct Head {
    amount: u64,
    from: Option<u64>,
}

impl Head {
    /// Whether this head is the earlier one, but later: by the whole period if it must keep up,
    /// else by at most the period.
    fn is_again(self, before: Head, by: u64, keeps_up: bool) -> bool {
        if self.amount != before.amount {
            return false;
        }
        match (before.from, self.from) {
            (Some(from), Some(to)) => {
                let lag = to.saturating_sub(from);
                from <= to && (lag == by || (lag < by && !keeps_up))
            }
            (None, None) => true,
            _ => false,
        }
    }
}

/// The head of a context that a core holds. `None` if it holds no such context.
fn head_of(system: &System, lockstep: &Lockstep, context: ContextId) -> Option<Head>
    requires same { lockstep.now.system ≡ system.now }
    requires going { lockstep.now.failed ≡ false }
    requires settled { lockstep.now.settled ≡ true }
    requires known { context < length system.now.contexts }
{
    let parts = system.parts();
    let core = parts.core_of_context(context);
    if core.0 >= parts.cores {
        return None;
    }
    let held = lockstep.state(core).context(context)?;
    let from = match held.config().kind() {
        Kind::Sporadic => Some(held.head_moment().get()),
        Kind::RoundRobin => None,
    };
    Some(Head {
        amount: held.head_amount(),
        from,
    })
}

/// The head of each context before a kept moment. A group that recurs has the same heads, but
/// later. Contexts that fall behind are thus ruled out without an image of the cores.
#[derive(Drop)]
pub(crate) struct Heads {
    of_contexts: Vec<Option<Head>>,
}

impl Heads {
    /// Returns the heads at the present moment.
    pub(crate) fn new(alloc: Global, system: &System, lockstep: &Lockstep) -> Result<Self, NoMemory>
        requires same { lockstep.now.system ≡ system.now }
        requires going { lockstep.now.failed ≡ false }
        requires settled { lockstep.now.settled ≡ true }
    {
        let count = system.parts().contexts.len();
        let mut of_contexts = Vec::with_capacity(alloc, count)?;
        for context in 0..count {
            of_contexts.push(head_of(system, lockstep, ContextId(context)))?;
        }
        Ok(Heads { of_contexts })
    }

    /// Whether the head of a context at the present moment is the earlier one, but later. True if
    /// there is no such context.
    fn is_again(
        &self,
        system: &System,
        lockstep: &Lockstep,
        context: ContextId,
        by: u64,
        keeps_up: bool,
    ) -> bool
        requires same { lockstep.now.system ≡ system.now }
        requires going { lockstep.now.failed ≡ false }
        requires settled { lockstep.now.settled ≡ true }
    {
        if context.0 >= self.of_contexts.len() || context.0 >= system.parts().contexts.len() {
            return true;
        }
        match (
            self.of_contexts[context.0],
            head_of(system, lockstep, context),
        ) {
            (Some(before), Some(head)) => head.is_again(before, by, keeps_up),
            _ => true,
        }
    }

    /// Whether the heads of a group's contexts at the present moment are the earlier ones, but
    /// later. Those whose dates were compared with the time meanwhile, by the marks, must be later
    /// by the whole period. Allocates no memory.
    pub(crate) fn are_again(
        &self,
        system: &System,
        lockstep: &Lockstep,
        group: &CoreSet,
        marks: &Marks,
        by: u64,
    ) -> bool
        requires same { lockstep.now.system ≡ system.now }
        requires going { lockstep.now.failed ≡ false }
        requires settled { lockstep.now.settled ≡ true }
    {
        let parts = system.parts();
        for i in 0..parts.threads.len() {
            let thread = parts.thread(ThreadId(i));
            if !is_own(group, parts.core_of_thread(thread)) {
                continue;
            }
            let keeps_up = marks.of(ThreadId(i)).context;
            if !self.is_again(system, lockstep, thread.context, by, keeps_up) {
                return false;
            }
        }
        true
    }
}

ghost use Rattle.std.specs.Prelude.{◌≡◌, ◌+◌, ◌^◌, ◌≤◌, IfOk};
ghost use Rattle.mcs_control.specs.Control.{IsConfig, kind_of, IsModeOf};
ghost use Rattle.mcs_control.specs.Context.{new_context, context_charged, context_woken, context_chosen, context_ordered, context_ready, head_amount, head_moment, max_refills_of, view_of};
ghost use Rattle.mcs_control.specs.laws.Contexts.{IsContext};
ghost use Rattle.mcs_control.specs.stored.Context.{unblocked};
ghost use Rattle.mcs_refills.specs.Server.{refills_of};

use crate::{Config, ContextView, Mode};
use mcs_refills::{Refill, Refills, Slice};
use mcs_ticks::{ContextId, NoMemory, Sequence, Tick};
use std::alloc::Global;
use std::marker::Model;

/// The budget of a context, by kind.
#[derive(Drop)]
enum Budget {
    Sporadic(Refills),
    RoundRobin(Slice),
}

/// A scheduling context: the configuration in force, its mode, and its refills or its time slice.
/// Contracts see the context (its budget dates, or the rest of its slice) and its capacity for
/// refills. Only [`Context::new`] and [`Context::view`] allocate memory.
#[derive(Drop)]
pub struct Context {
    config: Config,
    mode: Mode,
    budget: Budget,
    room: usize,
}

impl Model for Context {
    ghost use Rattle.mcs_control.specs.Context.{WithRoom};

    ghost Value = { WithRoom };

    ghost use Rattle.mcs_control.specs.stored.Context.{held, IsHeld};

    ghost view = { λ a. record { context = held a.config a.mode a.budget; room = a.room } };

    ghost invariant = { λ a. IsHeld a.config a.mode a.budget a.room };
}

impl Budget {
    /// Unblocks the refills at `t`. A slice does not change.
    fn unblock(&mut self, t: Tick)
        requires { t ≤ 2 ^ 40 }
        ensures { self.new ≡ unblocked t self.old }
    {
        match self {
            Budget::Sporadic(refills) => refills.unblock(t),
            Budget::RoundRobin(_) => {}
        }
    }
}

impl Context {
    /// Returns a context that may be used from `at` on, at most 2^40. A round-robin context has
    /// mode `Sporadic` and allocates no memory. A sporadic one has room for `room` refills, 2 to
    /// 66. Fails with `NoMemory` if the allocation fails.
    pub fn new(
        alloc: Global,
        config: Config,
        mode: Mode,
        at: Tick,
        room: usize,
    ) -> Result<Self, NoMemory>
        requires checked { IsConfig config }
        requires mode { IsModeOf (kind_of config) mode }
        requires early { at ≤ 2 ^ 40 }
        requires fits { max_refills_of config ≤ room }
        requires few { room ≤ 66 }
        ensures context { IfOk result (λ made. made.context ≡ new_context config mode at) }
        ensures room { IfOk result (λ made. made.room ≡ room) }
    {
        let budget = if config.budget == config.period {
            Budget::RoundRobin(Slice::new(config.budget))
        } else {
            let max_refills = 2 + config.extra as usize;
            Budget::Sporadic(Refills::new(
                alloc,
                at,
                config.budget,
                config.period,
                max_refills,
                room,
            )?)
        };
        Ok(Context {
            config,
            mode,
            budget,
            room,
        })
    }

    /// Charges ticks of the head. Sporadic: they return a period later, and a head of fewer than
    /// `min_budget` ticks joins the refills after it. Round-robin: an exhausted slice is full
    /// again.
    #[inline(always)]
    pub fn charge(&mut self, ticks: u64, min_budget: u64)
        requires some { 1 ≤ ticks }
        requires in_head { ticks ≤ head_amount self.old.context }
        requires early { head_moment self.old.context ≤ 2 ^ 40 }
        ensures context { self.new.context ≡ context_charged ticks min_budget self.old.context }
        ensures room { self.new.room ≡ self.old.room }
    {
        match &mut self.budget {
            Budget::Sporadic(refills) => refills.charge(ticks, min_budget),
            Budget::RoundRobin(slice) => slice.charge(ticks),
        }
    }

    /// Records that a notification wakes the context's thread at `t`: in mode `Sporadic` the
    /// refills are unblocked. In mode `Bandwidth`, and for a slice, nothing changes.
    pub fn wake(&mut self, t: Tick)
        requires { t ≤ 2 ^ 40 }
        ensures context { self.new.context ≡ context_woken t self.old.context }
        ensures room { self.new.room ≡ self.old.room }
    {
        match self.mode {
            Mode::Sporadic => self.budget.unblock(t),
            Mode::Bandwidth => {}
        }
    }

    /// Records that the context's thread is chosen at `t`: in mode `Bandwidth` the refills are
    /// unblocked. In mode `Sporadic` nothing changes.
    #[inline(always)]
    pub fn chosen(&mut self, t: Tick)
        requires { t ≤ 2 ^ 40 }
        ensures context { self.new.context ≡ context_chosen t self.old.context }
        ensures room { self.new.room ≡ self.old.room }
    {
        match self.mode {
            Mode::Sporadic => {}
            Mode::Bandwidth => self.budget.unblock(t),
        }
    }

    /// Applies a SchedControl order at `t`: this configuration, of the same kind, is in force from
    /// now on. The mode does not change.
    pub fn order(&mut self, t: Tick, config: Config)
        requires early { t ≤ 2 ^ 40 }
        requires checked { IsConfig config }
        requires same_kind { kind_of config ≡ kind_of self.old.context.config }
        requires fits { max_refills_of config ≤ self.old.room }
        ensures context { self.new.context ≡ context_ordered t config self.old.context }
        ensures room { self.new.room ≡ self.old.room }
    {
        match &mut self.budget {
            Budget::Sporadic(refills) => {
                let max_refills = 2 + config.extra as usize;
                refills.reorder(t, config.budget, config.period, max_refills);
            }
            Budget::RoundRobin(slice) => slice.reorder(config.budget),
        }
        self.config = config;
    }

    /// Returns the configuration in force: the one of the last order, or else the first.
    pub fn config(&self) -> Config
        ensures { result ≡ self.now.context.config }
    {
        self.config
    }

    /// Returns the mode, which no order changes.
    pub fn mode(&self) -> Mode
        ensures { result ≡ self.now.context.mode }
    {
        self.mode
    }

    /// Whether the context may be used at `t`. A round-robin context always may.
    pub fn ready(&self, t: Tick) -> bool
        ensures { result ≡ context_ready t self.now.context }
    {
        match &self.budget {
            Budget::Sporadic(refills) => refills.ready(t),
            Budget::RoundRobin(_) => true,
        }
    }

    /// Returns the ticks of the head, at least 1: those of the first refill, or the rest of the
    /// slice.
    pub fn head_amount(&self) -> u64
        ensures value { result ≡ head_amount self.now.context }
        ensures some { 1 ≤ result }
    {
        match &self.budget {
            Budget::Sporadic(refills) => refills.head().amount,
            Budget::RoundRobin(slice) => slice.left(),
        }
    }

    /// Returns the moment from which the head may be used, 0 for a slice.
    pub fn head_moment(&self) -> Tick
        ensures { result ≡ head_moment self.now.context }
    {
        match &self.budget {
            Budget::Sporadic(refills) => Tick::at(refills.head().begins),
            Budget::RoundRobin(_) => Tick::ZERO,
        }
    }

    /// Returns a view of the context under the number `id`, with `in_use` ticks in use. Fails with
    /// `NoMemory` if the list of refills cannot be allocated.
    pub fn view(&self, alloc: Global, id: ContextId, in_use: u64) -> Result<ContextView, NoMemory>
        ensures { IfOk result (λ view. view ≡ view_of id in_use self.now.context) }
    {
        let (refills, left) = match &self.budget {
            Budget::Sporadic(refills) => (all_refills(alloc, refills)?, None),
            Budget::RoundRobin(slice) => (Vec::new(alloc), Some(slice.left())),
        };
        Ok(ContextView {
            context: id,
            refills: Sequence::new(refills),
            left,
            using: in_use,
        })
    }

    /// Law of the type: each context's configuration passed its check, and its budget fits its
    /// kind.
    pub fn in_good_order(&self)
        ensures { IsContext self.now.context }
    {
        let _config = &self.config;
    }
}

fn all_refills(alloc: Global, refills: &Refills) -> Result<Vec<Refill>, NoMemory>
    ensures { IfOk result (λ list. list.items ≡ refills_of refills.now.dates) }
{
    let count = refills.len();
    let mut list = Vec::with_capacity(alloc, count)?;
    for i in 0..count {
        if let Some(refill) = refills.get(i) {
            list.push(refill)?;
        }
    }
    Ok(list)
}

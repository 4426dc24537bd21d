ghost use Rattle.std.specs.Prelude.{◌≡◌, ◌^◌, ◌<◌, ◌≤◌, true, length, get_or, None, option_map, IfOk};
ghost use Rattle.mcs_control.specs.Context.{head_amount, head_moment, context_woken, context_chosen, view_of};
ghost use Rattle.mcs_control.specs.Control.{IsConfig, kind_of};
ghost use Rattle.mcs_system.specs.System.{thread_part};
ghost use Rattle.mcs_core.specs.Core.{context_of, with_context};
ghost use Rattle.mcs_core.specs.Turn.{its_context, applied, charged, date_of, with_chosen_context};
ghost use Rattle.mcs_core.specs.stored.Sound.{has_context};

use crate::contexts::Contexts;
use crate::local::Local;
use crate::log::Here;
use mcs_control::{ContextView, Order};
use mcs_system::SystemParts;
use mcs_ticks::{ContextId, NoMemory, ThreadId, Tick};
use std::alloc::Global;

impl Local {
    pub(crate) fn charge(&mut self, system: &SystemParts, thread: ThreadId, ticks: u64)
        requires part { thread < length system.now.threads }
        requires has { has_context (thread_part system.now thread).context self.old ≡ true }
        requires some { 1 ≤ ticks }
        requires in_head { ticks ≤ head_amount (its_context system.now thread self.old) }
        requires early { head_moment (its_context system.now thread self.old) ≤ 2 ^ 40 }
        ensures { self.new ≡ charged system.now thread ticks self.old }
    {
        self.contexts
            .charge(system.thread(thread).context, ticks, system.min_budget);
    }

    /// Charges the context of the thread. Returns the date until which the thread then has to wait
    /// for it, if it is not ready.
    #[inline(always)]
    pub(crate) fn charge_until(
        &mut self,
        here: &Here<'_>,
        thread: ThreadId,
        ticks: u64,
    ) -> Option<Tick>
        requires part { thread < length here.now.system.now.threads }
        requires has { has_context (thread_part here.now.system.now thread).context self.old ≡ true }
        requires some { 1 ≤ ticks }
        requires in_head { ticks ≤ head_amount (its_context here.now.system.now thread self.old) }
        requires early { head_moment (its_context here.now.system.now thread self.old) ≤ 2 ^ 40 }
        ensures core { self.new ≡ charged here.now.system.now thread ticks self.old }
        ensures until { result ≡ date_of here.now.system.now here.now.moment thread self.new }
    {
        let context = here.system.thread(thread).context;
        self.contexts
            .charge_until(context, ticks, here.system.min_budget, here.moment)
    }

    /// The date until which the thread has to wait for its context, if it is not ready.
    #[inline(always)]
    pub(crate) fn date_of(&self, here: &Here<'_>, thread: ThreadId) -> Option<Tick>
        requires part { thread < length here.now.system.now.threads }
        requires has { has_context (thread_part here.now.system.now thread).context self.now ≡ true }
        ensures { result ≡ date_of here.now.system.now here.now.moment thread self.now }
    {
        self.contexts
            .date(here.system.thread(thread).context, here.moment)
    }

    /// The head of the thread's context, in ticks.
    #[inline(always)]
    pub(crate) fn head_amount(&self, system: &SystemParts, thread: ThreadId) -> u64
        requires part { thread < length system.now.threads }
        requires has { has_context (thread_part system.now thread).context self.now ≡ true }
        ensures { result ≡ head_amount (its_context system.now thread self.now) }
    {
        self.contexts.head_amount(system.thread(thread).context)
    }

    pub(crate) fn wake_context(&mut self, context: ContextId, moment: Tick)
        requires own { has_context context self.old ≡ true }
        requires soon { moment ≤ 2 ^ 40 }
        ensures { self.new ≡ with_context context (context_woken moment (context_of self.old context)) self.old }
    {
        self.contexts.wake(context, moment);
    }

    /// Chooses the thread; in bandwidth mode its context is unblocked. Returns the head of the
    /// context then, in ticks.
    #[inline(always)]
    pub(crate) fn choose_context(&mut self, here: &Here<'_>, thread: ThreadId) -> u64
        requires part { thread < length here.now.system.now.threads }
        requires has { has_context (thread_part here.now.system.now thread).context self.old ≡ true }
        requires soon { here.now.moment ≤ 2 ^ 40 }
        ensures core { self.new ≡ with_chosen_context here.now.system.now here.now.moment thread self.old }
        ensures head { result ≡ head_amount (context_chosen here.now.moment (its_context here.now.system.now thread self.old)) }
        ensures some { 1 ≤ result }
    {
        self.contexts
            .chosen(here.system.thread(thread).context, here.moment)
    }

    /// Changes the context of an order.
    pub(crate) fn apply(&mut self, moment: Tick, order: Order)
        requires own { has_context order.context self.old ≡ true }
        requires soon { moment ≤ 2 ^ 40 }
        requires checked { IsConfig order.config }
        requires same_kind { kind_of order.config ≡ kind_of (context_of self.old order.context).config }
        ensures { self.new ≡ applied moment order self.old }
    {
        self.contexts.order(order.context, moment, order.config);
    }

    pub(crate) fn contexts(&self) -> &Contexts
        ensures { result.now ≡ self.now.contexts }
    {
        &self.contexts
    }

    /// The view of a context, if the core holds it. Fails if memory runs out for the list of
    /// refills.
    pub(crate) fn view_context(
        &self,
        alloc: Global,
        context: ContextId,
        in_use: u64,
    ) -> Result<Option<ContextView>, NoMemory>
        requires known { context < length self.now.contexts }
        ensures { IfOk result
            (λ view. view ≡ option_map (view_of context in_use) (get_or self.now.contexts context None)) }
    {
        self.contexts.view(alloc, context, in_use)
    }
}

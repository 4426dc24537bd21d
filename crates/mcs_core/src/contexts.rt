ghost use Rattle.std.specs.Prelude.{◌≡◌, ◌^◌, ◌<◌, ◌≤◌, true, length, get_or, set, Some, None, option_map, IfOk};
ghost use Rattle.std.specs.Option.{option_copied};
ghost use Rattle.mcs_control.specs.Context.{head_amount, head_moment, context_charged, context_woken, context_chosen, context_ordered, view_of, date_from};
ghost use Rattle.mcs_control.specs.Control.{IsConfig, kind_of};
ghost use Rattle.mcs_core.specs.stored.Contexts.{seen_contexts, HaveRoom};
ghost use Rattle.mcs_core.specs.Contexts.{is_own, held};

use mcs_control::{Config, Context, ContextView};
use mcs_ticks::{ContextId, NoMemory, Tick};
use std::alloc::Global;
use std::marker::Model;

/// The contexts of a system by number; a core holds its own. A context of another core takes one
/// word.
#[derive(Drop)]
pub(crate) struct Contexts {
    contexts: Vec<Option<Box<Context>>>,
}

impl Model for Contexts {
    ghost use Rattle.std.specs.Prelude.{List, Option};
    ghost use Rattle.mcs_control.specs.Context.{Context};
    ghost use Rattle.mcs_core.specs.stored.Contexts.{seen_contexts, HaveRoom};

    ghost Value = { List (Option Context) };

    ghost view = { λ a. seen_contexts a.contexts.items };

    ghost invariant = { λ a. HaveRoom a.contexts.items };
}

impl Contexts {
    pub(crate) fn charge(&mut self, number: ContextId, ticks: u64, min_budget: u64)
        requires own { is_own number self.old ≡ true }
        requires some { 1 ≤ ticks }
        requires in_head { ticks ≤ head_amount (held number self.old) }
        requires early { head_moment (held number self.old) ≤ 2 ^ 40 }
        ensures { self.new ≡ set self.old number (Some (context_charged ticks min_budget (held number self.old))) }
    {
        match &mut self.contexts[number.0] {
            Some(context) => context.charge(ticks, min_budget),
            None => unreachable!(),
        }
    }

    /// Charges a context. Returns the date until which its thread then has to wait, if it is not
    /// ready at this moment.
    #[inline(always)]
    pub(crate) fn charge_until(
        &mut self,
        number: ContextId,
        ticks: u64,
        min_budget: u64,
        moment: Tick,
    ) -> Option<Tick>
        requires own { is_own number self.old ≡ true }
        requires some { 1 ≤ ticks }
        requires in_head { ticks ≤ head_amount (held number self.old) }
        requires early { head_moment (held number self.old) ≤ 2 ^ 40 }
        ensures contexts { self.new ≡ set self.old number (Some (context_charged ticks min_budget (held number self.old))) }
        ensures until { result ≡ date_from moment (context_charged ticks min_budget (held number self.old)) }
    {
        match &mut self.contexts[number.0] {
            Some(context) => {
                let context = context.as_mut();
                context.charge(ticks, min_budget);
                date_from(context, moment)
            }
            None => unreachable!(),
        }
    }

    pub(crate) fn wake(&mut self, number: ContextId, moment: Tick)
        requires own { is_own number self.old ≡ true }
        requires soon { moment ≤ 2 ^ 40 }
        ensures { self.new ≡ set self.old number (Some (context_woken moment (held number self.old))) }
    {
        match &mut self.contexts[number.0] {
            Some(context) => context.wake(moment),
            None => unreachable!(),
        }
    }

    /// Chooses the thread of a context. Returns the head of the context then, in ticks.
    #[inline(always)]
    pub(crate) fn chosen(&mut self, number: ContextId, moment: Tick) -> u64
        requires own { is_own number self.old ≡ true }
        requires soon { moment ≤ 2 ^ 40 }
        ensures contexts { self.new ≡ set self.old number (Some (context_chosen moment (held number self.old))) }
        ensures head { result ≡ head_amount (context_chosen moment (held number self.old)) }
        ensures some { 1 ≤ result }
    {
        match &mut self.contexts[number.0] {
            Some(context) => {
                let context = context.as_mut();
                context.chosen(moment);
                context.head_amount()
            }
            None => unreachable!(),
        }
    }

    /// Gives a context the configuration of an order, of the same kind.
    pub(crate) fn order(&mut self, number: ContextId, moment: Tick, config: Config)
        requires own { is_own number self.old ≡ true }
        requires soon { moment ≤ 2 ^ 40 }
        requires checked { IsConfig config }
        requires same_kind { kind_of config ≡ kind_of (held number self.old).config }
        ensures { self.new ≡ set self.old number (Some (context_ordered moment config (held number self.old))) }
    {
        match &mut self.contexts[number.0] {
            Some(context) => context.order(moment, config),
            None => unreachable!(),
        }
    }

    /// The date until which the thread of a context has to wait, if it is not ready at a moment.
    #[inline(always)]
    pub(crate) fn date(&self, number: ContextId, moment: Tick) -> Option<Tick>
        requires own { is_own number self.now ≡ true }
        ensures { result ≡ date_from moment (held number self.now) }
    {
        match &self.contexts[number.0] {
            Some(context) => date_from(context.as_ref(), moment),
            None => unreachable!(),
        }
    }

    /// The head of a context, in ticks.
    #[inline(always)]
    pub(crate) fn head_amount(&self, number: ContextId) -> u64
        requires own { is_own number self.now ≡ true }
        ensures { result ≡ head_amount (held number self.now) }
    {
        match &self.contexts[number.0] {
            Some(context) => context.head_amount(),
            None => unreachable!(),
        }
    }

    /// Returns these contexts, each with room for as many refills as any configuration may have.
    pub(crate) fn from_parts(contexts: Vec<Option<Box<Context>>>) -> Self
        requires { HaveRoom contexts.items }
        ensures { result ≡ seen_contexts contexts.items }
    {
        Contexts { contexts }
    }

    pub(crate) fn get(&self, number: ContextId) -> Option<&Context>
        requires known { number < length self.now }
        ensures { option_map (λ kept. kept.context) (option_copied result) ≡ get_or self.now number None }
    {
        self.contexts[number.0].as_deref()
    }

    /// The view of a context, if the core holds it. Fails if memory runs out for the list of
    /// refills.
    pub(crate) fn view(
        &self,
        alloc: Global,
        number: ContextId,
        in_use: u64,
    ) -> Result<Option<ContextView>, NoMemory>
        requires known { number < length self.now }
        ensures { IfOk result (λ view. view ≡ option_map (view_of number in_use) (get_or self.now number None)) }
    {
        match &self.contexts[number.0] {
            Some(context) => Ok(Some(context.view(alloc, number, in_use)?)),
            None => Ok(None),
        }
    }
}

/// The date until which the thread of a context has to wait, if it is not ready at a moment.
fn date_from(context: &Context, moment: Tick) -> Option<Tick>
    ensures { result ≡ date_from moment context.now.context }
{
    if context.ready(moment) {
        None
    } else {
        Some(context.head_moment())
    }
}

ghost use Rattle.std.specs.Prelude.{◌≡◌, ◌+◌, ◌^◌, ◌≤◌, ◌<◌, nat_lt, true, OnOk, IfOk, None, length};
ghost use Rattle.mcs_ticks.specs.Queue.{by_priority, first_of};
ghost use Rattle.mcs_control.specs.Context.{head_amount, context_chosen};
ghost use Rattle.mcs_core.specs.Turn.{its_context, preempts, chooses};
ghost use Rattle.mcs_core.specs.stored.Ends.{HoldsOn, IsEnd, better, started};
ghost use Rattle.mcs_core.specs.stored.Parts.{Makes};
ghost use Rattle.mcs_core.specs.stored.Sound.{IsSound, has_context};
ghost use Rattle.mcs_core.specs.stored.Sound.Phase.{PastTick};
ghost use Rattle.mcs_system.specs.System.{thread_part};
ghost use Rattle.mcs_system.specs.WellFormed.{IsWellFormed};

use crate::events::ticks_before_end;
use crate::local::Local;
use crate::log::{Here, Log};
use crate::{Chosen, Standing};
use mcs_ticks::{FlowFault, Sink, Soonest, ThreadId, Tick, What, Why};

impl Local {
    /// Preempts the running thread if a ready one has a greater priority.
    #[inline(always)]
    pub(crate) fn preempt<S: Sink>(
        &mut self,
        here: &Here<'_>,
        log: &mut Log<'_, S>,
    ) -> Result<(), FlowFault>
        requires well_formed { IsWellFormed here.now.system.now }
        requires sound { IsSound here.now.system.now here.now.core (here.now.moment + 1) PastTick None self.old }
        requires soon { here.now.moment ≤ 2 ^ 40 }
        ensures { OnOk result
            (Makes S.takes here.now (preempts by_priority here.now.system.now here.now.moment self.old)
            self.new log.old log.new) }
    {
        let Some(chosen) = self.running() else {
            return Ok(());
        };
        let thread = chosen.thread;
        let used = chosen.using;
        if let Some(best) = self.best() {
            if self.thread(thread).place.priority < best {
                let until = self.charge_until(here, thread, used);
                return self.stop_to_front(here, thread, Why::Preempt, used, until, log);
            }
        }
        Ok(())
    }

    /// This moment, if a ready thread has a priority above this one; otherwise never.
    #[inline(always)]
    fn better(&self, priority: u8, moment: Tick) -> Soonest
        ensures { result ≡ better priority moment (first_of self.now.ready) }
    {
        match self.best() {
            Some(best) if priority < best => Soonest::at(moment),
            _ => Soonest::never(),
        }
    }

    /// Chooses this thread, which is in no queue; in bandwidth mode its context is unblocked.
    /// Returns the first moment after this one at which the thread ends its item or exhausts its
    /// head, or a ready thread has to run instead.
    #[inline(always)]
    fn start(&mut self, here: &Here<'_>, thread: ThreadId) -> Soonest
        requires known { thread < length self.old.threads }
        requires part { thread < length here.now.system.now.threads }
        requires has { has_context (thread_part here.now.system.now thread).context self.old ≡ true }
        requires soon { here.now.moment ≤ 2 ^ 40 }
        requires few { head_amount (context_chosen here.now.moment (its_context here.now.system.now thread self.old)) ≤ 2 ^ 40 }
        ensures core { self.new ≡ started here.now.system.now here.now.moment thread self.old }
        ensures ends { IsEnd here.now.system.now (here.now.moment + 1) self.new result }
    {
        let next = Tick::at(here.moment.get() + 1);
        let better = self.better(self.thread(thread).place.priority, next);
        let left = self.thread(thread).place.left;
        let head = self.choose_context(here, thread);
        let ticks = ticks_before_end(left, 0, head);
        let ends = Soonest::at(Tick::at(next.get() + ticks)).or(better);
        self.stand(thread, Standing::Running);
        self.set_running(Chosen { thread, using: 0 });
        ends
    }

    /// Chooses the best ready thread if no thread runs; in bandwidth mode its context is unblocked.
    /// Returns the first moment after this one at which the thread that then runs ends its item or
    /// exhausts its head, or a ready thread has to run instead.
    #[inline(always)]
    pub(crate) fn choose<S: Sink>(
        &mut self,
        here: &Here<'_>,
        log: &mut Log<'_, S>,
    ) -> Result<Soonest, FlowFault>
        requires well_formed { IsWellFormed here.now.system.now }
        requires sound { IsSound here.now.system.now here.now.core (here.now.moment + 1) PastTick None self.old }
        requires soon { here.now.moment ≤ 2 ^ 40 }
        requires holds { HoldsOn here.now.system.now self.old }
        ensures makes { OnOk result
            (Makes S.takes here.now (chooses by_priority here.now.system.now here.now.moment self.old) self.new log.old
            log.new) }
        ensures ends { IfOk result (λ ends. IsEnd here.now.system.now (here.now.moment + 1) self.new ends) }
    {
        if self.running().is_some() {
            return Ok(self.next_end(here.system, Tick::at(here.moment.get() + 1)));
        }
        let Some(thread) = self.take_best() else {
            return Ok(Soonest::never());
        };
        let ends = self.start(here, thread);
        log.tell(here, What::Run { thread })?;
        Ok(ends)
    }
}

ghost use Rattle.std.specs.Prelude.{◌≡◌, ◌+◌, ◌^◌, ◌≤◌, ◌<◌, true, OnOk, IfOk, IfSome, Some, None, length};
ghost use Rattle.mcs_ticks.specs.Queue.{by_priority};
ghost use Rattle.mcs_core.specs.Busy.{GoesOnAfter};
ghost use Rattle.mcs_core.specs.Quiet.{counted_times};
ghost use Rattle.mcs_core.specs.State.{delays_from};
ghost use Rattle.mcs_core.specs.Turn.{takes_effect, item_of, after_item, finishes, tick};
ghost use Rattle.mcs_core.specs.stored.Items.{CanTakeEffect};
ghost use Rattle.mcs_core.specs.stored.Parts.{HasDelays, Makes, MakesApart};
ghost use Rattle.mcs_core.specs.stored.Sound.{IsSound};
ghost use Rattle.mcs_core.specs.stored.Sound.Phase.{Between, InTick};
ghost use Rattle.mcs_system.specs.WellFormed.{IsWellFormed};

use crate::AfterItem;
use crate::items::after_move;
use crate::local::Local;
use crate::log::{Here, Log};
use mcs_mail::Mail;
use mcs_script::Item;
use mcs_ticks::{FlowFault, Sink, ThreadId};

impl Local {
    /// Finishes the thread's item, as `take_effect` does. The turns of most items, which compute or
    /// yield, are faster if the code of the others is apart.
    #[inline(always)]
    fn finish_item<S: Sink>(
        &mut self,
        here: &Here<'_>,
        thread: ThreadId,
        log: &mut Log<'_, S>,
    ) -> Result<AfterItem, FlowFault>
        requires can { CanTakeEffect here.now.system.now here.now.core here.now.moment thread
            (item_of here.now.system.now thread self.old) self.old }
        requires soon { here.now.moment ≤ 2 ^ 40 }
        requires delays { HasDelays here.now }
        ensures makes { OnOk result
            (Makes S.takes here.now
            (takes_effect by_priority here.now.system.now here.now.core here.now.moment thread
            (item_of here.now.system.now thread self.old) self.old)
            self.new log.old log.new) }
        ensures after { IfOk result
            (λ after. after ≡ after_item here.now.system.now thread (item_of here.now.system.now thread self.old) self.old) }
    {
        match self.item_of(here.system, thread) {
            Some(Item::Compute(_)) => {
                let moved = self.move_on(here, thread, log)?;
                Ok(after_move(moved, AfterItem::GoesOn))
            }
            Some(Item::Yield) => {
                let moved = self.move_on(here, thread, log)?;
                Ok(after_move(moved, AfterItem::Yields))
            }
            _ => {
                self.finish_other_item(&here.copied(), thread, &mut *log.sink, &mut *log.signals)
            }
        }
    }

    /// Finishes the thread's item, as `finish_item` does. It is not inlined, and has no address of
    /// the caller's log.
    #[inline(never)]
    fn finish_other_item<S: Sink>(
        &mut self,
        here: &Here<'_>,
        thread: ThreadId,
        sink: &mut S,
        signals: &mut Vec<Mail>,
    ) -> Result<AfterItem, FlowFault>
        requires can { CanTakeEffect here.now.system.now here.now.core here.now.moment thread
            (item_of here.now.system.now thread self.old) self.old }
        requires soon { here.now.moment ≤ 2 ^ 40 }
        requires delays { HasDelays here.now }
        ensures makes { OnOk result
            (MakesApart S.takes here.now
            (takes_effect by_priority here.now.system.now here.now.core here.now.moment thread
            (item_of here.now.system.now thread self.old) self.old)
            self.new sink.old sink.new signals.old.items signals.new.items) }
        ensures after { IfOk result
            (λ after. after ≡ after_item here.now.system.now thread (item_of here.now.system.now thread self.old) self.old) }
    {
        let item = self.item_of(here.system, thread);
        let mut log = Log { sink, signals };
        self.take_effect(here, thread, &item, &mut log)
    }

    /// Finishes the running thread's item: it takes effect, and at most one stop follows.
    #[inline(always)]
    fn finish<S: Sink>(
        &mut self,
        here: &Here<'_>,
        thread: ThreadId,
        used: u64,
        log: &mut Log<'_, S>,
    ) -> Result<(), FlowFault>
        requires well_formed { IsWellFormed here.now.system.now }
        requires sound { IsSound here.now.system.now here.now.core here.now.moment InTick None self.old }
        requires running { self.old.running ≡ Some (record { thread = thread; using = used }) }
        requires delays { here.now.delays.now ≡ delays_from here.now.system.now here.now.core }
        requires soon { here.now.moment ≤ 2 ^ 40 }
        ensures { OnOk result
            (Makes S.takes here.now
            (finishes by_priority here.now.system.now here.now.core here.now.moment thread used
            (item_of here.now.system.now thread self.old) self.old)
            self.new log.old log.new) }
    {
        let after = self.finish_item(here, thread, log)?;
        self.may_stop(here, thread, used, after, log)
    }

    /// Ends a tick, after `quiet` quiet ones that are counted with it. If `goes_on`, the running
    /// thread is known to continue.
    #[inline(always)]
    pub(crate) fn tick<S: Sink>(
        &mut self,
        here: &Here<'_>,
        quiet: u64,
        goes_on: bool,
        log: &mut Log<'_, S>,
    ) -> Result<(), FlowFault>
        requires well_formed { IsWellFormed here.now.system.now }
        requires sound { IsSound here.now.system.now here.now.core here.now.moment Between None
            (counted_times here.now.system.now here.now.core quiet self.old) }
        requires known { IfSome self.old.running (λ chosen. chosen.thread < length self.old.threads) }
        requires delays { here.now.delays.now ≡ delays_from here.now.system.now here.now.core }
        requires soon { here.now.moment ≤ 2 ^ 40 }
        requires few { IfSome self.old.running (λ chosen. chosen.using + quiet < 2 ^ 63) }
        requires goes { goes_on ≡ true → GoesOnAfter here.now.system.now quiet self.old.running self.old }
        ensures { OnOk result
            (Makes S.takes here.now
            (tick by_priority here.now.system.now here.now.core here.now.moment
            (counted_times here.now.system.now here.now.core quiet self.old))
            self.new log.old log.new) }
    {
        let Some(before) = self.running() else {
            return Ok(());
        };
        let thread = before.thread;
        let ticks = quiet + 1;
        let used = before.using + ticks;
        let left = self.count(before, ticks);
        if goes_on {
            return Ok(());
        }
        if left == 0 {
            self.finish(here, thread, used, log)
        } else {
            self.may_stop(here, thread, used, AfterItem::GoesOn, log)
        }
    }
}

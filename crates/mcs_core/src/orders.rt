ghost use Rattle.std.specs.Prelude.{◌≡◌, ◌+◌, ◌^◌, ◌≤◌, OnOk, Some, None};
ghost use Rattle.mcs_ticks.specs.Queue.{by_priority};
ghost use Rattle.mcs_system.specs.System.{thread_part};
ghost use Rattle.mcs_core.specs.Turn.{each, applied, charged, orders_running, obeys};
ghost use Rattle.mcs_core.specs.Orders.{IsPlanned, ArePlanned, AreByMoment, due_now, to_come};
ghost use Rattle.mcs_core.specs.stored.Parts.{Makes, MakesApart};
ghost use Rattle.mcs_core.specs.stored.Sound.{IsFree, IsSound};
ghost use Rattle.mcs_core.specs.stored.Sound.Phase.{PastTick};
ghost use Rattle.mcs_system.specs.WellFormed.{IsWellFormed};

use crate::Chosen;
use crate::agenda::Agenda;
use crate::local::Local;
use crate::log::{Here, Log};
use mcs_control::Order;
use mcs_mail::Mail;
use mcs_ticks::{FlowFault, Sink, What, Why};

impl Local {
    /// Charges the running thread, and then applies the order's configuration to its context.
    #[inline(always)]
    fn charge_and_apply(&mut self, here: &Here<'_>, order: Order, chosen: Chosen)
        requires well_formed { IsWellFormed here.now.system.now }
        requires sound { IsSound here.now.system.now here.now.core here.now.moment PastTick None self.old }
        requires running { self.old.running ≡ Some chosen }
        requires its { (thread_part here.now.system.now chosen.thread).context ≡ order.context }
        requires planned { IsPlanned here.now.system.now here.now.core order }
        requires soon { here.now.moment ≤ 2 ^ 40 }
        ensures core { self.new
            ≡ applied here.now.moment order (charged here.now.system.now chosen.thread chosen.using self.old) }
        ensures free { IsFree here.now.system.now chosen.thread self.new }
    {
        self.charge(here.system, chosen.thread, chosen.using);
        self.apply(here.moment, order);
    }

    /// Obeys an order for the context of the running thread: the thread is charged, and stops.
    #[inline(always)]
    fn obey_running<S: Sink>(
        &mut self,
        here: &Here<'_>,
        order: Order,
        chosen: Chosen,
        log: &mut Log<'_, S>,
    ) -> Result<(), FlowFault>
        requires well_formed { IsWellFormed here.now.system.now }
        requires sound { IsSound here.now.system.now here.now.core here.now.moment PastTick None self.old }
        requires running { self.old.running ≡ Some chosen }
        requires its { (thread_part here.now.system.now chosen.thread).context ≡ order.context }
        requires planned { IsPlanned here.now.system.now here.now.core order }
        requires soon { here.now.moment ≤ 2 ^ 40 }
        ensures { OnOk result
            (Makes S.takes here.now
            (orders_running by_priority here.now.system.now here.now.moment order (Some chosen) self.old)
            self.new log.old log.new) }
    {
        let thread = chosen.thread;
        let used = chosen.using;
        self.charge_and_apply(here, order, chosen);
        let until = self.date_of(here, thread);
        self.stop_to_front(here, thread, Why::Order, used, until, log)
    }

    /// Obeys an order for a context of the core.
    #[inline(always)]
    fn obey<S: Sink>(
        &mut self,
        here: &Here<'_>,
        order: Order,
        log: &mut Log<'_, S>,
    ) -> Result<(), FlowFault>
        requires well_formed { IsWellFormed here.now.system.now }
        requires sound { IsSound here.now.system.now here.now.core here.now.moment PastTick None self.old }
        requires planned { IsPlanned here.now.system.now here.now.core order }
        requires soon { here.now.moment ≤ 2 ^ 40 }
        ensures { OnOk result
            (Makes S.takes here.now (obeys by_priority here.now.system.now here.now.moment order self.old)
            self.new log.old log.new) }
    {
        let context = order.context;
        log.tell(here, What::Order { context })?;
        if let Some(chosen) = self.running() {
            if here.system.thread(chosen.thread).context == context {
                return self.obey_running(here, order, chosen, log);
            }
        }
        self.apply(here.moment, order);
        Ok(())
    }

    /// Obeys the orders of this moment. At most moments there are none.
    #[inline(always)]
    pub(crate) fn orders<S: Sink>(
        &mut self,
        here: &Here<'_>,
        agenda: &mut Agenda,
        log: &mut Log<'_, S>,
    ) -> Result<(), FlowFault>
        requires well_formed { IsWellFormed here.now.system.now }
        requires sound { IsSound here.now.system.now here.now.core here.now.moment PastTick None self.old }
        requires planned { ArePlanned here.now.system.now here.now.core agenda.old }
        requires by_moment { AreByMoment here.now.moment agenda.old }
        requires soon { here.now.moment ≤ 2 ^ 40 }
        ensures makes { OnOk result
            (Makes S.takes here.now
            (each (obeys by_priority here.now.system.now here.now.moment) (due_now here.now.moment agenda.old) self.old)
            self.new log.old log.new) }
        ensures agenda { OnOk result (agenda.new ≡ to_come (here.now.moment + 1) agenda.old) }
    {
        if !agenda.next().has_come(here.moment) {
            return Ok(());
        }
        self.obey_due_apart(&here.copied(), agenda, &mut *log.sink, &mut *log.signals)
    }

    /// Does what `obey_due` does. It is not inlined, and has no address of the caller's log, so a
    /// turn without orders keeps the log in registers.
    #[inline(never)]
    fn obey_due_apart<S: Sink>(
        &mut self,
        here: &Here<'_>,
        agenda: &mut Agenda,
        sink: &mut S,
        signals: &mut Vec<Mail>,
    ) -> Result<(), FlowFault>
        requires well_formed { IsWellFormed here.now.system.now }
        requires sound { IsSound here.now.system.now here.now.core here.now.moment PastTick None self.old }
        requires planned { ArePlanned here.now.system.now here.now.core agenda.old }
        requires by_moment { AreByMoment here.now.moment agenda.old }
        requires soon { here.now.moment ≤ 2 ^ 40 }
        ensures makes { OnOk result
            (MakesApart S.takes here.now
            (each (obeys by_priority here.now.system.now here.now.moment) (due_now here.now.moment agenda.old) self.old)
            self.new sink.old sink.new signals.old.items signals.new.items) }
        ensures agenda { OnOk result (agenda.new ≡ to_come (here.now.moment + 1) agenda.old) }
    {
        let mut log = Log { sink, signals };
        self.obey_due(here, agenda, &mut log)
    }

    /// Obeys the orders of this moment.
    #[inline(always)]
    fn obey_due<S: Sink>(
        &mut self,
        here: &Here<'_>,
        agenda: &mut Agenda,
        log: &mut Log<'_, S>,
    ) -> Result<(), FlowFault>
        requires well_formed { IsWellFormed here.now.system.now }
        requires sound { IsSound here.now.system.now here.now.core here.now.moment PastTick None self.old }
        requires planned { ArePlanned here.now.system.now here.now.core agenda.old }
        requires by_moment { AreByMoment here.now.moment agenda.old }
        requires soon { here.now.moment ≤ 2 ^ 40 }
        ensures makes { OnOk result
            (Makes S.takes here.now
            (each (obeys by_priority here.now.system.now here.now.moment) (due_now here.now.moment agenda.old) self.old)
            self.new log.old log.new) }
        ensures agenda { OnOk result (agenda.new ≡ to_come (here.now.moment + 1) agenda.old) }
    {
        'agenda: while let Some(order) = agenda.take_due(here.moment) {
            self.obey(here, order, log)?;
        }
        Ok(())
    }
}

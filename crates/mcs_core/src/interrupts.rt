ghost use Rattle.std.specs.Prelude.{◌≡◌, ◌^◌, ◌≤◌, ◌<◌, OnOk, None, length};
ghost use Rattle.mcs_ticks.specs.Queue.{by_priority};
ghost use Rattle.mcs_core.specs.Alarms.{ringing, past, AreAlarms};
ghost use Rattle.mcs_core.specs.Turn.{each, interrupts};
ghost use Rattle.mcs_core.specs.stored.Parts.{Makes, MakesApart};
ghost use Rattle.mcs_core.specs.stored.Sound.{IsSound};
ghost use Rattle.mcs_core.specs.stored.Sound.Phase.{PastTick};
ghost use Rattle.mcs_system.specs.WellFormed.{IsWellFormed};

use crate::Alarm;
use crate::alarms::Alarms;
use crate::local::Local;
use crate::log::{Here, Log};
use mcs_mail::Mail;
use mcs_ticks::{FlowFault, Sink, What};

impl Local {
    /// Posts the interrupt of a source.
    #[inline(always)]
    fn interrupt<S: Sink>(
        &mut self,
        here: &Here<'_>,
        alarm: Alarm,
        log: &mut Log<'_, S>,
    ) -> Result<(), FlowFault>
        requires well_formed { IsWellFormed here.now.system.now }
        requires sound { IsSound here.now.system.now here.now.core here.now.moment PastTick None self.old }
        requires known { alarm.note < length here.now.system.now.notes }
        requires soon { here.now.moment ≤ 2 ^ 40 }
        ensures { OnOk result
            (Makes S.takes here.now (interrupts by_priority here.now.system.now here.now.moment alarm self.old)
            self.new log.old log.new) }
    {
        let source = alarm.source;
        let note = alarm.note;
        let badge = alarm.badge;
        log.tell(
            here,
            What::Interrupt {
                source,
                note,
                badge,
            },
        )?;
        self.post(here, note, badge, log)
    }

    /// Posts the interrupts of all sources with a date at this moment, in file order. At most
    /// moments there are none.
    #[inline(always)]
    pub(crate) fn interrupts<S: Sink>(
        &mut self,
        here: &Here<'_>,
        alarms: &mut Alarms,
        log: &mut Log<'_, S>,
    ) -> Result<(), FlowFault>
        requires well_formed { IsWellFormed here.now.system.now }
        requires sound { IsSound here.now.system.now here.now.core here.now.moment PastTick None self.old }
        requires alarms { AreAlarms (length here.now.system.now.notes) here.now.moment alarms.old }
        requires soon { here.now.moment ≤ 2 ^ 40 }
        ensures makes { OnOk result
            (Makes S.takes here.now
            (each (interrupts by_priority here.now.system.now here.now.moment) (ringing here.now.moment alarms.old) self.old)
            self.new log.old log.new) }
        ensures alarms { OnOk result (alarms.new ≡ past here.now.moment alarms.old) }
    {
        if !alarms.next().has_come(here.moment) {
            return Ok(());
        }
        self.ring_apart(&here.copied(), alarms, &mut *log.sink, &mut *log.signals)
    }

    /// Does what `ring` does. It is not inlined, and has no address of the caller's log, so a turn
    /// without interrupts keeps the log in registers.
    #[inline(never)]
    fn ring_apart<S: Sink>(
        &mut self,
        here: &Here<'_>,
        alarms: &mut Alarms,
        sink: &mut S,
        signals: &mut Vec<Mail>,
    ) -> Result<(), FlowFault>
        requires well_formed { IsWellFormed here.now.system.now }
        requires sound { IsSound here.now.system.now here.now.core here.now.moment PastTick None self.old }
        requires alarms { AreAlarms (length here.now.system.now.notes) here.now.moment alarms.old }
        requires soon { here.now.moment ≤ 2 ^ 40 }
        ensures makes { OnOk result
            (MakesApart S.takes here.now
            (each (interrupts by_priority here.now.system.now here.now.moment) (ringing here.now.moment alarms.old) self.old)
            self.new sink.old sink.new signals.old.items signals.new.items) }
        ensures alarms { OnOk result (alarms.new ≡ past here.now.moment alarms.old) }
    {
        let mut log = Log { sink, signals };
        self.ring(here, alarms, &mut log)
    }

    /// Posts the interrupts of all sources with a date at this moment, in file order.
    #[inline(always)]
    fn ring<S: Sink>(
        &mut self,
        here: &Here<'_>,
        alarms: &mut Alarms,
        log: &mut Log<'_, S>,
    ) -> Result<(), FlowFault>
        requires well_formed { IsWellFormed here.now.system.now }
        requires sound { IsSound here.now.system.now here.now.core here.now.moment PastTick None self.old }
        requires alarms { AreAlarms (length here.now.system.now.notes) here.now.moment alarms.old }
        requires soon { here.now.moment ≤ 2 ^ 40 }
        ensures makes { OnOk result
            (Makes S.takes here.now
            (each (interrupts by_priority here.now.system.now here.now.moment) (ringing here.now.moment alarms.old) self.old)
            self.new log.old log.new) }
        ensures alarms { OnOk result (alarms.new ≡ past here.now.moment alarms.old) }
    {
        'alarms: while let Some(alarm) = alarms.take_ringing(here.moment) {
            self.interrupt(here, alarm, log)?;
        }
        Ok(())
    }
}

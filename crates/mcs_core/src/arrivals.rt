ghost use Rattle.std.specs.Prelude.{◌≡◌, ◌^◌, ◌≤◌, ◌<◌, OnOk, All, None, length};
ghost use Rattle.mcs_ticks.specs.Queue.{by_priority};
ghost use Rattle.mcs_mail.specs.Box.{arriving, staying};
ghost use Rattle.mcs_core.specs.Turn.{each, arrives};
ghost use Rattle.mcs_core.specs.stored.Parts.{Makes, MakesApart};
ghost use Rattle.mcs_core.specs.stored.Sound.{IsSound};
ghost use Rattle.mcs_core.specs.stored.Sound.Phase.{PastTick};
ghost use Rattle.mcs_system.specs.WellFormed.{IsWellFormed};

use crate::local::Local;
use crate::log::{Here, Log};
use mcs_mail::{Mail, Mailbox};
use mcs_ticks::{FlowFault, Sink, What};

impl Local {
    /// Takes a signal of another core.
    #[inline(always)]
    fn arrive<S: Sink>(
        &mut self,
        here: &Here<'_>,
        mail: Mail,
        log: &mut Log<'_, S>,
    ) -> Result<(), FlowFault>
        requires well_formed { IsWellFormed here.now.system.now }
        requires sound { IsSound here.now.system.now here.now.core here.now.moment PastTick None self.old }
        requires known { mail.note < length here.now.system.now.notes }
        requires soon { here.now.moment ≤ 2 ^ 40 }
        ensures { OnOk result
            (Makes S.takes here.now (arrives by_priority here.now.system.now here.now.moment mail self.old)
            self.new log.old log.new) }
    {
        let note = mail.note;
        let badge = mail.badge;
        let maker = mail.maker;
        log.tell(here, What::Arrive { note, badge, maker })?;
        self.post(here, note, badge, log)
    }

    /// Takes the signals that arrive now, in the order of their delivery. At most moments there are
    /// none.
    #[inline(always)]
    pub(crate) fn arrivals<S: Sink>(
        &mut self,
        here: &Here<'_>,
        mail: &mut Mailbox,
        log: &mut Log<'_, S>,
    ) -> Result<(), FlowFault>
        requires well_formed { IsWellFormed here.now.system.now }
        requires sound { IsSound here.now.system.now here.now.core here.now.moment PastTick None self.old }
        requires known { All (λ mail. mail.note < length here.now.system.now.notes) mail.old.mails }
        requires come { All (λ mail. here.now.moment ≤ mail.arrives) mail.old.mails }
        requires soon { here.now.moment ≤ 2 ^ 40 }
        ensures makes { OnOk result
            (Makes S.takes here.now
            (each (arrives by_priority here.now.system.now here.now.moment) (arriving here.now.moment mail.old.mails)
            self.old)
            self.new log.old log.new) }
        ensures mail { OnOk result (mail.new.mails ≡ staying here.now.moment mail.old.mails) }
    {
        if !mail.soonest().has_come(here.moment) {
            return Ok(());
        }
        self.take_in_apart(&here.copied(), mail, &mut *log.sink, &mut *log.signals)
    }

    /// Does what `take_in` does. It is not inlined, and has no address of the caller's log, so a
    /// turn without arrivals keeps the log in registers.
    #[inline(never)]
    fn take_in_apart<S: Sink>(
        &mut self,
        here: &Here<'_>,
        mail: &mut Mailbox,
        sink: &mut S,
        signals: &mut Vec<Mail>,
    ) -> Result<(), FlowFault>
        requires well_formed { IsWellFormed here.now.system.now }
        requires sound { IsSound here.now.system.now here.now.core here.now.moment PastTick None self.old }
        requires known { All (λ mail. mail.note < length here.now.system.now.notes) mail.old.mails }
        requires come { All (λ mail. here.now.moment ≤ mail.arrives) mail.old.mails }
        requires soon { here.now.moment ≤ 2 ^ 40 }
        ensures makes { OnOk result
            (MakesApart S.takes here.now
            (each (arrives by_priority here.now.system.now here.now.moment) (arriving here.now.moment mail.old.mails)
            self.old)
            self.new sink.old sink.new signals.old.items signals.new.items) }
        ensures mail { OnOk result (mail.new.mails ≡ staying here.now.moment mail.old.mails) }
    {
        let mut log = Log { sink, signals };
        self.take_in(here, mail, &mut log)
    }

    /// Takes the signals that arrive now, in the order of their delivery.
    #[inline(always)]
    fn take_in<S: Sink>(
        &mut self,
        here: &Here<'_>,
        mail: &mut Mailbox,
        log: &mut Log<'_, S>,
    ) -> Result<(), FlowFault>
        requires well_formed { IsWellFormed here.now.system.now }
        requires sound { IsSound here.now.system.now here.now.core here.now.moment PastTick None self.old }
        requires known { All (λ mail. mail.note < length here.now.system.now.notes) mail.old.mails }
        requires come { All (λ mail. here.now.moment ≤ mail.arrives) mail.old.mails }
        requires soon { here.now.moment ≤ 2 ^ 40 }
        ensures makes { OnOk result
            (Makes S.takes here.now
            (each (arrives by_priority here.now.system.now here.now.moment) (arriving here.now.moment mail.old.mails)
            self.old)
            self.new log.old log.new) }
        ensures mail { OnOk result (mail.new.mails ≡ staying here.now.moment mail.old.mails) }
    {
        'mails: while let Some(next) = mail.take_due(here.moment) {
            self.arrive(here, next, log)?;
        }
        Ok(())
    }
}

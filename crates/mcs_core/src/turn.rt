ghost use Rattle.std.specs.Prelude.{◌≡◌, ◌+◌, true, OnOk, IfOk, None};
ghost use Rattle.mcs_mail.specs.Box.{arriving, staying};
ghost use Rattle.mcs_core.specs.Alarms.{past};
ghost use Rattle.mcs_core.specs.Busy.{GoesOnAfter};
ghost use Rattle.mcs_core.specs.Orders.{to_come};
ghost use Rattle.mcs_core.specs.Quiet.{counted_times};
ghost use Rattle.mcs_core.specs.Turn.{turn};
ghost use Rattle.mcs_core.specs.stored.Ends.{IsEnd};
ghost use Rattle.mcs_core.specs.stored.Parts.{CanTurn, Makes};
ghost use Rattle.mcs_core.specs.stored.Sound.{IsSound};
ghost use Rattle.mcs_core.specs.stored.Sound.Phase.{Between};

use crate::agenda::Agenda;
use crate::alarms::Alarms;
use crate::local::Local;
use crate::log::{Here, Log};
use mcs_mail::Mailbox;
use mcs_ticks::{FlowFault, Sink, Soonest};

impl Local {
    /// Takes the whole turn of a core at a moment, after `quiet` quiet ticks that are counted with
    /// it. Its cost depends on the events of the turn only, not on the number of threads, contexts
    /// and orders. If `goes_on`, the running thread is known to continue after the tick of this
    /// turn. Returns the first moment after this one at which the thread that then runs ends its
    /// item or exhausts its head, or a ready thread has to run instead.
    #[inline(always)]
    pub(crate) fn turn<S: Sink>(
        &mut self,
        here: &Here<'_>,
        quiet: u64,
        goes_on: bool,
        agenda: &mut Agenda,
        alarms: &mut Alarms,
        mail: &mut Mailbox,
        log: &mut Log<'_, S>,
    ) -> Result<Soonest, FlowFault>
        requires can { CanTurn here.now.system.now here.now.core here.now.moment here.now.delays.now quiet agenda.old alarms.old mail.old.mails
            self.old }
        requires goes { goes_on ≡ true → GoesOnAfter here.now.system.now quiet self.old.running self.old }
        ensures makes { OnOk result
            (Makes S.takes here.now
            (turn here.now.system.now here.now.core here.now.moment (arriving here.now.moment mail.old.mails)
            (counted_times here.now.system.now here.now.core quiet self.old))
            self.new log.old log.new) }
        ensures mail { OnOk result (mail.new.mails ≡ staying here.now.moment mail.old.mails) }
        ensures agenda { OnOk result (agenda.new ≡ to_come (here.now.moment + 1) agenda.old) }
        ensures alarms { OnOk result (alarms.new ≡ past here.now.moment alarms.old) }
        ensures sound { OnOk result
            (IsSound here.now.system.now here.now.core (here.now.moment + 1) Between None self.new) }
        ensures ends { IfOk result (λ ends. IsEnd here.now.system.now (here.now.moment + 1) self.new ends) }
    {
        self.tick(here, quiet, goes_on, log)?;
        self.interrupts(here, alarms, log)?;
        self.arrivals(here, mail, log)?;
        self.orders(here, agenda, log)?;
        self.releases(here, log)?;
        self.preempt(here, log)?;
        self.choose(here, log)
    }
}

ghost use Rattle.std.specs.Prelude.{◌≡◌, OnOk};
ghost use Rattle.mcs_ticks.specs.Queue.{by_priority};
ghost use Rattle.mcs_ticks.specs.declared.row.What.TheVariants.{Stop};
ghost use Rattle.mcs_core.specs.Turn.{date_of, enters_back, enters_front, stops, stops_to_back, stops_to_front, may_stop};
ghost use Rattle.mcs_core.specs.Core.{off};
ghost use Rattle.mcs_core.specs.stored.Parts.{Makes};
ghost use Rattle.mcs_core.specs.stored.Sound.{CanStop, IsFree};

use crate::local::Local;
use crate::log::{Here, Log};
use crate::{AfterItem, Standing};
use mcs_ticks::{FlowFault, Sink, ThreadId, Tick, What, Why};

impl Local {
    /// Moves the running thread to the back of the ready queue, or into the release queue with this
    /// date.
    #[inline(always)]
    fn leave_to_back(&mut self, here: &Here<'_>, thread: ThreadId, until: Option<Tick>)
        requires { IsFree here.now.system.now thread self.old }
        ensures { self.new ≡ enters_back by_priority thread until (off self.old) }
    {
        self.leave();
        self.enter_back(thread, until);
    }

    /// Moves the running thread to the front of the ready queue, or into the release queue with
    /// this date.
    #[inline(always)]
    fn leave_to_front(&mut self, here: &Here<'_>, thread: ThreadId, until: Option<Tick>)
        requires { IsFree here.now.system.now thread self.old }
        ensures { self.new ≡ enters_front by_priority thread until (off self.old) }
    {
        self.leave();
        self.enter_front(thread, until);
    }

    /// Stops the running thread for good, or until a signal.
    #[inline(always)]
    pub(crate) fn stop<S: Sink>(
        &mut self,
        here: &Here<'_>,
        thread: ThreadId,
        why: Why,
        ticks: u64,
        standing: Standing,
        log: &mut Log<'_, S>,
    ) -> Result<(), FlowFault>
        requires { CanStop here.now.system.now thread ticks self.old }
        ensures { OnOk result
            (Makes S.takes here.now (stops here.now.system.now thread why ticks standing self.old) self.new log.old log.new) }
    {
        self.charge(here.system, thread, ticks);
        self.leave();
        self.stand(thread, standing);
        log.tell(here, stopped(thread, why, ticks, None))
    }

    /// Charges and stops the running thread, and puts it at the back of the ready queue, or into
    /// the release queue.
    #[inline(always)]
    pub(crate) fn stop_to_back<S: Sink>(
        &mut self,
        here: &Here<'_>,
        thread: ThreadId,
        why: Why,
        ticks: u64,
        log: &mut Log<'_, S>,
    ) -> Result<(), FlowFault>
        requires { CanStop here.now.system.now thread ticks self.old }
        ensures { OnOk result
            (Makes S.takes here.now (stops_to_back by_priority here.now.system.now here.now.moment thread why ticks self.old)
            self.new log.old log.new) }
    {
        let until = self.charge_until(here, thread, ticks);
        let date = until;
        self.leave_to_back(here, thread, date);
        log.tell(here, stopped(thread, why, ticks, until))
    }

    /// Stops the running thread, whose context has been charged. Puts it at the front of the ready
    /// queue, or into the release queue with the date until which it has to wait.
    #[inline(always)]
    pub(crate) fn stop_to_front<S: Sink>(
        &mut self,
        here: &Here<'_>,
        thread: ThreadId,
        why: Why,
        ticks: u64,
        until: Option<Tick>,
        log: &mut Log<'_, S>,
    ) -> Result<(), FlowFault>
        requires free { IsFree here.now.system.now thread self.old }
        requires until { until ≡ date_of here.now.system.now here.now.moment thread self.old }
        ensures { OnOk result
            (Makes S.takes here.now (stops_to_front by_priority here.now.system.now here.now.moment thread why ticks self.old)
            self.new log.old log.new) }
    {
        let date = until;
        self.leave_to_front(here, thread, date);
        log.tell(here, stopped(thread, why, ticks, until))
    }

    /// Stops the running thread, which has used `used` ticks, at most once, as its item requires.
    #[inline(always)]
    pub(crate) fn may_stop<S: Sink>(
        &mut self,
        here: &Here<'_>,
        thread: ThreadId,
        used: u64,
        after: AfterItem,
        log: &mut Log<'_, S>,
    ) -> Result<(), FlowFault>
        requires { CanStop here.now.system.now thread used self.old }
        ensures { OnOk result
            (Makes S.takes here.now (may_stop by_priority here.now.system.now here.now.moment thread used after self.old)
            self.new log.old log.new) }
    {
        let head = self.head_amount(here.system, thread);
        let why = match after {
            AfterItem::Ends => {
                return self.stop(here, thread, Why::Done, used, Standing::Done, log);
            }
            AfterItem::Blocks => {
                return self.stop(here, thread, Why::Wait, used, Standing::Blocked, log);
            }
            AfterItem::Calls => {
                return self.stop(here, thread, Why::Call, used, Standing::Blocked, log);
            }
            AfterItem::Yields => Why::Yield,
            AfterItem::GoesOn => {
                if used != head {
                    return Ok(());
                }
                Why::Spent
            }
        };
        self.stop_to_back(here, thread, why, head, log)
    }
}

fn stopped(thread: ThreadId, why: Why, charged: u64, until: Option<Tick>) -> What
    ensures { result ≡ Stop thread why charged until }
{
    What::Stop {
        thread,
        why,
        charged,
        until,
    }
}

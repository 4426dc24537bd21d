ghost use Rattle.std.specs.Prelude.{◌≡◌, ◌^◌, ◌≤◌, ◌<◌, OnOk, length};
ghost use Rattle.mcs_ticks.specs.Queue.{by_priority};
ghost use Rattle.mcs_ticks.specs.declared.row.What.TheVariants.{Wake};
ghost use Rattle.mcs_core.specs.Turn.{with_woken_context, woken_until, ◌followed_by◌, says, wakes, let_in, frees, posts};
ghost use Rattle.mcs_core.specs.stored.Parts.{Makes};
ghost use Rattle.mcs_core.specs.stored.Sound.{IsFree, WakesFree};

use crate::local::Local;
use crate::log::{Here, Log};
use mcs_notify::Posted;
use mcs_ticks::{FlowFault, NoteId, Sink, ThreadId, Tick, What};

impl Local {
    /// Unblocks the context of a woken thread, unless it is in bandwidth mode. Returns the date
    /// until which the thread waits for it, or `None` if the thread is ready.
    #[inline(always)]
    fn wake_its_context(&mut self, here: &Here<'_>, thread: ThreadId) -> Option<Tick>
        requires free { IsFree here.now.system.now thread self.old }
        requires soon { here.now.moment ≤ 2 ^ 40 }
        ensures core { self.new ≡ with_woken_context here.now.system.now here.now.moment thread self.old }
        ensures until { result ≡ woken_until here.now.system.now here.now.moment thread self.old }
        ensures free { IsFree here.now.system.now thread self.new }
    {
        self.wake_context(here.system.thread(thread).context, here.moment);
        self.date_of(here, thread)
    }

    /// Wakes a thread that has left the waiters of a notification, with its word.
    #[inline(always)]
    #[tactic(auto, using(crate::proofs::Wakes::date_moved))]
    fn wake<S: Sink>(
        &mut self,
        here: &Here<'_>,
        thread: ThreadId,
        note: NoteId,
        word: u32,
        log: &mut Log<'_, S>,
    ) -> Result<(), FlowFault>
        requires free { IsFree here.now.system.now thread self.old }
        requires soon { here.now.moment ≤ 2 ^ 40 }
        ensures { OnOk result
            (Makes S.takes here.now
            (says (Wake thread note word (woken_until here.now.system.now here.now.moment thread self.old)) self.old
            followed_by wakes by_priority here.now.system.now here.now.moment thread word)
            self.new log.old log.new) }
    {
        let until = self.wake_its_context(here, thread);
        let date = until;
        log.tell(here, woken(thread, note, word, date))?;
        self.give(here, thread, word);
        self.move_on(here, thread, log)?;
        self.enter_back(thread, until);
        Ok(())
    }

    /// Lets a thread that has left the waiters into the server for which it waited.
    #[inline(always)]
    #[tactic(auto, using(crate::proofs::Wakes::date_moved))]
    fn let_in<S: Sink>(
        &mut self,
        here: &Here<'_>,
        thread: ThreadId,
        server: NoteId,
        word: u32,
        log: &mut Log<'_, S>,
    ) -> Result<(), FlowFault>
        requires free { IsFree here.now.system.now thread self.old }
        requires soon { here.now.moment ≤ 2 ^ 40 }
        ensures { OnOk result
            (Makes S.takes here.now
            (says (Wake thread server word (woken_until here.now.system.now here.now.moment thread self.old)) self.old
            followed_by let_in by_priority here.now.system.now here.now.moment thread)
            self.new log.old log.new) }
    {
        let until = self.wake_its_context(here, thread);
        let date = until;
        log.tell(here, woken(thread, server, word, date))?;
        self.move_on(here, thread, log)?;
        self.enter_front(thread, until);
        Ok(())
    }

    /// Leaves a server of the core: its first waiter takes it, or it is free.
    #[inline(always)]
    pub(crate) fn free<S: Sink>(
        &mut self,
        here: &Here<'_>,
        thread: ThreadId,
        server: NoteId,
        log: &mut Log<'_, S>,
    ) -> Result<(), FlowFault>
        requires known { server < length self.old.notes }
        requires free { WakesFree here.now.system.now server 1 self.old }
        requires soon { here.now.moment ≤ 2 ^ 40 }
        ensures { OnOk result
            (Makes S.takes here.now (frees by_priority here.now.system.now here.now.moment thread server self.old)
            self.new log.old log.new) }
    {
        log.tell(
            here,
            What::Signal {
                thread,
                note: server,
                badge: 1,
            },
        )?;
        match self.post_note(server, 1) {
            Posted::Woke(thread, word) => self.let_in(here, thread, server, word, log),
            Posted::Held(_) => Ok(()),
        }
    }

    /// Posts on a notification of the core.
    #[inline(always)]
    pub(crate) fn post<S: Sink>(
        &mut self,
        here: &Here<'_>,
        note: NoteId,
        badge: u32,
        log: &mut Log<'_, S>,
    ) -> Result<(), FlowFault>
        requires known { note < length self.old.notes }
        requires free { WakesFree here.now.system.now note badge self.old }
        requires soon { here.now.moment ≤ 2 ^ 40 }
        ensures { OnOk result
            (Makes S.takes here.now (posts by_priority here.now.system.now here.now.moment note badge self.old)
            self.new log.old log.new) }
    {
        match self.post_note(note, badge) {
            Posted::Woke(thread, word) => self.wake(here, thread, note, word, log),
            Posted::Held(word) => log.tell(here, What::Hold { note, word }),
        }
    }
}

/// The row of a thread that is woken.
#[inline(always)]
fn woken(thread: ThreadId, note: NoteId, word: u32, until: Option<Tick>) -> What
    ensures { result ≡ Wake thread note word until }
{
    What::Wake {
        thread,
        note,
        word,
        until,
    }
}

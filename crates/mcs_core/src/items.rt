ghost use Rattle.std.specs.Prelude.{◌≡◌, ◌+◌, ◌^◌, ◌≤◌, ◌<◌, OnOk, IfOk, Some, None, length};
ghost use Rattle.mcs_ticks.specs.Queue.{by_priority};
ghost use Rattle.mcs_notify.specs.Note.{waited};
ghost use Rattle.mcs_core.specs.Core.{note_of};
ghost use Rattle.mcs_core.specs.Turn.{mail_to, signals, waits_as, enters_as, takes_effect, after_item, after_move, after_waited, after_entered};
ghost use Rattle.mcs_core.specs.stored.Items.{CanTakeEffect};
ghost use Rattle.mcs_core.specs.stored.Parts.{HasDelays, Makes};
ghost use Rattle.mcs_core.specs.stored.Sound.{IsFree, WakesFree};
ghost use Rattle.mcs_core.specs.Places.{times_waiting};

use crate::AfterItem;
use crate::local::Local;
use crate::log::{Here, Log};
use mcs_mail::Mail;
use mcs_notify::Waited;
use mcs_script::{Item, Moved};
use mcs_ticks::{FlowFault, NoteId, Sink, ThreadId, Tick, What};

impl Local {
    /// The consequence of a wait: the thread blocks if the word is 0.
    fn after_wait(&self, note: NoteId) -> AfterItem
        requires { note < length self.now.notes }
        ensures { result ≡ after_waited (waited (note_of self.now note)) }
    {
        if self.word(note) == 0 {
            AfterItem::Blocks
        } else {
            AfterItem::GoesOn
        }
    }

    /// Makes a signal: a post at home, or mail for another core.
    #[inline(always)]
    fn signal<S: Sink>(
        &mut self,
        here: &Here<'_>,
        thread: ThreadId,
        note: NoteId,
        badge: u32,
        log: &mut Log<'_, S>,
    ) -> Result<(), FlowFault>
        requires known { note < length self.old.notes }
        requires part { note < length here.now.system.now.notes }
        requires free { WakesFree here.now.system.now note badge self.old }
        requires soon { here.now.moment ≤ 2 ^ 40 }
        requires delays { HasDelays here.now }
        ensures { OnOk result
            (Makes S.takes here.now
            (signals by_priority here.now.system.now here.now.core here.now.moment thread note badge self.old)
            self.new log.old log.new) }
    {
        log.tell(
            here,
            What::Signal {
                thread,
                note,
                badge,
            },
        )?;
        if here.system.note(note).core == here.core {
            self.post(here, note, badge, log)
        } else {
            log.send(here, mail_to(here, note, badge))
        }
    }

    /// Waits: takes a word that is not 0; if it is 0 the thread joins the waiters.
    #[inline(always)]
    fn wait_on<S: Sink>(
        &mut self,
        here: &Here<'_>,
        thread: ThreadId,
        note: NoteId,
        log: &mut Log<'_, S>,
    ) -> Result<(), FlowFault>
        requires known { note < length self.old.notes }
        requires free { IsFree here.now.system.now thread self.old }
        requires not_waiting { times_waiting thread self.old.notes ≡ 0 }
        ensures { OnOk result
            (Makes S.takes here.now
            (waits_as here.now.system.now here.now.moment thread note (waited (note_of self.old note)) self.old)
            self.new log.old log.new) }
    {
        match self.wait_note(note, thread) {
            Waited::Got(word) => {
                log.tell(here, What::Got { thread, note, word })?;
                self.give(here, thread, word);
                self.move_on(here, thread, log)?;
                Ok(())
            }
            Waited::Blocks => Ok(()),
        }
    }

    /// The consequence of a call: the thread blocks if the server is taken.
    fn after_enter(&self, server: NoteId) -> AfterItem
        requires { server < length self.now.notes }
        ensures { result ≡ after_entered (waited (note_of self.now server)) }
    {
        if self.word(server) == 0 {
            AfterItem::Calls
        } else {
            AfterItem::GoesOn
        }
    }

    /// Calls a server: takes it if it is free, and waits for it otherwise.
    #[inline(always)]
    fn enter<S: Sink>(
        &mut self,
        here: &Here<'_>,
        thread: ThreadId,
        server: NoteId,
        log: &mut Log<'_, S>,
    ) -> Result<(), FlowFault>
        requires known { server < length self.old.notes }
        requires free { IsFree here.now.system.now thread self.old }
        requires not_waiting { times_waiting thread self.old.notes ≡ 0 }
        ensures { OnOk result
            (Makes S.takes here.now
            (enters_as here.now.system.now here.now.moment thread server (waited (note_of self.old server)) self.old)
            self.new log.old log.new) }
    {
        match self.wait_note(server, thread) {
            Waited::Got(word) => {
                log.tell(
                    here,
                    What::Got {
                        thread,
                        note: server,
                        word,
                    },
                )?;
                self.move_on(here, thread, log)?;
                Ok(())
            }
            Waited::Blocks => Ok(()),
        }
    }

    /// Lets the thread's item take effect, and moves the thread on unless it blocks. Returns the
    /// consequence of the item.
    #[inline(always)]
    pub(crate) fn take_effect<S: Sink>(
        &mut self,
        here: &Here<'_>,
        thread: ThreadId,
        item: &Option<Item>,
        log: &mut Log<'_, S>,
    ) -> Result<AfterItem, FlowFault>
        requires can { CanTakeEffect here.now.system.now here.now.core here.now.moment thread item.now self.old }
        requires soon { here.now.moment ≤ 2 ^ 40 }
        requires delays { HasDelays here.now }
        ensures makes { OnOk result
            (Makes S.takes here.now
            (takes_effect by_priority here.now.system.now here.now.core here.now.moment thread item.now self.old)
            self.new log.old log.new) }
        ensures after { IfOk result (λ after. after ≡ after_item here.now.system.now thread item.now self.old) }
    {
        match item {
            Some(Item::Signal(note, badge)) => {
                let moved = self.move_of(here.system, thread);
                self.signal(here, thread, *note, *badge, log)?;
                self.move_on(here, thread, log)?;
                Ok(after_move(moved, AfterItem::GoesOn))
            }
            Some(Item::Wait(note)) => {
                let after = self.after_wait(*note);
                self.wait_on(here, thread, *note, log)?;
                Ok(after)
            }
            Some(Item::Enter(server, _)) => {
                let after = self.after_enter(*server);
                self.enter(here, thread, *server, log)?;
                Ok(after)
            }
            Some(Item::Leave(server, _)) => {
                let moved = self.move_of(here.system, thread);
                self.free(here, thread, *server, log)?;
                self.move_on(here, thread, log)?;
                Ok(after_move(moved, AfterItem::GoesOn))
            }
            Some(Item::Compute(_) | Item::On(_) | Item::Spin) => {
                let moved = self.move_on(here, thread, log)?;
                Ok(after_move(moved, AfterItem::GoesOn))
            }
            Some(Item::Yield) => {
                let moved = self.move_on(here, thread, log)?;
                Ok(after_move(moved, AfterItem::Yields))
            }
            None => Ok(AfterItem::GoesOn),
        }
    }
}

/// The mail of a signal to a notification of another core.
#[inline(always)]
fn mail_to(here: &Here<'_>, note: NoteId, badge: u32) -> Mail
    requires soon { here.now.moment ≤ 2 ^ 40 }
    requires part { note < length here.now.system.now.notes }
    requires delays { HasDelays here.now }
    ensures { result ≡ mail_to here.now.system.now here.now.core here.now.moment note badge }
{
    let home = here.system.note(note).core;
    let delay = here.delays[home.0];
    Mail {
        arrives: Tick::at(here.moment.get() + delay),
        made: here.moment,
        maker: here.core,
        note,
        badge,
    }
}

/// The consequence of a move: after the last round the thread is done.
pub(crate) fn after_move(moved: Moved, other: AfterItem) -> AfterItem
    ensures { result ≡ after_move moved other }
{
    if moved == Moved::AllDone {
        AfterItem::Ends
    } else {
        other
    }
}

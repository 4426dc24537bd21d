ghost use Rattle.std.specs.Prelude.{◌≡◌, ◌<◌, OnOk, IfOk, length};
ghost use Rattle.mcs_core.specs.Turn.{item_of, move_of, moves_on, given};
ghost use Rattle.mcs_core.specs.stored.Parts.{Makes};
ghost use Rattle.mcs_core.specs.stored.Sound.{IsPlaced};

use crate::local::Local;
use crate::log::{Here, Log};
use mcs_script::{Item, Moved};
use mcs_system::SystemParts;
use mcs_ticks::{FlowFault, Sink, ThreadId, What};

impl Local {
    pub(crate) fn item_of(&self, system: &SystemParts, thread: ThreadId) -> Option<Item>
        requires known { thread < length self.now.threads }
        requires part { thread < length system.now.threads }
        ensures { result ≡ item_of system.now thread self.now }
    {
        system
            .thread(thread)
            .script
            .get(self.thread(thread).place.item)
    }

    /// The move after the current item of the thread.
    pub(crate) fn move_of(&self, system: &SystemParts, thread: ThreadId) -> Moved
        requires known { thread < length self.now.threads }
        requires placed { IsPlaced system.now thread self.now }
        ensures { result ≡ move_of system.now thread self.now }
    {
        let part = system.thread(thread);
        let mut place = self.thread(thread).place;
        place.advance(&part.script, system.call, part.rounds)
    }

    /// Moves the thread on in its script, in place. If its round ends, the next one begins now.
    #[inline(always)]
    fn advance(&mut self, here: &Here<'_>, thread: ThreadId) -> Moved
        requires known { thread < length self.old.threads }
        requires placed { IsPlaced here.now.system.now thread self.old }
        ensures moved { result ≡ move_of here.now.system.now thread self.old }
        ensures core { self.new ≡ (moves_on here.now.system.now here.now.moment thread self.old).core }
    {
        let part = here.system.thread(thread);
        let state = &mut self.threads[thread.0];
        let moved = state
            .place
            .advance(&part.script, here.system.call, part.rounds);
        if moved == Moved::RoundEnds {
            state.since = here.moment;
        }
        moved
    }

    /// Finishes the thread's item, and moves the thread on in its script.
    #[inline(always)]
    pub(crate) fn move_on<S: Sink>(
        &mut self,
        here: &Here<'_>,
        thread: ThreadId,
        log: &mut Log<'_, S>,
    ) -> Result<Moved, FlowFault>
        requires known { thread < length self.old.threads }
        requires placed { IsPlaced here.now.system.now thread self.old }
        ensures makes { OnOk result
            (Makes S.takes here.now (moves_on here.now.system.now here.now.moment thread self.old) self.new log.old log.new) }
        ensures moved { IfOk result (λ moved. moved ≡ move_of here.now.system.now thread self.old) }
    {
        let state = self.thread(thread);
        let number = state.place.round;
        let since = state.since;
        let moved = self.advance(here, thread);
        if moved == Moved::Next {
            return Ok(moved);
        }
        let response = here.moment.get().saturating_sub(since.get());
        log.tell(
            here,
            What::Round {
                thread,
                number,
                response,
            },
        )?;
        Ok(moved)
    }

    /// Gives the word of a wait to the thread. If the wait is the first item, the round begins, and
    /// the word is the round's.
    pub(crate) fn give(&mut self, here: &Here<'_>, thread: ThreadId, word: u32)
        requires known { thread < length self.old.threads }
        requires part { thread < length here.now.system.now.threads }
        ensures { self.new ≡ given here.now.system.now here.now.moment thread word self.old }
    {
        let state = &mut self.threads[thread.0];
        if state.place.item == 0 {
            state.place.hear(&here.system.thread(thread).script, word);
            state.since = here.moment;
        }
    }
}

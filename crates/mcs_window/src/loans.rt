//! Loans of cores for stretches, and their return.
ghost use Rattle.std.specs.Prelude.{◌≡◌, ℕ, ◌<◌, ◌≤◌, ◌⊎◌, true, false, IfErr, OnOk, OnErr, IfSome, IfNone, IsTrue, IsFalse};
ghost use Rattle.mcs_window.specs.Desk.{clock_of, past_of, MayLend, IsChosen, past_within, lent_at, lent_to, settled_at, IsAwake, IsLent, IsLentWithin, IsSameRun, with_lost, IsLoan, IsSettleFault, AllAreHere, IsFinished};

use crate::append::Append;
use crate::delivery::{deliver_reserved, make_room};
use crate::desk::Desk;
use crate::settle::{make_own_room, put_box, same_front};
use crate::slot::{Loan, Slot};
use crate::{Done, Lost, Piece, SettleFault};
use mcs_mail::Mailbox;
use mcs_ticks::{Collector, CoreId};
use std::mem;

impl<S: Collector> Desk<S> {
    /// Whether a core may be lent now.
    pub fn can_lend(&self) -> bool
        ensures some { IsTrue result → (self.now.lost ≡ false) × (c : ℕ) × MayLend self.now c }
        ensures none { IsFalse result → (self.now.lost ≡ true) ⊎ ((c : ℕ) → ¬ MayLend self.now c) }
    {
        !self.lost && self.choice().is_some()
    }

    /// Lends a core for as long as the clocks of the others allow. It is the core with the minimum
    /// clock, then the lowest number, of those that are not lent and may take a turn. If no core is
    /// lent and none was lost, all cores skip idle time first, as `skip_idle` does.
    ///
    /// Returns `None` if there is no such core, or if a piece or a core was lost. If no core is
    /// lent and none was lost, `None` means that every core has taken or skipped its turn at the
    /// horizon.
    pub fn lend(&mut self) -> Option<Piece>
        ensures some { IfSome result (λ piece. IsLent self.old piece.core self.new) }
        ensures piece { IfSome result (λ piece. (piece.system ≡ self.old.system)
            × (piece.first ≡ clock_of self.new piece.core)
            × (piece.past ≡ past_of self.new piece.core)
            × (piece.front ≡ self.new.clocks)) }
        ensures none { IfNone result (IsAwake self.old self.new
            × ((self.old.lost ≡ true) ⊎ ((c : ℕ) → ¬ MayLend self.new c))) }
        ensures goes_on { IfNone result (self.old.lost ≡ false → AllAreHere self.old → IsFinished self.new) }
        ensures same_run { IsSameRun self.old self.new }
    {
        let _lost = self.lost;
        self.lend_within(u64::MAX)
    }

    /// Lends a core as `lend` does, but for at most `span` moments, at least 1.
    pub fn lend_within(&mut self, span: u64) -> Option<Piece>
        requires { 1 ≤ span }
        ensures some { IfSome result (λ piece. IsLentWithin self.old span piece.core self.new) }
        ensures piece { IfSome result (λ piece. (piece.system ≡ self.old.system)
            × (piece.first ≡ clock_of self.new piece.core)
            × (piece.past ≡ past_within self.new span piece.core)
            × (piece.front ≡ self.new.clocks)) }
        ensures none { IfNone result (IsAwake self.old self.new
            × ((self.old.lost ≡ true) ⊎ ((c : ℕ) → ¬ MayLend self.new c))) }
        ensures goes_on { IfNone result (self.old.lost ≡ false → AllAreHere self.old → IsFinished self.new) }
        ensures same_run { IsSameRun self.old self.new }
    {
        if !self.lost && self.all_are_here() {
            self.skip_idle();
        }
        self.lend_now(span)
    }

    /// Lends this core, if it may be lent now, for as long as the clocks of the others allow. No
    /// idle time is skipped. Returns `None` if the core is lent already, has to wait or has taken
    /// all its turns, or if a piece or a core was lost.
    pub fn lend_core(&mut self, core: CoreId) -> Option<Piece>
        requires { core < self.old.system.cores }
        ensures some { IfSome result (λ piece. (self.old.lost ≡ false)
            × (piece.core ≡ core)
            × MayLend self.old core
            × (self.new ≡ lent_at self.old core)) }
        ensures piece { IfSome result (λ piece. (piece.system ≡ self.old.system)
            × (piece.first ≡ clock_of self.old core)
            × (piece.past ≡ past_of self.old core)
            × (piece.front ≡ self.old.clocks)) }
        ensures none { IfNone result ((self.new ≡ self.old)
            × ((self.old.lost ≡ true) ⊎ ¬ MayLend self.old core)) }
    {
        let _lost = self.lost;
        self.lend_core_within(core, u64::MAX)
    }

    /// Lends this core as `lend_core` does, but for at most `span` moments.
    fn lend_core_within(&mut self, core: CoreId, span: u64) -> Option<Piece>
        requires known { core < self.old.system.cores }
        requires some { 1 ≤ span }
        ensures some { IfSome result (λ piece. (self.old.lost ≡ false)
            × (piece.core ≡ core)
            × MayLend self.old core
            × (self.new ≡ lent_to self.old core (past_within self.old span core))) }
        ensures piece { IfSome result (λ piece. (piece.system ≡ self.old.system)
            × (piece.first ≡ clock_of self.old core)
            × (piece.past ≡ past_within self.old span core)
            × (piece.front ≡ self.old.clocks)) }
        ensures none { IfNone result ((self.new ≡ self.old)
            × ((self.old.lost ≡ true) ⊎ ¬ MayLend self.old core)) }
    {
        if self.lost || !self.may_lend(core) {
            return None;
        }
        let first = self.clock(core);
        let past = self.past_within(core, span);
        let front = self.clocks;
        let slot = mem::replace(&mut self.slots[core.0], Slot::Away(Loan { past, front }));
        let mail = mem::replace(&mut self.boxes[core.0], Mailbox::new(self.alloc));
        let Slot::Here { spare, state } = slot else {
            return None;
        };
        Some(Piece {
            system: spare,
            core,
            first,
            past,
            front,
            state,
            mail,
            alloc: self.alloc,
        })
    }

    /// Lends the earliest core that may be lent, for at most `span` moments. No idle time is
    /// skipped.
    fn lend_now(&mut self, span: u64) -> Option<Piece>
        requires { 1 ≤ span }
        ensures some { IfSome result (λ piece. (self.old.lost ≡ false)
            × IsChosen self.old piece.core
            × (self.new ≡ lent_to self.old piece.core (past_within self.old span piece.core))) }
        ensures piece { IfSome result (λ piece. (piece.system ≡ self.old.system)
            × (piece.first ≡ clock_of self.old piece.core)
            × (piece.past ≡ past_within self.old span piece.core)
            × (piece.front ≡ self.old.clocks)) }
        ensures none { IfNone result ((self.new ≡ self.old)
            × ((self.old.lost ≡ true) ⊎ ((c : ℕ) → ¬ MayLend self.old c))) }
        ensures goes_on { IfNone result (self.old.lost ≡ false → AllAreHere self.old → IsFinished self.old) }
    {
        if self.lost {
            return None;
        }
        let core = self.choice()?;
        self.lend_core_within(core, span)
    }

    /// Marks a piece as lost: no core is lent from now on. All loans stay, and their stretches may
    /// still be settled.
    pub fn forfeit(&mut self, _lost: Lost)
        ensures { self.new ≡ with_lost self.old }
    {
        self.lost = true;
    }

    /// Why a stretch of the desk's system is not the one for which its core is lent. `None` if it
    /// is.
    fn fault_of(&self, done: &Done<S>) -> Option<SettleFault>
        requires { done.now.system ≡ self.now.system }
        ensures none { IfNone result (IsLoan self.now done.now) }
        ensures some { IfSome result (IsSettleFault self.now done.now) }
    {
        let Slot::Away(loan) = &self.slots[done.core.0] else {
            return Some(SettleFault::NotLent);
        };
        let first = self.clocks[done.core.0];
        if done.first != first || done.past != loan.past || !same_front(&done.front, &loan.front) {
            return Some(SettleFault::OtherLoan);
        }
        None
    }
}

impl<S: Append> Desk<S> {
    /// Takes back a stretch that was run. The core moves to its end, its signals go to their homes,
    /// and mail collected meanwhile joins its own. A fault leaves the desk unchanged and hands the
    /// stretch back. It compares the systems in full.
    pub fn settle(&mut self, done: Done<S>) -> Result<(), (SettleFault, Done<S>)>
        ensures ok { OnOk result ((done.system ≡ self.old.system)
            × IsLoan self.old done
            × (self.new ≡ settled_at self.old done.core done.past)) }
        ensures err { OnErr result (self.new ≡ self.old) }
        ensures fault { IfErr result (λ back. IsSettleFault self.old done back.0) }
        ensures handed_back { IfErr result (λ back. back.1 ≡ done) }
    {
        if !self.is_of(&done.system) {
            return Err((SettleFault::Foreign, done));
        }
        self.take_back(done)
    }

    /// Takes back a stretch of the desk's system, as `settle` does. It compares no systems, so its
    /// cost does not grow with the size of the system.
    pub fn take_back(&mut self, done: Done<S>) -> Result<(), (SettleFault, Done<S>)>
        requires { done.system ≡ self.old.system }
        ensures ok { OnOk result (IsLoan self.old done × (self.new ≡ settled_at self.old done.core done.past)) }
        ensures err { OnErr result (self.new ≡ self.old) }
        ensures fault { IfErr result (λ back. IsSettleFault self.old done back.0) }
        ensures handed_back { IfErr result (λ back. back.1 ≡ done) }
    {
        if let Some(fault) = self.fault_of(&done) {
            return Err((fault, done));
        }
        let core = done.core.0;
        let mut done = done;
        if make_room(&self.system, &mut self.boxes, &done.out).is_err() {
            return Err((SettleFault::NoMemory, done));
        }
        let (collected, told) = (&self.boxes[core], &mut self.told[core]);
        if make_own_room(&mut done.mail, collected, told, &done.rows).is_err() {
            return Err((SettleFault::NoMemory, done));
        }
        let Done {
            system,
            past,
            state,
            rows,
            out,
            mail,
            ..
        } = done;
        put_box(&mut self.boxes, core, mail);
        deliver_reserved(&self.system, &mut self.boxes, &out);
        self.told[core].append(rows);
        self.clocks[core] = past;
        self.slots[core] = Slot::Here {
            spare: system,
            state,
        };
        Ok(())
    }
}

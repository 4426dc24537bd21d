ghost use Rattle.std.specs.Prelude.{◌≡◌, ◌⊎◌, ◌+◌, ◌-◌, ◌^◌, ◌≤◌, ◌<◌, ◌++◌, max, true, false, [], length, OnOk, OnErr, IfOk, IsTrue, ◌↔◌, All};
ghost use Rattle.mcs_ticks.specs.Given.{Given, IsShortAfter};
ghost use Rattle.mcs_ticks.specs.Queue.{by_priority};
ghost use Rattle.mcs_core.specs.Quiet.{AreQuietWith};
ghost use Rattle.mcs_core.specs.State.{Fits, IsExpected, made_by, state_after, skipped, AreOfOneList};
ghost use Rattle.mcs_core.specs.stored.Ends.{IsEnd};

use crate::CoreState;
use crate::log::{Here, Log};
use crate::unmeasured::Unmeasured;
use mcs_mail::{Mail, Mailbox};
use mcs_system::System;
use mcs_ticks::{FlowFault, Measured, NoMemory, Row, Sink, Soonest, Tick};

impl CoreState {
    fn is_before(&self, to: Tick) -> bool
        ensures { IsTrue result ↔ (self.now.clock < to) }
    {
        self.clock.get() < to.get()
    }

    /// Takes the turn at a moment, with the quiet ones before it. `ends` is the first moment from
    /// the clock on at which the running thread ends its item or exhausts its head, or a ready
    /// thread has to run instead. Returns that moment from the new clock on.
    #[inline(always)]
    fn turn_at<S: Sink>(
        &mut self,
        system: &System,
        moment: Tick,
        ends: Soonest,
        mail: &mut Mailbox,
        sink: &mut S,
        signals: &mut Vec<Mail>,
    ) -> Result<Soonest, FlowFault>
        requires going { self.old.failed ≡ false }
        requires fits { Fits system.now self.old }
        requires later { self.old.clock ≤ moment }
        requires in_time { moment ≤ 2 ^ 40 }
        requires quiet { AreQuietWith by_priority system.now self.old.number self.old.clock [] self.old.core (moment - self.old.clock) }
        requires expected { All (IsExpected system.now (skipped system.now moment self.old)) mail.old.mails }
        requires ends { IsEnd system.now self.old.clock self.old.core ends }
        ensures state { let quiet = skipped system.now moment self.old in
            OnOk result (self.new ≡ state_after quiet (moment + 1) (made_by system.now quiet (moment + 1) mail.old.mails)) }
        ensures rows { let quiet = skipped system.now moment self.old in
            OnOk result (Given S.takes sink.old (made_by system.now quiet (moment + 1) mail.old.mails).rows sink.new) }
        ensures signals { let quiet = skipped system.now moment self.old in
            OnOk result (signals.new.items ≡ signals.old.items ++ (made_by system.now quiet (moment + 1) mail.old.mails).mails) }
        ensures mail { let quiet = skipped system.now moment self.old in
            OnOk result (mail.new.mails ≡ (made_by system.now quiet (moment + 1) mail.old.mails).box) }
        ensures fits { OnOk result (Fits system.now self.new) }
        ensures ends { IfOk result (λ ends. IsEnd system.now self.new.clock self.new.core ends) }
        ensures failed { OnErr result (self.new.failed ≡ true) }
        ensures kept { (self.new.number ≡ self.old.number) × (OnErr result (self.new.clock ≡ self.old.clock)) }
    {
        let here = Here {
            system: system.parts(),
            core: self.number,
            delays: &self.delays,
            moment,
        };
        let quiet = moment.get() - self.clock.get();
        let goes_on = !ends.has_come(moment);
        let mut log = Log { sink, signals };
        let turned = self.local.turn(
            &here,
            quiet,
            goes_on,
            &mut self.agenda,
            &mut self.alarms,
            mail,
            &mut log,
        );
        match turned {
            Ok(ends) => {
                self.clock = Tick::at(moment.get() + 1);
                Ok(ends)
            }
            Err(fault) => {
                self.failed = true;
                Err(fault)
            }
        }
    }

    /// Takes the quiet turns up to the next busy one, and that one, of those before `to`. `ends` is
    /// as in `turn_at`; returns it from the new clock on, if that is before `to`. If memory runs
    /// out or a row is refused, the state has failed.
    #[inline(always)]
    fn advance<S: Sink>(
        &mut self,
        system: &System,
        mail: &mut Mailbox,
        to: Tick,
        ends: Soonest,
        sink: &mut S,
        signals: &mut Vec<Mail>,
    ) -> Result<Soonest, FlowFault>
        requires going { self.old.failed ≡ false }
        requires fits { Fits system.now self.old }
        requires before { self.old.clock < to }
        requires in_time { to ≤ 2 ^ 40 + 1 }
        requires expected { All (IsExpected system.now self.old) mail.old.mails }
        requires ends { IsEnd system.now self.old.clock self.old.core ends }
        ensures state { OnOk result
            (self.new
            ≡ state_after self.old self.new.clock (made_by system.now self.old self.new.clock mail.old.mails)) }
        ensures rows { OnOk result
            (Given S.takes sink.old (made_by system.now self.old self.new.clock mail.old.mails).rows sink.new) }
        ensures signals { OnOk result
            (signals.new.items
            ≡ signals.old.items ++ (made_by system.now self.old self.new.clock mail.old.mails).mails) }
        ensures mail { OnOk result
            (mail.new.mails ≡ (made_by system.now self.old self.new.clock mail.old.mails).box) }
        ensures fits { Fits system.now self.new }
        ensures ends { IfOk result (λ ends. self.new.clock < to → IsEnd system.now self.new.clock self.new.core ends) }
        ensures failed { OnErr result (self.new.failed ≡ true) }
        ensures going { OnOk result (self.new.failed ≡ false) }
        ensures later { OnOk result (self.old.clock < self.new.clock) }
        ensures last { OnOk result
            ((made_by system.now self.old (self.new.clock - 1) mail.old.mails).rows ≡ []) }
        ensures kept { (self.new.number ≡ self.old.number)
            × (self.old.clock ≤ self.new.clock)
            × (self.new.clock ≤ to) }
    {
        let Some(moment) = self.soonest(system, mail, ends).before(to) else {
            self.skip(system, to);
            return Ok(Soonest::never());
        };
        let next = self.turn_at(system, moment, ends, mail, sink, signals)?;
        Ok(next)
    }

    /// Takes the turns as `run` does, but gives each row to the sink as soon as it is made. If
    /// memory runs out or the sink refuses a row, the state has failed.
    pub fn run_to<S: Sink>(
        &mut self,
        system: &System,
        mail: &mut Mailbox,
        to: Tick,
        sink: &mut S,
        signals: &mut Vec<Mail>,
    ) -> Result<(), FlowFault>
        requires fits { Fits system.now self.old }
        requires in_time { to ≤ 2 ^ 40 + 1 }
        requires expected { All (IsExpected system.now self.old) mail.old.mails }
        ensures state { OnOk result
            (self.new ≡ state_after self.old to (made_by system.now self.old to mail.old.mails)) }
        ensures rows { OnOk result
            (Given S.takes sink.old (made_by system.now self.old to mail.old.mails).rows sink.new) }
        ensures signals { OnOk result
            (signals.new.items ≡ signals.old.items ++ (made_by system.now self.old to mail.old.mails).mails) }
        ensures mail { OnOk result (mail.new.mails ≡ (made_by system.now self.old to mail.old.mails).box) }
        ensures fits { Fits system.now self.new }
        ensures failed { OnErr result (self.new.failed ≡ true) }
        ensures refused { OnErr result
            ((self.new.number ≡ self.old.number)
            × (self.old.clock ≤ self.new.clock)
            × (self.new.clock ≤ max self.old.clock to)) }
        ensures going { OnOk result (self.old.failed ≡ false) }
        ensures spent { self.old.failed ≡ true →
            (self.new ≡ self.old) × (sink.new ≡ sink.old) × (signals.new ≡ signals.old) × (mail.new ≡ mail.old) }
    {
        let mut unmeasured = Unmeasured::new(sink);
        self.run_some_to(system, mail, to, 1, &mut unmeasured, signals)
    }

    /// Takes the turns from the clock to before `to`, with the mail of the box as arrivals. Appends
    /// the rows, and the signals for other cores. Mail that does not arrive stays in the box. Each
    /// core that keeps its ready threads in one list, and that the state shows, makes the same.
    ///
    /// If memory runs out, the state has failed: it keeps its number, its clock is a moment on the
    /// way to `to`, and box, rows and signals are unspecified. A failed state returns `NoMemory` at
    /// once and changes nothing.
    pub fn run(
        &mut self,
        system: &System,
        mail: &mut Mailbox,
        to: Tick,
        rows: &mut Vec<Row>,
        signals: &mut Vec<Mail>,
    ) -> Result<(), NoMemory>
        requires fits { Fits system.now self.old }
        requires in_time { to ≤ 2 ^ 40 + 1 }
        requires expected { All (IsExpected system.now self.old) mail.old.mails }
        ensures state { OnOk result
            (self.new ≡ state_after self.old to (made_by system.now self.old to mail.old.mails)) }
        ensures rows { OnOk result
            (rows.new.items ≡ rows.old.items ++ (made_by system.now self.old to mail.old.mails).rows) }
        ensures signals { OnOk result
            (signals.new.items ≡ signals.old.items ++ (made_by system.now self.old to mail.old.mails).mails) }
        ensures mail { OnOk result (mail.new.mails ≡ (made_by system.now self.old to mail.old.mails).box) }
        ensures one_list { OnOk result (AreOfOneList system.now self.old to mail.old.mails) }
        ensures fits { Fits system.now self.new }
        ensures failed { OnErr result (self.new.failed ≡ true) }
        ensures refused { OnErr result
            ((self.new.number ≡ self.old.number)
            × (self.old.clock ≤ self.new.clock)
            × (self.new.clock ≤ max self.old.clock to)) }
        ensures going { OnOk result (self.old.failed ≡ false) }
        ensures spent { self.old.failed ≡ true →
            (self.new ≡ self.old) × (rows.new ≡ rows.old) × (signals.new ≡ signals.old) × (mail.new ≡ mail.old) }
    {
        if self.run_to(system, mail, to, rows, signals).is_err() {
            return Err(NoMemory);
        }
        Ok(())
    }

    /// Takes the turns as `run_to` does, but ends after the turn with which the sink's size is at
    /// least `most`. It takes at least one turn if the clock is before `to`. The caller can
    /// continue from the new clock.
    pub fn run_some_to<S: Measured>(
        &mut self,
        system: &System,
        mail: &mut Mailbox,
        to: Tick,
        most: usize,
        sink: &mut S,
        signals: &mut Vec<Mail>,
    ) -> Result<(), FlowFault>
        requires fits { Fits system.now self.old }
        requires in_time { to ≤ 2 ^ 40 + 1 }
        requires expected { All (IsExpected system.now self.old) mail.old.mails }
        ensures state { OnOk result
            (self.new
            ≡ state_after self.old self.new.clock (made_by system.now self.old self.new.clock mail.old.mails)) }
        ensures rows { OnOk result
            (Given S.takes sink.old (made_by system.now self.old self.new.clock mail.old.mails).rows sink.new) }
        ensures signals { OnOk result
            (signals.new.items
            ≡ signals.old.items ++ (made_by system.now self.old self.new.clock mail.old.mails).mails) }
        ensures mail { OnOk result
            (mail.new.mails ≡ (made_by system.now self.old self.new.clock mail.old.mails).box) }
        ensures reaches { OnOk result
            ((self.new.clock ≤ max self.old.clock to)
            × (self.old.clock < to → self.old.clock < self.new.clock)
            × ((self.new.clock ≡ max self.old.clock to) ⊎ (most ≤ S.size sink.new))) }
        ensures no_further { OnOk result
            (IsShortAfter S.takes S.size most sink.old
            (made_by system.now self.old (self.new.clock - 1) mail.old.mails).rows) }
        ensures fits { Fits system.now self.new }
        ensures failed { OnErr result (self.new.failed ≡ true) }
        ensures refused { OnErr result
            ((self.new.number ≡ self.old.number)
            × (self.old.clock ≤ self.new.clock)
            × (self.new.clock ≤ max self.old.clock to)) }
        ensures going { OnOk result (self.old.failed ≡ false) }
        ensures spent { self.old.failed ≡ true →
            (self.new ≡ self.old) × (sink.new ≡ sink.old) × (signals.new ≡ signals.old) × (mail.new ≡ mail.old) }
    {
        if self.failed {
            return Err(FlowFault::NoMemory);
        }
        let mut ends = self.ends(system);
        'turns: while self.is_before(to) {
            ends = self.advance(system, mail, to, ends, sink, signals)?;
            if sink.size() >= most {
                return Ok(());
            }
        }
        Ok(())
    }

    /// Takes the turns as `run` does, but ends after the turn with which `rows` holds at least
    /// `most` rows. It takes at least one turn if the clock is before `to`. The caller can pass the
    /// rows on, and continue from the new clock.
    pub fn run_some(
        &mut self,
        system: &System,
        mail: &mut Mailbox,
        to: Tick,
        most: usize,
        rows: &mut Vec<Row>,
        signals: &mut Vec<Mail>,
    ) -> Result<(), NoMemory>
        requires fits { Fits system.now self.old }
        requires in_time { to ≤ 2 ^ 40 + 1 }
        requires expected { All (IsExpected system.now self.old) mail.old.mails }
        ensures state { OnOk result
            (self.new
            ≡ state_after self.old self.new.clock (made_by system.now self.old self.new.clock mail.old.mails)) }
        ensures rows { OnOk result
            (rows.new.items
            ≡ rows.old.items ++ (made_by system.now self.old self.new.clock mail.old.mails).rows) }
        ensures signals { OnOk result
            (signals.new.items
            ≡ signals.old.items ++ (made_by system.now self.old self.new.clock mail.old.mails).mails) }
        ensures mail { OnOk result
            (mail.new.mails ≡ (made_by system.now self.old self.new.clock mail.old.mails).box) }
        ensures one_list { OnOk result (AreOfOneList system.now self.old self.new.clock mail.old.mails) }
        ensures reaches { OnOk result
            ((self.new.clock ≤ max self.old.clock to)
            × (self.old.clock < to → self.old.clock < self.new.clock)
            × ((self.new.clock ≡ max self.old.clock to) ⊎ (most ≤ length rows.new.items))) }
        ensures no_further { OnOk result
            (length rows.old.items + length (made_by system.now self.old (self.new.clock - 1) mail.old.mails).rows
            < max most (length rows.old.items + 1)) }
        ensures fits { Fits system.now self.new }
        ensures failed { OnErr result (self.new.failed ≡ true) }
        ensures refused { OnErr result
            ((self.new.number ≡ self.old.number)
            × (self.old.clock ≤ self.new.clock)
            × (self.new.clock ≤ max self.old.clock to)) }
        ensures going { OnOk result (self.old.failed ≡ false) }
        ensures spent { self.old.failed ≡ true →
            (self.new ≡ self.old) × (rows.new ≡ rows.old) × (signals.new ≡ signals.old) × (mail.new ≡ mail.old) }
    {
        if self
            .run_some_to(system, mail, to, most, rows, signals)
            .is_err()
        {
            return Err(NoMemory);
        }
        Ok(())
    }
}

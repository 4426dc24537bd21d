//! The course of one interrupt, an origin.
ghost use Rattle.std.specs.Prelude.{◌≡◌, get_or, None, IfOk, OnOk};
ghost use Rattle.mcs_way.specs.Trace.{ended_legs, given as given_of, since_of as since_of_spot, taken as taken_of};
ghost use Rattle.mcs_way.specs.Course.{answers, ends, gets, holds, is_answer, is_origin, is_round, kept, lands, moved, no_course, note_of, rest, sets_out, started, takes};

use crate::aim::Aim;
use crate::sent::{Sent, drop_sent, landed, send};
use crate::spots::{clear, come_to, given_by, none_carried, none_held, taken_from, way_of};
use crate::trace::{Trace, since_of, taken};
use crate::{Carrier, Leg};
use mcs_chain::{Answer, Move, Taking};
use mcs_system::SystemParts;
use mcs_ticks::{CoreId, NoMemory, NoteId, Row, SourceId, ThreadId, Tick, What};
use mcs_verdict::Stood;
use std::alloc::Global;
use std::marker::Model;

/// The carriers that have the origin, and for each the legs on which it came there.
#[derive(Drop)]
pub(crate) struct Course {
    held: Vec<Option<Trace>>,
    carried: Vec<Option<Trace>>,
    under_way: Vec<Sent>,
    posted: Option<Trace>,
    way: Vec<Leg>,
}

impl Model for Course {
    ghost use Rattle.mcs_way.specs.Course.{Course};

    ghost Value = { Course };

    ghost view = { λ a. record { held = a.held.items; carried = a.carried.items; under_way = a.under_way.items; posted = a.posted; way = a.way.items } };
}

/// The first way stays.
fn keep(way: &mut Vec<Leg>, new: Vec<Leg>)
    ensures { way.new.items ≡ kept way.old.items new.items }
{
    if way.is_empty() {
        *way = new;
    }
}

/// Whether a source's interrupt is the origin.
fn is_origin(aim: &Aim, source: SourceId, moment: Tick) -> bool
    ensures { result ≡ is_origin aim.now source moment }
{
    source == aim.source && moment == aim.answer.origin
}

/// Whether the row ends the round that answers.
fn is_answer(answer: &Answer, row: &Row) -> bool
    ensures { result ≡ is_answer answer.now row.now }
{
    row.moment == answer.moment && is_round(answer, &row.what)
}

fn is_round(answer: &Answer, what: &What) -> bool
    ensures { result ≡ is_round answer.now.thread answer.now.number what.now }
{
    match *what {
        What::Round { thread, number, .. } => thread == answer.thread && number == answer.number,
        _ => false,
    }
}

/// The notification from which a row wakes a thread.
fn note_of(what: &What) -> NoteId
    ensures { result ≡ note_of what.now }
{
    match *what {
        What::Wake { note, .. } => note,
        _ => NoteId(0),
    }
}

impl Course {
    /// The course before the first row.
    pub(crate) fn new(alloc: Global, parts: &SystemParts) -> Result<Self, NoMemory>
        ensures { IfOk result (λ course. course ≡ no_course parts.now) }
    {
        Ok(Course {
            held: none_held(alloc, parts)?,
            carried: none_carried(alloc, parts)?,
            under_way: Vec::new(alloc),
            posted: None,
            way: Vec::new(alloc),
        })
    }

    /// The legs of the way to the answer; none before it.
    pub(crate) fn way(&self) -> &[Leg]
        ensures { result.now ≡ self.now.way }
    {
        self.way.as_slice()
    }

    /// Since when the thread has the origin, if it has it.
    pub(crate) fn since(&self, thread: ThreadId) -> Option<Tick>
        ensures { result ≡ since_of_spot (get_or self.now.carried thread None) }
    {
        if thread.0 < self.carried.len() {
            since_of(&self.carried[thread.0])
        } else {
            None
        }
    }

    fn rest(&mut self)
        ensures { self.new ≡ rest self.old }
    {
        self.posted = None;
    }

    fn start(&mut self, alloc: Global, moment: Tick, badge: u32)
        ensures { self.new ≡ started moment badge self.old }
    {
        self.posted = Some(Trace::new(alloc, moment, badge));
    }

    /// A signal of the thread posts what the thread has at these places.
    fn give(
        &mut self,
        alloc: Global,
        thread: ThreadId,
        stood: Stood,
        moment: Tick,
        signal: (u64, u32),
    ) -> Result<(), NoMemory>
        ensures { OnOk result (self.new ≡ record self.old { posted = given_of signal.0 signal.1 (Carrier.Thread thread stood) moment (get_or self.old.carried thread None) }) }
    {
        let posted = given_by(
            alloc,
            self.carried.as_slice(),
            thread,
            stood,
            moment,
            signal,
        )?;
        self.posted = posted;
        Ok(())
    }

    /// A signal to the notification leaves for another core.
    fn set_out(
        &mut self,
        note: NoteId,
        maker: CoreId,
        made: u64,
        given: Option<Trace>,
    ) -> Result<(), NoMemory>
        ensures { OnOk result (self.new ≡ sets_out note maker made given self.old) }
    {
        send(&mut self.under_way, note, maker, made, given)?;
        self.posted = None;
        Ok(())
    }

    /// A signal of another core to the notification arrives at this row.
    fn land(
        &mut self,
        alloc: Global,
        note: NoteId,
        maker: CoreId,
        made: u64,
        row: &Row,
    ) -> Result<(), NoMemory>
        ensures { OnOk result (self.new ≡ lands note maker made row.now.core row.now.moment self.old) }
    {
        let posted = landed(alloc, self.under_way.as_slice(), note, maker, made, row)?;
        drop_sent(&mut self.under_way, note, maker, made);
        self.posted = posted;
        Ok(())
    }

    /// The notification holds what was posted.
    fn hold(&mut self, note: NoteId)
        ensures { self.new ≡ holds note self.old }
    {
        let posted = self.posted.take();
        come_to(self.held.as_mut_slice(), note.0, posted);
    }

    /// The thread takes what was posted.
    fn wake(
        &mut self,
        alloc: Global,
        thread: ThreadId,
        taking: Taking,
        note: NoteId,
        moment: Tick,
    ) -> Result<(), NoMemory>
        ensures { OnOk result (self.new ≡ takes thread (taken_of taking note moment self.old.posted) self.old) }
    {
        let taken = taken(alloc, &self.posted, taking, note, moment)?;
        come_to(self.carried.as_mut_slice(), thread.0, taken);
        self.posted = None;
        Ok(())
    }

    /// The thread takes what the notification held.
    fn get(
        &mut self,
        alloc: Global,
        thread: ThreadId,
        note: NoteId,
        taking: Taking,
        moment: Tick,
    ) -> Result<(), NoMemory>
        ensures { OnOk result (self.new ≡ gets thread note (taken_of taking note moment (get_or self.old.held note None)) self.old) }
    {
        let taken = taken_from(alloc, self.held.as_slice(), note, taking, moment)?;
        come_to(self.carried.as_mut_slice(), thread.0, taken);
        clear(self.held.as_mut_slice(), note.0);
        self.posted = None;
        Ok(())
    }

    /// A round of the thread ends.
    fn end(&mut self, thread: ThreadId)
        ensures { self.new ≡ ends thread self.old }
    {
        clear(self.carried.as_mut_slice(), thread.0);
        self.posted = None;
    }

    /// A round of the thread ends, and answers.
    fn answer(
        &mut self,
        alloc: Global,
        thread: ThreadId,
        stood: Stood,
        moment: Tick,
    ) -> Result<(), NoMemory>
        ensures { OnOk result (self.new ≡ answers thread (ended_legs (Carrier.Thread thread stood) moment (get_or self.old.carried thread None)) self.old) }
    {
        let way = way_of(alloc, self.carried.as_slice(), thread, stood, moment)?;
        keep(&mut self.way, way);
        self.end(thread);
        Ok(())
    }

    /// A row that moves this. The counts are how the row's thread stood since it has the origin.
    pub(crate) fn see(
        &mut self,
        alloc: Global,
        aim: &Aim,
        row: &Row,
        stood: Stood,
        moves: &Move,
    ) -> Result<(), NoMemory>
        ensures { OnOk result (self.new ≡ moved aim.now row.now stood moves.now self.old) }
    {
        let moment = row.moment;
        match *moves {
            Move::Start(source, badge) if is_origin(aim, source, moment) => {
                self.start(alloc, moment, badge);
                Ok(())
            }
            Move::Nothing | Move::Start(..) => {
                self.rest();
                Ok(())
            }
            Move::Give(thread, places, badge) => {
                self.give(alloc, thread, stood, moment, (places, badge))
            }
            Move::Send(thread, places, badge, note, maker, made) => {
                let carried = self.carried.as_slice();
                let given = given_by(alloc, carried, thread, stood, moment, (places, badge))?;
                self.set_out(note, maker, made, given)
            }
            Move::Land(note, maker, made) => self.land(alloc, note, maker, made, row),
            Move::Hold(note) => {
                self.hold(note);
                Ok(())
            }
            Move::Wake(thread, taking) => {
                self.wake(alloc, thread, taking, note_of(&row.what), moment)
            }
            Move::Got(thread, note, taking) => self.get(alloc, thread, note, taking, moment),
            Move::End(thread, _) if is_answer(&aim.answer, row) => {
                self.answer(alloc, thread, stood, moment)
            }
            Move::End(thread, _) => {
                self.end(thread);
                Ok(())
            }
        }
    }
}

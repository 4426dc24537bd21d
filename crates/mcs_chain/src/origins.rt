//! The sets of origins without an answer.
ghost use Rattle.std.specs.Prelude.{◌≡◌, ◌&&◌, [], filter, not, get_or, OnOk, OnErr, IfOk};
ghost use Rattle.mcs_origins.specs.Sets.{given, taken, is_one_of};
ghost use Rattle.mcs_chain.specs.Origins.{is_answer, no_origins, rest, started, sets_out, lands, holds, takes, gets, ends, answers, moved};
ghost use Rattle.mcs_chain.specs.stored.Still.{are_apart, is_none};

use crate::moves::{Move, reach};
use crate::sent::Sent;
use crate::sets;
use crate::under_way::{drop_from_sent, drop_sent, landed, send};
use mcs_origins::{Mark, Set, Taking, is_one_of};
use mcs_system::{ChainPart, SystemParts};
use mcs_ticks::{CoreId, NoMemory, NoteId, ThreadId, Tick};
use std::alloc::Global;
use std::marker::Model;

/// The sets of origins of a chain.
#[derive(Debug, Drop)]
pub(crate) struct Origins {
    pub(crate) held: Vec<Set>,
    pub(crate) carried: Vec<Set>,
    pub(crate) under_way: Vec<Sent>,
    posted: Set,
    unanswered: Vec<Tick>,
    answered: Vec<Tick>,
}

impl Model for Origins {
    ghost use Rattle.mcs_chain.specs.Origins.{Origins};

    ghost Value = { Origins };

    ghost view = { λ a. record { held = a.held.items; carried = a.carried.items; under_way = a.under_way.items; posted = a.posted; unanswered = a.unanswered.items; answered = a.answered.items } };
}

impl Origins {
    /// Before the first row.
    pub(crate) fn new(alloc: Global, parts: &SystemParts) -> Result<Self, NoMemory>
        ensures { IfOk result (λ origins. origins ≡ no_origins parts.now) }
    {
        Ok(Origins {
            held: sets::none_held(alloc, parts)?,
            carried: sets::none_carried(alloc, parts)?,
            under_way: Vec::new(alloc),
            posted: Set::empty(),
            unanswered: Vec::new(alloc),
            answered: Vec::new(alloc),
        })
    }

    /// Returns a copy.
    pub(crate) fn copied(&self, alloc: Global) -> Result<Self, NoMemory>
        ensures { IfOk result (λ copy. copy ≡ self.now) }
    {
        Ok(Origins {
            held: sets::copied(alloc, &self.held)?,
            carried: sets::copied(alloc, &self.carried)?,
            under_way: Vec::from_slice(alloc, self.under_way.as_slice())?,
            posted: self.posted.copied(alloc)?,
            unanswered: Vec::from_slice(alloc, self.unanswered.as_slice())?,
            answered: Vec::from_slice(alloc, self.answered.as_slice())?,
        })
    }

    /// A row posts nothing and answers nothing.
    fn rest(&mut self)
        ensures { self.new ≡ rest self.old }
    {
        self.posted = Set::empty();
        self.answered.clear();
    }

    /// An interrupt of the chain's source.
    fn start(&mut self, moment: Tick, badge: u32) -> Result<(), NoMemory>
        ensures ok { OnOk result (self.new ≡ started moment badge self.old) }
        ensures err { OnErr result (self.new ≡ self.old) }
    {
        self.unanswered.push(moment)?;
        self.posted = Set::one(Mark {
            origin: moment,
            places: u64::from(badge),
        });
        self.answered.clear();
        Ok(())
    }

    /// A signal posts what the thread has at these places.
    fn give(
        &mut self,
        alloc: Global,
        thread: ThreadId,
        places: u64,
        badge: u32,
    ) -> Result<(), NoMemory>
        ensures ok { OnOk result (self.new ≡ record (rest self.old) { posted = given places badge (get_or self.old.carried thread []) }) }
        ensures err { OnErr result (self.new ≡ self.old) }
    {
        let posted = sets::given_by(alloc, &self.carried, thread, places, badge)?;
        self.posted = posted;
        self.answered.clear();
        Ok(())
    }

    /// A signal to the notification leaves for another core, and carries this set.
    fn set_out(&mut self, note: NoteId, maker: CoreId, made: u64, set: &Set) -> Result<(), NoMemory>
        ensures ok { OnOk result (self.new ≡ sets_out note maker made set.now self.old) }
        ensures err { OnErr result (self.new ≡ self.old) }
    {
        send(&mut self.under_way, note, maker, made, set)?;
        self.rest();
        Ok(())
    }

    /// A signal of another core arrives.
    fn land(
        &mut self,
        alloc: Global,
        note: NoteId,
        maker: CoreId,
        made: u64,
    ) -> Result<(), NoMemory>
        ensures ok { OnOk result (self.new ≡ lands note maker made self.old) }
        ensures err { OnErr result (self.new ≡ self.old) }
    {
        let posted = landed(alloc, &self.under_way, note, maker, made)?;
        drop_sent(&mut self.under_way, note, maker, made);
        self.posted = posted;
        self.answered.clear();
        Ok(())
    }

    /// The notification holds what was posted.
    fn hold(&mut self, alloc: Global, note: NoteId) -> Result<(), NoMemory>
        ensures ok { OnOk result (self.new ≡ holds note self.old) }
        ensures err { OnErr result (self.new ≡ self.old) }
    {
        sets::join_to(alloc, &mut self.held, note.0, &self.posted)?;
        self.rest();
        Ok(())
    }

    /// The thread takes what was posted.
    fn wake(&mut self, alloc: Global, thread: ThreadId, taking: Taking) -> Result<(), NoMemory>
        ensures ok { OnOk result (self.new ≡ takes thread (taken taking self.old.posted) self.old) }
        ensures err { OnErr result (self.new ≡ self.old) }
    {
        let taken = self.posted.taken(alloc, taking)?;
        sets::join_to(alloc, &mut self.carried, thread.0, &taken)?;
        self.rest();
        Ok(())
    }

    /// The thread takes what the notification held.
    fn get(
        &mut self,
        alloc: Global,
        thread: ThreadId,
        note: NoteId,
        taking: Taking,
    ) -> Result<(), NoMemory>
        ensures ok { OnOk result (self.new ≡ gets thread note taking self.old) }
        ensures err { OnErr result (self.new ≡ self.old) }
    {
        let taken = sets::taken_from(alloc, &self.held, note, taking)?;
        sets::join_to(alloc, &mut self.carried, thread.0, &taken)?;
        sets::clear(&mut self.held, note.0);
        self.rest();
        Ok(())
    }

    /// The origins that the end of the thread's round answers.
    fn answers(
        &self,
        alloc: Global,
        chain: &ChainPart,
        thread: ThreadId,
        word: u32,
    ) -> Result<Vec<Tick>, NoMemory>
        ensures { IfOk result (λ origins. origins.items ≡ answers chain.now thread word self.now) }
    {
        if thread == chain.thread
            && is_answer(chain.badges, word)
            && thread.0 < self.carried.len()
        {
            self.carried[thread.0].origins_at(alloc, reach(chain.badges))
        } else {
            Ok(Vec::new(alloc))
        }
    }

    /// The round answers these origins.
    fn end(&mut self, alloc: Global, thread: ThreadId, answered: Vec<Tick>) -> Result<(), NoMemory>
        ensures ok { OnOk result (self.new ≡ ends thread answered.items self.old) }
        ensures err { OnErr result (self.new ≡ self.old) }
    {
        if answered.is_empty() {
            sets::clear(&mut self.carried, thread.0);
            self.rest();
            return Ok(());
        }
        sets::drop_from_sets(
            alloc,
            &mut self.held,
            &mut self.carried,
            thread.0,
            &answered,
        )?;
        drop_from_sent(&mut self.under_way, &answered);
        drop_from_origins(&mut self.unanswered, &answered);
        self.posted = Set::empty();
        self.answered = answered;
        Ok(())
    }

    /// A row that moves this.
    pub(crate) fn see(
        &mut self,
        alloc: Global,
        chain: &ChainPart,
        moment: Tick,
        moves: &Move,
    ) -> Result<(), NoMemory>
        ensures ok { OnOk result (self.new ≡ moved chain.now moment moves.now self.old) }
        ensures err { OnErr result (self.new ≡ self.old) }
    {
        match *moves {
            Move::Start(source, badge) if source == chain.source => { self.start(moment, badge) }
            Move::Nothing | Move::Start(..) => {
                self.rest();
                Ok(())
            }
            Move::Give(thread, places, badge) => self.give(alloc, thread, places, badge),
            Move::Send(thread, places, badge, note, maker, made) => {
                let given = sets::given_by(alloc, &self.carried, thread, places, badge)?;
                self.set_out(note, maker, made, &given)
            }
            Move::Land(note, maker, made) => self.land(alloc, note, maker, made),
            Move::Hold(note) => self.hold(alloc, note),
            Move::Wake(thread, taking) => self.wake(alloc, thread, taking),
            Move::Got(thread, note, taking) => self.get(alloc, thread, note, taking),
            Move::End(thread, word) => {
                let answered = self.answers(alloc, chain, thread, word)?;
                self.end(alloc, thread, answered)
            }
        }
    }

    /// Whether a row of this effect moves no origin, if the row before it posts none.
    #[inline(always)]
    pub(crate) fn are_apart(&self, chain: &ChainPart, moves: &Move) -> bool
        ensures { result ≡ are_apart chain.now moves.now self.now }
    {
        match *moves {
            Move::Nothing | Move::Hold(_) | Move::Wake(..) => true,
            Move::Start(source, _) => source != chain.source,
            Move::Give(thread, ..) | Move::Send(thread, ..) | Move::End(thread, _) => {
                sets::has_none(&self.carried, thread.0)
            }
            Move::Got(_, note, _) => sets::has_none(&self.held, note.0),
            Move::Land(..) => self.under_way.is_empty(),
        }
    }

    /// Whether the latest row posts nothing and answers nothing.
    #[inline(always)]
    pub(crate) fn are_still(&self) -> bool
        ensures { result ≡ (is_none self.now.posted && is_none self.now.answered) }
    {
        self.posted.is_empty() && self.answered.is_empty()
    }

    /// The origins that the latest row answers.
    pub(crate) fn answered(&self) -> &[Tick]
        ensures { result.now ≡ self.now.answered }
    {
        self.answered.as_slice()
    }

    /// The origins without an answer.
    pub(crate) fn unanswered(&self) -> &[Tick]
        ensures { result.now ≡ self.now.unanswered }
    {
        self.unanswered.as_slice()
    }
}

/// Whether a round that this word began answers, if the chain has these badges.
fn is_answer(badges: u32, word: u32) -> bool
    ensures { result ≡ is_answer badges word }
{
    badges == 0 || badges & word != 0
}

/// Drops what was answered from the origins without an answer.
fn drop_from_origins(origins: &mut Vec<Tick>, answered: &[Tick])
    ensures { origins.new.items ≡ filter (λ origin. not (is_one_of answered.now origin)) origins.old.items }
{
    origins.retain(|origin| !is_one_of(answered, *origin));
}

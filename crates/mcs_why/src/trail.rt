//! The state that is kept of rows to find a round of a thread.
ghost use Rattle.std.specs.Prelude.{◌≡◌, ℕ, ◌<◌, List, [], ◌∷◌, length};
ghost use Rattle.mcs_ticks.specs.declared.row.Row.{Row as TheRow};
ghost use Rattle.mcs_system.specs.System.{System as TheSystem};
ghost use Rattle.mcs_verdict.specs.Jobs.{job_of};
ghost use Rattle.mcs_verdict.specs.Rounds.{begins_round, begun_after, rounds_after};
ghost use Rattle.mcs_verdict.specs.Parts.{free_after};
ghost use Rattle.mcs_verdict.specs.Standing.{telling};
ghost use Rattle.mcs_verdict.specs.Account.{standing_of};
ghost use Rattle.mcs_why.specs.Waits.{stopped_after, waited_after};
ghost use Rattle.mcs_why.specs.Spans.{from_of, span_of, span_if};
ghost use Rattle.mcs_why.specs.Search.{trail_of};

use crate::Span;
use mcs_system::SystemParts;
use mcs_ticks::{CoreId, NoteId, Row, ThreadId, Tick, What, Why};
use mcs_verdict::{Job, Standing, bits_of, calls, first_wait, standing_after};

/// The state that is kept of the rows so far to find a round of a thread.
#[derive(Clone, Copy, Debug, PartialEq, Eq)]
pub(crate) struct Trail {
    pub thread: ThreadId,
    pub number: u64,
    pub core: CoreId,
    /// The notification of the wait with which its script begins, if it begins with one.
    pub waits: Option<NoteId>,
    /// A word of that wait begins a round if it has one of these bits; `None` if every word does.
    pub bits: Option<u32>,
    /// The number of its latest round that ended; 0 if no round ended.
    pub ended: u64,
    pub found: Option<Span>,
    /// When the round under way began.
    pub begun: Option<Tick>,
    /// When the thread began to wait for the word that began its latest round.
    pub waited: Option<Tick>,
    pub stopped: Option<Tick>,
    /// When its latest round ended; its start if no round ended.
    pub free: Tick,
    pub standing: Standing,
}

fn rounds_after(thread: ThreadId, what: &What, before: u64) -> u64
    ensures { result ≡ rounds_after thread what.now before }
{
    match *what {
        What::Round {
            thread: other,
            number,
            ..
        } if other.0 == thread.0 => number,
        _ => before,
    }
}

fn stopped_after(thread: ThreadId, moment: Tick, what: &What, before: Option<Tick>) -> Option<Tick>
    ensures { result ≡ stopped_after thread moment what.now before }
{
    match *what {
        What::Stop { thread: other, .. } if other.0 == thread.0 => Some(moment),
        _ => before,
    }
}

/// Whether a word begins a round if none is under way.
fn begins_round(waits: Option<NoteId>, bits: Option<u32>, note: NoteId, word: u32) -> bool
    ensures { result ≡ begins_round waits bits note word }
{
    match waits {
        Some(first) => first.0 == note.0 && calls(bits, word),
        None => false,
    }
}

/// When the round under way after this row began.
fn begun_after(
    waits: Option<NoteId>,
    bits: Option<u32>,
    thread: ThreadId,
    moment: Tick,
    what: &What,
    begun: Option<Tick>,
) -> Option<Tick>
    ensures { result ≡ begun_after waits bits thread moment what.now begun }
{
    match *what {
        What::Round { thread: other, .. } if other.0 == thread.0 => match waits {
            Some(_) => None,
            None => Some(moment),
        },
        What::Got {
            thread: other,
            note,
            word,
        }
        | What::Wake {
            thread: other,
            note,
            word,
            ..
        } if other.0 == thread.0 && begun.is_none() && begins_round(waits, bits, note, word) => {
            Some(moment)
        }
        What::Stop {
            thread: other,
            why: Why::Done,
            ..
        } if other.0 == thread.0 => None,
        _ => begun,
    }
}

/// When the thread began to wait for the word that began its latest round.
fn waited_after(
    waits: Option<NoteId>,
    bits: Option<u32>,
    thread: ThreadId,
    begun: Option<Tick>,
    stopped: Option<Tick>,
    what: &What,
    before: Option<Tick>,
) -> Option<Tick>
    ensures { result ≡ waited_after waits bits thread begun stopped what.now before }
{
    if begun.is_some() {
        return before;
    }
    match *what {
        What::Wake {
            thread: other,
            note,
            word,
            ..
        } if other.0 == thread.0 && begins_round(waits, bits, note, word) => stopped,
        What::Got {
            thread: other,
            note,
            word,
        } if other.0 == thread.0 && begins_round(waits, bits, note, word) => None,
        _ => before,
    }
}

/// When the thread's latest round ended, or the thread started.
fn free_after(thread: ThreadId, moment: Tick, what: &What, before: Tick) -> Tick
    ensures { result ≡ free_after thread moment what.now before }
{
    match *what {
        What::Round { thread: other, .. }
        | What::Stop {
            thread: other,
            why: Why::Done,
            ..
        } if other.0 == thread.0 => moment,
        _ => before,
    }
}

/// How the thread stands after any row.
fn standing_now(thread: ThreadId, what: &What, standing: Standing) -> Standing
    ensures { (r : TheRow) (past : List TheRow) → r.what ≡ what.now → standing ≡ standing_of (telling thread past) →
        result ≡ standing_of (telling thread (r ∷ past)) }
{
    match *what {
        What::Release { thread: other }
        | What::Run { thread: other }
        | What::Stop { thread: other, .. }
        | What::Wake { thread: other, .. }
            if other.0 == thread.0 => { standing_after(what) }
        _ => standing,
    }
}

/// The beginning of a round's span.
pub(crate) fn from_of(activated: Tick, waited: Option<Tick>) -> Tick
    ensures { result ≡ from_of activated waited }
{
    match waited {
        Some(since) if since.get() < activated.get() => since,
        _ => activated,
    }
}

fn span_of(core: CoreId, waited: Option<Tick>, job: &Job) -> Span
    ensures { result ≡ span_of core waited job.now }
{
    Span {
        thread: job.thread,
        number: job.number,
        core,
        from: from_of(job.activated, waited),
        to: job.ended,
        ended: true,
        activated: Some(job.activated),
        begun: Some(job.begun),
    }
}

impl Trail {
    /// The state before the first row.
    pub(crate) fn new(parts: &SystemParts, thread: ThreadId, number: u64) -> Self
        requires { thread < length parts.now.threads }
        ensures { result ≡ trail_of parts.now thread number [] }
    {
        let part = parts.thread(thread);
        let waits = first_wait(part);
        Trail {
            thread,
            number,
            core: parts.core_of_thread(part),
            waits,
            bits: bits_of(part),
            ended: 0,
            found: None,
            begun: match waits {
                Some(_) => None,
                None => Some(part.start),
            },
            waited: None,
            stopped: None,
            free: part.start,
            standing: Standing::Pending,
        }
    }

    /// The span of the job, if it is the round that is sought.
    fn span_if(&self, job: Option<Job>) -> Option<Span>
        ensures { result ≡ span_if self.now.thread self.now.number self.now.core self.now.waited job }
    {
        let job = job?;
        if job.thread.0 == self.thread.0 && job.number == self.number {
            Some(span_of(self.core, self.waited, &job))
        } else {
            None
        }
    }

    /// Takes one more row, and the round that it ends, if it ends one.
    pub(crate) fn see(&mut self, job: Option<Job>, row: &Row)
        ensures { (system : TheSystem) (thread number : ℕ) (past : List TheRow) → self.old ≡ trail_of system thread number past →
            job ≡ job_of system past row.now.moment row.now.what → self.new ≡ trail_of system thread number (row.now ∷ past) }
    {
        if self.found.is_none() {
            self.found = self.span_if(job);
        }
        let what = &row.what;
        self.waited = waited_after(
            self.waits,
            self.bits,
            self.thread,
            self.begun,
            self.stopped,
            what,
            self.waited,
        );
        self.begun = begun_after(
            self.waits,
            self.bits,
            self.thread,
            row.moment,
            what,
            self.begun,
        );
        self.ended = rounds_after(self.thread, what, self.ended);
        self.stopped = stopped_after(self.thread, row.moment, what, self.stopped);
        self.free = free_after(self.thread, row.moment, what, self.free);
        self.standing = standing_now(self.thread, what, self.standing);
    }
}

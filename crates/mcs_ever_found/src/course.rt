ghost use Rattle.std.specs.Prelude.{◌≡◌, List, [], ◌∷◌, false, None, get_or, IfOk};
ghost use Rattle.mcs_ticks.specs.declared.row.Row.{Row as TheRow};
ghost use Rattle.mcs_system.specs.System.{System as TheSystem};
ghost use Rattle.mcs_verdict.specs.Findings.{finding};
ghost use Rattle.mcs_verdict.specs.Jobs.{job_of};
ghost use Rattle.mcs_ever_found.specs.Course.{greater, course_of};
ghost use Rattle.mcs_ever_found.specs.stored.Places.{missed_by, lost_at, spent_by, counted, raised, marked};

use mcs_system::System;
use mcs_ticks::{NoMemory, NoteId, Row, ThreadId, What, Why};
use mcs_verdict::{Finding, Job};
use std::alloc::Global;
use std::marker::Model;

/// The thread that missed its deadline.
fn missed_by(found: &Option<Finding>) -> Option<usize>
    ensures { result ≡ missed_by found.now }
{
    match *found {
        Some(Finding::Miss { thread, .. }) => Some(thread.0),
        _ => None,
    }
}

/// The notification that lost a signal.
fn lost_at(found: &Option<Finding>) -> Option<usize>
    ensures { result ≡ lost_at found.now }
{
    match *found {
        Some(Finding::Lost { note, .. }) => Some(note.0),
        _ => None,
    }
}

/// The thread that stops because its budget is exhausted.
fn spent_by(what: &What) -> Option<usize>
    ensures { result ≡ spent_by what.now }
{
    match *what {
        What::Stop {
            thread,
            why: Why::Spent,
            ..
        } => Some(thread.0),
        _ => None,
    }
}

/// The maximum of a response and the earlier maximum.
fn greater(before: Option<u64>, response: u64) -> u64
    ensures { result ≡ greater before response }
{
    match before {
        Some(before) => before.max(response),
        None => response,
    }
}

/// Adds one at a place, if there is one; the count stays at 2^64 - 1.
fn count(counts: &mut [u64], place: Option<usize>)
    ensures { counts.new ≡ counted place counts.old }
{
    if let Some(place) = place {
        if place < counts.len() {
            counts[place] = counts[place].saturating_add(1);
        }
    }
}

/// Adds the job's response to the maximum of its thread.
fn raise(greatest: &mut [Option<u64>], job: &Option<Job>)
    ensures { greatest.new ≡ raised job.now greatest.old }
{
    if let Some(job) = job {
        let place = job.thread.0;
        if place < greatest.len() {
            let before = greatest[place];
            greatest[place] = Some(greater(before, job.response));
        }
    }
}

/// Sets the flag at a place, if there is one.
fn mark(marks: &mut [bool], place: Option<usize>)
    ensures { marks.new ≡ marked place marks.old }
{
    if let Some(place) = place {
        if place < marks.len() {
            marks[place] = true;
        }
    }
}

/// The counts of a schedule's rows so far, for each thread and for each notification. Numbers are
/// exact up to 2^64 - 1, and stay there. One more row takes constant time and no memory.
#[derive(Drop)]
pub struct Course {
    misses: Vec<u64>,
    greatest: Vec<Option<u64>>,
    spent: Vec<bool>,
    losses: Vec<u64>,
}

impl Model for Course {
    ghost use Rattle.mcs_ever_found.specs.Course.{Course};

    ghost Value = { Course };

    ghost view = { λ a. record {
      misses = a.misses.items;
      greatest = a.greatest.items;
      spent = a.spent.items;
      losses = a.losses.items;
    } };
}

impl Course {
    /// Returns the counts before the first row of a run of the system. Fails only if memory runs
    /// out.
    pub fn new(alloc: Global, system: &System) -> Result<Self, NoMemory>
        ensures { IfOk result (λ course. course ≡ course_of system.now []) }
    {
        let threads = system.parts().threads.len();
        let notes = system.parts().notes.len();
        Ok(Course {
            misses: vec![in alloc; 0; threads]?,
            greatest: vec![in alloc; None; threads]?,
            spent: vec![in alloc; false; threads]?,
            losses: vec![in alloc; 0; notes]?,
        })
    }

    /// Adds one more row. Takes what a watch of the same rows returns for it: its finding and the
    /// job that it ends. Constant time, no memory.
    pub fn see(&mut self, found: &Option<Finding>, job: &Option<Job>, row: &Row)
        ensures { (system : TheSystem) (past : List TheRow) → self.old ≡ course_of system past →
            found.now ≡ finding system past row.now.moment row.now.what → job.now ≡ job_of system past row.now.moment row.now.what →
            self.new ≡ course_of system (row.now ∷ past) }
    {
        count(self.misses.as_mut_slice(), missed_by(found));
        raise(self.greatest.as_mut_slice(), job);
        mark(self.spent.as_mut_slice(), spent_by(&row.what));
        count(self.losses.as_mut_slice(), lost_at(found));
    }

    /// Returns a copy. Fails only if memory runs out.
    pub fn copy(&self, alloc: Global) -> Result<Course, NoMemory>
        ensures { IfOk result (λ copy. copy ≡ self.now) }
    {
        Ok(Course {
            misses: self.misses.iter().copied().collect(alloc)?,
            greatest: self.greatest.iter().copied().collect(alloc)?,
            spent: self.spent.iter().copied().collect(alloc)?,
            losses: self.losses.iter().copied().collect(alloc)?,
        })
    }

    /// The deadline misses of the thread; 0 if there is no such thread.
    pub fn misses(&self, thread: ThreadId) -> u64
        ensures { result ≡ get_or self.now.misses thread 0 }
    {
        number_at(self.misses.as_slice(), thread.0)
    }

    /// The maximum response of the thread's jobs, from their activations; `None` if no round of it
    /// ended, or if there is no such thread.
    pub fn greatest(&self, thread: ThreadId) -> Option<u64>
        ensures { result ≡ get_or self.now.greatest thread None }
    {
        if thread.0 < self.greatest.len() {
            self.greatest[thread.0]
        } else {
            None
        }
    }

    /// Whether the thread was ever stopped because its budget was exhausted: the head of its
    /// context's refills, or its time slice, wholly used. `false` if there is no such thread.
    pub fn was_spent(&self, thread: ThreadId) -> bool
        ensures { result ≡ get_or self.now.spent thread false }
    {
        thread.0 < self.spent.len() && self.spent[thread.0]
    }

    /// The signals lost at the notification; 0 if there is no such notification.
    pub fn losses(&self, note: NoteId) -> u64
        ensures { result ≡ get_or self.now.losses note 0 }
    {
        number_at(self.losses.as_slice(), note.0)
    }
}

/// The number at a place; 0 past the end.
fn number_at(numbers: &[u64], place: usize) -> u64
    ensures { result ≡ get_or numbers.now place 0 }
{
    if place < numbers.len() {
        numbers[place]
    } else {
        0
    }
}

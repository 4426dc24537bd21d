//! The findings of a thread by its account: when a round ends, and at the horizon.
ghost use Rattle.std.specs.Prelude.{◌≡◌, ◌+◌, ◌-◌, ◌<◌, ◌^◌};
ghost use Rattle.mcs_verdict.specs.Account.{activated_since, all_kept, parts_since, job_by, miss_by, overdue_from, overdue_by, never_by, unended_by};
ghost use Rattle.mcs_verdict.specs.Jobs.{or_now};
ghost use Rattle.mcs_verdict.specs.Misses.{is_above, missed, is_reached, set_at, was_activated};

use crate::account::{Account, is_active, later};
use crate::heard::is_set;
use crate::held::Held;
use crate::{Finding, Job, Standing, Stood};
use mcs_ticks::{NoteId, ThreadId, Tick};

fn is_above(deadline: u64, ticks: u64) -> bool
    ensures { result ≡ is_above deadline ticks }
{
    deadline != 0 && deadline < ticks
}

fn is_reached(deadline: u64, ticks: u64) -> bool
    ensures { result ≡ is_reached deadline ticks }
{
    deadline != 0 && deadline <= ticks
}

/// When the held word was set, if it leaves something to do.
pub(crate) fn set_at(bits: Option<u32>, held: &Held) -> Option<Tick>
    ensures { result ≡ set_at bits held.now }
{
    if is_set(bits, held.word) {
        Some(held.since)
    } else {
        None
    }
}

/// Whether the thread ever had something to do. If its script begins with a wait, that was so if
/// some thread was given a word that leaves this one something to do.
fn was_activated(
    waits: Option<NoteId>,
    bits: Option<u32>,
    held: &Held,
    standing: Standing,
    stood: &Stood,
) -> bool
    ensures { result ≡ was_activated waits bits held.now standing stood.now }
{
    match waits {
        Some(_) => is_set(bits, held.given),
        None => is_active(standing) || stood.ready != 0 || stood.running != 0,
    }
}

/// The deadline miss of a job whose response from its activation is above the deadline.
fn missed(deadline: u64, job: &Job) -> Option<Finding>
    ensures { result ≡ missed deadline job.now }
{
    if is_above(deadline, job.response) {
        Some(Finding::Miss {
            thread: job.thread,
            number: job.number,
            response: job.response,
            deadline,
            activated: job.activated,
            queued: job.queued,
            stood: job.stood,
        })
    } else {
        None
    }
}

/// Findings at the end of a round and at the horizon.
impl Account {
    /// The parts of a round that was activated at `activated`, up to `moment`, if it is the one
    /// under way.
    fn parts_since(&self, activated: Tick, moment: Tick) -> Stood
        ensures { all_kept self.now + moment < 2 ^ 64 → result ≡ parts_since activated moment self.now }
    {
        self.stood_since(later(activated, self.free), moment)
    }

    /// Returns the round that ends at `moment`.
    pub(crate) fn job(&self, moment: Tick, thread: ThreadId, number: u64) -> Job
        ensures { all_kept self.now + moment < 2 ^ 64 → result ≡ job_by moment thread number self.now }
    {
        let activated = self.activated_since(moment).unwrap_or(moment);
        Job {
            thread,
            number,
            activated,
            begun: self.begun.unwrap_or(moment),
            ended: moment,
            response: moment.get().saturating_sub(activated.get()),
            queued: self.free.get().saturating_sub(activated.get()),
            preemptions: self.preemptions,
            stood: self.parts_since(activated, moment),
        }
    }

    /// Whether the round that ends at `moment` missed its deadline.
    #[inline(always)]
    pub(crate) fn is_late(&self, moment: Tick) -> bool
        ensures { result ≡ is_above self.now.deadline (moment - or_now moment (activated_since moment self.now)) }
    {
        if self.deadline == 0 {
            return false;
        }
        let activated = self.activated_since(moment).unwrap_or(moment);
        self.deadline < moment.get().saturating_sub(activated.get())
    }

    /// Returns the deadline miss of the round that ends at `moment`, if it missed its deadline.
    pub(crate) fn miss(&self, moment: Tick, thread: ThreadId, number: u64) -> Option<Finding>
        ensures { all_kept self.now + moment < 2 ^ 64 → result ≡ miss_by moment thread number self.now }
    {
        missed(self.deadline, &self.job(moment, thread, number))
    }

    /// The round under way, which was activated at `activated`, if it is overdue at the horizon.
    fn overdue_from(&self, horizon: Tick, thread: ThreadId, activated: Tick) -> Option<Finding>
        ensures { all_kept self.now + horizon < 2 ^ 64 → result ≡ overdue_from horizon thread (Some activated) self.now }
    {
        let age = horizon.get().saturating_sub(activated.get());
        if is_reached(self.deadline, age) {
            Some(Finding::Overdue {
                thread,
                number: self.rounds.saturating_add(1),
                age,
                deadline: self.deadline,
                activated,
                queued: self.free.get().saturating_sub(activated.get()),
                stood: self.parts_since(activated, horizon),
            })
        } else {
            None
        }
    }

    /// The round under way, if it is overdue at the horizon.
    fn overdue(&self, horizon: Tick, thread: ThreadId) -> Option<Finding>
        ensures { all_kept self.now + horizon < 2 ^ 64 → result ≡ overdue_by horizon thread self.now }
    {
        match self.activated_since(horizon) {
            Some(activated) => self.overdue_from(horizon, thread, activated),
            None => None,
        }
    }

    fn never(&self, horizon: Tick, thread: ThreadId, held: &Held) -> Option<Finding>
        ensures { all_kept self.now + horizon < 2 ^ 64 → result ≡ never_by horizon thread held.now self.now }
    {
        let stood = self.total_at(horizon);
        if self.deadline != 0
            && !was_activated(self.waits, self.bits, held, self.standing, &stood)
        {
            Some(Finding::Never {
                thread,
                deadline: self.deadline,
            })
        } else {
            None
        }
    }

    /// Returns the finding of the thread at the horizon. `held` is the word for which its script
    /// waits first.
    pub(crate) fn unended(&self, horizon: Tick, thread: ThreadId, held: &Held) -> Option<Finding>
        ensures { all_kept self.now + horizon < 2 ^ 64 → result ≡ unended_by horizon thread held.now self.now }
    {
        match self.overdue(horizon, thread) {
            Some(found) => Some(found),
            None => self.never(horizon, thread, held),
        }
    }
}

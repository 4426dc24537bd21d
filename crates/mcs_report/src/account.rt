//! The running counts of one thread.
ghost use Rattle.std.specs.Prelude.{◌≡◌};
ghost use Rattle.mcs_report.specs.Reports.{is_late, wait_until};
ghost use Rattle.mcs_report.specs.Tally.{opened, begun, ended, waited, stopped, responded, ticks_since, report_at};

use crate::ThreadReport;
use mcs_ticks::{CoreId, Tick, Why};

/// The counts of a thread so far, and the start of its open run.
#[derive(Clone, Copy, Debug, PartialEq, Eq)]
pub(crate) struct Account {
    pub core: CoreId,
    pub deadline: u64,
    pub since: Option<Tick>,
    pub report: ThreadReport,
}

#[inline(always)]
fn is_late(deadline: u64, response: u64) -> bool
    ensures { result ≡ is_late deadline response }
{
    deadline != 0 && deadline < response
}

#[inline(always)]
fn ticks_since(moment: Tick, since: Option<Tick>) -> u64
    ensures { result ≡ ticks_since moment since }
{
    match since {
        Some(begin) => moment.get().saturating_sub(begin.get()),
        None => 0,
    }
}

#[inline(always)]
fn wait_until(horizon: Tick, moment: Tick, until: Option<Tick>) -> u64
    ensures { result ≡ wait_until horizon moment until }
{
    match until {
        Some(until) => until.get().min(horizon.get()).saturating_sub(moment.get()),
        None => 0,
    }
}

impl Account {
    pub(crate) fn new(core: CoreId, deadline: u64) -> Self
        ensures { result ≡ opened core deadline }
    {
        Account {
            core,
            deadline,
            since: None,
            report: ThreadReport {
                ran: 0,
                rounds: 0,
                least: 0,
                greatest: 0,
                total: 0,
                late: 0,
                spent: 0,
                throttled: 0,
                longest: 0,
            },
        }
    }

    #[inline(always)]
    pub(crate) fn begin(&mut self, moment: Tick)
        ensures { self.new ≡ begun moment self.old }
    {
        self.since = Some(moment);
    }

    #[inline(always)]
    pub(crate) fn end(&mut self, moment: Tick)
        ensures { self.new ≡ ended moment self.old }
    {
        let ran = ticks_since(moment, self.since);
        self.since = None;
        self.report.ran = self.report.ran.saturating_add(ran);
    }

    #[inline(always)]
    fn wait(&mut self, wait: u64)
        ensures { self.new ≡ waited wait self.old }
    {
        let report = &mut self.report;
        report.spent = report.spent.saturating_add(1);
        report.throttled = report.throttled.saturating_add(wait);
        report.longest = report.longest.max(wait);
    }

    #[inline(always)]
    pub(crate) fn stop(&mut self, horizon: Tick, moment: Tick, why: Why, until: Option<Tick>)
        ensures { self.new ≡ stopped horizon moment why until self.old }
    {
        self.end(moment);
        if why == Why::Spent {
            self.wait(wait_until(horizon, moment, until));
        }
    }

    #[inline(always)]
    pub(crate) fn respond(&mut self, response: u64)
        ensures { self.new ≡ responded response self.old }
    {
        let late = u64::from(is_late(self.deadline, response));
        let report = &mut self.report;
        report.least = if report.rounds == 0 {
            response
        } else {
            report.least.min(response)
        };
        report.rounds = report.rounds.saturating_add(1);
        report.greatest = report.greatest.max(response);
        report.total = report.total.saturating_add(response);
        report.late = report.late.saturating_add(late);
    }

    pub(crate) fn report_at(&self, horizon: Tick) -> ThreadReport
        ensures { result ≡ report_at horizon self.now }
    {
        let mut account = *self;
        account.end(horizon);
        account.report
    }
}

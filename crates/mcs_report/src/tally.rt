//! The tally of a schedule's rows.
ghost use Rattle.std.specs.Prelude.{◌≡◌, ℕ, ◌≤◌, ◌+◌, [], length, map, fold, vec_capacity, IfOk};
ghost use Rattle.std.specs.List.{range_with_len};
ghost use Rattle.mcs_system.specs.System.{core_of};
ghost use Rattle.mcs_ticks.specs.Capped.{capped};
ghost use Rattle.mcs_report.specs.Reports.{core_report_of};
ghost use Rattle.mcs_report.specs.Tally.{opened, told, report_at, ran_by, opened_tally, added, finished};
ghost use Rattle.mcs_report.specs.CoreTally.{joined};

use crate::account::Account;
use crate::telling::{Stand, tell};
use crate::together::put_together;
use crate::{CoreReport, CoreTally, Places, Reports, ThreadReport};
use mcs_system::{System, SystemParts, ThreadPart};
use mcs_ticks::{CoreId, NoMemory, Refused, Row, Sequence, Sink, ThreadId, Tick, What};
use std::alloc::Global;
use std::marker::Model;

/// The counts of a schedule's rows so far, per thread the sums of its report and its open run.
///
/// Rows are added one by one, each in constant time and without memory, since all room is taken
/// when the tally is made. Contracts see the accounts, the horizon, the number of cores, and the
/// time of the last row.
#[derive(Drop)]
pub struct Tally {
    horizon: Tick,
    cores: usize,
    last: Tick,
    accounts: Vec<Account>,
    /// empty, with room for the reports
    thread_reports: Vec<ThreadReport>,
    core_reports: Vec<CoreReport>,
}

impl Model for Tally {
    ghost use Rattle.std.specs.Prelude.{◌≡◌, ◌≤◌, [], length, vec_capacity};
    ghost use Rattle.mcs_report.specs.Tally.{Tally};

    ghost Value = { Tally };

    ghost view = { λ a. record { horizon = a.horizon; cores = a.cores; last = a.last; accounts = a.accounts.items } };

    ghost invariant = { λ a. (a.thread_reports.items ≡ []) × (length a.accounts.items ≤ vec_capacity a.thread_reports)
        × (a.core_reports.items ≡ []) × (a.cores ≤ vec_capacity a.core_reports) };
}

fn opened_accounts(alloc: Global, parts: &SystemParts) -> Result<Vec<Account>, NoMemory>
    ensures { IfOk result
        (λ accounts. accounts.items
        ≡ map (λ thread. opened (core_of parts.now thread) thread.deadline) parts.now.threads) }
{
    let accounts = parts
        .threads
        .as_slice()
        .iter()
        .map(|thread| Account::new(parts.core_of_thread(thread), thread.deadline))
        .collect(alloc)?;
    Ok(accounts)
}

/// Each account is at its thread's number.
#[derive(Clone, Copy)]
struct Numbers {
    many: usize,
}

impl Stand for Numbers {
    ghost use Rattle.std.specs.Prelude.{nat_lt, if◌then◌else◌, Some, None};

    ghost place = { λ numbers thread. if nat_lt thread numbers.many then Some thread else None };

    #[inline(always)]
    fn place(&self, thread: ThreadId) -> Option<usize> {
        if thread.0 < self.many {
            Some(thread.0)
        } else {
            None
        }
    }
}

#[inline(always)]
fn tell_numbered(accounts: &mut [Account], horizon: Tick, moment: Tick, what: What)
    ensures { accounts.new ≡ told horizon moment what accounts.old }
{
    let numbers = Numbers {
        many: accounts.len(),
    };
    tell(accounts, &numbers, horizon, moment, what);
}

/// Adds rows in order. Returns the time of the last one, or `last` if there is none.
fn tell_all(accounts: &mut [Account], horizon: Tick, last: Tick, rows: &[Row]) -> Tick
    ensures { (cores : ℕ) →
        fold added (record { horizon = horizon; cores = cores; last = last; accounts = accounts.old }) rows.now
        ≡ record { horizon = horizon; cores = cores; last = result; accounts = accounts.new } }
{
    let mut moment = last;
    for row in rows {
        moment = row.moment;
        tell_numbered(accounts, horizon, moment, row.what);
    }
    moment
}

fn all_thread_reports(
    mut reports: Vec<ThreadReport>,
    accounts: &[Account],
    horizon: Tick,
) -> Vec<ThreadReport>
    requires empty { reports.items ≡ [] }
    requires room { length accounts.now ≤ vec_capacity reports }
    ensures { result.items ≡ map (report_at horizon) accounts.now }
{
    for account in accounts {
        let pushed = reports.push(account.report_at(horizon));
        prove!(pushed.is_ok());
    }
    reports
}

fn busy(accounts: &[Account], horizon: Tick, core: usize) -> u64
    ensures { result ≡ fold (λ sum ran. capped (sum + ran)) 0 (ran_by horizon accounts.now core) }
{
    accounts
        .iter()
        .filter(|account| account.core.0 == core)
        .map(|account| account.report_at(horizon).ran)
        .fold(0u64, |sum, ran| sum.saturating_add(ran))
}

#[tactic(auto, using(crate::proofs::Accounts::fold_capped))]
fn core_report(accounts: &[Account], horizon: Tick, core: usize) -> CoreReport
    ensures { result ≡ core_report_of horizon (ran_by horizon accounts.now core) }
{
    let busy = busy(accounts, horizon, core);
    CoreReport {
        busy,
        idle: horizon.get().saturating_sub(busy),
    }
}

fn all_core_reports(
    mut reports: Vec<CoreReport>,
    accounts: &[Account],
    horizon: Tick,
    cores: usize,
) -> Vec<CoreReport>
    requires empty { reports.items ≡ [] }
    requires room { cores ≤ vec_capacity reports }
    ensures { result.items
        ≡ map (λ c. core_report_of horizon (ran_by horizon accounts.now c)) (range_with_len 0 cores) }
{
    for core in 0..cores {
        let pushed = reports.push(core_report(accounts, horizon, core));
        prove!(pushed.is_ok());
    }
    reports
}

impl Tally {
    /// Returns the tally of a run up to the horizon, before the first row. `NoMemory` if an
    /// allocation failed.
    pub fn new(alloc: Global, system: &System, horizon: Tick) -> Result<Self, NoMemory>
        ensures { IfOk result (λ tally. tally ≡ opened_tally system.now horizon) }
    {
        let parts = system.parts();
        Ok(Tally {
            horizon,
            cores: parts.cores,
            last: Tick::ZERO,
            accounts: opened_accounts(alloc, parts)?,
            thread_reports: Vec::with_capacity(alloc, parts.threads.len())?,
            core_reports: Vec::with_capacity(alloc, parts.cores)?,
        })
    }

    /// Counts a further row, in constant time and without memory. A row of an unknown thread is not
    /// counted.
    #[inline(always)]
    pub fn add(&mut self, row: &Row)
        ensures { self.new ≡ added self.old row.now }
    {
        self.last = row.moment;
        tell_numbered(
            self.accounts.as_mut_slice(),
            self.horizon,
            row.moment,
            row.what,
        );
    }

    /// Counts rows in order, like `add`.
    pub fn add_all(&mut self, rows: &[Row])
        ensures { self.new ≡ fold added self.old rows.now }
    {
        let accounts = self.accounts.as_mut_slice();
        self.last = tell_all(accounts, self.horizon, self.last, rows);
    }

    /// Returns the reports of the rows that each core has counted separately, without taking
    /// memory. The account of each thread is that of its core's tally. This tally must have no
    /// rows: it was opened for its room when the run began.
    pub fn together(mut self, places: &Places, tallies: &[CoreTally]) -> Reports
        requires { self ≡ opened_tally places.now self.horizon }
        ensures { result ≡ finished (joined places.now self.horizon tallies.now) }
    {
        put_together(self.accounts.as_mut_slice(), places, tallies);
        self.finish()
    }

    /// Returns the reports of the rows that were added, without taking memory. Runs that were not
    /// stopped end at the horizon.
    pub fn finish(self) -> Reports
        ensures { result ≡ finished self }
    {
        let Tally {
            horizon,
            cores,
            accounts,
            thread_reports,
            core_reports,
            ..
        } = self;
        let accounts = accounts.as_slice();
        let threads = all_thread_reports(thread_reports, accounts, horizon);
        let cores = all_core_reports(core_reports, accounts, horizon, cores);
        Reports {
            threads: Sequence::new(threads),
            cores: Sequence::new(cores),
        }
    }
}

/// Counts each row that it is given, and refuses none.
impl Sink for Tally {
    ghost use Rattle.mcs_report.specs.Tally.{Counts};

    ghost takes = { Counts };

    #[inline(always)]
    fn row(&mut self, row: &Row) -> Result<(), Refused> {
        self.add(row);
        Ok(())
    }
}

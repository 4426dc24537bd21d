ghost use Rattle.std.specs.Prelude.{◌≡◌, ℕ, ◌<◌, List, [], ◌∷◌, length, IfOk};
ghost use Rattle.mcs_ticks.specs.declared.row.Row.{Row as TheRow};
ghost use Rattle.mcs_system.specs.System.{System as TheSystem};
ghost use Rattle.mcs_verdict.specs.Findings.{UpTo, InOrder, past_of};
ghost use Rattle.mcs_verdict.specs.Watch.{watch_of};
ghost use Rattle.mcs_why.specs.Account.{account_of};
ghost use Rattle.mcs_why.specs.Search.{trail_of};
ghost use Rattle.mcs_why.specs.Spans.{sought};

use crate::{Account, Search, Sought, Span};
use mcs_system::System;
use mcs_ticks::{NoMemory, Row, ThreadId, Tick};
use mcs_verdict::Watch;
use std::alloc::Global;

/// Takes one more row into the watch, and with its job into the search.
fn see(watch: &mut Watch, search: &mut Search, row: &Row)
    ensures watch { (system : TheSystem) (past : List TheRow) → watch.old ≡ watch_of system past → UpTo row.now.moment past →
        watch.new ≡ watch_of system (row.now ∷ past) }
    ensures search { (system : TheSystem) (thread number : ℕ) (past : List TheRow) → watch.old ≡ watch_of system past →
        search.old ≡ trail_of system thread number past → UpTo row.now.moment past →
        search.new ≡ trail_of system thread number (row.now ∷ past) }
{
    let job = watch.job(row);
    search.see(job, row);
    let _found = watch.see(row);
}

fn see_all(watch: &mut Watch, search: &mut Search, rows: &[Row])
    ensures { (system : TheSystem) (thread number : ℕ) (past : List TheRow) → watch.old ≡ watch_of system past →
        search.old ≡ trail_of system thread number past → InOrder past rows.now →
        (watch.new ≡ watch_of system (past_of past rows.now)) × (search.new ≡ trail_of system thread number (past_of past rows.now)) }
{
    for row in rows {
        see(watch, search, row);
    }
}

/// Returns the span of a round in a list of rows, those of a run of the system up to the horizon.
/// `NoMemory` if memory runs out.
pub fn find(
    alloc: Global,
    system: &System,
    thread: ThreadId,
    number: u64,
    horizon: Tick,
    rows: &[Row],
) -> Result<Sought, NoMemory>
    requires known { thread < length system.now.threads }
    requires in_order { InOrder [] rows.now }
    requires in_time { UpTo horizon (past_of [] rows.now) }
    ensures { IfOk result (λ there. there ≡ sought system.now horizon (past_of [] rows.now) thread number) }
{
    let mut watch = Watch::new(alloc, system)?;
    let mut search = Search::new(system, thread, number);
    see_all(&mut watch, &mut search, rows);
    Ok(search.sought(&watch, horizon))
}

fn tell_all(account: &mut Account, rows: &[Row])
    ensures { (threads core from to : ℕ) (past : List TheRow) → account.old ≡ account_of threads core from to past →
        InOrder past rows.now → account.new ≡ account_of threads core from to (past_of past rows.now) }
{
    for row in rows {
        let _shown = account.see(row);
    }
}

/// Returns who ran in a span, by a list of rows of a run of the system. `NoMemory` if memory runs
/// out.
pub fn tell(alloc: Global, system: &System, span: &Span, rows: &[Row]) -> Result<Account, NoMemory>
    requires { InOrder [] rows.now }
    ensures { IfOk result (λ account. account
        ≡ account_of (length system.now.threads) span.now.core span.now.from span.now.to (past_of [] rows.now)) }
{
    let mut account = Account::new(alloc, system, span)?;
    tell_all(&mut account, rows);
    Ok(account)
}

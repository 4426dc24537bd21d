ghost use Rattle.std.specs.Prelude.{◌≡◌, ℕ, List, [], ◌∷◌, length, IfOk};
ghost use Rattle.mcs_ticks.specs.declared.row.Row.{Row as TheRow};
ghost use Rattle.mcs_system.specs.System.{System as TheSystem};
ghost use Rattle.mcs_verdict.specs.Findings.{UpTo, InOrder, past_of};
ghost use Rattle.mcs_verdict.specs.Watch.{watch_of};
ghost use Rattle.mcs_table.specs.Table.{table_of};

use crate::Table;
use mcs_system::System;
use mcs_ticks::{NoMemory, Row, Tick};
use mcs_verdict::Watch;
use std::alloc::Global;

/// Takes one more row into the watch, and with the watch's results into the table.
fn see(watch: &mut Watch, table: &mut Table, row: &Row)
    ensures watch { (system : TheSystem) (past : List TheRow) → watch.old ≡ watch_of system past → UpTo row.now.moment past →
        watch.new ≡ watch_of system (row.now ∷ past) }
    ensures table { (system : TheSystem) (horizon : ℕ) (past : List TheRow) → watch.old ≡ watch_of system past →
        table.old ≡ table_of system horizon past → UpTo row.now.moment past →
        table.new ≡ table_of system horizon (row.now ∷ past) }
{
    let job = watch.job(row);
    let is_merged = watch.merges(row);
    let found = watch.see(row);
    table.see(job, found, is_merged, row);
}

fn see_all(watch: &mut Watch, table: &mut Table, rows: &[Row])
    ensures { (system : TheSystem) (horizon : ℕ) (past : List TheRow) → watch.old ≡ watch_of system past →
        table.old ≡ table_of system horizon past → InOrder past rows.now →
        (watch.new ≡ watch_of system (past_of past rows.now)) × (table.new ≡ table_of system horizon (past_of past rows.now)) }
{
    for row in rows {
        see(watch, table, row);
    }
}

/// Returns the watch and the table after a list of rows, in a run of the system up to the horizon.
/// `NoMemory` if memory runs out.
pub fn tabulate(
    alloc: Global,
    system: &System,
    horizon: Tick,
    rows: &[Row],
) -> Result<(Watch, Table), NoMemory>
    requires { InOrder [] rows.now }
    ensures watch { IfOk result (λ seen. seen.0 ≡ watch_of system.now (past_of [] rows.now)) }
    ensures table { IfOk result (λ seen. seen.1 ≡ table_of system.now horizon (past_of [] rows.now)) }
    ensures watched { IfOk result (λ seen. length seen.0.accounts ≡ length system.now.threads) }
    ensures kept { IfOk result (λ seen. length seen.1.accounts ≡ length system.now.threads) }
{
    let mut watch = Watch::new(alloc, system)?;
    let mut table = Table::new(alloc, system, horizon)?;
    see_all(&mut watch, &mut table, rows);
    Ok((watch, table))
}

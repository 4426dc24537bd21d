ghost use Rattle.std.specs.Prelude.{◌≡◌, ◌≢◌, ◌^◌, ◌≤◌, ℕ, length, get_or, None, is_some, replicate, IfOk, IfSome};
ghost use Rattle.std.specs.Arc.{arc_value};
ghost use Rattle.mcs_ever_search.specs.Repeats.{IsToldOf, AreTold};

use crate::{Sampling, Search};
use mcs_ever::CoreSet;
use mcs_ever_again::Shifts;
use mcs_system::System;
use mcs_ticks::{NoMemory, Tick};
use std::alloc::Global;
use std::sync::Arc;

/// How a group of cores recurs.
#[derive(Debug, Drop)]
pub struct Repeats {
    /// The time from which on it recurs.
    pub from: Tick,
    /// The lags of each core after a period. `by` is the period.
    pub shifts: Shifts,
}

/// Returns a list of `groups` missing recurrences. Fails only if memory runs out.
pub fn nothing_told(alloc: Global, groups: usize) -> Result<Vec<Option<Repeats>>, NoMemory>
    ensures { IfOk result (λ told. told.items ≡ replicate groups None) }
{
    let mut told = Vec::with_capacity(alloc, groups)?;
    for _ in 0..groups {
        told.push(None)?;
    }
    Ok(told)
}

/// The recurrence of a group that the present moment shows, if there is one.
fn told_now(alloc: Global, compared: &Search, group: &CoreSet) -> Result<Option<Repeats>, NoMemory>
    ensures told { IfOk result (IsToldOf compared.now.system compared.now.horizon group.now) }
    ensures from { IfOk result (λ told. IfSome told (λ repeats. repeats.from ≡ compared.now.kept)) }
{
    let _in_time = compared.clock();
    let Some(shifts) = compared.recurs(alloc, group)? else {
        return Ok(None);
    };
    Ok(Some(Repeats {
        from: compared.kept(),
        shifts,
    }))
}

fn is_told(told: &Option<Repeats>) -> bool
    ensures { result ≡ is_some told.now }
{
    told.is_some()
}

/// Compares each group without a recurrence with its state before the kept moment. Recurrences that
/// are in the list already are kept. Fails only if memory runs out, or ran out in a turn before.
pub fn compare(
    alloc: Global,
    compared: &Search,
    groups: &[CoreSet],
    told: &mut [Option<Repeats>],
) -> Result<(), NoMemory>
    requires { length told.old ≡ length groups.now }
    ensures told { AreTold compared.now.system compared.now.horizon groups.now told.old →
        AreTold compared.now.system compared.now.horizon groups.now told.new }
    ensures stays { (i : ℕ) → get_or told.old i None ≢ None → get_or told.new i None ≡ get_or told.old i None }
    ensures from { (i : ℕ) → get_or told.old i None ≡ None →
        IfSome (get_or told.new i None) (λ repeats. repeats.from ≡ compared.now.kept) }
{
    for i in 0..groups.len() {
        if is_told(&told[i]) {
            continue;
        }
        let now = told_now(alloc, compared, &groups[i])?;
        told[i] = now;
    }
    Ok(())
}

/// Whether some group has no recurrence yet.
fn is_any_left(told: &[Option<Repeats>]) -> bool {
    for repeats in told {
        if !is_told(repeats) {
            return true;
        }
    }
    false
}

/// Returns for each group a recurrence, or `None` if the search found none by the horizon, at most
/// 2^40. The recurrence is true of a group that no core outside it signals. Fails only if memory
/// runs out.
pub fn find_repeats(
    alloc: Global,
    system: Arc<System>,
    groups: &[CoreSet],
    horizon: Tick,
) -> Result<Vec<Option<Repeats>>, NoMemory>
    requires { horizon ≤ 2 ^ 40 }
    ensures { IfOk result (λ told. AreTold (arc_value system) horizon groups.now told.items) }
{
    let mut told = nothing_told(alloc, groups.len())?;
    let mut compared = Search::new(alloc, system, horizon)?;
    let mut sampling = Sampling::new();
    let mut rows = Vec::new(alloc);
    while compared.clock() <= horizon && is_any_left(told.as_slice()) {
        sampling.go_on(alloc, &mut compared, &mut rows)?;
        rows.clear();
        compared.settle();
        compare(alloc, &compared, groups, told.as_mut_slice())?;
    }
    Ok(told)
}

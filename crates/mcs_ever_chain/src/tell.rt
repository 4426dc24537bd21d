//! The search for the recurrences of all chains.
ghost use Rattle.std.specs.Prelude.{◌≡◌, ◌≤◌, ◌<◌, ◌^◌, ◌+◌, ◌-◌, ℕ, false, None, Some, length, get_or, slice_get, IfOk, IfSome, IsSome, OnOk};
ghost use Rattle.std.specs.Arc.{arc_value};
ghost use Rattle.mcs_system.specs.System.{System as TheSystem};
ghost use Rattle.mcs_system.specs.declared.part.ChainPart.{ChainPart as TheChain};
ghost use Rattle.mcs_ever_search.specs.Together.{rows_at, rows_before};
ghost use Rattle.mcs_ever_chain.specs.Sets.{SetsRecur};
ghost use Rattle.mcs_ever_chain.specs.Told.{AreChainsTold, IsToldOfChain};
ghost use Rattle.mcs_ever_chain.specs.stored.Looks.{AreLooks, AreResults, IsHome, IsResult};
ghost use Rattle.mcs_ever_chain.specs.stored.Runs.{IsRun};

use crate::home::{Home, home_of};
use crate::look::{Look, told_so_far};
use crate::run::Run;
use crate::told::ChainTold;
use mcs_chain::ChainId;
use mcs_ever_told::Told;
use mcs_system::System;
use mcs_ticks::{NoMemory, Row, Tick};
use std::alloc::Global;
use std::sync::Arc;

/// Appends a look at the chain, if there is a set for it.
fn push_look(looks: &mut Vec<Look>, chain: ChainId, home: Option<Home>) -> Result<(), NoMemory>
    ensures { (system : TheSystem) (part : TheChain) → slice_get system.chains chain ≡ Some part → IfSome home (IsHome system part) →
        AreLooks system 0 0 looks.old.items → OnOk result (AreLooks system 0 0 looks.new.items) }
{
    let Some(home) = home else {
        return Ok(());
    };
    looks.push(Look::new(chain, home))?;
    Ok(())
}

/// Returns a look at each chain that begins and ends on a set of cores that recurs.
fn looks_of(alloc: Global, system: &System, told: &[Told]) -> Result<Vec<Look>, NoMemory>
    requires { SetsRecur system.now told.now }
    ensures { IfOk result (λ looks. AreLooks system.now 0 0 looks.items) }
{
    let parts = system.parts();
    let mut looks = Vec::new(alloc);
    for chain in 0..parts.chains.len() {
        let home = home_of(parts, told, &parts.chains.as_slice()[chain]);
        push_look(&mut looks, ChainId(chain), home)?;
    }
    Ok(looks)
}

/// Whether some chain has no result yet.
fn is_any_left(told: &[Option<ChainTold>]) -> bool
    ensures { result ≡ false → (n : ℕ) → n < length told.now → IsSome (get_or told.now n None) }
{
    told.iter().any(|one| one.is_none())
}

/// The number of the chain.
fn number_of(told: &ChainTold) -> usize
    ensures { result ≡ told.now.chain }
{
    told.chain.0
}

/// Keeps the result of a chain, if there is one.
fn keep(told: &mut [Option<ChainTold>], found: Option<ChainTold>)
    ensures { (system : TheSystem) (horizon : ℕ) → IfSome found (IsToldOfChain system horizon) → AreResults system horizon told.old →
        AreResults system horizon told.new }
{
    let Some(one) = &found else {
        return;
    };
    let number = number_of(one);
    if number >= told.len() {
        return;
    }
    told[number] = found;
}

/// Looks at each chain before the turns of this moment, and sets the result of each that recurs.
fn look_at_all(
    alloc: Global,
    system: &System,
    run: &Run,
    from: Tick,
    looks: &mut [Look],
    told: &mut [Option<ChainTold>],
) -> Result<(), NoMemory>
    requires run { IsRun system.now run.now }
    requires looks { AreLooks system.now from (from - 1) looks.old }
    requires later { from ≤ run.now.lockstep.clock }
    requires no_rows { rows_before system.now run.now.lockstep.clock ≡ rows_before system.now from }
    requires told { AreResults system.now run.now.lockstep.horizon told.old }
    ensures looks { OnOk result (AreLooks system.now run.now.lockstep.clock run.now.lockstep.clock looks.new) }
    ensures told { OnOk result (AreResults system.now run.now.lockstep.horizon told.new) }
{
    for i in 0..looks.len() {
        let found = looks[i].go_on(alloc, system, run, from)?;
        keep(told, found);
    }
    Ok(())
}

fn see_all(looks: &mut [Look], rows: &[Row])
    ensures { (system : TheSystem) (t : ℕ) → rows.now ≡ rows_at system t → AreLooks system t t looks.old → AreLooks system (t + 1) t looks.new }
{
    for i in 0..looks.len() {
        looks[i].see(rows);
    }
}

/// Moves to the next moment at which something happens, and takes its turns.
fn step(
    alloc: Global,
    system: &System,
    run: &mut Run,
    horizon: Tick,
    looks: &mut [Look],
    told: &mut [Option<ChainTold>],
) -> Result<(), NoMemory>
    requires run { IsRun system.now run.old }
    requires horizon { run.old.lockstep.horizon ≡ horizon }
    requires in_time { run.old.lockstep.clock ≤ run.old.lockstep.horizon }
    requires looks { AreLooks system.now run.old.lockstep.clock (run.old.lockstep.clock - 1) looks.old }
    requires told { AreResults system.now run.old.lockstep.horizon told.old }
    ensures run { OnOk result (IsRun system.now run.new) }
    ensures horizon { OnOk result (run.new.lockstep.horizon ≡ run.old.lockstep.horizon) }
    ensures later { OnOk result (run.old.lockstep.clock < run.new.lockstep.clock) }
    ensures looks { OnOk result (AreLooks system.now run.new.lockstep.clock (run.new.lockstep.clock - 1) looks.new) }
    ensures told { OnOk result (AreResults system.now run.new.lockstep.horizon told.new) }
{
    let from = run.clock();
    let moment = run.skip()?;
    look_at_all(alloc, system, run, from, looks, told)?;
    if moment > horizon {
        return Ok(());
    }
    run.turn(alloc, system)?;
    see_all(looks, run.rows.as_slice());
    Ok(())
}

/// Returns the result of a chain, or that at the horizon if it was not found to recur.
fn told_or_so_far(system: &System, run: &Run, chain: ChainId, told: &Option<ChainTold>) -> ChainTold
    requires run { IsRun system.now run.now }
    requires known { chain < length system.now.chains }
    requires told { IfSome told.now (IsResult system.now run.now.lockstep.horizon chain) }
    requires over { told.now ≡ None → run.now.lockstep.clock ≡ run.now.lockstep.horizon + 1 }
    ensures { IsResult system.now run.now.lockstep.horizon chain result }
{
    match *told {
        Some(one) => one,
        None => told_so_far(system, run, chain),
    }
}

/// Returns the result of each chain; of one that was not found to recur, that at the horizon.
fn all_told(
    alloc: Global,
    system: &System,
    run: &Run,
    told: &[Option<ChainTold>],
) -> Result<Vec<ChainTold>, NoMemory>
    requires run { IsRun system.now run.now }
    requires told { AreResults system.now run.now.lockstep.horizon told.now }
    requires over { (n : ℕ) → n < length told.now → get_or told.now n None ≡ None → run.now.lockstep.clock ≡ run.now.lockstep.horizon + 1 }
    ensures { IfOk result (λ all. AreChainsTold system.now run.now.lockstep.horizon all.items) }
{
    let mut all = Vec::with_capacity(alloc, told.len())?;
    for i in 0..told.len() {
        all.push(told_or_so_far(system, run, ChainId(i), &told[i]))?;
    }
    Ok(all)
}

/// Tells each chain by a run from time 0 on.
fn tell_by(
    alloc: Global,
    system: &System,
    mut run: Run,
    told: &[Told],
    horizon: Tick,
) -> Result<Vec<ChainTold>, NoMemory>
    requires run { IsRun system.now run }
    requires start { run.lockstep.clock ≡ 0 }
    requires horizon { run.lockstep.horizon ≡ horizon }
    requires told { SetsRecur system.now told.now }
    ensures { IfOk result (λ all. AreChainsTold system.now horizon all.items) }
{
    let mut looks = looks_of(alloc, system, told)?;
    let chains = system.parts().chains.len();
    let mut results = vec![in alloc; None; chains]?;
    while run.clock().get() <= horizon.get() && is_any_left(results.as_slice()) {
        step(
            alloc,
            system,
            &mut run,
            horizon,
            looks.as_mut_slice(),
            results.as_mut_slice(),
        )?;
    }
    all_told(alloc, system, &run, results.as_slice())
}

/// Returns the result of each chain of a system, in the order of the file, by the results of its
/// sets of cores: from when on its answers recur, with which period, and what they are. The result
/// of a chain that was not found to recur is that at the horizon. Fails only if memory runs out.
pub fn tell_chains(
    alloc: Global,
    system: Arc<System>,
    told: &[Told],
    horizon: Tick,
) -> Result<Vec<ChainTold>, NoMemory>
    requires in_range { horizon ≤ 2 ^ 40 }
    requires told { SetsRecur (arc_value system) told.now }
    ensures { IfOk result (λ all. AreChainsTold (arc_value system) horizon all.items) }
{
    let run = Run::new(alloc, &system, horizon)?;
    tell_by(alloc, &system, run, told, horizon)
}

ghost use Rattle.std.specs.Prelude.{◌≡◌, ◌≤◌, ◌++◌, length, max, IfOk, IfSome};
ghost use Rattle.std.specs.List.{All, filter_map};
ghost use Rattle.mcs_control.specs.Control.{IsConfig};
ghost use Rattle.mcs_hints.specs.Numbers.{numbers};
ghost use Rattle.mcs_hints.specs.Contexts.{part_where};
ghost use Rattle.mcs_hints.specs.Cores.{granted, is_used, overcommitted, parts_of, unused};
ghost use Rattle.mcs_hints.specs.Exact.{IsFraction};
ghost use Rattle.mcs_hints.specs.stored.Marks.{bounds_of, shares_of};

use crate::Hint;
use crate::exact::{Fraction, is_above_one};
use crate::keep::keep;
use mcs_control::{Config, Kind};
use mcs_system::{System, SystemParts};
use mcs_ticks::{CoreId, NoMemory};
use std::alloc::Global;

/// Millionths that an overcommitted core grants at least: one more than all of its time.
const ABOVE: u64 = 1_000_001;

/// Whether a thread is bound to a context of the core.
fn is_used(parts: &SystemParts, core: CoreId) -> bool
    ensures { result ≡ is_used parts.now core }
{
    parts
        .threads
        .as_slice()
        .iter()
        .any(|part| parts.core_of_thread(part) == core)
}

fn unused(parts: &SystemParts, core: CoreId) -> Option<Hint>
    ensures { result ≡ unused parts.now core }
{
    if is_used(parts, core) {
        None
    } else {
        Some(Hint::Unused { core })
    }
}

pub(crate) fn keep_unused(hints: &mut Vec<Hint>, parts: &SystemParts) -> Result<(), NoMemory>
    ensures { IfOk result (λ _. hints.new.items ≡ hints.old.items ++ filter_map (unused parts.now) (numbers parts.now.cores)) }
{
    for core in 0..parts.cores {
        keep(hints, unused(parts, CoreId(core)))?;
    }
    Ok(())
}

fn granted(system: &System, shares: &[u64], core: CoreId) -> u64
    requires { shares.now ≡ shares_of system.now }
    ensures { result ≡ granted system.now core }
{
    let mut granted = 0;
    for (context, part) in system.parts().contexts.as_slice().iter().enumerate() {
        if part.core == core {
            granted += shares[context];
        }
    }
    granted
}

fn part(config: Config, bound: bool) -> Option<Fraction>
    requires { IsConfig config }
    ensures part { result ≡ part_where bound config }
    ensures fraction { IfSome result IsFraction }
{
    if !bound {
        return None;
    }
    match config.kind() {
        Kind::RoundRobin => None,
        Kind::Sporadic => Some(Fraction {
            numerator: config.budget,
            denominator: config.period,
        }),
    }
}

/// Returns the exact utilisation of each context of the core that has one.
fn parts_of(
    alloc: Global,
    system: &System,
    bounds: &[bool],
    core: CoreId,
) -> Result<Vec<Fraction>, NoMemory>
    requires { bounds.now ≡ bounds_of (length system.now.contexts) system.now.threads }
    ensures parts { IfOk result (λ parts. parts.items ≡ parts_of system.now core) }
    ensures fractions { IfOk result (λ parts. All IsFraction parts.items) }
    ensures few { IfOk result (λ parts. length parts.items ≤ 4096) }
{
    let mut parts = Vec::new(alloc);
    for (context, context_part) in system.parts().contexts.as_slice().iter().enumerate() {
        let uses = context_part.core == core && bounds[context];
        if let Some(part) = part(context_part.config, uses) {
            parts.push(part)?;
        }
    }
    Ok(parts)
}

fn overcommitted(
    alloc: Global,
    system: &System,
    bounds: &[bool],
    shares: &[u64],
    core: CoreId,
) -> Result<Option<Hint>, NoMemory>
    requires bounds { bounds.now ≡ bounds_of (length system.now.contexts) system.now.threads }
    requires shares { shares.now ≡ shares_of system.now }
    ensures { IfOk result (λ hint. hint ≡ overcommitted system.now core) }
{
    let mut parts = parts_of(alloc, system, bounds, core)?;
    if is_above_one(parts.as_mut_slice()) {
        let millionths = granted(system, shares, core).max(ABOVE);
        Ok(Some(Hint::Overcommitted { core, millionths }))
    } else {
        Ok(None)
    }
}

pub(crate) fn keep_overcommitted(
    alloc: Global,
    hints: &mut Vec<Hint>,
    system: &System,
    bounds: &[bool],
    shares: &[u64],
) -> Result<(), NoMemory>
    requires bounds { bounds.now ≡ bounds_of (length system.now.contexts) system.now.threads }
    requires shares { shares.now ≡ shares_of system.now }
    ensures { IfOk result (λ _. hints.new.items ≡ hints.old.items ++ filter_map (overcommitted system.now) (numbers system.now.cores)) }
{
    for core in 0..system.parts().cores {
        let hint = overcommitted(alloc, system, bounds, shares, CoreId(core))?;
        keep(hints, hint)?;
    }
    Ok(())
}

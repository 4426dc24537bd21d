ghost use Rattle.std.specs.Prelude.{◌≡◌, length, IfOk};
ghost use Rattle.mcs_control.specs.Control.{IsConfig};
ghost use Rattle.mcs_hints.specs.Contexts.{share, share_where};
ghost use Rattle.mcs_hints.specs.stored.Marks.{bounds_of, shares_of};

use mcs_control::{Config, Kind};
use mcs_system::System;
use mcs_ticks::NoMemory;
use std::alloc::Global;

/// The whole time of a core, in millionths (ppm).
const WHOLE: u64 = 1_000_000;

fn share(config: Config) -> u64
    requires { IsConfig config }
    ensures { result ≡ share config }
{
    match config.kind() {
        Kind::RoundRobin => 0,
        Kind::Sporadic => config.budget * WHOLE / config.period,
    }
}

fn share_of(config: Config, bound: bool) -> u64
    requires { IsConfig config }
    ensures { result ≡ share_where bound config }
{
    if bound { share(config) } else { 0 }
}

/// Returns the utilisation of each context, computed once for all cores.
pub(crate) fn shares(alloc: Global, system: &System, bounds: &[bool]) -> Result<Vec<u64>, NoMemory>
    requires { bounds.now ≡ bounds_of (length system.now.contexts) system.now.threads }
    ensures { IfOk result (λ shares. shares.items ≡ shares_of system.now) }
{
    let mut shares = Vec::new(alloc);
    for (context, part) in system.parts().contexts.as_slice().iter().enumerate() {
        shares.push(share_of(part.config, bounds[context]))?;
    }
    Ok(shares)
}

ghost use Rattle.std.specs.Prelude.{◌≡◌, ◌<◌, true, false, map, IfOk};
ghost use Rattle.mcs_core.specs.Clock.{core_shown, world};
ghost use Rattle.mcs_laws.specs.Turns.{cores};
ghost use Rattle.mcs_ever_again.specs.Snapshot.{IsOfClock};

use crate::lockstep::Lockstep;
use mcs_ever_again::{CoreImage, Present, Snapshot, UnderWay};
use mcs_system::System;
use mcs_ticks::{CoreId, NoMemory};
use std::alloc::Global;

fn image(
    alloc: Global,
    system: &System,
    lockstep: &Lockstep,
    core: CoreId,
) -> Result<CoreImage, NoMemory>
    requires known { core < system.now.cores }
    requires same { lockstep.now.system ≡ system.now }
    requires going { lockstep.now.failed ≡ false }
    requires settled { lockstep.now.settled ≡ true }
    ensures { IfOk result (λ image. image ≡ core_shown system.now (world system.now lockstep.now.clock) core) }
{
    let image = CoreImage::new(alloc, system, lockstep.state(core))?;
    Ok(image)
}

/// Returns the images of all cores, by their numbers.
fn images(alloc: Global, system: &System, lockstep: &Lockstep) -> Result<Vec<CoreImage>, NoMemory>
    requires same { lockstep.now.system ≡ system.now }
    requires going { lockstep.now.failed ≡ false }
    requires settled { lockstep.now.settled ≡ true }
    ensures { IfOk result (λ images.
        images.items ≡ map (core_shown system.now (world system.now lockstep.now.clock)) (cores system.now)) }
{
    let count = system.parts().cores;
    let mut images = Vec::with_capacity(alloc, count)?;
    for core in 0..count {
        images.push(image(alloc, system, lockstep, CoreId(core))?)?;
    }
    Ok(images)
}

/// Returns the images of all cores, beside the signals under way.
pub(crate) fn present<'a>(
    alloc: Global,
    system: &System,
    lockstep: &Lockstep,
    under_way: &'a UnderWay,
) -> Result<Present<'a>, NoMemory>
    requires same { lockstep.now.system ≡ system.now }
    requires going { lockstep.now.failed ≡ false }
    requires settled { lockstep.now.settled ≡ true }
    requires mails { under_way.now ≡ (world system.now lockstep.now.clock).mails }
    ensures clock { IfOk result (IsOfClock system.now) }
    ensures moment { IfOk result (λ present. present.moment ≡ lockstep.now.clock) }
{
    let cores = images(alloc, system, lockstep)?;
    Ok(Present::new(lockstep.clock(), cores, under_way))
}

/// Returns the images of all cores and a copy of the signals under way.
pub(crate) fn snapshot(
    alloc: Global,
    system: &System,
    lockstep: &Lockstep,
    under_way: &UnderWay,
) -> Result<Snapshot, NoMemory>
    requires same { lockstep.now.system ≡ system.now }
    requires going { lockstep.now.failed ≡ false }
    requires settled { lockstep.now.settled ≡ true }
    requires mails { under_way.now ≡ (world system.now lockstep.now.clock).mails }
    ensures clock { IfOk result (IsOfClock system.now) }
    ensures moment { IfOk result (λ snapshot. snapshot.moment ≡ lockstep.now.clock) }
{
    let cores = images(alloc, system, lockstep)?;
    let mails = under_way.copied(alloc)?;
    Ok(Snapshot::new(lockstep.clock(), cores, mails))
}

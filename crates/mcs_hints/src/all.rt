ghost use Rattle.std.specs.Prelude.{◌≡◌, IfOk};
ghost use Rattle.mcs_hints.specs.Hints.{hints_of};

use crate::Hint;
use crate::ceilings::keep_inverted;
use crate::chains::keep_unreached;
use crate::contexts::{bind_contexts, keep_unbound};
use crate::cores::{keep_overcommitted, keep_unused};
use crate::handlers::{keep_unheard, keep_unread, taken_badges};
use crate::keep::keep;
use crate::notes::{keep_unsignalled, mark_notes};
use crate::shares::shares;
use crate::whole::nothing_to_judge;
use mcs_system::System;
use mcs_ticks::NoMemory;
use std::alloc::Global;

/// Returns the hints of a system, for any horizon: first that of the whole file, then those of
/// notifications, sources, threads, chains, contexts and cores, each by number. Fails with
/// `NoMemory` if memory runs out.
///
/// Takes time linear in the items of the scripts, and in the threads and contexts for each core,
/// unless a core's exact utilisation is 1. Each chain takes as many passes through all scripts as
/// its way has signals to a thread that stands earlier in the file, and two more.
pub fn hints(alloc: Global, system: &System) -> Result<Vec<Hint>, NoMemory>
    ensures { IfOk result (λ hints. hints.items ≡ hints_of system.now) }
{
    let parts = system.parts();
    let marks = mark_notes(alloc, parts)?;
    let taken = taken_badges(alloc, parts)?;
    let bounds = bind_contexts(alloc, parts)?;
    let shares = shares(alloc, system, bounds.as_slice())?;
    let mut hints = Vec::new(alloc);
    keep(&mut hints, nothing_to_judge(parts))?;
    keep_unsignalled(&mut hints, marks.as_slice())?;
    keep_unread(&mut hints, system, taken.as_slice())?;
    keep_unheard(&mut hints, system, taken.as_slice())?;
    keep_inverted(&mut hints, system)?;
    keep_unreached(alloc, &mut hints, system)?;
    keep_unbound(&mut hints, bounds.as_slice())?;
    keep_unused(&mut hints, parts)?;
    keep_overcommitted(
        alloc,
        &mut hints,
        system,
        bounds.as_slice(),
        shares.as_slice(),
    )?;
    Ok(hints)
}

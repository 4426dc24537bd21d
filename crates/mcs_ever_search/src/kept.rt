ghost use Rattle.std.specs.Prelude.{◌≡◌, true, false, IfOk};
ghost use Rattle.mcs_core.specs.Clock.{world};
ghost use Rattle.mcs_ever_found.specs.Recurs.{past_before, watch_before};
ghost use Rattle.mcs_ever_found.specs.Course.{course_of};
ghost use Rattle.mcs_ever_search.specs.stored.Kept.{IsKeptOf};

use crate::gaps::Gaps;
use crate::heads::Heads;
use crate::lockstep::Lockstep;
use crate::seen::Seen;
use crate::snapshot::snapshot;
use crate::stances::Stances;
use mcs_ever_again::Snapshot;
use mcs_ever_found::Course;
use mcs_system::System;
use mcs_ticks::NoMemory;
use mcs_verdict::Watch;
use std::alloc::Global;

/// A kept moment, with which later ones are compared: the cores, the watch and the counts before
/// it.
#[derive(Drop)]
pub(crate) struct Kept {
    pub(crate) snapshot: Snapshot,
    pub(crate) gaps: Gaps,
    pub(crate) heads: Heads,
    pub(crate) stances: Stances,
    pub(crate) watch: Watch,
    pub(crate) course: Course,
}

impl Kept {
    /// Returns the present moment, to be kept.
    pub(crate) fn new(
        alloc: Global,
        system: &System,
        lockstep: &Lockstep,
        seen: &Seen,
    ) -> Result<Self, NoMemory>
        requires same { lockstep.now.system ≡ system.now }
        requires going { lockstep.now.failed ≡ false }
        requires settled { lockstep.now.settled ≡ true }
        requires mails { seen.now.under_way ≡ (world system.now lockstep.now.clock).mails }
        requires watch { seen.now.watch ≡ watch_before system.now lockstep.now.clock }
        requires course { seen.now.course ≡ course_of system.now (past_before system.now lockstep.now.clock) }
        ensures kept { IfOk result (IsKeptOf system.now) }
        ensures moment { IfOk result (λ kept. kept.snapshot.moment ≡ lockstep.now.clock) }
    {
        Ok(Kept {
            snapshot: snapshot(alloc, system, lockstep, &seen.under_way)?,
            gaps: Gaps::new(alloc, system, lockstep)?,
            heads: Heads::new(alloc, system, lockstep)?,
            stances: Stances::new(alloc, system, lockstep)?,
            watch: seen.watch.copy(alloc)?,
            course: seen.course.copy(alloc)?,
        })
    }
}

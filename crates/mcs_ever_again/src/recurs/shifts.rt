ghost use Rattle.std.specs.Prelude.{IfOk, IfSome};
ghost use Rattle.mcs_ever_again.specs.Period.{AreOfRun, RecursBetween};

use crate::image::Lags;
use crate::recurs::lags::group_lags;
use crate::recurs::marked::marked_keep_up;
use crate::recurs::present::Present;
use crate::recurs::snapshot::Snapshot;
use crate::recurs::sources::sources_are_later;
use mcs_ever::{CoreSet, Marks, marks_tell, rows_are_of_own};
use mcs_system::System;
use mcs_ticks::NoMemory;
use std::alloc::Global;

/// How much later the cores of a group are at one moment than at another.
#[derive(Debug, Drop)]
pub struct Shifts {
    /// The ticks by which all of it is later, at least 1: the period.
    pub by: u64,
    /// For each core of the group the lags of its contexts and threads; `None` for the other cores.
    pub lags: Vec<Option<Lags>>,
}

impl Shifts {
    /// Returns how much later a group of cores is, if it recurs between two moments.
    ///
    /// The state before the later moment is compared with that before the earlier one. The group
    /// recurs if:
    /// - each of its cores and the signals under way to it are the same, but later;
    /// - so are the next dates of the sources that interrupt on its cores;
    /// - each date that is marked as compared with the current time in between is later by the
    ///   whole period.
    ///
    /// All that it does then recurs for ever, and the time between is its period. This holds for
    /// states of the clock on three conditions:
    /// - no core outside the group signals one in it;
    /// - each order of the system comes before the earlier moment;
    /// - the marks are those of the rows in between.
    ///
    /// Returns `None` if the group differs, or if the second moment is not later. Fails only if
    /// memory runs out.
    pub fn between(
        alloc: Global,
        system: &System,
        group: &CoreSet,
        before: &Snapshot,
        after: &Present<'_>,
        marks: &Marks,
    ) -> Result<Option<Self>, NoMemory>
        ensures { AreOfRun system.now group.now before.now after.now marks.now →
            IfOk result (λ found. IfSome found (λ shifts. RecursBetween system.now group.now before.now after.now shifts)) }
    {
        rows_are_of_own();
        marks_tell();
        let _parts = system.parts();
        let from = before.moment().get();
        let past = after.moment().get();
        if past <= from {
            return Ok(None);
        }
        let by = past - from;
        if !sources_are_later(system, group, from, by) {
            return Ok(None);
        }
        let Some(lags) = group_lags(alloc, system, group, by, before.cores(), after.cores())? else {
            return Ok(None);
        };
        if !marked_keep_up(system, group, by, lags.as_slice(), marks) {
            return Ok(None);
        }
        // the signals come last: they may be many
        if !after
            .under_way()
            .is_later(system, group, by, before.under_way())
        {
            return Ok(None);
        }
        Ok(Some(Shifts { by, lags }))
    }
}

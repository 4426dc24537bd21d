//! The questions that a check asks a search about one set of cores at one moment.
ghost use Rattle.std.specs.Prelude.{◌≡◌, ◌+◌, ◌-◌, List, IfOk, IsTrue};
ghost use Rattle.mcs_ticks.specs.declared.row.What.{What as TheWhat};
ghost use Rattle.mcs_ever.specs.Recurs.{Shifts as TheShifts, Recurs};
ghost use Rattle.mcs_ever.specs.Closed.{has};
ghost use Rattle.mcs_ever_found.specs.Recurs.{FindingsRecur};
ghost use Rattle.mcs_ever_found.specs.Doings.{doings_of};
ghost use Rattle.mcs_ever_told.specs.stored.Looks.{IsLook};

use crate::outlook::sets::Group;
use mcs_ever_again::rows_tell_turns;
use mcs_ever_found::{Doings, findings_recur};
use mcs_ever_search::Search;
use mcs_system::System;
use mcs_ticks::{NoMemory, ThreadId, Tick};
use std::alloc::Global;

/// A search at one moment, and the notifications that may lose signals.
#[derive(Clone, Copy)]
pub(crate) struct Look<'s> {
    pub(crate) system: &'s System,
    pub(crate) search: &'s Search,
    pub(crate) allowed: &'s [bool],
}

/// The tick before; 0 at time 0.
pub(crate) fn before(moment: Tick) -> Tick
    ensures { result ≡ moment - 1 }
{
    Tick::new(moment.get().saturating_sub(1)).unwrap()
}

/// Returns for each thread whether it ended a round.
pub(crate) fn ended_flags(
    alloc: Global,
    system: &System,
    doings: &Doings,
) -> Result<Vec<bool>, NoMemory>
    ensures { (rows : List TheWhat) → doings.now ≡ doings_of system.now rows → IfOk result (λ flags. flags.items ≡ doings.now.ended) }
{
    let mut flags = Vec::new(alloc);
    for thread in 0..system.parts().threads.len() {
        flags.push(doings.ends_round(ThreadId(thread)))?;
    }
    Ok(flags)
}

/// Whether a set that recurs since the kept moment also recurs in its findings.
pub(crate) fn finds_again(look: &Look<'_>, group: &Group, by: u64) -> bool
    requires { IsLook look.now.system.now look.now.search.now }
    ensures { IsTrue result → (shifts : TheShifts) → shifts.by ≡ by → look.now.search.now.kept + by ≡ look.now.search.now.clock →
        Recurs look.now.system.now (has group.now.set) shifts look.now.search.now.kept →
        FindingsRecur look.now.system.now (has group.now.set) shifts look.now.search.now.kept }
{
    let _parts = look.system.parts();
    rows_tell_turns();
    let search = look.search;
    findings_recur(
        look.system,
        &group.set,
        search.kept(),
        by,
        search.kept_watch(),
        search.watch(),
        search.doings(),
    )
}

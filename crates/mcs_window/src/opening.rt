ghost use Rattle.std.specs.Prelude.{IfOk};
ghost use Rattle.mcs_window.specs.stored.Opening.{AreOpening, AreDelays, AreEmptyBoxes, AreEmptyRows};

use mcs_core::CoreState;
use mcs_mail::Mailbox;
use mcs_system::System;
use mcs_ticks::{CoreId, Limits, NoMemory, Row};
use std::alloc::Global;

pub(crate) fn opening_states(alloc: Global, system: &System) -> Result<Vec<CoreState>, NoMemory>
    ensures { IfOk result (λ states. AreOpening system.now system.now.cores states.items) }
{
    let cores = system.parts().cores;
    let mut states = Vec::with_capacity(alloc, cores)?;
    for core in 0..cores {
        let state = CoreState::new(alloc, system, CoreId(core))?;
        states.push(state)?;
    }
    Ok(states)
}

/// Returns the delays of the signals to each core, by their makers.
pub(crate) fn delay_rows(
    alloc: Global,
    system: &System,
) -> Result<Vec<[u64; Limits::CORES]>, NoMemory>
    ensures { IfOk result (λ rows. AreDelays system.now system.now.cores rows.items) }
{
    let cores = system.parts().cores;
    let mut rows = Vec::with_capacity(alloc, cores)?;
    for core in 0..cores {
        rows.push(system.delays_to(CoreId(core)))?;
    }
    Ok(rows)
}

pub(crate) fn empty_boxes(alloc: Global, cores: usize) -> Result<Vec<Mailbox>, NoMemory>
    ensures { IfOk result (λ boxes. AreEmptyBoxes cores boxes.items) }
{
    let mut boxes = Vec::with_capacity(alloc, cores)?;
    for _ in 0..cores {
        boxes.push(Mailbox::new(alloc))?;
    }
    Ok(boxes)
}

pub(crate) fn empty_rows(alloc: Global, cores: usize) -> Result<Vec<Vec<Row>>, NoMemory>
    ensures { IfOk result (λ rows. AreEmptyRows cores rows.items) }
{
    let mut rows = Vec::with_capacity(alloc, cores)?;
    for _ in 0..cores {
        rows.push(Vec::new(alloc))?;
    }
    Ok(rows)
}

//! Whether the cores of a system go in step on one thread, by their number and their delays.
use mcs_script::Item;
use mcs_system::{System, SystemParts, ThreadPart};
use mcs_ticks::CoreId;

/// Fewest cores that go in step. For fewer cores windows cost less.
const TOGETHER: usize = 8;

/// Most ticks of delay for each core at which cores go in step if their rows are written. If delays
/// are longer, a core runs ahead for so long that windows cost less.
const CLOSE: u64 = 2;

/// Fewest cores for each tick of delay at which cores go in step if their rows are only counted.
/// Counted rows need no merge, so windows cost less already if delays are half a tick a core.
const CORES_A_TICK: u64 = 2;

/// The minimum delay in ticks.
pub(crate) fn least_delay(parts: &SystemParts) -> u64 {
    let mut delay = parts.delay;
    for link in parts.links.as_slice() {
        delay = delay.min(link.delay);
    }
    delay
}

/// Whether an item signals a notification of another core than this one.
fn signals_out(system: &System, core: CoreId, item: &Option<Item>) -> bool {
    match item {
        Some(Item::Signal(note, _)) => system.home_of(*note) != core,
        _ => false,
    }
}

/// Whether a thread signals another core.
fn thread_signals_out(system: &System, thread: &ThreadPart) -> bool {
    let core = system.parts().core_of_thread(thread);
    for item in 0..thread.script.len() {
        let said = thread.script.get(item);
        if signals_out(system, core, &said) {
            return true;
        }
    }
    false
}

/// Whether some core signals another one. If none does, each runs ahead as far as it likes.
fn has_signals_out(system: &System) -> bool {
    for thread in system.parts().threads.as_slice() {
        if thread_signals_out(system, thread) {
            return true;
        }
    }
    false
}

/// Whether the cores go in step when their rows are written.
pub(crate) fn writes_in_step(system: &System) -> bool {
    let parts = system.parts();
    let most = CLOSE.saturating_mul(parts.cores as u64);
    parts.cores >= TOGETHER && least_delay(parts) <= most && has_signals_out(system)
}

/// Whether the cores go in step when their rows are only counted.
pub(crate) fn counts_in_step(system: &System) -> bool {
    let parts = system.parts();
    let fewest = CORES_A_TICK.saturating_mul(least_delay(parts));
    parts.cores >= TOGETHER && fewest <= parts.cores as u64 && has_signals_out(system)
}

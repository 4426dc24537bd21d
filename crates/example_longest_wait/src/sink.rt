//! The sink, and the call that uses it.
ghost use Rattle.std.specs.Prelude.{◌≡◌, ◌≤◌, ◌^◌, IfOk};
ghost use Rattle.std.specs.Arc.{arc_value};
ghost use Rattle.mcs_core.specs.Clock.{schedule};
ghost use Rattle.example_longest_wait.specs.Waits.{longest_of, wait_after};

use mcs_system::System;
use mcs_team::{FlowFault, Open, Refused, Sink, simulate_to};
use mcs_ticks::{Row, ThreadId, Tick, What};
use std::alloc::Global;
use std::sync::{Arc, Wait};
use std::thread::Threads;

/// A sink that keeps the longest wait of one thread for its budget, in ticks. It keeps no rows.
#[derive(Debug, Drop)]
pub struct LongestWait {
    /// The thread whose waits are counted.
    pub thread: ThreadId,
    /// The longest wait so far, in ticks. 0 if it never waited.
    pub longest: u64,
}

impl Sink for LongestWait {
    ghost use Rattle.std.specs.Prelude.{true, max};

    ghost takes = { λ before row taken after.
        (taken ≡ true) × (after.thread ≡ before.thread) × (after.longest ≡ max before.longest (wait_after before.thread row)) };

    fn row(&mut self, row: &Row) -> Result<(), Refused> {
        self.longest = self.longest.max(wait(row, self.thread));
        Ok(())
    }
}

/// Ticks that the thread waits for its budget after this row.
fn wait(row: &Row, thread: ThreadId) -> u64
    ensures { result ≡ wait_after thread row.now }
{
    match row.what {
        What::Stop {
            thread: stopped,
            until: Some(until),
            ..
        } if stopped == thread => until.get().saturating_sub(row.moment.get()),
        _ => 0,
    }
}

/// Returns the longest time, in ticks, for which a thread waits for its budget after a stop, in the
/// schedule of a system up to the horizon, at most 2^40.
///
/// The cause of the stop doesn't matter. The whole wait counts, even if it ends after the horizon.
/// The result is 0 if the thread never waits. `workers` workers make the rows, and no row is kept.
///
/// Errors: `NoMemory` if an allocation failed.
pub fn longest_wait<R: Threads + Wait + Sync>(
    rt: &R,
    alloc: Global,
    system: Arc<System>,
    horizon: Tick,
    workers: usize,
    thread: ThreadId,
) -> Result<u64, FlowFault>
    requires { horizon ≤ 2 ^ 40 }
    ensures { IfOk result (λ ticks. ticks ≡ longest_of thread (schedule (arc_value system) horizon)) }
{
    let mut sink = LongestWait { thread, longest: 0 };
    simulate_to(rt, alloc, system, horizon, workers, &Open, &mut sink)?;
    Ok(sink.longest)
}

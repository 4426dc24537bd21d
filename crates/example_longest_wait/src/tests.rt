use super::longest_wait;
use mcs_load::load;
use mcs_ticks::{ThreadId, Tick};
use std::sync::Arc;
use std::test::Fail;

/// The example overrun_within_a_budget with a budget of 2 ticks in 7 for the first thread.
static OVERRUN: &str = "
version = 1
cores = 1
delay = 1
context = [
  { name = 'video', core = 0, budget = 2, period = 7 },
  { name = 'flight', core = 0, budget = 5, period = 10 },
]
thread = [
  { name = 'Video', context = 'video', priority = 9, rounds = 2, script = ['compute 6'] },
  { name = 'Flight', context = 'flight', priority = 5, rounds = 1, script = ['compute 4'] },
]
";

#[test]
fn the_first_thread_waits_and_the_second_does_not(rt: HostRuntime) -> Result<(), Fail> {
    let alloc = rt.alloc();
    let system = load(alloc, OVERRUN.as_bytes())?;
    let system = Arc::new(alloc, system)?;
    let horizon = Tick::new(20).ok_or("a moment")?;
    assert_eq!(rt; horizon.get(), 20);
    for (thread, ticks) in [(0usize, 5u64), (1, 0)] {
        let shared = Arc::try_clone(&system)?;
        let found = longest_wait(&rt, alloc, shared, horizon, 2, ThreadId(thread))?;
        assert_eq!(rt; found, ticks);
    }
    Ok(())
}

use super::verdict;
use mcs_load::load;
use mcs_ticks::{CoreId, ThreadId, Tick};
use mcs_verdict::{Finding, Found};
use std::sync::Arc;
use std::test::Fail;

/// `Late` computes for 5 ticks and has 3. `Silent` waits for a signal that nobody makes.
static WRONG: &str = "
version = 1
cores = 1
delay = 1
context = [
  { name = 'late', core = 0, budget = 10, period = 10 },
  { name = 'silent', core = 0, budget = 10, period = 10 },
]
note = [{ name = 'none', core = 0 }]
thread = [
  { name = 'Late', context = 'late', priority = 9, deadline = 3, rounds = 1, script = ['compute 5'] },
  { name = 'Silent', context = 'silent', priority = 5, deadline = 7, script = ['wait none', 'compute 1'] },
]
";

/// The miss that a finding is: its thread, the number of its job and its response.
fn missed(found: &Found) -> Option<(ThreadId, u64, u64)> {
    match found.finding {
        Finding::Miss {
            thread,
            number,
            response,
            ..
        } => Some((thread, number, response)),
        _ => None,
    }
}

#[test]
fn a_deadline_is_missed_and_a_thread_is_never_activated(rt: HostRuntime) -> Result<(), Fail> {
    let alloc = rt.alloc();
    let system = Arc::new(alloc, load(alloc, WRONG.as_bytes())?)?;
    let horizon = Tick::new(20).ok_or("a time")?;
    let found = verdict(&rt, alloc, system, horizon, 2)?;
    assert_eq!(rt; found.len(), 2);
    let (first, second) = (&found[0], &found[1]);
    assert_eq!(rt; (first.moment.get(), first.core), (5, CoreId(0)));
    assert_eq!(rt; missed(first), Some((ThreadId(0), 1, 5)));
    let never = Finding::Never {
        thread: ThreadId(1),
        deadline: 7,
    };
    assert_eq!(rt; (second.moment.get(), second.core), (20, CoreId(0)));
    assert_eq!(rt; second.finding, never);
    Ok(())
}

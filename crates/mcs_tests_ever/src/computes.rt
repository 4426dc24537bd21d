//! Threads that compute without end.
use crate::systems::{lines, told};
use std::test::Fail;

/// A loop that a timer wakes once in each period of 10, and a guest that spins.
const SPINS: &str = r#"
version = 3
cores = 1
delay = 1
context = [
    { name = "loop", core = 0, budget = 6, period = 10 },
    { name = "guest", core = 0, budget = 10, period = 10 },
]
note = [{ name = "tick", core = 0 }]
source = [{ name = "clock", note = "tick", badge = 1, period = 10, start = 20 }]
thread = [
    { name = "Loop", context = "loop", priority = 9, deadline = 5, script = ["wait tick", "compute 2"] },
    { name = "Guest", context = "guest", priority = 1, script = ["spin"] },
]
"#;

/// A thread that spins, with a deadline.
const SPINS_LATE: &str = r#"
version = 3
cores = 1
delay = 1
context = [{ name = "guest", core = 0, budget = 4, period = 10 }]
thread = [{ name = "Guest", context = "guest", priority = 1, deadline = 20, script = ["spin"] }]
"#;

/// The guest has 7 of each 10 ticks, so its time slice of 10 ends at the same place after 100.
#[test]
fn a_guest_computes_without_end(rt: HostRuntime) -> Result<(), Fail> {
    let text = lines(rt.alloc(), SPINS, 1000)?;
    let expected = "cores 0: repeats from 183 with period 100\n\
        thread Loop: greatest response 2, throttled: never\n\
        thread Guest: computes without end\n\
        nothing is ever found\n";
    assert!(rt; text.as_slice() == expected.as_bytes());
    Ok(())
}

/// Without a repetition the line of the guest says the same, and nothing of its budget.
#[test]
fn a_guest_computes_without_end_so_far(rt: HostRuntime) -> Result<(), Fail> {
    let text = lines(rt.alloc(), SPINS, 100)?;
    let expected = "cores 0: no repetition found up to 100\n\
        thread Loop: greatest response 2 so far\n\
        thread Guest: computes without end\n";
    assert!(rt; text.as_slice() == expected.as_bytes());
    Ok(())
}

/// A job that computes without end misses its deadline: it is overdue for ever.
#[test]
fn a_guest_with_a_deadline_is_found(rt: HostRuntime) -> Result<(), Fail> {
    let all = told(rt.alloc(), SPINS_LATE, 1000)?;
    assert!(rt; all.len() == 1 && all[0].findings == 1);
    Ok(())
}

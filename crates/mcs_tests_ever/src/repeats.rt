//! Recurrences that a search finds.
use crate::systems::{CLOCK, RESTS, YIELDS, repeats_of, repeats_up_to};
use std::test::Fail;

/// A timer that interrupts a loop once in each period of 10, from time 0 on.
const TIMER: &str = r#"
version = 3
cores = 1
delay = 1
context = [{ name = "a", core = 0, budget = 4, period = 10 }]
note = [{ name = "tick", core = 0 }]
source = [{ name = "timer", note = "tick", badge = 1, period = 10 }]
thread = [{ name = "Loop", context = "a", priority = 9, deadline = 5, script = ["wait tick", "on 1", "compute 2"] }]
"#;

/// A timer as above, but with only three dates: 0, 10 and 20.
const THREE_TICKS: &str = r#"
version = 3
cores = 1
delay = 1
context = [{ name = "a", core = 0, budget = 4, period = 10 }]
note = [{ name = "tick", core = 0 }]
source = [{ name = "timer", note = "tick", badge = 1, period = 10, count = 3 }]
thread = [{ name = "Loop", context = "a", priority = 9, deadline = 5, script = ["wait tick", "on 1", "compute 2"] }]
"#;

/// Two timers with periods of 10 and 15. No thread waits for the second one.
const TWO_TIMERS: &str = r#"
version = 3
cores = 1
delay = 1
context = [{ name = "a", core = 0, budget = 4, period = 10 }]
note = [{ name = "tick", core = 0 }, { name = "other", core = 0 }]
source = [
    { name = "timer", note = "tick", badge = 1, period = 10 },
    { name = "slow", note = "other", badge = 1, period = 15 },
]
thread = [{ name = "Loop", context = "a", priority = 9, deadline = 5, script = ["wait tick", "on 1", "compute 2"] }]
"#;

/// A thread that computes for one tick in all, and an order at 100.
const ORDERED: &str = r#"
version = 1
cores = 1
delay = 1
context = [{ name = "a", core = 0, budget = 3, period = 10 }]
thread = [{ name = "Once", context = "a", priority = 9, rounds = 1, script = ["compute 1"] }]
order = [{ at = 100, core = 0, context = "a", budget = 4, period = 10 }]
"#;

/// In turn a thread on core 1 signals core 0, over 200 ticks, and core 2, over one. Each signal
/// takes a tick, and so does each wait and each computation.
const NEAR_AND_FAR: &str = r#"
version = 2
cores = 3
delay = 1
context = [
    { name = "a", core = 0, budget = 10, period = 10 },
    { name = "b", core = 1, budget = 10, period = 10 },
    { name = "c", core = 2, budget = 10, period = 10 },
]
note = [{ name = "far", core = 0 }, { name = "near", core = 2 }]
link = [{ maker = 1, home = 0, delay = 200 }]
thread = [
    { name = "Far", context = "a", priority = 9, script = ["wait far", "compute 1"] },
    { name = "Sender", context = "b", priority = 9, script = ["signal far 1", "signal near 1"] },
    { name = "Near", context = "c", priority = 9, script = ["wait near", "compute 1"] },
]
"#;

/// The loop computes for two ticks and yields in a third one. Each of its rounds but the first
/// begins when the one before it ended: at 0, 3, 13, 23 and so on. It moves to its next item, ends
/// a round or is released at 0, 2, 3, 10, 12, 13, 20 and so on. The search keeps moment 2, and
/// moment 10 two moments later. At 20 the loop waits for its budget as at 10, and the round under
/// way began 10 ticks later.
#[test]
fn a_loop_repeats_with_its_period(rt: HostRuntime) -> Result<(), Fail> {
    let found = repeats_up_to(rt.alloc(), YIELDS, 1000)?;
    assert_eq!(rt; found.len(), 1);
    assert!(rt; repeats_of(found.as_slice(), 0) == (10, 10));
    Ok(())
}

/// The last moment that is compared is one past the horizon: a horizon of 19 suffices, and 18 does
/// not.
#[test]
fn a_horizon_that_is_met_first(rt: HostRuntime) -> Result<(), Fail> {
    let found = repeats_up_to(rt.alloc(), YIELDS, 19)?;
    assert!(rt; repeats_of(found.as_slice(), 0) == (10, 10));
    let found = repeats_up_to(rt.alloc(), YIELDS, 18)?;
    assert!(rt; repeats_of(found.as_slice(), 0) == (0, 0));
    Ok(())
}

/// Both cores recur with the period of the clock, the minimum by which all their dates can be
/// later.
#[test]
fn a_clock_and_its_loop_repeat_with_their_period(rt: HostRuntime) -> Result<(), Fail> {
    let found = repeats_up_to(rt.alloc(), CLOCK, 1000)?;
    assert_eq!(rt; found.len(), 2);
    assert!(rt; repeats_of(found.as_slice(), 0).1 == 10);
    assert!(rt; repeats_of(found.as_slice(), 1).1 == 10);
    Ok(())
}

/// The thread ends at 1, and nothing happens from 2 on.
#[test]
fn a_system_at_rest_repeats_with_each_tick(rt: HostRuntime) -> Result<(), Fail> {
    let found = repeats_up_to(rt.alloc(), RESTS, 1000)?;
    assert_eq!(rt; found.len(), 1);
    assert!(rt; repeats_of(found.as_slice(), 0) == (2, 1));
    Ok(())
}

/// No recurrence is found before the order: the system rests from 101 on, the moment after it.
#[test]
fn nothing_repeats_before_the_last_order(rt: HostRuntime) -> Result<(), Fail> {
    let found = repeats_up_to(rt.alloc(), ORDERED, 1000)?;
    assert!(rt; repeats_of(found.as_slice(), 0) == (101, 1));
    let found = repeats_up_to(rt.alloc(), ORDERED, 100)?;
    assert!(rt; repeats_of(found.as_slice(), 0) == (0, 0));
    Ok(())
}

/// The core recurs with the period of its source.
#[test]
fn a_timer_and_its_loop_repeat_with_their_period(rt: HostRuntime) -> Result<(), Fail> {
    let found = repeats_up_to(rt.alloc(), TIMER, 1000)?;
    assert_eq!(rt; found.len(), 1);
    assert!(rt; repeats_of(found.as_slice(), 0).1 == 10);
    Ok(())
}

/// The third tick wakes the loop at 20, its round ends at 22, and it waits from 23 on. Nothing
/// happens from 24 on. Up to 20 a date of the source is still to come.
#[test]
fn a_timer_without_a_date_to_come_is_at_rest(rt: HostRuntime) -> Result<(), Fail> {
    let found = repeats_up_to(rt.alloc(), THREE_TICKS, 1000)?;
    assert_eq!(rt; found.len(), 1);
    assert!(rt; repeats_of(found.as_slice(), 0) == (24, 1));
    Ok(())
}

/// Both sources have the same dates, later, after 30 ticks at the earliest.
#[test]
fn two_timers_repeat_with_a_common_multiple(rt: HostRuntime) -> Result<(), Fail> {
    let found = repeats_up_to(rt.alloc(), TWO_TIMERS, 1000)?;
    assert_eq!(rt; found.len(), 1);
    assert!(rt; repeats_of(found.as_slice(), 0).1 == 30);
    Ok(())
}

/// A hundred signals are under way to core 0, and those to core 2 pass them. Some core is busy at
/// each tick, so the search keeps the moments 1, 3, 7 and so on. The first signal for core 0 comes
/// at 201. Kept next is 255, and both budgets are back after 10 ticks.
#[test]
fn signals_that_pass_others_are_told_apart(rt: HostRuntime) -> Result<(), Fail> {
    let found = repeats_up_to(rt.alloc(), NEAR_AND_FAR, 1000)?;
    assert_eq!(rt; found.len(), 3);
    assert!(rt; repeats_of(found.as_slice(), 0) == (255, 10));
    assert!(rt; repeats_of(found.as_slice(), 1).1 == 10);
    assert!(rt; repeats_of(found.as_slice(), 2).1 == 10);
    Ok(())
}

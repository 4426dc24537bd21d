//! The results of a check for all time.
use crate::systems::{CLOCK, RESTS, YIELDS, has, lines, period, told};
use mcs_ever_told::Line;
use mcs_ticks::{NoteId, ThreadId, Tick};
use std::str;
use std::test::Fail;

/// A thread that never waits, and one of a lower priority that never runs.
const STARVES: &str = r#"
version = 1
cores = 1
delay = 1
context = [{ name = "a", core = 0, budget = 10, period = 10 }, { name = "b", core = 0, budget = 10, period = 10 }]
thread = [
    { name = "Busy", context = "a", priority = 9, script = ["compute 5"] },
    { name = "Late", context = "b", priority = 8, deadline = 20, script = ["compute 1"] },
]
"#;

/// A timer wakes the loop once in each period of 10, and the loop calls a server in each round.
const CALLS: &str = r#"
version = 3
cores = 1
delay = 1
context = [{ name = "a", core = 0, budget = 8, period = 10 }]
note = [{ name = "tick", core = 0 }]
server = [{ name = "S", core = 0, priority = 10, script = ["compute 1"] }]
source = [{ name = "timer", note = "tick", badge = 1, period = 10 }]
thread = [{ name = "Loop", context = "a", priority = 9, deadline = 8, script = ["wait tick", "call S 1", "compute 1"] }]
"#;

/// Two workers of one core take the words of one notification, which a clock signals once in each
/// period of 10.
const POOL: &str = r#"
version = 1
cores = 1
delay = 1
context = [
    { name = "a", core = 0, budget = 3, period = 10 },
    { name = "b", core = 0, budget = 3, period = 10 },
    { name = "clock", core = 0, budget = 2, period = 10 },
]
note = [{ name = "work", core = 0 }]
thread = [
    { name = "First", context = "a", priority = 8, deadline = 9, script = ["wait work", "compute 1"] },
    { name = "Second", context = "b", priority = 8, deadline = 9, script = ["wait work", "compute 1"] },
    { name = "Clock", context = "clock", priority = 9, script = ["signal work 1", "yield"] },
]
"#;

/// Two threads take a lock before they compute, once in each period of 10. A third one frees it
/// first.
const LOCK: &str = r#"
version = 1
cores = 1
delay = 1
context = [
    { name = "first", core = 0, budget = 1, period = 10 },
    { name = "low", core = 0, budget = 8, period = 10 },
    { name = "high", core = 0, budget = 8, period = 10 },
]
note = [{ name = "lock", core = 0 }]
thread = [
    { name = "Free", context = "first", priority = 10, rounds = 1, script = ["signal lock 1"] },
    { name = "Low", context = "low", priority = 1, deadline = 30, script = ["wait lock", "compute 1", "signal lock 1", "yield"] },
    { name = "High", context = "high", priority = 9, deadline = 30, script = ["wait lock", "compute 2", "signal lock 1", "yield"] },
]
"#;

/// A has exhausted its budget when a word arrives at 7, and B takes it at 14, and so on each 30
/// ticks.
const TAKEN: &str = r#"
version = 1
cores = 2
delay = 1
context = [
    { name = "a", core = 0, budget = 4, period = 30 },
    { name = "b", core = 0, budget = 11, period = 30 },
    { name = "c", core = 1, budget = 5, period = 30 },
]
note = [{ name = "n", core = 0 }]
thread = [
    { name = "A", context = "a", priority = 9, deadline = 5, script = ["wait n", "compute 3"] },
    { name = "B", context = "b", priority = 4, script = ["compute 9", "wait n", "compute 1"] },
    { name = "C", context = "c", priority = 5, start = 3, script = ["signal n 1", "compute 1", "signal n 1", "yield"] },
]
"#;

/// The worker ends after its one round. The clock signals once in each period of 10.
const DONE: &str = r#"
version = 1
cores = 1
delay = 1
context = [{ name = "a", core = 0, budget = 3, period = 10 }, { name = "clock", core = 0, budget = 2, period = 10 }]
note = [{ name = "work", core = 0 }]
thread = [
    { name = "Worker", context = "a", priority = 8, deadline = 9, rounds = 1, script = ["wait work", "compute 1"] },
    { name = "Clock", context = "clock", priority = 9, script = ["signal work 1", "yield"] },
]
"#;

/// The worker takes a word and then waits for one that nobody signals. The clock signals the first
/// one again in each period of 10.
const STUCK: &str = r#"
version = 1
cores = 1
delay = 1
context = [{ name = "a", core = 0, budget = 3, period = 10 }, { name = "clock", core = 0, budget = 2, period = 10 }]
note = [{ name = "work", core = 0 }, { name = "reply", core = 0 }]
thread = [
    { name = "Worker", context = "a", priority = 8, deadline = 9, script = ["wait work", "wait reply", "compute 1"] },
    { name = "Clock", context = "clock", priority = 9, script = ["signal work 1", "yield"] },
]
"#;

/// Two workers for one notification. The second one never runs, since a thread of a higher priority
/// spins.
const SPARE: &str = r#"
version = 3
cores = 1
delay = 1
context = [
    { name = "a", core = 0, budget = 4, period = 10 },
    { name = "b", core = 0, budget = 3, period = 10 },
    { name = "busy", core = 0, budget = 10, period = 10 },
]
note = [{ name = "work", core = 0 }]
source = [{ name = "timer", note = "work", badge = 1, period = 10 }]
thread = [
    { name = "First", context = "a", priority = 8, deadline = 9, script = ["wait work", "compute 1"] },
    { name = "Second", context = "b", priority = 1, deadline = 9, script = ["wait work", "compute 1"] },
    { name = "Busy", context = "busy", priority = 5, script = ["spin"] },
]
"#;

/// A loop, and a thread that waits for what nobody signals.
const ALARM: &str = r#"
version = 1
cores = 1
delay = 1
context = [{ name = "a", core = 0, budget = 3, period = 10 }, { name = "b", core = 0, budget = 3, period = 10 }]
note = [{ name = "fire", core = 0 }]
thread = [
    { name = "Loop", context = "a", priority = 9, deadline = 5, script = ["compute 2", "yield"] },
    { name = "Alarm", context = "b", priority = 8, deadline = 20, script = ["wait fire", "compute 1"] },
]
"#;

/// The loop is activated at each release, computes for two ticks, and yields in a third one: each
/// round takes 3 ticks. Its state at 20, before its release, is that at 10, but 10 ticks later.
#[test]
fn a_loop_is_told_for_ever(rt: HostRuntime) -> Result<(), Fail> {
    let text = lines(rt.alloc(), YIELDS, 1000)?;
    let expected = "cores 0: repeats from 10 with period 10\n\
        thread Loop: greatest response 3, throttled: never\n\
        nothing is ever found\n";
    assert!(rt; text.as_slice() == expected.as_bytes());
    Ok(())
}

/// The second release is the first moment that shows the recurrence: a horizon of 18 shows none.
#[test]
fn a_loop_is_told_so_far(rt: HostRuntime) -> Result<(), Fail> {
    let text = lines(rt.alloc(), YIELDS, 18)?;
    let expected = "cores 0: no repetition found up to 18\n\
        thread Loop: greatest response 3 so far\n";
    assert!(rt; text.as_slice() == expected.as_bytes());
    Ok(())
}

/// The thread ends at 1, and nothing happens from 2 on: it ends no round then.
#[test]
fn a_system_at_rest(rt: HostRuntime) -> Result<(), Fail> {
    let text = lines(rt.alloc(), RESTS, 1000)?;
    let expected = "cores 0: repeats from 2 with period 1\n\
        thread Once: greatest response 1, throttled: never, ends no round from 2 on\n\
        nothing is ever found\n";
    assert!(rt; text.as_slice() == expected.as_bytes());
    Ok(())
}

/// Core 0 depends on core 1, which no other core signals. There are two sets, and each recurs with
/// the period of the clock.
#[test]
fn a_clock_is_told_apart_from_its_loop(rt: HostRuntime) -> Result<(), Fail> {
    let all = told(rt.alloc(), CLOCK, 1000)?;
    assert_eq!(rt; all.len(), 2);
    assert!(rt; all[0].set[0] && all[0].set[1]);
    assert!(rt; !all[1].set[0] && all[1].set[1]);
    for one in all.as_slice() {
        assert!(rt; period(one) == 10);
        assert!(rt; one.findings == 0);
    }
    Ok(())
}

/// The upper thread never stops for long, so the lower one never runs. Its first round is activated
/// at 0, when the thread is released, and never ends.
#[test]
fn a_starved_thread_is_found(rt: HostRuntime) -> Result<(), Fail> {
    let all = told(rt.alloc(), STARVES, 1000)?;
    assert_eq!(rt; all.len(), 1);
    assert!(rt; period(&all[0]) != 0);
    assert!(rt; all[0].findings == 1);
    let endless = Line::Endless {
        thread: ThreadId(1),
        number: 1,
        activated: Tick::new(0).unwrap(),
    };
    assert!(rt; has(&all[0], endless));
    Ok(())
}

/// The core recurs with its source, so in a multiple of 10. A round takes at most 5 ticks: one each
/// to take the word, to enter the server, in it, to leave it, and behind it.
#[test]
fn a_loop_that_calls_a_server_is_told_for_ever(rt: HostRuntime) -> Result<(), Fail> {
    let all = told(rt.alloc(), CALLS, 1000)?;
    assert_eq!(rt; all.len(), 1);
    assert!(rt; period(&all[0]) != 0);
    assert!(rt; period(&all[0]) % 10 == 0);
    assert!(rt; all[0].findings == 0);
    Ok(())
}

/// The workers take turns: the core at 74 is that at 54, which is kept after 31 busy moments. At
/// 23, after 15, the first round of the second worker is under way, and no round ended before it.
/// The word of 1 is set until 3, and its job ends at 4. Either worker may take a word, and each job
/// of both is in time.
#[test]
fn a_pool_recurs_and_is_clean(rt: HostRuntime) -> Result<(), Fail> {
    let text = lines(rt.alloc(), POOL, 1000)?;
    let expected = "cores 0: repeats from 54 with period 20\n\
        thread First: greatest response 3, throttled: never\n\
        thread Second: greatest response 2, throttled: never\n\
        thread Clock: greatest response 2, throttled: never\n\
        nothing is ever found\n";
    assert_eq!(rt; str::from_utf8(text.as_slice()), Ok(expected));
    Ok(())
}

/// The first period ends at 74. The tick before it is not in a run up to 72.
#[test]
fn a_pool_is_told_so_far(rt: HostRuntime) -> Result<(), Fail> {
    let all = told(rt.alloc(), POOL, 72)?;
    assert_eq!(rt; all.len(), 1);
    assert!(rt; period(&all[0]) == 0);
    assert!(rt; all[0].findings == 0);
    Ok(())
}

/// Each of the two holds the lock once in 10 ticks, and either may take the word of a free lock.
#[test]
fn a_lock_that_is_taken_first_is_clean(rt: HostRuntime) -> Result<(), Fail> {
    let all = told(rt.alloc(), LOCK, 1000)?;
    assert_eq!(rt; all.len(), 1);
    assert!(rt; period(&all[0]) == 10);
    assert!(rt; all[0].findings == 0);
    Ok(())
}

/// B may take the word for which A waits, and does so. It has no deadline, so no word has one.
#[test]
fn a_word_that_another_thread_takes_is_no_finding(rt: HostRuntime) -> Result<(), Fail> {
    let all = told(rt.alloc(), TAKEN, 1000)?;
    assert_eq!(rt; all.len(), 2);
    assert!(rt; period(&all[0]) == 30);
    assert!(rt; all[0].findings == 0);
    Ok(())
}

/// The worker takes the word of 1 at 3, and ends at 4. The word of 11 stays, and those of 21, 31
/// and so on are lost in it.
#[test]
fn a_word_that_nobody_takes(rt: HostRuntime) -> Result<(), Fail> {
    let all = told(rt.alloc(), DONE, 1000)?;
    assert_eq!(rt; all.len(), 1);
    assert!(rt; period(&all[0]) % 10 == 0);
    assert!(rt; all[0].findings == 2);
    let abandoned = Line::Abandoned {
        note: NoteId(0),
        word: 1,
        set: Tick::new(11).unwrap(),
    };
    assert!(rt; has(&all[0], abandoned));
    Ok(())
}

/// The word of 11 was set 4 ticks before 15, and 9 ticks before 20, which is the deadline. No
/// recurrence is found by then.
#[test]
fn a_word_that_nobody_takes_so_far(rt: HostRuntime) -> Result<(), Fail> {
    let all = told(rt.alloc(), DONE, 15)?;
    assert_eq!(rt; all.len(), 1);
    assert!(rt; period(&all[0]) == 0);
    assert!(rt; all[0].findings == 0);
    let all = told(rt.alloc(), DONE, 20)?;
    assert_eq!(rt; all.len(), 1);
    assert!(rt; period(&all[0]) == 0);
    assert!(rt; all[0].findings == 1);
    let untaken = Line::Untaken {
        note: NoteId(0),
        moment: Tick::new(20).unwrap(),
    };
    assert!(rt; has(&all[0], untaken));
    Ok(())
}

/// The worker takes the word of 1, and its round never ends. Nobody takes that of 11, and those of
/// 21, 31 and so on are lost in it.
#[test]
fn a_round_that_never_ends(rt: HostRuntime) -> Result<(), Fail> {
    let all = told(rt.alloc(), STUCK, 1000)?;
    assert_eq!(rt; all.len(), 1);
    assert!(rt; period(&all[0]) % 10 == 0);
    assert!(rt; all[0].findings == 3);
    let endless = Line::Endless {
        thread: ThreadId(0),
        number: 1,
        activated: Tick::new(1).unwrap(),
    };
    let abandoned = Line::Abandoned {
        note: NoteId(0),
        word: 1,
        set: Tick::new(11).unwrap(),
    };
    assert!(rt; has(&all[0], endless));
    assert!(rt; has(&all[0], abandoned));
    Ok(())
}

/// The first worker takes each word. The second one has no finding, since a word was taken.
#[test]
fn a_spare_worker_is_no_finding(rt: HostRuntime) -> Result<(), Fail> {
    let all = told(rt.alloc(), SPARE, 10_000)?;
    assert_eq!(rt; all.len(), 1);
    assert!(rt; period(&all[0]) != 0);
    assert!(rt; all[0].findings == 0);
    Ok(())
}

/// The alarm waits for ever, and its set recurs nonetheless.
#[test]
fn a_thread_that_is_never_activated(rt: HostRuntime) -> Result<(), Fail> {
    let all = told(rt.alloc(), ALARM, 1000)?;
    assert_eq!(rt; all.len(), 1);
    assert!(rt; period(&all[0]) % 10 == 0);
    assert!(rt; all[0].findings == 1);
    let inactive = Line::Inactive {
        thread: ThreadId(1),
    };
    assert!(rt; has(&all[0], inactive));
    Ok(())
}

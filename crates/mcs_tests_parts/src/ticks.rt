use mcs_ticks::{Limits, NoMemory, Soonest, Tick};
use std::test::Fail;

#[test]
fn limits_are_those_of_the_profile(rt: HostRuntime) {
    let counts = [
        (Limits::CORES, 64),
        (Limits::CONTEXTS, 4_096),
        (Limits::NOTES, 4_096),
        (Limits::THREADS, 4_096),
        (Limits::ORDERS, 4_096),
        (Limits::ITEMS, 1_024),
        (Limits::NAME, 32),
        (Limits::FILE, 67_108_864),
    ];
    for (limit, want) in counts {
        assert_eq!(rt; limit, want);
    }
    let numbers = [
        (Limits::DELAY, 1_048_576),
        (Limits::CALL, 65_536),
        (Limits::MIN_BUDGET, 1_048_576),
        (Limits::HORIZON, 1_099_511_627_776),
        (Limits::START, 1_099_511_627_776),
        (Limits::ROUNDS, 1_099_511_627_776),
        (Limits::DEADLINE, 1_099_511_627_776),
        (Limits::ORDER_MOMENT, 1_099_511_627_776),
        (Limits::PERIOD, 1_099_511_627_776),
        (Limits::COMPUTE, 1_099_511_627_776),
        (Limits::EXTRA_REFILLS, 64),
        (Limits::PRIORITY, 255),
        (Limits::BADGE, 4_294_967_295),
        (Limits::WORKERS, 64),
        (Limits::TICK, 4_398_046_511_104),
    ];
    for (limit, want) in numbers {
        assert_eq!(rt; limit, want);
    }
}

#[test]
fn want_of_memory_says_so(rt: HostRuntime) -> Result<(), Fail> {
    let text = NoMemory.to_string(rt.alloc())?;
    assert_eq!(rt; text.as_str(), "no memory");
    Ok(())
}

#[test]
fn a_moment_in_range_is_made_and_is_sooner_than_never(rt: HostRuntime) {
    let moment = Tick::at(1 << 42);
    assert_eq!(rt; Some(moment), Tick::new(Limits::TICK));
    assert!(rt; !Soonest::at(moment).is_never());
    assert!(rt; Soonest::never().is_never());
    assert_eq!(rt; Soonest::at(Tick::ZERO).before(moment), Some(Tick::ZERO));
}

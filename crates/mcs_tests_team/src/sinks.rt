//! Rows that go to a sink, for different numbers of worker threads.

use super::systems::{IDLE, RING, SIGNALS, TWO_MAKERS, moment, system};
use mcs_team::{FlowFault, Open, Refused, Sink, simulate_alone, simulate_to};
use mcs_ticks::{CoreId, Row, ThreadId, Tick, What};
use std::sync::Arc;
use std::test::Fail;

/// Compares up to `most` rows with those that are expected, and refuses the next.
#[derive(Drop)]
pub(super) struct Compared<'a> {
    expected: &'a [Row],
    most: usize,
    pub(super) given: usize,
    pub(super) same: bool,
}

impl Sink for Compared<'_> {
    ghost takes = { λ _ _ _ _. Unit {0} };

    fn row(&mut self, row: &Row) -> Result<(), Refused> {
        if self.given >= self.most {
            return Err(Refused);
        }
        self.same = self.same && is_at(self.expected, self.given, row);
        self.given = self.given.saturating_add(1);
        Ok(())
    }
}

/// Whether this row is expected at this place.
fn is_at(expected: &[Row], place: usize, row: &Row) -> bool {
    place < expected.len() && expected[place] == *row
}

/// Returns a sink that expects these rows, and refuses a row after `most`.
pub(super) fn comparing(expected: &[Row], most: usize) -> Compared<'_> {
    Compared {
        expected,
        most,
        given: 0,
        same: true,
    }
}

#[test]
fn sinks_get_the_schedule(rt: HostRuntime) -> Result<(), Fail> {
    let alloc = rt.alloc();
    for text in [IDLE, SIGNALS, TWO_MAKERS, RING] {
        let system = system(alloc, text)?;
        let horizon = moment(40)?;
        let whole = simulate_alone(alloc, Arc::try_clone(&system)?, horizon)?;
        for workers in [0usize, 1, 2, 64] {
            let mut sink = comparing(whole.rows.as_slice(), 1000);
            let shared = Arc::try_clone(&system)?;
            let ended = simulate_to(&rt, alloc, shared, horizon, workers, &Open, &mut sink);
            if matches!(ended, Err(FlowFault::NoMemory)) {
                return Err(Fail::from("no memory"));
            }
            assert!(rt; ended.is_ok(), "with {workers}");
            assert!(rt;
                sink.same && sink.given == whole.rows.len(),
                "with {workers}"
            );
        }
    }
    Ok(())
}

/// The first row of the core that signals.
fn first(what: What) -> Row {
    Row {
        moment: Tick::ZERO,
        core: CoreId(1),
        what,
    }
}

#[test]
fn a_sink_refuses_its_third_row(rt: HostRuntime) -> Result<(), Fail> {
    let alloc = rt.alloc();
    let system = system(alloc, SIGNALS)?;
    let horizon = moment(20)?;
    let thread = ThreadId(0);
    let expected = [first(What::Release { thread }), first(What::Run { thread })];
    for workers in [0usize, 1, 2, 64] {
        let mut sink = comparing(expected.as_slice(), 2);
        let shared = Arc::try_clone(&system)?;
        let ended = simulate_to(&rt, alloc, shared, horizon, workers, &Open, &mut sink);
        if matches!(ended, Err(FlowFault::NoMemory)) {
            return Err(Fail::from("no memory"));
        }
        assert!(rt; matches!(ended, Err(FlowFault::Sink)), "with {workers}");
        assert!(rt; sink.same && sink.given == 2, "with {workers}");
    }
    Ok(())
}

#[test]
fn a_sink_refuses_its_first_row(rt: HostRuntime) -> Result<(), Fail> {
    let alloc = rt.alloc();
    let system = system(alloc, TWO_MAKERS)?;
    let horizon = moment(1_000_000)?;
    for workers in [1usize, 2] {
        let mut sink = comparing(&[], 0);
        let shared = Arc::try_clone(&system)?;
        let ended = simulate_to(&rt, alloc, shared, horizon, workers, &Open, &mut sink);
        if matches!(ended, Err(FlowFault::NoMemory)) {
            return Err(Fail::from("no memory"));
        }
        assert!(rt; matches!(ended, Err(FlowFault::Sink)), "with {workers}");
        assert_eq!(rt; sink.given, 0, "with {workers}");
    }
    Ok(())
}

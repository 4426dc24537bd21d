use super::play::{Letter, Made, made_by};
use super::systems::{TWO_MAKERS, system};
use mcs_ticks::{CoreId, NoteId, Row, ThreadId, What, Why};
use std::alloc::Global;
use std::process::Abort;
use std::test::Fail;

const WAITER: ThreadId = ThreadId(2);

const NOTE: NoteId = NoteId(0);

/// The rows of the waiting thread before any mail arrives.
const BEFORE: [(u64, What); 3] = [
    (0, What::Release { thread: WAITER }),
    (0, What::Run { thread: WAITER }),
    (
        1,
        What::Stop {
            thread: WAITER,
            why: Why::Wait,
            charged: 1,
            until: None,
        },
    ),
];

/// The word of the first letter wakes the thread, and that of the second is held.
const AFTER: [(u64, What); 5] = [
    (
        4,
        What::Arrive {
            note: NOTE,
            badge: 2,
            maker: CoreId(1),
        },
    ),
    (
        4,
        What::Wake {
            thread: WAITER,
            note: NOTE,
            word: 2,
            until: None,
        },
    ),
    (
        4,
        What::Arrive {
            note: NOTE,
            badge: 1,
            maker: CoreId(0),
        },
    ),
    (
        4,
        What::Hold {
            note: NOTE,
            word: 1,
        },
    ),
    (4, What::Run { thread: WAITER }),
];

fn are(rt: &impl Abort, rows: &[Row], first: &[(u64, What)], then: &[(u64, What)]) {
    assert_eq!(rt; rows.len(), first.iter().chain(then).count());
    for (row, (moment, what)) in rows.iter().zip(first.iter().chain(then)) {
        assert_eq!(rt; row.moment.get(), *moment);
        assert!(rt; row.what == *what);
    }
}

/// Runs the core of the waiting thread up to 4, with these letters in its box.
fn makes(
    rt: &impl Abort,
    alloc: Global,
    letters: &[Letter],
    after: &[(u64, What)],
    left: usize,
) -> Result<(), Fail> {
    let made = made_of(alloc, letters)?;
    are(rt, made.rows.as_slice(), BEFORE.as_slice(), after);
    assert_eq!(rt; made.left, left);
    Ok(())
}

fn made_of(alloc: Global, letters: &[Letter]) -> Result<Made, Fail> {
    let makers = system(alloc, TWO_MAKERS)?;
    made_by(alloc, &makers, 2, letters, 4, 1_000)
}

/// A signal that was made earlier is delivered before one that a lower core made. Two such signals
/// need different delays.
#[test]
fn made_before_maker(rt: HostRuntime) -> Result<(), Fail> {
    let letters = [Letter(4, 2, 0, 1), Letter(4, 1, 1, 2)];
    makes(&rt, rt.alloc(), &letters, AFTER.as_slice(), 0)
}

#[test]
fn signals_beyond_the_horizon_stay(rt: HostRuntime) -> Result<(), Fail> {
    let letters = [Letter(10, 2, 0, 1), Letter(10, 2, 1, 2)];
    makes(&rt, rt.alloc(), &letters, &[], 2)
}

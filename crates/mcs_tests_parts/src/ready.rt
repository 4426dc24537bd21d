ghost use Rattle.std.specs.Prelude.{◌≡◌};

use mcs_ready::Ready;
use mcs_ticks::{Queued, ThreadId};
use std::process::Abort;
use std::test::Fail;

/// A call on a ready queue, with its arguments or with its expected result.
#[derive(Clone, Copy)]
enum Step {
    Back(usize, u8),
    Front(usize, u8),
    Best(Option<u8>),
    Take(Option<usize>),
}

use Step::{Back, Best, Front, Take};

const ROOM: usize = 6;

/// The expected results are those of the theorem of this name in proofs/Worked.antt of mcs_ready,
/// which evaluates the definition.
const SIX_THREADS: [Step; 17] = [
    Back(0, 3),
    Back(1, 7),
    Front(2, 3),
    Back(3, 7),
    Take(Some(1)),
    Front(1, 7),
    Back(4, 200),
    Back(5, 3),
    Best(Some(200)),
    Take(Some(4)),
    Take(Some(1)),
    Take(Some(3)),
    Best(Some(3)),
    Take(Some(2)),
    Take(Some(0)),
    Take(Some(5)),
    Take(None),
];

fn enter(rt: &impl Abort, ready: &mut Ready, x: usize, priority: u8, at_front: bool)
    requires { ready.old.room ≡ ROOM }
    ensures { ready.new.room ≡ ROOM }
{
    let thread = ThreadId(x);
    assert!(rt; x < ROOM);
    assert!(rt; !ready.holds(thread));
    if at_front {
        ready.push_front(thread, priority);
    } else {
        ready.push_back(thread, priority);
    }
    assert!(rt; ready.holds(thread));
}

fn make(rt: &impl Abort, ready: &mut Ready, step: Step)
    requires { ready.old.room ≡ ROOM }
    ensures { ready.new.room ≡ ROOM }
{
    match step {
        Back(x, priority) => enter(rt, ready, x, priority, false),
        Front(x, priority) => enter(rt, ready, x, priority, true),
        Best(priority) => assert_eq!(rt; ready.best(), priority),
        Take(x) => {
            assert_eq!(rt; ready.pop_best().map(|thread| thread.0), x);
        }
    }
}

fn make_all(rt: &impl Abort, ready: &mut Ready, steps: &[Step])
    requires { ready.old.room ≡ ROOM }
{
    for step in steps {
        make(rt, ready, *step);
    }
}

#[test]
fn six_threads(rt: HostRuntime) -> Result<(), Fail> {
    let mut ready = Ready::new(rt.alloc(), ROOM)?;
    make_all(&rt, &mut ready, SIX_THREADS.as_slice());
    Ok(())
}

/// The highest priority comes first, and within a priority the order of entering, except for a
/// thread that entered at the front.
#[test]
fn a_list_of_threads_is_by_priority(rt: HostRuntime) -> Result<(), Fail> {
    let mut ready = Ready::new(rt.alloc(), ROOM)?;
    make_all(
        &rt,
        &mut ready,
        [
            Back(0, 7),
            Back(1, 255),
            Back(2, 7),
            Front(3, 7),
            Back(4, 0),
        ]
        .as_slice(),
    );
    let list = ready.list(rt.alloc())?;
    let wanted = [(1, 255), (3, 7), (0, 7), (2, 7), (4, 0)];
    assert_eq!(rt; list.len(), wanted.len());
    for (queued, (thread, priority)) in list.iter().zip(wanted) {
        let thread = ThreadId(thread);
        assert_eq!(rt; *queued, Queued { thread, priority });
    }
    Ok(())
}

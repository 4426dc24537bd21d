//! Hints on a file.

use mcs_chain::ChainId;
use mcs_hints::{Hint, hints};
use mcs_load::load;
use mcs_ticks::{CoreId, NoteId, SourceId, ThreadId};
use std::test::Fail;

/// Three contexts that have all of the core.
const FULL: &str = r#"
version = 1
cores = 1
delay = 1
context = [
    { name = "a", core = 0, budget = 1, period = 3 },
    { name = "b", core = 0, budget = 1, period = 3 },
    { name = "c", core = 0, budget = 1, period = 3 },
]
thread = [
    { name = "A", context = "a", priority = 1, script = ["compute 1"] },
    { name = "B", context = "b", priority = 1, script = ["compute 1"] },
    { name = "C", context = "c", priority = 1, script = ["compute 1"] },
]
"#;

/// Two more contexts have less than a millionth each. The sum of all is more than the core, though
/// the shares, each rounded down, sum to less.
const ABOVE: &str = r#"
version = 1
cores = 1
delay = 1
context = [
    { name = "a", core = 0, budget = 1, period = 3 },
    { name = "b", core = 0, budget = 1, period = 3 },
    { name = "c", core = 0, budget = 1, period = 3 },
    { name = "d", core = 0, budget = 1, period = 1000001 },
    { name = "e", core = 0, budget = 1, period = 1000001 },
]
thread = [
    { name = "A", context = "a", priority = 1, script = ["compute 1"] },
    { name = "B", context = "b", priority = 1, script = ["compute 1"] },
    { name = "C", context = "c", priority = 1, script = ["compute 1"] },
    { name = "D", context = "d", priority = 1, script = ["compute 1"] },
    { name = "E", context = "e", priority = 1, script = ["compute 1"] },
]
"#;

/// `D` waits for `n` and has handlers for badges 1 and 6. Nobody waits for `z`. The server `v` has
/// the priority of its caller `E`.
const USES: &str = r#"
version = 3
cores = 1
delay = 1
context = [
    { name = "d", core = 0, budget = 1, period = 3 },
    { name = "e", core = 0, budget = 1, period = 3 },
]
note = [{ name = "n", core = 0 }, { name = "z", core = 0 }]
server = [{ name = "v", core = 0, priority = 5, script = ["signal n 16"] }]
thread = [
    { name = "D", context = "d", priority = 9, deadline = 9, script = ["wait n", "on 1", "compute 5", "on 6", "compute 1"] },
    { name = "E", context = "e", priority = 5, script = ["signal z 1", "signal n 9", "call v 1", "signal n 8"] },
]
source = [
    { name = "s", note = "n", badge = 4, period = 9 },
    { name = "k", note = "n", badge = 24, period = 9 },
    { name = "u", note = "z", badge = 1, period = 9 },
]
"#;

/// For badge 1 of `s` the driver `D` signals `m` with badge 1. The first chain answers for this
/// badge, and the second one for badge 2, to which no interrupt of `s` leads.
const WAY: &str = r#"
version = 3
cores = 1
delay = 1
context = [
    { name = "d", core = 0, budget = 1, period = 3 },
    { name = "e", core = 0, budget = 1, period = 3 },
]
note = [{ name = "n", core = 0 }, { name = "m", core = 0 }]
thread = [
    { name = "D", context = "d", priority = 9, script = ["wait n", "on 1", "signal m 1", "on 2", "signal m 2"] },
    { name = "E", context = "e", priority = 5, script = ["wait m", "on 1", "compute 1", "on 2", "compute 1"] },
]
source = [{ name = "s", note = "n", badge = 1, period = 9 }]
chain = [
    { name = "first", source = "s", thread = "E", badges = 1, deadline = 9 },
    { name = "second", source = "s", thread = "E", badges = 2 },
]
"#;

/// Hints on a file without a deadline, whose notification is waited on and signalled by no script.
#[test]
fn hints_of_a_file(rt: HostRuntime) -> Result<(), Fail> {
    let text = r#"
version = 1
cores = 1
delay = 1
context = [{ name = "a", core = 0, budget = 10, period = 10 }]
note = [{ name = "tick", core = 0 }]
thread = [{ name = "A", context = "a", priority = 5, script = ["wait tick", "compute 1"] }]
"#;
    let system = load(rt.alloc(), text.as_bytes())?;
    let hints = hints(rt.alloc(), &system)?;
    assert_eq!(rt;
        hints.as_slice(),
        [Hint::NoDeadline, Hint::Unsignalled { note: NoteId(0) }].as_slice()
    );
    Ok(())
}

/// A core that is granted whole gets no hint.
#[test]
fn a_core_that_is_granted_whole(rt: HostRuntime) -> Result<(), Fail> {
    let system = load(rt.alloc(), FULL.as_bytes())?;
    let found = hints(rt.alloc(), &system)?;
    assert_eq!(rt; found.as_slice(), [Hint::NoDeadline].as_slice());
    Ok(())
}

/// A core that is granted slightly more than its time gets a sum above it.
#[test]
fn a_core_that_is_granted_a_little_more_than_all(rt: HostRuntime) -> Result<(), Fail> {
    let system = load(rt.alloc(), ABOVE.as_bytes())?;
    let found = hints(rt.alloc(), &system)?;
    assert_eq!(rt;
        found.as_slice(),
        [
            Hint::NoDeadline,
            Hint::Overcommitted {
                core: CoreId(0),
                millionths: 1_000_001
            }
        ]
        .as_slice()
    );
    Ok(())
}

/// Sources without effect, a signal in a server without effect, and a call at the server's own
/// priority.
#[test]
fn badges_that_no_handler_takes(rt: HostRuntime) -> Result<(), Fail> {
    let system = load(rt.alloc(), USES.as_bytes())?;
    let found = hints(rt.alloc(), &system)?;
    let wanted = [
        Hint::Unhandled {
            source: SourceId(1),
            note: NoteId(0),
            badge: 24,
        },
        Hint::Unawaited {
            source: SourceId(2),
            note: NoteId(1),
        },
        Hint::Unheard {
            thread: ThreadId(1),
            note: NoteId(0),
            badge: 16,
        },
        Hint::Inverted {
            thread: ThreadId(1),
            server: NoteId(2),
            priority: 5,
            caller: 5,
        },
    ];
    assert_eq!(rt; found.as_slice(), wanted.as_slice());
    Ok(())
}

/// A chain that answers for a badge to which no signal leads.
#[test]
fn a_chain_that_no_signal_can_complete(rt: HostRuntime) -> Result<(), Fail> {
    let system = load(rt.alloc(), WAY.as_bytes())?;
    let found = hints(rt.alloc(), &system)?;
    let wanted = [Hint::Unreached {
        chain: ChainId(1),
        source: SourceId(0),
        thread: ThreadId(1),
    }];
    assert_eq!(rt; found.as_slice(), wanted.as_slice());
    Ok(())
}

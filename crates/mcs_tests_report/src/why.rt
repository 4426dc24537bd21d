ghost use Rattle.std.specs.Prelude.{◌≡◌, ◌≤◌, ◌^◌};

use mcs_load::load;
use mcs_system::System;
use mcs_ticks::{CoreId, Row, ThreadId, Tick, What};
use mcs_why::{Sought, Span, find, tell};
use std::alloc::Global;
use std::process::Abort;
use std::test::Fail;

/// Two threads that compute on one core.
const COMPUTES: &str = r#"
version = 1
cores = 1
delay = 1
context = [{ name = "a", core = 0, budget = 3, period = 10 }, { name = "b", core = 0, budget = 20, period = 20 }]
thread = [
  { name = "A", context = "a", priority = 6, script = ["compute 2"] },
  { name = "B", context = "b", priority = 5, script = ["compute 1"] },
]
"#;

fn row(moment: u64, what: What) -> Row
    requires { moment ≤ 2 ^ 42 }
    ensures { result.moment ≡ moment }
{
    Row {
        moment: Tick::new(moment).unwrap(),
        core: CoreId(0),
        what,
    }
}

fn run(thread: usize) -> What {
    What::Run {
        thread: ThreadId(thread),
    }
}

fn round(number: u64, response: u64) -> What {
    What::Round {
        thread: ThreadId(0),
        number,
        response,
    }
}

/// The second round follows on the first one, which ends at 1, and ends at 6.
fn second_round() -> Span {
    Span {
        thread: ThreadId(0),
        number: 2,
        core: CoreId(0),
        from: Tick::new(1).unwrap(),
        to: Tick::new(6).unwrap(),
        ended: true,
        activated: Some(Tick::new(1).unwrap()),
        begun: Some(Tick::new(1).unwrap()),
    }
}

/// Within the round the first thread runs from 1 to 2 and from 5 to 6, and the other from 2 to 5.
fn is_explained(
    rt: &impl Abort,
    alloc: Global,
    system: &System,
    thread: usize,
) -> Result<(), Fail> {
    assert!(rt; thread < system.parts().threads.len());
    let rows = [
        row(0, run(0)),
        row(1, round(1, 1)),
        row(2, run(1)),
        row(5, run(0)),
        row(6, round(2, 5)),
    ];
    let horizon = Tick::new(10).unwrap();
    let second = find(alloc, system, ThreadId(thread), 2, horizon, rows.as_slice())?;
    assert!(rt; second == Sought::There(second_round()));
    let account = tell(alloc, system, &second_round(), rows.as_slice())?;
    assert!(rt; account.ran(ThreadId(0)) == 2);
    assert!(rt; account.ran(ThreadId(1)) == 3);
    assert!(rt; account.idle() == 0);
    Ok(())
}

#[test]
fn a_round_has_its_span_and_who_ran_in_it(rt: HostRuntime) -> Result<(), Fail> {
    let system = load(rt.alloc(), COMPUTES.as_bytes())?;
    is_explained(&rt, rt.alloc(), &system, 0)
}

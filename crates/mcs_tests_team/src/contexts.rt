//! Views of the contexts of cores with different clocks.
ghost use Rattle.std.specs.Prelude.{◌≡◌, ◌<◌};

use super::orders::step;
use super::systems::{moment, system};
use mcs_control::ContextView;
use mcs_window::Cores;
use std::alloc::Global;
use std::process::Abort;
use std::test::Fail;

const BOTH: &str = r#"
version = 1
cores = 2
delay = 5
context = [
    { name = "a", core = 1, budget = 2, period = 5 },
    { name = "b", core = 0, budget = 3, period = 10 },
    { name = "c", core = 1, budget = 4, period = 4 },
]
thread = [
    { name = "A", context = "a", priority = 5, rounds = 1, script = ["compute 9"] },
    { name = "B", context = "b", priority = 5, rounds = 1, script = ["compute 9"] },
    { name = "C", context = "c", priority = 4, rounds = 1, script = ["compute 9"] },
]
"#;

/// Takes this many steps of a core; each must succeed.
fn steps(cores: &mut Cores, core: usize, many: usize) -> Result<(), Fail>
    requires { core < cores.old.system.cores }
    ensures { cores.new.system ≡ cores.old.system }
{
    for _ in 0..many {
        step(cores, core)?;
    }
    Ok(())
}

/// Checks a sporadic context's one refill, by its start and ticks, and the ticks in use.
fn shows_refill(rt: &impl Abort, view: &ContextView, refill: (u64, u64), using: u64) {
    let refills = view.refills.as_slice();
    assert_eq!(rt; refills.len(), 1);
    assert_eq!(rt; (refills[0].begins, refills[0].amount), refill);
    assert_eq!(rt; (view.left, view.using), (None, using));
}

/// Checks what is left of a round robin context's slice, and the ticks in use.
fn shows_slice(rt: &impl Abort, view: &ContextView, left: u64, using: u64) {
    assert!(rt; view.refills.as_slice().is_empty());
    assert_eq!(rt; (view.left, view.using), (Some(left), using));
}

/// Checks the three contexts: the first always has the refill at 5, the second its refill and ticks
/// in use, the third the rest of its slice and its ticks in use.
fn shows(
    rt: &impl Abort,
    alloc: Global,
    cores: &Cores,
    refill: (u64, u64),
    using: u64,
    slice: (u64, u64),
) -> Result<(), Fail> {
    let views = cores.contexts(alloc)?;
    assert_eq!(rt; views.len(), 3);
    shows_refill(rt, &views[0], (5, 2), 0);
    shows_refill(rt, &views[1], refill, using);
    shows_slice(rt, &views[2], slice.0, slice.1);
    Ok(())
}

#[test]
fn each_core_shows_its_contexts_at_its_clock(rt: HostRuntime) -> Result<(), Fail> {
    let alloc = rt.alloc();
    let horizon = moment(20)?;
    let system = system(alloc, BOTH)?;
    assert_eq!(rt; system.parts().cores, 2);
    let mut cores = Cores::new(alloc, system, horizon)?;
    show_their_contexts(&rt, alloc, &mut cores)
}

fn show_their_contexts(rt: &impl Abort, alloc: Global, cores: &mut Cores) -> Result<(), Fail>
    requires { cores.old.system.cores ≡ 2 }
{
    // core 0 has taken 0 and 1: B has run one tick. Core 1 has taken 0 to 3: A used up 2 ticks, and
    // C has run one.
    steps(cores, 0, 2)?;
    steps(cores, 1, 4)?;
    shows(rt, alloc, cores, (0, 3), 1, (4, 1))?;
    // core 0 has taken 0 to 3: B used up 3 ticks. Core 1 has taken 0 to 5: A came back and C was
    // charged 3 ticks.
    steps(cores, 0, 2)?;
    steps(cores, 1, 2)?;
    shows(rt, alloc, cores, (10, 3), 0, (1, 0))
}

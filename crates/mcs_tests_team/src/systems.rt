//! Systems, as files describe them, and moments of their runs.
ghost use Rattle.std.specs.Prelude.{◌≤◌, ◌^◌, IfOk};

use mcs_load::load;
use mcs_system::System;
use mcs_ticks::Tick;
use std::alloc::Global;
use std::sync::Arc;
use std::test::Fail;

/// Returns the system that a text describes.
pub(crate) fn system(alloc: Global, text: &str) -> Result<Arc<System>, Fail> {
    let system = load(alloc, text.as_bytes())?;
    Ok(Arc::new(alloc, system)?)
}

/// Returns a moment of a run.
pub(crate) fn moment(ticks: u64) -> Result<Tick, Fail>
    ensures { IfOk result (λ moment. moment ≤ 2 ^ 40) }
{
    let moment = Tick::new(ticks).ok_or("a moment")?;
    if moment.get() > 1_099_511_627_776 {
        return Err(Fail::from("a moment of a run"));
    }
    Ok(moment)
}

/// Two cores without threads.
pub const IDLE: &str = "version = 1\ncores = 2\ndelay = 1\n";

/// One thread on one core computes for longer than its budget.
pub const DEPLETES: &str = r#"
version = 1
cores = 1
delay = 1
context = [{ name = "a", core = 0, budget = 2, period = 5 }]
thread = [{ name = "A", context = "a", priority = 5, rounds = 1, script = ["compute 5"] }]
"#;

/// One thread, on the second of two cores, computes for a tick.
pub const ONE_TICK: &str = r#"
version = 1
cores = 2
delay = 3
context = [{ name = "a", core = 1, budget = 2, period = 5 }]
thread = [{ name = "A", context = "a", priority = 5, rounds = 1, script = ["compute 1"] }]
"#;

/// A core signals another one three times.
pub const SIGNALS: &str = r#"
version = 1
cores = 2
delay = 3
context = [{ name = "s", core = 1, budget = 5, period = 10 }]
note = [{ name = "n", core = 0 }]
thread = [{ name = "S", context = "s", priority = 5, rounds = 1, script = ["compute 1", "signal n 1", "signal n 2", "signal n 4"] }]
"#;

/// Two cores signal a third one.
pub const TWO_MAKERS: &str = r#"
version = 1
cores = 3
delay = 2
context = [
    { name = "s", core = 0, budget = 5, period = 10 },
    { name = "t", core = 1, budget = 5, period = 10 },
    { name = "w", core = 2, budget = 5, period = 10 },
]
note = [{ name = "n", core = 2 }]
thread = [
    { name = "S", context = "s", priority = 5, script = ["compute 1", "signal n 1"] },
    { name = "T", context = "t", priority = 5, script = ["compute 1", "signal n 2"] },
    { name = "W", context = "w", priority = 5, script = ["wait n", "compute 1"] },
]
"#;

/// Two cores signal a third one, each of them once.
pub const ONE_ROUND: &str = r#"
version = 1
cores = 3
delay = 2
context = [
    { name = "s", core = 0, budget = 5, period = 10 },
    { name = "t", core = 1, budget = 5, period = 10 },
    { name = "w", core = 2, budget = 5, period = 10 },
]
note = [{ name = "n", core = 2 }]
thread = [
    { name = "S", context = "s", priority = 5, rounds = 1, script = ["compute 1", "signal n 1"] },
    { name = "T", context = "t", priority = 5, rounds = 1, script = ["compute 1", "signal n 2"] },
    { name = "W", context = "w", priority = 5, rounds = 1, script = ["wait n", "compute 1"] },
]
"#;

/// Three cores in a ring: each signals the next one when it is signalled, and the first one begins.
pub const RING: &str = r#"
version = 1
cores = 3
delay = 1
context = [
    { name = "a", core = 0, budget = 5, period = 10 },
    { name = "b", core = 1, budget = 5, period = 10 },
    { name = "c", core = 2, budget = 5, period = 10 },
]
note = [{ name = "p", core = 0 }, { name = "q", core = 1 }, { name = "r", core = 2 }]
thread = [
    { name = "A", context = "a", priority = 1, rounds = 1, script = ["signal q 1", "wait p", "compute 1"] },
    { name = "B", context = "b", priority = 1, rounds = 1, script = ["wait q", "signal r 1"] },
    { name = "C", context = "c", priority = 1, rounds = 1, script = ["wait r", "signal p 1"] },
]
"#;

/// The ring with longer delays except between the first two cores.
pub const RING_OF_LINKS: &str = r#"
version = 2
cores = 3
delay = 3
link = [{ maker = 0, home = 1, delay = 1 }, { maker = 1, home = 0, delay = 1 }]
context = [
    { name = "a", core = 0, budget = 5, period = 10 },
    { name = "b", core = 1, budget = 5, period = 10 },
    { name = "c", core = 2, budget = 5, period = 10 },
]
note = [{ name = "p", core = 0 }, { name = "q", core = 1 }, { name = "r", core = 2 }]
thread = [
    { name = "A", context = "a", priority = 5, script = ["signal q 1", "wait p", "compute 1"] },
    { name = "B", context = "b", priority = 5, script = ["wait q", "signal r 1"] },
    { name = "C", context = "c", priority = 5, script = ["wait r", "signal p 1"] },
]
"#;

/// Two cores signal each other again and again, with a long delay.
pub const LONG_DELAY: &str = r#"
version = 1
cores = 2
delay = 60
context = [
    { name = "a", core = 0, budget = 2, period = 3 },
    { name = "b", core = 1, budget = 2, period = 3 },
]
note = [{ name = "n", core = 1 }, { name = "m", core = 0 }]
thread = [
    { name = "A", context = "a", priority = 5, script = ["compute 1", "signal n 1"] },
    { name = "B", context = "b", priority = 5, script = ["compute 1", "signal m 1"] },
]
"#;

/// Two cores signal each other again and again, with a delay of a million.
pub const FAR_APART: &str = r#"
version = 1
cores = 2
delay = 1000000
context = [
    { name = "a", core = 0, budget = 2, period = 3 },
    { name = "b", core = 1, budget = 2, period = 3 },
]
note = [{ name = "n", core = 1 }, { name = "m", core = 0 }]
thread = [
    { name = "A", context = "a", priority = 5, script = ["compute 1", "signal n 1"] },
    { name = "B", context = "b", priority = 5, script = ["compute 1", "signal m 1"] },
]
"#;

/// The first of eight cores signals the last one, with the longest delay at which their rows are
/// counted in step.
pub const EIGHT_CLOSE: &str = r#"
version = 1
cores = 8
delay = 4
context = [
    { name = "s", core = 0, budget = 5, period = 10 },
    { name = "w", core = 7, budget = 5, period = 10 },
]
note = [{ name = "n", core = 7 }]
thread = [
    { name = "S", context = "s", priority = 5, rounds = 1, script = ["compute 1", "signal n 1"] },
    { name = "W", context = "w", priority = 5, rounds = 1, script = ["wait n", "compute 1"] },
]
"#;

/// The first of eight cores signals the last one, with a delay that is one tick longer.
pub const EIGHT_APART: &str = r#"
version = 1
cores = 8
delay = 5
context = [
    { name = "s", core = 0, budget = 5, period = 10 },
    { name = "w", core = 7, budget = 5, period = 10 },
]
note = [{ name = "n", core = 7 }]
thread = [
    { name = "S", context = "s", priority = 5, rounds = 1, script = ["compute 1", "signal n 1"] },
    { name = "W", context = "w", priority = 5, rounds = 1, script = ["wait n", "compute 1"] },
]
"#;

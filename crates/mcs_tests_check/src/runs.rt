//! Two systems, their options, and what is written about them.
ghost use Rattle.std.specs.Prelude.{◌≤◌, ◌^◌};

use mcs_check::check;
use mcs_check_run::Quiet;
use mcs_check_words::{Format, Options, Show};
use mcs_cli::{FromRead, IntoWrite};
use mcs_ticks::Tick;
use std::alloc::Global;
use std::str;
use std::sync::Wait;
use std::test::Fail;
use std::thread::Threads;

/// A thread that computes for 5 ticks and gets 2 in 5. It needs 11 ticks, and its deadline is 10.
pub(crate) const LATE: &str = r#"
version = 1
cores = 1
delay = 1
context = [{ name = "a", core = 0, budget = 2, period = 5 }]
thread = [{ name = "A", context = "a", priority = 5, rounds = 1, deadline = 10, script = ["compute 5"] }]
"#;

/// A thread that signals at 1, 3 and 5, for which nobody waits.
pub(crate) const SIGNALS: &str = r#"
version = 1
cores = 1
delay = 1
context = [{ name = "a", core = 0, budget = 10, period = 10 }]
note = [{ name = "tick", core = 0 }]
thread = [{ name = "A", context = "a", priority = 5, script = ["signal tick 1", "compute 1"] }]
"#;

/// Options for findings as text, with lost signals allowed at these notifications.
pub(crate) fn options(
    alloc: Global,
    horizon: u64,
    workers: usize,
    allowed: &[&str],
) -> Result<Options, Fail>
    requires horizon { horizon ≤ 2 ^ 40 }
    requires workers { (1 ≤ workers) × (workers ≤ 64) }
{
    let mut names = Vec::new(alloc);
    for name in allowed {
        names.push(String::from_str(alloc, name)?)?;
    }
    Ok(Options {
        file: None,
        horizon: Tick::new(horizon).unwrap(),
        workers,
        allowed: names,
        strict: false,
        show: Show::Findings,
        show_given: false,
        format: Format::Text,
        why: None,
        forever: false,
    })
}

/// The text that is written about a system, followed by the line of the fault.
pub(crate) fn written(
    rt: &(impl Threads + Wait + Sync),
    alloc: Global,
    system: &str,
    options: &Options,
) -> Result<String, Fail> {
    let mut source = FromRead::new(system.as_bytes());
    let mut target = IntoWrite::new(Vec::with_capacity(alloc, 4096)?);
    let ended = check(rt, alloc, &mut source, &mut target, options, &mut Quiet);
    let bytes = target.into_inner();
    let text = str::from_utf8(bytes.as_slice()).unwrap_or("bytes that are no text");
    let told = match ended {
        Ok(_) => String::from_str(alloc, text)?,
        Err(fault) => format!(in alloc; "{text}{fault}")?,
    };
    Ok(told)
}

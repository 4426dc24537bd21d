//! Checks in memory, on the caller's thread alone.

use crate::findings::WHAT_IS_LATE;
use crate::runs::{LATE, options};
use mcs_check::check_alone;
use mcs_check_forever::{ForeverFault, Verdict, foretell_alone};
use mcs_check_words::Options;
use mcs_load::load;
use std::alloc::Global;
use std::str;
use std::test::Fail;

/// The job ends at 11, a tick after its deadline. Up to then no state is an earlier one, later.
const SO_FAR: &str = "\
cores 0: no repetition found up to 11
miss A: 1 so far
thread A: greatest response 11 so far
sets 1 repeating 0 findings 1 threads 1 deadlines 1
";

/// At 9 the job may still end at its deadline, 10.
const NOTHING_YET: &str = "\
cores 0: no repetition found up to 9
thread A: greatest response - so far
sets 1 repeating 0 findings 0 threads 1 deadlines 1
";

/// A loop of 3 ticks in each 10, and a guest that computes in the rest.
const GUEST: &str = r#"
version = 1
cores = 1
delay = 1
context = [{ name = "loop", core = 0, budget = 3, period = 10 }, { name = "guest", core = 0, budget = 10, period = 10 }]
thread = [
    { name = "Loop", context = "loop", priority = 9, deadline = 5, script = ["compute 2", "yield"] },
    { name = "Guest", context = "guest", priority = 1, script = ["compute 1000000"] },
]
"#;

/// The guest has 7 of each 10 ticks, so its time slice of 10 ends at the same place after 100. The
/// rest of its `compute` is not compared.
const FOR_EVER: &str = "\
cores 0: repeats from 173 with period 100
thread Loop: greatest response 3, throttled: never
thread Guest: computes without end
nothing is ever found
sets 1 repeating 1 findings 0 threads 2 deadlines 1
";

/// An interrupt each 20 ticks from 40 on wakes Driver, which signals Filter 3 ticks later. The
/// signal takes 3, and the job of Filter 5.
const PIPELINE: &str = r#"
version = 3
cores = 2
delay = 3
context = [
    { name = "driver", core = 0, budget = 10, period = 20, extra_refills = 4 },
    { name = "filter", core = 1, budget = 12, period = 20, extra_refills = 4 },
]
note = [{ name = "irq", core = 0 }, { name = "data", core = 1 }]
thread = [
    { name = "Driver", context = "driver", priority = 50, script = ["wait irq", "compute 2", "signal data 1"] },
    { name = "Filter", context = "filter", priority = 50, script = ["wait data", "compute 5"] },
]
source = [{ name = "nic", note = "irq", badge = 1, period = 20, start = 40 }]
chain = [
    { name = "packet", source = "nic", thread = "Filter", deadline = 11 },
    { name = "tight", source = "nic", thread = "Filter", deadline = 10 },
    { name = "none", source = "nic", thread = "Filter", badges = 2, deadline = 20 },
]
"#;

/// Each interrupt has its answer 11 ticks later, those of 40 and 60 before the first period. No job
/// of Filter has the badge 2.
const ANSWERED: &str = "\
cores 0: repeats from 51 with period 20
thread Driver: greatest response 3, throttled: never
nothing is ever found
cores 0 1: repeats from 72 with period 20
thread Filter: greatest response 5, throttled: never
nothing is ever found
chain packet: repeats from 72 with period 20, greatest latency 11, answers 1 in each period
chain tight: repeats from 72 with period 20, greatest latency 11, answers 1 in each period
slow tight: 1 in each period, 2 before
chain none: repeats from 72 with period 20, greatest latency -, answers 0 in each period
unanswered none: 1 in each period, 2 before
sets 2 repeating 2 findings 2 threads 2 deadlines 3
";

/// An interrupt each 10 ticks wakes Loop, which runs before the guest and answers in time. The
/// guest would compute far beyond a horizon of 1,000.
const GUEST_AND_CHAIN: &str = r#"
version = 3
cores = 1
delay = 1
context = [{ name = "loop", core = 0, budget = 3, period = 10 }, { name = "guest", core = 0, budget = 10, period = 10 }]
note = [{ name = "irq", core = 0 }]
thread = [
    { name = "Loop", context = "loop", priority = 9, deadline = 5, script = ["wait irq", "compute 2"] },
    { name = "Guest", context = "guest", priority = 1, script = ["compute 1000000"] },
]
source = [{ name = "nic", note = "irq", badge = 1, period = 10 }]
chain = [{ name = "packet", source = "nic", thread = "Loop", deadline = 5 }]
"#;

/// The text for all time with the verdict, or the line of the fault.
fn foretold(
    alloc: Global,
    text: &str,
    options: &Options,
) -> Result<(String, Option<Verdict>), Fail> {
    let system = load(alloc, text.as_bytes())?;
    match foretell_alone(alloc, system, options) {
        Ok((verdict, text)) => {
            let text = str::from_utf8(text.as_slice()).unwrap_or("bytes that are no text");
            Ok((String::from_str(alloc, text)?, Some(verdict)))
        }
        Err(fault) => Ok((format!(in alloc; "{fault}")?, None)),
    }
}

#[test]
fn a_system_is_checked_in_memory(rt: HostRuntime) -> Result<(), Fail> {
    let options = options(rt.alloc(), 20, 1, &[])?;
    let system = load(rt.alloc(), LATE.as_bytes())?;
    let Ok((text, _)) = check_alone(rt.alloc(), system, &options) else {
        return Err(Fail::from("a refusal"));
    };
    let text = str::from_utf8(text.as_slice()).unwrap_or("bytes that are no text");
    assert_eq!(rt; text, WHAT_IS_LATE);
    Ok(())
}

#[test]
fn options_that_do_not_go_with_all_time(rt: HostRuntime) -> Result<(), Fail> {
    let mut options = options(rt.alloc(), 20, 1, &[])?;
    options.strict = true;
    let system = load(rt.alloc(), LATE.as_bytes())?;
    let fault = foretell_alone(rt.alloc(), system, &options);
    assert!(rt; matches!(fault, Err(ForeverFault::Mixed)));
    Ok(())
}

#[test]
fn all_time_is_told_in_memory(rt: HostRuntime) -> Result<(), Fail> {
    let far = options(rt.alloc(), 11, 1, &[])?;
    let (text, verdict) = foretold(rt.alloc(), LATE, &far)?;
    assert_eq!(rt; text.as_str(), SO_FAR);
    assert!(rt; verdict == Some(Verdict::Found));
    let near = options(rt.alloc(), 9, 1, &[])?;
    let (text, verdict) = foretold(rt.alloc(), LATE, &near)?;
    assert_eq!(rt; text.as_str(), NOTHING_YET);
    assert!(rt; verdict == Some(Verdict::Open));
    Ok(())
}

#[test]
fn a_guest_that_only_computes_spins(rt: HostRuntime) -> Result<(), Fail> {
    let options = options(rt.alloc(), 1_000, 1, &[])?;
    let (text, verdict) = foretold(rt.alloc(), GUEST, &options)?;
    assert_eq!(rt; text.as_str(), FOR_EVER);
    assert!(rt; verdict == Some(Verdict::Clean));
    Ok(())
}

#[test]
fn a_guest_spins_beside_a_chain(rt: HostRuntime) -> Result<(), Fail> {
    let options = options(rt.alloc(), 1_000, 1, &[])?;
    let (_, verdict) = foretold(rt.alloc(), GUEST_AND_CHAIN, &options)?;
    assert!(rt; verdict == Some(Verdict::Clean));
    Ok(())
}

#[test]
fn chains_are_told_for_all_time(rt: HostRuntime) -> Result<(), Fail> {
    let options = options(rt.alloc(), 1_000, 1, &[])?;
    let (text, verdict) = foretold(rt.alloc(), PIPELINE, &options)?;
    assert_eq!(rt; text.as_str(), ANSWERED);
    assert!(rt; verdict == Some(Verdict::Found));
    Ok(())
}

#[test]
fn an_unknown_name_is_refused_for_all_time(rt: HostRuntime) -> Result<(), Fail> {
    let options = options(rt.alloc(), 11, 1, &["tick"])?;
    let (text, verdict) = foretold(rt.alloc(), LATE, &options)?;
    let expected = "mcscheck: --allow-lost: no notification is called \"tick\": there is none";
    assert_eq!(rt; text.as_str(), expected);
    assert!(rt; verdict.is_none());
    Ok(())
}

//! Explanations in memory, on the caller's thread alone.

use crate::asked::{options, question};
use mcs_check_words::Options;
use mcs_explain::{WhyFault, explain_alone};
use mcs_load::load;
use std::alloc::Global;
use std::str;
use std::test::Fail;

/// A thread that computes for 5 ticks and gets 2 in 5. It needs 11 ticks, and its deadline is 10.
const LATE: &str = r#"
version = 1
cores = 1
delay = 1
context = [{ name = "a", core = 0, budget = 2, period = 5 }]
thread = [{ name = "A", context = "a", priority = 5, rounds = 1, deadline = 10, script = ["compute 5"] }]
"#;

/// The job of A begins at 0 and takes 5 ticks. The budget of 2 is exhausted at 2 and at 7, and
/// replenished at 5 and at 10.
const WHY_A: &str = "\
0 0 release A
0 0 run A
2 0 stop A spent 2 until 5
5 0 release A
5 0 run A
7 0 stop A spent 2 until 10
10 0 release A
10 0 run A
11 0 round A 1 11
11 0 stop A done 1
why A round 1 from 0 to 11 waited 0 activated 0 begun 0 ended 11
ran A ticks 5
idle ticks 6
";

/// The text of a round of a thread, or the line of the fault.
fn explained(alloc: Global, options: &Options, thread: &str, round: &str) -> Result<String, Fail> {
    let question = question(alloc, thread, round)?;
    let system = load(alloc, LATE.as_bytes())?;
    match explain_alone(alloc, system, options, &question) {
        Ok(text) => Ok(String::from_str(
            alloc,
            str::from_utf8(text.as_slice()).unwrap_or("bytes that are no text"),
        )?),
        Err(fault) => Ok(format!(in alloc; "{fault}")?),
    }
}

#[test]
fn a_round_is_explained_in_memory(rt: HostRuntime) -> Result<(), Fail> {
    let options = options(rt.alloc(), 20, 1);
    let text = explained(rt.alloc(), &options, "A", "1")?;
    assert_eq!(rt; text.as_str(), WHY_A);
    Ok(())
}

#[test]
fn what_is_not_there_is_not_explained(rt: HostRuntime) -> Result<(), Fail> {
    let options = options(rt.alloc(), 20, 1);
    let text = explained(rt.alloc(), &options, "B", "1")?;
    assert_eq!(rt;
        text.as_str(),
        "mcscheck: --why: no thread is called \"B\": the nearest is A"
    );
    let text = explained(rt.alloc(), &options, "A", "2")?;
    assert_eq!(rt;
        text.as_str(),
        "mcscheck: --why: no round \"2\" of A: there is round 1"
    );
    Ok(())
}

#[test]
fn options_that_do_not_go_with_a_round(rt: HostRuntime) -> Result<(), Fail> {
    let mut options = options(rt.alloc(), 20, 1);
    options.strict = true;
    let question = question(rt.alloc(), "A", "1")?;
    let system = load(rt.alloc(), LATE.as_bytes())?;
    let fault = explain_alone(rt.alloc(), system, &options, &question);
    assert!(rt; matches!(fault, Err(WhyFault::Mixed)));
    Ok(())
}

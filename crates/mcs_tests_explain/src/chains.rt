//! The ways of answers of chains, worked by hand from the rules.

use crate::asked::{options, question};
use mcs_check_words::{Format, Options};
use mcs_explain::explain_alone;
use mcs_load::load;
use std::alloc::Global;
use std::str;
use std::test::Fail;

/// A job of L takes 20 ticks, and an interrupt comes each 10, the first one at 2. The job that ends
/// at 43 takes the interrupts at 12 and 22 at 23, and answers both.
const LOOP: &str = r#"
version = 3
cores = 1
delay = 1
context = [{ name = "l", core = 0, budget = 100, period = 100 }]
note = [{ name = "n", core = 0 }]
thread = [{ name = "L", context = "l", priority = 5, script = ["wait n", "compute 20"] }]
source = [{ name = "s", note = "n", badge = 1, period = 10, start = 2 }]
chain = [{ name = "c", source = "s", thread = "L", deadline = 20 }]
"#;

const FIRST_WAY: &str = "\
22 0 answer c round 1 origin 2 latency 20 deadline 20
2 0 ran L to 22 ticks 20 ready 0 running 20 throttled 0 blocked 0 server 0
sum ticks 20 held 0 delay 0 ready 0 running 20 throttled 0 blocked 0 server 0
";

/// JSON also has the thread and the number of its job.
const FIRST_OBJECTS: &str =
    r#"{"moment":22,"core":0,"kind":"answer","thread":"L","number":1,"chain":"c","latency":20,"deadline":20,"origin":2}
{"moment":2,"core":0,"kind":"ran","thread":"L","to":22,"ticks":20,"ready":0,"running":20,"throttled":0,"blocked":0,"server":0}
{"kind":"sum","ticks":20,"held":0,"delay":0,"ready":0,"running":20,"throttled":0,"blocked":0,"server":0}
"#;

/// The notification holds the interrupt until L waits again.
const THIRD_WAY: &str = "\
43 0 answer c round 2 origin 22 latency 21 deadline 20
22 0 held n to 23 ticks 1
23 0 ran L to 43 ticks 20 ready 0 running 20 throttled 0 blocked 0 server 0
sum ticks 21 held 1 delay 0 ready 0 running 20 throttled 0 blocked 0 server 0
";

const LONG: &str = "aaaaaaaaaaaaaaaaaaaaaaaaaaaaaaaaaaaaaaaaaaaaaaaaaaaaaaaaaaaaaaaaa";

/// The text of an answer of the loop, or the exit code and the line of the fault.
fn told(alloc: Global, options: &Options, name: &str, number: &str) -> Result<String, Fail> {
    let question = question(alloc, name, number)?;
    let system = load(alloc, LOOP.as_bytes())?;
    match explain_alone(alloc, system, options, &question) {
        Ok(text) => Ok(String::from_str(
            alloc,
            str::from_utf8(text.as_slice()).unwrap_or("bytes that are no text"),
        )?),
        Err(fault) => {
            let status = fault.status();
            Ok(format!(in alloc; "{status} {fault}")?)
        }
    }
}

#[test]
fn ways_in_memory(rt: HostRuntime) -> Result<(), Fail> {
    let options = options(rt.alloc(), 52, 1);
    let text = told(rt.alloc(), &options, "c", "1")?;
    assert_eq!(rt; text.as_str(), FIRST_WAY);
    let text = told(rt.alloc(), &options, "c", "3")?;
    assert_eq!(rt; text.as_str(), THIRD_WAY);
    Ok(())
}

#[test]
fn a_way_as_objects(rt: HostRuntime) -> Result<(), Fail> {
    let mut options = options(rt.alloc(), 52, 1);
    options.format = Format::Json;
    let text = told(rt.alloc(), &options, "c", "1")?;
    assert_eq!(rt; text.as_str(), FIRST_OBJECTS);
    Ok(())
}

/// L and c are as near to b, and the thread comes first.
#[test]
fn answers_that_are_not_there(rt: HostRuntime) -> Result<(), Fail> {
    for (name, number, want) in [
        (
            "c",
            "4",
            "2 mcscheck: --why: no answer \"4\" of c: there are answers 1 to 3",
        ),
        (
            "cc",
            "1",
            "2 mcscheck: --why: no thread or chain is called \"cc\": the nearest is c",
        ),
        (
            "b",
            "1",
            "2 mcscheck: --why: no thread or chain is called \"b\": the nearest is L",
        ),
        (
            LONG,
            "1",
            "2 mcscheck: --why: no thread or chain is called \"aaaaaaaaaaaaaaaaaaaaaaaaaaaaaaaaaaaaaaaaaaaaaaaaaaaaaaaaaaaaaaaaa\": there is none",
        ),
    ] {
        let text = told(rt.alloc(), &options(rt.alloc(), 52, 1), name, number)?;
        assert_eq!(rt; text.as_str(), want);
    }
    let text = told(rt.alloc(), &options(rt.alloc(), 22, 1), "c", "last")?;
    assert_eq!(rt;
        text.as_str(),
        "2 mcscheck: --why: no answer \"last\" of c: there is answer 1"
    );
    let text = told(rt.alloc(), &options(rt.alloc(), 21, 1), "c", "1")?;
    assert_eq!(rt;
        text.as_str(),
        "2 mcscheck: --why: no answer \"1\" of c: there is none"
    );
    Ok(())
}

//! A line of each kind, in words and as an object.
use mcs_ever::CoreSet;
use mcs_ever_told::{Line, LineFormat, Often, Totals, put_lines};
use mcs_load::load;
use mcs_system::System;
use mcs_ticks::{Limits, NoteId, ThreadId, Tick};
use std::alloc::Global;
use std::process::Abort;
use std::str;
use std::test::Fail;

const THREE_CORES: &str = r#"
version = 1
cores = 3
delay = 1
context = [{ name = "c", core = 0, budget = 2, period = 5 }]
note = [{ name = "N", core = 0 }]
thread = [{ name = "T", context = "c", priority = 5, deadline = 10, script = ["wait N", "compute 5"] }]
"#;

const IN_WORDS: &str = "\
cores 0 2: repeats from 13 with period 12
cores 0 2: no repetition found up to 10000000
miss T: 2 in each period, 1 before
lost N: 3 so far
overdue T at 25
never T up to 25
untaken N at 25
overdue T round 3 activated 13 for ever
never T for ever
untaken N by T word 5 set 13 for ever
thread T: greatest response 4, throttled: never, ends no round from 13 on
thread T: computes without end, throttled: never
thread T: computes without end
thread T: greatest response 9 so far
nothing is ever found
sets 3 repeating 2 findings 0 threads 4 deadlines 1
";

const AS_OBJECTS: &str = r#"{"kind":"repeats","cores":"0 2","from":13,"period":12}
{"kind":"open","cores":"0 2","horizon":10000000}
{"kind":"miss","thread":"T","each_period":2,"before":1}
{"kind":"lost","note":"N","so_far":3}
{"kind":"overdue","thread":"T","moment":25}
{"kind":"never","thread":"T","moment":25}
{"kind":"untaken","note":"N","moment":25}
{"kind":"overdue","thread":"T","number":3,"activated":13}
{"kind":"never","thread":"T"}
{"kind":"untaken","note":"N","by":["T"],"word":5,"set":13}
{"kind":"thread","thread":"T","greatest":4,"throttled":"never","ends_no_round_from":13}
{"kind":"computes","thread":"T","throttled":"never"}
{"kind":"computes","thread":"T"}
{"kind":"thread_so_far","thread":"T","greatest":9}
{"kind":"clean","cores":"0 2"}
{"kind":"sets","sets":3,"repeating":2,"findings":0,"threads":4,"deadlines":1}
"#;

/// Cores 0 and 2, and a core that the system does not have.
fn cores() -> CoreSet {
    let mut cores = [false; Limits::CORES];
    cores[0] = true;
    cores[2] = true;
    cores[3] = true;
    cores
}

/// A line of each kind.
fn lines() -> [Line; 16] {
    let cores = cores();
    let thread = ThreadId(0);
    let note = NoteId(0);
    let from = Tick::new(13).unwrap();
    let moment = Tick::new(25).unwrap();
    [
        Line::Repeats {
            cores,
            from,
            period: 12,
        },
        Line::Open {
            cores,
            horizon: Tick::new(10_000_000).unwrap(),
        },
        Line::Miss {
            thread,
            often: Often::Forever {
                before: 1,
                each_period: 2,
            },
        },
        Line::Lost {
            note,
            often: Often::SoFar { times: 3 },
        },
        Line::Overdue { thread, moment },
        Line::Never { thread, moment },
        Line::Untaken { note, moment },
        Line::Endless {
            thread,
            number: 3,
            activated: from,
        },
        Line::Inactive { thread },
        Line::Abandoned {
            note,
            word: 5,
            set: from,
        },
        Line::Thread {
            thread,
            greatest: Some(4),
            never_throttled: true,
            silent_from: Some(from),
        },
        Line::Computes {
            thread,
            never_throttled: true,
        },
        Line::Computes {
            thread,
            never_throttled: false,
        },
        Line::ThreadSoFar {
            thread,
            greatest: Some(9),
        },
        Line::Clean { cores },
        Line::Sets {
            totals: Totals {
                sets: 3,
                repeating: 2,
                findings: 0,
                threads: 4,
                deadlines: 1,
            },
        },
    ]
}

fn are_told(
    rt: &impl Abort,
    alloc: Global,
    system: &System,
    format: LineFormat,
    want: &str,
) -> Result<(), Fail> {
    let mut text = Vec::new(alloc);
    put_lines(alloc, &mut text, format, system, lines().as_slice())?;
    assert_eq!(rt; str::from_utf8(text.as_slice()), Ok(want));
    Ok(())
}

#[test]
fn each_line_in_words(rt: HostRuntime) -> Result<(), Fail> {
    let system = load(rt.alloc(), THREE_CORES.as_bytes())?;
    are_told(&rt, rt.alloc(), &system, LineFormat::Text, IN_WORDS)
}

#[test]
fn each_line_as_an_object(rt: HostRuntime) -> Result<(), Fail> {
    let system = load(rt.alloc(), THREE_CORES.as_bytes())?;
    are_told(&rt, rt.alloc(), &system, LineFormat::Json, AS_OBJECTS)
}

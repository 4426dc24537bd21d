//! Explanations of rounds, as text and as JSON.

use crate::asked::{options, question};
use mcs_check_run::Quiet;
use mcs_check_words::{Format, Options, Question};
use mcs_cli::{FromRead, IntoWrite, RunFault};
use mcs_explain::{WhyFault, explain, explain_with};
use std::alloc::Global;
use std::rt::Files;
use std::str;
use std::sync::Wait;
use std::test::Fail;
use std::thread::Threads;

/// Low takes the lock at 2, and High waits for it from 5 to 29. Mid has nothing to do with it, and
/// keeps Low from running from 6 to 26.
const LOCK: &str = r#"
version = 1
cores = 1
delay = 1
context = [
    { name = "i", core = 0, budget = 1, period = 1000 },
    { name = "l", core = 0, budget = 50, period = 100 },
    { name = "m", core = 0, budget = 50, period = 100 },
    { name = "h", core = 0, budget = 50, period = 100 },
]
note = [{ name = "lock", core = 0 }]
thread = [
    { name = "Init", context = "i", priority = 255, rounds = 1, script = ["signal lock 1"] },
    { name = "Low", context = "l", priority = 1, rounds = 1, script = ["wait lock", "compute 5", "signal lock 1"] },
    { name = "Mid", context = "m", priority = 5, rounds = 1, start = 6, script = ["compute 20"] },
    { name = "High", context = "h", priority = 9, rounds = 1, start = 4, script = ["wait lock", "compute 2", "signal lock 1"] },
]
"#;

const WHY_HIGH: &str = "\
5 0 stop High wait 1
5 0 run Low
6 0 release Mid
6 0 stop Low preempt 1
6 0 run Mid
26 0 round Mid 1 20
26 0 stop Mid done 20
26 0 run Low
29 0 signal Low lock 1
29 0 wake High lock 1
29 0 round Low 1 27
29 0 stop Low done 3
29 0 run High
32 0 signal High lock 1
32 0 hold lock 1
32 0 round High 1 3
32 0 stop High done 3
why High round 1 from 5 to 32 waited 24 activated 29 begun 29 ended 32
ran Low ticks 4
ran Mid ticks 20
ran High ticks 3
idle ticks 0
";

/// Up to 6 the round has not begun.
const NOT_BEGUN: &str = "\
{\"moment\":5,\"core\":0,\"kind\":\"stop\",\"thread\":\"High\",\"why\":\"wait\",\"charged\":1}
{\"moment\":5,\"core\":0,\"kind\":\"run\",\"thread\":\"Low\"}
{\"moment\":6,\"core\":0,\"kind\":\"release\",\"thread\":\"Mid\"}
{\"moment\":6,\"core\":0,\"kind\":\"stop\",\"thread\":\"Low\",\"why\":\"preempt\",\"charged\":1}
{\"moment\":6,\"core\":0,\"kind\":\"run\",\"thread\":\"Mid\"}
{\"kind\":\"why\",\"thread\":\"High\",\"number\":1,\"from\":5,\"to\":6,\"waited\":1}
{\"kind\":\"ran\",\"thread\":\"Low\",\"ticks\":1}
{\"kind\":\"idle\",\"ticks\":0}
";

/// T never reaches its wait: Busy runs from T's start on.
const STARVED: &str = r#"
version = 1
cores = 1
delay = 1
context = [{ name = "b", core = 0, budget = 50, period = 100 }, { name = "t", core = 0, budget = 50, period = 100 }]
note = [{ name = "n", core = 0 }]
thread = [
    { name = "Busy", context = "b", priority = 5, script = ["compute 40"] },
    { name = "T", context = "t", priority = 1, start = 3, script = ["wait n", "compute 1"] },
]
"#;

const WHY_STARVED: &str = "\
3 0 release T
why T round 1 from 3 to 10 waited 7 activated - begun - ended -
ran Busy ticks 7
idle ticks 0
";

const NOT_SO: &str = "mcscheck: --why: not with --show, --strict, --allow-lost or --format csv";

/// The text about a round of the lock, followed by the exit code and line of the fault.
fn written(
    rt: &(impl Threads + Wait + Sync),
    alloc: Global,
    options: &Options,
    question: &Question,
) -> Result<String, Fail> {
    written_of(rt, alloc, LOCK, options, question)
}

/// `written` for a round of this system.
fn written_of(
    rt: &(impl Threads + Wait + Sync),
    alloc: Global,
    system: &str,
    options: &Options,
    question: &Question,
) -> Result<String, Fail> {
    let mut source = FromRead::new(system.as_bytes());
    let mut target = IntoWrite::new(Vec::with_capacity(alloc, 4096)?);
    let ended = explain(
        rt,
        alloc,
        &mut source,
        &mut target,
        options,
        question,
        &mut Quiet,
    );
    let bytes = target.into_inner();
    let text = str::from_utf8(bytes.as_slice()).unwrap_or("bytes that are no text");
    let told = match ended {
        Ok(()) => String::from_str(alloc, text)?,
        Err(fault) => {
            let status = fault.status();
            format!(in alloc; "{text}{status} {fault}")?
        }
    };
    Ok(told)
}

#[test]
fn a_lock_is_told(rt: HostRuntime) -> Result<(), Fail> {
    let question = question(rt.alloc(), "High", "1")?;
    for workers in [1, 2] {
        let options = options(rt.alloc(), 100, workers);
        let text = written(&rt, rt.alloc(), &options, &question)?;
        assert_eq!(rt; text.as_str(), WHY_HIGH, "workers: {workers}");
    }
    let mut options = options(rt.alloc(), 6, 1);
    options.format = Format::Json;
    let text = written(&rt, rt.alloc(), &options, &question)?;
    assert_eq!(rt; text.as_str(), NOT_BEGUN);
    Ok(())
}

/// If a thread never reached the wait with which its rounds begin, the span begins at its start.
/// Before that there is no round.
#[test]
fn who_ran_before_a_first_wait(rt: HostRuntime) -> Result<(), Fail> {
    let question = question(rt.alloc(), "T", "1")?;
    let behind_its_start = options(rt.alloc(), 10, 1);
    let text = written_of(&rt, rt.alloc(), STARVED, &behind_its_start, &question)?;
    assert_eq!(rt; text.as_str(), WHY_STARVED);
    let before_it = options(rt.alloc(), 2, 1);
    let text = written_of(&rt, rt.alloc(), STARVED, &before_it, &question)?;
    assert_eq!(rt;
        text.as_str(),
        "2 mcscheck: --why: no round \"1\" of T: there is none"
    );
    Ok(())
}

/// A name of two lines is written in one line, and one of more than 64 bytes has no nearest name.
#[test]
fn rounds_that_are_not_there(rt: HostRuntime) -> Result<(), Fail> {
    for (thread, round, want) in [
        (
            "Hihg",
            "1",
            "2 mcscheck: --why: no thread is called \"Hihg\": the nearest is High",
        ),
        (
            "a\nb",
            "1",
            "2 mcscheck: --why: no thread is called \"a\\nb\": the nearest is Low",
        ),
        (
            "aaaaaaaaaaaaaaaaaaaaaaaaaaaaaaaaaaaaaaaaaaaaaaaaaaaaaaaaaaaaaaaa",
            "1",
            "2 mcscheck: --why: no thread is called \"aaaaaaaaaaaaaaaaaaaaaaaaaaaaaaaaaaaaaaaaaaaaaaaaaaaaaaaaaaaaaaaa\": the nearest is Init",
        ),
        (
            "aaaaaaaaaaaaaaaaaaaaaaaaaaaaaaaaaaaaaaaaaaaaaaaaaaaaaaaaaaaaaaaaa",
            "1",
            "2 mcscheck: --why: no thread is called \"aaaaaaaaaaaaaaaaaaaaaaaaaaaaaaaaaaaaaaaaaaaaaaaaaaaaaaaaaaaaaaaaa\": there is none",
        ),
        (
            "High",
            "2",
            "2 mcscheck: --why: no round \"2\" of High: there is round 1",
        ),
        (
            "High",
            "last",
            "2 mcscheck: --why: no round \"last\" of High: there is round 1",
        ),
    ] {
        let question = question(rt.alloc(), thread, round)?;
        let text = written(&rt, rt.alloc(), &options(rt.alloc(), 100, 1), &question)?;
        assert_eq!(rt; text.as_str(), want);
    }
    // no round has begun before the start
    let question = question(rt.alloc(), "High", "1")?;
    let text = written(&rt, rt.alloc(), &options(rt.alloc(), 3, 1), &question)?;
    assert_eq!(rt;
        text.as_str(),
        "2 mcscheck: --why: no round \"1\" of High: there is none"
    );
    Ok(())
}

#[test]
fn what_has_nothing_to_do_with_a_round(rt: HostRuntime) -> Result<(), Fail> {
    let question = question(rt.alloc(), "High", "1")?;
    let mut strict = options(rt.alloc(), 100, 1);
    strict.strict = true;
    let mut shown = options(rt.alloc(), 100, 1);
    shown.show_given = true;
    let mut rows = options(rt.alloc(), 100, 1);
    rows.format = Format::Csv;
    let mut allowed = options(rt.alloc(), 100, 1);
    allowed.allowed.push(String::from_str(rt.alloc(), "lock")?)?;
    for options in [&strict, &shown, &rows, &allowed] {
        let text = written(&rt, rt.alloc(), options, &question)?;
        assert!(rt; text.as_str().ends_with(NOT_SO), "{text}");
    }
    Ok(())
}

fn of_input(
    rt: &(impl Files + Threads + Wait + Sync),
    alloc: Global,
    file: Option<String>,
) -> Result<Result<(), WhyFault>, Fail> {
    let mut options = options(alloc, 100, 1);
    options.file = file;
    let question = question(alloc, "High", "1")?;
    let mut source = FromRead::new(LOCK.as_bytes());
    let mut target = IntoWrite::new(Vec::with_capacity(alloc, 4096)?);
    Ok(explain_with(
        rt,
        alloc,
        &mut source,
        &mut target,
        &options,
        &question,
        &mut Quiet,
    ))
}

/// A file that does not exist cannot be read. Without a name the input is read.
#[test]
fn files_and_the_input(rt: HostRuntime) -> Result<(), Fail> {
    let name = String::from_str(rt.alloc(), "no_folder/no_file.toml")?;
    let ended = of_input(&rt, rt.alloc(), Some(name))?;
    assert_eq!(rt; ended, Err(WhyFault::Run(RunFault::Read)));
    assert_eq!(rt; of_input(&rt, rt.alloc(), None)?, Ok(()));
    Ok(())
}

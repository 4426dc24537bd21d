//! Verdicts that judge nothing, and their exit codes, worked by hand from the rules.
ghost use Rattle.std.specs.Prelude.{◌≤◌, ◌^◌};

use crate::runs::{LATE, SIGNALS, options, written};
use mcs_check::check;
use mcs_check_run::Quiet;
use mcs_check_words::Format;
use mcs_cli::{FromRead, IntoWrite};
use std::alloc::Global;
use std::process::Abort;
use std::sync::Wait;
use std::test::Fail;
use std::thread::Threads;

/// D starts at 12, and its one job takes 2 ticks.
const STARTS_LATE: &str = r#"
version = 1
cores = 1
delay = 1
context = [{ name = "d", core = 0, budget = 10, period = 10 }]
thread = [{ name = "D", context = "d", priority = 5, start = 12, rounds = 1, deadline = 3, script = ["compute 2"] }]
"#;

const NOT_STARTED: &str = "\
11 0 never D deadline 3
missed 0 overdue 0 untaken 0 lost 0 never 1 merged 0 allowed 0 unjudged 0 hints 0 threads 1 deadlines 1 judged 0
";

const JUST_STARTED: &str = "\
12 0 unjudged D deadline 3 activated 12
missed 0 overdue 0 untaken 0 lost 0 never 0 merged 0 allowed 0 unjudged 1 hints 0 threads 1 deadlines 1 judged 0
";

const STARTED: &str = "\
13 0 unjudged D deadline 3 activated 12
missed 0 overdue 0 untaken 0 lost 0 never 0 merged 0 allowed 0 unjudged 1 hints 0 threads 1 deadlines 1 judged 0
";

const ENDED: &str = "\
missed 0 overdue 0 untaken 0 lost 0 never 0 merged 0 allowed 0 unjudged 0 hints 0 threads 1 deadlines 1 judged 1
";

/// W waits first, but C runs until 4. The signal of C arrives at 1, and W takes it at 5.
const NOT_TAKEN: &str = r#"
version = 1
cores = 2
delay = 1
context = [{ name = "c", core = 0, budget = 10, period = 10 }, { name = "w", core = 0, budget = 10, period = 10 }]
note = [{ name = "n", core = 0 }]
thread = [
    { name = "C", context = "c", priority = 9, rounds = 1, script = ["signal n 1", "compute 3"] },
    { name = "W", context = "w", priority = 5, deadline = 10, script = ["wait n", "compute 1"] },
]
"#;

const PENDING: &str = "\
4 0 never W deadline 10
hint core 1 has no thread
missed 0 overdue 0 untaken 0 lost 0 never 1 merged 0 allowed 0 unjudged 0 hints 1 threads 2 deadlines 1 judged 0
";

const TAKEN: &str = "\
5 0 unjudged W deadline 10 activated 1
hint core 1 has no thread
missed 0 overdue 0 untaken 0 lost 0 never 0 merged 0 allowed 0 unjudged 1 hints 1 threads 2 deadlines 1 judged 0
";

/// Worker waits before Spare, and takes the only word at 2. Its job ends at 4.
const SPARE_WORKER: &str = r#"
version = 3
cores = 1
delay = 1
context = [
    { name = "w", core = 0, budget = 100, period = 100 },
    { name = "s", core = 0, budget = 100, period = 100 },
]
note = [{ name = "work", core = 0 }]
thread = [
    { name = "Worker", context = "w", priority = 5, deadline = 5, script = ["wait work", "compute 2"] },
    { name = "Spare", context = "s", priority = 4, deadline = 9, script = ["wait work", "compute 2"] },
]
source = [{ name = "s", note = "work", badge = 1, period = 100, start = 2 }]
"#;

const SPARE: &str = "\
40 0 unjudged Spare deadline 9 activated -
missed 0 overdue 0 untaken 0 lost 0 never 0 merged 0 allowed 0 unjudged 1 hints 0 threads 2 deadlines 2 judged 1
";

/// The only job of Worker ends at 5, in time. Nobody takes the word of 7.
const DONE: &str = r#"
version = 3
cores = 1
delay = 1
context = [{ name = "w", core = 0, budget = 100, period = 100 }]
note = [{ name = "work", core = 0 }]
thread = [{ name = "Worker", context = "w", priority = 5, rounds = 1, deadline = 30, script = ["wait work", "compute 3"] }]
source = [{ name = "s", note = "work", badge = 1, period = 5, start = 2, count = 2 }]
"#;

const NOT_YET_DUE: &str = "\
missed 0 overdue 0 untaken 0 lost 0 never 0 merged 0 allowed 0 unjudged 0 hints 0 threads 1 deadlines 1 judged 1
";

const DUE: &str = "\
37 0 untaken work by Worker word 1 age 30 deadline 30 set 7
missed 0 overdue 0 untaken 1 lost 0 never 0 merged 0 allowed 0 unjudged 0 hints 0 threads 1 deadlines 1 judged 2
";

const NOTHING: &str = "\
version = 1
cores = 1
delay = 1
";

const OF_NOTHING: &str = "\
hint no thread
hint core 0 has no thread
missed 0 overdue 0 untaken 0 lost 0 never 0 merged 0 allowed 0 unjudged 0 hints 2 threads 0 deadlines 0 judged 0
";

const STARTED_ROWS: &str = "\
moment,core,kind,thread,note,word,number,response,age,deadline,activated,set,queued,ready,running,throttled,blocked,server
13,0,unjudged,D,,,,,,3,12,,,,,,,
";

#[test]
fn what_is_judged_is_written(rt: HostRuntime) -> Result<(), Fail> {
    for (system, horizon, want) in [
        (STARTS_LATE, 11, NOT_STARTED),
        (STARTS_LATE, 12, JUST_STARTED),
        (STARTS_LATE, 13, STARTED),
        (STARTS_LATE, 14, ENDED),
        (NOT_TAKEN, 4, PENDING),
        (NOT_TAKEN, 5, TAKEN),
        (SPARE_WORKER, 40, SPARE),
        (DONE, 36, NOT_YET_DUE),
        (DONE, 37, DUE),
        (NOTHING, 1000, OF_NOTHING),
    ] {
        let text = written(
            &rt,
            rt.alloc(),
            system,
            &options(rt.alloc(), horizon, 1, &[])?,
        )?;
        assert_eq!(rt; text.as_str(), want);
    }
    let mut options = options(rt.alloc(), 13, 1, &[])?;
    options.format = Format::Csv;
    let text = written(&rt, rt.alloc(), STARTS_LATE, &options)?;
    assert_eq!(rt; text.as_str(), STARTED_ROWS);
    Ok(())
}

fn status(
    rt: &(impl Threads + Wait + Sync + Abort),
    alloc: Global,
    system: &str,
    horizon: u64,
    strict: bool,
) -> Result<u8, Fail>
    requires { horizon ≤ 2 ^ 40 }
{
    let options = options(alloc, horizon, 1, &[])?;
    let mut source = FromRead::new(system.as_bytes());
    let mut target = IntoWrite::new(Vec::with_capacity(alloc, 4096)?);
    match check(rt, alloc, &mut source, &mut target, &options, &mut Quiet) {
        Ok(checked) => Ok(checked.status(strict)),
        Err(_) => rt.abort(),
    }
}

/// 5: a finding or, with `strict`, a doubt. 6: no deadline was judged.
#[test]
fn exit_codes(rt: HostRuntime) -> Result<(), Fail> {
    for (system, horizon, lax, strict) in [
        (STARTS_LATE, 11, 5, 5),
        (STARTS_LATE, 12, 6, 5),
        (STARTS_LATE, 13, 6, 5),
        (STARTS_LATE, 14, 0, 0),
        (LATE, 20, 5, 5),
        (DONE, 36, 0, 0),
        (DONE, 37, 5, 5),
        (SPARE_WORKER, 40, 0, 5),
        (NOTHING, 1000, 6, 5),
        (SIGNALS, 2, 6, 5),
        (SIGNALS, 3, 5, 5),
    ] {
        assert_eq!(rt; status(&rt, rt.alloc(), system, horizon, false)?, lax);
        assert_eq!(rt; status(&rt, rt.alloc(), system, horizon, true)?, strict);
    }
    Ok(())
}

//! Findings, answers, figures and counts of chains, worked by hand from the rules.

use crate::runs::{options, written};
use mcs_check::check;
use mcs_check_lines::ChainCounts;
use mcs_check_run::Quiet;
use mcs_check_words::{Format, Show};
use mcs_cli::{FromRead, IntoWrite};
use std::process::Abort;
use std::test::Fail;

/// An interrupt each 10 ticks wakes D, the first one at 3. The signal of D leaves 3 ticks later and
/// wakes C on the other core 2 later. The job of C takes 4. Nobody signals q, on which Z waits: the
/// chain z has a hint.
const TWO_CORES: &str = r#"
version = 3
cores = 2
delay = 2
context = [
    { name = "d", core = 0, budget = 100, period = 100 }, { name = "z", core = 0, budget = 100, period = 100 },
    { name = "c", core = 1, budget = 100, period = 100 },
]
note = [{ name = "n", core = 0 }, { name = "q", core = 0 }, { name = "p", core = 1 }]
thread = [
    { name = "D", context = "d", priority = 5, script = ["wait n", "compute 2", "signal p 1"] },
    { name = "Z", context = "z", priority = 4, deadline = 5, script = ["wait q", "compute 1"] },
    { name = "C", context = "c", priority = 5, deadline = 3, script = ["wait p", "compute 4"] },
]
source = [{ name = "s", note = "n", badge = 1, period = 10, start = 3 }]
chain = [
    { name = "f", source = "s", thread = "C", deadline = 7 },
    { name = "e", source = "s", thread = "C", deadline = 8 },
    { name = "g", source = "s", thread = "C", deadline = 9 },
    { name = "near", source = "s", thread = "D" },
    { name = "z", source = "s", thread = "Z", deadline = 19 },
]
"#;

/// A job of L takes 20 ticks, and an interrupt comes each 10, the first one at 2. The job that ends
/// at 43 answers the interrupts at 12 and 22.
const LOOP: &str = r#"
version = 3
cores = 1
delay = 1
context = [{ name = "l", core = 0, budget = 100, period = 100 }]
note = [{ name = "n", core = 0 }]
thread = [{ name = "L", context = "l", priority = 5, script = ["wait n", "compute 20"] }]
source = [{ name = "s", note = "n", badge = 1, period = 10, start = 2 }]
chain = [{ name = "c", source = "s", thread = "L", deadline = 20 }]
"#;

const TWO_CORES_FOUND: &str = "\
12 1 miss C round 1 response 4 deadline 3 activated 8 queued 0 ready 0 running 4 throttled 0 blocked 0 server 0
12 1 slow f latency 9 deadline 7 origin 3
12 1 slow e latency 9 deadline 8 origin 3
22 1 miss C round 2 response 4 deadline 3 activated 18 queued 0 ready 0 running 4 throttled 0 blocked 0 server 0
22 1 slow f latency 9 deadline 7 origin 13
22 1 slow e latency 9 deadline 8 origin 13
22 0 never Z deadline 5
22 0 unanswered z deadline 19 origin 3
hint note q is waited on and no script signals it
hint chain z: no signal leads from s to Z
missed 2 overdue 0 untaken 0 lost 0 never 1 merged 0 allowed 0 unjudged 0 hints 2 threads 3 deadlines 6 judged 9 slow 4 unanswered 1
";

#[test]
fn chains_follow_the_findings_of_their_time(rt: HostRuntime) -> Result<(), Fail> {
    for workers in [1, 2] {
        let options = options(rt.alloc(), 22, workers, &[])?;
        let text = written(&rt, rt.alloc(), TWO_CORES, &options)?;
        assert_eq!(rt; text.as_str(), TWO_CORES_FOUND);
    }
    Ok(())
}

const LOOP_FOUND: &str = "\
22 0 lost n word 1
42 0 lost n word 1
43 0 slow c latency 31 deadline 20 origin 12
52 0 unanswered c deadline 20 origin 32
missed 0 overdue 0 untaken 0 lost 2 never 0 merged 0 allowed 0 unjudged 0 hints 0 threads 1 deadlines 1 judged 4 slow 1 unanswered 1
";

const LOOP_ROWS: &str = "\
moment,core,kind,thread,note,word,number,response,age,deadline,activated,set,queued,ready,running,throttled,blocked,server,chain,latency,deadline,origin
22,0,lost,,n,1,,,,,,,,,,,,,,,,
42,0,lost,,n,1,,,,,,,,,,,,,,,,
43,0,slow,,,,,,,,,,,,,,,,c,31,20,12
52,0,unanswered,,,,,,,,,,,,,,,,c,,20,32
";

const LOOP_OBJECTS: &str = "\
{\"moment\":22,\"core\":0,\"kind\":\"lost\",\"note\":\"n\",\"word\":1}
{\"moment\":42,\"core\":0,\"kind\":\"lost\",\"note\":\"n\",\"word\":1}
{\"moment\":43,\"core\":0,\"kind\":\"slow\",\"chain\":\"c\",\"latency\":31,\"deadline\":20,\"origin\":12}
{\"moment\":52,\"core\":0,\"kind\":\"unanswered\",\"chain\":\"c\",\"deadline\":20,\"origin\":32}
{\"kind\":\"counts\",\"missed\":0,\"overdue\":0,\"untaken\":0,\"lost\":2,\"never\":0,\"merged\":0,\"allowed\":0,\"unjudged\":0,\"hints\":0,\
\"threads\":1,\"deadlines\":1,\"judged\":4,\"slow\":1,\"unanswered\":1}
";

/// L runs in 51 of 52 ticks, and its context could let it run in each. The latencies are 20, 21 and
/// 31.
const LOOP_TABLE: &str = "\
thread L core 0 priority 5 budget 100 period 100 granted 1000000 used 980769 rounds 2 greatest 31 p50 20 p90 31 p99 31 deadline - margin - \
missed 0 late 0 lost 2 merged 0 ticks_pending 0 ticks_ready 0 ticks_running 51 ticks_throttled 0 ticks_blocked 1 ticks_server 0 ticks_done 0
context l unused 1
chain c interrupts 6 answers 3 least 20 greatest 31 total 72 p50 21 p90 31 p99 31 deadline 20 margin -11
missed 0 overdue 0 untaken 0 lost 2 never 0 merged 0 allowed 0 unjudged 0 hints 0 threads 1 deadlines 1 judged 4 slow 1 unanswered 1
";

const LOOP_TABLE_ROWS: &str = "\
kind,thread,core,priority,budget,period,granted,used,rounds,greatest,p50,p90,p99,deadline,margin,missed,late,lost,merged,\
ticks_pending,ticks_ready,ticks_running,ticks_throttled,ticks_blocked,ticks_server,ticks_done,\
chain,interrupts,answers,least,greatest,total,p50,p90,p99,deadline,margin
thread,L,0,5,100,100,1000000,980769,2,31,20,31,31,,,0,0,2,0,0,0,51,0,1,0,0,,,,,,,,,,,
chain,,,,,,,,,,,,,,,,,,,,,,,,,,c,6,3,20,31,72,21,31,31,20,-11
";

const LOOP_JOBS: &str = "\
22 0 job L round 1 activated 2 begun 2 response 20 queued 0 preemptions 0 ready 0 running 20 throttled 0 blocked 0 server 0
22 0 answer c round 1 origin 2 latency 20 deadline 20
43 0 job L round 2 activated 12 begun 23 response 31 queued 10 preemptions 0 ready 0 running 21 throttled 0 blocked 0 server 0
43 0 answer c round 2 origin 12 latency 31 deadline 20
43 0 answer c round 2 origin 22 latency 21 deadline 20
missed 0 overdue 0 untaken 0 lost 2 never 0 merged 0 allowed 0 unjudged 0 hints 0 threads 1 deadlines 1 judged 4 slow 1 unanswered 1
";

const LOOP_JOB_ROWS: &str = "\
moment,core,kind,thread,number,activated,begun,response,queued,preemptions,ready,running,throttled,blocked,server,chain,latency,deadline,origin
22,0,job,L,1,2,2,20,0,0,0,20,0,0,0,,,,
22,0,answer,L,1,,,,,,,,,,,c,20,20,2
43,0,job,L,2,12,23,31,10,0,0,21,0,0,0,,,,
43,0,answer,L,2,,,,,,,,,,,c,31,20,12
43,0,answer,L,2,,,,,,,,,,,c,21,20,22
";

const LOOP_JOB_OBJECTS: &str = "\
{\"moment\":22,\"core\":0,\"kind\":\"job\",\"thread\":\"L\",\"number\":1,\"activated\":2,\"begun\":2,\"response\":20,\"queued\":0,\
\"preemptions\":0,\"ready\":0,\"running\":20,\"throttled\":0,\"blocked\":0,\"server\":0}
{\"moment\":22,\"core\":0,\"kind\":\"answer\",\"thread\":\"L\",\"number\":1,\"chain\":\"c\",\"latency\":20,\"deadline\":20,\"origin\":2}
{\"moment\":43,\"core\":0,\"kind\":\"job\",\"thread\":\"L\",\"number\":2,\"activated\":12,\"begun\":23,\"response\":31,\"queued\":10,\
\"preemptions\":0,\"ready\":0,\"running\":21,\"throttled\":0,\"blocked\":0,\"server\":0}
{\"moment\":43,\"core\":0,\"kind\":\"answer\",\"thread\":\"L\",\"number\":2,\"chain\":\"c\",\"latency\":31,\"deadline\":20,\"origin\":12}
{\"moment\":43,\"core\":0,\"kind\":\"answer\",\"thread\":\"L\",\"number\":2,\"chain\":\"c\",\"latency\":21,\"deadline\":20,\"origin\":22}
{\"kind\":\"counts\",\"missed\":0,\"overdue\":0,\"untaken\":0,\"lost\":2,\"never\":0,\"merged\":0,\"allowed\":0,\"unjudged\":0,\"hints\":0,\"threads\":1,\
\"deadlines\":1,\"judged\":4,\"slow\":1,\"unanswered\":1}
";

/// The jobs of D answer the chain near, which has no deadline; those of C answer three chains.
const TWO_CORES_JOBS: &str = "\
6 0 job D round 1 activated 3 begun 3 response 3 queued 0 preemptions 0 ready 0 running 3 throttled 0 blocked 0 server 0
6 0 answer near round 1 origin 3 latency 3
12 1 job C round 1 activated 8 begun 8 response 4 queued 0 preemptions 0 ready 0 running 4 throttled 0 blocked 0 server 0
12 1 answer f round 1 origin 3 latency 9 deadline 7
12 1 answer e round 1 origin 3 latency 9 deadline 8
12 1 answer g round 1 origin 3 latency 9 deadline 9
missed 1 overdue 0 untaken 0 lost 0 never 1 merged 0 allowed 0 unjudged 0 hints 2 threads 3 deadlines 6 judged 4 slow 2 unanswered 0
";

#[test]
fn answers_of_several_chains(rt: HostRuntime) -> Result<(), Fail> {
    let mut options = options(rt.alloc(), 12, 1, &[])?;
    options.show = Show::Jobs;
    let text = written(&rt, rt.alloc(), TWO_CORES, &options)?;
    assert_eq!(rt; text.as_str(), TWO_CORES_JOBS);
    Ok(())
}

#[test]
fn chains_in_each_format(rt: HostRuntime) -> Result<(), Fail> {
    for (show, format, want) in [
        (Show::Findings, Format::Text, LOOP_FOUND),
        (Show::Findings, Format::Csv, LOOP_ROWS),
        (Show::Findings, Format::Json, LOOP_OBJECTS),
        (Show::Table, Format::Text, LOOP_TABLE),
        (Show::Table, Format::Csv, LOOP_TABLE_ROWS),
        (Show::Jobs, Format::Text, LOOP_JOBS),
        (Show::Jobs, Format::Csv, LOOP_JOB_ROWS),
        (Show::Jobs, Format::Json, LOOP_JOB_OBJECTS),
    ] {
        let mut options = options(rt.alloc(), 52, 1, &[])?;
        options.show = show;
        options.format = format;
        let text = written(&rt, rt.alloc(), LOOP, &options)?;
        assert_eq!(rt; text.as_str(), want);
    }
    Ok(())
}

/// The first interrupt comes at 2: before, there are no latencies.
const NONE_TABLE: &str = "\
thread L core 0 priority 5 budget 100 period 100 granted 1000000 used 1000000 rounds 0 greatest - p50 - p90 - p99 - deadline - margin - \
missed 0 late 0 lost 0 merged 0 ticks_pending 0 ticks_ready 0 ticks_running 1 ticks_throttled 0 ticks_blocked 0 ticks_server 0 ticks_done 0
context l unused 0
chain c interrupts 0 answers 0 least - greatest - total 0 p50 - p90 - p99 - deadline 20 margin -
missed 0 overdue 0 untaken 0 lost 0 never 0 merged 0 allowed 0 unjudged 0 hints 0 threads 1 deadlines 1 judged 0 slow 0 unanswered 0
";

#[test]
fn a_chain_without_an_interrupt(rt: HostRuntime) -> Result<(), Fail> {
    let mut options = options(rt.alloc(), 1, 1, &[])?;
    options.show = Show::Both;
    let text = written(&rt, rt.alloc(), LOOP, &options)?;
    assert_eq!(rt; text.as_str(), NONE_TABLE);
    Ok(())
}

/// An interrupt that is a deadline old is unanswered, and one tick before it is not. At 31 one
/// answer is judged: that of 22.
#[test]
fn chains_are_counted(rt: HostRuntime) -> Result<(), Fail> {
    for (horizon, counts) in [(31, (0, 0)), (32, (0, 1)), (51, (1, 0)), (52, (1, 1))] {
        let options = options(rt.alloc(), horizon, 1, &["n"])?;
        let mut source = FromRead::new(LOOP.as_bytes());
        let mut target = IntoWrite::new(Vec::with_capacity(rt.alloc(), 4096)?);
        let ended = check(
            &rt,
            rt.alloc(),
            &mut source,
            &mut target,
            &options,
            &mut Quiet,
        );
        let Ok(checked) = ended else { rt.abort() };
        let (slow, unanswered) = counts;
        assert_eq!(rt; checked.chains, Some(ChainCounts { slow, unanswered }));
        let status = if slow == 0 && unanswered == 0 { 0 } else { 5 };
        assert_eq!(rt; checked.status(false), status);
    }
    Ok(())
}

//! Words that several threads may take, worked by hand from the rules.

use crate::runs::{options, written};
use mcs_check_words::{Format, Show};
use std::test::Fail;

/// Both workers wait from 2 on. The interrupts of 2 and 7 wake Worker and then Other, which does
/// not run: Worker computes until 22. The word of 12 stays until Worker takes it at 23.
const POOL: &str = r#"
version = 3
cores = 2
delay = 1
context = [
    { name = "w", core = 1, budget = 100, period = 100 },
    { name = "o", core = 1, budget = 100, period = 100 },
]
note = [{ name = "idle", core = 0 }, { name = "work", core = 1 }]
thread = [
    { name = "Worker", context = "w", priority = 5, deadline = 5, script = ["wait work", "compute 20"] },
    { name = "Other", context = "o", priority = 4, deadline = 8, script = ["wait work", "compute 20"] },
]
source = [{ name = "s", note = "work", badge = 1, period = 5, start = 2 }]
"#;

/// The word of 12 is 7 ticks old: Other could still end its job in time.
const NOT_DUE: &str = "\
17 1 lost work word 1
19 1 overdue Worker round 1 age 17 deadline 5 activated 2 queued 0 ready 0 running 17 throttled 0 blocked 0 server 0
19 1 overdue Other round 1 age 12 deadline 8 activated 7 queued 0 ready 12 running 0 throttled 0 blocked 0 server 0
hint core 0 has no thread
missed 0 overdue 2 untaken 0 lost 1 never 0 merged 0 allowed 0 unjudged 0 hints 1 threads 2 deadlines 2 judged 2
";

const DUE: &str = "\
17 1 lost work word 1
20 1 overdue Worker round 1 age 18 deadline 5 activated 2 queued 0 ready 0 running 18 throttled 0 blocked 0 server 0
20 1 overdue Other round 1 age 13 deadline 8 activated 7 queued 0 ready 13 running 0 throttled 0 blocked 0 server 0
20 1 untaken work by Worker,Other word 1 age 8 deadline 8 set 12
hint core 0 has no thread
missed 0 overdue 2 untaken 1 lost 1 never 0 merged 0 allowed 0 unjudged 0 hints 1 threads 2 deadlines 2 judged 3
";

/// The second job of Worker was activated at 12, was queued until 22, and ran for a tick.
const TAKEN: &str = "\
17 1 lost work word 1
22 1 miss Worker round 1 response 20 deadline 5 activated 2 queued 0 ready 0 running 20 throttled 0 blocked 0 server 0
22 1 lost work word 1
23 1 overdue Worker round 2 age 11 deadline 5 activated 12 queued 10 ready 0 running 1 throttled 0 blocked 0 server 0
23 1 overdue Other round 1 age 16 deadline 8 activated 7 queued 0 ready 16 running 0 throttled 0 blocked 0 server 0
hint core 0 has no thread
missed 1 overdue 2 untaken 0 lost 2 never 0 merged 0 allowed 0 unjudged 0 hints 1 threads 2 deadlines 2 judged 3
";

#[test]
fn a_word_is_told_once_for_all_that_may_take_it(rt: HostRuntime) -> Result<(), Fail> {
    for (horizon, want) in [(19, NOT_DUE), (20, DUE), (23, TAKEN)] {
        let text = written(
            &rt,
            rt.alloc(),
            POOL,
            &options(rt.alloc(), horizon, 1, &[])?,
        )?;
        assert_eq!(rt; text.as_str(), want);
    }
    Ok(())
}

const DUE_ROWS: &str = "\
moment,core,kind,thread,note,word,number,response,age,deadline,activated,set,queued,ready,running,throttled,blocked,server
17,1,lost,,work,1,,,,,,,,,,,,
20,1,overdue,Worker,,,1,,18,5,2,,0,0,18,0,0,0
20,1,overdue,Other,,,1,,13,8,7,,0,13,0,0,0,0
20,1,untaken,,work,1,,,8,8,,12,,,,,,
";

const DUE_OBJECTS: &str = "\
{\"moment\":17,\"core\":1,\"kind\":\"lost\",\"note\":\"work\",\"word\":1}
{\"moment\":20,\"core\":1,\"kind\":\"overdue\",\"thread\":\"Worker\",\"number\":1,\"age\":18,\"deadline\":5,\"activated\":2,\
\"queued\":0,\"ready\":0,\"running\":18,\"throttled\":0,\"blocked\":0,\"server\":0}
{\"moment\":20,\"core\":1,\"kind\":\"overdue\",\"thread\":\"Other\",\"number\":1,\"age\":13,\"deadline\":8,\"activated\":7,\
\"queued\":0,\"ready\":13,\"running\":0,\"throttled\":0,\"blocked\":0,\"server\":0}
{\"moment\":20,\"core\":1,\"kind\":\"untaken\",\"note\":\"work\",\"by\":[\"Worker\",\"Other\"],\"word\":1,\"age\":8,\"deadline\":8,\"set\":12}
{\"kind\":\"hint\",\"hint\":\"unused\",\"core\":0}
{\"kind\":\"counts\",\"missed\":0,\"overdue\":2,\"untaken\":1,\"lost\":1,\"never\":0,\"merged\":0,\"allowed\":0,\"unjudged\":0,\
\"hints\":1,\"threads\":2,\"deadlines\":2,\"judged\":3}
";

#[test]
fn shared_words_in_other_formats(rt: HostRuntime) -> Result<(), Fail> {
    for (format, want) in [(Format::Csv, DUE_ROWS), (Format::Json, DUE_OBJECTS)] {
        let mut options = options(rt.alloc(), 20, 1, &[])?;
        options.format = format;
        let text = written(&rt, rt.alloc(), POOL, &options)?;
        assert_eq!(rt; text.as_str(), want);
    }
    Ok(())
}

/// With the figures the rows of all cores are merged. The findings are the same.
const DUE_AND_FIGURES: &str = "\
17 1 lost work word 1
20 1 overdue Worker round 1 age 18 deadline 5 activated 2 queued 0 ready 0 running 18 throttled 0 blocked 0 server 0
20 1 overdue Other round 1 age 13 deadline 8 activated 7 queued 0 ready 13 running 0 throttled 0 blocked 0 server 0
20 1 untaken work by Worker,Other word 1 age 8 deadline 8 set 12
hint core 0 has no thread
thread Worker core 1 ";

#[test]
fn shared_words_and_figures(rt: HostRuntime) -> Result<(), Fail> {
    for workers in [1, 2] {
        let mut options = options(rt.alloc(), 20, workers, &[])?;
        options.show = Show::Both;
        let text = written(&rt, rt.alloc(), POOL, &options)?;
        assert!(rt; text.as_str().starts_with(DUE_AND_FIGURES), "{text}");
    }
    Ok(())
}

/// Waiter calls `door` at 4, in which Holder is until 9.
const SERVED: &str = r#"
version = 3
cores = 1
delay = 1
context = [
    { name = "h", core = 0, budget = 100, period = 100 },
    { name = "w", core = 0, budget = 100, period = 100 },
]
server = [{ name = "door", core = 0, priority = 3, script = ["compute 6"] }]
thread = [
    { name = "Holder", context = "h", priority = 2, rounds = 1, script = ["call door 1"] },
    { name = "Waiter", context = "w", priority = 5, start = 3, rounds = 1, deadline = 5, script = ["call door 1"] },
]
"#;

const IN_FRONT: &str = "\
8 0 overdue Waiter round 1 age 5 deadline 5 activated 3 queued 0 ready 0 running 1 throttled 0 blocked 0 server 4
hint thread Waiter calls door of priority 3 at priority 5
missed 0 overdue 1 untaken 0 lost 0 never 0 merged 0 allowed 0 unjudged 0 hints 1 threads 2 deadlines 1 judged 1
";

const SERVED_LATE: &str = "\
16 0 miss Waiter round 1 response 13 deadline 5 activated 3 queued 0 ready 0 running 8 throttled 0 blocked 0 server 5
hint thread Waiter calls door of priority 3 at priority 5
missed 1 overdue 0 untaken 0 lost 0 never 0 merged 0 allowed 0 unjudged 0 hints 1 threads 2 deadlines 1 judged 1
";

/// The ticks in front of a taken server are counted separately.
#[test]
fn ticks_in_front_of_a_server(rt: HostRuntime) -> Result<(), Fail> {
    for (horizon, want) in [(8, IN_FRONT), (40, SERVED_LATE)] {
        let text = written(
            &rt,
            rt.alloc(),
            SERVED,
            &options(rt.alloc(), horizon, 1, &[])?,
        )?;
        assert_eq!(rt; text.as_str(), want);
    }
    Ok(())
}

//! Findings, jobs and the table in each format.

use crate::runs::{LATE, options, written};
use mcs_check_words::{Format, Show};
use std::test::Fail;

const LATE_ROWS: &str = "\
moment,core,kind,thread,note,word,number,response,age,deadline,activated,set,queued,ready,running,throttled,blocked,server
11,0,miss,A,,,1,11,,10,0,,0,0,5,6,0,0
";

const LATE_OBJECTS: &str = "\
{\"moment\":11,\"core\":0,\"kind\":\"miss\",\"thread\":\"A\",\"number\":1,\"response\":11,\"deadline\":10,\"activated\":0,\
\"queued\":0,\"ready\":0,\"running\":5,\"throttled\":6,\"blocked\":0,\"server\":0}
{\"kind\":\"counts\",\"missed\":1,\"overdue\":0,\"untaken\":0,\"lost\":0,\"never\":0,\"merged\":0,\"allowed\":0,\"unjudged\":0,\"hints\":0,\
\"threads\":1,\"deadlines\":1,\"judged\":1}
";

const LATE_JOB_ROWS: &str = "\
moment,core,kind,thread,number,activated,begun,response,queued,preemptions,ready,running,throttled,blocked,server
11,0,job,A,1,0,0,11,0,0,0,5,6,0,0
";

#[test]
fn other_formats_are_written(rt: HostRuntime) -> Result<(), Fail> {
    for (show, format, want) in [
        (Show::Findings, Format::Csv, LATE_ROWS),
        (Show::Findings, Format::Json, LATE_OBJECTS),
        (Show::Jobs, Format::Csv, LATE_JOB_ROWS),
    ] {
        let mut options = options(rt.alloc(), 20, 1, &[])?;
        options.show = show;
        options.format = format;
        let text = written(&rt, rt.alloc(), LATE, &options)?;
        assert_eq!(rt; text.as_str(), want);
    }
    Ok(())
}

/// The thread runs 5 of 20 ticks and is throttled for 6; its 4 periods have a budget of 8.
const LATE_TABLE: &str = "\
thread A core 0 priority 5 budget 2 period 5 granted 400000 used 250000 rounds 1 greatest 11 p50 11 p90 11 p99 11 deadline 10 margin -1 \
missed 1 late 1 lost - merged - ticks_pending 0 ticks_ready 0 ticks_running 5 ticks_throttled 6 ticks_blocked 0 ticks_server 0 ticks_done 9
context a unused 3
missed 1 overdue 0 untaken 0 lost 0 never 0 merged 0 allowed 0 unjudged 0 hints 0 threads 1 deadlines 1 judged 1
";

const LATE_TABLE_ROWS: &str = "\
kind,thread,core,priority,budget,period,granted,used,rounds,greatest,p50,p90,p99,deadline,margin,missed,late,lost,merged,\
ticks_pending,ticks_ready,ticks_running,ticks_throttled,ticks_blocked,ticks_server,ticks_done
thread,A,0,5,2,5,400000,250000,1,11,11,11,11,10,-1,1,1,,,0,0,5,6,0,0,9
";

const LATE_TABLE_OBJECTS: &str = "\
{\"kind\":\"thread\",\"thread\":\"A\",\"core\":0,\"priority\":5,\"budget\":2,\"period\":5,\"granted\":400000,\"used\":250000,\
\"rounds\":1,\"greatest\":11,\"p50\":11,\"p90\":11,\"p99\":11,\"deadline\":10,\"margin\":-1,\"missed\":1,\"late\":1,\
\"ticks_pending\":0,\"ticks_ready\":0,\"ticks_running\":5,\"ticks_throttled\":6,\"ticks_blocked\":0,\"ticks_server\":0,\"ticks_done\":9}
{\"kind\":\"context\",\"context\":\"a\",\"unused\":3}
{\"kind\":\"counts\",\"missed\":1,\"overdue\":0,\"untaken\":0,\"lost\":0,\"never\":0,\"merged\":0,\"allowed\":0,\"unjudged\":0,\"hints\":0,\
\"threads\":1,\"deadlines\":1,\"judged\":1}
";

const ROWS_OF_TWO_KINDS: &str =
    "mcscheck: --format csv: rows are of one kind: --show findings, jobs or table";

#[test]
fn the_table_is_written(rt: HostRuntime) -> Result<(), Fail> {
    for (show, format, want) in [
        (Show::Table, Format::Text, LATE_TABLE),
        (Show::Table, Format::Csv, LATE_TABLE_ROWS),
        (Show::Table, Format::Json, LATE_TABLE_OBJECTS),
        (Show::Both, Format::Csv, ROWS_OF_TWO_KINDS),
    ] {
        let mut options = options(rt.alloc(), 20, 1, &[])?;
        options.show = show;
        options.format = format;
        let text = written(&rt, rt.alloc(), LATE, &options)?;
        assert_eq!(rt; text.as_str(), want);
    }
    Ok(())
}

/// The miss, and then the figures.
#[test]
fn findings_and_figures_are_written(rt: HostRuntime) -> Result<(), Fail> {
    let mut options = options(rt.alloc(), 20, 1, &[])?;
    options.show = Show::Both;
    let text = written(&rt, rt.alloc(), LATE, &options)?;
    let want = LATE_TABLE;
    assert!(rt;
        text.as_str()
            .starts_with("11 0 miss A round 1 response 11 deadline 10 activated 0 "),
        "{text}"
    );
    assert!(rt; text.as_str().ends_with(want), "{text}");
    Ok(())
}

//! The rows of one core, emitted straight to a sink that counts, writes or watches them.
use super::play::{moment, opened};
use super::systems::{DEPLETES, system};
use mcs_mail::Mailbox;
use mcs_report::{CoreReport, Tally, ThreadReport};
use mcs_system::System;
use mcs_text::{Lines, Names};
use mcs_ticks::{CoreId, Nothing, Pair, Sink};
use mcs_verdict::{Finder, Finding};
use std::alloc::Global;
use std::process::Abort;
use std::test::Fail;

/// `DEPLETES` with a deadline that the round misses: it takes 11 ticks, 5 of them running.
const TOO_LATE: &str = r#"
version = 1
cores = 1
delay = 1
context = [{ name = "a", core = 0, budget = 2, period = 5 }]
thread = [{ name = "A", context = "a", priority = 5, deadline = 9, rounds = 1, script = ["compute 5"] }]
"#;

const LINES: &str = "0 0 release A
0 0 run A
2 0 stop A spent 2 until 5
5 0 release A
5 0 run A
7 0 stop A spent 2 until 10
10 0 release A
10 0 run A
11 0 round A 1 11
11 0 stop A done 1
";

/// Emits the rows of core 0's turns before 13 to a sink that refuses a row only if memory runs out.
fn tell<S: Sink>(alloc: Global, system: &System, sink: &mut S) -> Result<(), Fail> {
    let mut core = opened(alloc, system, CoreId(0))?;
    let mut mail = Mailbox::new(alloc);
    let mut signals = Vec::new(alloc);
    core.run_to(system, &mut mail, moment(13)?, sink, &mut signals)
        .ok()
        .ok_or("no memory")?;
    Ok(())
}

fn is_counted(rt: &impl Abort, tally: Tally) {
    let wanted = ThreadReport {
        ran: 5,
        rounds: 1,
        least: 11,
        greatest: 11,
        total: 11,
        late: 0,
        spent: 2,
        throttled: 6,
        longest: 3,
    };
    let reports = tally.finish();
    assert!(rt; reports.threads.as_slice() == [wanted].as_slice());
    assert!(rt; reports.cores.as_slice() == [CoreReport { busy: 5, idle: 7 }].as_slice());
}

fn is_written(rt: &impl Abort, lines: &Lines<'_>) {
    assert!(rt; lines.as_slice() == LINES.as_bytes());
    assert_eq!(rt; lines.marks().len(), 6);
    assert!(rt; lines.text_at(1) == "2 0 stop A spent 2 until 5\n".as_bytes());
    assert!(rt; lines.text_at(5) == "11 0 round A 1 11\n11 0 stop A done 1\n".as_bytes());
}

#[test]
fn rows_are_counted_and_written_as_they_are_told(rt: HostRuntime) -> Result<(), Fail> {
    let alloc = rt.alloc();
    let system = system(alloc, DEPLETES)?;
    let names = Names::new(alloc, &system)?;
    let mut both = Pair {
        first: Tally::new(alloc, &system, moment(12)?)?,
        second: Lines::new(alloc, &names),
    };
    tell(alloc, &system, &mut both)?;
    let Pair { first, second } = both;
    is_counted(&rt, first);
    is_written(&rt, &second);
    Ok(())
}

#[test]
fn a_miss_is_found_as_it_is_told(rt: HostRuntime) -> Result<(), Fail> {
    let alloc = rt.alloc();
    let system = system(alloc, TOO_LATE)?;
    let mut finder = Finder::new(alloc, &system)?;
    tell(alloc, &system, &mut finder)?;
    assert_eq!(rt; finder.found.len(), 1);
    assert_eq!(rt; finder.found[0].moment.get(), 11);
    assert!(rt;
        matches!(
            finder.found[0].finding,
            Finding::Miss {
                number: 1,
                response: 11,
                ..
            }
        )
    );
    Ok(())
}

#[test]
fn nothing_takes_all_rows(rt: HostRuntime) -> Result<(), Fail> {
    let alloc = rt.alloc();
    tell(alloc, &system(alloc, DEPLETES)?, &mut Nothing)
}

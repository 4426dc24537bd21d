//! Each read and each write of a run fails once, or is interrupted.
use super::devices::{FailingSlice, FailingVec, Faulty};
use super::worked::{REPORTED, WORKED, to_twenty};
use mcs_cli::{FromRead, IntoWrite, Open, Options, RunFault, Show, Source, Target, run};
use std::alloc::Global;
use std::io::ErrorKind;
use std::process::Abort;
use std::sync::Wait;
use std::test::Fail;
use std::thread::Threads;

/// Returns the number of reads of a run. Each of them fails once, and then no output is written.
fn reads(
    rt: &(impl Threads + Wait + Sync + Abort),
    alloc: Global,
    file: &str,
    want: &str,
    most: usize,
) -> Result<usize, Fail> {
    for calls in 0..4096 {
        let mut source = FailingSlice::new(file.as_bytes(), most, calls);
        let mut target = FailingVec::new(Vec::with_capacity(alloc, 4096)?, usize::MAX, usize::MAX);
        let ended = run(
            rt,
            alloc,
            &mut source,
            &mut target,
            &to_twenty(Show::Schedule, false),
            &Open,
        );
        if ended.is_ok() {
            assert_eq!(rt; target.bytes.as_slice(), want.as_bytes());
            return Ok(calls);
        }
        assert_eq!(rt; ended, Err(RunFault::Read), "read {calls}");
        assert!(rt; target.bytes.is_empty(), "read {calls}");
    }
    Ok(0)
}

/// A text is read one byte a call, or whole. The last read finds its end.
#[test]
fn each_read_fails(rt: HostRuntime) -> Result<(), Fail> {
    for (file, want) in WORKED.as_slice() {
        assert_eq!(rt; reads(&rt, rt.alloc(), *file, *want, 1)?, file.len() + 1);
        assert_eq!(rt; reads(&rt, rt.alloc(), *file, *want, 4096)?, 2);
    }
    Ok(())
}

/// Returns the number of writes and flushes of a run. Each fails once, and then a first part is
/// written.
fn writes(
    rt: &(impl Threads + Wait + Sync + Abort),
    alloc: Global,
    file: &str,
    options: &Options,
    want: &str,
    most: usize,
) -> Result<usize, Fail> {
    for calls in 0..4096 {
        let mut source = FailingSlice::new(file.as_bytes(), usize::MAX, usize::MAX);
        let mut target = FailingVec::new(Vec::with_capacity(alloc, 4096)?, most, calls);
        let ended = run(rt, alloc, &mut source, &mut target, options, &Open);
        if ended.is_ok() {
            assert_eq!(rt; target.bytes.as_slice(), want.as_bytes());
            return Ok(calls);
        }
        assert_eq!(rt; ended, Err(RunFault::Write), "write {calls}");
        assert!(rt;
            target.bytes.len() >= want.len().min(calls),
            "write {calls}"
        );
        assert!(rt;
            want.as_bytes().starts_with(target.bytes.as_slice()),
            "write {calls}"
        );
    }
    Ok(0)
}

/// A text is written one byte a call, or in pieces. The pieces must reach 1, 2, 4 and so on bytes.
/// Each ends with the row that does so or, for two cores, with the time of a core that does so. The
/// first system's rows have 14, 10, 27, 14, 38, 44 and 19 bytes, the second's times 24, 17, 17, 51,
/// 35, 35 and 35. The last call is the flush.
#[test]
fn each_write_fails(rt: HostRuntime) -> Result<(), Fail> {
    for team in [false, true] {
        let options = to_twenty(Show::Schedule, team);
        for ((file, want), pieces) in WORKED.as_slice().iter().zip([7, 7]) {
            let bytes = writes(&rt, rt.alloc(), *file, &options, *want, 1)?;
            assert_eq!(rt; bytes, want.len() + 1, "team: {team}");
            let whole = writes(&rt, rt.alloc(), *file, &options, *want, 4096)?;
            assert_eq!(rt; whole, pieces + 1, "team: {team}");
        }
    }
    Ok(())
}

/// Rows that are also counted are written one by one, in pieces of 14, 10, 27, 14, 38 and 44 bytes.
/// The reports follow the last rows in the last piece.
#[test]
fn each_write_of_rows_and_reports_fails(rt: HostRuntime) -> Result<(), Fail> {
    let (file, rows) = WORKED[0];
    let want = format!(in rt.alloc(); "{rows}{REPORTED}")?;
    let both = to_twenty(Show::Both, false);
    let bytes = writes(&rt, rt.alloc(), file, &both, want.as_str(), 1)?;
    assert_eq!(rt; bytes, want.len() + 1);
    let whole = writes(&rt, rt.alloc(), file, &both, want.as_str(), 4096)?;
    assert_eq!(rt; whole, 8);
    let reports = to_twenty(Show::Reports, false);
    let whole = writes(&rt, rt.alloc(), file, &reports, REPORTED, 4096)?;
    assert_eq!(rt; whole, 2);
    Ok(())
}

#[test]
fn a_target_that_takes_nothing_has_failed(rt: HostRuntime) -> Result<(), Fail> {
    let (file, _) = WORKED[0];
    let mut source = FailingSlice::new(file.as_bytes(), usize::MAX, usize::MAX);
    let mut target = FailingVec::new(Vec::with_capacity(rt.alloc(), 4096)?, 0, usize::MAX);
    let ended = run(
        &rt,
        rt.alloc(),
        &mut source,
        &mut target,
        &to_twenty(Show::Schedule, false),
        &Open,
    );
    assert_eq!(rt; ended, Err(RunFault::Write));
    assert!(rt; target.bytes.is_empty());
    Ok(())
}

/// Kinds of faults, how many calls in a row have one, and whether the device has failed then.
const FAULTS: [(ErrorKind, usize, bool); 3] = [
    (ErrorKind::Interrupted, 1, false),
    (ErrorKind::Interrupted, 2, false),
    (ErrorKind::Other, 1, true),
];

/// The text is read in two calls. It is written and flushed in two calls.
#[test]
fn what_is_interrupted_is_read_again(rt: HostRuntime) -> Result<(), Fail> {
    let (file, want) = WORKED[0];
    for calls in [0, 1] {
        for (kind, times, fails) in FAULTS {
            let inner = file.as_bytes();
            let mut source = FromRead::new(Faulty {
                inner,
                calls,
                times,
                kind,
            });
            let mut target = IntoWrite::new(Vec::with_capacity(rt.alloc(), 4096)?);
            let ended = run(
                &rt,
                rt.alloc(),
                &mut source,
                &mut target,
                &to_twenty(Show::Schedule, false),
                &Open,
            );
            let outcome = if fails { Err(RunFault::Read) } else { Ok(()) };
            assert_eq!(rt; ended, outcome, "read {calls}");
            assert_eq!(rt; source.failed(), fails, "read {calls}");
            let written = if fails { "" } else { want };
            assert_eq!(rt;
                target.into_inner().as_slice(),
                written.as_bytes(),
                "read {calls}"
            );
        }
    }
    Ok(())
}

/// The first call writes the first row, the seventh the last one, and the eighth flushes.
#[test]
fn what_is_interrupted_is_written_again(rt: HostRuntime) -> Result<(), Fail> {
    let (file, want) = WORKED[0];
    for (calls, before) in [(0, ""), (1, "0 0 release A\n"), (7, want)] {
        for (kind, times, fails) in FAULTS {
            let inner = Vec::with_capacity(rt.alloc(), 4096)?;
            let mut source = FromRead::new(file.as_bytes());
            let mut target = IntoWrite::new(Faulty {
                inner,
                calls,
                times,
                kind,
            });
            let ended = run(
                &rt,
                rt.alloc(),
                &mut source,
                &mut target,
                &to_twenty(Show::Schedule, false),
                &Open,
            );
            let outcome = if fails { Err(RunFault::Write) } else { Ok(()) };
            assert_eq!(rt; ended, outcome, "write {calls}");
            assert_eq!(rt; target.failed(), fails, "write {calls}");
            let written = if fails { before } else { want };
            let text = target.into_inner().inner;
            assert_eq!(rt; text.as_slice(), written.as_bytes(), "write {calls}");
        }
    }
    Ok(())
}

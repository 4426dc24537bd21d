//! The source and the target of a run.

use crate::runs::{LATE, SIGNALS, options};
use mcs_check::{check, check_with};
use mcs_check_lines::Checked;
use mcs_check_run::{CheckFault, Quiet};
use mcs_cli::{FromRead, IntoWrite, RunFault};
use std::alloc::Global;
use std::process::Abort;
use std::rt::Files;
use std::sync::Wait;
use std::test::Fail;
use std::thread::Threads;

/// There is room for the first line and a part of the next.
#[test]
fn a_target_that_is_full_has_failed(rt: HostRuntime) -> Result<(), Fail> {
    let mut room = [b'-'; 25];
    let mut source = FromRead::new(SIGNALS.as_bytes());
    let mut target = IntoWrite::new(room.as_mut_slice());
    let ended = check(
        &rt,
        rt.alloc(),
        &mut source,
        &mut target,
        &options(rt.alloc(), 5, 1, &[])?,
        &mut Quiet,
    );
    assert_eq!(rt; ended, Err(CheckFault::Run(RunFault::Write)));
    assert_eq!(rt; room.as_slice(), b"3 0 lost tick word 1\n5 0 ".as_slice());
    Ok(())
}

fn of_input(
    rt: &(impl Files + Threads + Wait + Sync),
    alloc: Global,
    file: Option<String>,
) -> Result<Result<Checked, CheckFault>, Fail> {
    let mut options = options(alloc, 20, 1, &[])?;
    options.file = file;
    let mut source = FromRead::new(LATE.as_bytes());
    let mut target = IntoWrite::new(Vec::with_capacity(alloc, 4096)?);
    Ok(check_with(rt, alloc, &mut source, &mut target, &options, &mut Quiet))
}

/// A file that does not exist cannot be read. Without a name the input is read.
#[test]
fn files_and_the_input(rt: HostRuntime) -> Result<(), Fail> {
    let name = String::from_str(rt.alloc(), "no_folder/no_file.toml")?;
    let ended = of_input(&rt, rt.alloc(), Some(name))?;
    assert_eq!(rt; ended, Err(CheckFault::Run(RunFault::Read)));
    match of_input(&rt, rt.alloc(), None)? {
        Ok(checked) => assert_eq!(rt; (checked.counts.missed, checked.status(false)), (1, 5)),
        Err(_) => rt.abort(),
    }
    Ok(())
}

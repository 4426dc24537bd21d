//! Runs of files and of the input.
ghost use Rattle.std.specs.Prelude.{◌≡◌, false};

use mcs_cli::{FromRead, IntoWrite, Open, Options, RunFault, Show, Source, run, run_with};
use mcs_ticks::Tick;
use std::alloc::Global;
use std::io::Read;
use std::rt::Files;
use std::sync::Wait;
use std::test::Fail;
use std::thread::Threads;
use std::{io, str};

const SPENT: &str = "\
version = 1
cores = 1
delay = 1
context = [{ name = \"a\", core = 0, budget = 2, period = 5 }]
thread = [{ name = \"A\", context = \"a\", priority = 5, rounds = 1, script = [\"compute 5\"] }]
";

/// The schedule of `SPENT` up to time 6, and its reports.
const TO_SIX: &str = "\
0 0 release A
0 0 run A
2 0 stop A spent 2 until 5
5 0 release A
5 0 run A
thread A ran 3 rounds 0 least 0 greatest 0 total 0 late 0 spent 1 throttled 3 longest 3
core 0 busy 3 idle 3
";

fn to_six(file: Option<String>) -> Options {
    Options {
        file,
        horizon: Tick::new(6).unwrap(),
        workers: 1,
        show: Show::Both,
    }
}

/// Returns what was written, followed by the line of the fault.
fn told(alloc: Global, written: &[u8], ended: Result<(), RunFault>) -> Result<String, Fail> {
    let text = str::from_utf8(written).unwrap_or("bytes that are no text");
    let told = match ended {
        Ok(()) => String::from_str(alloc, text)?,
        Err(fault) => format!(in alloc; "{text}{fault}")?,
    };
    Ok(told)
}

/// Returns the output of a named file, or of the input, followed by the line of the fault.
fn written_with(
    rt: &(impl Files + Threads + Wait + Sync),
    alloc: Global,
    file: Option<String>,
) -> Result<String, Fail> {
    let mut source = FromRead::new(SPENT.as_bytes());
    let mut target = IntoWrite::new(Vec::with_capacity(alloc, 4096)?);
    let ended = run_with(rt, alloc, &mut source, &mut target, &to_six(file), &Open);
    told(alloc, target.into_inner().as_slice(), ended)
}

/// The first file doesn't exist, and the second is a folder.
#[test]
fn files_that_are_not_read(rt: HostRuntime) -> Result<(), Fail> {
    for name in ["no_folder/no_file.toml", "."] {
        let name = String::from_str(rt.alloc(), name)?;
        let text = written_with(&rt, rt.alloc(), Some(name))?;
        assert_eq!(rt; text.as_str(), "mcsim: read failed");
    }
    Ok(())
}

#[test]
fn the_input_is_run(rt: HostRuntime) -> Result<(), Fail> {
    let text = written_with(&rt, rt.alloc(), None)?;
    assert_eq!(rt; text.as_str(), TO_SIX);
    Ok(())
}

/// Returns the output of the system that a source gives, followed by the line of the fault.
fn written<S: Source>(
    rt: &(impl Threads + Wait + Sync),
    alloc: Global,
    source: &mut S,
) -> Result<String, Fail>
    requires { S.has_failed source.old ≡ false }
{
    let mut target = IntoWrite::new(Vec::with_capacity(alloc, 4096)?);
    let ended = run(rt, alloc, source, &mut target, &to_six(None), &Open);
    told(alloc, target.into_inner().as_slice(), ended)
}

#[test]
fn the_longest_text_is_read(rt: HostRuntime) -> Result<(), Fail> {
    for (length, want) in [
        (67_108_864, "mcsim: not TOML at file"),
        (67_108_865, "mcsim: read failed"),
    ] {
        let mut source = FromRead::new(io::repeat(0xff).take(length));
        let text = written(&rt, rt.alloc(), &mut source)?;
        assert_eq!(rt; text.as_str(), want, "{length} bytes");
        assert!(rt; !source.failed(), "{length} bytes");
    }
    Ok(())
}

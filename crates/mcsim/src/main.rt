//! The program `mcsim`. It reads its options, opens the file or takes standard input, and ends with
//! an exit code.
#![tactic(auto)]

mod meter;

use mcs_cli::{FromRead, IntoWrite, Options, RunFault, Show, WordsFault, options, run_with};
use meter::Meter;
use std::io::{ErrorKind, IsTerminal};
use std::process::ExitCode;
use std::{env, io};

const NO_MEMORY: &str = "mcsim: no memory\n";

const NOT_UTF_8: &str = "error: invalid UTF-8 was detected in one or more arguments\n";

const WRITE_FAILED: &str = "mcsim: write failed\n";

fn main(rt: HostRuntime) -> ExitCode {
    let words = match words_of(&rt) {
        Ok(words) => words,
        Err(fault) if fault.kind() == ErrorKind::OutOfMemory => return fail(&rt, NO_MEMORY, 4),
        Err(_) => return fail(&rt, NOT_UTF_8, 2),
    };
    match options(rt.alloc(), words.as_slice()) {
        Ok(options) => {
            let meter = Meter::new(&rt, options.horizon, shows_progress(&rt, &options));
            let ran = run_with(
                &rt,
                rt.alloc(),
                &mut FromRead::new(rt.stdin()),
                &mut IntoWrite::new(rt.stdout()),
                &options,
                &meter,
            );
            meter.wipe();
            end(&rt, ran)
        }
        Err(fault) => tell(&rt, &fault),
    }
}

/// Whether progress is shown: on a terminal, unless the schedule is written to one, which shows it
/// too.
fn shows_progress(rt: &HostRuntime, options: &Options) -> bool {
    rt.stderr().is_terminal() && (options.show == Show::Reports || !rt.stdout().is_terminal())
}

/// Writes the line of a run's fault to standard error, and returns the exit code.
fn end(rt: &HostRuntime, ran: Result<(), RunFault>) -> ExitCode {
    match ran {
        Ok(()) => ExitCode::SUCCESS,
        Err(fault) => {
            let status = fault.status();
            let _ = rt.eprintln(fault);
            ExitCode::from(status)
        }
    }
}

/// Writes the text of a refused command line: help to standard output, all else to standard error.
fn tell(rt: &HostRuntime, fault: &WordsFault) -> ExitCode {
    match fault {
        WordsFault::Help(text) => match rt.print(text.as_str()) {
            Ok(()) => ExitCode::from(fault.status()),
            Err(_) => fail(rt, WRITE_FAILED, 3),
        },
        WordsFault::Words(text) => fail(rt, text.as_str(), fault.status()),
        WordsFault::NoMemory => fail(rt, NO_MEMORY, fault.status()),
    }
}

/// Returns the arguments after the program's name.
fn words_of(rt: &HostRuntime) -> io::Result<Vec<String>> {
    let mut words = Vec::new(rt.alloc());
    for word in env::args(rt)?.skip(1) {
        words.push(word)?;
    }
    Ok(words)
}

fn fail(rt: &HostRuntime, text: &str, status: u8) -> ExitCode {
    let _ = rt.eprint(text);
    ExitCode::from(status)
}

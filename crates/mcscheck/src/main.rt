//! The program `mcscheck`: it reads its command line, checks the file or standard input, and ends
//! with the exit code of the result.
#![tactic(auto)]

mod meter;

use mcs_check::check_with;
use mcs_check_forever::{ForeverFault, Verdict, foretell_with};
use mcs_check_lines::Checked;
use mcs_check_run::CheckFault;
use mcs_check_words::{Options, options};
use mcs_cli::{FromRead, IntoWrite, WordsFault};
use mcs_explain::{WhyFault, explain_with};
use meter::Meter;
use std::io::ErrorKind;
use std::process::ExitCode;
use std::{env, io};

const NO_MEMORY: &str = "mcscheck: no memory\n";

const NOT_UTF_8: &str = "error: invalid UTF-8 was detected in one or more arguments\n";

const WRITE_FAILED: &str = "mcscheck: write failed\n";

fn main(rt: HostRuntime) -> ExitCode {
    let words = match words_of(&rt) {
        Ok(words) => words,
        Err(fault) if fault.kind() == ErrorKind::OutOfMemory => return fail(&rt, NO_MEMORY, 4),
        Err(_) => return fail(&rt, NOT_UTF_8, 2),
    };
    let options = match options(rt.alloc(), words.as_slice()) {
        Ok(options) => options,
        Err(fault) => return tell(&rt, &fault),
    };
    let (alloc, mut meter) = (rt.alloc(), Meter::new(&rt, options.horizon));
    let mut input = FromRead::new(rt.stdin());
    let mut output = IntoWrite::new(rt.stdout());
    if options.forever {
        let verdict = foretell_with(&rt, alloc, &mut input, &mut output, &options, &mut meter);
        return end_look(&rt, verdict);
    }
    match &options.why {
        None => {
            let found = check_with(&rt, alloc, &mut input, &mut output, &options, &mut meter);
            end_check(&rt, &options, found)
        }
        Some(why) => {
            let told = explain_with(
                &rt,
                alloc,
                &mut input,
                &mut output,
                &options,
                why,
                &mut meter,
            );
            end_answer(&rt, told)
        }
    }
}

/// Returns the exit code of the counts, or of the fault, which it prints.
fn end_check(rt: &HostRuntime, options: &Options, found: Result<Checked, CheckFault>) -> ExitCode {
    match found {
        Ok(checked) => ExitCode::from(checked.status(options.strict)),
        Err(fault) => {
            let status = fault.status();
            let _ = rt.eprintln(fault);
            ExitCode::from(status)
        }
    }
}

/// Returns the exit code of an explanation, or of the fault, which it prints.
fn end_answer(rt: &HostRuntime, told: Result<(), WhyFault>) -> ExitCode {
    match told {
        Ok(()) => ExitCode::SUCCESS,
        Err(fault) => {
            let status = fault.status();
            let _ = rt.eprintln(fault);
            ExitCode::from(status)
        }
    }
}

/// Returns the exit code of the verdict for all time, or of the fault, which it prints.
fn end_look(rt: &HostRuntime, verdict: Result<Verdict, ForeverFault>) -> ExitCode {
    match verdict {
        Ok(verdict) => ExitCode::from(verdict.status()),
        Err(fault) => {
            let status = fault.status();
            let _ = rt.eprintln(fault);
            ExitCode::from(status)
        }
    }
}

/// Prints why the arguments are refused: help on standard output, anything else on standard error.
fn tell(rt: &HostRuntime, fault: &WordsFault) -> ExitCode {
    match fault {
        WordsFault::Help(text) => match rt.print(text.as_str()) {
            Ok(()) => ExitCode::from(fault.status()),
            Err(_) => fail(rt, WRITE_FAILED, 3),
        },
        WordsFault::Words(text) => fail(rt, text.as_str(), fault.status()),
        WordsFault::NoMemory => fail(rt, NO_MEMORY, fault.status()),
    }
}

/// The arguments after the program's name.
fn words_of(rt: &HostRuntime) -> io::Result<Vec<String>> {
    let mut words = Vec::new(rt.alloc());
    for word in env::args(rt)?.skip(1) {
        words.push(word)?;
    }
    Ok(words)
}

fn fail(rt: &HostRuntime, text: &str, status: u8) -> ExitCode {
    let _ = rt.eprint(text);
    ExitCode::from(status)
}

//! Runs the systems that are stored as files below the working folder, and prints for each run
//! whether its output is the expected one.
//!
//! The system `NAME` of a part is the file `PART/NAME.toml`. Each of its runs has two files in the
//! folder `PART/NAME`. `RUN.words` holds the options of its command line, `RUN.stdout` the expected
//! output.
#![tactic(auto)]

ghost use Rattle.std.specs.Prelude.{Ok, Err, IfNone, IfSome, ℕ, ◌≡◌, ◌≢◌};
ghost use Rattle.mcs_system.specs.System.{System};
ghost use Rattle.mcs_load.specs.Memory.{no_memory};
ghost use Rattle.mcs_load.specs.declared.fault.LoadFault.{LoadFault};
ghost use Rattle.mcs_cli.specs.Run.{loaded, output_of};
ghost use Rattle.mcs_cli.specs.declared.fault.RunFault.TheVariants.{Load};
ghost use Rattle.mcs_corpus.specs.declared.Outcome.TheVariants.{Agrees, Differs, Fails};

use mcs_cli::{FromRead, IntoWrite, Open, Options, RunFault, options, run};
use std::alloc::Global;
use std::fs::{read, read_dir, read_to_string};
use std::rt::Files;
use std::sync::Wait;
use std::thread::Threads;
use std::{fmt, io};

/// The folders of systems.
static PARTS: [&str; 8] = [
    "examples",
    "worked",
    "turns",
    "orders",
    "events",
    "random_one",
    "random_several",
    "files",
];

/// The result of a run.
#[derive(Drop)]
enum Outcome {
    /// The output is the expected one.
    Agrees,
    /// The output differs. The first difference is in this line, from 1.
    Differs(usize),
    /// The run failed.
    Fails(RunFault),
    /// The run did not begin, since its options were refused.
    NoWords,
}

impl fmt::Display for Outcome {
    fn fmt<W: fmt::Write>(&self, f: &mut fmt::Formatter<W>) -> fmt::Result {
        match self {
            Outcome::Agrees => write!(f, "agrees"),
            Outcome::Differs(line) => write!(f, "differs in line {line}"),
            Outcome::Fails(fault) => write!(f, "fails: {fault}"),
            Outcome::NoWords => write!(f, "has words that are not understood"),
        }
    }
}

fn main(rt: HostRuntime) -> io::Result<()> {
    for part in PARTS {
        for name in names_in(&rt, rt.alloc(), part, ".toml")?.as_slice() {
            let system = format!(in rt.alloc(); "{part}/{name}")?;
            tell_runs(&rt, rt.alloc(), system.as_str())?;
        }
    }
    Ok(())
}

/// Runs a system once per file of options in its folder, and prints the result.
fn tell_runs(
    rt: &(impl Files + Print + Alloc + Clone + Threads + Wait + Sync),
    alloc: Global,
    system: &str,
) -> io::Result<()> {
    let text = read(rt, format!(in alloc; "{system}.toml")?)?;
    for name in names_in(rt, alloc, system, ".words")?.as_slice() {
        let run = format!(in alloc; "{system}/{name}")?;
        let outcome = outcome_of(rt, alloc, text.as_slice(), run.as_str())?;
        println!(rt; "{run}: {outcome}")?;
    }
    Ok(())
}

/// Returns the names in a folder that have this ending, without it, in order.
fn names_in(
    rt: &(impl Files + Alloc + Clone),
    alloc: Global,
    folder: &str,
    ending: &str,
) -> io::Result<Vec<String>> {
    let mut names = Vec::new(alloc);
    for entry in read_dir(rt, folder)? {
        if let Some(name) = entry?.file_name().strip_suffix(ending) {
            names.push(String::from_str(alloc, name)?)?;
        }
    }
    names.sort()?;
    Ok(names)
}

/// Runs the system that a text describes, and returns the result.
fn outcome_of(
    rt: &(impl Files + Alloc + Threads + Wait + Sync),
    alloc: Global,
    system: &[u8],
    run: &str,
) -> io::Result<Outcome> {
    let text = read_to_string(rt, format!(in alloc; "{run}.words")?)?;
    let wanted = read(rt, format!(in alloc; "{run}.stdout")?)?;
    let mut words = Vec::new(alloc);
    for word in text.split_whitespace() {
        words.push(String::from_str(alloc, word)?)?;
    }
    match options(alloc, words.as_slice()) {
        Ok(options) => Ok(compared(rt, alloc, system, &options, wanted.as_slice())),
        Err(_) => Ok(Outcome::NoWords),
    }
}

/// Compares the output of a run with the expected output.
fn compared(
    rt: &(impl Threads + Wait + Sync),
    alloc: Global,
    system: &[u8],
    options: &Options,
    wanted: &[u8],
) -> Outcome
    ensures agrees { result ≡ Agrees → (s : System) × (loaded system.now ≡ Ok s)
        × (output_of options.now.show s options.now.horizon ≡ wanted.now) }
    ensures differs { (line : ℕ) → result ≡ Differs line → (s : System) × (loaded system.now ≡ Ok s)
        × (output_of options.now.show s options.now.horizon ≢ wanted.now) }
    ensures refused { (f : LoadFault) → result ≡ Fails (Load f) → f ≢ no_memory → loaded system.now ≡ Err f }
{
    let mut source = FromRead::new(system);
    let mut target = IntoWrite::new(Vec::new(alloc));
    match run(rt, alloc, &mut source, &mut target, options, &Open) {
        Ok(()) => match line_of_difference(target.into_inner().as_slice(), wanted) {
            None => Outcome::Agrees,
            Some(line) => Outcome::Differs(line),
        },
        Err(fault) => Outcome::Fails(fault),
    }
}

/// Returns the first line in which two texts differ, from 1, or `None` if they are equal.
fn line_of_difference(written: &[u8], wanted: &[u8]) -> Option<usize>
    ensures same { IfNone result (written.now ≡ wanted.now) }
    ensures other { IfSome result (λ _. written.now ≢ wanted.now) }
{
    if written == wanted {
        return None;
    }
    let same = written.iter().zip(wanted).take_while(|(a, b)| a == b);
    Some(1 + same.filter(|(byte, _)| **byte == b'\n').count())
}

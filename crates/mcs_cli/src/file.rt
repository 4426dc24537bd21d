//! A run of a named file.
ghost use Rattle.std.specs.Prelude.{◌≡◌, ℕ, Bool, List, Option, None, IfSome, true, false, Err};
ghost use Rattle.mcs_cli.specs.Run.{IsRun};

use crate::{FromRead, Gate, Options, RunFault, Source, Target, run};
use std::alloc::Global;
use std::fs::File;
use std::rt::Files;
use std::sync::Wait;
use std::thread::Threads;

/// Runs the file that the options name, or the input if they name none.
///
/// A file that can't be opened counts as failed (`Read`). No contract knows the bytes of a file.
/// The output is then that of some text.
pub fn run_with<H: Files + Threads + Wait + Sync, S: Source, T: Target, G: Gate + Sync>(
    rt: &H,
    alloc: Global,
    input: &mut S,
    output: &mut T,
    options: &Options,
    gate: &G,
) -> Result<(), RunFault>
    requires reads { S.has_failed input.old ≡ false }
    requires writes { T.has_failed output.old ≡ false }
    ensures input { options.now.file ≡ None
        → IsRun (S.remaining input.old) (S.remaining input.new) (S.given input.old) (S.given input.new)
        (S.has_failed input.new) (T.contents output.old) (T.contents output.new) (T.has_failed output.new) options.now result }
    ensures file { IfSome options.now.file
        (λ _. (old new : Option (List ℕ)) × (given : ℕ) × (failed : Bool)
        × IsRun old new 0 given failed (T.contents output.old) (T.contents output.new) (T.has_failed output.new)
        options.now result) }
    ensures source_blamed { S.has_failed input.new ≡ true → result ≡ Err RunFault.Read }
    ensures target_blamed { T.has_failed output.new ≡ true → result ≡ Err RunFault.Write }
    ensures kept { IfSome options.now.file (λ _. input.new ≡ input.old) }
{
    match &options.file {
        Some(name) => match File::open(rt, name.as_str()) {
            Ok(file) => run(rt, alloc, &mut FromRead::new(file), output, options, gate),
            Err(_) => Err(RunFault::Read),
        },
        None => run(rt, alloc, input, output, options, gate),
    }
}

//! The check for all time, from the bytes read to the bytes written.
ghost use Rattle.std.specs.Prelude.{◌≡◌, ◌^◌, ◌≤◌, ℕ, List, Bool, Option, None, Err, true, false, IfErr, IfOk, IfSome, OnOk};
ghost use Rattle.std.specs.Arc.{arc_value};
ghost use Rattle.mcs_cli.specs.declared.fault.RunFault.TheVariants as fault;
ghost use Rattle.mcs_team.specs.declared.run.SimFault.TheVariants as memory;
ghost use Rattle.mcs_check_run.specs.Allowed.{first_unknown, notifications, names_of};
ghost use Rattle.mcs_check_run.specs.declared.fault.CheckFault.TheVariants as check;
ghost use Rattle.mcs_ever_told.specs.Outlook.{AreTold};
ghost use Rattle.mcs_check_forever.specs.Foretold.{IsForetelling, IsTold, IsUnforetold, is_mixed};
ghost use Rattle.mcs_check_forever.specs.Verdict.{IsForetold};
ghost use Rattle.mcs_check_forever.specs.declared.forever_fault.ForeverFault.TheVariants.{Check};

use crate::told::{text_of, verdict_of};
use crate::{ForeverFault, Verdict};
use mcs_check_run::{CheckFault, Progress, Quiet, flags_of, refuse_unknown};
use mcs_check_words::{Format, Options};
use mcs_cli::{FromRead, RunFault, Source, Target, read_system, write_text};
use mcs_ever_chain::{tell_chains, told_sets_recur};
use mcs_ever_told::{Outlook, Told};
use mcs_spin::spin;
use mcs_system::System;
use mcs_team::SimFault;
use mcs_ticks::{NoMemory, Tick};
use std::alloc::Global;
use std::fs::File;
use std::rt::Files;
use std::sync::Arc;

/// Steps of the search between two reports of the progress.
const STRIDE: u32 = 4_096;

/// Checks the system in the file that the options name, or in the input if they name none. A file
/// that cannot be opened is `Read`. No contract knows the bytes of a file: the lines are those of
/// some text.
pub fn foretell_with<H: Files, S: Source, T: Target, P: Progress>(
    rt: &H,
    alloc: Global,
    input: &mut S,
    output: &mut T,
    options: &Options,
    progress: &mut P,
) -> Result<Verdict, ForeverFault>
    requires reads { S.has_failed input.old ≡ false }
    requires writes { T.has_failed output.old ≡ false }
    ensures input { options.now.file ≡ None
        → IsForetelling (T.contents output.old) (T.contents output.new) (T.has_failed output.new) options.now
        (S.remaining input.old) (S.remaining input.new) (S.given input.old) (S.given input.new) (S.has_failed input.new) result }
    ensures file { IfSome options.now.file
        (λ _. (old new : Option (List ℕ)) × (given : ℕ) × (failed : Bool)
        × IsForetelling (T.contents output.old) (T.contents output.new) (T.has_failed output.new) options.now
        old new 0 given failed result) }
    ensures source_blamed { S.has_failed input.new ≡ true → result ≡ Err (Check (check.Run fault.Read)) }
    ensures target_blamed { T.has_failed output.new ≡ true → result ≡ Err (Check (check.Run fault.Write)) }
    ensures kept { IfSome options.now.file (λ _. input.new ≡ input.old) }
{
    match &options.file {
        Some(name) => match File::open(rt, name.as_str()) {
            Ok(file) => {
                let mut source = FromRead::new(file);
                foretell(alloc, &mut source, output, options, progress)
            }
            Err(_) => Err(ForeverFault::Check(CheckFault::Run(RunFault::Read))),
        },
        None => foretell(alloc, input, output, options, progress),
    }
}

/// Reads a system, searches for a repetition up to the horizon, and writes the result of each
/// closed set of cores and of each chain; returns the verdict.
///
/// A closed set is one that no core outside it signals. Its lines say from which time on it
/// repeats, with which period, and its findings for ever; without a repetition, its findings so
/// far. The lines of a chain say the same of its answers. A thread that only computes is taken to
/// spin. One thread searches, whatever the option `workers`. Neither device may have failed
/// before; a device is blamed only if it has failed. After `Write` a prefix was written, after any
/// other fault no byte.
pub fn foretell<S: Source, T: Target, P: Progress>(
    alloc: Global,
    source: &mut S,
    target: &mut T,
    options: &Options,
    progress: &mut P,
) -> Result<Verdict, ForeverFault>
    requires reads { S.has_failed source.old ≡ false }
    requires writes { T.has_failed target.old ≡ false }
    ensures foretold { IsForetelling (T.contents target.old) (T.contents target.new) (T.has_failed target.new) options.now
        (S.remaining source.old) (S.remaining source.new) (S.given source.old) (S.given source.new) (S.has_failed source.new) result }
    ensures source_blamed { S.has_failed source.new ≡ true → result ≡ Err (Check (check.Run fault.Read)) }
    ensures target_blamed { T.has_failed target.new ≡ true → result ≡ Err (Check (check.Run fault.Write)) }
{
    if is_mixed(options) {
        return Err(ForeverFault::Mixed);
    }
    let system = read_system(alloc, source)?;
    tell(alloc, target, system, options, progress)
}

/// Checks a system for all time on this thread, and returns the verdict and the text
/// that `foretell` may write of it. Needs no device.
///
/// Errors: `Mixed` and `Unknown` as `foretell` has them; `Sim` if an allocation failed.
pub fn foretell_alone(
    alloc: Global,
    system: System,
    options: &Options,
) -> Result<(Verdict, Vec<u8>), ForeverFault>
    ensures text { IfOk result
        (λ told. IsForetold (names_of options.now) system options.now.horizon options.now.format told.0 told.1.items) }
    ensures matched { OnOk result (is_mixed options.now ≡ false) }
    ensures known { OnOk result (first_unknown (notifications system) (names_of options.now) ≡ None) }
    ensures fault { IfErr result (IsUnforetold options.now system) }
{
    if is_mixed(options) {
        return Err(ForeverFault::Mixed);
    }
    refuse_unknown(alloc, system.parts(), options.allowed.as_slice())?;
    match foretold(alloc, system, options, &mut Quiet) {
        Ok(told) => Ok(told),
        Err(NoMemory) => Err(no_memory()),
    }
}

/// Whether an option is given that does not go with it.
fn is_mixed(options: &Options) -> bool
    ensures { result ≡ is_mixed options.now }
{
    options.show_given
        || options.strict
        || options.why.is_some()
        || matches!(options.format, Format::Csv)
}

/// Checks this system.
fn tell<T: Target, P: Progress>(
    alloc: Global,
    target: &mut T,
    system: System,
    options: &Options,
    progress: &mut P,
) -> Result<Verdict, ForeverFault>
    requires { T.has_failed target.old ≡ false }
    ensures told { IsTold (T.contents target.old) (T.contents target.new) (T.has_failed target.new) options.now system result }
    ensures blamed { T.has_failed target.new ≡ true → result ≡ Err (Check (check.Run fault.Write)) }
{
    refuse_unknown(alloc, system.parts(), options.allowed.as_slice())?;
    let Ok((verdict, text)) = foretold(alloc, system, options, progress) else {
        return Err(no_memory());
    };
    write_text(target, text.as_slice())?;
    Ok(verdict)
}

fn no_memory() -> ForeverFault
    ensures { result ≡ Check (check.Run (fault.Sim memory.NoMemory)) }
{
    ForeverFault::Check(CheckFault::Run(RunFault::Sim(SimFault::NoMemory)))
}

/// The verdict of the system and the text of its lines. Threads that only compute spin in it: their
/// places in their scripts decide nothing, and would keep their cores from repeating.
fn foretold<P: Progress>(
    alloc: Global,
    system: System,
    options: &Options,
    progress: &mut P,
) -> Result<(Verdict, Vec<u8>), NoMemory>
    ensures { IfOk result (λ told. IsForetold (names_of options.now) system options.now.horizon options.now.format told.0 told.1.items) }
{
    let allowed = flags_of(alloc, system.parts(), options.allowed.as_slice())?;
    let spinning = spin(alloc, system)?;
    let system = Arc::new(alloc, spinning)?;
    let shared = Arc::try_clone(&system)?;
    let told = look(alloc, shared, allowed.as_slice(), options.horizon, progress);
    progress.wipe();
    let told = told?;
    told_sets_recur();
    let again = Arc::try_clone(&system)?;
    let chains = tell_chains(alloc, again, told.as_slice(), options.horizon)?;
    let (sets, chains) = (told.as_slice(), chains.as_slice());
    let text = text_of(
        alloc,
        options.format,
        &system,
        options.horizon,
        sets,
        chains,
    )?;
    Ok((verdict_of(&system, sets, chains), text))
}

/// Searches for repetitions up to the horizon.
fn look<P: Progress>(
    alloc: Global,
    system: Arc<System>,
    allowed: &[bool],
    horizon: Tick,
    progress: &mut P,
) -> Result<Vec<Told>, NoMemory>
    requires { horizon ≤ 2 ^ 40 }
    ensures { IfOk result (λ told. AreTold (arc_value system) allowed.now horizon told.items) }
{
    let mut outlook = Outlook::new(alloc, system, allowed, horizon)?;
    let mut moments: u32 = 0;
    'steps: while outlook.step(alloc)? {
        moments = moments.wrapping_add(1);
        if moments % STRIDE == 0 {
            progress.passed(outlook.clock());
        }
    }
    outlook.finish(alloc)
}

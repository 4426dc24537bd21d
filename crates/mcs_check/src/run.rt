ghost use Rattle.std.specs.Prelude.{◌≡◌, ◌++◌, [], ℕ, Bool, List, Option, None, Err, true, false, map, string_bytes, IfOk, IfErr, IfSome, OnOk, OnErr};
ghost use Rattle.std.specs.Io.KnownBytes.{Appends};
ghost use Rattle.mcs_cli.specs.Flow.{IsWriteFault};
ghost use Rattle.mcs_cli.specs.declared.fault.RunFault.TheVariants as fault;
ghost use Rattle.mcs_check.specs.Check.{IsCheck, check_text, counts_of};
ghost use Rattle.mcs_check_run.specs.Allowed.{names_of};
ghost use Rattle.mcs_check_run.specs.declared.fault.CheckFault.TheVariants.{Run};

use crate::find::find_rows;
use crate::rest::put_rest;
use crate::scope::checked_of;
use mcs_check_lines::{Checked, is_mixed};
use mcs_check_run::{CheckFault, Machine, Progress, Runner, Team, flags_of, refuse_unknown};
use mcs_check_words::Options;
use mcs_cli::{FromRead, RunFault, Source, Target, read_system, write_text};
use mcs_system::System;
use mcs_verdict_laws::schedules_are_in_order;
use std::alloc::Global;
use std::fs::File;
use std::rt::Files;
use std::sync::{Arc, Wait};
use std::thread::Threads;

/// Checks the file that the options name, or the input if they name none. A file that cannot be
/// opened is `Read`. No contract knows the bytes of a file: the lines are those of some text.
pub fn check_with<H: Files + Threads + Wait + Sync, S: Source, T: Target, P: Progress>(
    rt: &H,
    alloc: Global,
    input: &mut S,
    output: &mut T,
    options: &Options,
    progress: &mut P,
) -> Result<Checked, CheckFault>
    requires reads { S.has_failed input.old ≡ false }
    requires writes { T.has_failed output.old ≡ false }
    ensures input { options.now.file ≡ None
        → IsCheck (S.remaining input.old) (S.remaining input.new) (S.given input.old) (S.given input.new) (S.has_failed input.new)
        (T.contents output.old) (T.contents output.new) (T.has_failed output.new) options.now result }
    ensures file { IfSome options.now.file
        (λ _. (old new : Option (List ℕ)) × (given : ℕ) × (failed : Bool)
        × IsCheck old new 0 given failed (T.contents output.old) (T.contents output.new) (T.has_failed output.new) options.now result) }
    ensures source_blamed { S.has_failed input.new ≡ true → result ≡ Err (Run fault.Read) }
    ensures target_blamed { T.has_failed output.new ≡ true → result ≡ Err (Run fault.Write) }
    ensures kept { IfSome options.now.file (λ _. input.new ≡ input.old) }
{
    match &options.file {
        Some(name) => match File::open(rt, name.as_str()) {
            Ok(file) => check(
                rt,
                alloc,
                &mut FromRead::new(file),
                output,
                options,
                progress,
            ),
            Err(_) => Err(CheckFault::Run(RunFault::Read)),
        },
        None => check(rt, alloc, input, output, options, progress),
    }
}

/// Reads a system, simulates it, and writes what the options ask to be shown of its schedule;
/// returns the counts.
///
/// Lines come as the rows do. Findings are followed by those at the horizon and by hints, then by
/// the figures if they are asked for; jobs are followed by neither. Text and JSON end with the
/// counts. The bytes are the same for every number of workers. Neither device may have failed
/// before; a device is blamed only if it has failed. After `Mixed`, `Read`, `Load` and `Unknown` no
/// byte was written, after `Sim` and `Write` a prefix.
pub fn check<H: Threads + Wait + Sync, S: Source, T: Target, P: Progress>(
    rt: &H,
    alloc: Global,
    source: &mut S,
    target: &mut T,
    options: &Options,
    progress: &mut P,
) -> Result<Checked, CheckFault>
    requires reads { S.has_failed source.old ≡ false }
    requires writes { T.has_failed target.old ≡ false }
    ensures check { IsCheck (S.remaining source.old) (S.remaining source.new) (S.given source.old) (S.given source.new)
        (S.has_failed source.new) (T.contents target.old) (T.contents target.new) (T.has_failed target.new) options.now result }
    ensures source_blamed { S.has_failed source.new ≡ true → result ≡ Err (Run fault.Read) }
    ensures target_blamed { T.has_failed target.new ≡ true → result ≡ Err (Run fault.Write) }
{
    if is_mixed(options.format, options.show) {
        return Err(CheckFault::Mixed);
    }
    let system = read_system(alloc, source)?;
    refuse_unknown(alloc, system.parts(), options.allowed.as_slice())?;
    let team = Team {
        rt,
        workers: options.workers,
    };
    let machine = Machine {
        runner: &team,
        alloc,
    };
    let checked = write_check(&machine, target, system, options, progress)?;
    Ok(checked)
}

/// Simulates a system, writes what is shown of it, and returns the counts.
pub(crate) fn write_check<R: Runner, T: Target, P: Progress>(
    machine: &Machine<'_, R>,
    target: &mut T,
    system: System,
    options: &Options,
    progress: &mut P,
) -> Result<Checked, RunFault>
    requires can_run { R.can_run }
    requires working { T.has_failed target.old ≡ false }
    ensures ok { OnOk result
        (Appends (T.contents target.old) (T.contents target.new) (check_text (names_of options.now) system options.now.horizon options.now.format options.now.show)) }
    ensures counted { IfOk result (λ counts. counts ≡ counts_of (names_of options.now) system options.now.horizon) }
    ensures working { OnOk result (T.has_failed target.new ≡ false) }
    ensures fault { IfErr result
        (IsWriteFault (T.contents target.old) (T.contents target.new) (T.has_failed target.new)
        (check_text (names_of options.now) system options.now.horizon options.now.format options.now.show)) }
{
    schedules_are_in_order();
    let _parts = system.parts();
    let alloc = machine.alloc;
    let system = Arc::new(alloc, system)?;
    let allowed = flags_of(alloc, system.parts(), options.allowed.as_slice())?;
    let allowed = allowed.as_slice();
    let found = find_rows(machine, target, &system, allowed, options, progress);
    progress.wipe();
    let mut all = found?;
    put_rest(alloc, options, &mut all, &system, allowed)?;
    write_text(target, all.text.as_slice())?;
    Ok(checked_of(&system, &all))
}

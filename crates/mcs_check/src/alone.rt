//! Checks on the caller's thread alone, in memory: they need neither a handle nor devices.
ghost use Rattle.std.specs.Prelude.{◌≡◌, false, None, IfErr, IfOk, OnOk};
ghost use Rattle.mcs_check_lines.specs.Formats.{is_mixed as are_mixed};
ghost use Rattle.mcs_check_run.specs.Allowed.{first_unknown, names_of, notifications};
ghost use Rattle.mcs_check.specs.Check.{IsRefusal, check_text, counts_of};

use crate::run::write_check;
use mcs_check_lines::{Checked, is_mixed as are_mixed};
use mcs_check_run::{Alone, CheckFault, Machine, Quiet, refuse_unknown};
use mcs_check_words::Options;
use mcs_cli::{IntoWrite, RunFault};
use mcs_system::System;
use mcs_team::SimFault;
use std::alloc::Global;

/// Checks a system on this thread alone, and returns the text that `check` writes of it, and the
/// counts. Needs no handle.
///
/// Errors: `Mixed` and `Unknown` as `check` has them; `Sim` if an allocation failed.
pub fn check_alone(
    alloc: Global,
    system: System,
    options: &Options,
) -> Result<(Vec<u8>, Checked), CheckFault>
    ensures text { IfOk result (λ told. told.0.items
        ≡ check_text (names_of options.now) system options.now.horizon options.now.format options.now.show) }
    ensures counted { IfOk result (λ told. told.1 ≡ counts_of (names_of options.now) system options.now.horizon) }
    ensures matched { OnOk result (are_mixed options.now.format options.now.show ≡ false) }
    ensures known { OnOk result (first_unknown (notifications system) (names_of options.now) ≡ None) }
    ensures fault { IfErr result (IsRefusal options.now system) }
{
    if are_mixed(options.format, options.show) {
        return Err(CheckFault::Mixed);
    }
    refuse_unknown(alloc, system.parts(), options.allowed.as_slice())?;
    let machine = Machine {
        runner: &Alone,
        alloc,
    };
    let mut target = IntoWrite::new(Vec::new(alloc));
    match write_check(&machine, &mut target, system, options, &mut Quiet) {
        Ok(checked) => Ok((target.into_inner(), checked)),
        Err(_) => Err(CheckFault::Run(RunFault::Sim(SimFault::NoMemory))),
    }
}

//! Explanations on the caller's thread alone, in memory: they need neither a handle nor devices.
ghost use Rattle.std.specs.Prelude.{◌≡◌, false, true, IfErr, IfOk, OnOk};
ghost use Rattle.mcs_check_words.specs.CommandLine.{question_texts};
ghost use Rattle.mcs_explain.specs.Explained.{IsUnexplained};
ghost use Rattle.mcs_explain.specs.Why.{found_of, is_mixed, is_there, why_text};

use crate::WhyFault;
use crate::refusals::is_mixed;
use crate::why::answer;
use mcs_check_run::{Alone, Machine, Quiet};
use mcs_check_words::{Options, Question};
use mcs_cli::{IntoWrite, RunFault};
use mcs_system::System;
use mcs_team::SimFault;
use std::alloc::Global;

/// Explains a round or an answer of a system on this thread alone, and returns the text that
/// `explain` writes of it. Needs no handle.
///
/// Errors: `Mixed`, `NoThread`, `NoName`, `NoRound` and `NoAnswer` as `explain` has them; `Sim` if
/// an allocation failed.
pub fn explain_alone(
    alloc: Global,
    system: System,
    options: &Options,
    question: &Question,
) -> Result<Vec<u8>, WhyFault>
    ensures text { IfOk result (λ text. text.items
        ≡ why_text options.now.format system options.now.horizon (question_texts question.now)) }
    ensures there { OnOk result (is_there (found_of system options.now.horizon (question_texts question.now)) ≡ true) }
    ensures matched { OnOk result (is_mixed options.now ≡ false) }
    ensures fault { IfErr result (IsUnexplained options.now (question_texts question.now) system) }
{
    if is_mixed(options) {
        return Err(WhyFault::Mixed);
    }
    let machine = Machine {
        runner: &Alone,
        alloc,
    };
    let mut target = IntoWrite::new(Vec::new(alloc));
    match answer(&machine, &mut target, system, options, question, &mut Quiet) {
        Ok(()) => Ok(target.into_inner()),
        Err(WhyFault::Run(_)) => Err(WhyFault::Run(RunFault::Sim(SimFault::NoMemory))),
        Err(fault) => Err(fault),
    }
}

//! Why a round took so long, or the way of an answer, from the bytes read to the lines written.
ghost use Rattle.std.specs.Prelude.{◌≡◌, ℕ, Bool, List, Option, None, Err, true, false, IfSome};
ghost use Rattle.mcs_cli.specs.declared.fault.RunFault.TheVariants as fault;
ghost use Rattle.mcs_check_words.specs.CommandLine.{question_texts};
ghost use Rattle.mcs_explain.specs.Explained.{IsExplained, IsTold};
ghost use Rattle.mcs_explain.specs.declared.why_fault.WhyFault.TheVariants.{Run};

use crate::WhyFault;
use crate::found::{Found, find};
use crate::refusals::{is_mixed, no_answer, no_round, nobody};
use crate::round::write_span;
use crate::way::write_way;
use mcs_check_run::{Machine, Progress, Runner, Team};
use mcs_check_words::{Options, Question};
use mcs_cli::{FromRead, RunFault, Source, Target, read_system};
use mcs_system::System;
use mcs_team::SimFault;
use std::alloc::Global;
use std::fs::File;
use std::rt::Files;
use std::sync::{Arc, Wait};
use std::thread::Threads;

/// Explains a round or an answer of the system in the file that the options name, or in the input
/// if they name none. A file that cannot be opened is `Read`. No contract knows the bytes of a
/// file: the lines are those of some text.
pub fn explain_with<H: Files + Threads + Wait + Sync, S: Source, T: Target, P: Progress>(
    rt: &H,
    alloc: Global,
    input: &mut S,
    output: &mut T,
    options: &Options,
    question: &Question,
    progress: &mut P,
) -> Result<(), WhyFault>
    requires reads { S.has_failed input.old ≡ false }
    requires writes { T.has_failed output.old ≡ false }
    ensures input { options.now.file ≡ None
        → IsExplained (T.contents output.old) (T.contents output.new) (T.has_failed output.new) options.now (question_texts question.now)
        (S.remaining input.old) (S.remaining input.new) (S.given input.old) (S.given input.new) (S.has_failed input.new) result }
    ensures file { IfSome options.now.file
        (λ _. (old new : Option (List ℕ)) × (given : ℕ) × (failed : Bool)
        × IsExplained (T.contents output.old) (T.contents output.new) (T.has_failed output.new) options.now (question_texts question.now)
        old new 0 given failed result) }
    ensures source_blamed { S.has_failed input.new ≡ true → result ≡ Err (Run fault.Read) }
    ensures target_blamed { T.has_failed output.new ≡ true → result ≡ Err (Run fault.Write) }
    ensures kept { IfSome options.now.file (λ _. input.new ≡ input.old) }
{
    match &options.file {
        Some(name) => match File::open(rt, name.as_str()) {
            Ok(file) => {
                let mut source = FromRead::new(file);
                explain(rt, alloc, &mut source, output, options, question, progress)
            }
            Err(_) => Err(WhyFault::Run(RunFault::Read)),
        },
        None => explain(rt, alloc, input, output, options, question, progress),
    }
}

/// Reads a system, simulates it twice, and writes why the round in question took so long, or which
/// way the answer came. A name is that of a thread, or if none has it, that of a chain.
///
/// The rows of a round's core come first. They begin at its activation, or when its thread began to
/// wait for the word that began it, and end with the round or at the horizon. Then come the round's
/// times, how long each thread ran meanwhile, and how long the core was idle. An answer has a line
/// for each leg from the interrupt to the end of the round. The bytes are the same for every number
/// of workers. Neither device may have failed before; a device is blamed only if it has failed.
/// After `Mixed`, `Read`, `Load`, `NoThread`, `NoName`, `NoRound` and `NoAnswer` no byte was
/// written, after `Sim` and `Write` a prefix.
pub fn explain<H: Threads + Wait + Sync, S: Source, T: Target, P: Progress>(
    rt: &H,
    alloc: Global,
    source: &mut S,
    target: &mut T,
    options: &Options,
    question: &Question,
    progress: &mut P,
) -> Result<(), WhyFault>
    requires reads { S.has_failed source.old ≡ false }
    requires writes { T.has_failed target.old ≡ false }
    ensures explained { IsExplained (T.contents target.old) (T.contents target.new) (T.has_failed target.new) options.now (question_texts question.now)
        (S.remaining source.old) (S.remaining source.new) (S.given source.old) (S.given source.new) (S.has_failed source.new) result }
    ensures source_blamed { S.has_failed source.new ≡ true → result ≡ Err (Run fault.Read) }
    ensures target_blamed { T.has_failed target.new ≡ true → result ≡ Err (Run fault.Write) }
{
    if is_mixed(options) {
        return Err(WhyFault::Mixed);
    }
    let system = read_system(alloc, source)?;
    let team = Team {
        rt,
        workers: options.workers,
    };
    let machine = Machine {
        runner: &team,
        alloc,
    };
    answer(&machine, target, system, options, question, progress)
}

/// Explains a round or an answer of this system.
pub(crate) fn answer<R: Runner, T: Target, P: Progress>(
    machine: &Machine<'_, R>,
    target: &mut T,
    system: System,
    options: &Options,
    question: &Question,
    progress: &mut P,
) -> Result<(), WhyFault>
    requires can_run { R.can_run }
    requires working { T.has_failed target.old ≡ false }
    ensures told { IsTold (T.contents target.old) (T.contents target.new) (T.has_failed target.new) options.now (question_texts question.now)
        system result }
    ensures blamed { T.has_failed target.new ≡ true → result ≡ Err (Run fault.Write) }
{
    let Ok(system) = Arc::new(machine.alloc, system) else {
        return Err(WhyFault::Run(RunFault::Sim(SimFault::NoMemory)));
    };
    let found = find(machine, &system, question, options, progress)?;
    match found {
        Found::Round(span) => {
            write_span(machine, target, &system, &span, options, progress)?;
            Ok(())
        }
        Found::Answer(answer) => {
            write_way(machine, target, &system, &answer, options, progress)?;
            Ok(())
        }
        Found::NoRound(rounds) => Err(no_round(machine.alloc, question, rounds)),
        Found::NoAnswer(answers) => Err(no_answer(machine.alloc, question, answers)),
        Found::Nobody => Err(nobody(machine.alloc, system.parts(), question.thread.as_str())),
    }
}

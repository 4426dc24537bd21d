//! The search for the round or the answer in question.
ghost use Rattle.std.specs.Prelude.{◌≡◌, IfErr, IfOk};
ghost use Rattle.std.specs.Arc.{arc_value};
ghost use Rattle.mcs_check_words.specs.CommandLine.{question_texts};
ghost use Rattle.mcs_explain.specs.Why.{answer_found, found_of, round_found};

use crate::asked::{Asked, asked_of, round_number};
use crate::round::find_round;
use crate::way::find_answer;
use mcs_chain::Answer;
use mcs_check_run::{Machine, Progress, Runner};
use mcs_check_words::{Options, Question};
use mcs_cli::RunFault;
use mcs_system::System;
use mcs_team::SimFault;
use mcs_way::Sought as AnswerSought;
use mcs_why::{Sought, Span};
use std::sync::Arc;

/// The result of a search for a round or an answer.
#[derive(Clone, Copy, Debug, PartialEq, Eq)]
pub(crate) enum Found {
    /// The interval of the round.
    Round(Span),
    /// The thread has no such round. It has rounds 1 to this number; it has none if this is 0.
    NoRound(u64),
    Answer(Answer),
    /// The chain has no such answer. It has answers 1 to this number; it has none if this is 0.
    NoAnswer(u64),
    /// No thread and no chain has the name.
    Nobody,
}

/// The result for a round.
fn round_found(sought: Sought) -> Found
    ensures { result ≡ round_found sought }
{
    match sought {
        Sought::There(span) => Found::Round(span),
        Sought::Missing(rounds) => Found::NoRound(rounds),
    }
}

/// The result for an answer.
fn answer_found(sought: AnswerSought) -> Found
    ensures { result ≡ answer_found sought }
{
    match sought {
        AnswerSought::There(answer) => Found::Answer(answer),
        AnswerSought::Missing(answers) => Found::NoAnswer(answers),
    }
}

/// Looks for the round or the answer in question.
pub(crate) fn find<R: Runner, P: Progress>(
    machine: &Machine<'_, R>,
    system: &Arc<System>,
    question: &Question,
    options: &Options,
    progress: &mut P,
) -> Result<Found, RunFault>
    requires can_run { R.can_run }
    ensures found { IfOk result (λ found. found ≡ found_of (arc_value system.now) options.now.horizon (question_texts question.now)) }
    ensures fault { IfErr result (λ f. f ≡ RunFault.Sim SimFault.NoMemory) }
{
    let number = round_number(question.round.as_str());
    match asked_of(system.parts(), question.thread.as_str()) {
        Asked::Round(thread) => {
            let sought = find_round(machine, system, thread, number, options, progress)?;
            Ok(round_found(sought))
        }
        Asked::Answer(chain) => {
            let sought = find_answer(machine, system, chain, number, options, progress)?;
            Ok(answer_found(sought))
        }
        Asked::Nobody => Ok(Found::Nobody),
    }
}

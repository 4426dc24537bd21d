//! The refusals: options that have nothing to do with the question, and names and numbers without a
//! round or an answer.
ghost use Rattle.std.specs.Prelude.{◌≡◌, IfOk, None, option_map, string_bytes};
ghost use Rattle.mcs_check_words.specs.CommandLine.{question_texts};
ghost use Rattle.mcs_explain.specs.Asked.{IsNoAnswer, IsNoRound, IsNobody, nearest_chain, nearest_name, nearest_of, nearest_thread};
ghost use Rattle.mcs_explain.specs.Why.{is_mixed};

use crate::{Answers, Rounds, WhyFault};
use mcs_check_run::{is_short, nearer};
use mcs_check_words::{Format, Options, Question};
use mcs_cli::RunFault;
use mcs_system::SystemParts;
use mcs_team::SimFault;
use std::alloc::{AllocError, Global};

/// Whether an option is given that has nothing to do with a round.
pub(crate) fn is_mixed(options: &Options) -> bool
    ensures { result ≡ is_mixed options.now }
{
    options.show_given
        || options.strict
        || !options.allowed.is_empty()
        || matches!(options.format, Format::Csv)
}

/// The fault of a name that no thread and no chain has, or `Sim` if memory runs out.
pub(crate) fn nobody(alloc: Global, parts: &SystemParts, name: &str) -> WhyFault
    ensures { IsNobody parts.now name.now result }
{
    let Ok((name, nearest)) = told(alloc, parts, name) else {
        return WhyFault::Run(RunFault::Sim(SimFault::NoMemory));
    };
    if parts.chains.is_empty() {
        WhyFault::NoThread { name, nearest }
    } else {
        WhyFault::NoName { name, nearest }
    }
}

/// The name and the nearest name.
fn told(
    alloc: Global,
    parts: &SystemParts,
    name: &str,
) -> Result<(String, Option<String>), AllocError>
    ensures { IfOk result (λ t. (string_bytes t.0 ≡ name.now) × (option_map string_bytes t.1 ≡ nearest_name parts.now name.now)) }
{
    let nearest = match nearest(alloc, parts, name)? {
        Some(near) => Some(String::from_str(alloc, near)?),
        None => None,
    };
    Ok((String::from_str(alloc, name)?, nearest))
}

/// The nearest name of a thread or a chain, the first of equally near ones. `None` if the given
/// name is not short, since comparing a long text takes long.
fn nearest<'a>(
    alloc: Global,
    parts: &'a SystemParts,
    name: &str,
) -> Result<Option<&'a str>, AllocError>
    ensures { IfOk result (λ near. option_map (λ n. n.now) near ≡ nearest_name parts.now name.now) }
{
    if is_short(name) {
        nearest_of(alloc, parts, name)
    } else {
        Ok(None)
    }
}

/// The nearest of the names of all threads and then of all chains.
fn nearest_of<'a>(
    alloc: Global,
    parts: &'a SystemParts,
    name: &str,
) -> Result<Option<&'a str>, AllocError>
    ensures { IfOk result (λ near. option_map (λ n. n.now) near ≡ nearest_of parts.now name.now) }
{
    let near = nearest_thread(alloc, parts, name)?;
    nearest_chain(alloc, parts, name, near)
}

/// The nearest of the names of all threads.
fn nearest_thread<'a>(
    alloc: Global,
    parts: &'a SystemParts,
    name: &str,
) -> Result<Option<&'a str>, AllocError>
    ensures { IfOk result (λ near. option_map (λ n. n.now) near ≡ nearest_thread name.now None parts.now.threads) }
{
    let mut near = None;
    for part in parts.threads.as_slice() {
        near = Some(nearer(alloc, name, near, part.name.as_str())?);
    }
    Ok(near)
}

/// The nearest of this name and the names of all chains.
fn nearest_chain<'a>(
    alloc: Global,
    parts: &'a SystemParts,
    name: &str,
    near: Option<&'a str>,
) -> Result<Option<&'a str>, AllocError>
    ensures { IfOk result (λ n. option_map (λ n. n.now) n ≡ nearest_chain name.now (option_map (λ n. n.now) near.entry) parts.now.chains) }
{
    let mut near = near;
    for part in parts.chains.as_slice() {
        near = Some(nearer(alloc, name, near, part.name.as_str())?);
    }
    Ok(near)
}

/// The texts of a question.
fn texts_of(alloc: Global, question: &Question) -> Result<(String, String), AllocError>
    ensures { IfOk result (λ t. (string_bytes t.0 ≡ (question_texts question.now).0) × (string_bytes t.1 ≡ (question_texts question.now).1)) }
{
    let name = String::from_str(alloc, question.thread.as_str())?;
    let number = String::from_str(alloc, question.round.as_str())?;
    Ok((name, number))
}

/// The fault of a round that does not exist, or `Sim` if memory runs out.
pub(crate) fn no_round(alloc: Global, question: &Question, rounds: u64) -> WhyFault
    ensures { IsNoRound (question_texts question.now) rounds result }
{
    match texts_of(alloc, question) {
        Ok((thread, round)) => WhyFault::NoRound {
            thread,
            round,
            rounds: Rounds(rounds),
        },
        Err(_) => WhyFault::Run(RunFault::Sim(SimFault::NoMemory)),
    }
}

/// The fault of a number without an answer, or `Sim` if memory runs out.
pub(crate) fn no_answer(alloc: Global, question: &Question, answers: u64) -> WhyFault
    ensures { IsNoAnswer (question_texts question.now) answers result }
{
    match texts_of(alloc, question) {
        Ok((chain, number)) => WhyFault::NoAnswer {
            chain,
            number,
            answers: Answers(answers),
        },
        Err(_) => WhyFault::Run(RunFault::Sim(SimFault::NoMemory)),
    }
}

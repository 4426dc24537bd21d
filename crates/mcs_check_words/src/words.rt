//! The options that the arguments of the command line give.
ghost use Rattle.std.specs.Prelude.{◌≡◌, ◌≤◌, ◌^◌, map, codes, option_map, string_bytes, IfOk};
ghost use Rattle.clap.specs.Words.{found_of, rows_of};
ghost use Rattle.mcs_words.specs.CommandLine.{HasNumber, text_of};
ghost use Rattle.mcs_check_words.specs.CommandLine.{HasValues, IsAnswer, IsParse, first_two, format_named, is_by_words, is_given, is_set, question_texts, show_named, texts_of, horizon_of};

use crate::arguments::command_line;
use crate::{Format, Options, Question, Show};
use clap::parser::ValueSource;
use clap::{ArgMatches, Error};
use mcs_ticks::Tick;
use mcs_words::{WordsFault, fault_of, file_of, number_of};
use std::alloc::{AllocError, Global};

/// Default horizon of `--forever`, in ticks: a repetition is searched for up to it.
const FOREVER: u64 = 10_000_000;

/// Reads the arguments after the program's name as clap does: `[FILE] [--horizon N] [--workers W]
/// [--allow-lost NOTE].. [--strict] [--show findings|jobs|table|both] [--format text|csv|json]
/// [--why THREAD ROUND] [--forever]`. Arguments that have a fault, or ask for help, are refused
/// with clap's text.
pub fn options(alloc: Global, words: &[String]) -> Result<Options, WordsFault>
    ensures { IsAnswer (map (λ word. string_bytes word) words.now) result }
{
    match matches_of(alloc, words) {
        Ok(matches) => Ok(options_of(alloc, &matches)?),
        Err(error) => Err(fault_of(alloc, &error)),
    }
}

fn matches_of<'a>(alloc: Global, words: &'a [String]) -> Result<ArgMatches<'a>, Error>
    ensures parse { IsParse (map (λ word. string_bytes word) words.entry.now) result }
    ensures horizon { IfOk result (λ m. HasNumber (codes "horizon") 0 (2 ^ 40) (rows_of (found_of m))) }
    ensures workers { IfOk result (λ m. HasNumber (codes "workers") 1 64 (rows_of (found_of m))) }
{
    let command = command_line(alloc)?;
    command.try_get_matches_from(words)
}

/// The last time of the run, or of the search for a repetition.
fn horizon_of(matches: &ArgMatches<'_>) -> u64
    requires { HasNumber (codes "horizon") 0 (2 ^ 40) (rows_of (found_of matches.now)) }
    ensures horizon { result ≡ horizon_of (rows_of (found_of matches.now)) }
    ensures in_range { result ≤ 2 ^ 40 }
{
    let given = number_of(matches, "horizon", 0, 1 << 40);
    if is_set(matches, "forever") && !is_given(matches, "horizon") {
        FOREVER
    } else {
        given
    }
}

fn options_of(alloc: Global, matches: &ArgMatches<'_>) -> Result<Options, AllocError>
    requires horizon { HasNumber (codes "horizon") 0 (2 ^ 40) (rows_of (found_of matches.now)) }
    requires workers { HasNumber (codes "workers") 1 64 (rows_of (found_of matches.now)) }
    ensures { IfOk result (HasValues (rows_of (found_of matches.now))) }
{
    let file = file_of(alloc, matches)?;
    let horizon = horizon_of(matches);
    let workers = number_of(matches, "workers", 1, 64) as usize;
    let allowed = texts_of(alloc, matches, "allow-lost")?;
    let strict = is_set(matches, "strict");
    let show = show_named(text_of(matches, "show"));
    let show_given = is_given(matches, "show");
    let format = format_named(text_of(matches, "format"));
    let why = question_of(alloc, matches)?;
    let forever = is_set(matches, "forever");
    Ok(Options {
        file,
        horizon: Tick::new(horizon).unwrap(),
        workers,
        allowed,
        strict,
        show,
        show_given,
        format,
        why,
        forever,
    })
}

/// The texts of all values of an option, in the order of the arguments. `AllocError` if memory runs
/// out.
fn texts_of(alloc: Global, matches: &ArgMatches<'_>, id: &str) -> Result<Vec<String>, AllocError>
    ensures { IfOk result (λ texts. map string_bytes texts.items ≡ texts_of id.now (rows_of (found_of matches.now))) }
{
    match matches.get_strs(id) {
        Some(values) => copies(alloc, values),
        None => Ok(Vec::new(alloc)),
    }
}

fn copies(alloc: Global, values: &[&str]) -> Result<Vec<String>, AllocError>
    ensures { IfOk result (λ copies. map string_bytes copies.items ≡ map (λ value. value.now) values.now) }
{
    let mut copies = Vec::new(alloc);
    for value in values {
        copies.push(String::from_str(alloc, value)?)?;
    }
    Ok(copies)
}

/// The thread and the round of `--why`, if it is given.
fn question_of(alloc: Global, matches: &ArgMatches<'_>) -> Result<Option<Question>, AllocError>
    ensures { IfOk result (λ why. option_map question_texts why
        ≡ first_two (texts_of (codes "why") (rows_of (found_of matches.now)))) }
{
    match matches.get_strs("why") {
        Some(values) => question(alloc, values),
        None => Ok(None),
    }
}

fn question(alloc: Global, values: &[&str]) -> Result<Option<Question>, AllocError>
    ensures { IfOk result (λ why. option_map question_texts why ≡ first_two (map (λ value. value.now) values.now)) }
{
    let (Some(thread), Some(round)) = (values.get(0), values.get(1)) else {
        return Ok(None);
    };
    Ok(Some(Question {
        thread: String::from_str(alloc, thread)?,
        round: String::from_str(alloc, round)?,
    }))
}

/// Whether an option is given and not only has its default.
fn is_given(matches: &ArgMatches<'_>, id: &str) -> bool
    ensures { result ≡ is_given id.now (rows_of (found_of matches.now)) }
{
    is_by_words(matches.value_source(id))
}

fn is_by_words(source: Option<ValueSource>) -> bool
    ensures { result ≡ is_by_words source }
{
    match source {
        Some(ValueSource::CommandLine) => true,
        Some(ValueSource::DefaultValue) | None => false,
    }
}

/// Whether an option that takes no value is given.
fn is_set(matches: &ArgMatches<'_>, id: &str) -> bool
    ensures { result ≡ is_set id.now (rows_of (found_of matches.now)) }
{
    matches.get_one::<bool>(id).unwrap_or(false)
}

/// The text of an option's value.
fn text_of<'a>(matches: &ArgMatches<'a>, id: &str) -> &'a str
    ensures { result.now ≡ text_of id.now (rows_of (found_of matches.now)) }
{
    matches.get_str(id).unwrap_or("")
}

fn show_named(word: &str) -> Show
    ensures { result ≡ show_named word.now }
{
    match word {
        "jobs" => Show::Jobs,
        "table" => Show::Table,
        "both" => Show::Both,
        _ => Show::Findings,
    }
}

fn format_named(word: &str) -> Format
    ensures { result ≡ format_named word.now }
{
    match word {
        "csv" => Format::Csv,
        "json" => Format::Json,
        _ => Format::Text,
    }
}

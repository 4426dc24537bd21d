//! The command line, as clap reads it.
ghost use Rattle.std.specs.Prelude.{◌≡◌, ◌≢◌, ◌≤◌, ◌^◌, ℕ, List, [], Some, false, map, codes, option_map, string_bytes, IfOk};
ghost use Rattle.std.specs.Borrow.{Bor};
ghost use Rattle.clap.specs.Built.{FitsChain};
ghost use Rattle.clap.specs.Words.{app_of, args_of, groups_of, rule_of, first_of, rows_of, found_of, kind_of};
ghost use Rattle.clap.specs.declared.builder.command.Command.TheViews.{out-Command};
ghost use Rattle.mcs_words.specs.CommandLine.{FaultOf, HasNumber, HasOneOrDefault, HasValues, IsAnswer, IsCommandLine, IsParse, bare_line, file_rule, number_of, number_rule, show_named, show_rule, show_words, text_of};

use crate::{Options, Show, WordsFault};
use clap::builder::ValueParser;
use clap::error::ErrorKind;
use clap::{Arg, ArgAction, ArgMatches, Command, Error};
use mcs_ticks::Tick;
use std::alloc::{AllocError, Global};

static SHOWS: [&str; 3] = ["schedule", "reports", "both"];

const ABOUT: &str =
    "Simulates threads with seL4 MCS scheduling contexts on several cores, tick by tick";

const AFTER: &str = "\
Example:
  mcsim system.toml --horizon 100 --show both

Exit status:
  0  done, or this help
  1  the file is refused
  2  these words are refused
  3  the file is not opened, or reading or writing failed
  4  no memory";

/// Parses the command line after the program's name, with clap: `[FILE] [--horizon N] [--workers W]
/// [--show schedule|reports|both]`.
///
/// Errors: `Words` with the text for a refused command line, `Help` with the help text, or
/// `NoMemory`.
pub fn options(alloc: Global, words: &[String]) -> Result<Options, WordsFault>
    ensures { IsAnswer (map (λ word. string_bytes word) words.now) result }
{
    match matches_of(alloc, words) {
        Ok(matches) => Ok(options_of(alloc, &matches)?),
        Err(error) => Err(fault_of(alloc, &error)),
    }
}

fn matches_of<'a>(alloc: Global, words: &'a [String]) -> Result<ArgMatches<'a>, Error>
    ensures parse { IsParse (map (λ word. string_bytes word) words.entry.now) result }
    ensures horizon { IfOk result (λ m. HasNumber (codes "horizon") 0 (2 ^ 40) (rows_of (found_of m))) }
    ensures workers { IfOk result (λ m. HasNumber (codes "workers") 1 64 (rows_of (found_of m))) }
{
    let command = command_line(alloc)?;
    command.try_get_matches_from(words)
}

fn command_line<'a>(alloc: Global) -> Result<Command<'a>, AllocError>
    ensures { IfOk result IsCommandLine }
{
    let horizon = number(alloc, "horizon", "N", "1000", 0, 1 << 40).help(
        "The last moment of the run, 0 to 2^40",
    );
    let workers = number(alloc, "workers", "W", "1", 1, 64).help(
        "How many workers may run cores, 1 to 64",
    );
    let bare = Command::new(alloc, "mcsim")
        .no_binary_name(true)
        .about(ABOUT)
        .after_help(AFTER);
    let line = bare.arg(file(alloc))?.arg(horizon)?.arg(workers)?;
    line.arg(show(alloc))
}

/// Returns the argument `FILE`, the file of the system.
pub fn file<'a>(alloc: Global) -> Arg<'a>
    ensures rule { rule_of result ≡ file_rule }
    ensures fits { FitsChain result }
{
    Arg::new(alloc, "FILE").action(ArgAction::Set).help(
        "The file of the system, in TOML; without it standard input is read",
    )
}

/// Returns an option whose value is a number from `least` to `most`.
pub fn number<'a>(
    alloc: Global,
    name: &'a str,
    value: &'a str,
    default: &'a str,
    least: u64,
    most: u64,
) -> Arg<'a>
    requires named { name.now ≢ [] }
    requires not_help { name.now ≢ codes "help" }
    requires not_version { name.now ≢ codes "version" }
    ensures rule { rule_of result ≡ number_rule name.entry.now default.entry.now least most }
    ensures id { result.id ≡ name.entry }
    ensures fits { FitsChain result }
    ensures default { HasOneOrDefault result }
    ensures range { result.value_parser ≡ Some (ValueParser.Unsigned least most) }
    ensures case { result.ignore_case ≡ false }
{
    Arg::new(alloc, name)
        .long(name)
        .action(ArgAction::Set)
        .value_name(value)
        .default_value(default)
        .value_parser(ValueParser::unsigned(least, most))
}

fn show<'a>(alloc: Global) -> Arg<'a>
    ensures rule { (shows : Bor (List (Bor (List ℕ)))) × (map (λ s. s.now) shows.now ≡ show_words)
        × (rule_of result ≡ show_rule shows) }
    ensures fits { FitsChain result }
    ensures id { result.id.now ≡ codes "show" }
{
    Arg::new(alloc, "show")
        .long("show")
        .action(ArgAction::Set)
        .value_name("WHAT")
        .default_value("schedule")
        .value_parser(SHOWS.as_slice())
        .help("What is written; both is the schedule, then the reports")
}

fn options_of(alloc: Global, matches: &ArgMatches<'_>) -> Result<Options, AllocError>
    requires horizon { HasNumber (codes "horizon") 0 (2 ^ 40) (rows_of (found_of matches.now)) }
    requires workers { HasNumber (codes "workers") 1 64 (rows_of (found_of matches.now)) }
    ensures { IfOk result (HasValues (rows_of (found_of matches.now))) }
{
    let file = file_of(alloc, matches)?;
    let horizon = number_of(matches, "horizon", 0, 1 << 40);
    let workers = number_of(matches, "workers", 1, 64) as usize;
    let show = show_named(text_of(matches, "show"));
    Ok(Options {
        file,
        horizon: Tick::new(horizon).unwrap(),
        workers,
        show,
    })
}

/// Returns the name of the file, if there is one. `AllocError` if memory runs out.
pub fn file_of(alloc: Global, matches: &ArgMatches<'_>) -> Result<Option<String>, AllocError>
    ensures { IfOk result
        (λ file. option_map string_bytes file ≡ first_of (codes "FILE") (rows_of (found_of matches.now))) }
{
    match matches.get_str("FILE") {
        Some(name) => Ok(Some(String::from_str(alloc, name)?)),
        None => Ok(None),
    }
}

/// Returns the number of an option.
pub fn number_of(matches: &ArgMatches<'_>, id: &str, least: u64, most: u64) -> u64
    requires { HasNumber id.now least most (rows_of (found_of matches.now)) }
    ensures value { result ≡ number_of id.now (rows_of (found_of matches.now)) }
    ensures in_range { (least ≤ result) × (result ≤ most) }
{
    matches.get_one::<u64>(id).unwrap_or(0)
}

/// The text of an option.
fn text_of<'a>(matches: &ArgMatches<'a>, id: &str) -> &'a str
    ensures { result.now ≡ text_of id.now (rows_of (found_of matches.now)) }
{
    matches.get_str(id).unwrap_or("")
}

fn show_named(word: &str) -> Show
    ensures { result ≡ show_named word.now }
{
    match word {
        "reports" => Show::Reports,
        "both" => Show::Both,
        _ => Show::Schedule,
    }
}

/// Turns clap's error into a fault with its text, or `NoMemory` if memory runs out.
pub fn fault_of(alloc: Global, error: &Error) -> WordsFault
    ensures { FaultOf (kind_of error.now) result }
{
    let Ok(text) = error.to_string(alloc) else {
        return WordsFault::NoMemory;
    };
    match error.kind() {
        ErrorKind::OutOfMemory => WordsFault::NoMemory,
        ErrorKind::DisplayHelp => WordsFault::Help(text),
        _ => WordsFault::Words(text),
    }
}

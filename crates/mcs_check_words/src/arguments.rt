//! The arguments of the command line.
ghost use Rattle.std.specs.Prelude.{◌≡◌, ℕ, List, [], false, map, codes, IfOk};
ghost use Rattle.std.specs.Borrow.{Bor};
ghost use Rattle.clap.specs.Built.{FitsChain};
ghost use Rattle.clap.specs.Words.{app_of, args_of, groups_of, rule_of};
ghost use Rattle.clap.specs.declared.builder.command.Command.TheViews.{out-Command};
ghost use Rattle.mcs_check_words.specs.CommandLine.{IsCommandLine, allow_lost_rule, bare_line, choice_rule, format_words, show_words, strict_rule, why_rule, forever_rule};

use clap::{Arg, ArgAction, Command};
use mcs_words::{file_argument, number_argument};
use std::alloc::{AllocError, Global};

static SHOWS: [&str; 4] = ["findings", "jobs", "table", "both"];

static FORMATS: [&str; 3] = ["text", "csv", "json"];

static THREAD_AND_ROUND: [&str; 2] = ["THREAD", "ROUND"];

const ABOUT: &str =
    "Tells which deadlines a system misses, which signals are lost, and what never happens";

const AFTER: &str = "\
Example:
  mcscheck system.toml --horizon 100000
  mcscheck system.toml --forever

Exit status:
  0  nothing is found, or this help
  1  the file is refused
  2  these words are refused
  3  the file is not opened, or reading or writing failed
  4  no memory
  5  something is found
  6  nothing is found, and nothing was judged; with --forever: nothing is
     found so far, and not for ever";

/// The command line with all of its arguments. `AllocError` if memory runs out.
pub(crate) fn command_line<'a>(alloc: Global) -> Result<Command<'a>, AllocError>
    ensures { IfOk result IsCommandLine }
{
    let horizon = number_argument(alloc, "horizon", "N", "1000", 0, 1 << 40).help(
        "The last moment of the run, 0 to 2^40",
    );
    let workers = number_argument(alloc, "workers", "W", "1", 1, 64).help(
        "How many workers may run cores, 1 to 64",
    );
    let line = bare(alloc).arg(file_argument(alloc))?;
    let line = line.arg(horizon)?.arg(workers)?;
    let line = line.arg(allow_lost(alloc))?.arg(strict(alloc))?;
    let line = line.arg(show(alloc))?.arg(format(alloc))?;
    line.arg(why(alloc))?.arg(forever(alloc))
}

/// The command line without arguments.
fn bare<'a>(alloc: Global) -> Command<'a>
    ensures app { app_of result ≡ bare_line }
    ensures args { args_of result ≡ [] }
    ensures groups { groups_of result ≡ [] }
    ensures local { (out-Command result).has_globals ≡ false }
{
    Command::new(alloc, "mcscheck")
        .no_binary_name(true)
        .about(ABOUT)
        .after_help(AFTER)
}

/// The argument `--allow-lost`.
fn allow_lost<'a>(alloc: Global) -> Arg<'a>
    ensures rule { rule_of result ≡ allow_lost_rule }
    ensures fits { FitsChain result }
{
    Arg::new(alloc, "allow-lost")
        .long("allow-lost")
        .action(ArgAction::Append)
        .value_name("NOTE")
        .help("Lost signals of this notification are no finding; may be given again")
}

/// The argument `--strict`.
fn strict<'a>(alloc: Global) -> Arg<'a>
    ensures rule { rule_of result ≡ strict_rule }
    ensures fits { FitsChain result }
{
    Arg::new(alloc, "strict")
        .long("strict")
        .action(ArgAction::SetTrue)
        .help("Hints and unjudged threads count as found, too")
}

/// The argument `--show`.
fn show<'a>(alloc: Global) -> Arg<'a>
    ensures rule { (shows : Bor (List (Bor (List ℕ)))) × (map (λ s. s.now) shows.now ≡ show_words)
        × (rule_of result ≡ choice_rule (codes "show") (codes "both") shows) }
    ensures fits { FitsChain result }
    ensures id { result.id.now ≡ codes "show" }
{
    Arg::new(alloc, "show")
        .long("show")
        .action(ArgAction::Set)
        .value_name("WHAT")
        .default_value("both")
        .value_parser(SHOWS.as_slice())
        .help(
            "What is written before the counts: what is found, each round that ended, figures of threads and contexts, or what is found and figures",
        )
}

/// The argument `--format`.
fn format<'a>(alloc: Global) -> Arg<'a>
    ensures rule { (formats : Bor (List (Bor (List ℕ)))) × (map (λ s. s.now) formats.now ≡ format_words)
        × (rule_of result ≡ choice_rule (codes "format") (codes "text") formats) }
    ensures fits { FitsChain result }
    ensures id { result.id.now ≡ codes "format" }
{
    Arg::new(alloc, "format")
        .long("format")
        .action(ArgAction::Set)
        .value_name("HOW")
        .default_value("text")
        .value_parser(FORMATS.as_slice())
        .help("How it is written; csv has no counts, and json an object a line")
}

/// The argument `--why`.
fn why<'a>(alloc: Global) -> Arg<'a>
    ensures rule { rule_of result ≡ why_rule }
    ensures fits { FitsChain result }
{
    Arg::new(alloc, "why")
        .long("why")
        .action(ArgAction::Set)
        .value_names(THREAD_AND_ROUND.as_slice())
        .help("Why this round of this thread took so long is written, in place of all that")
}

/// The argument `--forever`.
fn forever<'a>(alloc: Global) -> Arg<'a>
    ensures rule { rule_of result ≡ forever_rule }
    ensures fits { FitsChain result }
{
    Arg::new(alloc, "forever")
        .long("forever")
        .action(ArgAction::SetTrue)
        .help(
            "What is found for all time: a repetition is looked for up to N, here 10000000 by default",
        )
}

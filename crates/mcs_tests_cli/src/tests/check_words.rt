//! Command lines of the check that are taken, and those that are refused.
use mcs_check_words::{Format, Options, Show, WordsFault, options};
use std::alloc::{AllocError, Global};
use std::test::Fail;

/// The options of the arguments, or the exit code and the text of their fault.
fn answer(alloc: Global, words: &[String]) -> Result<String, AllocError> {
    match options(alloc, words) {
        Ok(options) => asked_for(alloc, &options),
        Err(fault) => refusal(alloc, &fault),
    }
}

/// The file, the horizon, the workers, the allowed names, `strict`, `show`, `show_given`, the
/// format, and the thread and round that are asked about.
fn asked_for(alloc: Global, options: &Options) -> Result<String, AllocError> {
    let file = options.file.as_ref().map_or("", |name| name.as_str());
    let horizon = options.horizon.get();
    let workers = options.workers;
    let allowed = &options.allowed;
    let strict = options.strict;
    let show = match &options.show {
        Show::Findings => "findings",
        Show::Jobs => "jobs",
        Show::Table => "table",
        Show::Both => "both",
    };
    let format = match &options.format {
        Format::Text => "text",
        Format::Csv => "csv",
        Format::Json => "json",
    };
    let given = options.show_given;
    let (thread, round) = match &options.why {
        Some(question) => (question.thread.as_str(), question.round.as_str()),
        None => ("-", "-"),
    };
    format!(in alloc;
        "{file} {horizon} {workers} {allowed:?} {strict} {show} {given} {format} {thread} {round}"
    )
}

fn refusal(alloc: Global, fault: &WordsFault) -> Result<String, AllocError> {
    let status = fault.status();
    match fault {
        WordsFault::Words(text) | WordsFault::Help(text) => format!(in alloc; "{status} {text}"),
        WordsFault::NoMemory => format!(in alloc; "{status} no memory"),
    }
}

/// The result for the arguments of a line, which are separated by spaces.
fn answer_to(alloc: Global, line: &str) -> Result<String, AllocError> {
    let mut words = Vec::new(alloc);
    for word in line.split_whitespace() {
        words.push(String::from_str(alloc, word)?)?;
    }
    answer(alloc, words.as_slice())
}

static TAKEN: [(&str, &str); 12] = [
    ("", " 1000 1 [] false both false text - -"),
    (
        "--allow-lost irq in.toml --horizon=1099511627776 --strict --allow-lost=timer --workers 64",
        "in.toml 1099511627776 64 [\"irq\", \"timer\"] true both false text - -",
    ),
    (
        "--strict --horizon 0 --allow-lost b --allow-lost a --allow-lost b -- -",
        "- 0 1 [\"b\", \"a\", \"b\"] true both false text - -",
    ),
    (
        "--allow-lost= --horizon +7",
        " 7 1 [\"\"] false both false text - -",
    ),
    (
        "--allow-lost x,y in.toml",
        "in.toml 1000 1 [\"x,y\"] false both false text - -",
    ),
    ("--show=jobs --strict", " 1000 1 [] true jobs true text - -"),
    ("--show=table", " 1000 1 [] false table true text - -"),
    (
        "--show both --horizon 9",
        " 9 1 [] false both true text - -",
    ),
    (
        "--show jobs --format=csv",
        " 1000 1 [] false jobs true csv - -",
    ),
    (
        "--show findings in.toml",
        "in.toml 1000 1 [] false findings true text - -",
    ),
    (
        "--why High 1 in.toml",
        "in.toml 1000 1 [] false both false text High 1",
    ),
    (
        "in.toml --why Loop last --show=jobs",
        "in.toml 1000 1 [] false jobs true text Loop last",
    ),
];

#[test]
fn words_are_taken(rt: HostRuntime) -> Result<(), Fail> {
    for (line, want) in TAKEN.as_slice() {
        let found = answer_to(rt.alloc(), line)?;
        assert_eq!(rt; found.as_str(), *want, "{line}");
    }
    Ok(())
}

/// Lines that are refused, each with a part of the text that names the mistake.
static REFUSED: [(&str, &str); 18] = [
    ("--workers 65", "65"),
    ("--workers 0", "0"),
    ("--horizon 1099511627777", "1099511627777"),
    ("--horizon -1", "-1"),
    ("--horizon=1 --horizon=2", "--horizon"),
    ("--allow-lost", "--allow-lost"),
    ("--allow-lost --strict", "--allow-lost"),
    ("--strict --strict", "--strict"),
    ("--strict=true", "true"),
    ("--show all", "all"),
    ("--format yaml", "yaml"),
    ("--show", "--show"),
    ("--show jobs --show jobs", "--show"),
    ("--list both", "--list"),
    ("one two", "two"),
    ("--why High", "--why"),
    ("--why High 1 in.toml two", "two"),
    ("--why High 1 --why Low 1", "--why"),
];

#[test]
fn other_words_are_refused(rt: HostRuntime) -> Result<(), Fail> {
    for (line, part) in REFUSED.as_slice() {
        let found = answer_to(rt.alloc(), line)?;
        assert!(rt; found.as_str().starts_with("2 error: "), "{line}: {found}");
        assert!(rt; found.as_str().contains(*part), "{line}: {found}");
    }
    Ok(())
}

static HELP: [&str; 17] = [
    "Tells which deadlines a system misses, which signals are lost, and what never happens",
    "Usage: mcscheck [OPTIONS] [FILE]",
    "--horizon <N>",
    "0 to 2^40 [default: 1000]",
    "--workers <W>",
    "1 to 64 [default: 1]",
    "--allow-lost <NOTE>",
    "--strict",
    "--show <WHAT>",
    "[default: both] [possible values: findings, jobs, table, both]",
    "--format <HOW>",
    "[default: text] [possible values: text, csv, json]",
    "--why <THREAD> <ROUND>",
    "mcscheck system.toml --horizon 100000",
    "Exit status:",
    "0  nothing is found, or this help",
    "5  something is found",
];

#[test]
fn help_is_given(rt: HostRuntime) -> Result<(), Fail> {
    for line in ["--help", "-h", "in.toml --help"] {
        let found = answer_to(rt.alloc(), line)?;
        assert!(rt; found.as_str().starts_with("0 "), "{line}: {found}");
        for part in HELP.as_slice() {
            assert!(rt; found.as_str().contains(*part), "{part}: {found}");
        }
    }
    Ok(())
}

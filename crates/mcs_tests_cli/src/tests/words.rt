//! Command lines that are taken, and those that are refused.
use mcs_cli::{WordsFault, options};
use std::alloc::{AllocError, Global};
use std::test::Fail;

/// Returns file, horizon, workers and what is shown, or the text of the fault.
fn answer(alloc: Global, words: &[String]) -> Result<String, AllocError> {
    match options(alloc, words) {
        Ok(options) => {
            let file = options.file.as_ref().map_or("", |name| name.as_str());
            let horizon = options.horizon.get();
            let workers = options.workers;
            let show = options.show;
            format!(in alloc; "{file} {horizon} {workers} {show:?}")
        }
        Err(WordsFault::Words(text) | WordsFault::Help(text)) => Ok(text),
        Err(WordsFault::NoMemory) => String::from_str(alloc, "no memory"),
    }
}

/// Returns the result for a line of words, separated by white space.
fn answer_to(alloc: Global, line: &str) -> Result<String, AllocError> {
    let mut words = Vec::new(alloc);
    for word in line.split_whitespace() {
        words.push(String::from_str(alloc, word)?)?;
    }
    answer(alloc, words.as_slice())
}

static TAKEN: [(&str, &str); 4] = [
    ("", " 1000 1 Schedule"),
    (
        "--show both in.toml --horizon=1099511627776 --workers 64",
        "in.toml 1099511627776 64 Both",
    ),
    ("--show=reports --horizon 0 -- -", "- 0 1 Reports"),
    ("--show schedule --horizon +7", " 7 1 Schedule"),
];

#[test]
fn words_are_taken(rt: HostRuntime) -> Result<(), Fail> {
    for (line, want) in TAKEN.as_slice() {
        let found = answer_to(rt.alloc(), line)?;
        assert_eq!(rt; found.as_str(), *want, "{line}");
    }
    Ok(())
}

/// Each line is refused, and its text names what is wrong.
static REFUSED: [(&str, &str); 12] = [
    ("--workers 65", "65"),
    ("--workers 0", "0"),
    ("--workers two", "two"),
    ("--horizon 1099511627777", "1099511627777"),
    ("--horizon -1", "-1"),
    ("--horizon 1.0", "1.0"),
    ("--horizon", "--horizon"),
    ("--horizon=1 --horizon=2", "--horizon"),
    ("--show all", "all"),
    ("--version", "--version"),
    ("--seed 1", "--seed"),
    ("one two", "two"),
];

#[test]
fn other_words_are_refused(rt: HostRuntime) -> Result<(), Fail> {
    for (line, part) in REFUSED.as_slice() {
        let found = answer_to(rt.alloc(), line)?;
        assert!(rt; found.as_str().starts_with("error: "), "{line}: {found}");
        assert!(rt; found.as_str().contains(*part), "{line}: {found}");
    }
    Ok(())
}

static HELP: [&str; 8] = [
    "Usage: mcsim [OPTIONS] [FILE]",
    "--horizon <N>",
    "0 to 2^40 [default: 1000]",
    "--workers <W>",
    "1 to 64 [default: 1]",
    "[default: schedule] [possible values: schedule, reports, both]",
    "mcsim system.toml --horizon 100 --show both",
    "Exit status:",
];

#[test]
fn help_is_given(rt: HostRuntime) -> Result<(), Fail> {
    for line in ["--help", "-h", "in.toml --help"] {
        let found = answer_to(rt.alloc(), line)?;
        for part in HELP.as_slice() {
            assert!(rt; found.as_str().contains(*part), "{part}: {found}");
        }
    }
    Ok(())
}

#[test]
fn statuses_of_words(rt: HostRuntime) {
    let alloc = rt.alloc();
    assert_eq!(rt; WordsFault::Words(String::new(alloc)).status(), 2);
    assert_eq!(rt; WordsFault::Help(String::new(alloc)).status(), 0);
    assert_eq!(rt; WordsFault::NoMemory.status(), 4);
}

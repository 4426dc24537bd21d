ghost use Rattle.std.specs.Prelude.{◌≤◌, ◌^◌};

use mcs_ticks::Tick;

/// The part of a schedule that is written.
#[derive(Clone, Copy, Debug, PartialEq, Eq)]
pub enum Show {
    /// Findings.
    Findings,
    /// Jobs: the rounds that ended.
    Jobs,
    /// The figures of each thread and each context.
    Table,
    /// Findings, and then the figures.
    Both,
}

/// The format of the output.
#[derive(Clone, Copy, Debug, PartialEq, Eq)]
pub enum Format {
    /// Lines of words, with hints and counts.
    Text,
    /// Only rows of CSV, after a row of names.
    Csv,
    /// JSON objects, one a line.
    Json,
}

/// The round of `--why`, as the command line has it. No system is known yet: there may be no such
/// thread or round, and the round may be no number.
#[derive(Debug, Drop)]
pub struct Question {
    /// The thread's name.
    pub thread: String,
    /// The round's number, from 1.
    pub round: String,
}

/// The options of a run, as the command line has them.
#[derive(Debug, Drop)]
pub struct Options {
    /// The name of the system's file; `None` means standard input.
    pub file: Option<String>,
    /// The last time of the run (the horizon), at most 2^40.
    pub horizon: Tick,
    /// Workers that may run cores at the same time, 1 to 64.
    pub workers: usize,
    /// Names of the notifications at which lost signals are allowed, in the order of the arguments.
    /// No system is known yet: there may be no notification of this name.
    pub allowed: Vec<String>,
    /// Whether hints count as findings.
    pub strict: bool,
    /// The part of the schedule that is written.
    pub show: Show,
    /// Whether `--show` is given, so that `show` is not its default.
    pub show_given: bool,
    /// The format of the output.
    pub format: Format,
    /// The round to explain, if one is given.
    pub why: Option<Question>,
    /// Whether a repetition is searched for up to the horizon, to check for all time.
    pub forever: bool,
    ghost horizon_in_range: { horizon ≤ 2 ^ 40 },
    ghost workers_in_range: { (1 ≤ workers) × (workers ≤ 64) },
}

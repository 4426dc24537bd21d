//! The first line of CSV: the names of the columns.
ghost use Rattle.std.specs.Prelude.{◌≡◌, ◌++◌, OnOk, OnErr};
ghost use Rattle.mcs_fields.specs.Fields.{names_text};
ghost use Rattle.mcs_check_lines.specs.Formats.{column_names, columns, head_text, more_columns};

use mcs_check_words::{Format, Show};
use mcs_fields::put_names;
use mcs_system::System;
use mcs_ticks::NoMemory;

static FINDINGS: [&str; 18] = [
    "moment",
    "core",
    "kind",
    "thread",
    "note",
    "word",
    "number",
    "response",
    "age",
    "deadline",
    "activated",
    "set",
    "queued",
    "ready",
    "running",
    "throttled",
    "blocked",
    "server",
];

/// The columns of findings in a file with a chain.
static WIDE_FINDINGS: [&str; 22] = [
    "moment",
    "core",
    "kind",
    "thread",
    "note",
    "word",
    "number",
    "response",
    "age",
    "deadline",
    "activated",
    "set",
    "queued",
    "ready",
    "running",
    "throttled",
    "blocked",
    "server",
    "chain",
    "latency",
    "deadline",
    "origin",
];

static JOBS: [&str; 15] = [
    "moment",
    "core",
    "kind",
    "thread",
    "number",
    "activated",
    "begun",
    "response",
    "queued",
    "preemptions",
    "ready",
    "running",
    "throttled",
    "blocked",
    "server",
];

/// The columns of jobs in a file with a chain.
static WIDE_JOBS: [&str; 19] = [
    "moment",
    "core",
    "kind",
    "thread",
    "number",
    "activated",
    "begun",
    "response",
    "queued",
    "preemptions",
    "ready",
    "running",
    "throttled",
    "blocked",
    "server",
    "chain",
    "latency",
    "deadline",
    "origin",
];

static TABLE: [&str; 26] = [
    "kind",
    "thread",
    "core",
    "priority",
    "budget",
    "period",
    "granted",
    "used",
    "rounds",
    "greatest",
    "p50",
    "p90",
    "p99",
    "deadline",
    "margin",
    "missed",
    "late",
    "lost",
    "merged",
    "ticks_pending",
    "ticks_ready",
    "ticks_running",
    "ticks_throttled",
    "ticks_blocked",
    "ticks_server",
    "ticks_done",
];

/// The columns of the table in a file with a chain.
static WIDE_TABLE: [&str; 37] = [
    "kind",
    "thread",
    "core",
    "priority",
    "budget",
    "period",
    "granted",
    "used",
    "rounds",
    "greatest",
    "p50",
    "p90",
    "p99",
    "deadline",
    "margin",
    "missed",
    "late",
    "lost",
    "merged",
    "ticks_pending",
    "ticks_ready",
    "ticks_running",
    "ticks_throttled",
    "ticks_blocked",
    "ticks_server",
    "ticks_done",
    "chain",
    "interrupts",
    "answers",
    "least",
    "greatest",
    "total",
    "p50",
    "p90",
    "p99",
    "deadline",
    "margin",
];

/// Appends the first line of CSV; other formats have none.
pub fn put_head(
    text: &mut Vec<u8>,
    format: Format,
    show: Show,
    system: &System,
) -> Result<(), NoMemory>
    ensures ok { OnOk result (text.new.items ≡ text.old.items ++ head_text format show system.now) }
    ensures err { OnErr result (text.new.items ≡ text.old.items) }
{
    match format {
        Format::Csv => put_columns(text, show, system),
        Format::Text | Format::Json => Ok(()),
    }
}

fn put_columns(text: &mut Vec<u8>, show: Show, system: &System) -> Result<(), NoMemory>
    ensures ok { OnOk result (text.new.items ≡ text.old.items ++ names_text (columns show system.now.chains)) }
    ensures err { OnErr result (text.new.items ≡ text.old.items) }
{
    if system.parts().chains.is_empty() {
        put_narrow_columns(text, show)
    } else {
        put_wide_columns(text, show)
    }
}

/// Appends the columns of a file without chains.
fn put_narrow_columns(text: &mut Vec<u8>, show: Show) -> Result<(), NoMemory>
    ensures ok { OnOk result (text.new.items ≡ text.old.items ++ names_text (column_names show)) }
    ensures err { OnErr result (text.new.items ≡ text.old.items) }
{
    match show {
        Show::Findings => put_names(text, FINDINGS.as_slice()),
        Show::Jobs => put_names(text, JOBS.as_slice()),
        Show::Table => put_names(text, TABLE.as_slice()),
        Show::Both => put_names(text, &[]),
    }
}

/// Appends the columns of a file with a chain.
fn put_wide_columns(text: &mut Vec<u8>, show: Show) -> Result<(), NoMemory>
    ensures ok { OnOk result (text.new.items ≡ text.old.items ++ names_text (column_names show ++ more_columns show)) }
    ensures err { OnErr result (text.new.items ≡ text.old.items) }
{
    match show {
        Show::Findings => put_names(text, WIDE_FINDINGS.as_slice()),
        Show::Jobs => put_names(text, WIDE_JOBS.as_slice()),
        Show::Table => put_names(text, WIDE_TABLE.as_slice()),
        Show::Both => put_names(text, &[]),
    }
}

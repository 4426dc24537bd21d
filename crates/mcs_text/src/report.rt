//! The lines of reports.
ghost use Rattle.std.specs.Prelude.{◌≡◌, [], ◌∷◌, ◌++◌, OnOk, OnErr, decimal, flat_map};
ghost use Rattle.std.specs.Io.{StartsWith};
ghost use Rattle.mcs_text.specs.Text.{after, core_line, reports_text, thread_line};

use crate::line::{append_counted, append_number, append_word};
use crate::names::thread_name;
use mcs_report::{CoreReport, Reports, ThreadReport};
use mcs_system::System;
use mcs_ticks::{NoMemory, ThreadId};

/// Appends the lines of reports: one per thread in file order, then one per core from 0. On
/// `NoMemory` the text is unchanged.
pub fn put_reports(text: &mut Vec<u8>, system: &System, reports: &Reports) -> Result<(), NoMemory>
    ensures ok { OnOk result (text.new.items ≡ text.old.items ++ reports_text system.now reports.now) }
    ensures err { OnErr result (text.new.items ≡ text.old.items) }
{
    let start = text.len();
    let result = append_reports(text, system, reports);
    if result.is_err() {
        text.truncate(start);
    }
    result
}

fn append_reports(text: &mut Vec<u8>, system: &System, reports: &Reports) -> Result<(), NoMemory>
    ensures ok { OnOk result (text.new.items ≡ text.old.items ++ reports_text system.now reports.now) }
    ensures kept { StartsWith text.new.items text.old.items }
{
    for (thread, report) in reports.threads.as_slice().iter().enumerate() {
        append_thread(text, thread_name(system, ThreadId(thread)), report)?;
    }
    for (core, report) in reports.cores.as_slice().iter().enumerate() {
        append_core(text, core, report)?;
    }
    Ok(())
}

fn append_thread(text: &mut Vec<u8>, name: &str, report: &ThreadReport) -> Result<(), NoMemory>
    ensures ok { OnOk result (text.new.items ≡ text.old.items ++ thread_line name.now report.now) }
    ensures kept { StartsWith text.new.items text.old.items }
{
    let counts = [
        ("ran", report.ran),
        ("rounds", report.rounds),
        ("least", report.least),
        ("greatest", report.greatest),
        ("total", report.total),
        ("late", report.late),
        ("spent", report.spent),
        ("throttled", report.throttled),
        ("longest", report.longest),
    ];
    text.extend_from_slice(b"thread")?;
    append_word(text, name)?;
    append_counts(text, &counts)?;
    text.push(b'\n')?;
    Ok(())
}

fn append_core(text: &mut Vec<u8>, core: usize, report: &CoreReport) -> Result<(), NoMemory>
    ensures ok { OnOk result (text.new.items ≡ text.old.items ++ core_line core report.now) }
    ensures kept { StartsWith text.new.items text.old.items }
{
    let counts = [("busy", report.busy), ("idle", report.idle)];
    text.extend_from_slice(b"core")?;
    append_number(text, core as u64)?;
    append_counts(text, &counts)?;
    text.push(b'\n')?;
    Ok(())
}

/// Appends words with their numbers, each after a space. On `NoMemory` a first part may have been
/// appended.
pub fn append_counts(text: &mut Vec<u8>, counts: &[(&str, u64)]) -> Result<(), NoMemory>
    ensures ok { OnOk result
        (text.new.items ≡ text.old.items ++ after (flat_map (λ c. c.0.now ∷ decimal c.1 ∷ []) counts.now)) }
    ensures kept { StartsWith text.new.items text.old.items }
{
    for (word, count) in counts {
        append_counted(text, word, *count)?;
    }
    Ok(())
}

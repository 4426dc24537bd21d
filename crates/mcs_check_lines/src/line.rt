//! The lines of findings, jobs, counts and hints, as text.
ghost use Rattle.std.specs.Prelude.{◌≡◌, ◌≤◌, ◌+◌, ◌++◌, ◌∷◌, [], false, OnOk, OnErr, decimal, length, take};
ghost use Rattle.std.specs.Io.{StartsWith};
ghost use Rattle.mcs_system.specs.System.{core_of, thread_part};
ghost use Rattle.mcs_text.specs.Text.{after, counted};
ghost use Rattle.mcs_check_lines.specs.Lines.{age_words, chain_count_words, checked_text, counts_words, found_text, found_words, job_text, job_times, job_words, late_words, response_words, ways};
ghost use Rattle.mcs_check_lines.specs.Told.{is_untaken};

use crate::untaken_line::put_untaken;
use crate::{ChainCounts, Checked, Counts, Scope};
use itoa::Buffer;
use mcs_system::System;
use mcs_text::{
    append_counts, append_number, append_word, note_name, thread_name, write_counted,
    write_decimal, write_number, write_word,
};
use mcs_ticks::{ContextId, CoreId, NoMemory, ThreadId, Tick};
use mcs_verdict::{Finding, Found, Job, Stood};
use std::alloc::Global;

/// Bytes of the longest line of a finding of a thread or a lost signal: twelve numbers of 20 digits,
/// a name of 32 bytes, its words, spaces and line feed.
const FOUND: usize = 370;

/// Appends the line of a finding: `<moment> <core>` and the finding, with the system's names. Only
/// an untaken word allocates beside the text. If memory runs out the text is unchanged.
pub fn put_found(
    alloc: Global,
    text: &mut Vec<u8>,
    system: &System,
    found: &Found,
) -> Result<(), NoMemory>
    ensures ok { OnOk result (text.new.items ≡ text.old.items ++ found_text system.now found.now) }
    ensures err { OnErr result (text.new.items ≡ text.old.items) }
{
    if let Finding::Untaken { .. } = found.finding {
        put_untaken(alloc, text, system, found)
    } else {
        put_short(text, system, found)
    }
}

/// Appends the line of a finding that is no untaken word. If memory runs out the text is unchanged.
fn put_short(text: &mut Vec<u8>, system: &System, found: &Found) -> Result<(), NoMemory>
    requires { is_untaken found.now.finding ≡ false }
    ensures ok { OnOk result (text.new.items ≡ text.old.items ++ found_text system.now found.now) }
    ensures err { OnErr result (text.new.items ≡ text.old.items) }
{
    let mut line = [0; FOUND];
    let end = write_found(&mut line, system, found);
    text.extend_from_slice(&line[..end])?;
    Ok(())
}

/// Writes the line of a finding and returns its end.
fn write_found(line: &mut [u8], system: &System, found: &Found) -> usize
    requires fits { 370 ≤ length line.old }
    requires bounded { is_untaken found.now.finding ≡ false }
    ensures short { result ≤ 370 }
    ensures written { take result line.new ≡ found_text system.now found.now }
{
    let core = write_decimal(line, 0, found.moment.get());
    let what = write_number(line, core, found.core.0 as u64);
    let end = write_finding(line, what, system, &found.finding);
    line[end] = b'\n';
    end + 1
}

/// Appends a number, without a space before it.
pub(crate) fn append_digits(text: &mut Vec<u8>, number: u64) -> Result<(), NoMemory>
    ensures ok { OnOk result (text.new.items ≡ text.old.items ++ decimal number) }
    ensures kept { StartsWith text.new.items text.old.items }
{
    let mut buffer = Buffer::new();
    text.extend_from_slice(buffer.format(number).as_bytes())?;
    Ok(())
}

/// Writes a finding from `at` on, without its time and core, and returns its end.
fn write_finding(line: &mut [u8], at: usize, system: &System, finding: &Finding) -> usize
    requires fits { at + 328 ≤ length line.old }
    requires bounded { is_untaken finding.now ≡ false }
    ensures short { result ≤ at + 328 }
    ensures written { take result line.new ≡ take at line.old ++ after (found_words system.now finding.now) }
{
    match *finding {
        Finding::Miss {
            thread,
            number,
            response,
            deadline,
            activated,
            queued,
            stood,
        } => {
            let name = write_named(line, at, "miss", thread_name(system, thread));
            let times = write_response(line, name, number, response);
            write_late(line, times, deadline, activated, queued, &stood)
        }
        Finding::Overdue {
            thread,
            number,
            age,
            deadline,
            activated,
            queued,
            stood,
        } => {
            let name = write_named(line, at, "overdue", thread_name(system, thread));
            let times = write_age(line, name, number, age);
            write_late(line, times, deadline, activated, queued, &stood)
        }
        Finding::Untaken { .. } => unreachable!(),
        Finding::Lost { note, word } => {
            let bits = write_named(line, at, "lost", note_name(system, note));
            write_counted(line, bits, "word", u64::from(word))
        }
        Finding::Never { thread, deadline } => {
            let time = write_named(line, at, "never", thread_name(system, thread));
            write_counted(line, time, "deadline", deadline)
        }
    }
}

/// Writes a word and a name, each after a space.
#[inline(always)]
fn write_named(line: &mut [u8], at: usize, word: &str, name: &str) -> usize
    requires { at + 2 + length word.now + length name.now ≤ length line.old }
    ensures end { result ≡ at + 2 + length word.now + length name.now }
    ensures written { take result line.new ≡ take at line.old ++ after (word.now ∷ name.now ∷ []) }
{
    let end = write_word(line, at, word);
    write_word(line, end, name)
}

/// Writes the number of a round and its response.
#[inline(always)]
fn write_response(line: &mut [u8], at: usize, number: u64, response: u64) -> usize
    requires { at + 57 ≤ length line.old }
    ensures short { result ≤ at + 57 }
    ensures written { take result line.new ≡ take at line.old ++ after (response_words number response) }
{
    let end = write_counted(line, at, "round", number);
    write_counted(line, end, "response", response)
}

/// Writes the number of a round under way, and the ticks since its activation.
#[inline(always)]
fn write_age(line: &mut [u8], at: usize, number: u64, age: u64) -> usize
    requires { at + 52 ≤ length line.old }
    ensures short { result ≤ at + 52 }
    ensures written { take result line.new ≡ take at line.old ++ after (age_words number age) }
{
    let end = write_counted(line, at, "round", number);
    write_counted(line, end, "age", age)
}

/// Writes the deadline of a round, when it was activated, and its parts.
fn write_late(
    line: &mut [u8],
    at: usize,
    deadline: u64,
    activated: Tick,
    queued: u64,
    stood: &Stood,
) -> usize
    requires { at + 233 ≤ length line.old }
    ensures short { result ≤ at + 233 }
    ensures written { take result line.new ≡ take at line.old ++ after (late_words deadline activated queued stood.now) }
{
    let first = write_counted(line, at, "deadline", deadline);
    let second = write_counted(line, first, "activated", activated.get());
    let third = write_counted(line, second, "queued", queued);
    write_ways(line, third, stood)
}

/// Writes the ticks in which a thread stood in each way.
#[inline(always)]
fn write_ways(line: &mut [u8], at: usize, stood: &Stood) -> usize
    requires { at + 144 ≤ length line.old }
    ensures short { result ≤ at + 144 }
    ensures written { take result line.new ≡ take at line.old ++ after (counted (ways stood.now)) }
{
    let running = write_counted(line, at, "ready", stood.ready);
    let throttled = write_counted(line, running, "running", stood.running);
    let blocked = write_counted(line, throttled, "throttled", stood.throttled);
    let server = write_counted(line, blocked, "blocked", stood.blocked);
    write_counted(line, server, "server", stood.server)
}

/// Appends a word and a name, each after a space.
pub(crate) fn append_named(text: &mut Vec<u8>, word: &str, name: &str) -> Result<(), NoMemory>
    ensures ok { OnOk result (text.new.items ≡ text.old.items ++ after (word.now ∷ name.now ∷ [])) }
    ensures kept { StartsWith text.new.items text.old.items }
{
    append_word(text, word)?;
    append_word(text, name)
}

/// Appends the line of a job: `<moment> <core>` and the round, with its thread's name. If memory
/// runs out the text is unchanged.
pub fn put_job(text: &mut Vec<u8>, system: &System, job: &Job) -> Result<(), NoMemory>
    ensures ok { OnOk result (text.new.items ≡ text.old.items ++ job_text system.now job.now) }
    ensures err { OnErr result (text.new.items ≡ text.old.items) }
{
    let start = text.len();
    let result = append_job(text, system, job);
    if result.is_err() {
        text.truncate(start);
    }
    result
}

fn append_job(text: &mut Vec<u8>, system: &System, job: &Job) -> Result<(), NoMemory>
    ensures ok { OnOk result (text.new.items ≡ text.old.items ++ job_text system.now job.now) }
    ensures kept { StartsWith text.new.items text.old.items }
{
    append_digits(text, job.ended.get())?;
    append_number(text, core_of(system, job.thread).0 as u64)?;
    append_round(text, system, job)?;
    text.push(b'\n')?;
    Ok(())
}

/// The core of a thread; that of the first context if the system has no such thread.
pub(crate) fn core_of(system: &System, thread: ThreadId) -> CoreId
    ensures { result ≡ core_of system.now (thread_part system.now thread) }
{
    let parts = system.parts();
    let context = match parts.threads.as_slice().get(thread.0) {
        Some(part) => part.context,
        None => ContextId(0),
    };
    parts.core_of_context(context)
}

/// Appends a job, without its time and core.
fn append_round(text: &mut Vec<u8>, system: &System, job: &Job) -> Result<(), NoMemory>
    ensures ok { OnOk result (text.new.items ≡ text.old.items ++ after (job_words system.now job.now)) }
    ensures kept { StartsWith text.new.items text.old.items }
{
    append_named(text, "job", thread_name(system, job.thread))?;
    append_times(text, job)
}

/// Appends the number of a job, its times, its response and its parts.
fn append_times(text: &mut Vec<u8>, job: &Job) -> Result<(), NoMemory>
    ensures ok { OnOk result (text.new.items ≡ text.old.items ++ after (job_times job.now)) }
    ensures kept { StartsWith text.new.items text.old.items }
{
    let Stood {
        ready,
        running,
        throttled,
        blocked,
        server,
        ..
    } = job.stood;
    let numbers = [
        ("round", job.number),
        ("activated", job.activated.get()),
        ("begun", job.begun.get()),
        ("response", job.response),
        ("queued", job.queued),
        ("preemptions", job.preemptions),
        ("ready", ready),
        ("running", running),
        ("throttled", throttled),
        ("blocked", blocked),
        ("server", server),
    ];
    append_counts(text, &numbers)
}

/// Appends the line of the counts. If memory runs out the text is unchanged.
pub fn put_counts(text: &mut Vec<u8>, checked: &Checked) -> Result<(), NoMemory>
    ensures ok { OnOk result (text.new.items ≡ text.old.items ++ checked_text checked.now) }
    ensures err { OnErr result (text.new.items ≡ text.old.items) }
{
    let start = text.len();
    let result = append_checked(text, checked);
    if result.is_err() {
        text.truncate(start);
    }
    result
}

fn append_checked(text: &mut Vec<u8>, checked: &Checked) -> Result<(), NoMemory>
    ensures ok { OnOk result (text.new.items ≡ text.old.items ++ checked_text checked.now) }
    ensures kept { StartsWith text.new.items text.old.items }
{
    text.extend_from_slice(b"missed")?;
    append_totals(text, &checked.counts, &checked.scope)?;
    append_chain_counts(text, &checked.chains)?;
    text.push(b'\n')?;
    Ok(())
}

/// Appends the counts of chains, if the file has a chain.
fn append_chain_counts(text: &mut Vec<u8>, chains: &Option<ChainCounts>) -> Result<(), NoMemory>
    ensures ok { OnOk result (text.new.items ≡ text.old.items ++ after (chain_count_words chains.now)) }
    ensures kept { StartsWith text.new.items text.old.items }
{
    match chains {
        Some(chains) => {
            let numbers = [("slow", chains.slow), ("unanswered", chains.unanswered)];
            append_counts(text, &numbers)
        }
        None => Ok(()),
    }
}

/// Appends the counts, without the first word.
fn append_totals(text: &mut Vec<u8>, counts: &Counts, scope: &Scope) -> Result<(), NoMemory>
    ensures ok { OnOk result (text.new.items ≡ text.old.items ++ after (counts_words counts.now scope.now)) }
    ensures kept { StartsWith text.new.items text.old.items }
{
    let numbers = [
        ("overdue", counts.overdue),
        ("untaken", counts.untaken),
        ("lost", counts.lost),
        ("never", counts.never),
        ("merged", counts.merged),
        ("allowed", counts.allowed),
        ("unjudged", scope.unjudged),
        ("hints", counts.hints),
        ("threads", scope.threads),
        ("deadlines", scope.deadlines),
        ("judged", scope.judged),
    ];
    append_number(text, counts.missed)?;
    append_counts(text, &numbers)
}

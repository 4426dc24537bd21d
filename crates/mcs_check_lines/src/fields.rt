//! Findings, jobs and counts as named values.
ghost use Rattle.std.specs.Prelude.{◌≡◌, ◌++◌, Some, OnOk, OnErr, map};
ghost use Rattle.mcs_fields.specs.Fields.{field_of, object_text, value_of};
ghost use Rattle.mcs_check_lines.specs.Formats.{no_columns};
ghost use Rattle.mcs_check_lines.specs.Fields.{age_of, by_of, chain_count_fields, counts_fields, deadline_of, found_fields, found_members, job_fields, kind_of, note_of, number_of, of_late, response_of, set_of, thread_of, word_of};

use crate::line::core_of;
use crate::{ChainCounts, Counts, Scope};
use mcs_fields::{Cell, Field, put_object};
use mcs_system::System;
use mcs_text::{note_name, thread_name};
use mcs_ticks::NoMemory;
use mcs_verdict::{Finding, Found, Job};
use std::alloc::Global;

/// The values of a job.
pub(crate) fn job_fields<'s>(system: &'s System, job: &Job) -> [Field<'s>; 15]
    ensures { map field_of result ≡ job_fields system.now job.now }
{
    [
        ("moment", Cell::Number(job.ended.get())),
        ("core", Cell::Number(core_of(system, job.thread).0 as u64)),
        ("kind", Cell::Name("job")),
        ("thread", Cell::Name(thread_name(system, job.thread))),
        ("number", Cell::Number(job.number)),
        ("activated", Cell::Number(job.activated.get())),
        ("begun", Cell::Number(job.begun.get())),
        ("response", Cell::Number(job.response)),
        ("queued", Cell::Number(job.queued)),
        ("preemptions", Cell::Number(job.preemptions)),
        ("ready", Cell::Number(job.stood.ready)),
        ("running", Cell::Number(job.stood.running)),
        ("throttled", Cell::Number(job.stood.throttled)),
        ("blocked", Cell::Number(job.stood.blocked)),
        ("server", Cell::Number(job.stood.server)),
    ]
}

/// The values of a finding.
pub(crate) fn found_fields<'s>(system: &'s System, found: &Found) -> [Field<'s>; 18]
    ensures { map field_of result ≡ found_fields system.now found.now }
{
    let finding = &found.finding;
    let late = late_values(finding);
    [
        ("moment", Cell::Number(found.moment.get())),
        ("core", Cell::Number(found.core.0 as u64)),
        ("kind", Cell::Name(kind(finding))),
        ("thread", thread(system, finding)),
        ("note", note(system, finding)),
        ("word", word(finding)),
        ("number", number(finding)),
        ("response", response(finding)),
        ("age", age(finding)),
        ("deadline", deadline(finding)),
        ("activated", late.activated),
        ("set", set(finding)),
        ("queued", late.queued),
        ("ready", late.ready),
        ("running", late.running),
        ("throttled", late.throttled),
        ("blocked", late.blocked),
        ("server", late.server),
    ]
}

/// The values of a finding, behind which those of chains are empty.
pub(crate) fn wide_found_fields<'s>(system: &'s System, found: &Found) -> [Field<'s>; 22]
    ensures { map field_of result ≡ found_fields system.now found.now ++ no_columns }
{
    let finding = &found.finding;
    let late = late_values(finding);
    [
        ("moment", Cell::Number(found.moment.get())),
        ("core", Cell::Number(found.core.0 as u64)),
        ("kind", Cell::Name(kind(finding))),
        ("thread", thread(system, finding)),
        ("note", note(system, finding)),
        ("word", word(finding)),
        ("number", number(finding)),
        ("response", response(finding)),
        ("age", age(finding)),
        ("deadline", deadline(finding)),
        ("activated", late.activated),
        ("set", set(finding)),
        ("queued", late.queued),
        ("ready", late.ready),
        ("running", late.running),
        ("throttled", late.throttled),
        ("blocked", late.blocked),
        ("server", late.server),
        ("chain", Cell::Empty),
        ("latency", Cell::Empty),
        ("deadline", Cell::Empty),
        ("origin", Cell::Empty),
    ]
}

/// The values of a finding in an object. `by` lists the threads that may take a word.
fn found_members<'s>(system: &'s System, found: &Found, by: Cell<'s>) -> [Field<'s>; 19]
    requires { value_of by ≡ by_of system.now found.now.finding }
    ensures { map field_of result ≡ found_members system.now found.now }
{
    let finding = &found.finding;
    let late = late_values(finding);
    [
        ("moment", Cell::Number(found.moment.get())),
        ("core", Cell::Number(found.core.0 as u64)),
        ("kind", Cell::Name(kind(finding))),
        ("thread", thread(system, finding)),
        ("note", note(system, finding)),
        ("by", by),
        ("word", word(finding)),
        ("number", number(finding)),
        ("response", response(finding)),
        ("age", age(finding)),
        ("deadline", deadline(finding)),
        ("activated", late.activated),
        ("set", set(finding)),
        ("queued", late.queued),
        ("ready", late.ready),
        ("running", late.running),
        ("throttled", late.throttled),
        ("blocked", late.blocked),
        ("server", late.server),
    ]
}

/// Appends a finding as a JSON object. `by` lists the threads that may take a word. If memory runs
/// out the text is unchanged.
pub(crate) fn put_members(
    alloc: Global,
    text: &mut Vec<u8>,
    system: &System,
    found: &Found,
    by: Cell<'_>,
) -> Result<(), NoMemory>
    requires { value_of by ≡ by_of system.now found.now.finding }
    ensures ok { OnOk result (text.new.items ≡ text.old.items ++ object_text (found_members system.now found.now)) }
    ensures err { OnErr result (text.new.items ≡ text.old.items) }
{
    put_object(alloc, text, found_members(system, found, by).as_slice())
}

fn kind(finding: &Finding) -> &'static str
    ensures { result.now ≡ kind_of finding.now }
{
    match finding {
        Finding::Miss { .. } => "miss",
        Finding::Overdue { .. } => "overdue",
        Finding::Untaken { .. } => "untaken",
        Finding::Lost { .. } => "lost",
        Finding::Never { .. } => "never",
    }
}

fn thread<'s>(system: &'s System, finding: &Finding) -> Cell<'s>
    ensures { value_of result ≡ thread_of system.now finding.now }
{
    match *finding {
        Finding::Miss { thread, .. }
        | Finding::Overdue { thread, .. }
        | Finding::Never { thread, .. } => Cell::Name(thread_name(system, thread)),
        Finding::Untaken { .. } | Finding::Lost { .. } => Cell::Empty,
    }
}

fn note<'s>(system: &'s System, finding: &Finding) -> Cell<'s>
    ensures { value_of result ≡ note_of system.now finding.now }
{
    match *finding {
        Finding::Untaken { note, .. } | Finding::Lost { note, .. } => {
            Cell::Name(note_name(system, note))
        }
        _ => Cell::Empty,
    }
}

fn word<'s>(finding: &Finding) -> Cell<'s>
    ensures { value_of result ≡ word_of finding.now }
{
    match *finding {
        Finding::Untaken { word, .. } | Finding::Lost { word, .. } => {
            Cell::Number(u64::from(word))
        }
        _ => Cell::Empty,
    }
}

fn number<'s>(finding: &Finding) -> Cell<'s>
    ensures { value_of result ≡ number_of finding.now }
{
    match *finding {
        Finding::Miss { number, .. } | Finding::Overdue { number, .. } => Cell::Number(number),
        _ => Cell::Empty,
    }
}

fn response<'s>(finding: &Finding) -> Cell<'s>
    ensures { value_of result ≡ response_of finding.now }
{
    match *finding {
        Finding::Miss { response, .. } => Cell::Number(response),
        _ => Cell::Empty,
    }
}

/// The ticks since a round was activated, or a word set.
fn age<'s>(finding: &Finding) -> Cell<'s>
    ensures { value_of result ≡ age_of finding.now }
{
    match *finding {
        Finding::Overdue { age, .. } | Finding::Untaken { age, .. } => Cell::Number(age),
        _ => Cell::Empty,
    }
}

/// When the word was set that nobody has taken.
fn set<'s>(finding: &Finding) -> Cell<'s>
    ensures { value_of result ≡ set_of finding.now }
{
    match *finding {
        Finding::Untaken { set, .. } => Cell::Number(set.get()),
        _ => Cell::Empty,
    }
}

fn deadline<'s>(finding: &Finding) -> Cell<'s>
    ensures { value_of result ≡ deadline_of finding.now }
{
    match *finding {
        Finding::Miss { deadline, .. }
        | Finding::Overdue { deadline, .. }
        | Finding::Untaken { deadline, .. }
        | Finding::Never { deadline, .. } => Cell::Number(deadline),
        Finding::Lost { .. } => Cell::Empty,
    }
}

/// The values that only misses and overdue rounds have.
#[derive(Clone, Copy)]
struct Late<'s> {
    activated: Cell<'s>,
    queued: Cell<'s>,
    ready: Cell<'s>,
    running: Cell<'s>,
    throttled: Cell<'s>,
    blocked: Cell<'s>,
    server: Cell<'s>,
}

fn late_values<'s>(finding: &Finding) -> Late<'s>
    ensures activated { value_of result.activated ≡ of_late (λ activated queued stood. activated) finding.now }
    ensures queued { value_of result.queued ≡ of_late (λ activated queued stood. queued) finding.now }
    ensures ready { value_of result.ready ≡ of_late (λ activated queued stood. stood.ready) finding.now }
    ensures running { value_of result.running ≡ of_late (λ activated queued stood. stood.running) finding.now }
    ensures throttled { value_of result.throttled ≡ of_late (λ activated queued stood. stood.throttled) finding.now }
    ensures blocked { value_of result.blocked ≡ of_late (λ activated queued stood. stood.blocked) finding.now }
    ensures server { value_of result.server ≡ of_late (λ activated queued stood. stood.server) finding.now }
{
    match *finding {
        Finding::Miss {
            activated,
            queued,
            stood,
            ..
        }
        | Finding::Overdue {
            activated,
            queued,
            stood,
            ..
        } => Late {
            activated: Cell::Number(activated.get()),
            queued: Cell::Number(queued),
            ready: Cell::Number(stood.ready),
            running: Cell::Number(stood.running),
            throttled: Cell::Number(stood.throttled),
            blocked: Cell::Number(stood.blocked),
            server: Cell::Number(stood.server),
        },
        _ => Late {
            activated: Cell::Empty,
            queued: Cell::Empty,
            ready: Cell::Empty,
            running: Cell::Empty,
            throttled: Cell::Empty,
            blocked: Cell::Empty,
            server: Cell::Empty,
        },
    }
}

/// The values of the counts, with those of chains.
pub(crate) fn checked_fields(
    counts: &Counts,
    scope: &Scope,
    chains: &ChainCounts,
) -> [Field<'static>; 15]
    ensures { map field_of result ≡ counts_fields counts.now scope.now ++ chain_count_fields (Some chains.now) }
{
    [
        ("kind", Cell::Name("counts")),
        ("missed", Cell::Number(counts.missed)),
        ("overdue", Cell::Number(counts.overdue)),
        ("untaken", Cell::Number(counts.untaken)),
        ("lost", Cell::Number(counts.lost)),
        ("never", Cell::Number(counts.never)),
        ("merged", Cell::Number(counts.merged)),
        ("allowed", Cell::Number(counts.allowed)),
        ("unjudged", Cell::Number(scope.unjudged)),
        ("hints", Cell::Number(counts.hints)),
        ("threads", Cell::Number(scope.threads)),
        ("deadlines", Cell::Number(scope.deadlines)),
        ("judged", Cell::Number(scope.judged)),
        ("slow", Cell::Number(chains.slow)),
        ("unanswered", Cell::Number(chains.unanswered)),
    ]
}

/// The values of the counts.
pub(crate) fn counts_fields(counts: &Counts, scope: &Scope) -> [Field<'static>; 13]
    ensures { map field_of result ≡ counts_fields counts.now scope.now }
{
    [
        ("kind", Cell::Name("counts")),
        ("missed", Cell::Number(counts.missed)),
        ("overdue", Cell::Number(counts.overdue)),
        ("untaken", Cell::Number(counts.untaken)),
        ("lost", Cell::Number(counts.lost)),
        ("never", Cell::Number(counts.never)),
        ("merged", Cell::Number(counts.merged)),
        ("allowed", Cell::Number(counts.allowed)),
        ("unjudged", Cell::Number(scope.unjudged)),
        ("hints", Cell::Number(counts.hints)),
        ("threads", Cell::Number(scope.threads)),
        ("deadlines", Cell::Number(scope.deadlines)),
        ("judged", Cell::Number(scope.judged)),
    ]
}

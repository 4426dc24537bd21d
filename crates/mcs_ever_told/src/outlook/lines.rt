//! The lines of one set of cores.
ghost use Rattle.std.specs.Prelude.{◌≡◌, ◌++◌, ◌+◌, ◌^◌, ◌<◌, ◌≤◌, ℕ, List, length, OnOk};
ghost use Rattle.mcs_ticks.specs.declared.row.Row.{Row as TheRow};
ghost use Rattle.mcs_verdict.specs.Due.{untaken};
ghost use Rattle.mcs_verdict.specs.Findings.{UpTo};
ghost use Rattle.mcs_verdict.specs.Misses.{unended};
ghost use Rattle.mcs_verdict.specs.Watch.{Watch as TheWatch, watch_of};
ghost use Rattle.mcs_ever_found.specs.Period.{AreKept, endless_round, abandoned_word};
ghost use Rattle.mcs_ever_told.specs.Lines.{often_of, is_some, is_own_thread, of_threads, of_notes, miss_line, lost_line, count_lines, end_told, end_line, untaken_told, untaken_line, end_lines, inactive_told, ever_told, ever_line, abandoned_told, abandoned_line, ever_lines};
ghost use Rattle.mcs_ever_told.specs.stored.Told.{if_some};

use crate::line::{Line, Often};
use mcs_ever::CoreSet;
use mcs_ever_again::is_own;
use mcs_ever_found::{Course, Doings, abandoned_word, endless_round};
use mcs_system::System;
use mcs_ticks::{NoMemory, NoteId, ThreadId, Tick};
use mcs_verdict::{Finding, Watch};

fn often_of(forever: bool, before: u64, times: u64) -> Often
    ensures { result ≡ often_of forever before times }
{
    if forever {
        Often::Forever {
            before,
            each_period: times.saturating_sub(before),
        }
    } else {
        Often::SoFar { times }
    }
}

fn is_some(often: &Often) -> bool
    ensures { result ≡ is_some often.now }
{
    match *often {
        Often::Forever {
            before,
            each_period,
        } => before != 0 || each_period != 0,
        Often::SoFar { times } => times != 0,
    }
}

/// A group of cores, with the counts of the rows before its first period and up to the period's
/// end. Without a recurrence both are the counts so far.
#[derive(Clone, Copy)]
pub(crate) struct Span<'s> {
    pub(crate) system: &'s System,
    pub(crate) own: &'s CoreSet,
    pub(crate) forever: bool,
    pub(crate) before: &'s Course,
    pub(crate) after: &'s Course,
}

/// Whether the thread is on one of these cores.
pub(crate) fn is_own_thread(system: &System, own: &CoreSet, thread: ThreadId) -> bool
    requires { thread < length system.now.threads }
    ensures { result ≡ is_own_thread system.now own.now thread }
{
    let parts = system.parts();
    is_own(own, parts.core_of_thread(parts.thread(thread)))
}

/// The line of the thread's deadline misses, if it is on one of these cores and has any.
pub(crate) fn miss_line(span: &Span<'_>, thread: ThreadId) -> Option<Line>
    requires { thread < length span.now.system.now.threads }
    ensures { result ≡ miss_line span.now.system.now span.now.own.now span.now.forever span.now.before.now span.now.after.now thread }
{
    let often = often_of(
        span.forever,
        span.before.misses(thread),
        span.after.misses(thread),
    );
    if is_own_thread(span.system, span.own, thread) && is_some(&often) {
        Some(Line::Miss { thread, often })
    } else {
        None
    }
}

/// The line of the notification's lost signals, if it is on one of these cores, has any, and may
/// lose none.
pub(crate) fn lost_line(span: &Span<'_>, allowed: &[bool], note: NoteId) -> Option<Line>
    requires { note < length span.now.system.now.notes }
    ensures { result ≡ lost_line span.now.system.now span.now.own.now span.now.forever span.now.before.now span.now.after.now allowed.now note }
{
    let often = often_of(
        span.forever,
        span.before.losses(note),
        span.after.losses(note),
    );
    let is_allowed = note.0 < allowed.len() && allowed[note.0];
    if is_own(span.own, span.system.home_of(note)) && !is_allowed && is_some(&often) {
        Some(Line::Lost { note, often })
    } else {
        None
    }
}

/// The line of a thread's finding at the horizon, if there is one.
fn end_told(moment: Tick, thread: ThreadId, found: &Option<Finding>) -> Option<Line>
    ensures { result ≡ end_told moment thread found.now }
{
    match *found {
        Some(Finding::Overdue { .. }) => Some(Line::Overdue { thread, moment }),
        Some(Finding::Never { .. }) => Some(Line::Never { thread, moment }),
        _ => None,
    }
}

/// The line of the thread at the end of a run, by a watch of the run's rows.
pub(crate) fn end_line(
    system: &System,
    own: &CoreSet,
    watch: &Watch,
    moment: Tick,
    thread: ThreadId,
) -> Option<Line>
    requires { thread < length system.now.threads }
    ensures { (past : List TheRow) → watch.now ≡ watch_of system.now past → UpTo moment past →
        result ≡ end_line system.now own.now moment (unended system.now past moment) thread }
{
    if is_own_thread(system, own, thread) {
        end_told(moment, thread, &watch.unended(moment, thread))
    } else {
        None
    }
}

/// The line of a notification's finding at the horizon, if there is one.
fn untaken_told(moment: Tick, note: NoteId, found: &Option<Finding>) -> Option<Line>
    ensures { result ≡ untaken_told moment note found.now }
{
    match *found {
        Some(Finding::Untaken { .. }) => Some(Line::Untaken { note, moment }),
        _ => None,
    }
}

/// The line of the notification at the end of a run, by a watch of the run's rows.
fn untaken_line(
    system: &System,
    own: &CoreSet,
    watch: &Watch,
    moment: Tick,
    note: NoteId,
) -> Option<Line>
    requires { note < length system.now.notes }
    ensures { (past : List TheRow) → watch.now ≡ watch_of system.now past →
        result ≡ untaken_line system.now own.now moment (untaken system.now past moment) note }
{
    if is_own(own, system.home_of(note)) {
        untaken_told(moment, note, &watch.untaken(moment, note))
    } else {
        None
    }
}

/// The line of a thread that is never activated, by its finding at the end of the first period.
fn inactive_told(thread: ThreadId, found: &Option<Finding>) -> Option<Line>
    ensures { result ≡ inactive_told thread found.now }
{
    match *found {
        Some(Finding::Never { .. }) => Some(Line::Inactive { thread }),
        _ => None,
    }
}

/// The line of a thread's round that never ends; if there is none, that of a thread that is never
/// activated.
fn ever_told(thread: ThreadId, endless: &Option<Finding>, unended: &Option<Finding>) -> Option<Line>
    ensures { result ≡ ever_told thread endless.now unended.now }
{
    match *endless {
        Some(
            Finding::Overdue {
                number,
                activated,
                ..
            },
        ) => Some(Line::Endless {
            thread,
            number,
            activated,
        }),
        _ => inactive_told(thread, unended),
    }
}

/// The line of the thread for ever, by the watch at the end of the first period, the doings of the
/// period's rows, and its last moment.
fn ever_line(
    system: &System,
    own: &CoreSet,
    watch: &Watch,
    doings: &Doings,
    last: Tick,
    thread: ThreadId,
) -> Option<Line>
    requires { thread < length system.now.threads }
    ensures { (by from : ℕ) (before : TheWatch) (past : List TheRow) → from + by ≤ 2 ^ 41 →
        AreKept system.now by from before watch.now doings.now → watch.now ≡ watch_of system.now past → UpTo last past →
        result ≡ ever_line system.now own.now (endless_round system.now by from) (unended system.now past last) thread }
{
    if !is_own_thread(system, own, thread) {
        return None;
    }
    let endless = endless_round(system, watch, doings, thread);
    let unended = watch.unended(last, thread);
    ever_told(thread, &endless, &unended)
}

/// The line of a notification's word that nobody ever takes.
fn abandoned_told(note: NoteId, found: &Option<Finding>) -> Option<Line>
    ensures { result ≡ abandoned_told note found.now }
{
    match *found {
        Some(Finding::Untaken { word, set, .. }) => Some(Line::Abandoned { note, word, set }),
        _ => None,
    }
}

/// The line of the notification for ever, by the watch at the end of the first period and the
/// doings of the period's rows.
fn abandoned_line(
    system: &System,
    own: &CoreSet,
    watch: &Watch,
    doings: &Doings,
    note: NoteId,
) -> Option<Line>
    requires { note < length system.now.notes }
    ensures { (by from : ℕ) (before : TheWatch) → AreKept system.now by from before watch.now doings.now →
        result ≡ abandoned_line system.now own.now (abandoned_word system.now by from) note }
{
    if !is_own(own, system.home_of(note)) {
        return None;
    }
    abandoned_told(note, &abandoned_word(system, watch, doings, note))
}

/// Appends the item, if there is one.
pub(crate) fn push<T: Copy>(items: &mut Vec<T>, one: Option<T>) -> Result<(), NoMemory>
    ensures { OnOk result (items.new.items ≡ items.old.items ++ if_some one) }
{
    if let Some(one) = one {
        items.push(one)?;
    }
    Ok(())
}

fn push_misses(lines: &mut Vec<Line>, span: &Span<'_>) -> Result<(), NoMemory>
    ensures { OnOk result (lines.new.items ≡ lines.old.items ++ of_threads span.now.system.now
        (miss_line span.now.system.now span.now.own.now span.now.forever span.now.before.now span.now.after.now)) }
{
    for thread in 0..span.system.parts().threads.len() {
        push(lines, miss_line(span, ThreadId(thread)))?;
    }
    Ok(())
}

fn push_losses(lines: &mut Vec<Line>, span: &Span<'_>, allowed: &[bool]) -> Result<(), NoMemory>
    ensures { OnOk result (lines.new.items ≡ lines.old.items ++ of_notes span.now.system.now
        (lost_line span.now.system.now span.now.own.now span.now.forever span.now.before.now span.now.after.now allowed.now)) }
{
    for note in 0..span.system.parts().notes.len() {
        push(lines, lost_line(span, allowed, NoteId(note)))?;
    }
    Ok(())
}

/// Appends the lines of deadline misses and of lost signals.
pub(crate) fn push_counts(
    lines: &mut Vec<Line>,
    span: &Span<'_>,
    allowed: &[bool],
) -> Result<(), NoMemory>
    ensures { OnOk result (lines.new.items ≡ lines.old.items
        ++ count_lines span.now.system.now span.now.own.now span.now.forever span.now.before.now span.now.after.now allowed.now) }
{
    push_misses(lines, span)?;
    push_losses(lines, span, allowed)
}

fn push_unended(
    lines: &mut Vec<Line>,
    system: &System,
    own: &CoreSet,
    watch: &Watch,
    moment: Tick,
) -> Result<(), NoMemory>
    ensures { (past : List TheRow) → watch.now ≡ watch_of system.now past → UpTo moment past →
        OnOk result (lines.new.items
        ≡ lines.old.items ++ of_threads system.now (end_line system.now own.now moment (unended system.now past moment))) }
{
    for thread in 0..system.parts().threads.len() {
        let line = end_line(system, own, watch, moment, ThreadId(thread));
        push(lines, line)?;
    }
    Ok(())
}

fn push_untaken(
    lines: &mut Vec<Line>,
    system: &System,
    own: &CoreSet,
    watch: &Watch,
    moment: Tick,
) -> Result<(), NoMemory>
    ensures { (past : List TheRow) → watch.now ≡ watch_of system.now past →
        OnOk result (lines.new.items
        ≡ lines.old.items ++ of_notes system.now (untaken_line system.now own.now moment (untaken system.now past moment))) }
{
    for note in 0..system.parts().notes.len() {
        let line = untaken_line(system, own, watch, moment, NoteId(note));
        push(lines, line)?;
    }
    Ok(())
}

/// Appends the lines of findings at the end of a run, by a watch of the run's rows.
pub(crate) fn push_ends(
    lines: &mut Vec<Line>,
    system: &System,
    own: &CoreSet,
    watch: &Watch,
    moment: Tick,
) -> Result<(), NoMemory>
    ensures { (past : List TheRow) → watch.now ≡ watch_of system.now past → UpTo moment past →
        OnOk result (lines.new.items ≡ lines.old.items
        ++ end_lines system.now own.now moment (unended system.now past moment) (untaken system.now past moment)) }
{
    push_unended(lines, system, own, watch, moment)?;
    push_untaken(lines, system, own, watch, moment)
}

fn push_endless(
    lines: &mut Vec<Line>,
    system: &System,
    own: &CoreSet,
    watch: &Watch,
    doings: &Doings,
    last: Tick,
) -> Result<(), NoMemory>
    ensures { (by from : ℕ) (before : TheWatch) (past : List TheRow) → from + by ≤ 2 ^ 41 →
        AreKept system.now by from before watch.now doings.now → watch.now ≡ watch_of system.now past → UpTo last past →
        OnOk result (lines.new.items ≡ lines.old.items
        ++ of_threads system.now (ever_line system.now own.now (endless_round system.now by from) (unended system.now past last))) }
{
    for thread in 0..system.parts().threads.len() {
        let line = ever_line(system, own, watch, doings, last, ThreadId(thread));
        push(lines, line)?;
    }
    Ok(())
}

fn push_abandoned(
    lines: &mut Vec<Line>,
    system: &System,
    own: &CoreSet,
    watch: &Watch,
    doings: &Doings,
) -> Result<(), NoMemory>
    ensures { (by from : ℕ) (before : TheWatch) → AreKept system.now by from before watch.now doings.now →
        OnOk result (lines.new.items ≡ lines.old.items
        ++ of_notes system.now (abandoned_line system.now own.now (abandoned_word system.now by from))) }
{
    for note in 0..system.parts().notes.len() {
        let line = abandoned_line(system, own, watch, doings, NoteId(note));
        push(lines, line)?;
    }
    Ok(())
}

/// Appends the lines of findings that go on for ever, by the watch at the end of the first period,
/// the doings of the period's rows, and its last moment.
pub(crate) fn push_ever(
    lines: &mut Vec<Line>,
    system: &System,
    own: &CoreSet,
    watch: &Watch,
    doings: &Doings,
    last: Tick,
) -> Result<(), NoMemory>
    ensures { (by from : ℕ) (before : TheWatch) (past : List TheRow) → from + by ≤ 2 ^ 41 →
        AreKept system.now by from before watch.now doings.now → watch.now ≡ watch_of system.now past → UpTo last past →
        OnOk result (lines.new.items ≡ lines.old.items ++ ever_lines system.now own.now
        (endless_round system.now by from) (unended system.now past last) (abandoned_word system.now by from)) }
{
    push_endless(lines, system, own, watch, doings, last)?;
    push_abandoned(lines, system, own, watch, doings)
}

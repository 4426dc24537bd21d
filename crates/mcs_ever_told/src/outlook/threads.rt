//! The lines of the threads of one set of cores.
ghost use Rattle.std.specs.Prelude.{◌≡◌, ◌++◌, ◌<◌, length, OnOk};
ghost use Rattle.mcs_ever_told.specs.Lines.{silent_from, spins, thread_told, thread_line, thread_lines, so_far_told, thread_so_far, threads_so_far};

use crate::line::Line;
use crate::outlook::lines::{is_own_thread, push};
use mcs_ever::CoreSet;
use mcs_ever_found::Course;
use mcs_script::Item;
use mcs_system::System;
use mcs_ticks::{NoMemory, ThreadId, Tick};

/// The time from which on the thread ends no round, if it ended none in the first period.
fn silent_from(from: Tick, ended: bool) -> Option<Tick>
    ensures { result ≡ silent_from from ended }
{
    if ended { None } else { Some(from) }
}

/// Whether the script is the one item `spin`.
fn spins(script: &[Item]) -> bool
    ensures { result ≡ spins script.now }
{
    matches!(*script, [Item::Spin])
}

/// The line of a thread whose set recurs, if its script is the one item `spin` or not.
fn thread_told(
    spins: bool,
    thread: ThreadId,
    greatest: Option<u64>,
    never_throttled: bool,
    silent_from: Option<Tick>,
) -> Line
    ensures { result ≡ thread_told spins thread greatest never_throttled silent_from }
{
    if spins && greatest.is_none() {
        return Line::Computes {
            thread,
            never_throttled,
        };
    }
    Line::Thread {
        thread,
        greatest,
        never_throttled,
        silent_from,
    }
}

/// The line of a thread whose set was not found to recur.
fn so_far_told(spins: bool, thread: ThreadId, greatest: Option<u64>) -> Line
    ensures { result ≡ so_far_told spins thread greatest }
{
    if spins && greatest.is_none() {
        return Line::Computes {
            thread,
            never_throttled: false,
        };
    }
    Line::ThreadSoFar { thread, greatest }
}

/// The line of a thread of these cores, whose set recurs.
fn thread_line(
    system: &System,
    own: &CoreSet,
    course: &Course,
    from: Tick,
    ended: &[bool],
    thread: ThreadId,
) -> Option<Line>
    requires { thread < length system.now.threads }
    ensures { result ≡ thread_line system.now own.now course.now from ended.now thread }
{
    if is_own_thread(system, own, thread) {
        Some(thread_told(
            spins(system.parts().thread(thread).script.as_slice()),
            thread,
            course.greatest(thread),
            !course.was_spent(thread),
            silent_from(from, thread.0 < ended.len() && ended[thread.0]),
        ))
    } else {
        None
    }
}

/// The line of a thread of these cores, whose set was not found to recur.
fn thread_so_far(system: &System, own: &CoreSet, course: &Course, thread: ThreadId) -> Option<Line>
    requires { thread < length system.now.threads }
    ensures { result ≡ thread_so_far system.now own.now course.now thread }
{
    if is_own_thread(system, own, thread) {
        let spins = spins(system.parts().thread(thread).script.as_slice());
        Some(so_far_told(spins, thread, course.greatest(thread)))
    } else {
        None
    }
}

/// Appends the threads' lines, for a set that recurs from this time on.
pub(crate) fn push_threads(
    lines: &mut Vec<Line>,
    system: &System,
    own: &CoreSet,
    course: &Course,
    from: Tick,
    ended: &[bool],
) -> Result<(), NoMemory>
    ensures { OnOk result (lines.new.items ≡ lines.old.items ++ thread_lines system.now own.now course.now from ended.now) }
{
    for thread in 0..system.parts().threads.len() {
        let line = thread_line(system, own, course, from, ended, ThreadId(thread));
        push(lines, line)?;
    }
    Ok(())
}

/// Appends the threads' lines, for a set that was not found to recur.
pub(crate) fn push_so_far(
    lines: &mut Vec<Line>,
    system: &System,
    own: &CoreSet,
    course: &Course,
) -> Result<(), NoMemory>
    ensures { OnOk result (lines.new.items ≡ lines.old.items ++ threads_so_far system.now own.now course.now) }
{
    for thread in 0..system.parts().threads.len() {
        push(lines, thread_so_far(system, own, course, ThreadId(thread)))?;
    }
    Ok(())
}

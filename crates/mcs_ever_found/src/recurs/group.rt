ghost use Rattle.std.specs.Prelude.{◌≡◌, ◌<◌, length};
ghost use Rattle.mcs_system.specs.System.{thread_part, note_part, core_of};
ghost use Rattle.mcs_ever.specs.Closed.{has};

use mcs_ever::CoreSet;
use mcs_system::System;
use mcs_ticks::{CoreId, Limits, NoteId, ThreadId};

fn is_own(group: &CoreSet, core: CoreId) -> bool
    ensures { result ≡ has group.now core }
{
    core.0 < Limits::CORES && group[core.0]
}

/// Whether the thread is on a core of the group.
pub(crate) fn has_thread(system: &System, group: &CoreSet, thread: ThreadId) -> bool
    requires { thread < length system.now.threads }
    ensures { result ≡ has group.now (core_of system.now (thread_part system.now thread)) }
{
    let parts = system.parts();
    is_own(group, parts.core_of_thread(parts.thread(thread)))
}

/// Whether the notification is on a core of the group.
pub(crate) fn has_note(system: &System, group: &CoreSet, note: NoteId) -> bool
    ensures { result ≡ has group.now (note_part system.now note).core }
{
    is_own(group, system.home_of(note))
}

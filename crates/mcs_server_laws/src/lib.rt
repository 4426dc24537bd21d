//! Laws of interrupts and of passive servers over the whole schedules of well-formed systems. Each
//! law is the contract of a function with an empty body; a call of the function gives what its
//! contract says.
#![tactic(auto)]

ghost use Rattle.std.specs.Prelude.{ℕ};
ghost use Rattle.mcs_system.specs.System.{System};
ghost use Rattle.mcs_system.specs.WellFormed.{IsWellFormed};
ghost use Rattle.mcs_server_laws.specs.Nesting.{ScriptsNest};
ghost use Rattle.mcs_server_laws.specs.Exclusion.{ServersExclude, NoneEntersTwice};
ghost use Rattle.mcs_server_laws.specs.Ceiling.{AreCeilings, RunsAbove, NoneCalls, NoneOvertakes, CallsWait};
ghost use Rattle.mcs_server_laws.specs.Accepted.{AcceptedScriptsNest, AcceptedServersExclude, AcceptedHavePriorities};
ghost use Rattle.mcs_server_laws.specs.Interrupts.{TurnsTellDates, SchedulesTellDates, InterruptsArePosted};

/// A law of the clock: each interrupt is posted. The turn of a core emits an `interrupt` row for
/// each beat of the core with a date at the moment, and no other. The moments of a source's
/// interrupts in a schedule are therefore its dates up to the horizon. The row right after an
/// interrupt is that of its badge: it woke a thread, or the notification holds it.
pub fn interrupts_are_posted()
    ensures turns { (system : System) → IsWellFormed system → TurnsTellDates system }
    ensures schedules { (system : System) → IsWellFormed system → SchedulesTellDates system }
    ensures posted { (system : System) → IsWellFormed system → InterruptsArePosted system }
{}

/// A law of the clock: at most one thread is in each server, if the threads' scripts enter and
/// leave servers in pairs. At each moment either the word of the server is 1 and no thread is in
/// it, or the word is 0 and exactly one thread is in it. A thread is in a server from the item
/// after the entering one up to the leaving one, unless it is done. No thread enters a server that
/// it is in.
pub fn servers_exclude()
    ensures one_holder { (system : System) → IsWellFormed system → ScriptsNest system → ServersExclude system }
    ensures no_circle { (system : System) → ScriptsNest system → NoneEntersTwice system }
{}

/// A law of the clock: priority ceilings. Premise: each server is entered at a priority below its
/// own. While a thread has a server and is ready, the running thread has at least the server's
/// priority. This thread is not about to call the server, and if it is in no server, it calls this
/// one nowhere. When a thread stops with `call`, another thread has the server and is not ready.
pub fn ready_holders_are_not_overtaken()
    ensures runs_above { (system : System) → IsWellFormed system → ScriptsNest system → (ceiling : ℕ → ℕ) → AreCeilings system ceiling → RunsAbove system ceiling }
    ensures none_calls { (system : System) → IsWellFormed system → ScriptsNest system → (ceiling : ℕ → ℕ) → AreCeilings system ceiling → NoneCalls system ceiling }
    ensures none_overtakes { (system : System) → IsWellFormed system → ScriptsNest system → (ceiling : ℕ → ℕ) → AreCeilings system ceiling → NoneOvertakes system ceiling }
    ensures calls_wait { (system : System) → IsWellFormed system → ScriptsNest system → (ceiling : ℕ → ℕ) → AreCeilings system ceiling → CallsWait system ceiling }
{}

/// A law of files: in a file that the loader accepts the scripts enter and leave servers in pairs,
/// so at most one thread is in each of its servers. A server is entered with its own priority, and
/// left for the previous one.
pub fn accepted_scripts_nest()
    ensures nest { AcceptedScriptsNest }
    ensures exclude { AcceptedServersExclude }
    ensures priorities { AcceptedHavePriorities }
{}

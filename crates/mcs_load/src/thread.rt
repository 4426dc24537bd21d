//! Reads the array `thread`.
#![tactic(auto, using(crate::proofs::Steps::steps), unfolding(crate::specs::Walk::own_context, crate::specs::Walk::times, crate::specs::Walk::thread, crate::specs::Walk::threads))]

ghost use Rattle.std.specs.Prelude.{◌≡◌, ◌<◌, ◌≤◌, IfOk, length, map, [], ◌∷◌, ◌++◌};
ghost use Rattle.toml.specs.View.{table_view};
ghost use Rattle.mcs_load.specs.Checks.{Gives, Tells};
ghost use Rattle.mcs_load.specs.stored.Ready.{AreReady};
ghost use Rattle.mcs_load.specs.Walk.{own_context, times, thread, threads};

use crate::at::At;
use crate::context::core_of_part;
use crate::fault::{FaultKind, LoadFault};
use crate::names::Names;
use crate::numbers::moment;
use crate::reader::{RowReader, read_array};
use crate::script::{Known, script};
use crate::server::Server;
use crate::spot::{Key, Section};
use crate::values::{known_name, new_name, number_with_default, only_keys, whole_number};
use indexmap::IndexSet;
use mcs_system::{ContextPart, Name, NotePart, ThreadPart};
use mcs_ticks::{ContextId, Limits, Tick};
use std::alloc::Global;
use toml::Table;

const THREAD_KEYS: [Key; 7] = [
    Key::Name,
    Key::Context,
    Key::Priority,
    Key::Start,
    Key::Rounds,
    Key::Deadline,
    Key::Script,
];

/// Start, number of jobs and deadline of a thread.
#[derive(Clone, Copy)]
struct Timing {
    start: Tick,
    rounds: u64,
    deadline: u64,
}

/// Reads the context of the row and adds it to the taken ones. `ContextTaken` if an earlier thread
/// has it.
fn own_context<'a>(
    row: &'a Table,
    at: At,
    names: &Names<'a>,
    taken: &mut IndexSet<usize>,
) -> Result<usize, LoadFault>
    ensures gives { Gives (λ n. n) result (own_context names.now at taken.old.keys (table_view row.now)) }
    ensures within { IfOk result (λ n. n < length names.now) }
    ensures kept { IfOk result (λ n. taken.new.keys ≡ taken.old.keys ++ n ∷ []) }
{
    let context = known_name(row, at, Key::Context, names)?;
    if !taken.insert(context)? {
        return Err(at.fault(Key::Context, FaultKind::ContextTaken));
    }
    Ok(context)
}

/// Reads the start, rounds and deadline of a row.
fn times(row: &Table, at: At) -> Result<Timing, LoadFault>
    ensures { Tells (λ x. x) result (times at (table_view row.now)) }
{
    let start = number_with_default(row, at, Key::Start, 0, Limits::START, 0)?;
    let rounds = number_with_default(row, at, Key::Rounds, 0, Limits::ROUNDS, 0)?;
    let deadline = number_with_default(row, at, Key::Deadline, 0, Limits::DEADLINE, 0)?;
    Ok(Timing {
        start: moment(start),
        rounds,
        deadline,
    })
}

/// Reads threads. It keeps their names and the contexts that are taken.
#[derive(Drop)]
struct ThreadReader<'c, 'n, 'a> {
    alloc: Global,
    contexts: &'c [ContextPart],
    context_names: &'n Names<'a>,
    notes: &'c [NotePart],
    note_names: &'n Names<'a>,
    servers: &'c [Server],
    server_names: &'n Names<'a>,
    /// Whether the file has version 3.
    is_new: bool,
    names: Names<'a>,
    taken: IndexSet<usize>,
}

impl<'c, 'n, 'a> RowReader<'a> for ThreadReader<'c, 'n, 'a> {
    type Part = ThreadPart;

    ghost reads = { λ reader. thread reader.contexts.now reader.notes.now reader.servers.now reader.is_new };

    ghost keeps = { λ reader earlier.
        (reader.context_names.now ≡ map (λ c. c.name) reader.contexts.now)
        × (reader.note_names.now ≡ map (λ n. n.name) reader.notes.now)
        × (reader.server_names.now ≡ map (λ s. s.name) reader.servers.now) × (length reader.notes.now ≤ 4096)
        × (length reader.servers.now ≤ 4096) × AreReady reader.notes.now reader.servers.now × (reader.names ≡ map (λ t. t.name) earlier)
        × (reader.taken.keys ≡ map (λ t. t.context) earlier) };

    fn read(
        &mut self,
        row: &'a Table,
        at: At,
        _earlier: &[ThreadPart],
    ) -> Result<ThreadPart, LoadFault> {
        only_keys(row, at, &THREAD_KEYS)?;
        let name = new_name(row, at, &mut self.names)?;
        let context = own_context(row, at, self.context_names, &mut self.taken)?;
        let priority = whole_number(row, at, Key::Priority, 0, Limits::PRIORITY)?;
        let times = times(row, at)?;
        let core = core_of_part(self.contexts, context);
        let known = Known {
            notes: self.notes,
            note_names: self.note_names,
            servers: self.servers,
            server_names: self.server_names,
            core,
            priority: priority as u8,
            is_new: self.is_new,
            is_server: false,
        };
        let script = script(self.alloc, row, at, &known)?;
        Ok(ThreadPart {
            name: Name::new(String::from_str(self.alloc, name)?),
            context: ContextId(context),
            priority: priority as u8,
            start: times.start,
            rounds: times.rounds,
            deadline: times.deadline,
            script,
        })
    }
}

/// Reads the threads of a file in order. Returns them with their names.
pub(crate) fn threads<'a>(
    alloc: Global,
    file: &'a Table,
    contexts: &[ContextPart],
    context_names: &Names<'a>,
    notes: &[NotePart],
    note_names: &Names<'a>,
    servers: &[Server],
    server_names: &Names<'a>,
    is_new: bool,
) -> Result<(Vec<ThreadPart>, Names<'a>), LoadFault>
    requires contexts { context_names.now ≡ map (λ c. c.name) contexts.now }
    requires notes { note_names.now ≡ map (λ n. n.name) notes.now }
    requires servers { server_names.now ≡ map (λ s. s.name) servers.now }
    requires few { (length notes.now ≤ 4096) × (length servers.now ≤ 4096) }
    requires ready { AreReady notes.now servers.now }
    ensures gives { Gives (λ read. read.0.items) result
        (threads contexts.now notes.now servers.now is_new (table_view file.now)) }
    ensures kept { IfOk result (λ read. read.1 ≡ map (λ t. t.name) read.0.items) }
{
    let mut reader = ThreadReader {
        alloc,
        contexts,
        context_names,
        notes,
        note_names,
        servers,
        server_names,
        is_new,
        names: Names::new(alloc),
        taken: IndexSet::new(alloc),
    };
    let threads = read_array(alloc, file, Section::Thread, Key::Thread, &mut reader)?;
    Ok((threads, reader.names))
}

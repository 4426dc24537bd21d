//! Reads the array `server`.
#![tactic(auto, using(crate::proofs::Steps::steps, crate::proofs::Members::item_count_view), unfolding(crate::specs::Walk::few_notes, crate::specs::Walk::server, crate::specs::Walk::servers))]

ghost use Rattle.std.specs.Prelude.{◌≡◌, ◌≤◌, ◌++◌, IfOk, map, length};
ghost use Rattle.toml.specs.View.{table_view, items_view};
ghost use Rattle.mcs_load.specs.Checks.{Gives, Tells};
ghost use Rattle.mcs_load.specs.stored.Ready.{AreReady};
ghost use Rattle.mcs_load.specs.Walk.{free_server, few_notes, server, servers};

use crate::at::At;
use crate::fault::{FaultKind, LoadFault};
use crate::names::Names;
use crate::reader::{RowReader, read_rows};
use crate::script::{Known, server_script};
use crate::spot::{Key, Section};
use crate::values::{only_keys, rows, unused_name, whole_number};
use mcs_script::Item;
use mcs_system::{Name, NotePart};
use mcs_ticks::{CoreId, Limits, Sequence};
use std::alloc::{AllocError, Global};
use toml::{Table, Value};

const SERVER_KEYS: [Key; 4] = [Key::Name, Key::Core, Key::Priority, Key::Script];

/// A passive server for its callers. Its handlers match the badge of the call.
#[derive(Drop)]
pub(crate) struct Server {
    pub name: Name,
    pub core: CoreId,
    pub priority: u8,
    pub steps: Sequence<Item>,
}

/// Reads servers and keeps their names.
#[derive(Drop)]
struct ServerReader<'n, 'a> {
    alloc: Global,
    notes: &'n [NotePart],
    note_names: &'n Names<'a>,
    cores: u64,
    names: Names<'a>,
}

impl<'n, 'a> RowReader<'a> for ServerReader<'n, 'a> {
    type Part = Server;

    ghost reads = { λ reader. server reader.notes.now reader.cores };

    ghost keeps = { λ reader earlier.
        (1 ≤ reader.cores) × (reader.cores ≤ 64) × (reader.note_names.now ≡ map (λ n. n.name) reader.notes.now)
        × (length reader.notes.now ≤ 4096) × (reader.names ≡ map (λ s. s.name) earlier) };

    fn read(&mut self, row: &'a Table, at: At, earlier: &[Server]) -> Result<Server, LoadFault> {
        only_keys(row, at, &SERVER_KEYS)?;
        let name = unused_name(row, at, self.note_names, &self.names)?;
        let core = whole_number(row, at, Key::Core, 0, self.cores - 1)?;
        let priority = whole_number(row, at, Key::Priority, 0, Limits::PRIORITY)?;
        let known = Known {
            notes: self.notes,
            note_names: self.note_names,
            servers: earlier,
            server_names: &self.names,
            core: CoreId(core as usize),
            priority: priority as u8,
            is_new: true,
            is_server: true,
        };
        let steps = server_script(self.alloc, row, at, &known)?;
        let _is_new = self.names.insert(name)?;
        Ok(Server {
            name: Name::new(String::from_str(self.alloc, name)?),
            core: CoreId(core as usize),
            priority: priority as u8,
            steps: Sequence::new(steps),
        })
    }
}

/// Tests that there are at most 4,096 notifications and servers together.
fn few_notes(values: &[Value], notes: &[NotePart]) -> Result<(), LoadFault>
    requires { (length notes.now ≤ 4096) × (length values.now ≤ 4096) }
    ensures { Tells (λ x. x) result (few_notes notes.now (items_view values.now)) }
{
    if notes.len() + values.len() <= Limits::NOTES {
        Ok(())
    } else {
        Err(At::array(Section::Server).fault(Key::Whole, FaultKind::TooMany))
    }
}

/// Reads the servers of a file in order. Returns them with their names.
pub(crate) fn servers<'a>(
    alloc: Global,
    file: &'a Table,
    cores: u64,
    notes: &[NotePart],
    note_names: &Names<'a>,
) -> Result<(Vec<Server>, Names<'a>), LoadFault>
    requires range { (1 ≤ cores) × (cores ≤ 64) }
    requires names { note_names.now ≡ map (λ n. n.name) notes.now }
    requires few { length notes.now ≤ 4096 }
    ensures gives { Gives (λ read. read.0.items) result (servers notes.now cores (table_view file.now)) }
    ensures kept { IfOk result (λ read. read.1 ≡ map (λ s. s.name) read.0.items) }
    ensures few { IfOk result (λ read. length read.0.items ≤ 4096) }
    ensures ready { IfOk result (λ read. AreReady notes.now read.0.items) }
{
    let values = rows(file, Section::Server, Key::Server)?;
    few_notes(values, notes)?;
    let mut reader = ServerReader {
        alloc,
        notes,
        note_names,
        cores,
        names: Names::new(alloc),
    };
    let servers = read_rows(alloc, values, Section::Server, &mut reader)?;
    Ok((servers, reader.names))
}

/// Returns the notifications followed by the servers, which are free.
pub(crate) fn all_notes(
    mut notes: Vec<NotePart>,
    servers: Vec<Server>,
) -> Result<Vec<NotePart>, AllocError>
    ensures { IfOk result (λ v. v.items ≡ notes.items ++ map free_server servers.items) }
{
    for server in servers {
        notes.push(NotePart {
            name: server.name,
            core: server.core,
            word: 1,
        })?;
    }
    Ok(notes)
}

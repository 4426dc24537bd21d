//! Reads a whole file: the keys at the top and all arrays, in order.
#![tactic(auto, using(crate::proofs::Steps::steps), unfolding(crate::specs::Walk::listed_keys, crate::specs::Walk::document, crate::specs::Walk::numbers, crate::specs::Walk::base, crate::specs::Walk::others, crate::specs::Walk::walk, crate::specs::Walk::file))]

ghost use Rattle.std.specs.Prelude.{◌≡◌, ◌≤◌, IfOk};
ghost use Rattle.toml.specs.View.{table_view};
ghost use Rattle.mcs_load.specs.Checks.{Gives, Tells};
ghost use Rattle.mcs_load.specs.Walk.{is_version_2_or_3, is_version_3, listed_keys, document, numbers, base, system_of, others, walk, file};
ghost use Rattle.mcs_load.specs.stored.Bases.{base_view, HasNames};

use crate::at::At;
use crate::chain::chains;
use crate::context::{ContextReader, contexts};
use crate::fault::LoadFault;
use crate::link::links;
use crate::names::Names;
use crate::note::{NoteReader, notes};
use crate::numbers::Numbers;
use crate::order::orders;
use crate::server::{Server, all_notes, servers};
use crate::source::{Source, all_beats, source_parts, sources};
use crate::spot::{Key, Section};
use crate::thread::threads;
use crate::values::{find, number_with_default, only_keys, whole_number};
use mcs_control::Order;
use mcs_system::{ChainPart, ContextPart, Link, NotePart, System, SystemParts, ThreadPart};
use mcs_ticks::{Limits, Sequence};
use std::alloc::{AllocError, Global};
use toml::Table;

/// The newest version of the format.
const NEWEST: u64 = 3;

/// The keys at the top. The first three need version 3, the next one version 2 or 3.
const TOP_KEYS: [Key; 13] = [
    Key::Chain,
    Key::Source,
    Key::Server,
    Key::Link,
    Key::Version,
    Key::Cores,
    Key::Delay,
    Key::Call,
    Key::MinBudget,
    Key::Context,
    Key::Note,
    Key::Thread,
    Key::Order,
];

/// Whether the file's version is the integer 2 or 3.
fn is_version_2_or_3(file: &Table) -> bool
    ensures { result ≡ is_version_2_or_3 (table_view file.now) }
{
    let Some(version) = find(file, Key::Version) else {
        return false;
    };
    matches!(version.as_integer(), Some(2 | 3))
}

/// Whether the file's version is the integer 3.
fn is_version_3(file: &Table) -> bool
    ensures { result ≡ is_version_3 (table_view file.now) }
{
    let Some(version) = find(file, Key::Version) else {
        return false;
    };
    matches!(version.as_integer(), Some(3))
}

/// The keys at the top that the file's version allows.
fn listed_keys(file: &Table) -> &'static [Key]
    ensures { result.now ≡ listed_keys (table_view file.now) }
{
    if is_version_3(file) {
        &TOP_KEYS
    } else if is_version_2_or_3(file) {
        &TOP_KEYS[3..]
    } else {
        &TOP_KEYS[4..]
    }
}

/// Parses the bytes as TOML. `NotToml` if they are not, `NoMemory` if memory runs out.
fn document(alloc: Global, bytes: &[u8]) -> Result<Table, LoadFault>
    ensures { Gives (λ t. table_view t) result (document bytes.now) }
{
    let Ok(text) = std::str::from_utf8(bytes) else {
        return Err(LoadFault::NOT_TOML);
    };
    match toml::table_from_str(alloc, text) {
        Ok(table) => Ok(table),
        Err(e) if e.is_memory() => Err(LoadFault::NO_MEMORY),
        Err(_) => Err(LoadFault::NOT_TOML),
    }
}

/// Reads the numbers at the top, and tests its keys.
fn numbers(file: &Table) -> Result<Numbers, LoadFault>
    ensures range { IfOk result (λ n. (1 ≤ n.cores) × (n.cores ≤ 64)) }
    ensures gives { Tells (λ n. n) result (numbers (table_view file.now)) }
{
    let top = At::array(Section::Top);
    only_keys(file, top, listed_keys(file))?;
    let _version = whole_number(file, top, Key::Version, 1, NEWEST)?;
    let cores = whole_number(file, top, Key::Cores, 1, Limits::CORES as u64)?;
    let delay = whole_number(file, top, Key::Delay, 1, Limits::DELAY)?;
    let call = number_with_default(file, top, Key::Call, 1, Limits::CALL, 1)?;
    let min_budget = number_with_default(file, top, Key::MinBudget, 1, Limits::MIN_BUDGET, 1)?;
    Ok(Numbers {
        cores,
        delay,
        call,
        min_budget,
    })
}

/// The parts that are read before the threads, and the names that later rows use.
#[derive(Drop)]
struct Start<'a> {
    top: Numbers,
    links: Vec<Link>,
    contexts: Vec<ContextPart>,
    context_names: Names<'a>,
    notes: Vec<NotePart>,
    note_names: Names<'a>,
    servers: Vec<Server>,
    server_names: Names<'a>,
}

/// Reads the numbers at the top, links, contexts, notifications and servers.
fn base<'a>(alloc: Global, file: &'a Table) -> Result<Start<'a>, LoadFault>
    ensures names { IfOk result (λ start. HasNames start) }
    ensures gives { Gives (λ start. base_view start) result (base (table_view file.now)) }
{
    let top = numbers(file)?;
    let is_new = is_version_3(file);
    let links = links(alloc, file, top.cores)?;
    let mut of_contexts = ContextReader {
        alloc,
        has_modes: is_version_2_or_3(file),
        is_new,
        cores: top.cores,
        min_budget: top.min_budget,
        names: Names::new(alloc),
    };
    let contexts = contexts(file, &mut of_contexts)?;
    let mut of_notes = NoteReader {
        alloc,
        is_new,
        cores: top.cores,
        names: Names::new(alloc),
    };
    let notes = notes(file, &mut of_notes)?;
    let (servers, server_names) = servers(alloc, file, top.cores, &notes, &of_notes.names)?;
    Ok(Start {
        top,
        links,
        contexts,
        context_names: of_contexts.names,
        notes,
        note_names: of_notes.names,
        servers,
        server_names,
    })
}

/// Assembles the parts of the system.
fn parts(
    alloc: Global,
    start: Start<'_>,
    threads: Vec<ThreadPart>,
    sources: Vec<Source>,
    orders: Vec<Order>,
    chains: Vec<ChainPart>,
) -> Result<SystemParts, AllocError>
    ensures { IfOk result (λ s. s
        ≡ system_of (base_view start.entry) threads.items sources.items orders.items chains.items) }
{
    let server_count = start.servers.len();
    let notes = all_notes(start.notes, start.servers)?;
    let beats = all_beats(alloc, &sources)?;
    let sources = source_parts(alloc, sources)?;
    Ok(SystemParts {
        cores: start.top.cores as usize,
        delay: start.top.delay,
        call: start.top.call,
        min_budget: start.top.min_budget,
        contexts: Sequence::new(start.contexts),
        notes: Sequence::new(notes),
        servers: server_count,
        threads: Sequence::new(threads),
        orders: Sequence::new(orders),
        links: Sequence::new(start.links),
        sources: Sequence::new(sources),
        beats: Sequence::new(beats),
        chains: Sequence::new(chains),
    })
}

/// Reads threads, sources, orders and chains.
fn others<'a>(alloc: Global, file: &'a Table, start: Start<'a>) -> Result<SystemParts, LoadFault>
    requires { HasNames start }
    ensures { Gives (λ s. s) result (others (base_view start.entry) (table_view file.now)) }
{
    let (threads, thread_names) = threads(
        alloc,
        file,
        &start.contexts,
        &start.context_names,
        &start.notes,
        &start.note_names,
        &start.servers,
        &start.server_names,
        is_version_3(file),
    )?;
    let (sources, source_names) = sources(alloc, file, &start.note_names)?;
    let orders = orders(
        alloc,
        file,
        start.top.cores,
        start.top.min_budget,
        &start.contexts,
        &start.context_names,
    )?;
    let chains = chains(alloc, file, &source_names, &threads, &thread_names)?;
    Ok(parts(alloc, start, threads, sources, orders, chains)?)
}

/// Reads the whole file.
fn walk(alloc: Global, file: &Table) -> Result<SystemParts, LoadFault>
    ensures { Gives (λ s. s) result (walk (table_view file.now)) }
{
    let start = base(alloc, file)?;
    others(alloc, file, start)
}

/// Reads the text of a file and returns the system that it describes.
///
/// The tests are made in one order: the text as TOML, keys and numbers at the top, then links,
/// contexts, notifications, servers, threads, sources, orders and chains, each array row by row.
///
/// Errors: the first fault of the walk, with its place, or
/// [`FaultKind::NoMemory`](crate::FaultKind::NoMemory) if an allocation failed before any later
/// fault.
pub fn load(alloc: Global, text: &[u8]) -> Result<System, LoadFault>
    ensures { Gives (λ s. s) result (file text.now) }
{
    let table = document(alloc, text)?;
    let parts = walk(alloc, &table)?;
    Ok(System::new(parts))
}

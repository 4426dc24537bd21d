//! Reads the script of a thread or a server.
#![tactic(auto, using(crate::proofs::Steps::steps), unfolding(crate::specs::Script::place_named, crate::specs::Script::named, crate::specs::Script::said, crate::specs::Script::read_item, crate::specs::Script::hears, crate::specs::Script::few_steps, crate::specs::Script::heard_item, crate::specs::Script::next_item, crate::specs::Script::no_bare_wait, crate::specs::Script::body, crate::specs::Script::script, crate::specs::Script::server_script))]

ghost use Rattle.std.specs.Prelude.{◌≡◌, ◌+◌, ◌<◌, ◌≤◌, ◌++◌, ◌∷◌, [], false, true, IfOk, OnOk, suc, length, map};
ghost use Rattle.toml.specs.View.{view, table_view, items_view};
ghost use Rattle.mcs_script.specs.Raw.{raw_view};
ghost use Rattle.mcs_load.specs.Checks.{Gives, Tells};
ghost use Rattle.mcs_load.specs.Words.{each_from};
ghost use Rattle.mcs_load.specs.Script.{core_of, server_at, place_named, named, read_text, said, read_item, hears, called, call_steps, first_step, steps_of, with_item, heard_item, few_steps, next_item, no_items_yet, first_bare, no_bare_wait, texts, body, script, server_script};
ghost use Rattle.mcs_load.specs.stored.Ready.{AreReady};
ghost use Rattle.mcs_load.specs.stored.Reading.{reading_view, IsWithin};

use crate::at::At;
use crate::fault::{FaultKind, LoadFault};
use crate::names::Names;
use crate::server::Server;
use crate::spot::Key;
use crate::values::find;
use mcs_script::{
    Item, RawItem, Script, read_item as read_old_text, read_new_item as read_new_text,
};
use mcs_system::NotePart;
use mcs_ticks::{CoreId, Limits, NoteId};
use std::alloc::{AllocError, Global};
use toml::{Table, Value};

/// The data that the items of a script are read with.
#[derive(Drop)]
pub(crate) struct Known<'k, 'a> {
    pub notes: &'k [NotePart],
    pub note_names: &'k Names<'a>,
    /// The servers that may be called.
    pub servers: &'k [Server],
    pub server_names: &'k Names<'a>,
    pub core: CoreId,
    pub priority: u8,
    /// Whether the file has version 3.
    pub is_new: bool,
    /// Whether the script is a server's.
    pub is_server: bool,
}

/// An item, with names resolved to numbers.
#[derive(Clone, Copy)]
enum Resolved {
    Step(Item),
    /// A call of the server at this index, with this badge.
    CallOf(usize, u32),
}

/// A script that is being read.
#[derive(Drop)]
struct Reading {
    /// The first step of each item.
    firsts: Vec<Item>,
    steps: Vec<Item>,
}

/// The index of a name. `UnknownName` if there is none.
fn place_named<'a>(
    at: At,
    number: usize,
    names: &Names<'a>,
    name: &'a str,
) -> Result<usize, LoadFault>
    ensures gives { Tells (λ n. n) result (place_named at number names.now name.now) }
    ensures within { IfOk result (λ n. n < length names.now) }
{
    names
        .find(name)
        .ok_or(at.item_fault(Key::Script, number, FaultKind::UnknownName))
}

/// The home core of a notification.
fn core_of(notes: &[NotePart], note: usize) -> CoreId
    requires { note < length notes.now }
    ensures { result ≡ core_of notes.now note }
{
    notes[note].core
}

fn core_of_server(servers: &[Server], place: usize) -> CoreId
    requires { place < length servers.now }
    ensures { result ≡ (server_at servers.now place).core }
{
    servers[place].core
}

/// Resolves the names of an item. `UnknownName` or, for a wait or a call on another core,
/// `OtherCore`.
fn named<'a>(
    at: At,
    number: usize,
    known: &Known<'_, 'a>,
    raw: RawItem<'a>,
) -> Result<Resolved, LoadFault>
    requires notes { known.now.note_names.now ≡ map (λ n. n.name) known.now.notes.now }
    requires servers { known.now.server_names.now ≡ map (λ s. s.name) known.now.servers.now }
    ensures within { IfOk result (λ item. IsWithin (length known.now.servers.now) item) }
    ensures gives { Tells (λ x. x) result
        (named known.now.notes.now known.now.servers.now known.now.core known.now.priority at number (raw_view raw.entry)) }
{
    let other = at.item_fault(Key::Script, number, FaultKind::OtherCore);
    match raw {
        RawItem::Compute(ticks) => Ok(Resolved::Step(Item::Compute(ticks))),
        RawItem::Signal(name, badge) => {
            let place = place_named(at, number, known.note_names, name)?;
            Ok(Resolved::Step(Item::Signal(NoteId(place), badge)))
        }
        RawItem::Wait(name) => {
            let place = place_named(at, number, known.note_names, name)?;
            if core_of(known.notes, place) != known.core {
                return Err(other);
            }
            Ok(Resolved::Step(Item::Wait(NoteId(place))))
        }
        RawItem::Yield => Ok(Resolved::Step(Item::Yield)),
        RawItem::On(badges) => Ok(Resolved::Step(Item::On(badges))),
        RawItem::Call(name, badge) => {
            let place = place_named(at, number, known.server_names, name)?;
            if core_of_server(known.servers, place) != known.core {
                return Err(other);
            }
            Ok(Resolved::CallOf(place, badge))
        }
        RawItem::Spin => Ok(Resolved::Step(Item::Spin)),
    }
}

/// Parses the text of an item. `BadItem` if it is none.
fn said(text: &str, at: At, number: usize, is_new: bool) -> Result<RawItem<'_>, LoadFault>
    ensures { Tells (λ raw. raw_view raw) result (said at number (read_text is_new text.now)) }
{
    let read = if is_new {
        read_new_text(text)
    } else {
        read_old_text(text)
    };
    match read {
        Ok(raw) => Ok(raw),
        Err(fault) => Err(at.item_fault(Key::Script, number, FaultKind::BadItem(fault))),
    }
}

/// Reads one value of the script's array.
fn read_item<'a>(
    value: &'a Value,
    at: At,
    number: usize,
    known: &Known<'_, 'a>,
) -> Result<Resolved, LoadFault>
    requires notes { known.now.note_names.now ≡ map (λ n. n.name) known.now.notes.now }
    requires servers { known.now.server_names.now ≡ map (λ s. s.name) known.now.servers.now }
    ensures within { IfOk result (λ item. IsWithin (length known.now.servers.now) item) }
    ensures gives { Tells (λ x. x) result
        (read_item known.now.notes.now known.now.servers.now known.now.core known.now.priority known.now.is_new at number
        (view value.now)) }
{
    let text = value
        .as_str()
        .ok_or(at.item_fault(Key::Script, number, FaultKind::WrongKind))?;
    let raw = said(text, at, number, known.is_new)?;
    named(at, number, known, raw)
}

/// Tests that a thread's script with a handler begins with a wait. A server's may begin with
/// anything.
fn hear(
    at: At,
    number: usize,
    is_server: bool,
    firsts: &[Item],
    item: &Resolved,
) -> Result<(), LoadFault>
    ensures { Tells (λ x. x) result (hears at number is_server firsts.now item.now) }
{
    let begins = matches!(*item, Resolved::Step(Item::On(_)));
    let listens = matches!(firsts.first(), Some(Item::Wait(_)));
    if is_server || !begins || listens {
        Ok(())
    } else {
        Err(at.item_fault(Key::Script, number, FaultKind::OnWithoutWait))
    }
}

/// Appends the steps that a call goes through in a server. Handlers without a bit of the badge are
/// passed over.
fn put_called(steps: &mut Vec<Item>, of_server: &[Item], badge: u32) -> Result<(), AllocError>
    ensures { OnOk result (steps.new.items ≡ steps.old.items ++ called badge false of_server.now) }
{
    let mut passes = false;
    for step in of_server {
        match *step {
            Item::On(badges) => passes = badge & badges == 0,
            _ if passes => {}
            _ => steps.push(*step)?,
        }
    }
    Ok(())
}

/// Appends a call: entering the server, its steps, and leaving it at this priority.
fn put_call(
    steps: &mut Vec<Item>,
    number: usize,
    server: &Server,
    badge: u32,
    priority: u8,
) -> Result<(), AllocError>
    ensures { OnOk result (steps.new.items ≡ steps.old.items ++ call_steps number server.now badge priority) }
{
    steps.push(Item::Enter(NoteId(number), server.priority))?;
    put_called(steps, server.steps.as_slice(), badge)?;
    steps.push(Item::Leave(NoteId(number), priority))?;
    Ok(())
}

/// The first step of an item.
fn first_step(item: &Resolved, known: &Known<'_, '_>) -> Item
    requires few { (length known.now.notes.now ≤ 4096) × (length known.now.servers.now ≤ 4096) }
    requires within { IsWithin (length known.now.servers.now) item.now }
    ensures { result
        ≡ first_step known.now.notes.now known.now.servers.now known.now.core known.now.priority item.now }
{
    match *item {
        Resolved::Step(step) => step,
        Resolved::CallOf(place, _) => {
            let number = known.notes.len() + place;
            Item::Enter(NoteId(number), known.servers[place].priority)
        }
    }
}

/// Appends the steps of an item.
fn put_steps(
    steps: &mut Vec<Item>,
    item: &Resolved,
    known: &Known<'_, '_>,
) -> Result<(), AllocError>
    requires few { (length known.now.notes.now ≤ 4096) × (length known.now.servers.now ≤ 4096) }
    requires within { IsWithin (length known.now.servers.now) item.now }
    ensures { OnOk result (steps.new.items
        ≡ steps.old.items
        ++ steps_of known.now.notes.now known.now.servers.now known.now.core known.now.priority item.now) }
{
    match *item {
        Resolved::Step(step) => {
            steps.push(step)?;
            Ok(())
        }
        Resolved::CallOf(place, badge) => {
            let number = known.notes.len() + place;
            put_call(steps, number, &known.servers[place], badge, known.priority)
        }
    }
}

/// Reads item `number`, from 1, and tests that it may follow the earlier ones.
fn heard_item<'a>(
    value: &'a Value,
    at: At,
    number: usize,
    known: &Known<'_, 'a>,
    firsts: &[Item],
) -> Result<Resolved, LoadFault>
    requires number { number ≡ suc (length firsts.now) }
    requires notes { known.now.note_names.now ≡ map (λ n. n.name) known.now.notes.now }
    requires servers { known.now.server_names.now ≡ map (λ s. s.name) known.now.servers.now }
    ensures within { IfOk result (λ item. IsWithin (length known.now.servers.now) item) }
    ensures gives { Tells (λ x. x) result
        (heard_item known.now.notes.now known.now.servers.now known.now.core known.now.priority known.now.is_new
        known.now.is_server at firsts.now (view value.now)) }
{
    let item = read_item(value, at, number, known)?;
    hear(at, number, known.is_server, firsts, &item)?;
    Ok(item)
}

/// Tests that a script has at most 1,024 steps. `TooMany` if it has more.
fn few_steps(at: At, number: usize, count: usize) -> Result<(), LoadFault>
    ensures { Tells (λ x. x) result (few_steps at number count) }
{
    if count <= Limits::ITEMS {
        Ok(())
    } else {
        Err(at.item_fault(Key::Script, number, FaultKind::TooMany))
    }
}

/// Appends an item and its steps.
fn put_item(reading: &mut Reading, item: &Resolved, known: &Known<'_, '_>) -> Result<(), AllocError>
    requires few { (length known.now.notes.now ≤ 4096) × (length known.now.servers.now ≤ 4096) }
    requires within { IsWithin (length known.now.servers.now) item.now }
    ensures { OnOk result (reading_view reading.new
        ≡ with_item known.now.notes.now known.now.servers.now known.now.core known.now.priority (reading_view reading.old)
        item.now) }
{
    let first = first_step(item, known);
    reading.firsts.push(first)?;
    put_steps(&mut reading.steps, item, known)
}

/// Reads item `number`, from 1, and appends its steps.
fn read_next<'a>(
    value: &'a Value,
    at: At,
    number: usize,
    known: &Known<'_, 'a>,
    reading: &mut Reading,
) -> Result<(), LoadFault>
    requires number { number ≡ suc (length reading.old.firsts.items) }
    requires few { (length known.now.notes.now ≤ 4096) × (length known.now.servers.now ≤ 4096) }
    requires notes { known.now.note_names.now ≡ map (λ n. n.name) known.now.notes.now }
    requires servers { known.now.server_names.now ≡ map (λ s. s.name) known.now.servers.now }
    ensures count { IfOk result (λ _. length reading.new.firsts.items ≡ length reading.old.firsts.items + 1) }
    ensures gives { Gives (λ _. reading_view reading.new) result
        (next_item known.now.notes.now known.now.servers.now known.now.core known.now.priority known.now.is_new
        known.now.is_server at (reading_view reading.old) (view value.now)) }
{
    let item = heard_item(value, at, number, known, &reading.firsts)?;
    put_item(reading, &item, known)?;
    few_steps(at, number, reading.steps.len())?;
    Ok(())
}

/// Reads all items in order.
fn read_items<'a>(
    alloc: Global,
    values: &'a [Value],
    at: At,
    known: &Known<'_, 'a>,
) -> Result<Reading, LoadFault>
    requires count { length values.now ≤ 1024 }
    requires few { (length known.now.notes.now ≤ 4096) × (length known.now.servers.now ≤ 4096) }
    requires notes { known.now.note_names.now ≡ map (λ n. n.name) known.now.notes.now }
    requires servers { known.now.server_names.now ≡ map (λ s. s.name) known.now.servers.now }
    ensures { Gives (λ reading. reading_view reading) result
        (each_from (next_item known.now.notes.now known.now.servers.now known.now.core known.now.priority known.now.is_new
        known.now.is_server at) no_items_yet (items_view values.now)) }
{
    let mut reading = Reading {
        firsts: Vec::with_capacity(alloc, values.len())?,
        steps: Vec::with_capacity(alloc, values.len())?,
    };
    for (i, value) in values.iter().enumerate() {
        read_next(value, at, i + 1, known, &mut reading)?;
    }
    Ok(reading)
}

/// Returns the array at the key `script`, with 1 to 1,024 items.
#[tactic(auto, using(crate::proofs::Members::item_count_view), unfolding(crate::specs::Script::texts))]
fn texts(row: &Table, at: At) -> Result<&[Value], LoadFault>
    ensures gives { Tells (λ v. items_view v.now) result (texts at (table_view row.now)) }
    ensures count { IfOk result (λ v. (1 ≤ length v.now) × (length v.now ≤ 1024)) }
{
    let value = find(row, Key::Script).ok_or(at.fault(Key::Script, FaultKind::MissingKey))?;
    let values = value
        .as_array()
        .ok_or(at.fault(Key::Script, FaultKind::WrongKind))?;
    if values.is_empty() {
        return Err(at.fault(Key::Script, FaultKind::OutOfRange));
    }
    if values.len() > Limits::ITEMS {
        return Err(at.fault(Key::Script, FaultKind::TooMany));
    }
    Ok(values.as_slice())
}

/// Reads the array at the key `script` and its items.
fn body<'a>(
    alloc: Global,
    row: &'a Table,
    at: At,
    known: &Known<'_, 'a>,
) -> Result<Reading, LoadFault>
    requires few { (length known.now.notes.now ≤ 4096) × (length known.now.servers.now ≤ 4096) }
    requires notes { known.now.note_names.now ≡ map (λ n. n.name) known.now.notes.now }
    requires servers { known.now.server_names.now ≡ map (λ s. s.name) known.now.servers.now }
    ensures { Gives (λ reading. reading_view reading) result
        (body known.now.notes.now known.now.servers.now known.now.core known.now.priority known.now.is_new
        known.now.is_server at (table_view row.now)) }
{
    let values = texts(row, at)?;
    read_items(alloc, values, at, known)
}

/// Tests that no wait is at the end of a script or directly before a handler. The first of several
/// items may be one.
fn no_bare_wait(at: At, firsts: &[Item]) -> Result<(), LoadFault>
    ensures { Tells (λ x. x) result (no_bare_wait at (first_bare firsts.now)) }
{
    match Script::bare_wait(firsts) {
        Some(bare) => Err(at.item_fault(Key::Script, bare + 1, FaultKind::WaitLast)),
        None => Ok(()),
    }
}

/// Reads the script of a thread.
pub(crate) fn script<'a>(
    alloc: Global,
    row: &'a Table,
    at: At,
    known: &Known<'_, 'a>,
) -> Result<Script, LoadFault>
    requires of_thread { known.now.is_server ≡ false }
    requires ready { AreReady known.now.notes.now known.now.servers.now }
    requires few { (length known.now.notes.now ≤ 4096) × (length known.now.servers.now ≤ 4096) }
    requires notes { known.now.note_names.now ≡ map (λ n. n.name) known.now.notes.now }
    requires servers { known.now.server_names.now ≡ map (λ s. s.name) known.now.servers.now }
    ensures { Gives (λ s. s) result
        (script known.now.notes.now known.now.servers.now known.now.core known.now.priority known.now.is_new at
        (table_view row.now)) }
{
    let reading = body(alloc, row, at, known)?;
    no_bare_wait(at, &reading.firsts)?;
    Ok(Script::new(reading.steps).unwrap())
}

/// Reads the steps of a server's script.
pub(crate) fn server_script<'a>(
    alloc: Global,
    row: &'a Table,
    at: At,
    known: &Known<'_, 'a>,
) -> Result<Vec<Item>, LoadFault>
    requires of_server { known.now.is_server ≡ true }
    requires is_new { known.now.is_new ≡ true }
    requires few { (length known.now.notes.now ≤ 4096) × (length known.now.servers.now ≤ 4096) }
    requires notes { known.now.note_names.now ≡ map (λ n. n.name) known.now.notes.now }
    requires servers { known.now.server_names.now ≡ map (λ s. s.name) known.now.servers.now }
    ensures { Gives (λ v. v.items) result
        (server_script known.now.notes.now known.now.servers.now known.now.core known.now.priority at (table_view row.now)) }
{
    let reading = body(alloc, row, at, known)?;
    Ok(reading.steps)
}

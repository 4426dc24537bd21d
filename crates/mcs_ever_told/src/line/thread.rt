//! Lines about a thread as JSON objects.
ghost use Rattle.std.specs.Prelude.{◌≡◌, ◌++◌, ◌∷◌, [], OnOk, OnErr, codes};
ghost use Rattle.mcs_fields.specs.Fields.{name, object_text, value_of};
ghost use Rattle.mcs_ever_told.specs.declared.line.Line.TheVariants.{Computes, Endless, Inactive, ThreadSoFar};
ghost use Rattle.mcs_ever_told.specs.Fields.{known, line_fields, throttled_value};

use mcs_fields::{Cell, put_object};
use mcs_system::System;
use mcs_text::thread_name;
use mcs_ticks::{NoMemory, ThreadId, Tick};
use std::alloc::Global;

fn known<'s>(number: Option<u64>) -> Cell<'s>
    ensures { value_of result ≡ known number }
{
    match number {
        Some(number) => Cell::Number(number),
        None => Cell::Empty,
    }
}

fn known_moment<'s>(moment: Option<Tick>) -> Cell<'s>
    ensures { value_of result ≡ known moment }
{
    match moment {
        Some(moment) => Cell::Number(moment.get()),
        None => Cell::Empty,
    }
}

fn throttled<'s>(never_throttled: bool) -> Cell<'s>
    ensures { value_of result ≡ throttled_value never_throttled }
{
    if never_throttled {
        Cell::Name("never")
    } else {
        Cell::Empty
    }
}

pub(crate) fn put_thread(
    alloc: Global,
    text: &mut Vec<u8>,
    thread: &str,
    greatest: Option<u64>,
    never_throttled: bool,
    silent_from: Option<Tick>,
) -> Result<(), NoMemory>
    ensures ok { OnOk result (text.new.items ≡ text.old.items ++ object_text
        ((codes "kind", name (codes "thread")) ∷ (codes "thread", name thread.now) ∷ (codes "greatest", known greatest)
        ∷ (codes "throttled", throttled_value never_throttled) ∷ (codes "ends_no_round_from", known silent_from) ∷ [])) }
    ensures err { OnErr result (text.new.items ≡ text.old.items) }
{
    let fields = [
        ("kind", Cell::Name("thread")),
        ("thread", Cell::Name(thread)),
        ("greatest", known(greatest)),
        ("throttled", throttled(never_throttled)),
        ("ends_no_round_from", known_moment(silent_from)),
    ];
    put_object(alloc, text, &fields)
}

pub(crate) fn put_computes(
    alloc: Global,
    text: &mut Vec<u8>,
    system: &System,
    thread: ThreadId,
    never_throttled: bool,
) -> Result<(), NoMemory>
    ensures ok { OnOk result (text.new.items ≡ text.old.items ++ object_text (line_fields system.now (Computes thread never_throttled))) }
    ensures err { OnErr result (text.new.items ≡ text.old.items) }
{
    let never = throttled(never_throttled);
    let fields = [
        ("kind", Cell::Name("computes")),
        ("thread", Cell::Name(thread_name(system, thread))),
        ("throttled", never),
    ];
    put_object(alloc, text, &fields)
}

pub(crate) fn put_so_far(
    alloc: Global,
    text: &mut Vec<u8>,
    system: &System,
    thread: ThreadId,
    greatest: Option<u64>,
) -> Result<(), NoMemory>
    ensures ok { OnOk result (text.new.items ≡ text.old.items ++ object_text (line_fields system.now (ThreadSoFar thread greatest))) }
    ensures err { OnErr result (text.new.items ≡ text.old.items) }
{
    let fields = [
        ("kind", Cell::Name("thread_so_far")),
        ("thread", Cell::Name(thread_name(system, thread))),
        ("greatest", known(greatest)),
    ];
    put_object(alloc, text, &fields)
}

pub(crate) fn put_endless(
    alloc: Global,
    text: &mut Vec<u8>,
    system: &System,
    thread: ThreadId,
    number: u64,
    activated: Tick,
) -> Result<(), NoMemory>
    ensures ok { OnOk result (text.new.items ≡ text.old.items ++ object_text (line_fields system.now (Endless thread number activated))) }
    ensures err { OnErr result (text.new.items ≡ text.old.items) }
{
    let fields = [
        ("kind", Cell::Name("overdue")),
        ("thread", Cell::Name(thread_name(system, thread))),
        ("number", Cell::Number(number)),
        ("activated", Cell::Number(activated.get())),
    ];
    put_object(alloc, text, &fields)
}

pub(crate) fn put_inactive(
    alloc: Global,
    text: &mut Vec<u8>,
    system: &System,
    thread: ThreadId,
) -> Result<(), NoMemory>
    ensures ok { OnOk result (text.new.items ≡ text.old.items ++ object_text (line_fields system.now (Inactive thread))) }
    ensures err { OnErr result (text.new.items ≡ text.old.items) }
{
    let fields = [
        ("kind", Cell::Name("never")),
        ("thread", Cell::Name(thread_name(system, thread))),
    ];
    put_object(alloc, text, &fields)
}

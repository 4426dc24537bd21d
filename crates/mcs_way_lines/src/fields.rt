//! The values of the lines of a way.
ghost use Rattle.std.specs.Prelude.{◌≡◌, map};
ghost use Rattle.mcs_fields.specs.Fields.{field_of};
ghost use Rattle.mcs_way_lines.specs.Lines.{fields_by, leg_fields, sum_fields};

use crate::words::core_by;
use mcs_fields::{Cell, Field};
use mcs_system::System;
use mcs_text::{note_name, thread_name};
use mcs_ticks::{CoreId, NoteId, ThreadId};
use mcs_verdict::Stood;
use mcs_way::{Carrier, Leg, Sums};

fn note_fields<'s>(system: &'s System, leg: &Leg, note: NoteId) -> [Field<'s>; 13]
    ensures { map field_of result ≡ fields_by system.now leg.now (Carrier.Note note) }
{
    [
        ("moment", Cell::Number(leg.from.get())),
        (
            "core",
            Cell::Number(core_by(system, &Carrier::Note(note)).0 as u64),
        ),
        ("kind", Cell::Name("held")),
        ("thread", Cell::Empty),
        ("note", Cell::Name(note_name(system, note))),
        ("home", Cell::Empty),
        ("to", Cell::Number(leg.to.get())),
        ("ticks", Cell::Number(leg.ticks())),
        ("ready", Cell::Empty),
        ("running", Cell::Empty),
        ("throttled", Cell::Empty),
        ("blocked", Cell::Empty),
        ("server", Cell::Empty),
    ]
}

fn thread_fields<'s>(
    system: &'s System,
    leg: &Leg,
    thread: ThreadId,
    stood: Stood,
) -> [Field<'s>; 13]
    ensures { map field_of result ≡ fields_by system.now leg.now (Carrier.Thread thread stood) }
{
    let core = core_by(system, &Carrier::Thread(thread, stood));
    [
        ("moment", Cell::Number(leg.from.get())),
        ("core", Cell::Number(core.0 as u64)),
        ("kind", Cell::Name("ran")),
        ("thread", Cell::Name(thread_name(system, thread))),
        ("note", Cell::Empty),
        ("home", Cell::Empty),
        ("to", Cell::Number(leg.to.get())),
        ("ticks", Cell::Number(leg.ticks())),
        ("ready", Cell::Number(stood.ready)),
        ("running", Cell::Number(stood.running)),
        ("throttled", Cell::Number(stood.throttled)),
        ("blocked", Cell::Number(stood.blocked)),
        ("server", Cell::Number(stood.server)),
    ]
}

fn signal_fields<'s>(system: &'s System, leg: &Leg, maker: CoreId, home: CoreId) -> [Field<'s>; 13]
    ensures { map field_of result ≡ fields_by system.now leg.now (Carrier.Signal maker home) }
{
    let core = core_by(system, &Carrier::Signal(maker, home));
    [
        ("moment", Cell::Number(leg.from.get())),
        ("core", Cell::Number(core.0 as u64)),
        ("kind", Cell::Name("delay")),
        ("thread", Cell::Empty),
        ("note", Cell::Empty),
        ("home", Cell::Number(home.0 as u64)),
        ("to", Cell::Number(leg.to.get())),
        ("ticks", Cell::Number(leg.ticks())),
        ("ready", Cell::Empty),
        ("running", Cell::Empty),
        ("throttled", Cell::Empty),
        ("blocked", Cell::Empty),
        ("server", Cell::Empty),
    ]
}

/// The values of a leg.
pub(crate) fn leg_fields<'s>(system: &'s System, leg: &Leg) -> [Field<'s>; 13]
    ensures { map field_of result ≡ leg_fields system.now leg.now }
{
    match leg.carrier {
        Carrier::Note(note) => note_fields(system, leg, note),
        Carrier::Thread(thread, stood) => thread_fields(system, leg, thread, stood),
        Carrier::Signal(maker, home) => signal_fields(system, leg, maker, home),
    }
}

/// The values of the sums.
pub(crate) fn sum_fields(sums: &Sums) -> [Field<'static>; 9]
    ensures { map field_of result ≡ sum_fields sums.now }
{
    [
        ("kind", Cell::Name("sum")),
        ("ticks", Cell::Number(sums.ticks)),
        ("held", Cell::Number(sums.held)),
        ("delay", Cell::Number(sums.delay)),
        ("ready", Cell::Number(sums.ready)),
        ("running", Cell::Number(sums.running)),
        ("throttled", Cell::Number(sums.throttled)),
        ("blocked", Cell::Number(sums.blocked)),
        ("server", Cell::Number(sums.server)),
    ]
}

//! Lines as JSON objects.
ghost use Rattle.std.specs.Prelude.{◌≡◌, ◌++◌, ◌∷◌, [], OnOk, OnErr, codes};
ghost use Rattle.mcs_fields.specs.Fields.{name, object_text, value_of};
ghost use Rattle.mcs_ever_told.specs.Fields.{known, often_fields};
ghost use Rattle.mcs_ever_chain_lines.specs.Lines.{chain_name, deadline_value, due_value, fields_by, open_fields, repeats_fields};

use crate::findings::times_of;
use crate::text::chain_name;
use mcs_chain::ChainId;
use mcs_ever_chain::ChainTold;
use mcs_ever_told::{Often, Period};
use mcs_fields::{Cell, put_object};
use mcs_system::System;
use mcs_ticks::{NoMemory, Tick};
use std::alloc::Global;

fn known<'s>(number: Option<u64>) -> Cell<'s>
    ensures { value_of result ≡ known number }
{
    match number {
        Some(number) => Cell::Number(number),
        None => Cell::Empty,
    }
}

/// A deadline; 0 means that there is none.
fn due<'s>(deadline: u64) -> Cell<'s>
    ensures { value_of result ≡ due_value deadline }
{
    if deadline == 0 {
        Cell::Empty
    } else {
        Cell::Number(deadline)
    }
}

/// The deadline of a chain, if there is one.
fn deadline_of<'s>(system: &System, chain: ChainId) -> Cell<'s>
    ensures { value_of result ≡ deadline_value system.now chain }
{
    match system.parts().chains.as_slice().get(chain.0) {
        Some(part) => due(part.deadline),
        None => Cell::Empty,
    }
}

/// Appends the object of a chain. If memory runs out, the text is unchanged.
pub(crate) fn put_chain_object(
    alloc: Global,
    text: &mut Vec<u8>,
    system: &System,
    horizon: Tick,
    told: &ChainTold,
) -> Result<(), NoMemory>
    ensures ok { OnOk result
        (text.new.items ≡ text.old.items ++ object_text (fields_by system.now horizon told.now told.now.period)) }
    ensures err { OnErr result (text.new.items ≡ text.old.items) }
{
    match &told.period {
        Some(period) => put_repeats(alloc, text, system, told, period),
        None => put_open(alloc, text, system, horizon, told),
    }
}

/// Appends the object of a chain whose answers recur.
fn put_repeats(
    alloc: Global,
    text: &mut Vec<u8>,
    system: &System,
    told: &ChainTold,
    period: &Period,
) -> Result<(), NoMemory>
    ensures ok { OnOk result
        (text.new.items ≡ text.old.items ++ object_text (repeats_fields system.now told.now period.now)) }
    ensures err { OnErr result (text.new.items ≡ text.old.items) }
{
    let fields = [
        ("kind", Cell::Name("chain")),
        ("chain", Cell::Name(chain_name(system, told.chain))),
        ("from", Cell::Number(period.from.get())),
        ("period", Cell::Number(period.ticks)),
        ("greatest", known(told.greatest)),
        ("answers", Cell::Number(times_of(&told.answers))),
        ("deadline", deadline_of(system, told.chain)),
    ];
    put_object(alloc, text, &fields)
}

/// Appends the object of a chain that was not found to recur.
fn put_open(
    alloc: Global,
    text: &mut Vec<u8>,
    system: &System,
    horizon: Tick,
    told: &ChainTold,
) -> Result<(), NoMemory>
    ensures ok { OnOk result
        (text.new.items ≡ text.old.items ++ object_text (open_fields system.now horizon told.now)) }
    ensures err { OnErr result (text.new.items ≡ text.old.items) }
{
    let fields = [
        ("kind", Cell::Name("chain")),
        ("chain", Cell::Name(chain_name(system, told.chain))),
        ("horizon", Cell::Number(horizon.get())),
        ("greatest", known(told.greatest)),
        ("answers", Cell::Number(times_of(&told.answers))),
        ("deadline", deadline_of(system, told.chain)),
    ];
    put_object(alloc, text, &fields)
}

/// Appends the object of a finding of a chain: what is found, and how often. If memory runs out,
/// the text is unchanged.
pub(crate) fn put_finding_object<'s>(
    alloc: Global,
    text: &mut Vec<u8>,
    system: &'s System,
    kind: &'s str,
    chain: ChainId,
    often: &Often,
) -> Result<(), NoMemory>
    ensures ok { OnOk result (text.new.items ≡ text.old.items ++ object_text
        ((codes "kind", name kind.now) ∷ (codes "chain", name (chain_name system.now chain)) ∷ often_fields often.now)) }
    ensures err { OnErr result (text.new.items ≡ text.old.items) }
{
    let kind = ("kind", Cell::Name(kind));
    let named = ("chain", Cell::Name(chain_name(system, chain)));
    match *often {
        Often::Forever {
            before,
            each_period,
        } => {
            let each_period = ("each_period", Cell::Number(each_period));
            let before = ("before", Cell::Number(before));
            put_object(alloc, text, &[kind, named, each_period, before])
        }
        Often::SoFar { times } => {
            let so_far = ("so_far", Cell::Number(times));
            put_object(alloc, text, &[kind, named, so_far])
        }
    }
}

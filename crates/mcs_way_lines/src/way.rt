ghost use Rattle.std.specs.Prelude.{◌≡◌, ◌++◌, flat_map, OnOk};
ghost use Rattle.mcs_fields.specs.Fields.{object_text};
ghost use Rattle.mcs_way_lines.specs.Lines.{leg_object, leg_text, sum_fields, way_objects, way_text};

use crate::fields::{leg_fields, sum_fields};
use crate::words::{append_leg, append_sum};
use mcs_fields::put_object;
use mcs_system::System;
use mcs_ticks::NoMemory;
use mcs_way::{Leg, Sums, sums_of};
use std::alloc::Global;

fn append_legs(text: &mut Vec<u8>, system: &System, way: &[Leg]) -> Result<(), NoMemory>
    ensures { OnOk result (text.new.items ≡ text.old.items ++ flat_map (leg_text system.now) way.now) }
{
    for leg in way {
        append_leg(text, system, leg)?;
    }
    Ok(())
}

/// Appends the lines of a way as text: each leg, and the sums of their ticks. On `NoMemory` a first
/// part may have been appended.
pub fn put_way(text: &mut Vec<u8>, system: &System, way: &[Leg]) -> Result<(), NoMemory>
    ensures { OnOk result (text.new.items ≡ text.old.items ++ way_text system.now way.now) }
{
    append_legs(text, system, way)?;
    append_sum(text, &sums_of(way))?;
    Ok(())
}

fn put_leg_object(
    alloc: Global,
    text: &mut Vec<u8>,
    system: &System,
    leg: &Leg,
) -> Result<(), NoMemory>
    ensures { OnOk result (text.new.items ≡ text.old.items ++ leg_object system.now leg.now) }
{
    put_object(alloc, text, leg_fields(system, leg).as_slice())
}

fn append_objects(
    alloc: Global,
    text: &mut Vec<u8>,
    system: &System,
    way: &[Leg],
) -> Result<(), NoMemory>
    ensures { OnOk result (text.new.items ≡ text.old.items ++ flat_map (leg_object system.now) way.now) }
{
    for leg in way {
        put_leg_object(alloc, text, system, leg)?;
    }
    Ok(())
}

fn put_sum_object(alloc: Global, text: &mut Vec<u8>, sums: &Sums) -> Result<(), NoMemory>
    ensures { OnOk result (text.new.items ≡ text.old.items ++ object_text (sum_fields sums.now)) }
{
    put_object(alloc, text, sum_fields(sums).as_slice())
}

/// Appends the lines of a way as JSON objects: each leg, and the sums of their ticks. On `NoMemory`
/// a first part may have been appended.
pub fn put_way_objects(
    alloc: Global,
    text: &mut Vec<u8>,
    system: &System,
    way: &[Leg],
) -> Result<(), NoMemory>
    ensures { OnOk result (text.new.items ≡ text.old.items ++ way_objects system.now way.now) }
{
    append_objects(alloc, text, system, way)?;
    put_sum_object(alloc, text, &sums_of(way))?;
    Ok(())
}

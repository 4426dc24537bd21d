//! The notifications at which lost signals are allowed.
ghost use Rattle.std.specs.Prelude.{◌≡◌, map, IfOk, OnOk, OnErr, IfErr, IfSome, IsSome, None, option_map, string_bytes};
ghost use Rattle.std.specs.List.{list_any};
ghost use Rattle.std.specs.Str.{bytes_eq};
ghost use Rattle.mcs_check_run.specs.Allowed.{IsUnknownFault, first_unknown, flags_of, is_known, is_named, nearest_from, nearest_of, notifications};

use crate::{CheckFault, is_short, nearer};
use mcs_system::{NotePart, SystemParts};
use mcs_ticks::NoMemory;
use std::alloc::{AllocError, Global};

/// Returns for each notification whether its name is among `names`. `NoMemory` if memory runs out.
pub fn flags_of(alloc: Global, parts: &SystemParts, names: &[String]) -> Result<Vec<bool>, NoMemory>
    ensures { IfOk result (λ flags. flags.items ≡ flags_of (map (λ name. string_bytes name) names.now) parts.now.notes) }
{
    let notes = parts.notes.as_slice().iter();
    let flags = notes
        .map(|part| is_named(names, part.name.as_str()))
        .collect(alloc)?;
    Ok(flags)
}

/// Whether the name is among `names`.
fn is_named(names: &[String], name: &str) -> bool
    ensures { result ≡ is_named (map (λ name. string_bytes name) names.now) name.now }
{
    is_among(names, name)
}

fn is_among(names: &[String], name: &str) -> bool
    ensures { result ≡ list_any (λ other. bytes_eq (string_bytes other) name.now) names.now }
{
    names.iter().any(|other| other.as_str() == name)
}

/// The notifications of a system: its notes without the servers, which come last.
fn notifications(parts: &SystemParts) -> &[NotePart]
    ensures { result.now ≡ notifications parts.now }
{
    let notes = parts.notes.as_slice();
    &notes[..notes.len().saturating_sub(parts.servers)]
}

/// Whether a notification has this name.
fn is_known(notes: &[NotePart], name: &str) -> bool
    ensures { result ≡ is_known notes.now name.now }
{
    notes.iter().any(|part| part.name.as_str() == name)
}

/// Refuses the first name that no notification has. `Unknown` has it and the nearest name of a
/// notification; `Sim` means that there was no memory for these texts.
pub fn refuse_unknown(
    alloc: Global,
    parts: &SystemParts,
    names: &[String],
) -> Result<(), CheckFault>
    ensures known { OnOk result (first_unknown (notifications parts.now) (map (λ name. string_bytes name) names.now) ≡ None) }
    ensures unknown { IfErr result (λ fault. IfSome (first_unknown (notifications parts.now) (map (λ name. string_bytes name) names.now))
        (λ name. IsUnknownFault (notifications parts.now) name fault)) }
    ensures some { OnErr result (IsSome (first_unknown (notifications parts.now) (map (λ name. string_bytes name) names.now))) }
{
    let notes = notifications(parts);
    for name in names {
        if !is_known(notes, name.as_str()) {
            return Err(unknown(alloc, notes, name.as_str()));
        }
    }
    Ok(())
}

/// The fault of a name that no notification has, or `Sim` if memory runs out.
fn unknown(alloc: Global, notes: &[NotePart], name: &str) -> CheckFault
    ensures { IsUnknownFault notes.now name.now result }
{
    match told(alloc, notes, name) {
        Ok((name, nearest)) => CheckFault::Unknown { name, nearest },
        Err(refusal) => CheckFault::from(refusal),
    }
}

/// The name and the nearest name of a notification.
fn told(
    alloc: Global,
    notes: &[NotePart],
    name: &str,
) -> Result<(String, Option<String>), AllocError>
    ensures { IfOk result (λ t. (string_bytes t.0 ≡ name.now) × (option_map string_bytes t.1 ≡ nearest_of notes.now name.now)) }
{
    let nearest = match nearest(alloc, notes, name)? {
        Some(near) => Some(String::from_str(alloc, near)?),
        None => None,
    };
    Ok((String::from_str(alloc, name)?, nearest))
}

/// The nearest name of a notification, the first of equally near ones. `None` if the given name is
/// not short, since comparing a long text takes long.
fn nearest<'a>(
    alloc: Global,
    notes: &'a [NotePart],
    name: &str,
) -> Result<Option<&'a str>, AllocError>
    ensures { IfOk result (λ near. option_map (λ n. n.now) near ≡ nearest_of notes.now name.now) }
{
    if is_short(name) {
        nearest_of_all(alloc, notes, name)
    } else {
        Ok(None)
    }
}

/// The nearest of the names of all notifications.
fn nearest_of_all<'a>(
    alloc: Global,
    notes: &'a [NotePart],
    name: &str,
) -> Result<Option<&'a str>, AllocError>
    ensures { IfOk result (λ near. option_map (λ n. n.now) near ≡ nearest_from name.now None notes.now) }
{
    let mut near = None;
    for part in notes {
        near = Some(nearer(alloc, name, near, part.name.as_str())?);
    }
    Ok(near)
}

//! Reading keys, rows and arrays of the tree.
#![tactic(auto, using(crate::proofs::Steps::steps, crate::proofs::Members::item_count_view), unfolding(crate::specs::Words::number, crate::specs::Words::whole_number, crate::specs::Words::number_with_default, crate::specs::Words::text, crate::specs::Words::row_table, crate::specs::Words::only_keys, crate::specs::Words::new_name, crate::specs::Words::rows, crate::specs::Walk::known, crate::specs::Walk::known_name))]

ghost use Rattle.std.specs.Prelude.{◌≡◌, ◌<◌, ◌≤◌, false, length, option_map, Option, IfOk, [], ◌∷◌, ◌++◌};
ghost use Rattle.toml.specs.Data.{get_member};
ghost use Rattle.toml.specs.View.{view, table_view, items_view};
ghost use Rattle.mcs_load.specs.Keys.{key_name};
ghost use Rattle.mcs_load.specs.Checks.{Gives, Tells};
ghost use Rattle.mcs_load.specs.Words.{has_only, is_listed, only_keys, number, whole_number, number_with_default, text, row_table, new_name, rows, is_among};
ghost use Rattle.mcs_load.specs.Walk.{known, known_name};

use crate::at::At;
use crate::fault::{FaultKind, LoadFault};
use crate::key::name_of;
use crate::names::Names;
use crate::spot::{Key, Section};
use mcs_system::Name;
use mcs_ticks::Limits;
use toml::{Table, Value};

/// Maximum number of rows of an array of tables.
const MOST_ROWS: usize = Limits::CONTEXTS;

/// The value at a key.
pub(crate) fn find(table: &Table, key: Key) -> Option<&Value>
    ensures { option_map (λ v. view v.now) result ≡ get_member (key_name key) (table_view table.now) }
{
    table.get(name_of(key))
}

/// Returns the whole number found at a key, or the default if `found` is `None`. It lies in
/// `least..=most`.
fn number(
    found: Option<&Value>,
    at: At,
    key: Key,
    least: u64,
    most: u64,
    default: u64,
) -> Result<u64, LoadFault>
    requires { (least ≤ default) × (default ≤ most) }
    ensures in_range { IfOk result (λ n. (least ≤ n) × (n ≤ most)) }
    ensures gives { Tells (λ n. n) result
        (number at key least most default (option_map (λ v. view v.now) found.entry)) }
{
    let Some(value) = found else {
        return Ok(default);
    };
    let number = value
        .as_integer()
        .ok_or(at.fault(key, FaultKind::WrongKind))?;
    match u64::try_from(number) {
        Ok(number) if least <= number && number <= most => Ok(number),
        _ => Err(at.fault(key, FaultKind::OutOfRange)),
    }
}

/// Returns the whole number at a required key.
pub(crate) fn whole_number(
    table: &Table,
    at: At,
    key: Key,
    least: u64,
    most: u64,
) -> Result<u64, LoadFault>
    requires { least ≤ most }
    ensures in_range { IfOk result (λ n. (least ≤ n) × (n ≤ most)) }
    ensures gives { Tells (λ n. n) result (whole_number at key least most (table_view table.now)) }
{
    let value = find(table, key).ok_or(at.fault(key, FaultKind::MissingKey))?;
    number(Some(value), at, key, least, most, least)
}

/// Returns the whole number at a key, or the default if the key is absent.
pub(crate) fn number_with_default(
    table: &Table,
    at: At,
    key: Key,
    least: u64,
    most: u64,
    default: u64,
) -> Result<u64, LoadFault>
    requires { (least ≤ default) × (default ≤ most) }
    ensures in_range { IfOk result (λ n. (least ≤ n) × (n ≤ most)) }
    ensures gives { Tells (λ n. n) result (number_with_default at key least most default (table_view table.now)) }
{
    number(find(table, key), at, key, least, most, default)
}

/// Returns the text at a required key.
pub(crate) fn text(table: &Table, at: At, key: Key) -> Result<&str, LoadFault>
    ensures { Tells (λ s. s.now) result (text at key (table_view table.now)) }
{
    let value = find(table, key).ok_or(at.fault(key, FaultKind::MissingKey))?;
    match value.as_str() {
        Some(text) => Ok(text),
        None => Err(at.fault(key, FaultKind::WrongKind)),
    }
}

/// Returns the row as a table.
pub(crate) fn row_table(row: &Value, at: At) -> Result<&Table, LoadFault>
    ensures { Tells (λ t. table_view t.now) result (row_table at (view row.now)) }
{
    match row.as_table() {
        Some(table) => Ok(table),
        None => Err(at.fault(Key::Whole, FaultKind::WrongKind)),
    }
}

/// Whether the name is one of the keys'.
fn is_listed(name: &str, keys: &[Key]) -> bool
    ensures { result ≡ is_listed keys.now name.now }
{
    keys.iter().any(|key| name_of(*key) == name)
}

/// Whether each name of the table is one of the keys'.
fn has_only(table: &Table, keys: &[Key]) -> bool
    ensures { result ≡ has_only keys.now (table_view table.now) }
{
    'names: for (name, _value) in table.iter() {
        if !is_listed(name.as_str(), keys) {
            return false;
        }
    }
    true
}

/// Tests that the table has only these keys.
pub(crate) fn only_keys(table: &Table, at: At, keys: &[Key]) -> Result<(), LoadFault>
    ensures { Tells (λ x. x) result (only_keys at keys.now (table_view table.now)) }
{
    if has_only(table, keys) {
        Ok(())
    } else {
        Err(at.fault(Key::Other, FaultKind::UnknownKey))
    }
}

/// Returns the name of a row, and appends it to `earlier`. It must be a valid name that is new.
pub(crate) fn new_name<'a>(
    table: &'a Table,
    at: At,
    earlier: &mut Names<'a>,
) -> Result<&'a str, LoadFault>
    ensures gives { Gives (λ s. s.now) result (new_name at earlier.old (table_view table.now)) }
    ensures kept { IfOk result (λ s. earlier.new ≡ earlier.old ++ s.now ∷ []) }
{
    let name = text(table, at, Key::Name)?;
    if !Name::accepts(name) {
        return Err(at.fault(Key::Name, FaultKind::BadName));
    }
    if !earlier.insert(name)? {
        return Err(at.fault(Key::Name, FaultKind::DoubleName));
    }
    Ok(name)
}

/// Returns the name of a row. It must be valid and in neither list.
pub(crate) fn unused_name<'a>(
    table: &'a Table,
    at: At,
    others: &Names<'a>,
    earlier: &Names<'a>,
) -> Result<&'a str, LoadFault>
    ensures gives { Tells (λ s. s.now) result (new_name at (others.now ++ earlier.now) (table_view table.now)) }
    ensures new { IfOk result (λ s. is_among s.now earlier.now ≡ false) }
{
    let name = text(table, at, Key::Name)?;
    if !Name::accepts(name) {
        return Err(at.fault(Key::Name, FaultKind::BadName));
    }
    if others.has(name) || earlier.has(name) {
        return Err(at.fault(Key::Name, FaultKind::DoubleName));
    }
    Ok(name)
}

/// The index of a name. `UnknownName` if there is none.
fn known<'a>(at: At, key: Key, names: &Names<'a>, name: &'a str) -> Result<usize, LoadFault>
    ensures gives { Tells (λ n. n) result (known key at names.now name.now) }
    ensures within { IfOk result (λ n. n < length names.now) }
{
    names
        .find(name)
        .ok_or(at.fault(key, FaultKind::UnknownName))
}

/// Returns the index of the name at a key. `UnknownName` if there is none.
pub(crate) fn known_name<'a>(
    row: &'a Table,
    at: At,
    key: Key,
    names: &Names<'a>,
) -> Result<usize, LoadFault>
    ensures gives { Tells (λ n. n) result (known_name key names.now at (table_view row.now)) }
    ensures within { IfOk result (λ n. n < length names.now) }
{
    let name = text(row, at, key)?;
    known(at, key, names, name)
}

/// Returns the values of the array at a key, or none if it is absent.
pub(crate) fn rows(table: &Table, section: Section, key: Key) -> Result<&[Value], LoadFault>
    ensures gives { Tells (λ v. items_view v.now) result (rows section key (table_view table.now)) }
    ensures few { IfOk result (λ v. length v.now ≤ 4096) }
{
    let at = At::array(section);
    let Some(value) = find(table, key) else {
        return Ok(&[]);
    };
    let rows = value
        .as_array()
        .ok_or(at.fault(Key::Whole, FaultKind::WrongKind))?;
    if rows.len() > MOST_ROWS {
        return Err(at.fault(Key::Whole, FaultKind::TooMany));
    }
    Ok(rows.as_slice())
}

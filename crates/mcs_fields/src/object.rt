ghost use Rattle.std.specs.Prelude.{◌≡◌, ◌++◌, ◌∷◌, [], false, true, map, OnOk, OnErr};
ghost use Rattle.std.specs.Io.{StartsWith};
ghost use Rattle.serde_json.specs.Data.{Members, array, string};
ghost use Rattle.serde_json.specs.Written.{comma_if, compact_text, items_text, members_text};
ghost use Rattle.mcs_fields.specs.Fields.{field_of, is_empty, items_of, members_of, object_text, value_of, with_member};

use crate::cell::{append_below, append_number};
use crate::row::append_comma;
use crate::{Cell, Field};
use mcs_ticks::NoMemory;
use serde_json::Value;
use std::alloc::Global;

/// Appends a JSON object of the values that are not empty, in this order, and a line feed. If
/// memory runs out, the text is unchanged.
pub fn put_object(alloc: Global, text: &mut Vec<u8>, fields: &[Field<'_>]) -> Result<(), NoMemory>
    ensures ok { OnOk result (text.new.items ≡ text.old.items ++ object_text (map field_of fields.now)) }
    ensures err { OnErr result (text.new.items ≡ text.old.items) }
{
    let start = text.len();
    let result = append_object(alloc, text, fields);
    if result.is_err() {
        text.truncate(start);
    }
    result
}

fn append_object(alloc: Global, text: &mut Vec<u8>, fields: &[Field<'_>]) -> Result<(), NoMemory>
    ensures ok { OnOk result (text.new.items ≡ text.old.items ++ object_text (map field_of fields.now)) }
    ensures kept { StartsWith text.new.items text.old.items }
{
    text.push(b'{')?;
    append_members(alloc, text, fields)?;
    text.push(b'}')?;
    text.push(b'\n')?;
    Ok(())
}

/// Appends the members, without the closing bracket.
fn append_members(alloc: Global, text: &mut Vec<u8>, fields: &[Field<'_>]) -> Result<(), NoMemory>
    ensures ok { OnOk result
        (text.new.items ++ 125 ∷ [] ≡ text.old.items ++ members_text false (members_of (map field_of fields.now))) }
    ensures kept { StartsWith text.new.items text.old.items }
{
    let mut later = false;
    for (name, cell) in fields {
        if !cell.is_empty() {
            append_member(alloc, text, later, name, cell)?;
            later = true;
        }
    }
    Ok(())
}

/// Appends a member, after a comma if `later` is set.
fn append_member(
    alloc: Global,
    text: &mut Vec<u8>,
    later: bool,
    name: &str,
    cell: &Cell<'_>,
) -> Result<(), NoMemory>
    requires { is_empty cell.now ≡ false }
    ensures ok { (rest : Members) → OnOk result (text.new.items ++ members_text true rest
        ≡ text.old.items ++ members_text later (with_member name.now (value_of cell.now) rest)) }
    ensures kept { StartsWith text.new.items text.old.items }
{
    append_key(alloc, text, later, name)?;
    match *cell {
        Cell::Number(number) => append_number(text, number),
        Cell::Below(number) => append_below(text, number),
        Cell::Name(name) => append_quoted(alloc, text, name),
        Cell::Names(names) => append_array(alloc, text, names),
        Cell::Empty => Ok(()),
    }
}

/// Appends the name of a member, and a colon.
fn append_key(alloc: Global, text: &mut Vec<u8>, later: bool, name: &str) -> Result<(), NoMemory>
    ensures ok { OnOk result (text.new.items
        ≡ text.old.items ++ comma_if later ++ compact_text (string name.now) ++ 58 ∷ []) }
    ensures kept { StartsWith text.new.items text.old.items }
{
    append_comma(text, later)?;
    append_quoted(alloc, text, name)?;
    text.push(b':')?;
    Ok(())
}

/// Appends texts as a JSON array of strings.
fn append_array(alloc: Global, text: &mut Vec<u8>, words: &[&str]) -> Result<(), NoMemory>
    ensures ok { OnOk result (text.new.items
        ≡ text.old.items ++ compact_text (array (items_of (map (λ word. word.now) words.now)))) }
    ensures kept { StartsWith text.new.items text.old.items }
{
    text.push(b'[')?;
    append_items(alloc, text, words)
}

/// Appends the items of an array, and the closing bracket.
fn append_items(alloc: Global, text: &mut Vec<u8>, words: &[&str]) -> Result<(), NoMemory>
    ensures ok { OnOk result (text.new.items
        ≡ text.old.items ++ items_text false (items_of (map (λ word. word.now) words.now))) }
    ensures kept { StartsWith text.new.items text.old.items }
{
    let mut later = false;
    for word in words {
        append_comma(text, later)?;
        append_quoted(alloc, text, word)?;
        later = true;
    }
    text.push(b']')?;
    Ok(())
}

/// Appends a text as a JSON string.
fn append_quoted(alloc: Global, text: &mut Vec<u8>, word: &str) -> Result<(), NoMemory>
    ensures ok { OnOk result (text.new.items ≡ text.old.items ++ compact_text (string word.now)) }
    ensures kept { StartsWith text.new.items text.old.items }
{
    let written = Value::try_from_str(alloc, word)?.to_string(alloc)?;
    text.extend_from_slice(written.as_bytes())?;
    Ok(())
}

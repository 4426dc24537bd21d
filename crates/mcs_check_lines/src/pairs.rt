//! Lines of named values, each value after its name; and rows and objects of values in two parts.
ghost use Rattle.std.specs.Prelude.{◌≡◌, ◌++◌, ◌∷◌, ◌≤◌, OnOk, OnErr, drop, length, map};
ghost use Rattle.std.specs.Io.{StartsWith};
ghost use Rattle.mcs_fields.specs.Fields.{field_of, object_text, row_text, value_of};
ghost use Rattle.mcs_text.specs.Text.{after, line};
ghost use Rattle.mcs_check_lines.specs.Figures.{pair_words, value_word};

use mcs_fields::{Cell, Field, append_below, append_joined, put_object, put_row};
use mcs_text::{append_number, append_word};
use mcs_ticks::NoMemory;
use std::alloc::Global;

/// Appends a value after a space; `-` if it is empty.
fn append_value(text: &mut Vec<u8>, cell: &Cell<'_>) -> Result<(), NoMemory>
    ensures ok { OnOk result (text.new.items ≡ text.old.items ++ 32 ∷ value_word (value_of cell.now)) }
    ensures kept { StartsWith text.new.items text.old.items }
{
    match *cell {
        Cell::Number(number) => append_number(text, number),
        Cell::Below(number) => {
            text.push(b' ')?;
            append_below(text, number)
        }
        Cell::Name(name) => append_word(text, name),
        Cell::Names(names) => {
            text.push(b' ')?;
            append_joined(text, names)
        }
        Cell::Empty => append_word(text, "-"),
    }
}

/// Appends each name and its value.
fn append_pairs(text: &mut Vec<u8>, fields: &[Field<'_>]) -> Result<(), NoMemory>
    ensures ok { OnOk result (text.new.items ≡ text.old.items ++ after (pair_words (map field_of fields.now))) }
    ensures kept { StartsWith text.new.items text.old.items }
{
    for (name, cell) in fields {
        append_word(text, name)?;
        append_value(text, cell)?;
    }
    Ok(())
}

fn append_line(
    text: &mut Vec<u8>,
    word: &str,
    name: &str,
    fields: &[Field<'_>],
) -> Result<(), NoMemory>
    ensures ok { OnOk result (text.new.items ≡ text.old.items ++ line word.now (name.now ∷ pair_words (map field_of fields.now))) }
    ensures kept { StartsWith text.new.items text.old.items }
{
    text.extend_from_slice(word.as_bytes())?;
    append_word(text, name)?;
    append_pairs(text, fields)?;
    text.push(b'\n')?;
    Ok(())
}

/// Appends a line: a word, a name, and named values. If memory runs out the text is unchanged.
pub fn put_line(
    text: &mut Vec<u8>,
    word: &str,
    name: &str,
    fields: &[Field<'_>],
) -> Result<(), NoMemory>
    ensures ok { OnOk result (text.new.items ≡ text.old.items ++ line word.now (name.now ∷ pair_words (map field_of fields.now))) }
    ensures err { OnErr result (text.new.items ≡ text.old.items) }
{
    let start = text.len();
    let result = append_line(text, word, name, fields);
    if result.is_err() {
        text.truncate(start);
    }
    result
}

/// The values after the first.
pub(crate) fn behind_one<'a, 's>(fields: &'a [Field<'s>]) -> &'a [Field<'s>]
    requires { 1 ≤ length fields.now }
    ensures { map field_of result.now ≡ drop 1 (map field_of fields.now) }
{
    &fields[1..]
}

/// The values after the first two.
pub(crate) fn behind_two<'a, 's>(fields: &'a [Field<'s>]) -> &'a [Field<'s>]
    requires { 2 ≤ length fields.now }
    ensures { map field_of result.now ≡ drop 2 (map field_of fields.now) }
{
    &fields[2..]
}

fn append_fields<'s>(all: &mut Vec<Field<'s>>, fields: &[Field<'s>]) -> Result<(), NoMemory>
    ensures { OnOk result (map field_of all.new.items ≡ map field_of all.old.items ++ map field_of fields.now) }
{
    all.extend_from_slice(fields)?;
    Ok(())
}

/// Appends a row of these values and more. If memory runs out the text is unchanged.
pub(crate) fn put_row_with(
    alloc: Global,
    text: &mut Vec<u8>,
    fields: &[Field<'_>],
    more: &[Field<'_>],
) -> Result<(), NoMemory>
    ensures ok { OnOk result (text.new.items ≡ text.old.items
        ++ row_text (map (λ f. f.1) (map field_of fields.now ++ map field_of more.now))) }
    ensures err { OnErr result (text.new.items ≡ text.old.items) }
{
    let mut all = Vec::new(alloc);
    append_fields(&mut all, fields)?;
    append_fields(&mut all, more)?;
    put_row(text, all.as_slice())
}

/// Appends an object of these values and more. If memory runs out the text is unchanged.
pub(crate) fn put_object_with(
    alloc: Global,
    text: &mut Vec<u8>,
    fields: &[Field<'_>],
    more: &[Field<'_>],
) -> Result<(), NoMemory>
    ensures ok { OnOk result (text.new.items ≡ text.old.items ++ object_text (map field_of fields.now ++ map field_of more.now)) }
    ensures err { OnErr result (text.new.items ≡ text.old.items) }
{
    let mut all = Vec::new(alloc);
    append_fields(&mut all, fields)?;
    append_fields(&mut all, more)?;
    put_object(alloc, text, all.as_slice())
}

ghost use Rattle.std.specs.Prelude.{◌≡◌, ◌++◌, false, map, OnOk, OnErr};
ghost use Rattle.std.specs.Io.{StartsWith};
ghost use Rattle.serde_json.specs.Written.{comma_if};
ghost use Rattle.mcs_fields.specs.Fields.{joined, names_text, row_text, value_of, value_text};

use crate::cell::{append_below, append_number};
use crate::{Cell, Field};
use mcs_ticks::NoMemory;

/// Appends a line of the values, separated by commas. If memory runs out, the text is unchanged.
pub fn put_row(text: &mut Vec<u8>, fields: &[Field<'_>]) -> Result<(), NoMemory>
    ensures ok { OnOk result (text.new.items ≡ text.old.items ++ row_text (map (λ f. value_of f.1) fields.now)) }
    ensures err { OnErr result (text.new.items ≡ text.old.items) }
{
    let start = text.len();
    let result = append_row(text, fields);
    if result.is_err() {
        text.truncate(start);
    }
    result
}

fn append_row(text: &mut Vec<u8>, fields: &[Field<'_>]) -> Result<(), NoMemory>
    ensures ok { OnOk result (text.new.items ≡ text.old.items ++ row_text (map (λ f. value_of f.1) fields.now)) }
    ensures kept { StartsWith text.new.items text.old.items }
{
    let mut later = false;
    for (_, cell) in fields {
        append_comma(text, later)?;
        append_value(text, cell)?;
        later = true;
    }
    text.push(b'\n')?;
    Ok(())
}

/// Appends a line of names, separated by commas. If memory runs out, the text is unchanged.
pub fn put_names(text: &mut Vec<u8>, names: &[&str]) -> Result<(), NoMemory>
    ensures ok { OnOk result (text.new.items ≡ text.old.items ++ names_text (map (λ name. name.now) names.now)) }
    ensures err { OnErr result (text.new.items ≡ text.old.items) }
{
    let start = text.len();
    let result = append_names(text, names);
    if result.is_err() {
        text.truncate(start);
    }
    result
}

fn append_names(text: &mut Vec<u8>, names: &[&str]) -> Result<(), NoMemory>
    ensures ok { OnOk result (text.new.items ≡ text.old.items ++ names_text (map (λ name. name.now) names.now)) }
    ensures kept { StartsWith text.new.items text.old.items }
{
    let mut later = false;
    for name in names {
        append_comma(text, later)?;
        text.extend_from_slice(name.as_bytes())?;
        later = true;
    }
    text.push(b'\n')?;
    Ok(())
}

/// Appends texts separated by commas. If memory runs out, a first part of them may have been
/// appended.
pub fn append_joined(text: &mut Vec<u8>, words: &[&str]) -> Result<(), NoMemory>
    ensures ok { OnOk result (text.new.items ≡ text.old.items ++ joined false (map (λ word. word.now) words.now)) }
    ensures kept { StartsWith text.new.items text.old.items }
{
    let mut later = false;
    for word in words {
        append_comma(text, later)?;
        text.extend_from_slice(word.as_bytes())?;
        later = true;
    }
    Ok(())
}

/// Appends a comma if `later` is set.
pub(crate) fn append_comma(text: &mut Vec<u8>, later: bool) -> Result<(), NoMemory>
    ensures ok { OnOk result (text.new.items ≡ text.old.items ++ comma_if later) }
    ensures kept { StartsWith text.new.items text.old.items }
{
    if later {
        text.push(b',')?;
    }
    Ok(())
}

fn append_value(text: &mut Vec<u8>, cell: &Cell<'_>) -> Result<(), NoMemory>
    ensures ok { OnOk result (text.new.items ≡ text.old.items ++ value_text (value_of cell.now)) }
    ensures kept { StartsWith text.new.items text.old.items }
{
    match *cell {
        Cell::Number(number) => append_number(text, number),
        Cell::Below(number) => append_below(text, number),
        Cell::Name(name) => {
            text.extend_from_slice(name.as_bytes())?;
            Ok(())
        }
        Cell::Names(_) | Cell::Empty => Ok(()),
    }
}

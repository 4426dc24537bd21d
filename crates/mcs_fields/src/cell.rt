ghost use Rattle.std.specs.Prelude.{◌≡◌, ◌++◌, decimal, OnOk};
ghost use Rattle.std.specs.Io.{StartsWith};
ghost use Rattle.mcs_fields.specs.Fields.{below_text, is_empty};

use itoa::Buffer;
use mcs_ticks::NoMemory;

/// A value of a line.
#[derive(Clone, Copy, Debug, PartialEq, Eq)]
pub enum Cell<'a> {
    Number(u64),
    /// The negative of this number.
    Below(u64),
    /// A name of the system, or a word of this program: letters, digits, `_` and `-`.
    Name(&'a str),
    /// Names, in this order: an array in JSON. A row of CSV has no such value.
    Names(&'a [&'a str]),
    /// A value that this line does not have.
    Empty,
}

impl Cell<'_> {
    pub(crate) fn is_empty(&self) -> bool
        ensures { result ≡ is_empty self.now }
    {
        matches!(self, Cell::Empty)
    }
}

/// A value and its name.
pub type Field<'a> = (&'static str, Cell<'a>);

/// Appends a number. If memory runs out, a first part of it may have been appended.
pub(crate) fn append_number(text: &mut Vec<u8>, number: u64) -> Result<(), NoMemory>
    ensures ok { OnOk result (text.new.items ≡ text.old.items ++ decimal number) }
    ensures kept { StartsWith text.new.items text.old.items }
{
    let mut buffer = Buffer::new();
    text.extend_from_slice(buffer.format(number).as_bytes())?;
    Ok(())
}

/// Appends the negative of a number: `-` and its digits, or `0` for 0. If memory runs out, a first
/// part of it may have been appended.
pub fn append_below(text: &mut Vec<u8>, number: u64) -> Result<(), NoMemory>
    ensures ok { OnOk result (text.new.items ≡ text.old.items ++ below_text number) }
    ensures kept { StartsWith text.new.items text.old.items }
{
    if number > 0 {
        text.push(b'-')?;
    }
    append_number(text, number)
}

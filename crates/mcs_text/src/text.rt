//! A text of lines, in the order in which rows were given.
ghost use Rattle.std.specs.Prelude.{◌≡◌, length, OnErr, OnOk};
ghost use Rattle.mcs_text.specs.Parts.{no_text, with_bytes};

use crate::names::Names;
use crate::row::put_row;
use mcs_ticks::{Refused, Row, Sink};
use std::alloc::Global;
use std::marker::Model;

/// The lines of rows in the order in which they were given, one by one or as a part. Contracts see
/// the system and the bytes.
#[derive(Drop)]
pub struct Text<'a> {
    names: &'a Names<'a>,
    bytes: Vec<u8>,
}

impl<'a> Model for Text<'a> {
    ghost use Rattle.mcs_text.specs.Parts.{Text};

    ghost Value = { Text };

    ghost view = { λ a. record { system = a.names.now; bytes = a.bytes.items } };
}

impl<'a> Text<'a> {
    /// Returns an empty text, for rows of the system with these names.
    pub fn new(alloc: Global, names: &'a Names<'a>) -> Text<'a>
        ensures { result ≡ no_text names.now }
    {
        Text {
            names,
            bytes: Vec::new(alloc),
        }
    }

    /// The number of bytes of all lines.
    pub fn len(&self) -> usize
        ensures { result ≡ length self.now.bytes }
    {
        self.bytes.len()
    }

    /// The bytes of all lines.
    pub fn as_slice(&self) -> &[u8]
        ensures { result.now ≡ self.now.bytes }
    {
        self.bytes.as_slice()
    }

    /// Removes all lines, and keeps their room.
    pub fn clear(&mut self)
        ensures { self.new ≡ no_text self.old.system }
    {
        self.bytes.clear();
    }

    /// Appends lines. If memory runs out, the text is unchanged.
    pub(crate) fn append(&mut self, lines: &[u8]) -> Result<(), Refused>
        ensures taken { OnOk result (self.new ≡ with_bytes self.old lines.now) }
        ensures refused { OnErr result (self.new ≡ self.old) }
    {
        self.bytes.extend_from_slice(lines).ok().ok_or(Refused)
    }
}

/// Appends the line of a row. It is refused only if memory runs out, and then the text is
/// unchanged.
impl Sink for Text<'_> {
    ghost use Rattle.mcs_text.specs.Parts.{TakesText};

    ghost takes = { TakesText };

    fn row(&mut self, row: &Row) -> Result<(), Refused> {
        let names = self.names;
        put_row(&mut self.bytes, names.system(), row)
            .ok()
            .ok_or(Refused)
    }
}

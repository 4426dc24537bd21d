//! A page of lines in room of fixed size.
ghost use Rattle.std.specs.Prelude.{◌≡◌, ◌≤◌, ◌+◌, ◌++◌, ◌↔◌, [], length, IfOk, IsTrue};
ghost use Rattle.mcs_text.specs.Text.{row_text};

use crate::bytes::LINE;
use crate::moment::MomentDigits;
use crate::names::Names;
use crate::row::write_rest;
use mcs_ticks::{NoMemory, Row};
use std::alloc::Global;
use std::marker::Model;

/// A page of lines with fixed room, made when it is created. Contracts see its bytes.
#[derive(Debug, Drop)]
pub struct Page {
    bytes: Vec<u8>,
    used: usize,
    /// digits of the last row's time
    moment: MomentDigits,
}

impl Model for Page {
    ghost use Rattle.std.specs.Prelude.{◌≡◌, ◌≤◌, List, ℕ, length, take};

    ghost Value = { List ℕ };

    ghost view = { λ a. take a.used a.bytes.items };

    ghost invariant = { λ a. (length a.bytes.items ≡ 65680) × (a.used ≤ 65680) };
}

impl Page {
    /// Bytes above which a page has no room for a further row.
    pub const FULL: usize = 65_536;

    /// Returns an empty page. `NoMemory` if memory runs out.
    pub fn new(alloc: Global) -> Result<Page, NoMemory>
        ensures { IfOk result (λ page. page ≡ []) }
    {
        let bytes = vec![in alloc; 0u8; Self::FULL + LINE]?;
        Ok(Page {
            bytes,
            used: 0,
            moment: MomentDigits::new(),
        })
    }

    /// The number of bytes of its lines.
    pub fn len(&self) -> usize
        ensures { result ≡ length self.now }
    {
        self.as_slice().len()
    }

    /// Whether a further row fits.
    pub fn has_room(&self) -> bool
        ensures { IsTrue result ↔ (length self.now ≤ 65536) }
    {
        self.used <= Self::FULL
    }

    /// Whether `bytes` more bytes fit without exceeding `FULL`.
    pub fn has_room_for(&self, bytes: usize) -> bool
        ensures { IsTrue result ↔ (length self.now + bytes ≤ 65536) }
    {
        self.used <= Self::FULL && bytes <= Self::FULL - self.used
    }

    /// The bytes of its lines.
    pub fn as_slice(&self) -> &[u8]
        ensures { result.now ≡ self.now }
    {
        &self.bytes[..self.used]
    }

    /// Appends the line of a row, like `put_row`, without taking memory. The page must have room.
    pub fn put_row(&mut self, names: &Names, row: &Row)
        requires { length self.old ≤ 65536 }
        ensures { self.new ≡ self.old ++ row_text names.now row.now }
    {
        let bytes = self.bytes.as_mut_slice();
        let core = self.moment.write_moment(bytes, self.used, row.moment);
        self.used = write_rest(bytes, core, names, row);
    }

    /// Appends lines made elsewhere, without taking memory. The page must have room for them.
    pub fn append(&mut self, lines: &[u8])
        requires { length self.old + length lines.now ≤ 65536 }
        ensures { self.new ≡ self.old ++ lines.now }
    {
        let end = self.used + lines.len();
        self.bytes[self.used..end].copy_from_slice(lines);
        self.used = end;
    }

    /// Removes all lines, and keeps their room.
    pub fn clear(&mut self)
        ensures { self.new ≡ [] }
    {
        self.used = 0;
    }
}

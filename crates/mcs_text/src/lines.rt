//! Lines of rows that grow as rows come.
ghost use Rattle.std.specs.Prelude.{◌≡◌, ◌≤◌, ◌<◌, ◌+◌, ◌++◌, ◌∷◌, [], take, length, None, OnOk, OnErr};
ghost use Rattle.std.specs.List.{last_or};
ghost use Rattle.mcs_text.specs.Text.{row_text};
ghost use Rattle.mcs_text.specs.Lines.{marked, no_lines, text_at};
ghost use Rattle.mcs_text.specs.stored.Lines.{IsReached};

use crate::bytes::LINE;
use crate::mark::Mark;
use crate::moment::MomentDigits;
use crate::names::{Names, Naming};
use crate::row::write_rest;
use mcs_ticks::{Measured, Refused, Row, Sink, Tick};
use std::alloc::Global;
use std::marker::Model;

/// Bytes by which the room grows at once.
const MORE: usize = 4096;

/// The lines of rows, of one core or in any order, with marks at which times begin. As a sink it
/// appends one line per row. Contracts see the system, the bytes, and the marks.
#[derive(Drop)]
pub struct Lines<'a> {
    names: &'a Names<'a>,
    bytes: Vec<u8>,
    used: usize,
    marks: Vec<Mark>,
    /// digits of the last row's time
    digits: MomentDigits,
}

impl<'a> Model for Lines<'a> {
    ghost use Rattle.std.specs.Prelude.{◌≤◌, length, take};
    ghost use Rattle.mcs_text.specs.Lines.{Lines};
    ghost use Rattle.mcs_text.specs.stored.Lines.{AreKept};

    ghost Value = { Lines };

    ghost view = { λ a. record { system = a.names.now; bytes = take a.used a.bytes.items; marks = a.marks.items } };

    ghost invariant = { λ a. AreKept a.bytes.items a.used a.marks.items a.digits };
}

/// Makes room for a further line.
#[inline(always)]
fn make_room(bytes: &mut Vec<u8>, used: usize) -> Result<(), Refused>
    requires { used ≤ length bytes.old.items }
    ensures room { OnOk result (used + 144 ≤ length bytes.new.items) }
    ensures longer { length bytes.old.items ≤ length bytes.new.items }
    ensures text { take used bytes.new.items ≡ take used bytes.old.items }
{
    if bytes.len() - used >= LINE {
        return Ok(());
    }
    grow(bytes, used)
}

#[inline(never)]
fn grow(bytes: &mut Vec<u8>, used: usize) -> Result<(), Refused>
    requires { used ≤ length bytes.old.items }
    ensures room { OnOk result (used + 144 ≤ length bytes.new.items) }
    ensures longer { length bytes.old.items ≤ length bytes.new.items }
    ensures text { take used bytes.new.items ≡ take used bytes.old.items }
{
    bytes.extend_from_slice(&[0; MORE]).ok().ok_or(Refused)
}

/// Marks the start of a time's lines, unless the lines before are of that time. The digits are then
/// those of the time.
#[inline(always)]
fn reach(
    marks: &mut Vec<Mark>,
    digits: &mut MomentDigits,
    used: usize,
    moment: Tick,
) -> Result<(), Refused>
    requires { IsReached used digits.old (last_or None marks.old.items) }
    ensures marks { OnOk result (marks.new.items ≡ marked moment used marks.old.items) }
    ensures digits { OnOk result (digits.new ≡ moment) }
    ensures kept { OnErr result ((marks.new.items ≡ marks.old.items) × (digits.new ≡ digits.old)) }
{
    if used > 0 && digits.are_of(moment) {
        return Ok(());
    }
    begin(marks, digits, used, moment)
}

#[inline(always)]
fn begin(
    marks: &mut Vec<Mark>,
    digits: &mut MomentDigits,
    used: usize,
    moment: Tick,
) -> Result<(), Refused>
    ensures marks { OnOk result (marks.new.items ≡ marks.old.items ++ (record { moment = moment; start = used }) ∷ []) }
    ensures digits { OnOk result (digits.new ≡ moment) }
    ensures kept { OnErr result ((marks.new.items ≡ marks.old.items) × (digits.new ≡ digits.old)) }
{
    let mark = Mark {
        moment,
        start: used,
    };
    if marks.push(mark).is_err() {
        return Err(Refused);
    }
    digits.set(moment);
    Ok(())
}

/// Writes the line of a row. The digits are those of its time.
#[inline(always)]
fn write_line<N: Naming>(
    bytes: &mut [u8],
    at: usize,
    digits: &MomentDigits,
    names: &N,
    row: &Row,
) -> usize
    requires room { at + 135 ≤ length bytes.old }
    requires digits { digits.now ≡ row.now.moment }
    ensures short { result ≤ at + 135 }
    ensures longer { at < result }
    ensures written { take result bytes.new ≡ take at bytes.old ++ row_text (N.system names.now) row.now }
{
    let core = digits.write(bytes, at);
    write_rest(bytes, core, names, row)
}

impl<'a> Lines<'a> {
    /// Returns no lines, for rows of the system with these names. Room is made as rows come.
    pub fn new(alloc: Global, names: &'a Names<'a>) -> Lines<'a>
        ensures { result ≡ no_lines names.now }
    {
        Lines {
            names,
            bytes: Vec::new(alloc),
            used: 0,
            marks: Vec::new(alloc),
            digits: MomentDigits::new(),
        }
    }

    /// The number of bytes of all lines.
    #[inline(always)]
    pub fn len(&self) -> usize
        ensures { result ≡ length self.now.bytes }
    {
        self.as_slice().len()
    }

    /// The bytes of all lines.
    #[inline(always)]
    pub fn as_slice(&self) -> &[u8]
        ensures { result.now ≡ self.now.bytes }
    {
        &self.bytes[..self.used]
    }

    /// The marks, in the order in which their times came. Each has the index of its first line.
    pub fn marks(&self) -> &[Mark]
        ensures { result.now ≡ self.now.marks }
    {
        self.marks.as_slice()
    }

    /// The bytes from a mark to the next one, or to the end.
    pub fn text_at(&self, place: usize) -> &[u8]
        requires { place < length self.now.marks }
        ensures { result.now ≡ text_at self.now place }
    {
        let start = self.marks[place].start;
        let next = place + 1;
        let end = if next < self.marks.len() {
            self.marks[next].start
        } else {
            self.used
        };
        &self.bytes[start..end]
    }

    /// Removes all lines and marks, and keeps their room.
    pub fn clear(&mut self)
        ensures { self.new ≡ no_lines self.old.system }
    {
        self.used = 0;
        self.marks.clear();
    }
}

/// Appends the line of a row. It is refused only if memory runs out, and then lines and marks stay
/// as they were.
impl Sink for Lines<'_> {
    ghost use Rattle.mcs_text.specs.Lines.{TakesLine};

    ghost takes = { TakesLine };

    #[inline(always)]
    fn row(&mut self, row: &Row) -> Result<(), Refused> {
        make_room(&mut self.bytes, self.used)?;
        reach(&mut self.marks, &mut self.digits, self.used, row.moment)?;
        let bytes = self.bytes.as_mut_slice();
        self.used = write_line(bytes, self.used, &self.digits, self.names, row);
        Ok(())
    }
}

/// The size is the number of bytes.
impl Measured for Lines<'_> {
    ghost use Rattle.std.specs.Prelude.{length};

    ghost size = { λ lines. length lines.bytes };

    #[inline(always)]
    fn size(&self) -> usize {
        self.len()
    }
}

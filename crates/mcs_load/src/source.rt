//! Reads the array `source`, with the dates of interrupts.
#![tactic(auto, using(crate::proofs::Steps::steps, crate::proofs::Members::item_count_view), unfolding(crate::specs::Dates::offset, crate::specs::Dates::few_offsets, crate::specs::Dates::at_values, crate::specs::Dates::read_values, crate::specs::Dates::offsets, crate::specs::Dates::read_dates, crate::specs::Walk::source, crate::specs::Walk::sources))]

ghost use Rattle.std.specs.Prelude.{◌≡◌, ◌<◌, ◌≤◌, ◌+◌, ◌^◌, ◌++◌, ◌∷◌, [], All, IfOk, IfSome, OnOk, length, map};
ghost use Rattle.std.specs.List.{flat_map};
ghost use Rattle.toml.specs.View.{view, table_view, items_view};
ghost use Rattle.mcs_load.specs.Checks.{Gives, Tells};
ghost use Rattle.mcs_load.specs.Words.{each, item_count};
ghost use Rattle.mcs_load.specs.Dates.{offset, next_offset, few_offsets, at_values, read_values, offsets, taken_by, share, beat_of, beats_from, read_dates, part_of_source};
ghost use Rattle.mcs_load.specs.stored.Values.{values_or_zero};
ghost use Rattle.mcs_load.specs.Walk.{source, sources};

use crate::at::At;
use crate::fault::{FaultKind, LoadFault};
use crate::names::Names;
use crate::numbers::moment;
use crate::reader::{RowReader, read_array};
use crate::spot::{Key, Section};
use crate::values::{find, known_name, new_name, number_with_default, only_keys, whole_number};
use mcs_system::{Beat, Name, SourcePart};
use mcs_ticks::{Limits, NoteId, Sequence, SourceId};
use std::alloc::{AllocError, Global};
use toml::{Table, Value};

const SOURCE_KEYS: [Key; 7] = [
    Key::Name,
    Key::Note,
    Key::Badge,
    Key::Period,
    Key::Start,
    Key::Count,
    Key::At,
];

/// Maximum `count` of a source.
const MOST_DATES: u64 = 1 << 40;

/// A source as read from its row.
#[derive(Drop)]
pub(crate) struct Source {
    pub name: Name,
    pub note: NoteId,
    pub badge: u32,
    pub dates: Dates,
}

/// The dates of a source.
#[derive(Drop)]
pub(crate) struct Dates {
    /// Number of entries of `at`.
    pub many: usize,
    pub beats: Sequence<Beat>,
}

/// When a source interrupts, apart from `at`.
#[derive(Clone, Copy)]
struct Pace {
    source: SourceId,
    start: u64,
    period: u64,
    /// Number of interrupts. 0 means no end.
    count: u64,
}

/// Reads a value of `at`, from `least` to below the period.
fn offset(value: &Value, at: At, number: usize, least: u64, period: u64) -> Result<u64, LoadFault>
    requires { 1 ≤ period }
    ensures within { IfOk result (λ n. n < period) }
    ensures gives { Tells (λ n. n) result (offset number least period at (view value.now)) }
{
    let Some(offset) = value.as_integer() else {
        return Err(at.item_fault(Key::At, number, FaultKind::WrongKind));
    };
    match u64::try_from(offset) {
        Ok(offset) if least <= offset && offset < period => Ok(offset),
        _ => Err(at.item_fault(Key::At, number, FaultKind::OutOfRange)),
    }
}

/// Reads the numbers of `at`. Each is above the one before and below the period.
fn read_offsets(alloc: Global, values: &[Value], at: At, period: u64) -> Result<Vec<u64>, LoadFault>
    requires { (1 ≤ period) × (period ≤ 2 ^ 40) }
    ensures within { IfOk result (λ v. All (λ n. n < period) v.items) }
    ensures count { IfOk result (λ v. length v.items ≡ length values.now) }
    ensures gives { Gives (λ v. v.items) result (each (next_offset period at) [] (items_view values.now)) }
{
    let mut offsets = Vec::with_capacity(alloc, values.len())?;
    let mut least = 0;
    for (k, value) in values.iter().enumerate() {
        let offset = offset(value, at, k + 1, least, period)?;
        offsets.push_reserved(offset);
        least = offset + 1;
    }
    Ok(offsets)
}

/// Tests that there are at most 1,024 numbers, and at most 4,096 with those of the earlier sources.
fn few_offsets(at: At, taken: usize, count: usize) -> Result<(), LoadFault>
    requires { taken ≤ 4096 }
    ensures few { IfOk result (λ _. taken + count ≤ 4096) }
    ensures gives { Tells (λ x. x) result (few_offsets at taken count) }
{
    if count <= Limits::DATES && count <= Beat::MOST - taken {
        Ok(())
    } else {
        Err(at.fault(Key::At, FaultKind::TooMany))
    }
}

/// Returns the values of `at`, or `None` if the key is absent.
fn at_values(row: &Table, at: At) -> Result<Option<&[Value]>, LoadFault>
    ensures some { IfOk result (λ found. IfSome found (λ v. 1 ≤ length v.now)) }
    ensures gives { Tells (λ found. values_or_zero found) result (at_values at (table_view row.now)) }
{
    let Some(value) = find(row, Key::At) else {
        return Ok(None);
    };
    let values = value
        .as_array()
        .ok_or(at.fault(Key::At, FaultKind::WrongKind))?;
    if values.is_empty() {
        return Err(at.fault(Key::At, FaultKind::OutOfRange));
    }
    Ok(Some(values.as_slice()))
}

/// Returns a list with the number 0.
fn zero_alone(alloc: Global) -> Result<Vec<u64>, AllocError>
    ensures { IfOk result (λ v. v.items ≡ 0 ∷ []) }
{
    let mut offsets = Vec::new(alloc);
    offsets.push(0)?;
    Ok(offsets)
}

/// Tests the number of values like `few_offsets`.
fn few_values(at: At, taken: usize, values: &[Value]) -> Result<(), LoadFault>
    requires { taken ≤ 4096 }
    ensures few { IfOk result (λ _. taken + length values.now ≤ 4096) }
    ensures gives { Tells (λ x. x) result (few_offsets at taken (item_count (items_view values.now))) }
{
    few_offsets(at, taken, values.len())
}

/// Tests the number of values and reads them.
fn few_read_offsets(
    alloc: Global,
    values: &[Value],
    at: At,
    taken: usize,
    period: u64,
) -> Result<Vec<u64>, LoadFault>
    requires some { 1 ≤ length values.now }
    requires taken { taken ≤ 4096 }
    requires period { (1 ≤ period) × (period ≤ 2 ^ 40) }
    ensures within { IfOk result (λ v. All (λ n. n < period) v.items) }
    ensures few { IfOk result (λ v. (1 ≤ length v.items) × (taken + length v.items ≤ 4096)) }
    ensures gives { Gives (λ v. v.items) result (read_values taken period at (items_view values.now)) }
{
    few_values(at, taken, values)?;
    let offsets = read_offsets(alloc, values, at, period)?;
    Ok(offsets)
}

/// Reads the numbers of `at`. An absent `at` means the number 0.
fn read_values(
    alloc: Global,
    found: Option<&[Value]>,
    at: At,
    taken: usize,
    period: u64,
) -> Result<Vec<u64>, LoadFault>
    requires some { IfSome found (λ v. 1 ≤ length v.now) }
    requires taken { taken ≤ 4096 }
    requires period { (1 ≤ period) × (period ≤ 2 ^ 40) }
    ensures within { IfOk result (λ v. All (λ n. n < period) v.items) }
    ensures few { IfOk result (λ v. (1 ≤ length v.items) × (taken + length v.items ≤ 4096)) }
    ensures gives { Gives (λ v. v.items) result (read_values taken period at (values_or_zero found.entry)) }
{
    match found {
        Some(values) => few_read_offsets(alloc, values, at, taken, period),
        None => {
            few_offsets(at, taken, 1)?;
            Ok(zero_alone(alloc)?)
        }
    }
}

/// Reads the numbers of `at`, or 0.
fn offsets(
    alloc: Global,
    row: &Table,
    at: At,
    taken: usize,
    period: u64,
) -> Result<Vec<u64>, LoadFault>
    requires taken { taken ≤ 4096 }
    requires period { (1 ≤ period) × (period ≤ 2 ^ 40) }
    ensures within { IfOk result (λ v. All (λ n. n < period) v.items) }
    ensures few { IfOk result (λ v. (1 ≤ length v.items) × (taken + length v.items ≤ 4096)) }
    ensures gives { Gives (λ v. v.items) result (offsets taken period at (table_view row.now)) }
{
    let found = at_values(row, at)?;
    read_values(alloc, found, at, taken, period)
}

/// How many of `count` dates belong to entry `k` of `many`. A count of 0 means no end; `None` means
/// that it has no date.
fn share(count: u64, many: usize, k: usize) -> Option<u64>
    requires { k < many }
    ensures { result ≡ share count many k }
{
    let k = k as u64;
    if count == 0 {
        Some(0)
    } else if count <= k {
        None
    } else {
        Some((count - k - 1) / many as u64 + 1)
    }
}

/// Appends the dates of an entry of `at`, if it has any.
fn put_beat(
    beats: &mut Vec<Beat>,
    pace: &Pace,
    offset: u64,
    share: Option<u64>,
) -> Result<(), AllocError>
    requires { (pace.now.start ≤ 2 ^ 40) × (offset ≤ 2 ^ 40) }
    ensures { OnOk result (beats.new.items ≡ beats.old.items ++ beat_of pace.now offset share) }
{
    match share {
        Some(count) => {
            let beat = Beat {
                source: pace.source,
                first: moment(pace.start + offset),
                period: pace.period,
                count,
            };
            beats.push(beat)?;
            Ok(())
        }
        None => Ok(()),
    }
}

/// Returns the dates of all entries of `at`.
fn beats(alloc: Global, pace: &Pace, offsets: &[u64]) -> Result<Vec<Beat>, AllocError>
    requires pace { (pace.now.start ≤ 2 ^ 40) × (pace.now.period ≤ 2 ^ 40) }
    requires within { All (λ n. n < pace.now.period) offsets.now }
    ensures { IfOk result (λ v. v.items ≡ beats_from pace.now (length offsets.now) 0 offsets.now) }
{
    let mut beats = Vec::new(alloc);
    for (k, offset) in offsets.iter().enumerate() {
        let share = share(pace.count, offsets.len(), k);
        put_beat(&mut beats, pace, *offset, share)?;
    }
    Ok(beats)
}

/// Reads the dates of source `number`. Earlier sources have `taken` numbers in `at`.
fn read_dates(
    alloc: Global,
    row: &Table,
    at: At,
    number: usize,
    taken: usize,
) -> Result<Dates, LoadFault>
    requires { taken ≤ 4096 }
    ensures few { IfOk result (λ d. taken + d.many ≤ 4096) }
    ensures gives { Gives (λ d. d) result (read_dates number taken at (table_view row.now)) }
{
    let period = whole_number(row, at, Key::Period, 1, Limits::PERIOD)?;
    let start = number_with_default(row, at, Key::Start, 0, Limits::START, 0)?;
    let count = number_with_default(row, at, Key::Count, 0, MOST_DATES, 0)?;
    let offsets = offsets(alloc, row, at, taken, period)?;
    let pace = Pace {
        source: SourceId(number),
        start,
        period,
        count,
    };
    let beats = beats(alloc, &pace, &offsets)?;
    Ok(Dates {
        many: offsets.len(),
        beats: Sequence::new(beats),
    })
}

/// Reads sources and keeps their names.
#[derive(Drop)]
struct SourceReader<'n, 'a> {
    alloc: Global,
    note_names: &'n Names<'a>,
    names: Names<'a>,
    /// Number of entries of `at` in earlier sources.
    taken: usize,
}

impl<'n, 'a> RowReader<'a> for SourceReader<'n, 'a> {
    type Part = Source;

    ghost reads = { λ reader. source reader.note_names.now };

    ghost keeps = { λ reader earlier.
        (reader.names ≡ map (λ s. s.name) earlier) × (reader.taken ≡ taken_by earlier) × (reader.taken ≤ 4096) };

    fn read(&mut self, row: &'a Table, at: At, earlier: &[Source]) -> Result<Source, LoadFault> {
        only_keys(row, at, &SOURCE_KEYS)?;
        let name = new_name(row, at, &mut self.names)?;
        let note = known_name(row, at, Key::Note, self.note_names)?;
        let badge = whole_number(row, at, Key::Badge, 1, Limits::BADGE)?;
        let dates = read_dates(self.alloc, row, at, earlier.len(), self.taken)?;
        self.taken += dates.many;
        Ok(Source {
            name: Name::new(String::from_str(self.alloc, name)?),
            note: NoteId(note),
            badge: badge as u32,
            dates,
        })
    }
}

/// Reads the sources of a file in order. Returns them with their names.
pub(crate) fn sources<'a>(
    alloc: Global,
    file: &'a Table,
    note_names: &Names<'a>,
) -> Result<(Vec<Source>, Names<'a>), LoadFault>
    ensures gives { Gives (λ read. read.0.items) result (sources note_names.now (table_view file.now)) }
    ensures kept { IfOk result (λ read. read.1 ≡ map (λ s. s.name) read.0.items) }
{
    let mut reader = SourceReader {
        alloc,
        note_names,
        names: Names::new(alloc),
        taken: 0,
    };
    let sources = read_array(alloc, file, Section::Source, Key::Source, &mut reader)?;
    Ok((sources, reader.names))
}

/// Returns the dates of all sources.
pub(crate) fn all_beats(alloc: Global, sources: &[Source]) -> Result<Vec<Beat>, AllocError>
    ensures { IfOk result (λ v. v.items ≡ flat_map (λ s. s.dates.beats) sources.now) }
{
    let mut beats = Vec::new(alloc);
    for source in sources {
        beats.extend_from_slice(source.dates.beats.as_slice())?;
    }
    Ok(beats)
}

/// Returns the parts of the sources that a system keeps besides their dates.
pub(crate) fn source_parts(
    alloc: Global,
    sources: Vec<Source>,
) -> Result<Vec<SourcePart>, AllocError>
    ensures { IfOk result (λ v. v.items ≡ map part_of_source sources.items) }
{
    let mut parts = Vec::new(alloc);
    for source in sources {
        parts.push(SourcePart {
            name: source.name,
            note: source.note,
            badge: source.badge,
        })?;
    }
    Ok(parts)
}

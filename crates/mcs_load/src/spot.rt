//! Sections and keys of a file, and the text of a place.
ghost use Rattle.std.specs.Prelude.{Some};
ghost use Rattle.std.specs.Fmt.{DisplaysOnOk};
ghost use Rattle.mcs_load.specs.Keys.{key_name};
ghost use Rattle.mcs_load.specs.Text.{section_name, row_text, key_text, item_text, place_text};

use crate::key::name_of;
use std::fmt;

/// A part of a file.
#[derive(Clone, Copy, Debug, PartialEq, Eq)]
pub enum Section {
    /// The whole file.
    File,
    /// The keys at the top.
    Top,
    /// The array `context`.
    Context,
    /// The array `note`.
    Note,
    /// The array `thread`.
    Thread,
    /// The array `order`.
    Order,
    /// The array `link`.
    Link,
    /// The array `source`.
    Source,
    /// The array `server`.
    Server,
    /// The array `chain`.
    Chain,
}

/// A key of a file.
#[derive(Clone, Copy, Debug, PartialEq, Eq)]
pub enum Key {
    Version,
    Cores,
    Delay,
    Call,
    MinBudget,
    Context,
    Note,
    Thread,
    Order,
    Name,
    Core,
    Budget,
    Period,
    ExtraRefills,
    Priority,
    Start,
    Rounds,
    Deadline,
    Script,
    At,
    Link,
    Maker,
    Home,
    Mode,
    Word,
    Source,
    Server,
    Chain,
    Badges,
    Badge,
    Count,
    /// A key that is not listed.
    Other,
    /// No key: the array, the row or the file.
    Whole,
}

/// The place of a fault. Its text looks like `thread 2 script item 3`.
#[derive(Clone, Copy, Debug, PartialEq, Eq)]
pub struct Spot {
    pub section: Section,
    /// The row of the section's array, from 1. 0 means no row.
    pub row: usize,
    pub key: Key,
    /// The item of the script or the number of `at`, from 1. 0 means no item.
    pub item: usize,
}

impl fmt::Display for Section {
    ghost output = { λ section. Some (section_name section) };

    fn fmt<W: fmt::Write>(&self, f: &mut fmt::Formatter<W>) -> fmt::Result {
        match self {
            Section::File => f.write_str("file"),
            Section::Top => f.write_str("top"),
            Section::Context => f.write_str("context"),
            Section::Note => f.write_str("note"),
            Section::Thread => f.write_str("thread"),
            Section::Order => f.write_str("order"),
            Section::Link => f.write_str("link"),
            Section::Source => f.write_str("source"),
            Section::Server => f.write_str("server"),
            Section::Chain => f.write_str("chain"),
        }
    }
}

impl fmt::Display for Key {
    ghost output = { λ key. Some (key_name key) };

    fn fmt<W: fmt::Write>(&self, f: &mut fmt::Formatter<W>) -> fmt::Result {
        f.write_str(name_of(*self))
    }
}

impl fmt::Display for Spot {
    ghost output = { λ spot. Some (place_text spot) };

    fn fmt<W: fmt::Write>(&self, f: &mut fmt::Formatter<W>) -> fmt::Result {
        let Spot {
            section,
            row,
            key,
            item,
        } = *self;
        write!(f, "{section}")?;
        put_row(f, row)?;
        put_key(f, key)?;
        put_item(f, item)
    }
}

/// Writes a space and the row, or nothing for row 0.
fn put_row<W: fmt::Write>(f: &mut fmt::Formatter<W>, row: usize) -> fmt::Result
    ensures { DisplaysOnOk W.write_str_gives f.old result (Some (row_text row)) f.new }
{
    match row {
        0 => Ok(()),
        _ => write!(f, " {row}"),
    }
}

/// Writes a space and the key, or nothing for `Key::Whole`.
fn put_key<W: fmt::Write>(f: &mut fmt::Formatter<W>, key: Key) -> fmt::Result
    ensures { DisplaysOnOk W.write_str_gives f.old result (Some (key_text key)) f.new }
{
    match key {
        Key::Whole => Ok(()),
        _ => write!(f, " {key}"),
    }
}

/// Writes ` item ` and the number, or nothing for item 0.
fn put_item<W: fmt::Write>(f: &mut fmt::Formatter<W>, item: usize) -> fmt::Result
    ensures { DisplaysOnOk W.write_str_gives f.old result (Some (item_text item)) f.new }
{
    match item {
        0 => Ok(()),
        _ => write!(f, " item {item}"),
    }
}

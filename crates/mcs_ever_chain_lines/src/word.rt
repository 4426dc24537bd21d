//! The words of a line.
ghost use Rattle.std.specs.Prelude.{◌≡◌, ◌++◌, ◌∷◌, [], OnOk, map};
ghost use Rattle.std.specs.Io.{StartsWith};
ghost use Rattle.mcs_text.specs.Text.{after, line};
ghost use Rattle.mcs_ever_told.specs.Texts.{known_word};
ghost use Rattle.mcs_ever_chain_lines.specs.Lines.{listed};
ghost use Rattle.mcs_ever_chain_lines.specs.stored.Words.{word_of};

use mcs_text::{append_number, append_word};
use mcs_ticks::NoMemory;

/// A part of a line, of one word or more.
#[derive(Clone, Copy)]
pub(crate) enum Word<'a> {
    Number(u64),
    /// A number and a comma.
    Listed(u64),
    Plain(&'a str),
    /// A name and a colon.
    Named(&'a str),
}

/// A number; `-` for `None`.
pub(crate) fn known_word<'s>(number: Option<u64>) -> Word<'s>
    ensures { word_of result ≡ known_word number }
{
    match number {
        Some(number) => Word::Number(number),
        None => Word::Plain("-"),
    }
}

/// A number and a comma; `-` and a comma for `None`.
pub(crate) fn known_listed<'s>(number: Option<u64>) -> Word<'s>
    ensures { word_of result ≡ listed (known_word number) }
{
    match number {
        Some(number) => Word::Listed(number),
        None => Word::Plain("-,"),
    }
}

/// Appends a line of words, with one space between two of them. If memory runs out, a first part of
/// it may have been appended.
pub(crate) fn append_line(
    text: &mut Vec<u8>,
    first: &str,
    words: &[Word<'_>],
) -> Result<(), NoMemory>
    ensures ok { OnOk result (text.new.items ≡ text.old.items ++ line first.now (map word_of words.now)) }
    ensures kept { StartsWith text.new.items text.old.items }
{
    text.extend_from_slice(first.as_bytes())?;
    append_words(text, words)?;
    text.push(b'\n')?;
    Ok(())
}

/// Appends words, each after a space.
fn append_words(text: &mut Vec<u8>, words: &[Word<'_>]) -> Result<(), NoMemory>
    ensures ok { OnOk result (text.new.items ≡ text.old.items ++ after (map word_of words.now)) }
    ensures kept { StartsWith text.new.items text.old.items }
{
    for word in words {
        append_one(text, word)?;
    }
    Ok(())
}

/// Appends a space and a word.
fn append_one(text: &mut Vec<u8>, word: &Word<'_>) -> Result<(), NoMemory>
    ensures ok { OnOk result (text.new.items ≡ text.old.items ++ 32 ∷ word_of word.now) }
    ensures kept { StartsWith text.new.items text.old.items }
{
    match *word {
        Word::Number(number) => append_number(text, number),
        Word::Listed(number) => {
            append_number(text, number)?;
            text.push(b',')?;
            Ok(())
        }
        Word::Plain(word) => append_word(text, word),
        Word::Named(name) => {
            append_word(text, name)?;
            text.push(b':')?;
            Ok(())
        }
    }
}

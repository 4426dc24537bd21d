//! Appends words and numbers to a growing text.
ghost use Rattle.std.specs.Prelude.{◌≡◌, ◌++◌, ◌∷◌, [], OnOk, decimal};
ghost use Rattle.std.specs.Io.{StartsWith};
ghost use Rattle.mcs_text.specs.Text.{after};

use itoa::Buffer;
use mcs_ticks::NoMemory;

/// Appends a space and a word. On `NoMemory` a first part of them may have been appended.
pub fn append_word(text: &mut Vec<u8>, word: &str) -> Result<(), NoMemory>
    ensures ok { OnOk result (text.new.items ≡ text.old.items ++ 32 ∷ word.now) }
    ensures kept { StartsWith text.new.items text.old.items }
{
    text.push(b' ')?;
    text.extend_from_slice(word.as_bytes())?;
    Ok(())
}

/// Appends a space and a number in decimal digits. On `NoMemory` a first part of them may have been
/// appended.
pub fn append_number(text: &mut Vec<u8>, number: u64) -> Result<(), NoMemory>
    ensures ok { OnOk result (text.new.items ≡ text.old.items ++ 32 ∷ decimal number) }
    ensures kept { StartsWith text.new.items text.old.items }
{
    let mut buffer = Buffer::new();
    append_word(text, buffer.format(number))
}

/// Appends a word and a number, each after a space. On `NoMemory` a first part of them may have
/// been appended.
pub(crate) fn append_counted(text: &mut Vec<u8>, word: &str, number: u64) -> Result<(), NoMemory>
    ensures ok { OnOk result (text.new.items ≡ text.old.items ++ after (word.now ∷ decimal number ∷ [])) }
    ensures kept { StartsWith text.new.items text.old.items }
{
    append_word(text, word)?;
    append_number(text, number)
}

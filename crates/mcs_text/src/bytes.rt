//! Writes words, numbers and names into bytes. Each call takes the index at which its text begins,
//! and returns the index after it. Bytes after the text may be overwritten.
ghost use Rattle.std.specs.Prelude.{◌≡◌, ◌+◌, ◌≤◌, ◌<◌, ◌++◌, ◌∷◌, [], length, take, decimal};
ghost use Rattle.mcs_text.specs.Text.{after};

use crate::name::Name;
use itoa::write_digits;

/// Room for the longest row, in bytes: at most 138, for four numbers of 20 digits, two names in
/// blocks of 32 bytes, words, spaces and a line feed.
pub(crate) const LINE: usize = 144;

/// Maximum bytes of a space and a number.
const NUMBER: usize = 21;

/// Writes a space and a word. The bytes must have room for them.
#[inline(always)]
pub fn write_word(bytes: &mut [u8], at: usize, word: &str) -> usize
    requires { at + 1 + length word.now ≤ length bytes.old }
    ensures end { result ≡ at + 1 + length word.now }
    ensures written { take result bytes.new ≡ take at bytes.old ++ 32 ∷ word.now }
{
    let start = at + 1;
    let end = start + word.len();
    bytes[at] = b' ';
    bytes[start..end].copy_from_slice(word.as_bytes());
    end
}

/// Writes a space and a word of at most seven bytes. A block of eight bytes is copied as a whole.
#[inline(always)]
pub(crate) fn write_short(bytes: &mut [u8], at: usize, word: &str) -> usize
    requires short { length word.now ≤ 7 }
    requires room { at + 8 ≤ length bytes.old }
    ensures end { result ≡ at + 1 + length word.now }
    ensures written { take result bytes.new ≡ take at bytes.old ++ 32 ∷ word.now }
{
    let mut block = [b' '; 8];
    let end = 1 + word.len();
    block[1..end].copy_from_slice(word.as_bytes());
    bytes[at..at + 8].copy_from_slice(&block);
    at + end
}

/// Writes a space and a name. Its block is copied as a whole.
#[inline(always)]
pub(crate) fn write_name(bytes: &mut [u8], at: usize, name: &Name) -> usize
    requires { at + 33 ≤ length bytes.old }
    ensures short { result ≤ at + 33 }
    ensures written { take result bytes.new ≡ take at bytes.old ++ 32 ∷ name.now }
{
    let start = at + 1;
    let end = start + name.len();
    let mut block = [0; Name::BLOCK];
    block.copy_from_slice(name.block());
    bytes[at] = b' ';
    bytes[start..start + Name::BLOCK].copy_from_slice(&block);
    end
}

/// Writes a space and a number in decimal digits. The bytes must have room for 20 digits.
#[inline(always)]
pub fn write_number(bytes: &mut [u8], at: usize, number: u64) -> usize
    requires { at + 21 ≤ length bytes.old }
    ensures short { result ≤ at + 21 }
    ensures written { take result bytes.new ≡ take at bytes.old ++ 32 ∷ decimal number }
{
    if number < 10 {
        write_digit(bytes, at, number as u8)
    } else if number < 100 {
        write_two_digits(bytes, at, number as u8)
    } else {
        write_digits_behind(bytes, at, number)
    }
}

/// Writes a space and a number of one digit, as most are.
#[inline(always)]
fn write_digit(bytes: &mut [u8], at: usize, digit: u8) -> usize
    requires digit { digit < 10 }
    requires room { at + 2 ≤ length bytes.old }
    ensures short { result ≤ at + 2 }
    ensures written { take result bytes.new ≡ take at bytes.old ++ 32 ∷ decimal digit }
{
    bytes[at..at + 2].copy_from_slice(&[b' ', b'0' + digit]);
    at + 2
}

/// Writes a space and a number of two digits.
#[inline(always)]
fn write_two_digits(bytes: &mut [u8], at: usize, number: u8) -> usize
    requires digits { (10 ≤ number) × (number < 100) }
    requires room { at + 3 ≤ length bytes.old }
    ensures short { result ≤ at + 3 }
    ensures written { take result bytes.new ≡ take at bytes.old ++ 32 ∷ decimal number }
{
    bytes[at..at + 3].copy_from_slice(&[b' ', b'0' + number / 10, b'0' + number % 10]);
    at + 3
}

/// Writes a space and a number of any length. A block is copied as a whole.
#[inline(never)]
fn write_digits_behind(bytes: &mut [u8], at: usize, number: u64) -> usize
    requires { at + 21 ≤ length bytes.old }
    ensures short { result ≤ at + 21 }
    ensures written { take result bytes.new ≡ take at bytes.old ++ 32 ∷ decimal number }
{
    let mut block = [b' '; 2 * NUMBER];
    let start = write_digits(number, &mut block, NUMBER) - 1;
    let mut text = [0; NUMBER];
    text.copy_from_slice(&block[start..start + NUMBER]);
    bytes[at..at + NUMBER].copy_from_slice(&text);
    at + (NUMBER - start)
}

/// Writes a word and a number, each after a space. The bytes must have room for 20 digits.
#[inline(always)]
pub fn write_counted(bytes: &mut [u8], at: usize, word: &str, number: u64) -> usize
    requires { at + 22 + length word.now ≤ length bytes.old }
    ensures short { result ≤ at + 22 + length word.now }
    ensures written { take result bytes.new ≡ take at bytes.old ++ after (word.now ∷ decimal number ∷ []) }
{
    let digits = write_word(bytes, at, word);
    write_number(bytes, digits, number)
}

/// Writes a number in decimal digits. The bytes must have room for 20 digits.
pub fn write_decimal(bytes: &mut [u8], at: usize, number: u64) -> usize
    requires { at + 20 ≤ length bytes.old }
    ensures short { result ≤ at + 20 }
    ensures written { take result bytes.new ≡ take at bytes.old ++ decimal number }
{
    let end = at + digits(number);
    let _start = write_digits(number, bytes, end);
    end
}

/// Number of digits of a number.
#[inline(always)]
fn digits(number: u64) -> usize
    ensures count { result ≡ length (decimal number) }
    ensures few { result ≤ 20 }
{
    let mut left = number;
    let mut count = 0;
    'eights: while left >= 100_000_000 {
        left /= 100_000_000;
        count += 8;
    }
    if left < 10_000 {
        count + few_digits(left)
    } else {
        count + more_digits(left)
    }
}

/// Number of digits of a number of one to four digits.
#[inline(always)]
fn few_digits(number: u64) -> usize
    requires { number < 10000 }
    ensures { result ≡ length (decimal number) }
{
    if number < 10 {
        1
    } else if number < 100 {
        2
    } else if number < 1_000 {
        3
    } else {
        4
    }
}

/// Number of digits of a number of five to eight digits.
#[inline(always)]
fn more_digits(number: u64) -> usize
    requires { (10000 ≤ number) × (number < 100000000) }
    ensures { result ≡ length (decimal number) }
{
    if number < 100_000 {
        5
    } else if number < 1_000_000 {
        6
    } else if number < 10_000_000 {
        7
    } else {
        8
    }
}

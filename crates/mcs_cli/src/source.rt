//! Sources of bytes.
ghost use Rattle.std.specs.Prelude.{◌≡◌, ◌≢◌, ◌||◌, ℕ, Bool, false, List, Option, IfErr, is_err};
ghost use Rattle.std.specs.Io.{ReadsAtMost};
ghost use Rattle.std.specs.Io.KnownBytes.{ReadConsumes};
ghost use Rattle.std.specs.IoError.{error_kind};
ghost use Rattle.mcs_cli.specs.Devices.{CountsBytes};

use std::io;
use std::io::{ErrorKind, Read};

/// A source of bytes. Contracts see the bytes that are left, if they are known, the number given so
/// far (2^64 - 1 if there were more), and whether a read has failed.
pub trait Source {
    ghost remaining: { Self → Option (List ℕ) };

    ghost given: { Self → ℕ };

    ghost has_failed: { Self → Bool };

    /// Reads at most as many bytes as fit, and returns their number. 0 only at the end, or if
    /// `buffer` is empty. A read that fails takes nothing.
    fn read(&mut self, buffer: &mut [u8]) -> io::Result<usize>
        ensures bound { ReadsAtMost result buffer.new }
        ensures bytes { ReadConsumes (remaining self.old) (remaining self.new) result buffer.new }
        ensures counted { CountsBytes (given self.old) (given self.new) result }
        ensures failed { has_failed self.new ≡ (has_failed self.old || is_err result) };

    /// Whether a read has failed so far.
    fn failed(&self) -> bool
        ensures { result ≡ has_failed self.now };
}

/// A std reader as a source. A read that a signal interrupts is repeated, and is no failure.
#[derive(Drop)]
pub struct FromRead<R: Read> {
    inner: R,
    given: u64,
    failed: bool,
}

impl<R: Read> FromRead<R> {
    /// Returns a source for a reader. It has given nothing and has not failed.
    pub fn new(inner: R) -> FromRead<R>
        ensures bytes { ⟦<FromRead<R> as Source>⟧.remaining result ≡ R.remaining inner }
        ensures given { ⟦<FromRead<R> as Source>⟧.given result ≡ 0 }
        ensures failed { ⟦<FromRead<R> as Source>⟧.has_failed result ≡ false }
    {
        FromRead {
            inner,
            given: 0,
            failed: false,
        }
    }
}

impl<R: Read> Source for FromRead<R> {
    ghost remaining = { λ s. R.remaining s.inner };

    ghost given = { λ s. s.given };

    ghost has_failed = { λ s. s.failed };

    fn read(&mut self, buffer: &mut [u8]) -> io::Result<usize> {
        let result = read_again(&mut self.inner, buffer);
        match result {
            Ok(count) => self.given = self.given.saturating_add(count as u64),
            Err(_) => self.failed = true,
        }
        result
    }

    fn failed(&self) -> bool {
        self.failed
    }
}

/// Reads once, and repeats the read if a signal interrupts it.
fn read_again<R: Read>(reader: &mut R, buffer: &mut [u8]) -> io::Result<usize>
    ensures bound { ReadsAtMost result buffer.new }
    ensures bytes { ReadConsumes (R.remaining reader.old) (R.remaining reader.new) result buffer.new }
    ensures again { IfErr result (λ e. error_kind e ≢ ErrorKind.Interrupted) }
{
    for _ in 0..u64::MAX {
        match reader.read(buffer) {
            Err(fault) if fault.kind() == ErrorKind::Interrupted => {}
            result => return result,
        }
    }
    Err(io::Error::from(ErrorKind::TimedOut))
}

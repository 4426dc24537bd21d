//! Targets of bytes.
ghost use Rattle.std.specs.Prelude.{◌≡◌, ◌≢◌, ◌||◌, ℕ, Bool, false, List, Option, IfErr, is_err};
ghost use Rattle.std.specs.Io.{WritesAtMost};
ghost use Rattle.std.specs.Io.KnownBytes.{Keeps, WriteAppends};
ghost use Rattle.std.specs.IoError.{error_kind};
ghost use Rattle.mcs_cli.specs.Devices.{has_write_failed};

use std::io;
use std::io::{ErrorKind, Write};

/// A target of bytes. Contracts see its bytes, if they are known, and whether a write or a flush
/// has failed. A write of at least one byte that takes no byte has failed, too.
pub trait Target {
    ghost contents: { Self → Option (List ℕ) };

    ghost has_failed: { Self → Bool };

    /// Takes a first part of the bytes, and returns their number. A write that fails takes nothing.
    fn write(&mut self, bytes: &[u8]) -> io::Result<usize>
        ensures bound { WritesAtMost result bytes.now }
        ensures bytes { WriteAppends (contents self.old) (contents self.new) result bytes.now }
        ensures failed { has_failed self.new ≡ (has_failed self.old || has_write_failed bytes.now result) };

    /// Flushes what was written.
    fn flush(&mut self) -> io::Result<()>
        ensures bytes { Keeps (contents self.old) (contents self.new) }
        ensures failed { has_failed self.new ≡ (has_failed self.old || is_err result) };

    /// Whether a write or a flush has failed so far.
    fn failed(&self) -> bool
        ensures { result ≡ has_failed self.now };
}

/// A std writer as a target. A write or flush that a signal interrupts is repeated, and is no
/// failure.
#[derive(Drop)]
pub struct IntoWrite<W: Write> {
    inner: W,
    failed: bool,
}

impl<W: Write> IntoWrite<W> {
    /// Returns a target for a writer. It has not failed yet.
    pub fn new(inner: W) -> IntoWrite<W>
        ensures bytes { ⟦<IntoWrite<W> as Target>⟧.contents result ≡ W.contents inner }
        ensures failed { ⟦<IntoWrite<W> as Target>⟧.has_failed result ≡ false }
    {
        IntoWrite {
            inner,
            failed: false,
        }
    }

    /// Returns the writer, with what was written.
    pub fn into_inner(self) -> W
        ensures { W.contents result ≡ ⟦<IntoWrite<W> as Target>⟧.contents self }
    {
        self.inner
    }
}

impl<W: Write> Target for IntoWrite<W> {
    ghost contents = { λ t. W.contents t.inner };

    ghost has_failed = { λ t. t.failed };

    fn write(&mut self, bytes: &[u8]) -> io::Result<usize> {
        let result = write_again(&mut self.inner, bytes);
        match result {
            Ok(0) => self.failed = self.failed || !bytes.is_empty(),
            Ok(_) => {}
            Err(_) => self.failed = true,
        }
        result
    }

    fn flush(&mut self) -> io::Result<()> {
        let result = flush_again(&mut self.inner);
        self.failed = self.failed || result.is_err();
        result
    }

    fn failed(&self) -> bool {
        self.failed
    }
}

/// Writes once, and repeats the write if a signal interrupts it.
fn write_again<W: Write>(writer: &mut W, bytes: &[u8]) -> io::Result<usize>
    ensures bound { WritesAtMost result bytes.now }
    ensures bytes { WriteAppends (W.contents writer.old) (W.contents writer.new) result bytes.now }
    ensures again { IfErr result (λ e. error_kind e ≢ ErrorKind.Interrupted) }
{
    for _ in 0..u64::MAX {
        match writer.write(bytes) {
            Err(fault) if fault.kind() == ErrorKind::Interrupted => {}
            result => return result,
        }
    }
    Err(io::Error::from(ErrorKind::TimedOut))
}

/// Flushes once, and repeats the flush if a signal interrupts it.
fn flush_again<W: Write>(writer: &mut W) -> io::Result<()>
    ensures bytes { Keeps (W.contents writer.old) (W.contents writer.new) }
    ensures again { IfErr result (λ e. error_kind e ≢ ErrorKind.Interrupted) }
{
    for _ in 0..u64::MAX {
        match writer.flush() {
            Err(fault) if fault.kind() == ErrorKind::Interrupted => {}
            result => return result,
        }
    }
    Err(io::Error::from(ErrorKind::TimedOut))
}

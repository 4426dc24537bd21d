//! Sources and targets in memory that fail on request, and std readers and writers that do.
ghost use Rattle.std.specs.Prelude.{◌≡◌, ◌||◌, false, Some, is_err};
ghost use Rattle.std.specs.Io.{ReadsAtMost, WritesAtMost};
ghost use Rattle.std.specs.Io.KnownBytes.{Keeps, ReadConsumes, WriteAppends};
ghost use Rattle.mcs_cli.specs.Devices.{has_write_failed};

use mcs_cli::{Source, Target};
use std::io;
use std::io::{ErrorKind, Read, Write};

/// Gives the bytes of a slice: 1 to `most` a call, for `calls` calls. Each later call fails.
#[derive(Drop)]
pub struct FailingSlice<'a> {
    rest: &'a [u8],
    most: usize,
    calls: usize,
    given: u64,
    failed: bool,
}

impl<'a> FailingSlice<'a> {
    pub fn new(rest: &'a [u8], most: usize, calls: usize) -> FailingSlice<'a>
        ensures { result.failed ≡ false }
    {
        FailingSlice {
            rest,
            most,
            calls,
            given: 0,
            failed: false,
        }
    }
}

impl<'a> Source for FailingSlice<'a> {
    ghost remaining = { λ s. Some s.rest.now };

    ghost given = { λ s. s.given };

    ghost has_failed = { λ s. s.failed };

    fn read(&mut self, buffer: &mut [u8]) -> io::Result<usize> {
        if self.calls == 0 {
            self.failed = true;
            return Err(io::Error::from(ErrorKind::Other));
        }
        self.calls -= 1;
        let end = buffer.len().min(self.most.max(1));
        let result = self.rest.read(&mut buffer[..end]);
        match result {
            Ok(count) => self.given = self.given.saturating_add(count as u64),
            Err(_) => self.failed = true,
        }
        result
    }

    fn failed(&self) -> bool {
        self.failed
    }
}

/// Keeps what is written: at most `most` bytes a call, for `calls` calls. Each later call fails.
#[derive(Drop)]
pub struct FailingVec {
    pub bytes: Vec<u8>,
    most: usize,
    calls: usize,
    failed: bool,
}

impl FailingVec {
    pub fn new(bytes: Vec<u8>, most: usize, calls: usize) -> FailingVec
        ensures { result.failed ≡ false }
    {
        FailingVec {
            bytes,
            most,
            calls,
            failed: false,
        }
    }
}

impl Target for FailingVec {
    ghost contents = { λ v. Some v.bytes.items };

    ghost has_failed = { λ v. v.failed };

    fn write(&mut self, bytes: &[u8]) -> io::Result<usize> {
        if self.calls == 0 {
            self.failed = true;
            return Err(io::Error::from(ErrorKind::Other));
        }
        self.calls -= 1;
        let count = bytes.len().min(self.most);
        if self.bytes.extend_from_slice(&bytes[..count]).is_err() {
            self.failed = true;
            return Err(io::Error::from(ErrorKind::OutOfMemory));
        }
        self.failed = self.failed || (count == 0 && !bytes.is_empty());
        Ok(count)
    }

    fn flush(&mut self) -> io::Result<()> {
        if self.calls == 0 {
            self.failed = true;
            return Err(io::Error::from(ErrorKind::Other));
        }
        self.calls -= 1;
        Ok(())
    }

    fn failed(&self) -> bool {
        self.failed
    }
}

/// A reader or writer. After `calls` calls without a fault, the next `times` calls have one.
#[derive(Drop)]
pub struct Faulty<D> {
    pub inner: D,
    pub calls: usize,
    pub times: usize,
    pub kind: ErrorKind,
}

impl<D> Faulty<D> {
    fn turn(&mut self) -> io::Result<()> {
        if self.calls > 0 {
            self.calls -= 1;
            return Ok(());
        }
        if self.times == 0 {
            return Ok(());
        }
        self.times -= 1;
        Err(io::Error::from(self.kind))
    }
}

impl<R: Read> Read for Faulty<R> {
    fn read(&mut self, buffer: &mut [u8]) -> io::Result<usize> {
        self.turn()?;
        self.inner.read(buffer)
    }
}

impl<W: Write> Write for Faulty<W> {
    fn write(&mut self, bytes: &[u8]) -> io::Result<usize> {
        self.turn()?;
        self.inner.write(bytes)
    }

    fn flush(&mut self) -> io::Result<()> {
        self.turn()?;
        self.inner.flush()
    }
}

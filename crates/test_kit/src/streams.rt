//! A reader and a writer in memory that fail where a test says, once, and then go on: so a call that
//! tries again after an error is seen.
ghost use Rattle.std.specs.Prelude.{◌≤◌, IfOk};

use std::alloc::Global;
use std::cell::Cell;
use std::io;
use std::io::{ErrorKind, Read, Write};

/// How a call fails.
#[derive(Clone, Copy, Debug)]
pub enum Failure {
    /// By an error of this kind.
    Error(ErrorKind),
    /// It gives or takes none of the bytes.
    Nothing,
}

/// The calls of a reader or a writer.
#[derive(Drop)]
pub struct Calls {
    /// All of them.
    pub all: Cell<u32>,
    /// Those that failed.
    pub failed: Cell<u32>,
    /// Those after one that failed.
    pub late: Cell<u32>,
    /// The bytes that went well.
    pub bytes: Cell<usize>,
}

impl Calls {
    pub fn new() -> Calls {
        Calls {
            all: Cell::new(0),
            failed: Cell::new(0),
            late: Cell::new(0),
            bytes: Cell::new(0),
        }
    }

    fn count(&self) {
        self.all.set(self.all.get().saturating_add(1));
        if self.failed.get() > 0 {
            self.late.set(self.late.get().saturating_add(1));
        }
    }

    fn fail(&self) {
        self.failed.set(self.failed.get().saturating_add(1));
    }

    fn pass(&self, count: usize) {
        self.bytes.set(self.bytes.get().saturating_add(count));
    }
}

/// Where calls fail, and how many bytes one takes.
#[derive(Clone, Copy)]
pub struct Pace {
    /// The most bytes of a call.
    pub step: usize,
    /// How many bytes go well before a call fails.
    pub good: Option<usize>,
    /// How it fails.
    pub failure: Failure,
}

impl Pace {
    /// Calls of `step` bytes at most. None of them fails.
    pub fn steps(step: usize) -> Pace {
        Pace {
            step,
            good: None,
            failure: Failure::Nothing,
        }
    }

    /// Calls of `step` bytes at most, until `good` bytes went well.
    pub fn failing(step: usize, good: usize, failure: Failure) -> Pace {
        Pace {
            step,
            good: Some(good),
            failure,
        }
    }

    // How many of `count` bytes this call takes.
    fn take(&mut self, count: usize, calls: &Calls) -> io::Result<usize>
        ensures { IfOk result (λ taken. taken ≤ count) }
    {
        calls.count();
        let count = count.min(self.step);
        let Some(good) = self.good else {
            return Ok(count);
        };
        if good == 0 {
            self.good = None;
            calls.fail();
            return match self.failure {
                Failure::Error(kind) => Err(io::Error::from(kind)),
                Failure::Nothing => Ok(0),
            };
        }
        let count = count.min(good);
        self.good = Some(good - count);
        Ok(count)
    }
}

/// Gives a text.
#[derive(Drop)]
pub struct FakeReader<'a> {
    rest: &'a [u8],
    pace: Pace,
    calls: &'a Calls,
}

impl<'a> FakeReader<'a> {
    pub fn new(text: &'a [u8], pace: Pace, calls: &'a Calls) -> FakeReader<'a> {
        FakeReader {
            rest: text,
            pace,
            calls,
        }
    }
}

impl Read for FakeReader<'_> {
    fn read(&mut self, buf: &mut [u8]) -> io::Result<usize> {
        let most = self.rest.len().min(buf.len());
        let count = self.pace.take(most, self.calls)?;
        let (given, rest) = self.rest.split_at(count);
        buf[..count].copy_from_slice(given);
        self.rest = rest;
        self.calls.pass(count);
        Ok(count)
    }
}

/// Keeps what it is given.
#[derive(Drop)]
pub struct FakeWriter<'a> {
    /// What it was given.
    pub text: Vec<u8>,
    pace: Pace,
    calls: &'a Calls,
}

impl<'a> FakeWriter<'a> {
    pub fn new(alloc: Global, pace: Pace, calls: &'a Calls) -> FakeWriter<'a> {
        FakeWriter {
            text: Vec::new(alloc),
            pace,
            calls,
        }
    }
}

impl Write for FakeWriter<'_> {
    fn write(&mut self, buf: &[u8]) -> io::Result<usize> {
        let count = self.pace.take(buf.len(), self.calls)?;
        self.text.extend_from_slice(&buf[..count])?;
        self.calls.pass(count);
        Ok(count)
    }

    fn flush(&mut self) -> io::Result<()> {
        Ok(())
    }
}

//! Sources and sinks over readers and writers of all paces.

use std::alloc::{AllocError, Global};
use std::io::{ErrorKind, Read};
use std::test::Fail;
use test_kit::{Calls, Failure, FakeReader, FakeWriter, Pace, holds};
use uca_weights::{Sink, Source, WriteFault};

/// What came of writing to a writer in memory.
#[derive(Drop)]
pub struct Written {
    /// How many bytes went out before an error, as the error says, if there was one.
    fault: Option<u64>,
    /// Whether the sink says that it failed.
    is_failed: bool,
    /// Whether the writer was called again after a call that failed.
    is_late: bool,
    /// All that the writer took.
    text: Vec<u8>,
}

impl Written {
    /// What is left of a sink and of its calls.
    pub fn new(end: Result<(), WriteFault>, sink: Sink<FakeWriter>, calls: &Calls) -> Written {
        Written {
            fault: end.err().map(|fault| fault.written),
            is_failed: sink.failed(),
            is_late: calls.late.get() > 0,
            text: sink.into_inner().text,
        }
    }

    /// Fails unless all of a text went out, and nothing failed.
    pub fn check(&self, text: &[u8]) -> Result<(), Fail> {
        let is_sound = self.fault.is_none() && !self.is_failed;
        holds(is_sound && self.text.as_slice() == text, "not all")
    }

    /// Fails unless this many bytes of a text went out before an error that says so, and nothing was tried again.
    pub fn check_cut(&self, text: &[u8], good: usize) -> Result<(), Fail> {
        let is_told = self.fault == Some(good as u64) && self.is_failed && !self.is_late;
        let is_cut = Some(self.text.as_slice()) == text.get(..good);
        holds(is_told && is_cut, "another fault, or other bytes")
    }
}

/// How many bytes a call takes, of those that are swept over.
pub const STEPS: [usize; 7] = [1, 2, 3, 7, 4095, 4096, 4097];

/// The most bytes of a text.
pub const LONGEST: usize = 20_000;

/// This many bytes. No two neighbours are equal.
pub fn many_bytes(alloc: Global, count: usize) -> Result<Vec<u8>, AllocError> {
    let mut text = Vec::new(alloc);
    for at in 0..count {
        text.push((at % 251) as u8)?;
    }
    Ok(text)
}

/// All that a source gives.
fn read_all<R: Read>(alloc: Global, source: &mut Source<R>, most: usize) -> Result<Vec<u8>, Fail> {
    let mut text = Vec::new(alloc);
    let mut buf = vec![in alloc; 0u8; 4096]?;
    for _ in 0..most {
        let count = source.read(buf.as_mut_slice())?;
        if count == 0 {
            break;
        }
        text.extend_from_slice(&buf[..count])?;
    }
    Ok(text)
}

/// A source gives all bytes of a sound reader, and has not failed.
fn check_read(alloc: Global, text: &[u8], step: usize) -> Result<(), Fail> {
    let calls = Calls::new();
    let mut source = Source::new(FakeReader::new(text, Pace::steps(step), &calls));
    let found = read_all(alloc, &mut source, text.len().saturating_add(1))?;
    holds(
        found.as_slice() == text && !source.failed(),
        "another text, or the source failed",
    )
}

/// A sink writes all bytes to a writer without errors, and has not failed.
fn check_write(alloc: Global, text: &[u8], step: usize) -> Result<(), Fail> {
    let calls = Calls::new();
    let mut sink = Sink::new(FakeWriter::new(alloc, Pace::steps(step), &calls));
    let result = sink.write_all(text);
    Written::new(result, sink, &calls).check(text)
}

/// Both, of the first bytes of a text.
fn check_both(alloc: Global, text: &[u8], length: usize, step: usize) -> Result<(), Fail> {
    let part = text.get(..length).ok_or("a short text")?;
    check_read(alloc, part, step)?;
    check_write(alloc, part, step)
}

#[test]
fn each_length_at_once(rt: HostRuntime) -> Result<(), Fail> {
    let text = many_bytes(rt.alloc(), LONGEST)?;
    for length in 0..LONGEST {
        check_both(rt.alloc(), &text, length, usize::MAX)?;
    }
    Ok(())
}

#[test]
fn lengths_in_steps(rt: HostRuntime) -> Result<(), Fail> {
    let text = many_bytes(rt.alloc(), LONGEST)?;
    for step in STEPS {
        for round in 0..60usize {
            check_both(rt.alloc(), &text, round * 333, step)?;
        }
    }
    Ok(())
}

/// A call that fails gives an error, is remembered, and is not made again; the next call goes on.
fn check_failed_read(kind: ErrorKind, good: usize) -> Result<(), Fail> {
    let calls = Calls::new();
    let pace = Pace::failing(1, good, Failure::Error(kind));
    let mut source = Source::new(FakeReader::new(b"abcde", pace, &calls));
    let mut buf = [0u8; 4];
    for _ in 0..good {
        source.read(&mut buf)?;
    }
    let is_early = source.failed();
    let is_told = source.read(&mut buf).is_err() && source.failed();
    let is_late = calls.late.get() > 0;
    let _ = source.read(&mut buf);
    holds(
        !is_early && is_told && !is_late && source.failed(),
        "failed before, no fault, tried again, or forgotten",
    )
}

#[test]
fn reads_that_fail(_rt: HostRuntime) -> Result<(), Fail> {
    for kind in [ErrorKind::Interrupted, ErrorKind::Other] {
        for good in 0..6 {
            check_failed_read(kind, good)?;
        }
    }
    Ok(())
}

/// A write that fails says how many bytes went out, and is not made again.
fn check_failed_write(alloc: Global, failure: Failure, good: usize) -> Result<(), Fail> {
    let calls = Calls::new();
    let pace = Pace::failing(2, good, failure);
    let mut sink = Sink::new(FakeWriter::new(alloc, pace, &calls));
    let result = sink.write_all(b"abcde");
    Written::new(result, sink, &calls).check_cut(b"abcde", good)
}

#[test]
fn writes_that_fail(rt: HostRuntime) -> Result<(), Fail> {
    for good in 0..5 {
        check_failed_write(rt.alloc(), Failure::Error(ErrorKind::Interrupted), good)?;
        check_failed_write(rt.alloc(), Failure::Error(ErrorKind::Other), good)?;
        check_failed_write(rt.alloc(), Failure::Nothing, good)?;
    }
    Ok(())
}

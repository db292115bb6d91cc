//! `Answer`: what comes of a call, its end, what went out and which streams failed; and `Wanted`, what should come of it.

use crate::cases::Case;
use crate::libraries::{makes, reads, writes};
use crate::runs::runs;
use crate::streams::{AllCalls, NONE, Streams, Trouble, alone};
use std::alloc::Global;
use std::test::Fail;
use test_kit::{Refusing, holds, same};

/// What a call works in.
#[derive(Clone, Copy)]
pub struct Memory<'a> {
    /// Enough memory.
    pub ample: Global,
    /// Memory in which an allocation may be rejected.
    pub tried: &'a Refusing,
}

/// What comes of a call.
#[derive(Drop)]
pub struct Answer {
    /// What is said of its end.
    pub end: String,
    /// What went out.
    pub out: Vec<u8>,
    /// What went out to the file of a certificate.
    pub file: Vec<u8>,
    /// Which streams say that they failed.
    pub failed: [bool; NONE],
    /// Whether a call of a reader or of a writer failed.
    pub is_broken: bool,
}

/// What comes of a call if nothing fails, or what should come of it.
#[derive(Clone, Copy)]
pub struct Wanted<'a> {
    /// What is said of its end.
    pub end: &'a str,
    /// What goes out.
    pub out: &'a [u8],
    /// What goes out to the file of a certificate.
    pub file: &'a [u8],
    /// The stream that fails.
    pub stream: usize,
}

impl Answer {
    /// Fails unless this is wanted.
    pub fn check(&self, wanted: Wanted, case: &str) -> Result<(), Fail> {
        same(&self.end, wanted.end, case)?;
        let has_gone_out = self.out.as_slice() == wanted.out && self.file.as_slice() == wanted.file;
        holds(has_gone_out && self.failed == alone(wanted.stream), case)
    }
}

// What is said of the end of a call.
fn end_of(memory: Memory, streams: &mut Streams, name: &str) -> Result<String, Fail> {
    let (kind, what) = name.split_once(' ').ok_or("a name of one word")?;
    match kind {
        "read" => reads(memory, streams, what),
        "write" => writes(memory, streams, what),
        "make" => makes(memory, streams, what),
        _ => runs(memory, streams, what),
    }
}

// What is said of the end of a call, and what went out.
fn answer_over(
    memory: Memory,
    mut streams: Streams,
    calls: &AllCalls,
    name: &str,
) -> Result<Answer, Fail> {
    let end = end_of(memory, &mut streams, name);
    let failed = streams.failed();
    let [file, out] = streams.into_texts();
    Ok(Answer {
        end: end?,
        out,
        file,
        failed,
        is_broken: calls.have_failed(),
    })
}

// No stream was called again after it failed, and all memory that was tried is given back.
fn check_after(memory: Memory, calls: &AllCalls) -> Result<(), Fail> {
    holds(!calls.are_late(), "a call after one that failed")?;
    holds(memory.tried.held() == 0, "memory that is not given back")
}

/// What comes of a call over fresh streams. No stream is called again after it failed, and all memory that was tried is
/// given back.
pub fn answered(memory: Memory, case: &Case, trouble: Trouble) -> Result<Answer, Fail> {
    let calls = AllCalls::new();
    let streams = Streams::new(memory.ample, &case.texts, trouble, &calls);
    let found = answer_over(memory, streams, &calls, case.name)?;
    match check_after(memory, &calls) {
        Ok(()) => Ok(found),
        Err(fail) => {
            drop(found);
            Err(fail)
        }
    }
}

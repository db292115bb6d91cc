//! Buffered output, in pieces of all sizes.

use crate::streams::{LONGEST, Written, many_bytes};
use std::alloc::Global;
use std::io::ErrorKind;
use std::test::Fail;
use test_kit::{Calls, Failure, FakeWriter, Pace, holds};
use uca_lines::OutputBuffer;
use uca_weights::{Sink, WriteFault};

/// The sizes of pieces.
const PIECES: [usize; 9] = [1, 2, 3, 7, 4096, 65_535, 65_536, 65_537, 200_000];

/// Writes the text in pieces, and lets all of it go out.
fn write_in_pieces(
    out: &mut Sink<FakeWriter>,
    text: &[u8],
    piece: usize,
) -> Result<(), WriteFault> {
    let mut buffer = OutputBuffer::new();
    let mut rest = text;
    while !rest.is_empty() {
        let (part, later) = rest.split_at(rest.len().min(piece.max(1)));
        buffer.write(out, part)?;
        rest = later;
    }
    buffer.flush(out)
}

/// All goes out in order, by this many calls at most.
fn check_pieces(alloc: Global, text: &[u8], piece: usize, most: u32) -> Result<(), Fail> {
    let calls = Calls::new();
    let mut out = Sink::new(FakeWriter::new(alloc, Pace::steps(usize::MAX), &calls));
    let result = write_in_pieces(&mut out, text, piece);
    Written::new(result, out, &calls).check(text)?;
    holds(calls.all.get() <= most, "more calls")
}

/// The first bytes of a text.
fn check_first(alloc: Global, text: &[u8], length: usize, piece: usize) -> Result<(), Fail> {
    let part = text.get(..length).ok_or("a short text")?;
    check_pieces(alloc, part, piece, 4)
}

#[test]
fn pieces_of_each_size(rt: HostRuntime) -> Result<(), Fail> {
    let text = many_bytes(rt.alloc(), 200_000)?;
    for piece in PIECES {
        for length in [0, 1, 65_535, 65_536, 65_537, 131_072, 199_999, 200_000] {
            check_first(rt.alloc(), &text, length, piece)?;
        }
    }
    Ok(())
}

#[test]
fn each_length_in_pieces(rt: HostRuntime) -> Result<(), Fail> {
    let text = many_bytes(rt.alloc(), 66_000)?;
    for length in 0..LONGEST {
        check_first(rt.alloc(), &text, length, 4096)?;
    }
    for length in 65_000..66_000 {
        check_first(rt.alloc(), &text, length, 4096)?;
    }
    Ok(())
}

/// An error says how many of all bytes went out.
fn check_failed(alloc: Global, text: &[u8], failure: Failure, good: usize) -> Result<(), Fail> {
    let calls = Calls::new();
    let pace = Pace::failing(usize::MAX, good, failure);
    let mut out = Sink::new(FakeWriter::new(alloc, pace, &calls));
    let result = write_in_pieces(&mut out, text, 1000);
    Written::new(result, out, &calls).check_cut(text, good)
}

#[test]
fn a_fault_counts_from_the_first_byte(rt: HostRuntime) -> Result<(), Fail> {
    let text = many_bytes(rt.alloc(), 200_000)?;
    for good in [0, 1, 65_536, 65_537, 120_000, 199_999] {
        check_failed(
            rt.alloc(),
            &text,
            Failure::Error(ErrorKind::Interrupted),
            good,
        )?;
        check_failed(rt.alloc(), &text, Failure::Nothing, good)?;
    }
    Ok(())
}

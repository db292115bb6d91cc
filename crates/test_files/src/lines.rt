//! Tests how a source is read line by line: where a line ends, and which error comes where.

use crate::streams::{LONGEST, STEPS, many_bytes};
use std::alloc::{AllocError, Allocator, Global};
use std::io::{ErrorKind, Read};
use std::test::Fail;
use test_kit::{Calls, Failure, FakeReader, Pace, bytes_of, halves, holds, same};
use uca_lines::{LineFault, LineReader, NextLine};
use uca_weights::Source;

/// What comes next: `+` where LF ended the line, `-` where none did; `$` at the end.
fn name_of(next: NextLine) -> &'static str {
    match next {
        NextLine::Terminated => "+",
        NextLine::Unterminated => "-",
        NextLine::EndOfInput => "$",
    }
}

fn fault_name(fault: LineFault) -> &'static str {
    match fault {
        LineFault::TooLong => "TooLong",
        LineFault::Limit => "Limit",
        LineFault::Read => "Read",
        LineFault::Memory => "Memory",
    }
}

/// The next line and its kind, or the error's name, in the memory of an allocator.
fn next_in<A: Allocator, R: Read>(
    reader: &mut LineReader,
    source: &mut Source<R>,
    line: &mut Vec<u8, A>,
) -> &'static str {
    match reader.next_line(source, line) {
        Ok(next) => name_of(next),
        Err(fault) => fault_name(fault),
    }
}

/// All lines of a source, each with its kind.
fn lines_of<R: Read>(
    alloc: Global,
    source: &mut Source<R>,
    longest: usize,
    most: usize,
) -> Result<Vec<u8>, AllocError> {
    let mut reader = LineReader::new(longest);
    let mut line = Vec::new(alloc);
    let mut said = Vec::new(alloc);
    for _ in 0..most {
        let name = next_in(&mut reader, source, &mut line);
        let is_line = name == "+" || name == "-";
        if is_line {
            said.extend_from_slice(&line)?;
        }
        said.extend_from_slice(name.as_bytes())?;
        if !is_line {
            break;
        }
    }
    Ok(said)
}

/// A text, and its lines of at most three bytes.
const LINES: &str = r" | $
\n | +$
\n\nab\r\n\nc | ++ab\x0D++c-$
abc\nabc | abc+abc-$
abc\nabcd\n | abc+TooLong
abcd | TooLong";

/// The lines of a text over a reader that gives this many bytes a call.
fn lines_at(alloc: Global, text: &[u8], step: usize) -> Result<Vec<u8>, AllocError> {
    let calls = Calls::new();
    let mut source = Source::new(FakeReader::new(text, Pace::steps(step), &calls));
    lines_of(alloc, &mut source, 3, 20)
}

fn check_lines(alloc: Global, case: &str, step: usize) -> Result<(), Fail> {
    let (text, wanted) = halves(case)?;
    let said = lines_at(alloc, &bytes_of(alloc, text)?, step)?;
    holds(said.as_slice() == bytes_of(alloc, wanted)?.as_slice(), case)
}

#[test]
fn lines_end_at_lf_or_at_the_end(rt: HostRuntime) -> Result<(), Fail> {
    for case in LINES.lines() {
        for step in [1, 2, 9] {
            check_lines(rt.alloc(), case, step)?;
        }
    }
    Ok(())
}

/// After how many bytes a reader of `ab`, LF, `c` fails, and the lines.
const BROKEN: &str = "0 | Read
1 | Read
2 | Read
3 | ab+Read
4 | ab+Read";

fn check_broken(alloc: Global, case: &str, kind: ErrorKind) -> Result<(), Fail> {
    let (good, wanted) = halves(case)?;
    let calls = Calls::new();
    let pace = Pace::failing(9, good.parse::<usize>()?, Failure::Error(kind));
    let mut source = Source::new(FakeReader::new(b"ab\nc", pace, &calls));
    let said = lines_of(alloc, &mut source, 9, 20)?;
    let is_told = source.failed() && calls.late.get() == 0;
    holds(is_told && said.as_slice() == wanted.as_bytes(), case)
}

#[test]
fn a_failed_read_ends_the_line(rt: HostRuntime) -> Result<(), Fail> {
    for case in BROKEN.lines() {
        for kind in [ErrorKind::Interrupted, ErrorKind::Other] {
            check_broken(rt.alloc(), case, kind)?;
        }
    }
    Ok(())
}

/// A text without LF is one line, and LF after it ends it.
fn check_line(alloc: Global, text: &[u8], step: usize, name: &str) -> Result<(), Fail> {
    let calls = Calls::new();
    let mut source = Source::new(FakeReader::new(text, Pace::steps(step), &calls));
    let mut reader = LineReader::new(LONGEST);
    let mut line = Vec::new(alloc);
    let found = next_in(&mut reader, &mut source, &mut line);
    let is_line = found == name && Some(line.as_slice()) == text.get(..line.len());
    let is_end = next_in(&mut reader, &mut source, &mut line) == "$" && !source.failed();
    holds(is_line && is_end, "another line, or no end")
}

/// A line of this many bytes, without LF and with it.
fn check_length(alloc: Global, length: usize, step: usize) -> Result<(), Fail> {
    let mut text = vec![in alloc; b'x'; length]?;
    check_line(alloc, &text, step, if length == 0 { "$" } else { "-" })?;
    text.push(b'\n')?;
    check_line(alloc, &text, step, "+")
}

#[test]
fn each_length_of_a_line(rt: HostRuntime) -> Result<(), Fail> {
    for length in 0..LONGEST {
        check_length(rt.alloc(), length, usize::MAX)?;
    }
    Ok(())
}

#[test]
fn lengths_of_lines_in_steps(rt: HostRuntime) -> Result<(), Fail> {
    for step in STEPS {
        for round in 0..30usize {
            check_length(rt.alloc(), round * 666, step)?;
        }
    }
    Ok(())
}

/// A text is one byte longer than the longest line.
fn check_too_long(alloc: Global, text: &[u8]) -> Result<(), Fail> {
    let longest = text.len().saturating_sub(1);
    let said = lines_of(alloc, &mut Source::new(text), longest, 3)?;
    holds(said.as_slice() == b"TooLong".as_slice(), "a long line")
}

#[test]
fn one_byte_more_is_too_long(rt: HostRuntime) -> Result<(), Fail> {
    check_too_long(rt.alloc(), &many_bytes(rt.alloc(), 9)?)?;
    check_too_long(rt.alloc(), &vec![in rt.alloc(); b'x'; 40_000]?)
}

/// A million empty lines come, and then this.
fn check_many(alloc: Global, text: &[u8], wanted: &str) -> Result<(), Fail> {
    let mut source = Source::new(text);
    let mut reader = LineReader::new(1);
    let mut line = Vec::new(alloc);
    for _ in 0..1_000_000 {
        same(
            next_in(&mut reader, &mut source, &mut line),
            "+",
            "an empty line",
        )?;
    }
    same(
        next_in(&mut reader, &mut source, &mut line),
        wanted,
        "after a million",
    )?;
    holds(reader.number() == 1_000_000, "another number")
}

#[test]
fn at_most_a_million_lines(rt: HostRuntime) -> Result<(), Fail> {
    let mut text = vec![in rt.alloc(); b'\n'; 1_000_000]?;
    check_many(rt.alloc(), &text, "$")?;
    text.extend_from_slice(b"too long")?;
    check_many(rt.alloc(), &text, "Limit")
}

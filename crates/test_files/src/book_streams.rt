//! Books: sources and writers that fail, and books that are made by calls.

use std::alloc::Global;
use std::io::ErrorKind;
use std::test::Fail;
use test_kit::{Calls, Failure, FakeReader, FakeWriter, Pace, holds};
use uca_books::{Book, FaultKind, read_book, write_book};
use uca_weights::{Sink, Source};

/// The text of the book that is made.
const TEXT: &[u8] = b"@book 1\n1 1C47\n1 FFFF\n4 FFFE\n";

/// After this many bytes the source fails.
fn check_broken(alloc: Global, good: usize, wanted: &str) -> Result<(), Fail> {
    let calls = Calls::new();
    let pace = Pace::failing(3, good, Failure::Error(ErrorKind::Other));
    let mut source = Source::new(FakeReader::new(TEXT, pace, &calls));
    let is_told = match read_book(alloc, &mut source) {
        Ok(_) => false,
        Err(fault) => fault.message().as_str() == wanted,
    };
    holds(is_told && source.failed() && calls.late.get() == 0, wanted)
}

/// After how many bytes the source fails, and the error.
const BROKEN: &[(usize, &str)] = &[
    (0, "line 1: Read"),
    (7, "line 1: Read"),
    (8, "line 2: Read"),
    (28, "line 4: Read"),
];

#[test]
fn sources_that_fail(rt: HostRuntime) -> Result<(), Fail> {
    for (good, wanted) in BROKEN {
        check_broken(rt.alloc(), *good, wanted)?;
    }
    Ok(())
}

/// The level of a start, its weight, and the end of a call that adds it to those before.
type Start = (u8, u16, Result<(), FaultKind>);

/// Three starts are added, and nothing else.
const STARTS: &[Start] = &[
    (1, 1, Err(FaultKind::Weight)),
    (1, 0x1C47, Ok(())),
    (1, 0x1C47, Err(FaultKind::Order)),
    (1, 0xFFFF, Ok(())),
    (4, 1, Err(FaultKind::Weight)),
    (4, 0xFFFF, Err(FaultKind::Weight)),
    (4, 0xFFFE, Ok(())),
    (4, 0xFFFE, Err(FaultKind::Order)),
    (1, 0xFFFF, Err(FaultKind::Order)),
];

/// Whether each call ends so.
fn are_pushed(book: &mut Book) -> bool {
    let mut is_so = true;
    for (level, weight, wanted) in STARTS {
        let found = match level {
            1 => book.push_letter(*weight),
            _ => book.push_variable(*weight),
        };
        is_so = is_so && found == *wanted;
    }
    is_so
}

/// The book with these starts.
fn made(alloc: Global) -> Result<Book, Fail> {
    let mut book = Book::new(alloc);
    if are_pushed(&mut book) {
        Ok(book)
    } else {
        drop(book);
        Err(Fail::new("what is added"))
    }
}

/// The text of a book is written.
fn check_written(alloc: Global, book: &Book) -> Result<(), Fail> {
    let mut out = Sink::new(Vec::new(alloc));
    let is_written = write_book(book, &mut out).is_ok();
    let text = out.into_inner();
    holds(is_written && text.as_slice() == TEXT, "the text of a book")
}

/// After this many bytes the writer fails.
fn check_cut(alloc: Global, book: &Book, good: usize) -> Result<(), Fail> {
    let calls = Calls::new();
    let pace = Pace::failing(4, good, Failure::Error(ErrorKind::Other));
    let mut out = Sink::new(FakeWriter::new(alloc, pace, &calls));
    let is_told = match write_book(book, &mut out) {
        Ok(()) => false,
        Err(fault) => fault.written == good as u64,
    };
    let is_told = is_told && out.failed();
    let is_front = TEXT.get(..good) == Some(out.into_inner().text.as_slice());
    holds(is_told && is_front, "a writer that fails")
}

/// All of a book is written, or what comes before the writer fails.
fn check_made(alloc: Global, book: &Book) -> Result<(), Fail> {
    check_written(alloc, book)?;
    for good in [0, 1, 8, 15, 28] {
        check_cut(alloc, book, good)?;
    }
    Ok(())
}

#[test]
fn books_that_are_made(rt: HostRuntime) -> Result<(), Fail> {
    let book = made(rt.alloc())?;
    let found = check_made(rt.alloc(), &book);
    drop(book);
    found
}

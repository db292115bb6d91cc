//! Books that are read, and the same books written.

use std::alloc::{AllocError, Global};
use std::fmt::Write;
use std::test::Fail;
use test_kit::{bytes_of, halves, holds, is_remark, joined, same};
use uca_books::{Book, read_book, write_book};
use uca_weights::{Sink, Source};

/// The bytes of a file, and what is said of them: the starts of level 1 and those of level 4, or the error.
const CASES: &str = r"-- books
@book 1\n | ;
@book 1\n1 0002\n1 1C47\n1 1C48\n1 FFFF\n | 0002 1C47 1C48 FFFF ;
@book 1\n4 0002\n4 0200\n4 FFFE\n | ; 0002 0200 FFFE
@book 1\n1 1C47\n4 0209\n | 1C47 ; 0209
@book 1\n1 FFFF\n4 0002\n | FFFF ; 0002
-- the first line
 | line 1: Order
\n | line 1: Order
@book 2\n | line 1: Order
@book 1 \n | line 1: Order
@book 1\r\n | line 1: Order
1 1C47\n | line 1: Order
@book 1 | line 1: Line
-- the level
@book 1\n\n | line 2: Line
@book 1\n@book 1\n | line 2: Line
@book 1\n2 1C47\n | line 2: Line
@book 1\n3 1C47\n | line 2: Line
@book 1\n 1 1C47\n | line 2: Line
@book 1\n1\t1C47\n | line 2: Line
@book 1\n1\n | line 2: Line
@book 1\n# a remark\n | line 2: Line
-- the weight
@book 1\n1 \n | line 2: Weight
@book 1\n1 1c47\n | line 2: Weight
@book 1\n1 1C4\n | line 2: Weight
@book 1\n1 01C47\n | line 2: Weight
@book 1\n1  1C47\n | line 2: Weight
@book 1\n1 1C47 \n | line 2: Weight
@book 1\n1 1C47\r\n | line 2: Weight
@book 1\n1 1C47 1C48\n | line 2: Weight
@book 1\n1 1C4\x00\n | line 2: Weight
@book 1\n1 0000\n | line 2: Weight
@book 1\n1 0001\n | line 2: Weight
@book 1\n4 0000\n | line 2: Weight
@book 1\n4 0001\n | line 2: Weight
@book 1\n4 FFFF\n | line 2: Weight
-- their order
@book 1\n1 1C47\n1 1C47\n | line 3: Order
@book 1\n1 1C48\n1 1C47\n | line 3: Order
@book 1\n4 0209\n4 0209\n | line 3: Order
@book 1\n4 0209\n4 0208\n | line 3: Order
@book 1\n4 0209\n1 1C47\n | line 3: Order
@book 1\n1 1C48\n1 0001\n | line 3: Weight
-- the last line
@book 1\n1 1C47 | line 2: Line
@book 1\n1 0001 | line 2: Weight
@book 1\n1 1C48\n1 1C47 | line 3: Order";

/// The starts of a level, each after a space.
fn spelled(alloc: Global, starts: &[u16]) -> Result<String, Fail> {
    let mut text = String::new(alloc);
    for start in starts {
        write!(text, "{start:04X} ")?;
    }
    Ok(text)
}

/// The starts of a book.
pub fn starts_of(alloc: Global, book: &Book) -> Result<String, Fail> {
    let letters = spelled(alloc, book.letters())?;
    let variables = spelled(alloc, book.variables())?;
    let text = joined(alloc, &[letters.as_str(), "; ", variables.as_str()])?;
    Ok(String::from_str(alloc, text.as_str().trim())?)
}

/// The starts of a book, which is written as it was read.
fn read_again(alloc: Global, book: &Book, text: &[u8]) -> Result<String, Fail> {
    let mut out = Sink::new(Vec::new(alloc));
    let is_written = write_book(book, &mut out).is_ok();
    let written = out.into_inner();
    holds(is_written && written.as_slice() == text, "another text")?;
    starts_of(alloc, book)
}

/// The starts of the book that a text is, or the message of its error.
fn said(alloc: Global, text: &[u8]) -> Result<String, Fail> {
    match read_book(alloc, &mut Source::new(text)) {
        Ok(book) => {
            let starts = read_again(alloc, &book, text);
            drop(book);
            starts
        }
        Err(fault) => Ok(String::from_str(alloc, fault.message().as_str())?),
    }
}

fn check_case(alloc: Global, case: &str) -> Result<(), Fail> {
    let (field, wanted) = halves(case)?;
    let text = bytes_of(alloc, field)?;
    same(&said(alloc, &text)?, wanted, case)
}

#[test]
fn texts(rt: HostRuntime) -> Result<(), Fail> {
    for case in CASES.lines() {
        if !is_remark(case) {
            check_case(rt.alloc(), case)?;
        }
    }
    Ok(())
}

/// Adds this many starts of a level, from 0002 on.
fn push_starts(text: &mut String, level: u8, count: u16) -> Result<(), AllocError> {
    for at in 0..count {
        writeln!(text, "{level} {:04X}", at.saturating_add(2))?;
    }
    Ok(())
}

/// The text of a book with this many starts of each level, and another line.
fn long_text(
    alloc: Global,
    letters: u16,
    variables: u16,
    more: &str,
) -> Result<String, AllocError> {
    let mut text = String::from_str(alloc, "@book 1\n")?;
    push_starts(&mut text, 1, letters)?;
    push_starts(&mut text, 4, variables)?;
    text.push_str(more)?;
    Ok(text)
}

/// How many starts a text has of levels 1 and 4, another line, and the message of the error. There is none where it is a book.
type Long = (u16, u16, &'static str, &'static str);

/// A start too many may come with an earlier cause: the last starts of a level are 00F6 and 0100.
const LONG: &[Long] = &[
    (245, 255, "", ""),
    (246, 0, "", "line 247: Limit"),
    (0, 256, "", "line 257: Limit"),
    (245, 256, "", "line 502: Limit"),
    (245, 0, "1 00F6\n", "line 247: Order"),
    (245, 0, "1 0001\n", "line 247: Weight"),
    (245, 1, "1 FFFF\n", "line 248: Order"),
    (0, 255, "4 0100\n", "line 257: Order"),
    (0, 255, "4 FFFF\n", "line 257: Weight"),
];

fn check_long(alloc: Global, (letters, variables, more, wanted): Long) -> Result<(), Fail> {
    let text = long_text(alloc, letters, variables, more)?;
    let found = said(alloc, text.as_bytes())?;
    let is_book = !found.starts_with("line");
    holds(is_book == wanted.is_empty(), wanted)?;
    holds(is_book || found.as_str() == wanted, wanted)
}

#[test]
fn most_starts(rt: HostRuntime) -> Result<(), Fail> {
    for case in LONG {
        check_long(rt.alloc(), *case)?;
    }
    Ok(())
}

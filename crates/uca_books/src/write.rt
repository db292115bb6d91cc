//! Writes a book: a line for each start.

ghost use Rattle.std.specs.Prelude.{◌≡◌, ◌||◌, ◌<◌, IfErr, length, is_err};
ghost use Rattle.uca_weights.specs.Writes.{Writes};
ghost use Rattle.uca_lines.specs.Buffered.{count_of, HasRoom, WritesThrough};
ghost use Rattle.uca_lines.specs.Lines.{ended};
ghost use Rattle.uca_books.specs.BookTexts.{Means, book_text, start_line};
ghost use Rattle.uca_books.specs.inside.Steps.{starts_text};

use crate::Book;
use std::alloc::Allocator;
use std::io::Write;
use uca_lines::OutputBuffer;
use uca_lines::fields::four_digits;
use uca_weights::{Sink, WriteFault};

/// Writes the text of a book: `@book 1`, then a line `1 WEIGHT` for each start of level 1, then a line `4 WEIGHT` for each
/// start of level 4. Each line ends with LF. This text means the book, and no other one.
///
/// # Errors
///
/// The writer failed: `written` says how many bytes went out, counted from the beginning of the text.
pub fn write_book<W: Write, A: Allocator>(
    book: &Book<A>,
    out: &mut Sink<W>,
) -> Result<(), WriteFault>
    ensures text { Writes out.old.contents out.new.contents (book_text book.now) result }
    ensures means { Means (book_text book.now) book.now }
    ensures not_all { IfErr result (λ fault. fault.written < length (book_text book.now)) }
    ensures failed { out.new.failed ≡ (out.old.failed || is_err result) }
{
    let mut buffer = OutputBuffer::new();
    match write_lines(&mut buffer, out, book) {
        Ok(()) => buffer.flush(out),
        Err(fault) => Err(fault),
    }
}

fn write_lines<W: Write, A: Allocator>(
    buffer: &mut OutputBuffer,
    out: &mut Sink<W>,
    book: &Book<A>,
) -> Result<(), WriteFault>
    requires { count_of buffer.old ≡ 0 }
    ensures text { WritesThrough (book_text book.now) buffer.old buffer.new out.old out.new result }
    ensures means { Means (book_text book.now) book.now }
{
    let letters = book.letters();
    let variables = book.variables();
    buffer.write(out, b"@book 1\n")?;
    write_starts(buffer, out, b'1', letters)?;
    write_starts(buffer, out, b'4', variables)
}

// Writes the starts of a level, each as a line.
fn write_starts<W: Write>(
    buffer: &mut OutputBuffer,
    out: &mut Sink<W>,
    level: u8,
    starts: &[u16],
) -> Result<(), WriteFault>
    requires { HasRoom buffer.old (length (starts_text level starts.now)) }
    ensures { WritesThrough (starts_text level starts.now) buffer.old buffer.new out.old out.new result }
{
    for start in starts {
        buffer.write(out, &line_bytes(level, *start))?;
    }
    Ok(())
}

// The line of a start, with its LF.
fn line_bytes(level: u8, start: u16) -> [u8; 7]
    ensures { result ≡ ended (start_line level start) }
{
    let [a, b, c, d] = four_digits(start);
    [level, b' ', a, b, c, d, b'\n']
}

//! Reads a book line by line, up to its end or its first error.

ghost use Rattle.std.specs.Prelude.{◌≡◌, ◌||◌, IfOk, IfErr, IfSome, MatchResult};
ghost use Rattle.uca_lines.specs.FileStops.{IsStop, is_read};
ghost use Rattle.uca_books.specs.Books.{BookContent};
ghost use Rattle.uca_books.specs.BookTexts.{Means, Refuses};

use crate::Book;
use crate::lines::BookSoFar;
use std::alloc::Allocator;
use std::io::Read;
use uca_lines::files::read_lines;
use uca_values::{FaultKind, TableFault};
use uca_weights::Source;

/// Reads a book. Its first line is `@book 1`. Then comes a line for each start: its level, `1` or `4`, a space, and the
/// weight, such as `1 1C47`. Starts of level 1 come before those of level 4, and in each level they rise.
///
/// A book has one text. A weight has four upper-case hexadecimal digits. An LF ends each line. There are neither comments
/// nor empty lines, and no blanks at the end of a line.
///
/// # Errors
///
/// The first line that is rejected, and why. If a line has several causes, the first in this order is returned.
///
/// - `Limit`: a line of more than 4,096 bytes without its LF.
/// - `Order`: another line where `@book 1` must come. A file without lines is rejected so at line 1.
/// - `Line`: it begins otherwise than with `1` or `4` and a space.
/// - `Weight`: what follows is not the four digits of 0002 to FFFF, or at level 4 of 0002 to FFFE.
/// - `Order`: a start of level 1 after one of level 4, or a start that is not greater than the one before it in its level.
/// - `Limit`: level 1 has 245 starts already, or level 4 has 255.
/// - `Line`: no LF ends the line.
///
/// `Read` (the source failed) and `Memory` (an allocation failed) come with the line that was being read.
pub fn read_book<A: Allocator + Copy, R: Read>(
    alloc: A,
    source: &mut Source<R>,
) -> Result<Book<A>, TableFault>
    // Where the bytes are known.
    ensures found { IfSome source.old.remaining (λ bytes. IfOk result (Means bytes)) }
    ensures only { IfSome source.old.remaining (λ bytes. (content : BookContent) → Means bytes content →
        MatchResult result (λ read. read ≡ content) (λ fault. IsStop fault.kind)) }
    ensures fault { IfSome source.old.remaining (λ bytes. IfErr result (Refuses bytes source.new.remaining)) }

    // At any source.
    ensures failed { source.new.failed ≡ (source.old.failed || is_read result) }
{
    read_to_end(alloc, source)
}

fn read_to_end<A: Allocator + Copy, R: Read>(
    alloc: A,
    source: &mut Source<R>,
) -> Result<Book<A>, TableFault>
    ensures found { IfSome source.old.remaining (λ bytes. IfOk result (Means bytes)) }
    ensures fault { IfSome source.old.remaining (λ bytes. IfErr result (Refuses bytes source.new.remaining)) }
    ensures failed { source.new.failed ≡ (source.old.failed || is_read result) }
{
    let mut so_far = BookSoFar::new(alloc);
    match read_lines(alloc, source, &mut so_far) {
        Ok(count) => match so_far.into_book() {
            Some(book) => Ok(book),
            None => Err(TableFault {
                line: count + 1,
                kind: FaultKind::Order,
            }),
        },
        Err(fault) => Err(TableFault::from(fault)),
    }
}

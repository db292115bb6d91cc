//! The SHA-256 of a book. A book has one text, so that is the sum of each file that means the book.

ghost use Rattle.std.specs.Prelude.{◌≡◌, ◌++◌, ℕ, List};
ghost use Rattle.sha2.specs.Hashers.{Holds256};
ghost use Rattle.sha2.specs.Sha256.{sha256};
ghost use Rattle.uca_books.specs.BookTexts.{book_text, start_line};
ghost use Rattle.uca_fingerprint_runs.specs.inside.BookLines.{starts_lines};
ghost use Rattle.uca_lines.specs.Lines.{ended};

use sha2::{Digest, Sha256};
use std::alloc::Allocator;
use uca_books::Book;
use uca_lines::fields::four_digits;

/// The SHA-256 of the text of a book: the bytes of each file that means it.
pub fn sum_of_book<A: Allocator>(book: &Book<A>) -> [u8; 32]
    ensures { result ≡ sha256 (book_text book.now) }
{
    let mut hasher = Sha256::new();
    hasher.update(b"@book 1\n");
    add_starts(&mut hasher, b'1', book.letters());
    add_starts(&mut hasher, b'4', book.variables());
    hasher.finalize()
}

// Adds the starts of a level to the text that is hashed, each as a line.
fn add_starts(hasher: &mut Sha256, level: u8, starts: &[u16])
    ensures { (text : List ℕ) → Holds256 hasher.old text → Holds256 hasher.new (text ++ starts_lines level starts.now) }
{
    for start in starts {
        hasher.update(line_bytes(level, *start));
    }
}

// The line of a start, with its LF.
fn line_bytes(level: u8, start: u16) -> [u8; 7]
    ensures { result ≡ ended (start_line level start) }
{
    let [a, b, c, d] = four_digits(start);
    [level, b' ', a, b, c, d, b'\n']
}

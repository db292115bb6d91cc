//! The run that prints the image of a book.

ghost use Rattle.std.specs.Prelude.{◌≡◌, ◌∷◌, [], ◌||◌, true, false};
ghost use Rattle.uca_books.specs.BookTexts.{book_text};
ghost use Rattle.uca_run_parts.specs.Files.{ended_by_file};
ghost use Rattle.uca_run_parts.specs.Runs.{ended_before_output, ended_by_output};
ghost use Rattle.uca_change_runs.specs.BookRun.{PrintsBookImage, WritesImage, certificate_with, image_text};

use crate::book_files::{ImageFiles, read_image_files};
use std::alloc::Allocator;
use std::io::{Read, Write};
use uca_book_images::image_of;
use uca_books::{Book, write_book};
use uca_run_parts::RunFault;
use uca_weights::{Sink, Source};

/// Writes the image of a book under the map of level 1 of a certificate, as the text of a book. For example, a map sends
/// 47 to 5F to the weights from 50 on. Then the line `1 0047` becomes `1 0050`. The certificate is read first.
///
/// # Errors
///
/// - `File`: the certificate, or else the book, is rejected.
/// - `Memory`: an allocation failed for the image. In both cases nothing was written.
/// - `Write`: the writer failed. The first `written` bytes of the text went out.
pub fn run_book<A: Allocator + Copy, C: Read, B: Read, W: Write>(
    alloc: A,
    certificate: &mut Source<C>,
    book: &mut Source<B>,
    out: &mut Sink<W>,
) -> Result<(), RunFault>
    ensures { PrintsBookImage (certificate.old ∷ book.old ∷ []) (certificate.new ∷ book.new ∷ []) out.old out.new result }
{
    match read_image_files(alloc, certificate, book) {
        Ok(files) => {
            let printed = print_image(alloc, &files, out);
            drop(files);
            printed
        }
        Err(fault) => Err(fault),
    }
}

// Makes the image of the book, and writes it.
fn print_image<A: Allocator + Copy, W: Write>(
    alloc: A,
    files: &ImageFiles<A>,
    out: &mut Sink<W>,
) -> Result<(), RunFault>
    ensures writes { WritesImage (image_text (certificate_with files.now.certificate files.now.book)) out.old.contents out.new.contents result }
    ensures nothing_written { ended_before_output result ≡ true → out.new ≡ out.old }
    ensures no_file { ended_by_file result ≡ false }
    ensures failed { out.new.failed ≡ (out.old.failed || ended_by_output result) }
{
    match image_of(alloc, &files.certificate, &files.book) {
        Ok(image) => {
            let written = write_image(&image, out);
            drop(image);
            written
        }
        Err(_) => Err(RunFault::Memory),
    }
}

// Writes an image.
fn write_image<A: Allocator, W: Write>(image: &Book<A>, out: &mut Sink<W>) -> Result<(), RunFault>
    ensures writes { WritesImage (book_text image.now) out.old.contents out.new.contents result }
    ensures of_output { ended_before_output result ≡ false }
    ensures no_file { ended_by_file result ≡ false }
    ensures failed { out.new.failed ≡ (out.old.failed || ended_by_output result) }
{
    match write_book(image, out) {
        Ok(()) => Ok(()),
        Err(fault) => Err(RunFault::Write {
            written: fault.written,
        }),
    }
}

//! The files of the run that prints the image of a book: a certificate, and a book.

ghost use Rattle.std.specs.Prelude.{◌∷◌, []};
ghost use Rattle.uca_run_parts.specs.ReadFiles.{ReadsFiles};
ghost use Rattle.uca_change_runs.specs.BookRun.{certificate_and_book, certificate_and_book_roles, certificate_with};

use std::alloc::Allocator;
use std::io::Read;
use uca_books::Book;
use uca_certificates::Certificate;
use uca_run_parts::{RunFault, read_book_file, read_certificate_file};
use uca_weights::Source;

/// What the two files mean.
#[derive(Drop)]
pub(crate) struct ImageFiles<A: Allocator> {
    pub(crate) certificate: Certificate<A>,
    pub(crate) book: Book<A>,
}

/// Reads the certificate, and then the book, each to its end or its first error.
pub(crate) fn read_image_files<A: Allocator + Copy, C: Read, B: Read>(
    alloc: A,
    certificate: &mut Source<C>,
    book: &mut Source<B>,
) -> Result<ImageFiles<A>, RunFault>
    ensures { ReadsFiles certificate_and_book certificate_and_book_roles (certificate.old ∷ book.old ∷ [])
        (certificate.new ∷ book.new ∷ []) (λ files. certificate_with files.certificate files.book) result }
{
    match read_certificate_file(alloc, certificate) {
        Ok(certificate) => match read_book_file(alloc, book) {
            Ok(book) => Ok(ImageFiles { certificate, book }),
            Err(fault) => {
                drop(certificate);
                Err(fault)
            }
        },
        Err(fault) => Err(fault),
    }
}

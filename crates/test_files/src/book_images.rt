//! Images of books under certificates.

use crate::books::starts_of;
use std::alloc::Global;
use std::test::Fail;
use test_kit::{bytes_of, is_remark, joined, same, thirds};
use uca_book_images::image_of;
use uca_books::{Book, read_book};
use uca_certificates::{Certificate, read_certificate};
use uca_weights::Source;

/// The runs of level 1 of a certificate, the starts of a book, and those of its image.
const CASES: &str = r"-- each start has an image
1 1C47 1C50 0019\n1 1C60 1C80 0010\n | 1 1C47\n1 1C48\n1 1C60\n4 1C48\n4 1C60\n | 1C50 1C51 1C80 ; 1C51 1C80
 |  | ;
-- some have none, and follow the last image below them
1 1C47 1C50 0019\n1 1C60 1C80 0010\n | 1 1C46\n1 1C47\n1 1C70\n1 7FFF\n4 7FFF\n4 8000\n | 0002 1C50 1C90 1C91 ; 1C90 8000
 | 1 0002\n1 7FFF\n1 8000\n1 FFFF\n4 FFFE\n | 0002 0003 8000 FFFF ; FFFE
1 0010 7FFF 0001\n | 1 0010\n1 0011\n1 8000\n | 7FFF 8000 8001 ;
-- nothing is left of a cell
1 0010 0010 0010\n1 0030 0020 0010\n | 1 0010\n1 0020\n1 0030\n1 0031\n1 0032\n | 0010 0020 0021 0022 0023 ;";

/// What the certificates have of levels 2 and 3.
const LEAST: &str = r"2 0020 0020 0001\n3 0002 0002 0001\n";

/// The certificate with these runs of level 1.
fn certificate(alloc: Global, runs: &str) -> Result<Certificate, Fail> {
    let text = bytes_of(alloc, &joined(alloc, &[runs, LEAST])?)?;
    match read_certificate(alloc, &mut Source::new(text.as_slice())) {
        Ok(certificate) => Ok(certificate),
        Err(_) => Err(Fail::new(runs)),
    }
}

/// The book with these starts.
fn book(alloc: Global, starts: &str) -> Result<Book, Fail> {
    let text = bytes_of(alloc, &joined(alloc, &[r"@book 1\n", starts])?)?;
    match read_book(alloc, &mut Source::new(text.as_slice())) {
        Ok(book) => Ok(book),
        Err(_) => Err(Fail::new(starts)),
    }
}

/// The starts of the image of a book.
fn image_starts(alloc: Global, certificate: &Certificate, book: &Book) -> Result<String, Fail> {
    let image = image_of(alloc, certificate, book)?;
    let starts = starts_of(alloc, &image);
    drop(image);
    starts
}

/// The starts of the image of the book with these starts.
fn image_under(alloc: Global, certificate: &Certificate, starts: &str) -> Result<String, Fail> {
    let book = book(alloc, starts)?;
    let image = image_starts(alloc, certificate, &book);
    drop(book);
    image
}

fn check_case(alloc: Global, case: &str) -> Result<(), Fail> {
    let (runs, starts, wanted) = thirds(case)?;
    let certificate = certificate(alloc, runs)?;
    let found = image_under(alloc, &certificate, starts);
    drop(certificate);
    same(&found?, wanted, case)
}

#[test]
fn images(rt: HostRuntime) -> Result<(), Fail> {
    for case in CASES.lines() {
        if !is_remark(case) {
            check_case(rt.alloc(), case)?;
        }
    }
    Ok(())
}

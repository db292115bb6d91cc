//! How a collator of C's is opened, and the fingerprint of its files.

ghost use Rattle.std.specs.Prelude.{◌≡◌, Option, None, Some, MatchResult, IfOk, IfErr, OnOk};
ghost use Rattle.uca_weights.specs.declared.Asked.{Asked};
ghost use Rattle.uca_values.specs.Content.{TableContent, Properties};
ghost use Rattle.uca_values.specs.declared.faults.FaultKind.TheVariants as kinds;
ghost use Rattle.uca_order.specs.Keyings.{keying};
ghost use Rattle.uca_books.specs.Books.{BookContent};
ghost use Rattle.uca_books.specs.BookTexts as books;
ghost use Rattle.uca_owned.specs.Opening.{fingerprint_by};
ghost use Rattle.uca_owned.specs.Owned.{keying_in};
ghost use Rattle.uca_c.specs.Numbers.{kind_number};
ghost use Rattle.uca_c.specs.OpenCollators.{keying_at};
ghost use Rattle.uca_c.specs.Opened.{Asks, FingerprintsBy, OpensBy, IsNoFileError, IsReadStatus, IsOpenStatus, IsStopStatus, IsOpenStopStatus, TellsFault};
ghost use Rattle.uca_c.specs.Opened.{HasBook, RejectsBook, IsCompactOpenStatus, IsCompactStopStatus};

use crate::numbers::{asked_settings, number_of_kind};
use crate::open_collator::OpenCollator;
use crate::statuses::{ARGUMENT, BOOK, DATA, DIGITS, MEMORY, TABLE};
use crate::structs::FileError;
use std::alloc::Global;
use uca_books::{Book, read_book};
use uca_owned::{OpenFault, OwnedCollator, fingerprint_of, in_memory};
use uca_values::TableFault;
use uca_weights::Source;

fn file_error(fault: TableFault) -> FileError
    ensures line { result.line ≡ fault.line }
    ensures kind { result.kind ≡ kind_number fault.kind }
{
    FileError {
        line: fault.line,
        kind: number_of_kind(fault.kind),
    }
}

// Tells where a file is rejected, and why. Returns the status of the call.
fn tell(fault: OpenFault, error: &mut FileError) -> u32
    ensures { TellsFault fault error.new.line error.new.kind result }
{
    match fault {
        OpenFault::Table(fault) => {
            *error = file_error(fault);
            TABLE
        }
        OpenFault::Data(fault) => {
            *error = file_error(fault);
            DATA
        }
        OpenFault::Digits { row } => {
            *error = FileError { line: row, kind: 0 };
            DIGITS
        }
        OpenFault::Memory => {
            *error = FileError { line: 0, kind: 0 };
            MEMORY
        }
    }
}

// A collator of these bytes, or the status of the call.
pub fn open(
    alloc: Global,
    table: &[u8],
    data_file: &[u8],
    weighting: u32,
    depth: u32,
    error: &mut FileError,
) -> Result<OwnedCollator, u32>
    ensures found { IfOk result (λ collator. OpensBy weighting depth table.now data_file.now (keying_in collator)) }
    ensures only { (asked : Asked) (meant : TableContent) (properties : Properties) →
        Asks weighting depth table.now data_file.now asked meant properties →
        MatchResult result (λ collator. keying_in collator ≡ keying asked meant properties) (IsOpenStopStatus asked meant properties error.new.line error.new.kind) }
    ensures no_error { OnOk result (IsNoFileError error.new.line error.new.kind) }
    ensures rejected { IfErr result (IsOpenStatus weighting depth table.now data_file.now error.new.line error.new.kind) }
{
    *error = FileError { line: 0, kind: 0 };
    let Some(asked) = asked_settings(weighting, depth) else {
        return Err(ARGUMENT);
    };
    match OwnedCollator::open(alloc, table, data_file, asked) {
        Ok(opened) => Ok(opened),
        Err(fault) => Err(tell(fault, error)),
    }
}

// The book that these bytes mean.
fn book_of(alloc: Global, book: &[u8]) -> Result<Book, TableFault>
    ensures found { IfOk result (books.Means book.now) }
    ensures only { (content : BookContent) → books.Means book.now content → MatchResult result (λ read. read ≡ content) (λ fault. fault.kind ≡ kinds.Memory) }
    ensures rejected { IfErr result (RejectsBook book.now) }
{
    match read_book(alloc, &mut Source::new(book)) {
        Ok(book) => Ok(book),
        Err(fault) => Err(in_memory(fault)),
    }
}

// A collator of these bytes, whose keys are compact, or the status of the call.
pub fn open_compact(
    alloc: Global,
    table: &[u8],
    data_file: &[u8],
    book: &[u8],
    weighting: u32,
    depth: u32,
    error: &mut FileError,
) -> Result<OpenCollator, u32>
    ensures found { IfOk result (λ opened. OpensBy weighting depth table.now data_file.now (keying_at opened)) }
    ensures book { IfOk result (λ opened. HasBook book.now opened.book) }
    ensures only { (asked : Asked) (meant : TableContent) (properties : Properties) (content : BookContent) →
        Asks weighting depth table.now data_file.now asked meant properties → books.Means book.now content →
        MatchResult result (λ opened. (keying_at opened ≡ keying asked meant properties) × (opened.book ≡ Some content))
        (IsCompactStopStatus asked meant properties error.new.line error.new.kind) }
    ensures no_error { OnOk result (IsNoFileError error.new.line error.new.kind) }
    ensures rejected { IfErr result (IsCompactOpenStatus weighting depth table.now data_file.now book.now error.new.line error.new.kind) }
{
    let opened = match open(alloc, table, data_file, weighting, depth, error) {
        Ok(opened) => opened,
        Err(status) => return Err(status),
    };
    match book_of(alloc, book) {
        Ok(book) => Ok(OpenCollator::with_book(alloc, opened, book)),
        Err(fault) => {
            *error = file_error(fault);
            Err(BOOK)
        }
    }
}

// The fingerprint of what a collator of these bytes keys texts by, or the status of the call.
pub fn fingerprint(
    alloc: Global,
    table: &[u8],
    data_file: &[u8],
    weighting: u32,
    depth: u32,
    error: &mut FileError,
) -> Result<[u8; 32], u32>
    ensures found { IfOk result (FingerprintsBy weighting depth table.now data_file.now) }
    ensures only { (asked : Asked) (meant : TableContent) (properties : Properties) →
        Asks weighting depth table.now data_file.now asked meant properties →
        MatchResult result (λ sum. sum ≡ fingerprint_by (keying asked meant properties) table.now data_file.now)
        (λ status. IsStopStatus status error.new.kind) }
    ensures no_error { OnOk result (IsNoFileError error.new.line error.new.kind) }
    ensures rejected { IfErr result (IsReadStatus weighting depth table.now data_file.now error.new.line error.new.kind) }
{
    *error = FileError { line: 0, kind: 0 };
    let Some(asked) = asked_settings(weighting, depth) else {
        return Err(ARGUMENT);
    };
    match fingerprint_of(alloc, table, data_file, asked) {
        Ok(sum) => Ok(sum),
        Err(fault) => Err(tell(fault, error)),
    }
}

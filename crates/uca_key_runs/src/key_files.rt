//! The files of a run of keys: a table, a data file and perhaps a book. Where a header is asked for, their bytes are summed while they are
//! read (`uca_fingerprint_runs`), so each file is read once.

ghost use Rattle.std.specs.Prelude.{◌≡◌, ◌≤◌, ◌∷◌, ◌++◌, [], false, true, length, IfOk, IsOkAnd, is_err, is_some, option_to_list, unwrap_or};
ghost use Rattle.uca_values.specs.Content.{properties_of};
ghost use Rattle.uca_run_parts.specs.Files.{HaveFailed, Over, ended_by_file, table_and_data_roles};
ghost use Rattle.uca_run_parts.specs.ReadFiles.{ReadsFiles};
ghost use Rattle.uca_fingerprint_runs.specs.SummedFiles.{booked_roles};
ghost use Rattle.uca_key_runs.specs.KeysRun.{key_files, key_roles};
ghost use Rattle.uca_key_runs.specs.inside.KeyParts.{AreRead, header_text, header_with, packed_booked, packed_with};

use crate::collations::packed_files::read_packed_files;
use std::alloc::Allocator;
use std::io::Read;
use uca_books::Book;
use uca_fingerprint::{KeyHeader, compact_fingerprint_of_sums, fingerprint_of_sums};
use uca_fingerprint_runs::summed_files::{
    BookedFiles, SummedFiles, read_booked_files, read_summed_files,
};
use uca_run_parts::{RunFault, read_book_file};
use uca_values::{Data, PackedTable};
use uca_weights::{Settings, Source};

/// The SHA-256 of the bytes of the files.
#[derive(Clone, Copy)]
pub(crate) struct FileSums {
    /// That of the table.
    pub(crate) table: [u8; 32],
    /// That of the data file.
    pub(crate) properties: [u8; 32],
    /// That of the book, if there is one.
    pub(crate) book: Option<[u8; 32]>,
}

/// What the files mean, and their sums where a header is asked for.
#[derive(Drop)]
pub(crate) struct KeyFiles<A: Allocator> {
    pub(crate) table: PackedTable<A>,
    pub(crate) properties: Data<A>,
    pub(crate) book: Option<Book<A>>,
    pub(crate) sums: Option<FileSums>,
}

/// Reads the table, then the data file, and then the book where there is one, each to its end or its first error.
///
/// # Errors
///
/// `File` if the table, or else the data file, or else the book, is rejected.
pub(crate) fn read_key_files<A: Allocator + Copy, T: Read, D: Read, B: Read>(
    alloc: A,
    table: &mut Source<T>,
    properties: &mut Source<D>,
    book: &mut Option<Source<B>>,
    header: bool,
) -> Result<KeyFiles<A>, RunFault>
    ensures read { Over (key_files (is_some book.old)) (table.old ∷ properties.old ∷ option_to_list book.old) (table.new ∷ properties.new ∷ option_to_list book.new)
        (λ content. IsOkAnd result (λ files. AreRead files.table (properties_of files.properties) files.book files.sums content)) result }
    ensures sums { IfOk result (λ files. is_some files.sums ≡ header) }
    ensures of_files { ended_by_file result ≡ is_err result }
    ensures failed { HaveFailed (key_roles (is_some book.old)) (table.old ∷ properties.old ∷ option_to_list book.old)
        (table.new ∷ properties.new ∷ option_to_list book.new) result }
{
    match book {
        None => read_two_files(alloc, table, properties, header),
        Some(book) => read_three_files(alloc, table, properties, book, header),
    }
}

// Reads the files of a run without a book.
fn read_two_files<A: Allocator + Copy, T: Read, D: Read>(
    alloc: A,
    table: &mut Source<T>,
    properties: &mut Source<D>,
    header: bool,
) -> Result<KeyFiles<A>, RunFault>
    ensures read { Over (key_files false) (table.old ∷ properties.old ∷ []) (table.new ∷ properties.new ∷ [])
        (λ content. IsOkAnd result (λ files. AreRead files.table (properties_of files.properties) files.book files.sums content)) result }
    ensures sums { IfOk result (λ files. is_some files.sums ≡ header) }
    ensures of_files { ended_by_file result ≡ is_err result }
    ensures failed { HaveFailed table_and_data_roles (table.old ∷ properties.old ∷ []) (table.new ∷ properties.new ∷ []) result }
{
    if header {
        match read_summed_files(alloc, table, properties) {
            Ok(SummedFiles { table, properties }) => Ok(KeyFiles {
                sums: Some(FileSums {
                    table: table.1,
                    properties: properties.1,
                    book: None,
                }),
                table: table.0,
                properties: properties.0,
                book: None,
            }),
            Err(fault) => Err(fault),
        }
    } else {
        match read_packed_files(alloc, table, properties) {
            Ok((table, properties)) => Ok(KeyFiles {
                table,
                properties,
                book: None,
                sums: None,
            }),
            Err(fault) => Err(fault),
        }
    }
}

// Reads the files of a run with a book.
fn read_three_files<A: Allocator + Copy, T: Read, D: Read, B: Read>(
    alloc: A,
    table: &mut Source<T>,
    properties: &mut Source<D>,
    book: &mut Source<B>,
    header: bool,
) -> Result<KeyFiles<A>, RunFault>
    ensures read { Over (key_files true) (table.old ∷ properties.old ∷ book.old ∷ []) (table.new ∷ properties.new ∷ book.new ∷ [])
        (λ content. IsOkAnd result (λ files. AreRead files.table (properties_of files.properties) files.book files.sums content)) result }
    ensures sums { IfOk result (λ files. is_some files.sums ≡ header) }
    ensures of_files { ended_by_file result ≡ is_err result }
    ensures failed { HaveFailed booked_roles (table.old ∷ properties.old ∷ book.old ∷ []) (table.new ∷ properties.new ∷ book.new ∷ []) result }
{
    if header {
        match read_booked_files(alloc, table, properties, book) {
            Ok(BookedFiles { files, book }) => {
                let SummedFiles { table, properties } = files;
                Ok(KeyFiles {
                    sums: Some(FileSums {
                        table: table.1,
                        properties: properties.1,
                        book: Some(book.1),
                    }),
                    table: table.0,
                    properties: properties.0,
                    book: Some(book.0),
                })
            }
            Err(fault) => Err(fault),
        }
    } else {
        read_packed_booked(alloc, table, properties, book)
    }
}

// Reads the three files, without their sums.
fn read_packed_booked<A: Allocator + Copy, T: Read, D: Read, B: Read>(
    alloc: A,
    table: &mut Source<T>,
    properties: &mut Source<D>,
    book: &mut Source<B>,
) -> Result<KeyFiles<A>, RunFault>
    ensures read { ReadsFiles packed_booked booked_roles (table.old ∷ properties.old ∷ book.old ∷ []) (table.new ∷ properties.new ∷ book.new ∷ [])
        (λ files. packed_with files.table (properties_of files.properties) files.book) result }
    ensures sums { IfOk result (λ files. is_some files.sums ≡ false) }
{
    match read_packed_files(alloc, table, properties) {
        Ok((table, properties)) => match read_book_file(alloc, book) {
            Ok(book) => Ok(KeyFiles {
                table,
                properties,
                book: Some(book),
                sums: None,
            }),
            Err(fault) => {
                drop(table);
                drop(properties);
                Err(fault)
            }
        },
        Err(fault) => Err(fault),
    }
}

/// The header of keys that go by these settings and by files with these sums, if there are sums. With a book it is that of compact keys.
pub(crate) fn header_with(settings: Settings, sums: Option<FileSums>) -> Option<KeyHeader>
    ensures { unwrap_or result [] ≡ header_with settings sums }
{
    match sums {
        Some(sums) => Some(header_of(settings, &sums)),
        None => None,
    }
}

// The header with these sums.
fn header_of(settings: Settings, sums: &FileSums) -> KeyHeader
    ensures { result ≡ header_text settings sums.now sums.now.book ++ 10 ∷ [] }
{
    let keys = fingerprint_of_sums(settings, &sums.table, &sums.properties);
    match &sums.book {
        Some(book) => KeyHeader::compact_ended(settings, &compact_fingerprint_of_sums(&keys, book)),
        None => KeyHeader::ended(settings, &keys),
    }
}

/// The bytes of the header, or none.
pub(crate) fn header_bytes(header: &Option<KeyHeader>) -> &[u8]
    ensures line { result.now ≡ unwrap_or header.now [] }
    ensures short { length result.now ≤ 128 }
{
    match header {
        Some(header) => header.as_bytes(),
        None => b"",
    }
}

//! Tables, data files and books with the SHA-256 of their bytes, which are read once: `read_summed_table`,
//! `read_summed_data` and `read_summed_book`.

ghost use Rattle.std.specs.Prelude.{◌∷◌, []};
ghost use Rattle.uca_values.specs.Content.{properties_of};
ghost use Rattle.uca_run_parts.specs.declared.faults.Role.TheVariants as roles;
ghost use Rattle.uca_run_parts.specs.Files.{table_and_data_roles};
ghost use Rattle.uca_run_parts.specs.ReadFiles.{ReadsFiles};
ghost use Rattle.uca_fingerprint_runs.specs.SummedFiles.{
  booked_files,
  booked_roles,
  booked_with,
  summed_book,
  summed_data,
  summed_files,
  summed_table,
  summed_with,
};

mod reading;
mod summed;

use crate::book_sums::sum_of_book;
use reading::{read_summed_data, read_summed_table};
use std::alloc::{Allocator, Global};
use std::io::Read;
use uca_books::{Book, read_book};
use uca_run_parts::{FileFault, Role, RunFault};
use uca_values::{Data, PackedTable};
use uca_weights::Source;

/// What the two files mean, and the SHA-256 of the bytes of each.
#[derive(Drop)]
pub struct SummedFiles<A: Allocator = Global> {
    /// The weight table, and its sum.
    pub table: (PackedTable<A>, [u8; 32]),
    /// The properties of code points, and the sum of the data file.
    pub properties: (Data<A>, [u8; 32]),
}

/// Reads the table, and then the data file, each to its end or its first error. It keeps none of the bytes, so memory does not
/// grow with comments or with a file that has no end.
///
/// # Errors
///
/// `File` if the table, or else the data file, is rejected.
pub fn read_summed_files<A: Allocator + Copy, T: Read, D: Read>(
    alloc: A,
    table: &mut Source<T>,
    properties: &mut Source<D>,
) -> Result<SummedFiles<A>, RunFault>
    ensures { ReadsFiles summed_files table_and_data_roles (table.old ∷ properties.old ∷ []) (table.new ∷ properties.new ∷ [])
        (λ files. summed_with files.table (properties_of files.properties.0, files.properties.1)) result }
{
    match read_table(alloc, table) {
        Ok(table) => match read_data(alloc, properties) {
            Ok(properties) => Ok(SummedFiles { table, properties }),
            Err(fault) => {
                drop(table);
                Err(fault)
            }
        },
        Err(fault) => Err(fault),
    }
}

/// What a table, a data file and a book mean, and the SHA-256 of the bytes of each.
#[derive(Drop)]
pub struct BookedFiles<A: Allocator = Global> {
    /// The table and the data file, and their sums.
    pub files: SummedFiles<A>,
    /// The book, and its sum.
    pub book: (Book<A>, [u8; 32]),
}

/// Reads the table, then the data file, and then the book, as [`read_summed_files`] does.
///
/// # Errors
///
/// `File` if the table, or else the data file, or else the book, is rejected.
pub fn read_booked_files<A: Allocator + Copy, T: Read, D: Read, B: Read>(
    alloc: A,
    table: &mut Source<T>,
    properties: &mut Source<D>,
    book: &mut Source<B>,
) -> Result<BookedFiles<A>, RunFault>
    ensures { ReadsFiles booked_files booked_roles (table.old ∷ properties.old ∷ book.old ∷ [])
        (table.new ∷ properties.new ∷ book.new ∷ [])
        (λ read. booked_with (summed_with read.files.table (properties_of read.files.properties.0, read.files.properties.1)) read.book) result }
{
    match read_summed_files(alloc, table, properties) {
        Ok(files) => match read_summed_book(alloc, book) {
            Ok(book) => Ok(BookedFiles { files, book }),
            Err(fault) => {
                drop(files);
                Err(fault)
            }
        },
        Err(fault) => Err(fault),
    }
}

/// Reads the book, to its end or its first error, with the SHA-256 of its bytes.
///
/// # Errors
///
/// `File` with the role `Book`, if it is rejected.
pub fn read_summed_book<A: Allocator + Copy, B: Read>(
    alloc: A,
    source: &mut Source<B>,
) -> Result<(Book<A>, [u8; 32]), RunFault>
    ensures { ReadsFiles summed_book (roles.Book ∷ []) (source.old ∷ []) (source.new ∷ []) (λ read. (read.0, read.1)) result }
{
    match read_book(alloc, source) {
        Ok(book) => {
            let sum = sum_of_book(&book);
            Ok((book, sum))
        }
        Err(fault) => Err(RunFault::File {
            role: Role::Book,
            fault: FileFault::Lines(fault),
        }),
    }
}

// Reads the table, to its end or its first error.
fn read_table<A: Allocator + Copy, T: Read>(
    alloc: A,
    source: &mut Source<T>,
) -> Result<(PackedTable<A>, [u8; 32]), RunFault>
    ensures { ReadsFiles summed_table (roles.Table ∷ []) (source.old ∷ []) (source.new ∷ []) (λ read. (read.0, read.1)) result }
{
    match read_summed_table(alloc, source) {
        Ok(read) => Ok(read),
        Err(fault) => Err(RunFault::File {
            role: Role::Table,
            fault: FileFault::Lines(fault),
        }),
    }
}

// Reads the data file, to its end or its first error.
fn read_data<A: Allocator + Copy, D: Read>(
    alloc: A,
    source: &mut Source<D>,
) -> Result<(Data<A>, [u8; 32]), RunFault>
    ensures { ReadsFiles summed_data (roles.Data ∷ []) (source.old ∷ []) (source.new ∷ []) (λ read. (properties_of read.0, read.1)) result }
{
    match read_summed_data(alloc, source) {
        Ok(read) => Ok(read),
        Err(fault) => Err(RunFault::File {
            role: Role::Data,
            fault: FileFault::Lines(fault),
        }),
    }
}

//! The files that a run uses: a table and a data file, each of them alone, a certificate, and a book.

ghost use Rattle.std.specs.Prelude.{◌≡◌, ◌∷◌, []};
ghost use Rattle.uca_values.specs.Content.{properties_of};
ghost use Rattle.uca_run_parts.specs.Files.{table_and_data, table_and_data_roles, table_with};
ghost use Rattle.uca_run_parts.specs.ReadFiles.{ReadsFiles, book_file, certificate_file, data_file, table_file};

use crate::faults::{FileFault, Role, RunFault};
use std::alloc::{Allocator, Global};
use std::io::Read;
use uca_books::{Book, read_book};
use uca_certificates::{Certificate, read_certificate};
use uca_table::{read_data, read_table};
use uca_values::{Data, Table};
use uca_weights::Source;

/// What the two files mean.
#[derive(Drop)]
pub struct Files<A: Allocator = Global> {
    /// The weight table.
    pub table: Table<A>,
    /// The properties of code points.
    pub properties: Data<A>,
}

/// Reads the table, and then the data file, each to its end or its first error.
///
/// # Errors
///
/// `File` if the table, or else the data file, is rejected.
pub fn read_files<A: Allocator + Copy, T: Read, D: Read>(
    alloc: A,
    table: &mut Source<T>,
    properties: &mut Source<D>,
) -> Result<Files<A>, RunFault>
    ensures { ReadsFiles table_and_data table_and_data_roles (table.old ∷ properties.old ∷ []) (table.new ∷ properties.new ∷ [])
        (λ files. table_with files.table (properties_of files.properties)) result }
{
    match read_table_file(alloc, Role::Table, table) {
        Ok(table) => match read_data_file(alloc, Role::Data, properties) {
            Ok(properties) => Ok(Files { table, properties }),
            Err(fault) => {
                drop(table);
                Err(fault)
            }
        },
        Err(fault) => Err(fault),
    }
}

/// Reads a table that has this role, to its end or its first error.
///
/// # Errors
///
/// `File` with this role, if the table is rejected.
pub fn read_table_file<A: Allocator + Copy, T: Read>(
    alloc: A,
    role: Role,
    source: &mut Source<T>,
) -> Result<Table<A>, RunFault>
    ensures { ReadsFiles (table_file role) (role ∷ []) (source.old ∷ []) (source.new ∷ []) (λ table. table) result }
{
    match read_table(alloc, source) {
        Ok(table) => Ok(table),
        Err(fault) => Err(RunFault::File {
            role,
            fault: FileFault::Lines(fault),
        }),
    }
}

/// Reads a data file that has this role, to its end or its first error.
///
/// # Errors
///
/// `File` with this role, if it is rejected.
pub fn read_data_file<A: Allocator + Copy, D: Read>(
    alloc: A,
    role: Role,
    source: &mut Source<D>,
) -> Result<Data<A>, RunFault>
    ensures { ReadsFiles (data_file role) (role ∷ []) (source.old ∷ []) (source.new ∷ []) properties_of result }
{
    match read_data(alloc, source) {
        Ok(properties) => Ok(properties),
        Err(fault) => Err(RunFault::File {
            role,
            fault: FileFault::Lines(fault),
        }),
    }
}

/// Reads a certificate, to its end or its first error.
///
/// # Errors
///
/// `File` with the role `Certificate`, if it is rejected.
pub fn read_certificate_file<A: Allocator + Copy, C: Read>(
    alloc: A,
    source: &mut Source<C>,
) -> Result<Certificate<A>, RunFault>
    ensures { ReadsFiles certificate_file (Role.Certificate ∷ []) (source.old ∷ []) (source.new ∷ [])
        (λ certificate. certificate) result }
{
    match read_certificate(alloc, source) {
        Ok(certificate) => Ok(certificate),
        Err(fault) => Err(RunFault::File {
            role: Role::Certificate,
            fault: FileFault::Certificate(fault),
        }),
    }
}

/// Reads a book, to its end or its first error.
///
/// # Errors
///
/// `File` with the role `Book`, if it is rejected.
pub fn read_book_file<A: Allocator + Copy, B: Read>(
    alloc: A,
    source: &mut Source<B>,
) -> Result<Book<A>, RunFault>
    ensures { ReadsFiles book_file (Role.Book ∷ []) (source.old ∷ []) (source.new ∷ []) (λ book. book) result }
{
    match read_book(alloc, source) {
        Ok(book) => Ok(book),
        Err(fault) => Err(RunFault::File {
            role: Role::Book,
            fault: FileFault::Lines(fault),
        }),
    }
}

//! The table, with its rows in a few lists, and the data file.

ghost use Rattle.std.specs.Prelude.{◌∷◌, []};
ghost use Rattle.uca_values.specs.Content.{properties_of};
ghost use Rattle.uca_run_parts.specs.Files.{table_and_data, table_and_data_roles, table_with};
ghost use Rattle.uca_run_parts.specs.ReadFiles.{ReadsFiles, table_file};

use std::alloc::Allocator;
use std::io::Read;
use uca_run_parts::{FileFault, Role, RunFault, read_data_file};
use uca_table::read_packed_table;
use uca_values::{Data, PackedTable};
use uca_weights::Source;

/// Reads the table, and then the data file, each to its end or its first error.
///
/// # Errors
///
/// `File` if the table, or else the data file, is rejected.
pub(crate) fn read_packed_files<A: Allocator + Copy, T: Read, D: Read>(
    alloc: A,
    table: &mut Source<T>,
    properties: &mut Source<D>,
) -> Result<(PackedTable<A>, Data<A>), RunFault>
    ensures { ReadsFiles table_and_data table_and_data_roles (table.old ∷ properties.old ∷ []) (table.new ∷ properties.new ∷ [])
        (λ files. table_with files.0 (properties_of files.1)) result }
{
    let table = read_packed_file(alloc, table)?;
    match read_data_file(alloc, Role::Data, properties) {
        Ok(properties) => Ok((table, properties)),
        Err(fault) => {
            drop(table);
            Err(fault)
        }
    }
}

// Reads the table, to its end or its first error.
fn read_packed_file<A: Allocator + Copy, T: Read>(
    alloc: A,
    source: &mut Source<T>,
) -> Result<PackedTable<A>, RunFault>
    ensures { ReadsFiles (table_file Role.Table) (Role.Table ∷ []) (source.old ∷ []) (source.new ∷ []) (λ table. table) result }
{
    match read_packed_table(alloc, source) {
        Ok(table) => Ok(table),
        Err(fault) => Err(RunFault::File {
            role: Role::Table,
            fault: FileFault::Lines(fault),
        }),
    }
}

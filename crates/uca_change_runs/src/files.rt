//! Reading the files of changes: two editions, each of them a table and its data file, and then a file of changes and a certificate.

ghost use Rattle.std.specs.Prelude.{◌≡◌, ◌∷◌, [], false};
ghost use Rattle.uca_run_parts.specs.Files.{is_role};
ghost use Rattle.uca_run_parts.specs.ReadFiles.{ReadsFiles};
ghost use Rattle.uca_change_runs.specs.ChangeFiles.{editions_files, editions_roles};
ghost use Rattle.uca_change_runs.specs.inside.ReadChanges.{changes_file, edition_files, edition_of, editions_of, listed_files, listed_of, listed_roles};

use std::alloc::Allocator;
use std::io::Read;
use uca_change_files::{ChangeList, read_changes};
use uca_editions::{Edition, EditionFiles, ListedChanges};
use uca_run_parts::{
    FileFault, Role, RunFault, read_certificate_file, read_data_file, read_table_file,
};
use uca_weights::Source;

/// Reads the files of two editions, in turn, each to its end or its first error.
///
/// # Errors
///
/// `File` for the first that is rejected.
pub fn read_editions<M: Allocator + Copy, A: Read, B: Read, C: Read, D: Read>(
    alloc: M,
    old: &mut Source<A>,
    old_data: &mut Source<B>,
    new: &mut Source<C>,
    new_data: &mut Source<D>,
) -> Result<EditionFiles<M>, RunFault>
    ensures { ReadsFiles editions_files editions_roles (old.old ∷ old_data.old ∷ new.old ∷ new_data.old ∷ [])
        (old.new ∷ old_data.new ∷ new.new ∷ new_data.new ∷ []) (λ files. editions_of files) result }
{
    match read_edition(alloc, Role::Old, Role::OldData, old, old_data) {
        Ok(old) => match read_edition(alloc, Role::New, Role::NewData, new, new_data) {
            Ok(new) => Ok(EditionFiles { old, new }),
            Err(fault) => {
                drop(old);
                Err(fault)
            }
        },
        Err(fault) => Err(fault),
    }
}

// Reads a table and its data file, which have these roles, each to its end or its first error.
fn read_edition<M: Allocator + Copy, A: Read, B: Read>(
    alloc: M,
    role: Role,
    data_role: Role,
    table: &mut Source<A>,
    properties: &mut Source<B>,
) -> Result<Edition<M>, RunFault>
    requires table_apart { is_role data_role role ≡ false }
    requires data_apart { is_role role data_role ≡ false }
    ensures { ReadsFiles (edition_files role data_role) (role ∷ data_role ∷ []) (table.old ∷ properties.old ∷ [])
        (table.new ∷ properties.new ∷ []) (λ edition. edition_of edition) result }
{
    match read_table_file(alloc, role, table) {
        Ok(table) => match read_data_file(alloc, data_role, properties) {
            Ok(properties) => Ok(Edition { table, properties }),
            Err(fault) => {
                drop(table);
                Err(fault)
            }
        },
        Err(fault) => Err(fault),
    }
}

/// Reads a file of changes, and then a certificate, each to its end or its first error.
///
/// # Errors
///
/// `File` for the first that is rejected.
pub fn read_listed<M: Allocator + Copy, A: Read, B: Read>(
    alloc: M,
    changes: &mut Source<A>,
    certificate: &mut Source<B>,
) -> Result<ListedChanges<M>, RunFault>
    ensures { ReadsFiles listed_files listed_roles (changes.old ∷ certificate.old ∷ []) (changes.new ∷ certificate.new ∷ [])
        (λ listed. listed_of listed) result }
{
    match read_changes_file(alloc, changes) {
        Ok(list) => match read_certificate_file(alloc, certificate) {
            Ok(certificate) => Ok(ListedChanges { list, certificate }),
            Err(fault) => {
                drop(list);
                Err(fault)
            }
        },
        Err(fault) => Err(fault),
    }
}

/// Reads a file of changes, to its end or its first error.
///
/// # Errors
///
/// `File` with the role `Changes`, if it is rejected.
pub fn read_changes_file<M: Allocator + Copy, A: Read>(
    alloc: M,
    source: &mut Source<A>,
) -> Result<ChangeList<M>, RunFault>
    ensures { ReadsFiles changes_file (Role.Changes ∷ []) (source.old ∷ []) (source.new ∷ []) (λ list. list) result }
{
    match read_changes(alloc, source) {
        Ok(list) => Ok(list),
        Err(fault) => Err(RunFault::File {
            role: Role::Changes,
            fault: FileFault::Lines(fault),
        }),
    }
}

//! The run that prints the lines that changes affect: the run over rules of `uca_run_parts`, with a file of changes in
//! place of the rules.

ghost use Rattle.std.specs.Prelude.{◌∷◌, []};
ghost use Rattle.uca_values.specs.Content.{properties_of};
ghost use Rattle.uca_run_parts.specs.AffectedRun.{PrintsAffected};
ghost use Rattle.uca_run_parts.specs.ReadFiles.{ReadsFiles};
ghost use Rattle.uca_change_runs.specs.ChangeFiles.{changes_with, data_and_changes, data_and_changes_roles};
ghost use Rattle.uca_change_runs.specs.AffectedRun.{by_changes};

use crate::files::read_changes_file;
use std::alloc::{Allocator, Global};
use std::io::{Read, Write};
use uca_change_files::ChangeList;
use uca_editions::ChangeIndex;
use uca_run_parts::{Role, RunFault, print_affected, read_data_file};
use uca_values::Data;
use uca_weights::{Numbers, Sink, Source};

/// What the two files mean.
#[derive(Drop)]
struct DataAndChanges<A: Allocator> {
    /// The properties of code points.
    properties: Data<A>,
    /// The changes.
    list: ChangeList<A>,
}

/// Prints the lines of `input` that the changes affect, each with LF. So it is of a line if a changed text occurs in order in
/// what is read of it, or a changed range has a code point of that. It is read in Normalization Form D. With numbers by value
/// it has the code of each number in place of it. The data file and the file of changes are read first. The lines are as they
/// are, and in their order. Under each accepted change with these texts and ranges the other lines keep their order among
/// themselves. Texts in Normalization Form D are in `global`.
///
/// # Errors
///
/// - `File`: the data file, or else the file of changes, is rejected. Nothing was written, and nothing of the input was read.
/// - `Memory`: an allocation failed for looking changes up. Nothing was written, and nothing of the input was read.
/// - `Input`: the first line with an error. The affected lines before it were written.
/// - `Write`: the writer failed, also where a later line has an error. The first `written` bytes of the whole output went
///   out.
pub fn run_affected_by_changes<A: Allocator + Copy, D: Read, C: Read, I: Read, W: Write>(
    alloc: A,
    global: Global,
    properties: &mut Source<D>,
    changes: &mut Source<C>,
    input: &mut Source<I>,
    out: &mut Sink<W>,
    numbers: Numbers,
) -> Result<(), RunFault>
    ensures { PrintsAffected by_changes numbers (properties.old ∷ changes.old ∷ []) (properties.new ∷ changes.new ∷ [])
        input.old input.new out.old out.new result }
{
    match read_data_and_changes(alloc, properties, changes) {
        Ok(DataAndChanges { properties, list }) => match ChangeIndex::new(alloc, list) {
            Ok(index) => {
                let end = print_affected(alloc, global, numbers, &properties, &index, input, out);
                drop(index);
                drop(properties);
                end
            }
            Err(_) => {
                drop(properties);
                Err(RunFault::Memory)
            }
        },
        Err(fault) => Err(fault),
    }
}

// Reads the data file, and then the file of changes, each to its end or its first error. The error is `File` if one of them is
// rejected, the first if both are.
fn read_data_and_changes<A: Allocator + Copy, D: Read, C: Read>(
    alloc: A,
    properties: &mut Source<D>,
    changes: &mut Source<C>,
) -> Result<DataAndChanges<A>, RunFault>
    ensures { ReadsFiles data_and_changes data_and_changes_roles (properties.old ∷ changes.old ∷ []) (properties.new ∷ changes.new ∷ [])
        (λ files. changes_with (properties_of files.properties) files.list) result }
{
    match read_data_file(alloc, Role::Data, properties) {
        Ok(properties) => match read_changes_file(alloc, changes) {
            Ok(list) => Ok(DataAndChanges { properties, list }),
            Err(fault) => {
                drop(properties);
                Err(fault)
            }
        },
        Err(fault) => Err(fault),
    }
}

//! The run that finds what changes from one edition to another.

ghost use Rattle.std.specs.Prelude.{◌∷◌, []};
ghost use Rattle.uca_change_runs.specs.inside.ReadChanges.{editions_of};
ghost use Rattle.uca_change_runs.specs.ChangesRun.{FindsChanges, RunsChanges};

use crate::files::read_editions;
use std::alloc::Allocator;
use std::io::Read;
use uca_editions::{EditionFiles, Editions, ListedChanges, find_changes};
use uca_run_parts::RunFault;
use uca_weights::Source;

/// Finds what changes from an old table and its data file to new ones: texts, ranges of code points, and the images of the old
/// table's weights. An audit accepts what is found. The files are read in turn, each to its end or its first error.
///
/// # Errors
///
/// `File` for the first file that is rejected. `Changes` if a table is not well-formed, or if the tables say two weightings.
/// `Memory` if an allocation failed after the files were read.
pub fn run_changes<M: Allocator + Copy, A: Read, B: Read, C: Read, D: Read>(
    alloc: M,
    old: &mut Source<A>,
    old_data: &mut Source<B>,
    new: &mut Source<C>,
    new_data: &mut Source<D>,
) -> Result<ListedChanges<M>, RunFault>
    ensures { FindsChanges (old.old ∷ old_data.old ∷ new.old ∷ new_data.old ∷ []) (old.new ∷ old_data.new ∷ new.new ∷ new_data.new ∷ []) result }
{
    match read_editions(alloc, old, old_data, new, new_data) {
        Ok(files) => {
            // All files are dropped in one step: that keeps the proof short.
            let found = find_between(alloc, &files);
            drop(files);
            found
        }
        Err(fault) => Err(fault),
    }
}

// Finds what changes from the old edition to the new one.
fn find_between<M: Allocator + Copy>(
    alloc: M,
    files: &EditionFiles<M>,
) -> Result<ListedChanges<M>, RunFault>
    ensures { RunsChanges result (editions_of files.now) }
{
    let editions = Editions {
        old: &files.old.table,
        old_data: &files.old.properties,
        new: &files.new.table,
        new_data: &files.new.properties,
    };
    match find_changes(alloc, &editions) {
        Ok(found) => Ok(found),
        Err(fault) => Err(RunFault::from(fault)),
    }
}

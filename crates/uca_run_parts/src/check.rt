//! The run that checks whether a table is well-formed. It reads the table and the data file alone, and gives them to
//! `uca_check`.

ghost use Rattle.std.specs.Prelude.{◌≡◌, ◌∷◌, [], ◌||◌, false};
ghost use Rattle.uca_values.specs.Content.{properties_of};
ghost use Rattle.uca_run_parts.specs.Files.{ended_by_file, table_with};
ghost use Rattle.uca_run_parts.specs.Runs.{ended_before_output, ended_by_output};
ghost use Rattle.uca_run_parts.specs.CheckRun.{Checks, RunsCheck};

use crate::faults::RunFault;
use crate::files::{Files, read_files};
use crate::output::end_verdict;
use std::alloc::Allocator;
use std::io::{Read, Write};
use uca_check::check;
use uca_weights::{Sink, Source};

/// Checks whether the table is well-formed (UTS #10, section 9.2) with the properties of the data file,
/// and returns whether it is. Writes the verdict as a line: `well-formed`, or the first condition that fails and the
/// first row that fails it, such as `WF5 row 8`.
///
/// # Errors
///
/// `File` if the table, or else the data file, is rejected: nothing was written. `Write` if the
/// writer failed: the first `written` bytes of the verdict went out.
pub fn run_check<A: Allocator + Copy, T: Read, D: Read, W: Write>(
    alloc: A,
    table: &mut Source<T>,
    properties: &mut Source<D>,
    out: &mut Sink<W>,
) -> Result<bool, RunFault>
    ensures { Checks (table.old ∷ properties.old ∷ []) (table.new ∷ properties.new ∷ []) out.old out.new result }
{
    match read_files(alloc, table, properties) {
        Ok(files) => {
            let verdict = write_verdict(&files, out);
            drop(files);
            verdict
        }
        Err(fault) => Err(fault),
    }
}

// Checks whether the table is well-formed, and writes the verdict.
fn write_verdict<A: Allocator, W: Write>(
    files: &Files<A>,
    out: &mut Sink<W>,
) -> Result<bool, RunFault>
    ensures verdict { RunsCheck out.old out.new result (table_with files.now.table (properties_of files.now.properties)) }
    ensures of_output { ended_before_output result ≡ false }
    ensures no_file { ended_by_file result ≡ false }
    ensures failed { out.new.failed ≡ (out.old.failed || ended_by_output result) }
{
    match check(&files.table, &files.properties) {
        Ok(()) => end_verdict(true, b"well-formed\n", out),
        Err(ill_formed) => {
            end_verdict(
                false,
                ill_formed.message().text("\n").as_str().as_bytes(),
                out,
            )
        }
    }
}

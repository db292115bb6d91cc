//! Writing what a run made to the output.

ghost use Rattle.uca_table.specs.Canonical.{canonical};
ghost use Rattle.uca_change_files.specs.ChangeTexts.{changes_text};
ghost use Rattle.uca_cli.specs.Command.{PrintsText};

use std::io::Write;
use uca_change_files::{ChangeList, write_changes};
use uca_host::DONE;
use uca_run_parts::faults::RunFault;
use uca_table::write_table;
use uca_values::Table;
use uca_weights::{Sink, WriteFault};

/// Writes the tailored table, and returns the status of a run that was done.
pub(crate) fn print_table<W: Write>(table: &Table, out: &mut Sink<W>) -> Result<u8, RunFault>
    ensures { PrintsText (canonical table.now) out.old out.new result }
{
    match write_table(table, out) {
        Ok(()) => Ok(DONE),
        Err(WriteFault { written }) => Err(RunFault::Write { written }),
    }
}

/// Writes the changes that were found, and returns the status of a run that was done.
pub(crate) fn print_changes<W: Write>(list: &ChangeList, out: &mut Sink<W>) -> Result<u8, RunFault>
    ensures { PrintsText (changes_text list.now) out.old out.new result }
{
    match write_changes(list, out) {
        Ok(()) => Ok(DONE),
        Err(WriteFault { written }) => Err(RunFault::Write { written }),
    }
}

//! Reads files whose bytes are in memory. A read of these does not fail.

ghost use Rattle.std.specs.Prelude.{◌≡◌, ◌≢◌, ◌⊎◌, IfOk, IfErr, MatchResult};
ghost use Rattle.uca_values.specs.Content.{TableContent, Properties, properties_of};
ghost use Rattle.uca_values.specs.declared.faults.FaultKind.TheVariants as kinds;
ghost use Rattle.uca_table.specs.TableLines as tables;
ghost use Rattle.uca_table.specs.DataSoFar as data_files;
ghost use Rattle.uca_owned.specs.Opening.{RejectsTable, RejectsData};

use std::alloc::Global;
use uca_table::{read_data, read_packed_table};
use uca_values::{Data, FaultKind, PackedTable, TableFault};
use uca_weights::Source;

/// The error of a reader of a file whose bytes are in memory. A read of these does not fail, so an error of the kind
/// `Read` becomes one of the kind `Memory`. All others stay, and so does the line.
pub fn in_memory(fault: TableFault) -> TableFault
    ensures line { result.line ≡ fault.line }
    ensures kind { (result.kind ≡ fault.kind) ⊎ (result.kind ≡ kinds.Memory) }
    ensures read { fault.kind ≡ kinds.Read → result.kind ≡ kinds.Memory }
    ensures not_read { result.kind ≢ kinds.Read }
{
    if fault.kind == FaultKind::Read {
        return TableFault {
            line: fault.line,
            kind: FaultKind::Memory,
        };
    }
    fault
}

/// The table that these bytes mean, with its rows in a few lists.
pub(crate) fn table_of(alloc: Global, bytes: &[u8]) -> Result<PackedTable, TableFault>
    ensures found { IfOk result (λ table. tables.Means bytes.now table) }
    ensures only { (meant : TableContent) → tables.Means bytes.now meant →
        MatchResult result (λ table. table ≡ meant) (λ fault. fault.kind ≡ kinds.Memory) }
    ensures rejected { IfErr result (RejectsTable bytes.now) }
{
    match read_packed_table(alloc, &mut Source::new(bytes)) {
        Ok(table) => Ok(table),
        Err(fault) => Err(in_memory(fault)),
    }
}

/// The data file that these bytes mean.
pub(crate) fn data_of(alloc: Global, bytes: &[u8]) -> Result<Data, TableFault>
    ensures found { IfOk result (λ read. data_files.Means bytes.now (properties_of read)) }
    ensures only { (meant : Properties) → data_files.Means bytes.now meant →
        MatchResult result (λ read. properties_of read ≡ meant) (λ fault. fault.kind ≡ kinds.Memory) }
    ensures rejected { IfErr result (RejectsData bytes.now) }
{
    match read_data(alloc, &mut Source::new(bytes)) {
        Ok(properties) => Ok(properties),
        Err(fault) => Err(in_memory(fault)),
    }
}

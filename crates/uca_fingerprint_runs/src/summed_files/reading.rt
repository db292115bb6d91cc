//! Reading a table and a data file with their sums.

ghost use Rattle.std.specs.Prelude.{◌≡◌, ◌||◌, IfOk, IfErr, IfSome, MatchResult};
ghost use Rattle.sha2.specs.Sha256.{sha256};
ghost use Rattle.uca_values.specs.Content.{Properties, TableContent, properties_of};
ghost use Rattle.uca_lines.specs.FileStops.{IsStop, is_read};
ghost use Rattle.uca_table.specs.DataSoFar as data_files;
ghost use Rattle.uca_table.specs.TableLines as tables;

use crate::summed_files::summed::Summed;
use sha2::Digest;
use std::alloc::Allocator;
use std::io::Read;
use uca_lines::files::read_lines;
use uca_table::{Data, DataSoFar, FaultKind, PackedTable, TableFault, TableLines};
use uca_weights::Source;

/// Reads a table file as [`read_packed_table`](uca_table::read_packed_table) does, and returns the SHA-256 of its bytes too.
///
/// # Errors
///
/// Those of [`read_table`](uca_table::read_table).
pub(crate) fn read_summed_table<A: Allocator + Copy, R: Read>(
    alloc: A,
    source: &mut Source<R>,
) -> Result<(PackedTable<A>, [u8; 32]), TableFault>
    // Where the bytes are known.
    ensures found { IfSome source.old.remaining (λ bytes. IfOk result (λ read. tables.Means bytes read.0)) }
    ensures sum { IfSome source.old.remaining (λ bytes. IfOk result (λ read. read.1 ≡ sha256 bytes)) }
    ensures only { IfSome source.old.remaining (λ bytes. (table : TableContent) → tables.Means bytes table →
        MatchResult result (λ read. read.0 ≡ table) (λ fault. IsStop fault.kind)) }
    ensures fault { IfSome source.old.remaining (λ bytes. IfErr result (tables.Refuses bytes source.new.remaining)) }

    // At any source.
    ensures failed { source.new.failed ≡ (source.old.failed || is_read result) }
{
    read_table_to_end(alloc, source)
}

// As `read_summed_table`, without the claim that nothing else is returned.
fn read_table_to_end<A: Allocator + Copy, R: Read>(
    alloc: A,
    source: &mut Source<R>,
) -> Result<(PackedTable<A>, [u8; 32]), TableFault>
    ensures found { IfSome source.old.remaining (λ bytes. IfOk result (λ read. tables.Means bytes read.0)) }
    ensures sum { IfSome source.old.remaining (λ bytes. IfOk result (λ read. read.1 ≡ sha256 bytes)) }
    ensures fault { IfSome source.old.remaining (λ bytes. IfErr result (tables.Refuses bytes source.new.remaining)) }
    ensures failed { source.new.failed ≡ (source.old.failed || is_read result) }
{
    let mut lines = Summed::new(TableLines::new(alloc));
    match read_lines(alloc, source, &mut lines) {
        Ok(count) => {
            let Summed { parser, hasher } = lines;
            match parser.into_table() {
                Some(table) => Ok((table, hasher.finalize())),
                None => Err(TableFault {
                    line: count + 1,
                    kind: FaultKind::Order,
                }),
            }
        }
        Err(fault) => {
            drop(lines);
            Err(fault.into())
        }
    }
}

/// Reads a data file as [`read_data`](uca_table::read_data) does, and returns the SHA-256 of its bytes too.
///
/// # Errors
///
/// Those of [`read_data`](uca_table::read_data).
pub(crate) fn read_summed_data<A: Allocator + Copy, R: Read>(
    alloc: A,
    source: &mut Source<R>,
) -> Result<(Data<A>, [u8; 32]), TableFault>
    // Where the bytes are known.
    ensures found { IfSome source.old.remaining (λ bytes. IfOk result (λ read. data_files.Means bytes (properties_of read.0))) }
    ensures sum { IfSome source.old.remaining (λ bytes. IfOk result (λ read. read.1 ≡ sha256 bytes)) }
    ensures only { IfSome source.old.remaining (λ bytes. (properties : Properties) → data_files.Means bytes properties →
        MatchResult result (λ read. properties_of read.0 ≡ properties) (λ fault. IsStop fault.kind)) }
    ensures fault { IfSome source.old.remaining (λ bytes. IfErr result (data_files.Refuses bytes source.new.remaining)) }

    // At any source.
    ensures failed { source.new.failed ≡ (source.old.failed || is_read result) }
{
    read_data_to_end(alloc, source)
}

// As `read_summed_data`, without the claim that nothing else is returned.
fn read_data_to_end<A: Allocator + Copy, R: Read>(
    alloc: A,
    source: &mut Source<R>,
) -> Result<(Data<A>, [u8; 32]), TableFault>
    ensures found { IfSome source.old.remaining (λ bytes. IfOk result (λ read. data_files.Means bytes (properties_of read.0))) }
    ensures sum { IfSome source.old.remaining (λ bytes. IfOk result (λ read. read.1 ≡ sha256 bytes)) }
    ensures fault { IfSome source.old.remaining (λ bytes. IfErr result (data_files.Refuses bytes source.new.remaining)) }
    ensures failed { source.new.failed ≡ (source.old.failed || is_read result) }
{
    let mut lines = Summed::new(DataSoFar {
        started: false,
        data: Data::new(alloc),
    });
    match read_lines(alloc, source, &mut lines) {
        Ok(_) if lines.parser.started => {
            let Summed { parser, hasher } = lines;
            Ok((parser.data, hasher.finalize()))
        }
        Ok(count) => {
            drop(lines);
            Err(TableFault {
                line: count + 1,
                kind: FaultKind::Order,
            })
        }
        Err(fault) => {
            drop(lines);
            Err(fault.into())
        }
    }
}

//! Reads a table file line by line, up to its end or its first error.

ghost use Rattle.std.specs.Prelude.{◌≡◌, ◌+◌, ◌≤◌, ◌||◌, IfOk, IfErr, IfSome, MatchResult};
ghost use Rattle.uca_values.specs.Content.{TableContent};
ghost use Rattle.uca_lines.specs.declared.files.TheConstants.{TABLE_FORM};
ghost use Rattle.uca_lines.specs.FileStops.{IsStop, is_read};
ghost use Rattle.uca_lines.specs.Files.{StopsAt};
ghost use Rattle.uca_table.specs.TableLines.{Means, Refuses, Says};

use crate::lines::TableLines;
use std::alloc::Allocator;
use std::io::Read;
use uca_lines::files::read_lines;
use uca_values::{FaultKind, PackedTable, Table, TableFault};
use uca_weights::Source;

/// Reads a table file: collation elements in the format of Unicode's `allkeys.txt` (UTS #10, section
/// 9.1).
///
/// One line `@version V` comes first, then at most one line `@variable non-ignorable` or
/// `@variable shifted`, then lines `@implicitweights FIRST..LAST; LEAD`, then rows
/// `CP CP ; [.W.W.W][*W.W.W]`. Empty lines may be anywhere, and `#` begins a comment. All numbers are
/// hexadecimal with upper-case digits.
///
/// # Errors
///
/// The first line that is rejected, and why. If a line has several causes, the first in this order is returned.
///
/// - `Limit`: line 1,000,001, or a line of more than 4,096 bytes without its LF.
/// - In a line that begins with `@`: `Line` for another first word; `Order` if the line may not come here; `Line` for
///   another version or setting.
/// - In a range: `Line` if there is no `;` or no `..`, then `CodePoint`, then `Weight` for a lead that is not four
///   digits. Then `Range` if the range is empty, has a lead outside FB00 to FB3F, overlaps an earlier one, or is too
///   far from those with its lead. Then `Limit` for the 257th such line.
/// - In a row: `Order` if no version comes before it. For each word `CodePoint`, and `Limit` for the
///   seventeenth; `Line` if there is no word, or no `;` after the words. For each element `Line` if it does not begin
///   as an element does, `Weight` if it does not go on like one, and `Limit` for the 33rd. `Line` if there is no
///   element. Then `DuplicateKey`, and `Limit` for row 200,001.
/// - `Line`: no LF ends the line.
/// - `Order`, with the number of lines plus one: the file ends without a version.
///
/// `Read` (the source failed) and `Memory` (an allocation failed) come with the line that was being
/// read.
pub fn read_table<A: Allocator + Copy, R: Read>(
    alloc: A,
    source: &mut Source<R>,
) -> Result<Table<A>, TableFault>
    // Where the bytes are known.
    ensures found { IfSome source.old.remaining (λ bytes. IfOk result (λ read. Means bytes read)) }
    ensures only { IfSome source.old.remaining (λ bytes. (table : TableContent) → Means bytes table →
        MatchResult result (λ read. read ≡ table) (λ fault. IsStop fault.kind)) }
    ensures fault { IfSome source.old.remaining (λ bytes. IfErr result (Refuses bytes source.new.remaining)) }

    // At any source.
    ensures failed { source.new.failed ≡ (source.old.failed || is_read result) }
{
    match read_counted(alloc, source) {
        Ok((table, count)) => match table.unpack(alloc) {
            Ok(table) => Ok(table),
            Err(_) => Err(TableFault {
                line: count + 1,
                kind: FaultKind::Memory,
            }),
        },
        Err(fault) => Err(fault),
    }
}

/// Reads a table file as [`read_table`] does, and keeps the rows in a few lists. This takes less time and memory.
///
/// # Errors
///
/// Those of [`read_table`].
pub fn read_packed_table<A: Allocator + Copy, R: Read>(
    alloc: A,
    source: &mut Source<R>,
) -> Result<PackedTable<A>, TableFault>
    // Where the bytes are known.
    ensures found { IfSome source.old.remaining (λ bytes. IfOk result (λ read. Means bytes read)) }
    ensures only { IfSome source.old.remaining (λ bytes. (table : TableContent) → Means bytes table →
        MatchResult result (λ read. read ≡ table) (λ fault. IsStop fault.kind)) }
    ensures fault { IfSome source.old.remaining (λ bytes. IfErr result (Refuses bytes source.new.remaining)) }

    // At any source.
    ensures failed { source.new.failed ≡ (source.old.failed || is_read result) }
{
    match read_counted(alloc, source) {
        Ok((table, _)) => Ok(table),
        Err(fault) => Err(fault),
    }
}

// The table, and how many lines it has.
fn read_counted<A: Allocator + Copy, R: Read>(
    alloc: A,
    source: &mut Source<R>,
) -> Result<(PackedTable<A>, u32), TableFault>
    ensures found { IfSome source.old.remaining (λ bytes. IfOk result (λ read. Means bytes read.0)) }
    ensures only { IfSome source.old.remaining (λ bytes. (table : TableContent) → Means bytes table →
        MatchResult result (λ read. read.0 ≡ table) (λ fault. IsStop fault.kind)) }
    ensures stops { IfSome source.old.remaining (λ bytes. IfOk result (λ read. StopsAt TABLE_FORM Says bytes (read.1 + 1))) }
    ensures few { IfOk result (λ read. read.1 ≤ 1000000) }
    ensures fault { IfSome source.old.remaining (λ bytes. IfErr result (Refuses bytes source.new.remaining)) }
    ensures failed { source.new.failed ≡ (source.old.failed || is_read result) }
{
    read_to_end(alloc, source)
}

// As `read_counted`, without the claim that nothing else is returned.
fn read_to_end<A: Allocator + Copy, R: Read>(
    alloc: A,
    source: &mut Source<R>,
) -> Result<(PackedTable<A>, u32), TableFault>
    ensures found { IfSome source.old.remaining (λ bytes. IfOk result (λ read. Means bytes read.0)) }
    ensures stops { IfSome source.old.remaining (λ bytes. IfOk result (λ read. StopsAt TABLE_FORM Says bytes (read.1 + 1))) }
    ensures few { IfOk result (λ read. read.1 ≤ 1000000) }
    ensures fault { IfSome source.old.remaining (λ bytes. IfErr result (Refuses bytes source.new.remaining)) }
    ensures failed { source.new.failed ≡ (source.old.failed || is_read result) }
{
    let mut lines = TableLines::new(alloc);
    match read_lines(alloc, source, &mut lines) {
        Ok(count) => match lines.into_table() {
            Some(table) => Ok((table, count)),
            None => Err(TableFault {
                line: count + 1,
                kind: FaultKind::Order,
            }),
        },
        Err(fault) => {
            drop(lines);
            Err(fault.into())
        }
    }
}

//! Writes a table as its canonical text.

ghost use Rattle.std.specs.Prelude.{◌≡◌, ◌<◌, ◌||◌, length, is_err, IfErr};
ghost use Rattle.uca_weights.specs.Writes.{Writes};
ghost use Rattle.uca_table.specs.Canonical.{canonical};

use crate::canonical::header::write_header;
use crate::canonical::rows::write_rows;
use std::alloc::Allocator;
use std::io::Write;
use uca_lines::OutputBuffer;
use uca_values::Table;
use uca_weights::{Sink, WriteFault};

/// Writes the canonical text of a table, which is a table file that means this table. It takes no memory.
///
/// Each line ends in LF. The text has these lines and nothing else:
///
/// - `@version V`;
/// - `@variable non-ignorable` or `@variable shifted`, if the table has a setting;
/// - each range, in order: `@implicitweights FIRST..LAST; LEAD`;
/// - each row, in order: `CP CP ; [.W.W.W][*W.W.W]`, where `*` marks a variable element.
///
/// Numbers are in upper-case hexadecimal digits: a weight has four, and a code point four, or as many as
/// it needs.
///
/// # Errors
///
/// The writer failed: `written` says how many bytes went out, counted from the beginning of the text.
pub fn write_table<A: Allocator, W: Write>(
    table: &Table<A>,
    out: &mut Sink<W>,
) -> Result<(), WriteFault>
    ensures text { Writes out.old.contents out.new.contents (canonical table.now) result }
    ensures not_all { IfErr result (λ fault. fault.written < length (canonical table.now)) }
    ensures failed { out.new.failed ≡ (out.old.failed || is_err result) }
{
    let mut buffer = OutputBuffer::new();
    write_header(&mut buffer, out, &table.header)?;
    write_rows(&mut buffer, out, &table.rows)?;
    buffer.flush(out)
}

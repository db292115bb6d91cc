//! Writes the rows of a table as lines, such as `0061 ; [.1C47.0020.0002]`.

ghost use Rattle.std.specs.Prelude.{length};
ghost use Rattle.std.specs.List.{flat_map};
ghost use Rattle.uca_lines.specs.Lines.{ended};
ghost use Rattle.uca_table.specs.CanonicalElements.{element_text};
ghost use Rattle.uca_table.specs.Canonical.{key_point_text, key_text, row_line};
ghost use Rattle.uca_lines.specs.Buffered.{HasRoom, WritesThrough};
ghost use Rattle.uca_table.specs.inside.CanonicalLineTexts.{row_lines};

use crate::canonical::buffered::write_point;
use crate::canonical::elements::element_text;
use std::alloc::Allocator;
use std::io::Write;
use uca_lines::OutputBuffer;
use uca_values::Row;
use uca_weights::{Element, Sink, WriteFault};

/// Writes rows, one line for each.
///
/// # Errors
///
/// Those of [`OutputBuffer::write`].
pub fn write_rows<A: Allocator, W: Write>(
    buffer: &mut OutputBuffer,
    out: &mut Sink<W>,
    rows: &[Row<A>],
) -> Result<(), WriteFault>
    requires { HasRoom buffer.old (length (row_lines rows.now)) }
    ensures { WritesThrough (row_lines rows.now) buffer.old buffer.new out.old out.new result }
{
    for row in rows {
        write_row(buffer, out, row)?;
    }
    Ok(())
}

fn write_row<A: Allocator, W: Write>(
    buffer: &mut OutputBuffer,
    out: &mut Sink<W>,
    row: &Row<A>,
) -> Result<(), WriteFault>
    requires { HasRoom buffer.old (length (ended (row_line row.now))) }
    ensures { WritesThrough (ended (row_line row.now)) buffer.old buffer.new out.old out.new result }
{
    write_key(buffer, out, &row.key)?;
    buffer.write(out, b"; ")?;
    write_elements(buffer, out, &row.elements)?;
    buffer.write(out, b"\n")
}

fn write_key<W: Write>(
    buffer: &mut OutputBuffer,
    out: &mut Sink<W>,
    key: &[char],
) -> Result<(), WriteFault>
    requires { HasRoom buffer.old (length (key_text key.now)) }
    ensures { WritesThrough (key_text key.now) buffer.old buffer.new out.old out.new result }
{
    for point in key {
        write_key_point(buffer, out, *point)?;
    }
    Ok(())
}

// A code point of a key, with a space after it.
fn write_key_point<W: Write>(
    buffer: &mut OutputBuffer,
    out: &mut Sink<W>,
    point: char,
) -> Result<(), WriteFault>
    requires { HasRoom buffer.old (length (key_point_text point)) }
    ensures { WritesThrough (key_point_text point) buffer.old buffer.new out.old out.new result }
{
    write_point(buffer, out, point)?;
    buffer.write(out, b" ")
}

fn write_elements<W: Write>(
    buffer: &mut OutputBuffer,
    out: &mut Sink<W>,
    elements: &[Element],
) -> Result<(), WriteFault>
    requires { HasRoom buffer.old (length (flat_map element_text elements.now)) }
    ensures { WritesThrough (flat_map element_text elements.now) buffer.old buffer.new out.old out.new result }
{
    for element in elements {
        buffer.write(out, &element_text(*element))?;
    }
    Ok(())
}

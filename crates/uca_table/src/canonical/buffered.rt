//! Code points that are written to a buffer.

ghost use Rattle.std.specs.Prelude.{length};
ghost use Rattle.uca_table.specs.Canonical.{point_text};
ghost use Rattle.uca_lines.specs.Buffered.{HasRoom, WritesThrough};

use std::io::Write;
use uca_lines::OutputBuffer;
use uca_lines::fields::{six_digits, spare_digits};
use uca_weights::{Sink, WriteFault};

/// Writes a code point: four digits, or as many as it needs.
///
/// # Errors
///
/// Those of [`OutputBuffer::write`].
pub fn write_point<W: Write>(
    buffer: &mut OutputBuffer,
    out: &mut Sink<W>,
    point: char,
) -> Result<(), WriteFault>
    requires { HasRoom buffer.old (length (point_text point)) }
    ensures { WritesThrough (point_text point) buffer.old buffer.new out.old out.new result }
{
    let digits = six_digits(u32::from(point));
    buffer.write(out, &digits[spare_digits(point)..])
}

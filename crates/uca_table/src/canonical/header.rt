//! The lines of a table before its rows.

ghost use Rattle.std.specs.Prelude.{◌≡◌, [], ◌∷◌, ◌++◌, ◌≤◌, length};
ghost use Rattle.uca_lines.specs.Lines.{ended};
ghost use Rattle.uca_lines.specs.Numbers.{digits};
ghost use Rattle.uca_table.specs.Canonical.{version_line, setting_line, range_line};
ghost use Rattle.uca_lines.specs.Buffered.{count_of, HasRoom, WritesThrough};
ghost use Rattle.uca_table.specs.inside.CanonicalLineTexts.{setting_text, range_lines, header_text};

use crate::canonical::buffered::write_point;
use std::alloc::Allocator;
use std::io::Write;
use uca_lines::OutputBuffer;
use uca_lines::fields::four_digits;
use uca_values::{Header, ImplicitRange};
use uca_weights::{Sink, Weighting, WriteFault};

/// Writes the lines of a header, as the first of a text.
///
/// # Errors
///
/// Those of [`OutputBuffer::write`].
pub fn write_header<A: Allocator, W: Write>(
    buffer: &mut OutputBuffer,
    out: &mut Sink<W>,
    header: &Header<A>,
) -> Result<(), WriteFault>
    requires { count_of buffer.old ≡ 0 }
    ensures text { WritesThrough (header_text header.now) buffer.old buffer.new out.old out.new result }
    ensures short { length (header_text header.now) ≤ 10000 }
{
    write_version(buffer, out, header.version.as_bytes())?;
    write_setting(buffer, out, header.setting)?;
    write_ranges(buffer, out, &header.ranges)
}

fn write_version<W: Write>(
    buffer: &mut OutputBuffer,
    out: &mut Sink<W>,
    name: &[u8],
) -> Result<(), WriteFault>
    requires { HasRoom buffer.old (length (ended (version_line name.now))) }
    ensures { WritesThrough (ended (version_line name.now)) buffer.old buffer.new out.old out.new result }
{
    buffer.write(out, b"@version ")?;
    buffer.write(out, name)?;
    buffer.write(out, b"\n")
}

fn write_setting<W: Write>(
    buffer: &mut OutputBuffer,
    out: &mut Sink<W>,
    setting: Option<Weighting>,
) -> Result<(), WriteFault>
    requires { HasRoom buffer.old (length (setting_text setting)) }
    ensures { WritesThrough (setting_text setting) buffer.old buffer.new out.old out.new result }
{
    match setting {
        Some(setting) => buffer.write(out, setting_line(setting)),
        None => Ok(()),
    }
}

// The line of a setting, with its LF.
#[tactic(auto, unfolding(crate::specs::Canonical::setting_line))]
fn setting_line(setting: Weighting) -> &'static [u8]
    ensures { result.now ≡ ended (setting_line setting) }
{
    match setting {
        Weighting::NonIgnorable => b"@variable non-ignorable\n",
        Weighting::Shifted => b"@variable shifted\n",
    }
}

fn write_ranges<W: Write>(
    buffer: &mut OutputBuffer,
    out: &mut Sink<W>,
    ranges: &[ImplicitRange],
) -> Result<(), WriteFault>
    requires { HasRoom buffer.old (length (range_lines ranges.now)) }
    ensures { WritesThrough (range_lines ranges.now) buffer.old buffer.new out.old out.new result }
{
    for range in ranges {
        write_range(buffer, out, *range)?;
    }
    Ok(())
}

fn write_range<W: Write>(
    buffer: &mut OutputBuffer,
    out: &mut Sink<W>,
    range: ImplicitRange,
) -> Result<(), WriteFault>
    requires { HasRoom buffer.old (length (ended (range_line range))) }
    ensures { WritesThrough (ended (range_line range)) buffer.old buffer.new out.old out.new result }
{
    buffer.write(out, b"@implicitweights ")?;
    write_point(buffer, out, range.first)?;
    buffer.write(out, b"..")?;
    write_point(buffer, out, range.last)?;
    buffer.write(out, &lead_end(range.lead))
}

// What ends the line of a range.
fn lead_end(lead: u16) -> [u8; 7]
    ensures { result ≡ 59 ∷ 32 ∷ digits 4 lead ++ 10 ∷ [] }
{
    let [first, second, third, fourth] = four_digits(lead);
    [b';', b' ', first, second, third, fourth, b'\n']
}

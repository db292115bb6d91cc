//! Writes a list of changes: a line for each text and for each range.

ghost use Rattle.std.specs.Prelude.{◌≡◌, ◌||◌, ◌<◌, ◌++◌, IfErr, OnOk, length, is_err};
ghost use Rattle.std.specs.Char.{IsScalar};
ghost use Rattle.std.specs.List.{AllByRecursion};
ghost use Rattle.uca_weights.specs.Writes.{Writes};
ghost use Rattle.uca_lines.specs.Buffered.{count_of, HasRoom, WritesThrough};
ghost use Rattle.uca_lines.specs.Lines.{ended};
ghost use Rattle.uca_table.specs.Canonical.{point_text};
ghost use Rattle.uca_change_files.specs.ChangeTexts.{AreScalars, Means, changes_text, text_line, range_line};
ghost use Rattle.uca_change_files.specs.Steps.{text_lines, range_lines};

use crate::{ChangeList, ChangedText};
use std::alloc::Allocator;
use std::io::Write;
use uca_lines::OutputBuffer;
use uca_lines::fields::{six_digits, spare_digits};
use uca_values::CodePointRange;
use uca_weights::{Sink, WriteFault};

/// Writes the text of a list of changes: `@changes 1`, a line `text CP CP ..` for each text, and then a line
/// `range FIRST..LAST` for each range, each ended by LF. This text means the list, and no other one.
///
/// # Errors
///
/// The writer failed: `written` says how many bytes went out, counted from the beginning of the text.
pub fn write_changes<W: Write, A: Allocator>(
    list: &ChangeList<A>,
    out: &mut Sink<W>,
) -> Result<(), WriteFault>
    ensures text { Writes out.old.contents out.new.contents (changes_text list.now) result }
    ensures means { OnOk result (Means (changes_text list.now) list.now) }
    ensures not_all { IfErr result (λ fault. fault.written < length (changes_text list.now)) }
    ensures failed { out.new.failed ≡ (out.old.failed || is_err result) }
{
    let mut buffer = OutputBuffer::new();
    match write_list(&mut buffer, out, list) {
        Ok(()) => buffer.flush(out),
        Err(fault) => Err(fault),
    }
}

fn write_list<W: Write, A: Allocator>(
    buffer: &mut OutputBuffer,
    out: &mut Sink<W>,
    list: &ChangeList<A>,
) -> Result<(), WriteFault>
    requires { count_of buffer.old ≡ 0 }
    ensures text { WritesThrough (changes_text list.now) buffer.old buffer.new out.old out.new result }
    ensures means { OnOk result (Means (changes_text list.now) list.now) }
{
    buffer.write(out, b"@changes 1\n")?;
    write_texts(buffer, out, list.texts())?;
    write_ranges(buffer, out, list.ranges())
}

fn write_texts<W: Write, A: Allocator>(
    buffer: &mut OutputBuffer,
    out: &mut Sink<W>,
    texts: &[ChangedText<A>],
) -> Result<(), WriteFault>
    requires { HasRoom buffer.old (length (text_lines texts.now)) }
    ensures text { WritesThrough (text_lines texts.now) buffer.old buffer.new out.old out.new result }
    ensures scalars { OnOk result (AreScalars texts.now) }
{
    for text in texts {
        write_text(buffer, out, &text.points)?;
    }
    Ok(())
}

fn write_text<W: Write>(
    buffer: &mut OutputBuffer,
    out: &mut Sink<W>,
    text: &[char],
) -> Result<(), WriteFault>
    requires { HasRoom buffer.old (length (ended (text_line text.now))) }
    ensures text { WritesThrough (ended (text_line text.now)) buffer.old buffer.new out.old out.new result }
    ensures scalars { OnOk result (AllByRecursion IsScalar text.now) }
{
    buffer.write(out, b"text")?;
    for point in text {
        write_point(buffer, out, b" ", *point)?;
    }
    buffer.write(out, b"\n")
}

// Writes these bytes, and then a code point.
#[inline(always)]
fn write_point<W: Write>(
    buffer: &mut OutputBuffer,
    out: &mut Sink<W>,
    front: &[u8],
    point: char,
) -> Result<(), WriteFault>
    requires { HasRoom buffer.old (length (front.now ++ point_text point)) }
    ensures { WritesThrough (front.now ++ point_text point) buffer.old buffer.new out.old out.new result }
{
    match buffer.write(out, front) {
        Ok(()) => {
            let digits = six_digits(u32::from(point));
            buffer.write(out, &digits[spare_digits(point)..])
        }
        Err(fault) => Err(fault),
    }
}

fn write_ranges<W: Write>(
    buffer: &mut OutputBuffer,
    out: &mut Sink<W>,
    ranges: &[CodePointRange],
) -> Result<(), WriteFault>
    requires { HasRoom buffer.old (length (range_lines ranges.now)) }
    ensures { WritesThrough (range_lines ranges.now) buffer.old buffer.new out.old out.new result }
{
    for range in ranges {
        write_range(buffer, out, *range)?;
    }
    Ok(())
}

fn write_range<W: Write>(
    buffer: &mut OutputBuffer,
    out: &mut Sink<W>,
    range: CodePointRange,
) -> Result<(), WriteFault>
    requires { HasRoom buffer.old (length (ended (range_line range))) }
    ensures { WritesThrough (ended (range_line range)) buffer.old buffer.new out.old out.new result }
{
    write_point(buffer, out, b"range ", range.first)?;
    write_point(buffer, out, b"..", range.last)?;
    buffer.write(out, b"\n")
}

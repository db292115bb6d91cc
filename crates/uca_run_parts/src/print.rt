//! Prints a key as a line of groups of digits, or as digits before a line.

ghost use Rattle.std.specs.Prelude.{◌≡◌, ◌≤◌, length};
ghost use Rattle.std.specs.List.{flat_map};
ghost use Rattle.uca_lines.specs.Buffered.{HasRoom, WritesThrough};
ghost use Rattle.uca_run_parts.specs.Print;
ghost use Rattle.uca_run_parts.specs.Print.{byte_digits, printed_groups, spaced_groups, printed_after, print_line_at, digits_line_of, keyed_line_of};

use crate::output::write_line;
use std::io::Write;
use uca_lines::OutputBuffer;
use uca_weights::{Depth, Sink, WriteFault};

/// How many bytes of a key are printed at a time. It is even, so that each part begins where a group does.
const PART: usize = 256;

/// How many groups those are.
const GROUPS: usize = PART / 2;

/// Room for the digits of one key after another. What it holds between two keys has no meaning.
#[derive(Drop)]
pub struct KeyDigits {
    groups: [[u8; 5]; GROUPS],
    pairs: [[u8; 2]; PART],
}

impl KeyDigits {
    /// It takes no memory.
    pub fn new() -> KeyDigits {
        KeyDigits {
            groups: [[0; 5]; GROUPS],
            pairs: [[0; 2]; PART],
        }
    }
}

/// Writes a key as a line: groups of two bytes as four upper-case hexadecimal digits, one space
/// between two groups, and LF. The key is that of the weights; at the depth `Identical` the code points of the
/// text follow, after a group `0000`, as six digits each. It takes no memory.
///
/// # Errors
///
/// The sink failed: `written` says how many bytes went out, counted over all that was written to the buffer.
pub fn print_key<W: Write>(
    digits: &mut KeyDigits,
    buffer: &mut OutputBuffer,
    out: &mut Sink<W>,
    depth: Depth,
    key: &[u8],
    points: &[char],
) -> Result<(), WriteFault>
    requires { HasRoom buffer.old (length (print_line_at depth key.now points.now)) }
    ensures { WritesThrough (print_line_at depth key.now points.now) buffer.old buffer.new out.old out.new result }
{
    write_groups(&mut digits.groups, buffer, out, key)?;
    write_level(buffer, out, depth, points)?;
    buffer.write(out, b"\n")
}

/// Writes a key as a line of upper-case hexadecimal digits without spaces, and LF. It takes no memory. An error says how many
/// bytes went out of all that was written to the buffer.
pub fn print_digits<W: Write>(
    digits: &mut KeyDigits,
    buffer: &mut OutputBuffer,
    out: &mut Sink<W>,
    key: &[u8],
) -> Result<(), WriteFault>
    requires { HasRoom buffer.old (length (digits_line_of key.now)) }
    ensures { WritesThrough (digits_line_of key.now) buffer.old buffer.new out.old out.new result }
{
    write_digits(&mut digits.pairs, buffer, out, key)?;
    buffer.write(out, b"\n")
}

/// Writes a key before a line: the key as upper-case hexadecimal digits without spaces, a tab, the line, and LF. It takes no
/// memory. An error says how many bytes went out of all that was written to the buffer.
pub fn print_keyed_line<W: Write>(
    digits: &mut KeyDigits,
    buffer: &mut OutputBuffer,
    out: &mut Sink<W>,
    key: &[u8],
    line: &[u8],
) -> Result<(), WriteFault>
    requires { HasRoom buffer.old (length (keyed_line_of key.now line.now)) }
    ensures { WritesThrough (keyed_line_of key.now line.now) buffer.old buffer.new out.old out.new result }
{
    write_digits(&mut digits.pairs, buffer, out, key)?;
    buffer.write(out, b"\t")?;
    write_line(buffer, out, line)
}

// Writes the digits of a key. Those of each part lie in the array.
fn write_digits<W: Write>(
    digits: &mut [[u8; 2]; PART],
    buffer: &mut OutputBuffer,
    out: &mut Sink<W>,
    key: &[u8],
) -> Result<(), WriteFault>
    requires { HasRoom buffer.old (length (flat_map byte_digits key.now)) }
    ensures { WritesThrough (flat_map byte_digits key.now) buffer.old buffer.new out.old out.new result }
{
    for part in key.chunks(PART) {
        buffer.write(out, digits_in(digits, part))?;
    }
    Ok(())
}

// The digits of a part of a key. They lie in the array.
fn digits_in<'a>(digits: &'a mut [[u8; 2]; PART], part: &[u8]) -> &'a [u8]
    requires { length part.now ≤ PART }
    ensures { result.now ≡ flat_map byte_digits part.now }
{
    for (number, byte) in part.iter().enumerate() {
        digits[number] = digits_of(*byte);
    }
    &digits.as_flattened()[..2 * part.len()]
}

// Writes what comes after the weights: nothing, or the identical level, which is `0000` and the code points.
fn write_level<W: Write>(
    buffer: &mut OutputBuffer,
    out: &mut Sink<W>,
    depth: Depth,
    points: &[char],
) -> Result<(), WriteFault>
    requires { HasRoom buffer.old (length (printed_after depth points.now)) }
    ensures { WritesThrough (printed_after depth points.now) buffer.old buffer.new out.old out.new result }
{
    match depth {
        Depth::Weights => Ok(()),
        Depth::Identical => {
            buffer.write(out, b" 0000")?;
            write_points(buffer, out, points)
        }
    }
}

// Writes code points, each after a space.
fn write_points<W: Write>(
    buffer: &mut OutputBuffer,
    out: &mut Sink<W>,
    points: &[char],
) -> Result<(), WriteFault>
    requires { HasRoom buffer.old (length (flat_map Print.spaced_point points.now)) }
    ensures { WritesThrough (flat_map Print.spaced_point points.now) buffer.old buffer.new out.old out.new result }
{
    for point in points {
        buffer.write(out, &spaced_point(*point))?;
    }
    Ok(())
}

// A code point as six digits after a space.
fn spaced_point(point: char) -> [u8; 7]
    ensures { result ≡ Print.spaced_point point }
{
    let [_, high, middle, low] = u32::from(point).to_be_bytes();
    let [first, second] = digits_of(high);
    let [third, fourth] = digits_of(middle);
    let [fifth, sixth] = digits_of(low);
    [b' ', first, second, third, fourth, fifth, sixth]
}

// Writes the groups of a key. Those of each part lie in the array.
fn write_groups<W: Write>(
    groups: &mut [[u8; 5]; GROUPS],
    buffer: &mut OutputBuffer,
    out: &mut Sink<W>,
    key: &[u8],
) -> Result<(), WriteFault>
    requires { HasRoom buffer.old (length (printed_groups key.now)) }
    ensures { WritesThrough (printed_groups key.now) buffer.old buffer.new out.old out.new result }
{
    // The first group of the key has no space before it.
    let mut begin = 1;
    for part in key.chunks(PART) {
        let text = spaced_text(groups, part);
        buffer.write(out, &text[begin..])?;
        begin = 0;
    }
    Ok(())
}

// Writes a part of a key: its groups, each after a space. The text lies in the array.
fn spaced_text<'a>(groups: &'a mut [[u8; 5]; GROUPS], part: &[u8]) -> &'a [u8]
    requires { length part.now ≤ PART }
    ensures { result.now ≡ spaced_groups part.now }
{
    let (pairs, last) = part.as_chunks::<2>();
    for (number, pair) in pairs.iter().enumerate() {
        let [first, second] = digits_of(pair[0]);
        let [third, fourth] = digits_of(pair[1]);
        groups[number] = [b' ', first, second, third, fourth];
    }
    let mut len = 5 * pairs.len();
    if let Some(byte) = last.first() {
        let [first, second] = digits_of(*byte);
        groups[pairs.len()] = [b' ', first, second, 0, 0];
        len += 3;
    }
    &groups.as_flattened()[..len]
}

/// The two upper-case hexadecimal digits of a byte.
#[inline]
pub fn digits_of(byte: u8) -> [u8; 2]
    ensures { result ≡ byte_digits byte }
{
    PAIRS[byte as usize]
}

// The two digits of each byte.
#[rattlefmt::skip]
static PAIRS: [[u8; 2]; 256] = [
    [b'0', b'0'], [b'0', b'1'], [b'0', b'2'], [b'0', b'3'], [b'0', b'4'], [b'0', b'5'], [b'0', b'6'], [b'0', b'7'],
    [b'0', b'8'], [b'0', b'9'], [b'0', b'A'], [b'0', b'B'], [b'0', b'C'], [b'0', b'D'], [b'0', b'E'], [b'0', b'F'],
    [b'1', b'0'], [b'1', b'1'], [b'1', b'2'], [b'1', b'3'], [b'1', b'4'], [b'1', b'5'], [b'1', b'6'], [b'1', b'7'],
    [b'1', b'8'], [b'1', b'9'], [b'1', b'A'], [b'1', b'B'], [b'1', b'C'], [b'1', b'D'], [b'1', b'E'], [b'1', b'F'],
    [b'2', b'0'], [b'2', b'1'], [b'2', b'2'], [b'2', b'3'], [b'2', b'4'], [b'2', b'5'], [b'2', b'6'], [b'2', b'7'],
    [b'2', b'8'], [b'2', b'9'], [b'2', b'A'], [b'2', b'B'], [b'2', b'C'], [b'2', b'D'], [b'2', b'E'], [b'2', b'F'],
    [b'3', b'0'], [b'3', b'1'], [b'3', b'2'], [b'3', b'3'], [b'3', b'4'], [b'3', b'5'], [b'3', b'6'], [b'3', b'7'],
    [b'3', b'8'], [b'3', b'9'], [b'3', b'A'], [b'3', b'B'], [b'3', b'C'], [b'3', b'D'], [b'3', b'E'], [b'3', b'F'],
    [b'4', b'0'], [b'4', b'1'], [b'4', b'2'], [b'4', b'3'], [b'4', b'4'], [b'4', b'5'], [b'4', b'6'], [b'4', b'7'],
    [b'4', b'8'], [b'4', b'9'], [b'4', b'A'], [b'4', b'B'], [b'4', b'C'], [b'4', b'D'], [b'4', b'E'], [b'4', b'F'],
    [b'5', b'0'], [b'5', b'1'], [b'5', b'2'], [b'5', b'3'], [b'5', b'4'], [b'5', b'5'], [b'5', b'6'], [b'5', b'7'],
    [b'5', b'8'], [b'5', b'9'], [b'5', b'A'], [b'5', b'B'], [b'5', b'C'], [b'5', b'D'], [b'5', b'E'], [b'5', b'F'],
    [b'6', b'0'], [b'6', b'1'], [b'6', b'2'], [b'6', b'3'], [b'6', b'4'], [b'6', b'5'], [b'6', b'6'], [b'6', b'7'],
    [b'6', b'8'], [b'6', b'9'], [b'6', b'A'], [b'6', b'B'], [b'6', b'C'], [b'6', b'D'], [b'6', b'E'], [b'6', b'F'],
    [b'7', b'0'], [b'7', b'1'], [b'7', b'2'], [b'7', b'3'], [b'7', b'4'], [b'7', b'5'], [b'7', b'6'], [b'7', b'7'],
    [b'7', b'8'], [b'7', b'9'], [b'7', b'A'], [b'7', b'B'], [b'7', b'C'], [b'7', b'D'], [b'7', b'E'], [b'7', b'F'],
    [b'8', b'0'], [b'8', b'1'], [b'8', b'2'], [b'8', b'3'], [b'8', b'4'], [b'8', b'5'], [b'8', b'6'], [b'8', b'7'],
    [b'8', b'8'], [b'8', b'9'], [b'8', b'A'], [b'8', b'B'], [b'8', b'C'], [b'8', b'D'], [b'8', b'E'], [b'8', b'F'],
    [b'9', b'0'], [b'9', b'1'], [b'9', b'2'], [b'9', b'3'], [b'9', b'4'], [b'9', b'5'], [b'9', b'6'], [b'9', b'7'],
    [b'9', b'8'], [b'9', b'9'], [b'9', b'A'], [b'9', b'B'], [b'9', b'C'], [b'9', b'D'], [b'9', b'E'], [b'9', b'F'],
    [b'A', b'0'], [b'A', b'1'], [b'A', b'2'], [b'A', b'3'], [b'A', b'4'], [b'A', b'5'], [b'A', b'6'], [b'A', b'7'],
    [b'A', b'8'], [b'A', b'9'], [b'A', b'A'], [b'A', b'B'], [b'A', b'C'], [b'A', b'D'], [b'A', b'E'], [b'A', b'F'],
    [b'B', b'0'], [b'B', b'1'], [b'B', b'2'], [b'B', b'3'], [b'B', b'4'], [b'B', b'5'], [b'B', b'6'], [b'B', b'7'],
    [b'B', b'8'], [b'B', b'9'], [b'B', b'A'], [b'B', b'B'], [b'B', b'C'], [b'B', b'D'], [b'B', b'E'], [b'B', b'F'],
    [b'C', b'0'], [b'C', b'1'], [b'C', b'2'], [b'C', b'3'], [b'C', b'4'], [b'C', b'5'], [b'C', b'6'], [b'C', b'7'],
    [b'C', b'8'], [b'C', b'9'], [b'C', b'A'], [b'C', b'B'], [b'C', b'C'], [b'C', b'D'], [b'C', b'E'], [b'C', b'F'],
    [b'D', b'0'], [b'D', b'1'], [b'D', b'2'], [b'D', b'3'], [b'D', b'4'], [b'D', b'5'], [b'D', b'6'], [b'D', b'7'],
    [b'D', b'8'], [b'D', b'9'], [b'D', b'A'], [b'D', b'B'], [b'D', b'C'], [b'D', b'D'], [b'D', b'E'], [b'D', b'F'],
    [b'E', b'0'], [b'E', b'1'], [b'E', b'2'], [b'E', b'3'], [b'E', b'4'], [b'E', b'5'], [b'E', b'6'], [b'E', b'7'],
    [b'E', b'8'], [b'E', b'9'], [b'E', b'A'], [b'E', b'B'], [b'E', b'C'], [b'E', b'D'], [b'E', b'E'], [b'E', b'F'],
    [b'F', b'0'], [b'F', b'1'], [b'F', b'2'], [b'F', b'3'], [b'F', b'4'], [b'F', b'5'], [b'F', b'6'], [b'F', b'7'],
    [b'F', b'8'], [b'F', b'9'], [b'F', b'A'], [b'F', b'B'], [b'F', b'C'], [b'F', b'D'], [b'F', b'E'], [b'F', b'F'],
];

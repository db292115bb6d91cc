//! Reads weights of compact keys.

ghost use Rattle.std.specs.Prelude.{◌≡◌, ◌+◌, ◌-◌, ◌<◌, ◌≤◌, IfSome, length};
ghost use Rattle.uca_compact.specs.inside.Reading as reading;
ghost use Rattle.uca_compact.specs.inside.LevelSteps.{number_of, next_in, row_of};

use crate::levels::{cell_end, cell_start};

/// A number that was read, and the bytes after it.
#[derive(Clone, Copy)]
pub(crate) struct Number<'a> {
    pub(crate) value: u16,
    pub(crate) rest: &'a [u8],
}

/// Cells of weights.
#[derive(Clone, Copy)]
pub(crate) struct Cells<'a> {
    /// The number of the first cell.
    pub(crate) number: u32,
    /// Where it starts.
    pub(crate) start: u32,
    /// Where the later ones start.
    pub(crate) later: &'a [u16],
    /// Where the last one ends.
    pub(crate) end: u32,
}

// A number of one byte.
fn one_byte(bytes: &[u8]) -> Option<Number<'_>>
    ensures is { number_of result ≡ reading.one_byte bytes.now }
    ensures rest { IfSome result (λ n. length n.rest.now ≤ length bytes.now) }
{
    match bytes {
        [] => None,
        [value, rest @ ..] => Some(Number {
            value: u16::from(*value),
            rest,
        }),
    }
}

// A number of two bytes, the high one first.
fn two_bytes(bytes: &[u8]) -> Option<Number<'_>>
    ensures is { number_of result ≡ reading.two_bytes bytes.now }
    ensures rest { IfSome result (λ n. length n.rest.now ≤ length bytes.now) }
{
    match bytes {
        [] | [_] => None,
        [high, low, rest @ ..] => Some(Number {
            value: 256 * u16::from(*high) + u16::from(*low),
            rest,
        }),
    }
}

// An offset in a cell of this width.
fn read_offset(width: u32, bytes: &[u8]) -> Option<Number<'_>>
    ensures is { number_of result ≡ reading.read_offset width bytes.now }
    ensures rest { IfSome result (λ n. length n.rest.now ≤ length bytes.now) }
{
    if width < 2 {
        return Some(Number {
            value: 0,
            rest: bytes,
        });
    }
    if width < 257 {
        one_byte(bytes)
    } else {
        two_bytes(bytes)
    }
}

// A weight of a cell, by its offset there.
fn read_within(start: u32, end: u32, bytes: &[u8]) -> Option<Number<'_>>
    requires start { start ≤ 65536 }
    requires end { end ≤ 65536 }
    ensures is { number_of result ≡ reading.weight_within start end (reading.read_offset (end - start) bytes.now) }
    ensures rest { IfSome result (λ n. length n.rest.now ≤ length bytes.now) }
{
    let Some(offset) = read_offset(end.saturating_sub(start), bytes) else {
        return None;
    };
    let weight = start + u32::from(offset.value);
    if weight < end {
        Some(Number {
            value: weight as u16,
            rest: offset.rest,
        })
    } else {
        None
    }
}

/// A weight of the cell with this number.
pub(crate) fn read_cell<'a>(cells: &Cells, wanted: u32, bytes: &'a [u8]) -> Option<Number<'a>>
    requires start { cells.now.start ≤ 65536 }
    requires end { cells.now.end ≤ 65536 }
    ensures is { number_of result
        ≡ reading.read_cell cells.now.number cells.now.start cells.now.later.now cells.now.end wanted bytes.now }
    ensures rest { IfSome result (λ n. length n.rest.now ≤ length bytes.now) }
{
    if wanted < cells.number {
        return None;
    }
    let index = (wanted - cells.number) as usize;
    if index > cells.later.len() {
        return None;
    }
    read_within(
        cell_start(cells.start, cells.later, index),
        cell_end(cells.later, cells.end, index),
        bytes,
    )
}

/// A weight of the cell whose number is the next byte.
pub(crate) fn read_next<'a>(cells: &Cells, bytes: &'a [u8]) -> Option<Number<'a>>
    requires start { cells.now.start ≤ 65536 }
    requires end { cells.now.end ≤ 65536 }
    ensures is { number_of result ≡ next_in (row_of cells.now) bytes.now }
    ensures rest { IfSome result (λ n. length n.rest.now < length bytes.now) }
{
    match bytes {
        [] => None,
        [number, rest @ ..] => read_cell(cells, u32::from(*number), rest),
    }
}

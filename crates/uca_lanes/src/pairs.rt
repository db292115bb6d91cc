//! Pairs of bytes that spell numbers: how many of them in a row spell one number.
//!
//! The first 32 pairs are marked at once: a bit for each says whether it spells another number. So a run of equal pairs is
//! found with no loop, from any of these on.

ghost use Rattle.std.specs.Prelude.{◌≡◌, ℕ, ◌+◌, ◌*◌, ◌/◌, ◌<◌, ◌≤◌, List, length, min, max};
ghost use Rattle.uca_lanes.specs.Pairs.{AreMarks, MarksPairs, IsPairRun};

use crate::first_set;
use crate::utf8::with_zeros;
use std::simd::prelude::*;

// A bit for each of eight pairs that spells another number than this one.
#[inline(always)]
fn marks_of_eight(bytes: u8x16, number: u16) -> u64
    ensures marks { AreMarks bytes number 8 result }
    ensures bound { result < 256 }
{
    let turned = number % 256 * 256 + number / 256;
    u16x8::from_le_bytes(bytes)
        .simd_ne(u16x8::splat(turned))
        .to_bitmask()
}

// A bit for each of the first sixteen pairs. Where there are fewer than eight, zeros follow, and these pairs have bits too.
// Of the last eight pairs, those that are among the first eight fall out.
#[inline(always)]
fn marks_of_sixteen(bytes: &[u8], number: u16) -> u64
    requires { 2 * (length bytes.now / 2) ≡ length bytes.now }
    ensures marks { AreMarks bytes.now number (max 8 (min 32 (length bytes.now) / 2)) result }
    ensures bound { result < 65536 }
{
    let end = bytes.len().min(32);
    if end <= 16 {
        return marks_of_eight(with_zeros(bytes), number);
    }
    let back = marks_of_eight(u8x16::from_slice(&bytes[end - 16..]), number);
    let after = back >> ((32 - end) / 2);
    marks_of_eight(u8x16::from_slice(bytes), number) + after * 256
}

/// A bit for each of the first 32 pairs of bytes, the lowest for the first: whether it spells another number than this
/// one. The high byte of a pair comes first. The number of bytes has to be even. Where there are fewer than 32 pairs, zeros
/// may follow the last one, and have bits too. All other bits are 0.
#[inline(always)]
pub fn marks_of_pairs(bytes: &[u8], number: u16) -> u64
    requires { 2 * (length bytes.now / 2) ≡ length bytes.now }
    ensures { MarksPairs bytes.now number result }
{
    let first = marks_of_sixteen(bytes, number);
    if bytes.len() <= 32 {
        return first;
    }
    first + marks_of_sixteen(&bytes[32..], number) * 0x1_0000
}

/// How many of the next `count` pairs spell the number, before the first that does not, by the marks of
/// [`marks_of_pairs`]. They begin with the pair `from`, which is less than 64, and the first pair is 0. Where some of them
/// are not there, or not among the first 32, the result is at most `count`, and tells no more.
#[inline(always)]
pub fn same_pairs(marks: u64, from: usize, count: usize) -> usize
    requires { from < 64 }
    ensures few { result ≤ count }
    ensures run { (bytes : List ℕ) (number : ℕ) → MarksPairs bytes number marks → from + count ≤ min 32 (length bytes / 2) →
        IsPairRun bytes number (2 * from) count result }
{
    first_set(marks >> from, count).min(count)
}

//! Two short texts of code points of one byte or two, such as `cart` and `père`.
//!
//! Of a text of at most fifteen bytes the first eight and the last eight are judged at once. Some bytes may be in both.
//! So of eight bytes or more none is shifted to its place.

ghost use Rattle.std.specs.Prelude.{◌≡◌, ◌↔◌, ◌+◌, ◌*◌, ◌<◌, ◌≤◌, ◌^◌, ℕ, length, IsTrue, MatchOption};
ghost use Rattle.std.specs.Bool.{MatchBool};
ghost use Rattle.std.specs.Str.{IsUtf8};
ghost use Rattle.uca_lanes.specs.Narrow.{AreNarrow};
ghost use Rattle.std.specs.Simd.Lanes.{number_l};
ghost use Rattle.uca_lanes.specs.Shared.{IsEarly};
ghost use Rattle.uca_lanes.specs.inside.Lanes.{IsSameRun};
ghost use Rattle.uca_lanes.specs.inside.Ends.{AreEnds, EndsAgree, first_eight, marks_of_leads};
ghost use Rattle.uca_lanes.specs.inside.Marks.{marks_from};

use crate::short::are_same_few;
use crate::utf8::{
    are_utf8_if_narrow, has_from, mask_from, number_of_eight, number_of_few, with_zeros,
};
use std::simd::prelude::*;

// Texts of at most so many bytes are judged together.
const SHORT: usize = 15;

// So many bytes are two times sixteen. Some may be in both.
const AT_ONCE: usize = 32;

// All bits but that of the ninth byte of each vector: in the text, the byte before it is not the eighth.
const ALL_BUT_NINTH: u64 = 0xFFFF_FEFF_FFFF_FEFF;

// The first eight bytes of a text and then its last eight. Of fewer than eight, all, and then zeros.
#[inline(always)]
fn ends_of(bytes: &[u8]) -> u8x16
    ensures { AreEnds bytes.now result }
{
    let len = bytes.len();
    if len < 8 {
        return with_zeros(bytes);
    }
    u64x2::from_array([number_of_eight(bytes, 0), number_of_eight(bytes, len - 8)]).to_le_bytes()
}

// A bit for each byte that is at least this one, of one text and, 32 bits later, of the other one.
#[inline(always)]
fn marks_of_two(one: u8x16, other: u8x16, least: u8) -> u64
    ensures { result ≡ marks_from least one + marks_from least other * 2 ^ 32 }
{
    mask_from(one, least) + mask_from(other, least) * 0x1_0000_0000
}

// A bit for each byte from C2 to DF: the first byte of a code point of two bytes.
#[inline(always)]
fn mask_of_leads(bytes: u8x16) -> u64
    ensures mask { result ≡ marks_of_leads bytes }
    ensures bound { result < 2 ^ 16 }
{
    bytes
        .simd_max(u8x16::splat(0xC2))
        .simd_min(u8x16::splat(0xDF))
        .simd_eq(bytes)
        .to_bitmask()
}

// Whether two texts of at most fifteen bytes are UTF-8 of code points of one byte or two. These are their ends.
#[inline(always)]
fn are_narrow(one: u8x16, other: u8x16) -> bool
    ensures { IsTrue result ↔ (EndsAgree one × EndsAgree other) }
{
    let starts = marks_of_two(one, other, 0xC0);
    let leads = mask_of_leads(one) + mask_of_leads(other) * 0x1_0000_0000;
    let others = marks_of_two(one, other, 0x80) - starts;
    (starts == leads) & ((2 * leads ^ others) & ALL_BUT_NINTH == 0)
}

// Whether a text of at most fifteen bytes is UTF-8 of code points of one byte or two. Sixteen zeros stand for another
// text.
#[inline(always)]
fn is_narrow(ends: u8x16) -> bool
    ensures { IsTrue result ↔ EndsAgree ends }
{
    are_narrow(ends, u8x16::splat(0))
}

// Whether a text of at most 32 bytes is UTF-8 of code points of one byte or two.
#[inline(always)]
fn is_narrow_text(bytes: &[u8]) -> bool
    requires { length bytes.now ≤ 32 }
    ensures { IsTrue result ↔ (IsUtf8 bytes.now × AreNarrow bytes.now) }
{
    let len = bytes.len();
    if len <= SHORT {
        return is_narrow(ends_of(bytes));
    }
    let front = u8x16::from_slice(bytes);
    let back = u8x16::from_slice(&bytes[len - 16..]);
    if has_from(front, back, 0xE0) {
        return false;
    }
    are_utf8_if_narrow(front, back, 32 - len as u64)
}

// Whether two texts of at most 32 bytes are UTF-8 of code points of one byte or two.
#[inline(always)]
fn are_narrow_texts(left: &[u8], right: &[u8]) -> bool
    requires few { length left.now ≤ 32 }
    requires few_too { length right.now ≤ 32 }
    ensures { IsTrue result ↔ ((IsUtf8 left.now × AreNarrow left.now) × (IsUtf8 right.now × AreNarrow right.now)) }
{
    if left.len() <= SHORT && right.len() <= SHORT {
        return are_narrow(ends_of(left), ends_of(right));
    }
    is_narrow_text(left) && is_narrow_text(right)
}

// The number that the first eight bytes spell, or all of fewer.
#[inline(always)]
fn number_of_first(bytes: &[u8]) -> u64
    ensures { result ≡ number_l 256 (first_eight bytes.now) }
{
    if bytes.len() < 8 {
        return number_of_few(bytes);
    }
    number_of_eight(bytes, 0)
}

// How many of the first eight bytes are the same in both, before the first that is not. Zeros stand after fewer bytes.
#[inline(always)]
fn same_of_first(left: &[u8], right: &[u8]) -> usize
    ensures { IsSameRun (first_eight left.now) (first_eight right.now) 0 0 8 result }
{
    let others = number_of_first(left) ^ number_of_first(right);
    others.trailing_zeros() as usize / 8
}

/// How many of the first eight bytes two texts have in common at their beginning, if both have more bytes than these and
/// at most 32. For example, `cart` and `cast` have two. There is no result if a text is not UTF-8 (the Unicode Standard,
/// section 3.9, table 3-7) or has a code point of three bytes or more.
///
/// It judges no code point of three bytes or more, so it takes fewer instructions than
/// [`shared_of_short`](crate::shared_of_short) and [`shared_of_longer`](crate::shared_of_longer). Two texts of at most
/// fifteen bytes are judged together.
#[inline(always)]
pub fn shared_of_narrow(left: &[u8], right: &[u8]) -> Option<usize>
    ensures { MatchOption result ((at : ℕ) → ¬ (IsEarly left.now right.now at)) (λ at. IsEarly left.now right.now at) }
{
    if left.len() > AT_ONCE || right.len() > AT_ONCE {
        return None;
    }
    if !are_narrow_texts(left, right) {
        return None;
    }
    let at = same_of_first(left, right);
    if at >= left.len().min(right.len()) {
        return None;
    }
    Some(at)
}

/// Whether two texts of at most fifteen bytes are the same, and UTF-8 (the Unicode Standard, section 3.9, table 3-7) of
/// code points of one or two bytes. For example, `cart` and `cart` are. Of texts of more bytes, or with a code point of
/// three or four, it returns `false`, whatever they are. It judges no such code point, so it takes fewer instructions
/// than [`are_same_short`](crate::are_same_short).
#[inline(always)]
pub fn are_same_narrow(left: &[u8], right: &[u8]) -> bool
    ensures { MatchBool result
        ((length left.now ≤ 15) × (left.now ≡ right.now) × IsUtf8 left.now × AreNarrow left.now)
        (¬ ((length left.now ≤ 15) × (left.now ≡ right.now) × IsUtf8 left.now × AreNarrow left.now)) }
{
    if left.len() != right.len() || left.len() > SHORT {
        return false;
    }
    are_same_few(left, right) && is_narrow(ends_of(left))
}

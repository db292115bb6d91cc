//! Two short texts at once: whether both are UTF-8, how many bytes they have in common, and whether they are the same.

ghost use Rattle.std.specs.Prelude.{◌≡◌, ◌↔◌, ◌-◌, ◌≤◌, ◌++◌, length, replicate, take, IsTrue, MatchOption};
ghost use Rattle.std.specs.Bool.{MatchBool};
ghost use Rattle.std.specs.Str.{IsUtf8};
ghost use Rattle.uca_lanes.specs.Shared.{IsSharedLen};
ghost use Rattle.uca_lanes.specs.inside.Lanes.{IsSameRun};

use crate::first_set;
use crate::utf8::{are_utf8, number_of_eight, number_of_few, with_zeros};
use std::simd::prelude::*;

// After so many bytes there is a zero among sixteen.
const SHORT: usize = 15;

// So many bytes are two times sixteen, of which some may be in both.
const AT_ONCE: usize = 32;

/// How many of sixteen bytes are the same in both, before the first that is not.
#[inline(always)]
pub(crate) fn same_of_sixteen(left: u8x16, right: u8x16) -> usize
    ensures { IsSameRun left right 0 0 16 result }
{
    first_set(left.simd_ne(right).to_bitmask(), 16)
}

/// How many bytes two texts of at most fifteen bytes have in common at their beginning. For example, `cart` and `cast` have
/// two. There is no result if a text has more bytes or is not UTF-8 (the Unicode Standard, section 3.9, table 3-7).
///
/// The two texts are judged together, with no loop. Zeros stand after the bytes of each, up to sixteen. So these 32 bytes are
/// UTF-8 exactly if both texts are.
#[inline(always)]
pub fn shared_of_short(left: &[u8], right: &[u8]) -> Option<usize>
    ensures { MatchOption result
        (length left.now ≤ 15 → length right.now ≤ 15 → ¬ (IsUtf8 left.now × IsUtf8 right.now))
        (λ shared. (length left.now ≤ 15) × (length right.now ≤ 15) × IsUtf8 left.now × IsUtf8 right.now × IsSharedLen left.now right.now shared) }
{
    if left.len() > SHORT || right.len() > SHORT {
        return None;
    }
    let one = with_zeros(left);
    let other = with_zeros(right);
    if !are_utf8(one, other, 0) {
        return None;
    }
    let same = same_of_sixteen(one, other);
    let most = left.len().min(right.len());
    Some(same.min(most))
}

// Up to sixteen of the first bytes of a text, and zeros after them.
#[inline(always)]
fn front_of(bytes: &[u8]) -> u8x16
    ensures { result ≡ take 16 bytes.now ++ replicate (16 - length bytes.now) 0 }
{
    if bytes.len() <= 16 {
        with_zeros(bytes)
    } else {
        u8x16::from_slice(bytes)
    }
}

// Whether a text of at most 32 bytes is UTF-8, of which this is the front.
#[inline(always)]
fn is_utf8_after(front: u8x16, bytes: &[u8]) -> bool
    requires few { length bytes.now ≤ 32 }
    requires front { front ≡ take 16 bytes.now ++ replicate (16 - length bytes.now) 0 }
    ensures { IsTrue result ↔ IsUtf8 bytes.now }
{
    let len = bytes.len();
    if len <= 16 {
        return are_utf8(front, u8x16::splat(0), 16);
    }
    are_utf8(
        front,
        u8x16::from_slice(&bytes[len - 16..]),
        32 - len as u64,
    )
}

/// How many of the first sixteen bytes two texts of at most 32 bytes have in common at their beginning. For example,
/// `Sonnenaufgang` and `Sonnenblumenfeld` have six. There is no result if a text has more bytes or is not UTF-8 (the Unicode
/// Standard, section 3.9, table 3-7).
///
/// Each text is judged alone. So [`shared_of_short`] takes fewer instructions for texts of at most fifteen bytes.
#[inline(always)]
pub fn shared_of_longer(left: &[u8], right: &[u8]) -> Option<usize>
    ensures { MatchOption result
        (length left.now ≤ 32 → length right.now ≤ 32 → ¬ (IsUtf8 left.now × IsUtf8 right.now))
        (λ shared. (length left.now ≤ 32) × (length right.now ≤ 32) × IsUtf8 left.now × IsUtf8 right.now
        × IsSharedLen (take 16 left.now) (take 16 right.now) shared) }
{
    if left.len() > AT_ONCE || right.len() > AT_ONCE {
        return None;
    }
    let one = front_of(left);
    let other = front_of(right);
    if !is_utf8_after(one, left) || !is_utf8_after(other, right) {
        return None;
    }
    let same = same_of_sixteen(one, other);
    let shorter = left.len().min(right.len());
    Some(same.min(shorter))
}

/// Whether two strings of at most sixteen bytes, and of one length, are the same.
#[inline(always)]
pub(crate) fn are_same_few(left: &[u8], right: &[u8]) -> bool
    requires long { length left.now ≡ length right.now }
    requires few { length left.now ≤ 16 }
    ensures { MatchBool result (left.now ≡ right.now) (¬ (left.now ≡ right.now)) }
{
    let len = left.len();
    if len < 8 {
        return number_of_few(left) == number_of_few(right);
    }
    number_of_eight(left, 0) == number_of_eight(right, 0)
        && number_of_eight(left, len - 8) == number_of_eight(right, len - 8)
}

/// Whether two texts of at most 32 bytes are the same, and UTF-8 (the Unicode Standard, section 3.9, table 3-7). For
/// example, `cart` and `cart` are. One of the two is judged. Of texts of more bytes it returns `false`, whatever they are.
#[inline(always)]
pub fn are_same_short(left: &[u8], right: &[u8]) -> bool
    ensures { MatchBool result
        ((length left.now ≤ 32) × (left.now ≡ right.now) × IsUtf8 left.now)
        (¬ ((length left.now ≤ 32) × (left.now ≡ right.now) × IsUtf8 left.now)) }
{
    let len = left.len();
    if len != right.len() {
        return false;
    }
    if len <= 16 {
        return are_same_few(left, right) && are_utf8(with_zeros(left), u8x16::splat(0), 16);
    }
    if len > AT_ONCE {
        return false;
    }
    let front = u8x16::from_slice(left);
    let back = u8x16::from_slice(&left[len - 16..]);
    let fronts = same_of_sixteen(front, u8x16::from_slice(right));
    let backs = same_of_sixteen(back, u8x16::from_slice(&right[len - 16..]));
    fronts.min(backs) == 16 && are_utf8(front, back, 32 - len as u64)
}

//! Whether bytes are UTF-8. Up to 32 of them are judged with no loop, by masks with one bit for each byte.

ghost use Rattle.std.specs.Prelude.{false, true, ◌≡◌, ◌↔◌, ◌+◌, ◌-◌, ◌<◌, ◌≤◌, ◌^◌, ◌++◌, length, replicate, IsTrue};
ghost use Rattle.std.specs.Bool.{MatchBool};
ghost use Rattle.std.specs.Str.{IsUtf8};
ghost use Rattle.std.specs.Simd.Lanes.{chunk, number_l};
ghost use Rattle.uca_lanes.specs.inside.Marks.{joined, marks_from, marks_of, CountsAgree, SecondsAgree};

use std::simd::prelude::*;

// The number that two bytes spell from this position on, the lowest byte first.
#[inline(always)]
fn number_of_two(bytes: &[u8], at: usize) -> u64
    requires { at + 2 ≤ length bytes.now }
    ensures number { result ≡ number_l 256 (chunk at 2 bytes.now) }
    ensures bound { result < 2 ^ 16 }
{
    u64::from(u16x1::from_le_bytes(u8x2::from_slice(&bytes[at..])).to_array()[0])
}

// The number that four bytes spell.
#[inline(always)]
fn number_of_four(bytes: &[u8], at: usize) -> u64
    requires { at + 4 ≤ length bytes.now }
    ensures number { result ≡ number_l 256 (chunk at 4 bytes.now) }
    ensures bound { result < 2 ^ 32 }
{
    u64::from(u32x1::from_le_bytes(u8x4::from_slice(&bytes[at..])).to_array()[0])
}

/// The number that eight bytes spell.
#[inline(always)]
pub(crate) fn number_of_eight(bytes: &[u8], at: usize) -> u64
    requires { at + 8 ≤ length bytes.now }
    ensures { result ≡ number_l 256 (chunk at 8 bytes.now) }
{
    u64x1::from_le_bytes(u8x8::from_slice(&bytes[at..])).to_array()[0]
}

/// The number that up to eight bytes spell. Of the last four, those that are among the first four fall out.
#[inline(always)]
pub(crate) fn number_of_few(bytes: &[u8]) -> u64
    requires { length bytes.now ≤ 8 }
    ensures { result ≡ number_l 256 bytes.now }
{
    let len = bytes.len();
    if len >= 4 {
        let after = number_of_four(bytes, len - 4) >> (8 * (8 - len));
        number_of_four(bytes, 0) + after * 0x1_0000_0000
    } else if len >= 2 {
        let after = number_of_two(bytes, len - 2) >> (8 * (4 - len));
        number_of_two(bytes, 0) + after * 0x1_0000
    } else if len == 1 {
        u64::from(bytes[0])
    } else {
        0
    }
}

/// Up to sixteen bytes, and zeros after them. Most words have eight bytes or more. After eight there are 64 bits of zeros. No
/// shift is as far, so there are two.
#[inline(always)]
pub(crate) fn with_zeros(bytes: &[u8]) -> u8x16
    requires { length bytes.now ≤ 16 }
    ensures { result ≡ bytes.now ++ replicate (16 - length bytes.now) 0 }
{
    let len = bytes.len();
    if len < 8 {
        return u64x2::from_array([number_of_few(bytes), 0]).to_le_bytes();
    }
    let half = 4 * (16 - len);
    let after = number_of_eight(bytes, len - 8) >> half >> half;
    u64x2::from_array([number_of_eight(bytes, 0), after]).to_le_bytes()
}

/// A bit for each byte that is at least this one, the lowest for the first byte.
#[inline(always)]
pub(crate) fn mask_from(bytes: u8x16, least: u8) -> u64
    ensures mask { result ≡ marks_from least bytes }
    ensures bound { result < 2 ^ 16 }
{
    bytes.simd_ge(u8x16::splat(least)).to_bitmask()
}

// A bit for each byte that is this one.
#[inline(always)]
fn mask_of(bytes: u8x16, byte: u8) -> u64
    ensures mask { result ≡ marks_of byte bytes }
    ensures bound { result < 2 ^ 16 }
{
    bytes.simd_eq(u8x16::splat(byte)).to_bitmask()
}

// The bytes that are at least this one, of the front and then of the back without so many first ones.
#[inline(always)]
fn marks_from(front: u8x16, back: u8x16, both: u64, least: u8) -> u64
    requires { both ≤ 16 }
    ensures marks { result ≡ marks_from least (joined front back both) }
    ensures bound { result < 2 ^ 32 }
{
    let after = mask_from(back, least) >> both;
    mask_from(front, least) + after * 0x1_0000
}

// The bytes that are this one.
#[inline(always)]
fn marks_of(front: u8x16, back: u8x16, both: u64, byte: u8) -> u64
    requires { both ≤ 16 }
    ensures marks { result ≡ marks_of byte (joined front back both) }
    ensures bound { result < 2 ^ 32 }
{
    let after = mask_of(back, byte) >> both;
    mask_of(front, byte) + after * 0x1_0000
}

/// Whether some byte is at least this one, in the front or in the whole back.
#[inline(always)]
pub(crate) fn has_from(front: u8x16, back: u8x16, least: u8) -> bool
    ensures front { result ≡ false → marks_from least front ≡ 0 }
    ensures back { result ≡ false → marks_from least back ≡ 0 }
    ensures some { result ≡ true → ¬ ((marks_from least front ≡ 0) × (marks_from least back ≡ 0)) }
{
    mask_from(front.simd_max(back), least) != 0
}

// Whether each code point has as many bytes as its first byte says, and no byte is one that UTF-8 does not have.
#[inline(always)]
fn counts_agree(front: u8x16, back: u8x16, both: u64) -> bool
    requires { both ≤ 16 }
    ensures { IsTrue result ↔ CountsAgree (joined front back both) }
{
    let high = marks_from(front, back, both, 0x80);
    let starts = marks_from(front, back, both, 0xC0);
    let leads = marks_from(front, back, both, 0xC2);
    let long = marks_from(front, back, both, 0xE0);
    let longest = marks_from(front, back, both, 0xF0);
    let too_great = marks_from(front, back, both, 0xF5);
    (starts == leads) & (2 * leads + 4 * long + 8 * longest + starts == high) & (too_great == 0)
}

// Whether each second byte is one that the first byte before it allows, where that is not all of 80 to BF.
#[inline(always)]
fn seconds_agree(front: u8x16, back: u8x16, both: u64) -> bool
    requires { both ≤ 16 }
    ensures { IsTrue result ↔ SecondsAgree (joined front back both) }
{
    let from_90 = marks_from(front, back, both, 0x90);
    let from_a0 = marks_from(front, back, both, 0xA0);
    let after_e0 = 2 * marks_of(front, back, both, 0xE0);
    let after_ed = 2 * marks_of(front, back, both, 0xED);
    let after_f0 = 2 * marks_of(front, back, both, 0xF0);
    let after_f4 = 2 * marks_of(front, back, both, 0xF4);
    (after_e0 & from_a0 == after_e0)
        & (after_ed & from_a0 == 0)
        & (after_f0 & from_90 == after_f0)
        & (after_f4 & from_90 == 0)
}

/// Whether bytes are UTF-8, where none is E0 or more. It is not asked whether all are ASCII: where only some texts are, that
/// takes more time than it saves.
#[inline(always)]
pub(crate) fn are_utf8_if_narrow(front: u8x16, back: u8x16, both: u64) -> bool
    requires both { both ≤ 16 }
    requires narrow { marks_from 0xE0 (joined front back both) ≡ 0 }
    ensures { IsTrue result ↔ IsUtf8 (joined front back both) }
{
    let high = marks_from(front, back, both, 0x80);
    let starts = marks_from(front, back, both, 0xC0);
    let leads = marks_from(front, back, both, 0xC2);
    (starts == leads) & (2 * leads + starts == high)
}

/// Whether these bytes are UTF-8. Most have no code point of more than two bytes.
#[inline(always)]
pub(crate) fn are_utf8(front: u8x16, back: u8x16, both: u64) -> bool
    requires { both ≤ 16 }
    ensures { IsTrue result ↔ IsUtf8 (joined front back both) }
{
    if has_from(front, back, 0xE0) {
        return counts_agree(front, back, both) & seconds_agree(front, back, both);
    }
    are_utf8_if_narrow(front, back, both)
}

// Whether any number of bytes is UTF-8. It stands apart, so that `is_utf8` needs no memory for what core returns.
#[inline(never)]
fn are_many_utf8(bytes: &[u8]) -> bool
    ensures { MatchBool result (IsUtf8 bytes.now) (¬ (IsUtf8 bytes.now)) }
{
    if bytes.is_ascii() {
        return true;
    }
    str::from_utf8(bytes).is_ok()
}

/// Whether the bytes are UTF-8 (the Unicode Standard, section 3.9, table 3-7). Of up to 32 bytes it is found out with
/// no loop.
#[inline]
pub fn is_utf8(bytes: &[u8]) -> bool
    ensures { MatchBool result (IsUtf8 bytes.now) (¬ (IsUtf8 bytes.now)) }
{
    let len = bytes.len();
    if len <= 16 {
        return are_utf8(with_zeros(bytes), u8x16::splat(0), 16);
    }
    if len > 32 {
        return are_many_utf8(bytes);
    }
    let front = u8x16::from_slice(bytes);
    let back = u8x16::from_slice(&bytes[len - 16..]);
    are_utf8(front, back, 32 - len as u64)
}

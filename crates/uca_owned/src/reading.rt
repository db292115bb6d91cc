//! Texts that are given as bytes. Up to 32 bytes are judged at once, and so are two texts of up to fifteen.

ghost use Rattle.std.specs.Prelude.{◌≡◌, ◌≤◌, length, take, IfSome, MatchOption};
ghost use Rattle.std.specs.Str.{IsUtf8};
ghost use Rattle.uca_lanes.specs.Shared.{IsSharedLen};

use uca_lanes::{is_utf8, shared_of_longer, shared_of_narrow, shared_of_short};

// So many bytes are judged as fast as any part of them.
const AT_ONCE: usize = 32;

/// The text of these bytes, if they are UTF-8.
#[inline(always)]
pub(crate) fn read_text(bytes: &[u8]) -> Option<&str>
    ensures { MatchOption result (¬ (IsUtf8 bytes.now)) (λ text. (text.now ≡ bytes.now) × IsUtf8 bytes.now) }
{
    if is_utf8(bytes) {
        Some(unsafe { str::from_utf8_unchecked(bytes) })
    } else {
        None
    }
}

/// The text of these bytes, if they are UTF-8. So many of the first ones are those of another text too. Of more than 32
/// bytes, these are not checked again.
#[inline(always)]
pub(crate) fn read_after<'t>(text: &str, shared: usize, bytes: &'t [u8]) -> Option<&'t str>
    requires same { take shared text.now ≡ take shared bytes.now }
    requires within { shared ≤ length bytes.now }
    ensures { MatchOption result (¬ (IsUtf8 bytes.now)) (λ read. (read.now ≡ bytes.now) × IsUtf8 bytes.now) }
{
    if bytes.len() <= AT_ONCE {
        return read_text(bytes);
    }
    let cut = text.floor_char_boundary(shared);
    if is_utf8(&bytes[cut..]) {
        Some(unsafe { str::from_utf8_unchecked(bytes) })
    } else {
        None
    }
}

// Two texts that are known to be UTF-8.
#[inline(always)]
fn texts_of<'l, 'r>(left: &'l [u8], right: &'r [u8]) -> (&'l str, &'r str)
    requires { IsUtf8 left.now × IsUtf8 right.now }
    ensures { (result.0.now ≡ left.now) × (result.1.now ≡ right.now) }
{
    let left = unsafe { str::from_utf8_unchecked(left) };
    let right = unsafe { str::from_utf8_unchecked(right) };
    (left, right)
}

/// Two texts of at most fifteen bytes, if both are UTF-8, and how many bytes they have in common at their beginning.
#[inline(always)]
pub(crate) fn read_short<'l, 'r>(
    left: &'l [u8],
    right: &'r [u8],
) -> Option<(&'l str, &'r str, usize)>
    ensures texts { IfSome result (λ read. (read.0.now ≡ left.now) × (read.1.now ≡ right.now)) }
    ensures short { IfSome result (λ _. (length left.now ≤ 15) × (length right.now ≤ 15)) }
    ensures utf8 { IfSome result (λ _. IsUtf8 left.now × IsUtf8 right.now) }
    ensures shared { IfSome result (λ read. IsSharedLen left.now right.now read.2) }
{
    let shared = shared_of_short(left, right)?;
    let (left, right) = texts_of(left, right);
    Some((left, right, shared))
}

/// Two texts of at most 32 bytes, if both are UTF-8, and a number of first bytes that are the same in both.
#[inline(always)]
pub(crate) fn read_longer<'l, 'r>(
    left: &'l [u8],
    right: &'r [u8],
) -> Option<(&'l str, &'r str, usize)>
    ensures texts { IfSome result (λ read. (read.0.now ≡ left.now) × (read.1.now ≡ right.now)) }
    ensures short { IfSome result (λ _. (length left.now ≤ 32) × (length right.now ≤ 32)) }
    ensures utf8 { IfSome result (λ _. IsUtf8 left.now × IsUtf8 right.now) }
    ensures shared { IfSome result (λ read. take read.2 left.now ≡ take read.2 right.now) }
{
    let shared = shared_of_longer(left, right)?;
    let (left, right) = texts_of(left, right);
    Some((left, right, shared))
}

/// What [`read_longer`] returns, if each code point has one byte or two.
#[inline(always)]
pub(crate) fn read_narrow<'l, 'r>(
    left: &'l [u8],
    right: &'r [u8],
) -> Option<(&'l str, &'r str, usize)>
    ensures texts { IfSome result (λ read. (read.0.now ≡ left.now) × (read.1.now ≡ right.now)) }
    ensures short { IfSome result (λ _. (length left.now ≤ 32) × (length right.now ≤ 32)) }
    ensures utf8 { IfSome result (λ _. IsUtf8 left.now × IsUtf8 right.now) }
    ensures shared { IfSome result (λ read. take read.2 left.now ≡ take read.2 right.now) }
{
    let shared = shared_of_narrow(left, right)?;
    let (left, right) = texts_of(left, right);
    Some((left, right, shared))
}

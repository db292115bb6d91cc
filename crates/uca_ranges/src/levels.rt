//! Both ends of ranges of stored keys by their first levels.

ghost use Rattle.std.specs.Prelude.{◌≡◌, ◌-◌, ◌≤◌, IfOk, IfSome, length, nat_eq, if◌then◌else◌};
ghost use Rattle.uca_ranges.specs.Ranges.{FindsLevels};
ghost use Rattle.uca_ranges.specs.inside.LevelsLength.{levels_length};

use std::alloc::{AllocError, Allocator};

/// How many levels are left after two bytes.
pub(crate) fn levels_left(left: usize, weight: u16) -> usize
    ensures { result ≡ (if nat_eq weight 0 then left - 1 else left) }
{
    if weight == 0 {
        left.saturating_sub(1)
    } else {
        left
    }
}

/// Where the first levels of a stored key end.
pub(crate) fn levels_end(key: &[u8], count: usize) -> Option<usize>
    ensures value { result ≡ levels_length count key.now }
    ensures within { IfSome result (λ end. end ≤ length key.now) }
{
    let mut left = count;
    let mut at = 0;
    while at + 1 < key.len() {
        let weight = 256 * u16::from(key[at]) + u16::from(key[at + 1]);
        if weight == 0 && left < 2 {
            return Some(at);
        }
        left = levels_left(left, weight);
        at += 2;
    }
    if left == 1 && at == key.len() {
        Some(at)
    } else {
        None
    }
}

/// Writes both ends of the range of stored keys that have the first levels of this one, over the bytes that were there,
/// and returns `true`. For example, `count` is 1 for the same letters, and 2 for the same letters and accents.
///
/// The bytes are to be a stored key, and `count` is at least 1. If they do not begin with so many levels of weights, it
/// returns `false`, and the ends are unspecified.
///
/// # Errors
///
/// An allocation failed. The bytes are then unspecified.
pub fn write_same_levels_range<A: Allocator>(
    key: &[u8],
    count: usize,
    low: &mut Vec<u8, A>,
    high: &mut Vec<u8, A>,
) -> Result<bool, AllocError>
    ensures { IfOk result (λ found. FindsLevels count key.now found low.new.items high.new.items) }
{
    let end = match levels_end(key, count) {
        Some(end) => end,
        None => return Ok(false),
    };
    low.clear();
    low.extend_from_slice(&key[..end])?;
    high.clear();
    high.extend_from_slice(&key[..end])?;
    high.extend_from_slice(&[0, 1])?;
    Ok(true)
}

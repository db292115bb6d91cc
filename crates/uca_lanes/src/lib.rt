//! Bytes, eight or sixteen at a time: whether they are UTF-8, how many of them two texts have in common, and how many
//! pairs in a row spell one number.
//!
//! A loop over single bytes would end elsewhere for each text, and no processor foretells that. So two texts of at most
//! fifteen bytes are judged together, and the first sixteen bytes of longer ones are compared at once. `shared_len` takes
//! single bytes only where one of its two texts has fewer than eight.
#![tactic(auto)]

ghost use Rattle.std.specs.Prelude.{◌≡◌, ◌≢◌, ℕ, ◌+◌, ◌<◌, ◌≤◌, length, get_or, take};
ghost use Rattle.uca_lanes.specs.inside.Lanes.{IsSameRun};
ghost use Rattle.uca_lanes.specs.inside.Marks.{first_set};

mod narrow_texts;
mod pairs;
mod short;
mod utf8;

pub use narrow_texts::{are_same_narrow, shared_of_narrow};
pub use pairs::{marks_of_pairs, same_pairs};
pub use short::{are_same_short, shared_of_longer, shared_of_short};
use std::simd::prelude::*;
pub use utf8::is_utf8;

/// The place of the lowest bit that is set, or the number of lanes if none is.
#[inline(always)]
pub(crate) fn first_set(mask: u64, lanes: usize) -> usize
    ensures { result ≡ first_set mask lanes }
{
    if mask == 0 {
        lanes
    } else {
        mask.trailing_zeros() as usize
    }
}

// How many of the eight bytes from this position on are the same in both, before the first that is not.
#[inline(always)]
fn same_of_eight(left: &[u8], right: &[u8], at: usize) -> usize
    requires left { at + 8 ≤ length left.now }
    requires right { at + 8 ≤ length right.now }
    ensures { IsSameRun left.now right.now at at 8 result }
{
    let one = u8x8::from_slice(&left[at..]);
    let other = u8x8::from_slice(&right[at..]);
    first_set(one.simd_ne(other).to_bitmask(), 8)
}

// How many bytes two strings of bytes have in common at their beginning, one byte at a time.
#[inline(always)]
fn shared_of_few(left: &[u8], right: &[u8]) -> usize
    ensures same { take result left.now ≡ take result right.now }
    ensures left { result ≤ length left.now }
    ensures right { result ≤ length right.now }
    ensures apart { result < length left.now → result < length right.now → get_or left.now result 0 ≢ get_or right.now result 0 }
{
    let most = left.len().min(right.len());
    let mut shared = 0;
    while shared < most && left[shared] == right[shared] {
        shared += 1;
    }
    shared
}

/// How many bytes two strings of bytes have in common at their beginning.
#[inline]
pub fn shared_len(left: &[u8], right: &[u8]) -> usize
    ensures same { take result left.now ≡ take result right.now }
    ensures left { result ≤ length left.now }
    ensures right { result ≤ length right.now }
    ensures apart { result < length left.now → result < length right.now → get_or left.now result 0 ≢ get_or right.now result 0 }
{
    let most = left.len().min(right.len());
    if most < 8 {
        return shared_of_few(left, right);
    }
    let mut shared = 0;
    while most - shared >= 8 {
        let same = same_of_eight(left, right, shared);
        if same < 8 {
            return shared + same;
        }
        shared += 8;
    }
    most - 8 + same_of_eight(left, right, most - 8)
}

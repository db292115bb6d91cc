//! Stored keys, which give the order of their texts and the level at which they differ.

ghost use Rattle.std.specs.Prelude.{◌≡◌, ◌+◌, min};
ghost use Rattle.uca_order.specs.Levels.{lexicographic};
ghost use Rattle.uca_order.specs.Depths.{levels_at};
ghost use Rattle.uca_order.specs.StoredKeys.{shared_separators, stored_level};

use std::cmp::Ordering;
use uca_order::SEPARATOR;
use uca_weights::{Depth, Weighting};

/// How many levels a key has: 3 under `NonIgnorable`, 4 under `Shifted` (UTS #10, section 4), and one more at the
/// depth `Identical`.
pub fn level_count(weighting: Weighting, depth: Depth) -> u8
    ensures { result ≡ levels_at depth weighting }
{
    let weights = match weighting {
        Weighting::NonIgnorable => 3,
        Weighting::Shifted => 4,
    };
    match depth {
        Depth::Weights => weights,
        Depth::Identical => weights + 1,
    }
}

/// The order of two keys, and the level at which they differ, from 1 on: at most `levels`, and 0 if the keys
/// are equal.
///
/// The order is that of the bytes, where a key that another key begins with is less. The level is found by groups of
/// two bytes; a last single byte is a group. It is one more than the number of groups `00 00` before the first group
/// that differs or that one side does not have. So any two slices can be compared. Take two keys of one weighting and
/// one depth, with as many levels as they have ([`level_count`]). Then these are the order and the level of multilevel
/// comparison (UTS #10, section 1.1), as [`keys_compare_as_texts`](uca_order::laws::keys_compare_as_texts) says.
pub fn compare_keys(left: &[u8], right: &[u8], levels: u8) -> (Ordering, u8)
    ensures order { result.0 ≡ lexicographic left.now right.now }
    ensures level { result.1 ≡ stored_level levels left.now right.now }
{
    match left.cmp(right) {
        Ordering::Equal => (Ordering::Equal, 0),
        order => (order, difference_level(left, right, levels)),
    }
}

// One more than the groups 00 00 before the first group that differs, but at most `levels`.
fn difference_level(mut left: &[u8], mut right: &[u8], levels: u8) -> u8
    ensures { result ≡ min levels (1 + shared_separators left.entry.now right.entry.now) }
{
    let mut level = levels.min(1);
    while level < levels
        && let [a, b, left_rest @ ..] = left
        && let [c, d, right_rest @ ..] = right
    {
        let group = [*a, *b];
        if group != [*c, *d] {
            return level;
        }
        if group == SEPARATOR {
            level += 1;
        }
        left = left_rest;
        right = right_rest;
    }
    level
}

//! How two texts compare, without keys.

ghost use Rattle.std.specs.Prelude.{◌≡◌, ◌-◌, ◌^◌, min};
ghost use Rattle.uca_elements.specs.Collations.{collation_of, elements_of};
ghost use Rattle.uca_order.specs.Depths.{read_text, compared_at};
ghost use Rattle.uca_order.specs.Fetched.{fetched_left, fetched_right};
ghost use Rattle.uca_comparison.specs.inside.Comparisons.{ComparesLevels, compared_points};

use crate::stored::level_count;
use crate::walk::{Walked, walk};
use std::alloc::Allocator;
use std::cmp::Ordering;
use uca_elements::{Collator, Lookup};
use uca_text::Normal;
use uca_weights::{Depth, Weighting};

/// How two texts compare (UTS #10, section 1.1), and how many of their elements the comparison of level 1 fetched.
#[derive(Clone, Copy, Debug, PartialEq, Eq)]
pub struct Compared {
    /// `Less` if the left text comes before the right one, `Equal` if they are equal, else `Greater`.
    pub order: Ordering,
    /// The first level at which they differ, from 1 on, or 0 if none does.
    pub level: u8,
    /// How many elements the left text has up to the one with the first level-1 weight that differs. If it has no such
    /// weight, or level 1 is equal, the number of all its elements.
    pub fetched_left: u64,
    /// How many elements the right text has, counted as `fetched_left` counts those of the left one.
    pub fetched_right: u64,
}

// How two texts compare at all levels of the weighting: by one walk. If that could not compare all levels, one more
// walk compares those that are left.
fn compare_levels<'a, L: Lookup, A: Allocator>(
    collator: &'a Collator<'a, L, A>,
    weighting: Weighting,
    left: &'a Normal,
    right: &'a Normal,
) -> Walked
    ensures { let c = collation_of L.content collator.now in
        ComparesLevels weighting (elements_of c left.now) (elements_of c right.now) result }
{
    let count = level_count(weighting, Depth::Weights);
    let mut walked = walk(collator, weighting, 1, count, left, right);
    while walked.order == Ordering::Equal && walked.last < count {
        let next = walk(collator, weighting, walked.last + 1, count, left, right);
        walked.order = next.order;
        walked.level = next.level;
        walked.last = next.last;
    }
    walked
}

// How two texts compare by their code points, which come after all levels of the weighting.
fn compare_points(weighting: Weighting, left: &Normal, right: &Normal) -> (Ordering, u8)
    ensures { let answer = compared_points weighting left.now.points right.now.points in
        (result.0 ≡ answer.order) × (result.1 ≡ answer.level) }
{
    match left.chars().cmp(right.chars()) {
        Ordering::Equal => (Ordering::Equal, 0),
        order => (order, level_count(weighting, Depth::Identical)),
    }
}

/// How two texts compare (UTS #10, section 1.1): by the first level whose weights differ. If none differs, at the depth
/// `Identical` their code points in Normalization Form D decide. These are the order and the level of
/// [`compare_keys`](crate::compare_keys) for the keys of the two texts.
///
/// It makes no key and takes no memory. One walk over both texts, side by side, compares all levels. It ends at the
/// first weight of level 1 that differs, or else after both texts. If two levels do not let the texts go on
/// together, another walk compares the later one, alone or with the levels after it.
///
/// The counts are those of level 1, but at most `u64::MAX`. Under rows of at most 32 elements, as every table has them,
/// no text has that many elements ([`counts_are_exact`](uca_order::laws::counts_are_exact)).
pub fn compare<'a, L: Lookup, A: Allocator>(
    collator: &'a Collator<'a, L, A>,
    weighting: Weighting,
    depth: Depth,
    left: &'a Normal,
    right: &'a Normal,
) -> Compared
    ensures compared { let c = collation_of L.content collator.now in
        let answer = compared_at depth weighting (read_text c left.now) (read_text c right.now) in
        (result.order ≡ answer.order) × (result.level ≡ answer.level) }
    ensures fetched { let c = collation_of L.content collator.now in
        (result.fetched_left ≡ min (2 ^ 64 - 1) (fetched_left weighting (elements_of c left.now) (elements_of c right.now)))
        × (result.fetched_right ≡ min (2 ^ 64 - 1) (fetched_right weighting (elements_of c left.now) (elements_of c right.now))) }
{
    let walked = compare_levels(collator, weighting, left, right);
    let (order, level) = match walked.order {
        Ordering::Equal if depth == Depth::Identical => compare_points(weighting, left, right),
        order => (order, walked.level),
    };
    Compared {
        order,
        level,
        fetched_left: walked.fetched_left,
        fetched_right: walked.fetched_right,
    }
}

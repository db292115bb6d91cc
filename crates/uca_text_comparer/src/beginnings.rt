//! Two short texts that differ at level 1 after the code points with which both begin.
//!
//! For example, `cart` and `cast` both begin with `ca`, and `r` and `s` differ at level 1. No code point of `ca` is looked
//! up: a text may be cut before a plain code point, whatever comes before it. Code points that come next, and have the same
//! weight at level 1, are passed too: `H` and `h` of `Haus` and `hat`.

ghost use Rattle.std.specs.Prelude.{◌≡◌, ◌≢◌, ◌≤◌, chars, length, take, IfSome};
ghost use Rattle.std.specs.declared.cmp.Ordering.TheVariants.{Equal};
ghost use Rattle.uca_elements.specs.Collations.{Collation};
ghost use Rattle.uca_plain.specs.PointCache.{AreTrueEntries};
ghost use Rattle.uca_text_comparer.specs.Heads.{AreTrueHeads};
ghost use Rattle.uca_text_comparer.specs.inside.Beginnings.{HaveRests, DifferFirst};

use crate::ascii::order_ascii;
use crate::firsts::order_first;
use crate::heads::Heads;
use crate::next::{begins_plain, next_head};
use std::alloc::Allocator;
use std::cmp::Ordering;
use uca_plain::plain::PointCache;
use uca_weights::Weighting;

// What follows the code points with which two texts begin. Their first bytes are the same, so many of them. There is always
// a result, but no clause says so.
#[inline(always)]
fn skip_same<'t>(left: &'t str, right: &'t str, shared: usize) -> Option<(&'t str, &'t str)>
    requires { take shared left.now ≡ take shared right.now }
    ensures { IfSome result (λ rests. HaveRests (chars left.now) (chars right.now) (chars rests.0.now) (chars rests.1.now)) }
{
    let cut = left.floor_char_boundary(shared);
    let (_, left_rest) = left.split_at_checked(cut)?;
    let (_, right_rest) = right.split_at_checked(cut)?;
    Some((left_rest, right_rest))
}

// The order of two texts that differ at level 1 after the code points with which both begin, by heads. `Equal` says nothing.
// There is no result where a code point has no head.
#[inline(always)]
fn order_heads(heads: &Heads, left: &str, right: &str, shared: usize) -> Option<Ordering>
    requires within { shared ≤ length left.now }
    requires within_too { shared ≤ length right.now }
    requires same { take shared left.now ≡ take shared right.now }
    ensures { (c : Collation) → AreTrueHeads c heads.now →
        IfSome result (λ order. order ≢ Equal → DifferFirst c heads.now.weighting (chars left.now) (chars right.now) order) }
{
    let cut = left.floor_char_boundary(shared);
    let mut left_at = cut;
    let mut right_at = cut;
    loop {
        let (left_head, left_next) = heads.next_head(left, left_at)?;
        let (right_head, right_next) = heads.next_head(right, right_at)?;
        if left_head.weight != right_head.weight {
            if left_head.decides()
                && right_head.decides()
                && heads.goes_on_plain(left, left_next)?
                && heads.goes_on_plain(right, right_next)?
            {
                return Some(left_head.weight.cmp(&right_head.weight));
            }
            return Some(Ordering::Equal);
        }
        if left_head.weight == 0 || !left_head.alone || !right_head.alone {
            return Some(Ordering::Equal);
        }
        left_at = left_next;
        right_at = right_next;
    }
}

// The order of two texts that differ at level 1 after the code points with which both begin, by all that is known of their
// code points.
#[inline(never)]
fn order_cut<A: Allocator>(
    points: &PointCache<A>,
    weighting: Weighting,
    left: &str,
    right: &str,
    shared: usize,
) -> Option<Ordering>
    requires { take shared left.now ≡ take shared right.now }
    ensures { (c : Collation) → AreTrueEntries c points.now.entries.items →
        IfSome result (DifferFirst c weighting (chars left.now) (chars right.now)) }
{
    let (mut left_rest, mut right_rest) = skip_same(left, right, shared)?;
    loop {
        let (first, left_next) = next_head(points, weighting, left_rest)?;
        let (second, right_next) = next_head(points, weighting, right_rest)?;
        if first.weight != second.weight {
            if first.decides()
                && second.decides()
                && begins_plain(points, left_next)
                && begins_plain(points, right_next)
            {
                return Some(first.weight.cmp(&second.weight));
            }
            return None;
        }
        if first.weight == 0 || !first.alone || !second.alone {
            return None;
        }
        left_rest = left_next;
        right_rest = right_next;
    }
}

// An order of two texts, unless it is `Equal`, which says nothing of them.
#[inline(always)]
fn unless_equal(order: Ordering) -> Option<Ordering>
    ensures { IfSome result (λ found. (found ≡ order) × (order ≢ Equal)) }
{
    match order {
        Ordering::Equal => None,
        Ordering::Less | Ordering::Greater => Some(order),
    }
}

// What `order_rests` returns under the weighting of the heads, whatever the code points are.
#[inline(never)]
fn order_all<A: Allocator>(
    points: &PointCache<A>,
    heads: &Heads,
    left: &str,
    right: &str,
    shared: usize,
) -> Option<Ordering>
    requires within { shared ≤ length left.now }
    requires within_too { shared ≤ length right.now }
    requires same { take shared left.now ≡ take shared right.now }
    ensures { (c : Collation) → AreTrueEntries c points.now.entries.items → AreTrueHeads c heads.now →
        IfSome result (DifferFirst c heads.now.weighting (chars left.now) (chars right.now)) }
{
    match order_heads(heads, left, right, shared) {
        Some(order) => unless_equal(order),
        None => order_cut(points, heads.weighting, left, right, shared),
    }
}

// What `order_rests` returns under the weighting of the heads, where `order_first` has no result.
#[inline(never)]
fn order_more<A: Allocator>(
    points: &PointCache<A>,
    heads: &Heads,
    left: &str,
    right: &str,
    shared: usize,
) -> Option<Ordering>
    requires within { shared ≤ length left.now }
    requires within_too { shared ≤ length right.now }
    requires same { take shared left.now ≡ take shared right.now }
    ensures { (c : Collation) → AreTrueEntries c points.now.entries.items → AreTrueHeads c heads.now →
        IfSome result (DifferFirst c heads.now.weighting (chars left.now) (chars right.now)) }
{
    if let Some(found) = order_ascii(heads, left, right, shared) {
        return found;
    }
    order_all(points, heads, left, right, shared)
}

/// What [`order_first`] returns under this weighting, if that is the one of the heads.
#[inline(always)]
pub(crate) fn order_at_once(
    heads: &Heads,
    weighting: Weighting,
    left: &str,
    right: &str,
    shared: usize,
) -> Option<Ordering>
    requires { take shared left.now ≡ take shared right.now }
    ensures { (c : Collation) → AreTrueHeads c heads.now →
        IfSome result (DifferFirst c weighting (chars left.now) (chars right.now)) }
{
    if weighting != heads.weighting {
        return None;
    }
    order_first(heads, left, right, shared)
}

/// The order of two texts that differ at level 1 after the code points with which both begin. Their first bytes are the
/// same, so many of them. There is no result for others. Each code point up to the one after the difference has to be known
/// and plain. Those up to the difference need a weight at level 1, and those before it no more than one.
#[inline(always)]
pub(crate) fn order_rests<A: Allocator>(
    points: &PointCache<A>,
    heads: &Heads,
    weighting: Weighting,
    left: &str,
    right: &str,
    shared: usize,
) -> Option<Ordering>
    requires { take shared left.now ≡ take shared right.now }
    ensures { (c : Collation) → AreTrueEntries c points.now.entries.items → AreTrueHeads c heads.now →
        IfSome result (DifferFirst c weighting (chars left.now) (chars right.now)) }
{
    let most = left.len().min(right.len());
    let at = shared.min(most);
    if heads.weighting != weighting {
        return order_cut(points, weighting, left, right, at);
    }
    match order_first(heads, left, right, at) {
        Some(order) => Some(order),
        None => order_more(points, heads, left, right, at),
    }
}

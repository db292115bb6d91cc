//! `Rest`: what follows the code points with which two texts begin.

ghost use Rattle.std.specs.Prelude.{◌≡◌, ◌≤◌, ◌∷◌, chars, IfOk, IfSome};
ghost use Rattle.uca_elements.specs.Collations.{Collation, collation_of};
ghost use Rattle.uca_plain.specs.PointCache.{IsTrueEntry, AreTrueEntries};
ghost use Rattle.uca_text_comparer.specs.inside.Shared.{IsRest, flag_after};

use std::alloc::{AllocError, Allocator};
use uca_elements::{Collator, Lookup};
use uca_order::weighting::is_after_variable;
use uca_plain::plain::{KnownPoint, PointCache};
use uca_plain::points::split_first;
use uca_weights::Element;

/// What follows the plain code points with which two texts begin.
#[derive(Clone, Copy, Drop)]
pub(crate) struct Rest<'t> {
    pub(crate) left: &'t str,
    pub(crate) right: &'t str,
    /// Whether the nearest element with a primary weight before it is variable.
    pub(crate) after_variable: bool,
    /// How many elements come before it.
    pub(crate) passed: u64,
}

// The code point with which two texts begin, and what follows it in each.
#[inline(always)]
fn split_shared<'t>(left: &'t str, right: &'t str) -> Option<(char, &'t str, &'t str)>
    ensures { IfSome result (λ parts. (chars left.now ≡ parts.0 ∷ chars parts.1.now) × (chars right.now ≡ parts.0 ∷ chars parts.2.now)) }
{
    let (point, left) = split_first(left)?;
    let (other, right) = split_first(right)?;
    if point == other {
        Some((point, left, right))
    } else {
        None
    }
}

// What is known of the code point with which two texts begin, if it is in the cache and is plain, and what follows it
// in each.
#[inline(always)]
fn split_cached<'p, 't, A: Allocator>(
    points: &'p PointCache<A>,
    left: &'t str,
    right: &'t str,
) -> Option<(&'p KnownPoint, &'t str, &'t str)>
    ensures left { IfSome result (λ parts. chars left.now ≡ parts.0.now.point ∷ chars parts.1.now) }
    ensures right { IfSome result (λ parts. chars right.now ≡ parts.0.now.point ∷ chars parts.2.now) }
    ensures few { IfSome result (λ parts. parts.0.now.count ≤ 3) }
    ensures entry { (c : Collation) → AreTrueEntries c points.now.entries.items → IfSome result (λ parts. IsTrueEntry c parts.0.now) }
{
    let (point, left_rest, right_rest) = split_shared(left, right)?;
    let known = points.find(point)?;
    if known.is_bound() {
        return None;
    }
    Some((known, left_rest, right_rest))
}

// Whether the nearest element with a primary weight is variable, after some more elements.
#[inline(always)]
fn flag_of(after_variable: bool, elements: &[Element]) -> bool
    ensures { result ≡ flag_after after_variable elements.now }
{
    let mut flag = after_variable;
    for element in elements {
        flag = is_after_variable(flag, *element);
    }
    flag
}

// What follows the code points with which both texts begin, as long as they are in the cache and plain.
fn skip_cached<'t, A: Allocator>(points: &PointCache<A>, left: &'t str, right: &'t str) -> Rest<'t>
    ensures { (c : Collation) → AreTrueEntries c points.now.entries.items →
        IsRest c (chars left.now) (chars right.now) (chars result.left.now) (chars result.right.now) result.after_variable result.passed }
{
    let (mut left, mut right) = (left, right);
    let mut after_variable = false;
    let mut passed = 0_u64;
    while let Some((known, left_rest, right_rest)) = split_cached(points, left, right) {
        let elements = known.all_elements();
        after_variable = flag_of(after_variable, elements);
        passed = passed.saturating_add(elements.len() as u64);
        left = left_rest;
        right = right_rest;
    }
    Rest {
        left,
        right,
        after_variable,
        passed,
    }
}

/// What follows the code points with which both texts begin. Where one of those is not plain, there is no result.
pub(crate) fn skip_shared<'t, L: Lookup, T: Allocator, A: Allocator>(
    collator: &Collator<L, T>,
    points: &mut PointCache<A>,
    left: &'t str,
    right: &'t str,
) -> Result<Option<Rest<'t>>, AllocError>
    requires { AreTrueEntries (collation_of L.content collator.now) points.old.entries.items }
    ensures entries { AreTrueEntries (collation_of L.content collator.now) points.new.entries.items }
    ensures rest { let c = collation_of L.content collator.now in IfOk result (λ found. IfSome found (λ rest.
        IsRest c (chars left.now) (chars right.now) (chars rest.left.now) (chars rest.right.now) rest.after_variable rest.passed)) }
{
    let cached = skip_cached(points, left, right);
    let (mut left, mut right) = (cached.left, cached.right);
    let mut after_variable = cached.after_variable;
    let mut passed = cached.passed;
    while let Some((point, left_rest, right_rest)) = split_shared(left, right) {
        let known = points.get(collator, point)?;
        let Some(elements) = known.elements() else {
            return Ok(None);
        };
        after_variable = flag_of(after_variable, elements);
        passed = passed.saturating_add(elements.len() as u64);
        left = left_rest;
        right = right_rest;
    }
    Ok(Some(Rest {
        left,
        right,
        after_variable,
        passed,
    }))
}

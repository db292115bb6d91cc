//! How two texts compare at level 1, code point by code point.

ghost use Rattle.std.specs.Prelude.{◌≡◌, ◌<◌, ℕ, List, Bool, chars, length, IfSome, Some};
ghost use Rattle.std.specs.Bool.{OnTrue};
ghost use Rattle.std.specs.Str.{IsCharBoundary};
ghost use Rattle.uca_weights.specs.declared.Element.{Element};
ghost use Rattle.uca_elements.specs.Collations.{Collation};
ghost use Rattle.uca_comparison.specs.Fronts;
ghost use Rattle.uca_comparison.specs.Fronts.{weight_here};
ghost use Rattle.uca_comparison.specs.inside.Comparisons.{ComparesLevels};
ghost use Rattle.uca_comparison.specs.Walks.{Stands, none_decided};
ghost use Rattle.uca_plain.specs.PointCache.{AreTrueEntries};
ghost use Rattle.uca_text_comparer.specs.inside.Shared.{IsRest, IsFirst, BeginsPlain, HasFirst, ComparesTexts};
ghost use Rattle.uca_text_comparer.specs.Heads;
ghost use Rattle.uca_text_comparer.specs.Heads.{HaveNone, IsHeaded};
ghost use Rattle.uca_text_comparer.specs.inside.Primaries.{GoTogether};

use crate::next::begins_plain;
use crate::shared::Rest;
use std::alloc::Allocator;
use uca_comparison::walk::{LevelStep, Walked, look_at};
use uca_plain::plain::PointCache;
use uca_plain::points::{split_first, split_plain};
use uca_weights::{Element, Weighting};

/// A text of so many bytes has at most 64 code points in Normalization Form D.
const SHORT_REST: usize = 32;

// What is left of two texts, and how many elements come before it in each.
#[derive(Clone, Copy, Drop)]
struct Pair<'t> {
    left: &'t str,
    right: &'t str,
    passed_left: u64,
    passed_right: u64,
}

/// How two texts compare if they differ at level 1 soon after what they share. There is no result if that takes a code
/// point that is not in the cache or not plain, or one that has more than one weight at level 1.
pub(crate) fn compare_primaries<A: Allocator>(
    points: &PointCache<A>,
    weighting: Weighting,
    rest: &Rest,
) -> Option<Walked>
    ensures { (c : Collation) (xs ys : List ℕ) → AreTrueEntries c points.now.entries.items →
        IsRest c xs ys (chars rest.now.left.now) (chars rest.now.right.now) rest.now.after_variable rest.now.passed →
        IfSome result (ComparesTexts c weighting xs ys) }
{
    let begin = Pair {
        left: rest.left,
        right: rest.right,
        passed_left: rest.passed,
        passed_right: rest.passed,
    };
    match compare_first(points, weighting, &begin) {
        Some(walked) => Some(walked),
        None => compare_later(points, weighting, &begin),
    }
}

// How two texts compare if they differ at level 1 after some code points that have the same weight there.
#[inline(never)]
fn compare_later<A: Allocator>(
    points: &PointCache<A>,
    weighting: Weighting,
    begin: &Pair,
) -> Option<Walked>
    ensures { (c : Collation) (xs ys : List ℕ) → AreTrueEntries c points.now.entries.items →
        GoTogether c weighting xs ys (chars begin.now.left.now) (chars begin.now.right.now) begin.now.passed_left begin.now.passed_right →
        IfSome result (ComparesTexts c weighting xs ys) }
{
    let pair = skip_equal(points, weighting, begin);
    compare_first(points, weighting, &pair)
}

// What is left after the code points that have the same weight at level 1, one of the left text and one of the right.
fn skip_equal<'t, A: Allocator>(
    points: &PointCache<A>,
    weighting: Weighting,
    begin: &Pair<'t>,
) -> Pair<'t>
    ensures { (c : Collation) (xs ys : List ℕ) → AreTrueEntries c points.now.entries.items →
        GoTogether c weighting xs ys (chars begin.now.left.now) (chars begin.now.right.now) begin.now.passed_left begin.now.passed_right →
        GoTogether c weighting xs ys (chars result.left.now) (chars result.right.now) result.passed_left result.passed_right }
{
    let mut pair = *begin;
    while let Some(next) = next_pair(points, weighting, &pair) {
        pair = next;
    }
    pair
}

// What is left after a code point of each text, if these are in the cache, are plain, and have the same weight at level
// 1.
fn next_pair<'t, A: Allocator>(
    points: &PointCache<A>,
    weighting: Weighting,
    pair: &Pair<'t>,
) -> Option<Pair<'t>>
    ensures together { (c : Collation) (xs ys : List ℕ) → AreTrueEntries c points.now.entries.items →
        GoTogether c weighting xs ys (chars pair.now.left.now) (chars pair.now.right.now) pair.now.passed_left pair.now.passed_right →
        IfSome result (λ next. GoTogether c weighting xs ys (chars next.left.now) (chars next.right.now) next.passed_left next.passed_right) }
    ensures shorter { IfSome result (λ next. length (chars next.left.now) < length (chars pair.now.left.now)) }
{
    let (known, left) = split_plain(points, pair.left)?;
    let (other, right) = split_plain(points, pair.right)?;
    let (elements, others) = (known.all_elements(), other.all_elements());
    let weight = only_weight(weighting, elements)?;
    let found = only_weight(weighting, others)?;
    if weight != found {
        return None;
    }
    Some(Pair {
        left,
        right,
        passed_left: pair.passed_left.saturating_add(elements.len() as u64),
        passed_right: pair.passed_right.saturating_add(others.len() as u64),
    })
}

// The weight of the first element at level 1, if the others have none.
#[inline(always)]
fn only_weight(weighting: Weighting, elements: &[Element]) -> Option<u16>
    ensures { IfSome result (λ weight. IsHeaded weighting weight elements.now) }
{
    let (first, rest) = elements.split_first()?;
    if has_none(weighting, rest) {
        Some(primary_of(weighting, *first))
    } else {
        None
    }
}

// Whether no element has a weight at level 1.
#[inline(always)]
fn has_none(weighting: Weighting, elements: &[Element]) -> bool
    ensures { OnTrue result (HaveNone weighting elements.now) }
{
    for element in elements {
        if primary_of(weighting, *element) != 0 {
            return false;
        }
    }
    true
}

/// The weight of an element at level 1, 0 if it has none.
#[inline(always)]
pub(crate) fn primary_of(weighting: Weighting, element: Element) -> u16
    ensures { result ≡ Heads.primary_of weighting element }
{
    match weighting {
        Weighting::NonIgnorable => element.primary,
        Weighting::Shifted if element.mark => 0,
        Weighting::Shifted => element.primary,
    }
}

// How two texts compare if the first elements that are left differ at level 1.
#[inline(always)]
fn compare_first<A: Allocator>(
    points: &PointCache<A>,
    weighting: Weighting,
    pair: &Pair,
) -> Option<Walked>
    ensures { (c : Collation) (xs ys : List ℕ) → AreTrueEntries c points.now.entries.items →
        GoTogether c weighting xs ys (chars pair.now.left.now) (chars pair.now.right.now) pair.now.passed_left pair.now.passed_right →
        IfSome result (ComparesTexts c weighting xs ys) }
{
    let left = first_element(points, pair.left)?;
    let right = first_element(points, pair.right)?;
    compare_two(weighting, pair.passed_left, pair.passed_right, left, right)
}

// The first element of a text, or none if it has no code point. There is no result if the text has more than 32 bytes,
// or if its first code point has no element. The same is so if one of its first two is not in the cache or not plain.
#[inline(always)]
fn first_element<A: Allocator>(points: &PointCache<A>, text: &str) -> Option<Option<Element>>
    ensures { (c : Collation) → AreTrueEntries c points.now.entries.items → IfSome result (HasFirst c (chars text.now)) }
{
    if text.len() > SHORT_REST {
        return None;
    }
    let Some((point, rest)) = split_first(text) else {
        return Some(None);
    };
    let known = points.find(point)?;
    let Some([first, ..]) = known.elements() else {
        return None;
    };
    if begins_plain(points, rest) {
        Some(Some(*first))
    } else {
        None
    }
}

// How two texts compare if the first elements that are left differ at level 1.
fn compare_two(
    weighting: Weighting,
    passed_left: u64,
    passed_right: u64,
    left: Option<Element>,
    right: Option<Element>,
) -> Option<Walked>
    ensures { (es fs ls rs : List Element) (f g : Bool) → IsFirst left ls → IsFirst right rs →
        Stands weighting es fs (record { elements = ls; after_variable = f; passed = passed_left })
        (record { elements = rs; after_variable = g; passed = passed_right }) (none_decided 1 1) →
        IfSome result (ComparesLevels weighting es fs) }
{
    let first = first_weight(weighting, left);
    let second = first_weight(weighting, right);
    let LevelStep::Differ(order) = look_at(first, second, left.is_none(), right.is_none()) else {
        return None;
    };
    Some(Walked {
        order,
        level: 1,
        last: 1,
        fetched_left: count_with(passed_left, left),
        fetched_right: count_with(passed_right, right),
    })
}

// The weight at level 1 of the first element, or 0 if there is none.
fn first_weight(weighting: Weighting, first: Option<Element>) -> u16
    ensures { (elements : List Element) (flag : Bool) (passed : ℕ) → IsFirst first elements →
        result ≡ weight_here weighting 1 (record { elements = elements; after_variable = flag; passed = passed }) }
{
    match first {
        Some(element) => primary_of(weighting, element),
        None => 0,
    }
}

// A count with the first element, if there is one.
fn count_with(passed: u64, first: Option<Element>) -> u64
    ensures { (elements : List Element) → IsFirst first elements → result ≡ Fronts.count_with passed elements }
{
    match first {
        Some(_) => passed.saturating_add(1),
        None => passed,
    }
}

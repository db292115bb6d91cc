//! The head of what comes next in a text, by what is known of all code points so far.

ghost use Rattle.std.specs.Prelude.{◌≡◌, ◌⊎◌, ◌<◌, chars, length, IfSome};
ghost use Rattle.std.specs.Bool.{OnTrue};
ghost use Rattle.uca_elements.specs.Collations.{Collation};
ghost use Rattle.uca_plain.specs.PointCache.{AreTrueEntries};
ghost use Rattle.uca_text_comparer.specs.inside.LevelOne.{HasNext};
ghost use Rattle.uca_text_comparer.specs.inside.Shared.{BeginsPlain};

use crate::heads::{END, Head};
use std::alloc::Allocator;
use uca_plain::plain::PointCache;
use uca_plain::points::split_first;
use uca_weights::Weighting;

/// The head of the first code point of a text, and what comes after it. There is a result only for a code point that is in the
/// cache, and at the end of the text.
#[inline(always)]
pub(crate) fn next_head<'t, A: Allocator>(
    points: &PointCache<A>,
    weighting: Weighting,
    text: &'t str,
) -> Option<(Head, &'t str)>
    ensures next { (c : Collation) → AreTrueEntries c points.now.entries.items →
        IfSome result (λ next. HasNext c weighting (chars text.now) (chars next.1.now) next.0) }
    ensures shorter { IfSome result (λ next. (next.0.weight ≡ 0) ⊎ (length (chars next.1.now) < length (chars text.now))) }
{
    let Some((point, rest)) = split_first(text) else {
        return Some((END, text));
    };
    Some((Head::of(weighting, points.find(point)?), rest))
}

/// Whether a text has no code point or begins with a plain one of the cache.
#[inline(always)]
pub(crate) fn begins_plain<A: Allocator>(points: &PointCache<A>, text: &str) -> bool
    ensures { (c : Collation) → AreTrueEntries c points.now.entries.items → OnTrue result (BeginsPlain c (chars text.now)) }
{
    let Some((point, _)) = split_first(text) else {
        return true;
    };
    match points.find(point) {
        Some(known) => !known.is_bound(),
        None => false,
    }
}

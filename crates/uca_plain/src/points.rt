//! The first code point of a text, and what is known of it.

ghost use Rattle.std.specs.Prelude.{◌≡◌, ◌∷◌, [], ◌≤◌, chars, IfSome, MatchOption};
ghost use Rattle.uca_elements.specs.Collations.{Collation};
ghost use Rattle.uca_plain.specs.PointCache.{IsTrueEntry, AreTrueEntries};

use crate::plain::{KnownPoint, PointCache};
use std::alloc::Allocator;

/// The first code point of a text, and what comes after it.
#[inline(always)]
pub fn split_first(text: &str) -> Option<(char, &str)>
    ensures { MatchOption result (chars text.now ≡ []) (λ split. chars text.now ≡ split.0 ∷ chars split.1.now) }
{
    let mut rest = text.chars();
    let point = rest.next()?;
    Some((point, rest.as_str()))
}

/// What is known of the first code point of a text, if it is in the cache and is plain, and what comes after it.
#[inline(always)]
pub fn split_plain<'p, 't, A: Allocator>(
    points: &'p PointCache<A>,
    text: &'t str,
) -> Option<(&'p KnownPoint, &'t str)>
    ensures text { IfSome result (λ split. chars text.now ≡ split.0.now.point ∷ chars split.1.now) }
    ensures few { IfSome result (λ split. split.0.now.count ≤ 3) }
    ensures entry { (c : Collation) → AreTrueEntries c points.now.entries.items → IfSome result (λ split. IsTrueEntry c split.0.now) }
{
    let (point, rest) = split_first(text)?;
    let known = points.find(point)?;
    if known.is_bound() {
        return None;
    }
    Some((known, rest))
}

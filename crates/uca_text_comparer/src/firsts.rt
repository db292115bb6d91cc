//! The order of two texts by the first bytes that differ, such as `r` and `s` of `cart` and `cast`.
//!
//! It has no loop and needs few registers. An array has a head for each byte. So no code point is read, and how many bytes a
//! code point has is not asked.

ghost use Rattle.std.specs.Prelude.{◌≡◌, ◌≢◌, ◌+◌, ◌<◌, chars, drop, length, take, IfSome};
ghost use Rattle.std.specs.Bool.{OnTrue};
ghost use Rattle.std.specs.Str.{IsCharBoundary};
ghost use Rattle.uca_weights.specs.declared.Weighting.{Weighting};
ghost use Rattle.uca_elements.specs.Collations.{Collation};
ghost use Rattle.uca_text_comparer.specs.Heads.{AreFirstsFrom, AreTrueHeads};
ghost use Rattle.uca_text_comparer.specs.inside.Beginnings.{DifferFirst};
ghost use Rattle.uca_text_comparer.specs.inside.LevelOne.{HasNext};
ghost use Rattle.uca_text_comparer.specs.inside.Shared.{BeginsPlain};

use crate::heads::{BYTES, Head, Heads};
use std::cmp::Ordering;

// The head of the byte that a text has at this position. If it has a weight, the byte is a code point.
#[inline(always)]
fn first_at(firsts: &[Head; BYTES], text: &str, at: usize) -> Head
    requires { at < length text.now }
    ensures next { (c : Collation) (weighting : Weighting) → AreFirstsFrom c weighting 0 firsts.now → result.weight ≢ 0 →
        HasNext c weighting (chars (drop at text.now)) (chars (drop (at + 1) text.now)) result }
    ensures boundary { (c : Collation) (weighting : Weighting) → AreFirstsFrom c weighting 0 firsts.now → result.weight ≢ 0 →
        IsCharBoundary text.now at × IsCharBoundary text.now (at + 1) }
{
    firsts[usize::from(text.as_bytes()[at])]
}

// If it returns `true`, and no code point goes on at this position, the text ends there or before it, or has a plain code point
// there.
#[inline(always)]
fn goes_on_plain(firsts: &[Head; BYTES], text: &str, at: usize) -> bool
    ensures { (c : Collation) (weighting : Weighting) → AreFirstsFrom c weighting 0 firsts.now → IsCharBoundary text.now at →
        OnTrue result (BeginsPlain c (chars (drop at text.now))) }
{
    if at >= text.len() {
        return true;
    }
    firsts[usize::from(text.as_bytes()[at])].plain
}

/// The order of two texts by the first bytes that differ, if these are code points of ASCII with other weights at level 1.
/// Both texts begin with the same bytes, so many of them. There is no result where the code points after the two may not be
/// plain.
#[inline(always)]
pub(crate) fn order_first(heads: &Heads, left: &str, right: &str, shared: usize) -> Option<Ordering>
    requires { take shared left.now ≡ take shared right.now }
    ensures { (c : Collation) → AreTrueHeads c heads.now →
        IfSome result (DifferFirst c heads.now.weighting (chars left.now) (chars right.now)) }
{
    let firsts = heads.firsts()?;
    if shared >= left.len().min(right.len()) {
        return None;
    }
    let first = first_at(firsts, left, shared);
    let second = first_at(firsts, right, shared);
    if first.weight != second.weight
        && first.weight != 0
        && second.weight != 0
        && goes_on_plain(firsts, left, shared + 1)
        && goes_on_plain(firsts, right, shared + 1)
    {
        return Some(first.weight.cmp(&second.weight));
    }
    None
}

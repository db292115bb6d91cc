//! The order of two texts by code points of ASCII, such as `l` and `r` of `All` and `are`: `A` and `a` have the same weight at
//! level 1. Each has one byte, so one position is enough for both texts. The 128 heads are an array, so no bound is tested.
//! Only the code points after two that differ may be others, such as `é` of `Aléa` beside `are`. Where one text ends, they may
//! not.

ghost use Rattle.std.specs.Prelude.{◌≡◌, ◌+◌, ◌<◌, ◌≤◌, chars, drop, length, take, IfSome};
ghost use Rattle.std.specs.Bool.{OnTrue};
ghost use Rattle.std.specs.Str.{IsCharBoundary};
ghost use Rattle.uca_weights.specs.declared.Weighting.{Weighting};
ghost use Rattle.uca_elements.specs.Collations.{Collation};
ghost use Rattle.uca_text_comparer.specs.Heads.{AreHeadsFrom, AreTrueHeads};
ghost use Rattle.uca_text_comparer.specs.inside.Beginnings.{DifferFirst};
ghost use Rattle.uca_text_comparer.specs.inside.LevelOne.{CompareAsRests, HasNext};
ghost use Rattle.uca_text_comparer.specs.inside.Shared.{BeginsPlain};

use crate::heads::{END, Head, Heads};
use std::cmp::Ordering;

/// So many code points are ASCII.
pub(crate) const ASCII: usize = 0x80;

// The head of the code point that a text has at this position. There is no result if that is not ASCII.
#[inline(always)]
fn point_head(heads: &[Head; ASCII], text: &str, at: usize) -> Option<Head>
    requires { at < length text.now }
    ensures next { (c : Collation) (weighting : Weighting) → AreHeadsFrom c weighting 0 heads.now →
        IfSome result (HasNext c weighting (chars (drop at text.now)) (chars (drop (at + 1) text.now))) }
    ensures plain { (c : Collation) (weighting : Weighting) → AreHeadsFrom c weighting 0 heads.now →
        IfSome result (λ head. OnTrue head.plain (BeginsPlain c (chars (drop at text.now)))) }
    ensures boundary { IfSome result (λ _. IsCharBoundary text.now at) }
    ensures after { IfSome result (λ _. IsCharBoundary text.now (at + 1)) }
{
    let byte = usize::from(text.as_bytes()[at]);
    if byte >= ASCII {
        return None;
    }
    Some(heads[byte])
}

// The head of what a text has at this position, if that is ASCII or the end of the text.
#[inline(always)]
fn head_at(heads: &[Head; ASCII], text: &str, at: usize) -> Option<Head>
    ensures next { (c : Collation) (weighting : Weighting) → AreHeadsFrom c weighting 0 heads.now →
        IfSome result (HasNext c weighting (chars (drop at text.now)) (chars (drop (at + 1) text.now))) }
    ensures boundary { IfSome result (λ _. at ≤ length text.now → IsCharBoundary text.now at) }
{
    if at >= text.len() {
        return Some(END);
    }
    point_head(heads, text, at)
}

// Whether a text ends at this position or before it, or has a plain code point there. There is no result if that is not ASCII.
#[inline(always)]
fn goes_on_plain(heads: &[Head; ASCII], text: &str, at: usize) -> Option<bool>
    ensures { (c : Collation) (weighting : Weighting) → AreHeadsFrom c weighting 0 heads.now →
        IfSome result (λ plain. OnTrue plain (BeginsPlain c (chars (drop at text.now)))) }
{
    if at >= text.len() {
        return Some(true);
    }
    Some(point_head(heads, text, at)?.plain)
}

// The order of two texts that compare at level 1 as what is left of them from this position on, where one of these ends.
#[inline(always)]
fn order_at_end(
    heads: &[Head; ASCII],
    left: &str,
    right: &str,
    at: usize,
) -> Option<Option<Ordering>>
    requires within { at ≤ length left.now }
    requires within_too { at ≤ length right.now }
    requires rests { (c : Collation) (weighting : Weighting) → AreHeadsFrom c weighting 0 heads.now → IsCharBoundary left.now at →
        CompareAsRests c weighting (chars left.now) (chars right.now) (chars (drop at left.now)) (chars (drop at right.now)) }
    ensures { (c : Collation) (weighting : Weighting) → AreHeadsFrom c weighting 0 heads.now →
        IfSome result (λ found. IfSome found (DifferFirst c weighting (chars left.now) (chars right.now))) }
{
    let first = head_at(heads, left, at)?;
    let second = head_at(heads, right, at)?;
    if first.weight != second.weight
        && first.decides()
        && second.decides()
        && goes_on_plain(heads, left, at + 1)?
        && goes_on_plain(heads, right, at + 1)?
    {
        return Some(Some(first.weight.cmp(&second.weight)));
    }
    Some(None)
}

// Whether a text ends at this position, or has a plain code point there. There is no result for a code point that has no head.
#[inline(always)]
fn any_goes_on_plain(heads: &Heads, ascii: &[Head; ASCII], text: &str, at: usize) -> Option<bool>
    requires { IsCharBoundary text.now at }
    ensures { (c : Collation) → AreTrueHeads c heads.now → AreHeadsFrom c heads.now.weighting 0 ascii.now →
        IfSome result (λ plain. OnTrue plain (BeginsPlain c (chars (drop at text.now)))) }
{
    match goes_on_plain(ascii, text, at) {
        Some(plain) => Some(plain),
        None => heads.goes_on_plain(text, at),
    }
}

/// The order of two texts that differ at level 1 after the code points with which both begin, or `Some(None)` if these do not
/// tell it. There is no result where a code point up to the difference is not ASCII, or the one after it has no head. Where one
/// text ends at the difference, the code point after it has to be ASCII too.
#[inline(always)]
pub(crate) fn order_ascii(
    heads: &Heads,
    left: &str,
    right: &str,
    shared: usize,
) -> Option<Option<Ordering>>
    requires within { shared ≤ length left.now }
    requires within_too { shared ≤ length right.now }
    requires same { take shared left.now ≡ take shared right.now }
    ensures { (c : Collation) → AreTrueHeads c heads.now →
        IfSome result (λ found. IfSome found (DifferFirst c heads.now.weighting (chars left.now) (chars right.now))) }
{
    let ascii = heads.ascii()?;
    let mut at = shared;
    loop {
        if at >= left.len() || at >= right.len() {
            return order_at_end(ascii, left, right, at);
        }
        let first = point_head(ascii, left, at)?;
        let second = point_head(ascii, right, at)?;
        if first.weight == 0 || second.weight == 0 {
            return Some(None);
        }
        if first.weight != second.weight {
            if any_goes_on_plain(heads, ascii, left, at + 1)?
                && any_goes_on_plain(heads, ascii, right, at + 1)?
            {
                return Some(Some(first.weight.cmp(&second.weight)));
            }
            return Some(None);
        }
        if !first.alone || !second.alone {
            return Some(None);
        }
        at += 1;
    }
}

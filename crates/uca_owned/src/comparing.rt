//! Comparing texts that are given as bytes.

ghost use Rattle.std.specs.Prelude.{◌≡◌, chars, take, IfOk, IfErr, IfSome, OnOk};
ghost use Rattle.uca_values.specs.Content.{properties_of};
ghost use Rattle.uca_elements.specs.Collations.{Collation};
ghost use Rattle.uca_text.specs.Limits.{IsAccepted};
ghost use Rattle.uca_text.specs.Faults.{IsCause};
ghost use Rattle.uca_order.specs.Depths.{written_text, texts_compared};
ghost use Rattle.uca_order.specs.Keyings.{Keying, keying_by, bytes_compared};
ghost use Rattle.uca_match.specs.OwnedCollations.{owned_collation};
ghost use Rattle.uca_text_comparer.specs.Causes.{IsPairCause};
ghost use Rattle.uca_text_comparer.specs.Heads.{Knows};
ghost use Rattle.uca_owned.specs.Causes.{IsAcceptedText, IsAcceptedBy, IsKeyCause, IsCompareCause};

use crate::faults::{CompareFault, KeyFault};
use crate::reading::{read_after, read_longer, read_narrow, read_short, read_text};
use std::cmp::Ordering;
use uca_lanes::shared_len;
use uca_match::OwnedCollation;
use uca_text::TextFault;
use uca_text_comparer::{PairFault, TextComparison};
use uca_weights::Settings;

/// A text of so many bytes is accepted: what is read of it has at most 64 code points in Normalization Form D.
const SHORT_TEXT: usize = 32;

/// Two texts of at most so many bytes are judged together.
const SHORTER: usize = 15;

// How a short text compares with itself. It is accepted, so none of its code points is looked up. There is no result
// for two other texts, for a long one, and for bytes that are no UTF-8.
fn compare_same(left: &[u8], right: &[u8]) -> Option<(Ordering, u8)>
    ensures compared { (k : Keying) → IfSome result (λ pair.
        let answer = bytes_compared k left.now right.now in (pair.0 ≡ answer.order) × (pair.1 ≡ answer.level)) }
    ensures accepted { (k : Keying) → IfSome result (λ _. IsAcceptedBy k left.now × IsAcceptedBy k right.now) }
{
    if left.len() <= SHORT_TEXT
        && left == right
        && let Some(_) = read_text(left)
    {
        return Some((Ordering::Equal, 0));
    }
    None
}

/// How two texts compare: their order, and the first level at which they differ, or 0.
///
/// # Errors
///
/// `Left` if the left text is rejected, or else `Right` if the right one is.
#[inline(always)]
pub(crate) fn compare_bytes(
    collation: &OwnedCollation,
    comparison: &mut TextComparison,
    settings: &Settings,
    left: &[u8],
    right: &[u8],
) -> Result<(Ordering, u8), CompareFault>
    requires { Knows (owned_collation collation.now) comparison.old }
    ensures known { Knows (owned_collation collation.now) comparison.new }
    ensures compared { IfOk result (λ pair.
        let answer = bytes_compared (keying_by (owned_collation collation.now) settings.now) left.now right.now in
        (pair.0 ≡ answer.order) × (pair.1 ≡ answer.level)) }
    ensures accepted { let properties = properties_of collation.now.properties in OnOk result (
        IsAcceptedText settings.now.numbers properties left.now × IsAcceptedText settings.now.numbers properties right.now) }
    ensures fault { let properties = properties_of collation.now.properties in
        IfErr result (IsCompareCause settings.now.numbers properties left.now right.now) }
{
    if let Some(pair) = compare_short(comparison, *settings, left, right) {
        return Ok(pair);
    }
    // taken apart, so that the result of `compare_short` stays in registers
    let pair = compare_all(collation, comparison, settings, left, right)?;
    Ok(pair)
}

/// The order of two texts of at most 32 bytes by the first bytes that differ, where these tell it. At most eight bytes
/// may come before them, and no code point may have three.
#[inline(always)]
pub(crate) fn order_at_once(
    comparison: &TextComparison,
    settings: Settings,
    left: &[u8],
    right: &[u8],
) -> Option<Ordering>
    ensures compared { (c : Collation) → Knows c comparison.now → IfSome result (λ order.
        let answer = bytes_compared (keying_by c settings) left.now right.now in (order ≡ answer.order) × (1 ≡ answer.level)) }
    ensures accepted { (k : Keying) → IfSome result (λ _. IsAcceptedBy k left.now × IsAcceptedBy k right.now) }
{
    let (left_text, right_text, shared) = read_narrow(left, right)?;
    let order = comparison.order_at_once(settings, left_text, right_text, shared)?;
    Some(order)
}

// The order of two texts of at most 32 bytes, where `compare_short` asks for it: one of them has more than fifteen.
#[inline(never)]
fn order_longer(
    comparison: &TextComparison,
    settings: Settings,
    left: &[u8],
    right: &[u8],
) -> Option<Ordering>
    ensures compared { (c : Collation) → Knows c comparison.now → IfSome result (λ order.
        let answer = bytes_compared (keying_by c settings) left.now right.now in (order ≡ answer.order) × (1 ≡ answer.level)) }
    ensures accepted { (k : Keying) → IfSome result (λ _. IsAcceptedBy k left.now × IsAcceptedBy k right.now) }
{
    let (left_text, right_text, shared) = read_longer(left, right)?;
    let order = comparison.order_after(settings, left_text, right_text, shared)?;
    Some(order)
}

// How two texts of at most 32 bytes compare, if they differ at level 1 after the code points with which both begin. There is
// no result for others, and where nothing is known of a code point yet.
#[inline(always)]
fn compare_short(
    comparison: &TextComparison,
    settings: Settings,
    left: &[u8],
    right: &[u8],
) -> Option<(Ordering, u8)>
    ensures compared { (c : Collation) → Knows c comparison.now → IfSome result (λ pair.
        let answer = bytes_compared (keying_by c settings) left.now right.now in (pair.0 ≡ answer.order) × (pair.1 ≡ answer.level)) }
    ensures accepted { (k : Keying) → IfSome result (λ _. IsAcceptedBy k left.now × IsAcceptedBy k right.now) }
{
    if left.len() > SHORTER || right.len() > SHORTER {
        let order = order_longer(comparison, settings, left, right)?;
        return Some((order, 1));
    }
    let (left_text, right_text, shared) = read_short(left, right)?;
    let order = comparison.order_after(settings, left_text, right_text, shared)?;
    Some((order, 1))
}

// How two texts compare, as `compare_bytes` says, whatever they are.
#[inline(never)]
fn compare_all(
    collation: &OwnedCollation,
    comparison: &mut TextComparison,
    settings: &Settings,
    left: &[u8],
    right: &[u8],
) -> Result<(Ordering, u8), CompareFault>
    requires { Knows (owned_collation collation.now) comparison.old }
    ensures known { Knows (owned_collation collation.now) comparison.new }
    ensures compared { IfOk result (λ pair.
        let answer = bytes_compared (keying_by (owned_collation collation.now) settings.now) left.now right.now in
        (pair.0 ≡ answer.order) × (pair.1 ≡ answer.level)) }
    ensures accepted { let properties = properties_of collation.now.properties in OnOk result (
        IsAcceptedText settings.now.numbers properties left.now × IsAcceptedText settings.now.numbers properties right.now) }
    ensures fault { let properties = properties_of collation.now.properties in
        IfErr result (IsCompareCause settings.now.numbers properties left.now right.now) }
{
    if let Some(pair) = compare_same(left, right) {
        return Ok(pair);
    }
    let Some(left_text) = read_text(left) else {
        return Err(CompareFault::Left(KeyFault::Utf8));
    };
    let shared = shared_len(left, right);
    let Some(right_text) = read_after(left_text, shared, right) else {
        return match judge_text(collation, comparison, *settings, left_text) {
            Ok(()) => Err(CompareFault::Right(KeyFault::Utf8)),
            Err(fault) => Err(CompareFault::Left(KeyFault::Text(fault))),
        };
    };
    match comparison.order_after(*settings, left_text, right_text, shared) {
        Some(order) => Ok((order, 1)),
        None => compare_whole(collation, comparison, *settings, left_text, right_text),
    }
}

/// Judges the text of these bytes.
///
/// # Errors
///
/// The text is rejected.
pub(crate) fn judge(
    collation: &OwnedCollation,
    comparison: &mut TextComparison,
    settings: Settings,
    bytes: &[u8],
) -> Result<(), KeyFault>
    requires { Knows (owned_collation collation.now) comparison.old }
    ensures known { Knows (owned_collation collation.now) comparison.new }
    ensures accepted { let properties = properties_of collation.now.properties in
        OnOk result (IsAcceptedText settings.numbers properties bytes.now) }
    ensures fault { IfErr result (IsKeyCause settings.numbers (properties_of collation.now.properties) bytes.now) }
{
    let Some(text) = read_text(bytes) else {
        return Err(KeyFault::Utf8);
    };
    match judge_text(collation, comparison, settings, text) {
        Ok(()) => Ok(()),
        Err(fault) => Err(KeyFault::Text(fault)),
    }
}

// Judges a text: it is compared with itself.
fn judge_text(
    collation: &OwnedCollation,
    comparison: &mut TextComparison,
    settings: Settings,
    text: &str,
) -> Result<(), TextFault>
    requires { Knows (owned_collation collation.now) comparison.old }
    ensures known { Knows (owned_collation collation.now) comparison.new }
    ensures accepted { let properties = properties_of collation.now.properties in
        OnOk result (IsAccepted (written_text settings.numbers properties (chars text.now))) }
    ensures fault { let properties = properties_of collation.now.properties in
        IfErr result (IsCause (written_text settings.numbers properties (chars text.now))) }
{
    let collator = collation.collator();
    match comparison.compare(&collator, settings, text, text) {
        Ok(_) => Ok(()),
        Err(PairFault::Left(fault)) => Err(fault),
        Err(PairFault::Right(fault)) => Err(fault),
    }
}

// How two texts compare that are UTF-8, as `compare_bytes` says, by all that they have.
#[inline(never)]
fn compare_whole(
    collation: &OwnedCollation,
    comparison: &mut TextComparison,
    settings: Settings,
    left: &str,
    right: &str,
) -> Result<(Ordering, u8), CompareFault>
    requires { Knows (owned_collation collation.now) comparison.old }
    ensures known { Knows (owned_collation collation.now) comparison.new }
    ensures compared { IfOk result (λ pair.
        let answer = bytes_compared (keying_by (owned_collation collation.now) settings) left.now right.now in
        (pair.0 ≡ answer.order) × (pair.1 ≡ answer.level)) }
    ensures accepted { let properties = properties_of collation.now.properties in OnOk result (
        IsAcceptedText settings.numbers properties left.now × IsAcceptedText settings.numbers properties right.now) }
    ensures fault { let properties = properties_of collation.now.properties in
        IfErr result (IsCompareCause settings.numbers properties left.now right.now) }
{
    let collator = collation.collator();
    if left.len() <= SHORT_TEXT && right.len() <= SHORT_TEXT {
        // Later calls compare short texts by what is learned here. Without memory for it they take more time.
        let _ = comparison.learn_heads(&collator, settings.weighting);
    }
    match comparison.compare(&collator, settings, left, right) {
        Ok(compared) => Ok((compared.order, compared.level)),
        Err(PairFault::Left(fault)) => Err(CompareFault::Left(KeyFault::Text(fault))),
        Err(PairFault::Right(fault)) => Err(CompareFault::Right(KeyFault::Text(fault))),
    }
}

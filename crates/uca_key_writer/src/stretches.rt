//! Stretches of plain code points that are in the cache. Their weights are put in one loop.
//!
//! At most 64 code points are put at a time. Room for them is made before the loop: three slots each, so 192 a
//! level. The last code point waits, since a mark may follow it.

ghost use Rattle.std.specs.Prelude.{◌≡◌, ℕ, ◌∷◌, [], ◌<◌, ◌≤◌, ◌++◌, List, length, chars, IfSome, MatchOption};
ghost use Rattle.std.specs.Bool.{OnTrue};
ghost use Rattle.uca_elements.specs.Collations.{Collation};
ghost use Rattle.uca_weights.specs.declared.Element.{Element};
ghost use Rattle.uca_plain.specs.Leaves.{points_elements};
ghost use Rattle.uca_key_writer.specs.inside.LevelBuffers.{levels_of, HasRoom, HoldsLevels};
ghost use Rattle.uca_plain.specs.PointCache.{IsTrueEntry, AreTrueEntries};
ghost use Rattle.uca_key_writer.specs.inside.Stretches.{ReadsUpTo, StretchReads};

use crate::slots::{Counts, put_elements};
use std::alloc::Allocator;
use uca_plain::plain::{KnownPoint, PointCache};
use uca_plain::points::{split_first, split_plain};
use uca_weights::Weighting;

/// How many code points of a stretch are put at most.
const STRETCH: usize = 64;

/// How many slots of each level a stretch may fill.
pub(crate) const STRETCH_SLOTS: usize = 192;

/// How many leaves are put at most.
pub(crate) const LEAVES: usize = 64;

/// How a stretch ended.
#[derive(Drop)]
pub(crate) enum Stretch<'t> {
    /// With the text, and all weights are put.
    Ended,
    /// After a plain code point whose weights are not put yet. The rest of the text follows.
    Stopped(KnownPoint, &'t str),
}

/// The code points with which a text begins that are in the cache and not plain, whether all of them are leaves, and what comes
/// after them.
pub(crate) fn split_bound<'t, A: Allocator>(
    points: &PointCache<A>,
    text: &'t str,
) -> (&'t str, bool, &'t str)
    ensures { chars text.now ≡ chars result.0.now ++ chars result.2.now }
{
    let mut rest = text;
    let mut leaves = true;
    while let Some((point, after)) = split_first(rest) {
        let Some(known) = points.find_bound(point) else {
            break;
        };
        leaves = leaves && known.is_leaf();
        rest = after;
    }
    let (bound, rest) = text.split_at(text.len() - rest.len());
    (bound, leaves, rest)
}

/// Puts the weights of a plain code point and of those that follow it in a text, as long as they are in the cache and plain.
/// The last one waits, unless it ends the text, for what follows may change its elements.
#[inline(always)]
pub(crate) fn put_stretch<'p, 't, A: Allocator>(
    weighting: Weighting,
    points: &'p PointCache<A>,
    first: &'p KnownPoint,
    text: &'t str,
    after_variable: &mut bool,
    mut counts: Counts,
    primary: &mut [[u8; 2]],
    secondary: &mut [[u8; 2]],
    tertiary: &mut [[u8; 2]],
    quaternary: &mut [[u8; 2]],
) -> (Stretch<'t>, Counts)
    requires few { first.now.count ≤ 3 }
    requires room { HasRoom STRETCH_SLOTS counts primary.old secondary.old tertiary.old quaternary.old }
    ensures room { HasRoom 0 result.1 primary.new secondary.new tertiary.new quaternary.new }
    ensures reads { (c : Collation) (key xs : List ℕ) → AreTrueEntries c points.now.entries.items →
        ReadsUpTo c weighting xs (levels_of after_variable.old counts primary.old secondary.old tertiary.old quaternary.old key) first.now →
        StretchReads c weighting xs text.now (levels_of after_variable.new result.1 primary.new secondary.new tertiary.new quaternary.new key) result.0 }
{
    let mut last = first;
    let mut rest = text;
    for _turn in 1..STRETCH {
        let Some((next, after)) = split_plain(points, rest) else {
            break;
        };
        counts = put_elements(
            weighting,
            last.all_elements(),
            after_variable,
            counts,
            primary,
            secondary,
            tertiary,
            quaternary,
        );
        last = next;
        rest = after;
    }
    if !rest.is_empty() {
        return (Stretch::Stopped(*last, rest), counts);
    }
    counts = put_elements(
        weighting,
        last.all_elements(),
        after_variable,
        counts,
        primary,
        secondary,
        tertiary,
        quaternary,
    );
    (Stretch::Ended, counts)
}

/// Puts the weights of code points in Normalization Form D, if each is a leaf in the cache. Otherwise `false` is returned, and
/// some are put.
#[inline(always)]
pub(crate) fn put_leaves<A: Allocator>(
    weighting: Weighting,
    points: &PointCache<A>,
    text: &[char],
    after_variable: &mut bool,
    mut counts: Counts,
    primary: &mut [[u8; 2]],
    secondary: &mut [[u8; 2]],
    tertiary: &mut [[u8; 2]],
    quaternary: &mut [[u8; 2]],
) -> (bool, Counts)
    requires few { length text.now ≤ LEAVES }
    requires room { HasRoom STRETCH_SLOTS counts primary.old secondary.old tertiary.old quaternary.old }
    ensures room { HasRoom 0 result.1 primary.new secondary.new tertiary.new quaternary.new }
    ensures holds { (c : Collation) (key : List ℕ) (es : List Element) → AreTrueEntries c points.now.entries.items →
        HoldsLevels weighting es (levels_of after_variable.old counts primary.old secondary.old tertiary.old quaternary.old key) →
        OnTrue result.0 (HoldsLevels weighting (es ++ points_elements c text.now)
        (levels_of after_variable.new result.1 primary.new secondary.new tertiary.new quaternary.new key)) }
{
    for point in text {
        let Some(elements) = points.find_leaf(*point) else {
            return (false, counts);
        };
        counts = put_elements(
            weighting,
            elements,
            after_variable,
            counts,
            primary,
            secondary,
            tertiary,
            quaternary,
        );
    }
    (true, counts)
}

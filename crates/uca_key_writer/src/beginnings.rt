//! Beginnings of keys: the weights of level 1 come first in a key, so its first bytes need the first pieces of the text. The
//! rest is only judged.
//!
//! Pieces are read until level 1 has eight weights. The rest of the text has only to have no long run of
//! non-starters. At most 64 code points of Normalization Form D, from a starter on, have none. So after a code point
//! that decomposes into a starter first, 24 bytes are passed over without a look: they are at most 48 such code
//! points. Then each code point is looked up and counted, until the next one with a starter first.
//!
//! Where the count comes past 64, the text is read again, and no bytes are passed over. Only a text with more than 64
//! from one starter to the next goes the way of `KeyWriter::write`.

ghost use Rattle.std.specs.Prelude.{◌≡◌, ◌<◌, ◌≤◌, [], chars, map, length, IfOk};
ghost use Rattle.std.specs.Bool.{OnTrue};
ghost use Rattle.unicode_normalization.specs.Forms.{nfd};
ghost use Rattle.uca_text.specs.Limits.{HasNoLongRun};
ghost use Rattle.uca_elements.specs.Collations.{collation_of};
ghost use Rattle.uca_key_writer.specs.inside.LevelBuffers.{HoldsLevels};
ghost use Rattle.uca_plain.specs.PointCache.{AreTrueEntries};
ghost use Rattle.uca_key_writer.specs.inside.Beginnings.{HasBegun, HasPassed};

use crate::level_buffers::LevelBuffers;
use crate::pieces::Piece;
use std::alloc::{AllocError, Allocator};
use uca_elements::{Collator, Lookup};
use uca_plain::plain::PointCache;
use uca_plain::points::split_first;
use uca_weights::Weighting;

/// How many non-starters may come in a row. So many code points are no run that is longer.
const LONGEST_RUN: usize = 64;

/// How many code points one decomposes to at most, in Normalization Form D.
const LONGEST_DECOMPOSITION: usize = 4;

/// How many bytes after a starter are passed over. They are at most 48 code points of Normalization Form D, two for each byte.
const PASSED: usize = 24;

/// Adds the weights of a text to empty levels, piece by piece, until there are sixteen bytes at level 1 or the text ends.
/// Returns whether each of these pieces is accepted.
pub(crate) fn push_beginning<L: Lookup, T: Allocator, A: Allocator>(
    levels: &mut LevelBuffers<A>,
    weighting: Weighting,
    collator: &Collator<L, T>,
    points: &mut PointCache<A>,
    piece: &mut Piece,
    text: &str,
) -> Result<bool, AllocError>
    requires empty { HoldsLevels weighting [] levels.old }
    requires entries { AreTrueEntries (collation_of L.content collator.now) points.old.entries.items }
    ensures entries { AreTrueEntries (collation_of L.content collator.now) points.new.entries.items }
    ensures begun { let c = collation_of L.content collator.now in
        IfOk result (λ accepted. OnTrue accepted (HasBegun c weighting (chars text.now) levels.new)) }
{
    piece.clear();
    for point in text.chars() {
        match piece.go_on(levels, weighting, collator, points, point) {
            Ok(true) => {}
            Ok(false) => return Ok(false),
            Err(error) => return Err(error),
        }
        if levels.has_beginning() {
            return Ok(true);
        }
    }
    piece.end(levels, weighting, collator, points)
}

/// Whether a text has no long run of non-starters. `false` says nothing: more than 64 code points of its Normalization Form D
/// come in a row without one that begins with a starter, and they were only counted.
pub(crate) fn has_short_runs<L: Lookup, T: Allocator, A: Allocator>(
    collator: &Collator<L, T>,
    points: &mut PointCache<A>,
    text: &str,
) -> Result<bool, AllocError>
    requires { AreTrueEntries (collation_of L.content collator.now) points.old.entries.items }
    ensures entries { AreTrueEntries (collation_of L.content collator.now) points.new.entries.items }
    ensures runs { let c = collation_of L.content collator.now in
        IfOk result (λ short. OnTrue short (HasNoLongRun (map c.properties.class (nfd (chars text.now))))) }
{
    match count_runs(collator, points, text, PASSED) {
        Ok(false) => count_runs(collator, points, text, 0),
        counted => counted,
    }
}

// As `has_short_runs`, passing over at most `most` bytes after each starter. They count as the most code points they may be.
fn count_runs<L: Lookup, T: Allocator, A: Allocator>(
    collator: &Collator<L, T>,
    points: &mut PointCache<A>,
    text: &str,
    most: usize,
) -> Result<bool, AllocError>
    requires entries { AreTrueEntries (collation_of L.content collator.now) points.old.entries.items }
    requires few { most ≤ PASSED }
    ensures entries { AreTrueEntries (collation_of L.content collator.now) points.new.entries.items }
    ensures runs { let c = collation_of L.content collator.now in
        IfOk result (λ short. OnTrue short (HasNoLongRun (map c.properties.class (nfd (chars text.now))))) }
{
    let (mut rest, mut count) = pass_over(text, 0, most);
    while let Some((point, more)) = split_first(rest) {
        let counted = points.count_on(collator, count, point)?;
        if counted > LONGEST_RUN {
            return Ok(false);
        }
        (rest, count) = pass_over(more, counted, most);
    }
    Ok(true)
}

// What follows the bytes of a text that are passed over, and the count with them. There are some only where the count is small,
// as it is after a starter.
#[inline]
fn pass_over(text: &str, count: usize, most: usize) -> (&str, usize)
    requires count { count ≤ LONGEST_RUN }
    requires few { most ≤ PASSED }
    ensures count { result.1 ≤ LONGEST_RUN }
    ensures passed { HasPassed text.now result.0.now count result.1 }
{
    if count > LONGEST_DECOMPOSITION {
        return (text, count);
    }
    let (passed, rest) = text.split_at(text.floor_char_boundary(most));
    (rest, count + 2 * passed.len())
}

//! The sort key of a text.

ghost use Rattle.std.specs.Prelude.{◌≡◌, ◌<◌, ◌^◌, length, IfOk};
ghost use Rattle.std.specs.Iterator.{IsFinite};
ghost use Rattle.std.specs.Iterator.Runs.{WholeRun};
ghost use Rattle.uca_elements.specs.Collations.{collation_of};
ghost use Rattle.uca_order.specs.Levels.{key_bytes};
ghost use Rattle.uca_order.specs.Depths.{read_text, key_at};
ghost use Rattle.uca_order.specs.Lengths.{HasShortRows};

use crate::KeyBuffer;
use crate::level_buffers::LevelBuffers;
use std::alloc::{AllocError, Allocator};
use uca_elements::{Collator, Lookup};
use uca_text::Normal;
use uca_weights::{Depth, Element, Weighting};

/// The sort key of a text (UTS #10, section 7.3) in memory of `alloc`: that of its collation elements, by
/// [`key_of`]. At the depth `Identical` two bytes 0 follow, and each code point of the text in Normalization
/// Form D as three bytes, the high byte first.
///
/// # Errors
///
/// An allocation failed.
pub fn key<K: Allocator + Copy, L: Lookup, A: Allocator>(
    alloc: K,
    collator: &Collator<L, A>,
    weighting: Weighting,
    depth: Depth,
    text: &Normal,
) -> Result<Vec<u8, K>, AllocError>
    ensures found { IfOk result (λ key. key.items ≡ key_at depth weighting
        (read_text (collation_of L.content collator.now) text.now)) }
    ensures short { HasShortRows (collation_of L.content collator.now).rows →
        IfOk result (λ key. length key.items < 2 ^ 40) }
{
    let mut buffer = KeyBuffer::new(alloc, weighting, depth);
    buffer.write_text(collator, text)?;
    Ok(buffer.into_bytes())
}

/// The sort key of the elements (UTS #10, section 7.3): the weights of each level that are not 0, in order, and
/// two bytes 0 between two levels. A weight has two bytes, the high byte first. There are three levels, and
/// four under `Shifted`.
///
/// # Errors
///
/// An allocation failed.
pub fn key_of<I: Iterator<Item = Element> + Drop, A: Allocator + Copy>(
    alloc: A,
    weighting: Weighting,
    elements: I,
) -> Result<Vec<u8, A>, AllocError>
    requires can { I.can_next elements }
    requires finite { IsFinite (I.remaining elements) }
    ensures { IfOk result (λ key. WholeRun I.next_gives elements (λ p.
        key.items ≡ key_bytes weighting p.items)) }
{
    let mut levels = LevelBuffers::new(alloc);
    levels.write(weighting, elements)?;
    Ok(levels.into_key())
}

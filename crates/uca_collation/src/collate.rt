//! Keys and comparisons as methods of a collator.

ghost use Rattle.std.specs.Prelude.{◌≡◌, ◌-◌, ◌<◌, ◌^◌, length, min, IfOk};
ghost use Rattle.uca_elements.specs.Collations.{Collation, collation_of, elements_of};
ghost use Rattle.uca_order.specs.Depths.{read_text, key_at, compared_at};
ghost use Rattle.uca_order.specs.Fetched.{fetched_left, fetched_right};
ghost use Rattle.uca_order.specs.Lengths.{HasShortRows};

use std::alloc::{AllocError, Allocator};
use uca_key::Compared;
use uca_match::{Collator, Lookup};
use uca_text::Normal;
use uca_weights::{Depth, Weighting};

/// Sort keys and comparisons of texts, as methods of a [`Collator`]. Bring it into scope by `use
/// uca_collation::Collate`. Numbers compare as any other text here. For numbers by value take an
/// [`OwnedCollator`](crate::OwnedCollator), or a [`KeyWriter`](crate::KeyWriter) and a
/// [`TextComparer`](crate::TextComparer).
pub trait Collate {
    ghost collation: { Self → Collation };

    /// The sort key of `text` (UTS #10, section 7.3) in memory of `alloc`, as [`key`](uca_key::key) makes it. Under a
    /// table, which has rows of at most 32 elements, it has less than 2^40 bytes.
    ///
    /// # Errors
    ///
    /// An allocation that fails.
    fn key<K: Allocator + Copy>(
        &self,
        alloc: K,
        weighting: Weighting,
        depth: Depth,
        text: &Normal,
    ) -> Result<Vec<u8, K>, AllocError>
        ensures found { IfOk result (λ key. key.items ≡ key_at depth weighting
            (read_text (collation self.now) text.now)) }
        ensures short { HasShortRows (collation self.now).rows →
            IfOk result (λ key. length key.items < 2 ^ 40) };

    /// How two texts compare (UTS #10, section 1.1), as [`compare`](uca_key::compare) says. The result has their order,
    /// the level at which they differ, and how many elements of each text the comparison of level 1 fetches. It makes
    /// no key and takes no memory.
    fn compare(&self, weighting: Weighting, depth: Depth, left: &Normal, right: &Normal) -> Compared
        ensures compared { let answer = compared_at depth weighting
            (read_text (collation self.now) left.now) (read_text (collation self.now) right.now) in
            (result.order ≡ answer.order) × (result.level ≡ answer.level) }
        ensures fetched { let left_elements = elements_of (collation self.now) left.now in
            let right_elements = elements_of (collation self.now) right.now in
            (result.fetched_left ≡ min (2 ^ 64 - 1) (fetched_left weighting left_elements right_elements))
            × (result.fetched_right ≡ min (2 ^ 64 - 1) (fetched_right weighting left_elements right_elements)) };
}

impl<'a, L: Lookup, A: Allocator> Collate for Collator<'a, L, A> {
    ghost collation = { λ c. collation_of L.content c };

    fn key<K: Allocator + Copy>(
        &self,
        alloc: K,
        weighting: Weighting,
        depth: Depth,
        text: &Normal,
    ) -> Result<Vec<u8, K>, AllocError> {
        uca_key::key(alloc, self, weighting, depth, text)
    }

    fn compare(
        &self,
        weighting: Weighting,
        depth: Depth,
        left: &Normal,
        right: &Normal,
    ) -> Compared {
        uca_key::compare(self, weighting, depth, left, right)
    }
}

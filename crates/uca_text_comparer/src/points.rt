//! `PointLists`: compares two texts by their code points.

ghost use Rattle.std.specs.Prelude.{◌≡◌, chars, IfOk};
ghost use Rattle.unicode_normalization.specs.Forms.{nfd};
ghost use Rattle.uca_comparison.specs.inside.Comparisons.{compared_points};

use std::alloc::{AllocError, Global};
use std::cmp::Ordering;
use uca_comparison::level_count;
use uca_text::decompose;
use uca_weights::{Depth, Weighting};

/// Memory for the code points of two texts.
#[derive(Drop)]
pub(crate) struct PointLists {
    left: Vec<char>,
    right: Vec<char>,
    // lends its memory to both
    spare: Vec<char>,
}

impl PointLists {
    /// No code points. It takes no memory.
    pub(crate) fn new(global: Global) -> PointLists {
        PointLists {
            left: Vec::new(global),
            right: Vec::new(global),
            spare: Vec::new(global),
        }
    }

    /// How two texts compare by their code points in Normalization Form D: their order, and the level after all levels
    /// of the weighting, or 0.
    ///
    /// # Errors
    ///
    /// An allocation failed.
    pub(crate) fn compare(
        &mut self,
        weighting: Weighting,
        left: &str,
        right: &str,
    ) -> Result<(Ordering, u8), AllocError>
        ensures { let answer = compared_points weighting (nfd (chars left.now)) (nfd (chars right.now)) in
            IfOk result (λ found. (found.0 ≡ answer.order) × (found.1 ≡ answer.level)) }
    {
        decompose(&mut self.left, &mut self.spare, left)?;
        decompose(&mut self.right, &mut self.spare, right)?;
        Ok(compare_points(weighting, &self.left, &self.right))
    }
}

// How two texts compare by these code points, which come after all levels of the weighting.
fn compare_points(weighting: Weighting, left: &[char], right: &[char]) -> (Ordering, u8)
    ensures { let answer = compared_points weighting left.now right.now in
        (result.0 ≡ answer.order) × (result.1 ≡ answer.level) }
{
    match left.cmp(right) {
        Ordering::Equal => (Ordering::Equal, 0),
        order => (order, level_count(weighting, Depth::Identical)),
    }
}

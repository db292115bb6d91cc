//! How a text compares with itself.

ghost use Rattle.uca_elements.specs.Collations.{collation_of, elements_of};
ghost use Rattle.uca_comparison.specs.inside.Comparisons.{ComparesLevels};

use std::alloc::Allocator;
use std::cmp::Ordering;
use uca_comparison::stored::level_count;
use uca_comparison::walk::Walked;
use uca_elements::{Collator, Lookup};
use uca_text::Normal;
use uca_weights::{Depth, Weighting};

/// How a text compares with itself: no level differs, and all elements are fetched.
pub(crate) fn compare_itself<L: Lookup, A: Allocator>(
    collator: &Collator<L, A>,
    weighting: Weighting,
    text: &Normal,
) -> Walked
    ensures { let es = elements_of (collation_of L.content collator.now) text.now in ComparesLevels weighting es es result }
{
    let mut count = 0_u64;
    for _element in collator.elements(text) {
        count = count.saturating_add(1);
    }
    Walked {
        order: Ordering::Equal,
        level: 0,
        last: level_count(weighting, Depth::Weights),
        fetched_left: count,
        fetched_right: count,
    }
}

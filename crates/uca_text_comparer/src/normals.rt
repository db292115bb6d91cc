//! `Normals`: compares two texts that are normalized first.

ghost use Rattle.std.specs.Prelude.{◌≡◌, chars, IfOk, IfErr};
ghost use Rattle.uca_weights.specs.declared.Numbers.TheVariants.{AsText};
ghost use Rattle.uca_elements.specs.Collations.{collation_of};
ghost use Rattle.uca_text_comparer.specs.inside.Pairs.{ComparesPair, IsPairStop};

use crate::decided::compared_of;
use crate::faults::PairFault;
use crate::itself::compare_itself;
use std::alloc::{Allocator, Global};
use uca_comparison::{Compared, compare};
use uca_elements::{Collator, Lookup};
use uca_text::Normal;
use uca_weights::{Depth, Weighting};

/// Memory for two texts in Normalization Form D.
#[derive(Drop)]
pub(crate) struct Normals {
    left: Normal,
    right: Normal,
}

impl Normals {
    /// No texts. It takes no memory.
    pub(crate) fn new(global: Global) -> Normals {
        Normals {
            left: Normal::new(global),
            right: Normal::new(global),
        }
    }

    /// How two texts compare as they are, each normalized in the memory of one that was before.
    ///
    /// # Errors
    ///
    /// `Left` if the left text is rejected, or else `Right` if the right one is.
    pub(crate) fn compare<L: Lookup, T: Allocator>(
        &mut self,
        collator: &Collator<L, T>,
        weighting: Weighting,
        depth: Depth,
        left: &str,
        right: &str,
    ) -> Result<Compared, PairFault>
        ensures compared { let c = collation_of L.content collator.now in
            IfOk result (ComparesPair c AsText weighting depth (chars left.now) (chars right.now)) }
        ensures fault { let c = collation_of L.content collator.now in
            IfErr result (IsPairStop c AsText (chars left.now) (chars right.now)) }
    {
        if let Err(fault) = self.left.renew(left, collator.data) {
            return Err(PairFault::Left(fault));
        }
        if left == right {
            let walked = compare_itself(collator, weighting, &self.left);
            return Ok(compared_of(&walked));
        }
        if let Err(fault) = self.right.renew(right, collator.data) {
            return Err(PairFault::Right(fault));
        }
        Ok(compare(collator, weighting, depth, &self.left, &self.right))
    }
}

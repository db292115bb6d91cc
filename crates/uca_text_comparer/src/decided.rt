//! When a walk over two texts decides how they compare, and the result of such a walk.

ghost use Rattle.std.specs.Prelude.{◌≡◌};
ghost use Rattle.std.specs.Bool.{MatchBool};
ghost use Rattle.std.specs.declared.cmp.Ordering.TheVariants.{Equal};
ghost use Rattle.uca_weights.specs.declared.Depth.TheVariants.{Identical};
ghost use Rattle.uca_comparison.specs.inside.Comparisons.{NothingElseDecides};

use std::cmp::Ordering;
use uca_comparison::comparison::Compared;
use uca_comparison::walk::Walked;
use uca_weights::Depth;

/// How two texts compare, after a walk over both.
pub(crate) fn compared_of(walked: &Walked) -> Compared
    ensures order { result.order ≡ walked.now.order }
    ensures level { result.level ≡ walked.now.level }
    ensures fetched_left { result.fetched_left ≡ walked.now.fetched_left }
    ensures fetched_right { result.fetched_right ≡ walked.now.fetched_right }
{
    Compared {
        order: walked.order,
        level: walked.level,
        fetched_left: walked.fetched_left,
        fetched_right: walked.fetched_right,
    }
}

/// Whether nothing else decides after this order at the levels of the weights.
pub(crate) fn is_decided(order: Ordering, depth: Depth, left: &str, right: &str) -> bool
    ensures { MatchBool result (NothingElseDecides order depth left.now right.now)
        ((order ≡ Equal) × (depth ≡ Identical)) }
{
    match order {
        Ordering::Less | Ordering::Greater => true,
        Ordering::Equal => match depth {
            Depth::Weights => true,
            Depth::Identical => left == right,
        },
    }
}

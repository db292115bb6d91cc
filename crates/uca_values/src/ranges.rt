//! Looking for a code point in ranges that rise.

ghost use Rattle.std.specs.Prelude.{◌≡◌, ◌<◌, ◌≤◌, length};
ghost use Rattle.std.specs.List.Sorted.{IsPartitionPoint};
ghost use Rattle.uca_values.specs.Ranges.{is_within, AreRising};

use crate::CodePointRange;

/// Whether one of the ranges has the code point. The ranges are in rising order.
pub fn is_held(ranges: &[CodePointRange], point: char) -> bool
    requires { AreRising ranges.now }
    ensures { result ≡ is_within ranges.now point }
{
    // Most text lies below the first range.
    if ranges.is_empty() || point < ranges[0].first {
        return false;
    }
    let at = range_place(ranges, point);
    at < ranges.len() && ranges[at].first <= point
}

/// The position of the first range that ends at the code point or above it.
pub(crate) fn range_place(ranges: &[CodePointRange], point: char) -> usize
    requires { AreRising ranges.now }
    ensures bound { result ≤ length ranges.now }
    ensures place { IsPartitionPoint (λ r. r.last < point) (λ r. point ≤ r.last) ranges.now result }
{
    ranges.partition_point(|range| range.last < point)
}

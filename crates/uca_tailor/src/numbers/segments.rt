//! The numbers of the members of a list within a segment.

ghost use Rattle.std.specs.Prelude.{◌≡◌, ◌+◌, ◌<◌, ◌≤◌, IfOk, max};
ghost use Rattle.uca_plans.specs.Numbering.{HasPlaces, numbers_of};
ghost use Rattle.uca_plans.specs.inside.OnePass as one_pass;

use std::alloc::{AllocError, Allocator};
use uca_plans::{DraftWeight, Segment};

/// The numbers of members that have positions in a segment, in their order. Each is as far up as its base weight and
/// those before it need, or as much lower as those after it need.
pub(crate) fn numbers<A: Allocator>(
    alloc: A,
    segment: Segment,
    members: &[DraftWeight],
) -> Result<Vec<u16, A>, AllocError>
    requires { HasPlaces segment members.now }
    ensures { IfOk result (λ numbers. numbers.items ≡ numbers_of segment members.now) }
{
    let mut numbers = Vec::new(alloc);
    let mut number = usize::from(segment.below);
    let mut left = members.len();
    for member in members {
        left -= 1;
        number = one_further(*member, number);
        let highest = usize::from(segment.top) - left;
        numbers.push(number.min(highest) as u16)?;
    }
    Ok(numbers)
}

/// One position further up, or at the weight of a base member where that is higher.
fn one_further(member: DraftWeight, number: usize) -> usize
    requires { number < 0x10_0000 }
    ensures number { result ≡ one_pass.one_further member number }
    ensures bound { result ≤ max 0xFFFF (number + 1) }
{
    match member {
        DraftWeight::Base(weight) => usize::from(weight).max(number + 1),
        DraftWeight::New(_) => number + 1,
    }
}

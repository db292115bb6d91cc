//! Plain levels: what a level is compared to.

ghost use Rattle.std.specs.Prelude.{◌≡◌, ℕ, ◌+◌, ◌-◌, ◌^◌, ◌<◌, ◌≤◌, ◌&&◌, not, length, if◌then◌else◌};
ghost use Rattle.uca_order.specs.Levels.{lexicographic};
ghost use Rattle.uca_compact.specs.PlainLevels as plain_levels;
ghost use Rattle.uca_compact.specs.PlainLevels.{copies, is_lead};

use std::cmp::Ordering;

/// Whether a weight is the first of the two of an implicit element, by whether it comes after such a one.
#[inline]
pub(crate) fn leads(after_lead: bool, weight: u16) -> bool
    ensures { result ≡ (not after_lead && is_lead weight) }
{
    !after_lead && 0xFB00 <= weight && weight < 0xFC00
}

/// A count with one weight more, which does not count after a lead.
#[inline]
pub(crate) fn with_letter(count: usize, after_lead: bool) -> usize
    requires { count < 2 ^ 64 - 1 }
    ensures { result ≡ count + (if after_lead then 0 else 1) }
{
    if after_lead { count } else { count + 1 }
}

// How many weights of level 1 mostly have a weight at level 2.
pub(crate) fn letter_count(weights: &[u16]) -> usize
    ensures count { result ≡ plain_levels.letter_count weights.now }
    ensures few { result ≤ length weights.now }
{
    let mut count = 0;
    let mut after_lead = false;
    for weight in weights {
        count = with_letter(count, after_lead);
        after_lead = leads(after_lead, *weight);
    }
    count
}

// How a level compares to so many times one weight.
pub(crate) fn compare_run(level: &[u16], weight: u16, count: usize) -> Ordering
    ensures { result ≡ lexicographic level.now (copies weight count) }
{
    let mut left = count;
    for found in level {
        if left == 0 {
            return Ordering::Greater;
        }
        if *found != weight {
            return found.cmp(&weight);
        }
        left -= 1;
    }
    if left == 0 {
        Ordering::Equal
    } else {
        Ordering::Less
    }
}

//! The order of two short texts by an open collator, where their first bytes that differ tell it.

ghost use Rattle.std.specs.Prelude.{◌≡◌, true, IfSome};
ghost use Rattle.uca_order.specs.Keyings.{bytes_compared};
ghost use Rattle.uca_owned.specs.Causes.{IsAcceptedBy};
ghost use Rattle.uca_c.specs.OpenCollators.{keying_at};
ghost use Rattle.uca_c.specs.Slots.{collator_in};

use crate::slot::Slot;
use crate::work;
use std::cmp::Ordering;

/// The order of two texts of at most 32 bytes. There is no result for others, and where it is not told at once.
#[inline(always)]
pub(crate) fn order_at_once(collator: &mut Slot, left: &[u8], right: &[u8]) -> Option<Ordering>
    requires { collator.old.full ≡ true }
    ensures compared { IfSome result (λ order.
        let answer = bytes_compared (keying_at (collator_in collator.old)) left.now right.now in (order ≡ answer.order) × (1 ≡ answer.level)) }
    ensures accepted { let k = keying_at (collator_in collator.old) in
        IfSome result (λ _. IsAcceptedBy k left.now × IsAcceptedBy k right.now) }
    ensures open { collator.new.full ≡ true }
    ensures same { collator_in collator.new ≡ collator_in collator.old }
{
    work::order_at_once(collator.opened(), left, right)
}

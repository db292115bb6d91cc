//! What is true of the order of all byte strings.

ghost use Rattle.uca_owned.specs.Orders.{OrdersAreTotal};

use uca_order::laws::stored_keys_compare_as_texts;

/// The order of [`OwnedCollator::order`](crate::OwnedCollator::order) is a total one, in which some byte strings are
/// equal. So it can sort any byte strings, and keep them in an index. The function does nothing: its contract is the
/// law.
pub fn orders_are_total()
    ensures { OrdersAreTotal }
{
    stored_keys_compare_as_texts();
}

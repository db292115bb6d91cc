//! The weights of one element, for elements that are read one at a time (UTS #10, section 4).

ghost use Rattle.std.specs.Prelude.{◌≡◌};
ghost use Rattle.uca_order.specs.Levels;
ghost use Rattle.uca_order.specs.StreamedWeights;
ghost use Rattle.uca_order.specs.StreamedWeights.{at_four_levels};

use uca_weights::{Element, Weighting};

/// The fourth weight of an element that is neither variable nor ignored (UTS #10, section 4).
const GREATEST_WEIGHT: u16 = 0xFFFF;

/// The weights of an element at the levels 1 to 4, where 0 means that it has none at a level (UTS #10,
/// section 4). `after_variable` says whether the nearest earlier element with a primary weight is variable.
pub fn weights_of(weighting: Weighting, after_variable: bool, element: Element) -> [u16; 4]
    ensures { result ≡ at_four_levels (Levels.weights_of weighting after_variable element) }
{
    let Element {
        primary,
        secondary,
        tertiary,
        mark,
    } = element;
    match weighting {
        Weighting::NonIgnorable => [primary, secondary, tertiary, 0],
        Weighting::Shifted if mark => [0, 0, 0, primary],
        Weighting::Shifted if primary == 0 && after_variable => [0, 0, 0, 0],
        Weighting::Shifted if primary == 0 && secondary == 0 && tertiary == 0 => [0, 0, 0, 0],
        Weighting::Shifted => [primary, secondary, tertiary, GREATEST_WEIGHT],
    }
}

/// Whether the nearest element with a primary weight is variable, up to and with this element.
/// `after_variable` says the same for the elements before this one; it is false before the first element.
pub fn is_after_variable(after_variable: bool, element: Element) -> bool
    ensures { result ≡ StreamedWeights.is_after_variable after_variable element }
{
    if element.primary == 0 {
        after_variable
    } else {
        element.mark
    }
}

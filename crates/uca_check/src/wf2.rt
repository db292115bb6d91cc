//! WF2: the weights of secondary and tertiary elements against those of the elements above them.

ghost use Rattle.std.specs.Prelude.{◌↔◌, ◌++◌, ◌∷◌, [], List, IsTrue};
ghost use Rattle.std.specs.List.{AllByRecursion};
ghost use Rattle.uca_weights.specs.declared.Element.{Element};
ghost use Rattle.uca_check.specs.WellFormed.{elements_of, MeetsWF2};
ghost use Rattle.uca_check.specs.Searches.{FindsFirstWithout, AreGreatestWeights, IsAllowed};

use std::alloc::Allocator;
use uca_values::Row;
use uca_weights::Element;

/// The weights that the first weights of secondary and tertiary elements must exceed.
#[derive(Clone, Copy)]
struct GreatestWeights {
    /// The greatest secondary weight of primary elements, or 0020 if that is greater.
    secondary: u16,
    /// The greatest tertiary weight of primary and secondary elements, or 0002 if that is greater.
    tertiary: u16,
}

impl GreatestWeights {
    /// With one more element.
    fn with(self, element: Element) -> GreatestWeights
        ensures { (all : List Element) → AreGreatestWeights all self → AreGreatestWeights (all ++ element ∷ []) result }
    {
        if element.primary != 0 {
            return GreatestWeights {
                secondary: self.secondary.max(element.secondary),
                tertiary: self.tertiary.max(element.tertiary),
            };
        }
        if element.secondary != 0 {
            return GreatestWeights {
                secondary: self.secondary,
                tertiary: self.tertiary.max(element.tertiary),
            };
        }
        self
    }

    /// Whether the first weight of the element is greater, if it is secondary or tertiary.
    fn allows(self, element: Element) -> bool
        ensures { IsTrue result ↔ IsAllowed self element }
    {
        if element.primary != 0 {
            return true;
        }
        if element.secondary != 0 {
            return self.secondary < element.secondary;
        }
        element.tertiary == 0 || self.tertiary < element.tertiary
    }
}

/// The greatest weights of all elements of a table. Implicit pairs change nothing: their first elements have the
/// weights 0020 and 0002, and their second ones have no such weights.
fn greatest_weights<A: Allocator>(rows: &[Row<A>]) -> GreatestWeights
    ensures { AreGreatestWeights (elements_of rows.now) result }
{
    let mut greatest = GreatestWeights {
        secondary: 0x20,
        tertiary: 2,
    };
    for row in rows {
        for element in &row.elements {
            greatest = greatest.with(*element);
        }
    }
    greatest
}

/// Whether all elements of the row are allowed.
fn are_allowed<A: Allocator>(row: &Row<A>, greatest: GreatestWeights) -> bool
    ensures { IsTrue result ↔ AllByRecursion (IsAllowed greatest) row.now.elements }
{
    for element in &row.elements {
        if !greatest.allows(*element) {
            return false;
        }
    }
    true
}

/// The index of the first row that fails WF2.
pub(crate) fn first_failing<A: Allocator>(rows: &[Row<A>]) -> Option<usize>
    ensures { FindsFirstWithout (MeetsWF2 rows.now) rows.now result }
{
    let greatest = greatest_weights(rows);
    rows.iter().position(|row| !are_allowed(row, greatest))
}

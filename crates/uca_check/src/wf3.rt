//! WF3: variable elements have a primary.

ghost use Rattle.std.specs.Prelude.{◌↔◌, ◌≢◌, IsTrue};
ghost use Rattle.uca_check.specs.WellFormed.{IsVariable, MeetsWF3};
ghost use Rattle.uca_check.specs.Searches.{FindsFirstWithout};

use std::alloc::Allocator;
use uca_values::Row;
use uca_weights::Element;

/// The index of the first row that fails WF3.
pub(crate) fn first_failing<A: Allocator>(rows: &[Row<A>]) -> Option<usize>
    ensures { FindsFirstWithout MeetsWF3 rows.now result }
{
    rows.iter().position(|row| !has_primaries(row))
}

/// Whether each variable element of the row has a primary.
fn has_primaries<A: Allocator>(row: &Row<A>) -> bool
    ensures { IsTrue result ↔ MeetsWF3 row.now }
{
    for element in &row.elements {
        if !has_primary(*element) {
            return false;
        }
    }
    true
}

/// Whether the element has a primary, if it is variable.
fn has_primary(element: Element) -> bool
    ensures { IsTrue result ↔ (IsVariable element → element.primary ≢ 0) }
{
    !element.mark || element.primary != 0
}

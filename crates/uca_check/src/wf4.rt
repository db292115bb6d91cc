//! WF4: the primaries from the least to the greatest of variable elements.

ghost use Rattle.std.specs.Prelude.{◌↔◌, ◌⊎◌, ◌<◌, ◌++◌, ◌∷◌, [], List, IsTrue, Some};
ghost use Rattle.std.specs.List.{AllByRecursion};
ghost use Rattle.uca_weights.specs.declared.Element.{Element};
ghost use Rattle.uca_check.specs.WellFormed.{elements_of, MeetsWF4, IsVariable};
ghost use Rattle.uca_check.specs.Searches.{FindsFirstWithout, IsVariableRange, IsVariableRangeIfAny, StandsApart};

use std::alloc::Allocator;
use uca_values::Row;
use uca_weights::Element;

/// From the least to the greatest primary of variable elements.
#[derive(Clone, Copy)]
struct VariableRange {
    /// The least of them.
    least: u16,
    /// The greatest of them.
    greatest: u16,
}

impl VariableRange {
    /// With one more variable element.
    fn with(self, element: Element) -> VariableRange
        requires { IsVariable element }
        ensures { (all : List Element) → IsVariableRange all self → IsVariableRange (all ++ element ∷ []) result }
    {
        VariableRange {
            least: self.least.min(element.primary),
            greatest: self.greatest.max(element.primary),
        }
    }

    fn excludes(self, primary: u16) -> bool
        ensures { IsTrue result ↔ ((primary < self.least) ⊎ (self.greatest < primary)) }
    {
        primary < self.least || self.greatest < primary
    }
}

/// The range with one more element.
fn wider(range: Option<VariableRange>, element: Element) -> Option<VariableRange>
    ensures { (all : List Element) → IsVariableRangeIfAny all range → IsVariableRangeIfAny (all ++ element ∷ []) result }
{
    if !element.mark {
        return range;
    }
    let Some(range) = range else {
        return Some(VariableRange {
            least: element.primary,
            greatest: element.primary,
        });
    };
    Some(range.with(element))
}

/// Whether the element is variable, or its primary is outside the range.
fn stands_apart(range: Option<VariableRange>, element: Element) -> bool
    ensures { IsTrue result ↔ StandsApart range element }
{
    if element.mark {
        return true;
    }
    match range {
        None => true,
        Some(range) => range.excludes(element.primary),
    }
}

/// Whether this is true of all elements of the row.
fn all_stand_apart<A: Allocator>(row: &Row<A>, range: Option<VariableRange>) -> bool
    ensures { IsTrue result ↔ AllByRecursion (StandsApart range) row.now.elements }
{
    for element in &row.elements {
        if !stands_apart(range, *element) {
            return false;
        }
    }
    true
}

/// The range of the variable elements of a table, if it has any.
fn variable_range<A: Allocator>(rows: &[Row<A>]) -> Option<VariableRange>
    ensures { IsVariableRangeIfAny (elements_of rows.now) result }
{
    let mut range = None;
    for row in rows {
        for element in &row.elements {
            range = wider(range, *element);
        }
    }
    range
}

/// The index of the first row that fails WF4.
pub(crate) fn first_failing<A: Allocator>(rows: &[Row<A>]) -> Option<usize>
    ensures { FindsFirstWithout (MeetsWF4 rows.now) rows.now result }
{
    let range = variable_range(rows);
    rows.iter().position(|row| !all_stand_apart(row, range))
}

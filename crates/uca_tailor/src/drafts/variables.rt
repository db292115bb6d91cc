//! The primaries of the base's variable elements.

ghost use Rattle.std.specs.Prelude.{◌≡◌, ◌&&◌, List, [], ◌∷◌, ◌++◌};
ghost use Rattle.std.specs.List.{list_any};
ghost use Rattle.uca_weights.specs.declared.Element.{Element as ElementType};
ghost use Rattle.uca_check.specs.WellFormed.{elements_of};
ghost use Rattle.uca_tailor.specs.inside.Variables.{AreBounds, is_within};

use std::alloc::Allocator;
use uca_plans::{DraftElement, DraftWeight};
use uca_values::Row;
use uca_weights::Element;

/// From the least to the greatest primary of some variable elements.
#[derive(Clone, Copy)]
pub(crate) struct VariableSpan {
    least: u16,
    greatest: u16,
}

/// The span of the variable elements of some rows, if there are any.
pub(crate) fn variable_span<T: Allocator>(rows: &[Row<T>]) -> Option<VariableSpan>
    ensures { AreBounds result (elements_of rows.now) }
{
    let mut span = None;
    for row in rows {
        for element in &row.elements {
            span = widened(span, *element);
        }
    }
    span
}

/// The span with one more element.
fn widened(span: Option<VariableSpan>, element: Element) -> Option<VariableSpan>
    ensures { (es : List ElementType) → AreBounds span es → AreBounds result (es ++ element ∷ []) }
{
    if !element.mark {
        return span;
    }
    let primary = element.primary;
    Some(match span {
        Some(span) => VariableSpan {
            least: span.least.min(primary),
            greatest: span.greatest.max(primary),
        },
        None => VariableSpan {
            least: primary,
            greatest: primary,
        },
    })
}

/// Whether one of the elements was given by implicit weights and is among the variable ones.
pub(crate) fn holds_implicit_variable(span: Option<VariableSpan>, elements: &[DraftElement]) -> bool
    ensures { result ≡ list_any (λ e. e.implicit && is_within span e.primary) elements.now }
{
    for element in elements {
        if element.implicit && is_within(span, element.primary) {
            return true;
        }
    }
    false
}

/// Whether a weight of the base is from the least to the greatest primary.
fn is_within(span: Option<VariableSpan>, weight: DraftWeight) -> bool
    ensures { result ≡ is_within span weight }
{
    match (span, weight) {
        (Some(span), DraftWeight::Base(weight)) => span.least <= weight && weight <= span.greatest,
        _ => false,
    }
}

//! Reads the elements of a row, such as `[.1C47.0020.0002]`.

ghost use Rattle.std.specs.Prelude.{◌≡◌, ◌⊎◌, IfOk, IfErr};
ghost use Rattle.std.specs.Option.{option_map};
ghost use Rattle.uca_table.specs.Elements.{AreElements, ElementsCause};
ghost use Rattle.uca_table.specs.Elements as Spelling;
ghost use Rattle.uca_table.specs.inside.ElementSteps;

use std::alloc::Allocator;
use uca_lines::fields::{skip_blanks, weight};
use uca_values::FaultKind;
use uca_values::limits::MOST_ELEMENTS;
use uca_weights::Element;

/// The elements that a text spells, with or without blanks around them. They are put into `elements`, in place of what it
/// has.
///
/// # Errors
///
/// At the first text that is not an element: `Line` if it does not begin as an element does, `Weight` if
/// it does not go on like one. `Limit` at the thirty-third element, `Line` if there is no element, `Memory` if an
/// allocation failed.
pub fn read_elements<A: Allocator>(
    mut elements: Vec<Element, A>,
    text: &[u8],
) -> Result<Vec<Element, A>, FaultKind>
    ensures found { IfOk result (λ elements. AreElements text.now elements.items) }
    ensures fault { IfErr result (λ kind. (kind ≡ FaultKind.Memory) ⊎ ElementsCause text.now kind) }
{
    elements.clear();
    let mut rest = skip_blanks(text);
    while !rest.is_empty() {
        if !opens(rest) {
            return Err(FaultKind::Line);
        }
        let Some(found) = element(rest) else {
            return Err(FaultKind::Weight);
        };
        if elements.len() == MOST_ELEMENTS {
            return Err(FaultKind::Limit);
        }
        elements.push(found.0)?;
        rest = skip_blanks(found.1);
    }
    if elements.is_empty() {
        return Err(FaultKind::Line);
    }
    Ok(elements)
}

fn opens(text: &[u8]) -> bool
    ensures { result ≡ Spelling.opens text.now }
{
    match text {
        [b'[', mark, ..] => *mark == b'.' || *mark == b'*',
        _ => false,
    }
}

// The element at the front of the text, and what follows it.
#[tactic(auto, unfolding(crate::specs::inside::ElementSteps::element_at))]
fn element(text: &[u8]) -> Option<(Element, &[u8])>
    ensures { option_map (λ found. (found.0, found.1.now)) result ≡ ElementSteps.element_at text.now }
{
    let text = after_byte(text, b'[')?;
    let (mark, text) = mark(text)?;
    let (primary, text) = leading_weight(text)?;
    let (secondary, text) = dotted_weight(text)?;
    let (tertiary, text) = dotted_weight(text)?;
    let text = after_byte(text, b']')?;
    let element = Element {
        primary,
        secondary,
        tertiary,
        mark,
    };
    Some((element, text))
}

#[tactic(auto, unfolding(crate::specs::inside::ElementSteps::after_byte))]
fn after_byte(text: &[u8], byte: u8) -> Option<&[u8]>
    ensures { option_map (λ rest. rest.now) result ≡ ElementSteps.after_byte byte text.now }
{
    match text {
        [first, rest @ ..] if *first == byte => Some(rest),
        _ => None,
    }
}

#[tactic(auto, unfolding(crate::specs::inside::ElementSteps::mark_at))]
fn mark(text: &[u8]) -> Option<(bool, &[u8])>
    ensures { option_map (λ found. (found.0, found.1.now)) result ≡ ElementSteps.mark_at text.now }
{
    match text {
        [b'.', rest @ ..] => Some((false, rest)),
        [b'*', rest @ ..] => Some((true, rest)),
        _ => None,
    }
}

// The weight after a dot, and what follows it.
#[tactic(auto, unfolding(crate::specs::inside::ElementSteps::dotted_weight_at))]
fn dotted_weight(text: &[u8]) -> Option<(u16, &[u8])>
    ensures { option_map (λ found. (found.0, found.1.now)) result ≡ ElementSteps.dotted_weight_at text.now }
{
    leading_weight(after_byte(text, b'.')?)
}

#[tactic(auto, unfolding(crate::specs::inside::ElementSteps::weight_at))]
fn leading_weight(text: &[u8]) -> Option<(u16, &[u8])>
    ensures { option_map (λ found. (found.0, found.1.now)) result ≡ ElementSteps.weight_at text.now }
{
    if text.len() < 4 {
        return None;
    }
    let (digits, rest) = text.split_at(4);
    let weight = weight(digits)?;
    Some((weight, rest))
}

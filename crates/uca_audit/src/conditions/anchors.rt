//! Condition 8: each anchor has an element that a new weight can be put on.

ghost use Rattle.std.specs.Prelude.{◌≡◌, ◌↔◌, IsTrue, MatchOption};
ghost use Rattle.std.specs.List.{AllByRecursion};
ghost use Rattle.uca_weights.specs.Kinds.{IsContinuation};
ghost use Rattle.uca_weights.specs.Levels as weights;
ghost use Rattle.uca_elements.specs.Collations.{collation_of};
ghost use Rattle.uca_tailorings.specs.Laws.{ReadsAs};
ghost use Rattle.uca_tailorings.specs.Placing.{IsIgnorableTo, IsLow};
ghost use Rattle.uca_tailorings.specs.Tailorings.{tailored_reading};
ghost use Rattle.uca_audit.specs.inside.Anchors.{EndsAt, IsAnchorAt, HasNoAnchor};
ghost use Rattle.uca_audit.specs.inside.Chaining.{Settles};
ghost use Rattle.uca_audit.specs.inside.Views.{tailoring_in};

use crate::conditions::at_relation;
use crate::inputs::Inputs;
use crate::readings::read_elements;
use crate::{AuditFault, Condition};
use std::alloc::Allocator;
use uca_elements::{Collator, Lookup};
use uca_match::Trie;
use uca_weights::{Element, Level, Strength};

/// The first primary of implicit weights (UTS #10, section 10.1.3); new primaries are below it.
const FIRST_IMPLICIT: u16 = 0x8000;

/// Condition 8. The error is at the first relation whose anchor has no element that a new weight can be put on. Relations of identical
/// strength put none.
pub(crate) fn anchors_are_there<A: Allocator + Copy, T: Allocator>(
    alloc: A,
    inputs: &Inputs<T>,
    collator: &Collator<Trie<A>, T>,
) -> Result<(), AuditFault>
    requires { ReadsAs (collation_of ⟦<Trie<A> as Lookup>⟧.content collator.now) (tailored_reading (tailoring_in inputs.now)) }
    ensures { Settles (tailoring_in inputs.now) Condition.Anchor result }
{
    let mut elements = Vec::new(alloc);
    for (at, relation) in inputs.rules.relations().iter().enumerate() {
        let Some(level) = level_of(relation.strength) else {
            continue;
        };
        read_elements(&mut elements, collator, &relation.anchor)?;
        if anchor_place(level, &elements).is_none() {
            return Err(at_relation(inputs, Condition::Anchor, at));
        }
    }
    Ok(())
}

/// The level at which texts of a strength differ, if there is one.
pub(crate) fn level_of(strength: Strength) -> Option<Level>
    ensures { result ≡ weights.level_of strength }
{
    match strength {
        Strength::Primary => Some(Level::One),
        Strength::Secondary => Some(Level::Two),
        Strength::Tertiary => Some(Level::Three),
        Strength::Identical => None,
    }
}

/// The weight of an element at a level.
pub(crate) fn weight(level: Level, element: Element) -> u16
    ensures { result ≡ weights.weight level element }
{
    match level {
        Level::One => element.primary,
        Level::Two => element.secondary,
        Level::Three => element.tertiary,
    }
}

/// The position of the element that a new weight at the level is put on, if there is one.
pub(crate) fn anchor_place(level: Level, elements: &[Element]) -> Option<usize>
    ensures { MatchOption result (HasNoAnchor level elements.now) (IsAnchorAt level elements.now) }
{
    let at = last_not_ignorable(level, elements)?;
    if takes_weight(level, elements[at]) {
        Some(at)
    } else {
        None
    }
}

/// The position of the last element that is not ignorable to the level: it has a weight at one of the levels from 1 to it.
fn last_not_ignorable(level: Level, elements: &[Element]) -> Option<usize>
    ensures { MatchOption result (AllByRecursion (IsIgnorableTo level) elements.now) (EndsAt level elements.now) }
{
    for at in (0..elements.len()).rev() {
        if !is_ignorable_to(level, elements[at]) {
            return Some(at);
        }
    }
    None
}

/// Whether an element is ignorable to the level: it has no weight at the levels from 1 to it.
fn is_ignorable_to(level: Level, element: Element) -> bool
    ensures { IsTrue result ↔ IsIgnorableTo level element }
{
    match level {
        Level::One => element.primary == 0,
        Level::Two => element.primary == 0 && element.secondary == 0,
        Level::Three => element.primary == 0 && element.secondary == 0 && element.tertiary == 0,
    }
}

/// Whether a new weight at the level can be put on an element that is not ignorable to it. The element is not a
/// continuation. If its primary is to change, it is below those of implicit weights.
fn takes_weight(level: Level, element: Element) -> bool
    ensures { IsTrue result ↔ (¬ (IsContinuation element) × IsLow level (weights.weight level element)) }
{
    if is_continuation(element) {
        return false;
    }
    match level {
        Level::One => element.primary < FIRST_IMPLICIT,
        Level::Two | Level::Three => true,
    }
}

/// Whether an element has a weight only at level 1.
fn is_continuation(element: Element) -> bool
    ensures { IsTrue result ↔ IsContinuation element }
{
    element.primary != 0 && element.secondary == 0 && element.tertiary == 0
}

//! Condition 9: the elements that relations give their targets.

ghost use Rattle.std.specs.Prelude.{◌≡◌, ◌↔◌, ◌++◌, [], ℕ, IsTrue, IfNone, IfOk, MatchOption};
ghost use Rattle.std.specs.List.{AllZip};
ghost use Rattle.uca_elements.specs.Collations.{collation_of};
ghost use Rattle.uca_tailorings.specs.Laws.{ReadsAs};
ghost use Rattle.uca_tailorings.specs.Placing as placing;
ghost use Rattle.uca_tailorings.specs.Placing.{placed, IsOnSide};
ghost use Rattle.uca_tailorings.specs.Tailorings.{Tailoring, IsPlaced, Meets, tailored_reading};
ghost use Rattle.uca_audit.specs.inside.PlacedRows.{IsRowAt, IsFoundPlacement};
ghost use Rattle.uca_audit.specs.inside.Views.{FindsFirstRelation, IsPlacement, tailoring_in};

use crate::Condition;
use crate::conditions::anchors::{anchor_place, level_of, weight};
use crate::inputs::Inputs;
use crate::readings::Readings;
use std::alloc::{AllocError, Allocator};
use uca_elements::{Collator, Lookup, row_of};
use uca_match::Trie;
use uca_relations::Relation;
use uca_weights::{Element, Level};

/// Where a target was placed.
#[derive(Clone, Copy)]
pub(crate) struct Placement {
    /// The level of the relation's strength. For `Identical` it is `None`, and the weights below mean nothing.
    pub level: Option<Level>,
    /// The anchor's weight at that level.
    pub old: u16,
    /// The new weight, which the target has in place of the old one.
    pub new: u16,
}

/// The first relation whose target was not placed, by its index. The list, empty at first, gets how the targets before
/// it were placed. An error means that it ran out of memory.
pub(crate) fn first_not_placed<A: Allocator + Copy, T: Allocator>(
    alloc: A,
    inputs: &Inputs<T>,
    collator: &Collator<Trie<A>, T>,
    list: &mut Vec<Placement, A>,
) -> Result<Option<usize>, AllocError>
    requires reads { ReadsAs (collation_of ⟦<Trie<A> as Lookup>⟧.content collator.now) (tailored_reading (tailoring_in inputs.now)) }
    requires none { list.old.items ≡ [] }
    ensures found { IfOk result (FindsFirstRelation (Meets (tailoring_in inputs.now) Condition.NotPlaced)
        (λ before r after. IsPlaced (tailoring_in inputs.now) r) (tailoring_in inputs.now).relations) }
    ensures placed { IfOk result (λ found. IfNone found
        (AllZip (IsPlacement (tailoring_in inputs.now)) (tailoring_in inputs.now).relations list.new.items)) }
{
    let mut readings = Readings::new(alloc);
    place_targets(inputs, collator, &mut readings, list)
}

// As `first_not_placed`, with lists that have the elements of each relation in turn.
fn place_targets<A: Allocator + Copy, T: Allocator>(
    inputs: &Inputs<T>,
    collator: &Collator<Trie<A>, T>,
    readings: &mut Readings<A>,
    list: &mut Vec<Placement, A>,
) -> Result<Option<usize>, AllocError>
    requires reads { ReadsAs (collation_of ⟦<Trie<A> as Lookup>⟧.content collator.now) (tailored_reading (tailoring_in inputs.now)) }
    requires none { list.old.items ≡ [] }
    ensures found { IfOk result (FindsFirstRelation (Meets (tailoring_in inputs.now) Condition.NotPlaced)
        (λ before r after. IsPlaced (tailoring_in inputs.now) r) (tailoring_in inputs.now).relations) }
    ensures placed { IfOk result (λ found. IfNone found
        (AllZip (IsPlacement (tailoring_in inputs.now)) (tailoring_in inputs.now).relations list.new.items)) }
{
    for (at, relation) in inputs.rules.relations().iter().enumerate() {
        let Some(placement) = placement_of(collator, relation, readings)? else {
            return Ok(Some(at));
        };
        list.push(placement)?;
    }
    Ok(None)
}

/// How the target of a relation was placed, if it was.
fn placement_of<A: Allocator + Copy, T: Allocator>(
    collator: &Collator<Trie<A>, T>,
    relation: &Relation,
    readings: &mut Readings<A>,
) -> Result<Option<Placement>, AllocError>
    ensures { (tailoring : Tailoring) → ReadsAs (collation_of ⟦<Trie<A> as Lookup>⟧.content collator.now) (tailored_reading tailoring) →
        IfOk result (IsFoundPlacement tailoring relation.now) }
{
    readings.read(collator, relation)?;
    let Some(row) = row_of(collator.lookup, relation.target.chars()) else {
        return Ok(None);
    };
    let anchor: &[Element] = &readings.anchor;
    let expansion: &[Element] = &readings.expansion;
    match level_of(relation.strength) {
        Some(level) => Ok(weighted(level, relation.before, anchor, expansion, row)),
        None => Ok(identical(anchor, expansion, row)),
    }
}

/// How a row was placed at the level, if it was.
fn weighted(
    level: Level,
    is_before: bool,
    anchor: &[Element],
    expansion: &[Element],
    row: &[Element],
) -> Option<Placement>
    ensures { MatchOption result
        ((old new : ℕ) → ¬ (IsRowAt level is_before anchor.now expansion.now row.now old new))
        (λ p. (p.level ≡ Some level) × IsRowAt level is_before anchor.now expansion.now row.now p.old p.new) }
{
    let at = anchor_place(level, anchor)?;
    let last = anchor[at];
    let new = placed_weight(level, &anchor[..at], last, expansion, row)?;
    let old = weight(level, last);
    if !is_on_side(is_before, old, new) {
        return None;
    }
    Some(Placement {
        level: Some(level),
        old,
        new,
    })
}

/// How a row was placed that differs at no level, if it was.
fn identical(anchor: &[Element], expansion: &[Element], row: &[Element]) -> Option<Placement>
    ensures { MatchOption result (¬ (row.now ≡ anchor.now ++ expansion.now))
        (λ p. (p.level ≡ None) × (row.now ≡ anchor.now ++ expansion.now)) }
{
    let rest = row.strip_prefix(anchor)?;
    if !are_same(rest, expansion) {
        return None;
    }
    Some(Placement {
        level: None,
        old: 0,
        new: 0,
    })
}

/// The new weight of a row, if it has one. The row has the elements before the anchor's last one, then that one with
/// the new weight at the level, and then the expansion's.
fn placed_weight(
    level: Level,
    before: &[Element],
    last: Element,
    expansion: &[Element],
    row: &[Element],
) -> Option<u16>
    ensures { MatchOption result
        ((w : ℕ) → ¬ (row.now ≡ placed level before.now last expansion.now w))
        (λ w. row.now ≡ placed level before.now last expansion.now w) }
{
    let rest = row.strip_prefix(before)?;
    let (first, after) = rest.split_first()?;
    let new = weight(level, *first);
    if !is_same(*first, reweighted(level, new, last)) {
        return None;
    }
    if !are_same(after, expansion) {
        return None;
    }
    Some(new)
}

/// The element with a new weight at a level; its other weights at weaker levels become 0020 and 0002.
fn reweighted(level: Level, new: u16, element: Element) -> Element
    ensures { result ≡ placing.reweighted level new element }
{
    match level {
        Level::One => Element {
            primary: new,
            secondary: reset(element.secondary, 0x20),
            tertiary: reset(element.tertiary, 2),
            ..element
        },
        Level::Two => Element {
            secondary: new,
            tertiary: reset(element.tertiary, 2),
            ..element
        },
        Level::Three => Element {
            tertiary: new,
            ..element
        },
    }
}

/// A weight other than 0 becomes the default.
fn reset(weight: u16, default: u16) -> u16
    ensures { result ≡ placing.reset weight default }
{
    if weight == 0 { 0 } else { default }
}

/// Whether the new weight is greater than the old one, or less for a before-relation.
fn is_on_side(is_before: bool, old: u16, new: u16) -> bool
    ensures { IsTrue result ↔ IsOnSide is_before old new }
{
    if is_before { new < old } else { old < new }
}

/// Whether two elements are the same, also by whether they are variable.
fn is_same(one: Element, other: Element) -> bool
    ensures { IsTrue result ↔ (one ≡ other) }
{
    one == other
}

/// Whether two lists have the same elements in the same order.
fn are_same(left: &[Element], right: &[Element]) -> bool
    ensures { IsTrue result ↔ (left.now ≡ right.now) }
{
    left == right
}

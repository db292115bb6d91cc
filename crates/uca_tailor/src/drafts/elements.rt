//! Draft elements, whose weights are not numbered yet: what each is, and how one gets a new weight.

ghost use Rattle.std.specs.Prelude.{◌≡◌, None, Some, MatchOption};
ghost use Rattle.uca_weights.specs.Levels as levels;
ghost use Rattle.uca_plans.specs.Drafts as drafts;

use std::alloc::Allocator;
use uca_plans::{DraftElement, DraftWeight};
use uca_weights::{Element, Level, Strength};

/// The first primary of implicit weights (UTS #10, section 10.1.3); new primaries are below it.
const FIRST_IMPLICIT: u16 = 0x8000;

/// The level at which texts of a strength differ, if there is one.
pub(crate) fn level_of(strength: Strength) -> Option<Level>
    ensures { result ≡ levels.level_of strength }
{
    match strength {
        Strength::Primary => Some(Level::One),
        Strength::Secondary => Some(Level::Two),
        Strength::Tertiary => Some(Level::Three),
        Strength::Identical => None,
    }
}

/// An element with its weights as they are. `implicit` says that the implicit weights of a code point gave it.
pub(crate) fn as_draft(implicit: bool, element: Element) -> DraftElement
    ensures { result ≡ drafts.as_draft implicit element }
{
    DraftElement {
        primary: DraftWeight::Base(element.primary),
        secondary: DraftWeight::Base(element.secondary),
        tertiary: DraftWeight::Base(element.tertiary),
        mark: element.mark,
        implicit,
    }
}

/// The weight of an element at a level.
pub(crate) fn draft_weight(level: Level, element: DraftElement) -> DraftWeight
    ensures { result ≡ drafts.draft_weight level element }
{
    match level {
        Level::One => element.primary,
        Level::Two => element.secondary,
        Level::Three => element.tertiary,
    }
}

/// Removes and returns the last element that is not ignorable at the levels 1 to `level`, together with all elements after
/// it. Empties the list if there is none.
pub(crate) fn take_last<A: Allocator>(
    level: Level,
    elements: &mut Vec<DraftElement, A>,
) -> Option<DraftElement>
    ensures { MatchOption result (drafts.anchor_part level elements.old.items ≡ None)
        (λ last. drafts.anchor_part level elements.old.items ≡ Some (record { front = elements.new.items; last = last })) }
{
    while let Some(last) = elements.pop() {
        if !is_ignorable_to(level, last) {
            return Some(last);
        }
    }
    None
}

/// Whether an element gets no new weight at the level: it is a continuation, or, at level 1, its primary is one of
/// implicit weights.
pub(crate) fn takes_no_weight(level: Level, element: DraftElement) -> bool
    ensures { result ≡ drafts.takes_no_weight level element }
{
    is_continuation(element) || (level == Level::One && is_implicit_primary(element.primary))
}

/// The element with a new weight at a level; its other weights at weaker levels become 0020 and 0002.
pub(crate) fn reweighted(level: Level, new: DraftWeight, element: DraftElement) -> DraftElement
    ensures { result ≡ drafts.reweighted level new element }
{
    match level {
        Level::One => DraftElement {
            primary: new,
            secondary: reset(element.secondary, 0x20),
            tertiary: reset(element.tertiary, 2),
            ..element
        },
        Level::Two => DraftElement {
            secondary: new,
            tertiary: reset(element.tertiary, 2),
            ..element
        },
        Level::Three => DraftElement {
            tertiary: new,
            ..element
        },
    }
}

/// Whether an element has no weight at the levels from 1 to this one.
fn is_ignorable_to(level: Level, element: DraftElement) -> bool
    ensures { result ≡ drafts.is_ignorable_to level element }
{
    match level {
        Level::One => is_zero(element.primary),
        Level::Two => is_zero(element.primary) && is_zero(element.secondary),
        Level::Three => {
            is_zero(element.primary) && is_zero(element.secondary) && is_zero(element.tertiary)
        }
    }
}

/// Whether an element has a weight only at level 1.
fn is_continuation(element: DraftElement) -> bool
    ensures { result ≡ drafts.is_continuation element }
{
    !is_zero(element.primary) && is_zero(element.secondary) && is_zero(element.tertiary)
}

/// Whether there is no weight: it is the weight 0 of the base.
fn is_zero(weight: DraftWeight) -> bool
    ensures { result ≡ drafts.is_zero weight }
{
    match weight {
        DraftWeight::Base(weight) => weight == 0,
        DraftWeight::New(_) => false,
    }
}

/// Whether a weight is a primary from 8000 up, as implicit weights have.
fn is_implicit_primary(weight: DraftWeight) -> bool
    ensures { result ≡ drafts.is_implicit_primary weight }
{
    match weight {
        DraftWeight::Base(weight) => weight >= FIRST_IMPLICIT,
        DraftWeight::New(_) => false,
    }
}

/// A weight other than 0 becomes the default.
fn reset(weight: DraftWeight, default: u16) -> DraftWeight
    ensures { result ≡ drafts.reset weight default }
{
    if is_zero(weight) {
        weight
    } else {
        DraftWeight::Base(default)
    }
}

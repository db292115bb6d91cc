//! Conditions 10 and 11: the new weights that relations give their targets.

ghost use Rattle.std.specs.Prelude.{◌↔◌, ◌⊎◌, ℕ, List, [], ◌∷◌, ◌++◌, IfOk, IsTrue};
ghost use Rattle.std.specs.List.{AllZip};
ghost use Rattle.uca_weights.specs.declared.Level.{Level};
ghost use Rattle.uca_tailorings.specs.Placing.{IsLow};
ghost use Rattle.uca_tailorings.specs.Tailorings.{IsFresh, IsNearest};
ghost use Rattle.uca_audit.specs.declared.conditions.placements.Placement.{Placement};
ghost use Rattle.uca_audit.specs.inside.WeightSets.{HasWeight};
ghost use Rattle.uca_audit.specs.inside.Views.{tailoring_in, IsPlacement};
ghost use Rattle.uca_audit.specs.inside.Chaining.{Settles};
ghost use Rattle.uca_audit.specs.inside.NewWeights.{HoldsKnown, HoldsNew, IsFreshPlacement, IsNearestPlacement, puts};

use crate::AuditFault;
use crate::conditions::at_relation;
use crate::conditions::placements::Placement;
use crate::inputs::Inputs;
use crate::weight_sets::WeightSet;
use std::alloc::{AllocError, Allocator};
use uca_tailorings::Condition;
use uca_weights::Level;

/// Condition 10. The error is at the first relation whose new weight is known, or is also that of another relation, or is 8000 or
/// more at level 1.
pub(crate) fn new_weights_are_fresh<A: Allocator + Copy, T: Allocator>(
    alloc: A,
    inputs: &Inputs<T>,
    placements: &[Placement],
    known: &WeightSet<A>,
) -> Result<(), AuditFault>
    requires placed { AllZip (IsPlacement (tailoring_in inputs.now)) (tailoring_in inputs.now).relations placements.now }
    requires known { HoldsKnown (tailoring_in inputs.now) known.now }
    ensures { Settles (tailoring_in inputs.now) Condition.NotFresh result }
{
    let shared = shared_weights(alloc, placements)?;
    for (at, placement) in placements.iter().enumerate() {
        if !is_fresh(*placement, known, &shared) {
            return Err(at_relation(inputs, Condition::NotFresh, at));
        }
    }
    Ok(())
}

/// Condition 11. The error is at the first relation with a known weight, or the new weight of an earlier relation, between its old
/// and its new weight. It takes no memory: the new weights are put in with the known ones as the relations go by.
pub(crate) fn targets_are_nearest<A: Allocator + Copy, T: Allocator>(
    inputs: &Inputs<T>,
    placements: &[Placement],
    known: &mut WeightSet<A>,
) -> Result<(), AuditFault>
    requires placed { AllZip (IsPlacement (tailoring_in inputs.now)) (tailoring_in inputs.now).relations placements.now }
    requires known { HoldsKnown (tailoring_in inputs.now) known.old }
    ensures { Settles (tailoring_in inputs.now) Condition.NotNearest result }
{
    for (at, placement) in placements.iter().enumerate() {
        if !is_nearest(*placement, known) {
            return Err(at_relation(inputs, Condition::NotNearest, at));
        }
        add_new(known, *placement);
    }
    Ok(())
}

/// The new weights that two relations or more have.
fn shared_weights<A: Allocator + Copy>(
    alloc: A,
    placements: &[Placement],
) -> Result<WeightSet<A>, AllocError>
    ensures { IfOk result (HoldsNew 2 placements.now) }
{
    let mut seen = WeightSet::new(alloc)?;
    let mut shared = WeightSet::new(alloc)?;
    for placement in placements {
        add_again(&mut seen, &mut shared, *placement);
    }
    Ok(shared)
}

/// Puts the placement's new weight in with those that were seen, and with the shared ones if it was one of them already.
fn add_again<A: Allocator + Copy>(
    seen: &mut WeightSet<A>,
    shared: &mut WeightSet<A>,
    placement: Placement,
)
    ensures seen { (placements : List Placement) → HoldsNew 1 placements seen.old → HoldsNew 1 (placements ++ placement ∷ []) seen.new }
    ensures shared { (placements : List Placement) → HoldsNew 1 placements seen.old → HoldsNew 2 placements shared.old →
        HoldsNew 2 (placements ++ placement ∷ []) shared.new }
{
    let Some(level) = placement.level else {
        return;
    };
    if seen.contains(level, placement.new) {
        shared.insert(level, placement.new);
    }
    seen.insert(level, placement.new);
}

/// Whether the placement's new weight, if it puts one at a level, is low and neither known nor shared.
fn is_fresh<A: Allocator + Copy>(
    placement: Placement,
    known: &WeightSet<A>,
    shared: &WeightSet<A>,
) -> bool
    ensures { IsTrue result ↔ IsFreshPlacement known.now shared.now placement }
{
    let Some(level) = placement.level else {
        return true;
    };
    !known.contains(level, placement.new)
        && !shared.contains(level, placement.new)
        && is_below_implicit(level, placement.new)
}

/// Whether no known weight lies strictly between the placement's old and new weight, if it has them at a level.
fn is_nearest<A: Allocator + Copy>(placement: Placement, known: &WeightSet<A>) -> bool
    ensures { IsTrue result ↔ IsNearestPlacement known.now placement }
{
    let Some(level) = placement.level else {
        return true;
    };
    !known.contains_between(level, placement.old, placement.new)
}

/// Whether a new weight is below the primaries of implicit weights, if it is a primary.
fn is_below_implicit(level: Level, weight: u16) -> bool
    ensures { IsTrue result ↔ IsLow level weight }
{
    match level {
        Level::One => weight < 0x8000,
        Level::Two | Level::Three => true,
    }
}

/// Puts the placement's new weight in, if it has one at a level.
fn add_new<A: Allocator + Copy>(set: &mut WeightSet<A>, placement: Placement)
    ensures { (level : Level) (w : ℕ) →
        HasWeight set.new level w ↔ (IsTrue (puts level w placement) ⊎ HasWeight set.old level w) }
{
    if let Some(level) = placement.level {
        set.insert(level, placement.new);
    }
}

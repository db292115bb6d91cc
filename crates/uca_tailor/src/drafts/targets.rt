//! Drafts the elements that a relation gives its target: those of the anchor with a new weight, and those of the expansion.

ghost use Rattle.std.specs.Prelude.{◌≡◌, ◌++◌, ◌∷◌, [], ℕ, List, IfOk, OnOk, option_map};
ghost use Rattle.uca_match.specs.Tries.{positions};
ghost use Rattle.uca_plans.specs.declared.drafts.DraftElement.{DraftElement};
ghost use Rattle.uca_plans.specs.Drafts.{anchor_part, accepted_part};
ghost use Rattle.uca_plans.specs.Plans as plans;
ghost use Rattle.uca_plans.specs.Plans.{placed_if_accepted, draft_expansion};
ghost use Rattle.uca_tailor.specs.inside.Ready.{basis_in, ArePositionsWith, ReadsAlike};
ghost use Rattle.uca_tailor.specs.inside.Targets.{drafted_with};

use crate::drafts::elements::{draft_weight, level_of, reweighted, take_last, takes_no_weight};
use crate::drafts::readings::DraftBasis;
use crate::drafts::row_drafts::RowDraft;
use std::alloc::{AllocError, Allocator};
use uca_plans::{DraftElement, DraftWeight, Insertion};
use uca_relations::Relation;
use uca_weights::Level;

/// What a relation gives its target, apart from the elements.
#[derive(Clone, Copy)]
pub(crate) enum TargetDraft {
    /// Nothing: the anchor has no element that can have the new weight.
    AnchorRejected,
    /// No new weight: the strength is `Identical`. The target has the weights of the anchor and of the expansion.
    Identical,
    /// A new weight in one of the elements. It goes where the insertion says.
    NewWeight(Insertion),
}

/// Puts the elements that a relation gives its target into an empty list. They are read over the rows so far. New weights are
/// named by the index of their relation. Returns whether the anchor is rejected, and the new weight, if there is one.
///
/// # Errors
///
/// An allocation that fails.
pub(crate) fn draft_target<A: Allocator, T: Allocator>(
    basis: &DraftBasis<A, T>,
    rows: &[RowDraft<A>],
    relation: &Relation,
    index: u32,
    elements: &mut Vec<DraftElement, A>,
) -> Result<TargetDraft, AllocError>
    requires empty { elements.old.items ≡ [] }
    requires keys { (more : List (List ℕ)) × ArePositionsWith (positions basis.now.key_rows.now) rows.now more }
    requires alike { ReadsAlike (basis_in basis.now) (positions basis.now.key_rows.now) rows.now relation.now }
    ensures { IfOk result (λ draft. drafted_with elements.new.items draft
        ≡ plans.drafted (basis_in basis.now) (record { rows = rows.now; insertions = [] }) (DraftWeight.New index) relation.now) }
{
    basis.read(rows, &relation.anchor, elements)?;
    let Some(level) = level_of(relation.strength) else {
        read_expansion(basis, rows, relation, elements)?;
        return Ok(TargetDraft::Identical);
    };
    let new = DraftWeight::New(index);
    let Some(insertion) = put_weight(level, relation.before, new, elements)? else {
        return Ok(TargetDraft::AnchorRejected);
    };
    match read_expansion(basis, rows, relation, elements) {
        Ok(()) => Ok(TargetDraft::NewWeight(insertion)),
        Err(error) => Err(error),
    }
}

/// Puts a new weight on an anchor's last element that has a weight at one of the levels from 1 to this one. Cuts off
/// what comes after that element. Returns where the new weight goes, or `None` if no element can have it.
fn put_weight<A: Allocator>(
    level: Level,
    before: bool,
    new: DraftWeight,
    elements: &mut Vec<DraftElement, A>,
) -> Result<Option<Insertion>, AllocError>
    ensures { (expansion : List DraftElement) → IfOk result (λ found.
        option_map (λ i. record { elements = elements.new.items ++ expansion; insertions = i ∷ [] }) found
        ≡ placed_if_accepted level before new (accepted_part level (anchor_part level elements.old.items)) expansion) }
{
    let Some(last) = take_last(level, elements) else {
        return Ok(None);
    };
    if takes_no_weight(level, last) {
        return Ok(None);
    }
    elements.push(reweighted(level, new, last))?;
    Ok(Some(Insertion {
        level,
        before,
        anchor: draft_weight(level, last),
        new,
    }))
}

/// Puts the elements of a relation's expansion, if it has one, after those of a list.
fn read_expansion<A: Allocator, T: Allocator>(
    basis: &DraftBasis<A, T>,
    rows: &[RowDraft<A>],
    relation: &Relation,
    elements: &mut Vec<DraftElement, A>,
) -> Result<(), AllocError>
    requires keys { (more : List (List ℕ)) × ArePositionsWith (positions basis.now.key_rows.now) rows.now more }
    requires alike { ReadsAlike (basis_in basis.now) (positions basis.now.key_rows.now) rows.now relation.now }
    ensures { OnOk result (elements.new.items ≡ elements.old.items
        ++ draft_expansion (basis_in basis.now) (record { rows = rows.now; insertions = [] }) relation.now.expansion) }
{
    match &relation.expansion {
        Some(text) => basis.read(rows, text, elements),
        None => Ok(()),
    }
}

//! The rows of a tailored table before weights are numbered, relation by relation.

ghost use Rattle.std.specs.Prelude.{◌≡◌, ◌⊎◌, ◌+◌, ◌<◌, ◌≤◌, ◌++◌, ◌∷◌, [], length, map, slice_set, IfOk, IfErr, OnOk, Ok, Err, List, ℕ};
ghost use Rattle.std.specs.List.{AllByRecursion};
ghost use Rattle.uca_values.specs.Content.{keys_of, properties_of};
ghost use Rattle.uca_match.specs.Tries.{positions};
ghost use Rattle.uca_plans.specs.Drafts as drafts;
ghost use Rattle.uca_plans.specs.Lists.{InsertsBelow};
ghost use Rattle.uca_plans.specs.Plans as plans;
ghost use Rattle.uca_plans.specs.Plans.{begun, with_relation, with_relations};
ghost use Rattle.uca_plans.specs.Tailors.{basis_of, out_of_memory};
ghost use Rattle.uca_check.specs.WellFormed.{elements_of};
ghost use Rattle.uca_tailor.specs.inside.KeyRows.{ArePositions};
ghost use Rattle.uca_tailor.specs.inside.Ready.{basis_in, ArePositionsWith, IsReady, IsRejected, TakesRow};
ghost use Rattle.uca_tailor.specs.inside.Targets.{insertions_of};
ghost use Rattle.uca_tailor.specs.inside.Variables.{AreBounds};

use crate::drafts::key_rows::{row_of_key, rows_of_keys};
use crate::drafts::readings::DraftBasis;
use crate::drafts::row_drafts::RowDraft;
use crate::drafts::targets::{TargetDraft, draft_target};
use crate::drafts::variables::{holds_implicit_variable, variable_span};
use std::alloc::{AllocError, Allocator};
use std::marker::Model;
use uca_match::KeyMap;
use uca_plans::{DraftElement, Insertion, TailorFault, TailorKind};
use uca_relations::{Relation, Rules};
use uca_text::Normal;
use uca_values::limits::MOST_ELEMENTS;
use uca_values::{Data, Row, Table};

/// The rows of a tailored table before weights are numbered, and where the new weights go. The base rows come first, in
/// their order, and then those of the targets that are not base keys. It borrows from the base and the rules what they
/// have of it.
#[derive(Drop)]
pub(crate) struct Drafting<'a, A: Allocator> {
    rows: Vec<RowDraft<'a, A>, A>,
    insertions: Vec<Insertion, A>,
}

impl<'a, A: Allocator> Model for Drafting<'a, A> {
    ghost use Rattle.uca_plans.specs.Plans as plans;

    ghost Value = { plans.Drafting };

    ghost view = { λ d. record { rows = d.rows.items; insertions = d.insertions.items } };
}

impl<'a, A: Allocator + Copy> Drafting<'a, A> {
    /// The rows of the base alone.
    fn begun<T: Allocator>(alloc: A, base: &'a [Row<T>]) -> Result<Drafting<'a, A>, AllocError>
        ensures rows { IfOk result (λ drafting. drafting.rows ≡ map drafts.row_as_draft base.now) }
        ensures insertions { IfOk result (λ drafting. drafting.insertions ≡ []) }
    {
        let mut rows = Vec::with_capacity(alloc, base.len())?;
        match push_base(&mut rows, base) {
            Ok(()) => Ok(Drafting {
                rows,
                insertions: Vec::new(alloc),
            }),
            Err(error) => Err(error),
        }
    }
}

impl<'a, A: Allocator> Drafting<'a, A> {
    /// The rows.
    pub(crate) fn rows(&self) -> &[RowDraft<'a, A>]
        ensures { result.now ≡ self.now.rows }
    {
        &self.rows
    }

    /// Where the new weights go, in the order of their relations.
    pub(crate) fn insertions(&self) -> &[Insertion]
        ensures { result.now ≡ self.now.insertions }
    {
        &self.insertions
    }

    /// Adds what a relation gives its target.
    ///
    /// # Errors
    ///
    /// Why the relation is rejected, or an allocation that fails.
    fn add<T: Allocator>(
        &mut self,
        alloc: A,
        basis: &DraftBasis<A, T>,
        relation: &'a Relation,
        index: u32,
    ) -> Result<(), TailorFault>
        requires index { index < 0xFFFF_FFFF }
        requires bounds { AreBounds basis.now.variables (elements_of basis.now.base.now.rows) }
        requires ready { IsReady (basis_in basis.now) (positions basis.now.key_rows.now) self.old.rows relation.now }
        ensures added { OnOk result (with_relation (basis_in basis.now) self.old index relation.now ≡ Ok self.new) }
        ensures rejected { IfErr result (IsRejected (basis_in basis.now) self.old index relation.now) }
    {
        let mut elements = Vec::new(alloc);
        let draft = draft_target(basis, &self.rows, relation, index, &mut elements)?;
        match row_for(basis, &self.rows, relation, draft, &elements) {
            Ok(at) => {
                let row = RowDraft::of_target(&relation.target, elements);
                self.put(at, row, draft)?;
                Ok(())
            }
            Err(kind) => Err(rejected(kind, index)),
        }
    }

    /// Puts a row at a position, or after the others, and the insertion of its new weight, if it has one.
    fn put(&mut self, at: usize, row: RowDraft<'a, A>, draft: TargetDraft) -> Result<(), AllocError>
        ensures replaced { at < length self.old.rows → OnOk result (self.new.rows ≡ slice_set self.old.rows at row.entry) }
        ensures after { length self.old.rows ≤ at → OnOk result (self.new.rows ≡ self.old.rows ++ row.entry ∷ []) }
        ensures insertions { OnOk result (self.new.insertions ≡ self.old.insertions ++ insertions_of draft) }
    {
        if at < self.rows.len() {
            self.rows[at] = row;
        } else {
            self.rows.push(row)?;
        }
        if let TargetDraft::NewWeight(insertion) = draft {
            self.insertions.push(insertion)?;
        }
        Ok(())
    }
}

/// Puts rows of the base, as they are, after those of a list.
fn push_base<'a, A: Allocator, T: Allocator>(
    rows: &mut Vec<RowDraft<'a, A>, A>,
    base: &'a [Row<T>],
) -> Result<(), AllocError>
    ensures { OnOk result (rows.new.items ≡ rows.old.items ++ map drafts.row_as_draft base.now) }
{
    for row in base {
        rows.push(RowDraft::of_base(row))?;
    }
    Ok(())
}

/// The row that a relation's target takes with this draft and these elements: the one that has its key, or one after all
/// rows.
///
/// # Errors
///
/// Why the relation is rejected.
fn row_for<A: Allocator, T: Allocator>(
    basis: &DraftBasis<A, T>,
    rows: &[RowDraft<A>],
    relation: &Relation,
    draft: TargetDraft,
    elements: &[DraftElement],
) -> Result<usize, TailorKind>
    requires bounds { AreBounds basis.now.variables (elements_of basis.now.base.now.rows) }
    requires ready { IsReady (basis_in basis.now) (positions basis.now.key_rows.now) rows.now relation.now }
    ensures { TakesRow (basis_in basis.now) rows.now relation.now draft elements.now result }
{
    if let TargetDraft::AnchorRejected = draft {
        return Err(TailorKind::Anchor);
    }
    if needs_prefix(basis, rows, &relation.target) {
        return Err(TailorKind::NeedsPrefix);
    }
    let Some(at) = row_of_key(basis.key_rows, relation.target.chars()) else {
        return Err(TailorKind::Limit);
    };
    if elements.len() > MOST_ELEMENTS {
        Err(TailorKind::Limit)
    } else if holds_implicit_variable(basis.variables, elements) {
        Err(TailorKind::ImplicitVariable)
    } else {
        Ok(at)
    }
}

/// Why the relation of an index is rejected.
fn rejected(kind: TailorKind, index: u32) -> TailorFault
    requires { index < 0xFFFF_FFFF }
    ensures { result ≡ record { kind = kind; relation = index + 1 } }
{
    TailorFault {
        kind,
        relation: index + 1,
    }
}

/// The drafts of all relations over a base.
///
/// # Errors
///
/// The first relation that is rejected, with the cause, or an allocation that fails.
pub(crate) fn draft<'a, A: Allocator + Copy, T: Allocator>(
    alloc: A,
    base: &'a Table<T>,
    properties: &Data<T>,
    rules: &'a Rules<T>,
) -> Result<Drafting<'a, A>, TailorFault>
    ensures drafted { let basis = basis_of base.now (properties_of properties.now) in
        IfOk result (λ drafting. with_relations basis 0 rules.now (begun basis) ≡ Ok drafting) }
    ensures rejected { let basis = basis_of base.now (properties_of properties.now) in
        IfErr result (λ fault. (with_relations basis 0 rules.now (begun basis) ≡ Err fault) ⊎ (fault ≡ out_of_memory)) }
    // Each new weight has the index of its relation.
    ensures names { IfOk result (λ drafting. AllByRecursion (InsertsBelow (length rules.now)) drafting.insertions) }
{
    match rows_of_keys(alloc, base, rules) {
        Ok(key_rows) => {
            let drafting = draft_over(alloc, base, properties, rules, &key_rows);
            drop(key_rows);
            drafting
        }
        Err(error) => Err(TailorFault::from(error)),
    }
}

/// As `draft`, given the row of each key.
fn draft_over<'a, A: Allocator + Copy, T: Allocator>(
    alloc: A,
    base: &'a Table<T>,
    properties: &Data<T>,
    rules: &'a Rules<T>,
    key_rows: &KeyMap<A>,
) -> Result<Drafting<'a, A>, TailorFault>
    requires { ArePositions (keys_of base.now.rows) rules.now (positions key_rows.now) }
    ensures drafted { let basis = basis_of base.now (properties_of properties.now) in
        IfOk result (λ drafting. with_relations basis 0 rules.now (begun basis) ≡ Ok drafting) }
    ensures rejected { let basis = basis_of base.now (properties_of properties.now) in
        IfErr result (λ fault. (with_relations basis 0 rules.now (begun basis) ≡ Err fault) ⊎ (fault ≡ out_of_memory)) }
    ensures names { IfOk result (λ drafting. AllByRecursion (InsertsBelow (length rules.now)) drafting.insertions) }
{
    let basis = DraftBasis {
        base,
        properties,
        key_rows,
        variables: variable_span(&base.rows),
    };
    let mut drafting = Drafting::begun(alloc, &base.rows)?;
    for (at, relation) in rules.relations().iter().enumerate() {
        match drafting.add(alloc, &basis, relation, at as u32) {
            Ok(()) => {}
            Err(fault) => {
                drop(drafting);
                return Err(fault);
            }
        }
    }
    Ok(drafting)
}

/// Whether a target has three or more code points and ends in a non-starter, and without it is not a key of the rows so
/// far.
fn needs_prefix<A: Allocator, T: Allocator>(
    basis: &DraftBasis<A, T>,
    rows: &[RowDraft<A>],
    target: &Normal,
) -> bool
    requires { (more : List (List ℕ)) × ArePositionsWith (positions basis.now.key_rows.now) rows.now more }
    ensures { result ≡ plans.needs_prefix (properties_of basis.now.properties.now).class rows.now target.now.points }
{
    let points = target.chars();
    if points.len() <= 2 {
        return false;
    }
    let Some((last, front)) = points.split_last() else {
        return false;
    };
    basis.properties.class(*last) != 0 && !has_key(basis, rows, front)
}

/// Whether one of the rows so far has the key.
fn has_key<A: Allocator, T: Allocator>(
    basis: &DraftBasis<A, T>,
    rows: &[RowDraft<A>],
    key: &[char],
) -> bool
    requires { (more : List (List ℕ)) × ArePositionsWith (positions basis.now.key_rows.now) rows.now more }
    ensures { result ≡ drafts.has_key rows.now key.now }
{
    match row_of_key(basis.key_rows, key) {
        Some(at) => at < rows.len(),
        None => false,
    }
}

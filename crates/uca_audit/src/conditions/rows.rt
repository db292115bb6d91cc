//! Conditions 3 to 7: the headers and the rows of the two tables.

ghost use Rattle.std.specs.Prelude.{◌≡◌, ◌↔◌, IsTrue};
ghost use Rattle.std.specs.List.{AllByRecursion};
ghost use Rattle.uca_check.specs.Searches.{FindsFirstWithout};
ghost use Rattle.uca_elements.specs.Rows.{IsKey};
ghost use Rattle.uca_tailorings.specs.Tailorings.{IsCovered, IsCoveredRow, IsUnchangedRow, IsPresentRow, IsPresentTarget, IsExpectedRow};
ghost use Rattle.uca_tailorings.specs.Inputs.{maps_of};
ghost use Rattle.uca_audit.specs.inside.Views.{FindsFirstRelation, tailoring_in};
ghost use Rattle.uca_audit.specs.inside.Chaining.{AreTargetsOf, FindsRowsOf, Settles};

use crate::conditions::{at_base_row, at_tailored_row};
use crate::inputs::Inputs;
use crate::targets::Targets;
use crate::{AuditFault, Condition};
use std::alloc::Allocator;
use uca_elements::{Lookup, row_of};
use uca_images::{Images, are_images};
use uca_match::Trie;
use uca_values::{Header, ImplicitRange, Row};
use uca_weights::{Element, Weighting};

/// Whether two headers have the same version, variable setting and ranges for implicit weights.
pub(crate) fn are_same_headers<T: Allocator>(one: &Header<T>, other: &Header<T>) -> bool
    ensures { IsTrue result ↔ (one.now ≡ other.now) }
{
    one.version == other.version
        && are_same_settings(one.setting, other.setting)
        && are_same_ranges(&one.ranges, &other.ranges)
}

/// Whether two variable settings are the same.
fn are_same_settings(one: Option<Weighting>, other: Option<Weighting>) -> bool
    ensures { IsTrue result ↔ (one ≡ other) }
{
    one == other
}

/// Whether two lists have the same ranges in the same order.
fn are_same_ranges(one: &[ImplicitRange], other: &[ImplicitRange]) -> bool
    ensures { IsTrue result ↔ (one.now ≡ other.now) }
{
    one == other
}

/// Condition 4. The error is at the first base row with a weight that has no image.
pub(crate) fn weights_are_covered<A: Allocator + Copy, T: Allocator>(
    inputs: &Inputs<T>,
    images: &Images<A, T>,
) -> Result<(), AuditFault>
    requires { images.now ≡ inputs.now.certificate.now }
    ensures { Settles (tailoring_in inputs.now) Condition.Uncovered result }
{
    let base = inputs.base;
    for (at, row) in base.rows.iter().enumerate() {
        if !is_covered_row(images, row) {
            return Err(at_base_row(inputs, Condition::Uncovered, at));
        }
    }
    Ok(())
}

/// Whether each weight of the row has an image.
fn is_covered_row<A: Allocator + Copy, T: Allocator>(images: &Images<A, T>, row: &Row<T>) -> bool
    ensures { IsTrue result ↔ AllByRecursion (IsCovered (maps_of images.now)) row.now.elements }
{
    for element in &row.elements {
        if !is_covered(images, *element) {
            return false;
        }
    }
    true
}

/// Whether each weight of the element has an image at its level.
fn is_covered<A: Allocator + Copy, T: Allocator>(images: &Images<A, T>, element: Element) -> bool
    ensures { IsTrue result ↔ IsCovered (maps_of images.now) element }
{
    images.primary.get(element.primary).is_some()
        && images.secondary.get(element.secondary).is_some()
        && images.tertiary.get(element.tertiary).is_some()
}

/// Condition 5. The error is at the first base row whose key is not a target and whose tailored row is there, but is not its image.
pub(crate) fn rows_are_unchanged<A: Allocator + Copy, T: Allocator>(
    inputs: &Inputs<T>,
    tailored: &Trie<A>,
    targets: &Targets<A>,
    images: &Images<A, T>,
) -> Result<(), AuditFault>
    requires rows { FindsRowsOf (tailoring_in inputs.now).tailored (⟦<Trie<A> as Lookup>⟧.content tailored.now) }
    requires targets { AreTargetsOf (tailoring_in inputs.now).relations targets.now }
    requires images { images.now ≡ inputs.now.certificate.now }
    ensures { Settles (tailoring_in inputs.now) Condition.RowChanged result }
{
    let base = inputs.base;
    for (at, row) in base.rows.iter().enumerate() {
        if !is_unchanged(inputs, tailored, targets, images, row) {
            return Err(at_base_row(inputs, Condition::RowChanged, at));
        }
    }
    Ok(())
}

/// Whether the row's key is a target, or has no tailored row, or its tailored row is the image of the row.
fn is_unchanged<A: Allocator + Copy, T: Allocator>(
    inputs: &Inputs<T>,
    tailored: &Trie<A>,
    targets: &Targets<A>,
    images: &Images<A, T>,
    row: &Row<T>,
) -> bool
    requires rows { FindsRowsOf (tailoring_in inputs.now).tailored (⟦<Trie<A> as Lookup>⟧.content tailored.now) }
    requires targets { AreTargetsOf (tailoring_in inputs.now).relations targets.now }
    requires images { images.now ≡ inputs.now.certificate.now }
    ensures { IsTrue result ↔ IsUnchangedRow (tailoring_in inputs.now) row.now }
{
    if targets.contains(&row.key) {
        return true;
    }
    match row_of(tailored, &row.key) {
        None => true,
        Some(new) => are_images(images, &row.elements, new),
    }
}

/// The first base row whose key has no tailored row, by its index.
pub(crate) fn first_missing_row<A: Allocator + Copy, T: Allocator>(
    inputs: &Inputs<T>,
    tailored: &Trie<A>,
) -> Option<usize>
    requires { FindsRowsOf (tailoring_in inputs.now).tailored (⟦<Trie<A> as Lookup>⟧.content tailored.now) }
    ensures { FindsFirstWithout (IsPresentRow (tailoring_in inputs.now)) (tailoring_in inputs.now).base.rows result }
{
    let base = inputs.base;
    for (at, row) in base.rows.iter().enumerate() {
        if !is_key(tailored, &row.key) {
            return Some(at);
        }
    }
    None
}

/// The first relation whose target has no tailored row, by its index.
pub(crate) fn first_missing_target<A: Allocator + Copy, T: Allocator>(
    inputs: &Inputs<T>,
    tailored: &Trie<A>,
) -> Option<usize>
    requires { FindsRowsOf (tailoring_in inputs.now).tailored (⟦<Trie<A> as Lookup>⟧.content tailored.now) }
    ensures { FindsFirstRelation (AllByRecursion (IsPresentTarget (tailoring_in inputs.now)) (tailoring_in inputs.now).relations)
        (λ before r after. IsPresentTarget (tailoring_in inputs.now) r) (tailoring_in inputs.now).relations result }
{
    for (at, relation) in inputs.rules.relations().iter().enumerate() {
        if !is_key(tailored, relation.target.chars()) {
            return Some(at);
        }
    }
    None
}

/// Condition 7. The error is at the first tailored row whose key is neither a base key nor a target.
pub(crate) fn rows_are_expected<A: Allocator + Copy, T: Allocator>(
    alloc: A,
    inputs: &Inputs<T>,
    targets: &Targets<A>,
) -> Result<(), AuditFault>
    requires { AreTargetsOf (tailoring_in inputs.now).relations targets.now }
    ensures { Settles (tailoring_in inputs.now) Condition.RowExtra result }
{
    let base = Trie::new(alloc, inputs.base)?;
    rows_are_known(inputs, &base, targets)
}

/// Condition 7, by a lookup of the base.
fn rows_are_known<A: Allocator + Copy, T: Allocator>(
    inputs: &Inputs<T>,
    base: &Trie<A>,
    targets: &Targets<A>,
) -> Result<(), AuditFault>
    requires rows { FindsRowsOf (tailoring_in inputs.now).base (⟦<Trie<A> as Lookup>⟧.content base.now) }
    requires targets { AreTargetsOf (tailoring_in inputs.now).relations targets.now }
    ensures { Settles (tailoring_in inputs.now) Condition.RowExtra result }
{
    let tailored = inputs.tailored;
    for (at, row) in tailored.rows.iter().enumerate() {
        if !is_expected(inputs, base, targets, row) {
            return Err(at_tailored_row(inputs, Condition::RowExtra, at));
        }
    }
    Ok(())
}

/// Whether the row's key is a base key or a target.
fn is_expected<A: Allocator + Copy, T: Allocator>(
    inputs: &Inputs<T>,
    base: &Trie<A>,
    targets: &Targets<A>,
    row: &Row<T>,
) -> bool
    requires rows { FindsRowsOf (tailoring_in inputs.now).base (⟦<Trie<A> as Lookup>⟧.content base.now) }
    requires targets { AreTargetsOf (tailoring_in inputs.now).relations targets.now }
    ensures { IsTrue result ↔ IsExpectedRow (tailoring_in inputs.now) row.now }
{
    is_key(base, &row.key) || targets.contains(&row.key)
}

/// Whether the lookup has a row for the code points.
fn is_key<A: Allocator + Copy>(lookup: &Trie<A>, key: &[char]) -> bool
    ensures { IsTrue result ↔ IsKey (⟦<Trie<A> as Lookup>⟧.content lookup.now) key.now }
{
    row_of(lookup, key).is_some()
}

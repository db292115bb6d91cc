//! The conditions one by one: each function finds its condition met, or the error at the first position where it fails.
//! Functions have the name of their condition; only the error has its number.

ghost use Rattle.std.specs.Prelude.{◌≡◌, ◌<◌, ◌+◌, [], suc, length, OnOk};
ghost use Rattle.std.specs.List.{AllZip};
ghost use Rattle.uca_elements.specs.Collations.{collation_of};
ghost use Rattle.uca_tailorings.specs.Laws.{ReadsAs};
ghost use Rattle.uca_tailorings.specs.Tailorings.{tailored_reading};
ghost use Rattle.uca_audit.specs.Refusals.{number_of};
ghost use Rattle.uca_audit.specs.inside.Views.{tailoring_in, IsPlacement};
ghost use Rattle.uca_audit.specs.inside.Chaining.{FindsRowsOf, Settles};

pub(crate) mod anchors;
pub(crate) mod placements;
pub(crate) mod rows;
pub(crate) mod weights;

use crate::inputs::Inputs;
use crate::{AuditFault, Condition, Place};
use placements::{Placement, first_not_placed};
use rows::{are_same_headers, first_missing_row, first_missing_target};
use std::alloc::Allocator;
use uca_check::check;
use uca_elements::{Collator, Lookup};
use uca_match::Trie;
use uca_relations::Rules;
use uca_values::Table;

/// Condition 1.
pub(crate) fn base_is_well_formed<T: Allocator>(inputs: &Inputs<T>) -> Result<(), AuditFault>
    ensures { Settles (tailoring_in inputs.now) Condition.BaseIllFormed result }
{
    match check(inputs.base, inputs.properties) {
        Ok(()) => Ok(()),
        Err(fault) => Err(fault_of(Condition::BaseIllFormed, Place::BaseRow(fault.row))),
    }
}

/// Condition 2.
pub(crate) fn tailored_is_well_formed<T: Allocator>(inputs: &Inputs<T>) -> Result<(), AuditFault>
    ensures { Settles (tailoring_in inputs.now) Condition.TailoredIllFormed result }
{
    match check(inputs.tailored, inputs.properties) {
        Ok(()) => Ok(()),
        Err(fault) => Err(fault_of(Condition::TailoredIllFormed, Place::TailoredRow(fault.row))),
    }
}

/// Condition 3.
pub(crate) fn headers_are_same<T: Allocator>(inputs: &Inputs<T>) -> Result<(), AuditFault>
    ensures { Settles (tailoring_in inputs.now) Condition.Header result }
{
    let (base, tailored) = (inputs.base, inputs.tailored);
    if are_same_headers(&base.header, &tailored.header) {
        return Ok(());
    }
    Err(fault_of(Condition::Header, Place::Nowhere))
}

/// Condition 6.
pub(crate) fn rows_are_present<A: Allocator + Copy, T: Allocator>(
    inputs: &Inputs<T>,
    tailored: &Trie<A>,
) -> Result<(), AuditFault>
    requires { FindsRowsOf (tailoring_in inputs.now).tailored (⟦<Trie<A> as Lookup>⟧.content tailored.now) }
    ensures { Settles (tailoring_in inputs.now) Condition.RowMissing result }
{
    if let Some(at) = first_missing_row(inputs, tailored) {
        return Err(at_base_row(inputs, Condition::RowMissing, at));
    }
    match first_missing_target(inputs, tailored) {
        None => Ok(()),
        Some(at) => Err(at_relation(inputs, Condition::RowMissing, at)),
    }
}

/// Condition 9. The list, empty at first, gets how the targets were placed.
pub(crate) fn targets_are_placed<A: Allocator + Copy, T: Allocator>(
    alloc: A,
    inputs: &Inputs<T>,
    collator: &Collator<Trie<A>, T>,
    list: &mut Vec<Placement, A>,
) -> Result<(), AuditFault>
    requires reads { ReadsAs (collation_of ⟦<Trie<A> as Lookup>⟧.content collator.now) (tailored_reading (tailoring_in inputs.now)) }
    requires none { list.old.items ≡ [] }
    ensures placed { OnOk result (AllZip (IsPlacement (tailoring_in inputs.now)) (tailoring_in inputs.now).relations list.new.items) }
    ensures settled { Settles (tailoring_in inputs.now) Condition.NotPlaced result }
{
    match first_not_placed(alloc, inputs, collator, list)? {
        None => Ok(()),
        Some(at) => Err(at_relation(inputs, Condition::NotPlaced, at)),
    }
}

/// The error of a condition at the row of the base with this index.
fn at_base_row<T: Allocator>(inputs: &Inputs<T>, condition: Condition, at: usize) -> AuditFault
    requires { at < length (tailoring_in inputs.now).base.rows }
    ensures { result ≡ record { number = number_of condition; place = Place.BaseRow (at + 1) } }
{
    fault_of(condition, Place::BaseRow(row_number(inputs.base, at)))
}

/// The error of a condition at the tailored row with this index.
fn at_tailored_row<T: Allocator>(inputs: &Inputs<T>, condition: Condition, at: usize) -> AuditFault
    requires { at < length (tailoring_in inputs.now).tailored.rows }
    ensures { result ≡ record { number = number_of condition; place = Place.TailoredRow (at + 1) } }
{
    fault_of(
        condition,
        Place::TailoredRow(row_number(inputs.tailored, at)),
    )
}

/// The error of a condition at the relation with this index.
fn at_relation<T: Allocator>(inputs: &Inputs<T>, condition: Condition, at: usize) -> AuditFault
    requires { at < length (tailoring_in inputs.now).relations }
    ensures { result ≡ record { number = number_of condition; place = Place.Relation (suc at) } }
{
    fault_of(
        condition,
        Place::Relation(relation_number(inputs.rules, at)),
    )
}

/// The error of a condition at a position.
fn fault_of(condition: Condition, place: Place) -> AuditFault
    ensures { result ≡ record { number = number_of condition; place = place } }
{
    AuditFault {
        number: number(condition),
        place,
    }
}

/// The number of a condition.
fn number(condition: Condition) -> u8
    ensures { result ≡ number_of condition }
{
    match condition {
        Condition::BaseIllFormed => 1,
        Condition::TailoredIllFormed => 2,
        Condition::Header => 3,
        Condition::Uncovered => 4,
        Condition::RowChanged => 5,
        Condition::RowMissing => 6,
        Condition::RowExtra => 7,
        Condition::Anchor => 8,
        Condition::NotPlaced => 9,
        Condition::NotFresh => 10,
        Condition::NotNearest => 11,
    }
}

/// The number of the row with this index.
fn row_number<T: Allocator>(table: &Table<T>, at: usize) -> u32
    requires { at < length table.now.rows }
    ensures { result ≡ at + 1 }
{
    // Looked at, so that the proof knows how many rows there are at most.
    let _ = &table.rows;
    at as u32 + 1
}

/// The number of the relation with this index.
fn relation_number<T: Allocator>(rules: &Rules<T>, at: usize) -> u32
    requires { at < length rules.now }
    ensures { result ≡ suc at }
{
    // Looked at, so that the proof knows how many relations there are at most.
    let _ = rules.relations();
    at as u32 + 1
}

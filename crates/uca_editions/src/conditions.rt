//! The conditions in turn. Each function tests one condition, and goes on to the next if it is met. Otherwise the error has the
//! first position where it is not.

ghost use Rattle.std.specs.Prelude.{◌≡◌, ◌<◌, ◌+◌, IfOk, None, length};
ghost use Rattle.uca_weights.specs.AskedSettings.{weighting_by};
ghost use Rattle.uca_check.specs.Searches.{FindsFirstWithout};
ghost use Rattle.uca_elements.specs.Rows.{rows_of};
ghost use Rattle.uca_tailorings.specs.KeptRows.{IsKnownRow};
ghost use Rattle.uca_changes.specs.Changes.{IsChangedText};
ghost use Rattle.uca_editions.specs.ChangeInputs.{change_in};
ghost use Rattle.uca_editions.specs.inside.Chaining.{FindsRowsOf, MeetsBelow, Passes};

use crate::points::{first_other_pair, first_other_point};
use crate::{ChangeCondition, ChangeFault, ChangeInputs, ChangePlace};
use std::alloc::{AllocError, Allocator};
use uca_check::check;
use uca_elements::Lookup;
use uca_images::{Images, first_changed, first_missing, first_uncovered, first_unknown};
use uca_match::Trie;
use uca_values::Table;
use uca_weights::Weighting;

/// All conditions.
pub(crate) fn audit_conditions<A: Allocator + Copy, T: Allocator>(
    alloc: A,
    inputs: &ChangeInputs<T>,
) -> Result<(), ChangeFault>
    ensures { Passes (change_in inputs.now) 10 result }
{
    match check(inputs.old, inputs.old_data) {
        Ok(()) => audit_new_table(alloc, inputs),
        Err(fault) => Err(ChangeFault::NotMet(
            ChangeCondition::OldIllFormed,
            ChangePlace::OldRow(fault.row),
        )),
    }
}

// Condition 2 and all after it.
fn audit_new_table<A: Allocator + Copy, T: Allocator>(
    alloc: A,
    inputs: &ChangeInputs<T>,
) -> Result<(), ChangeFault>
    requires { MeetsBelow (change_in inputs.now) 2 }
    ensures { Passes (change_in inputs.now) 10 result }
{
    match check(inputs.new, inputs.new_data) {
        Ok(()) => audit_ranges(alloc, inputs),
        Err(fault) => Err(ChangeFault::NotMet(
            ChangeCondition::NewIllFormed,
            ChangePlace::NewRow(fault.row),
        )),
    }
}

// Condition 3 and all after it.
fn audit_ranges<A: Allocator + Copy, T: Allocator>(
    alloc: A,
    inputs: &ChangeInputs<T>,
) -> Result<(), ChangeFault>
    requires { MeetsBelow (change_in inputs.now) 3 }
    ensures { Passes (change_in inputs.now) 10 result }
{
    let old = inputs.old;
    let new = inputs.new;
    match first_other_pair(alloc, &old.header, &new.header, inputs.changes) {
        Ok(None) => audit_rows(alloc, inputs),
        Ok(Some(point)) => Err(ChangeFault::NotMet(
            ChangeCondition::RangeChanged,
            ChangePlace::CodePoint(point),
        )),
        Err(AllocError) => Err(ChangeFault::Memory),
    }
}

// Condition 4 and all after it.
fn audit_rows<A: Allocator + Copy, T: Allocator>(
    alloc: A,
    inputs: &ChangeInputs<T>,
) -> Result<(), ChangeFault>
    requires { MeetsBelow (change_in inputs.now) 4 }
    ensures { Passes (change_in inputs.now) 10 result }
{
    match audit_old_rows(alloc, inputs) {
        Ok(()) => audit_new_rows(alloc, inputs),
        Err(fault) => Err(fault),
    }
}

// Conditions 4 to 6. The images of all weights are lent to the functions below: so they are dropped in one place.
fn audit_old_rows<A: Allocator + Copy, T: Allocator>(
    alloc: A,
    inputs: &ChangeInputs<T>,
) -> Result<(), ChangeFault>
    requires { MeetsBelow (change_in inputs.now) 4 }
    ensures { Passes (change_in inputs.now) 7 result }
{
    match Images::new(alloc, inputs.certificate) {
        Ok(images) => {
            let audited = audit_weights(alloc, inputs, &images);
            drop(images);
            audited
        }
        Err(AllocError) => Err(ChangeFault::Memory),
    }
}

// Condition 4, and then 5 and 6.
fn audit_weights<A: Allocator + Copy, T: Allocator>(
    alloc: A,
    inputs: &ChangeInputs<T>,
    images: &Images<A, T>,
) -> Result<(), ChangeFault>
    requires images { images.now ≡ inputs.now.certificate.now }
    requires met { MeetsBelow (change_in inputs.now) 4 }
    ensures { Passes (change_in inputs.now) 7 result }
{
    let old = inputs.old;
    match first_uncovered(&old.rows, inputs.changes, images) {
        None => audit_lookup(alloc, inputs, images),
        Some(at) => Err(at_old_row(inputs, ChangeCondition::Uncovered, at)),
    }
}

// Conditions 5 and 6, by a lookup of the new table.
fn audit_lookup<A: Allocator + Copy, T: Allocator>(
    alloc: A,
    inputs: &ChangeInputs<T>,
    images: &Images<A, T>,
) -> Result<(), ChangeFault>
    requires images { images.now ≡ inputs.now.certificate.now }
    requires met { MeetsBelow (change_in inputs.now) 5 }
    ensures { Passes (change_in inputs.now) 7 result }
{
    match Trie::new(alloc, inputs.new) {
        Ok(new) => {
            let audited = audit_kept(inputs, images, &new);
            drop(new);
            audited
        }
        Err(AllocError) => Err(ChangeFault::Memory),
    }
}

// Condition 5, and then 6.
fn audit_kept<A: Allocator + Copy, T: Allocator>(
    inputs: &ChangeInputs<T>,
    images: &Images<A, T>,
    new: &Trie<A>,
) -> Result<(), ChangeFault>
    requires images { images.now ≡ inputs.now.certificate.now }
    requires rows { FindsRowsOf (change_in inputs.now).new (⟦<Trie<A> as Lookup>⟧.content new.now) }
    requires met { MeetsBelow (change_in inputs.now) 5 }
    ensures { Passes (change_in inputs.now) 7 result }
{
    let old = inputs.old;
    match first_changed(&old.rows, inputs.changes, images, new) {
        None => audit_present(inputs, new),
        Some(at) => Err(at_old_row(inputs, ChangeCondition::RowChanged, at)),
    }
}

// Condition 6.
fn audit_present<A: Allocator + Copy, T: Allocator>(
    inputs: &ChangeInputs<T>,
    new: &Trie<A>,
) -> Result<(), ChangeFault>
    requires rows { FindsRowsOf (change_in inputs.now).new (⟦<Trie<A> as Lookup>⟧.content new.now) }
    requires met { MeetsBelow (change_in inputs.now) 6 }
    ensures { Passes (change_in inputs.now) 7 result }
{
    let old = inputs.old;
    match first_missing(&old.rows, inputs.changes, new) {
        None => Ok(()),
        Some(at) => Err(at_old_row(inputs, ChangeCondition::RowMissing, at)),
    }
}

// Condition 7, and then 8.
fn audit_new_rows<A: Allocator + Copy, T: Allocator>(
    alloc: A,
    inputs: &ChangeInputs<T>,
) -> Result<(), ChangeFault>
    requires { MeetsBelow (change_in inputs.now) 7 }
    ensures { Passes (change_in inputs.now) 10 result }
{
    match first_not_known(alloc, inputs) {
        Ok(None) => audit_points(alloc, inputs),
        Ok(Some(at)) => Err(ChangeFault::NotMet(
            ChangeCondition::RowExtra,
            ChangePlace::NewRow(row_number(inputs.new, at)),
        )),
        Err(AllocError) => Err(ChangeFault::Memory),
    }
}

// The first new row that is not listed and has no old row, by its index. An error means that it ran out of memory.
fn first_not_known<A: Allocator + Copy, T: Allocator>(
    alloc: A,
    inputs: &ChangeInputs<T>,
) -> Result<Option<usize>, AllocError>
    ensures { IfOk result (FindsFirstWithout (IsKnownRow (IsChangedText (change_in inputs.now)) (rows_of (change_in inputs.now).old.rows))
        (change_in inputs.now).new.rows) }
{
    let old = Trie::new(alloc, inputs.old)?;
    let table = inputs.new;
    let found = first_unknown(&table.rows, inputs.changes, &old);
    drop(old);
    Ok(found)
}

// Condition 8, and then 9.
fn audit_points<A: Allocator + Copy, T: Allocator>(
    alloc: A,
    inputs: &ChangeInputs<T>,
) -> Result<(), ChangeFault>
    requires { MeetsBelow (change_in inputs.now) 8 }
    ensures { Passes (change_in inputs.now) 10 result }
{
    match first_other_point(alloc, inputs.old_data, inputs.new_data, inputs.changes) {
        Ok(None) => audit_settings(inputs),
        Ok(Some(point)) => Err(ChangeFault::NotMet(
            ChangeCondition::PointChanged,
            ChangePlace::CodePoint(point),
        )),
        Err(AllocError) => Err(ChangeFault::Memory),
    }
}

// Condition 9.
fn audit_settings<T: Allocator>(inputs: &ChangeInputs<T>) -> Result<(), ChangeFault>
    requires { MeetsBelow (change_in inputs.now) 9 }
    ensures { Passes (change_in inputs.now) 10 result }
{
    if said_weighting(inputs.old) == said_weighting(inputs.new) {
        Ok(())
    } else {
        Err(ChangeFault::NotMet(ChangeCondition::SettingChanged, ChangePlace::Nowhere))
    }
}

// The weighting that a table says, or else shifted (UTS #10, section 4).
fn said_weighting<T: Allocator>(table: &Table<T>) -> Weighting
    ensures { result ≡ weighting_by None table.now.header.setting }
{
    table.header.setting.unwrap_or(Weighting::Shifted)
}

// The error of a condition at the row of the old table with this index.
fn at_old_row<T: Allocator>(
    inputs: &ChangeInputs<T>,
    condition: ChangeCondition,
    at: usize,
) -> ChangeFault
    requires { at < length (change_in inputs.now).old.rows }
    ensures { result ≡ ChangeFault.NotMet condition (ChangePlace.OldRow (at + 1)) }
{
    ChangeFault::NotMet(condition, ChangePlace::OldRow(row_number(inputs.old, at)))
}

// The number of the row with this index.
fn row_number<T: Allocator>(table: &Table<T>, at: usize) -> u32
    requires { at < length table.now.rows }
    ensures { result ≡ at + 1 }
{
    // Looked at, so that the proof knows how many rows there are at most.
    let _ = &table.rows;
    at as u32 + 1
}

//! `find_changes`: finds a list of changes and a certificate, and ends with an audit of them.
//!
//! ```text
//! old, new ─> rows of the same shape ─> moves of weights ─> the heaviest rising chain of each level ─> runs ─> Certificate
//! old, new, images ─> keys whose rows are no images, keys of one table alone ─> changed texts
//! headers, data files ─> borders of ranges ─> code points that are not as they were ─> changed ranges
//! ```
//!
//! Nothing is proved of these steps, since the audit judges what they find. If it rejected that, the maker would list
//! all keys and all code points (`everything.rt`).

ghost use Rattle.std.specs.Prelude.{◌≡◌, ◌⊎◌, IfOk, IfErr, OnOk};
ghost use Rattle.uca_changes.specs.Changes.{IsAcceptedChange};
ghost use Rattle.uca_editions.specs.ChangeInputs.{MeansUnaffectedTextsStay};
ghost use Rattle.uca_editions.specs.ChangeRefusals.{IsFirstRefusal};
ghost use Rattle.uca_editions.specs.Found.{change_by, MayChange, RefusesChanges};

use crate::changed_ranges::list_ranges;
use crate::changed_texts::list_texts;
use crate::everything::everything;
use crate::levels::level_map;
use crate::{ChangeFault, ChangeInputs, Editions, ListedChanges, audit_change};
use std::alloc::{AllocError, Allocator};
use uca_certificates::Certificate;
use uca_change_files::ChangeList;
use uca_elements::Lookup;
use uca_match::Trie;
use uca_values::Row;
use uca_weights::Level;

/// Finds what changes from an old table and its data file to new ones: changed texts, changed ranges of code points, and maps
/// of weights. An audit accepts them: [`audit_change`](crate::audit_change) is called on what was found.
///
/// The maps send weights as most rows do that have as many elements in both tables. Each key is listed whose new row is not
/// the image of its old row, and each key of one table alone. These need not be the fewest texts. If an audit rejected them,
/// all keys and all code points would be listed.
///
/// It takes n log n steps for tables and data files of n lines. For each code point at which a range begins or has ended it looks at
/// the ranges of both headers, at most 512.
///
/// # Errors
///
/// `NotMet` if no change from the old edition to the new one is accepted, whatever is listed. It has the condition and the
/// position that the audit names: `OldIllFormed` or `NewIllFormed` with the first row that is not well-formed, or
/// `SettingChanged` if the tables say two weightings. `Memory` means that an allocation failed.
///
/// So for two well-formed tables that say the same weighting there is no error but `Memory`.
pub fn find_changes<A: Allocator + Copy>(
    alloc: A,
    editions: &Editions<A>,
) -> Result<ListedChanges<A>, ChangeFault>
    // An audit accepts what was found.
    ensures accepted { IfOk result (λ found. IsAcceptedChange (change_by editions.now found)) }

    // So texts in which nothing is changed compare as before, and their stored keys are put through the maps.
    ensures meaning { IfOk result (λ found. MeansUnaffectedTextsStay (change_by editions.now found)) }

    ensures refused { IfErr result (RefusesChanges editions.now) }

    ensures only { MayChange editions.now → IfErr result (λ fault. fault ≡ ChangeFault.Memory) }
{
    let found = found_changes(alloc, editions)?;
    match audit_found(alloc, editions, &found) {
        Ok(()) => Ok(found),
        Err(fault) => {
            drop(found);
            find_after(alloc, editions, fault)
        }
    }
}

// What is found after an audit rejected a change.
fn find_after<A: Allocator + Copy>(
    alloc: A,
    editions: &Editions<A>,
    fault: ChangeFault,
) -> Result<ListedChanges<A>, ChangeFault>
    ensures accepted { IfOk result (λ found. IsAcceptedChange (change_by editions.now found)) }
    ensures meaning { IfOk result (λ found. MeansUnaffectedTextsStay (change_by editions.now found)) }
    ensures refused { IfErr result (RefusesChanges editions.now) }
{
    match fault {
        ChangeFault::NotMet(_, _) => find_everything(alloc, editions),
        ChangeFault::Memory => Err(ChangeFault::Memory),
    }
}

// The change of everything. An audit rejects it only if a table is not well-formed, or if the tables say two weightings.
fn find_everything<A: Allocator + Copy>(
    alloc: A,
    editions: &Editions<A>,
) -> Result<ListedChanges<A>, ChangeFault>
    ensures accepted { IfOk result (λ found. IsAcceptedChange (change_by editions.now found)) }
    ensures meaning { IfOk result (λ found. MeansUnaffectedTextsStay (change_by editions.now found)) }
    ensures refused { IfErr result (RefusesChanges editions.now) }
{
    let found = everything(alloc, editions)?;
    match audit_found(alloc, editions, &found) {
        Ok(()) => Ok(found),
        Err(fault) => Err(fault),
    }
}

// What changes, before any audit.
fn found_changes<A: Allocator + Copy>(
    alloc: A,
    editions: &Editions<A>,
) -> Result<ListedChanges<A>, AllocError> {
    let new = Trie::new(alloc, editions.new)?;
    let found = found_by(alloc, editions, &new);
    drop(new);
    found
}

// What changes, by the rows of the new table.
fn found_by<A: Allocator + Copy, L: Lookup>(
    alloc: A,
    editions: &Editions<A>,
    new: &L,
) -> Result<ListedChanges<A>, AllocError> {
    let old = editions.old;
    let certificate = certificate_of(alloc, &old.rows, new)?;
    let mut list = ChangeList::new(alloc);
    match list_changes(alloc, &mut list, editions, &certificate, new) {
        Ok(()) => Ok(ListedChanges { list, certificate }),
        Err(error) => Err(error),
    }
}

// Lists the texts and the ranges that change.
fn list_changes<A: Allocator + Copy, L: Lookup>(
    alloc: A,
    list: &mut ChangeList<A>,
    editions: &Editions<A>,
    certificate: &Certificate<A>,
    new: &L,
) -> Result<(), AllocError> {
    list_texts(alloc, list, editions, certificate, new)?;
    list_ranges(alloc, list, editions)
}

// The maps of the weights of all levels.
fn certificate_of<A: Allocator + Copy, L: Lookup>(
    alloc: A,
    old: &[Row<A>],
    new: &L,
) -> Result<Certificate<A>, AllocError> {
    let primary = level_map(alloc, Level::One, old, new)?;
    let secondary = level_map(alloc, Level::Two, old, new)?;
    match level_map(alloc, Level::Three, old, new) {
        Ok(tertiary) => Ok(Certificate {
            primary,
            secondary,
            tertiary,
        }),
        Err(error) => Err(error),
    }
}

// Audits what was found.
fn audit_found<A: Allocator + Copy>(
    alloc: A,
    editions: &Editions<A>,
    found: &ListedChanges<A>,
) -> Result<(), ChangeFault>
    ensures accepted { OnOk result (IsAcceptedChange (change_by editions.now found.now)) }
    ensures meaning { OnOk result (MeansUnaffectedTextsStay (change_by editions.now found.now)) }
    ensures refused { IfErr result (λ fault. IsFirstRefusal (change_by editions.now found.now) fault ⊎ (fault ≡ ChangeFault.Memory)) }
{
    let inputs = ChangeInputs {
        old: editions.old,
        old_data: editions.old_data,
        new: editions.new,
        new_data: editions.new_data,
        changes: &found.list,
        certificate: &found.certificate,
    };
    audit_change(alloc, &inputs)
}

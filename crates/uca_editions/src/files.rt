//! What the files of a change mean, and its audit: two editions, each of them a table and its data file, and then a file of
//! changes and a certificate.

ghost use Rattle.std.specs.Prelude.{◌≡◌, ◌⊎◌, IfErr, OnOk};
ghost use Rattle.uca_changes.specs.Changes.{IsAcceptedChange};
ghost use Rattle.uca_editions.specs.ChangeInputs.{MeansUnaffectedTextsStay};
ghost use Rattle.uca_editions.specs.ChangeRefusals.{IsFirstRefusal};
ghost use Rattle.uca_editions.specs.ReadChange.{change_of};

use crate::{ChangeFault, ChangeInputs, ListedChanges, audit_change};
use std::alloc::{Allocator, Global};
use uca_values::{Data, Table};

/// What a table and its data file mean.
#[derive(Drop)]
pub struct Edition<M: Allocator = Global> {
    /// The weight table.
    pub table: Table<M>,
    /// The properties of code points.
    pub properties: Data<M>,
}

/// What the files of two editions mean.
#[derive(Drop)]
pub struct EditionFiles<M: Allocator = Global> {
    /// The old table and its data file.
    pub old: Edition<M>,
    /// The new table and its data file.
    pub new: Edition<M>,
}

/// What the files of a change mean.
#[derive(Drop)]
pub struct ChangeFiles<M: Allocator = Global> {
    /// The two editions.
    pub editions: EditionFiles<M>,
    /// What changes from the one to the other.
    pub listed: ListedChanges<M>,
}

/// Audits the change that was read of its files, as [`audit_change`] does.
///
/// # Errors
///
/// Those of [`audit_change`].
pub fn audit_files<M: Allocator + Copy>(alloc: M, files: &ChangeFiles<M>) -> Result<(), ChangeFault>
    ensures accepted { OnOk result (IsAcceptedChange (change_of files.now)) }
    ensures meaning { OnOk result (MeansUnaffectedTextsStay (change_of files.now)) }
    ensures refused { IfErr result (λ fault. IsFirstRefusal (change_of files.now) fault ⊎ (fault ≡ ChangeFault.Memory)) }
{
    let editions = &files.editions;
    let inputs = ChangeInputs {
        old: &editions.old.table,
        old_data: &editions.old.properties,
        new: &editions.new.table,
        new_data: &editions.new.properties,
        changes: &files.listed.list,
        certificate: &files.listed.certificate,
    };
    audit_change(alloc, &inputs)
}

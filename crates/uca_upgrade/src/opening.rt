//! How an upgrade is opened: from the bytes of six files, and only if the audit accepts what they mean.

ghost use Rattle.std.specs.Prelude.{◌≡◌, IfOk, IfErr, OnOk, MatchResult};
ghost use Rattle.uca_weights.specs.AskedSettings.{settings_by};
ghost use Rattle.uca_values.specs.Content.{properties_of};
ghost use Rattle.uca_number_keys.specs.Tables.{TakesTable};
ghost use Rattle.uca_changes.specs.Changes.{Change};
ghost use Rattle.uca_upgrade.specs.Causes.{IsUpgradeCause, IsUpgradeStop, TakesTables};
ghost use Rattle.uca_upgrade.specs.Files.{MeanChange};
ghost use Rattle.uca_upgrade.specs.Opening.{IsUpgradeOf, OpensUpgrade};
ghost use Rattle.uca_upgrade.specs.Upgrades.{KeepsChange};
ghost use Rattle.uca_editions.specs.ReadChange.{change_of};
ghost use Rattle.uca_upgrade.specs.inside.Read.{IsAuditStop, IsTableStop, audit_fault_of};

use crate::faults::UpgradeFault;
use crate::files::{UpgradeFiles, new_fault, old_fault, read_change};
use crate::owned::OwnedUpgrade;
use std::alloc::{AllocError, Global};
use uca_editions::{
    ChangeFault, ChangeFiles, ChangeIndex, Edition, EditionFiles, ListedChanges, audit_files,
};
use uca_fingerprint::fingerprint;
use uca_images::KeyMover;
use uca_number_keys::check_number_rows;
use uca_numbers::WrittenText;
use uca_owned::OpenFault;
use uca_text::Normal;
use uca_values::{Header, PackedRows};
use uca_weights::{Asked, Numbers, Settings};

impl OwnedUpgrade {
    /// Reads the six files from their bytes, audits the change that they mean, and keeps what an upgrade of stored keys
    /// needs. The settings are those that were asked for when the stored keys were made. Where no weighting was, keys go by
    /// what the tables say. It keeps none of the bytes.
    ///
    /// An upgrade that is opened keeps the promise of the change. Take a text that is not
    /// [`affected`](OwnedUpgrade::affected): its key by the old files becomes its key by the new ones through
    /// [`rekey`](OwnedUpgrade::rekey). Two such texts compare as before.
    ///
    /// # Errors
    ///
    /// - The first file that is rejected, in the order of [`UpgradeFiles`], for the reasons of
    ///   [`read_table`](uca_table::read_table), [`read_data`](uca_table::read_data),
    ///   [`read_changes`](uca_change_files::read_changes) and [`read_certificate`](uca_certificates::read_certificate).
    ///   So too if an allocation failed while that file was read.
    /// - `OldDigits` and then `NewDigits`: numbers are to be ordered by value, and the table does not order them.
    /// - `NotMet`: the audit rejects the change, as [`audit_change`](uca_editions::audit_change) says.
    /// - `Memory`: an allocation failed later.
    pub fn open(
        alloc: Global,
        files: &UpgradeFiles,
        asked: Asked,
    ) -> Result<OwnedUpgrade, UpgradeFault>
        ensures found { IfOk result (OpensUpgrade files.now asked) }
        ensures only { (change : Change) → MeanChange files.now change →
            MatchResult result (IsUpgradeOf files.now change asked) (IsUpgradeStop asked.numbers change) }
        ensures fault { IfErr result (IsUpgradeCause asked.numbers files.now) }
    {
        match read_change(alloc, files) {
            Ok(read) => audited(alloc, files, read, asked),
            Err(fault) => Err(fault),
        }
    }
}

// Tests that both tables are for numbers that are compared so, the old one first.
fn check_tables(alloc: Global, numbers: Numbers, read: &ChangeFiles) -> Result<(), UpgradeFault>
    ensures taken { OnOk result (TakesTables numbers (change_of read.now)) }
    ensures stop { IfErr result (IsAuditStop numbers (change_of read.now)) }
{
    match check_edition(alloc, numbers, &read.editions.old) {
        Ok(()) => match check_edition(alloc, numbers, &read.editions.new) {
            Ok(()) => Ok(()),
            Err(fault) => Err(new_fault(fault)),
        },
        Err(fault) => Err(old_fault(fault)),
    }
}

// Tests that a table is for numbers that are compared so.
fn check_edition(alloc: Global, numbers: Numbers, edition: &Edition) -> Result<(), OpenFault>
    ensures taken { OnOk result (TakesTable numbers edition.now.table (properties_of edition.now.properties)) }
    ensures stop { IfErr result (IsTableStop numbers edition.now.table (properties_of edition.now.properties)) }
{
    if numbers == Numbers::AsText {
        return Ok(());
    }
    let table = &edition.table;
    let Ok(rows) = PackedRows::of_rows(alloc, &table.rows) else {
        return Err(OpenFault::Memory);
    };
    match check_number_rows(numbers, &rows, &edition.properties) {
        Ok(()) => Ok(()),
        Err(fault) => Err(OpenFault::Digits { row: fault.row }),
    }
}

// The upgrade of a change that was read, if its tables are for what is asked for and the audit accepts it.
fn audited(
    alloc: Global,
    files: &UpgradeFiles,
    read: ChangeFiles,
    asked: Asked,
) -> Result<OwnedUpgrade, UpgradeFault>
    ensures { MatchResult result (IsUpgradeOf files.now (change_of read) asked) (IsAuditStop asked.numbers (change_of read)) }
{
    match check_tables(alloc, asked.numbers, &read) {
        Ok(()) => accepted(alloc, files, read, asked),
        Err(fault) => {
            drop(read);
            Err(fault)
        }
    }
}

// The upgrade of a change whose tables are for what is asked for, if the audit accepts the change.
fn accepted(
    alloc: Global,
    files: &UpgradeFiles,
    read: ChangeFiles,
    asked: Asked,
) -> Result<OwnedUpgrade, UpgradeFault>
    requires { TakesTables asked.numbers (change_of read) }
    ensures { MatchResult result (IsUpgradeOf files.now (change_of read) asked) (IsAuditStop asked.numbers (change_of read)) }
{
    match audit_files(alloc, &read) {
        Ok(()) => match kept(alloc, files, read, asked) {
            Ok(upgrade) => Ok(upgrade),
            Err(_) => Err(UpgradeFault::Memory),
        },
        Err(fault) => {
            drop(read);
            Err(not_met(fault))
        }
    }
}

// The error of an audit.
fn not_met(fault: ChangeFault) -> UpgradeFault
    ensures { result ≡ audit_fault_of fault }
{
    match fault {
        ChangeFault::NotMet(condition, place) => UpgradeFault::NotMet(condition, place),
        ChangeFault::Memory => UpgradeFault::Memory,
    }
}

// What an upgrade keeps of a change that was read.
fn kept(
    alloc: Global,
    files: &UpgradeFiles,
    read: ChangeFiles,
    asked: Asked,
) -> Result<OwnedUpgrade, AllocError>
    ensures { IfOk result (KeepsChange files.now (change_of read) asked) }
{
    let ChangeFiles {
        editions: EditionFiles { old, new },
        listed: ListedChanges { list, certificate },
    } = read;
    let settings = settings_under(asked, &old.table.header);
    let new_settings = settings_under(asked, &new.table.header);
    let index = ChangeIndex::new(alloc, list)?;
    let mover = KeyMover::new(alloc, certificate, settings)?;
    Ok(OwnedUpgrade {
        index,
        mover,
        numbers: asked.numbers,
        data_file: new.properties,
        text: Normal::new(alloc),
        written: WrittenText::new(alloc),
        before: Vec::new(alloc),
        old_fingerprint: fingerprint(settings, files.old_table, files.old_data),
        new_fingerprint: fingerprint(new_settings, files.new_table, files.new_data),
    })
}

// The settings of keys under a table with this header.
fn settings_under(asked: Asked, header: &Header) -> Settings
    ensures { result ≡ settings_by asked header.now.setting }
{
    asked.settings(header.setting)
}

//! The six files of an upgrade, read from their bytes.

ghost use Rattle.std.specs.Prelude.{◌≡◌, ◌≢◌, ◌⊎◌, IfOk, IfErr, MatchResult};
ghost use Rattle.uca_values.specs.Content.{TableContent, Properties, properties_of};
ghost use Rattle.uca_values.specs.declared.faults.FaultKind.TheVariants as kinds;
ghost use Rattle.uca_certificates.specs.Certificates.{CertificateContent};
ghost use Rattle.uca_certificates.specs.Texts as certificates;
ghost use Rattle.uca_certificates.specs.declared.faults.CertificateFaultKind.TheVariants as certificate_kinds;
ghost use Rattle.uca_change_files.specs.Changes.{ChangeContent};
ghost use Rattle.uca_change_files.specs.ChangeTexts as changes;
ghost use Rattle.uca_changes.specs.Changes.{Change};
ghost use Rattle.uca_owned.specs.Opening.{MeanFiles, IsOpenCause, IsOpenStop};
ghost use Rattle.uca_upgrade.specs.Files.{MeanChange};
ghost use Rattle.uca_upgrade.specs.Causes.{AreEditions, IsUpgradeCause, IsUpgradeStop, RejectsChanges, RejectsCertificate};
ghost use Rattle.uca_editions.specs.ReadChange.{change_of};
ghost use Rattle.uca_upgrade.specs.inside.Read.{AreEditionsOf, EditionsMean, IsListedOf, ListMeans, new_fault_of, old_fault_of};

use crate::faults::UpgradeFault;
use std::alloc::Global;
use uca_certificates::{Certificate, CertificateFault, CertificateFaultKind, read_certificate};
use uca_change_files::{ChangeList, read_changes};
use uca_editions::{ChangeFiles, Edition, EditionFiles, ListedChanges};
use uca_owned::{OpenFault, in_memory};
use uca_table::{read_data, read_table};
use uca_values::TableFault;
use uca_weights::{Numbers, Source};

/// The bytes of the six files of an upgrade.
#[derive(Clone, Copy)]
pub struct UpgradeFiles<'a> {
    /// The table that the stored keys were made by.
    pub old_table: &'a [u8],
    /// Its data file.
    pub old_data: &'a [u8],
    /// The table that keys are made by from now on.
    pub new_table: &'a [u8],
    /// Its data file.
    pub new_data: &'a [u8],
    /// The file of changes: the texts and the ranges of code points that change.
    pub changes: &'a [u8],
    /// The certificate: the images of the old table's weights.
    pub certificate: &'a [u8],
}

// Reads the six files, in their order.
pub(crate) fn read_change(alloc: Global, files: &UpgradeFiles) -> Result<ChangeFiles, UpgradeFault>
    ensures found { IfOk result (λ read. MeanChange files.now (change_of read)) }
    ensures only { (change : Change) → MeanChange files.now change →
        MatchResult result (λ read. change_of read ≡ change) (IsUpgradeStop Numbers.AsText change) }
    ensures fault { IfErr result (IsUpgradeCause Numbers.AsText files.now) }
{
    match read_editions(alloc, files) {
        Ok(editions) => match read_listed(alloc, files) {
            Ok(listed) => Ok(ChangeFiles { editions, listed }),
            Err(fault) => {
                drop(editions);
                Err(fault)
            }
        },
        Err(fault) => Err(fault),
    }
}

// Reads the files of the old edition, and then those of the new one.
fn read_editions(alloc: Global, files: &UpgradeFiles) -> Result<EditionFiles, UpgradeFault>
    ensures found { IfOk result (EditionsMean files.now) }
    ensures only { (change : Change) → MeanChange files.now change →
        MatchResult result (AreEditionsOf change) (IsUpgradeStop Numbers.AsText change) }
    ensures fault { IfErr result (IsUpgradeCause Numbers.AsText files.now) }
{
    match read_edition(alloc, files.old_table, files.old_data) {
        Ok(old) => match read_edition(alloc, files.new_table, files.new_data) {
            Ok(new) => Ok(EditionFiles { old, new }),
            Err(fault) => {
                drop(old);
                Err(new_fault(fault))
            }
        },
        Err(fault) => Err(old_fault(fault)),
    }
}

// Reads a table, and then its data file. An error is in one of them.
fn read_edition(alloc: Global, table: &[u8], data_file: &[u8]) -> Result<Edition, OpenFault>
    ensures found { IfOk result (λ read. MeanFiles table.now data_file.now read.table (properties_of read.properties)) }
    ensures only { (meant : TableContent) (properties : Properties) → MeanFiles table.now data_file.now meant properties →
        MatchResult result (λ read. (read.table ≡ meant) × (properties_of read.properties ≡ properties)) (IsOpenStop Numbers.AsText meant properties) }
    ensures fault { IfErr result (IsOpenCause Numbers.AsText table.now data_file.now) }
    ensures file { IfErr result (λ fault. fault ≢ OpenFault.Memory) }
{
    match read_table(alloc, &mut Source::new(table)) {
        Ok(table) => match read_data(alloc, &mut Source::new(data_file)) {
            Ok(properties) => Ok(Edition { table, properties }),
            Err(fault) => {
                drop(table);
                Err(OpenFault::Data(in_memory(fault)))
            }
        },
        Err(fault) => Err(OpenFault::Table(in_memory(fault))),
    }
}

// Reads the file of changes, and then the certificate.
fn read_listed(alloc: Global, files: &UpgradeFiles) -> Result<ListedChanges, UpgradeFault>
    ensures found { IfOk result (ListMeans files.now) }
    ensures only { (change : Change) → MeanChange files.now change →
        MatchResult result (IsListedOf change) (IsUpgradeStop Numbers.AsText change) }
    ensures fault { IfErr result (λ fault. AreEditions files.now → IsUpgradeCause Numbers.AsText files.now fault) }
{
    match list_of(alloc, files.changes) {
        Ok(list) => match certificate_of(alloc, files.certificate) {
            Ok(certificate) => Ok(ListedChanges { list, certificate }),
            Err(fault) => {
                drop(list);
                Err(UpgradeFault::Certificate(fault))
            }
        },
        Err(fault) => Err(UpgradeFault::Changes(fault)),
    }
}

// The list that the bytes of a file of changes mean.
fn list_of(alloc: Global, bytes: &[u8]) -> Result<ChangeList, TableFault>
    ensures found { IfOk result (changes.Means bytes.now) }
    ensures only { (content : ChangeContent) → changes.Means bytes.now content →
        MatchResult result (λ list. list ≡ content) (λ fault. fault.kind ≡ kinds.Memory) }
    ensures rejected { IfErr result (RejectsChanges bytes.now) }
{
    match read_changes(alloc, &mut Source::new(bytes)) {
        Ok(list) => Ok(list),
        Err(fault) => Err(in_memory(fault)),
    }
}

// The certificate that these bytes mean.
fn certificate_of(alloc: Global, bytes: &[u8]) -> Result<Certificate, CertificateFault>
    ensures found { IfOk result (certificates.Means bytes.now) }
    ensures only { (content : CertificateContent) → certificates.Means bytes.now content →
        MatchResult result (λ read. read ≡ content) (λ fault. fault.kind ≡ certificate_kinds.Memory) }
    ensures rejected { IfErr result (RejectsCertificate bytes.now) }
{
    match read_certificate(alloc, &mut Source::new(bytes)) {
        Ok(certificate) => Ok(certificate),
        Err(fault) => Err(certificate_in_memory(fault)),
    }
}

// The error of a certificate whose bytes are in memory. A read of these does not fail.
fn certificate_in_memory(fault: CertificateFault) -> CertificateFault
    ensures fault { (result ≡ fault)
        ⊎ ((fault.kind ≡ certificate_kinds.Read) × (result ≡ record { line = fault.line; kind = certificate_kinds.Memory })) }
    ensures not_read { result.kind ≢ certificate_kinds.Read }
{
    match fault.kind {
        CertificateFaultKind::Read => CertificateFault {
            line: fault.line,
            kind: CertificateFaultKind::Memory,
        },
        _ => fault,
    }
}

// The error of a file of the old edition.
pub(crate) fn old_fault(fault: OpenFault) -> UpgradeFault
    ensures { result ≡ old_fault_of fault }
{
    match fault {
        OpenFault::Table(fault) => UpgradeFault::OldTable(fault),
        OpenFault::Data(fault) => UpgradeFault::OldData(fault),
        OpenFault::Digits { row } => UpgradeFault::OldDigits { row },
        OpenFault::Memory => UpgradeFault::Memory,
    }
}

// The error of a file of the new edition.
pub(crate) fn new_fault(fault: OpenFault) -> UpgradeFault
    ensures { result ≡ new_fault_of fault }
{
    match fault {
        OpenFault::Table(fault) => UpgradeFault::NewTable(fault),
        OpenFault::Data(fault) => UpgradeFault::NewData(fault),
        OpenFault::Digits { row } => UpgradeFault::NewDigits { row },
        OpenFault::Memory => UpgradeFault::Memory,
    }
}

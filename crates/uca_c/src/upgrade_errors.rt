//! What C is told of an upgrade that is not opened.

ghost use Rattle.std.specs.Prelude.{◌≡◌};
ghost use Rattle.uca_changes.specs.Changes.{number_of};
ghost use Rattle.uca_c.specs.Numbers.{kind_number};
ghost use Rattle.uca_c.specs.UpgradeErrors.{map_kind_number, certificate_kind_number, place_kind, place_number};
ghost use Rattle.uca_c.specs.UpgradeErrors.{error_in, no_error, upgrade_error, upgrade_status};

use crate::numbers::number_of_kind;
use crate::statuses::{DIGITS, FILE, MEMORY, NOT_MET};
use crate::structs::UpgradeError;
use uca_certificates::CertificateFaultKind;
use uca_changes::{ChangeCondition, ChangePlace};
use uca_upgrade::UpgradeFault;
use uca_values::TableFault;
use uca_weights::MapFaultKind;

// The number of the kind of an error in the runs of a map.
fn number_of_map_kind(kind: MapFaultKind) -> u32
    ensures { result ≡ map_kind_number kind }
{
    match kind {
        MapFaultKind::Empty => 10,
        MapFaultKind::NotRising => 11,
        MapFaultKind::OutOfRange => 12,
        MapFaultKind::Fixed => 13,
    }
}

// The number of the kind of an error of a certificate.
fn number_of_certificate_kind(kind: CertificateFaultKind) -> u32
    ensures { result ≡ certificate_kind_number kind }
{
    match kind {
        CertificateFaultKind::Line => 1,
        CertificateFaultKind::Order => 2,
        CertificateFaultKind::Map(fault) => number_of_map_kind(fault.kind),
        CertificateFaultKind::Limit => 7,
        CertificateFaultKind::Read => 8,
        CertificateFaultKind::Memory => 9,
    }
}

// The number of a condition, from 1.
fn number_of_condition(condition: ChangeCondition) -> u32
    ensures { result ≡ number_of condition }
{
    match condition {
        ChangeCondition::OldIllFormed => 1,
        ChangeCondition::NewIllFormed => 2,
        ChangeCondition::RangeChanged => 3,
        ChangeCondition::Uncovered => 4,
        ChangeCondition::RowChanged => 5,
        ChangeCondition::RowMissing => 6,
        ChangeCondition::RowExtra => 7,
        ChangeCondition::PointChanged => 8,
        ChangeCondition::SettingChanged => 9,
    }
}

// What the number of a position counts, and that number.
fn numbers_of_place(place: ChangePlace) -> (u32, u32)
    ensures { result ≡ (place_kind place, place_number place) }
{
    match place {
        ChangePlace::Nowhere => (0, 0),
        ChangePlace::OldRow(row) => (1, row),
        ChangePlace::NewRow(row) => (2, row),
        ChangePlace::CodePoint(point) => (3, u32::from(point)),
    }
}

// An error in a file, counted from 1.
fn error_at(file: u32, line: u32, kind: u32) -> UpgradeError
    ensures { result ≡ error_in file line kind }
{
    UpgradeError {
        file,
        line,
        kind,
        condition: 0,
        place: 0,
        number: 0,
    }
}

// An error in a file of lines.
fn error_in_lines(file: u32, fault: TableFault) -> UpgradeError
    ensures { result ≡ error_in file fault.line (kind_number fault.kind) }
{
    error_at(file, fault.line, number_of_kind(fault.kind))
}

// A condition that is not met.
fn error_of_audit(condition: ChangeCondition, place: ChangePlace) -> UpgradeError
    ensures { result ≡ upgrade_error (UpgradeFault.NotMet condition place) }
{
    let (place, number) = numbers_of_place(place);
    UpgradeError {
        file: 0,
        line: 0,
        kind: 0,
        condition: number_of_condition(condition),
        place,
        number,
    }
}

// That no file is rejected, and that the audit rejects nothing.
pub fn nothing() -> UpgradeError
    ensures { result ≡ no_error }
{
    error_at(0, 0, 0)
}

fn error_of(fault: UpgradeFault) -> UpgradeError
    ensures { result ≡ upgrade_error fault }
{
    match fault {
        UpgradeFault::OldTable(fault) => error_in_lines(1, fault),
        UpgradeFault::OldData(fault) => error_in_lines(2, fault),
        UpgradeFault::NewTable(fault) => error_in_lines(3, fault),
        UpgradeFault::NewData(fault) => error_in_lines(4, fault),
        UpgradeFault::Changes(fault) => error_in_lines(5, fault),
        UpgradeFault::Certificate(fault) => {
            error_at(6, fault.line, number_of_certificate_kind(fault.kind))
        }
        UpgradeFault::OldDigits { row } => error_at(1, row, 0),
        UpgradeFault::NewDigits { row } => error_at(3, row, 0),
        UpgradeFault::NotMet(condition, place) => error_of_audit(condition, place),
        UpgradeFault::Memory => nothing(),
    }
}

fn status_of(fault: UpgradeFault) -> u32
    ensures { result ≡ upgrade_status fault }
{
    match fault {
        UpgradeFault::OldDigits { .. } | UpgradeFault::NewDigits { .. } => DIGITS,
        UpgradeFault::NotMet(_, _) => NOT_MET,
        UpgradeFault::Memory => MEMORY,
        _ => FILE,
    }
}

// Tells why no upgrade is opened. Returns the status of the call.
pub fn tell(fault: UpgradeFault, error: &mut UpgradeError) -> u32
    ensures error { error.new ≡ upgrade_error fault }
    ensures status { result ≡ upgrade_status fault }
{
    *error = error_of(fault);
    status_of(fault)
}

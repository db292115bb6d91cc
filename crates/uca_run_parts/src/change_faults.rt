//! The texts of errors of changes.

ghost use Rattle.std.specs.Prelude.{◌≡◌, ◌≤◌, length};
ghost use Rattle.uca_changes.specs.Changes.{number_of};
ghost use Rattle.uca_run_parts.specs.ChangeFaultText.{change_fault_text, change_place_text, change_verdict_text, condition_text};

use std::str;
use uca_changes::{ChangeCondition, ChangeFault, ChangePlace};
use uca_lines::fields::{six_digits, spare_digits};
use uca_weights::Message;

/// The text of an error of a change: `RowChanged old row 3`, `PointChanged code point 00E9`, `SettingChanged`.
pub fn change_message(fault: ChangeFault) -> Message
    ensures text { result ≡ change_fault_text fault }
    ensures short { length result ≤ 80 }
{
    match fault {
        ChangeFault::NotMet(condition, place) => Message::of(condition_name(condition)).text(
            place_message(place).as_str(),
        ),
        ChangeFault::Memory => Message::of("out of memory"),
    }
}

/// The verdict of an audit that rejects a change: `refused 5 RowChanged old row 3`.
pub fn change_verdict(fault: ChangeFault) -> Message
    ensures text { result ≡ change_verdict_text fault }
    ensures short { length result ≤ 120 }
{
    match fault {
        ChangeFault::NotMet(condition, _) => Message::of("refused ")
            .number(condition_number(condition))
            .text(" ")
            .text(change_message(fault).as_str()),
        ChangeFault::Memory => change_message(fault),
    }
}

// The name of a condition.
fn condition_name(condition: ChangeCondition) -> &'static str
    ensures text { result.now ≡ condition_text condition }
    ensures short { length result.now ≤ 20 }
{
    match condition {
        ChangeCondition::OldIllFormed => "OldIllFormed",
        ChangeCondition::NewIllFormed => "NewIllFormed",
        ChangeCondition::RangeChanged => "RangeChanged",
        ChangeCondition::Uncovered => "Uncovered",
        ChangeCondition::RowChanged => "RowChanged",
        ChangeCondition::RowMissing => "RowMissing",
        ChangeCondition::RowExtra => "RowExtra",
        ChangeCondition::PointChanged => "PointChanged",
        ChangeCondition::SettingChanged => "SettingChanged",
    }
}

// The number of a condition, from 1.
fn condition_number(condition: ChangeCondition) -> u64
    ensures { result ≡ number_of condition }
{
    match condition {
        ChangeCondition::OldIllFormed => 1,
        ChangeCondition::NewIllFormed => 2,
        ChangeCondition::RangeChanged => 3,
        ChangeCondition::Uncovered => 4,
        ChangeCondition::RowChanged => 5,
        ChangeCondition::RowMissing => 6,
        ChangeCondition::RowExtra => 7,
        ChangeCondition::PointChanged => 8,
        ChangeCondition::SettingChanged => 9,
    }
}

// The text of a position: ` old row 3`. It is empty where there is none.
fn place_message(place: ChangePlace) -> Message
    ensures text { result ≡ change_place_text place }
    ensures short { length result ≤ 40 }
{
    match place {
        ChangePlace::OldRow(row) => Message::of(" old row ").number(row.into()),
        ChangePlace::NewRow(row) => Message::of(" new row ").number(row.into()),
        ChangePlace::CodePoint(point) => point_message(point),
        ChangePlace::Nowhere => Message::of(""),
    }
}

// The text of a position that is a code point: ` code point 00E9`.
fn point_message(point: char) -> Message
    ensures text { result ≡ change_place_text (ChangePlace.CodePoint point) }
    ensures short { length result ≤ 40 }
{
    let digits = six_digits(u32::from(point));
    let text = str::from_utf8(&digits[spare_digits(point)..]).unwrap();
    Message::of(" code point ").text(text)
}

//! Why an audit rejects a tailoring.

ghost use Rattle.std.specs.Prelude.{◌≡◌, ◌≤◌, length, Some};
ghost use Rattle.uca_audit.specs.FaultText.{audit_fault_text, name_of, place_text};

use std::alloc::AllocError;
use std::fmt;
use thiserror::Error;
use uca_weights::Message;

/// Where a condition fails.
#[derive(Clone, Copy, PartialEq, Eq)]
pub enum Place {
    /// In no row and no relation.
    Nowhere,
    /// At a row of the base, counted from 1.
    BaseRow(u32),
    /// At a row of the tailored table, counted from 1.
    TailoredRow(u32),
    /// At a relation of the rules, counted from 1.
    Relation(u32),
}

impl Place {
    // Its text: ` base row 3`; nothing for `Nowhere`.
    fn message(&self) -> Message
        ensures text { result ≡ place_text self.now }
        ensures short { length result ≤ 40 }
    {
        match self {
            Place::Nowhere => Message::of(""),
            Place::BaseRow(row) => Message::of(" base row ").number((*row).into()),
            Place::TailoredRow(row) => Message::of(" tailored row ").number((*row).into()),
            Place::Relation(number) => Message::of(" relation ").number((*number).into()),
        }
    }
}

impl fmt::Display for Place {
    ghost output = { λ place. Some (place_text place) };

    fn fmt<W: fmt::Write>(&self, f: &mut fmt::Formatter<W>) -> fmt::Result {
        f.write_str(self.message().as_str())
    }
}

impl fmt::Debug for Place {
    fn fmt<W: fmt::Write>(&self, f: &mut fmt::Formatter<W>) -> fmt::Result {
        write!(f, "{self}")
    }
}

/// An audit rejects a tailoring: the first condition that fails, and the first position where it does.
#[derive(Clone, Copy, PartialEq, Eq, Error)]
pub struct AuditFault {
    /// The number of the condition, 1 to 11, in the order of [`Condition`](crate::Condition); 12 if an allocation
    /// failed.
    pub number: u8,
    /// Where it fails.
    pub place: Place,
}

impl AuditFault {
    /// The name of the condition that fails, as [`Condition`] has it; `Memory` if an allocation failed.
    pub fn name(&self) -> &'static str
        ensures { result.now ≡ name_of self.now.number }
    {
        match self.number {
            1 => "BaseIllFormed",
            2 => "TailoredIllFormed",
            3 => "Header",
            4 => "Uncovered",
            5 => "RowChanged",
            6 => "RowMissing",
            7 => "RowExtra",
            8 => "Anchor",
            9 => "NotPlaced",
            10 => "NotFresh",
            11 => "NotNearest",
            _ => "Memory",
        }
    }

    /// Its text: `refused 10 NotFresh relation 1`.
    pub fn message(&self) -> Message
        ensures text { result ≡ audit_fault_text self.now }
        ensures short { length result ≤ 100 }
    {
        Message::of("refused ")
            .number(self.number.into())
            .text(" ")
            .text(self.name())
            .text(self.place.message().as_str())
    }
}

impl fmt::Display for AuditFault {
    ghost output = { λ fault. Some (audit_fault_text fault) };

    fn fmt<W: fmt::Write>(&self, f: &mut fmt::Formatter<W>) -> fmt::Result {
        f.write_str(self.message().as_str())
    }
}

impl fmt::Debug for AuditFault {
    fn fmt<W: fmt::Write>(&self, f: &mut fmt::Formatter<W>) -> fmt::Result {
        write!(f, "{self}")
    }
}

impl From<AllocError> for AuditFault {
    ghost use Rattle.uca_audit.specs.Refusals.{IsMemory};

    ghost from_gives = { λ _ fault. IsMemory fault };

    fn from(_error: AllocError) -> AuditFault {
        AuditFault {
            number: 12,
            place: Place::Nowhere,
        }
    }
}

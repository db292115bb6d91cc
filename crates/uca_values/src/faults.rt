//! Why a table file or a data file is rejected.

ghost use Rattle.std.specs.Prelude.{◌≡◌, ◌≤◌, length, Some};
ghost use Rattle.uca_values.specs.declared.faults.FaultKind.{FaultKind};
ghost use Rattle.uca_values.specs.FaultText.{kind_text, table_fault_text};

use std::alloc::{AllocError, AllocFailed};
use std::fmt;
use thiserror::Error;
use uca_weights::Message;

/// Why a table file or a data file is rejected.
#[derive(Clone, Copy, Debug, PartialEq, Eq)]
pub enum FaultKind {
    /// The line is none of those that the file may have.
    Line,
    /// The line comes where it may not, or a line that has to be there is missing.
    Order,
    /// Something else comes where a code point must be.
    CodePoint,
    /// Something else comes where a weight or a class must be.
    Weight,
    /// The key of the row is that of an earlier row.
    DuplicateKey,
    /// A range is empty, overlaps another, or has a lead that it may not have.
    Range,
    /// A count or a length is above its limit.
    Limit,
    /// The reader failed.
    Read,
    /// An allocation failed.
    Memory,
}

impl FaultKind {
    /// The name of the kind, as it is written in an error line.
    pub fn name(self) -> &'static str
        ensures { result.now ≡ kind_text self }
    {
        match self {
            FaultKind::Line => "Line",
            FaultKind::Order => "Order",
            FaultKind::CodePoint => "CodePoint",
            FaultKind::Weight => "Weight",
            FaultKind::DuplicateKey => "DuplicateKey",
            FaultKind::Range => "Range",
            FaultKind::Limit => "Limit",
            FaultKind::Read => "Read",
            FaultKind::Memory => "Memory",
        }
    }
}

impl fmt::Display for FaultKind {
    ghost output = { λ kind. Some (kind_text kind) };

    fn fmt<W: fmt::Write>(&self, f: &mut fmt::Formatter<W>) -> fmt::Result {
        f.write_str(self.name())
    }
}

/// A table file or a data file is rejected: the line, and why. A file that ends too early has the number
/// of its lines plus one.
#[derive(Clone, Copy, Debug, PartialEq, Eq, Error)]
pub struct TableFault {
    /// The line, counted from 1.
    pub line: u32,
    /// Why it is rejected.
    pub kind: FaultKind,
}

impl TableFault {
    /// Its text: `line 7: Range`.
    pub fn message(&self) -> Message
        ensures text { result ≡ table_fault_text self.now }
        ensures short { length result ≤ 60 }
    {
        Message::of("line ")
            .number(self.line.into())
            .text(": ")
            .text(self.kind.name())
    }
}

impl From<AllocError> for FaultKind {
    ghost from_gives = { λ _ kind. kind ≡ FaultKind.Memory };

    fn from(_error: AllocError) -> FaultKind {
        FaultKind::Memory
    }
}

impl<T: Drop> From<AllocFailed<T>> for FaultKind {
    ghost from_gives = { λ _ kind. kind ≡ FaultKind.Memory };

    fn from(_error: AllocFailed<T>) -> FaultKind {
        FaultKind::Memory
    }
}

impl fmt::Display for TableFault {
    ghost output = { λ fault. Some (table_fault_text fault) };

    fn fmt<W: fmt::Write>(&self, f: &mut fmt::Formatter<W>) -> fmt::Result {
        f.write_str(self.message().as_str())
    }
}

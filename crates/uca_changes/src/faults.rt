//! Why an audit rejects a change.

ghost use Rattle.std.specs.Prelude.{◌≡◌};
ghost use Rattle.uca_changes.specs.declared.faults.ChangeFault.{ChangeFault};

use crate::ChangeCondition;
use std::alloc::AllocError;
use std::fmt;
use thiserror::Error;

/// Where a condition is not met. Its text: `old row 3`, `new row 3`, `code point 00E9`, or nothing.
#[derive(Clone, Copy, Debug, PartialEq, Eq)]
pub enum ChangePlace {
    /// At a row of the old table, counted from 1.
    OldRow(u32),
    /// At a row of the new table, counted from 1.
    NewRow(u32),
    /// At a code point.
    CodePoint(char),
    /// At no row and no code point: the headers differ.
    Nowhere,
}

impl fmt::Display for ChangePlace {
    fn fmt<W: fmt::Write>(&self, f: &mut fmt::Formatter<W>) -> fmt::Result {
        match self {
            ChangePlace::OldRow(row) => write!(f, "old row {row}"),
            ChangePlace::NewRow(row) => write!(f, "new row {row}"),
            ChangePlace::CodePoint(point) => write!(f, "code point {:04X}", u32::from(*point)),
            ChangePlace::Nowhere => Ok(()),
        }
    }
}

/// An audit rejects a change, or it ran out of memory. Its text: `RowChanged old row 3`, or `SettingChanged`.
#[derive(Clone, Copy, Debug, PartialEq, Eq, Error)]
pub enum ChangeFault {
    /// The first condition that is not met, and the first position where it is not.
    NotMet(ChangeCondition, ChangePlace),
    /// An allocation failed.
    Memory,
}

impl fmt::Display for ChangeFault {
    fn fmt<W: fmt::Write>(&self, f: &mut fmt::Formatter<W>) -> fmt::Result {
        match self {
            ChangeFault::NotMet(condition, ChangePlace::Nowhere) => write!(f, "{condition:?}"),
            ChangeFault::NotMet(condition, place) => write!(f, "{condition:?} {place}"),
            ChangeFault::Memory => f.write_str("out of memory"),
        }
    }
}

impl From<AllocError> for ChangeFault {
    ghost from_gives = { λ _ fault. fault ≡ ChangeFault.Memory };

    fn from(_error: AllocError) -> ChangeFault {
        ChangeFault::Memory
    }
}

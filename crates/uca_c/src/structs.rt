//! What a call tells beside its status.

ghost use Rattle.std.specs.Prelude.{◌≡◌};
ghost use Rattle.uca_c.specs.Numbers.{order_number};

use crate::numbers::number_of_order;
use std::cmp::Ordering;

/// Where a file is rejected, and why.
#[repr(C)]
#[derive(Clone, Copy, Debug, Drop)]
pub struct FileError {
    /// The line, counted from 1, or 0 if no file is rejected. With the status `DIGITS` it is the row of the table to blame,
    /// counted from 1, or 0 if a digit has no row.
    pub line: u32,
    /// 1 `Line`, 2 `Order`, 3 `CodePoint`, 4 `Weight`, 5 `DuplicateKey`, 6 `Range`, 7 `Limit`, 8 `Read`, 9 `Memory`, or 0.
    pub kind: u32,
}

/// Why an upgrade is not opened. All are 0 unless a file is rejected, or the audit rejects what the files mean.
#[repr(C)]
#[derive(Clone, Copy, Debug, Drop)]
pub struct UpgradeError {
    /// The file: 1 the old table, 2 its data file, 3 the new table, 4 its data file, 5 the file of changes,
    /// 6 the certificate.
    pub file: u32,
    /// Its line, counted from 1. With the status `DIGITS` it is the row of the table to blame, or 0 if a digit has no row.
    pub line: u32,
    /// The kind, as in a `FileError`; of a certificate also 10 `Map Empty`, 11 `Map NotRising`, 12 `Map OutOfRange`,
    /// 13 `Map Fixed`.
    pub kind: u32,
    /// The condition of the audit that is not met, counted from 1.
    pub condition: u32,
    /// What the number is: 1 a row of the old table, 2 a row of the new table, 3 a code point, or 0 nothing.
    pub place: u32,
    /// The first position where the condition is not met.
    pub number: u32,
}

/// How two texts or two keys compare.
#[repr(C)]
#[derive(Clone, Copy, Debug, Drop)]
pub struct Comparison {
    /// -1, 0 or 1.
    pub order: i32,
    /// The first level at which they differ, from 1 on, or 0 if none does.
    pub level: u32,
}

impl Comparison {
    /// The comparison of two texts that have this order and differ at level 1.
    #[inline(always)]
    pub(crate) fn of_letters(order: Ordering) -> Comparison
        ensures { (result.order ≡ order_number order) × (result.level ≡ 1) }
    {
        Comparison {
            order: number_of_order(order),
            level: 1,
        }
    }
}

//! The status of a call, as a number. `bindings/c/include/uca.h` has the same numbers.

ghost use Rattle.std.specs.Prelude.{◌≡◌};
ghost use Rattle.uca_c.specs.Statuses.{key_status, compare_status};

use uca_owned::{CompareFault, KeyFault};
use uca_text::TextFault;

/// The call did what it says.
pub const OK: u32 = 0;

/// The collator or the upgrade is closed.
pub const CLOSED: u32 = 1;

/// The collator or the upgrade is open already.
pub const ALREADY_OPEN: u32 = 2;

/// A number is none of those that the call takes.
pub const ARGUMENT: u32 = 3;

/// The table is rejected.
pub const TABLE: u32 = 4;

/// The data file is rejected.
pub const DATA: u32 = 5;

/// An allocation failed.
pub const MEMORY: u32 = 6;

/// A text is not UTF-8.
pub const UTF8: u32 = 7;

/// A text is too long.
pub const TOO_LONG: u32 = 8;

/// A text has too many non-starters in a row.
pub const LONG_RUN: u32 = 9;

/// The caller's memory has no room for what is written.
pub const SMALL: u32 = 10;

/// The book is rejected.
pub const BOOK: u32 = 11;

/// The collator has no book.
pub const NO_BOOK: u32 = 12;

/// The bytes are no key, or no compact key.
pub const NO_KEY: u32 = 13;

/// A file of an upgrade is rejected.
pub const FILE: u32 = 14;

/// The audit rejects what the files of an upgrade mean.
pub const NOT_MET: u32 = 15;

/// A weight of a key has no image under an upgrade.
pub const NO_IMAGE: u32 = 16;

/// Numbers are to be ordered by value, and a table does not order them.
pub const DIGITS: u32 = 17;

// The status of a text that is rejected.
pub fn status_of_text(fault: KeyFault) -> u32
    ensures { result ≡ key_status fault }
{
    match fault {
        KeyFault::Utf8 => UTF8,
        KeyFault::Text(TextFault::TooLong) => TOO_LONG,
        KeyFault::Text(TextFault::LongRun(_)) => LONG_RUN,
        KeyFault::Text(TextFault::Memory) => MEMORY,
    }
}

// The status of two texts of which one is rejected.
pub fn status_of_texts(fault: CompareFault) -> u32
    ensures { result ≡ compare_status fault }
{
    match fault {
        CompareFault::Left(fault) => status_of_text(fault),
        CompareFault::Right(fault) => status_of_text(fault),
    }
}

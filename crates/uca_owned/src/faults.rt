//! Why a file or a text is rejected.

use thiserror::Error;
use uca_text::TextFault;
use uca_values::TableFault;

/// Why no collator was opened.
#[derive(Clone, Copy, Debug, PartialEq, Eq, Error)]
pub enum OpenFault {
    /// The bytes of the table are rejected.
    #[error("the table is rejected")]
    Table(TableFault),
    /// The bytes of the data file are rejected.
    #[error("the data file is rejected")]
    Data(TableFault),
    /// Both files are read. Numbers were to be ordered by value, and the table does not order them.
    #[error("the table does not order numbers")]
    Digits {
        /// The row to blame, counted from 1 in file order; 0 if a digit has no row.
        row: u32,
    },
    /// An allocation failed, once both files were read.
    #[error("out of memory")]
    Memory,
}

/// Why a text is rejected.
#[derive(Clone, Copy, Debug, PartialEq, Eq, Error)]
pub enum KeyFault {
    /// Its bytes are not UTF-8.
    #[error("the text is not UTF-8")]
    Utf8,
    /// The text is rejected, or an allocation failed.
    #[error("the text is rejected")]
    Text(TextFault),
}

/// Which of two texts is rejected, and why.
#[derive(Clone, Copy, Debug, PartialEq, Eq, Error)]
pub enum CompareFault {
    /// The left one.
    #[error("the left text is rejected")]
    Left(KeyFault),
    /// The right one. The left one is accepted.
    #[error("the right text is rejected")]
    Right(KeyFault),
}

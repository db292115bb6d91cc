//! Why no upgrade is opened.

use thiserror::Error;
use uca_certificates::CertificateFault;
use uca_changes::{ChangeCondition, ChangePlace};
use uca_values::TableFault;

/// Why no upgrade is opened: a file is rejected, or the audit rejects what the files mean, or an allocation failed.
#[derive(Clone, Copy, Debug, PartialEq, Eq, Error)]
pub enum UpgradeFault {
    /// The bytes of the old table are rejected.
    #[error("the old table is rejected")]
    OldTable(TableFault),
    /// The bytes of the old data file are rejected.
    #[error("the old data file is rejected")]
    OldData(TableFault),
    /// The bytes of the new table are rejected.
    #[error("the new table is rejected")]
    NewTable(TableFault),
    /// The bytes of the new data file are rejected.
    #[error("the new data file is rejected")]
    NewData(TableFault),
    /// The bytes of the file of changes are rejected.
    #[error("the file of changes is rejected")]
    Changes(TableFault),
    /// The bytes of the certificate are rejected.
    #[error("the certificate is rejected")]
    Certificate(CertificateFault),
    /// All files are read. Numbers were ordered by value, and the old table does not order them.
    #[error("the old table does not order numbers")]
    OldDigits {
        /// The row to blame, counted from 1 in file order; 0 if a digit has no row.
        row: u32,
    },
    /// All files are read. Numbers were ordered by value, and the new table does not order them.
    #[error("the new table does not order numbers")]
    NewDigits {
        /// The row to blame, counted from 1 in file order; 0 if a digit has no row.
        row: u32,
    },
    /// All files are read, and the audit rejects the change that they mean: the first condition that is not met, and
    /// the first position where it is not.
    #[error("the audit rejects the change")]
    NotMet(ChangeCondition, ChangePlace),
    /// An allocation failed, once all files were read.
    #[error("out of memory")]
    Memory,
}

//! `Failure`: why an example fails. `?` makes it from the error of each call.

use std::alloc::AllocError;
use std::io;
use thiserror::Error;
use uca_collation::{AuditFault, RuleFault, TableFault, TailorFault, TextFault};

/// The error of an example: `?` makes it from the error of each call.
#[derive(Debug, Drop, Error)]
pub enum Failure {
    #[error(transparent)]
    Table(#[from] TableFault),
    #[error(transparent)]
    Text(#[from] TextFault),
    #[error(transparent)]
    Rules(#[from] RuleFault),
    #[error(transparent)]
    Tailor(#[from] TailorFault),
    #[error(transparent)]
    Audit(#[from] AuditFault),
    #[error(transparent)]
    Output(#[from] io::Error),
    #[error("out of memory")]
    Memory(#[from(alloc)] AllocError),
}

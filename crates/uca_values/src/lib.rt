//! What table files and data files mean: tables of collation elements (`Table`, `Row`, `Header`), and the properties of
//! code points (`Data`). `TableFault` says why a file is rejected, and `PackedTable` has the rows of a table in a few
//! lists. `uca_table` reads all of them from bytes.
//!
//! The values are apart from the readers. What reads texts needs the values alone, so it is proved beside the readers.
#![tactic(auto)]

mod characters;
mod faults;
mod implicit;
pub mod limits;
mod packed;
pub mod ranges;
mod tables;

pub use characters::{Data, RangeFault};
pub use faults::{FaultKind, TableFault};
pub use implicit::worked_implicit_weights;
pub use packed::{PackedRows, PackedTable};
pub use tables::{Header, Row, Table};

/// The code points from `first` to `last`, both included.
#[derive(Clone, Copy, Debug, PartialEq, Eq)]
pub struct CodePointRange {
    /// The first code point.
    pub first: char,
    /// The last code point.
    pub last: char,
}

/// A range of code points with one canonical combining class (UAX #44).
#[derive(Clone, Copy, Debug, PartialEq, Eq)]
pub struct ClassRange {
    /// The first code point.
    pub first: char,
    /// The last code point.
    pub last: char,
    /// The class of each of them, 1 to 254.
    pub class: u8,
}

/// A range whose code points get implicit weights with their own lead
/// (`@implicitweights`, UTS #10, section 9.1).
#[derive(Clone, Copy, Debug, PartialEq, Eq)]
pub struct ImplicitRange {
    /// The first code point.
    pub first: char,
    /// The last code point.
    pub last: char,
    /// The primary weight of their first implicit element, FB00 to FB3F.
    pub lead: u16,
}

//! The conditions on an accepted change, by the names of their failures.

/// The conditions on an accepted change, in the order in which they are tested. Each has the name of its failure.
#[derive(Clone, Copy, Debug, PartialEq, Eq)]
pub enum ChangeCondition {
    /// The old table is not well-formed (UTS #10, section 9.2).
    OldIllFormed,
    /// The new table is not well-formed.
    NewIllFormed,
    /// A code point outside of the changed ranges has other implicit weights by the ranges of the headers.
    RangeChanged,
    /// A weight other than 0 of an old row that is not listed has no image at its level.
    Uncovered,
    /// The new row of an old key that is not listed is not the image of its old row.
    RowChanged,
    /// An old key that is not listed has no new row.
    RowMissing,
    /// A new key is neither an old key nor listed.
    RowExtra,
    /// A code point outside of the changed ranges has another class, or is another kind of Han, in the new data file.
    PointChanged,
    /// The headers say two weightings. A header without `@variable` says shifted.
    SettingChanged,
}

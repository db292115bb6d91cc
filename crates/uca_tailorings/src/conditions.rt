//! The conditions on an accepted tailoring, by the names of their failures.

/// The conditions on an accepted tailoring, in the order in which they are tested. Each has the name of its failure.
#[derive(Clone, Copy, Debug, PartialEq, Eq)]
pub enum Condition {
    /// The base is not well-formed (UTS #10, section 9.2).
    BaseIllFormed,
    /// The tailored table is not well-formed.
    TailoredIllFormed,
    /// The version, the variable setting or the ranges for implicit weights differ.
    Header,
    /// A weight of a base row other than 0 has no image at its level.
    Uncovered,
    /// The tailored row of a base key that is not a target is not the image of its base row.
    RowChanged,
    /// A base key or a target has no tailored row.
    RowMissing,
    /// A tailored key is neither a base key nor a target.
    RowExtra,
    /// The elements of an anchor have no last one that a new weight can be put on.
    Anchor,
    /// A target has other elements than its relation asks for, with any new weight on the right side.
    NotPlaced,
    /// A new weight is one that the base gives: the image of a base weight, or 0020 at level 2 or 0002 at level 3. Or
    /// it is that of another relation, or at level 1 a weight from 8000 up.
    NotFresh,
    /// A weight that the base gives, or the new weight of an earlier relation, lies between a new weight and its
    /// anchor's.
    NotNearest,
}
